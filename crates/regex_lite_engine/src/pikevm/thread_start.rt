//! What a search keeps about where a thread began.
ghost use Rattle.std.specs.Prelude.{◌≡◌, ℕ, Some, None};
ghost use Rattle.regex_lite_engine.specs.Search.ThreadStarts.{Reported, TellsStart, no_start};

/// The start of a thread as a search keeps it: the offset, with or without the number of the
/// pattern, or nothing if only the end of a match is asked for.
pub trait ThreadStart: Copy {
    /// What it says about the start of a thread.
    ghost reported: { Self → Reported };

    /// What it says about a thread that began at this offset, of the pattern with this number.
    ghost reported_of: { (at number : ℕ) → Reported };

    /// The start of a thread that begins at this offset, of the pattern with this number.
    fn at(at: usize, number: u32) -> Self
        ensures { reported result ≡ reported_of at number };

    /// What it says about such a thread is true.
    ghost tells: { (at number : ℕ) → TellsStart (reported_of at number) at number };
}

// Only the offset is kept, since there is one pattern.
impl ThreadStart for usize {
    ghost use Rattle.std.specs.Prelude.{refl};

    ghost reported = { λ at. record { at = Some at; number = None } };

    ghost reported_of = { λ at _. record { at = Some at; number = None } };

    fn at(at: usize, _: u32) -> usize {
        at
    }

    ghost tells = { λ at _. record { start_reported = refl; number_reported = tt } };
}

/// The offset, and the number of the pattern.
#[derive(Clone, Copy)]
pub struct MatchStart {
    pub at: usize,
    pub number: u32,
}

impl ThreadStart for MatchStart {
    ghost use Rattle.std.specs.Prelude.{refl};

    ghost reported = { λ match_start. record {
      at = Some match_start.at;
      number = Some match_start.number;
    } };

    ghost reported_of = { λ at number. record { at = Some at; number = Some number } };

    fn at(at: usize, number: u32) -> MatchStart {
        MatchStart { at, number }
    }

    ghost tells = { λ at number. record { start_reported = refl; number_reported = refl } };
}

/// Nothing is kept: this has size 0.
#[derive(Clone, Copy)]
pub struct NoStart;

impl ThreadStart for NoStart {
    ghost reported = { λ _. no_start };

    ghost reported_of = { λ _ _. no_start };

    fn at(_: usize, _: u32) -> NoStart {
        NoStart
    }

    ghost tells = { λ _ _. record { start_reported = tt; number_reported = tt } };
}
