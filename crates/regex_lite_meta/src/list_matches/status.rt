//! The status of a pattern in a pass over a haystack.
ghost use Rattle.std.specs.Prelude.{◌≡◌, ◌⊎◌, ◌+◌, ◌<◌, ℕ, List, IfSome, IsTrue, IsUtf8, None};
ghost use Rattle.std.specs.Prelude.{chars, length};
ghost use Rattle.regex_lite_engine.specs.Graph.Places.{Place};
ghost use Rattle.regex_lite_engine.specs.Search.Here.{IsHere};
ghost use Rattle.regex_lite_meta.specs.ListPass.{PassKnows, IsRest};
ghost use Rattle.regex_lite_meta.specs.declared.list_matches.status.Status.TheVariants.{Open};

use regex_lite_engine::search::here::Here;

/// What a pass over a haystack for all patterns of a list knows about one of them.
#[derive(Clone, Copy)]
pub(crate) enum Status {
    /// It is known whether the pattern matches.
    Known(bool),
    /// No match of the pattern starts before this offset, nor before the position of the pass.
    Open(usize),
    /// No match of the pattern starts before this offset, from which on it is searched for by
    /// itself.
    Left(usize),
}

/// What is left to do for a pattern after the pass.
#[derive(Clone, Copy)]
pub(super) enum Rest {
    /// Nothing: it is known whether the pattern matches.
    Known(bool),
    /// The pattern is searched for by itself from this offset on.
    From(usize),
}

impl Status {
    /// Whether a pattern that may start at this offset is tried there.
    pub(super) fn is_due(self, at: usize) -> bool
        ensures due { IsTrue result → (from : ℕ) × (self ≡ Open from) }
        ensures later { ¬ IsTrue result → (from : ℕ) → self ≡ Open from → at < from }
    {
        match self {
            Status::Open(from) => from <= at,
            Status::Known(_) | Status::Left(_) => false,
        }
    }

    /// What is left to do for the pattern after a pass that was abandoned here or that reached the
    /// haystack's end.
    pub(super) fn rest(self, left: Option<Here>) -> Rest
        ensures ended { left ≡ None → (table : List (Place ℕ)) (bytes : List ℕ) (entry s : ℕ)
            → PassKnows table bytes entry s (length (chars bytes) + 1) self
            → IsRest table bytes entry s result }
        ensures left { IfSome left (λ here. (table : List (Place ℕ)) (bytes : List ℕ)
            (entry s q : ℕ) → IsUtf8 bytes → IsHere (chars bytes) q here
            → PassKnows table bytes entry s q self → IsRest table bytes entry s result) }
    {
        match self {
            Status::Known(found) => Rest::Known(found),
            Status::Left(from) => Rest::From(from),
            Status::Open(from) => match left {
                None => Rest::Known(false),
                Some(here) => Rest::From(later(from, here.at)),
            },
        }
    }
}

/// The later of two offsets.
fn later(one: usize, other: usize) -> usize
    ensures { (result ≡ one) ⊎ (result ≡ other) }
{
    if one < other { other } else { one }
}
