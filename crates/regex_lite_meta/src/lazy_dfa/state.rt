//! The states of a lazy DFA.
ghost use Rattle.std.specs.Prelude.{◌≡◌, ◌<◌, IfSome, Option, Some, true, ◌↔◌, IsTrue, None};
ghost use Rattle.regex_lite_meta.specs.LazyDfa.Automaton.{StoredStart};
ghost use Rattle.regex_lite_meta.specs.LazyDfa.Stored.{is_known, is_restarting, known_match_flag};
ghost use Rattle.regex_lite_meta.specs.LazyDfa.Stored.{last_match_flag, match_flag_in};
ghost use Rattle.regex_lite_meta.specs.LazyDfa.Intervals.{context_of};
ghost use Rattle.regex_lite_syntax.specs.Tree.Looks.{is_word};

use std::mem::size_of;

/// One NFA state of a DFA state: a place, whether the path to it began at the first start, and the
/// number of its pattern.
#[derive(Clone, Copy)]
pub(crate) struct StoredWay {
    pub place: u32,
    pub number: u32,
    pub is_first: bool,
}

/// The match flag of a state: whether a match was complete, whether it began at the first start,
/// and the number of its pattern.
#[derive(Clone, Copy)]
pub(crate) enum MatchFlag {
    /// No match was complete.
    Nowhere,
    AtFirst(u32),
    AtLater(u32),
}

/// A DFA state: all that a search depends on between two characters, in any haystack.
#[derive(Clone, Copy)]
pub(crate) struct StoredState {
    /// The start of the state's ways in the list of all, and their number.
    pub from: usize,
    pub len: usize,
    /// Whether there is no match yet.
    pub searching: bool,
    /// Whether the last position replaces an earlier one as the first start.
    pub restarts: bool,
    /// The look context of the character before.
    pub before: LookContext,
    /// Whether a match was complete at the last position.
    pub match_flag: MatchFlag,
}

// A lazy DFA has hundreds of them.
const _: () = prove!(size_of::<StoredState>() == 32);

/// Where a transition leads: the next state, and the kind of the transition.
#[derive(Clone, Copy)]
pub(crate) struct NextState {
    /// The start of the state's row in the transition table.
    pub row: u16,
    /// The number of the state.
    pub state: u8,
    // The last field, so that one comparison of all bytes tells whether the transition is special.
    pub kind: TransitionKind,
}

/// The kind of a transition: what it does besides changing the state, as far as that is known
/// without reading the state.
#[derive(Clone, Copy)]
pub(crate) enum TransitionKind {
    /// Nothing: the state has threads, and no match was complete.
    NonSpecial,
    /// The state has threads, and a match of the first pattern was complete, which began at the
    /// first start.
    Completes,
    /// The state has no threads, and no match was complete.
    Empties,
    /// The state has no threads, and a match of the first pattern was complete, which began at the
    /// first start.
    Ends,
    /// The state has threads, no match was complete, and the position of the transition is the
    /// first start from there on.
    Restarts,
    /// The state says what it does.
    ByState,
    /// The transition isn't cached.
    Unknown,
}

// A lazy DFA has thousands of them.
const _: () = prove!(size_of::<NextState>() == 4);

/// Whether the lists of ways are equal.
pub(crate) fn are_same(ways: &[StoredWay], others: &[StoredWay]) -> bool
    ensures { result ≡ true → ways.now ≡ others.now }
{
    if ways.len() != others.len() {
        return false;
    }
    'ways: for k in 0..ways.len() {
        if !ways[k].is(others[k]) {
            return false;
        }
    }
    true
}

impl NextState {
    /// The transition, if it is cached.
    #[inline(always)]
    pub(super) fn cached(self) -> Option<NextState>
        ensures { IfSome result (λ next_state. (next_state ≡ self) × (is_known self.kind ≡ true)) }
    {
        if let TransitionKind::Unknown = self.kind {
            return None;
        }
        Some(self)
    }
}

impl StoredWay {
    /// A number that identifies the way, for hashing.
    pub(super) fn bits(self) -> u64 {
        (self.number as u64) << 33 | (self.place as u64) << 1 | self.is_first as u64
    }

    /// Whether the ways are equal.
    fn is(self, other: StoredWay) -> bool
        ensures { result ≡ true → self ≡ other }
    {
        self.place == other.place && self.number == other.number && self.is_first == other.is_first
    }
}

impl StoredState {
    /// Whether the state has these properties, whatever its ways.
    pub(crate) fn is_like(
        &self,
        searching: bool,
        before: LookContext,
        match_flag: MatchFlag,
        restarts: bool,
    ) -> bool
        ensures searching { result ≡ true → self.now.searching ≡ searching }
        ensures before { result ≡ true → self.now.before ≡ before }
        ensures match_flag { result ≡ true → self.now.match_flag ≡ match_flag }
        ensures restarts { result ≡ true → self.now.restarts ≡ restarts }
    {
        self.searching == searching
            && self.restarts == restarts
            && self.before.is(before)
            && self.match_flag.is(match_flag)
    }

    /// The kind of a transition to this state.
    pub(crate) fn kind(&self) -> TransitionKind
        ensures known { is_known result ≡ true }
        ensures some { (match_flag : Option StoredStart) → known_match_flag result ≡ Some match_flag
            → 0 < self.now.len }
        ensures match_flag { (match_flag : Option StoredStart) → known_match_flag result ≡ Some
            match_flag → match_flag_in self.now.match_flag ≡ match_flag }
        ensures restarts { (match_flag : Option StoredStart) → known_match_flag result ≡ Some
            match_flag → self.now.restarts ≡ is_restarting result }
        ensures none { (match_flag : Option StoredStart) → last_match_flag result ≡ Some match_flag
            → self.now.len ≡ 0 }
        ensures last { (match_flag : Option StoredStart) → last_match_flag result ≡ Some match_flag
            → match_flag_in self.now.match_flag ≡ match_flag }
    {
        match self.match_flag {
            MatchFlag::Nowhere => {
                if self.len == 0 {
                    TransitionKind::Empties
                } else if self.restarts {
                    TransitionKind::Restarts
                } else {
                    TransitionKind::NonSpecial
                }
            }
            MatchFlag::AtFirst(0) => {
                if self.len == 0 {
                    TransitionKind::Ends
                } else if self.restarts {
                    TransitionKind::ByState
                } else {
                    TransitionKind::Completes
                }
            }
            MatchFlag::AtFirst(_) | MatchFlag::AtLater(_) => TransitionKind::ByState,
        }
    }
}

impl MatchFlag {
    /// Whether the match flags are equal.
    pub(crate) fn is(self, other: MatchFlag) -> bool
        ensures { result ≡ true → self ≡ other }
    {
        match self {
            MatchFlag::Nowhere => matches!(other, MatchFlag::Nowhere),
            MatchFlag::AtFirst(number) => match other {
                MatchFlag::AtFirst(of_other) => number == of_other,
                _ => false,
            },
            MatchFlag::AtLater(number) => match other {
                MatchFlag::AtLater(of_other) => number == of_other,
                _ => false,
            },
        }
    }
}

/// The look context: what looks distinguish of the character before or after a position.
#[derive(Clone, Copy)]
pub(crate) struct LookContext {
    /// Whether there is no character.
    pub is_none: bool,
    pub is_line_feed: bool,
    pub is_carriage_return: bool,
    pub is_word: bool,
}

impl LookContext {
    /// The look context of this character.
    pub(crate) fn of(c: Option<char>) -> LookContext
        ensures { result ≡ context_of c }
    {
        let Some(c) = c else {
            return LookContext::none();
        };
        LookContext {
            is_none: false,
            is_line_feed: c == '\n',
            is_carriage_return: c == '\r',
            is_word: is_word_char(c),
        }
    }

    /// The look context without a character.
    pub(crate) fn none() -> LookContext
        ensures { result ≡ context_of None }
    {
        LookContext {
            is_none: true,
            is_line_feed: false,
            is_carriage_return: false,
            is_word: false,
        }
    }

    /// Whether the contexts are equal.
    pub(crate) fn is(self, other: LookContext) -> bool
        ensures { IsTrue result ↔ (self ≡ other) }
    {
        self.is_none == other.is_none
            && self.is_line_feed == other.is_line_feed
            && self.is_carriage_return == other.is_carriage_return
            && self.is_word == other.is_word
    }
}

/// Whether it is a word character.
fn is_word_char(c: char) -> bool
    ensures { result ≡ is_word (Some c) }
{
    c.is_ascii_alphanumeric() || c == '_'
}
