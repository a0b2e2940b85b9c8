//! What a search is for, and how often it is made.

/// What a search is for.
#[derive(Clone, Copy)]
pub(crate) enum Wanted {
    /// One match at or after this offset, and the cost of the search.
    Match { start: usize },
    /// One match at or after this offset, by any number of searches.
    Uncounted { start: usize },
    /// The earliest end of any match, once.
    Earliest,
    /// One match after another, by searches that reuse their memory.
    EachMatch,
}

impl Wanted {
    /// Whether one match is wanted, whatever its slots.
    #[inline(always)]
    pub(super) fn is_one(self) -> bool {
        matches!(self, Wanted::Match { .. } | Wanted::Uncounted { .. })
    }

    /// Whether one match from a later offset than the haystack's start is wanted.
    #[inline(always)]
    pub(super) fn is_later(self) -> bool {
        match self {
            Wanted::Match { start } | Wanted::Uncounted { start } => start > 0,
            Wanted::Earliest | Wanted::EachMatch => false,
        }
    }

    /// Whether there are mostly many searches.
    #[inline(always)]
    pub(super) fn is_each(self) -> bool {
        matches!(self, Wanted::EachMatch)
    }

    /// Whether one search may find a match and another its slots. That isn't so if the cost of both
    /// would count together, nor for a search that is mostly short.
    #[inline(always)]
    pub(super) fn may_search_twice(self) -> bool {
        match self {
            Wanted::Uncounted { start } => start == 0,
            Wanted::EachMatch => true,
            Wanted::Match { .. } | Wanted::Earliest => false,
        }
    }
}
