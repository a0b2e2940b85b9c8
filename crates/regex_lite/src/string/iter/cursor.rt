//! Where an iterator stands in a haystack. It is a type of its own, since a scan is set back to one
//! when the groups of a match are refused.
ghost use Rattle.std.specs.Prelude.{◌≡◌, ◌↔◌, IsTrue, Some, None, IsCharBoundary, false, unwrap_or};

use crate::string::matches::Match;
use std::fmt;

/// A haystack, the end of the last match in it, whether that match was empty, and how many more
/// matches the iterator may return.
#[derive(Clone, Copy)]
pub(crate) struct Cursor<'h> {
    pub haystack: &'h str,
    pub ended: Option<usize>,
    pub was_empty: bool,
    pub limit: Option<usize>,
    pub ghost stands: { IsCharBoundary haystack.now (unwrap_or ended 0) },
}

impl<'h> Cursor<'h> {
    ghost use Rattle.regex_lite.specs.MatchList.{one_less};
    ghost use Rattle.regex_lite.specs.MatchViews.{haystack_of_match, span_of_match};

    /// The position before the first match. With a limit, at most that many matches follow.
    pub fn start(haystack: &'h str, limit: Option<usize>) -> Cursor<'h>
        ensures haystack { result.haystack.now ≡ haystack.now }
        ensures ended { result.ended ≡ None }
        ensures was_empty { result.was_empty ≡ false }
        ensures limit { result.limit ≡ limit }
    {
        Cursor {
            haystack,
            ended: None,
            was_empty: false,
            limit,
        }
    }

    /// The position after a match that ended at this offset or, if there was none, at the start.
    /// The number of matches that follow isn't limited.
    pub fn after(haystack: &'h str, ended: Option<usize>) -> Cursor<'h>
        requires { IsCharBoundary haystack.now (unwrap_or ended 0) }
        ensures haystack { result.haystack.now ≡ haystack.now }
        ensures ended { result.ended ≡ ended }
        ensures was_empty { result.was_empty ≡ false }
        ensures limit { result.limit ≡ None }
    {
        Cursor {
            haystack,
            ended,
            was_empty: false,
            limit: None,
        }
    }

    /// Whether the limit is reached.
    pub fn is_over(self) -> bool
        ensures { IsTrue result ↔ (self.entry.limit ≡ Some 0) }
    {
        self.limit == Some(0)
    }

    /// The position after this match.
    pub fn pass(self, found: &Match<'h>) -> Cursor<'h>
        requires { haystack_of_match found.now ≡ self.haystack.now }
        ensures haystack { result.haystack.now ≡ self.entry.haystack.now }
        ensures ended { result.ended ≡ Some (span_of_match found.now).1 }
        ensures was_empty { IsTrue result.was_empty
            ↔ ((span_of_match found.now).0 ≡ (span_of_match found.now).1) }
        ensures limit { result.limit ≡ one_less self.entry.limit }
    {
        Cursor {
            haystack: self.haystack,
            ended: Some(found.end()),
            was_empty: found.is_empty(),
            limit: self.limit.map(|n| n.saturating_sub(1)),
        }
    }

    /// The same position, with no more matches.
    pub fn at_end(self) -> Cursor<'h>
        ensures haystack { result.haystack.now ≡ self.entry.haystack.now }
        ensures ended { result.ended ≡ self.entry.ended }
        ensures limit { result.limit ≡ Some 0 }
    {
        Cursor {
            haystack: self.haystack,
            ended: self.ended,
            was_empty: self.was_empty,
            limit: Some(0),
        }
    }
}

/// Writes the haystack, the end of the last match and how many more may follow.
impl<'h> fmt::Debug for Cursor<'h> {
    fn fmt<W: fmt::Write>(&self, f: &mut fmt::Formatter<W>) -> fmt::Result {
        f.debug_struct("Cursor")
            .field("haystack", &self.haystack)
            .field("ended", &self.ended)
            .field("limit", &self.limit)
            .finish()
    }
}
