//! An iterator over the groups of a match.
ghost use Rattle.std.specs.Prelude.{◌≡◌, Some, IfSome, length, option_map, ⊤};
ghost use Rattle.std.specs.Iterator.{YieldsFirstBy, UpTo, item_count};
ghost use Rattle.std.specs.Iterator.SizeHint.{IsWithinCount};

use crate::string::captures::Captures;
use crate::string::matches::Match;
use std::alloc::AllocError;
use std::fmt;
use std::iter::FusedIterator;
use std::marker::Model;

/// An iterator over the last match of each group by index, beginning with the whole match. A group
/// that took no part has `None`.
///
/// The number of groups left is exact. A clone continues from the same group, and needs no memory.
#[derive(Drop)]
pub struct SubCaptureMatches<'c, 'h> {
    captures: &'c Captures<'h>,
    next: usize,
}

impl<'c, 'h> Model for SubCaptureMatches<'c, 'h> {
    ghost use Rattle.std.specs.Prelude.{drop};
    ghost use Rattle.regex_lite.specs.MatchViews.{Coming};

    ghost Value = { Coming };

    ghost view = { λ it. record {
      groups = it.captures.now;
      spans = drop it.next it.captures.now.spans;
    } };
}

impl<'c, 'h> SubCaptureMatches<'c, 'h> {
    /// An iterator over all of these groups.
    pub(super) fn new(captures: &'c Captures<'h>) -> SubCaptureMatches<'c, 'h>
        ensures haystack { result.groups ≡ captures.now }
        ensures groups { result.spans ≡ captures.now.spans }
    {
        SubCaptureMatches { captures, next: 0 }
    }
}

impl<'c, 'h> Clone for SubCaptureMatches<'c, 'h> {
    ghost is_clone = { λ old new. new ≡ old };

    ghost is_infallible = { λ _. ⊤ };

    fn clone(&self) -> Result<SubCaptureMatches<'c, 'h>, AllocError> {
        Ok(SubCaptureMatches {
            captures: self.captures,
            next: self.next,
        })
    }
}

impl<'c, 'h> Iterator for SubCaptureMatches<'c, 'h> {
    ghost use Rattle.regex_lite.specs.MatchViews.{groups_to_come, match_with_haystack};

    type Item = Option<Match<'h>>;

    ghost next_gives = { YieldsFirstBy (option_map match_with_haystack) groups_to_come };

    ghost remaining = { item_count groups_to_come };

    fn next(&mut self) -> Option<Option<Match<'h>>> {
        if self.next >= self.captures.len() {
            return None;
        }
        let group = self.captures.get(self.next);
        self.next += 1;
        Some(group)
    }

    fn size_hint(&self) -> (usize, Option<usize>)
        ensures lower { IsWithinCount result.0 (item_count groups_to_come self.now) }
        ensures upper { IfSome result.1 (UpTo (item_count groups_to_come self.now)) }
        ensures exact { result ≡ (
          length (groups_to_come self.now),
          Some (length (groups_to_come self.now)),
        ) }
    {
        let len = self.captures.len().saturating_sub(self.next);
        (len, Some(len))
    }
}

impl<'c, 'h> ExactSizeIterator for SubCaptureMatches<'c, 'h> {
    fn len(&self) -> usize {
        self.captures.len().saturating_sub(self.next)
    }
}

impl<'c, 'h> FusedIterator for SubCaptureMatches<'c, 'h> {}

/// Writes the groups of the match.
impl<'c, 'h> fmt::Debug for SubCaptureMatches<'c, 'h> {
    fn fmt<W: fmt::Write>(&self, f: &mut fmt::Formatter<W>) -> fmt::Result {
        f.debug_tuple("SubCaptureMatches")
            .field(self.captures)
            .finish()
    }
}
