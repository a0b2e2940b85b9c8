//! An iterator over the groups of all matches of several patterns in a haystack.
ghost use Rattle.std.specs.Prelude.{◌≡◌, None, IfOk, IfErr, IsCharBoundary, unwrap_or};
ghost use Rattle.regex_lite_syntax.specs.Errors.{out_of_memory};
ghost use Rattle.regex_lite.specs.ListAhead.{list_after, list_ahead_of, whole_list};

use crate::string::captures::Captures;
use crate::string::iter::group_scan::GroupScan;
use crate::string::list::RegexList;
use crate::string::list::searcher::ListSearcher;
use regex_lite_syntax::Error;
use std::fmt;
use std::iter::FusedIterator;
use std::marker::Model;

impl RegexList {
    /// The groups of each match of [`RegexList::find_iter`], with the number of its pattern.
    ///
    /// ```
    /// let list = RegexList::new(alloc, &["([a-z])[0-9]", "([0-9])"])?;
    /// for item in list.captures_iter("a12")? {
    ///     let (number, caps) = item?;
    ///     number; // 0, then 1
    ///     caps.get(1); // the match of "a", then that of "2"
    /// }
    /// ```
    ///
    /// The test `examples::lists::all_groups` in tests/unit runs this example.
    ///
    /// # Errors
    ///
    /// `Memory` if memory runs out. Each item needs memory of its own, and may be an error too,
    /// which is then the last item.
    pub fn captures_iter<'r, 'h>(
        &'r self,
        haystack: &'h str,
    ) -> Result<ListCaptureMatches<'r, 'h>, Error>
        ensures ahead { IfOk result
            (λ it. list_ahead_of it ≡ whole_list self.now haystack.now) }
        ensures begins { IfOk result (λ it. it.ended ≡ None) }
        ensures refused { IfErr result (λ error. error ≡ out_of_memory) }
    {
        self.captures_iter_after(haystack, None)
    }

    /// The groups of each match of [`RegexList::find_iter_after`], with the number of its pattern.
    ///
    /// Condition: the offset is on a character boundary of the haystack.
    ///
    /// # Errors
    ///
    /// `Memory` if memory runs out. An item may be this error too, which is then the last item.
    pub fn captures_iter_after<'r, 'h>(
        &'r self,
        haystack: &'h str,
        ended: Option<usize>,
    ) -> Result<ListCaptureMatches<'r, 'h>, Error>
        requires { IsCharBoundary haystack.now (unwrap_or ended 0) }
        ensures ahead { IfOk result
            (λ it. list_ahead_of it ≡ list_after self.now haystack.now ended) }
        ensures begins { IfOk result (λ it. it.ended ≡ ended) }
        ensures refused { IfErr result (λ error. error ≡ out_of_memory) }
    {
        let searcher = ListSearcher::new(self, self.kept_slots(), haystack.len())?;
        Ok(ListCaptureMatches {
            scan: GroupScan::after(searcher, haystack, ended),
        })
    }
}

/// An iterator over the groups of all matches of several patterns in a haystack, each with the
/// number of its pattern: [`RegexList::captures_iter`] returns it.
///
/// After the last match, and after an error, it always returns `None`. The groups borrow only the
/// haystack, so they can outlive the iterator and the list.
#[derive(Drop)]
pub struct ListCaptureMatches<'r, 'h> {
    scan: GroupScan<'h, ListSearcher<'r>>,
}

impl<'r, 'h> Model for ListCaptureMatches<'r, 'h> {
    ghost use Rattle.std.specs.Prelude.{List};
    ghost use Rattle.regex_lite.specs.Expression.{Expression};
    ghost use Rattle.regex_lite.specs.Scanning.{Scanning, seen_by};

    ghost Value = { Scanning (List Expression) };

    ghost view = { λ it. seen_by (λ own. own.list) it.scan };
}

impl<'r, 'h> Iterator for ListCaptureMatches<'r, 'h> {
    ghost use Rattle.regex_lite.specs.Ahead.{most_matches};
    ghost use Rattle.regex_lite.specs.ListAhead.{GivesListGroups};

    type Item = Result<(usize, Captures<'h>), Error>;

    ghost next_gives = { GivesListGroups };

    ghost remaining = { most_matches };

    fn next(&mut self) -> Option<Result<(usize, Captures<'h>), Error>> {
        self.scan.next()
    }
}

impl<'r, 'h> FusedIterator for ListCaptureMatches<'r, 'h> {}

/// Writes the patterns and the iterator's position.
impl<'r, 'h> fmt::Debug for ListCaptureMatches<'r, 'h> {
    fn fmt<W: fmt::Write>(&self, f: &mut fmt::Formatter<W>) -> fmt::Result {
        self.scan.fmt_as("ListCaptureMatches", f)
    }
}
