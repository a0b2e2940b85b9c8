//! An iterator over the matches of several patterns in a haystack.
ghost use Rattle.std.specs.Prelude.{◌≡◌, None, IfOk, IfErr, IsCharBoundary, unwrap_or};
ghost use Rattle.regex_lite_syntax.specs.Errors.{out_of_memory};
ghost use Rattle.regex_lite.specs.ListAhead.{list_after, list_ahead_of, whole_list};

use crate::string::iter::scan::Scan;
use crate::string::list::RegexList;
use crate::string::list::searcher::ListSearcher;
use crate::string::matches::Match;
use regex_lite_syntax::Error;
use std::fmt;
use std::iter::FusedIterator;
use std::marker::Model;

impl RegexList {
    /// All matches, from left to right, each with the number of its pattern.
    ///
    /// The first is the match of [`RegexList::find`]. The search for the next, for all patterns,
    /// starts where the last one ended; if it finds an empty match right there, it starts one
    /// character later instead. So no two matches overlap.
    ///
    /// ```
    /// let list = RegexList::new(alloc, &["if", "[a-z]+", "[0-9]+"])?;
    /// for (number, found) in list.find_iter("if x1")? {
    ///     number; // 0, then 1, then 2
    ///     found.range(); // 0..2, then 3..4, then 4..5
    /// }
    /// ```
    ///
    /// The test `examples::lists::all_matches` in tests/unit runs this example.
    ///
    /// # Errors
    ///
    /// `Memory` if memory runs out. The items need no memory, so they never fail.
    pub fn find_iter<'r, 'h>(&'r self, haystack: &'h str) -> Result<ListMatches<'r, 'h>, Error>
        ensures ahead { IfOk result
            (λ it. list_ahead_of it ≡ whole_list self.now haystack.now) }
        ensures begins { IfOk result (λ it. it.ended ≡ None) }
        ensures refused { IfErr result (λ error. error ≡ out_of_memory) }
    {
        let searcher = ListSearcher::new(self, 0, haystack.len())?;
        Ok(ListMatches {
            scan: Scan::new(searcher, haystack, None),
        })
    }

    /// The matches of [`RegexList::find_iter`] that follow one that ended at this offset; with
    /// `None`, all of them. So an iteration can be resumed.
    ///
    /// Condition: the offset is on a character boundary of the haystack.
    ///
    /// ```
    /// let list = RegexList::new(alloc, &["if", "[a-z]+", "[0-9]+"])?;
    /// for (number, found) in list.find_iter_after("if x1", Some(2))? {
    ///     number; // 1, then 2
    ///     found.range(); // 3..4, then 4..5
    /// }
    /// ```
    ///
    /// The test `examples::lists::later_matches` in tests/unit runs this example.
    ///
    /// # Errors
    ///
    /// `Memory` if memory runs out. The items need no memory, so they never fail.
    pub fn find_iter_after<'r, 'h>(
        &'r self,
        haystack: &'h str,
        ended: Option<usize>,
    ) -> Result<ListMatches<'r, 'h>, Error>
        requires { IsCharBoundary haystack.now (unwrap_or ended 0) }
        ensures ahead { IfOk result
            (λ it. list_ahead_of it ≡ list_after self.now haystack.now ended) }
        ensures begins { IfOk result (λ it. it.ended ≡ ended) }
        ensures refused { IfErr result (λ error. error ≡ out_of_memory) }
    {
        let searcher = ListSearcher::new(self, 0, haystack.len())?;
        Ok(ListMatches {
            scan: Scan::after(searcher, haystack, ended),
        })
    }
}

/// An iterator over the matches of several patterns in a haystack, each with the number of its
/// pattern: [`RegexList::find_iter`] returns it.
///
/// After the last match it always returns `None`. The matches borrow only the haystack, so they can
/// outlive the iterator and the list.
#[derive(Drop)]
pub struct ListMatches<'r, 'h> {
    scan: Scan<'h, ListSearcher<'r>>,
}

impl<'r, 'h> Model for ListMatches<'r, 'h> {
    ghost use Rattle.std.specs.Prelude.{List};
    ghost use Rattle.regex_lite.specs.Expression.{Expression};
    ghost use Rattle.regex_lite.specs.Scanning.{Scanning, seen_by};

    ghost Value = { Scanning (List Expression) };

    ghost view = { λ it. seen_by (λ own. own.list) it.scan };
}

impl<'r, 'h> Iterator for ListMatches<'r, 'h> {
    ghost use Rattle.regex_lite.specs.Ahead.{most_matches};
    ghost use Rattle.regex_lite.specs.ListAhead.{GivesListMatch};

    type Item = (usize, Match<'h>);

    ghost next_gives = { GivesListMatch };

    ghost remaining = { most_matches };

    fn next(&mut self) -> Option<(usize, Match<'h>)> {
        self.scan.next()
    }
}

impl<'r, 'h> FusedIterator for ListMatches<'r, 'h> {}

/// Writes the patterns and the iterator's position.
impl<'r, 'h> fmt::Debug for ListMatches<'r, 'h> {
    fn fmt<W: fmt::Write>(&self, f: &mut fmt::Formatter<W>) -> fmt::Result {
        self.scan.fmt_as("ListMatches", f)
    }
}
