//! An iterator over the matches in a haystack.
ghost use Rattle.std.specs.Prelude.{◌≡◌, None, IfOk, IfErr, IsCharBoundary, unwrap_or};
ghost use Rattle.regex_lite_syntax.specs.Errors.{out_of_memory};
ghost use Rattle.regex_lite.specs.Ahead.{after, ahead_of, whole};

use crate::string::iter::cursor::Cursor;
use crate::string::iter::scan::Scan;
use crate::string::matches::Match;
use crate::string::regex::Regex;
use crate::string::searcher::Searcher;
use regex_lite_syntax::Error;
use std::fmt;
use std::iter::FusedIterator;
use std::marker::Model;

impl Regex {
    /// All matches, from left to right.
    ///
    /// The first is the match of [`Regex::find`]. The search for the next starts where the last one
    /// ended; if it finds an empty match right there, it starts one character later instead. So no
    /// two matches overlap.
    ///
    /// ```
    /// let regex = Regex::new(alloc, "a*")?;
    /// for found in regex.find_iter("aab")? {
    ///     found.range(); // 0..2, then 3..3
    /// }
    /// ```
    ///
    /// The test `examples::all_matches` in tests/unit runs this example.
    ///
    /// # Errors
    ///
    /// `Memory` if memory runs out. The items need no memory, so they never fail.
    pub fn find_iter<'r, 'h>(&'r self, haystack: &'h str) -> Result<Matches<'r, 'h>, Error>
        ensures ahead { IfOk result (λ it. ahead_of it ≡ whole self.now haystack.now None) }
        ensures begins { IfOk result (λ it. it.ended ≡ None) }
        ensures refused { IfErr result (λ error. error ≡ out_of_memory) }
    {
        Matches::new(self, haystack, None)
    }

    /// The matches of [`Regex::find_iter`] that follow one that ended at this offset; with `None`,
    /// all of them. So an iteration can be resumed.
    ///
    /// Condition: the offset is on a character boundary of the haystack.
    ///
    /// ```
    /// let regex = Regex::new(alloc, "a*")?;
    /// for found in regex.find_iter_after("aabaa", Some(2))? {
    ///     found.range(); // 3..5
    /// }
    /// ```
    ///
    /// The test `examples::later_matches` in tests/unit runs this example.
    ///
    /// # Errors
    ///
    /// `Memory` if memory runs out. The items need no memory, so they never fail.
    pub fn find_iter_after<'r, 'h>(
        &'r self,
        haystack: &'h str,
        ended: Option<usize>,
    ) -> Result<Matches<'r, 'h>, Error>
        requires { IsCharBoundary haystack.now (unwrap_or ended 0) }
        ensures ahead { IfOk result (λ it. ahead_of it ≡ after self.now haystack.now ended) }
        ensures begins { IfOk result (λ it. it.ended ≡ ended) }
        ensures refused { IfErr result (λ error. error ≡ out_of_memory) }
    {
        let searcher = Searcher::new(self, 0, haystack.len())?;
        Ok(Matches {
            scan: Scan::after(searcher, haystack, ended),
        })
    }
}

/// An iterator over the matches in a haystack: [`Regex::find_iter`] returns it.
///
/// After the last match it always returns `None`. The matches borrow only the haystack, so they can
/// outlive the iterator and the regex.
#[derive(Drop)]
pub struct Matches<'r, 'h> {
    scan: Scan<'h, Searcher<'r>>,
}

impl<'r, 'h> Model for Matches<'r, 'h> {
    ghost use Rattle.regex_lite.specs.Expression.{Expression};
    ghost use Rattle.regex_lite.specs.Scanning.{Scanning, seen_by};

    ghost Value = { Scanning Expression };

    ghost view = { λ it. seen_by (λ own. own.regex) it.scan };
}

impl<'r, 'h> Matches<'r, 'h> {
    /// The matches in the haystack, up to the limit if there is one.
    #[inline(never)]
    pub(crate) fn new(
        regex: &'r Regex,
        haystack: &'h str,
        limit: Option<usize>,
    ) -> Result<Matches<'r, 'h>, Error>
        ensures ahead { IfOk result (λ it. ahead_of it ≡ whole regex.now haystack.now limit) }
        ensures begins { IfOk result (λ it. it.ended ≡ None) }
        ensures refused { IfErr result (λ error. error ≡ out_of_memory) }
    {
        let searcher = Searcher::new(regex, 0, haystack.len())?;
        Ok(Matches {
            scan: Scan::new(searcher, haystack, limit),
        })
    }

    /// The iterator's position.
    pub(super) fn cursor(&self) -> Cursor<'h>
        ensures haystack { result.haystack.now ≡ self.now.haystack }
        ensures ended { result.ended ≡ self.now.ended }
    {
        self.scan.cursor()
    }
}

impl<'r, 'h> Iterator for Matches<'r, 'h> {
    ghost use Rattle.regex_lite.specs.Ahead.{most_matches};
    ghost use Rattle.regex_lite.specs.Items.{GivesMatch};

    type Item = Match<'h>;

    ghost next_gives = { GivesMatch };

    ghost remaining = { most_matches };

    fn next(&mut self) -> Option<Match<'h>> {
        let (_, found) = self.scan.next()?;
        Some(found)
    }
}

impl<'r, 'h> FusedIterator for Matches<'r, 'h> {}

/// Writes the regex and the iterator's position.
impl<'r, 'h> fmt::Debug for Matches<'r, 'h> {
    fn fmt<W: fmt::Write>(&self, f: &mut fmt::Formatter<W>) -> fmt::Result {
        self.scan.fmt_as("Matches", f)
    }
}
