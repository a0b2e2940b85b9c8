//! An iterator over the groups of all matches in a haystack.
ghost use Rattle.std.specs.Prelude.{◌≡◌, None, IfOk, IfErr, IsCharBoundary, unwrap_or};
ghost use Rattle.regex_lite_syntax.specs.Errors.{out_of_memory};
ghost use Rattle.regex_lite.specs.Ahead.{after, ahead_of, whole};

use crate::string::captures::Captures;
use crate::string::iter::group_scan::GroupScan;
use crate::string::regex::Regex;
use crate::string::searcher::Searcher;
use regex_lite_syntax::Error;
use std::fmt;
use std::iter::FusedIterator;
use std::marker::Model;

impl Regex {
    /// The groups of each match of [`Regex::find_iter`].
    ///
    /// ```
    /// let regex = Regex::new(alloc, "([a-z])([0-9])")?;
    /// for item in regex.captures_iter("a1 b2")? {
    ///     let caps = item?;
    ///     if caps.get(2).is_some() {
    ///         caps.at(2); // "1", then "2"
    ///     }
    /// }
    /// ```
    ///
    /// The test `examples::all_groups` in tests/unit runs this example.
    ///
    /// # Errors
    ///
    /// `Memory` if memory runs out. Each item needs memory of its own, and may be an error too,
    /// which is then the last item.
    pub fn captures_iter<'r, 'h>(
        &'r self,
        haystack: &'h str,
    ) -> Result<CaptureMatches<'r, 'h>, Error>
        ensures ahead { IfOk result (λ it. ahead_of it ≡ whole self.now haystack.now None) }
        ensures begins { IfOk result (λ it. it.ended ≡ None) }
        ensures refused { IfErr result (λ error. error ≡ out_of_memory) }
    {
        self.captures_iter_after(haystack, None)
    }

    /// The groups of each match of [`Regex::find_iter_after`].
    ///
    /// Condition: the offset is on a character boundary of the haystack.
    ///
    /// # Errors
    ///
    /// `Memory` if memory runs out. An item may be this error too, which is then the last item.
    pub fn captures_iter_after<'r, 'h>(
        &'r self,
        haystack: &'h str,
        ended: Option<usize>,
    ) -> Result<CaptureMatches<'r, 'h>, Error>
        requires { IsCharBoundary haystack.now (unwrap_or ended 0) }
        ensures ahead { IfOk result (λ it. ahead_of it ≡ after self.now haystack.now ended) }
        ensures begins { IfOk result (λ it. it.ended ≡ ended) }
        ensures refused { IfErr result (λ error. error ≡ out_of_memory) }
    {
        let searcher = Searcher::new(self, self.kept_slots(), haystack.len())?;
        Ok(CaptureMatches {
            scan: GroupScan::after(searcher, haystack, ended),
        })
    }
}

/// An iterator over the groups of all matches in a haystack: [`Regex::captures_iter`] returns it.
///
/// After the last match, and after an error, it always returns `None`. The groups borrow only the
/// haystack, so they can outlive the iterator and the regex.
#[derive(Drop)]
pub struct CaptureMatches<'r, 'h> {
    scan: GroupScan<'h, Searcher<'r>>,
}

impl<'r, 'h> Model for CaptureMatches<'r, 'h> {
    ghost use Rattle.regex_lite.specs.Expression.{Expression};
    ghost use Rattle.regex_lite.specs.Scanning.{Scanning, seen_by};

    ghost Value = { Scanning Expression };

    ghost view = { λ it. seen_by (λ own. own.regex) it.scan };
}

impl<'r, 'h> Iterator for CaptureMatches<'r, 'h> {
    ghost use Rattle.regex_lite.specs.Ahead.{most_matches};
    ghost use Rattle.regex_lite.specs.Items.{GivesGroups};

    type Item = Result<Captures<'h>, Error>;

    ghost next_gives = { GivesGroups };

    ghost remaining = { most_matches };

    fn next(&mut self) -> Option<Result<Captures<'h>, Error>> {
        match self.scan.next()? {
            Ok((_, caps)) => Some(Ok(caps)),
            Err(error) => Some(Err(error)),
        }
    }
}

impl<'r, 'h> FusedIterator for CaptureMatches<'r, 'h> {}

/// Writes the regex and the iterator's position.
impl<'r, 'h> fmt::Debug for CaptureMatches<'r, 'h> {
    fn fmt<W: fmt::Write>(&self, f: &mut fmt::Formatter<W>) -> fmt::Result {
        self.scan.fmt_as("CaptureMatches", f)
    }
}
