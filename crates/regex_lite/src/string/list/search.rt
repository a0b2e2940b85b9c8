//! Searches for whether and where one of several patterns matches.
ghost use Rattle.std.specs.Prelude.{◌≡◌, ◌↔◌, IfOk, IfErr, IsTrue};
ghost use Rattle.regex_lite_syntax.specs.Errors.{out_of_memory};
ghost use Rattle.regex_lite.specs.RegexListSearches.{AnyMatches, TellsMatchOfList};
ghost use Rattle.regex_lite.specs.Searches.{CanStartAt};

use crate::string::list::RegexList;
use crate::string::matches::Match;
use regex_lite_syntax::Error;

impl RegexList {
    /// Whether one of the patterns matches somewhere in the haystack.
    ///
    /// The search stops at the first match that it can confirm.
    ///
    /// # Errors
    ///
    /// `Memory` if memory runs out.
    pub fn is_match(&self, haystack: &str) -> Result<bool, Error>
        ensures found { IfOk result (λ found. IsTrue found ↔ AnyMatches self.now haystack.now 0) }
        ensures refused { IfErr result (λ error. error ≡ out_of_memory) }
    {
        self.is_match_at(haystack, 0)
    }

    /// Whether one of the patterns matches somewhere from this offset on.
    ///
    /// Looks see the whole haystack: `^` matches at the haystack's start, not at the start of the
    /// search. If the start is above the haystack's length, the result is `false`.
    ///
    /// Condition: the start is above the haystack's length or on a character boundary.
    ///
    /// # Errors
    ///
    /// `Memory` if memory runs out.
    pub fn is_match_at(&self, haystack: &str, start: usize) -> Result<bool, Error>
        requires { CanStartAt haystack.now start }
        ensures found { IfOk result
            (λ found. IsTrue found ↔ AnyMatches self.now haystack.now start) }
        ensures refused { IfErr result (λ error. error ≡ out_of_memory) }
    {
        let (found, _) = self.is_match_counted_at(haystack, start)?;
        Ok(found)
    }

    /// The match that starts first, with the number of its pattern.
    ///
    /// If several patterns match there, the one with the lowest number is returned, with the match
    /// that it prefers there: the one that its own [`Regex`](crate::Regex) would find.
    ///
    /// ```
    /// let list = RegexList::new(alloc, &["if", "[a-z]+"])?;
    /// if let Some((number, found)) = list.find("(iffy)")? {
    ///     number; // 0
    ///     found.range(); // 1..3
    /// }
    /// ```
    ///
    /// The test `examples::lists::first_match` in tests/unit runs this example.
    ///
    /// # Errors
    ///
    /// `Memory` if memory runs out.
    pub fn find<'h>(&self, haystack: &'h str) -> Result<Option<(usize, Match<'h>)>, Error>
        ensures found { IfOk result (λ found. TellsMatchOfList self.now haystack.now 0 found) }
        ensures refused { IfErr result (λ error. error ≡ out_of_memory) }
    {
        self.find_at(haystack, 0)
    }

    /// The match that starts first, at this offset or later, with the number of its pattern.
    ///
    /// Looks see the whole haystack, as they do in [`RegexList::is_match_at`].
    ///
    /// Condition: the start is above the haystack's length or on a character boundary.
    ///
    /// # Errors
    ///
    /// `Memory` if memory runs out.
    pub fn find_at<'h>(
        &self,
        haystack: &'h str,
        start: usize,
    ) -> Result<Option<(usize, Match<'h>)>, Error>
        requires { CanStartAt haystack.now start }
        ensures found { IfOk result
            (λ found. TellsMatchOfList self.now haystack.now start found) }
        ensures refused { IfErr result (λ error. error ≡ out_of_memory) }
    {
        let (found, _) = self.find_counted_at(haystack, start)?;
        Ok(found)
    }
}
