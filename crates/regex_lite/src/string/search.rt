//! Searches for whether and where a regex matches.
ghost use Rattle.std.specs.Prelude.{◌≡◌, ◌↔◌, IfOk, IfErr, IsTrue};
ghost use Rattle.regex_lite_syntax.specs.Errors.{out_of_memory};
ghost use Rattle.regex_lite.specs.Searches.{CanStartAt, MatchesFrom, TellsEnd, TellsMatch};

use crate::string::matches::Match;
use crate::string::regex::Regex;
use regex_lite_syntax::Error;

impl Regex {
    /// Whether the pattern matches somewhere in the haystack.
    ///
    /// The search stops at the first match that it can confirm.
    ///
    /// ```
    /// let regex = Regex::new(alloc, "a??b")?;
    /// regex.is_match("b")?; // true
    /// regex.is_match("a")?; // false
    /// ```
    ///
    /// The test `examples::search` in tests/unit runs this example.
    ///
    /// # Errors
    ///
    /// `Memory` if memory runs out.
    pub fn is_match(&self, haystack: &str) -> Result<bool, Error>
        ensures found { IfOk result (λ found. IsTrue found ↔ MatchesFrom self.now haystack.now 0) }
        ensures refused { IfErr result (λ error. error ≡ out_of_memory) }
    {
        self.is_match_at(haystack, 0)
    }

    /// Whether the pattern matches somewhere from this offset on.
    ///
    /// Looks see the whole haystack: `^` matches at the haystack's start, not at the start of the
    /// search. If the start is above the haystack's length, the result is `false`.
    ///
    /// Condition: the start is above the haystack's length or on a character boundary.
    ///
    /// # Errors
    ///
    /// `Memory` if memory runs out.
    pub fn is_match_at(&self, haystack: &str, start: usize) -> Result<bool, Error>
        requires { CanStartAt haystack.now start }
        ensures found { IfOk result
            (λ found. IsTrue found ↔ MatchesFrom self.now haystack.now start) }
        ensures refused { IfErr result (λ error. error ≡ out_of_memory) }
    {
        let (found, _) = self.is_match_counted_at(haystack, start)?;
        Ok(found)
    }

    /// The match that starts first. If several start there, it is the one that the pattern prefers.
    ///
    /// An alternation prefers its earlier branches. A greedy operator prefers one more pass to
    /// stopping, and a lazy one stopping to one more pass.
    ///
    /// ```
    /// let regex = Regex::new(alloc, "sam|samwise")?;
    /// if let Some(found) = regex.find("mr samwise")? {
    ///     found.start(); // 3
    ///     found.end(); // 6
    /// }
    /// ```
    ///
    /// The test `examples::first_match` in tests/unit runs this example.
    ///
    /// # Errors
    ///
    /// `Memory` if memory runs out.
    pub fn find<'h>(&self, haystack: &'h str) -> Result<Option<Match<'h>>, Error>
        ensures found { IfOk result (λ found. TellsMatch self.now haystack.now 0 found) }
        ensures refused { IfErr result (λ error. error ≡ out_of_memory) }
    {
        self.find_at(haystack, 0)
    }

    /// The match that starts first, at this offset or later.
    ///
    /// Looks see the whole haystack, as they do in [`Regex::is_match_at`].
    ///
    /// Condition: the start is above the haystack's length or on a character boundary.
    ///
    /// # Errors
    ///
    /// `Memory` if memory runs out.
    pub fn find_at<'h>(&self, haystack: &'h str, start: usize) -> Result<Option<Match<'h>>, Error>
        requires { CanStartAt haystack.now start }
        ensures found { IfOk result (λ found. TellsMatch self.now haystack.now start found) }
        ensures refused { IfErr result (λ error. error ≡ out_of_memory) }
    {
        let (found, _) = self.find_counted_at(haystack, start)?;
        Ok(found)
    }

    /// The least offset at which any match ends.
    ///
    /// It needn't be the end of the match that [`Regex::find`] returns.
    ///
    /// ```
    /// let regex = Regex::new(alloc, "a+")?;
    /// regex.shortest_match("aaaaa")?; // Some(1)
    /// ```
    ///
    /// The test `examples::least_end` in tests/unit runs this example.
    ///
    /// # Errors
    ///
    /// `Memory` if memory runs out.
    pub fn shortest_match(&self, haystack: &str) -> Result<Option<usize>, Error>
        ensures found { IfOk result (λ end. TellsEnd self.now haystack.now 0 end) }
        ensures refused { IfErr result (λ error. error ≡ out_of_memory) }
    {
        self.shortest_match_at(haystack, 0)
    }

    /// The least end of any match that starts at or after this offset.
    ///
    /// Looks see the whole haystack, as they do in [`Regex::is_match_at`].
    ///
    /// Condition: the start is above the haystack's length or on a character boundary.
    ///
    /// # Errors
    ///
    /// `Memory` if memory runs out.
    pub fn shortest_match_at(&self, haystack: &str, start: usize) -> Result<Option<usize>, Error>
        requires { CanStartAt haystack.now start }
        ensures found { IfOk result (λ end. TellsEnd self.now haystack.now start end) }
        ensures refused { IfErr result (λ error. error ≡ out_of_memory) }
    {
        let (end, _) = self.shortest_match_counted_at(haystack, start)?;
        Ok(end)
    }
}
