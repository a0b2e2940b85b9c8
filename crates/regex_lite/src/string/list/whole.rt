//! Whole matches of several patterns: matches that start and end where the haystack does.
ghost use Rattle.std.specs.Prelude.{◌≡◌, ◌↔◌, IfOk, IfErr, IsTrue};
ghost use Rattle.regex_lite_syntax.specs.Errors.{out_of_memory};
ghost use Rattle.regex_lite.specs.Anchored.{TellsWholeGroupsOfList, TellsWholeMatchOfList};
ghost use Rattle.regex_lite.specs.MatchOffsets.{SomeMatchesWhole};

use crate::string::captures::Captures;
use crate::string::list::RegexList;
use crate::string::matches::Match;
use regex_lite_syntax::Error;

impl RegexList {
    /// Whether one of the patterns matches the whole haystack.
    ///
    /// # Errors
    ///
    /// `Memory` if memory runs out.
    pub fn is_full_match(&self, haystack: &str) -> Result<bool, Error>
        ensures found { IfOk result
            (λ found. IsTrue found ↔ SomeMatchesWhole self.now haystack.now) }
        ensures refused { IfErr result (λ error. error ≡ out_of_memory) }
    {
        let graph = &self.compiled.graph;
        let (found, _) = graph.search_any_anchored::<true>(self.alloc, haystack, 0)?;
        Ok(found)
    }

    /// The match of the whole haystack, with the number of its pattern.
    ///
    /// If several patterns match the whole haystack, the one with the lowest number is returned.
    ///
    /// ```
    /// let list = RegexList::new(alloc, &["[0-9]+", "[0-9]+px", "[a-z0-9]+"])?;
    /// list.full_match("72px")?; // the match of "72px", with the number 1
    /// ```
    ///
    /// The test `examples::lists::full` in tests/unit runs this example.
    ///
    /// # Errors
    ///
    /// `Memory` if memory runs out.
    pub fn full_match<'h>(&self, haystack: &'h str) -> Result<Option<(usize, Match<'h>)>, Error>
        ensures found { IfOk result
            (λ found. TellsWholeMatchOfList self.now haystack.now found) }
        ensures refused { IfErr result (λ error. error ≡ out_of_memory) }
    {
        self.match_anchored::<true>(haystack, 0)
    }

    /// The groups of the match that [`RegexList::full_match`] returns, with the number of its
    /// pattern. They are only the groups of that pattern, with its own indices and names.
    ///
    /// # Errors
    ///
    /// `Memory` if memory runs out.
    pub fn full_captures<'h>(
        &self,
        haystack: &'h str,
    ) -> Result<Option<(usize, Captures<'h>)>, Error>
        ensures found { IfOk result
            (λ found. TellsWholeGroupsOfList self.now haystack.now found) }
        ensures refused { IfErr result (λ error. error ≡ out_of_memory) }
    {
        self.groups_anchored::<true>(haystack, 0)
    }
}
