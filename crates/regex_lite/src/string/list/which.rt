//! Searches for which of several patterns match.
ghost use Rattle.std.specs.Prelude.{◌≡◌, ◌<◌, ℕ, IfOk, IfErr, IsTrue, false, length, replicate};
ghost use Rattle.std.specs.Prelude.{slice_index_or};
ghost use Rattle.regex_lite_syntax.specs.Errors.{out_of_memory};
ghost use Rattle.regex_lite.specs.RegexListSearches.{IsWithinListCost, TellsWhichMatch};
ghost use Rattle.regex_lite.specs.Searches.{CanStartAt};

use crate::string::list::RegexList;
use crate::string::list::set_matches::SetMatches;
use regex_lite_engine::Steps;
use regex_lite_meta::{search_each, search_each_uncounted};
use regex_lite_syntax::Error;

impl RegexList {
    /// An empty set of patterns of this list. A searcher of the list writes to it.
    ///
    /// # Errors
    ///
    /// `Memory` if memory runs out.
    pub fn set_matches(&self) -> Result<SetMatches, Error>
        ensures ok { IfOk result (λ set. set ≡ replicate (length self.now) false) }
        ensures refused { IfErr result (λ error. error ≡ out_of_memory) }
    {
        let matched = vec![in self.alloc; false; self.len()]?;
        Ok(SetMatches { matched })
    }

    /// Which of the patterns match somewhere in the haystack.
    ///
    /// If all patterns are plain words, one search for the words finds which of them occur.
    /// Otherwise 16 or more patterns are searched for in one pass over the haystack: each is tried
    /// where it can start, up to its first match. If that would be slower, as for fewer patterns or
    /// for patterns that can start at most positions, each pattern is searched for by itself, and
    /// one search's memory is reused for the next. In a long haystack a pattern that needs a step
    /// at most characters is searched for with cached transitions, like a [`Regex`](crate::Regex).
    ///
    /// ```
    /// let list = RegexList::new(alloc, &["[0-9]+", "[a-z]+", "sam"])?;
    /// let set = list.matches("frodo 7")?;
    /// set.matched(0); // true
    /// set.matched(1); // true
    /// set.matched(2); // false
    /// ```
    ///
    /// The test `examples::lists::which` in tests/unit runs this example.
    ///
    /// # Errors
    ///
    /// `Memory` if memory runs out.
    pub fn matches(&self, haystack: &str) -> Result<SetMatches, Error>
        ensures found { IfOk result (λ set. TellsWhichMatch self.now haystack.now 0 set) }
        ensures refused { IfErr result (λ error. error ≡ out_of_memory) }
    {
        self.matches_at(haystack, 0)
    }

    /// Which of the patterns match somewhere from this offset on.
    ///
    /// Looks see the whole haystack, as they do in [`RegexList::is_match_at`]. If the start is
    /// above the haystack's length, none matches.
    ///
    /// Condition: the start is above the haystack's length or on a character boundary.
    ///
    /// # Errors
    ///
    /// `Memory` if memory runs out.
    pub fn matches_at(&self, haystack: &str, start: usize) -> Result<SetMatches, Error>
        requires { CanStartAt haystack.now start }
        ensures found { IfOk result (λ set. TellsWhichMatch self.now haystack.now start set) }
        ensures refused { IfErr result (λ error. error ≡ out_of_memory) }
    {
        let graph = &self.compiled.graph;
        let matched = search_each_uncounted(graph, self.alloc, haystack, start)?;
        Ok(SetMatches { matched })
    }

    /// [`RegexList::matches_at`], and the total cost of the searches for the patterns. It is
    /// bounded like the cost of one search for all of them.
    ///
    /// Condition: the start is above the haystack's length or on a character boundary.
    ///
    /// # Errors
    ///
    /// `Memory` if memory runs out.
    pub fn matches_counted_at(
        &self,
        haystack: &str,
        start: usize,
    ) -> Result<(SetMatches, Steps), Error>
        requires { CanStartAt haystack.now start }
        ensures found { IfOk result
            (λ reported. TellsWhichMatch self.now haystack.now start reported.0) }
        ensures cost { IfOk result
            (λ reported. IsWithinListCost self.now haystack.now start reported.1) }
        ensures entered { IfOk result
            (λ reported. (i : ℕ) → IsTrue (slice_index_or reported.0 i false) → 0
            < reported.1.entered) }
        ensures refused { IfErr result (λ error. error ≡ out_of_memory) }
    {
        let graph = &self.compiled.graph;
        let (matched, steps) = search_each(graph, self.alloc, haystack, start)?;
        Ok((SetMatches { matched }, steps))
    }
}
