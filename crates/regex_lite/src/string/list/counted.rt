//! Searches for several patterns that also return their cost.
ghost use Rattle.std.specs.Prelude.{◌≡◌, ◌<◌, ◌↔◌, IfOk, IfErr, IfSome, IsTrue};
ghost use Rattle.regex_lite_syntax.specs.Errors.{out_of_memory};
ghost use Rattle.regex_lite.specs.RegexListSearches.{AnyMatches, AreOfPattern, IsWithinListCost};
ghost use Rattle.regex_lite.specs.RegexListSearches.{TellsGroupsOfList, TellsMatchOfList};
ghost use Rattle.regex_lite.specs.Searches.{CanStartAt};

use crate::string::captures::Captures;
use crate::string::list::RegexList;
use crate::string::matches::Match;
use crate::string::slots::whole_slots;
use regex_lite_engine::Steps;
use regex_lite_meta::{search_list, search_list_any};
use regex_lite_syntax::Error;

/// Let n be how many characters the haystack has after the start, [`RegexList::places`]
/// the number of NFA states (places), [`RegexList::arrows`] the number of transitions (arrows) and
/// [`RegexList::len`] the number of patterns. A search tries at most (arrows + patterns) × (n + 1)
/// places, and enters at most places × (n + 1). A search from above the length tries none. One that
/// finds a match has entered a place.
impl RegexList {
    /// [`RegexList::is_match_at`], and the cost of the search.
    ///
    /// Condition: the start is above the haystack's length or on a character boundary.
    ///
    /// # Errors
    ///
    /// `Memory` if memory runs out.
    pub fn is_match_counted_at(&self, haystack: &str, start: usize) -> Result<(bool, Steps), Error>
        requires { CanStartAt haystack.now start }
        ensures found { IfOk result
            (λ reported. IsTrue reported.0 ↔ AnyMatches self.now haystack.now start) }
        ensures cost { IfOk result
            (λ reported. IsWithinListCost self.now haystack.now start reported.1) }
        ensures entered { IfOk result (λ reported. IsTrue reported.0 → 0 < reported.1.entered) }
        ensures refused { IfErr result (λ error. error ≡ out_of_memory) }
    {
        let graph = &self.compiled.graph;
        let reported = search_list_any(graph, self.alloc, haystack, start)?;
        Ok(reported)
    }

    /// [`RegexList::find_at`], and the cost of the search.
    ///
    /// Condition: the start is above the haystack's length or on a character boundary.
    ///
    /// # Errors
    ///
    /// `Memory` if memory runs out.
    pub fn find_counted_at<'h>(
        &self,
        haystack: &'h str,
        start: usize,
    ) -> Result<(Option<(usize, Match<'h>)>, Steps), Error>
        requires { CanStartAt haystack.now start }
        ensures found { IfOk result
            (λ reported. TellsMatchOfList self.now haystack.now start reported.0) }
        ensures cost { IfOk result
            (λ reported. IsWithinListCost self.now haystack.now start reported.1) }
        ensures entered { IfOk result
            (λ reported. IfSome reported.0 (λ _. 0 < reported.1.entered)) }
        ensures refused { IfErr result (λ error. error ≡ out_of_memory) }
    {
        let graph = &self.compiled.graph;
        let (reported, steps) = search_list(graph, self.alloc, haystack, start, 0)?;
        let Some((number, outcome)) = reported else {
            return Ok((None, steps));
        };
        let found = Match::new(haystack, outcome.start, outcome.end);
        Ok((Some((number, found)), steps))
    }

    /// [`RegexList::captures_at`], and the cost of the search.
    ///
    /// Condition: the start is above the haystack's length or on a character boundary.
    ///
    /// # Errors
    ///
    /// `Memory` if memory runs out.
    pub fn captures_counted_at<'h>(
        &self,
        haystack: &'h str,
        start: usize,
    ) -> Result<(Option<(usize, Captures<'h>)>, Steps), Error>
        requires { CanStartAt haystack.now start }
        ensures found { IfOk result
            (λ reported. TellsGroupsOfList self.now haystack.now start reported.0) }
        ensures of_match { IfOk result (λ reported. IfSome reported.0 (AreOfPattern self.now)) }
        ensures cost { IfOk result
            (λ reported. IsWithinListCost self.now haystack.now start reported.1) }
        ensures entered { IfOk result
            (λ reported. IfSome reported.0 (λ _. 0 < reported.1.entered)) }
        ensures refused { IfErr result (λ error. error ≡ out_of_memory) }
    {
        let count = self.kept_slots();
        let whole = whole_slots(self.alloc, count)?;
        let graph = &self.compiled.graph;
        let (reported, steps) = search_list(graph, self.alloc, haystack, start, count)?;
        let Some(found) = reported else {
            return Ok((None, steps));
        };
        let caps = self.captured(haystack, found, whole)?;
        Ok((Some(caps), steps))
    }
}
