//! Searches that also return their cost.
ghost use Rattle.std.specs.Prelude.{◌≡◌, ◌<◌, ◌↔◌, IfOk, IfErr, IfSome, IsTrue};
ghost use Rattle.regex_lite_syntax.specs.Errors.{out_of_memory};
ghost use Rattle.regex_lite.specs.Searches.{AreOfMatch, CanStartAt, IsWithinCost};
ghost use Rattle.regex_lite.specs.Searches.{MatchesFrom, TellsEnd, TellsGroups, TellsMatch};

use crate::string::captures::Captures;
use crate::string::matches::Match;
use crate::string::regex::Regex;
use crate::string::slots::whole_slots;
use regex_lite_engine::Steps;
use regex_lite_meta::{search, search_any, search_shortest};
use regex_lite_syntax::Error;

/// Let n be how many characters the haystack has after the start, [`Regex::places`] the
/// number of NFA states (places) and [`Regex::arrows`] the number of transitions (arrows). A search
/// tries at most (arrows + 1) × (n + 1) places, and enters at most places × (n + 1). A search from
/// above the length tries none. One that finds a match has entered a place.
impl Regex {
    /// [`Regex::is_match_at`], and the cost of the search.
    ///
    /// Condition: the start is above the haystack's length or on a character boundary.
    ///
    /// # Errors
    ///
    /// `Memory` if memory runs out.
    pub fn is_match_counted_at(&self, haystack: &str, start: usize) -> Result<(bool, Steps), Error>
        requires { CanStartAt haystack.now start }
        ensures found { IfOk result
            (λ reported. IsTrue reported.0 ↔ MatchesFrom self.now haystack.now start) }
        ensures cost { IfOk result
            (λ reported. IsWithinCost self.now haystack.now start reported.1) }
        ensures entered { IfOk result (λ reported. IsTrue reported.0 → 0 < reported.1.entered) }
        ensures refused { IfErr result (λ error. error ≡ out_of_memory) }
    {
        let graph = &self.compiled.graph;
        let reported = search_any(graph, self.alloc, haystack, start)?;
        Ok(reported)
    }

    /// [`Regex::find_at`], and the cost of the search.
    ///
    /// Condition: the start is above the haystack's length or on a character boundary.
    ///
    /// # Errors
    ///
    /// `Memory` if memory runs out.
    pub fn find_counted_at<'h>(
        &self,
        haystack: &'h str,
        start: usize,
    ) -> Result<(Option<Match<'h>>, Steps), Error>
        requires { CanStartAt haystack.now start }
        ensures found { IfOk result
            (λ reported. TellsMatch self.now haystack.now start reported.0) }
        ensures cost { IfOk result
            (λ reported. IsWithinCost self.now haystack.now start reported.1) }
        ensures entered { IfOk result
            (λ reported. IfSome reported.0 (λ _. 0 < reported.1.entered)) }
        ensures refused { IfErr result (λ error. error ≡ out_of_memory) }
    {
        let graph = &self.compiled.graph;
        let (outcome, steps) = search(graph, self.alloc, haystack, start, 0)?;
        let Some(outcome) = outcome else {
            return Ok((None, steps));
        };
        let found = Match::new(haystack, outcome.start, outcome.end);
        Ok((Some(found), steps))
    }

    /// [`Regex::captures_at`], and the cost of the search.
    ///
    /// Condition: the start is above the haystack's length or on a character boundary.
    ///
    /// # Errors
    ///
    /// `Memory` if memory runs out.
    pub fn captures_counted_at<'h>(
        &self,
        haystack: &'h str,
        start: usize,
    ) -> Result<(Option<Captures<'h>>, Steps), Error>
        requires { CanStartAt haystack.now start }
        ensures found { IfOk result
            (λ reported. TellsGroups self.now haystack.now start reported.0) }
        ensures of_match { IfOk result (λ reported. IfSome reported.0 (AreOfMatch self.now)) }
        ensures cost { IfOk result
            (λ reported. IsWithinCost self.now haystack.now start reported.1) }
        ensures entered { IfOk result
            (λ reported. IfSome reported.0 (λ _. 0 < reported.1.entered)) }
        ensures refused { IfErr result (λ error. error ≡ out_of_memory) }
    {
        let count = self.kept_slots();
        let whole = whole_slots(self.alloc, count)?;
        let graph = &self.compiled.graph;
        let (outcome, steps) = search(graph, self.alloc, haystack, start, count)?;
        let Some(outcome) = outcome else {
            return Ok((None, steps));
        };
        let caps = self.captured(haystack, outcome, whole)?;
        Ok((Some(caps), steps))
    }

    /// [`Regex::shortest_match_at`], and the cost of the search.
    ///
    /// Condition: the start is above the haystack's length or on a character boundary.
    ///
    /// # Errors
    ///
    /// `Memory` if memory runs out.
    pub fn shortest_match_counted_at(
        &self,
        haystack: &str,
        start: usize,
    ) -> Result<(Option<usize>, Steps), Error>
        requires { CanStartAt haystack.now start }
        ensures found { IfOk result (λ reported. TellsEnd self.now haystack.now start reported.0) }
        ensures cost { IfOk result
            (λ reported. IsWithinCost self.now haystack.now start reported.1) }
        ensures entered { IfOk result
            (λ reported. IfSome reported.0 (λ _. 0 < reported.1.entered)) }
        ensures refused { IfErr result (λ error. error ≡ out_of_memory) }
    {
        let graph = &self.compiled.graph;
        let reported = search_shortest(graph, self.alloc, haystack, start)?;
        Ok(reported)
    }
}
