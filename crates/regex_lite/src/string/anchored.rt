//! Anchored searches: they find a match that starts where the search starts.
ghost use Rattle.std.specs.Prelude.{◌≡◌, ◌↔◌, None, IfOk, IfErr, IfSome, IsTrue, length};
ghost use Rattle.regex_lite_syntax.specs.Errors.{out_of_memory};
ghost use Rattle.regex_lite.specs.Anchored.{TellsAnswerAt, TellsGroupsAt, TellsLocationsAt};
ghost use Rattle.regex_lite.specs.Anchored.{TellsMatchAt};
ghost use Rattle.regex_lite.specs.MatchOffsets.{MatchesAt};
ghost use Rattle.regex_lite.specs.Searches.{AreGroupsOf, AreOfMatch, CanRead, CanStartAt};
ghost use Rattle.regex_lite.specs.Searches.{IsMatchOf};

use crate::string::captures::Captures;
use crate::string::locations::CaptureLocations;
use crate::string::matches::Match;
use crate::string::regex::Regex;
use crate::string::regex_searcher::RegexSearcher;
use crate::string::slots::whole_slots;
use regex_lite_meta::{search_anchored, search_any_anchored};
use regex_lite_syntax::Error;

impl Regex {
    /// Whether the pattern matches at this offset.
    ///
    /// Looks see the whole haystack: `^` matches at the haystack's start, not at the start of the
    /// search. If the start is above the haystack's length, the result is `false`.
    ///
    /// Condition: the start is above the haystack's length or on a character boundary.
    ///
    /// # Errors
    ///
    /// `Memory` if memory runs out.
    pub fn is_match_anchored_at(&self, haystack: &str, start: usize) -> Result<bool, Error>
        requires { CanStartAt haystack.now start }
        ensures found { IfOk result
            (λ found. IsTrue found ↔ MatchesAt self.now haystack.now start) }
        ensures refused { IfErr result (λ error. error ≡ out_of_memory) }
    {
        let graph = &self.compiled.graph;
        let (found, _) = search_any_anchored::<false>(graph, self.alloc, haystack, start)?;
        Ok(found)
    }

    /// The match that starts at this offset. If several start there, it is the one that the pattern
    /// prefers.
    ///
    /// It is the match of [`Regex::find_at`], if that starts at this offset. The search stops as
    /// soon as no match that starts here can continue, and doesn't scan the rest of the haystack.
    /// Looks see the whole haystack, as they do in [`Regex::is_match_anchored_at`].
    ///
    /// Condition: the start is above the haystack's length or on a character boundary.
    ///
    /// ```
    /// let regex = Regex::new(alloc, "[0-9]+")?;
    /// regex.find_anchored_at("width=72", 6)?; // the match of "72"
    /// regex.find_anchored_at("width=72", 5)?; // None, since "=" stands there
    /// ```
    ///
    /// The test `examples::anchored` in tests/unit runs this example.
    ///
    /// # Errors
    ///
    /// `Memory` if memory runs out.
    pub fn find_anchored_at<'h>(
        &self,
        haystack: &'h str,
        start: usize,
    ) -> Result<Option<Match<'h>>, Error>
        requires { CanStartAt haystack.now start }
        ensures found { IfOk result (λ found. TellsMatchAt self.now haystack.now start found) }
        ensures refused { IfErr result (λ error. error ≡ out_of_memory) }
    {
        self.match_anchored::<false>(haystack, start)
    }

    /// The groups of the match that [`Regex::find_anchored_at`] returns.
    ///
    /// A group that takes part more than once has the span of the last time. Looks see the whole
    /// haystack, as they do in [`Regex::is_match_anchored_at`].
    ///
    /// Condition: the start is above the haystack's length or on a character boundary.
    ///
    /// # Errors
    ///
    /// `Memory` if memory runs out.
    pub fn captures_anchored_at<'h>(
        &self,
        haystack: &'h str,
        start: usize,
    ) -> Result<Option<Captures<'h>>, Error>
        requires { CanStartAt haystack.now start }
        ensures found { IfOk result (λ found. TellsGroupsAt self.now haystack.now start found) }
        ensures of_match { IfOk result (λ found. IfSome found (AreOfMatch self.now)) }
        ensures refused { IfErr result (λ error. error ≡ out_of_memory) }
    {
        self.groups_anchored::<false>(haystack, start)
    }

    /// The match that starts at this offset. If WHOLE, it is the one that the pattern prefers among
    /// those that end where the haystack ends.
    ///
    /// # Errors
    ///
    /// `Memory` if memory runs out.
    pub(super) fn match_anchored<'h, const WHOLE: bool>(
        &self,
        haystack: &'h str,
        start: usize,
    ) -> Result<Option<Match<'h>>, Error>
        requires { CanStartAt haystack.now start }
        ensures found { IfOk result (λ found. TellsAnswerAt WHOLE (λ tree. IsMatchOf haystack.now)
            self.now haystack.now start found) }
        ensures refused { IfErr result (λ error. error ≡ out_of_memory) }
    {
        let graph = &self.compiled.graph;
        let (outcome, _) = search_anchored::<WHOLE>(graph, self.alloc, haystack, start, 0)?;
        let Some(outcome) = outcome else {
            return Ok(None);
        };
        let found = Match::new(haystack, outcome.start, outcome.end);
        Ok(Some(found))
    }

    /// The groups of the match that `match_anchored` returns.
    ///
    /// # Errors
    ///
    /// `Memory` if memory runs out.
    pub(super) fn groups_anchored<'h, const WHOLE: bool>(
        &self,
        haystack: &'h str,
        start: usize,
    ) -> Result<Option<Captures<'h>>, Error>
        requires { CanStartAt haystack.now start }
        ensures found { IfOk result (λ found. TellsAnswerAt WHOLE
            (λ tree. AreGroupsOf tree haystack.now) self.now haystack.now start found) }
        ensures refused { IfErr result (λ error. error ≡ out_of_memory) }
    {
        let count = self.kept_slots();
        let whole = whole_slots(self.alloc, count)?;
        let graph = &self.compiled.graph;
        let (outcome, _) = search_anchored::<WHOLE>(graph, self.alloc, haystack, start, count)?;
        let Some(outcome) = outcome else {
            return Ok(None);
        };
        let caps = self.captured(haystack, outcome, whole)?;
        Ok(Some(caps))
    }
}

impl<'r> RegexSearcher<'r> {
    /// [`Regex::is_match_anchored_at`], but it never fails.
    ///
    /// Condition: the start is above the haystack's length or on a character boundary.
    pub fn is_match_anchored_at(&mut self, haystack: &str, start: usize) -> bool
        requires { CanStartAt haystack.now start }
        ensures found { IsTrue result ↔ MatchesAt self.old haystack.now start }
        ensures same { self.new ≡ self.old }
    {
        self.matches.is_match_anchored::<false>(haystack, start)
    }

    /// [`Regex::find_anchored_at`], but it never fails.
    ///
    /// Condition: the start is above the haystack's length or on a character boundary.
    pub fn find_anchored_at<'h>(&mut self, haystack: &'h str, start: usize) -> Option<Match<'h>>
        requires { CanStartAt haystack.now start }
        ensures found { TellsMatchAt self.old haystack.now start result }
        ensures same { self.new ≡ self.old }
    {
        self.matches.find_anchored::<false>(haystack, start)
    }

    /// The match that [`Regex::find_anchored_at`] returns, with its groups written to the
    /// locations. It never fails.
    ///
    /// It writes as many groups as the locations have. Without a match the locations are unchanged.
    ///
    /// Conditions: the locations have no more groups than the regex. The start is above the
    /// haystack's length or on a character boundary.
    pub fn captures_read_anchored_at<'h>(
        &mut self,
        locs: &mut CaptureLocations,
        haystack: &'h str,
        start: usize,
    ) -> Option<Match<'h>>
        requires room { CanRead self.old locs.old }
        requires start { CanStartAt haystack.now start }
        ensures found { TellsLocationsAt self.old haystack.now start locs.new result }
        ensures len { length locs.new ≡ length locs.old }
        ensures again { CanRead self.new locs.new }
        ensures none { result ≡ None → locs.new ≡ locs.old }
        ensures same { self.new ≡ self.old }
    {
        let found = self.find_anchored_at(haystack, start)?;
        self.read(haystack, &found, locs);
        Some(found)
    }
}
