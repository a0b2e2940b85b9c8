//! Anchored searches for several patterns: they find a match that starts where the search starts.
ghost use Rattle.std.specs.Prelude.{◌≡◌, ◌↔◌, None, IfOk, IfErr, IfSome, IsTrue, length};
ghost use Rattle.regex_lite_syntax.specs.Errors.{out_of_memory};
ghost use Rattle.regex_lite.specs.Anchored.{TellsAnswerAtOfList, TellsGroupsAtOfList};
ghost use Rattle.regex_lite.specs.Anchored.{TellsLocationsAtOfList, TellsMatchAtOfList};
ghost use Rattle.regex_lite.specs.MatchOffsets.{SomeMatchesAt};
ghost use Rattle.regex_lite.specs.RegexListSearches.{AreOfPattern};
ghost use Rattle.regex_lite.specs.Searches.{AreGroupsOf, CanStartAt, IsMatchOf};

use crate::string::captures::Captures;
use crate::string::list::RegexList;
use crate::string::list::kept::RegexListSearcher;
use crate::string::locations::CaptureLocations;
use crate::string::matches::Match;
use crate::string::slots::whole_slots;
use regex_lite_syntax::Error;

impl RegexList {
    /// Whether one of the patterns matches at this offset.
    ///
    /// Looks see the whole haystack: `^` matches at the haystack's start, not at the start of the
    /// search. If the start is above the haystack's length, the result is `false`.
    ///
    /// Condition: the start is above the haystack's length or on a character boundary.
    ///
    /// # Errors
    ///
    /// `Memory` if memory runs out.
    pub fn is_match_anchored_at(&self, haystack: &str, start: usize) -> Result<bool, Error>
        requires { CanStartAt haystack.now start }
        ensures found { IfOk result
            (λ found. IsTrue found ↔ SomeMatchesAt self.now haystack.now start) }
        ensures refused { IfErr result (λ error. error ≡ out_of_memory) }
    {
        let graph = &self.compiled.graph;
        let (found, _) = graph.search_any_anchored::<false>(self.alloc, haystack, start)?;
        Ok(found)
    }

    /// The match that starts at this offset, with the number of its pattern.
    ///
    /// If several patterns match here, the one with the lowest number is returned, with the match
    /// that it prefers here. The search stops as soon as no match that starts here can continue.
    /// Looks see the whole haystack, as they do in [`RegexList::is_match_anchored_at`].
    ///
    /// Condition: the start is above the haystack's length or on a character boundary.
    ///
    /// A tokeniser searches for each token where the last one ended:
    ///
    /// ```
    /// let list = RegexList::new(alloc, &["[0-9]+", "[a-z]+", "[-+*/]", " +"])?;
    /// let mut at = 0;
    /// while let Some((number, token)) = list.find_anchored_at("x1 + 42?", at)? {
    ///     // 1 and "x", 0 and "1", 3 and " ", 2 and "+", 3 and " ", 0 and "42"
    ///     at = token.end();
    /// }
    /// at; // 7, where no token starts
    /// ```
    ///
    /// The test `examples::lists::tokens` in tests/unit runs this example.
    ///
    /// # Errors
    ///
    /// `Memory` if memory runs out.
    pub fn find_anchored_at<'h>(
        &self,
        haystack: &'h str,
        start: usize,
    ) -> Result<Option<(usize, Match<'h>)>, Error>
        requires { CanStartAt haystack.now start }
        ensures found { IfOk result
            (λ found. TellsMatchAtOfList self.now haystack.now start found) }
        ensures refused { IfErr result (λ error. error ≡ out_of_memory) }
    {
        self.match_anchored::<false>(haystack, start)
    }

    /// The groups of the match that [`RegexList::find_anchored_at`] returns, with the number of its
    /// pattern. They are only the groups of that pattern, with its own indices and names.
    ///
    /// Looks see the whole haystack, as they do in [`RegexList::is_match_anchored_at`].
    ///
    /// Condition: the start is above the haystack's length or on a character boundary.
    ///
    /// # Errors
    ///
    /// `Memory` if memory runs out.
    pub fn captures_anchored_at<'h>(
        &self,
        haystack: &'h str,
        start: usize,
    ) -> Result<Option<(usize, Captures<'h>)>, Error>
        requires { CanStartAt haystack.now start }
        ensures found { IfOk result
            (λ found. TellsGroupsAtOfList self.now haystack.now start found) }
        ensures of_match { IfOk result (λ found. IfSome found (AreOfPattern self.now)) }
        ensures refused { IfErr result (λ error. error ≡ out_of_memory) }
    {
        self.groups_anchored::<false>(haystack, start)
    }

    /// The match that starts at this offset, with the number of its pattern. If WHOLE, only matches
    /// that end where the haystack ends count.
    ///
    /// # Errors
    ///
    /// `Memory` if memory runs out.
    pub(super) fn match_anchored<'h, const WHOLE: bool>(
        &self,
        haystack: &'h str,
        start: usize,
    ) -> Result<Option<(usize, Match<'h>)>, Error>
        requires { CanStartAt haystack.now start }
        ensures found { IfOk result (λ found. TellsAnswerAtOfList WHOLE
            (λ tree. IsMatchOf haystack.now) self.now haystack.now start found) }
        ensures refused { IfErr result (λ error. error ≡ out_of_memory) }
    {
        let graph = &self.compiled.graph;
        let (reported, _) = graph.search_anchored::<WHOLE>(self.alloc, haystack, start, 0)?;
        let Some((number, outcome)) = reported else {
            return Ok(None);
        };
        let found = Match::new(haystack, outcome.start, outcome.end);
        Ok(Some((number, found)))
    }

    /// The groups of the match that `match_anchored` returns, with the number of its pattern.
    ///
    /// # Errors
    ///
    /// `Memory` if memory runs out.
    pub(super) fn groups_anchored<'h, const WHOLE: bool>(
        &self,
        haystack: &'h str,
        start: usize,
    ) -> Result<Option<(usize, Captures<'h>)>, Error>
        requires { CanStartAt haystack.now start }
        ensures found { IfOk result (λ found. TellsAnswerAtOfList WHOLE
            (λ tree. AreGroupsOf tree haystack.now) self.now haystack.now start found) }
        ensures refused { IfErr result (λ error. error ≡ out_of_memory) }
    {
        let count = self.kept_slots();
        let whole = whole_slots(self.alloc, count)?;
        let graph = &self.compiled.graph;
        let (reported, _) = graph.search_anchored::<WHOLE>(self.alloc, haystack, start, count)?;
        let Some(found) = reported else {
            return Ok(None);
        };
        let caps = self.captured(haystack, found, whole)?;
        Ok(Some(caps))
    }
}

impl<'r> RegexListSearcher<'r> {
    /// [`RegexList::is_match_anchored_at`], but it never fails.
    ///
    /// Condition: the start is above the haystack's length or on a character boundary.
    pub fn is_match_anchored_at(&mut self, haystack: &str, start: usize) -> bool
        requires { CanStartAt haystack.now start }
        ensures found { IsTrue result ↔ SomeMatchesAt self.old haystack.now start }
        ensures same { self.new ≡ self.old }
    {
        self.matches.is_match_anchored_at(haystack, start)
    }

    /// [`RegexList::find_anchored_at`], but it never fails.
    ///
    /// Condition: the start is above the haystack's length or on a character boundary.
    pub fn find_anchored_at<'h>(
        &mut self,
        haystack: &'h str,
        start: usize,
    ) -> Option<(usize, Match<'h>)>
        requires { CanStartAt haystack.now start }
        ensures found { TellsMatchAtOfList self.old haystack.now start result }
        ensures same { self.new ≡ self.old }
    {
        self.matches.find_anchored_at(haystack, start)
    }

    /// The match that [`RegexList::find_anchored_at`] returns, with the number of its pattern, and
    /// writes the groups of that pattern to the locations. It never fails.
    ///
    /// The groups have the indices of their own pattern. It writes as many groups as the locations
    /// have; those that the pattern doesn't have are `None`. Without a match the locations are
    /// unchanged.
    ///
    /// Condition: the start is above the haystack's length or on a character boundary.
    pub fn captures_read_anchored_at<'h>(
        &mut self,
        locs: &mut CaptureLocations,
        haystack: &'h str,
        start: usize,
    ) -> Option<(usize, Match<'h>)>
        requires { CanStartAt haystack.now start }
        ensures found { TellsLocationsAtOfList self.old haystack.now start locs.new result }
        ensures len { length locs.new ≡ length locs.old }
        ensures none { result ≡ None → locs.new ≡ locs.old }
        ensures same { self.new ≡ self.old }
    {
        let Some(groups) = &mut self.groups else {
            return self.matches.read_anchored_at(locs, haystack, start);
        };
        groups.read_anchored_at(locs, haystack, start)
    }
}
