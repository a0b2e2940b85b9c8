//! Searches for the groups of a match.
ghost use Rattle.std.specs.Prelude.{◌≡◌, [], None, Some, IfOk, IfErr, IfSome, length};
ghost use Rattle.std.specs.Prelude.{chars, replicate};
ghost use Rattle.regex_lite_syntax.specs.Errors.{out_of_memory};
ghost use Rattle.regex_lite_syntax.specs.Tree.Properties.{captures_len};
ghost use Rattle.regex_lite_syntax.specs.Grammar.{IsTree};
ghost use Rattle.regex_lite_syntax.specs.Tree.{Tree};
ghost use Rattle.regex_lite_engine.specs.Search.Answer.{Found};
ghost use Rattle.regex_lite.specs.Expression.{OfTree};
ghost use Rattle.regex_lite.specs.Scanning.{AreSlotsForGroups};
ghost use Rattle.regex_lite.specs.Searches.{AreGroupsOf, AreOfMatch, CanRead, CanStartAt};
ghost use Rattle.regex_lite.specs.Searches.{TellsGroups, TellsLocations};
ghost use Rattle.regex_lite.specs.ReportedWays.{IsReportedOfWay, TellsOfWay};

use crate::string::captures::Captures;
use crate::string::locations::CaptureLocations;
use crate::string::matches::Match;
use crate::string::regex::Regex;
use crate::string::slots::slots_with;
use crate::string::source::Source;
use regex_lite_engine::Outcome;
use regex_lite_syntax::Error;

impl Regex {
    /// The groups of the match that [`Regex::find`] returns.
    ///
    /// A group that takes part more than once has the span of the last time.
    ///
    /// ```
    /// let regex = Regex::new(alloc, "([a-z]+)(?:=([0-9]+))?")?;
    /// if let Some(caps) = regex.captures("#width=72")? {
    ///     caps.get(0); // the match of "width=72"
    ///     caps.get(1); // the match of "width"
    ///     caps.get(2); // the match of "72"
    /// }
    /// ```
    ///
    /// The test `examples::captured` in tests/unit runs this example.
    ///
    /// # Errors
    ///
    /// `Memory` if memory runs out.
    pub fn captures<'h>(&self, haystack: &'h str) -> Result<Option<Captures<'h>>, Error>
        ensures found { IfOk result (λ found. TellsGroups self.now haystack.now 0 found) }
        ensures of_match { IfOk result (λ found. IfSome found (AreOfMatch self.now)) }
        ensures refused { IfErr result (λ error. error ≡ out_of_memory) }
    {
        self.captures_at(haystack, 0)
    }

    /// The groups of the match that [`Regex::find_at`] returns.
    ///
    /// Looks see the whole haystack, as they do in [`Regex::is_match_at`].
    ///
    /// Condition: the start is above the haystack's length or on a character boundary.
    ///
    /// # Errors
    ///
    /// `Memory` if memory runs out.
    pub fn captures_at<'h>(
        &self,
        haystack: &'h str,
        start: usize,
    ) -> Result<Option<Captures<'h>>, Error>
        requires { CanStartAt haystack.now start }
        ensures found { IfOk result (λ found. TellsGroups self.now haystack.now start found) }
        ensures of_match { IfOk result (λ found. IfSome found (AreOfMatch self.now)) }
        ensures refused { IfErr result (λ error. error ≡ out_of_memory) }
    {
        let (found, _) = self.captures_counted_at(haystack, start)?;
        Ok(found)
    }

    /// The match that [`Regex::find`] returns, with its groups written to the locations.
    ///
    /// It writes as many groups as the locations have. Without a match, or on an error, the
    /// locations are unchanged.
    ///
    /// Condition: the locations have no more groups than the regex.
    ///
    /// ```
    /// let regex = Regex::new(alloc, "([a-z]+)([0-9]+)?")?;
    /// let mut locations = regex.capture_locations()?;
    /// regex.captures_read(&mut locations, "#b52")?; // the match of "b52"
    /// locations.get(1); // Some((1, 2))
    /// locations.get(2); // Some((2, 4))
    /// ```
    ///
    /// The test `examples::read_groups` in tests/unit runs this example.
    ///
    /// # Errors
    ///
    /// `Memory` if memory runs out.
    pub fn captures_read<'h>(
        &self,
        locs: &mut CaptureLocations,
        haystack: &'h str,
    ) -> Result<Option<Match<'h>>, Error>
        requires { CanRead self.now locs.old }
        ensures found { IfOk result
            (λ found. TellsLocations self.now haystack.now 0 locs.new found) }
        ensures len { length locs.new ≡ length locs.old }
        ensures again { CanRead self.now locs.new }
        ensures none { IfOk result (λ found. found ≡ None → locs.new ≡ locs.old) }
        ensures refused { IfErr result
            (λ error. (error ≡ out_of_memory) × (locs.new ≡ locs.old)) }
    {
        self.captures_read_at(locs, haystack, 0)
    }

    /// The match that [`Regex::find_at`] returns, with its groups written to the locations.
    ///
    /// It writes as many groups as the locations have. Without a match, or on an error, the
    /// locations are unchanged. Looks see the whole haystack, as they do in [`Regex::is_match_at`].
    ///
    /// Conditions: the locations have no more groups than the regex. The start is above the
    /// haystack's length or on a character boundary.
    ///
    /// # Errors
    ///
    /// `Memory` if memory runs out.
    pub fn captures_read_at<'h>(
        &self,
        locs: &mut CaptureLocations,
        haystack: &'h str,
        start: usize,
    ) -> Result<Option<Match<'h>>, Error>
        requires room { CanRead self.now locs.old }
        requires start { CanStartAt haystack.now start }
        ensures found { IfOk result
            (λ found. TellsLocations self.now haystack.now start locs.new found) }
        ensures len { length locs.new ≡ length locs.old }
        ensures again { CanRead self.now locs.new }
        ensures none { IfOk result (λ found. found ≡ None → locs.new ≡ locs.old) }
        ensures refused { IfErr result
            (λ error. (error ≡ out_of_memory) × (locs.new ≡ locs.old)) }
    {
        let Some(caps) = self.captures_at(haystack, start)? else {
            return Ok(None);
        };
        let found = caps.get(0);
        caps.write(locs);
        Ok(found)
    }

    /// The groups of the match that a search of this haystack found. If the search kept no slots,
    /// `whole` has room for the two slots of the whole match.
    ///
    /// # Errors
    ///
    /// `Memory` if memory runs out.
    pub(super) fn captured<'h>(
        &self,
        haystack: &'h str,
        outcome: Outcome,
        whole: Vec<Option<usize>>,
    ) -> Result<Captures<'h>, Error>
        requires outcome { TellsOfWay self.now haystack.now (outcome.start, outcome.end)
            outcome.slots.items }
        requires slots { AreSlotsForGroups self.now (length outcome.slots.items) }
        requires whole { outcome.slots.items ≡ [] → length whole.items ≡ 2 }
        ensures found { (tree : Tree) (found : Found)
            → IsTree self.now.flags (chars self.now.pattern) tree
            → IsReportedOfWay tree haystack.now (outcome.start, outcome.end) outcome.slots.items
            found → IfOk result (AreGroupsOf tree haystack.now found) }
        ensures refused { IfErr result (λ error. error ≡ out_of_memory) }
    {
        let Outcome { start, end, slots } = outcome;
        let slots = slots_with(slots, whole, (start, end));
        let source = Source::of_regex(self.compiled.clone()?);
        Ok(Captures::new(haystack, slots, source))
    }

    /// Locations for the groups of the regex. None of them has taken part in a match yet.
    ///
    /// # Errors
    ///
    /// `Memory` if memory runs out.
    pub fn capture_locations(&self) -> Result<CaptureLocations, Error>
        ensures ok { IfOk result
            (λ locs. OfTree self.now (λ tree. locs ≡ replicate (captures_len tree) None)) }
        ensures room { IfOk result (λ locs. CanRead self.now locs) }
        ensures refused { IfErr result (λ error. error ≡ out_of_memory) }
    {
        let slots = vec![in self.alloc; None; self.slots()]?;
        Ok(CaptureLocations { slots })
    }
}
