//! Searches for the groups of a match of one of several patterns.
ghost use Rattle.std.specs.Prelude.{◌≡◌, [], List, None, Some, IfOk, IfErr, IfSome, length, max};
ghost use Rattle.std.specs.Prelude.{replicate};
ghost use Rattle.regex_lite_syntax.specs.Errors.{out_of_memory};
ghost use Rattle.regex_lite_syntax.specs.Tree.{Tree};
ghost use Rattle.regex_lite_engine.specs.Graph.SideBySide.{HasTree};
ghost use Rattle.regex_lite_engine.specs.Search.Answer.{Found};
ghost use Rattle.regex_lite.specs.RegexList.{AreTrees, OfTrees};
ghost use Rattle.regex_lite.specs.RegexListSearches.{AreOfPattern, TellsGroupsOfList};
ghost use Rattle.regex_lite.specs.Scanning.{AreSlotsForAllGroups, most_captures};
ghost use Rattle.regex_lite.specs.Searches.{AreGroupsOf, CanStartAt};
ghost use Rattle.regex_lite.specs.ReportedWays.{IsReportedOfWay, TellsOfListedWay};

use crate::string::captures::Captures;
use crate::string::list::RegexList;
use crate::string::locations::CaptureLocations;
use crate::string::slots::{slots_with, whole_slots};
use crate::string::source::Source;
use regex_lite_engine::Outcome;
use regex_lite_meta::search_list_uncounted;
use regex_lite_syntax::Error;

impl RegexList {
    /// The groups of the match that [`RegexList::find`] returns, with the number of its pattern.
    ///
    /// They are only the groups of that pattern, with its own indices and names.
    ///
    /// ```
    /// let list = RegexList::new(alloc, &["(?<key>[a-z]+)=([0-9]+)", "#(?<note>.*)"])?;
    /// if let Some((number, caps)) = list.captures("#width")? {
    ///     number; // 1
    ///     caps.len(); // 2
    ///     caps.name("note"); // the match of "width"
    /// }
    /// ```
    ///
    /// The test `examples::lists::captured` in tests/unit runs this example.
    ///
    /// # Errors
    ///
    /// `Memory` if memory runs out.
    pub fn captures<'h>(&self, haystack: &'h str) -> Result<Option<(usize, Captures<'h>)>, Error>
        ensures found { IfOk result (λ found. TellsGroupsOfList self.now haystack.now 0 found) }
        ensures of_match { IfOk result (λ found. IfSome found (AreOfPattern self.now)) }
        ensures refused { IfErr result (λ error. error ≡ out_of_memory) }
    {
        self.captures_at(haystack, 0)
    }

    /// The groups of the match that [`RegexList::find_at`] returns, with the number of its pattern.
    ///
    /// Looks see the whole haystack, as they do in [`RegexList::is_match_at`].
    ///
    /// Condition: the start is above the haystack's length or on a character boundary.
    ///
    /// # Errors
    ///
    /// `Memory` if memory runs out.
    pub fn captures_at<'h>(
        &self,
        haystack: &'h str,
        start: usize,
    ) -> Result<Option<(usize, Captures<'h>)>, Error>
        requires { CanStartAt haystack.now start }
        ensures found { IfOk result
            (λ found. TellsGroupsOfList self.now haystack.now start found) }
        ensures of_match { IfOk result (λ found. IfSome found (AreOfPattern self.now)) }
        ensures refused { IfErr result (λ error. error ≡ out_of_memory) }
    {
        let count = self.kept_slots();
        let whole = whole_slots(self.alloc, count)?;
        let graph = &self.compiled.graph;
        let reported = search_list_uncounted(graph, self.alloc, haystack, start, count)?;
        let Some(found) = reported else {
            return Ok(None);
        };
        let caps = self.captured(haystack, found, whole)?;
        Ok(Some(caps))
    }

    /// The groups of the match that a search of this haystack found, with the number of its
    /// pattern. If the search kept no slots, `whole` has room for the two slots of the whole match.
    ///
    /// # Errors
    ///
    /// `Memory` if memory runs out.
    pub(super) fn captured<'h>(
        &self,
        haystack: &'h str,
        found: (usize, Outcome),
        whole: Vec<Option<usize>>,
    ) -> Result<(usize, Captures<'h>), Error>
        requires found { TellsOfListedWay self.now haystack.now found.0
            (found.1.start, found.1.end) found.1.slots.items }
        requires slots { AreSlotsForAllGroups self.now (length found.1.slots.items) }
        requires whole { found.1.slots.items ≡ [] → length whole.items ≡ 2 }
        ensures found { (trees : List Tree) (tree : Tree) (own : Found) → AreTrees self.now trees
            → HasTree trees found.0 tree
            → IsReportedOfWay tree haystack.now (found.1.start, found.1.end) found.1.slots.items own
            → IfOk result (λ reported. (reported.0 ≡ found.0) × AreGroupsOf tree haystack.now own
            reported.1) }
        ensures refused { IfErr result (λ error. error ≡ out_of_memory) }
    {
        let (number, Outcome { start, end, slots }) = found;
        let mut slots = slots_with(slots, whole, (start, end));
        let source = Source::of_listed(self.compiled.clone()?, number);
        // A search keeps slots for the pattern with the most groups. This one may have fewer.
        slots.truncate(source.slots());
        let caps = Captures::new(haystack, slots, source);
        Ok((number, caps))
    }

    /// Locations for the groups of any of the patterns: as many as the pattern with the most groups
    /// has, or one for an empty list. None of them has taken part in a match yet.
    ///
    /// [`RegexListSearcher::captures_read`](crate::RegexListSearcher::captures_read) writes the
    /// groups of matches to them.
    ///
    /// # Errors
    ///
    /// `Memory` if memory runs out.
    pub fn capture_locations(&self) -> Result<CaptureLocations, Error>
        ensures ok { IfOk result (λ locs. OfTrees self.now
            (λ trees. locs ≡ replicate (max 1 (most_captures trees)) None)) }
        ensures refused { IfErr result (λ error. error ≡ out_of_memory) }
    {
        let slots = vec![in self.alloc; None; self.kept_slots().max(2)]?;
        Ok(CaptureLocations { slots })
    }
}
