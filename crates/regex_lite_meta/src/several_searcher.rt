//! A searcher for several patterns over the table of their graph, which reuses its memory.
//!
//! A search without slots may find where a match starts and ends and of which pattern it is. A
//! search for that pattern alone then finds the slots. The list's match is that pattern's first, so
//! both find the same, and one pattern within a known span costs less than the slots of all.
ghost use Rattle.std.specs.Prelude.{◌≡◌, ◌<◌, ℕ, IfOk, IsCharBoundary, Some, chars, false};
ghost use Rattle.std.specs.Prelude.{length};
ghost use Rattle.regex_lite_meta.specs.LazyDfa.Scanning.{best_reported};
ghost use Rattle.regex_lite_meta.specs.Memories.{SearchesForSeveral, row_of_several};
ghost use Rattle.regex_lite_meta.specs.Slots.{FindsSlotsIn};
ghost use Rattle.regex_lite_engine.specs.Graph.StoredList.{table_of_list};
ghost use Rattle.regex_lite_engine.specs.Search.NumberedOutcomes.{IsBestOutcomeOf, numbered_at};
ghost use Rattle.regex_lite_engine.specs.Search.NumberedOutcomes.{IsNumberedEndOf, best_kept};
ghost use Rattle.regex_lite_engine.specs.Search.NumberedOutcomes.{IsAnyTo, IsBestOutcomeTo};
ghost use Rattle.regex_lite_engine.specs.Search.NumberedOutcomes.{with_match_start_kept};
ghost use Rattle.regex_lite_engine.specs.Search.Offsets.{position_at};
ghost use Rattle.regex_lite_engine.specs.Search.Rows.{Row};

use crate::lazy_dfa::list_spans::ListSpanSearcher;
use crate::slots::SlotCache;
use crate::strategy::{Searched, SpanSearch, Strategy, Wanted, choose};
use regex_lite_engine::nfa::list::GraphList;
use regex_lite_engine::pikevm::best::numbered;
use regex_lite_engine::pikevm::cache::cache_for_list;
use regex_lite_engine::pikevm::thread_start::MatchStart;
use std::alloc::{AllocError, Global};

/// The memory of searches for several patterns.
#[derive(Drop)]
pub(crate) struct SeveralSearcher<'g> {
    spans: ListSpanSearcher<'g>,
    /// The searcher for the slots of a match whose span is known, if they are found separately.
    slots: Option<Box<SlotCache>>,
}

impl<'g> SeveralSearcher<'g> {
    /// A searcher of this graph, for matches with `slots` slots and haystacks of about `bytes`
    /// bytes.
    ///
    /// # Errors
    ///
    /// If memory runs out that the searches can't do without.
    // Not inlined: when inlined, its stack frame is cleared on each call.
    #[inline(never)]
    pub(crate) fn new(
        alloc: Global,
        graph: &'g GraphList,
        slots: usize,
        bytes: usize,
    ) -> Result<SeveralSearcher<'g>, AllocError>
        ensures searches { IfOk result (SearchesForSeveral graph.now) }
        ensures slots { IfOk result (λ searcher. length (row_of_several searcher) ≡ slots) }
    {
        let by = match choose(&Searched::several(graph), Wanted::EachMatch, slots, bytes) {
            Strategy::SpanFirst { by, pairs } => {
                return SeveralSearcher::span_first(alloc, graph, slots, by, pairs);
            }
            Strategy::LazyDfa => SpanSearch::LazyDfa,
            _ => SpanSearch::OrderedSets,
        };
        let spans = ListSpanSearcher::new(alloc, graph, slots, by)?;
        Ok(SeveralSearcher { spans, slots: None })
    }

    /// A searcher that first finds the span of a match with this strategy, and then its slots: with
    /// the bounded backtracker if there are at most this number of pairs.
    pub(crate) fn span_first(
        alloc: Global,
        graph: &'g GraphList,
        slots: usize,
        by: SpanSearch,
        pairs: usize,
    ) -> Result<SeveralSearcher<'g>, AllocError>
        ensures searches { IfOk result (SearchesForSeveral graph.now) }
        ensures slots { IfOk result (λ searcher. length (row_of_several searcher) ≡ slots) }
    {
        let spans = ListSpanSearcher::new(alloc, graph, 0, by)?;
        let cache = cache_for_list(alloc, graph, slots)?;
        let memory = SlotCache::new(alloc, cache, graph.table(), pairs);
        Ok(SeveralSearcher {
            spans,
            slots: Some(Box::new(alloc, memory)?),
        })
    }

    /// The match that starts first at or after this offset, of the pattern with the lowest number
    /// that matches there: that number, and the span of the pattern's most preferred match. It
    /// needs no memory, and the row has the slots of the match.
    pub(crate) fn find(
        &mut self,
        graph: &GraphList,
        haystack: &str,
        start: usize,
    ) -> Option<(usize, (usize, usize))>
        requires some { 0 < length graph.now.entries }
        requires boundary { IsCharBoundary haystack.now start }
        requires searches { SearchesForSeveral graph.now self.old }
        ensures found { IsBestOutcomeOf (table_of_list graph.now) (chars haystack.now)
            graph.now.entries (position_at haystack.now start)
            (with_match_start_kept (numbered_at result (row_of_several self.new))) }
        ensures searches { SearchesForSeveral graph.now self.new }
        ensures slots { length (row_of_several self.new) ≡ length (row_of_several self.old) }
    {
        let found = self.spans.find::<false>(graph, haystack, start)?;
        let Some(slots) = &mut self.slots else {
            return numbered(Some(found));
        };
        find_slots(graph, slots, haystack, found)
    }

    /// The match that starts at this offset, of the pattern with the lowest number that matches
    /// there: that number, and the span of the pattern's most preferred match. It needs no memory,
    /// and the row has the slots of the match.
    pub(crate) fn find_anchored(
        &mut self,
        graph: &GraphList,
        haystack: &str,
        start: usize,
    ) -> Option<(usize, (usize, usize))>
        requires some { 0 < length graph.now.entries }
        requires boundary { IsCharBoundary haystack.now start }
        requires searches { SearchesForSeveral graph.now self.old }
        ensures found { IsBestOutcomeTo (table_of_list graph.now) (chars haystack.now)
            graph.now.entries (position_at haystack.now start) (position_at haystack.now start)
            (with_match_start_kept (numbered_at result (row_of_several self.new))) }
        ensures searches { SearchesForSeveral graph.now self.new }
        ensures slots { length (row_of_several self.new) ≡ length (row_of_several self.old) }
    {
        let found = self.spans.find_anchored::<false>(graph, haystack, start)?;
        let Some(slots) = &mut self.slots else {
            return numbered(Some(found));
        };
        find_slots(graph, slots, haystack, found)
    }

    /// Whether any pattern matches at this offset. The search stops at the first match that it can
    /// confirm, and needs no memory. Afterwards the row belongs to no match.
    pub(crate) fn find_any_anchored(
        &mut self,
        graph: &GraphList,
        haystack: &str,
        start: usize,
    ) -> Option<(MatchStart, usize)>
        requires some { 0 < length graph.now.entries }
        requires boundary { IsCharBoundary haystack.now start }
        requires searches { SearchesForSeveral graph.now self.old }
        ensures found { (row : Row) → IsAnyTo (table_of_list graph.now) (chars haystack.now)
            graph.now.entries false (position_at haystack.now start)
            (position_at haystack.now start) (best_kept result row) }
        ensures searches { SearchesForSeveral graph.now self.new }
        ensures slots { length (row_of_several self.new) ≡ length (row_of_several self.old) }
    {
        self.spans.find_anchored::<true>(graph, haystack, start)
    }

    /// The least end of a match of any pattern that starts at or after this offset. The search
    /// stops at the first match that it can confirm, and needs no memory. Afterwards the row
    /// belongs to no match.
    pub(crate) fn find_end(
        &mut self,
        graph: &GraphList,
        haystack: &str,
        start: usize,
    ) -> Option<(MatchStart, usize)>
        requires some { 0 < length graph.now.entries }
        requires boundary { IsCharBoundary haystack.now start }
        requires searches { SearchesForSeveral graph.now self.old }
        ensures found { IsNumberedEndOf (table_of_list graph.now) (chars haystack.now)
            graph.now.entries (position_at haystack.now start) (best_reported result) }
        ensures searches { SearchesForSeveral graph.now self.new }
        ensures slots { length (row_of_several self.new) ≡ length (row_of_several self.old) }
    {
        self.spans.find::<true>(graph, haystack, start)
    }

    /// The slots of the last match that was found.
    pub(crate) fn row(&self) -> &[Option<usize>]
        ensures { result.now ≡ row_of_several self.now }
    {
        match &self.slots {
            Some(slots) => slots.cache.best.row(),
            None => self.spans.row(),
        }
    }
}

/// Finds the slots of the match with this span, which is the first match of any pattern and belongs
/// to the pattern with this number. Afterwards the row has the slots. Returns the number and the
/// span.
fn find_slots(
    graph: &GraphList,
    memory: &mut SlotCache,
    haystack: &str,
    found: (MatchStart, usize),
) -> Option<(usize, (usize, usize))>
    requires found { (s : ℕ) × IsBestOutcomeOf (table_of_list graph.now) (chars haystack.now)
        graph.now.entries s (best_reported (Some found)) }
    requires finds { FindsSlotsIn (table_of_list graph.now) memory.old }
    ensures found { (s : ℕ) → IsBestOutcomeOf (table_of_list graph.now) (chars haystack.now)
        graph.now.entries s (best_reported (Some found))
        → IsBestOutcomeOf (table_of_list graph.now) (chars haystack.now) graph.now.entries s
        (with_match_start_kept (numbered_at result memory.new.cache.best.row)) }
    ensures finds { FindsSlotsIn (table_of_list graph.now) memory.new }
    ensures width { length memory.new.cache.best.row ≡ length memory.old.cache.best.row }
{
    let (match_start, end) = found;
    let number = match_start.number as usize;
    let mut pattern = graph.pattern(number);
    let span = memory.find_in_span(&mut pattern, haystack, (match_start.at, end))?;
    Some((number, span))
}
