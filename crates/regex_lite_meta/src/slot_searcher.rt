//! A searcher for the slots of matches that other searches have found, which reuses its memory.
ghost use Rattle.std.specs.Prelude.{◌≡◌, ℕ, IfOk, Some, length};
ghost use Rattle.regex_lite_syntax.specs.Tree.{Tree};
ghost use Rattle.regex_lite_syntax.specs.Tree.Regular.{IsRegular};
ghost use Rattle.regex_lite_engine.specs.Graph.Renumbered.{IsGraphOf};
ghost use Rattle.regex_lite_engine.specs.Search.Outcomes.{IsSpanOutcome};
ghost use Rattle.regex_lite_meta.specs.Searching.{FindsSpan};
ghost use Rattle.regex_lite_meta.specs.Searching.{FindsSlotsOf, found_slots};

use crate::slots::SlotCache;
use crate::strategy::MOST_PAIRS_OF_LINE;
use regex_lite_engine::Graph;
use regex_lite_engine::pikevm::cache::cache_for;
use std::alloc::{AllocError, Global};

/// The memory of searches for the slots of one graph's matches.
///
/// Like a [`crate::GraphSearcher`], it doesn't hold the graph.
#[derive(Drop)]
pub struct SlotSearcher {
    memory: SlotCache,
}

impl SlotSearcher {
    /// A searcher of this graph, for matches with `slots` slots. It allocates all memory that its
    /// searches need. Short searches use the bounded backtracker, if there is memory for it; the
    /// results are the same.
    ///
    /// # Errors
    ///
    /// If memory runs out that the searches can't do without.
    pub fn new(alloc: Global, graph: &Graph, slots: usize) -> Result<SlotSearcher, AllocError>
        ensures finds { IfOk result (FindsSlotsOf graph.now) }
        ensures slots { IfOk result (λ searcher. length (found_slots searcher) ≡ slots) }
    {
        let cache = cache_for(alloc, graph.table(), slots)?;
        let memory = SlotCache::new(alloc, cache, graph.table(), MOST_PAIRS_OF_LINE);
        Ok(SlotSearcher { memory })
    }

    /// Finds the slots of the match between these offsets, which [`SlotSearcher::slots`] then
    /// returns. It needs no memory.
    ///
    /// Conditions: the searcher was made for this graph. A search from some offset finds a match
    /// with this span.
    pub fn find(&mut self, graph: &Graph, haystack: &str, span: (usize, usize))
        requires finds { FindsSlotsOf graph.now self.old }
        requires known { (tree : Tree) × IsRegular tree × IsGraphOf tree graph.now
            × ((start : ℕ) × FindsSpan tree haystack.now start span) }
        ensures found { (tree : Tree) → IsRegular tree → IsGraphOf tree graph.now
            → (start : ℕ) → FindsSpan tree haystack.now start span
            → IsSpanOutcome tree haystack.now start (found_slots self.new) (Some span) }
        ensures finds { FindsSlotsOf graph.now self.new }
        ensures slots { length (found_slots self.new) ≡ length (found_slots self.old) }
    {
        let mut pattern = graph.pattern();
        let _ = self.memory.find_in_span(&mut pattern, haystack, span);
    }

    /// The slots of the last match, none of them marked before the first. Slots 2k and 2k + 1 are
    /// the start and the end of group k.
    pub fn slots(&self) -> &[Option<usize>]
        ensures { result.now ≡ found_slots self.now }
    {
        self.memory.cache.best.row()
    }
}
