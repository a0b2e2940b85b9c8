//! A searcher of one graph, which reuses its memory.
ghost use Rattle.std.specs.Prelude.{◌≡◌, ◌<◌, ◌⊎◌, ◌↔◌, IfOk, IsCharBoundary, IsTrue, chars};
ghost use Rattle.std.specs.Prelude.{length};
ghost use Rattle.regex_lite_syntax.specs.Tree.{Tree};
ghost use Rattle.regex_lite_syntax.specs.Tree.Regular.{IsRegular};
ghost use Rattle.regex_lite_engine.specs.Graph.Renumbered.{IsGraphOf};
ghost use Rattle.regex_lite_engine.specs.Search.Answer.{HasMatchFrom};
ghost use Rattle.regex_lite_engine.specs.Search.Offsets.{search_start};
ghost use Rattle.regex_lite_engine.specs.Search.AnswerAt.{HasMatchAt};
ghost use Rattle.regex_lite_engine.specs.Search.Outcomes.{IsSpanOutcome, IsSpanOutcomeAt};
ghost use Rattle.regex_lite_meta.specs.Searching.{SearchesGraph, row_of_graph};

use crate::pattern_searcher::PatternSearcher;
use regex_lite_engine::Graph;
use regex_lite_engine::pikevm::best::span_of;
use std::alloc::{AllocError, Global};

/// The memory of searches of one graph.
///
/// It doesn't hold the graph, so that the owner of the graph can hold the searcher too: each call
/// takes the graph for which the searcher was made.
#[derive(Drop)]
pub struct GraphSearcher {
    inner: PatternSearcher,
}

impl GraphSearcher {
    /// A searcher of this graph, for matches with `slots` slots and haystacks of about `bytes`
    /// bytes. It allocates all memory that its searches need. For long haystacks it uses a lazy
    /// DFA, if there is memory for one; the results are the same.
    ///
    /// # Errors
    ///
    /// If memory runs out without which it can't search.
    pub fn new(
        alloc: Global,
        graph: &Graph,
        slots: usize,
        bytes: usize,
    ) -> Result<GraphSearcher, AllocError>
        ensures searches { IfOk result (SearchesGraph graph.now) }
        ensures slots { IfOk result (λ searcher. length (row_of_graph searcher) ≡ slots) }
    {
        let pattern = graph.pattern();
        let inner = PatternSearcher::new(alloc, &pattern, slots, bytes)?;
        Ok(GraphSearcher { inner })
    }

    /// The span of the most preferred match from the least start at or after this offset. It needs
    /// no memory, and [`GraphSearcher::slots`] has the slots of the match.
    ///
    /// Conditions: the searcher was made for this graph. The start is above the haystack's length
    /// or on a character boundary.
    pub fn search(&mut self, graph: &Graph, haystack: &str, start: usize) -> Option<(usize, usize)>
        requires searches { SearchesGraph graph.now self.old }
        requires start { (length haystack.now < start) ⊎ IsCharBoundary haystack.now start }
        ensures found { (tree : Tree) → IsRegular tree → IsGraphOf tree graph.now
            → IsSpanOutcome tree haystack.now start (row_of_graph self.new) result }
        ensures searches { SearchesGraph graph.now self.new }
        ensures slots { length (row_of_graph self.new) ≡ length (row_of_graph self.old) }
    {
        if start > haystack.len() {
            return None;
        }
        let mut pattern = graph.pattern();
        self.inner.find(&mut pattern, haystack, start)
    }

    /// Whether there is a match that starts at or after this offset. The search stops at the first
    /// match that it can confirm, and needs no memory. Afterwards [`GraphSearcher::slots`] belong
    /// to no match.
    ///
    /// Conditions: the searcher was made for this graph. The start is above the haystack's length
    /// or on a character boundary.
    pub fn search_any(&mut self, graph: &Graph, haystack: &str, start: usize) -> bool
        requires searches { SearchesGraph graph.now self.old }
        requires start { (length haystack.now < start) ⊎ IsCharBoundary haystack.now start }
        ensures found { (tree : Tree) → IsRegular tree → IsGraphOf tree graph.now
            → (IsTrue result
            ↔ HasMatchFrom tree (chars haystack.now) (search_start haystack.now start)) }
        ensures searches { SearchesGraph graph.now self.new }
        ensures slots { length (row_of_graph self.new) ≡ length (row_of_graph self.old) }
    {
        if start > haystack.len() {
            return false;
        }
        let mut pattern = graph.pattern();
        self.inner.find_any(&mut pattern, haystack, start)
    }

    /// The span of the most preferred match that starts at this offset. If WHOLE, only matches that
    /// end where the haystack ends count. It needs no memory, and [`GraphSearcher::slots`] has the
    /// slots of the match.
    ///
    /// Conditions: the searcher was made for this graph. The start is above the haystack's length
    /// or on a character boundary.
    pub fn search_anchored<const WHOLE: bool>(
        &mut self,
        graph: &Graph,
        haystack: &str,
        start: usize,
    ) -> Option<(usize, usize)>
        requires searches { SearchesGraph graph.now self.old }
        requires start { (length haystack.now < start) ⊎ IsCharBoundary haystack.now start }
        ensures found { (tree : Tree) → IsRegular tree → IsGraphOf tree graph.now
            → IsSpanOutcomeAt WHOLE tree haystack.now start (row_of_graph self.new) result }
        ensures searches { SearchesGraph graph.now self.new }
        ensures slots { length (row_of_graph self.new) ≡ length (row_of_graph self.old) }
    {
        if start > haystack.len() {
            return None;
        }
        let mut pattern = graph.pattern();
        span_of(
            self.inner
                .find_anchored::<false, WHOLE>(&mut pattern, haystack, start),
        )
    }

    /// Whether a match starts at this offset. If WHOLE, only matches that end where the haystack
    /// ends count. The search stops at the first such match that it can confirm, and needs no
    /// memory. Afterwards [`GraphSearcher::slots`] belong to no match.
    ///
    /// Conditions: the searcher was made for this graph. The start is above the haystack's length
    /// or on a character boundary.
    pub fn search_any_anchored<const WHOLE: bool>(
        &mut self,
        graph: &Graph,
        haystack: &str,
        start: usize,
    ) -> bool
        requires searches { SearchesGraph graph.now self.old }
        requires start { (length haystack.now < start) ⊎ IsCharBoundary haystack.now start }
        ensures found { (tree : Tree) → IsRegular tree → IsGraphOf tree graph.now
            → (IsTrue result
            ↔ HasMatchAt WHOLE tree (chars haystack.now) (search_start haystack.now start)) }
        ensures searches { SearchesGraph graph.now self.new }
        ensures slots { length (row_of_graph self.new) ≡ length (row_of_graph self.old) }
    {
        if start > haystack.len() {
            return false;
        }
        let mut pattern = graph.pattern();
        self.inner
            .find_anchored::<true, WHOLE>(&mut pattern, haystack, start)
            .is_some()
    }

    /// The slots of the last match that was found, none of them marked before the first. Slots 2k
    /// and 2k + 1 are the start and the end of group k.
    pub fn slots(&self) -> &[Option<usize>]
        ensures { result.now ≡ row_of_graph self.now }
    {
        self.inner.row()
    }
}
