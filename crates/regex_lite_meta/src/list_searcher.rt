//! A searcher for several patterns, which reuses its memory.
ghost use Rattle.std.specs.Prelude.{◌≡◌, ◌<◌, ◌⊎◌, ◌↔◌, List, IfOk, IsCharBoundary, IsTrue};
ghost use Rattle.std.specs.Prelude.{chars, false, length};
ghost use Rattle.regex_lite_syntax.specs.Tree.{Tree};
ghost use Rattle.regex_lite_engine.specs.Graph.SideBySide.{AreRegularPatterns};
ghost use Rattle.regex_lite_engine.specs.Graph.StoredList.{IsGraphOfList};
ghost use Rattle.regex_lite_engine.specs.Search.AnswerOfList.{AnyMatchesFrom};
ghost use Rattle.regex_lite_engine.specs.Search.Offsets.{search_start};
ghost use Rattle.regex_lite_engine.specs.Search.AnswerAt.{AnyMatchesAt};
ghost use Rattle.regex_lite_engine.specs.Search.Outcomes.{IsSpanOutcomeAtOfList};
ghost use Rattle.regex_lite_engine.specs.Search.Outcomes.{IsSpanOutcomeOfList};

use crate::anchored::find_word_at;
use crate::pattern_searcher::PatternSearcher;
use crate::several_searcher::SeveralSearcher;
use crate::strategy::SpanSearch;
use regex_lite_engine::nfa::list::GraphList;
use regex_lite_engine::pikevm::best::numbered;
use regex_lite_syntax::prefilter::ListWords;
use std::alloc::{AllocError, Global};
use std::marker::Model;

/// The graph of several patterns, and the memory of its searches.
#[derive(Drop)]
pub struct GraphListSearcher<'g> {
    graph: &'g GraphList,
    inner: Inner<'g>,
}

/// The searcher that is used.
#[derive(Drop)]
pub(crate) enum Inner<'g> {
    /// For a single pattern: the searcher of a regex.
    One(PatternSearcher),
    /// For several patterns that are plain words, without slots. It needs no memory.
    Words(&'g ListWords),
    Several(SeveralSearcher<'g>),
}

impl<'g> Model for GraphListSearcher<'g> {
    ghost use Rattle.regex_lite_meta.specs.Memories.{SearchesList, row_of_list};
    ghost use Rattle.regex_lite_meta.specs.Searching.{ListSearching};

    ghost Value = { ListSearching };

    ghost view = { λ searcher. record {
      graph = searcher.graph.now;
      slots = row_of_list searcher.inner;
    } };

    ghost invariant = { λ searcher. SearchesList searcher.graph.now searcher.inner };
}

impl<'g> GraphListSearcher<'g> {
    /// A searcher of this graph, whose matches have `slots` slots, for haystacks of about `bytes`
    /// bytes. It allocates all memory that its searches need. For long haystacks it may use a lazy
    /// DFA, if there is memory for one; the results are the same.
    ///
    /// # Errors
    ///
    /// If memory runs out that the searches can't do without.
    pub fn new(
        alloc: Global,
        graph: &'g GraphList,
        slots: usize,
        bytes: usize,
    ) -> Result<GraphListSearcher<'g>, AllocError>
        ensures graph { IfOk result (λ searcher. searcher.graph ≡ graph.now) }
        ensures slots { IfOk result (λ searcher. length searcher.slots ≡ slots) }
    {
        if slots == 0 {
            if let Some(words) = graph.words() {
                let inner = Inner::Words(words);
                return Ok(GraphListSearcher { graph, inner });
            }
        }
        let inner = match graph.alone() {
            Some(pattern) => { Inner::One(PatternSearcher::new(alloc, &pattern, slots, bytes)?) }
            None => Inner::Several(SeveralSearcher::new(alloc, graph, slots, bytes)?),
        };
        Ok(GraphListSearcher { graph, inner })
    }

    /// A searcher for several patterns that first finds the span of a match with this strategy, and
    /// then its slots: with the bounded backtracker if there are at most this number of pairs.
    pub(crate) fn span_first(
        alloc: Global,
        graph: &'g GraphList,
        slots: usize,
        by: SpanSearch,
        pairs: usize,
    ) -> Result<GraphListSearcher<'g>, AllocError>
        ensures graph { IfOk result (λ searcher. searcher.graph ≡ graph.now) }
        ensures slots { IfOk result (λ searcher. length searcher.slots ≡ slots) }
    {
        let several = SeveralSearcher::span_first(alloc, graph, slots, by, pairs)?;
        Ok(GraphListSearcher {
            graph,
            inner: Inner::Several(several),
        })
    }

    /// The match that starts first at or after this offset, of the pattern with the lowest number
    /// that matches there: that number, and the span of the pattern's most preferred match. It
    /// needs no memory, and [`GraphListSearcher::slots`] has the slots of the match.
    ///
    /// Condition: the start is above the haystack's length or on a character boundary.
    pub fn search(&mut self, haystack: &str, start: usize) -> Option<(usize, (usize, usize))>
        requires { (length haystack.now < start) ⊎ IsCharBoundary haystack.now start }
        ensures found { (trees : List Tree) → AreRegularPatterns trees
            → IsGraphOfList trees self.old.graph
            → IsSpanOutcomeOfList trees haystack.now start self.new.slots result }
        ensures graph { self.new.graph ≡ self.old.graph }
        ensures slots { length self.new.slots ≡ length self.old.slots }
    {
        if start > haystack.len() || self.graph.len() == 0 {
            return None;
        }
        match &mut self.inner {
            Inner::One(one) => {
                let mut pattern = self.graph.pattern(0);
                let span = one.find(&mut pattern, haystack, start)?;
                Some((0, span))
            }
            Inner::Words(words) => words.find_span(haystack.as_bytes(), start),
            Inner::Several(several) => several.find(self.graph, haystack, start),
        }
    }

    /// Whether any pattern has a match that starts at or after this offset. The search stops at the
    /// first match that it can confirm, and needs no memory. Afterwards
    /// [`GraphListSearcher::slots`] belong to no match.
    ///
    /// Condition: the start is above the haystack's length or on a character boundary.
    pub fn search_any(&mut self, haystack: &str, start: usize) -> bool
        requires { (length haystack.now < start) ⊎ IsCharBoundary haystack.now start }
        ensures found { (trees : List Tree) → AreRegularPatterns trees
            → IsGraphOfList trees self.old.graph → (IsTrue result
            ↔ AnyMatchesFrom trees (chars haystack.now) (search_start haystack.now start)) }
        ensures graph { self.new.graph ≡ self.old.graph }
        ensures slots { length self.new.slots ≡ length self.old.slots }
    {
        if start > haystack.len() || self.graph.len() == 0 {
            return false;
        }
        match &mut self.inner {
            Inner::One(one) => {
                let mut pattern = self.graph.pattern(0);
                one.find_any(&mut pattern, haystack, start)
            }
            Inner::Words(words) => words.find_span(haystack.as_bytes(), start).is_some(),
            Inner::Several(several) => several.find_end(self.graph, haystack, start).is_some(),
        }
    }

    /// The match that starts at this offset, of the pattern with the lowest number that matches
    /// there: that number, and the span of the pattern's most preferred match. It needs no memory,
    /// and [`GraphListSearcher::slots`] has the slots of the match.
    ///
    /// Condition: the start is above the haystack's length or on a character boundary.
    pub fn search_anchored(
        &mut self,
        haystack: &str,
        start: usize,
    ) -> Option<(usize, (usize, usize))>
        requires { (length haystack.now < start) ⊎ IsCharBoundary haystack.now start }
        ensures found { (trees : List Tree) → AreRegularPatterns trees
            → IsGraphOfList trees self.old.graph
            → IsSpanOutcomeAtOfList false trees haystack.now start self.new.slots result }
        ensures graph { self.new.graph ≡ self.old.graph }
        ensures slots { length self.new.slots ≡ length self.old.slots }
    {
        if start > haystack.len() || self.graph.len() == 0 {
            return None;
        }
        match &mut self.inner {
            Inner::One(one) => {
                let mut pattern = self.graph.pattern(0);
                numbered(one.find_anchored::<false, false>(&mut pattern, haystack, start))
            }
            Inner::Words(words) => find_word_at(words, haystack, start),
            Inner::Several(several) => several.find_anchored(self.graph, haystack, start),
        }
    }

    /// Whether any pattern matches at this offset. The search stops at the first match that it can
    /// confirm, and needs no memory. Afterwards [`GraphListSearcher::slots`] belong to no match.
    ///
    /// Condition: the start is above the haystack's length or on a character boundary.
    pub fn search_any_anchored(&mut self, haystack: &str, start: usize) -> bool
        requires { (length haystack.now < start) ⊎ IsCharBoundary haystack.now start }
        ensures found { (trees : List Tree) → AreRegularPatterns trees
            → IsGraphOfList trees self.old.graph → (IsTrue result
            ↔ AnyMatchesAt false trees (chars haystack.now) (search_start haystack.now start)) }
        ensures graph { self.new.graph ≡ self.old.graph }
        ensures slots { length self.new.slots ≡ length self.old.slots }
    {
        if start > haystack.len() || self.graph.len() == 0 {
            return false;
        }
        match &mut self.inner {
            Inner::One(one) => {
                let mut pattern = self.graph.pattern(0);
                one.find_anchored::<true, false>(&mut pattern, haystack, start)
                    .is_some()
            }
            Inner::Words(words) => find_word_at(words, haystack, start).is_some(),
            Inner::Several(several) => {
                several
                    .find_any_anchored(self.graph, haystack, start)
                    .is_some()
            }
        }
    }

    /// The slots of the last match that was found, none of them marked before the first. Slots 2k
    /// and 2k + 1 are the start and the end of group k of its pattern.
    pub fn slots(&self) -> &[Option<usize>]
        ensures { result.now ≡ self.now.slots }
    {
        match &self.inner {
            Inner::One(one) => one.row(),
            Inner::Words(_) => &[],
            Inner::Several(several) => several.row(),
        }
    }
}
