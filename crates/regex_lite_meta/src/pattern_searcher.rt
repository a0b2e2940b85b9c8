//! A searcher for one pattern, of a regex or alone in a list, which reuses its memory.
//!
//! `find_any` looks for a start before it begins a search, since no match begins in most lines of a
//! log. It is over at the first match that it comes to.
ghost use Rattle.std.specs.Prelude.{◌≡◌, ◌∷◌, ◌↔◌, [], IfOk, IfSome, IsCharBoundary, IsTrue, chars};
ghost use Rattle.std.specs.Prelude.{length};
ghost use Rattle.regex_lite_meta.specs.LazyDfa.Spans.{IsDfaFor};
ghost use Rattle.regex_lite_meta.specs.Memories.{SearchesForOne};
ghost use Rattle.regex_lite_engine.specs.Graph.Stored.{places_of};
ghost use Rattle.regex_lite_engine.specs.Search.Filters.{facts_of};
ghost use Rattle.regex_lite_engine.specs.Search.NumberedOutcomes.{IsNumberedEndOf, best_at};
ghost use Rattle.regex_lite_engine.specs.Search.NumberedOutcomes.{IsFoundTo, best_kept};
ghost use Rattle.regex_lite_engine.specs.Search.NumberedOutcomes.{IsNumberedOutcome};
ghost use Rattle.regex_lite_engine.specs.Search.Offsets.{position_at};
ghost use Rattle.regex_lite_engine.specs.Search.OutcomeOfOne.{ending_at};
ghost use Rattle.regex_lite_engine.specs.Search.Starts.{DoWordsAnswer};
ghost use Rattle.regex_lite_meta.specs.AnyOfOne.{HasMatchOfAny};

use crate::anchored::find_anchored;
use crate::lazy_dfa::automaton::LazyDfa;
use crate::lazy_dfa::single::one::end_of;
use crate::lazy_dfa::spans::SpanSearcher;
use crate::slots::SlotCache;
use crate::strategy::{Searched, Strategy, Wanted, choose};
use regex_lite_engine::pikevm::cache::{cache_for, restart};
use regex_lite_engine::pikevm::run::advance;
use regex_lite_engine::pikevm::thread_start::MatchStart;
use regex_lite_engine::search::one_pattern::OnePattern;
use std::alloc::{AllocError, Global};

/// The memory of searches for a pattern.
#[derive(Drop)]
pub(crate) struct PatternSearcher {
    memory: SlotCache,
    /// The lazy DFA, if no slots are kept and it pays.
    dfa: Option<Box<LazyDfa>>,
    /// The searcher for the span of a match, if slots are kept and it pays.
    spans: Option<Box<SpanSearcher>>,
}

impl PatternSearcher {
    /// A searcher of this pattern, for matches with `slots` slots and haystacks of about `bytes`
    /// bytes. It allocates all memory that its searches need. For long haystacks it uses a lazy
    /// DFA, if there is memory for one.
    ///
    /// # Errors
    ///
    /// If memory runs out that the searches can't do without.
    pub(crate) fn new(
        alloc: Global,
        pattern: &OnePattern<'_>,
        slots: usize,
        bytes: usize,
    ) -> Result<PatternSearcher, AllocError>
        ensures searches { IfOk result
            (SearchesForOne (places_of pattern.now.table.now) pattern.now.entry) }
        ensures slots { IfOk result
            (λ searcher. length searcher.memory.cache.best.row ≡ slots) }
    {
        let searched = Searched::one(pattern.table, pattern.filter);
        let strategy = choose(&searched, Wanted::EachMatch, slots, bytes);
        let cache = cache_for(alloc, pattern.table, slots)?;
        let memory = SlotCache::new(alloc, cache, pattern.table, strategy.pairs());
        let dfa = match strategy {
            Strategy::LazyDfa => automaton_for(alloc, pattern),
            _ => None,
        };
        let spans = match strategy {
            Strategy::SpanFirst { by, .. } => SpanSearcher::for_one(alloc, pattern, by),
            _ => None,
        };
        Ok(PatternSearcher { memory, dfa, spans })
    }

    /// The span of the most preferred match from the least start at or after this offset. It needs
    /// no memory, and the row has the slots of the match.
    #[inline(always)]
    pub(crate) fn find(
        &mut self,
        pattern: &mut OnePattern<'_>,
        haystack: &str,
        start: usize,
    ) -> Option<(usize, usize)>
        requires boundary { IsCharBoundary haystack.now start }
        requires searches { SearchesForOne (places_of pattern.old.table.now) pattern.old.entry
            self.old }
        requires answers { DoWordsAnswer (places_of pattern.old.table.now) pattern.old.entry
            (facts_of pattern.old.filter) }
        ensures found { IsNumberedOutcome (places_of pattern.old.table.now) (chars haystack.now)
            pattern.old.entry (position_at haystack.now start)
            (best_at result self.new.memory.cache.best.row) }
        ensures searches { SearchesForOne (places_of pattern.old.table.now) pattern.old.entry
            self.new }
        ensures slots { length self.new.memory.cache.best.row
            ≡ length self.old.memory.cache.best.row }
    {
        if self.row().is_empty() {
            if let Some(words) = pattern.whole_words() {
                return words.find_span(haystack.as_bytes(), start);
            }
        }
        self.find_in_graph(pattern, haystack, start)
    }

    /// The span of the most preferred match from the least start at or after this offset, without
    /// regard to words.
    // Inlined, since a search in a short line takes few instructions.
    #[inline(always)]
    fn find_in_graph(
        &mut self,
        pattern: &mut OnePattern<'_>,
        haystack: &str,
        start: usize,
    ) -> Option<(usize, usize)>
        requires boundary { IsCharBoundary haystack.now start }
        requires searches { SearchesForOne (places_of pattern.old.table.now) pattern.old.entry
            self.old }
        ensures found { IsNumberedOutcome (places_of pattern.old.table.now) (chars haystack.now)
            pattern.old.entry (position_at haystack.now start)
            (best_at result self.new.memory.cache.best.row) }
        ensures searches { SearchesForOne (places_of pattern.old.table.now) pattern.old.entry
            self.new }
        ensures slots { length self.new.memory.cache.best.row
            ≡ length self.old.memory.cache.best.row }
    {
        if self.dfa.is_none() && self.spans.is_none() {
            return self.memory.find_from(pattern, haystack, start);
        }
        let first = pattern.search_start(haystack, start)?;
        pattern.first = first;
        pattern.may_start = true;
        if let Some(dfa) = &mut self.dfa {
            return dfa.find_span(pattern, &mut self.memory.cache, haystack, first);
        }
        let Some(spans) = &mut self.spans else {
            return self.memory.find_from(pattern, haystack, first);
        };
        let span = spans.find(pattern, haystack, first)?;
        self.memory.find_in_span(pattern, haystack, span)
    }

    /// Whether there is a match that starts at or after this offset. The search stops at the first
    /// match that it can confirm, and needs no memory. Afterwards the row belongs to no match.
    pub(crate) fn find_any(
        &mut self,
        pattern: &mut OnePattern<'_>,
        haystack: &str,
        start: usize,
    ) -> bool
        requires boundary { IsCharBoundary haystack.now start }
        requires searches { SearchesForOne (places_of pattern.old.table.now) pattern.old.entry
            self.old }
        requires answers { DoWordsAnswer (places_of pattern.old.table.now) pattern.old.entry
            (facts_of pattern.old.filter) }
        ensures found { IsTrue result ↔ HasMatchOfAny (places_of pattern.old.table.now)
            (chars haystack.now) (pattern.old.entry ∷ []) (position_at haystack.now start) }
        ensures searches { SearchesForOne (places_of pattern.old.table.now) pattern.old.entry
            self.new }
        ensures slots { length self.new.memory.cache.best.row
            ≡ length self.old.memory.cache.best.row }
    {
        if let Some(words) = pattern.whole_words() {
            return words.find_span(haystack.as_bytes(), start).is_some();
        }
        self.find_end(pattern, haystack, start).is_some()
    }

    /// The least end of any match that starts at or after this offset. The search stops at the
    /// first match that it can confirm, and needs no memory. Afterwards the row belongs to no
    /// match.
    fn find_end(
        &mut self,
        pattern: &mut OnePattern<'_>,
        haystack: &str,
        start: usize,
    ) -> Option<usize>
        requires boundary { IsCharBoundary haystack.now start }
        requires searches { SearchesForOne (places_of pattern.old.table.now) pattern.old.entry
            self.old }
        ensures found { IsNumberedEndOf (places_of pattern.old.table.now) (chars haystack.now)
            (pattern.old.entry ∷ []) (position_at haystack.now start) (ending_at result) }
        ensures searches { SearchesForOne (places_of pattern.old.table.now) pattern.old.entry
            self.new }
        ensures slots { length self.new.memory.cache.best.row
            ≡ length self.old.memory.cache.best.row }
    {
        let first = pattern.first_start(haystack, start)?;
        let cache = &mut self.memory.cache;
        let Some(dfa) = &mut self.dfa else {
            restart(cache);
            advance::<_, _, true>(cache, pattern, haystack, first, None);
            return cache.best.end();
        };
        pattern.may_start = true;
        end_of(dfa.find::<_, true>(pattern, cache, haystack, first.at))
    }

    /// The span of the most preferred match that starts at this offset. It needs no memory, and the
    /// row has the slots of the match. If EARLIEST, the result only says whether there is a match.
    /// If WHOLE, only matches that end where the haystack ends count.
    pub(crate) fn find_anchored<const EARLIEST: bool, const WHOLE: bool>(
        &mut self,
        pattern: &mut OnePattern<'_>,
        haystack: &str,
        start: usize,
    ) -> Option<(MatchStart, usize)>
        requires boundary { IsCharBoundary haystack.now start }
        requires searches { SearchesForOne (places_of pattern.old.table.now) pattern.old.entry
            self.old }
        ensures found { IsFoundTo EARLIEST (places_of pattern.old.table.now) (chars haystack.now)
            (pattern.old.entry ∷ []) WHOLE (position_at haystack.now start)
            (position_at haystack.now start) (best_kept result self.new.memory.cache.best.row) }
        ensures searches { SearchesForOne (places_of pattern.old.table.now) pattern.old.entry
            self.new }
        ensures slots { length self.new.memory.cache.best.row
            ≡ length self.old.memory.cache.best.row }
    {
        find_anchored::<_, EARLIEST, WHOLE>(&mut self.memory.cache, pattern, haystack, start)
    }

    /// The slots of the last match.
    pub(crate) fn row(&self) -> &[Option<usize>]
        ensures { result.now ≡ self.now.memory.cache.best.row }
    {
        self.memory.cache.best.row()
    }
}

/// A lazy DFA of this pattern with an empty cache. It is on the heap, since most searchers have
/// none and are moved often.
// Not inlined, so that making a searcher without one doesn't pay for it.
#[inline(never)]
fn automaton_for(alloc: Global, pattern: &OnePattern<'_>) -> Option<Box<LazyDfa>>
    ensures { IfSome result (λ dfa. IsDfaFor (places_of pattern.now.table.now)
        (pattern.now.entry ∷ []) dfa.value) }
{
    let dfa = LazyDfa::for_one(alloc, pattern)?;
    Box::new(alloc, dfa).ok()
}
