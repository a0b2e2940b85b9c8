//! Searches without slots that find the span of a match, with a lazy DFA where that pays. A search
//! in that span then finds its slots.
ghost use Rattle.std.specs.Prelude.{◌≡◌, ◌∷◌, [], IfSome, IsCharBoundary, chars};
ghost use Rattle.std.specs.Prelude.{length, true};
ghost use Rattle.regex_lite_meta.specs.LazyDfa.Spans.{FindsSpansIn, IsDfaFor};
ghost use Rattle.regex_lite_meta.specs.LazyDfa.Scanning.{span_reported};
ghost use Rattle.regex_lite_engine.specs.Graph.Stored.{places_of};
ghost use Rattle.regex_lite_engine.specs.Search.Counting.{IsCountable};
ghost use Rattle.regex_lite_engine.specs.Search.Offsets.{position_at};
ghost use Rattle.regex_lite_engine.specs.Search.NumberedOutcomes.{IsBestOutcomeOf, best_at};
ghost use Rattle.regex_lite_engine.specs.Search.NumberedOutcomes.{IsNumberedOutcome};
ghost use Rattle.regex_lite_engine.specs.Pikevm.Searching.{IsBetween};

use crate::lazy_dfa::automaton::LazyDfa;
use crate::strategy::SpanSearch;
use regex_lite_engine::pikevm::best::span_of;
use regex_lite_engine::pikevm::cache::{Cache, cache_for, restart};
use regex_lite_engine::pikevm::run::run;
use regex_lite_engine::pikevm::thread_start::MatchStart;
use regex_lite_engine::search::one_pattern::OnePattern;
use std::alloc::Global;

/// The memory of searches without slots, and a lazy DFA if they use one.
#[derive(Drop)]
pub(crate) struct SpanSearcher {
    dfa: Option<LazyDfa>,
    cache: Cache<MatchStart>,
}

impl SpanSearcher {
    /// A searcher for this pattern with this strategy. Its cache is empty. `None` if a lazy DFA
    /// would have too many classes or memory runs out. It is boxed, so that moving it is cheap.
    pub(crate) fn for_one(
        alloc: Global,
        pattern: &OnePattern<'_>,
        by: SpanSearch,
    ) -> Option<Box<SpanSearcher>>
        ensures { IfSome result (λ boxed. FindsSpansIn (places_of pattern.now.table.now)
            pattern.now.entry boxed.value) }
    {
        let dfa = match by {
            SpanSearch::LazyDfa => Some(LazyDfa::for_one(alloc, pattern)?),
            SpanSearch::OrderedSets => None,
        };
        let cache = cache_for(alloc, pattern.table, 0).ok()?;
        let searcher = SpanSearcher { dfa, cache };
        Box::new(alloc, searcher).ok()
    }

    /// The span of the most preferred match from the least start at or after this offset.
    ///
    /// Condition: the pattern may start anywhere.
    pub(crate) fn find(
        &mut self,
        pattern: &OnePattern<'_>,
        haystack: &str,
        start: usize,
    ) -> Option<(usize, usize)>
        requires boundary { IsCharBoundary haystack.now start }
        requires all { pattern.now.may_start ≡ true }
        requires finds { FindsSpansIn (places_of pattern.now.table.now) pattern.now.entry self.old }
        ensures found { IsNumberedOutcome (places_of pattern.now.table.now) (chars haystack.now)
            pattern.now.entry (position_at haystack.now start) (best_at result []) }
        ensures finds { FindsSpansIn (places_of pattern.now.table.now) pattern.now.entry self.new }
    {
        if let Some(dfa) = &mut self.dfa {
            return dfa.find_span(pattern, &mut self.cache, haystack, start);
        }
        restart(&mut self.cache);
        let mut own = *pattern;
        run::<_, _, false>(&mut self.cache, &mut own, haystack, start);
        span_of(self.cache.best.found())
    }
}

impl LazyDfa {
    /// The match span found by the lazy DFA: of the most preferred match from the least start at or
    /// after this offset.
    ///
    /// Condition: the pattern may start anywhere.
    // Not inlined, so that a search without a lazy DFA pays only for the test.
    #[inline(never)]
    pub(crate) fn find_span(
        &mut self,
        pattern: &OnePattern<'_>,
        cache: &mut Cache<MatchStart>,
        haystack: &str,
        start: usize,
    ) -> Option<(usize, usize)>
        requires boundary { IsCharBoundary haystack.now start }
        requires all { pattern.now.may_start ≡ true }
        requires is_dfa { IsDfaFor (places_of pattern.now.table.now) (pattern.now.entry ∷ [])
            self.old }
        requires between { IsBetween (places_of pattern.now.table.now) cache.old }
        requires countable { IsCountable (places_of pattern.now.table.now) }
        requires width { length cache.old.walk.memory.row ≡ 0 }
        ensures found { IsBestOutcomeOf (places_of pattern.now.table.now) (chars haystack.now)
            (pattern.now.entry ∷ []) (position_at haystack.now start) (span_reported result) }
        ensures is_dfa { IsDfaFor (places_of pattern.now.table.now) (pattern.now.entry ∷ [])
            self.new }
        ensures between { IsBetween (places_of pattern.now.table.now) cache.new }
        ensures width { length cache.new.walk.memory.row ≡ 0 }
    {
        span_of(self.find::<_, false>(pattern, cache, haystack, start))
    }
}
