//! Searches for several patterns that find the span of a match and the number of its pattern. Where
//! it pays they use a lazy DFA, and keep no slots.
ghost use Rattle.std.specs.Prelude.{◌≡◌, ◌<◌, IfOk, IfSome, IsCharBoundary, None, chars, length};
ghost use Rattle.std.specs.Prelude.{false, option_map};
ghost use Rattle.regex_lite_meta.specs.LazyDfa.Spans.{FindsSpansInList, IsDfaFor, IsDfaIfSome};
ghost use Rattle.regex_lite_meta.specs.LazyDfa.Scanning.{best_reported};
ghost use Rattle.regex_lite_engine.specs.Graph.StoredList.{table_of_list};
ghost use Rattle.regex_lite_engine.specs.Search.Bounds.{characters_left};
ghost use Rattle.regex_lite_engine.specs.Search.Counting.{CanCount};
ghost use Rattle.regex_lite_engine.specs.Search.NumberedOutcomes.{IsFoundOf, IsFoundTo, best_kept};
ghost use Rattle.regex_lite_engine.specs.Search.Offsets.{position_at};
ghost use Rattle.regex_lite_engine.specs.Pikevm.Searching.{IsBetween};

use crate::anchored::find_anchored;
use crate::lazy_dfa::automaton::LazyDfa;
use crate::strategy::SpanSearch;
use regex_lite_engine::nfa::list::GraphList;
use regex_lite_engine::pikevm::cache::{Cache, cache_for_list, restart};
use regex_lite_engine::pikevm::run::advance;
use regex_lite_engine::pikevm::thread_start::MatchStart;
use regex_lite_engine::search::all_of_list::AllOfList;
use regex_lite_engine::search::here::Here;
use regex_lite_engine::search::list_patterns::ListPatterns;
use regex_lite_engine::search::patterns::pass_over;
use std::alloc::{AllocError, Global};

/// The memory of searches for the patterns of a list.
#[derive(Drop)]
pub(crate) struct ListSpanSearcher<'g> {
    /// The patterns of the list.
    patterns: ListPatterns<'g>,
    cache: Cache<MatchStart>,
    /// The lazy DFA, where it pays. On the heap, since most searchers have none and are moved
    /// often.
    dfa: Option<Box<LazyDfa>>,
}

impl<'g> ListSpanSearcher<'g> {
    /// A searcher of this list, for matches with this number of slots and with this strategy. If
    /// there is no memory for a lazy DFA, it uses the PikeVM.
    ///
    /// # Errors
    ///
    /// If memory runs out that the searches can't do without.
    pub(crate) fn new(
        alloc: Global,
        list: &'g GraphList,
        slots: usize,
        by: SpanSearch,
    ) -> Result<ListSpanSearcher<'g>, AllocError>
        requires slots { by ≡ SpanSearch.LazyDfa → slots ≡ 0 }
        ensures finds { IfOk result (FindsSpansInList list.now) }
        ensures width { IfOk result (λ searcher. length searcher.cache.best.row ≡ slots) }
    {
        let patterns = ListPatterns::new(alloc, list)?;
        let cache = cache_for_list(alloc, list, slots)?;
        let dfa = match by {
            SpanSearch::LazyDfa => automaton_for(alloc, list),
            SpanSearch::OrderedSets => None,
        };
        Ok(ListSpanSearcher {
            patterns,
            cache,
            dfa,
        })
    }

    /// The span of the match that starts first at or after this offset, and the number of its
    /// pattern, the lowest of those that match there. Its slots are in the row. If EARLIEST, it is
    /// a match of any pattern with the least end of all that start there or later, and only its end
    /// is known. It needs no memory.
    ///
    /// Conditions: the list has a pattern, and the start is on a character boundary.
    pub(crate) fn find<const EARLIEST: bool>(
        &mut self,
        list: &GraphList,
        haystack: &str,
        start: usize,
    ) -> Option<(MatchStart, usize)>
        requires some { 0 < length list.now.entries }
        requires boundary { IsCharBoundary haystack.now start }
        requires finds { FindsSpansInList list.now self.old }
        ensures found { IsFoundOf EARLIEST (table_of_list list.now) (chars haystack.now)
            list.now.entries (position_at haystack.now start)
            (best_kept result self.new.cache.best.row) }
        ensures finds { FindsSpansInList list.now self.new }
        ensures width { length self.new.cache.best.row ≡ length self.old.cache.best.row }
    {
        // Pattern numbers have 32 bits, since there are no more patterns.
        let _entries = list.entries();
        if let Some(found) = find_by_dfa::<EARLIEST>(
            &mut self.dfa,
            list,
            &mut self.cache,
            haystack,
            start,
        ) {
            return found;
        }
        restart(&mut self.cache);
        let here = Here::at(haystack, start);
        advance::<_, _, EARLIEST>(&mut self.cache, &mut self.patterns, haystack, here, None);
        self.cache.best.found()
    }

    /// The span of the match that starts at this offset, and the number of its pattern, the lowest
    /// of those that match there. Its slots are in the row. If EARLIEST, the result only says
    /// whether there is a match. It needs no memory.
    ///
    /// Conditions: the list has a pattern, and the start is on a character boundary.
    pub(crate) fn find_anchored<const EARLIEST: bool>(
        &mut self,
        list: &GraphList,
        haystack: &str,
        start: usize,
    ) -> Option<(MatchStart, usize)>
        requires some { 0 < length list.now.entries }
        requires boundary { IsCharBoundary haystack.now start }
        requires finds { FindsSpansInList list.now self.old }
        ensures found { IsFoundTo EARLIEST (table_of_list list.now) (chars haystack.now)
            list.now.entries false (position_at haystack.now start)
            (position_at haystack.now start) (best_kept result self.new.cache.best.row) }
        ensures finds { FindsSpansInList list.now self.new }
        ensures width { length self.new.cache.best.row ≡ length self.old.cache.best.row }
    {
        // Pattern numbers have 32 bits, since there are no more patterns.
        let _entries = list.entries();
        find_anchored::<_, EARLIEST, false>(&mut self.cache, &mut self.patterns, haystack, start)
    }

    /// The slots of the last match, if they are kept.
    pub(crate) fn row(&self) -> &[Option<usize>]
        ensures { result.now ≡ self.now.cache.best.row }
    {
        self.cache.best.row()
    }
}

/// A lazy DFA of this list with an empty cache, on the heap.
#[inline(never)]
fn automaton_for(alloc: Global, list: &GraphList) -> Option<Box<LazyDfa>>
    ensures { IfSome result (λ dfa. IsDfaFor (table_of_list list.now) list.now.entries
        dfa.value) }
{
    let dfa = LazyDfa::for_list(alloc, list)?;
    Box::new(alloc, dfa).ok()
}

/// The match span found by the lazy DFA: of the match that starts first or, if EARLIEST, of one
/// with the least end. `None` if there is no lazy DFA, or if the search gives it up: then it is
/// dropped, and the search has to begin again.
fn find_by_dfa<const EARLIEST: bool>(
    dfa: &mut Option<Box<LazyDfa>>,
    list: &GraphList,
    cache: &mut Cache<MatchStart>,
    haystack: &str,
    start: usize,
) -> Option<Option<(MatchStart, usize)>>
    requires boundary { IsCharBoundary haystack.now start }
    requires is_dfa { IsDfaIfSome (table_of_list list.now) list.now.entries
        (length cache.old.best.row) (option_map (λ dfa. dfa.value) dfa.old) }
    requires between { IsBetween (table_of_list list.now) cache.old }
    requires counts { CanCount (table_of_list list.now) (length list.now.entries)
        (characters_left (chars haystack.now) (position_at haystack.now start)) }
    ensures found { IfSome result (λ found. IsFoundOf EARLIEST (table_of_list list.now)
        (chars haystack.now) list.now.entries (position_at haystack.now start)
        (best_reported found)) }
    ensures is_dfa { IsDfaIfSome (table_of_list list.now) list.now.entries
        (length cache.new.best.row) (option_map (λ dfa. dfa.value) dfa.new) }
    ensures between { IsBetween (table_of_list list.now) cache.new }
    ensures without_slots { IfSome result (λ _. length cache.new.best.row ≡ 0) }
    ensures width { length cache.new.best.row ≡ length cache.old.best.row }
{
    let Some(automaton) = dfa else {
        return None;
    };
    if let Some(found) = automaton.find_in_list::<EARLIEST>(list, cache, haystack, start) {
        return Some(found);
    }
    *dfa = None;
    None
}

impl LazyDfa {
    /// The match that a search for all patterns of this list finds: the one that starts first or,
    /// if EARLIEST, one with the least end. `None` if the search gives up because too many
    /// transitions don't fit the cache.
    pub(crate) fn find_in_list<const EARLIEST: bool>(
        &mut self,
        list: &GraphList,
        cache: &mut Cache<MatchStart>,
        haystack: &str,
        start: usize,
    ) -> Option<Option<(MatchStart, usize)>>
        requires boundary { IsCharBoundary haystack.now start }
        requires is_dfa { IsDfaFor (table_of_list list.now) list.now.entries self.old }
        requires between { IsBetween (table_of_list list.now) cache.old }
        requires counts { CanCount (table_of_list list.now) (length list.now.entries)
            (characters_left (chars haystack.now) (position_at haystack.now start)) }
        requires width { length cache.old.walk.memory.row ≡ 0 }
        ensures found { IfSome result (λ found. IsFoundOf EARLIEST (table_of_list list.now)
            (chars haystack.now) list.now.entries (position_at haystack.now start)
            (best_reported found)) }
        ensures is_dfa { IsDfaFor (table_of_list list.now) list.now.entries self.new }
        ensures between { IsBetween (table_of_list list.now) cache.new }
        ensures width { length cache.new.walk.memory.row ≡ 0 }
    {
        // Each entry is a place of the graph.
        let _entries = list.entries();
        let all = AllOfList { list };
        let from = Here::at(haystack, start);
        let from = pass_over(&all, haystack, from);
        let reported = self.search::<_, EARLIEST>(&all, cache, haystack, from.at);
        let Ok(found) = reported else {
            return None;
        };
        self.count_bytes(went(found, haystack).saturating_sub(start));
        Some(found)
    }
}

/// The offset up to which a search has scanned.
fn went(found: Option<(MatchStart, usize)>, haystack: &str) -> usize {
    match found {
        Some((_, end)) => end,
        None => haystack.len(),
    }
}
