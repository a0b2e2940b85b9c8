//! One-off searches for one pattern, of a regex or alone in a list.
//!
//! Whether there is a match is asked apart from its least end. For a pattern that is nothing but
//! its words any of them answers the first, but of words of several lengths another one may end
//! first: in `abcdef`, `cd` ends before `abcdef`. So the least end goes by the word only where
//! there is a single one.
ghost use Rattle.std.specs.Prelude.{IfOk, IsCharBoundary};
ghost use Rattle.regex_lite_engine.specs.Graph.Stored.{places_of};
ghost use Rattle.regex_lite_engine.specs.Search.Filters.{facts_of};
ghost use Rattle.regex_lite_engine.specs.Search.OutcomeOfOne.{TellsEndOfOne, TellsOfOne};
ghost use Rattle.regex_lite_engine.specs.Search.Starts.{DoWordsAnswer};
ghost use Rattle.regex_lite_meta.specs.AnyOfOne.{TellsAnyOfOne};

use crate::lazy_dfa::single::one::{search_by_dfa, search_shortest_by_dfa};
use crate::strategy::{Searched, Strategy, Wanted, choose};
use regex_lite_engine::Steps;
use regex_lite_engine::pikevm::cache::{Cache, cache_for};
use regex_lite_engine::pikevm::run::run;
use regex_lite_engine::pikevm::thread_start::NoStart;
use regex_lite_engine::search::one_pattern::OnePattern;
use regex_lite_engine::search::outcome::Outcome;
use regex_lite_engine::steps::no_steps;
use std::alloc::{AllocError, Global};

/// The most preferred match from the least start at or after this offset, with this number of
/// slots, and the cost of the search.
pub(crate) fn search_one(
    pattern: &mut OnePattern<'_>,
    alloc: Global,
    haystack: &str,
    start: usize,
    slots: usize,
) -> Result<(Option<Outcome>, Steps), AllocError>
    requires boundary { IsCharBoundary haystack.now start }
    requires answers { DoWordsAnswer (places_of pattern.old.table.now) pattern.old.entry
        (facts_of pattern.old.filter) }
    ensures { IfOk result (TellsOfOne (places_of pattern.old.table.now) pattern.old.entry
        haystack.now start slots) }
{
    if slots == 0 {
        if let Some(reported) = pattern.search_words(alloc, haystack, start) {
            return Ok(reported);
        }
    }
    let left = haystack.len() - start;
    let searched = Searched::one(pattern.table, pattern.filter);
    match choose(&searched, Wanted::Match { start }, slots, left) {
        Strategy::DepthFirst => pattern.search_depth_first(alloc, haystack, start, slots),
        Strategy::LazyDfa => {
            let Some(first) = pattern.search_start(haystack, start) else {
                return Ok((None, no_steps()));
            };
            pattern.first = first;
            search_by_dfa(pattern, alloc, haystack, first)
        }
        _ => pattern.search_in_step(alloc, haystack, start, slots),
    }
}

/// Whether there is a match that starts at or after this offset, and the cost of the search. Any
/// match suffices: the next of the pattern's words, if it is plain words.
#[inline(always)]
pub(crate) fn search_any_one(
    pattern: &mut OnePattern<'_>,
    alloc: Global,
    haystack: &str,
    start: usize,
) -> Result<(bool, Steps), AllocError>
    requires boundary { IsCharBoundary haystack.now start }
    requires answers { DoWordsAnswer (places_of pattern.old.table.now) pattern.old.entry
        (facts_of pattern.old.filter) }
    ensures { IfOk result (TellsAnyOfOne (places_of pattern.old.table.now) pattern.old.entry
        haystack.now start) }
{
    if let Some((found, steps)) = pattern.search_words(alloc, haystack, start) {
        return Ok((found.is_some(), steps));
    }
    let (end, steps) = search_shortest_in_graph(pattern, alloc, haystack, start)?;
    Ok((end.is_some(), steps))
}

/// The least end of any match that starts at or after this offset, and the cost of the search. If
/// the pattern is a single word, it is the end of the next occurrence.
#[inline(always)]
pub(crate) fn search_shortest_one(
    pattern: &mut OnePattern<'_>,
    alloc: Global,
    haystack: &str,
    start: usize,
) -> Result<(Option<usize>, Steps), AllocError>
    requires boundary { IsCharBoundary haystack.now start }
    requires answers { DoWordsAnswer (places_of pattern.old.table.now) pattern.old.entry
        (facts_of pattern.old.filter) }
    ensures { IfOk result (TellsEndOfOne (places_of pattern.old.table.now) pattern.old.entry
        haystack.now start) }
{
    if let Some(reported) = pattern.search_word_end(haystack, start) {
        return Ok(reported);
    }
    search_shortest_in_graph(pattern, alloc, haystack, start)
}

/// The least end of any match that starts at or after this offset, and the cost of the search,
/// without regard to words. The search stops at the first match that it can confirm.
// Inlined, since many searches are very short: as a call it made `is_match` of 20 bytes up to 1.14
// times as expensive.
#[inline(always)]
fn search_shortest_in_graph(
    pattern: &mut OnePattern<'_>,
    alloc: Global,
    haystack: &str,
    start: usize,
) -> Result<(Option<usize>, Steps), AllocError>
    requires { IsCharBoundary haystack.now start }
    ensures { IfOk result (TellsEndOfOne (places_of pattern.old.table.now) pattern.old.entry
        haystack.now start) }
{
    let left = haystack.len() - start;
    let searched = Searched::one(pattern.table, pattern.filter);
    if let Strategy::LazyDfa = choose(&searched, Wanted::Earliest, 0, left) {
        let Some(first) = pattern.search_start(haystack, start) else {
            return Ok((None, no_steps()));
        };
        pattern.first = first;
        return search_shortest_by_dfa(pattern, alloc, haystack, first);
    }
    let Some(first) = pattern.first_start(haystack, start) else {
        return Ok((None, no_steps()));
    };
    let mut cache = cache_for::<NoStart>(alloc, pattern.table, 0)?;
    run::<_, _, true>(&mut cache, pattern, haystack, first.at);
    let Cache { walk, best, .. } = cache;
    Ok((best.end(), walk.steps))
}
