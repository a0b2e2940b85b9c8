//! One-off searches for one pattern with a lazy DFA.
ghost use Rattle.std.specs.Prelude.{◌≡◌, ◌<◌, ◌∷◌, [], IfOk, IfSome, IsCharBoundary, chars};
ghost use Rattle.std.specs.Prelude.{option_map};
ghost use Rattle.regex_lite_meta.specs.LazyDfa.Scanning.{best_reported};
ghost use Rattle.regex_lite_engine.specs.Graph.Stored.{places_of};
ghost use Rattle.regex_lite_engine.specs.Search.Offsets.{position_at};
ghost use Rattle.regex_lite_engine.specs.Search.NumberedOutcomes.{IsFoundOf, best_at};
ghost use Rattle.regex_lite_engine.specs.Search.NumberedOutcomes.{match_reported, span_of};
ghost use Rattle.regex_lite_engine.specs.Search.OutcomeOfOne.{IsWithinBounds, TellsEndOfOne};
ghost use Rattle.regex_lite_engine.specs.Search.OutcomeOfOne.{TellsOfOne};

use crate::lazy_dfa::single::find_once;
use regex_lite_engine::Steps;
use regex_lite_engine::pikevm::cache::{Cache, cache_for};
use regex_lite_engine::pikevm::thread_start::MatchStart;
use regex_lite_engine::search::one_pattern::OnePattern;
use regex_lite_engine::search::outcome::Outcome;
use std::alloc::{AllocError, Global};

/// The match of the pattern without slots. A search that isn't over soon uses a lazy DFA.
pub(crate) fn search_by_dfa(
    pattern: &mut OnePattern<'_>,
    alloc: Global,
    haystack: &str,
    start: usize,
) -> Result<(Option<Outcome>, Steps), AllocError>
    requires { IsCharBoundary haystack.now start }
    ensures { IfOk result (TellsOfOne (places_of pattern.old.table.now) pattern.old.entry
        haystack.now start 0) }
{
    let (found, steps) = find_match::<false>(pattern, alloc, haystack, start)?;
    Ok((without_slots(alloc, found), steps))
}

/// The least end of a match. A search that isn't over soon uses a lazy DFA.
pub(crate) fn search_shortest_by_dfa(
    pattern: &mut OnePattern<'_>,
    alloc: Global,
    haystack: &str,
    start: usize,
) -> Result<(Option<usize>, Steps), AllocError>
    requires { IsCharBoundary haystack.now start }
    ensures { IfOk result (TellsEndOfOne (places_of pattern.old.table.now) pattern.old.entry
        haystack.now start) }
{
    let (found, steps) = find_match::<true>(pattern, alloc, haystack, start)?;
    Ok((end_of(found), steps))
}

/// The span of the match, and the cost of the search. If EARLIEST, it is a match with the least
/// end, and its start is meaningless.
#[inline(always)]
fn find_match<const EARLIEST: bool>(
    pattern: &mut OnePattern<'_>,
    alloc: Global,
    haystack: &str,
    start: usize,
) -> Result<(Option<(MatchStart, usize)>, Steps), AllocError>
    requires { IsCharBoundary haystack.now start }
    ensures found { IfOk result (λ reported. IsFoundOf EARLIEST (places_of pattern.old.table.now)
        (chars haystack.now) (pattern.old.entry ∷ []) (position_at haystack.now start)
        (best_reported reported.0)) }
    ensures cost { IfOk result
        (λ reported. IsWithinBounds (places_of pattern.old.table.now) haystack.now start
        reported.1) }
    ensures entered { IfOk result (λ reported. IfSome reported.0 (λ _. 0 < reported.1.entered)) }
{
    let all = pattern.everywhere();
    let mut cache = cache_for::<MatchStart>(alloc, pattern.table, 0)?;
    let found = find_once::<_, _, EARLIEST>(pattern, &all, alloc, &mut cache, haystack, start);
    let Cache { walk, .. } = cache;
    Ok((found, walk.steps))
}

/// The match with this span, without slots.
fn without_slots(alloc: Global, found: Option<(MatchStart, usize)>) -> Option<Outcome>
    ensures reported { match_reported result ≡ best_at (span_of found) [] }
{
    let (match_start, end) = found?;
    Some(Outcome {
        start: match_start.at,
        end,
        slots: Vec::new(alloc),
    })
}

/// The end of the match.
pub(crate) fn end_of(found: Option<(MatchStart, usize)>) -> Option<usize>
    ensures { result ≡ option_map (λ best. best.1) (best_reported found) }
{
    let (_, end) = found?;
    Some(end)
}
