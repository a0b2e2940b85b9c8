//! Anchored searches: they find a match that starts where the search starts. They use the PikeVM.
ghost use Rattle.std.specs.Prelude.{◌≡◌, ◌<◌, ◌⊎◌, ◌↔◌, ◌^◌, ℕ, List, IfOk, IfSome};
ghost use Rattle.std.specs.Prelude.{IsCharBoundary, IsTrue, [], chars, length};
ghost use Rattle.regex_lite_syntax.specs.Tree.{Tree};
ghost use Rattle.regex_lite_syntax.specs.Tree.Regular.{IsRegular};
ghost use Rattle.regex_lite_engine.specs.Graph.Places.{Place};
ghost use Rattle.regex_lite_engine.specs.Graph.Renumbered.{IsGraphOf};
ghost use Rattle.regex_lite_engine.specs.Pikevm.Searching.{IsBetween};
ghost use Rattle.regex_lite_engine.specs.Search.AnswerAt.{HasMatchAt};
ghost use Rattle.regex_lite_engine.specs.Search.Counting.{IsCountable};
ghost use Rattle.regex_lite_engine.specs.Search.NumberedOutcomes.{IsBestOutcomeTo, IsFoundTo};
ghost use Rattle.regex_lite_engine.specs.Search.NumberedOutcomes.{best_kept, numbered_at};
ghost use Rattle.regex_lite_engine.specs.Search.NumberedOutcomes.{with_match_start_kept};
ghost use Rattle.regex_lite_engine.specs.Search.NumberedWords.{AreAnsweredBy, IsEachAnsweredBy};
ghost use Rattle.regex_lite_engine.specs.Search.Offsets.{position_at, search_start};
ghost use Rattle.regex_lite_engine.specs.Search.Outcomes.{HasCost, IsOutcomeAt};

use regex_lite_engine::pikevm::anchored::run_anchored;
use regex_lite_engine::pikevm::cache::{Cache, restart};
use regex_lite_engine::pikevm::thread_start::MatchStart;
use regex_lite_engine::search::outcome::Outcome;
use regex_lite_engine::search::patterns::Anchored;
use regex_lite_engine::steps::no_steps;
use regex_lite_engine::{Graph, Steps};
use regex_lite_syntax::prefilter::ListWords;
use std::alloc::{AllocError, Global};

/// The most preferred match that starts at this offset, with this number of slots, and the cost of
/// the search. The search stops when no thread is left that began there. If WHOLE, only matches
/// that end where the haystack ends count.
///
/// Condition: the start is above the haystack's length or on a character boundary.
///
/// # Errors
///
/// If memory runs out, which can happen only before the search begins.
pub fn search_anchored<const WHOLE: bool>(
    graph: &Graph,
    alloc: Global,
    haystack: &str,
    start: usize,
    slots: usize,
) -> Result<(Option<Outcome>, Steps), AllocError>
    requires { (length haystack.now < start) ⊎ IsCharBoundary haystack.now start }
    ensures found { IfOk result (λ reported. (tree : Tree) → IsRegular tree
        → IsGraphOf tree graph.now → IsOutcomeAt WHOLE tree haystack.now start reported.0) }
    ensures slots { IfOk result (λ reported. IfSome reported.0
        (λ outcome. length outcome.slots.items ≡ slots)) }
    ensures cost { IfOk result (λ reported. (tree : Tree) → IsGraphOf tree graph.now
        → HasCost tree haystack.now start reported.1) }
    ensures entered { IfOk result (λ reported. IfSome reported.0 (λ _. 0 < reported.1.entered)) }
{
    if start > haystack.len() {
        return Ok((None, no_steps()));
    }
    let mut pattern = graph.pattern();
    pattern.search_anchored::<WHOLE>(alloc, haystack, start, slots)
}

/// Whether a match starts at this offset, and the cost of the search. The search stops at the first
/// match that it can confirm. If WHOLE, only matches that end where the haystack ends count.
///
/// Condition: the start is above the haystack's length or on a character boundary.
///
/// # Errors
///
/// If memory runs out, which can happen only before the search begins.
pub fn search_any_anchored<const WHOLE: bool>(
    graph: &Graph,
    alloc: Global,
    haystack: &str,
    start: usize,
) -> Result<(bool, Steps), AllocError>
    requires { (length haystack.now < start) ⊎ IsCharBoundary haystack.now start }
    ensures found { IfOk result (λ reported. (tree : Tree) → IsRegular tree
        → IsGraphOf tree graph.now → (IsTrue reported.0
        ↔ HasMatchAt WHOLE tree (chars haystack.now) (search_start haystack.now start))) }
    ensures cost { IfOk result (λ reported. (tree : Tree) → IsGraphOf tree graph.now
        → HasCost tree haystack.now start reported.1) }
    ensures entered { IfOk result (λ reported. IsTrue reported.0 → 0 < reported.1.entered) }
{
    if start > haystack.len() {
        return Ok((false, no_steps()));
    }
    let mut pattern = graph.pattern();
    pattern.search_any_anchored::<WHOLE>(alloc, haystack, start)
}

/// The span of the match that starts at this offset, of the lowest of these patterns that match
/// there. It is found in this cache, whose row has its slots. If EARLIEST, the result only says
/// whether there is a match. If WHOLE, only matches that end where the haystack ends count.
pub(crate) fn find_anchored<P: Anchored, const EARLIEST: bool, const WHOLE: bool>(
    cache: &mut Cache<MatchStart>,
    patterns: &mut P,
    haystack: &str,
    start: usize,
) -> Option<(MatchStart, usize)>
    requires boundary { IsCharBoundary haystack.now start }
    requires between { IsBetween (P.table patterns.old) cache.old }
    requires countable { IsCountable (P.table patterns.old) }
    requires few { length (P.entries patterns.old) < 2 ^ 32 }
    ensures found { IsFoundTo EARLIEST (P.table patterns.old) (chars haystack.now)
        (P.entries patterns.old) WHOLE (position_at haystack.now start)
        (position_at haystack.now start) (best_kept result cache.new.best.row) }
    ensures between { IsBetween (P.table patterns.old) cache.new }
    ensures width { length cache.new.best.row ≡ length cache.old.best.row }
    ensures table { P.table patterns.new ≡ P.table patterns.old }
    ensures entries { P.entries patterns.new ≡ P.entries patterns.old }
{
    restart(cache);
    run_anchored::<_, _, EARLIEST, WHOLE>(cache, patterns, haystack, start);
    cache.best.found()
}

/// The first of these words that occurs at this offset: the number of its pattern, and its span.
pub(crate) fn find_word_at(
    words: &ListWords,
    haystack: &str,
    start: usize,
) -> Option<(usize, (usize, usize))>
    requires { IsCharBoundary haystack.now start }
    ensures { (table : List (Place ℕ)) (entries : List ℕ) → AreAnsweredBy table entries words.now
        → IsEachAnsweredBy table entries words.now
        → IsBestOutcomeTo table (chars haystack.now) entries (position_at haystack.now start)
        (position_at haystack.now start) (with_match_start_kept (numbered_at result [])) }
{
    let bytes = haystack.as_bytes();
    if !words.may_stand(bytes, start) {
        return None;
    }
    match words.find_span(bytes, start) {
        Some((number, span)) if span.0 == start => Some((number, span)),
        _ => None,
    }
}
