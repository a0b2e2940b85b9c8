//! One-off searches, each with the engine that `strategy` chooses.
//!
//! The bounds on the counts of a search are part of its contract. A search for the span of a match
//! and another one for its slots may try more than the bound of one search together, so the counted
//! search of a list with slots is one search by the PikeVM.
ghost use Rattle.std.specs.Prelude.{◌≡◌, ◌<◌, ◌≤◌, ◌⊎◌, ◌↔◌, List, IfOk, IfSome, IsCharBoundary};
ghost use Rattle.std.specs.Prelude.{IsTrue, chars, length, option_map};
ghost use Rattle.regex_lite_syntax.specs.Tree.{Tree};
ghost use Rattle.regex_lite_syntax.specs.Tree.Regular.{IsRegular};
ghost use Rattle.regex_lite_engine.specs.Graph.Renumbered.{IsGraphOf};
ghost use Rattle.regex_lite_engine.specs.Graph.SideBySide.{AreRegularPatterns};
ghost use Rattle.regex_lite_engine.specs.Graph.StoredList.{IsGraphOfList};
ghost use Rattle.regex_lite_engine.specs.Search.Answer.{HasMatchFrom};
ghost use Rattle.regex_lite_engine.specs.Search.AnswerOfList.{AnyMatchesFrom};
ghost use Rattle.regex_lite_engine.specs.Search.Offsets.{search_start};
ghost use Rattle.regex_lite_engine.specs.Search.Outcomes.{IsOutcome, IsEndOutcome, HasCost};
ghost use Rattle.regex_lite_engine.specs.Search.Outcomes.{HasCostOfList, IsOutcomeOfList};

use crate::lazy_dfa::single::list::{search_any_by_dfa, search_list_by_dfa};
use crate::list_searcher::GraphListSearcher;
use crate::one::{search_any_one, search_one, search_shortest_one};
use crate::strategy::{Searched, SpanSearch, Strategy, Wanted, choose};
use regex_lite_engine::nfa::list::GraphList;
use regex_lite_engine::search::outcome::Outcome;
use regex_lite_engine::steps::no_steps;
use regex_lite_engine::{Graph, Steps};
use std::alloc::{AllocError, Global};

/// The most preferred match from the least start at or after this offset, with this number of
/// slots, and the cost of the search.
///
/// Condition: the start is above the haystack's length or on a character boundary.
///
/// # Errors
///
/// If memory runs out, which can happen only before the search begins.
pub fn search(
    graph: &Graph,
    alloc: Global,
    haystack: &str,
    start: usize,
    slots: usize,
) -> Result<(Option<Outcome>, Steps), AllocError>
    requires { (length haystack.now < start) ⊎ IsCharBoundary haystack.now start }
    ensures found { IfOk result (λ reported. (tree : Tree) → IsRegular tree
        → IsGraphOf tree graph.now → IsOutcome tree haystack.now start reported.0) }
    ensures slots { IfOk result (λ reported. IfSome reported.0
        (λ outcome. length outcome.slots.items ≡ slots)) }
    ensures cost { IfOk result (λ reported. (tree : Tree) → IsGraphOf tree graph.now
        → HasCost tree haystack.now start reported.1) }
    ensures entered { IfOk result (λ reported. IfSome reported.0 (λ _. 0 < reported.1.entered)) }
{
    if start > haystack.len() {
        return Ok((None, no_steps()));
    }
    let mut pattern = graph.pattern();
    search_one(&mut pattern, alloc, haystack, start, slots)
}

/// Whether there is a match that starts at or after this offset, and the cost of the search. It
/// stops at the first match that it can confirm.
///
/// Condition: the start is above the haystack's length or on a character boundary.
///
/// # Errors
///
/// If memory runs out, which can happen only before the search begins.
pub fn search_any(
    graph: &Graph,
    alloc: Global,
    haystack: &str,
    start: usize,
) -> Result<(bool, Steps), AllocError>
    requires { (length haystack.now < start) ⊎ IsCharBoundary haystack.now start }
    ensures found { IfOk result (λ reported. (tree : Tree) → IsRegular tree
        → IsGraphOf tree graph.now → (IsTrue reported.0
        ↔ HasMatchFrom tree (chars haystack.now) (search_start haystack.now start))) }
    ensures cost { IfOk result (λ reported. (tree : Tree) → IsGraphOf tree graph.now
        → HasCost tree haystack.now start reported.1) }
    ensures entered { IfOk result (λ reported. IsTrue reported.0 → 0 < reported.1.entered) }
{
    if start > haystack.len() {
        return Ok((false, no_steps()));
    }
    let mut pattern = graph.pattern();
    search_any_one(&mut pattern, alloc, haystack, start)
}

/// The least end of any match that starts at or after this offset, and the cost of the search. It
/// stops at the first match that it can confirm.
///
/// Condition: the start is above the haystack's length or on a character boundary.
///
/// # Errors
///
/// If memory runs out, which can happen only before the search begins.
pub fn search_shortest(
    graph: &Graph,
    alloc: Global,
    haystack: &str,
    start: usize,
) -> Result<(Option<usize>, Steps), AllocError>
    requires { (length haystack.now < start) ⊎ IsCharBoundary haystack.now start }
    ensures found { IfOk result (λ reported. (tree : Tree) → IsRegular tree
        → IsGraphOf tree graph.now → IsEndOutcome tree haystack.now start reported.0) }
    ensures cost { IfOk result (λ reported. (tree : Tree) → IsGraphOf tree graph.now
        → HasCost tree haystack.now start reported.1) }
    ensures entered { IfOk result (λ reported. IfSome reported.0 (λ _. 0 < reported.1.entered)) }
{
    if start > haystack.len() {
        return Ok((None, no_steps()));
    }
    let mut pattern = graph.pattern();
    search_shortest_one(&mut pattern, alloc, haystack, start)
}

/// The match that starts first at or after this offset, of the pattern with the lowest number that
/// matches there: that number, the most preferred match of the pattern, and the cost of the search.
/// The match has this number of slots.
///
/// Condition: the start is above the haystack's length or on a character boundary.
///
/// # Errors
///
/// If memory runs out, which can happen only before the search begins.
pub fn search_list(
    list: &GraphList,
    alloc: Global,
    haystack: &str,
    start: usize,
    slots: usize,
) -> Result<(Option<(usize, Outcome)>, Steps), AllocError>
    requires { (length haystack.now < start) ⊎ IsCharBoundary haystack.now start }
    ensures found { IfOk result (λ reported. (trees : List Tree) → AreRegularPatterns trees
        → IsGraphOfList trees list.now → IsOutcomeOfList trees haystack.now start reported.0) }
    ensures slots { IfOk result (λ reported. IfSome reported.0
        (λ found. length found.1.slots.items ≡ slots)) }
    ensures cost { IfOk result (λ reported. (trees : List Tree) → IsGraphOfList trees list.now
        → HasCostOfList trees haystack.now start reported.1) }
    ensures entered { IfOk result (λ reported. IfSome reported.0 (λ _. 0 < reported.1.entered)) }
{
    if start > haystack.len() {
        return Ok((None, no_steps()));
    }
    if let Some(mut pattern) = list.alone() {
        let (found, steps) = search_one(&mut pattern, alloc, haystack, start, slots)?;
        return Ok((first_of_list(found), steps));
    }
    if slots == 0 {
        if let Some(reported) = list.search_words(alloc, haystack, start) {
            return Ok(reported);
        }
    }
    let searched = Searched::several(list);
    let left = haystack.len() - start;
    match choose(&searched, Wanted::Match { start }, slots, left) {
        Strategy::LazyDfa => search_list_by_dfa(list, alloc, haystack, start),
        // With slots a lazy DFA would find the match and another search its slots: together they
        // may exceed the bound on the places that are tried.
        _ => list.search(alloc, haystack, start, slots),
    }
}

/// [`search_list`] without its cost. Where it pays, one search finds the match and another its
/// slots.
///
/// Condition: the start is above the haystack's length or on a character boundary.
///
/// # Errors
///
/// If memory runs out.
pub fn search_list_uncounted(
    list: &GraphList,
    alloc: Global,
    haystack: &str,
    start: usize,
    slots: usize,
) -> Result<Option<(usize, Outcome)>, AllocError>
    requires { (length haystack.now < start) ⊎ IsCharBoundary haystack.now start }
    ensures found { IfOk result (λ reported. (trees : List Tree) → AreRegularPatterns trees
        → IsGraphOfList trees list.now → IsOutcomeOfList trees haystack.now start reported) }
    ensures slots { IfOk result (λ reported. IfSome reported
        (λ found. length found.1.slots.items ≡ slots)) }
{
    let left = haystack.len().saturating_sub(start);
    let Some((by, pairs)) = span_first_in(list, start, slots, left) else {
        let (reported, _) = search_list(list, alloc, haystack, start, slots)?;
        return Ok(reported);
    };
    let mut searcher = GraphListSearcher::span_first(alloc, list, slots, by, pairs)?;
    let Some((number, (from, end))) = searcher.search(haystack, start) else {
        return Ok(None);
    };
    let mut row = Vec::with_capacity(alloc, slots)?;
    row.extend_from_slice(searcher.slots())?;
    let outcome = Outcome {
        start: from,
        end,
        slots: row,
    };
    Ok(Some((number, outcome)))
}

/// Whether any pattern matches from a position at or after this offset, and the cost of the search.
/// It stops at the first match that it can confirm.
///
/// Condition: the start is above the haystack's length or on a character boundary.
///
/// # Errors
///
/// If memory runs out, which can happen only before the search begins.
pub fn search_list_any(
    list: &GraphList,
    alloc: Global,
    haystack: &str,
    start: usize,
) -> Result<(bool, Steps), AllocError>
    requires { (length haystack.now < start) ⊎ IsCharBoundary haystack.now start }
    ensures found { IfOk result (λ reported. (trees : List Tree) → AreRegularPatterns trees
        → IsGraphOfList trees list.now → (IsTrue reported.0
        ↔ AnyMatchesFrom trees (chars haystack.now) (search_start haystack.now start))) }
    ensures cost { IfOk result (λ reported. (trees : List Tree) → IsGraphOfList trees list.now
        → HasCostOfList trees haystack.now start reported.1) }
    ensures entered { IfOk result (λ reported. IsTrue reported.0 → 0 < reported.1.entered) }
{
    if start > haystack.len() {
        return Ok((false, no_steps()));
    }
    if let Some(mut pattern) = list.alone() {
        return search_any_one(&mut pattern, alloc, haystack, start);
    }
    if let Some((found, steps)) = list.search_words(alloc, haystack, start) {
        return Ok((found.is_some(), steps));
    }
    let left = haystack.len() - start;
    match choose(&Searched::several(list), Wanted::Earliest, 0, left) {
        Strategy::LazyDfa => search_any_by_dfa(list, alloc, haystack, start),
        _ => list.search_any(alloc, haystack, start),
    }
}

/// The match of a list's first pattern.
fn first_of_list(found: Option<Outcome>) -> Option<(usize, Outcome)>
    ensures { result ≡ option_map (λ outcome. (0, outcome)) found }
{
    let outcome = found?;
    Some((0, outcome))
}

/// The strategy that finds the span of a match of several patterns before its slots, where that
/// pays, and the greatest number of pairs for which the bounded backtracker finds the slots.
fn span_first_in(
    list: &GraphList,
    start: usize,
    slots: usize,
    bytes: usize,
) -> Option<(SpanSearch, usize)> {
    if list.len() == 1 {
        return None;
    }
    let searched = Searched::several(list);
    match choose(&searched, Wanted::Uncounted { start }, slots, bytes) {
        Strategy::SpanFirst { by, pairs } => Some((by, pairs)),
        _ => None,
    }
}
