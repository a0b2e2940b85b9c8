//! One-off searches for several patterns with a lazy DFA.
ghost use Rattle.std.specs.Prelude.{◌≡◌, ◌<◌, ◌↔◌, List, IfOk, IfSome, IsCharBoundary, IsTrue};
ghost use Rattle.std.specs.Prelude.{chars, length};
ghost use Rattle.regex_lite_meta.specs.LazyDfa.Scanning.{best_reported};
ghost use Rattle.regex_lite_syntax.specs.Tree.{Tree};
ghost use Rattle.regex_lite_engine.specs.Graph.SideBySide.{AreRegularPatterns};
ghost use Rattle.regex_lite_engine.specs.Graph.StoredList.{IsGraphOfList, table_of_list};
ghost use Rattle.regex_lite_engine.specs.Search.AnswerOfList.{AnyMatchesFrom};
ghost use Rattle.regex_lite_engine.specs.Search.NumberedOutcomes.{IsFoundOf, numbered_reported};
ghost use Rattle.regex_lite_engine.specs.Search.NumberedOutcomes.{with_match_start_kept};
ghost use Rattle.regex_lite_engine.specs.Search.Offsets.{position_at, search_start};
ghost use Rattle.regex_lite_engine.specs.Search.Outcomes.{HasCostOfList, IsOutcomeOfList};

use crate::lazy_dfa::single::find_once;
use regex_lite_engine::Steps;
use regex_lite_engine::nfa::list::GraphList;
use regex_lite_engine::pikevm::cache::{Cache, cache_for};
use regex_lite_engine::pikevm::thread_start::MatchStart;
use regex_lite_engine::search::all_of_list::AllOfList;
use regex_lite_engine::search::list_patterns::ListPatterns;
use regex_lite_engine::search::outcome::Outcome;
use std::alloc::{AllocError, Global};

/// What `search_list` returns without slots. A search that isn't over soon uses a lazy DFA.
pub(crate) fn search_list_by_dfa(
    list: &GraphList,
    alloc: Global,
    haystack: &str,
    start: usize,
) -> Result<(Option<(usize, Outcome)>, Steps), AllocError>
    requires boundary { IsCharBoundary haystack.now start }
    requires places { 0 < length list.now.places }
    ensures found { IfOk result (λ reported. (trees : List Tree) → AreRegularPatterns trees
        → IsGraphOfList trees list.now → IsOutcomeOfList trees haystack.now start reported.0) }
    ensures slots { IfOk result (λ reported. IfSome reported.0
        (λ found. length found.1.slots.items ≡ 0)) }
    ensures cost { IfOk result (λ reported. (trees : List Tree) → IsGraphOfList trees list.now
        → HasCostOfList trees haystack.now start reported.1) }
    ensures entered { IfOk result (λ reported. IfSome reported.0 (λ _. 0 < reported.1.entered)) }
{
    let (found, steps) = find_match::<false>(list, alloc, haystack, start)?;
    Ok((without_slots(alloc, found), steps))
}

/// What `search_list_any` returns. A search that isn't over soon uses a lazy DFA.
pub(crate) fn search_any_by_dfa(
    list: &GraphList,
    alloc: Global,
    haystack: &str,
    start: usize,
) -> Result<(bool, Steps), AllocError>
    requires boundary { IsCharBoundary haystack.now start }
    requires places { 0 < length list.now.places }
    ensures found { IfOk result (λ reported. (trees : List Tree) → AreRegularPatterns trees
        → IsGraphOfList trees list.now → (IsTrue reported.0
        ↔ AnyMatchesFrom trees (chars haystack.now) (search_start haystack.now start))) }
    ensures cost { IfOk result (λ reported. (trees : List Tree) → IsGraphOfList trees list.now
        → HasCostOfList trees haystack.now start reported.1) }
    ensures entered { IfOk result (λ reported. IsTrue reported.0 → 0 < reported.1.entered) }
{
    let (found, steps) = find_match::<true>(list, alloc, haystack, start)?;
    Ok((found.is_some(), steps))
}

/// The span of the match and the number of its pattern, and the cost of the search. If EARLIEST, it
/// is one with the least end, and its start and number are meaningless.
#[inline(always)]
fn find_match<const EARLIEST: bool>(
    list: &GraphList,
    alloc: Global,
    haystack: &str,
    start: usize,
) -> Result<(Option<(MatchStart, usize)>, Steps), AllocError>
    requires boundary { IsCharBoundary haystack.now start }
    requires places { 0 < length list.now.places }
    ensures found { IfOk result (λ reported. IsFoundOf EARLIEST (table_of_list list.now)
        (chars haystack.now) list.now.entries (position_at haystack.now start)
        (best_reported reported.0)) }
    ensures cost { IfOk result (λ reported. (trees : List Tree) → IsGraphOfList trees list.now
        → HasCostOfList trees haystack.now start reported.1) }
    ensures entered { IfOk result (λ reported. IfSome reported.0 (λ _. 0 < reported.1.entered)) }
{
    let mut patterns = ListPatterns::new(alloc, list)?;
    let mut cache = cache_for::<MatchStart>(alloc, list.table(), 0)?;
    // Each entry is a place of the graph.
    let _entries = list.entries();
    let all = AllOfList { list };
    let found = find_once::<_, _, EARLIEST>(
        &mut patterns,
        &all,
        alloc,
        &mut cache,
        haystack,
        start,
    );
    let Cache { walk, .. } = cache;
    Ok((found, walk.steps))
}

/// The match with this span, without slots, and the number of its pattern.
fn without_slots(alloc: Global, found: Option<(MatchStart, usize)>) -> Option<(usize, Outcome)>
    ensures reported { best_reported found ≡ with_match_start_kept (numbered_reported result) }
    ensures slots { IfSome result (λ reported. length reported.1.slots.items ≡ 0) }
{
    let (match_start, end) = found?;
    let outcome = Outcome {
        start: match_start.at,
        end,
        slots: Vec::new(alloc),
    };
    Some((match_start.number as usize, outcome))
}
