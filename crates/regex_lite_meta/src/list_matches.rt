//! Which of several patterns match: by their words if the patterns are plain words, by one pass for
//! all patterns, or by a search for each, which reuses the memory of the one before.
//!
//! Short lists go pattern by pattern, and so does the counted call, since all patterns together may
//! cost no more than one search for the list. What a pattern tries is counted against its own part
//! of the table. In a haystack that is long enough a search gets a lazy DFA of its own pattern
//! after some steps.
//!
//! One pass over the haystack by the list's index tries each pattern where it may start, and
//! remembers up to where no match of it starts. It has a credit, which it earns by what the filters
//! of the open patterns would take, and spends on each stop and each try that finds nothing. Once
//! that is spent, each open pattern is searched for by itself from there. Patterns for which a DFA
//! pays are left to their own searches at once.
ghost use Rattle.std.specs.Prelude.{◌≡◌, ◌<◌, ◌⊎◌, List, ℕ, IfErr, IfOk};
ghost use Rattle.std.specs.Prelude.{IsCharBoundary, chars, false, length};
ghost use Rattle.std.specs.Prelude.{IsTrue, slice_index_or};
ghost use Rattle.regex_lite_syntax.specs.Tree.{Tree};
ghost use Rattle.regex_lite_engine.specs.Graph.SideBySide.{AreRegularPatterns, places_of_all};
ghost use Rattle.regex_lite_engine.specs.Graph.SideBySide.{tries_of_all};
ghost use Rattle.regex_lite_engine.specs.Graph.StoredList.{IsGraphOfList, table_of_list};
ghost use Rattle.regex_lite_engine.specs.Search.AnswerOfList.{TellsWhich};
ghost use Rattle.regex_lite_engine.specs.Search.Bounds.{IsBoundedBy};
ghost use Rattle.regex_lite_engine.specs.Search.NumberedWords.{IsEachAnsweredBy};
ghost use Rattle.regex_lite_engine.specs.Search.Offsets.{position_at, search_start};
ghost use Rattle.regex_lite_engine.specs.Search.Outcomes.{HasCostOfList};
ghost use Rattle.regex_lite_meta.specs.ListMatches.{AreKeptFor};
ghost use Rattle.regex_lite_meta.specs.ListMatches.{NeedsNoMemory};

mod attempt;
mod kept;
mod pass;
mod status;

use crate::strategy::pays_in_one_pass;
pub(crate) use kept::Kept;
pub(crate) use pass::ListPass;
use regex_lite_engine::Steps;
use regex_lite_engine::nfa::list::GraphList;
use regex_lite_engine::steps::no_steps;
use regex_lite_syntax::prefilter::ListWords;
pub(crate) use status::Status;
use std::alloc::{AllocError, Global};

/// Whether each pattern matches from a position at or after this offset, and the total cost of the
/// searches.
///
/// Condition: the start is above the haystack's length or on a character boundary.
///
/// # Errors
///
/// If memory runs out.
pub fn search_each(
    list: &GraphList,
    alloc: Global,
    haystack: &str,
    start: usize,
) -> Result<(Vec<bool>, Steps), AllocError>
    requires { (length haystack.now < start) ⊎ IsCharBoundary haystack.now start }
    ensures found { IfOk result (λ reported. (trees : List Tree) → AreRegularPatterns trees
        → IsGraphOfList trees list.now → TellsWhich trees (chars haystack.now)
        (search_start haystack.now start) reported.0.items) }
    ensures cost { IfOk result (λ reported. (trees : List Tree) → IsGraphOfList trees list.now
        → HasCostOfList trees haystack.now start reported.1) }
    ensures entered { IfOk result (λ reported. (k : ℕ)
        → IsTrue (slice_index_or reported.0.items k false) → 0 < reported.1.entered) }
{
    let mut matched = vec![in alloc; false; list.len()]?;
    if start > haystack.len() || list.len() == 0 {
        return Ok((matched, no_steps()));
    }
    let mut kept = Kept::new(alloc);
    let steps = search_all(list, &mut kept, haystack, start, &mut matched)?;
    Ok((matched, steps))
}

/// [`search_each`] without the cost. Patterns that are plain words are searched for at once, and
/// other patterns in one pass over the haystack where that pays.
///
/// Condition: the start is above the haystack's length or on a character boundary.
///
/// # Errors
///
/// If memory runs out.
pub fn search_each_uncounted(
    list: &GraphList,
    alloc: Global,
    haystack: &str,
    start: usize,
) -> Result<Vec<bool>, AllocError>
    requires { (length haystack.now < start) ⊎ IsCharBoundary haystack.now start }
    ensures { IfOk result (λ reported. (trees : List Tree) → AreRegularPatterns trees
        → IsGraphOfList trees list.now → TellsWhich trees (chars haystack.now)
        (search_start haystack.now start) reported.items) }
{
    if start <= haystack.len() {
        if let Some(words) = list.words() {
            return search_words(list, words, alloc, haystack, start);
        }
        if pays_in_one_pass(list) {
            return search_in_one_pass(list, alloc, haystack, start);
        }
    }
    let (matched, _) = search_each(list, alloc, haystack, start)?;
    Ok(matched)
}

/// Finds which patterns match by their words.
///
/// # Errors
///
/// If memory runs out.
fn search_words(
    list: &GraphList,
    words: &ListWords,
    alloc: Global,
    haystack: &str,
    start: usize,
) -> Result<Vec<bool>, AllocError>
    requires boundary { IsCharBoundary haystack.now start }
    requires each { IsEachAnsweredBy (table_of_list list.now) list.now.entries words.now }
    ensures { IfOk result (λ reported. (trees : List Tree) → AreRegularPatterns trees
        → IsGraphOfList trees list.now → TellsWhich trees (chars haystack.now)
        (search_start haystack.now start) reported.items) }
{
    let mut matched = vec![in alloc; false; list.len()]?;
    words.which_stand(haystack.as_bytes(), start, &mut matched);
    Ok(matched)
}

/// Finds which patterns match by one pass over the haystack for all of them.
///
/// # Errors
///
/// If memory runs out.
fn search_in_one_pass(
    list: &GraphList,
    alloc: Global,
    haystack: &str,
    start: usize,
) -> Result<Vec<bool>, AllocError>
    requires { IsCharBoundary haystack.now start }
    ensures { IfOk result (λ reported. (trees : List Tree) → AreRegularPatterns trees
        → IsGraphOfList trees list.now → TellsWhich trees (chars haystack.now)
        (search_start haystack.now start) reported.items) }
{
    let mut matched = vec![in alloc; false; list.len()]?;
    let mut pass = ListPass::new(alloc, list)?;
    let mut kept = Kept::new(alloc);
    pass.search(list, &mut kept, haystack, start, &mut matched)?;
    Ok(matched)
}

/// Searches for each pattern, to find which of them match. Returns the total cost of the searches.
// Inlined: then a one-off search doesn't store the kept memory.
#[inline(always)]
pub(crate) fn search_all(
    list: &GraphList,
    kept: &mut Kept,
    haystack: &str,
    start: usize,
    matched: &mut [bool],
) -> Result<Steps, AllocError>
    requires boundary { IsCharBoundary haystack.now start }
    requires all { length matched.old ≡ length list.now.entries }
    requires kept { AreKeptFor list.now kept.old }
    ensures found { IfOk result (λ _. (trees : List Tree) → AreRegularPatterns trees
        → IsGraphOfList trees list.now
        → TellsWhich trees (chars haystack.now) (position_at haystack.now start)
        matched.new) }
    ensures cost { IfOk result (λ steps. (trees : List Tree) → IsGraphOfList trees list.now
        → IsBoundedBy (places_of_all trees) (tries_of_all trees) (chars haystack.now)
        (position_at haystack.now start) steps.tried steps.entered steps.looked) }
    ensures entered { IfOk result (λ steps. (k : ℕ)
        → IsTrue (slice_index_or matched.new k false) → 0 < steps.entered) }
    ensures length { length matched.new ≡ length matched.old }
    ensures kept { AreKeptFor list.now kept.new }
    ensures ready { NeedsNoMemory kept.old → NeedsNoMemory kept.new × IfErr result (λ _. ⊥) }
{
    let mut steps = no_steps();
    for number in 0..list.len() {
        let (found, own) = kept.search_one(list, number, haystack, start)?;
        matched[number] = found;
        steps = steps.plus(&own);
    }
    Ok(steps)
}
