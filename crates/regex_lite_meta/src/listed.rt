//! One-off searches for one pattern of a list, given by its number.
ghost use Rattle.std.specs.Prelude.{◌≡◌, ◌<◌, ◌⊎◌, ◌↔◌, List, IfOk, IfSome, IsCharBoundary};
ghost use Rattle.std.specs.Prelude.{IsTrue, chars, length};
ghost use Rattle.regex_lite_syntax.specs.Tree.{Tree};
ghost use Rattle.regex_lite_engine.specs.Graph.SideBySide.{AreRegularPatterns, HasTree};
ghost use Rattle.regex_lite_engine.specs.Graph.StoredList.{IsGraphOfList};
ghost use Rattle.regex_lite_engine.specs.Search.Answer.{HasMatchFrom};
ghost use Rattle.regex_lite_engine.specs.Search.Offsets.{search_start};
ghost use Rattle.regex_lite_engine.specs.Search.Outcomes.{IsOutcome};

use crate::one::{search_any_one, search_one};
use regex_lite_engine::nfa::list::GraphList;
use regex_lite_engine::search::outcome::Outcome;
use std::alloc::{AllocError, Global};

/// The most preferred match of the pattern with this number from the least start at or after this
/// offset, with this number of slots, whatever the other patterns of the list match.
///
/// Conditions: the list has more patterns than this number, and the start is above the haystack's
/// length or on a character boundary.
///
/// # Errors
///
/// If memory runs out, which can happen only before the search begins.
pub fn search_listed(
    list: &GraphList,
    number: usize,
    alloc: Global,
    haystack: &str,
    start: usize,
    slots: usize,
) -> Result<Option<Outcome>, AllocError>
    requires number { number < length list.now.entries }
    requires start { (length haystack.now < start) ⊎ IsCharBoundary haystack.now start }
    ensures found { IfOk result (λ found. (trees : List Tree) (tree : Tree)
        → AreRegularPatterns trees → IsGraphOfList trees list.now → HasTree trees number tree
        → IsOutcome tree haystack.now start found) }
    ensures slots { IfOk result (λ found. IfSome found
        (λ outcome. length outcome.slots.items ≡ slots)) }
{
    if start > haystack.len() {
        return Ok(None);
    }
    let mut pattern = list.pattern(number);
    let (found, _) = search_one(&mut pattern, alloc, haystack, start, slots)?;
    Ok(found)
}

/// Whether the pattern with this number matches from a position at or after this offset. The search
/// stops at the first match that it can confirm.
///
/// Conditions: the list has more patterns than this number, and the start is above the haystack's
/// length or on a character boundary.
///
/// # Errors
///
/// If memory runs out, which can happen only before the search begins.
pub fn search_listed_any(
    list: &GraphList,
    number: usize,
    alloc: Global,
    haystack: &str,
    start: usize,
) -> Result<bool, AllocError>
    requires number { number < length list.now.entries }
    requires start { (length haystack.now < start) ⊎ IsCharBoundary haystack.now start }
    ensures { IfOk result (λ found. (trees : List Tree) (tree : Tree)
        → AreRegularPatterns trees → IsGraphOfList trees list.now → HasTree trees number tree
        → (IsTrue found
        ↔ HasMatchFrom tree (chars haystack.now) (search_start haystack.now start))) }
{
    if start > haystack.len() {
        return Ok(false);
    }
    let mut pattern = list.pattern(number);
    let (found, _) = search_any_one(&mut pattern, alloc, haystack, start)?;
    Ok(found)
}
