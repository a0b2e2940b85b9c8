//! Searches for several patterns in a text of the caller.
ghost use Rattle.std.specs.Prelude.{◌≡◌, ◌≢◌, ◌<◌, ◌≤◌, ◌↔◌, IfSome, Some, None};
ghost use Rattle.regex_lite.specs.RegexListSearches.{AnyMatches};
ghost use Rattle.regex_lite_c.specs.Answers.{IsSearchAnswer};
ghost use Rattle.regex_lite_c.specs.Costs.{IsCostOfListSearch};
ghost use Rattle.regex_lite_c.specs.ListSpans.{FindsListSpan, TellsListSpan};

use crate::answer::{NOTHING_HELD, YES};
use crate::handle::{Holds, ListHandle, ask};
use crate::list::types::ListSpan;
use crate::search::{find, find_counted, is_match};
use crate::types::Cost;
use regex_lite::RegexList;
use std::alloc::Global;

/// Whether one of the patterns matches somewhere from this offset on: 1 or 0.
#[unsafe(no_mangle)]
pub extern "C" fn regex_lite_list_is_match(
    alloc: Global,
    handle: &mut ListHandle,
    text: &[u8],
    start: usize,
) -> u32
    ensures same { handle.new.value ≡ handle.old.value }
    ensures nothing_held { (result ≡ NOTHING_HELD) ↔ (handle.old.value ≡ None) }
    ensures answer { IfSome handle.old.value (λ list. IsSearchAnswer text.now start result
        (AnyMatches list text.now start) (AnyMatches list text.now start → ⊥)) }
{
    let say = |list: &RegexList| is_match(list, text, start);
    ask(alloc, handle, NOTHING_HELD, say)
}

/// The match that starts first from this offset on, of the pattern with the lowest number that
/// matches there: 1 with the number and the span written, or 0.
#[unsafe(no_mangle)]
pub extern "C" fn regex_lite_list_find(
    alloc: Global,
    handle: &mut ListHandle,
    text: &[u8],
    start: usize,
    span: &mut ListSpan,
) -> u32
    ensures same { handle.new.value ≡ handle.old.value }
    ensures nothing_held { (result ≡ NOTHING_HELD) ↔ (handle.old.value ≡ None) }
    ensures answer { IfSome handle.old.value (λ list. IsSearchAnswer text.now start result
        (FindsListSpan list text.now start span.new)
        (TellsListSpan list text.now start None)) }
    ensures written { result ≢ YES → span.new ≡ span.old }
{
    let Some(list) = handle.take(alloc) else {
        return NOTHING_HELD;
    };
    let answer = find(&*list, text, start, span);
    handle.put(list);
    answer
}

/// `regex_lite_list_find`, which also writes the cost of the search if the answer is 1 or 0.
#[unsafe(no_mangle)]
pub extern "C" fn regex_lite_list_find_counted(
    alloc: Global,
    handle: &mut ListHandle,
    text: &[u8],
    start: usize,
    span: &mut ListSpan,
    cost: &mut Cost,
) -> u32
    ensures same { handle.new.value ≡ handle.old.value }
    ensures nothing_held { (result ≡ NOTHING_HELD) ↔ (handle.old.value ≡ None) }
    ensures answer { IfSome handle.old.value (λ list. IsSearchAnswer text.now start result
        (FindsListSpan list text.now start span.new)
        (TellsListSpan list text.now start None)) }
    ensures cost { result ≤ YES
        → IfSome handle.old.value (λ list. IsCostOfListSearch list text.now start cost.new) }
    ensures entered { result ≡ YES → 0 < cost.new.entered }
    ensures written { result ≢ YES → span.new ≡ span.old }
    ensures same_cost { YES < result → cost.new ≡ cost.old }
{
    let Some(list) = handle.take(alloc) else {
        return NOTHING_HELD;
    };
    let answer = find_counted(&*list, text, start, span, cost);
    handle.put(list);
    answer
}
