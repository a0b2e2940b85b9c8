//! Searches in a text of the caller.
ghost use Rattle.std.specs.Prelude.{◌≡◌, ◌≢◌, ◌<◌, ◌≤◌, ◌↔◌, IfSome, Some, None};
ghost use Rattle.regex_lite.specs.Searches.{MatchesFrom, TellsEnd};
ghost use Rattle.regex_lite_c.specs.Answers.{IsSearchAnswer};
ghost use Rattle.regex_lite_c.specs.Costs.{IsCostOfSearch};
ghost use Rattle.regex_lite_c.specs.Spans.{FindsSpan, TellsSpan};

use crate::answer::{NO, NOTHING_HELD, OUT_OF_MEMORY, YES};
use crate::handle::{Handle, Holds, ask};
use crate::sought::{Search, Sought};
use crate::text::text_from;
use crate::types::{Cost, Span};
use regex_lite::Regex;
use std::alloc::Global;

/// Whether the pattern matches somewhere from this offset on: 1 or 0.
#[unsafe(no_mangle)]
pub extern "C" fn regex_lite_is_match(
    alloc: Global,
    handle: &mut Handle,
    text: &[u8],
    start: usize,
) -> u32
    ensures same { handle.new.value ≡ handle.old.value }
    ensures nothing_held { (result ≡ NOTHING_HELD) ↔ (handle.old.value ≡ None) }
    ensures answer { IfSome handle.old.value (λ re. IsSearchAnswer text.now start result
        (MatchesFrom re text.now start) (MatchesFrom re text.now start → ⊥)) }
{
    let say = |regex: &Regex| is_match(regex, text, start);
    ask(alloc, handle, NOTHING_HELD, say)
}

/// Whether this search finds a match.
pub(crate) fn is_match<P: Search>(search: &P, text: &[u8], start: usize) -> u32
    requires { P.can_search search.now }
    ensures answer { IsSearchAnswer text.now start result
        (P.search.Matches search.now text.now start)
        (P.search.Matches search.now text.now start → ⊥) }
    ensures held { result ≢ NOTHING_HELD }
{
    let text = match text_from(text, start) {
        Ok(text) => text,
        Err(refusal) => return refusal,
    };
    match search.has_match(text, start) {
        Ok(true) => YES,
        Ok(false) => NO,
        Err(_) => OUT_OF_MEMORY,
    }
}

/// The match that starts first from this offset on: 1 with its span written, or 0.
#[unsafe(no_mangle)]
pub extern "C" fn regex_lite_find(
    alloc: Global,
    handle: &mut Handle,
    text: &[u8],
    start: usize,
    span: &mut Span,
) -> u32
    ensures same { handle.new.value ≡ handle.old.value }
    ensures nothing_held { (result ≡ NOTHING_HELD) ↔ (handle.old.value ≡ None) }
    ensures answer { IfSome handle.old.value (λ re. IsSearchAnswer text.now start result
        (FindsSpan re text.now start span.new) (TellsSpan re text.now start None)) }
    ensures written { result ≢ YES → span.new ≡ span.old }
{
    let Some(regex) = handle.take(alloc) else {
        return NOTHING_HELD;
    };
    let answer = find(&*regex, text, start, span);
    handle.put(regex);
    answer
}

/// The match that this search finds.
pub(crate) fn find<P: Search>(search: &P, text: &[u8], start: usize, span: &mut P::Span) -> u32
    requires { P.can_search search.now }
    ensures answer { IsSearchAnswer text.now start result
        (P.search.Finds search.now text.now start span.new)
        (P.search.FindsNone search.now text.now start) }
    ensures held { result ≢ NOTHING_HELD }
    ensures written { result ≢ YES → span.new ≡ span.old }
{
    let text = match text_from(text, start) {
        Ok(text) => text,
        Err(refusal) => return refusal,
    };
    match search.first_span(text, start) {
        Ok(Some(found)) => {
            *span = found;
            YES
        }
        Ok(None) => NO,
        Err(_) => OUT_OF_MEMORY,
    }
}

/// `regex_lite_find`, which also writes the cost of the search if the answer is 1 or 0.
#[unsafe(no_mangle)]
pub extern "C" fn regex_lite_find_counted(
    alloc: Global,
    handle: &mut Handle,
    text: &[u8],
    start: usize,
    span: &mut Span,
    cost: &mut Cost,
) -> u32
    ensures same { handle.new.value ≡ handle.old.value }
    ensures nothing_held { (result ≡ NOTHING_HELD) ↔ (handle.old.value ≡ None) }
    ensures answer { IfSome handle.old.value (λ re. IsSearchAnswer text.now start result
        (FindsSpan re text.now start span.new) (TellsSpan re text.now start None)) }
    ensures cost { result ≤ YES
        → IfSome handle.old.value (λ re. IsCostOfSearch re text.now start cost.new) }
    ensures entered { result ≡ YES → 0 < cost.new.entered }
    ensures written { result ≢ YES → span.new ≡ span.old }
    ensures same_cost { YES < result → cost.new ≡ cost.old }
{
    let Some(regex) = handle.take(alloc) else {
        return NOTHING_HELD;
    };
    let answer = find_counted(&*regex, text, start, span, cost);
    handle.put(regex);
    answer
}

/// Finds the first match, and writes the cost of the search.
pub(crate) fn find_counted<P: Sought>(
    sought: &P,
    text: &[u8],
    start: usize,
    span: &mut P::Span,
    cost: &mut Cost,
) -> u32
    ensures answer { IsSearchAnswer text.now start result
        (P.search.Finds sought.now text.now start span.new)
        (P.search.FindsNone sought.now text.now start) }
    ensures held { result ≢ NOTHING_HELD }
    ensures cost { result ≤ YES → P.kind.IsCost sought.now text.now start cost.new }
    ensures entered { result ≡ YES → 0 < cost.new.entered }
    ensures written { result ≢ YES → span.new ≡ span.old }
    ensures same_cost { YES < result → cost.new ≡ cost.old }
{
    let text = match text_from(text, start) {
        Ok(text) => text,
        Err(refusal) => return refusal,
    };
    let Ok(reported) = sought.counted_span(text, start) else {
        return OUT_OF_MEMORY;
    };
    *cost = reported.1;
    match reported.0 {
        Some(found) => {
            *span = found;
            YES
        }
        None => NO,
    }
}

/// The least end of any match that starts at this offset or later: 1 with it written, or 0.
#[unsafe(no_mangle)]
pub extern "C" fn regex_lite_shortest(
    alloc: Global,
    handle: &mut Handle,
    text: &[u8],
    start: usize,
    end: &mut usize,
) -> u32
    ensures same { handle.new.value ≡ handle.old.value }
    ensures nothing_held { (result ≡ NOTHING_HELD) ↔ (handle.old.value ≡ None) }
    ensures answer { IfSome handle.old.value (λ re. IsSearchAnswer text.now start result
        (TellsEnd re text.now start (Some end.new)) (TellsEnd re text.now start None)) }
    ensures written { result ≢ YES → end.new ≡ end.old }
{
    let Some(regex) = handle.take(alloc) else {
        return NOTHING_HELD;
    };
    let answer = shortest(&regex, text, start, end);
    handle.put(regex);
    answer
}

/// The least end of any match of this regex.
fn shortest(regex: &Regex, text: &[u8], start: usize, end: &mut usize) -> u32
    ensures answer { IsSearchAnswer text.now start result
        (TellsEnd regex.now text.now start (Some end.new))
        (TellsEnd regex.now text.now start None) }
    ensures held { result ≢ NOTHING_HELD }
    ensures written { result ≢ YES → end.new ≡ end.old }
{
    let text = match text_from(text, start) {
        Ok(text) => text,
        Err(refusal) => return refusal,
    };
    match regex.shortest_match_at(text, start) {
        Ok(Some(least)) => {
            *end = least;
            YES
        }
        Ok(None) => NO,
        Err(_) => OUT_OF_MEMORY,
    }
}
