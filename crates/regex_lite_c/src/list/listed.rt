//! Searches for one pattern of a list, given by its number.
ghost use Rattle.std.specs.Prelude.{◌≡◌, ◌≢◌, ◌↔◌, IfSome, MatchOption, None, slice_get};
ghost use Rattle.regex_lite.specs.Searches.{MatchesFrom};
ghost use Rattle.regex_lite_c.specs.Answers.{IsSearchAnswer};
ghost use Rattle.regex_lite_c.specs.GroupAnswers.{IsGroupsAnswer};
ghost use Rattle.regex_lite_c.specs.Spans.{FindsSpan, TellsSpan};

use crate::answer::{NO_PATTERN, NOTHING_HELD, YES};
use crate::groups::captures;
use crate::handle::{Holds, ListHandle, ask};
use crate::search::{find, is_match};
use crate::sought::Search;
use crate::types::Span;
use regex_lite::{Captures, Error, RegexList};
use std::alloc::Global;

/// The search for a match of one pattern of a list.
#[derive(Drop)]
pub(crate) struct Listed<'r> {
    /// The list.
    list: &'r RegexList,
    /// The number of the pattern. The list has more patterns than this.
    number: usize,
}

impl<'r> Search for Listed<'r> {
    ghost use Rattle.std.specs.Prelude.{◌<◌, length};
    ghost use Rattle.regex_lite_c.specs.SearchKinds.{listed_search};

    type Span = Span;

    type Reported = usize;

    ghost can_search = { λ own. own.number < length own.list.now };

    ghost search = { listed_search };

    fn has_match(&self, text: &str, start: usize) -> Result<bool, Error> {
        self.list.is_match_of_at(self.number, text, start)
    }

    fn first_span(&self, text: &str, start: usize) -> Result<Option<Span>, Error> {
        match self.list.find_of_at(self.number, text, start)? {
            Some(found) => Ok(Some(Span::of(&found))),
            None => Ok(None),
        }
    }

    fn first_groups<'h>(
        &self,
        text: &'h str,
        start: usize,
    ) -> Result<Option<(usize, Captures<'h>)>, Error> {
        match self.list.captures_of_at(self.number, text, start)? {
            Some(caps) => Ok(Some((caps.len(), caps))),
            None => Ok(None),
        }
    }
}

/// Whether the pattern with this number matches somewhere from this offset on: 1 or 0.
#[unsafe(no_mangle)]
pub extern "C" fn regex_lite_list_is_match_of(
    alloc: Global,
    handle: &mut ListHandle,
    number: usize,
    text: &[u8],
    start: usize,
) -> u32
    ensures same { handle.new.value ≡ handle.old.value }
    ensures nothing_held { (result ≡ NOTHING_HELD) ↔ (handle.old.value ≡ None) }
    ensures answer { IfSome handle.old.value (λ list. MatchOption (slice_get list number)
        (result ≡ NO_PATTERN) (λ re. IsSearchAnswer text.now start result
        (MatchesFrom re text.now start) (MatchesFrom re text.now start → ⊥))) }
{
    let say = |list: &RegexList| is_match_of(list, number, text, start);
    ask(alloc, handle, NOTHING_HELD, say)
}

/// Whether the pattern with this number matches.
fn is_match_of(list: &RegexList, number: usize, text: &[u8], start: usize) -> u32
    ensures answer { MatchOption (slice_get list.now number) (result ≡ NO_PATTERN)
        (λ re. IsSearchAnswer text.now start result
        (MatchesFrom re text.now start) (MatchesFrom re text.now start → ⊥)) }
    ensures held { result ≢ NOTHING_HELD }
{
    if number >= list.len() {
        return NO_PATTERN;
    }
    is_match(&Listed { list, number }, text, start)
}

/// The match of the pattern with this number that starts first from this offset on, whatever the
/// other patterns match: 1 with its span written, or 0.
#[unsafe(no_mangle)]
pub extern "C" fn regex_lite_list_find_of(
    alloc: Global,
    handle: &mut ListHandle,
    number: usize,
    text: &[u8],
    start: usize,
    span: &mut Span,
) -> u32
    ensures same { handle.new.value ≡ handle.old.value }
    ensures nothing_held { (result ≡ NOTHING_HELD) ↔ (handle.old.value ≡ None) }
    ensures answer { IfSome handle.old.value (λ list. MatchOption (slice_get list number)
        (result ≡ NO_PATTERN) (λ re. IsSearchAnswer text.now start result
        (FindsSpan re text.now start span.new) (TellsSpan re text.now start None))) }
    ensures written { result ≢ YES → span.new ≡ span.old }
{
    let Some(list) = handle.take(alloc) else {
        return NOTHING_HELD;
    };
    let answer = find_of(&list, number, text, start, span);
    handle.put(list);
    answer
}

/// The match of the pattern with this number.
fn find_of(list: &RegexList, number: usize, text: &[u8], start: usize, span: &mut Span) -> u32
    ensures answer { MatchOption (slice_get list.now number) (result ≡ NO_PATTERN)
        (λ re. IsSearchAnswer text.now start result
        (FindsSpan re text.now start span.new) (TellsSpan re text.now start None)) }
    ensures held { result ≢ NOTHING_HELD }
    ensures written { result ≢ YES → span.new ≡ span.old }
{
    if number >= list.len() {
        return NO_PATTERN;
    }
    find(&Listed { list, number }, text, start, span)
}

/// The groups of the match that `regex_lite_list_find_of` finds, by the pattern's own indices: 1
/// with their spans written, beginning with the whole match, or 0. With a match, the number of
/// groups is written either way.
#[unsafe(no_mangle)]
pub extern "C" fn regex_lite_list_captures_of(
    alloc: Global,
    handle: &mut ListHandle,
    number: usize,
    text: &[u8],
    start: usize,
    spans: &mut [Span],
    count: &mut usize,
) -> u32
    ensures same { handle.new.value ≡ handle.old.value }
    ensures nothing_held { handle.old.value ≡ None → (result ≡ NOTHING_HELD)
        × (spans.new ≡ spans.old) × (count.new ≡ count.old) }
    ensures answer { IfSome handle.old.value (λ list. MatchOption (slice_get list number)
        ((result ≡ NO_PATTERN) × (spans.new ≡ spans.old) × (count.new ≡ count.old))
        (λ re. IsGroupsAnswer re text.now start spans.old spans.new count.old count.new result)) }
{
    let Some(list) = handle.take(alloc) else {
        return NOTHING_HELD;
    };
    let answer = captures_of(&list, number, text, start, spans, count);
    handle.put(list);
    answer
}

/// The groups of the match of the pattern with this number.
fn captures_of(
    list: &RegexList,
    number: usize,
    text: &[u8],
    start: usize,
    spans: &mut [Span],
    count: &mut usize,
) -> u32
    ensures { MatchOption (slice_get list.now number)
        ((result ≡ NO_PATTERN) × (spans.new ≡ spans.old) × (count.new ≡ count.old))
        (λ re. IsGroupsAnswer re text.now start spans.old spans.new count.old count.new result) }
{
    if number >= list.len() {
        return NO_PATTERN;
    }
    captures(&Listed { list, number }, text, start, spans, count)
}
