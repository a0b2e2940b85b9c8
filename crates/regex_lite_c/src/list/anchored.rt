//! Anchored searches for several patterns: they find a match that starts at the offset.
ghost use Rattle.std.specs.Prelude.{◌≡◌, ◌≢◌, ◌↔◌, IfSome, None};
ghost use Rattle.regex_lite.specs.MatchOffsets.{SomeMatchesAt};
ghost use Rattle.regex_lite_c.specs.Anchored.{FindsListSpanAt, TellsListSpanAt};
ghost use Rattle.regex_lite_c.specs.Answers.{IsSearchAnswer};
ghost use Rattle.regex_lite_c.specs.GroupAnswers.{IsAnchoredListGroupsAnswer};

use crate::anchored::SoughtAt;
use crate::answer::{NOTHING_HELD, YES};
use crate::groups::captures;
use crate::handle::{Holds, ListHandle};
use crate::list::types::{ListGroups, ListSpan};
use crate::search::{find, is_match};
use crate::sought::Search;
use crate::types::Span;
use regex_lite::{Captures, Error, RegexList};
use std::alloc::Global;

impl<'r> Search for SoughtAt<'r, RegexList> {
    ghost use Rattle.regex_lite_c.specs.SearchKinds.{anchored_patterns_search};

    type Span = ListSpan;

    type Reported = ListGroups;

    ghost search = { anchored_patterns_search };

    fn has_match(&self, text: &str, start: usize) -> Result<bool, Error> {
        self.sought.is_match_anchored_at(text, start)
    }

    fn first_span(&self, text: &str, start: usize) -> Result<Option<ListSpan>, Error> {
        match self.sought.find_anchored_at(text, start)? {
            Some((number, found)) => Ok(Some(ListSpan::of(number, &found))),
            None => Ok(None),
        }
    }

    fn first_groups<'h>(
        &self,
        text: &'h str,
        start: usize,
    ) -> Result<Option<(ListGroups, Captures<'h>)>, Error> {
        match self.sought.captures_anchored_at(text, start)? {
            Some((number, caps)) => {
                let count = caps.len();
                Ok(Some((ListGroups { number, count }, caps)))
            }
            None => Ok(None),
        }
    }
}

/// Whether one of the patterns matches at this offset: 1 or 0.
#[unsafe(no_mangle)]
pub extern "C" fn regex_lite_list_is_match_anchored(
    alloc: Global,
    handle: &mut ListHandle,
    text: &[u8],
    start: usize,
) -> u32
    ensures same { handle.new.value ≡ handle.old.value }
    ensures nothing_held { (result ≡ NOTHING_HELD) ↔ (handle.old.value ≡ None) }
    ensures answer { IfSome handle.old.value (λ list. IsSearchAnswer text.now start result
        (SomeMatchesAt list text.now start) (SomeMatchesAt list text.now start → ⊥)) }
{
    let Some(list) = handle.take(alloc) else {
        return NOTHING_HELD;
    };
    let answer = is_match(&SoughtAt { sought: &*list }, text, start);
    handle.put(list);
    answer
}

/// The match that starts at this offset, of the pattern with the lowest number that matches there:
/// 1 with the number and the span written, or 0.
#[unsafe(no_mangle)]
pub extern "C" fn regex_lite_list_find_anchored(
    alloc: Global,
    handle: &mut ListHandle,
    text: &[u8],
    start: usize,
    span: &mut ListSpan,
) -> u32
    ensures same { handle.new.value ≡ handle.old.value }
    ensures nothing_held { (result ≡ NOTHING_HELD) ↔ (handle.old.value ≡ None) }
    ensures answer { IfSome handle.old.value (λ list. IsSearchAnswer text.now start result
        (FindsListSpanAt list text.now start span.new)
        (TellsListSpanAt list text.now start None)) }
    ensures written { result ≢ YES → span.new ≡ span.old }
{
    let Some(list) = handle.take(alloc) else {
        return NOTHING_HELD;
    };
    let answer = find(&SoughtAt { sought: &*list }, text, start, span);
    handle.put(list);
    answer
}

/// The groups of the match that `regex_lite_list_find_anchored` finds: 1 with their spans written,
/// beginning with the whole match, or 0. With a match, the number of its pattern and the number of
/// that pattern's groups are written either way.
#[unsafe(no_mangle)]
pub extern "C" fn regex_lite_list_captures_anchored(
    alloc: Global,
    handle: &mut ListHandle,
    text: &[u8],
    start: usize,
    spans: &mut [Span],
    reported: &mut ListGroups,
) -> u32
    ensures same { handle.new.value ≡ handle.old.value }
    ensures nothing_held { handle.old.value ≡ None → (result ≡ NOTHING_HELD)
        × (spans.new ≡ spans.old) × (reported.new ≡ reported.old) }
    ensures answer { IfSome handle.old.value (λ list. IsAnchoredListGroupsAnswer list text.now
        start spans.old spans.new reported.old reported.new result) }
{
    let Some(list) = handle.take(alloc) else {
        return NOTHING_HELD;
    };
    let answer = captures(&SoughtAt { sought: &*list }, text, start, spans, reported);
    handle.put(list);
    answer
}
