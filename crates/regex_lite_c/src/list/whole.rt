//! Whole matches of several patterns: matches of the whole text.
ghost use Rattle.std.specs.Prelude.{◌≡◌, ◌≢◌, ◌↔◌, IfSome, None};
ghost use Rattle.regex_lite.specs.MatchOffsets.{SomeMatchesWhole};
ghost use Rattle.regex_lite_c.specs.Answers.{IsSearchAnswer};
ghost use Rattle.regex_lite_c.specs.GroupAnswers.{IsWholeListGroupsAnswer};
ghost use Rattle.regex_lite_c.specs.Whole.{FindsWholeListSpan, TellsWholeListSpan};

use crate::answer::{NOTHING_HELD, YES};
use crate::groups::captures;
use crate::handle::{Holds, ListHandle};
use crate::list::types::{ListGroups, ListSpan};
use crate::search::{find, is_match};
use crate::sought::Search;
use crate::types::Span;
use crate::whole::Whole;
use regex_lite::{Captures, Error, RegexList};
use std::alloc::Global;

impl<'r> Search for Whole<'r, RegexList> {
    ghost use Rattle.regex_lite_c.specs.SearchKinds.{whole_patterns_search};

    type Span = ListSpan;

    type Reported = ListGroups;

    ghost search = { whole_patterns_search };

    fn has_match(&self, text: &str, _: usize) -> Result<bool, Error> {
        self.sought.is_full_match(text)
    }

    fn first_span(&self, text: &str, _: usize) -> Result<Option<ListSpan>, Error> {
        match self.sought.full_match(text)? {
            Some((number, found)) => Ok(Some(ListSpan::of(number, &found))),
            None => Ok(None),
        }
    }

    fn first_groups<'h>(
        &self,
        text: &'h str,
        _: usize,
    ) -> Result<Option<(ListGroups, Captures<'h>)>, Error> {
        match self.sought.full_captures(text)? {
            Some((number, caps)) => {
                let count = caps.len();
                Ok(Some((ListGroups { number, count }, caps)))
            }
            None => Ok(None),
        }
    }
}

/// Whether one of the patterns matches the whole text: 1 or 0.
#[unsafe(no_mangle)]
pub extern "C" fn regex_lite_list_is_full_match(
    alloc: Global,
    handle: &mut ListHandle,
    text: &[u8],
) -> u32
    ensures same { handle.new.value ≡ handle.old.value }
    ensures nothing_held { (result ≡ NOTHING_HELD) ↔ (handle.old.value ≡ None) }
    ensures answer { IfSome handle.old.value (λ list. IsSearchAnswer text.now 0 result
        (SomeMatchesWhole list text.now) (SomeMatchesWhole list text.now → ⊥)) }
{
    let Some(list) = handle.take(alloc) else {
        return NOTHING_HELD;
    };
    let answer = is_match(&Whole { sought: &*list }, text, 0);
    handle.put(list);
    answer
}

/// The match of the whole text, of the pattern with the lowest number that has one: 1 with the
/// number and the span written, or 0.
#[unsafe(no_mangle)]
pub extern "C" fn regex_lite_list_full_match(
    alloc: Global,
    handle: &mut ListHandle,
    text: &[u8],
    span: &mut ListSpan,
) -> u32
    ensures same { handle.new.value ≡ handle.old.value }
    ensures nothing_held { (result ≡ NOTHING_HELD) ↔ (handle.old.value ≡ None) }
    ensures answer { IfSome handle.old.value (λ list. IsSearchAnswer text.now 0 result
        (FindsWholeListSpan list text.now span.new)
        (TellsWholeListSpan list text.now None)) }
    ensures written { result ≢ YES → span.new ≡ span.old }
{
    let Some(list) = handle.take(alloc) else {
        return NOTHING_HELD;
    };
    let answer = find(&Whole { sought: &*list }, text, 0, span);
    handle.put(list);
    answer
}

/// The groups of the match that `regex_lite_list_full_match` finds, of the preferred way in which
/// the pattern matches the whole text: 1 with their spans written, beginning with the whole match,
/// or 0. With a match, the number of its pattern and the number of that pattern's groups are
/// written either way.
#[unsafe(no_mangle)]
pub extern "C" fn regex_lite_list_full_captures(
    alloc: Global,
    handle: &mut ListHandle,
    text: &[u8],
    spans: &mut [Span],
    reported: &mut ListGroups,
) -> u32
    ensures same { handle.new.value ≡ handle.old.value }
    ensures nothing_held { handle.old.value ≡ None → (result ≡ NOTHING_HELD)
        × (spans.new ≡ spans.old) × (reported.new ≡ reported.old) }
    ensures answer { IfSome handle.old.value (λ list. IsWholeListGroupsAnswer list text.now
        spans.old spans.new reported.old reported.new result) }
{
    let Some(list) = handle.take(alloc) else {
        return NOTHING_HELD;
    };
    let answer = captures(&Whole { sought: &*list }, text, 0, spans, reported);
    handle.put(list);
    answer
}
