//! The groups of a match of one of several patterns, written to the caller's spans.
ghost use Rattle.std.specs.Prelude.{◌≡◌, IfSome, None};
ghost use Rattle.regex_lite_c.specs.GroupAnswers.{IsListGroupsAnswer};

use crate::answer::NOTHING_HELD;
use crate::groups::captures;
use crate::handle::{Holds, ListHandle};
use crate::list::types::ListGroups;
use crate::types::Span;
use std::alloc::Global;

/// The groups of the match that `regex_lite_list_find` finds: 1 with their spans written, beginning
/// with the whole match, or 0. With a match, the number of its pattern and the number of that
/// pattern's groups are written either way.
#[unsafe(no_mangle)]
pub extern "C" fn regex_lite_list_captures(
    alloc: Global,
    handle: &mut ListHandle,
    text: &[u8],
    start: usize,
    spans: &mut [Span],
    reported: &mut ListGroups,
) -> u32
    ensures same { handle.new.value ≡ handle.old.value }
    ensures nothing_held { handle.old.value ≡ None → (result ≡ NOTHING_HELD)
        × (spans.new ≡ spans.old) × (reported.new ≡ reported.old) }
    ensures answer { IfSome handle.old.value (λ list. IsListGroupsAnswer list text.now start
        spans.old spans.new reported.old reported.new result) }
{
    let Some(list) = handle.take(alloc) else {
        return NOTHING_HELD;
    };
    let answer = captures(&*list, text, start, spans, reported);
    handle.put(list);
    answer
}
