//! The groups of all matches of several patterns in a text, in batches.
ghost use Rattle.std.specs.Prelude.{◌≡◌, IfSome, None};
ghost use Rattle.regex_lite_c.specs.GroupWalks.{IsListGroupWalkAnswer, list_group_buffer};

use crate::answer::NOTHING_HELD;
use crate::group_walk::captures_all;
use crate::handle::{Holds, ListHandle};
use crate::list::types::ListGroups;
use crate::types::{MatchWalk, Span};
use std::alloc::Global;

/// The groups of the next matches of the patterns in a text, as many as fit: 1 with the spans of
/// the groups of each match, beginning with the whole match, one match after another, or 0 if none
/// is left. For each match the number of its pattern and the number of that pattern's groups are
/// written too, and so is the number of these matches. The walk moves past the last of them.
///
/// They are the matches of `regex_lite_list_find_all`. 1 means that no further match would have
/// fitted: none is left, or there is no room for the number of the next or for its groups. If
/// memory runs out, the number is that of the matches that were written before, and the walk moves
/// past them. With too little room for the first match, only the number of its groups is written,
/// instead of the number of matches.
#[unsafe(no_mangle)]
pub extern "C" fn regex_lite_list_captures_all(
    alloc: Global,
    handle: &mut ListHandle,
    text: &[u8],
    walk: &mut MatchWalk,
    reported: &mut [ListGroups],
    spans: &mut [Span],
    count: &mut usize,
) -> u32
    ensures same { handle.new.value ≡ handle.old.value }
    ensures nothing_held { handle.old.value ≡ None → (result ≡ NOTHING_HELD)
        × (walk.new ≡ walk.old) × (reported.new ≡ reported.old) × (spans.new ≡ spans.old)
        × (count.new ≡ 0) }
    ensures answer { IfSome handle.old.value (λ list. IsListGroupWalkAnswer list text.now
        (list_group_buffer walk.old reported.old spans.old)
        (list_group_buffer walk.new reported.new spans.new) count.new result) }
{
    *count = 0;
    let Some(list) = handle.take(alloc) else {
        return NOTHING_HELD;
    };
    let (answer, number) = captures_all(&*list, text, walk, reported, spans);
    *count = number;
    handle.put(list);
    answer
}
