//! All matches of several patterns in a text, in batches.
ghost use Rattle.std.specs.Prelude.{◌≡◌, IfSome, None};
ghost use Rattle.regex_lite_c.specs.Walks.{IsListWalkAnswer, walk_buffer};

use crate::answer::NOTHING_HELD;
use crate::handle::{Holds, ListHandle};
use crate::list::types::ListSpan;
use crate::types::MatchWalk;
use crate::walk::find_all;
use std::alloc::Global;

/// The next matches of the patterns in a text, as many as fit: 1 with their numbers and spans
/// written, or 0 if none is left. The number of these matches is written too, and the walk moves
/// past the last of them.
///
/// They are the matches in the text from left to right, and no two overlap. The search for the next
/// match, for all patterns, starts where the last one ended; if it finds an empty match right
/// there, it starts one character later instead.
#[unsafe(no_mangle)]
pub extern "C" fn regex_lite_list_find_all(
    alloc: Global,
    handle: &mut ListHandle,
    text: &[u8],
    walk: &mut MatchWalk,
    spans: &mut [ListSpan],
    count: &mut usize,
) -> u32
    ensures same { handle.new.value ≡ handle.old.value }
    ensures nothing_held { handle.old.value ≡ None → (result ≡ NOTHING_HELD)
        × (walk.new ≡ walk.old) × (spans.new ≡ spans.old) × (count.new ≡ 0) }
    ensures answer { IfSome handle.old.value (λ list. IsListWalkAnswer list text.now
        (walk_buffer walk.old spans.old) (walk_buffer walk.new spans.new) count.new result) }
{
    *count = 0;
    let Some(list) = handle.take(alloc) else {
        return NOTHING_HELD;
    };
    let answer = find_all(&*list, text, walk, spans, count);
    handle.put(list);
    answer
}
