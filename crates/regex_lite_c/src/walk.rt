//! All matches in a text, in batches.
ghost use Rattle.std.specs.Prelude.{◌≡◌, ◌<◌, ◌≤◌, IfSome, None, length};
ghost use Rattle.regex_lite_c.specs.Walks.{AreListed, GoesOnAfterLast, IsWalkAnswer};
ghost use Rattle.regex_lite_c.specs.Walks.{IsWalkAnswerOf, NoneComes, walk_buffer};

use crate::answer::{NO, NO_ROOM, NOTHING_HELD, OUT_OF_MEMORY, YES};
use crate::handle::{Handle, Holds};
use crate::sought::{Search, Sought, Spans};
use crate::text::text_from;
use crate::types::{MatchWalk, Span};
use crate::written::Written;
use std::alloc::Global;

/// The next matches of a text, as many as fit: 1 with their spans written, or 0 if none is left.
/// The number of these matches is written too, and the walk moves past the last of them.
///
/// They are the matches in the text from left to right, and no two overlap. The search for the next
/// match starts where the last one ended; if it finds an empty match right there, it starts one
/// character later instead.
#[unsafe(no_mangle)]
pub extern "C" fn regex_lite_find_all(
    alloc: Global,
    handle: &mut Handle,
    text: &[u8],
    walk: &mut MatchWalk,
    spans: &mut [Span],
    count: &mut usize,
) -> u32
    ensures same { handle.new.value ≡ handle.old.value }
    ensures nothing_held { handle.old.value ≡ None → (result ≡ NOTHING_HELD)
        × (walk.new ≡ walk.old) × (spans.new ≡ spans.old) × (count.new ≡ 0) }
    ensures answer { IfSome handle.old.value (λ re. IsWalkAnswer re text.now
        (walk_buffer walk.old spans.old) (walk_buffer walk.new spans.new) count.new result) }
{
    *count = 0;
    let Some(regex) = handle.take(alloc) else {
        return NOTHING_HELD;
    };
    let answer = find_all(&*regex, text, walk, spans, count);
    handle.put(regex);
    answer
}

/// Writes the next matches.
pub(crate) fn find_all<P: Sought>(
    sought: &P,
    text: &[u8],
    walk: &mut MatchWalk,
    spans: &mut [P::Span],
    count: &mut usize,
) -> u32
    requires { count.old ≡ 0 }
    ensures { IsWalkAnswerOf P.kind sought.now text.now (walk_buffer walk.old spans.old)
        (walk_buffer walk.new spans.new) count.new result }
{
    let ended = walk.ended();
    let text = match text_from(text, ended.unwrap_or(0)) {
        Ok(text) => text,
        Err(refusal) => return refusal,
    };
    if spans.is_empty() {
        return NO_ROOM;
    }
    match sought.write_after(text, ended, spans) {
        Ok(written) => {
            *count = written;
            go_on::<P>(walk, spans, written)
        }
        Err(_) => OUT_OF_MEMORY,
    }
}

/// Moves the walk past the last of these matches, if there is one.
fn go_on<P: Written>(walk: &mut MatchWalk, spans: &[P::Span], count: usize) -> u32
    requires { count ≤ length spans.now }
    ensures found { 0 < count
        → (result ≡ YES) × GoesOnAfterLast P.kind.end_of spans.now count walk.new }
    ensures none { count ≡ 0 → (result ≡ NO) × (walk.new ≡ walk.old) }
{
    if count == 0 {
        return NO;
    }
    let end = P::end_of(&spans[count - 1]);
    *walk = MatchWalk {
        is_begun: true,
        end,
    };
    YES
}

/// Writes the next matches, and returns their number.
pub(crate) fn fill<M: Spans>(matches: &mut M, spans: &mut [<M::Sought as Search>::Span]) -> usize
    requires { (M.ahead matches.old).limit ≡ None }
    ensures listed { AreListed M.Sought.kind (M.ahead matches.old) spans.old spans.new result }
    ensures within { result ≤ length spans.old }
    ensures none { result ≡ 0 → 0 < length spans.old
        → NoneComes M.Sought.kind (M.ahead matches.old) × (spans.new ≡ spans.old) }
{
    for k in 0..spans.len() {
        match matches.next_span() {
            Some(span) => spans[k] = span,
            None => return k,
        }
    }
    spans.len()
}
