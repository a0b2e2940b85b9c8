//! The groups of all matches in a text, in batches.
ghost use Rattle.std.specs.Prelude.{◌≡◌, ◌↔◌, ◌<◌, IfSome, IsTrue, None, cond, length};
ghost use Rattle.std.specs.Prelude.{slice_set, true};
ghost use Rattle.regex_lite_c.specs.Answers.{IsOfFound};
ghost use Rattle.regex_lite_c.specs.GroupWalks.{IsFilled, IsFull, IsGroupWalkAnswer};
ghost use Rattle.regex_lite_c.specs.GroupWalks.{IsGroupWalkAnswerOf, group_buffer};
ghost use Rattle.regex_lite_c.specs.Walks.{walk_buffer};

use crate::answer::{NO, NO_ROOM, NOTHING_HELD, OUT_OF_MEMORY, YES};
use crate::groups::put_groups;
use crate::handle::{Handle, Holds};
use crate::sought::{GroupsAhead, Search, Sought};
use crate::text::text_from;
use crate::types::{MatchWalk, Span};
use crate::written::Written;
use std::alloc::Global;

/// The groups of the next matches in a text, as many as fit: 1 with the spans of the groups of each
/// match, beginning with the whole match, one match after another, or 0 if none is left. The number
/// of these matches is written too, and the walk moves past the last of them.
///
/// They are the matches of `regex_lite_find_all`. 1 means that no further match would have fitted:
/// none is left, or the next has more groups than the buffer has spans left. If memory runs out,
/// the number is that of the matches that were written before, and the walk moves past them.
#[unsafe(no_mangle)]
pub extern "C" fn regex_lite_captures_all(
    alloc: Global,
    handle: &mut Handle,
    text: &[u8],
    walk: &mut MatchWalk,
    spans: &mut [Span],
    count: &mut usize,
) -> u32
    ensures same { handle.new.value ≡ handle.old.value }
    ensures nothing_held { handle.old.value ≡ None → (result ≡ NOTHING_HELD)
        × (walk.new ≡ walk.old) × (spans.new ≡ spans.old) × (count.new ≡ 0) }
    ensures answer { IfSome handle.old.value (λ re. IsGroupWalkAnswer re text.now
        (walk_buffer walk.old spans.old) (walk_buffer walk.new spans.new) count.new result) }
{
    *count = 0;
    let Some(regex) = handle.take(alloc) else {
        return NOTHING_HELD;
    };
    let (answer, number) = captures_all(&*regex, text, walk, &mut [], spans);
    *count = number;
    handle.put(regex);
    answer
}

/// Writes the groups of the next matches. Returns the answer, and the number to write.
pub(crate) fn captures_all<P: Sought>(
    sought: &P,
    text: &[u8],
    walk: &mut MatchWalk,
    reported: &mut [P::Reported],
    spans: &mut [Span],
) -> (u32, usize)
    ensures { IsGroupWalkAnswerOf P.kind sought.now text.now
        (group_buffer walk.old reported.old spans.old)
        (group_buffer walk.new reported.new spans.new) result.1 result.0 }
{
    match text_from(text, walk.ended().unwrap_or(0)) {
        Ok(text) => sought.write_groups_after(text, walk, reported, spans),
        Err(refusal) => (refusal, 0),
    }
}

/// Writes the groups of the next matches, and where the last of these ends.
pub(crate) fn fill_groups<'h, M: GroupsAhead<'h>>(
    matches: &mut M,
    walk: &mut MatchWalk,
    reported: &mut [<M::Sought as Search>::Reported],
    spans: &mut [Span],
) -> (u32, usize)
    requires { (M.ahead matches.old).limit ≡ None }
    ensures filled { IsFilled M.Sought.kind (M.ahead matches.old)
        (group_buffer walk.old reported.old spans.old)
        (group_buffer walk.new reported.new spans.new) result.1 result.0 }
    ensures one_of { IsOfFound result.0 }
{
    let mut count = 0;
    let mut used = 0;
    'matches: loop {
        match matches.next_groups() {
            Ok(Some((own, caps))) => {
                if is_full::<M::Sought>(reported, count) || spans.len() - used < caps.len() {
                    return or_none(
                        count,
                        NO_ROOM,
                        reported_without_buffer::<M::Sought>(caps.len()),
                    );
                }
                put_groups(&caps, spans, used);
                put_reported::<M::Sought>(reported, count, own);
                *walk = MatchWalk::after(&Span::of_group(caps.get(0)));
                used += caps.len();
                count += 1;
            }
            Ok(None) => return or_none(count, NO, 0),
            Err(_) => return (OUT_OF_MEMORY, count),
        }
    }
}

/// Whether the buffer for what is written of each match besides spans is full after this many
/// matches.
fn is_full<P: Written>(reported: &[P::Reported], count: usize) -> bool
    ensures { IsTrue result ↔ IsFull P.kind reported.now count }
{
    P::is_reported() && reported.len() == count
}

/// The number to write if there is no room for a match with this many groups.
fn reported_without_buffer<P: Written>(groups: usize) -> usize
    ensures { result ≡ cond P.kind.is_reported groups 0 }
{
    if P::is_reported() { groups } else { 0 }
}

/// Writes what is to be written of a match besides spans, if anything is.
fn put_reported<P: Written>(reported: &mut [P::Reported], at: usize, own: P::Reported)
    requires { P.kind.is_reported ≡ true → at < length reported.old }
    ensures { P.kind.is_reported ≡ true → reported.new ≡ slice_set reported.old at own }
{
    if P::is_reported() {
        reported[at] = own;
    }
}

/// Yes with the number of matches if there are any, and otherwise this answer and this number.
fn or_none(count: usize, answer: u32, number: usize) -> (u32, usize)
    ensures some { 0 < count → result ≡ (YES, count) }
    ensures none { count ≡ 0 → result ≡ (answer, number) }
{
    if count > 0 {
        (YES, count)
    } else {
        (answer, number)
    }
}
