//! The pieces of a text before, between and after its matches, in batches.
ghost use Rattle.std.specs.Prelude.{◌≡◌, ◌<◌, ◌≤◌, IfSome, None, length, false};
ghost use Rattle.regex_lite.specs.Ahead.{ahead_of};
ghost use Rattle.regex_lite_c.specs.Cuts.{ArePiecesListed, IsCutAnswer};
ghost use Rattle.regex_lite_c.specs.Walks.{ended_of};

use crate::answer::{NO, NO_ROOM, NOTHING_HELD, OUT_OF_MEMORY, YES};
use crate::handle::{Handle, Holds};
use crate::text::text_from;
use crate::types::{Cut, MatchWalk, Span};
use regex_lite::{Matches, Regex};
use std::alloc::Global;

/// The next pieces of a text, as many as fit: 1 with their spans written, or 0 if none is left. The
/// number of these pieces is written too, and the cut moves past the last of them.
///
/// They are the texts before the first match of `regex_lite_find_all`, between two consecutive
/// matches, and after the last match, so there is one more piece than matches. A piece may be
/// empty.
#[unsafe(no_mangle)]
pub extern "C" fn regex_lite_split(
    alloc: Global,
    handle: &mut Handle,
    text: &[u8],
    cut: &mut Cut,
    pieces: &mut [Span],
    count: &mut usize,
) -> u32
    ensures same { handle.new.value ≡ handle.old.value }
    ensures nothing_held { handle.old.value ≡ None → (result ≡ NOTHING_HELD)
        × (cut.new ≡ cut.old) × (pieces.new ≡ pieces.old) × (count.new ≡ 0) }
    ensures answer { IfSome handle.old.value (λ re. IsCutAnswer re text.now cut.old cut.new
        pieces.old pieces.new count.new result) }
{
    *count = 0;
    let Some(regex) = handle.take(alloc) else {
        return NOTHING_HELD;
    };
    let answer = split(&regex, text, cut, pieces, count);
    handle.put(regex);
    answer
}

/// The next pieces at the matches of this regex.
fn split(regex: &Regex, text: &[u8], cut: &mut Cut, pieces: &mut [Span], count: &mut usize) -> u32
    requires { count.old ≡ 0 }
    ensures { IsCutAnswer regex.now text.now cut.old cut.new pieces.old pieces.new count.new
        result }
{
    let ended = cut.walk.ended();
    let text = match text_from(text, ended.unwrap_or(0)) {
        Ok(text) => text,
        Err(refusal) => return refusal,
    };
    if cut.is_over {
        return NO;
    }
    if pieces.is_empty() {
        return NO_ROOM;
    }
    match regex.find_iter_after(text, ended) {
        Ok(mut matches) => {
            *count = put_pieces(&mut matches, text.len(), cut, pieces);
            YES
        }
        Err(_) => OUT_OF_MEMORY,
    }
}

/// Writes the next pieces, and returns their number.
fn put_pieces(
    matches: &mut Matches<'_, '_>,
    len: usize,
    cut: &mut Cut,
    pieces: &mut [Span],
) -> usize
    requires all { (ahead_of matches.old).limit ≡ None }
    requires len { len ≡ length (ahead_of matches.old).haystack }
    requires begun { cut.old.is_over ≡ false }
    ensures listed { ArePiecesListed (ahead_of matches.old) (ended_of cut.old.walk) cut.new
        pieces.old pieces.new result }
    ensures some { 0 < length pieces.old → 0 < result }
{
    for k in 0..pieces.len() {
        let from = cut.walk.ended().unwrap_or(0);
        match matches.next() {
            Some(found) => {
                pieces[k] = Span::between(from, found.start());
                cut.walk = MatchWalk::after(&Span::of(&found));
            }
            None => {
                pieces[k] = Span::between(from, len);
                cut.is_over = true;
                return k + 1;
            }
        }
    }
    pieces.len()
}
