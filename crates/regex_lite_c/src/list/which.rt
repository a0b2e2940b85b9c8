//! Which of several patterns match, written to the caller's bytes.
ghost use Rattle.std.specs.Prelude.{◌≡◌, ◌<◌, ◌≤◌, IfSome, None, length};
ghost use Rattle.regex_lite.specs.RegexListSearches.{TellsWhichMatch};
ghost use Rattle.regex_lite_c.specs.Answers.{IsSaid};
ghost use Rattle.regex_lite_c.specs.ListSpans.{IsFlagsAnswer, flag_of};
ghost use Rattle.regex_lite_c.specs.Spans.{AreWrittenAs};

use crate::answer::{NO_ROOM, NOTHING_HELD, OUT_OF_MEMORY, YES};
use crate::handle::{ListHandle, ask};
use crate::text::text_from;
use regex_lite::{RegexList, SetMatches};
use std::alloc::Global;

/// Which of the patterns match somewhere from this offset on: 1 with a byte written for each
/// pattern by its number, 1 if it matches and 0 if it doesn't. The number of patterns is written
/// even if the bytes don't fit.
#[unsafe(no_mangle)]
pub extern "C" fn regex_lite_list_matches(
    alloc: Global,
    handle: &mut ListHandle,
    text: &[u8],
    start: usize,
    matched: &mut [u8],
    count: &mut usize,
) -> u32
    ensures same { handle.new.value ≡ handle.old.value }
    ensures nothing_held { handle.old.value ≡ None → (result ≡ NOTHING_HELD)
        × (matched.new ≡ matched.old) × (count.new ≡ count.old) }
    ensures answer { IfSome handle.old.value (λ list. IsFlagsAnswer list text.now start
        matched.old matched.new count.old count.new result) }
{
    match ask(
        alloc,
        handle,
        Err(NOTHING_HELD),
        |list| matches(list, text, start),
    ) {
        Ok(set) => write_flags(&set, matched, count),
        Err(answer) => answer,
    }
}

/// Which of these patterns match, or the answer that says why the search failed.
fn matches(list: &RegexList, text: &[u8], start: usize) -> Result<SetMatches, u32>
    ensures { IsSaid text.now start (TellsWhichMatch list.now text.now start) result }
{
    let text = text_from(text, start)?;
    list.matches_at(text, start).map_err(|_| OUT_OF_MEMORY)
}

/// Writes for each pattern whether it matches, or nothing if the buffer is too small, and writes
/// the number of patterns.
fn write_flags(set: &SetMatches, matched: &mut [u8], count: &mut usize) -> u32
    ensures count { count.new ≡ length set.now }
    ensures written { count.new ≤ length matched.old → (result ≡ YES)
        × AreWrittenAs flag_of set.now matched.old matched.new }
    ensures no_room { length matched.old < count.new
        → (result ≡ NO_ROOM) × (matched.new ≡ matched.old) }
{
    *count = set.len();
    if matched.len() < *count {
        return NO_ROOM;
    }
    put_flags(set, matched);
    YES
}

/// Writes for each pattern whether it matches.
fn put_flags(set: &SetMatches, matched: &mut [u8])
    requires { length set.now ≤ length matched.old }
    ensures { AreWrittenAs flag_of set.now matched.old matched.new }
{
    for k in 0..set.len() {
        matched[k] = flag(set.matched(k));
    }
}

/// 1 for a pattern that matches, and 0 for one that doesn't.
fn flag(is_match: bool) -> u8
    ensures { result ≡ flag_of is_match }
{
    if is_match { 1 } else { 0 }
}
