//! The first matches in many texts, which are searched with one searcher.
ghost use Rattle.std.specs.Prelude.{◌≡◌, ◌↔◌, ◌≤◌, IfSome, IsTrue, None, length};
ghost use Rattle.regex_lite_c.specs.Each.{AreFoundEach, AreTextLengths, IsEachAnswer};

use crate::answer::{BAD_OFFSET, NO_ROOM, NOT_TEXT, NOTHING_HELD, OUT_OF_MEMORY, YES};
use crate::handle::{Handle, Holds};
use crate::types::Span;
use regex_lite::{Regex, RegexSearcher};
use std::alloc::Global;

/// The first match in each of several texts, whose bytes are concatenated: 1 with a span written
/// for each text, which is none if the text has no match.
///
/// The lengths of the texts have to add up to that of the bytes, and each text has to end on a
/// character boundary; otherwise the answer is that of a bad offset. The searches reuse the
/// transitions that earlier searches have cached.
#[unsafe(no_mangle)]
pub extern "C" fn regex_lite_find_each(
    alloc: Global,
    handle: &mut Handle,
    texts: &[u8],
    lens: &[usize],
    spans: &mut [Span],
) -> u32
    ensures same { handle.new.value ≡ handle.old.value }
    ensures nothing_held { handle.old.value ≡ None
        → (result ≡ NOTHING_HELD) × (spans.new ≡ spans.old) }
    ensures answer { IfSome handle.old.value (λ re.
        IsEachAnswer re texts.now lens.now spans.old spans.new result) }
{
    let Some(regex) = handle.take(alloc) else {
        return NOTHING_HELD;
    };
    let answer = find_each(&regex, texts, lens, spans);
    handle.put(regex);
    answer
}

/// The first matches of this regex.
fn find_each(regex: &Regex, texts: &[u8], lens: &[usize], spans: &mut [Span]) -> u32
    ensures { IsEachAnswer regex.now texts.now lens.now spans.old spans.new result }
{
    let Ok(texts) = std::str::from_utf8(texts) else {
        return NOT_TEXT;
    };
    if !are_lengths(texts, lens) {
        return BAD_OFFSET;
    }
    if spans.len() < lens.len() {
        return NO_ROOM;
    }
    match regex.searcher() {
        Ok(mut searcher) => {
            put_each(&mut searcher, texts, lens, spans);
            YES
        }
        Err(_) => OUT_OF_MEMORY,
    }
}

/// Whether the bytes are texts of these lengths, one after another.
fn are_lengths(texts: &str, lens: &[usize]) -> bool
    ensures { IsTrue result ↔ AreTextLengths texts.now 0 lens.now }
{
    let mut at = 0;
    for len in lens {
        if texts.len() - at < *len {
            return false;
        }
        at += *len;
        if !texts.is_char_boundary(at) {
            return false;
        }
    }
    at == texts.len()
}

/// Writes the first match in each of these texts.
fn put_each(searcher: &mut RegexSearcher<'_>, texts: &str, lens: &[usize], spans: &mut [Span])
    requires lengths { AreTextLengths texts.now 0 lens.now }
    requires buffer { length lens.now ≤ length spans.old }
    ensures { AreFoundEach searcher.old texts.now lens.now spans.old spans.new }
{
    let mut at = 0;
    for k in 0..lens.len() {
        let end = at + lens[k];
        spans[k] = Span::of_group(searcher.find(&texts[at..end]));
        at = end;
    }
}
