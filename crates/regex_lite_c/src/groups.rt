//! The groups of a match, written to the caller's spans.
ghost use Rattle.std.specs.Prelude.{◌≡◌, ◌+◌, ◌<◌, ◌≤◌, ℕ, List, Option, IfSome, None, length};
ghost use Rattle.regex_lite.specs.Groups.{span_at};
ghost use Rattle.regex_lite_c.specs.GroupAnswers.{IsGroupsAnswer, IsGroupsAnswerOf};
ghost use Rattle.regex_lite_c.specs.Spans.{AreWritten, AreWrittenAt, span_of};

use crate::answer::{NO, NO_ROOM, NOTHING_HELD, OUT_OF_MEMORY, YES};
use crate::handle::{Handle, Holds};
use crate::sought::Search;
use crate::text::text_from;
use crate::types::Span;
use regex_lite::{CaptureLocations, Captures};
use std::alloc::Global;

/// The groups of the match that starts first from this offset on: 1 with their spans written,
/// beginning with the whole match, or 0. With a match, the number of groups is written either way.
#[unsafe(no_mangle)]
pub extern "C" fn regex_lite_captures(
    alloc: Global,
    handle: &mut Handle,
    text: &[u8],
    start: usize,
    spans: &mut [Span],
    count: &mut usize,
) -> u32
    ensures same { handle.new.value ≡ handle.old.value }
    ensures nothing_held { handle.old.value ≡ None → (result ≡ NOTHING_HELD)
        × (spans.new ≡ spans.old) × (count.new ≡ count.old) }
    ensures answer { IfSome handle.old.value (λ re.
        IsGroupsAnswer re text.now start spans.old spans.new count.old count.new result) }
{
    let Some(regex) = handle.take(alloc) else {
        return NOTHING_HELD;
    };
    let answer = captures(&*regex, text, start, spans, count);
    handle.put(regex);
    answer
}

/// The groups of the match that this search finds.
pub(crate) fn captures<P: Search>(
    search: &P,
    text: &[u8],
    start: usize,
    spans: &mut [Span],
    reported: &mut P::Reported,
) -> u32
    requires { P.can_search search.now }
    ensures { IsGroupsAnswerOf (P.search.AreFirst search.now text.now start)
        (P.search.AreNone search.now text.now start) text.now start spans.old spans.new
        reported.old reported.new result }
{
    let text = match text_from(text, start) {
        Ok(text) => text,
        Err(refusal) => return refusal,
    };
    match search.first_groups(text, start) {
        Ok(Some((own, caps))) => {
            *reported = own;
            write_groups(&caps, spans)
        }
        Ok(None) => NO,
        Err(_) => OUT_OF_MEMORY,
    }
}

/// The groups of a match, as spans to write.
pub(crate) trait GroupSpans {
    ghost spans: { Self → List (Option (ℕ × ℕ)) };

    /// The number of groups.
    fn count(&self) -> usize
        ensures { result ≡ length (spans self.now) };

    /// The span to write for the group with this index.
    fn span_at(&self, index: usize) -> Span
        ensures { result ≡ span_of (span_at (spans self.now) index) };
}

impl<'h> GroupSpans for Captures<'h> {
    ghost spans = { λ caps. caps.spans };

    fn count(&self) -> usize {
        self.len()
    }

    fn span_at(&self, index: usize) -> Span {
        Span::of_group(self.get(index))
    }
}

impl GroupSpans for CaptureLocations {
    ghost spans = { λ locations. locations };

    fn count(&self) -> usize {
        self.len()
    }

    fn span_at(&self, index: usize) -> Span {
        match self.get(index) {
            Some((start, end)) => Span::between(start, end),
            None => Span::none(),
        }
    }
}

/// Writes these groups, or nothing if they don't fit.
pub(crate) fn write_groups<G: GroupSpans>(groups: &G, spans: &mut [Span]) -> u32
    ensures written { length (G.spans groups.now) ≤ length spans.old
        → (result ≡ YES) × AreWritten (G.spans groups.now) spans.old spans.new }
    ensures no_room { length spans.old < length (G.spans groups.now)
        → (result ≡ NO_ROOM) × (spans.new ≡ spans.old) }
{
    if spans.len() < groups.count() {
        return NO_ROOM;
    }
    put_groups(groups, spans, 0);
    YES
}

/// Writes these groups from this index on.
pub(crate) fn put_groups<G: GroupSpans>(groups: &G, spans: &mut [Span], at: usize)
    requires { at + length (G.spans groups.now) ≤ length spans.old }
    ensures { AreWrittenAt at (G.spans groups.now) spans.old spans.new }
{
    for k in 0..groups.count() {
        spans[at + k] = groups.span_at(k);
    }
}
