//! Anchored searches and whole matches in the text of a searcher.
ghost use Rattle.std.specs.Prelude.{◌≡◌, ◌≢◌, ◌↔◌, IfSome, None, length};
ghost use Rattle.regex_lite.specs.MatchOffsets.{MatchesAt, MatchesSpan};
ghost use Rattle.regex_lite_c.specs.Anchored.{FindsSpanAt, TellsSpanAt};
ghost use Rattle.regex_lite_c.specs.Answers.{IsSearchAnswer};
ghost use Rattle.regex_lite_c.specs.SearcherAnswers.{IsSpansAnswerAt};
ghost use Rattle.regex_lite_c.specs.Whole.{FindsWholeSpan, TellsWholeSpan};

use crate::answer::{BAD_OFFSET, NO, NOTHING_HELD, YES, answer_of};
use crate::groups::write_groups;
use crate::handle::{Holds, SearcherHandle};
use crate::searcher::TextSearcher;
use crate::searcher::search::write_match;
use crate::types::Span;
use std::alloc::Global;

/// Whether the pattern matches at this offset: 1 or 0.
#[unsafe(no_mangle)]
pub extern "C" fn regex_lite_searcher_is_match_anchored(
    alloc: Global,
    handle: &mut SearcherHandle,
    start: usize,
) -> u32
    ensures same { handle.new.value ≡ handle.old.value }
    ensures nothing_held { (result ≡ NOTHING_HELD) ↔ (handle.old.value ≡ None) }
    ensures answer { IfSome handle.old.value (λ own. IsSearchAnswer own.text start result
        (MatchesAt own.re own.text start) (MatchesAt own.re own.text start → ⊥)) }
{
    let Some(mut searcher) = handle.take(alloc) else {
        return NOTHING_HELD;
    };
    let answer = searcher.is_match_anchored(start);
    handle.put(searcher);
    answer
}

/// The match that starts at this offset, the one that the pattern prefers if there are several: 1
/// with its span written, or 0.
#[unsafe(no_mangle)]
pub extern "C" fn regex_lite_searcher_find_anchored(
    alloc: Global,
    handle: &mut SearcherHandle,
    start: usize,
    span: &mut Span,
) -> u32
    ensures same { handle.new.value ≡ handle.old.value }
    ensures nothing_held { (result ≡ NOTHING_HELD) ↔ (handle.old.value ≡ None) }
    ensures answer { IfSome handle.old.value (λ own. IsSearchAnswer own.text start result
        (FindsSpanAt own.re own.text start span.new) (TellsSpanAt own.re own.text start None)) }
    ensures written { result ≢ YES → span.new ≡ span.old }
{
    let Some(mut searcher) = handle.take(alloc) else {
        return NOTHING_HELD;
    };
    let answer = searcher.find_anchored(start, span);
    handle.put(searcher);
    answer
}

/// The groups of the match that `regex_lite_searcher_find_anchored` finds: 1 with their spans
/// written, beginning with the whole match, or 0. With a match, the number of groups is written
/// either way.
#[unsafe(no_mangle)]
pub extern "C" fn regex_lite_searcher_captures_anchored(
    alloc: Global,
    handle: &mut SearcherHandle,
    start: usize,
    spans: &mut [Span],
    count: &mut usize,
) -> u32
    ensures same { handle.new.value ≡ handle.old.value }
    ensures nothing_held { handle.old.value ≡ None → (result ≡ NOTHING_HELD)
        × (spans.new ≡ spans.old) × (count.new ≡ count.old) }
    ensures answer { IfSome handle.old.value (λ own.
        IsSpansAnswerAt own start spans.old spans.new count.old count.new result) }
{
    let Some(mut searcher) = handle.take(alloc) else {
        return NOTHING_HELD;
    };
    let answer = searcher.captures_anchored(start, spans, count);
    handle.put(searcher);
    answer
}

/// Whether the pattern matches the whole text: 1 or 0.
#[unsafe(no_mangle)]
pub extern "C" fn regex_lite_searcher_is_full_match(
    alloc: Global,
    handle: &mut SearcherHandle,
) -> u32
    ensures same { handle.new.value ≡ handle.old.value }
    ensures nothing_held { (result ≡ NOTHING_HELD) ↔ (handle.old.value ≡ None) }
    ensures answer { IfSome handle.old.value (λ own. IsSearchAnswer own.text 0 result
        (MatchesSpan own.re own.text (0, length own.text))
        (MatchesSpan own.re own.text (0, length own.text) → ⊥)) }
{
    let Some(mut searcher) = handle.take(alloc) else {
        return NOTHING_HELD;
    };
    let answer = searcher.is_full_match();
    handle.put(searcher);
    answer
}

/// The match of the whole text: 1 with its span written, or 0.
#[unsafe(no_mangle)]
pub extern "C" fn regex_lite_searcher_full_match(
    alloc: Global,
    handle: &mut SearcherHandle,
    span: &mut Span,
) -> u32
    ensures same { handle.new.value ≡ handle.old.value }
    ensures nothing_held { (result ≡ NOTHING_HELD) ↔ (handle.old.value ≡ None) }
    ensures answer { IfSome handle.old.value (λ own. IsSearchAnswer own.text 0 result
        (FindsWholeSpan own.re own.text span.new) (TellsWholeSpan own.re own.text None)) }
    ensures written { result ≢ YES → span.new ≡ span.old }
{
    let Some(mut searcher) = handle.take(alloc) else {
        return NOTHING_HELD;
    };
    let answer = searcher.full_match(span);
    handle.put(searcher);
    answer
}

impl TextSearcher {
    /// Whether a match starts at this offset.
    fn is_match_anchored(&mut self, start: usize) -> u32
        ensures answer { IsSearchAnswer self.old.text start result
            (MatchesAt self.old.re self.old.text start)
            (MatchesAt self.old.re self.old.text start → ⊥) }
        ensures held { result ≢ NOTHING_HELD }
        ensures same { self.new ≡ self.old }
    {
        let text = self.text.as_str();
        if !text.is_char_boundary(start) {
            return BAD_OFFSET;
        }
        answer_of(self.searcher.is_match_anchored_at(text, start))
    }

    /// The match that starts at this offset.
    fn find_anchored(&mut self, start: usize, span: &mut Span) -> u32
        ensures answer { IsSearchAnswer self.old.text start result
            (FindsSpanAt self.old.re self.old.text start span.new)
            (TellsSpanAt self.old.re self.old.text start None) }
        ensures held { result ≢ NOTHING_HELD }
        ensures written { result ≢ YES → span.new ≡ span.old }
        ensures same { self.new ≡ self.old }
    {
        let text = self.text.as_str();
        if !text.is_char_boundary(start) {
            return BAD_OFFSET;
        }
        write_match(self.searcher.find_anchored_at(text, start), span)
    }

    /// The groups of the match that starts at this offset.
    fn captures_anchored(&mut self, start: usize, spans: &mut [Span], count: &mut usize) -> u32
        ensures answer { IsSpansAnswerAt self.old start spans.old spans.new count.old count.new
            result }
        ensures same { self.new ≡ self.old }
    {
        let text = self.text.as_str();
        if !text.is_char_boundary(start) {
            return BAD_OFFSET;
        }
        let found = self
            .searcher
            .captures_read_anchored_at(&mut self.groups, text, start);
        let Some(_) = found else {
            return NO;
        };
        *count = self.groups.len();
        write_groups(&self.groups, spans)
    }

    /// Whether the pattern matches the whole text.
    fn is_full_match(&mut self) -> u32
        ensures answer { IsSearchAnswer self.old.text 0 result
            (MatchesSpan self.old.re self.old.text (0, length self.old.text))
            (MatchesSpan self.old.re self.old.text (0, length self.old.text) → ⊥) }
        ensures held { result ≢ NOTHING_HELD }
        ensures same { self.new ≡ self.old }
    {
        answer_of(self.searcher.is_full_match(self.text.as_str()))
    }

    /// The match of the whole text.
    fn full_match(&mut self, span: &mut Span) -> u32
        ensures answer { IsSearchAnswer self.old.text 0 result
            (FindsWholeSpan self.old.re self.old.text span.new)
            (TellsWholeSpan self.old.re self.old.text None) }
        ensures held { result ≢ NOTHING_HELD }
        ensures written { result ≢ YES → span.new ≡ span.old }
        ensures same { self.new ≡ self.old }
    {
        write_match(self.searcher.full_match(self.text.as_str()), span)
    }
}
