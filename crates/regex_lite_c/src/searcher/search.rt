//! Searches in the text of a searcher.
ghost use Rattle.std.specs.Prelude.{◌≡◌, ◌≢◌, ◌↔◌, IfSome, MatchOption, None, Some};
ghost use Rattle.regex_lite.specs.MatchViews.{span_of_match};
ghost use Rattle.regex_lite.specs.Searches.{MatchesFrom};
ghost use Rattle.regex_lite_c.specs.Answers.{IsSearchAnswer};
ghost use Rattle.regex_lite_c.specs.SearcherAnswers.{IsSpansAnswer};
ghost use Rattle.regex_lite_c.specs.Spans.{FindsSpan, TellsSpan, span_of};

use crate::answer::{BAD_OFFSET, NO, NOTHING_HELD, YES, answer_of};
use crate::groups::write_groups;
use crate::handle::{Holds, SearcherHandle};
use crate::searcher::TextSearcher;
use crate::types::Span;
use regex_lite::Match;
use std::alloc::Global;

/// Whether the pattern matches somewhere in the text: 1 or 0.
#[unsafe(no_mangle)]
pub extern "C" fn regex_lite_searcher_is_match(alloc: Global, handle: &mut SearcherHandle) -> u32
    ensures same { handle.new.value ≡ handle.old.value }
    ensures nothing_held { (result ≡ NOTHING_HELD) ↔ (handle.old.value ≡ None) }
    ensures answer { IfSome handle.old.value (λ own. IsSearchAnswer own.text 0 result
        (MatchesFrom own.re own.text 0) (MatchesFrom own.re own.text 0 → ⊥)) }
{
    let Some(mut searcher) = handle.take(alloc) else {
        return NOTHING_HELD;
    };
    let answer = searcher.is_match();
    handle.put(searcher);
    answer
}

/// The match that starts first from this offset on: 1 with its span written, or 0.
#[unsafe(no_mangle)]
pub extern "C" fn regex_lite_searcher_find(
    alloc: Global,
    handle: &mut SearcherHandle,
    start: usize,
    span: &mut Span,
) -> u32
    ensures same { handle.new.value ≡ handle.old.value }
    ensures nothing_held { (result ≡ NOTHING_HELD) ↔ (handle.old.value ≡ None) }
    ensures answer { IfSome handle.old.value (λ own. IsSearchAnswer own.text start result
        (FindsSpan own.re own.text start span.new) (TellsSpan own.re own.text start None)) }
    ensures written { result ≢ YES → span.new ≡ span.old }
{
    let Some(mut searcher) = handle.take(alloc) else {
        return NOTHING_HELD;
    };
    let answer = searcher.find(start, span);
    handle.put(searcher);
    answer
}

/// The groups of the match that `regex_lite_searcher_find` finds: 1 with their spans written,
/// beginning with the whole match, or 0. With a match, the number of groups is written either way.
#[unsafe(no_mangle)]
pub extern "C" fn regex_lite_searcher_captures(
    alloc: Global,
    handle: &mut SearcherHandle,
    start: usize,
    spans: &mut [Span],
    count: &mut usize,
) -> u32
    ensures same { handle.new.value ≡ handle.old.value }
    ensures nothing_held { handle.old.value ≡ None → (result ≡ NOTHING_HELD)
        × (spans.new ≡ spans.old) × (count.new ≡ count.old) }
    ensures answer { IfSome handle.old.value (λ own.
        IsSpansAnswer own start spans.old spans.new count.old count.new result) }
{
    let Some(mut searcher) = handle.take(alloc) else {
        return NOTHING_HELD;
    };
    let answer = searcher.captures(start, spans, count);
    handle.put(searcher);
    answer
}

impl TextSearcher {
    /// Whether the pattern matches.
    fn is_match(&mut self) -> u32
        ensures answer { IsSearchAnswer self.old.text 0 result
            (MatchesFrom self.old.re self.old.text 0)
            (MatchesFrom self.old.re self.old.text 0 → ⊥) }
        ensures held { result ≢ NOTHING_HELD }
        ensures same { self.new ≡ self.old }
    {
        answer_of(self.searcher.is_match(self.text.as_str()))
    }

    /// The match that starts first from this offset on.
    fn find(&mut self, start: usize, span: &mut Span) -> u32
        ensures answer { IsSearchAnswer self.old.text start result
            (FindsSpan self.old.re self.old.text start span.new)
            (TellsSpan self.old.re self.old.text start None) }
        ensures held { result ≢ NOTHING_HELD }
        ensures written { result ≢ YES → span.new ≡ span.old }
        ensures same { self.new ≡ self.old }
    {
        let text = self.text.as_str();
        if !text.is_char_boundary(start) {
            return BAD_OFFSET;
        }
        write_match(self.searcher.find_at(text, start), span)
    }

    /// The groups of the match that starts first from this offset on.
    fn captures(&mut self, start: usize, spans: &mut [Span], count: &mut usize) -> u32
        ensures answer { IsSpansAnswer self.old start spans.old spans.new count.old count.new
            result }
        ensures same { self.new ≡ self.old }
    {
        let text = self.text.as_str();
        if !text.is_char_boundary(start) {
            return BAD_OFFSET;
        }
        let found = self
            .searcher
            .captures_read_at(&mut self.groups, text, start);
        let Some(_) = found else {
            return NO;
        };
        *count = self.groups.len();
        write_groups(&self.groups, spans)
    }
}

/// Writes the span of a match, if there is one.
pub(super) fn write_match(found: Option<Match<'_>>, span: &mut Span) -> u32
    ensures { MatchOption found.entry ((result ≡ NO) × (span.new ≡ span.old))
        (λ found. (result ≡ YES) × (span.new ≡ span_of (Some (span_of_match found)))) }
{
    match found {
        Some(found) => {
            *span = Span::of(&found);
            YES
        }
        None => NO,
    }
}
