//! Anchored searches: they find a match that starts at the offset.
ghost use Rattle.std.specs.Prelude.{◌≡◌, ◌≢◌, ◌↔◌, IfSome, None};
ghost use Rattle.regex_lite.specs.MatchOffsets.{MatchesAt};
ghost use Rattle.regex_lite_c.specs.Anchored.{FindsSpanAt, TellsSpanAt};
ghost use Rattle.regex_lite_c.specs.Answers.{IsSearchAnswer};
ghost use Rattle.regex_lite_c.specs.GroupAnswers.{IsAnchoredGroupsAnswer};

use crate::answer::{NOTHING_HELD, YES};
use crate::groups::captures;
use crate::handle::{Handle, Holds};
use crate::search::{find, is_match};
use crate::sought::Search;
use crate::types::Span;
use regex_lite::{Captures, Error, Regex};
use std::alloc::Global;

/// An anchored search for what it borrows.
#[derive(Drop)]
pub(crate) struct SoughtAt<'r, P> {
    /// What is searched for.
    pub(crate) sought: &'r P,
}

impl<'r> Search for SoughtAt<'r, Regex> {
    ghost use Rattle.regex_lite_c.specs.SearchKinds.{anchored_regex_search};

    type Span = Span;

    type Reported = usize;

    ghost search = { anchored_regex_search };

    fn has_match(&self, text: &str, start: usize) -> Result<bool, Error> {
        self.sought.is_match_anchored_at(text, start)
    }

    fn first_span(&self, text: &str, start: usize) -> Result<Option<Span>, Error> {
        match self.sought.find_anchored_at(text, start)? {
            Some(found) => Ok(Some(Span::of(&found))),
            None => Ok(None),
        }
    }

    fn first_groups<'h>(
        &self,
        text: &'h str,
        start: usize,
    ) -> Result<Option<(usize, Captures<'h>)>, Error> {
        match self.sought.captures_anchored_at(text, start)? {
            Some(caps) => Ok(Some((caps.len(), caps))),
            None => Ok(None),
        }
    }
}

/// Whether the pattern matches at this offset: 1 or 0.
#[unsafe(no_mangle)]
pub extern "C" fn regex_lite_is_match_anchored(
    alloc: Global,
    handle: &mut Handle,
    text: &[u8],
    start: usize,
) -> u32
    ensures same { handle.new.value ≡ handle.old.value }
    ensures nothing_held { (result ≡ NOTHING_HELD) ↔ (handle.old.value ≡ None) }
    ensures answer { IfSome handle.old.value (λ re. IsSearchAnswer text.now start result
        (MatchesAt re text.now start) (MatchesAt re text.now start → ⊥)) }
{
    let Some(regex) = handle.take(alloc) else {
        return NOTHING_HELD;
    };
    let answer = is_match(&SoughtAt { sought: &*regex }, text, start);
    handle.put(regex);
    answer
}

/// The match that starts at this offset, the one that the pattern prefers if there are several: 1
/// with its span written, or 0.
#[unsafe(no_mangle)]
pub extern "C" fn regex_lite_find_anchored(
    alloc: Global,
    handle: &mut Handle,
    text: &[u8],
    start: usize,
    span: &mut Span,
) -> u32
    ensures same { handle.new.value ≡ handle.old.value }
    ensures nothing_held { (result ≡ NOTHING_HELD) ↔ (handle.old.value ≡ None) }
    ensures answer { IfSome handle.old.value (λ re. IsSearchAnswer text.now start result
        (FindsSpanAt re text.now start span.new) (TellsSpanAt re text.now start None)) }
    ensures written { result ≢ YES → span.new ≡ span.old }
{
    let Some(regex) = handle.take(alloc) else {
        return NOTHING_HELD;
    };
    let answer = find(&SoughtAt { sought: &*regex }, text, start, span);
    handle.put(regex);
    answer
}

/// The groups of the match that `regex_lite_find_anchored` finds: 1 with their spans written,
/// beginning with the whole match, or 0. With a match, the number of groups is written either way.
#[unsafe(no_mangle)]
pub extern "C" fn regex_lite_captures_anchored(
    alloc: Global,
    handle: &mut Handle,
    text: &[u8],
    start: usize,
    spans: &mut [Span],
    count: &mut usize,
) -> u32
    ensures same { handle.new.value ≡ handle.old.value }
    ensures nothing_held { handle.old.value ≡ None → (result ≡ NOTHING_HELD)
        × (spans.new ≡ spans.old) × (count.new ≡ count.old) }
    ensures answer { IfSome handle.old.value (λ re. IsAnchoredGroupsAnswer re text.now start
        spans.old spans.new count.old count.new result) }
{
    let Some(regex) = handle.take(alloc) else {
        return NOTHING_HELD;
    };
    let answer = captures(&SoughtAt { sought: &*regex }, text, start, spans, count);
    handle.put(regex);
    answer
}
