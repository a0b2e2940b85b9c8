//! Whole matches: matches of the whole text.
ghost use Rattle.std.specs.Prelude.{◌≡◌, ◌≢◌, ◌↔◌, IfSome, None, length};
ghost use Rattle.regex_lite.specs.MatchOffsets.{MatchesSpan};
ghost use Rattle.regex_lite_c.specs.Answers.{IsSearchAnswer};
ghost use Rattle.regex_lite_c.specs.GroupAnswers.{IsWholeGroupsAnswer};
ghost use Rattle.regex_lite_c.specs.Whole.{FindsWholeSpan, TellsWholeSpan};

use crate::answer::{NOTHING_HELD, YES};
use crate::groups::captures;
use crate::handle::{Handle, Holds};
use crate::search::{find, is_match};
use crate::sought::Search;
use crate::types::Span;
use regex_lite::{Captures, Error, Regex};
use std::alloc::Global;

/// A search for a match of the whole text, for what it borrows. It begins at the text's start,
/// whatever start it is given.
#[derive(Drop)]
pub(crate) struct Whole<'r, P> {
    /// What is searched for.
    pub(crate) sought: &'r P,
}

impl<'r> Search for Whole<'r, Regex> {
    ghost use Rattle.regex_lite_c.specs.SearchKinds.{whole_regex_search};

    type Span = Span;

    type Reported = usize;

    ghost search = { whole_regex_search };

    fn has_match(&self, text: &str, _: usize) -> Result<bool, Error> {
        self.sought.is_full_match(text)
    }

    fn first_span(&self, text: &str, _: usize) -> Result<Option<Span>, Error> {
        match self.sought.full_match(text)? {
            Some(found) => Ok(Some(Span::of(&found))),
            None => Ok(None),
        }
    }

    fn first_groups<'h>(
        &self,
        text: &'h str,
        _: usize,
    ) -> Result<Option<(usize, Captures<'h>)>, Error> {
        match self.sought.full_captures(text)? {
            Some(caps) => Ok(Some((caps.len(), caps))),
            None => Ok(None),
        }
    }
}

/// Whether the pattern matches the whole text: 1 or 0.
#[unsafe(no_mangle)]
pub extern "C" fn regex_lite_is_full_match(alloc: Global, handle: &mut Handle, text: &[u8]) -> u32
    ensures same { handle.new.value ≡ handle.old.value }
    ensures nothing_held { (result ≡ NOTHING_HELD) ↔ (handle.old.value ≡ None) }
    ensures answer { IfSome handle.old.value (λ re. IsSearchAnswer text.now 0 result
        (MatchesSpan re text.now (0, length text.now))
        (MatchesSpan re text.now (0, length text.now) → ⊥)) }
{
    let Some(regex) = handle.take(alloc) else {
        return NOTHING_HELD;
    };
    let answer = is_match(&Whole { sought: &*regex }, text, 0);
    handle.put(regex);
    answer
}

/// The match of the whole text: 1 with its span written, or 0.
#[unsafe(no_mangle)]
pub extern "C" fn regex_lite_full_match(
    alloc: Global,
    handle: &mut Handle,
    text: &[u8],
    span: &mut Span,
) -> u32
    ensures same { handle.new.value ≡ handle.old.value }
    ensures nothing_held { (result ≡ NOTHING_HELD) ↔ (handle.old.value ≡ None) }
    ensures answer { IfSome handle.old.value (λ re. IsSearchAnswer text.now 0 result
        (FindsWholeSpan re text.now span.new) (TellsWholeSpan re text.now None)) }
    ensures written { result ≢ YES → span.new ≡ span.old }
{
    let Some(regex) = handle.take(alloc) else {
        return NOTHING_HELD;
    };
    let answer = find(&Whole { sought: &*regex }, text, 0, span);
    handle.put(regex);
    answer
}

/// The groups of the match of the whole text, of the preferred way in which the pattern matches it:
/// 1 with their spans written, beginning with the whole match, or 0. With a match, the number of
/// groups is written either way.
#[unsafe(no_mangle)]
pub extern "C" fn regex_lite_full_captures(
    alloc: Global,
    handle: &mut Handle,
    text: &[u8],
    spans: &mut [Span],
    count: &mut usize,
) -> u32
    ensures same { handle.new.value ≡ handle.old.value }
    ensures nothing_held { handle.old.value ≡ None → (result ≡ NOTHING_HELD)
        × (spans.new ≡ spans.old) × (count.new ≡ count.old) }
    ensures answer { IfSome handle.old.value (λ re. IsWholeGroupsAnswer re text.now
        spans.old spans.new count.old count.new result) }
{
    let Some(regex) = handle.take(alloc) else {
        return NOTHING_HELD;
    };
    let answer = captures(&Whole { sought: &*regex }, text, 0, spans, count);
    handle.put(regex);
    answer
}
