//! The offsets at which a search for several words stops, since a word may stand there.
ghost use Rattle.std.specs.Prelude.{◌≡◌, ◌≤◌, ◌<◌, ◌+◌, ◌-◌, ℕ, List, MatchOption, length};
ghost use Rattle.regex_lite_syntax.specs.declared.prefilter.words.letter.Letter.{Letter};
ghost use Rattle.regex_lite_syntax.specs.Prefilter.Finders.{AreShiftsOf};
ghost use Rattle.regex_lite_syntax.specs.Prefilter.Words.{AnyStandsAt, NoneStands};

use crate::prefilter::words::shifts::{Shifts, key};

/// How many offsets a search shifts over before it looks for a letter that the words share. In few
/// bytes, shifting takes less.
const NEAR: usize = 32;

/// Offsets at which words are looked for by shifts.
///
/// Behind them, a letter that the words share is looked for, and words only from where they may
/// have it there. A search looks for the letter once at each byte, and so do the searches of an
/// iterator together: each word has the letter, so a search that finds a word has looked for the
/// letter no further than to the word's end. Where the letter was near, looking for it took more
/// than shifting there, so the next span is twice as long: a search of a text in which the letter
/// stands everywhere looks for it a few times.
#[derive(Drop)]
pub(super) struct ShiftSpan {
    /// The first offset behind them. There is room for a word at each of them.
    end: usize,
    /// How many they are behind the letter with which they begin.
    len: usize,
}

impl Shifts {
    /// The span with which a search from this offset on begins.
    #[inline(always)]
    pub(super) fn first_span(&self, bytes: &[u8], from: usize) -> ShiftSpan
        ensures { result.end ≤ length bytes.now + 1 - self.now.reach }
    {
        let room = self.room_in(bytes);
        let end = match self.shared {
            None => room,
            Some(_) => room.min(from.saturating_add(NEAR)),
        };
        ShiftSpan { end, len: NEAR }
    }

    /// The first offset from this one on that no shift passes: no word stands before it.
    #[inline(always)]
    pub(super) fn next_stop(&self, bytes: &[u8], from: usize, span: &mut ShiftSpan) -> Option<usize>
        requires from { from ≤ length bytes.now }
        requires shifts { (words : List (List Letter)) × AreShiftsOf words self.now }
        requires span { span.old.end ≤ length bytes.now + 1 - self.now.reach }
        ensures stop { (words : List (List Letter)) → AreShiftsOf words self.now
            → MatchOption result ((at : ℕ) → from ≤ at → ¬ AnyStandsAt words bytes.now at)
            (λ stop. (from ≤ stop) × NoneStands words bytes.now from stop
            × (stop + self.now.reach ≤ length bytes.now)) }
        ensures span { span.new.end ≤ length bytes.now + 1 - self.now.reach }
    {
        let mut at = from;
        'spans: loop {
            at = self.enter_span(bytes, at, span)?;
            at = self.shift(bytes, at, span.end);
            if at < span.end {
                return Some(at);
            }
        }
    }

    /// The first offset from this one on that no shift passes, or if each is passed that is before
    /// the end, one that isn't.
    #[inline(always)]
    fn shift(&self, bytes: &[u8], from: usize, end: usize) -> usize
        requires from { from ≤ length bytes.now }
        requires room { end ≤ length bytes.now + 1 - self.now.reach }
        requires shifts { (words : List (List Letter)) × AreShiftsOf words self.now }
        ensures low { from ≤ result }
        ensures high { result ≤ length bytes.now }
        ensures none { (words : List (List Letter)) → AreShiftsOf words self.now
            → NoneStands words bytes.now from result }
    {
        let reach = self.reach;
        let shifts: &[u8] = &self.shifts;
        let mut at = from;
        'shifts: while at < end {
            let behind = at + reach;
            let shift = shifts[key(bytes[behind - 2], bytes[behind - 1])] as usize;
            if shift == 0 {
                return at;
            }
            at += shift;
        }
        at
    }

    /// This offset, if it is in the span, and else the first one of the next span: no word stands
    /// from this one on before it.
    #[inline(always)]
    fn enter_span(&self, bytes: &[u8], from: usize, span: &mut ShiftSpan) -> Option<usize>
        requires from { from ≤ length bytes.now }
        requires shifts { (words : List (List Letter)) × AreShiftsOf words self.now }
        requires span { span.old.end ≤ length bytes.now + 1 - self.now.reach }
        ensures entered { (words : List (List Letter)) → AreShiftsOf words self.now
            → MatchOption result ((at : ℕ) → from ≤ at → ¬ AnyStandsAt words bytes.now at)
            (λ at. (from ≤ at) × NoneStands words bytes.now from at × (at < span.new.end)) }
        ensures span { span.new.end ≤ length bytes.now + 1 - self.now.reach }
    {
        if from < span.end {
            return Some(from);
        }
        let room = self.room_in(bytes);
        if from >= room {
            return None;
        }
        let Some(shared) = self.shared else {
            span.end = room;
            return Some(from);
        };
        let (start, at) = shared.next(bytes, from)?;
        if start >= room {
            return None;
        }
        span.len = if at - from < span.len {
            span.len.saturating_mul(2)
        } else {
            NEAR
        };
        span.end = room.min(at.saturating_add(span.len));
        Some(start)
    }

    /// The first offset at which there is no room for a word.
    #[inline(always)]
    fn room_in(&self, bytes: &[u8]) -> usize
        ensures { result ≡ length bytes.now + 1 - self.now.reach }
    {
        (bytes.len() + 1).saturating_sub(self.reach)
    }
}
