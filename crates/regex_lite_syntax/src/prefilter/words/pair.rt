//! A search for one word by its two rarest letters.
//!
//! Blocks of 32 offsets are compared with both letters at once. Where the word may stand in one, 16
//! offsets are compared at a time, and the lowest bit of the mask is the next of them at which both
//! letters stand. The byte that was wrong where the word last failed to stand is compared first at
//! the next offset, so that a word that repeats itself, such as `a{100}`, is compared once for some
//! 32 offsets, also in a text that nearly matches. Of a word of more than 16 letters the two
//! letters differ.
ghost use Rattle.std.specs.Prelude.{◌≡◌, ◌<◌, ◌≤◌, ◌+◌, ◌∷◌, [], ℕ, IfSome, MatchOption, false};
ghost use Rattle.std.specs.Prelude.{length, slice_index};
ghost use Rattle.regex_lite_syntax.specs.Prefilter.Words.{AnyStandsAt, IsLetter, NoneStands};

mod short_block;

use crate::prefilter::words::frequency::frequency;
use crate::prefilter::words::letter::Letter;
use crate::prefilter::words::pair::short_block::{SHORT_BLOCK, first_of_both};
use crate::prefilter::words::standing::wrong_letter;

/// How many offsets are asked about at a time.
const BLOCK: usize = 32;

/// Among how many letters of a word, and its last one, the two rarest are looked for.
const LOOKED_AT: usize = 32;

/// Of a word of more letters two different ones are looked for.
const LONG: usize = 16;

/// Where the two rarest letters of a word stand in it.
#[derive(Clone, Copy)]
pub(super) struct Pair {
    first: usize,
    second: usize,
}

impl Pair {
    /// That of a word's first letter alone.
    pub(super) fn of_first() -> Pair
        ensures first { result.first ≡ 0 }
        ensures second { result.second ≡ 0 }
    {
        Pair {
            first: 0,
            second: 0,
        }
    }

    /// That of the word.
    ///
    /// Condition: it has a letter.
    pub(super) fn of(word: &[Letter]) -> Pair
        requires { 0 < length word.now }
        ensures first { result.first < length word.now }
        ensures second { result.second < length word.now }
    {
        // In a long word the same letter twice may stand everywhere, if the word repeats itself.
        let is_long = word.len() > LONG;
        let last = word.len() - 1;
        let (mut first, mut second) = (0, last);
        let (mut lowest, mut next) = (rank_of(word[0]), rank_of(word[last]));
        if next < lowest {
            (first, second) = (last, 0);
            (lowest, next) = (next, lowest);
        }
        'letters: for k in 1..last.min(LOOKED_AT) {
            let rank = rank_of(word[k]);
            if rank < lowest {
                (second, next) = (first, lowest);
                (first, lowest) = (k, rank);
            } else if rank < next && (!is_long || word[k].byte != word[first].byte) {
                (second, next) = (k, rank);
            }
        }
        Pair { first, second }
    }

    /// Two of the rarest letters of the word, the rarest first.
    ///
    /// Condition: it is the word for which this was made.
    pub(super) fn letters(self, word: &[Letter]) -> (Letter, Letter)
        requires first { self.first < length word.now }
        requires second { self.second < length word.now }
    {
        (word[self.first], word[self.second])
    }

    /// The first offset from this one on at which the word stands.
    #[inline(always)]
    pub(super) fn find(self, word: &[Letter], bytes: &[u8], from: usize) -> Option<usize>
        requires from { from ≤ length bytes.now }
        requires first { self.first < length word.now }
        requires second { self.second < length word.now }
        ensures { MatchOption result
            ((at : ℕ) → from ≤ at → ¬ AnyStandsAt (word.now ∷ []) bytes.now at)
            (λ at. (from ≤ at) × NoneStands (word.now ∷ []) bytes.now from at
            × AnyStandsAt (word.now ∷ []) bytes.now at) }
    {
        self.find_below(word, bytes, from, bytes.len())
    }

    /// The first offset from the first of these on, and before the second, at which the word
    /// stands.
    // Not inlined, since the loop of a search is so large that this one would lose its registers.
    #[inline(never)]
    pub(super) fn find_below(
        self,
        word: &[Letter],
        bytes: &[u8],
        from: usize,
        limit: usize,
    ) -> Option<usize>
        requires order { from ≤ limit }
        requires inside { limit ≤ length bytes.now }
        requires first { self.first < length word.now }
        requires second { self.second < length word.now }
        ensures next { MatchOption result (NoneStands (word.now ∷ []) bytes.now from limit)
            (λ at. (from ≤ at) × NoneStands (word.now ∷ []) bytes.now from at
            × AnyStandsAt (word.now ∷ []) bytes.now at) }
        ensures before { IfSome result (λ at. at < limit) }
    {
        if bytes.len() - from < word.len() {
            return None;
        }
        let end = (bytes.len() - word.len() + 1).min(limit);
        if end - from >= BLOCK {
            self.find_in_blocks::<BLOCK>(word, bytes, from, end)
        } else {
            self.find_in_blocks::<SHORT_BLOCK>(word, bytes, from, end)
        }
    }

    /// The first offset from this one on, and before that one, at which the word stands.
    #[inline(always)]
    fn find_in_blocks<const N: usize>(
        self,
        word: &[Letter],
        bytes: &[u8],
        from: usize,
        end: usize,
    ) -> Option<usize>
        requires some { 0 < N }
        requires order { from ≤ end }
        requires room { end + length word.now ≤ length bytes.now + 1 }
        requires first { self.first < length word.now }
        requires second { self.second < length word.now }
        ensures next { MatchOption result (NoneStands (word.now ∷ []) bytes.now from end)
            (λ at. (from ≤ at) × NoneStands (word.now ∷ []) bytes.now from at
            × AnyStandsAt (word.now ∷ []) bytes.now at) }
        ensures before { IfSome result (λ at. at < end) }
    {
        let mut at = from;
        'blocks: while end - at >= N {
            if self.may_stand::<N>(word, bytes, at) {
                let found = self.find_before(word, bytes, at, at + N);
                if found.is_some() {
                    return found;
                }
            }
            at += N;
        }
        // The last block begins before the one that would be next, so that it is full.
        if end >= N && !self.may_stand::<N>(word, bytes, end - N) {
            return None;
        }
        self.find_before(word, bytes, at, end)
    }

    /// Whether the word may stand at one of a block of offsets.
    #[inline(always)]
    fn may_stand<const N: usize>(self, word: &[Letter], bytes: &[u8], at: usize) -> bool
        requires room { at + N + length word.now ≤ length bytes.now + 1 }
        requires first { self.first < length word.now }
        requires second { self.second < length word.now }
        ensures { result ≡ false → NoneStands (word.now ∷ []) bytes.now at (at + N) }
    {
        let (first, second) = (at + self.first, at + self.second);
        let firsts = &bytes[first..first + N];
        let seconds = &bytes[second..second + N];
        let (a, b) = (word[self.first], word[self.second]);
        if a.is_exact() && b.is_exact() {
            has_both(firsts, seconds, a.byte, b.byte)
        } else {
            has_both_letters(firsts, seconds, a, b)
        }
    }

    /// The first of these offsets at which the word stands.
    // Not inlined, since the loop over blocks would lose its registers: a search for a word that
    // isn't there would take 1.2 times as much.
    #[inline(never)]
    fn find_before(self, word: &[Letter], bytes: &[u8], from: usize, end: usize) -> Option<usize>
        requires order { from ≤ end }
        requires room { end + length word.now ≤ length bytes.now + 1 }
        requires first { self.first < length word.now }
        requires second { self.second < length word.now }
        ensures next { MatchOption result (NoneStands (word.now ∷ []) bytes.now from end)
            (λ at. (from ≤ at) × NoneStands (word.now ∷ []) bytes.now from at
            × AnyStandsAt (word.now ∷ []) bytes.now at) }
        ensures before { IfSome result (λ at. at < end) }
    {
        let mut at = self.next_place(word, bytes, from, end);
        // Where the word was last found not to stand.
        let mut wrong = at;
        'places: while at < end {
            if wrong < at || word[wrong - at].is(bytes[wrong]) {
                match wrong_letter(word, bytes, at) {
                    None => return Some(at),
                    Some(k) => wrong = at + k,
                }
            }
            at = self.next_place(word, bytes, at + 1, end);
        }
        None
    }

    /// The first of these offsets at which the word may stand, or one that isn't before the end.
    #[inline(always)]
    fn next_place(self, word: &[Letter], bytes: &[u8], from: usize, end: usize) -> usize
        requires order { from ≤ end }
        requires room { end + length word.now ≤ length bytes.now + 1 }
        requires first { self.first < length word.now }
        requires second { self.second < length word.now }
        ensures low { from ≤ result }
        ensures none { NoneStands (word.now ∷ []) bytes.now from result }
    {
        let (a, b) = (word[self.first], word[self.second]);
        let mut at = from;
        // A block may end behind the last of these offsets, if the haystack has room for it.
        'short: while at < end && bytes.len() - at + 1 >= word.len() + SHORT_BLOCK {
            let (first, second) = (at + self.first, at + self.second);
            let firsts = &bytes[first..first + SHORT_BLOCK];
            let seconds = &bytes[second..second + SHORT_BLOCK];
            let place = first_of_both(firsts, seconds, a, b);
            if place < SHORT_BLOCK {
                return at + place;
            }
            at += SHORT_BLOCK;
        }
        'offsets: while at < end
            && !(a.is(bytes[at + self.first]) && b.is(bytes[at + self.second]))
        {
            at += 1;
        }
        at
    }
}

/// How often the letter occurs in texts.
pub(super) fn rank_of(letter: Letter) -> u8 {
    let rank = frequency(letter.byte);
    if letter.is_exact() {
        return rank;
    }
    rank.max(frequency(letter.other)) + 1
}

/// Whether one of these bytes is the first, and the other at the same place the second.
#[inline(always)]
fn has_both(firsts: &[u8], seconds: &[u8], first: u8, second: u8) -> bool
    requires { length seconds.now ≡ length firsts.now }
    ensures { result ≡ false → (k : ℕ) → k < length firsts.now
        → slice_index firsts.now k ≡ first → ¬ (slice_index seconds.now k ≡ second) }
{
    let mut is_there = false;
    'offsets: for k in 0..firsts.len() {
        is_there |= (firsts[k] == first) & (seconds[k] == second);
    }
    is_there
}

/// The same for letters of any case.
#[inline(always)]
fn has_both_letters(firsts: &[u8], seconds: &[u8], first: Letter, second: Letter) -> bool
    requires { length seconds.now ≡ length firsts.now }
    ensures { result ≡ false → (k : ℕ) → k < length firsts.now
        → IsLetter first (slice_index firsts.now k)
        → ¬ IsLetter second (slice_index seconds.now k) }
{
    let mut is_there = false;
    'offsets: for k in 0..firsts.len() {
        is_there |= first.is(firsts[k]) & second.is(seconds[k]);
    }
    is_there
}
