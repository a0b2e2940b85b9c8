//! The positions at which no match of a pattern can start, which a search passes over.
ghost use Rattle.std.specs.Prelude.{◌≡◌, ◌≤◌, ◌<◌, ◌+◌, ◌⊎◌, ℕ, IfSome, IsTrue, Some};
ghost use Rattle.std.specs.Prelude.{IsCharBoundary};
ghost use Rattle.std.specs.Prelude.{false, true, chars, length, slice_index};
ghost use Rattle.regex_lite_syntax.specs.Prefilter.PrefixSets.{IsCutOff, IsPassed, NeverBegins};
ghost use Rattle.regex_lite_syntax.specs.Prefilter.Bytes.{suits, IsPrefilterOf};
ghost use Rattle.regex_lite_syntax.specs.Prefilter.StartFacts.{NeverStarts};
ghost use Rattle.regex_lite_syntax.specs.Prefilter.FirstSet.{may_begin, stops_at};
ghost use Rattle.regex_lite_engine.specs.Search.Offsets.{offset};

use crate::search::here::Here;
use crate::search::start_finder::StartFinder;
use regex_lite_syntax::prefilter::{Filter, FirstSet, Needed, Prefilter, PrefixSets};

/// How many bytes a prefilter is asked about at a time.
const BLOCK: usize = 32;

/// How many bytes are looked at one by one before that. Where a match may begin so near, a block
/// would be compared for nothing.
pub(super) const NEAR: usize = 16;

impl StartFinder for Filter {
    ghost use Rattle.regex_lite_syntax.specs.Prefilter.StartFacts.{NeverStarts};

    ghost never = { NeverStarts };

    // Inlined, since each position passes here.
    #[inline(always)]
    fn can_begin(&self, haystack: &str, here: Here) -> bool {
        self.words().is_none() && can_begin(self.prefixes(), haystack.as_bytes(), here)
    }

    #[inline(always)]
    fn first_known(&self, haystack: &str, from: usize) -> usize {
        first_known(self, haystack, from)
    }

    #[inline(always)]
    fn needed_words(&self) -> Option<&Needed> {
        self.needed()
    }
}

/// The first offset from this one on at which a match can begin, judging by what it begins with,
/// or the end.
#[inline(always)]
fn first_known(filter: &Filter, haystack: &str, from: usize) -> usize
    requires { from ≤ length haystack.now }
    ensures boundary { IsCharBoundary haystack.now result }
    ensures low { from ≤ result }
    ensures passed { (i : ℕ) → i < length (chars haystack.now)
        → from ≤ offset (chars haystack.now) i → offset (chars haystack.now) i < result
        → NeverStarts filter.now (chars haystack.now) i }
{
    match filter.words() {
        None => first_prefix(filter, haystack, from),
        Some(words) => words.next_offset(haystack, from),
    }
}

/// The first offset from this one on at which a match can begin, judging by the first characters,
/// or the end.
#[inline(always)]
fn first_prefix(filter: &Filter, haystack: &str, from: usize) -> usize
    requires { from ≤ length haystack.now }
    ensures boundary { IsCharBoundary haystack.now result }
    ensures low { from ≤ result }
    ensures passed { (i : ℕ) → i < length (chars haystack.now)
        → from ≤ offset (chars haystack.now) i → offset (chars haystack.now) i < result
        → NeverBegins filter.now.prefixes (chars haystack.now) i }
    ensures stops { result < length haystack.now → (result ≡ 0)
        ⊎ (stops_at filter.now.prefixes.first (slice_index haystack.now result) ≡ true) }
{
    let prefixes = filter.prefixes();
    if from == 0 && prefixes.first.at_start {
        return 0;
    }
    next_offset(prefixes, filter.prefilter(), haystack.as_bytes(), from)
}

/// Whether a match can begin here, with the byte after the next character.
fn can_begin(prefixes: &PrefixSets, bytes: &[u8], here: Here) -> bool
    requires { here.at ≤ length bytes.now }
    ensures first { IsTrue result → may_begin prefixes.now.first here.before here.after ≡ true }
    ensures never { result ≡ false
        → (may_begin prefixes.now.first here.before here.after ≡ false)
        ⊎ IsCutOff prefixes.now bytes.now here.at }
{
    prefixes.first.may_begin(here.before, here.after)
        && (prefixes.second.is_none() || may_go_on(prefixes, bytes, here.at))
}

/// [`PrefixSets::may_go_on`].
// Not inlined, so that a search which knows no second character costs no more than the test for it.
#[inline(never)]
fn may_go_on(prefixes: &PrefixSets, bytes: &[u8], at: usize) -> bool
    requires { at ≤ length bytes.now }
    ensures { result ≡ false → IsCutOff prefixes.now bytes.now at }
{
    prefixes.may_go_on(bytes, at)
}

/// The first offset from this one on of a byte that may not be passed over, or the end.
// Not inlined, since the loop of a search is so large that this one would lose its registers.
#[inline(never)]
fn next_offset(
    prefixes: &PrefixSets,
    prefilter: &Option<Prefilter>,
    bytes: &[u8],
    from: usize,
) -> usize
    requires inside { from ≤ length bytes.now }
    requires prefilter { IfSome prefilter.now (IsPrefilterOf prefixes.now) }
    ensures low { from ≤ result }
    ensures high { result ≤ length bytes.now }
    ensures passed { (k : ℕ) → from ≤ k → k < result → IsPassed prefixes.now bytes.now k }
    ensures stops { result < length bytes.now
        → stops_at prefixes.now.first (slice_index bytes.now result) ≡ true }
{
    if !prefixes.first.any {
        return bytes.len();
    }
    let mut at = from;
    'stops: loop {
        at = next_first(prefixes, prefilter, bytes, at);
        if at == bytes.len() || prefixes.may_go_on(bytes, at) {
            return at;
        }
        at += 1;
    }
}

/// The first offset from this one on, judging by the prefilter, of a byte with which a first
/// character may begin, or the end.
fn next_first(
    prefixes: &PrefixSets,
    prefilter: &Option<Prefilter>,
    bytes: &[u8],
    from: usize,
) -> usize
    requires inside { from ≤ length bytes.now }
    requires prefilter { IfSome prefilter.now (IsPrefilterOf prefixes.now) }
    ensures low { from ≤ result }
    ensures high { result ≤ length bytes.now }
    ensures passed { (k : ℕ) → from ≤ k → k < result → IsPassed prefixes.now bytes.now k }
    ensures stops { result < length bytes.now
        → stops_at prefixes.now.first (slice_index bytes.now result) ≡ true }
{
    let Some(prefilter) = prefilter else {
        return next_stop(&prefixes.first, bytes, from, bytes.len());
    };
    let near = from + NEAR.min(bytes.len() - from);
    let at = next_stop(&prefixes.first, bytes, from, near);
    if at < near {
        return at;
    }
    let block = next_block(*prefilter, bytes, near);
    next_stop(&prefixes.first, bytes, block, bytes.len())
}

/// The first offset from this one on, block by block, of a block in which a match may begin, or of
/// the bytes after the last.
pub(super) fn next_block(prefilter: Prefilter, bytes: &[u8], from: usize) -> usize
    requires { from ≤ length bytes.now }
    ensures low { from ≤ result }
    ensures high { result ≤ length bytes.now }
    ensures passed { (k : ℕ) → from ≤ k → k < result → (k + 1 < length bytes.now)
        × (suits prefilter (slice_index bytes.now k) (slice_index bytes.now (k + 1)) ≡ false) }
{
    let mut at = from;
    'all: while bytes.len() - at > BLOCK {
        let end = at + BLOCK;
        if prefilter.may_begin_in(&bytes[at..end], &bytes[at + 1..end + 1]) {
            return at;
        }
        at = end;
    }
    at
}

/// The first offset from this one on of a byte with which such a character may begin, or this end.
fn next_stop(starts: &FirstSet, bytes: &[u8], from: usize, end: usize) -> usize
    requires from { from ≤ end }
    requires end { end ≤ length bytes.now }
    ensures low { from ≤ result }
    ensures high { result ≤ end }
    ensures passed { (k : ℕ) → from ≤ k → k < result
        → stops_at starts.now (slice_index bytes.now k) ≡ false }
    ensures stops { result < end → stops_at starts.now (slice_index bytes.now result) ≡ true }
{
    if !starts.any {
        return end;
    }
    let mut at = from;
    'fours: while end - at >= 4 {
        if !starts.passes(bytes[at], bytes[at + 1], bytes[at + 2], bytes[at + 3]) {
            for k in 0..4 {
                if starts.stops_at(bytes[at + k]) {
                    return at + k;
                }
            }
        }
        at += 4;
    }
    'ones: while at < end {
        if starts.stops_at(bytes[at]) {
            return at;
        }
        at += 1;
    }
    at
}
