//! Prefilters: where matches can begin, derived from the tree alone.
//!
//! # What it is
//!
//! At most offsets of a haystack no match begins, and a few bytes often show it. A prefilter finds
//! the next offset at which a match can begin. It may name too many and leaves none out, which is
//! what is proved of it, so an engine has to try each candidate. Its facts come from a few walks
//! over the tree when a pattern is compiled.
//!
//! # What is known of a pattern
//!
//! A [`Filter`] has the best of these that the tree gives:
//!
//! - [`Words`]: literals with one of which each match begins. A single one is found by its two
//!   rarest letters, which blocks of 32 offsets are compared with (`pair`). Several are found by
//!   shifts, as in the algorithm of Wu and Manber: the pair of bytes that ends a window as long as
//!   the shortest word says how far it may move, and a hash of the first letters leads to the words
//!   to compare (`shifts`). A rare letter that all of them share is looked for first. A letter may
//!   stand for both of its cases. A pattern that is nothing but its words needs no engine.
//! - [`PrefixSets`]: the first set, and a second set if it has at most 16 ASCII characters. If few
//!   bytes begin a match, a [`Prefilter`] compares a block of 32 with all of them. It has no branch
//!   for a byte, so that the compiler uses vectors.
//! - [`Needed`]: up to four literals of which each match has one, with the set of characters that
//!   may stand before it. From the next such literal a walk back over these characters leads to the
//!   first possible start. This is used beside prefix sets or short words, and rules out the rest
//!   of a haystack that has no such literal.
//!
//! [`PrefixIndex`] is an index of several trees: a row of bits for each first and each second
//! character, with a bit for each pattern, and a mask of third characters. If each pattern of a
//! list needs a literal and these are at most four, the list has them all as its [`Needed`].
//! [`ListWords`] has the words of a list of which each pattern is nothing but words.
//!
//! # Trade-offs and limits
//!
//! Which facts are used is estimated when a pattern is compiled, by the ranks of bytes in common
//! texts (`frequency`, `gain`). Searches take no samples, so a filter that proves unselective is
//! not switched off. Only the search that says which patterns of a list match has a budget
//! (`shifts::marking`). Words that begin with few or rare bytes, such as `cat|dog`, are left to the
//! search for these bytes. An alternation gives a word for each branch, and no word goes on after
//! it, nor after an operator without a fixed number of passes, nor into a class that is no letter
//! in both cases. So words are not multiplied, and there are 10,000 at most. A needed literal has 8
//! letters at most. Looks are taken to hold, but a pattern that begins with `\A` starts at offset 0
//! alone. Words lie on the heap, and where that memory is refused, none are known.
//!
//! # Where it is used
//!
//! `search/start_finder.rt` of `regex_lite_engine` skips offsets by it, for a pattern and for a
//! list, for both engines and for the lazy DFA, and `strategy` in `regex_lite_meta` chooses by how
//! matches begin. Read `filter` next, then `first_set`, `prefixes` and `words`.
ghost use Rattle.std.specs.Prelude.{◌≡◌, ◌≤◌, ◌<◌, ◌+◌, ◌*◌, ℕ, IfSome};
ghost use Rattle.std.specs.Prelude.{IsTrue, false, true, length, slice_index};
ghost use Rattle.regex_lite_syntax.specs.declared.prefilter.Prefilter.TheVariants.{
  Pair,
  Four,
  Eight,
  Range,
};
ghost use Rattle.regex_lite_syntax.specs.Prefilter.Bytes.{is_among, suits, AreAllBytes};
ghost use Rattle.regex_lite_syntax.specs.Prefilter.Bytes.{IsPrefilterOf, StandsBelow};
ghost use Rattle.regex_lite_syntax.specs.Prefilter.FirstSet.{stops_at};

mod filter;
mod first_set;
pub mod prefix_index;
mod prefixes;
pub mod words;

pub use filter::Filter;
pub use first_set::FirstSet;
pub use prefix_index::PrefixIndex;
pub use prefixes::PrefixSets;
pub use words::list_words::ListWords;
pub use words::{Needed, Reach, Words};

/// The bytes with which a match begins. If there is room for more, one of them is repeated.
#[derive(Clone, Copy)]
pub enum Prefilter {
    /// One of up to two bytes, and after it one of up to two others.
    Pair([u8; 2], [u8; 2]),
    /// One of up to four bytes.
    Four([u8; 4]),
    /// One of up to eight bytes.
    Eight([u8; 8]),
    /// A byte from the first to the second, both included.
    Range(u8, u8),
}

impl Prefilter {
    /// The prefilter for these prefix sets, if few bytes show that a match may begin.
    pub(crate) fn of(prefixes: &PrefixSets) -> Option<Prefilter>
        ensures { IfSome result (IsPrefilterOf prefixes.now) }
    {
        let Some(second) = &prefixes.second else {
            return Prefilter::of_first(&prefixes.first);
        };
        if prefixes.first.len() <= 2 {
            let (mut firsts, mut seconds) = ([0; 2], [0; 2]);
            if fill(&mut firsts, &prefixes.first) && fill(&mut seconds, second) {
                return Some(Prefilter::Pair(firsts, seconds));
            }
        }
        Prefilter::of_first(&prefixes.first)
    }

    /// The prefilter for these first characters.
    fn of_first(first: &FirstSet) -> Option<Prefilter>
        ensures { IfSome result (λ filter. (byte after : ℕ) → suits filter byte after ≡ false
            → stops_at first.now byte ≡ false) }
    {
        let len = first.len();
        if len <= 4 {
            let mut bytes = [0; 4];
            return fill(&mut bytes, first).then_some(Prefilter::Four(bytes));
        }
        if len <= 8 {
            let mut bytes = [0; 8];
            return fill(&mut bytes, first).then_some(Prefilter::Eight(bytes));
        }
        Prefilter::range_of(first, len)
    }

    /// The prefilter for `len` consecutive first characters.
    fn range_of(first: &FirstSet, len: u8) -> Option<Prefilter>
        ensures { IfSome result (λ filter. (byte after : ℕ) → suits filter byte after ≡ false
            → stops_at first.now byte ≡ false) }
    {
        // With more characters, one of them is seldom far away.
        let mut bytes = [0; 16];
        if len > 16 || !fill(&mut bytes, first) {
            return None;
        }
        let (low, high) = bounds(&bytes);
        (high.saturating_sub(low) < len).then_some(Prefilter::Range(low, high))
    }

    /// Whether a match may begin in a block of bytes, given the byte after each of them. If false,
    /// the prefix sets rule out each byte of the block.
    ///
    /// Conditions: `next` is as long as `block`.
    // Inlined, so that the length of a block is known, and no byte of it takes a branch.
    #[inline(always)]
    pub fn may_begin_in(&self, block: &[u8], next: &[u8]) -> bool
        requires { length next.now ≡ length block.now }
        ensures { result ≡ false → (k : ℕ) → k < length block.now
            → suits self.now (slice_index block.now k) (slice_index next.now k) ≡ false }
    {
        match self {
            Prefilter::Pair(firsts, seconds) => has_pair(block, next, *firsts, *seconds),
            Prefilter::Four(bytes) => has_one_of_four(block, *bytes),
            Prefilter::Eight(bytes) => has_one_of_eight(block, *bytes),
            Prefilter::Range(low, high) => has_between(block, *low, *high),
        }
    }
}

/// Whether one of these bytes, and after it one of those, is in the block.
#[inline(always)]
fn has_pair(block: &[u8], next: &[u8], firsts: [u8; 2], seconds: [u8; 2]) -> bool
    requires { length next.now ≡ length block.now }
    ensures { result ≡ false → (k : ℕ) → k < length block.now
        → suits (Pair firsts seconds) (slice_index block.now k) (slice_index next.now k) ≡ false }
{
    let [first, or_first] = firsts;
    let [second, or_second] = seconds;
    let mut is_there = false;
    for k in 0..block.len() {
        let (byte, after) = (block[k], next[k]);
        is_there |= ((byte == first) | (byte == or_first))
            & ((after == second) | (after == or_second));
    }
    is_there
}

/// Whether one of these bytes is in the block.
#[inline(always)]
fn has_one_of_four(block: &[u8], bytes: [u8; 4]) -> bool
    ensures { result ≡ false → (k : ℕ) → k < length block.now
        → is_among bytes (slice_index block.now k) ≡ false }
{
    let [a, b, c, d] = bytes;
    let mut is_there = false;
    for k in 0..block.len() {
        let byte = block[k];
        is_there |= (byte == a) | (byte == b) | (byte == c) | (byte == d);
    }
    is_there
}

/// Whether one of these bytes is in the block.
#[inline(always)]
fn has_one_of_eight(block: &[u8], bytes: [u8; 8]) -> bool
    ensures { result ≡ false → (k : ℕ) → k < length block.now
        → is_among bytes (slice_index block.now k) ≡ false }
{
    let [a, b, c, d, e, f, g, h] = bytes;
    let mut is_there = false;
    for k in 0..block.len() {
        let byte = block[k];
        is_there |= (byte == a) | (byte == b) | (byte == c) | (byte == d);
        is_there |= (byte == e) | (byte == f) | (byte == g) | (byte == h);
    }
    is_there
}

/// Whether a byte from one to the other is in the block.
#[inline(always)]
fn has_between(block: &[u8], low: u8, high: u8) -> bool
    ensures { result ≡ false → (k : ℕ) → k < length block.now
        → suits (Range low high) (slice_index block.now k) 0 ≡ false }
{
    let mut is_there = false;
    for k in 0..block.len() {
        let byte = block[k];
        is_there |= (low <= byte) & (byte <= high);
    }
    is_there
}

/// Lists the bytes with which a match can begin, and repeats the first if there is room for more.
/// Returns whether all of them are listed.
fn fill(bytes: &mut [u8], starts: &FirstSet) -> bool
    ensures length { length bytes.new ≡ length bytes.old }
    ensures all { result ≡ true → AreAllBytes starts.now bytes.new }
{
    if starts.begins_in(128) {
        return false;
    }
    let mut len = 0;
    for row in 0..8 {
        if starts.begins_in_row(row) {
            let Some(more) = fill_row(bytes, len, starts, row) else {
                return false;
            };
            len = more;
        }
    }
    for k in len..bytes.len() {
        bytes[k] = bytes[0];
    }
    true
}

/// Adds those of the sixteen characters of this row, and returns how many there are then, if there
/// is room for all.
fn fill_row(bytes: &mut [u8], len: usize, starts: &FirstSet, row: u8) -> Option<usize>
    requires len { len ≤ length bytes.old }
    requires row { row < 8 }
    requires written { (byte : ℕ) → byte < 16 * row → stops_at starts.now byte ≡ true
        → StandsBelow bytes.old len byte }
    ensures length { length bytes.new ≡ length bytes.old }
    ensures room { IfSome result (λ more. more ≤ length bytes.new) }
    ensures written { IfSome result (λ more. (byte : ℕ) → byte < 16 * row + 16
        → stops_at starts.now byte ≡ true → StandsBelow bytes.new more byte) }
{
    let mut len = len;
    for code in 16 * row..16 * row + 16 {
        if starts.stops_at(code) {
            if len == bytes.len() {
                return None;
            }
            bytes[len] = code;
            len += 1;
        }
    }
    Some(len)
}

/// The least and the greatest of these bytes.
fn bounds(bytes: &[u8]) -> (u8, u8)
    ensures { (byte : ℕ) → is_among bytes.now byte ≡ true → (result.0 ≤ byte) × (byte ≤ result.1) }
{
    let (mut low, mut high) = (u8::MAX, 0);
    for k in 0..bytes.len() {
        low = low.min(bytes[k]);
        high = high.max(bytes[k]);
    }
    (low, high)
}
