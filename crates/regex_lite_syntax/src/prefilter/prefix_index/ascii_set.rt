//! Sets of ASCII characters.
ghost use Rattle.std.specs.Prelude.{◌≡◌, ◌==◌, ◌&&◌, ◌||◌, ◌<◌, ℕ, false, true};
ghost use Rattle.regex_lite_syntax.specs.Prefilter.Pairs.{in_set, set_len};
ghost use Rattle.regex_lite_syntax.specs.Prefilter.FirstSet.{begins_with};

use crate::prefilter::first_set::FirstSet;

/// A set of ASCII characters, with a bit for each.
#[derive(Clone, Copy)]
pub(crate) struct AsciiSet {
    /// The lowest 64 are in the first word.
    words: [u64; 2],
}

impl AsciiSet {
    /// The set that has none.
    pub(crate) fn empty() -> AsciiSet
        ensures { (code : ℕ) → code < 128 → in_set result code ≡ false }
    {
        AsciiSet { words: [0; 2] }
    }

    /// The set that has all.
    pub(crate) fn all() -> AsciiSet
        ensures { (code : ℕ) → code < 128 → in_set result code ≡ true }
    {
        AsciiSet {
            words: [u64::MAX; 2],
        }
    }

    /// How many there are.
    pub(crate) fn len(self) -> usize
        ensures { result ≡ set_len self }
    {
        (self.words[0].count_ones() + self.words[1].count_ones()) as usize
    }

    /// Those with which a match can begin.
    pub(crate) fn of(starts: &FirstSet) -> AsciiSet
        ensures { (code : ℕ) → code < 128 → in_set result code ≡ begins_with starts.now code }
    {
        let mut set = AsciiSet::empty();
        let mut code = 0;
        'codes: while code < 128 {
            if starts.begins_in_none_of_row(code) {
                code += 16;
                continue;
            }
            if starts.begins_in(code) {
                set = set.union(AsciiSet::just(code));
            }
            code += 1;
        }
        set
    }

    /// The set that has the character with this code alone.
    pub(crate) fn just(code: usize) -> AsciiSet
        requires { code < 128 }
        ensures { (other : ℕ) → other < 128 → in_set result other ≡ (other == code) }
    {
        let mut words = [0; 2];
        words[code / 64] |= 1 << (code % 64);
        AsciiSet { words }
    }

    /// The characters that are in one of the two sets.
    pub(crate) fn union(self, other: AsciiSet) -> AsciiSet
        ensures { (code : ℕ) → code < 128
            → in_set result code ≡ (in_set self code || in_set other code) }
    {
        AsciiSet {
            words: [
                self.words[0] | other.words[0],
                self.words[1] | other.words[1],
            ],
        }
    }

    /// Whether the set has the character with this code.
    pub(crate) fn contains(&self, code: u8) -> bool
        requires { code < 128 }
        ensures { result ≡ in_set self.now code }
    {
        let word = self.words[code as usize / 64];
        (word >> (code % 64)) & 1 == 1
    }
}
