//! The positions at which none of several patterns may start, by the bytes there.
ghost use Rattle.std.specs.Prelude.{◌≡◌, ◌<◌, IsTrue, IsCharBoundary, false, length};
ghost use Rattle.regex_lite_syntax.specs.Prefilter.PrefixIndex.{IsPassedByAll};
ghost use Rattle.regex_lite_syntax.specs.Prefilter.Pairs.{has_pair, HasAllPairs, NeverBeginsWith};

use crate::prefilter::prefix_index::PrefixIndex;

impl PrefixIndex {
    /// Whether a match of any pattern can begin with the character at this offset, judging by its
    /// first byte and the byte after that; false inside a character. What can begin at the
    /// haystack's start alone is left out.
    ///
    /// Conditions: [`PrefixIndex::of`] made the index, and the offset is below the length.
    pub fn may_begin_at(&self, bytes: &[u8], at: usize) -> bool
        requires pairs { HasAllPairs self.now }
        requires inside { at < length bytes.now }
        ensures passed { result ≡ false → IsPassedByAll self.now bytes.now at }
        ensures stops { IsTrue result → IsCharBoundary bytes.now at }
    {
        let first = bytes[at];
        if bytes.len() - at > 1 {
            let second = bytes[at + 1];
            if first.is_ascii() && second.is_ascii() {
                return self.has_pair(first, second);
            }
        }
        self.any.stops_at(first)
    }

    /// Whether it is known that no match begins with these characters.
    pub(crate) fn never_begins(&self, first: char, second: Option<char>) -> bool
        requires { HasAllPairs self.now }
        ensures { IsTrue result → NeverBeginsWith self.now first second }
    {
        match second {
            Some(second) if first.is_ascii() && second.is_ascii() => {
                !self.has_pair(first as u8, second as u8)
            }
            _ => false,
        }
    }

    /// Whether a match of any pattern can begin with these ASCII characters.
    pub(crate) fn has_pair(&self, first: u8, second: u8) -> bool
        requires pairs { HasAllPairs self.now }
        requires first { first < 128 }
        requires second { second < 128 }
        ensures { result ≡ has_pair self.now first second }
    {
        self.pairs[first as usize].contains(second)
    }
}
