//! Two characters with which each match of a pattern begins.
ghost use Rattle.std.specs.Prelude.{◌≡◌, ◌≤◌, ◌<◌, ℕ, IfSome, IsCharBoundary};
ghost use Rattle.std.specs.Prelude.{IsTrue, Option, false, chars, length};
ghost use Rattle.regex_lite_syntax.specs.Tree.{character, look};
ghost use Rattle.regex_lite_syntax.specs.Tree.Views.{tree_of};
ghost use Rattle.regex_lite_syntax.specs.declared.hir.look.Look.TheVariants.{Word};
ghost use Rattle.regex_lite_syntax.specs.Prefilter.PrefixSets.{ArePrefixSetsOfTree, IsPassed};
ghost use Rattle.regex_lite_syntax.specs.Prefilter.PrefixSets.{NeverBegins};
ghost use Rattle.regex_lite_syntax.specs.Prefilter.FirstSet.{may_begin};
ghost use Rattle.regex_lite_engine.specs.Search.Prefixes.{just_starts, sets_of_prefix};
ghost use Rattle.regex_lite_engine.specs.Search.Here.{IsHere};
ghost use Rattle.regex_lite_engine.specs.Search.Starts.{SkipsTo};

use crate::search::here::Here;
use crate::search::skip::{NEAR, next_block};
use regex_lite_syntax::prefilter::Prefilter;
use regex_lite_syntax::{Hir, Look};

/// Two ASCII characters with which each match begins.
#[derive(Clone, Copy)]
pub struct Prefix {
    first: u8,
    second: u8,
    pub ghost ascii: { first < 128 },
}

impl Prefix {
    /// The prefix of the tree, if it is a concatenation that begins with two such characters, or
    /// with a word boundary before them.
    pub(super) fn of(hir: &Hir) -> Option<Prefix>
        ensures { IfSome result (λ prefix. ArePrefixSetsOfTree (tree_of hir.now)
            (sets_of_prefix prefix.first prefix.second)) }
    {
        let Hir::Concat(parts) = hir else {
            return None;
        };
        if let [first, second, ..] = parts.as_slice() {
            if let Some(prefix) = Prefix::of_parts(first, second) {
                return Some(prefix);
            }
        }
        if let [look, first, second, ..] = parts.as_slice() {
            if is_word_boundary(look) {
                return Prefix::of_parts(first, second);
            }
        }
        None
    }

    /// The prefix of two consecutive parts, if each of them is an ASCII character.
    fn of_parts(first: &Hir, second: &Hir) -> Option<Prefix>
        ensures first { IfSome result (λ prefix. tree_of first.now ≡ character prefix.first) }
        ensures second { IfSome result (λ prefix. (tree_of second.now ≡ character prefix.second)
            × (prefix.second < 128)) }
    {
        let Hir::Char(first) = first else {
            return None;
        };
        let Hir::Char(second) = second else {
            return None;
        };
        if first.is_ascii() && second.is_ascii() {
            return Some(Prefix {
                first: *first as u8,
                second: *second as u8,
            });
        }
        None
    }

    /// Whether a match can begin before this character. At the haystack's end the answer is always
    /// yes.
    pub(super) fn may_begin(self, after: Option<char>) -> bool
        ensures { result ≡ false → (before : Option ℕ)
            → may_begin (just_starts self.first) before after ≡ false }
    {
        match after {
            None => true,
            Some(c) => c as u32 == u32::from(self.first),
        }
    }

    /// The offset of the next position after this one at which both occur, or of the haystack's
    /// end. `None` if they occur here.
    // Inlined, since it is called at each position.
    #[inline(always)]
    pub(super) fn next_start(self, haystack: &str, here: Here) -> Option<usize>
        requires { (p : ℕ) × IsHere (chars haystack.now) p here }
        ensures boundary { IfSome result (IsCharBoundary haystack.now) }
        ensures passes { (p : ℕ) → IsHere (chars haystack.now) p here → IfSome result
            (SkipsTo (NeverBegins (sets_of_prefix self.first self.second) (chars haystack.now))
            haystack.now p) }
    {
        let at = self.next_offset(haystack.as_bytes(), here.at);
        if at == here.at {
            return None;
        }
        Some(at)
    }

    /// The first offset from this one on at which both occur, or the haystack's end.
    // Not inlined: in the large loop of a search its variables wouldn't stay in registers.
    #[inline(never)]
    pub(super) fn next_offset(self, bytes: &[u8], from: usize) -> usize
        requires { from ≤ length bytes.now }
        ensures low { from ≤ result }
        ensures high { result ≤ length bytes.now }
        ensures passed { (k : ℕ) → from ≤ k → k < result
            → IsPassed (sets_of_prefix self.first self.second) bytes.now k }
        ensures boundary { IsCharBoundary bytes.now result }
    {
        let near = from + NEAR.min(bytes.len() - from);
        let at = self.next_before(bytes, from, near);
        if at < near {
            return at;
        }
        let both = Prefilter::Pair([self.first; 2], [self.second; 2]);
        let block = next_block(both, bytes, near);
        self.next_before(bytes, block, bytes.len())
    }

    /// The first offset from this one on at which both occur, or this end.
    fn next_before(self, bytes: &[u8], from: usize, end: usize) -> usize
        requires from { from ≤ end }
        requires end { end ≤ length bytes.now }
        ensures low { from ≤ result }
        ensures high { result ≤ end }
        ensures passed { (k : ℕ) → from ≤ k → k < result
            → IsPassed (sets_of_prefix self.first self.second) bytes.now k }
        ensures boundary { result < end → IsCharBoundary bytes.now result }
    {
        let mut at = from;
        'bytes: while at < end {
            if self.stands_at(bytes, at) {
                return at;
            }
            at += 1;
        }
        at
    }

    /// Whether both occur at this offset, or only the first if the haystack ends after it.
    fn stands_at(self, bytes: &[u8], at: usize) -> bool
        requires { at < length bytes.now }
        ensures passed { result ≡ false
            → IsPassed (sets_of_prefix self.first self.second) bytes.now at }
        ensures boundary { IsTrue result → IsCharBoundary bytes.now at }
    {
        bytes[at] == self.first && (bytes.len() - at < 2 || bytes[at + 1] == self.second)
    }
}

/// Whether this is the look for a word boundary.
fn is_word_boundary(hir: &Hir) -> bool
    ensures { IsTrue result → tree_of hir.now ≡ look Word }
{
    matches!(hir, Hir::Look(Look::Word))
}
