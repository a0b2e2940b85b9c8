//! The next position at which a match of one pattern, or of one of several, can begin, judging by
//! what matches begin with and by words that each match needs.
ghost use Rattle.std.specs.Prelude.{◌≤◌, ◌<◌, ℕ, IfSome, MatchOption, IsCharBoundary};
ghost use Rattle.std.specs.Prelude.{chars, length};
ghost use Rattle.regex_lite_syntax.specs.Text.{Text};
ghost use Rattle.regex_lite_syntax.specs.Prefilter.Needed.{IsOutOfReach, Reaches};
ghost use Rattle.regex_lite_engine.specs.Search.Offsets.{offset, IsOffset};
ghost use Rattle.regex_lite_engine.specs.Search.Here.{IsHere};
ghost use Rattle.regex_lite_engine.specs.Search.Starts.{SkipsTo};

use crate::search::here::Here;
use regex_lite_syntax::prefilter::{Needed, Reach};

/// What is known of the positions at which matches can begin.
pub(super) trait StartFinder {
    /// No match begins at this position.
    ghost never: { Self → Text → ℕ → Type 0 };

    /// Whether a look at what comes next shows that a match may begin here. If false, nothing is
    /// known.
    fn can_begin(&self, haystack: &str, here: Here) -> bool
        requires { (p : ℕ) × IsHere (chars haystack.now) p here };

    /// The first offset from this one on at which a match can begin, judging by what it begins
    /// with, or the end.
    fn first_known(&self, haystack: &str, from: usize) -> usize
        requires { from ≤ length haystack.now }
        ensures boundary { IsCharBoundary haystack.now result }
        ensures low { from ≤ result }
        ensures passed { (i : ℕ) → i < length (chars haystack.now)
            → from ≤ offset (chars haystack.now) i → offset (chars haystack.now) i < result
            → never self.now (chars haystack.now) i };

    /// Words of which one stands in each match, if some are known.
    fn needed_words(&self) -> Option<&Needed>
        ensures { IfSome result (λ needed. (haystack : Text) (i : ℕ)
            → IsOutOfReach needed.now haystack i → never self.now haystack i) };
}

/// The offset of the next position after this one at which a match can begin, or of the haystack's
/// end. None if a match can begin here.
// Inlined, since each position passes here.
#[inline(always)]
pub(super) fn next_start<F: StartFinder>(finder: &F, haystack: &str, here: Here) -> Option<usize>
    requires { (p : ℕ) × IsHere (chars haystack.now) p here }
    ensures boundary { IfSome result (IsCharBoundary haystack.now) }
    ensures passes { (p : ℕ) → IsHere (chars haystack.now) p here → IfSome result
        (SkipsTo (F.never finder.now (chars haystack.now)) haystack.now p) }
{
    if finder.needed_words().is_none() && finder.can_begin(haystack, here) {
        return None;
    }
    let at = first_start(finder, haystack, here.at);
    if at == here.at {
        return None;
    }
    Some(at)
}

/// The first offset from this one on at which a match can begin, or the haystack's end.
#[inline(always)]
pub(super) fn first_start<F: StartFinder>(finder: &F, haystack: &str, from: usize) -> usize
    requires { IsCharBoundary haystack.now from }
    ensures boundary { IsCharBoundary haystack.now result }
    ensures passes { (p : ℕ) → IsOffset (chars haystack.now) p from
        → SkipsTo (F.never finder.now (chars haystack.now)) haystack.now p result }
{
    match finder.needed_words() {
        None => finder.first_known(haystack, from),
        Some(needed) => first_by_needed(finder, needed, haystack, from),
    }
}

/// The first offset from this one on at which a match can begin, or the haystack's end, where each
/// match needs one of these words.
// Not inlined, so that a pattern without one costs no more than the test for it.
#[inline(never)]
fn first_by_needed<F: StartFinder>(
    finder: &F,
    needed: &Needed,
    haystack: &str,
    from: usize,
) -> usize
    requires boundary { IsCharBoundary haystack.now from }
    requires needed { (haystack : Text) (i : ℕ) → IsOutOfReach needed.now haystack i
        → F.never finder.now haystack i }
    ensures boundary { IsCharBoundary haystack.now result }
    ensures passes { (p : ℕ) → IsOffset (chars haystack.now) p from
        → SkipsTo (F.never finder.now (chars haystack.now)) haystack.now p result }
{
    let bytes = haystack.as_bytes();
    let mut at = from;
    'starts: loop {
        let Some(reach) = next_reach(needed, bytes, at) else {
            return bytes.len();
        };
        if reach.from == at && at > from {
            return at;
        }
        let start = finder.first_known(haystack, reach.from);
        if start <= reach.word {
            return start;
        }
        at = start;
    }
}

/// The first offset from this one on from which a word may be reached, and one up to which it is
/// then. Behind a character that may stand before the words none is looked for: a search has
/// come from there, and looked for it before. So a text is looked at once, and not once for each
/// position.
fn next_reach(needed: &Needed, bytes: &[u8], from: usize) -> Option<Reach>
    requires { from ≤ length bytes.now }
    ensures { MatchOption result
        ((k : ℕ) → from ≤ k → ¬ Reaches needed.now bytes.now k)
        (λ reach. (from ≤ reach.from) × (reach.from ≤ reach.word)
        × (reach.from ≤ length bytes.now)
        × ((k : ℕ) → from ≤ k → k < reach.from → ¬ Reaches needed.now bytes.now k)) }
{
    if from > 0 && needed.may_lead(bytes[from - 1]) {
        return Some(Reach { from, word: from });
    }
    needed.next_reach(bytes, from)
}
