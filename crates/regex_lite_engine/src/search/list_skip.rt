//! The positions at which none of several patterns can start, which a search passes over.
ghost use Rattle.std.specs.Prelude.{◌≡◌, ◌≤◌, ◌<◌, ◌+◌, ℕ, IfSome, IsCharBoundary};
ghost use Rattle.std.specs.Prelude.{IsTrue, chars, false, length, slice_index};
ghost use Rattle.regex_lite_engine.specs.Graph.StoredList.{table_of_list};
ghost use Rattle.regex_lite_syntax.specs.Prefilter.PrefixIndex.{IsPassedByAll};
ghost use Rattle.regex_lite_syntax.specs.Prefilter.FirstSet.{stops_at};
ghost use Rattle.regex_lite_syntax.specs.Prefilter.Pairs.{HasAllPairs};
ghost use Rattle.regex_lite_engine.specs.Search.Here.{IsHere};
ghost use Rattle.regex_lite_engine.specs.Search.Starts.{PassesTo};
ghost use Rattle.regex_lite_engine.specs.Search.Starts.{AreDeadAt};

use crate::nfa::list::GraphList;
use crate::search::here::{Here, first_char};
use crate::search::start_finder::{StartFinder, next_start};
use regex_lite_syntax::prefilter::{FirstSet, Needed, PrefixIndex};

/// The next position after this one at which a match of any pattern can begin, or the haystack's
/// end. None if one may begin here.
// Inlined, since each position passes here.
#[inline(always)]
pub fn skip_all(list: &GraphList, haystack: &str, here: Here) -> Option<Here>
    requires { (p : ℕ) × IsHere (chars haystack.now) p here }
    ensures { (p : ℕ) → IsHere (chars haystack.now) p here → IfSome result
        (PassesTo (AreDeadAt (table_of_list list.now) (chars haystack.now) list.now.entries)
        (chars haystack.now) p) }
{
    let at = next_start(list, haystack, here)?;
    Some(Here::at(haystack, at))
}

impl StartFinder for GraphList {
    ghost use Rattle.regex_lite_engine.specs.Graph.StoredList.{table_of_list};
    ghost use Rattle.regex_lite_engine.specs.Search.Starts.{AreDeadAt};

    ghost never = { λ list haystack i. AreDeadAt (table_of_list list) haystack list.entries i };

    #[inline(always)]
    fn can_begin(&self, _: &str, here: Here) -> bool {
        here.before.is_none() && self.prefixes().any.may_begin(here.before, here.after)
    }

    // Not inlined, since the loop of a search is so large that this one would lose its registers.
    #[inline(never)]
    fn first_known(&self, haystack: &str, from: usize) -> usize {
        let prefixes = self.prefixes();
        // At the haystack's start the pairs don't cover all patterns.
        if from == 0 && prefixes.any.may_begin(None, first_char(haystack, 0)) {
            return 0;
        }
        next_offset(prefixes, haystack.as_bytes(), from)
    }

    #[inline(always)]
    fn needed_words(&self) -> Option<&Needed> {
        self.needed()
    }
}

/// The first offset from this one on at which a match can begin, judging by two bytes, or the end.
fn next_offset(prefixes: &PrefixIndex, bytes: &[u8], from: usize) -> usize
    requires pairs { HasAllPairs prefixes.now }
    requires from { from ≤ length bytes.now }
    ensures low { from ≤ result }
    ensures passed { (k : ℕ) → from ≤ k → k < result → IsPassedByAll prefixes.now bytes.now k }
    ensures boundary { IsCharBoundary bytes.now result }
{
    let mut at = from;
    'fours: while bytes.len() - at >= 4 {
        if !passes_four(&prefixes.any, bytes, at) {
            for k in 0..4 {
                if prefixes.may_begin_at(bytes, at + k) {
                    return at + k;
                }
            }
        }
        at += 4;
    }
    'ones: while at < bytes.len() {
        if prefixes.may_begin_at(bytes, at) {
            return at;
        }
        at += 1;
    }
    at
}

/// Whether no match can begin with any of the next four bytes.
fn passes_four(starts: &FirstSet, bytes: &[u8], at: usize) -> bool
    requires { at + 4 ≤ length bytes.now }
    ensures { IsTrue result → (k : ℕ) → at ≤ k → k < at + 4
        → stops_at starts.now (slice_index bytes.now k) ≡ false }
{
    starts.passes(bytes[at], bytes[at + 1], bytes[at + 2], bytes[at + 3])
}
