//! One-off searches with a lazy DFA, for one pattern or for several.
//!
//! A match near the start costs no memory for a lazy DFA, since the first steps are the PikeVM's.
//! The search goes on in the state in which it is then. Where the lazy DFA of a list is given up,
//! it goes on by the index from where it is: to begin again would count the same tries twice.
ghost use Rattle.std.specs.Prelude.{◌≡◌, ◌<◌, ◌+◌, ℕ, IfErr, IfOk, IfSome};
ghost use Rattle.std.specs.Prelude.{IsCharBoundary, None, chars, length, true};
ghost use Rattle.regex_lite_meta.specs.LazyDfa.Scanning.{best_reported};
ghost use Rattle.regex_lite_engine.specs.Graph.Parts.{IsOwnPart, row_of};
ghost use Rattle.regex_lite_engine.specs.Graph.Renumbered.{arrows_of};
ghost use Rattle.regex_lite_engine.specs.Search.Bounds.{IsBoundedBy, characters_left};
ghost use Rattle.regex_lite_engine.specs.Search.Offsets.{position_at};
ghost use Rattle.regex_lite_engine.specs.Search.Here.{IsHere};
ghost use Rattle.regex_lite_engine.specs.Search.Starts.{AreAllStarts};
ghost use Rattle.regex_lite_engine.specs.Search.Counting.{CanCount};
ghost use Rattle.regex_lite_engine.specs.Search.NumberedOutcomes.{IsFoundOf};
ghost use Rattle.regex_lite_engine.specs.Pikevm.Passing.{IsUnderWay};
ghost use Rattle.regex_lite_engine.specs.Pikevm.Searching.{IsBetween, IsFresh};
ghost use Rattle.regex_lite_engine.specs.Pikevm.Stepping.{best_of};

use crate::lazy_dfa::automaton::LazyDfa;
use crate::lazy_dfa::run::Position;
use crate::strategy::STEPS_BEFORE_DFA;
use regex_lite_engine::pikevm::cache::Cache;
use regex_lite_engine::pikevm::run::advance;
use regex_lite_engine::pikevm::thread_start::MatchStart;
use regex_lite_engine::search::here::Here;
use regex_lite_engine::search::patterns::Patterns;
use std::alloc::Global;

pub(crate) mod list;
pub(crate) mod one;

/// The span of the match that a one-off search finds, with the number of its pattern. If EARLIEST,
/// it is one with the least end, and its start and number are meaningless. A search that isn't over
/// soon continues with a lazy DFA. `patterns` are those that can start at a position, and `all`
/// start everywhere.
pub(crate) fn find_once<P: Patterns, A: Patterns, const EARLIEST: bool>(
    patterns: &mut P,
    all: &A,
    alloc: Global,
    cache: &mut Cache<MatchStart>,
    haystack: &str,
    start: usize,
) -> Option<(MatchStart, usize)>
    requires all { AreAllStarts (A.table all.now) (A.entries all.now) (A.starts all.now) }
    requires table { A.table all.now ≡ P.table patterns.old }
    requires entries { A.entries all.now ≡ P.entries patterns.old }
    requires boundary { IsCharBoundary haystack.now start }
    requires fresh { IsFresh (P.table patterns.old) cache.old }
    requires counts { CanCount (P.table patterns.old) (length (P.entries patterns.old))
        (characters_left (chars haystack.now) (position_at haystack.now start)) }
    requires width { length cache.old.walk.memory.row ≡ 0 }
    ensures found { IsFoundOf EARLIEST (P.table patterns.old) (chars haystack.now)
        (P.entries patterns.old) (position_at haystack.now start) (best_reported result) }
    ensures bounded { IsBoundedBy (length (P.table patterns.old))
        (arrows_of (P.table patterns.old) + length (P.entries patterns.old)) (chars haystack.now)
        (position_at haystack.now start) cache.new.walk.steps.tried
        cache.new.walk.steps.entered cache.new.walk.steps.looked }
    ensures own { (low len : ℕ) → IsOwnPart (P.table patterns.old) (P.entries patterns.old) low len
        → IsBoundedBy len
        (arrows_of (row_of (P.table patterns.old) low len) + length (P.entries patterns.old))
        (chars haystack.now) (position_at haystack.now start) cache.new.walk.steps.tried
        cache.new.walk.steps.entered cache.new.walk.steps.looked }
    ensures entered { IfSome result (λ _. 0 < cache.new.walk.steps.entered) }
    ensures between { IsBetween (P.table patterns.old) cache.new }
    ensures width { length cache.new.walk.memory.row ≡ 0 }
{
    let here = Here::at(haystack, start);
    let soon = advance::<_, _, EARLIEST>(cache, patterns, haystack, here, Some(STEPS_BEFORE_DFA));
    let Some(here) = soon else {
        return cache.best.found();
    };
    match find_by_new_dfa::<_, EARLIEST>(all, alloc, cache, haystack, here) {
        Ok(found) => found,
        Err(here) => {
            advance::<_, _, EARLIEST>(cache, patterns, haystack, here, None);
            cache.best.found()
        }
    }
}

/// Continues with a new lazy DFA. Returns the search's position if there is no memory for one, or
/// if it is given up.
fn find_by_new_dfa<A: Patterns, const EARLIEST: bool>(
    all: &A,
    alloc: Global,
    cache: &mut Cache<MatchStart>,
    haystack: &str,
    from: Here,
) -> Result<Option<(MatchStart, usize)>, Here>
    requires all { AreAllStarts (A.table all.now) (A.entries all.now) (A.starts all.now) }
    requires on { (s p : ℕ) × IsHere (chars haystack.now) p from
        × CanCount (A.table all.now) (length (A.entries all.now))
        (characters_left (chars haystack.now) s)
        × IsUnderWay (A.table all.now) (chars haystack.now) (A.entries all.now) s p cache.old }
    requires none { EARLIEST ≡ true → best_of cache.old.best ≡ None }
    requires width { length cache.old.walk.memory.row ≡ 0 }
    ensures found { (s p : ℕ) → IsHere (chars haystack.now) p from
        → IsUnderWay (A.table all.now) (chars haystack.now) (A.entries all.now) s p cache.old
        → IfOk result (λ found. IsFoundOf EARLIEST (A.table all.now) (chars haystack.now)
        (A.entries all.now) s (best_reported found)) }
    ensures bounded { (s p : ℕ) → IsHere (chars haystack.now) p from
        → IsUnderWay (A.table all.now) (chars haystack.now) (A.entries all.now) s p cache.old
        → IfOk result (λ _. IsBoundedBy (length (A.table all.now))
        (arrows_of (A.table all.now) + length (A.entries all.now)) (chars haystack.now) s
        cache.new.walk.steps.tried cache.new.walk.steps.entered cache.new.walk.steps.looked) }
    ensures own { (s p : ℕ) → IsHere (chars haystack.now) p from
        → IsUnderWay (A.table all.now) (chars haystack.now) (A.entries all.now) s p cache.old
        → IfOk result (λ _. (low len : ℕ)
        → IsOwnPart (A.table all.now) (A.entries all.now) low len → IsBoundedBy len
        (arrows_of (row_of (A.table all.now) low len) + length (A.entries all.now))
        (chars haystack.now) s cache.new.walk.steps.tried cache.new.walk.steps.entered
        cache.new.walk.steps.looked) }
    ensures entered { IfOk result (λ found. IfSome found
        (λ _. 0 < cache.new.walk.steps.entered)) }
    ensures stands { (s p : ℕ) → IsHere (chars haystack.now) p from
        → IsUnderWay (A.table all.now) (chars haystack.now) (A.entries all.now) s p cache.old
        → IfErr result (λ here. (q : ℕ) × IsHere (chars haystack.now) q here
        × IsUnderWay (A.table all.now) (chars haystack.now) (A.entries all.now) s q cache.new) }
    ensures none { IfErr result (λ _. EARLIEST ≡ true → best_of cache.new.best ≡ None) }
    ensures between { IsBetween (A.table all.now) cache.new }
    ensures width { length cache.new.walk.memory.row ≡ 0 }
{
    let Some(mut dfa) = LazyDfa::for_patterns(alloc, all) else {
        return Err(from);
    };
    let Some(at) = Position::on_the_way(cache, from) else {
        return Err(from);
    };
    let state = dfa.state_at(all, at, cache);
    let at = at.with_state(state);
    match dfa.search_while_it_pays::<_, EARLIEST>(all, cache, haystack, at, 1) {
        Ok(found) => Ok(found),
        Err(at) => Err(at.here),
    }
}
