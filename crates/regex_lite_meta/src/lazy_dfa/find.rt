//! A whole search with the lazy DFA: it follows cached transitions, and computes and caches the
//! others.
ghost use Rattle.std.specs.Prelude.{◌≡◌, ◌+◌, ◌≤◌, [], ℕ, IfErr, IfOk, IfSome, MatchOption, None};
ghost use Rattle.std.specs.Prelude.{chars, false, length, true, ◌<◌, ◌⊎◌, All, IsCharBoundary};
ghost use Rattle.regex_lite_meta.specs.LazyDfa.Automaton.{IsDfaOf};
ghost use Rattle.regex_lite_meta.specs.LazyDfa.Running.{Stands, NoneStartsBeforeOf};
ghost use Rattle.regex_lite_meta.specs.LazyDfa.Scanning.{best_reported, ComesTo, IsScanning};
ghost use Rattle.regex_lite_engine.specs.Graph.Parts.{IsOwnPart, row_of};
ghost use Rattle.regex_lite_engine.specs.Graph.Renumbered.{arrows_of};
ghost use Rattle.regex_lite_engine.specs.Search.Starts.{AreAllStarts};
ghost use Rattle.regex_lite_engine.specs.Search.Bounds.{IsBoundedBy, characters_left};
ghost use Rattle.regex_lite_engine.specs.Search.Offsets.{position_at};
ghost use Rattle.regex_lite_engine.specs.Search.Counting.{CanCount};
ghost use Rattle.regex_lite_engine.specs.Search.NumberedOutcomes.{IsFoundOf};
ghost use Rattle.regex_lite_engine.specs.Pikevm.Searching.{IsBetween};
ghost use Rattle.regex_lite_engine.specs.Pikevm.Stepping.{best_of};

use crate::lazy_dfa::automaton::LazyDfa;
use crate::lazy_dfa::reach::back;
use crate::lazy_dfa::run::{
    Position, first_after, go_over, load_ways, may_have, next_position, reset,
};
use crate::lazy_dfa::scan::DfaPosition;
use crate::lazy_dfa::state::StoredWay;
use regex_lite_engine::pikevm::cache::Cache;
use regex_lite_engine::pikevm::run::{advance, is_done};
use regex_lite_engine::pikevm::thread_start::MatchStart;
use regex_lite_engine::search::here::Here;
use regex_lite_engine::search::patterns::Patterns;

impl LazyDfa {
    /// The most preferred match from the least start at or after this offset: its span, and the
    /// number of its pattern. If EARLIEST, it is a match with the least end of all that start there
    /// or later, and its start and number are meaningless.
    ///
    /// Condition: the offset is on a character boundary.
    // Inlined, since most searches are short.
    #[inline(always)]
    pub(crate) fn find<P: Patterns + Copy, const EARLIEST: bool>(
        &mut self,
        patterns: &P,
        cache: &mut Cache<MatchStart>,
        haystack: &str,
        from: usize,
    ) -> Option<(MatchStart, usize)>
        requires all { AreAllStarts (P.table patterns.now) (P.entries patterns.now)
            (P.starts patterns.now) }
        requires is_dfa { IsDfaOf (P.table patterns.now) (P.entries patterns.now) self.old }
        requires none_pending { self.old.pending ≡ [] }
        requires between { IsBetween (P.table patterns.now) cache.old }
        requires boundary { IsCharBoundary haystack.now from }
        requires on { CanCount (P.table patterns.now) (length (P.entries patterns.now))
            (characters_left (chars haystack.now) (position_at haystack.now from)) }
        requires width { length cache.old.walk.memory.row ≡ 0 }
        ensures found { IsFoundOf EARLIEST (P.table patterns.now) (chars haystack.now)
            (P.entries patterns.now) (position_at haystack.now from) (best_reported result) }
        ensures is_dfa { IsDfaOf (P.table patterns.now) (P.entries patterns.now) self.new }
        ensures none_pending { self.new.pending ≡ [] }
        ensures between { IsBetween (P.table patterns.now) cache.new }
        ensures width { length cache.new.walk.memory.row ≡ 0 }
    {
        match self.search::<_, EARLIEST>(patterns, cache, haystack, from) {
            Ok(found) => found,
            Err(at) => {
                let mut own = *patterns;
                advance::<_, _, EARLIEST>(cache, &mut own, haystack, at.here, None);
                cache.best.found()
            }
        }
    }

    /// The most preferred match or, if EARLIEST, one with the least end, of a search that continues
    /// from this position. If too many transitions don't fit the cache, the error is the search's
    /// position. No transition is looked up before the search has entered `least` places, 0 or 1: a
    /// new lazy DFA has no cached transition before the first step.
    pub(crate) fn search_while_it_pays<P: Patterns, const EARLIEST: bool>(
        &mut self,
        patterns: &P,
        cache: &mut Cache<MatchStart>,
        haystack: &str,
        from: Position,
        least: u128,
    ) -> Result<Option<(MatchStart, usize)>, Position>
        requires all { AreAllStarts (P.table patterns.now) (P.entries patterns.now)
            (P.starts patterns.now) }
        requires is_dfa { IsDfaOf (P.table patterns.now) (P.entries patterns.now) self.old }
        requires none_pending { self.old.pending ≡ [] }
        requires stands { (s : ℕ)
            × CanCount (P.table patterns.now) (length (P.entries patterns.now))
            (characters_left (chars haystack.now) s)
            × Stands (P.table patterns.now) (chars haystack.now) (P.entries patterns.now) s self.old
            from cache.old }
        requires none { EARLIEST ≡ true → best_of cache.old.best ≡ None }
        requires least { least ≤ 1 }
        ensures found { (s : ℕ) → Stands (P.table patterns.now) (chars haystack.now)
            (P.entries patterns.now) s self.old from cache.old
            → IfOk result (λ found. IsFoundOf EARLIEST (P.table patterns.now) (chars haystack.now)
            (P.entries patterns.now) s (best_reported found)) }
        ensures bounded { (s : ℕ) → Stands (P.table patterns.now) (chars haystack.now)
            (P.entries patterns.now) s self.old from cache.old
            → IfOk result (λ _. IsBoundedBy (length (P.table patterns.now))
            (arrows_of (P.table patterns.now) + length (P.entries patterns.now))
            (chars haystack.now) s cache.new.walk.steps.tried cache.new.walk.steps.entered
            cache.new.walk.steps.looked) }
        ensures own { (s : ℕ) → Stands (P.table patterns.now) (chars haystack.now)
            (P.entries patterns.now) s self.old from cache.old
            → IfOk result (λ _. (low len : ℕ)
            → IsOwnPart (P.table patterns.now) (P.entries patterns.now) low len
            → IsBoundedBy len (arrows_of (row_of (P.table patterns.now) low len)
            + length (P.entries patterns.now)) (chars haystack.now) s
            cache.new.walk.steps.tried cache.new.walk.steps.entered
            cache.new.walk.steps.looked) }
        ensures entered { IfOk result (λ found. IfSome found
            (λ _. least ≤ cache.new.walk.steps.entered)) }
        ensures stands { (s : ℕ) → Stands (P.table patterns.now) (chars haystack.now)
            (P.entries patterns.now) s self.old from cache.old
            → IfErr result (λ at. Stands (P.table patterns.now) (chars haystack.now)
            (P.entries patterns.now) s self.new at cache.new) }
        ensures none { IfErr result (λ _. EARLIEST ≡ true → best_of cache.new.best ≡ None) }
        ensures not_anew { IfErr result (λ at. at.anew ≡ false) }
        ensures is_dfa { IsDfaOf (P.table patterns.now) (P.entries patterns.now) self.new }
        ensures none_pending { self.new.pending ≡ [] }
        ensures between { IsBetween (P.table patterns.now) cache.new }
        ensures width { length cache.new.walk.memory.row ≡ 0 }
    {
        let mut at = from;
        'positions: loop {
            at = self.at_start_state(patterns, cache, haystack, at);
            let ahead = self.look_ahead::<_, EARLIEST>(patterns, cache, haystack, &mut at, least);
            if let Some(found) = ahead {
                return Ok(found);
            }
            if self.is_given_up(at, from.here.at) {
                return Err(at);
            }
            let match_flag = go_over(cache, patterns, haystack, at.here);
            let first = first_after(cache, at);
            at.state = self.determinize(patterns, cache, at, match_flag, first);
            at.first = first;
            if is_done::<_, EARLIEST>(at.here, cache) {
                return Ok(cache.best.found());
            }
            at = next_position(cache, haystack, at);
        }
    }

    /// Follows cached transitions, if the search has entered `least` places. Returns the answer if
    /// they lead to it: the most preferred match or, if EARLIEST, one with the least end. Otherwise
    /// the search continues where they end, or where it was.
    #[inline(always)]
    fn look_ahead<P: Patterns, const EARLIEST: bool>(
        &self,
        patterns: &P,
        cache: &mut Cache<MatchStart>,
        haystack: &str,
        at: &mut Position,
        least: u128,
    ) -> Option<Option<(MatchStart, usize)>>
        requires is_dfa { IsDfaOf (P.table patterns.now) (P.entries patterns.now) self.now }
        requires stands { (s : ℕ) × Stands (P.table patterns.now) (chars haystack.now)
            (P.entries patterns.now) s self.now at.old cache.old }
        requires none { EARLIEST ≡ true → best_of cache.old.best ≡ None }
        ensures stands { (s : ℕ) → Stands (P.table patterns.now) (chars haystack.now)
            (P.entries patterns.now) s self.now at.old cache.old
            → MatchOption result (Stands (P.table patterns.now) (chars haystack.now)
            (P.entries patterns.now) s self.now at.new cache.new)
            (λ best. IsFoundOf EARLIEST (P.table patterns.now) (chars haystack.now)
            (P.entries patterns.now) s (best_reported best)) }
        ensures none { EARLIEST ≡ true → best_of cache.new.best ≡ None }
        ensures between { IsBetween (P.table patterns.now) cache.new }
        ensures width { length cache.new.walk.memory.row ≡ 0 }
        ensures later { at.old.here.at ≤ at.new.here.at }
        ensures entered { IfSome result (λ _. least ≤ cache.new.walk.steps.entered) }
        ensures same { IfSome result (λ _. cache.new ≡ cache.old) }
    {
        let Some(state) = at.state else {
            return None;
        };
        if at.here.at < at.until || cache.walk.steps.entered() < least {
            return None;
        }
        let mut to = DfaPosition {
            at: at.here.at,
            state,
            first: at.first,
            start_state_at: at.first,
            best: cache.best.found(),
        };
        if self.scan::<P, EARLIEST>(patterns, haystack, &mut to) {
            return Some(to.best);
        }
        self.resume(patterns, cache, haystack, at, to);
        self.begin_anew(patterns, cache, haystack, at, to);
        None
    }

    /// Continues where cached transitions end, if all threads there began at the first start, and
    /// no match was found or a place was entered before. Otherwise it continues after the last
    /// position without thread and match, or where the search was.
    #[inline(never)]
    pub(super) fn resume<P: Patterns>(
        &self,
        patterns: &P,
        cache: &mut Cache<MatchStart>,
        haystack: &str,
        at: &mut Position,
        stuck: DfaPosition,
    )
        requires is_dfa { IsDfaOf (P.table patterns.now) (P.entries patterns.now) self.now }
        requires state { stuck.state < length self.now.states }
        requires stands { (s : ℕ) × (stands : Stands (P.table patterns.now) (chars haystack.now)
            (P.entries patterns.now) s self.now at.old cache.old)
            × ComesTo (P.table patterns.now) (P.entries patterns.now) (chars haystack.now)
            stands.from stands.p at.old.first self.now stuck }
        ensures stands { (s : ℕ) → (stands : Stands (P.table patterns.now) (chars haystack.now)
            (P.entries patterns.now) s self.now at.old cache.old)
            → ComesTo (P.table patterns.now) (P.entries patterns.now) (chars haystack.now)
            stands.from stands.p at.old.first self.now stuck
            → Stands (P.table patterns.now) (chars haystack.now) (P.entries patterns.now) s self.now
            at.new cache.new }
        ensures none { stuck.best ≡ None → best_of cache.old.best ≡ None
            → best_of cache.new.best ≡ None }
        ensures later { at.old.here.at ≤ at.new.here.at }
    {
        if stuck.at == at.here.at {
            return;
        }
        let ways = self.ways(stuck.state as usize);
        if may_load(ways, stuck) && may_have(cache, stuck.best) {
            load_ways(cache, ways, stuck.first, stuck.best);
            at.state = Some(stuck.state);
            at.first = stuck.first;
            at.here = Here::at(haystack, stuck.at);
            return;
        }
        // This doesn't overflow: no haystack is that long.
        at.until = stuck.at + 1;
        if stuck.start_state_at > at.here.at {
            let here = Here::at(haystack, stuck.start_state_at);
            reset(cache);
            at.state = self.empty_state(here.before);
            at.first = here.at;
            at.here = here;
        }
    }

    /// Begins anew before the end of the cached transitions, by the greatest number of characters
    /// that a path reads, if that is known and the new position is after the search's. No match
    /// starts before that position: it would be complete where the transitions end, and none is.
    pub(super) fn begin_anew<P: Patterns>(
        &self,
        patterns: &P,
        cache: &mut Cache<MatchStart>,
        haystack: &str,
        at: &mut Position,
        stuck: DfaPosition,
    )
        requires is_dfa { IsDfaOf (P.table patterns.now) (P.entries patterns.now) self.now }
        requires stands { (s low q : ℕ) × Stands (P.table patterns.now) (chars haystack.now)
            (P.entries patterns.now) s self.now at.old cache.old
            × NoneStartsBeforeOf (P.table patterns.now) (chars haystack.now)
            (P.entries patterns.now) s low
            × IsScanning (P.table patterns.now) (P.entries patterns.now) (chars haystack.now) low q
            self.now stuck }
        ensures stands { (s low q : ℕ) → Stands (P.table patterns.now) (chars haystack.now)
            (P.entries patterns.now) s self.now at.old cache.old
            → NoneStartsBeforeOf (P.table patterns.now) (chars haystack.now)
            (P.entries patterns.now) s low
            → IsScanning (P.table patterns.now) (P.entries patterns.now) (chars haystack.now) low q
            self.now stuck
            → Stands (P.table patterns.now) (chars haystack.now) (P.entries patterns.now) s self.now
            at.new cache.new }
        ensures none { best_of cache.old.best ≡ None → best_of cache.new.best ≡ None }
        ensures later { at.old.here.at ≤ at.new.here.at }
    {
        let Some(reach) = self.reach() else {
            return;
        };
        if stuck.best.is_some() {
            return;
        }
        let stuck_here = Here::at(haystack, stuck.at);
        let Some(here) = back(haystack, stuck_here, reach, at.here.at) else {
            return;
        };
        reset(cache);
        at.state = None;
        at.first = here.at;
        at.here = here;
        at.anew = true;
    }
}

/// Whether all threads of this state began at the first start, and that is before this position if
/// there are any.
fn may_load(ways: &[StoredWay], stuck: DfaPosition) -> bool
    ensures all { result ≡ true → All (λ way. way.is_first ≡ true) ways.now }
    ensures before { result ≡ true → (ways.now ≡ []) ⊎ (stuck.first < stuck.at) }
{
    'ways: for k in 0..ways.len() {
        if !ways[k].is_first {
            return false;
        }
    }
    ways.is_empty() || stuck.first < stuck.at
}
