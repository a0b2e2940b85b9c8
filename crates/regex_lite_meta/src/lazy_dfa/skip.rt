//! The start state, without thread and match: a search follows cached transitions there, or skips
//! positions at which no match can begin.
//!
//! Without a prefilter up to four bytes at which no match can begin are stepped over, so that their
//! transitions are cached. After eight transitions in a row from a start state to itself the search
//! skips, also by a prefilter: asking that at once costs more where matches are near.
ghost use Rattle.std.specs.Prelude.{◌≡◌, ◌<◌, ◌≤◌, [], ℕ, List, IfSome, MatchOption, None, Some};
ghost use Rattle.std.specs.Prelude.{chars, false, length, slice_get, true};
ghost use Rattle.regex_lite_meta.specs.LazyDfa.Automaton.{IsDfaOf, IsEmptyState, State};
ghost use Rattle.regex_lite_meta.specs.LazyDfa.Running.{Stands, StandsAtStartState};
ghost use Rattle.regex_lite_meta.specs.LazyDfa.Scanning.{EndsWith, GoesOn, IsScanning};
ghost use Rattle.regex_lite_engine.specs.Graph.Places.{Place};
ghost use Rattle.regex_lite_engine.specs.Search.Here.{IsHere};
ghost use Rattle.regex_lite_engine.specs.Search.Starts.{PassesTo};
ghost use Rattle.regex_lite_engine.specs.Search.Starts.{AreDeadAt};

use crate::lazy_dfa::automaton::LazyDfa;
use crate::lazy_dfa::run::Position;
use crate::lazy_dfa::scan::DfaPosition;
use crate::lazy_dfa::state::MatchFlag;
use crate::strategy::NEAR;
use regex_lite_engine::pikevm::cache::Cache;
use regex_lite_engine::pikevm::thread_start::MatchStart;
use regex_lite_engine::search::here::Here;
use regex_lite_engine::search::patterns::{Patterns, pass_over};

impl LazyDfa {
    /// Without thread and match, skips positions at which no match can begin, unless following
    /// transitions is faster.
    #[inline(always)]
    pub(super) fn at_start_state<P: Patterns>(
        &mut self,
        patterns: &P,
        cache: &Cache<MatchStart>,
        haystack: &str,
        at: Position,
    ) -> Position
        requires is_dfa { IsDfaOf (P.table patterns.now) (P.entries patterns.now) self.old }
        requires none_pending { self.old.pending ≡ [] }
        requires stands { (s : ℕ) × Stands (P.table patterns.now) (chars haystack.now)
            (P.entries patterns.now) s self.old at cache.now }
        ensures is_dfa { IsDfaOf (P.table patterns.now) (P.entries patterns.now) self.new }
        ensures none_pending { self.new.pending ≡ [] }
        ensures stands { (s : ℕ) → Stands (P.table patterns.now) (chars haystack.now)
            (P.entries patterns.now) s self.old at cache.now
            → Stands (P.table patterns.now) (chars haystack.now) (P.entries patterns.now) s self.new
            result cache.now }
        ensures later { at.here.at ≤ result.here.at }
    {
        if cache.walk.memory.threads() > 0 || !cache.best.is_none() {
            return self.find_state_again(patterns, cache, at);
        }
        if let Some(in_start) = self.stay_in_start_state(patterns, at) {
            return in_start;
        }
        let here = self.leave_start_state(patterns, haystack, at.here);
        let state = self.settle_start_state(here.before);
        Position {
            here,
            state,
            first: here.at,
            until: at.until,
            anew: at.anew,
        }
    }

    /// The start state after this character, if it is cached or fits.
    fn settle_start_state(&mut self, before: Option<char>) -> Option<u16>
        requires none_pending { self.old.pending ≡ [] }
        ensures is_dfa { (table : List (Place ℕ)) (entries : List ℕ)
            → IsDfaOf table entries self.old → IsDfaOf table entries self.new }
        ensures none_pending { self.new.pending ≡ [] }
        ensures state { MatchOption result (Unit {0}) (λ y. IsEmptyState self.new y before) }
    {
        let context = self.context(before);
        self.settle(true, context, MatchFlag::Nowhere, false)
    }

    /// The same position in the start state, if the transition from there is cached.
    pub(super) fn stay_in_start_state<P: Patterns>(
        &self,
        patterns: &P,
        at: Position,
    ) -> Option<Position>
        ensures { IfSome result (StandsAtStartState self.now at) }
    {
        // A prefilter is faster than transitions.
        if patterns.has_prefilter() {
            return None;
        }
        let state = self.empty_state(at.here.before)?;
        if !self.knows(state, at.here.after) {
            return None;
        }
        Some(Position {
            here: at.here,
            state: Some(state),
            first: at.here.at,
            until: at.until,
            anew: at.anew,
        })
    }

    /// The next position at which a match can begin, or this one if stepping beats skipping.
    pub(super) fn leave_start_state<P: Patterns>(
        &self,
        patterns: &P,
        haystack: &str,
        here: Here,
    ) -> Here
        requires { (p : ℕ) × IsHere (chars haystack.now) p here }
        ensures { (p : ℕ) → IsHere (chars haystack.now) p here
            → PassesTo (AreDeadAt (P.table patterns.now) (chars haystack.now)
            (P.entries patterns.now)) (chars haystack.now) p result }
    {
        let next = pass_over(patterns, haystack, here);
        if self.is_worth_stepping(patterns, here, next) {
            return here;
        }
        next
    }

    /// Like `run`, but first skips positions at which no match can begin, and does so again where
    /// `run` is stuck.
    // Not inlined, so that a search without a prefilter pays only for the call.
    #[inline(never)]
    pub(super) fn run_with_skips<P: Patterns, const EARLIEST: bool>(
        &self,
        patterns: &P,
        haystack: &str,
        at: &mut DfaPosition,
    ) -> bool
        requires is_dfa { IsDfaOf (P.table patterns.now) (P.entries patterns.now) self.now }
        requires none { EARLIEST ≡ true → at.old.best ≡ None }
        requires scanning { (low p : ℕ) × IsScanning (P.table patterns.now) (P.entries patterns.now)
            (chars haystack.now) low p self.now at.old }
        ensures over { result ≡ true → EndsWith (P.table patterns.now) (P.entries patterns.now)
            (chars haystack.now) self.now EARLIEST at.old at.new.best }
        ensures on { result ≡ false → GoesOn (P.table patterns.now) (P.entries patterns.now)
            (chars haystack.now) self.now at.old at.new }
        ensures none { EARLIEST ≡ true → result ≡ false → at.new.best ≡ None }
    {
        'prefilter_skips: loop {
            if !self.skip_by_prefilter(patterns, haystack, at) {
                return false;
            }
            if self.run::<P, EARLIEST>(patterns, haystack, at) {
                return true;
            }
        }
    }

    /// In the start state without looks, skips to the next position that the prefilter finds, if
    /// there is a prefilter. Returns whether that is a later position. The state stays the same,
    /// since the graph has no looks.
    #[inline(always)]
    fn skip_by_prefilter<P: Patterns>(
        &self,
        patterns: &P,
        haystack: &str,
        at: &mut DfaPosition,
    ) -> bool
        requires scanning { (low p : ℕ) × IsScanning (P.table patterns.now) (P.entries patterns.now)
            (chars haystack.now) low p self.now at.old }
        ensures on { result ≡ true → GoesOn (P.table patterns.now) (P.entries patterns.now)
            (chars haystack.now) self.now at.old at.new }
        ensures later { result ≡ true → at.old.at < at.new.at }
        ensures same { result ≡ false → at.new ≡ at.old }
        ensures none { at.new.best ≡ at.old.best }
    {
        if !self.may_skip(patterns, haystack, at) {
            return false;
        }
        let Some(next) = patterns.skip(haystack, Here::at(haystack, at.at)) else {
            return false;
        };
        if next.at <= at.at {
            return false;
        }
        at.at = next.at;
        at.first = next.at;
        at.start_state_at = next.at;
        true
    }

    /// Whether there is a prefilter to skip by: the scan is in the start state without a match, the
    /// graph has no looks, and the haystack isn't at its end.
    #[inline(always)]
    fn may_skip<P: Patterns>(&self, patterns: &P, haystack: &str, at: &DfaPosition) -> bool
        requires { at.now.state < length self.now.states }
        ensures looks { result ≡ true → self.now.intervals.looks ≡ false }
        ensures none { result ≡ true → at.now.best ≡ None }
        ensures empty { result ≡ true → (state : State)
            → slice_get self.now.states at.now.state ≡ Some state → state.ways ≡ [] }
    {
        at.at < haystack.len()
            && patterns.has_prefilter()
            && !self.has_looks()
            && at.best.is_none()
            && self.is_empty(at.state)
    }

    /// Whether stepping to this position, which caches the transitions, beats skipping.
    #[inline(always)]
    pub(super) fn is_worth_stepping<P: Patterns>(
        &self,
        patterns: &P,
        here: Here,
        next: Here,
    ) -> bool {
        !patterns.has_prefilter()
            && here.at < next.at
            && next.at - here.at <= NEAR
            && self.has_capacity()
    }

    /// Whether the transition from this state is cached.
    #[inline(always)]
    pub(super) fn knows(&self, x: u16, next: Option<char>) -> bool
        requires { x < length self.now.states }
    {
        self.cached_state(x, self.classes.class(next)).is_some()
    }
}
