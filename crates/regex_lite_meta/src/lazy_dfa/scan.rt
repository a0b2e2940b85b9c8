//! Scans: searches that follow cached transitions only.
ghost use Rattle.std.specs.Prelude.{◌≡◌, ◌↔◌, ◌+◌, ◌<◌, ◌⊎◌, [], ℕ, IfSome, IsCharBoundary};
ghost use Rattle.std.specs.Prelude.{IsSome, IsTrue, None, Some, chars, false, length, slice_get};
ghost use Rattle.std.specs.Prelude.{true};
ghost use Rattle.regex_lite_meta.specs.LazyDfa.Automaton.{IsDfaOf, IsEmptyState, State, first_left};
ghost use Rattle.regex_lite_meta.specs.LazyDfa.Scanning.{EndsOrLeads, EndsWith, GoesOn, IsScanning};
ghost use Rattle.regex_lite_meta.specs.LazyDfa.Scanning.{best_reported};
ghost use Rattle.regex_lite_syntax.specs.Text.{Text, before};
ghost use Rattle.regex_lite_engine.specs.Search.Offsets.{position_at};
ghost use Rattle.regex_lite_engine.specs.Search.Here.{IsHere};

use crate::lazy_dfa::automaton::LazyDfa;
use crate::lazy_dfa::state::{LookContext, MatchFlag};
use regex_lite_engine::pikevm::thread_start::MatchStart;
use regex_lite_engine::search::here::{Here, last_char};
use regex_lite_engine::search::patterns::{Patterns, pass_over};

/// The position of a DFA search.
#[derive(Clone, Copy)]
pub(crate) struct DfaPosition {
    pub at: usize,
    pub state: u16,
    /// The first start, at which some threads of the state began.
    pub first: usize,
    /// The last offset without thread and match, or the first start if there was none.
    pub start_state_at: usize,
    /// The span of the last match that was found.
    pub best: Option<(MatchStart, usize)>,
}

impl DfaPosition {
    /// Sets the last match to one of this pattern that began at the first start and ends at this
    /// offset.
    #[inline(always)]
    pub(super) fn complete(&mut self, number: u32, end: usize)
        ensures { self.new ≡ record self.old {
          best = Some (record { at = self.old.first; number = number }, end);
        } }
    {
        let match_start = MatchStart {
            at: self.first,
            number,
        };
        self.best = Some((match_start, end));
    }

    /// The match of this pattern that began at the first start and ends at the scan's position.
    fn completed(&self, number: u32) -> Option<(MatchStart, usize)>
        ensures { result
            ≡ Some (record { at = self.now.first; number = number }, self.now.at) }
    {
        let match_start = MatchStart {
            at: self.first,
            number,
        };
        Some((match_start, self.at))
    }
}

impl LazyDfa {
    /// Follows cached transitions, and skips positions at which no match can begin, up to a
    /// transition that isn't cached or that completes a match whose start isn't known. Returns
    /// whether the last match is the answer: the most preferred one or, if EARLIEST, one with the
    /// least end, whose start is meaningless. The answer may be that there is no match.
    pub(super) fn scan<P: Patterns, const EARLIEST: bool>(
        &self,
        patterns: &P,
        haystack: &str,
        at: &mut DfaPosition,
    ) -> bool
        requires is_dfa { IsDfaOf (P.table patterns.now) (P.entries patterns.now) self.now }
        requires none { EARLIEST ≡ true → at.old.best ≡ None }
        requires scanning { (low p : ℕ) × IsScanning (P.table patterns.now) (P.entries patterns.now)
            (chars haystack.now) low p self.now at.old }
        ensures over { result ≡ true → EndsWith (P.table patterns.now) (P.entries patterns.now)
            (chars haystack.now) self.now EARLIEST at.old at.new.best }
        ensures on { result ≡ false → GoesOn (P.table patterns.now) (P.entries patterns.now)
            (chars haystack.now) self.now at.old at.new }
        ensures none { EARLIEST ≡ true → result ≡ false → at.new.best ≡ None }
    {
        self.run::<P, EARLIEST>(patterns, haystack, at)
            || self.scan_on::<P, EARLIEST>(patterns, haystack, at)
    }

    /// Like `scan`, from where `run` stopped.
    // Not inlined, so that searches for which `run` suffices don't pay for it.
    #[inline(never)]
    pub(super) fn scan_on<P: Patterns, const EARLIEST: bool>(
        &self,
        patterns: &P,
        haystack: &str,
        at: &mut DfaPosition,
    ) -> bool
        requires is_dfa { IsDfaOf (P.table patterns.now) (P.entries patterns.now) self.now }
        requires none { EARLIEST ≡ true → at.old.best ≡ None }
        requires scanning { (low p : ℕ) × IsScanning (P.table patterns.now) (P.entries patterns.now)
            (chars haystack.now) low p self.now at.old }
        ensures over { result ≡ true → EndsWith (P.table patterns.now) (P.entries patterns.now)
            (chars haystack.now) self.now EARLIEST at.old at.new.best }
        ensures on { result ≡ false → GoesOn (P.table patterns.now) (P.entries patterns.now)
            (chars haystack.now) self.now at.old at.new }
        ensures none { EARLIEST ≡ true → result ≡ false → at.new.best ≡ None }
    {
        'positions: loop {
            if self.run_with_skips::<P, EARLIEST>(patterns, haystack, at) {
                return true;
            }
            if !self.skip(patterns, haystack, at) {
                return false;
            }
            let here = Here::at(haystack, at.at);
            let Some((to, best)) = self.step::<P, EARLIEST>(patterns, at, here) else {
                return false;
            };
            if self.is_over::<EARLIEST>(here, to, best) {
                at.best = best;
                return true;
            }
            self.go_on(haystack, at, here, to, best);
            if self.run::<P, EARLIEST>(patterns, haystack, at) {
                return true;
            }
        }
    }

    /// In the start state, without a match, skips to the next position at which a match can begin.
    /// Returns `false` if the state at that position isn't cached, or if following transitions
    /// would be faster.
    // Inlined, so that other positions cost no more than the test.
    #[inline(always)]
    pub(super) fn skip<P: Patterns>(
        &self,
        patterns: &P,
        haystack: &str,
        at: &mut DfaPosition,
    ) -> bool
        requires scanning { (low p : ℕ) × IsScanning (P.table patterns.now) (P.entries patterns.now)
            (chars haystack.now) low p self.now at.old }
        ensures on { GoesOn (P.table patterns.now) (P.entries patterns.now)
            (chars haystack.now) self.now at.old at.new }
        ensures none { at.old.best ≡ None → at.new.best ≡ None }
    {
        // At the haystack's end there is nothing to skip.
        if at.at >= haystack.len() || at.best.is_some() || !self.is_empty(at.state) {
            return true;
        }
        self.skip_start_state(patterns, haystack, at)
    }

    /// Skips from the start state, without a match, to the next position at which a match can
    /// begin. Returns whether it could.
    #[inline(never)]
    fn skip_start_state<P: Patterns>(
        &self,
        patterns: &P,
        haystack: &str,
        at: &mut DfaPosition,
    ) -> bool
        requires scanning { (low p : ℕ) × IsScanning (P.table patterns.now) (P.entries patterns.now)
            (chars haystack.now) low p self.now at.old }
        requires none { best_reported at.old.best ≡ None }
        requires empty { (state : State) → slice_get self.now.states at.old.state ≡ Some state
            → state.ways ≡ [] }
        ensures on { GoesOn (P.table patterns.now) (P.entries patterns.now)
            (chars haystack.now) self.now at.old at.new }
        ensures none { at.new.best ≡ None }
    {
        let from = Here::at(haystack, at.at);
        let here = pass_over(patterns, haystack, from);
        if self.is_worth_stepping(patterns, from, here) && !self.knows(at.state, from.after) {
            return false;
        }
        let Some(state) = self.empty_state(here.before) else {
            return false;
        };
        *at = DfaPosition {
            at: here.at,
            state,
            first: here.at,
            start_state_at: here.at,
            best: None,
        };
        true
    }

    /// The start state of a search at this offset.
    ///
    /// Condition: the offset is on a character boundary.
    #[inline(always)]
    pub(crate) fn start_state(&self, haystack: &str, at: usize) -> Option<u16>
        requires boundary { IsCharBoundary haystack.now at }
        ensures { IfSome result (λ x. IsEmptyState self.now x
            (before (chars haystack.now) (position_at haystack.now at))) }
    {
        if !self.has_looks() {
            return self.empty_state(None);
        }
        self.empty_state(last_char(haystack, at))
    }

    /// The start state after this character.
    #[inline(always)]
    pub(crate) fn empty_state(&self, before: Option<char>) -> Option<u16>
        ensures { IfSome result (λ x. IsEmptyState self.now x before) }
    {
        let context = self.context(before);
        let x = self.starts.number(context);
        if x as usize >= self.states.len() {
            return None;
        }
        let state = &self.states[x as usize];
        if state.len == 0 && state.searching && self.sees_alike(state.before, context) {
            return Some(x);
        }
        None
    }

    /// Whether the two contexts are the same to the looks, if there are any.
    fn sees_alike(&self, context: LookContext, other: LookContext) -> bool
        ensures { result ≡ true → self.now.intervals.looks ≡ true → context ≡ other }
    {
        !self.classes.looks() || context.is(other)
    }

    /// Whether the state has no threads.
    #[tactic(auto, using(crate::proofs::lazy_dfa::StoredStateLemmas::length_states))]
    pub(super) fn is_empty(&self, x: u16) -> bool
        requires { x < length self.now.states }
        ensures { (state : State) → slice_get self.now.states x ≡ Some state
            → IsTrue result ↔ (state.ways ≡ []) }
    {
        self.states[x as usize].len == 0
    }

    /// The state that the transition from here leads to, and the last match then. `None` if that
    /// isn't known. If EARLIEST, the start of a match may be unknown.
    fn step<P: Patterns, const EARLIEST: bool>(
        &self,
        patterns: &P,
        at: &DfaPosition,
        here: Here,
    ) -> Option<(u16, Option<(MatchStart, usize)>)>
        requires is_dfa { IsDfaOf (P.table patterns.now) (P.entries patterns.now) self.now }
        requires state { at.now.state < length self.now.states }
        requires none { EARLIEST ≡ true → at.now.best ≡ None }
        ensures led { (haystack : Text) (low p : ℕ) → IsScanning (P.table patterns.now)
            (P.entries patterns.now) haystack low p self.now at.now → IsHere haystack p here
            → IfSome result (λ reported. EndsOrLeads (P.table patterns.now) (P.entries patterns.now)
            haystack low p self.now EARLIEST at.now reported.0 reported.1) }
        ensures state { IfSome result (λ reported. reported.0 < length self.now.states) }
    {
        let class = self.classes.class(here.after);
        let to = self.cached_state(at.state, class)?.state as u16;
        match self.states[to as usize].match_flag {
            MatchFlag::Nowhere => Some((to, at.best)),
            MatchFlag::AtFirst(number) => Some((to, at.completed(number))),
            MatchFlag::AtLater(number) => {
                if !EARLIEST {
                    return None;
                }
                Some((to, at.completed(number)))
            }
        }
    }

    /// Whether the answer is known after the transition.
    fn is_over<const EARLIEST: bool>(
        &self,
        here: Here,
        to: u16,
        best: Option<(MatchStart, usize)>,
    ) -> bool
        requires { to < length self.now.states }
        ensures over { (state : State) → slice_get self.now.states to ≡ Some state
            → IsTrue result → EARLIEST ≡ false → (here.after ≡ None)
            ⊎ (¬ (best_reported best ≡ None) × (state.ways ≡ [])) }
        ensures earliest { IsTrue result → (here.after ≡ None) ⊎ ¬ (best ≡ None) }
        ensures none_yet { EARLIEST ≡ true → ¬ IsTrue result → best ≡ None }
        ensures none { (state : State) → slice_get self.now.states to ≡ Some state
            → ¬ IsTrue result → state.ways ≡ [] → best ≡ None }
        ensures at_end { here.after ≡ None → IsTrue result }
    {
        if here.after.is_none() {
            return true;
        }
        best.is_some() && (EARLIEST || self.is_empty(to))
    }

    /// Moves to the next position, in this state and with this match.
    fn go_on(
        &self,
        haystack: &str,
        at: &mut DfaPosition,
        here: Here,
        to: u16,
        best: Option<(MatchStart, usize)>,
    )
        requires here { (p : ℕ) × IsHere (chars haystack.now) p here × IsSome here.after }
        requires state { to < length self.now.states }
        ensures here { (p : ℕ) → IsHere (chars haystack.now) p here → (next : Here)
            × IsHere (chars haystack.now) (p + 1) next × (next.at ≡ at.new.at) }
        ensures same { at.new ≡ record at.new { state = to; best = best } }
        ensures first { (state : State) → slice_get self.now.states to ≡ Some state
            → ((state.ways ≡ []) × (at.new.first ≡ at.new.at) × (at.new.start_state_at ≡ at.new.at))
            ⊎ (¬ (state.ways ≡ [])
            × (at.new.first ≡ first_left state.restarts at.old.first at.old.at)
            × (at.new.start_state_at ≡ at.old.start_state_at)) }
    {
        let last = at.at;
        at.at = here.next(haystack).at;
        at.state = to;
        at.best = best;
        if self.is_empty(to) {
            at.first = at.at;
            at.start_state_at = at.at;
        } else {
            at.first = self.first_after(to, at.first, last);
        }
    }
}
