//! The inner loop of scans: it follows cached transitions by offsets alone.
//!
//! The loop knows an offset and the row of a state, and finds the state by a division when it ends.
//! Transitions for ASCII characters that are not special are a loop within the loop, so that the
//! address of the table stays in a register. Other characters keep the interval of the last one,
//! since the letters of a script mostly lie in one. A class for each byte would save instructions
//! for ASCII and cost more than that for Cyrillic texts. What changes only with a match or at the
//! start state stays in memory, in `DfaPosition`.
ghost use Rattle.std.specs.Prelude.{◌≡◌, ◌+◌, ◌<◌, ◌≤◌, ℕ, IfSome, IsCharBoundary, None, Some};
ghost use Rattle.std.specs.Prelude.{chars, false, true, length, slice_get};
ghost use Rattle.regex_lite_meta.specs.LazyDfa.Automaton.{IsDfaOf, State, first_left};
ghost use Rattle.regex_lite_meta.specs.LazyDfa.Intervals.{IsInterval};
ghost use Rattle.regex_lite_meta.specs.LazyDfa.Scanning.{EndsWith, GoesOn, IsScanning};
ghost use Rattle.regex_lite_meta.specs.LazyDfa.Cursors.{IsCursorAt, IsTransition, LeadsIfKnown};
ghost use Rattle.regex_lite_meta.specs.LazyDfa.Cursors.{Takes};
ghost use Rattle.regex_lite_meta.specs.LazyDfa.Stored.{HasKind, match_flag_in};
ghost use Rattle.regex_lite_meta.specs.LazyDfa.NextStates.{IsRowOf};

use crate::lazy_dfa::automaton::LazyDfa;
use crate::lazy_dfa::classes::Interval;
use crate::lazy_dfa::cursor::{DfaCursor, take_by_kind, take_to_nothing};
use crate::lazy_dfa::scan::DfaPosition;
use crate::lazy_dfa::state::{MatchFlag, NextState, TransitionKind};
use regex_lite_engine::search::patterns::Patterns;

impl LazyDfa {
    /// Follows transitions while they are cached, up to the last before the end of the search.
    /// Returns whether the last match is the answer: no thread is left after it or, if EARLIEST, it
    /// is the first that a transition completes, of which only the end is known.
    // Not inlined: when inlined, its stack frame is cleared on each call.
    #[inline(never)]
    pub(super) fn run<P: Patterns, const EARLIEST: bool>(
        &self,
        patterns: &P,
        haystack: &str,
        at: &mut DfaPosition,
    ) -> bool
        requires is_dfa { IsDfaOf (P.table patterns.now) (P.entries patterns.now) self.now }
        requires none { EARLIEST ≡ true → at.old.best ≡ None }
        requires scanning { (low p : ℕ) × IsScanning (P.table patterns.now) (P.entries patterns.now)
            (chars haystack.now) low p self.now at.old }
        ensures over { result ≡ true → EndsWith (P.table patterns.now) (P.entries patterns.now)
            (chars haystack.now) self.now EARLIEST at.old at.new.best }
        ensures on { result ≡ false → GoesOn (P.table patterns.now) (P.entries patterns.now)
            (chars haystack.now) self.now at.old at.new }
        ensures none { EARLIEST ≡ true → result ≡ false → at.new.best ≡ None }
    {
        let mut near = Interval::none();
        let mut cursor = self.cursor_of(at);
        'transitions: loop {
            let (on, ascii) = self.pass_non_special(patterns, haystack, cursor, at);
            cursor = on;
            // A separate exit: a shared one costs two moves per transition.
            if cursor.at >= haystack.len() {
                self.settle_at(cursor, at);
                return false;
            }
            let Some((next_state, end)) = self.transition(
                patterns, haystack, cursor, ascii, &mut near,
            ) else {
                break;
            };
            match take_by_kind::<EARLIEST>(cursor, next_state, end, at) {
                Some(Some(on)) => {
                    cursor = on;
                    continue;
                }
                Some(None) => return true,
                None => {}
            }
            let Some(known) = next_state.cached() else {
                break;
            };
            if self.is_last::<EARLIEST>(known) {
                at.complete(0, cursor.at);
                return true;
            }
            match self.take_by_state(cursor, known, end, at) {
                Some(Some(on)) => cursor = on,
                Some(None) => return true,
                None => break,
            }
        }
        self.settle_at(cursor, at);
        false
    }

    /// Follows transitions that change only the state, as most do, while the characters are ASCII.
    /// Returns the scan's position then and, if the next character is ASCII too, its transition.
    #[inline(always)]
    fn pass_non_special<P: Patterns>(
        &self,
        patterns: &P,
        haystack: &str,
        from: DfaCursor,
        at: &DfaPosition,
    ) -> (DfaCursor, Option<NextState>)
        requires is_dfa { IsDfaOf (P.table patterns.now) (P.entries patterns.now) self.now }
        requires scanning { (low p : ℕ) × IsCursorAt (P.table patterns.now) (P.entries patterns.now)
            (chars haystack.now) low p self.now from at.now }
        ensures on { (low p : ℕ) → IsCursorAt (P.table patterns.now) (P.entries patterns.now)
            (chars haystack.now) low p self.now from at.now → (q : ℕ) × (p ≤ q)
            × IsCursorAt (P.table patterns.now) (P.entries patterns.now) (chars haystack.now) low q
            self.now result.0 at.now }
        ensures later { from.at ≤ result.0.at }
        ensures next { IfSome result.1 (λ next_state. LeadsIfKnown (P.table patterns.now)
            (P.entries patterns.now) self.now haystack.now result.0.at result.0.row next_state
            (result.0.at + 1)) }
    {
        let bytes = haystack.as_bytes();
        let next_states = self.next_states();
        let mut cursor = from;
        'non_special: while cursor.at < bytes.len() {
            let byte = bytes[cursor.at];
            if byte >= 128 {
                return (cursor, None);
            }
            let next_state = next_states[cursor.row + self.classes.ascii_class(byte)];
            let TransitionKind::NonSpecial = next_state.kind else {
                return (cursor, Some(next_state));
            };
            cursor = cursor.after(next_state, cursor.at + 1);
        }
        (cursor, None)
    }

    /// The transition from this position, and the offset after the character. `None` at the end of
    /// the haystack. For an ASCII character the transition may be given.
    #[inline(always)]
    fn transition<P: Patterns>(
        &self,
        patterns: &P,
        haystack: &str,
        cursor: DfaCursor,
        ascii: Option<NextState>,
        near: &mut Interval,
    ) -> Option<(NextState, usize)>
        requires is_dfa { IsDfaOf (P.table patterns.now) (P.entries patterns.now) self.now }
        requires boundary { IsCharBoundary haystack.now cursor.at }
        requires row { (x : ℕ) × IsRowOf self.now cursor.row x }
        requires inside { cursor.at < length haystack.now }
        requires ascii { IfSome ascii (λ next_state. LeadsIfKnown (P.table patterns.now)
            (P.entries patterns.now) self.now haystack.now cursor.at cursor.row next_state
            (cursor.at + 1)) }
        requires near { IsInterval self.now.intervals.boundaries near.old }
        ensures transition { IfSome result (λ transition. LeadsIfKnown (P.table patterns.now)
            (P.entries patterns.now) self.now haystack.now cursor.at cursor.row transition.0
            transition.1) }
        ensures near { IsInterval self.now.intervals.boundaries near.new }
    {
        if let Some(next_state) = ascii {
            return Some((next_state, cursor.at + 1));
        }
        let Some((class, end)) = self.classes.ahead(haystack, cursor.at, near) else {
            return None;
        };
        Some((self.next_state(cursor.row, class), end))
    }

    /// Takes the transition to this state and offset as the state says. Returns the scan's new
    /// position, or `Some(None)` if the search is over, since no thread is left after its match.
    /// `None` if the transition isn't taken: it completes a match whose start isn't known, or there
    /// were too many consecutive transitions from the start state to itself.
    #[inline(always)]
    fn take_by_state(
        &self,
        cursor: DfaCursor,
        next_state: NextState,
        end: usize,
        at: &mut DfaPosition,
    ) -> Option<Option<DfaCursor>>
        requires to { next_state.state < length self.now.states }
        ensures taken { (state : State) → slice_get self.now.states next_state.state ≡ Some state
            → Takes cursor.at next_state.row end state at.old at.new result }
        ensures same { (state : State) → slice_get self.now.states next_state.state ≡ Some state
            → state.match_flag ≡ None → at.new.best ≡ at.old.best }
    {
        let state = next_state.state as u16;
        let match_flag = self.match_flag(state);
        if let MatchFlag::AtLater(_) = match_flag {
            return None;
        }
        if let MatchFlag::AtFirst(number) = match_flag {
            at.complete(number, cursor.at);
        }
        let on = cursor.after(next_state, end);
        if self.is_empty(state) {
            return take_to_nothing(cursor, on, at);
        }
        at.first = self.first_after(state, at.first, cursor.at);
        Some(Some(on))
    }

    /// The first start after a transition from this offset to this state, which has threads. It was
    /// `first` before.
    #[inline(always)]
    #[tactic(auto, using(crate::proofs::lazy_dfa::StoredStateLemmas::length_states))]
    pub(super) fn first_after(&self, x: u16, first: usize, at: usize) -> usize
        requires { x < length self.now.states }
        ensures { (state : State) → slice_get self.now.states x ≡ Some state
            → result ≡ first_left state.restarts first at }
    {
        if self.states[x as usize].restarts {
            at
        } else {
            first
        }
    }

    /// The match flag of this state.
    #[inline(always)]
    #[tactic(auto, using(crate::proofs::lazy_dfa::StoredStateLemmas::length_states))]
    fn match_flag(&self, x: u16) -> MatchFlag
        requires { x < length self.now.states }
        ensures { (state : State) → slice_get self.now.states x ≡ Some state
            → match_flag_in result ≡ state.match_flag }
    {
        self.states[x as usize].match_flag
    }

    /// Whether the transition completes a match, if EARLIEST.
    #[inline(always)]
    fn is_last<const EARLIEST: bool>(&self, next_state: NextState) -> bool
        requires to { next_state.state < length self.now.states }
        requires kind { (state : State)
            → slice_get self.now.states next_state.state ≡ Some state → HasKind next_state.kind
            state }
        ensures none { (state : State) → slice_get self.now.states next_state.state ≡ Some state
            → EARLIEST ≡ true → result ≡ false → state.match_flag ≡ None }
        ensures match_flag { (state : State) → slice_get self.now.states next_state.state ≡ Some
            state → result ≡ true → (EARLIEST ≡ true) × ¬ (state.match_flag ≡ None) }
    {
        if !EARLIEST {
            return false;
        }
        if let TransitionKind::NonSpecial = next_state.kind {
            return false;
        }
        match self.match_flag(next_state.state as u16) {
            MatchFlag::Nowhere => false,
            MatchFlag::AtFirst(_) | MatchFlag::AtLater(_) => true,
        }
    }
}
