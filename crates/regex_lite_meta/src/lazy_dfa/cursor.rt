//! The position of a scan between two transitions, and how a transition changes it.
ghost use Rattle.std.specs.Prelude.{◌≡◌, ◌*◌, ◌<◌, ℕ, IfSome, None, length, true};
ghost use Rattle.regex_lite_meta.specs.LazyDfa.Automaton.{State};
ghost use Rattle.regex_lite_meta.specs.LazyDfa.Intervals.{classes_in};
ghost use Rattle.regex_lite_meta.specs.LazyDfa.Cursors.{Stays, Takes, TakesToNothing};
ghost use Rattle.regex_lite_meta.specs.LazyDfa.Stored.{HasKind, is_known};
ghost use Rattle.regex_lite_meta.specs.LazyDfa.NextStates.{IsRowOf};

use crate::lazy_dfa::automaton::LazyDfa;
use crate::lazy_dfa::scan::DfaPosition;
use crate::lazy_dfa::state::{NextState, TransitionKind};
use crate::strategy::MOST_START_LOOPS;

/// The position of a scan between two transitions. What changes less often stays in its
/// [`DfaPosition`], so that a transition copies little.
#[derive(Clone, Copy)]
pub(super) struct DfaCursor {
    pub at: usize,
    /// The start of the state's row.
    pub row: usize,
    /// The offset after the last transition to the start state.
    start_state_at: usize,
    /// The number of consecutive transitions from the start state to itself up to that offset.
    in_start: u32,
}

impl LazyDfa {
    /// The position of this scan.
    #[inline(always)]
    pub(super) fn cursor_of(&self, at: &DfaPosition) -> DfaCursor
        requires { at.now.state < length self.now.states }
        ensures at { result.at ≡ at.now.at }
        ensures row { result.row ≡ at.now.state * classes_in self.now.intervals }
    {
        DfaCursor {
            at: at.at,
            row: self.row(at.state),
            start_state_at: usize::MAX,
            in_start: 0,
        }
    }

    /// Moves a scan to this position.
    #[inline(always)]
    pub(super) fn settle_at(&self, cursor: DfaCursor, at: &mut DfaPosition)
        requires row { (x : ℕ) × IsRowOf self.now cursor.row x }
        ensures same { (x : ℕ) → IsRowOf self.now cursor.row x → at.new ≡ record at.old {
          at = cursor.at;
          state = x;
        } }
    {
        at.at = cursor.at;
        at.state = self.state_of(cursor.row);
    }
}

impl DfaCursor {
    /// The position after a transition to this state and offset.
    #[inline(always)]
    pub(super) fn after(self, next_state: NextState, end: usize) -> DfaCursor
        ensures at { result.at ≡ end }
        ensures row { result.row ≡ next_state.row }
    {
        DfaCursor {
            at: end,
            row: next_state.row as usize,
            start_state_at: self.start_state_at,
            in_start: self.in_start,
        }
    }

    /// The number of consecutive transitions from the start state to itself after another one to
    /// the start state, unless that is too many.
    #[inline(always)]
    fn loops_after(self) -> Option<u32> {
        if self.at != self.start_state_at {
            return Some(0);
        }
        if self.in_start >= MOST_START_LOOPS {
            return None;
        }
        Some(self.in_start + 1)
    }
}

/// Takes the transition to this state and offset if its kind determines the outcome. Returns the
/// scan's new position, or `Some(None)` if the search is over. `None` if the transition isn't
/// taken: if only the state determines the outcome, after too many consecutive transitions from the
/// start state to itself and, if EARLIEST, if it completes a match.
#[inline(always)]
pub(super) fn take_by_kind<const EARLIEST: bool>(
    cursor: DfaCursor,
    next_state: NextState,
    end: usize,
    at: &mut DfaPosition,
) -> Option<Option<DfaCursor>>
    ensures taken { (state : State) → HasKind next_state.kind state
        → Takes cursor.at next_state.row end state at.old at.new result }
    ensures known { IfSome result (λ _. is_known next_state.kind ≡ true) }
    ensures stays { result ≡ None → Stays at.old at.new }
    ensures earliest { EARLIEST ≡ true → at.new.best ≡ at.old.best }
{
    if let TransitionKind::NonSpecial = next_state.kind {
        return Some(Some(cursor.after(next_state, end)));
    }
    if let TransitionKind::Completes = next_state.kind {
        if EARLIEST {
            return None;
        }
        at.complete(0, cursor.at);
        return Some(Some(cursor.after(next_state, end)));
    }
    // Stored here: otherwise the compiler merges this `match` and the tests before it into one jump
    // table.
    at.at = cursor.at;
    match next_state.kind {
        TransitionKind::Ends => {
            if EARLIEST {
                return None;
            }
            at.complete(0, cursor.at);
            Some(None)
        }
        TransitionKind::Empties => take_to_nothing(cursor, cursor.after(next_state, end), at),
        TransitionKind::Restarts => {
            at.first = cursor.at;
            Some(Some(cursor.after(next_state, end)))
        }
        TransitionKind::NonSpecial
        | TransitionKind::Completes
        | TransitionKind::ByState
        | TransitionKind::Unknown => None,
    }
}

/// Takes a transition to the start state. The match that it completes, if any, is known.
#[inline(always)]
pub(super) fn take_to_nothing(
    cursor: DfaCursor,
    on: DfaCursor,
    at: &mut DfaPosition,
) -> Option<Option<DfaCursor>>
    ensures { TakesToNothing on at.old at.new result }
{
    if at.best.is_some() {
        return Some(None);
    }
    let Some(in_start) = cursor.loops_after() else {
        return None;
    };
    at.first = on.at;
    at.start_state_at = on.at;
    Some(Some(DfaCursor {
        at: on.at,
        row: on.row,
        start_state_at: on.at,
        in_start,
    }))
}
