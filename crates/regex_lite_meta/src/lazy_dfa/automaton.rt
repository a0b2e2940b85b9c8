//! The cache of a lazy DFA.
ghost use Rattle.std.specs.Prelude.{◌≡◌, ◌+◌, ◌*◌, ◌≤◌, ◌<◌, ◌++◌, ◌∷◌, [], IfOk, IfSome};
ghost use Rattle.std.specs.Prelude.{Option, Some, length, map, slice_get, slice_index, slice_set};
ghost use Rattle.std.specs.Prelude.{ℕ, false, true};
ghost use Rattle.regex_lite_meta.specs.LazyDfa.Automaton.{State, unknown};
ghost use Rattle.regex_lite_meta.specs.LazyDfa.Extending.{Extends, IsState};
ghost use Rattle.regex_lite_meta.specs.LazyDfa.Intervals.{classes_in};
ghost use Rattle.regex_lite_meta.specs.LazyDfa.Stored.{match_flag_in, way_in};
ghost use Rattle.regex_lite_meta.specs.LazyDfa.NextStates.{AreNextStates, IsNextStateOf, IsRowOf};

use crate::lazy_dfa::capacity::{Capacity, MOST_STATES};
use crate::lazy_dfa::classes::Classes;
use crate::lazy_dfa::lookup::Lookup;
use crate::lazy_dfa::run::Position;
use crate::lazy_dfa::start_states::StartStates;
use crate::lazy_dfa::state::{
    LookContext, MatchFlag, NextState, StoredState, StoredWay, TransitionKind,
};
use crate::strategy::BYTES_FOR_ONE;
use std::alloc::{AllocError, Global};
use std::marker::Model;

/// Character classes, and the states that searches have reached. All memory is allocated at once.
/// When it is full, no more transitions are cached.
#[derive(Drop)]
pub(crate) struct LazyDfa {
    pub(super) classes: Classes,
    pub(super) states: Vec<StoredState>,
    /// The transition table: a row for each state, with a transition for each class of the next
    /// character.
    next_states: Vec<NextState>,
    /// The number of transitions in a row.
    width: usize,
    /// The ways (NFA states, each with its start and its pattern) of all states, followed by the
    /// pending ways: those of the next state to be added.
    ways: Vec<StoredWay>,
    /// The number of ways that belong to states.
    used: usize,
    /// The hash table of state numbers.
    pub(super) lookup: Lookup,
    /// The start states.
    pub(super) starts: StartStates,
    /// The number of transitions that did not fit the cache.
    pub(super) not_kept: usize,
    /// The number of bytes searched that count towards the give-up limit.
    spare: usize,
    /// The greatest length of a match in characters, if it is known.
    reach: Option<usize>,
}

impl Model for LazyDfa {
    ghost use Rattle.std.specs.Prelude.{◌≡◌, ◌*◌, ◌≤◌, ◌<◌, length, map, drop};
    ghost use Rattle.regex_lite_meta.specs.LazyDfa.Automaton.{Automaton};
    ghost use Rattle.regex_lite_meta.specs.LazyDfa.Intervals.{classes_in};
    ghost use Rattle.regex_lite_meta.specs.LazyDfa.Stored.{AllAgree, LieWithin};
    ghost use Rattle.regex_lite_meta.specs.LazyDfa.Stored.{states_in, way_in};

    ghost Value = { Automaton };

    ghost view = { λ dfa. record {
      intervals = dfa.classes;
      reach = dfa.reach;
      states = states_in dfa.ways.items (classes_in dfa.classes) dfa.next_states.items
          dfa.states.items;
      pending = map way_in (drop dfa.used dfa.ways.items);
    } };

    ghost invariant = { λ dfa. LieWithin dfa.used dfa.states.items
        × (dfa.used ≤ length dfa.ways.items) × (length dfa.states.items ≤ 256)
        × AllAgree dfa.states.items (classes_in dfa.classes) dfa.next_states.items
        × (length dfa.next_states.items ≡ length dfa.states.items * classes_in dfa.classes)
        × (dfa.width ≡ classes_in dfa.classes) × (dfa.width < 128) };
}

impl LazyDfa {
    /// A lazy DFA with an empty cache. Searches don't give it up within the first `spare` bytes.
    pub(crate) fn new(
        alloc: Global,
        classes: Classes,
        room: Capacity,
        spare: usize,
        reach: Option<usize>,
    ) -> Result<LazyDfa, AllocError>
        ensures intervals { IfOk result (λ dfa. dfa.intervals ≡ classes) }
        ensures reach { IfOk result (λ dfa. dfa.reach ≡ reach) }
        ensures states { IfOk result (λ dfa. dfa.states ≡ []) }
        ensures pending { IfOk result (λ dfa. dfa.pending ≡ []) }
    {
        let states = Vec::with_capacity(alloc, room.states)?;
        let next_states = Vec::with_capacity(alloc, room.next_states)?;
        let ways = Vec::with_capacity(alloc, room.ways)?;
        let lookup = Lookup::new(alloc, room.states)?;
        let width = classes.len();
        Ok(LazyDfa {
            classes,
            states,
            next_states,
            width,
            ways,
            used: 0,
            lookup,
            starts: StartStates::none(),
            not_kept: 0,
            spare,
            reach,
        })
    }

    /// Whether a search at this position that began at `from` gives the lazy DFA up: if more than
    /// one transition in `BYTES_FOR_ONE` bytes did not fit the cache. A search that began anew
    /// doesn't give up; its lazy DFA is that of one pattern.
    pub(super) fn is_given_up(&self, at: Position, from: usize) -> bool
        ensures { result ≡ true → at.anew ≡ false }
    {
        let went = at.here.at.saturating_sub(from);
        !at.anew && self.not_kept.saturating_mul(BYTES_FOR_ONE) > self.spare.saturating_add(went)
    }

    /// Counts the bytes that a search has scanned.
    pub(crate) fn count_bytes(&mut self, went: usize)
        ensures { self.new ≡ self.old }
    {
        self.spare = self.spare.saturating_add(went);
    }

    /// Whether the graph has looks, so that states depend on the character before.
    pub(super) fn has_looks(&self) -> bool
        ensures { result ≡ self.now.intervals.looks }
    {
        self.classes.looks()
    }

    /// The greatest number of characters that a path reads, if it is known.
    pub(super) fn reach(&self) -> Option<usize>
        ensures { result ≡ self.now.reach }
    {
        self.reach
    }

    /// Adds a pending way. Returns whether it fitted.
    pub(crate) fn push_way(&mut self, way: StoredWay) -> bool
        ensures pushed { result ≡ true → self.new ≡ record self.old {
          pending = self.old.pending ++ way_in way ∷ [];
        } }
        ensures same { self.new ≡ record self.old { pending = self.new.pending } }
    {
        if self.ways.len() >= self.ways.capacity() {
            return false;
        }
        match self.ways.push(way) {
            Ok(()) => true,
            Err(_) => false,
        }
    }

    /// Removes the pending ways.
    pub(crate) fn drop_pending(&mut self)
        ensures { self.new ≡ record self.old { pending = [] } }
    {
        self.ways.truncate(self.used);
    }

    /// Whether another state fits.
    #[tactic(auto, using(crate::proofs::lazy_dfa::StoredStateLemmas::length_states))]
    pub(super) fn has_capacity(&self) -> bool
        ensures { result ≡ true → length self.now.states < 256 }
    {
        self.states.len() < self.states.capacity().min(MOST_STATES)
            && self.next_states.len() + self.classes.len() <= self.next_states.capacity()
    }

    /// Adds a state with the pending ways and these properties. Returns whether it fitted.
    pub(super) fn add(
        &mut self,
        searching: bool,
        before: LookContext,
        match_flag: MatchFlag,
        restarts: bool,
    ) -> bool
        requires { length self.old.states < 256 }
        ensures state { result ≡ true → IsState self.new (length self.old.states)
            self.old.pending searching before (match_flag_in match_flag) restarts }
        ensures extends { Extends self.old self.new }
        ensures none_pending { result ≡ true → self.new.pending ≡ [] }
    {
        let state = StoredState {
            from: self.used,
            len: self.ways.len() - self.used,
            searching,
            restarts,
            before,
            match_flag,
        };
        let rows = self.next_states.len();
        let longer = rows + self.classes.len();
        let unknown = NextState {
            kind: TransitionKind::Unknown,
            state: 0,
            row: 0,
        };
        let Ok(()) = self.next_states.resize(longer, unknown) else {
            return false;
        };
        match self.states.push(state) {
            Ok(()) => {
                self.used = self.ways.len();
                true
            }
            Err(_) => {
                self.next_states.truncate(rows);
                false
            }
        }
    }

    /// Caches a transition.
    #[tactic(auto, using(crate::proofs::lazy_dfa::StoredStateLemmas::length_states))]
    pub(crate) fn set_transition(&mut self, x: u16, class: usize, y: u16)
        requires state { x < length self.old.states }
        requires class { class < classes_in self.old.intervals }
        requires next_state { y < length self.old.states }
        ensures { (state : State) → slice_get self.old.states x ≡ Some state
            → self.new ≡ record self.old {
              states = slice_set self.old.states x
                  (record state { next = slice_set state.next class y });
            } }
    {
        let next_state = NextState {
            kind: self.states[y as usize].kind(),
            state: y as u8,
            row: self.row(y) as u16,
        };
        let cell = self.row(x) + class;
        self.next_states[cell] = next_state;
    }

    /// The transition from this state, if it is cached.
    #[inline(always)]
    pub(super) fn cached_state(&self, x: u16, class: usize) -> Option<NextState>
        requires state { x < length self.now.states }
        requires class { class < classes_in self.now.intervals }
        ensures known { IfSome result (λ next_state. ¬ (next_state.state ≡ unknown)
            × ((state : State) → slice_get self.now.states x ≡ Some state
            → slice_index state.next class ≡ next_state.state)) }
    {
        let next_state = self.next_state(self.row(x), class);
        if let TransitionKind::Unknown = next_state.kind {
            return None;
        }
        Some(next_state)
    }

    /// The transition in this row for this class.
    #[inline(always)]
    pub(super) fn next_state(&self, row: usize, class: usize) -> NextState
        requires row { (x : ℕ) × IsRowOf self.now row x }
        requires class { class < classes_in self.now.intervals }
        ensures { (x : ℕ) → IsRowOf self.now row x → IsNextStateOf self.now x class result }
    {
        self.next_states()[row + class]
    }

    /// The transitions of all rows.
    #[inline(always)]
    pub(super) fn next_states(&self) -> &[NextState]
        ensures { AreNextStates self.now result.now }
    {
        &self.next_states
    }

    /// The start of this state's row.
    #[inline(always)]
    pub(super) fn row(&self, x: u16) -> usize
        requires { x < length self.now.states }
        ensures { result ≡ x * classes_in self.now.intervals }
    {
        x as usize * self.width
    }

    /// The state whose row starts there.
    #[inline(always)]
    pub(super) fn state_of(&self, row: usize) -> u16
        requires { (x : ℕ) × IsRowOf self.now row x }
        ensures { (x : ℕ) → IsRowOf self.now row x → result ≡ x }
    {
        (row / self.width) as u16
    }

    /// The ways of the state.
    #[tactic(auto, using(crate::proofs::lazy_dfa::StoredStateLemmas::length_states))]
    pub(super) fn ways(&self, y: usize) -> &[StoredWay]
        requires { y < length self.now.states }
        ensures { (state : State) → slice_get self.now.states y ≡ Some state
            → map way_in result.now ≡ state.ways }
    {
        let StoredState { from, len, .. } = self.states[y];
        &self.ways[from..from + len]
    }

    /// The pending ways.
    pub(super) fn pending(&self) -> &[StoredWay]
        ensures { map way_in result.now ≡ self.now.pending }
    {
        &self.ways[self.used..]
    }
}
