//! Determinization: caching the transitions of a search.
ghost use Rattle.std.specs.Prelude.{◌≡◌, [], ◌<◌, ◌++◌, ℕ, MatchOption, Some, length, slice_get};
ghost use Rattle.std.specs.Prelude.{true, IfOk, IfSome};
ghost use Rattle.regex_lite_meta.specs.LazyDfa.Automaton.{FitsOwnParts, IsDfaOf, State};
ghost use Rattle.regex_lite_meta.specs.LazyDfa.Automaton.{match_flag_of, searching_after, ways_of};
ghost use Rattle.regex_lite_meta.specs.LazyDfa.Intervals.{context_of};
ghost use Rattle.regex_lite_meta.specs.LazyDfa.Determinizing.{HasStepped, IsFirstAfterTransition};
ghost use Rattle.regex_lite_meta.specs.LazyDfa.Determinizing.{IsIn};
ghost use Rattle.regex_lite_meta.specs.LazyDfa.Running.{Stands};
ghost use Rattle.regex_lite_meta.specs.LazyDfa.Stored.{match_flag_in};
ghost use Rattle.regex_lite_syntax.specs.Text.{Text};
ghost use Rattle.regex_lite_engine.specs.Pikevm.Searching.{IsBetween};
ghost use Rattle.regex_lite_engine.specs.Pikevm.Stepping.{best_of};
ghost use Rattle.regex_lite_meta.specs.LazyDfa.Extending.{Extends, IsState};

use crate::lazy_dfa::automaton::LazyDfa;
use crate::lazy_dfa::lookup::{CELLS_FOR_ONE, hash_of};
use crate::lazy_dfa::run::Position;
use crate::lazy_dfa::state::{LookContext, MatchFlag, StoredWay, are_same};
use regex_lite_engine::pikevm::cache::Cache;
use regex_lite_engine::pikevm::memory::Memory;
use regex_lite_engine::pikevm::thread_start::MatchStart;
use regex_lite_engine::search::here::byte_len;
use regex_lite_engine::search::patterns::Patterns;

impl LazyDfa {
    /// Caches the transition of the step from the position `at` to the threads in the cache, if the
    /// state at that position is known and the last scan didn't follow the transition. `match_flag`
    /// says whether a match was complete at `at`, and `first` is the first start from there on.
    /// Returns the new state, if it is cached or fits.
    pub(super) fn determinize<P: Patterns>(
        &mut self,
        patterns: &P,
        cache: &Cache<MatchStart>,
        at: Position,
        match_flag: bool,
        first: usize,
    ) -> Option<u16>
        requires is_dfa { IsDfaOf (P.table patterns.now) (P.entries patterns.now) self.old }
        requires none_pending { self.old.pending ≡ [] }
        requires stepped { MatchOption at.state (Unit {0}) (λ x. HasStepped (P.table patterns.now)
            (P.entries patterns.now) self.old x at.first at.here match_flag cache.now) }
        requires first { IsFirstAfterTransition at.first at.here.at (best_of cache.now.best) first }
        requires between { IsBetween (P.table patterns.now) cache.now }
        requires own { FitsOwnParts (P.table patterns.now) (P.entries patterns.now)
            (length cache.now.walk.memory.threads) }
        ensures is_dfa { IsDfaOf (P.table patterns.now) (P.entries patterns.now) self.new }
        ensures none_pending { self.new.pending ≡ [] }
        ensures state { MatchOption result (Unit {0})
            (λ y. IsIn self.new y first at.here.after cache.now) }
    {
        if at.was_scanned() {
            return None;
        }
        let Some(x) = at.state else {
            return None;
        };
        if !self.gather(&cache.walk.memory, first) {
            self.drop_pending();
            return None;
        }
        let match_flag = flag_of_match(at.first, match_flag, cache);
        let searching = self.searching_after(x, match_flag);
        let before = self.context(at.here.after);
        let y = self.settle(searching, before, match_flag, first != at.first)?;
        let class = self.classes.class(at.here.after);
        self.set_transition(x, class, y);
        Some(y)
    }

    /// The state of the search with this first start, if it is cached or fits.
    pub(super) fn state_at<P: Patterns>(
        &mut self,
        patterns: &P,
        at: Position,
        cache: &Cache<MatchStart>,
    ) -> Option<u16>
        requires is_dfa { IsDfaOf (P.table patterns.now) (P.entries patterns.now) self.old }
        requires between { IsBetween (P.table patterns.now) cache.now }
        requires own { FitsOwnParts (P.table patterns.now) (P.entries patterns.now)
            (length cache.now.walk.memory.threads) }
        requires none_pending { self.old.pending ≡ [] }
        ensures is_dfa { IsDfaOf (P.table patterns.now) (P.entries patterns.now) self.new }
        ensures state { MatchOption result (Unit {0})
            (λ y. IsIn self.new y at.first at.here.before cache.now) }
        ensures none_pending { self.new.pending ≡ [] }
    {
        if !self.gather(&cache.walk.memory, at.first) {
            self.drop_pending();
            return None;
        }
        let before = self.context(at.here.before);
        let match_flag = flag_of_match(at.first, has_just_ended(at, cache), cache);
        self.settle(cache.best.is_none(), before, match_flag, false)
    }

    /// The same position in its state, if the last scan was stuck here. The search came here by
    /// steps of the PikeVM, which don't compute states.
    pub(super) fn find_state_again<P: Patterns>(
        &mut self,
        patterns: &P,
        cache: &Cache<MatchStart>,
        at: Position,
    ) -> Position
        requires is_dfa { IsDfaOf (P.table patterns.now) (P.entries patterns.now) self.old }
        requires none_pending { self.old.pending ≡ [] }
        requires between { IsBetween (P.table patterns.now) cache.now }
        requires own { FitsOwnParts (P.table patterns.now) (P.entries patterns.now)
            (length cache.now.walk.memory.threads) }
        ensures is_dfa { IsDfaOf (P.table patterns.now) (P.entries patterns.now) self.new }
        ensures none_pending { self.new.pending ≡ [] }
        ensures stands { (haystack : Text) (s : ℕ) → Stands (P.table patterns.now) haystack
            (P.entries patterns.now) s self.old at cache.now
            → Stands (P.table patterns.now) haystack (P.entries patterns.now) s self.new result
            cache.now }
        ensures here { result.here ≡ at.here }
    {
        if !at.was_stuck() {
            return at;
        }
        let state = self.state_at(patterns, at, cache);
        at.with_state(state)
    }

    /// Adds the threads of the position to the pending ways. Returns whether they fitted.
    fn gather(&mut self, memory: &Memory<MatchStart>, first: usize) -> bool
        ensures gathered { result ≡ true → self.new ≡ record self.old {
          pending = self.old.pending ++ ways_of first memory.now.threads;
        } }
        ensures same { self.new ≡ record self.old { pending = self.new.pending } }
    {
        'threads: for k in 0..memory.threads() {
            let (place, start) = memory.thread(k);
            let way = StoredWay {
                place,
                number: start.number,
                is_first: start.at == first,
            };
            if !self.push_way(way) {
                return false;
            }
        }
        true
    }

    /// Whether there is no match yet after a transition from this state.
    #[tactic(auto, using(crate::proofs::lazy_dfa::StoredStateLemmas::length_states))]
    fn searching_after(&self, x: u16, match_flag: MatchFlag) -> bool
        requires { x < length self.now.states }
        ensures { (state : State) → slice_get self.now.states x ≡ Some state
            → result ≡ searching_after (match_flag_in match_flag) state.searching }
    {
        match match_flag {
            MatchFlag::Nowhere => self.states[x as usize].searching,
            MatchFlag::AtFirst(_) | MatchFlag::AtLater(_) => false,
        }
    }

    /// The look context of the character, if there are looks.
    pub(super) fn context(&self, c: Option<char>) -> LookContext
        ensures { self.now.intervals.looks ≡ true → result ≡ context_of c }
    {
        if self.classes.looks() {
            LookContext::of(c)
        } else {
            LookContext::none()
        }
    }

    /// The state that has the pending ways and these properties, if it is cached or fits.
    #[tactic(auto, using(crate::proofs::lazy_dfa::StoredStateLemmas::length_states))]
    pub(crate) fn settle(
        &mut self,
        searching: bool,
        before: LookContext,
        match_flag: MatchFlag,
        restarts: bool,
    ) -> Option<u16>
        ensures state { IfSome result (λ y.
            IsState self.new y self.old.pending searching before (match_flag_in match_flag)
            restarts) }
        ensures extends { Extends self.old self.new }
        ensures none_pending { self.new.pending ≡ [] }
    {
        let cell = match self.find_state(searching, before, match_flag, restarts) {
            Ok(y) => {
                self.drop_pending();
                return Some(y);
            }
            Err(cell) => cell,
        };
        let y = self.states.len();
        if !self.has_capacity() || !self.add(searching, before, match_flag, restarts) {
            self.drop_pending();
            self.not_kept = self.not_kept.saturating_add(1);
            return None;
        }
        self.put_number(cell, y as u16);
        self.put_start(y as u16);
        Some(y as u16)
    }

    /// The state that has the pending ways and these properties, if the lookup has its number.
    /// Otherwise the cell for that number.
    fn find_state(
        &self,
        searching: bool,
        before: LookContext,
        match_flag: MatchFlag,
        restarts: bool,
    ) -> Result<u16, usize>
        ensures { IfOk result (λ y.
            IsState self.now y self.now.pending searching before (match_flag_in match_flag)
            restarts) }
    {
        let first = self.lookup.cell(hash_of(self.pending(), match_flag));
        'cells: for k in 0..CELLS_FOR_ONE {
            let Some(y) = self.lookup.number(first ^ k) else {
                return Err(first ^ k);
            };
            if self.is_state(y, searching, before, match_flag, restarts) {
                return Ok(y);
            }
        }
        Err(first)
    }

    /// Whether the state with this number has the pending ways and these properties.
    #[tactic(auto, using(crate::proofs::lazy_dfa::StoredStateLemmas::length_states))]
    fn is_state(
        &self,
        y: u16,
        searching: bool,
        before: LookContext,
        match_flag: MatchFlag,
        restarts: bool,
    ) -> bool
        ensures { result ≡ true
            → IsState self.now y self.now.pending searching before (match_flag_in match_flag)
            restarts }
    {
        if y as usize >= self.states.len() {
            return false;
        }
        self.states[y as usize].is_like(searching, before, match_flag, restarts)
            && are_same(self.ways(y as usize), self.pending())
    }

    /// Puts the number of a state into this cell of the lookup.
    fn put_number(&mut self, cell: usize, y: u16)
        ensures { self.new ≡ self.old }
    {
        self.lookup.put(cell, y);
    }

    /// Records the state with this number as a start state, if it is one.
    #[tactic(auto, using(crate::proofs::lazy_dfa::StoredStateLemmas::length_states))]
    fn put_start(&mut self, y: u16)
        requires { y < length self.old.states }
        ensures { self.new ≡ self.old }
    {
        let state = &self.states[y as usize];
        if state.len == 0 && state.searching {
            self.starts.put(state.before, y);
        }
    }
}

/// Whether the last step completed a match.
fn has_just_ended(at: Position, cache: &Cache<MatchStart>) -> bool {
    let (Some(last), Some(end)) = (at.here.before, cache.best.end()) else {
        return false;
    };
    end.saturating_add(byte_len(last)) == at.here.at
}

/// The match flag of the state that this transition leads to.
fn flag_of_match(first: usize, match_flag: bool, cache: &Cache<MatchStart>) -> MatchFlag
    ensures { match_flag_in result ≡ match_flag_of first match_flag (best_of cache.now.best) }
{
    if !match_flag {
        return MatchFlag::Nowhere;
    }
    match cache.best.found() {
        None => MatchFlag::Nowhere,
        Some((match_start, _)) => {
            if match_start.at == first {
                MatchFlag::AtFirst(match_start.number)
            } else {
                MatchFlag::AtLater(match_start.number)
            }
        }
    }
}
