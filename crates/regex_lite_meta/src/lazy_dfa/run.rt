//! The steps of searches with a lazy DFA.
ghost use Rattle.std.specs.Prelude.{◌≡◌, [], ◌<◌, ◌≤◌, ◌+◌, ◌⊎◌, ℕ, List};
ghost use Rattle.std.specs.Prelude.{IfSome, IsCharBoundary, IsSome, MatchOption, None};
ghost use Rattle.std.specs.Prelude.{chars, false, length, map, slice_index, true};
ghost use Rattle.regex_lite_meta.specs.LazyDfa.Automaton.{Automaton};
ghost use Rattle.regex_lite_meta.specs.LazyDfa.Determinizing.{IsFirstAfterTransition, IsFirstStart};
ghost use Rattle.regex_lite_meta.specs.LazyDfa.Determinizing.{IsIn};
ghost use Rattle.regex_lite_meta.specs.LazyDfa.Running.{GoesOnWith, IsOnItsWay, NoneStartsBeforeOf};
ghost use Rattle.regex_lite_meta.specs.LazyDfa.Running.{Stands, started_at, thread_from};
ghost use Rattle.regex_lite_meta.specs.LazyDfa.Scanning.{best_reported};
ghost use Rattle.regex_lite_syntax.specs.Text.{Text};
ghost use Rattle.regex_lite_engine.specs.declared.pikevm.thread_start.MatchStart.{MatchStart};
ghost use Rattle.regex_lite_engine.specs.Graph.Places.{Place};
ghost use Rattle.regex_lite_engine.specs.Search.Bounds.{characters_left};
ghost use Rattle.regex_lite_engine.specs.Search.Offsets.{position_at};
ghost use Rattle.regex_lite_engine.specs.Search.Counting.{CanCount};
ghost use Rattle.regex_lite_engine.specs.Pikevm.Searching.{IsMatchFlag, StepsAgain};
ghost use Rattle.regex_lite_engine.specs.Search.Starts.{AreAllStarts};
ghost use Rattle.regex_lite_engine.specs.Search.Here.{IsHere};
ghost use Rattle.regex_lite_engine.specs.Pikevm.Stepping.{EndsAt, best_of};

use crate::lazy_dfa::state::StoredWay;
use regex_lite_engine::pikevm::cache::Cache;
use regex_lite_engine::pikevm::memory::Memory;
use regex_lite_engine::pikevm::thread_start::MatchStart;
use regex_lite_engine::search::here::Here;
use regex_lite_engine::search::patterns::Patterns;

/// The position of a search, and its state, if that is known.
#[derive(Clone, Copy)]
pub(crate) struct Position {
    pub here: Here,
    pub state: Option<u16>,
    /// The first start, at which some threads of the state began.
    pub first: usize,
    /// The offset up to which cached transitions were already looked up.
    pub until: usize,
    /// Whether the search began anew at a later start.
    pub anew: bool,
}

impl Position {
    /// The position of a search before its first step.
    pub(crate) fn begun(here: Here) -> Position
        ensures is { result ≡ record {
          here = here;
          state = None;
          first = here.at;
          until = 0;
          anew = false;
        } }
    {
        Position {
            here,
            state: None,
            first: here.at,
            until: 0,
            anew: false,
        }
    }

    /// The position of a search that came here by steps of the PikeVM. `None` if its first start is
    /// unknown.
    pub(super) fn on_the_way(cache: &Cache<MatchStart>, here: Here) -> Option<Position>
        ensures { (table : List (Place ℕ)) (haystack : Text) (entries : List ℕ) (s p : ℕ)
            (automaton : Automaton) → IsHere haystack p here
            → IsOnItsWay table haystack entries s s p cache.now
            → IfSome result (λ at. Stands table haystack entries s automaton at cache.now) }
    {
        let first = first_start(&cache.walk.memory, here.at)?;
        Some(Position {
            here,
            state: None,
            first,
            until: 0,
            anew: false,
        })
    }

    /// Whether the last scan followed the transition from here, so that it is cached.
    pub(super) fn was_scanned(&self) -> bool {
        self.here.at.saturating_add(1) < self.until
    }

    /// Whether the last scan was stuck here.
    pub(super) fn was_stuck(&self) -> bool {
        self.here.at.saturating_add(1) == self.until
    }

    /// The same position, in this state.
    pub(super) fn with_state(self, state: Option<u16>) -> Position
        ensures { result ≡ record self { state = state } }
    {
        Position {
            here: self.here,
            state,
            first: self.first,
            until: self.until,
            anew: self.anew,
        }
    }
}

/// The first start of a search at this offset: the start of the most preferred thread, or the
/// offset if there is no thread. `None` if that thread didn't begin before this offset, which
/// doesn't happen.
fn first_start(memory: &Memory<MatchStart>, at: usize) -> Option<usize>
    ensures { IfSome result (λ first.
        (first ≤ at) × IsFirstStart first at memory.now.threads) }
{
    if memory.threads() == 0 {
        return Some(at);
    }
    let (_, start) = memory.thread(0);
    if start.at < at { Some(start.at) } else { None }
}

/// The first start after the step at this position: the position itself, if the most preferred
/// thread began there and there is no match. Then no thread with an earlier start is left.
pub(super) fn first_after(cache: &Cache<MatchStart>, at: Position) -> usize
    ensures { IsFirstAfterTransition at.first at.here.at (best_of cache.now.best) result }
{
    if cache.walk.memory.threads() == 0 || !cache.best.is_none() {
        return at.first;
    }
    let (_, start) = cache.walk.memory.thread(0);
    if start.at == at.here.at {
        at.here.at
    } else {
        at.first
    }
}

/// Moves to the next position. The state is already that of the next position.
#[inline(always)]
pub(super) fn next_position(cache: &Cache<MatchStart>, haystack: &str, at: Position) -> Position
    requires here { (p : ℕ) × IsHere (chars haystack.now) p at.here }
    requires more { IsSome at.here.after }
    requires first { at.first ≤ at.here.at }
    ensures stands { (table : List (Place ℕ)) (entries : List ℕ) (automaton : Automaton)
        (s from p : ℕ) → IsHere (chars haystack.now) p at.here
        → NoneStartsBeforeOf table (chars haystack.now) entries s from
        → (at.anew ≡ false → from ≡ s)
        → IsOnItsWay table (chars haystack.now) entries s from (p + 1) cache.now
        → MatchOption at.state (Unit {0})
        (λ y. IsIn automaton y at.first at.here.after cache.now)
        → Stands table (chars haystack.now) entries s automaton result cache.now }
    ensures later { at.here.at < result.here.at }
{
    let here = at.here.next(haystack);
    let first = if cache.walk.memory.threads() == 0 {
        here.at
    } else {
        at.first
    };
    Position {
        here,
        state: at.state,
        first,
        until: at.until,
        anew: at.anew,
    }
}

/// Takes the PikeVM's step at this position, at which each pattern may start. Returns whether a
/// match is complete there.
pub(super) fn go_over<P: Patterns>(
    cache: &mut Cache<MatchStart>,
    patterns: &P,
    haystack: &str,
    here: Here,
) -> bool
    requires all { AreAllStarts (P.table patterns.now) (P.entries patterns.now)
        (P.starts patterns.now) }
    requires on { (s from p : ℕ) × IsHere (chars haystack.now) p here
        × CanCount (P.table patterns.now) (length (P.entries patterns.now))
        (characters_left (chars haystack.now) s)
        × IsOnItsWay (P.table patterns.now) (chars haystack.now) (P.entries patterns.now) s from p
        cache.old }
    ensures on { (s from p : ℕ) → IsHere (chars haystack.now) p here
        → IsOnItsWay (P.table patterns.now) (chars haystack.now) (P.entries patterns.now) s from p
        cache.old
        → IsOnItsWay (P.table patterns.now) (chars haystack.now) (P.entries patterns.now) s from
        (p + 1) cache.new }
    ensures again { StepsAgain (P.table patterns.now)
        (P.starts patterns.now) here (started_at here.at) cache.old cache.new result }
    ensures match_flag { IsMatchFlag result (best_of cache.old.best) (best_of cache.new.best) }
    ensures ends { EndsAt here.at (best_of cache.old.best) (best_of cache.new.best) }
{
    // The memory fits more threads than there are patterns.
    let _threads = cache.walk.memory.threads();
    cache.step::<_, false>(patterns, here)
}

/// Clears the threads and the match.
pub(super) fn reset(cache: &mut Cache<MatchStart>)
    ensures threads { cache.new.walk.memory.threads ≡ [] }
    ensures none { best_of cache.new.best ≡ None }
    ensures kept { GoesOnWith cache.old cache.new }
{
    cache.walk.memory.restart();
    cache.best.clear();
}

/// Whether a search with this cost can have this match: a match implies that a place was entered.
pub(super) fn may_have(cache: &Cache<MatchStart>, found: Option<(MatchStart, usize)>) -> bool
    ensures { result ≡ true → (found ≡ None) ⊎ (0 < cache.now.walk.steps.entered) }
{
    found.is_none() || cache.walk.steps.entered() > 0
}

/// Loads these ways as threads, all of which began at this start, and this match, if there is one.
#[inline(never)]
pub(super) fn load_ways(
    cache: &mut Cache<MatchStart>,
    ways: &[StoredWay],
    first: usize,
    found: Option<(MatchStart, usize)>,
)
    requires few { length ways.now < cache.old.walk.memory.room }
    requires width { length cache.old.walk.memory.row ≡ 0 }
    requires best_width { length cache.old.best.row ≡ 0 }
    ensures threads { cache.new.walk.memory.threads ≡ map (thread_from first) ways.now }
    ensures best { best_of cache.new.best ≡ best_reported found }
    ensures kept { GoesOnWith cache.old cache.new }
{
    reset(cache);
    for way in ways {
        cache.walk.memory.push_next(
            way.place,
            MatchStart {
                at: first,
                number: way.number,
            },
        );
    }
    cache.walk.memory.swap_lists();
    cache.best.keep(found);
}
