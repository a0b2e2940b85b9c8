//! The step at one position of the haystack: from its threads, in order, to those of the next
//! position.
ghost use Rattle.std.specs.Prelude.{◌≡◌, ◌+◌, ◌^◌, ◌≤◌, ◌<◌, ◌⊎◌, []};
ghost use Rattle.std.specs.Prelude.{List, ℕ, All, None, false, length, true};
ghost use Rattle.regex_lite_engine.specs.Graph.Renumbered.{arrows_of};
ghost use Rattle.regex_lite_engine.specs.Search.Bounds.{StaysCounted};
ghost use Rattle.regex_lite_engine.specs.Search.ThreadStarts.{Reported};
ghost use Rattle.regex_lite_engine.specs.Pikevm.Stepping.{best_of};

use crate::pikevm::cache::Cache;
use crate::pikevm::thread_start::ThreadStart;
use crate::pikevm::walk::Walk;
use crate::search::here::Here;
use crate::search::patterns::Patterns;

impl<S: ThreadStart> Cache<S> {
    ghost use Rattle.regex_lite_syntax.specs.Text.{Text};
    ghost use Rattle.regex_lite_engine.specs.Search.Here.{IsHere};
    ghost use Rattle.regex_lite_engine.specs.Pikevm.Capacity.{HasCapacity};
    ghost use Rattle.regex_lite_engine.specs.Pikevm.Stepping.{EndsAt, IsComingTo};
    ghost use Rattle.regex_lite_engine.specs.Search.Starts.{AreStartsUpTo};
    ghost use Rattle.regex_lite_engine.specs.Graph.Parts.{IsOwnPart};
    ghost use Rattle.regex_lite_engine.specs.Pikevm.Searching.{ways_at, IsPlaced, Follows};
    ghost use Rattle.regex_lite_engine.specs.Pikevm.Searching.{FollowsAgain, IsMatchFlag};
    ghost use Rattle.regex_lite_engine.specs.Pikevm.Searching.{StepsAgain, IsBetween, SpendsWithin};

    /// Takes the step at this position. Its own starts come last, and only while there is no match.
    /// Returns whether a match is complete there; if WHOLE, a match can be complete only at the
    /// haystack's end.
    ///
    /// Condition: no other position is being processed, each start is a place of the table, and no
    /// count can overflow.
    // Inlined with all that it calls, though searches with a lazy DFA call it too: otherwise a step
    // costs a quarter more.
    #[inline(always)]
    pub fn step<P: Patterns, const WHOLE: bool>(&mut self, patterns: &P, here: Here) -> bool
        requires ready { IsBetween (P.table patterns.now) self.old }
        requires inside { All (λ start. start.place < length (P.table patterns.now))
            (P.starts patterns.now) }
        requires few_tries { self.old.walk.steps.tried + length self.old.walk.memory.threads
            + (arrows_of (P.table patterns.now) + length (P.starts patterns.now)) < 2 ^ 127 }
        requires few_entries { self.old.walk.steps.entered + length (P.table patterns.now)
            < 2 ^ 127 }
        requires few_ways { length self.old.walk.memory.threads + length (P.starts patterns.now)
            < 2 ^ 64 }
        ensures ready { IsBetween (P.table patterns.now) self.new }
        ensures comes { (haystack : Text) (entries : List ℕ) (p first last : ℕ)
            → IsHere haystack p here → first ≤ p
            → AreStartsUpTo (P.table patterns.now) haystack entries last p (P.starts patterns.now)
            → IsComingTo (P.table patterns.now) haystack entries WHOLE first last p
            self.old.walk.memory.threads (best_of self.old.best)
            → IsComingTo (P.table patterns.now) haystack entries WHOLE first last (p + 1)
            self.new.walk.memory.threads (best_of self.new.best) }
        ensures again { WHOLE ≡ false → StepsAgain (P.table patterns.now) (P.starts patterns.now)
            here
            (S.reported_of here.at) self.old self.new result }
        ensures match_flag { IsMatchFlag result (best_of self.old.best) (best_of self.new.best) }
        ensures ends { EndsAt here.at (best_of self.old.best) (best_of self.new.best) }
        ensures width { length self.new.best.row ≡ length self.old.best.row }
        ensures tries { self.new.walk.steps.tried + length self.new.walk.memory.threads
            ≤ self.old.walk.steps.tried + length self.old.walk.memory.threads
            + (arrows_of (P.table patterns.now) + length (P.starts patterns.now)) }
        ensures entries { self.new.walk.steps.entered
            ≤ self.old.walk.steps.entered + length (P.table patterns.now) }
        ensures own { (haystack : Text) (entries : List ℕ) (p first last low len : ℕ)
            → IsHere haystack p here → first ≤ p
            → AreStartsUpTo (P.table patterns.now) haystack entries last p (P.starts patterns.now)
            → IsComingTo (P.table patterns.now) haystack entries WHOLE first last p
            self.old.walk.memory.threads (best_of self.old.best)
            → IsOwnPart (P.table patterns.now) entries low len
            → SpendsWithin (P.table patterns.now) low len (length (P.starts patterns.now)) self.old
            self.new }
        ensures counts { StaysCounted self.old.walk.steps self.new.walk.steps }
    {
        self.walk.memory.begin_position();
        let match_flag = self.follow::<_, WHOLE>(patterns, here);
        self.walk.memory.swap_lists();
        match_flag
    }

    /// Follows the threads of the position in order, and its own starts after them, up to the first
    /// that reaches a match: those after it are less preferred. Returns whether one does.
    #[inline(always)]
    fn follow<P: Patterns, const WHOLE: bool>(&mut self, patterns: &P, here: Here) -> bool
        requires placed { IsPlaced (P.table patterns.now)
            (ways_at (P.starts patterns.now) (S.reported_of here.at) self.old) self.old }
        requires inside { All (λ start. start.place < length (P.table patterns.now))
            (P.starts patterns.now) }
        requires room { HasCapacity (P.table patterns.now) self.old.walk [] }
        requires few_ways { length self.old.walk.memory.threads + length (P.starts patterns.now)
            < 2 ^ 64 }
        ensures followed { Follows (P.table patterns.now) WHOLE here
            (ways_at (P.starts patterns.now) (S.reported_of here.at) self.old) self.old self.new }
        ensures again { WHOLE ≡ false → FollowsAgain (P.table patterns.now) here
            (ways_at (P.starts patterns.now) (S.reported_of here.at) self.old) self.old self.new
            result }
        ensures match_flag { IsMatchFlag result (best_of self.old.best) (best_of self.new.best) }
        ensures room { HasCapacity (P.table patterns.now) self.new.walk [] }
        ensures ends { EndsAt here.at (best_of self.old.best) (best_of self.new.best) }
        ensures kept { best_of self.new.best ≡ None → best_of self.old.best ≡ None }
        ensures counts { StaysCounted self.old.walk.steps self.new.walk.steps }
        ensures entry { (best_of self.new.best ≡ best_of self.old.best)
            ⊎ (0 < self.new.walk.steps.entered) }
    {
        'ways: for k in 0..self.ways(patterns) {
            let (place, start) = self.walk.load_thread(k, patterns, here.at);
            if self.walk.explore::<_, WHOLE>(place, patterns, here, start) {
                self.best.set(start, here.at, self.walk.memory.row());
                return true;
            }
        }
        false
    }

    /// The number of threads to follow: those of the position and, if there is no match yet, its
    /// own starts after them.
    fn ways<P: Patterns>(&self, patterns: &P) -> usize
        requires { length self.now.walk.memory.threads + length (P.starts patterns.now) < 2 ^ 64 }
        ensures { (reported : ℕ → Reported)
            → result ≡ length (ways_at (P.starts patterns.now) reported self.now) }
    {
        let threads = self.walk.memory.threads();
        let own = patterns.len();
        if own == 0 {
            return threads;
        }
        if self.best.is_none() {
            threads + own
        } else {
            threads
        }
    }
}
