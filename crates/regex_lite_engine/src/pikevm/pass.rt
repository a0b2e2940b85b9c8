//! Stepping from position to position, and skipping those at which no match can start.
ghost use Rattle.std.specs.Prelude.{◌≡◌, ◌+◌, ◌^◌, ◌≤◌, ◌<◌, ℕ, All, chars, length};
ghost use Rattle.regex_lite_syntax.specs.Text.{Text};
ghost use Rattle.regex_lite_engine.specs.Search.Bounds.{StaysCounted, characters_left};
ghost use Rattle.regex_lite_engine.specs.Search.Counting.{CanCount};
ghost use Rattle.regex_lite_engine.specs.Pikevm.Passing.{IsUnderWay, IsUnderWayTo, Passes};
ghost use Rattle.regex_lite_engine.specs.Search.Here.{IsHere};
ghost use Rattle.regex_lite_engine.specs.Pikevm.Passing.{GoesOnAt};
ghost use Rattle.regex_lite_engine.specs.Pikevm.Stepping.{best_of, EndsAt};
ghost use Rattle.regex_lite_engine.specs.Search.Starts.{AreStartsUpTo};

use crate::pikevm::cache::Cache;
use crate::pikevm::thread_start::ThreadStart;
use crate::search::here::Here;
use crate::search::patterns::{Patterns, pass_over};

impl<S: ThreadStart> Cache<S> {
    /// Moves to the next position at which there is something to do, and takes the step there.
    /// Returns that position.
    // Inlined with all that it calls, like `step`, since several loops use it for the same
    // patterns.
    #[inline(always)]
    pub fn pass<P: Patterns>(&mut self, patterns: &mut P, haystack: &str, here: Here) -> Here
        requires { (s p : ℕ) × IsHere (chars haystack.now) p here
            × CanCount (P.table patterns.old) (length (P.entries patterns.old))
            (characters_left (chars haystack.now) s)
            × IsUnderWay (P.table patterns.old) (chars haystack.now) (P.entries patterns.old) s p
            self.old }
        ensures table { P.table patterns.new ≡ P.table patterns.old }
        ensures entries { P.entries patterns.new ≡ P.entries patterns.old }
        ensures passes { (s p : ℕ) → IsHere (chars haystack.now) p here
            → IsUnderWay (P.table patterns.old) (chars haystack.now) (P.entries patterns.old) s p
            self.old
            → Passes (P.table patterns.new) (chars haystack.now) (P.entries patterns.new) s p
            self.old self.new result }
        ensures width { length self.new.best.row ≡ length self.old.best.row }
        ensures counts { StaysCounted self.old.walk.steps self.new.walk.steps }
    {
        let here = self.next_start(patterns, haystack, here);
        patterns.come_to(haystack, here);
        self.go_over::<_, false>(patterns, here);
        here
    }

    /// Takes the step at this position, at which these patterns start.
    #[inline(always)]
    pub fn go_over<P: Patterns, const WHOLE: bool>(&mut self, patterns: &P, here: Here)
        requires on { (haystack : Text) × (s last p : ℕ) × IsHere haystack p here
            × CanCount (P.table patterns.now) (length (P.entries patterns.now))
            (characters_left haystack s)
            × IsUnderWayTo (P.table patterns.now) haystack (P.entries patterns.now) s WHOLE last p
            self.old }
        requires inside { All (λ start. start.place < length (P.table patterns.now))
            (P.starts patterns.now) }
        requires few { length (P.starts patterns.now) ≤ length (P.entries patterns.now) }
        requires countable { length (P.entries patterns.now) < 2 ^ 32 }
        ensures on { (haystack : Text) (s last p : ℕ) → IsHere haystack p here
            → AreStartsUpTo (P.table patterns.now) haystack (P.entries patterns.now) last p
            (P.starts patterns.now)
            → IsUnderWayTo (P.table patterns.now) haystack (P.entries patterns.now) s WHOLE last p
            self.old
            → IsUnderWayTo (P.table patterns.now) haystack (P.entries patterns.now) s WHOLE last
            (p + 1) self.new }
        ensures ends { EndsAt here.at (best_of self.old.best) (best_of self.new.best) }
        ensures width { length self.new.best.row ≡ length self.old.best.row }
        ensures counts { StaysCounted self.old.walk.steps self.new.walk.steps }
    {
        // The memory fits more threads than there are patterns.
        let _threads = self.walk.memory.threads();
        self.step::<_, WHOLE>(patterns, here);
    }

    /// The position at which the search continues: where it is if there is a thread or a match, and
    /// otherwise the next position at which a match can start, or the haystack's end.
    #[inline(always)]
    fn next_start<P: Patterns>(&self, patterns: &P, haystack: &str, here: Here) -> Here
        requires { (p : ℕ) × IsHere (chars haystack.now) p here }
        ensures { (p : ℕ) → IsHere (chars haystack.now) p here
            → GoesOnAt (P.table patterns.now) (chars haystack.now) (P.entries patterns.now)
            self.now.walk.memory.threads (best_of self.now.best) p result }
    {
        if self.walk.memory.threads() > 0 {
            return here;
        }
        if !self.best.is_none() {
            return here;
        }
        pass_over(patterns, haystack, here)
    }
}
