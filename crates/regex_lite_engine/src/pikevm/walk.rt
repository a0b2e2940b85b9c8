//! The walk at one position: the closure of a place under the arrows that read no character.
ghost use Rattle.std.specs.Prelude.{◌≡◌, ◌+◌, ◌≤◌, ◌<◌, ◌++◌, [], ◌∷◌};
ghost use Rattle.std.specs.Prelude.{None, length, replicate, true};
ghost use Rattle.regex_lite_engine.specs.Graph.Stored.{places_of};
ghost use Rattle.regex_lite_engine.specs.Search.Bounds.{StaysCounted};
ghost use Rattle.regex_lite_engine.specs.Pikevm.Entering.{completes, onto};
ghost use Rattle.regex_lite_engine.specs.Pikevm.Machine.{explore, thread_at};
ghost use Rattle.regex_lite_engine.specs.Pikevm.Stepping.{begun};
ghost use Rattle.regex_lite_engine.specs.Pikevm.Capacity.{HasCapacity, TakesFrame, Explores};
ghost use Rattle.regex_lite_engine.specs.Pikevm.Capacity.{KeepsPosition};

use crate::nfa::table::Table;
use crate::pikevm::enter::{Onward, enter};
use crate::pikevm::memory::Memory;
use crate::pikevm::thread_start::ThreadStart;
use crate::search::here::Here;
use crate::search::patterns::Patterns;
use crate::steps::Steps;

/// The working memory of a walk, and its counts.
#[derive(Drop)]
pub struct Walk<S: ThreadStart> {
    pub memory: Memory<S>,
    pub steps: Steps,
}

impl<S: ThreadStart> Walk<S> {
    /// Loads a thread of the position, or one of its own starts after them: its row becomes the row
    /// of the current path. Returns the place to explore, and the thread's start.
    #[inline(always)]
    pub fn load_thread<P: Patterns>(&mut self, k: usize, patterns: &P, at: usize) -> (u32, S)
        requires { k < length self.old.memory.threads + length (P.starts patterns.now) }
        ensures thread { thread_at (self.old.memory.threads
            ++ begun (S.reported_of at) (replicate (length self.old.memory.row) None)
            (P.starts patterns.now)) k
            ≡ (result.0, S.reported result.1, self.new.memory.row) }
        ensures memory { self.new.memory
            ≡ record self.old.memory { row = self.new.memory.row } }
        ensures row { length self.new.memory.row ≡ length self.old.memory.row }
        ensures steps { self.new.steps ≡ self.old.steps }
    {
        let threads = self.memory.threads();
        if k < threads {
            return self.memory.load(k);
        }
        self.memory.clear_row();
        let start = patterns.start(k - threads);
        (start.place, S::at(at, start.number))
    }

    /// Explores this place and all that is on the stack, for one thread that began at `start`.
    /// Stops at a complete match, since what is left then is less preferred, and returns whether
    /// there is one. If WHOLE, a match is complete only at the haystack's end.
    #[inline(always)]
    pub fn explore<P: Patterns, const WHOLE: bool>(
        &mut self,
        first: u32,
        patterns: &P,
        here: Here,
        start: S,
    ) -> bool
        requires { HasCapacity (P.table patterns.now) self.old
            (explore first ∷ self.old.memory.frames) }
        ensures room { HasCapacity (P.table patterns.now) self.new [] }
        ensures explored { Explores (P.table patterns.now) WHOLE here (S.reported start) self.old
            self.new
            (explore first ∷ self.old.memory.frames) result }
        ensures empty { self.new.memory.frames ≡ [] }
        ensures kept { KeepsPosition self.old.memory self.new.memory }
        ensures counts { StaysCounted self.old.steps self.new.steps }
        ensures entry { result ≡ true → 0 < self.new.steps.entered }
    {
        self.explore_in::<WHOLE>(first, patterns.table(), here, start)
    }

    /// Like `explore`, in a table.
    #[inline(always)]
    fn explore_in<const WHOLE: bool>(
        &mut self,
        first: u32,
        table: &Table,
        here: Here,
        start: S,
    ) -> bool
        requires { HasCapacity (places_of table.now) self.old
            (explore first ∷ self.old.memory.frames) }
        ensures room { HasCapacity (places_of table.now) self.new [] }
        ensures explored { Explores (places_of table.now) WHOLE here (S.reported start) self.old
            self.new
            (explore first ∷ self.old.memory.frames) result }
        ensures empty { self.new.memory.frames ≡ [] }
        ensures kept { KeepsPosition self.old.memory self.new.memory }
        ensures counts { StaysCounted self.old.steps self.new.steps }
        ensures entry { result ≡ true → 0 < self.new.steps.entered }
    {
        let mut place = first;
        'places: loop {
            place = match self.come_to::<WHOLE>(place, table, here, start) {
                Onward::To(next) => next,
                Onward::Back => match self.memory.next_place() {
                    Some(next) => next,
                    None => return false,
                },
                Onward::Complete => return true,
            };
        }
    }

    /// Visits a place, and enters it if it is new at this position.
    #[inline(always)]
    fn come_to<const WHOLE: bool>(
        &mut self,
        place: u32,
        table: &Table,
        here: Here,
        start: S,
    ) -> Onward
        requires { HasCapacity (places_of table.now) self.old
            (explore place ∷ self.old.memory.frames) }
        ensures taken { TakesFrame (places_of table.now) WHOLE here (S.reported start) self.old
            (explore place ∷ self.old.memory.frames) self.new
            (onto result self.new.memory.frames) (completes result) }
        ensures kept { KeepsPosition self.old.memory self.new.memory }
        ensures tries { self.new.steps.tried ≡ self.old.steps.tried + 1 }
        ensures counts { StaysCounted self.old.steps self.new.steps }
        ensures entry { completes result ≡ true → 0 < self.new.steps.entered }
    {
        self.steps.count_try();
        if !self.memory.insert(place) {
            return Onward::Back;
        }
        self.steps.count_entry();
        let found = table.look(place, &mut self.steps);
        let onward = enter::<_, WHOLE>(found, here, start, &mut self.memory);
        if let Onward::Complete = onward {
            self.memory.drop_frames();
        }
        onward
    }
}
