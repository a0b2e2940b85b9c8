//! The walk from one start: it follows a path to its end, then backtracks to the top frame of the
//! stack.
ghost use Rattle.std.specs.Prelude.{◌≡◌, ◌<◌, ◌+◌, [], ◌∷◌, IfSome, length, true, false};
ghost use Rattle.regex_lite_engine.specs.Backtrack.Machine.{completes, end_at, explore, onto};
ghost use Rattle.regex_lite_engine.specs.Backtrack.Capacity.{HasCapacity, TakesFrame};
ghost use Rattle.regex_lite_engine.specs.Graph.Stored.{places_of};
ghost use Rattle.regex_lite_engine.specs.Search.Bounds.{StaysCounted};

use crate::backtrack::enter::{Continuation, enter};
use crate::backtrack::frame::Frame;
use crate::backtrack::stack::Stack;
use crate::backtrack::visited::Visited;
use crate::nfa::table::Table;
use crate::steps::Steps;

/// The working memory of a search, and its counts.
#[derive(Drop)]
pub struct Backtracker {
    pub visited: Visited,
    pub stack: Stack,
    pub steps: Steps,
}

impl Backtracker {
    ghost use Rattle.regex_lite_engine.specs.Backtrack.Searching.{Explores, Restores, SlotsBelow};

    /// Follows the paths from the start at this offset, the most preferred first. Returns the end
    /// of the first that is a match. If COUNTED, the steps are counted.
    #[inline(always)]
    pub fn explore<const COUNTED: bool>(
        &mut self,
        table: &Table,
        entry: u32,
        haystack: &str,
        start: usize,
    ) -> Option<usize>
        requires room { HasCapacity (places_of table.now) haystack.now self.old
            (explore entry start ∷ []) }
        requires empty { self.old.stack.frames ≡ [] }
        ensures explored { Explores (places_of table.now) haystack.now entry start
            self.old self.new result }
        ensures counts { StaysCounted self.old.steps self.new.steps }
        ensures entry { COUNTED ≡ true → IfSome result (λ _. 0 < self.new.steps.entered) }
    {
        let (mut place, mut at) = (entry, start);
        'ways: loop {
            match self.come_to::<COUNTED>(table, haystack, place, at) {
                Continuation::To {
                    place: to,
                    at: past,
                } => (place, at) = (to, past),
                Continuation::Complete => return Some(at),
                Continuation::Back => (place, at) = self.go_back()?,
            }
        }
    }

    /// Visits a place, and enters it if it is new at this offset. If COUNTED, this is counted.
    #[inline(always)]
    fn come_to<const COUNTED: bool>(
        &mut self,
        table: &Table,
        haystack: &str,
        place: u32,
        at: usize,
    ) -> Continuation
        requires { HasCapacity (places_of table.now) haystack.now self.old
            (explore place at ∷ self.old.stack.frames) }
        ensures taken { TakesFrame (places_of table.now) haystack.now self.old
            (explore place at ∷ self.old.stack.frames) self.new
            (onto result self.new.stack.frames) (end_at at result) }
        ensures tries { COUNTED ≡ true → self.new.steps.tried ≡ self.old.steps.tried + 1 }
        ensures uncounted { COUNTED ≡ false → self.new.steps ≡ self.old.steps }
        ensures counts { StaysCounted self.old.steps self.new.steps }
        ensures entry { COUNTED ≡ true → completes result ≡ true
            → 0 < self.new.steps.entered }
    {
        self.steps.count_try_if::<COUNTED>();
        if !self.visited.insert(place, at) {
            return Continuation::Back;
        }
        let found = table.look_on_entry::<COUNTED>(place, &mut self.steps);
        enter(found, haystack, at, &mut self.stack)
    }

    /// Abandons the current path, and backtracks to the top frame of the stack.
    #[inline(always)]
    fn go_back(&mut self) -> Option<(u32, usize)>
        requires { SlotsBelow (length self.old.stack.row) self.old.stack.frames }
        ensures back { Restores self.old.stack.row self.old.stack.frames result
            self.new.stack.row self.new.stack.frames }
        ensures same { self.new ≡ record self.old { stack = self.new.stack } }
        ensures row { length self.new.stack.row ≡ length self.old.stack.row }
        ensures room { self.new.stack.room ≡ self.old.stack.room }
    {
        'frames: while let Some(frame) = self.stack.pop() {
            match frame {
                Frame::Explore { place, at } => return Some((place, at)),
                Frame::Clear { slot } => self.stack.put(slot, None),
                Frame::Restore { slot, at } => self.stack.put(slot, Some(at)),
            }
        }
        None
    }
}
