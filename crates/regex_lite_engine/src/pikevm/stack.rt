//! The stack of a walk: what it still has to do at a position.
ghost use Rattle.std.specs.Prelude.{◌≡◌, ◌↔◌, ◌+◌, ◌≤◌, ◌<◌, ◌++◌, [], ◌∷◌, ℕ};
ghost use Rattle.std.specs.Prelude.{IsTrue, MatchOption, length, map, true};
ghost use Rattle.regex_lite_engine.specs.Pikevm.Cells.{frame_of};
ghost use Rattle.regex_lite_engine.specs.Pikevm.Machine.{explore, restored};
ghost use Rattle.regex_lite_engine.specs.Pikevm.Capacity.{FramesBelow};

use crate::pikevm::cell::{Job, provide};
use crate::pikevm::memory::Memory;
use crate::pikevm::thread_start::ThreadStart;

impl<S: ThreadStart> Memory<S> {
    /// Pushes the frame.
    pub fn push(&mut self, frame: Job)
        requires { length self.old.frames < length self.old.entered }
        ensures { self.new
            ≡ record self.old { frames = frame_of frame ∷ self.old.frames } }
    {
        provide(&mut self.cells, self.depth);
        self.cells[self.depth].frame = frame;
        self.depth += 1;
    }

    /// Pushes all these places, the first on top.
    pub fn push_all(&mut self, places: &[u32])
        requires { length places.now + length self.old.frames ≤ length self.old.entered }
        ensures { self.new
            ≡ record self.old { frames = map explore places.now ++ self.old.frames } }
    {
        for i in (0..places.len()).rev() {
            self.push(Job::Explore(places[i]));
        }
    }

    /// Pops the top frame.
    pub fn pop(&mut self) -> Option<Job>
        ensures { MatchOption result
            ((self.old.frames ≡ []) × (self.new ≡ self.old))
            (λ frame. (self.old.frames ≡ frame_of frame ∷ self.new.frames)
            × (self.new ≡ record self.old { frames = self.new.frames })) }
    {
        if self.depth == 0 {
            return None;
        }
        self.depth -= 1;
        Some(self.cells[self.depth].frame)
    }

    /// Pops frames up to the next place, and returns that place. Each slot that was marked since it
    /// was pushed is restored.
    pub fn next_place(&mut self) -> Option<u32>
        requires { (places : ℕ) × FramesBelow places (length self.old.row) self.old.frames }
        ensures place { MatchOption result
            (restored self.old.row self.old.frames ≡ (self.new.row, []) × (self.new.frames ≡ []))
            (λ place. restored self.old.row self.old.frames
            ≡ (self.new.row, explore place ∷ self.new.frames)) }
        ensures same { self.new
            ≡ record self.old { row = self.new.row; frames = self.new.frames } }
        ensures width { length self.new.row ≡ length self.old.row }
    {
        'frames: while let Some(frame) = self.pop() {
            match frame {
                Job::Explore(place) => return Some(place),
                Job::Restore { slot, old } => self.put(slot, old),
            }
        }
        None
    }

    /// Whether the stack is empty.
    pub fn is_done(&self) -> bool
        ensures { IsTrue result ↔ (self.now.frames ≡ []) }
    {
        self.depth == 0
    }

    /// Drops all frames.
    pub fn drop_frames(&mut self)
        ensures { self.new ≡ record self.old { frames = [] } }
    {
        self.depth = 0;
    }
}
