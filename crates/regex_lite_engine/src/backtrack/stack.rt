//! The current path of a search, and its stack.
ghost use Rattle.std.specs.Prelude.{◌≡◌, ◌+◌, ◌-◌, ◌≤◌, ◌<◌, ◌++◌, ◌⊎◌, [], ◌∷◌};
ghost use Rattle.std.specs.Prelude.{Some, None, IfOk, MatchOption, length, map};
ghost use Rattle.std.specs.Prelude.{drop, replicate, slice_set, slice_index_or};
ghost use Rattle.regex_lite_engine.specs.Backtrack.Machine.{explore, frame_of, restore};

use crate::backtrack::frame::Frame;
use std::alloc::{AllocError, Global};
use std::marker::Model;

/// The slots of the current path, and the frames, the top one last. There is capacity for all
/// frames that a search may push.
#[derive(Drop)]
pub struct Stack {
    frames: Vec<Frame>,
    row: Vec<Option<usize>>,
}

impl Model for Stack {
    ghost use Rattle.std.specs.Prelude.{map, reverse, vec_capacity};
    ghost use Rattle.regex_lite_engine.specs.Backtrack.Machine.{Held, frame_of};

    ghost Value = { Held };

    ghost view = { λ stack. record {
      frames = reverse (map frame_of stack.frames.items);
      row = stack.row.items;
      room = vec_capacity stack.frames;
    } };
}

impl Stack {
    /// An empty stack, with no slot marked.
    pub fn blank(alloc: Global, room: usize, slots: usize) -> Result<Stack, AllocError>
        ensures frames { IfOk result (λ stack. stack.frames ≡ []) }
        ensures row { IfOk result (λ stack. stack.row ≡ replicate slots None) }
        ensures room { IfOk result (λ stack. stack.room ≡ room) }
    {
        let row = vec![in alloc; None; slots]?;
        let frames = Vec::with_capacity(alloc, room)?;
        Ok(Stack { frames, row })
    }

    /// Pushes the frame.
    pub fn push(&mut self, frame: Frame)
        requires { length self.old.frames < self.old.room }
        ensures { self.new
            ≡ record self.old { frames = frame_of frame ∷ self.old.frames } }
    {
        self.frames.push_reserved(frame);
    }

    /// Pushes all these places, the first on top.
    pub fn push_all(&mut self, places: &[u32], at: usize)
        requires { length places.now + length self.old.frames ≤ self.old.room }
        ensures { self.new ≡ record self.old {
          frames = map (λ q. explore q at) places.now ++ self.old.frames;
        } }
    {
        for i in (0..places.len()).rev() {
            self.push(Frame::Explore {
                place: places[i],
                at,
            });
        }
    }

    /// Sets a slot to this offset, if it is kept, and pushes a frame that restores its content.
    pub fn mark(&mut self, slot: u32, at: usize)
        requires { slot < length self.old.row → length self.old.frames < self.old.room }
        ensures kept { slot < length self.old.row → self.new ≡ record self.old {
          frames = restore slot (slice_index_or self.old.row slot None) ∷ self.old.frames;
          row = slice_set self.old.row slot (Some at);
        } }
        ensures past { length self.old.row ≤ slot → self.new ≡ self.old }
    {
        let k = slot as usize;
        if k >= self.row.len() {
            return;
        }
        let frame = match self.row[k] {
            None => Frame::Clear { slot },
            Some(at) => Frame::Restore { slot, at },
        };
        self.push(frame);
        self.row[k] = Some(at);
    }

    /// Pops the top frame.
    pub fn pop(&mut self) -> Option<Frame>
        ensures { MatchOption result
            ((self.old.frames ≡ []) × (self.new ≡ self.old))
            (λ frame. (self.old.frames ≡ frame_of frame ∷ self.new.frames)
            × (self.new ≡ record self.old { frames = self.new.frames })) }
    {
        self.frames.pop()
    }

    /// Sets a slot to this.
    pub fn put(&mut self, slot: u32, held: Option<usize>)
        requires { slot < length self.old.row }
        ensures { self.new ≡ record self.old { row = slice_set self.old.row slot held } }
    {
        self.row[slot as usize] = held;
    }

    /// Drops all frames and clears all slots. The memory is kept.
    pub fn clear(&mut self)
        ensures { self.new ≡ record self.old {
          frames = [];
          row = replicate (length self.old.row) None;
        } }
    {
        self.frames.clear();
        self.row.fill(None);
    }

    /// The contents of the slots.
    pub fn row(&self) -> &[Option<usize>]
        ensures { result.now ≡ self.now.row }
    {
        &self.row
    }

    /// The contents of the slots, without the stack.
    pub fn into_row(self) -> Vec<Option<usize>>
        ensures { result.items ≡ self.row }
    {
        let Stack { row, .. } = self;
        row
    }
}
