//! The working memory of a search.
ghost use Rattle.std.specs.Prelude.{◌≡◌, ◌↔◌, ◌+◌, ◌*◌, ◌≤◌, ◌<◌, [], IfOk, IsTrue, false};
ghost use Rattle.std.specs.Prelude.{length, replicate, slice_index_or, slice_set, true};

use crate::pikevm::cell::{Cell, Side};
use crate::pikevm::place_set::PlaceSet;
use crate::pikevm::rows::Rows;
use crate::pikevm::slot::Slot;
use crate::pikevm::thread_start::ThreadStart;
use std::alloc::{AllocError, Global};
use std::marker::Model;

/// The working memory of a search. It takes one allocation, one more if slots are kept, and one
/// more if there are many places.
#[derive(Drop)]
pub struct Memory<S: ThreadStart> {
    /// The places that were entered at this position.
    pub(super) entered: PlaceSet,
    /// The cells that a search has needed so far. There is capacity for one for each place.
    pub(super) cells: Vec<Cell<S>>,
    /// The row of the current path, and the rows of the threads of both lists.
    pub(super) rows: Rows,
    /// The capacity of each list of threads.
    pub(super) room: usize,
    /// The number of frames. They lie in the first cells, the top one last.
    pub(super) depth: usize,
    /// The list of the position's threads. The other list is that of the next position.
    pub(super) side: Side,
    pub(super) len: usize,
    pub(super) next_len: usize,
}

impl<S: ThreadStart> Model for Memory<S> {
    ghost use Rattle.std.specs.Prelude.{length, vec_capacity};
    ghost use Rattle.regex_lite_engine.specs.Pikevm.Machine.{State};
    ghost use Rattle.regex_lite_engine.specs.Pikevm.Cells.{frames_in, nth_row};
    ghost use Rattle.regex_lite_engine.specs.Pikevm.Cells.{threads_on, other, HoldTogether};

    ghost Value = { State };

    ghost view = { λ memory. record {
      entered = memory.entered;
      frames = frames_in memory.cells.items memory.depth;
      row = nth_row memory.rows 0;
      threads = threads_on S.reported memory.side memory.cells.items memory.rows memory.room
          memory.len;
      next = threads_on S.reported (other memory.side) memory.cells.items memory.rows memory.room
          memory.next_len;
      room = memory.room;
    } };

    ghost invariant = { λ memory. HoldTogether memory.cells.items (vec_capacity memory.cells)
        (length memory.entered) memory.rows memory.room memory.depth memory.len memory.next_len };
}

impl<S: ThreadStart> Memory<S> {
    /// Memory for these numbers of places and of threads in each list, with rows of this width.
    pub fn blank(
        alloc: Global,
        places: usize,
        room: usize,
        width: usize,
    ) -> Result<Memory<S>, AllocError>
        requires { room ≤ places }
        ensures entered { IfOk result (λ memory. memory.entered ≡ replicate places false) }
        ensures frames { IfOk result (λ memory. memory.frames ≡ []) }
        ensures width { IfOk result (λ memory. length memory.row ≡ width) }
        ensures threads { IfOk result (λ memory. memory.threads ≡ []) }
        ensures next { IfOk result (λ memory. memory.next ≡ []) }
        ensures room { IfOk result (λ memory. memory.room ≡ room) }
    {
        let entered = PlaceSet::empty(alloc, places)?;
        let cells = Vec::with_capacity(alloc, places)?;
        let rows = rows_for(alloc, room, width)?;
        Ok(Memory {
            entered,
            cells,
            rows,
            room,
            depth: 0,
            side: Side::First,
            len: 0,
            next_len: 0,
        })
    }

    /// Resets the memory for another search: removes the threads and the frames that are left.
    pub fn restart(&mut self)
        ensures { self.new ≡ record self.old { frames = []; threads = []; next = [] } }
    {
        self.depth = 0;
        self.len = 0;
        self.next_len = 0;
    }

    /// Begins a position, at which no place was entered yet.
    pub fn begin_position(&mut self)
        ensures { self.new
            ≡ record self.old { entered = replicate (length self.old.entered) false } }
    {
        self.entered.clear();
    }

    /// Enters the place, and returns whether it is new at this position.
    pub fn insert(&mut self, place: u32) -> bool
        requires { place < length self.old.entered }
        ensures fresh { IsTrue result ↔ (slice_index_or self.old.entered place false ≡ false) }
        ensures added { self.new
            ≡ record self.old { entered = slice_set self.old.entered place true } }
    {
        self.entered.insert(place)
    }

    /// The number of rows.
    pub fn rows(&self) -> usize
        ensures { result ≡ 2 * self.now.room + 1 }
    {
        self.rows.count()
    }

    /// The row of the current path.
    pub fn row(&self) -> &[Slot]
        ensures { result.now ≡ self.now.row }
    {
        self.rows.first()
    }

    /// Sets a slot of that row to this.
    pub fn put(&mut self, slot: u32, held: Slot)
        requires { slot < length self.old.row }
        ensures { self.new ≡ record self.old { row = slice_set self.old.row slot held } }
    {
        self.rows.put(slot, held);
    }
}

/// Rows of this width for the current path and for the threads of both lists.
fn rows_for(alloc: Global, room: usize, width: usize) -> Result<Rows, AllocError>
    ensures count { IfOk result (λ rows. length rows ≡ 2 * room + 1) }
    ensures width { IfOk result (λ rows. length (slice_index_or rows 0 []) ≡ width) }
{
    let count = room.checked_mul(2).ok_or(AllocError)?;
    let count = count.checked_add(1).ok_or(AllocError)?;
    Rows::blank(alloc, count, width)
}
