//! The threads at a position and at the next: places in the order of their preference, each with
//! its start and a row of slots.
ghost use Rattle.std.specs.Prelude.{◌≡◌, ◌+◌, ◌^◌, ◌<◌, ◌++◌, [], ◌∷◌};
ghost use Rattle.std.specs.Prelude.{None, length, replicate, true};
ghost use Rattle.regex_lite_engine.specs.Pikevm.Cells.{row_on};
ghost use Rattle.regex_lite_engine.specs.Pikevm.Machine.{thread_at};

use crate::pikevm::cell::{Side, provide};
use crate::pikevm::memory::Memory;
use crate::pikevm::thread_start::ThreadStart;

impl<S: ThreadStart> Memory<S> {
    /// The number of threads at the position.
    pub fn threads(&self) -> usize
        ensures same { result ≡ length self.now.threads }
        ensures few { result < 2 ^ 63 }
    {
        self.len
    }

    /// Loads a thread of the position: its row becomes the row of the current path. Returns its
    /// place and its start.
    pub fn load(&mut self, k: usize) -> (u32, S)
        requires { k < length self.old.threads }
        ensures thread { thread_at self.old.threads k
            ≡ (result.0, S.reported result.1, self.new.row) }
        ensures same { self.new ≡ record self.old { row = self.new.row } }
        ensures width { length self.new.row ≡ length self.old.row }
    {
        self.rows.copy(row_of(self.side, k), 0);
        self.cells[k].thread(self.side)
    }

    /// The place and the start of a thread of the position.
    ///
    /// Condition: the position has more threads than this number.
    pub fn thread(&self, k: usize) -> (u32, S)
        requires { k < length self.now.threads }
        ensures place { result.0 ≡ (thread_at self.now.threads k).0 }
        ensures start { S.reported result.1 ≡ (thread_at self.now.threads k).1 }
    {
        self.cells[k].thread(self.side)
    }

    /// Clears the row of the current path.
    pub fn clear_row(&mut self)
        ensures { self.new ≡ record self.old { row = replicate (length self.old.row) None } }
    {
        self.rows.clear(0);
    }

    /// Adds a thread to the next position, with the row of the current path.
    ///
    /// Condition: there is capacity for one more.
    pub fn push_next(&mut self, place: u32, start: S)
        requires { length self.old.next < self.old.room }
        ensures { self.new ≡ record self.old {
          next = self.old.next
              ++ (place, S.reported start, self.old.row) ∷ [];
        } }
    {
        let side = self.side.other();
        let k = self.next_len;
        self.rows.copy(0, row_of(side, k));
        provide(&mut self.cells, k);
        self.cells[k].put_thread(side, place, start);
        self.next_len = k + 1;
    }

    /// Moves to the next position. The one after it has no threads yet.
    pub fn swap_lists(&mut self)
        ensures { self.new ≡ record self.old { threads = self.old.next; next = [] } }
    {
        self.side = self.side.other();
        self.len = self.next_len;
        self.next_len = 0;
    }
}

/// The number of the row of a thread.
fn row_of(side: Side, k: usize) -> usize
    requires { row_on side k < 2 ^ 64 }
    ensures { result ≡ row_on side k }
{
    match side {
        Side::First => 2 * k + 1,
        Side::Second => 2 * k + 2,
    }
}
