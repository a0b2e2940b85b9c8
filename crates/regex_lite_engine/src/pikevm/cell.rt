//! The cells of the PikeVM's memory.
ghost use Rattle.std.specs.Prelude.{◌≡◌, ◌≤◌, ◌<◌, length, vec_capacity};
ghost use Rattle.regex_lite_engine.specs.Pikevm.Cells.{other, place_on, start_on, with_thread};
ghost use Rattle.regex_lite_engine.specs.Pikevm.Cells.{Continues, KeepsCapacity};

use crate::pikevm::slot::Slot;
use crate::pikevm::thread_start::{MatchStart, NoStart, ThreadStart};
use std::alloc::AllocError;
use std::mem::size_of;

/// A frame of the stack.
#[derive(Clone, Copy)]
pub enum Job {
    /// Explore a place.
    Explore(u32),
    /// Restore the content of a slot, since the branch that marked it has been left.
    Restore { slot: u32, old: Slot },
}

/// One of the two lists of threads.
#[derive(Clone, Copy)]
pub enum Side {
    First,
    Second,
}

/// The frame and the threads of both lists that have the same number. They are otherwise unrelated,
/// and are stored together so that one allocation suffices.
#[derive(Copy)]
pub struct Cell<S: ThreadStart> {
    /// The frame with this number.
    pub frame: Job,
    /// The starts and the places of the threads with this number.
    first_start: S,
    second_start: S,
    first_place: u32,
    second_place: u32,
}

// A derived `clone` would copy field by field.
impl<S: ThreadStart> Clone for Cell<S> {
    ghost use Rattle.std.specs.Prelude.{⊤};

    ghost is_clone = { λ old new. new ≡ old };

    ghost is_infallible = { λ _. ⊤ };

    fn clone(&self) -> Result<Cell<S>, AllocError> {
        Ok(*self)
    }
}

// A search has a cell for each place.
const _: () = prove!(size_of::<Cell<usize>>() == 40);

// A search for several patterns has larger cells.
const _: () = prove!(size_of::<Cell<MatchStart>>() == 56);

// A search for only an end has smaller cells.
const _: () = prove!(size_of::<Cell<NoStart>>() == 24);

impl Side {
    /// The other list.
    pub fn other(self) -> Side
        ensures { result ≡ other self }
    {
        match self {
            Side::First => Side::Second,
            Side::Second => Side::First,
        }
    }
}

impl<S: ThreadStart> Cell<S> {
    /// A blank cell.
    fn blank() -> Cell<S> {
        Cell {
            frame: Job::Explore(0),
            first_start: S::at(0, 0),
            second_start: S::at(0, 0),
            first_place: 0,
            second_place: 0,
        }
    }

    /// The place of this list's thread, and its start.
    pub fn thread(&self, side: Side) -> (u32, S)
        ensures { result ≡ (place_on side self.now, start_on side self.now) }
    {
        match side {
            Side::First => (self.first_place, self.first_start),
            Side::Second => (self.second_place, self.second_start),
        }
    }

    /// Stores a thread of this list.
    pub fn put_thread(&mut self, side: Side, place: u32, start: S)
        ensures { self.new ≡ with_thread side place start self.old }
    {
        match side {
            Side::First => {
                self.first_place = place;
                self.first_start = start;
            }
            Side::Second => {
                self.second_place = place;
                self.second_start = start;
            }
        }
    }
}

/// Adds the cell with this number, unless it exists. There is capacity for it.
#[inline(always)]
pub(super) fn provide<S: ThreadStart>(cells: &mut Vec<Cell<S>>, k: usize)
    requires next { k ≤ length cells.old.items }
    requires room { k < vec_capacity cells.old }
    ensures more { Continues cells.old.items cells.new.items }
    ensures there { k < length cells.new.items }
    ensures capacity { KeepsCapacity cells.old cells.new }
{
    if k == cells.len() {
        cells.push_reserved(Cell::blank());
    }
}
