//! The lookup of a lazy DFA's states: a small hash table of their numbers, with open addressing.
use crate::lazy_dfa::state::{MatchFlag, StoredWay};
use std::alloc::{AllocError, Global};

/// The number of cells that are probed for a state. There are twice as many cells as states, so all
/// of them are seldom taken: then one of the states is evicted, and may be added again.
pub(super) const CELLS_FOR_ONE: usize = 8;

/// Marks an empty cell.
const EMPTY: u16 = 0xFFFF;

/// An odd number with about as many bits set as not.
const MULTIPLIER: u64 = 0x9E37_79B9_7F4A_7C15;

/// Cells with the numbers of states. Those with the same hash are near each other. A cell may hold
/// any number, so callers have to compare the state.
#[derive(Drop)]
pub(crate) struct Lookup {
    cells: Vec<u16>,
    /// The number of cells, a power of two, minus one.
    mask: usize,
}

impl Lookup {
    /// A lookup for this number of states, with empty cells.
    pub(super) fn new(alloc: Global, states: usize) -> Result<Lookup, AllocError> {
        let len: usize = match states {
            0..=16 => 32,
            17..=64 => 128,
            _ => 512,
        };
        let mut cells = Vec::with_capacity(alloc, len)?;
        cells.resize(len, EMPTY)?;
        Ok(Lookup {
            cells,
            mask: len - 1,
        })
    }

    /// One of the cells for a state with this hash. The others differ from it only in the lowest
    /// bits.
    pub(super) fn cell(&self, hash: u64) -> usize {
        // The higher bits of a product depend on most bits of both numbers.
        (hash >> 32) as usize & self.mask
    }

    /// The number in this cell.
    pub(super) fn number(&self, cell: usize) -> Option<u16> {
        let number = *self.cells.get(cell)?;
        if number == EMPTY {
            return None;
        }
        Some(number)
    }

    /// Puts the number of a state into this cell.
    pub(super) fn put(&mut self, cell: usize, number: u16) {
        if cell < self.cells.len() {
            self.cells[cell] = number;
        }
    }
}

/// The hash of a state with these ways and this match flag.
pub(super) fn hash_of(ways: &[StoredWay], match_flag: MatchFlag) -> u64 {
    let mut hash = match match_flag {
        MatchFlag::Nowhere => 0,
        MatchFlag::AtFirst(number) => mixed(1, number as u64),
        MatchFlag::AtLater(number) => mixed(2, number as u64),
    };
    for way in ways {
        hash = mixed(hash, way.bits());
    }
    hash
}

/// The hash mixed with more bits; their order matters.
fn mixed(hash: u64, bits: u64) -> u64 {
    (hash ^ bits).wrapping_mul(MULTIPLIER)
}
