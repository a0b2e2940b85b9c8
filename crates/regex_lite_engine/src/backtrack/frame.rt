//! The frames of the stack: what is left to do when the current path fails.
use std::mem::size_of;

/// A frame of the stack.
#[derive(Clone, Copy)]
pub enum Frame {
    /// Explore a place at this offset.
    Explore { place: u32, at: usize },
    /// Clear a slot again, since the branch that marked it has failed.
    Clear { slot: u32 },
    /// Set a slot to this offset again.
    Restore { slot: u32, at: usize },
}

// There may be a frame for each place at each position.
const _: () = prove!(size_of::<Frame>() == 16);
