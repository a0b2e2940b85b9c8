//! The places of a graph: the states of the NFA.
ghost use Rattle.std.specs.Prelude.{◌≡◌};
ghost use Rattle.regex_lite_engine.specs.Graph.Places.{stack_bound, stack_bound_with};
ghost use Rattle.regex_lite_engine.specs.Graph.Stored.{place_of};

use crate::nfa::class::MappedClass;
use regex_lite_syntax::Look;
use std::mem::size_of;

/// A place (NFA state) of a graph, with the numbers of the places that its arrows lead to.
#[derive(Drop)]
pub enum Place {
    /// Continues without a condition.
    Empty { to: u32 },
    /// Reads this character.
    Char { c: char, to: u32 },
    /// Reads a character of this set.
    Class { to: u32, set: MappedClass },
    /// Continues if the look holds.
    Look { look: Look, to: u32 },
    /// Marks the slot with the position.
    Slot { slot: u32, to: u32 },
    /// Continues at the first or the second, the first preferred.
    Choice { first: u32, second: u32 },
    /// Continues at one of these, the earlier preferred.
    Branches(Vec<u32>),
    /// The match is complete.
    Match,
}

// As small as possible with the bitmap of a set inside: a search reads many places.
const _: () = prove!(size_of::<Place>() == 32);

impl Place {
    /// The number of arrows after the first.
    pub(crate) fn other_arrows(&self) -> usize
        ensures { result ≡ stack_bound_with 0 (place_of self.now) }
    {
        match self {
            Place::Choice { .. } => 1,
            Place::Branches(entries) => entries.len().saturating_sub(1),
            _ => 0,
        }
    }

    /// The number of frames that a search with slots pushes at this place.
    pub(crate) fn stack_bound(&self) -> usize
        ensures { result ≡ stack_bound (place_of self.now) }
    {
        match self {
            Place::Slot { .. } | Place::Choice { .. } => 1,
            Place::Branches(entries) => entries.len().saturating_sub(1),
            _ => 0,
        }
    }
}
