//! The start states.
ghost use Rattle.std.specs.Prelude.{◌<◌};

use crate::lazy_dfa::state::LookContext;

/// The numbers of the start states, one for each look context of the character before. A number may
/// be that of another state or of none, so callers have to check the state.
#[derive(Clone, Copy)]
pub(crate) struct StartStates {
    numbers: [u16; 5],
}

impl StartStates {
    /// The start states of a lazy DFA without states.
    pub(super) fn none() -> StartStates {
        StartStates { numbers: [0; 5] }
    }

    /// The start state for this look context.
    pub(super) fn number(&self, before: LookContext) -> u16 {
        self.numbers[index(before)]
    }

    /// Sets the start state for this look context.
    pub(super) fn put(&mut self, before: LookContext, number: u16) {
        self.numbers[index(before)] = number;
    }
}

/// The index of this look context. Each character has one.
fn index(before: LookContext) -> usize
    ensures { result < 5 }
{
    if before.is_word {
        0
    } else if before.is_none {
        1
    } else if before.is_line_feed {
        2
    } else if before.is_carriage_return {
        3
    } else {
        4
    }
}
