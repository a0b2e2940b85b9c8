//! The capacity of a lazy DFA's cache.
use crate::lazy_dfa::classes::Classes;

/// At most this many states are kept.
pub(super) const MOST_STATES: usize = 256;

/// At most this many transitions are kept: one for each state and class.
const MOST_TRANSITIONS: usize = 7168;

/// At most this many ways are kept, in all states together.
const MOST_WAYS: usize = 2176;

/// The numbers of states, transitions and ways that fit.
#[derive(Clone, Copy)]
pub(crate) struct Capacity {
    pub states: usize,
    pub next_states: usize,
    pub ways: usize,
}

impl Capacity {
    /// The capacity that searches for this number of patterns can use, up to the limits, if
    /// `reading` places of their graph read a character.
    pub(crate) fn of(reading: usize, patterns: usize, classes: &Classes) -> Capacity {
        let width = classes.len();
        let different = different_states(reading, patterns, classes.looks());
        let states = different.min(MOST_STATES).min(MOST_TRANSITIONS / width);
        // A state has at most one way to each place. One more state may be pending.
        let ways = reading.saturating_mul(states.saturating_add(1));
        Capacity {
            states,
            next_states: states.saturating_mul(width),
            ways: ways.min(MOST_WAYS),
        }
    }
}

/// An upper bound of the number of different states, or `MOST_STATES` if there may be more.
fn different_states(reading: usize, patterns: usize, looks: bool) -> usize {
    // The ways of a state lead to different places. Each began at the first start, or it didn't.
    // `of_first` counts the lists in which all did.
    let (lists, of_first): (usize, usize) = match reading {
        0 => (1, 0),
        1 => (3, 1),
        2 => (13, 4),
        _ => return MOST_STATES,
    };
    // The match flags: there is no match yet, there was one before, or a match of one of the
    // patterns is complete, which began at the first start or didn't.
    let match_flags = patterns.saturating_mul(2).saturating_add(2);
    // The look contexts: no character, a line feed, a carriage return, a word character, or any
    // other.
    let contexts = if looks { 5 } else { 1 };
    // If the first start is the last position, there is no match, and all ways began there.
    lists
        .saturating_mul(match_flags)
        .saturating_add(of_first)
        .saturating_mul(contexts)
}
