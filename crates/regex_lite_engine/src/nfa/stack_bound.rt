//! The stack bound of a search.
ghost use Rattle.std.specs.Prelude.{◌^◌, ◌<◌, map};
ghost use Rattle.regex_lite_engine.specs.Graph.Places.{stack_bound_of};
ghost use Rattle.regex_lite_engine.specs.Graph.Stored.{IsStackBoundOf, place_of};

use crate::nfa::place::Place;

/// The stack bound of a search that enters each place once: how much it pushes at most.
#[derive(Clone, Copy)]
pub(crate) struct StackBound {
    /// Without slots: the arrows after the first of each place.
    pub(crate) without_slots: usize,
    /// With slots: also the content of each slot before it is marked.
    pub(crate) with_slots: usize,
}

impl StackBound {
    /// The stack bound for these places.
    pub(crate) fn of(places: &[Place]) -> StackBound
        requires { stack_bound_of (map place_of places.now) < 2 ^ 64 }
        ensures { IsStackBoundOf (map place_of places.now) result }
    {
        let mut kept = StackBound {
            without_slots: 0,
            with_slots: 0,
        };
        for place in places {
            kept.without_slots += place.other_arrows();
            kept.with_slots += place.stack_bound();
        }
        kept
    }
}
