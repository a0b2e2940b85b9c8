//! The state table: numbered places, for the graph of one pattern or of several.
ghost use Rattle.std.specs.Prelude.{◌≡◌, ◌+◌, ◌^◌, ◌<◌, if◌then◌else◌, length, map};
ghost use Rattle.std.specs.Prelude.{slice_get, sum_by, Some};
ghost use Rattle.regex_lite_engine.specs.Graph.Places.{reading_of, stack_bound_of};
ghost use Rattle.regex_lite_engine.specs.Graph.Places.{stack_bound_with};
ghost use Rattle.regex_lite_engine.specs.Graph.Renumbered.{arrows_of};
ghost use Rattle.regex_lite_engine.specs.Graph.Stored.{IsClosed, LeadInside, LeadsBelow};
ghost use Rattle.regex_lite_engine.specs.Graph.Stored.{place_of, places_of};

use crate::nfa::place::Place;
use crate::nfa::stack_bound::StackBound;
use crate::steps::Steps;
use std::marker::Model;

/// The places of a graph by number. Their arrows lead to places of the table.
#[derive(Drop)]
pub struct Table {
    places: Vec<Place>,
    arrows: usize,
    /// The number of places that read a character.
    reading: usize,
    /// The stack bound of a search that enters each place once.
    stack_bound: StackBound,
}

impl Model for Table {
    ghost use Rattle.std.specs.Prelude.{◌≡◌, map};
    ghost use Rattle.regex_lite_engine.specs.Graph.Renumbered.{arrows_of};
    ghost use Rattle.regex_lite_engine.specs.Graph.Stored.{StoredTable, IsClosed};
    ghost use Rattle.regex_lite_engine.specs.Graph.Stored.{IsStackBoundOf, place_of};

    ghost Value = { StoredTable };

    ghost view = { λ table. record {
      places = table.places.items;
      arrows = table.arrows;
    } };

    ghost invariant = { λ table.
        IsClosed table.places.items table.arrows table.reading
        × (arrows_of (map place_of table.places.items) ≡ table.arrows)
        × IsStackBoundOf (map place_of table.places.items) table.stack_bound };
}

impl Table {
    /// The table of these places, which have `arrows` arrows, and of which `reading` read a
    /// character.
    pub(crate) fn new(places: Vec<Place>, arrows: usize, reading: usize) -> Table
        requires closed { IsClosed places.items arrows reading }
        requires each_arrow { arrows_of (map place_of places.items) ≡ arrows }
        ensures { result ≡ record {
          places = places.items;
          arrows = arrows;
        } }
    {
        let stack_bound = StackBound::of(&places);
        Table {
            places,
            arrows,
            reading,
            stack_bound,
        }
    }

    /// The place with this number. Each call is counted.
    // Inlined, since it is called for each place that is tried.
    #[inline(always)]
    pub(crate) fn look(&self, place: u32, steps: &mut Steps) -> &Place
        requires inside { place < length self.now.places }
        requires room { steps.old.looked + 1 < 2 ^ 128 }
        ensures found { slice_get self.now.places place ≡ Some result.now }
        ensures inside { LeadsBelow (length self.now.places) (place_of result.now) }
        ensures counted { steps.new ≡ record steps.old { looked = steps.old.looked + 1 } }
    {
        steps.count_look();
        &self.places[place as usize]
    }

    /// The place with this number, which a search enters. If COUNTED, the entry and the look-up are
    /// counted.
    #[inline(always)]
    pub(crate) fn look_on_entry<const COUNTED: bool>(&self, place: u32, steps: &mut Steps) -> &Place
        requires inside { place < length self.now.places }
        requires room { (steps.old.entered + 1 < 2 ^ 128) × (steps.old.looked + 1 < 2 ^ 128) }
        ensures found { slice_get self.now.places place ≡ Some result.now }
        ensures inside { LeadsBelow (length self.now.places) (place_of result.now) }
        ensures counted { steps.new ≡ if COUNTED then record steps.old {
          entered = steps.old.entered + 1;
          looked = steps.old.looked + 1;
        } else steps.old }
    {
        if COUNTED {
            steps.count_entry();
            steps.count_look();
        }
        &self.places[place as usize]
    }

    /// All places, for analysis before a search begins. Reading them isn't counted.
    pub fn all(&self) -> &[Place]
        ensures same { result.now ≡ self.now.places }
        ensures inside { LeadInside result.now }
    {
        &self.places
    }

    /// The number of places.
    pub fn places(&self) -> usize
        ensures same { result ≡ length self.now.places }
        ensures few { result < 2 ^ 32 }
        ensures stack_bound { 0 < result → stack_bound_of (places_of self.now) < result }
        ensures few_arrows { arrows_of (places_of self.now) < 2 ^ 34 }
    {
        self.places.len()
    }

    /// The number of arrows.
    pub fn arrows(&self) -> usize
        ensures same { result ≡ self.now.arrows }
        ensures all { result ≡ arrows_of (places_of self.now) }
        ensures few { result < 2 ^ 34 }
    {
        self.arrows
    }

    /// The number of places that read a character. Searches also rely on the bound on the number of
    /// arrows.
    pub fn reading(&self) -> usize
        ensures each { result ≡ reading_of (places_of self.now) }
        ensures few { 0 < length self.now.places → result < length self.now.places }
        ensures few_arrows { arrows_of (places_of self.now) < 2 ^ 34 }
    {
        self.reading
    }

    /// The stack bound of a search with this number of slots that enters each place once.
    pub(crate) fn stack_bound(&self, slots: usize) -> usize
        ensures { result ≡ sum_by (stack_bound_with slots) (places_of self.now) }
    {
        if slots == 0 {
            self.stack_bound.without_slots
        } else {
            self.stack_bound.with_slots
        }
    }
}
