//! The places of a table that searches for some patterns can reach.
//!
//! The classes and the reach of a lazy DFA are those of its patterns' own part alone. Patterns lie
//! side by side in the table of a list, so the least row of places that no arrow leaves is that
//! part, and to read the parts of all patterns takes time linear in the list. A transition is then
//! the same wherever the places of the part see the same. The classes of a whole list would be
//! more, and transitions would repeat less often.
ghost use Rattle.std.specs.Prelude.{◌≡◌, ◌+◌, ◌≤◌, ◌<◌, ℕ, All, IfSome, length, slice_get, Some};
ghost use Rattle.regex_lite_meta.specs.LazyDfa.Parts.{IsInPart, IsPartOf, LeadWithin, Widens};
ghost use Rattle.regex_lite_engine.specs.Graph.Stored.{LeadInside, LeadsBelow, LeadsInto, place_of};
ghost use Rattle.regex_lite_engine.specs.Search.Starts.{AreAllStarts};

use regex_lite_engine::nfa::place::Place;
use regex_lite_engine::search::patterns::Patterns;

/// Consecutive places: from `low` up to, but not including, `end`.
#[derive(Clone, Copy)]
pub(super) struct PlaceRange {
    pub low: usize,
    pub end: usize,
}

impl PlaceRange {
    /// The least part that has the entries of all these patterns and that no arrow leaves. `None`
    /// without a pattern.
    pub(super) fn of<P: Patterns>(all: &P) -> Option<PlaceRange>
        requires { AreAllStarts (P.table all.now) (P.entries all.now) (P.starts all.now) }
        ensures { IfSome result (IsPartOf (P.table all.now) (P.entries all.now)) }
    {
        let patterns = all.len();
        if patterns == 0 {
            return None;
        }
        let mut part = PlaceRange::at(all.start(0).place);
        'starts: for k in 0..patterns {
            part.take_in(all.start(k).place);
        }
        part.close(all.table().all());
        Some(part)
    }

    /// Only the place with this number.
    fn at(place: u32) -> PlaceRange
        ensures { result ≡ record { low = place; end = place + 1 } }
    {
        let low = place as usize;
        PlaceRange { low, end: low + 1 }
    }

    /// Extends the part to the place with this number.
    // Inlined, and so is the next, since they are called for each place.
    #[inline(always)]
    fn take_in(&mut self, place: u32)
        requires order { self.old.low ≤ self.old.end }
        ensures taken { IsInPart self.new place }
        ensures widens { Widens self.old self.new }
        ensures inside { (n : ℕ) → self.old.end ≤ n → place < n → self.new.end ≤ n }
    {
        let place = place as usize;
        if place < self.low {
            self.low = place;
        }
        if place >= self.end {
            self.end = place + 1;
        }
    }

    /// Extends the part to the places that this place's arrows lead to.
    #[inline(always)]
    fn take_in_next_states(&mut self, place: &Place)
        requires order { self.old.low ≤ self.old.end }
        ensures taken { LeadsInto (IsInPart self.new) (place_of place.now) }
        ensures widens { Widens self.old self.new }
        ensures inside { (n : ℕ) → self.old.end ≤ n → LeadsBelow n (place_of place.now)
            → self.new.end ≤ n }
    {
        match place {
            Place::Empty { to } => self.take_in(*to),
            Place::Char { to, .. } => self.take_in(*to),
            Place::Class { to, set } => {
                // An empty set has no arrow.
                if !set.ranges().is_empty() {
                    self.take_in(*to);
                }
            }
            Place::Look { to, .. } => self.take_in(*to),
            Place::Slot { to, .. } => self.take_in(*to),
            Place::Choice { first, second } => {
                self.take_in(*first);
                self.take_in(*second);
            }
            Place::Branches(entries) => self.take_in_all(entries),
            Place::Match => (),
        }
    }

    /// Extends the part to the places with these numbers.
    fn take_in_all(&mut self, places: &[u32])
        requires order { self.old.low ≤ self.old.end }
        ensures taken { All (IsInPart self.new) places.now }
        ensures widens { Widens self.old self.new }
        ensures inside { (n : ℕ) → self.old.end ≤ n → All (λ place. place < n) places.now
            → self.new.end ≤ n }
    {
        'places: for k in 0..places.len() {
            self.take_in(places[k]);
        }
    }

    /// Extends the part to all places that are reachable from it.
    fn close(&mut self, places: &[Place])
        requires order { self.old.low ≤ self.old.end }
        requires inside { self.old.end ≤ length places.now }
        requires closed { LeadInside places.now }
        ensures closed { LeadWithin places.now self.new }
        ensures widens { Widens self.old self.new }
        ensures inside { self.new.end ≤ length places.now }
    {
        // The arrows of the places from `low` up to `end` lead into the part.
        let mut low = self.end;
        let mut end = self.end;
        'places: loop {
            if self.low < low {
                low -= 1;
                self.take_in_next_states(&places[low]);
            } else if end < self.end {
                self.take_in_next_states(&places[end]);
                end += 1;
            } else {
                return;
            }
        }
    }
}
