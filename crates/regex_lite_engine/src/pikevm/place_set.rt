//! The set of places that were entered at the current position.
ghost use Rattle.std.specs.Prelude.{◌≡◌, ◌+◌, ◌-◌, ◌≤◌, ◌<◌, ◌↔◌, ℕ, IfOk, IsTrue, false, true};
ghost use Rattle.std.specs.Prelude.{length, replicate, slice_index, slice_index_or, slice_set};
ghost use Rattle.std.specs.Prelude.{vec_capacity};
ghost use Rattle.regex_lite_engine.specs.Backtrack.Bits.{bits_of};
ghost use Rattle.regex_lite_engine.specs.Pikevm.PlaceSets.{is_stamped, AreStamps};

use crate::bits::set_bit;
use std::alloc::{AllocError, Global};
use std::marker::Model;

/// A set of at most this many places is stored inline, without an allocation.
const FEW: usize = 64;

/// The number of stamps that are added at a time when a search reaches a place without one.
const BLOCK: usize = 64;

/// A set of places that is emptied in constant time.
#[derive(Drop)]
pub struct PlaceSet {
    /// The number of places of the graph.
    places: usize,
    marks: Marks,
}

/// The representation of the set.
#[derive(Drop)]
enum Marks {
    /// A bit for each place.
    Bits(u64),
    Stamps(Stamps),
}

/// A stamp for each place.
#[derive(Drop)]
struct Stamps {
    /// The stamps from the last place down to the first that a search has reached. There is
    /// capacity for all. A graph is written from its end, so that a search begins with the last
    /// places, and in a short haystack often reaches no others.
    stamps: Vec<u16>,
    /// The generation: the places with this stamp are in the set.
    generation: u16,
}

impl Model for PlaceSet {
    ghost use Rattle.std.specs.Prelude.{List, Bool};
    ghost use Rattle.regex_lite_engine.specs.Pikevm.PlaceSets.{members, FitPlaces};

    ghost Value = { List Bool };

    ghost view = { λ set. members set.marks set.places };

    ghost invariant = { λ set. FitPlaces set.marks set.places };
}

impl PlaceSet {
    /// The empty set, for this number of places.
    // Inlined, like everything that a search does at each place: a call costs as much as its body.
    #[inline(always)]
    pub fn empty(alloc: Global, places: usize) -> Result<PlaceSet, AllocError>
        ensures { IfOk result (λ set. set ≡ replicate places false) }
    {
        if places <= FEW {
            return Ok(PlaceSet {
                places,
                marks: Marks::Bits(0),
            });
        }
        let stamps = Vec::with_capacity(alloc, places)?;
        Ok(PlaceSet {
            places,
            marks: Marks::Stamps(Stamps {
                stamps,
                generation: 1,
            }),
        })
    }

    /// Empties the set. Its memory is kept.
    #[inline(always)]
    pub fn clear(&mut self)
        ensures { self.new ≡ replicate (length self.old) false }
    {
        match &mut self.marks {
            Marks::Bits(bits) => *bits = 0,
            Marks::Stamps(stamps) => stamps.clear(),
        }
    }

    /// Adds the place, and returns whether it is new.
    #[inline(always)]
    pub fn insert(&mut self, place: u32) -> bool
        requires { place < length self.old }
        ensures fresh { IsTrue result ↔ (slice_index_or self.old place false ≡ false) }
        ensures added { self.new ≡ slice_set self.old place true }
    {
        let place = place as usize;
        match &mut self.marks {
            Marks::Bits(bits) => set_bit(bits, place),
            Marks::Stamps(stamps) => stamps.insert(self.places - place),
        }
    }
}

impl Stamps {
    /// Empties the set.
    #[inline(always)]
    fn clear(&mut self)
        requires { AreStamps self.old.stamps.items self.old.generation }
        ensures none { (k : ℕ) → is_stamped self.new.stamps.items self.new.generation k ≡ false }
        ensures stamps { AreStamps self.new.stamps.items self.new.generation }
        ensures capacity { vec_capacity self.old.stamps ≤ vec_capacity self.new.stamps }
    {
        if self.generation == u16::MAX {
            self.stamps.clear();
            self.generation = 0;
        }
        self.generation += 1;
    }

    /// Adds a place, given by the number of places from it to the last one, including both. Returns
    /// whether it is new.
    #[inline(always)]
    fn insert(&mut self, left: usize) -> bool
        requires some { 0 < left }
        requires room { left ≤ vec_capacity self.old.stamps }
        requires stamps { AreStamps self.old.stamps.items self.old.generation }
        ensures fresh { IsTrue result
            ↔ (is_stamped self.old.stamps.items self.old.generation left ≡ false) }
        ensures added { is_stamped self.new.stamps.items self.new.generation left ≡ true }
        ensures others { (k : ℕ) → (k ≡ left → ⊥) → 0 < k
            → is_stamped self.new.stamps.items self.new.generation k
            ≡ is_stamped self.old.stamps.items self.old.generation k }
        ensures stamps { AreStamps self.new.stamps.items self.new.generation }
        ensures capacity { vec_capacity self.old.stamps ≤ vec_capacity self.new.stamps }
    {
        if left > self.stamps.len() {
            extend(&mut self.stamps, left);
        }
        let stamp = &mut self.stamps[left - 1];
        let fresh = *stamp != self.generation;
        *stamp = self.generation;
        fresh
    }
}

/// Adds stamps of places that were never in the set, until there are at least this many. There is
/// capacity for them.
// Not inlined, so that the loop of a search has only the test.
#[inline(never)]
fn extend(stamps: &mut Vec<u16>, count: usize)
    requires { count ≤ vec_capacity stamps.old }
    ensures same { (k : ℕ) → slice_index stamps.new.items k ≡ slice_index stamps.old.items k }
    ensures count { count ≤ length stamps.new.items }
    ensures capacity { vec_capacity stamps.old ≤ vec_capacity stamps.new }
{
    let blank = [0; BLOCK];
    'blocks: while stamps.len() < count {
        let more = (stamps.capacity() - stamps.len()).min(BLOCK);
        let _ = stamps.extend_from_slice(&blank[..more]);
    }
}
