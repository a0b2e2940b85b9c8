//! The pairs of a place and an offset that a search has entered.
ghost use Rattle.std.specs.Prelude.{◌≡◌, ◌+◌, ◌-◌, ◌*◌, ◌≤◌, ◌<◌, ◌↔◌, ◌++◌, ℕ};
ghost use Rattle.std.specs.Prelude.{IfOk, IsTrue, false, true, length, replicate};
ghost use Rattle.std.specs.Prelude.{slice_index_or, slice_set, vec_capacity};
ghost use Rattle.regex_lite_engine.specs.Backtrack.Bits.{bits_of};
ghost use Rattle.regex_lite_engine.specs.Backtrack.PairMaps.{entered_of, room_of, HasEach};
ghost use Rattle.regex_lite_engine.specs.Backtrack.PairMaps.{NoneLater};
ghost use Rattle.regex_lite_engine.specs.Backtrack.Machine.{pair_number, was_entered};

use crate::bits;
use std::alloc::{AllocError, Global};
use std::marker::Model;

/// Up to this number of words are stored inline, without an allocation.
const FEW: usize = 32;

/// The number of words that are added when a search goes past the last one.
const BLOCK: usize = 16;

/// The representation of the set.
#[derive(Drop)]
enum PairMap {
    /// A bit for each pair, in words of 64.
    Few([u64; FEW]),
    /// A bit for each pair, in as many words as a search has reached. There is capacity for all;
    /// those after the last count as 0.
    Many(Vec<u64>),
    /// A byte for each pair: the generation in which it was entered last. Each search is a
    /// generation, so that hardly anything is cleared between searches.
    Stamps { stamps: Vec<u8>, generation: u8 },
}

/// The set of pairs that were entered. No pair is removed during a search: entering it again can't
/// lead to a match.
#[derive(Drop)]
pub struct Visited {
    map: PairMap,
    /// The number of pairs.
    count: usize,
    /// The number of pairs for which there is memory.
    room: usize,
    places: usize,
    /// The offset of the first pairs.
    first: usize,
}

impl PairMap {
    /// A bit for each of this number of pairs, none of which is entered.
    // Inlined, since the few words would otherwise be copied.
    #[inline(always)]
    fn bits(alloc: Global, count: usize) -> Result<PairMap, AllocError>
        ensures none { IfOk result (λ map. entered_of map count ≡ replicate count false) }
        ensures each { IfOk result (λ map. HasEach map count) }
        ensures none_later { IfOk result NoneLater }
        ensures room { IfOk result (λ map. count ≤ room_of map) }
    {
        if count <= 64 * FEW {
            return Ok(PairMap::Few([0; FEW]));
        }
        let words = Vec::with_capacity(alloc, count.div_ceil(64))?;
        Ok(PairMap::Many(words))
    }

    /// Empties the set for another search with this number of pairs. The memory is kept.
    fn restart(&mut self, count: usize)
        requires room { count ≤ room_of self.old }
        requires none_later { NoneLater self.old }
        ensures none { entered_of self.new count ≡ replicate count false }
        ensures each { HasEach self.new count }
        ensures none_later { NoneLater self.new }
        ensures room { room_of self.old ≤ room_of self.new }
    {
        match self {
            PairMap::Few(words) => words.fill(0),
            PairMap::Many(words) => words.clear(),
            PairMap::Stamps { stamps, generation } => {
                begin_generation(stamps, generation);
                fill_to(stamps, count, 0);
            }
        }
    }
}

impl Model for Visited {
    ghost use Rattle.std.specs.Prelude.{◌≤◌};
    ghost use Rattle.regex_lite_engine.specs.Backtrack.PairMaps.{entered_of, room_of, HasEach};
    ghost use Rattle.regex_lite_engine.specs.Backtrack.PairMaps.{NoneLater};
    ghost use Rattle.regex_lite_engine.specs.Backtrack.Machine.{Pairs};

    ghost Value = { Pairs };

    ghost view = { λ visited. record {
      entered = entered_of visited.map visited.count;
      places = visited.places;
      first = visited.first;
      room = visited.room;
    } };

    ghost invariant = { λ visited. (visited.count ≤ visited.room)
        × (visited.room ≤ room_of visited.map) × HasEach visited.map visited.count
        × NoneLater visited.map };
}

impl Visited {
    /// An empty set for one search, of pairs of this number of places and the offsets from `first`
    /// to `last`.
    pub fn none(
        alloc: Global,
        places: usize,
        first: usize,
        last: usize,
    ) -> Result<Visited, AllocError>
        requires { first ≤ last }
        ensures none { IfOk result (λ visited. visited.entered
            ≡ replicate (places * (last - first + 1)) false) }
        ensures places { IfOk result (λ visited. visited.places ≡ places) }
        ensures first { IfOk result (λ visited. visited.first ≡ first) }
    {
        let columns = (last - first).checked_add(1).ok_or(AllocError)?;
        let count = places.checked_mul(columns).ok_or(AllocError)?;
        Ok(Visited {
            map: PairMap::bits(alloc, count)?,
            count,
            room: count,
            places,
            first,
        })
    }

    /// Memory for many searches with at most this number of pairs each. The set has no pairs yet.
    pub fn with_room(alloc: Global, pairs: usize) -> Result<Visited, AllocError>
        ensures { IfOk result (λ visited. visited.room ≡ pairs) }
    {
        Ok(Visited {
            map: PairMap::Stamps {
                stamps: Vec::with_capacity(alloc, pairs)?,
                generation: 0,
            },
            count: 0,
            room: pairs,
            places: 0,
            first: 0,
        })
    }

    /// Empties the set, for pairs of this number of places and the offsets from `first` to `last`.
    /// The memory is kept.
    ///
    /// Condition: there is memory for them.
    pub fn restart(&mut self, places: usize, first: usize, last: usize)
        requires from { first ≤ last }
        requires some { 0 < places }
        requires room { places * (last - first + 1) ≤ self.old.room }
        ensures none { self.new.entered ≡ replicate (places * (last - first + 1)) false }
        ensures places { self.new.places ≡ places }
        ensures first { self.new.first ≡ first }
        ensures room { self.new.room ≡ self.old.room }
    {
        self.places = places;
        self.first = first;
        self.count = places * (last - first + 1);
        self.map.restart(self.count);
    }

    /// Adds the pair, and returns whether it is new.
    #[inline(always)]
    pub fn insert(&mut self, place: u32, at: usize) -> bool
        requires first { self.old.first ≤ at }
        requires inside { pair_number self.old.places self.old.first place at
            < length self.old.entered }
        ensures fresh { IsTrue result ↔ (was_entered self.old place at ≡ false) }
        ensures added { self.new ≡ record self.old {
          entered = slice_set self.old.entered
              (pair_number self.old.places self.old.first place at) true;
        } }
    {
        let pair = (at - self.first) * self.places + place as usize;
        match &mut self.map {
            PairMap::Few(words) => set_bit(words, pair),
            PairMap::Many(words) => set_bit_beyond(words, pair),
            PairMap::Stamps { stamps, generation } => stamp(stamps, pair, *generation),
        }
    }
}

/// Sets bit `k`, and returns whether it was clear before.
fn set_bit(words: &mut [u64], k: usize) -> bool
    requires { k < 64 * length words.old }
    ensures fresh { (count : ℕ) → k < count
        → (IsTrue result ↔ (slice_index_or (bits_of words.old count) k false ≡ false)) }
    ensures set { (count : ℕ) → k < count
        → bits_of words.new count ≡ slice_set (bits_of words.old count) k true }
{
    bits::set_bit(&mut words[k / 64], k % 64)
}

/// Like `set_bit`, for words that may end before bit `k`: missing words count as 0.
fn set_bit_beyond(words: &mut Vec<u64>, k: usize) -> bool
    requires { k < 64 * vec_capacity words.old }
    ensures fresh { (count : ℕ) → k < count
        → (IsTrue result ↔ (slice_index_or (bits_of words.old.items count) k false ≡ false)) }
    ensures set { (count : ℕ) → k < count
        → bits_of words.new.items count
        ≡ slice_set (bits_of words.old.items count) k true }
    ensures capacity { vec_capacity words.old ≤ vec_capacity words.new }
{
    if words.len() <= k / 64 {
        fill_to(words, (k / 64 + BLOCK).min(words.capacity()), 0);
    }
    set_bit(words, k)
}

/// Extends the items with blank ones to this number, if there are fewer. There is capacity for
/// them.
fn fill_to<T: Copy>(items: &mut Vec<T>, end: usize, blank: T)
    requires { end ≤ vec_capacity items.old }
    ensures items { items.new.items
        ≡ items.old.items ++ replicate (end - length items.old.items) blank }
    ensures capacity { vec_capacity items.old ≤ vec_capacity items.new }
{
    if items.len() < end {
        let _ = items.resize(end, blank);
    }
}

/// Sets the stamp of a pair to the generation, and returns whether it was different.
#[inline(always)]
fn stamp(stamps: &mut Vec<u8>, pair: usize, generation: u8) -> bool
    requires { pair < length stamps.old.items }
    ensures fresh { IsTrue result ↔ ¬ (slice_index_or stamps.old.items pair 0 ≡ generation) }
    ensures set { stamps.new.items ≡ slice_set stamps.old.items pair generation }
    ensures capacity { vec_capacity stamps.old ≤ vec_capacity stamps.new }
{
    let fresh = stamps[pair] != generation;
    stamps[pair] = generation;
    fresh
}

/// Begins a generation in which no pair has been entered.
fn begin_generation(stamps: &mut Vec<u8>, generation: &mut u8)
    requires { (k : ℕ) → slice_index_or stamps.old.items k 0 ≤ generation.old }
    ensures later { (k : ℕ) → slice_index_or stamps.new.items k 0 < generation.new }
    ensures capacity { vec_capacity stamps.old ≤ vec_capacity stamps.new }
{
    if *generation == u8::MAX {
        stamps.clear();
        *generation = 0;
    }
    *generation += 1;
}
