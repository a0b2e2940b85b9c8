//! The boundaries of the character ranges that places read.
ghost use Rattle.std.specs.Prelude.{◌≡◌, ◌≤◌, ◌<◌, ◌∷◌, ◌++◌, [], All, true, length};
ghost use Rattle.regex_lite_meta.specs.LazyDfa.Intervals.{AreBounded, IsBoundary, IsBoundedPlace};
ghost use Rattle.regex_lite_meta.specs.LazyDfa.Intervals.{character_bounds, look_bounds};
ghost use Rattle.regex_lite_meta.specs.LazyDfa.Boundaries.{Grows};

use regex_lite_engine::nfa::place::Place;
use regex_lite_syntax::ClassRange;
use std::marker::Model;

/// At most this many boundaries are kept, so that the number of an interval takes few bits.
const MOST: usize = 125;

/// Boundaries that separate characters from surrogates and from numbers above the last character.
const CHARACTER_BOUNDS: [u32; 3] = [0xD800, 0xE000, 0x11_0000];

/// The boundaries of what looks distinguish: line feeds, carriage returns, and the ranges of word
/// characters.
const LOOK_BOUNDS: [u32; 12] = [10, 11, 13, 14, 48, 58, 65, 91, 95, 96, 97, 123];

/// The starts of all intervals except the lowest. They are few enough for an array.
#[derive(Drop)]
pub(crate) struct Boundaries {
    /// The boundaries in the order in which they were added, without duplicates. The first `len`
    /// cells are used.
    cells: [u32; 125],
    len: usize,
    /// For each ASCII character, the cell of its boundary, if it has one.
    ascii: [u8; 128],
    /// Whether some place has a look.
    looks: bool,
}

impl Model for Boundaries {
    ghost use Rattle.std.specs.Prelude.{◌≡◌, ◌≤◌, All, true, take};
    ghost use Rattle.regex_lite_meta.specs.LazyDfa.Intervals.{Intervals, IsBoundary, look_bounds};

    ghost Value = { Intervals };

    ghost view = { λ bounds. record {
      boundaries = take bounds.len bounds.cells;
      looks = bounds.looks;
    } };

    ghost invariant = { λ bounds. (bounds.len ≤ 125)
        × (bounds.looks ≡ true → All (IsBoundary (take bounds.len bounds.cells)) look_bounds) };
}

impl Boundaries {
    /// The boundaries between characters and other numbers.
    pub(crate) fn new() -> Boundaries
        ensures { All (IsBoundary result.boundaries) character_bounds }
    {
        let mut bounds = Boundaries {
            cells: [0; MOST],
            len: 0,
            ascii: [0; 128],
            looks: false,
        };
        'bounds: for k in 0..CHARACTER_BOUNDS.len() {
            bounds.push(CHARACTER_BOUNDS[k]);
        }
        bounds
    }

    /// All boundaries.
    pub(crate) fn all(&self) -> &[u32]
        ensures same { result.now ≡ self.now.boundaries }
        ensures few { length result.now ≤ 125 }
        ensures contexts { self.now.looks ≡ true → All (IsBoundary result.now) look_bounds }
    {
        &self.cells[..self.len]
    }

    /// The number of boundaries.
    #[inline(always)]
    pub(crate) fn len(&self) -> usize
        ensures { result ≡ length self.now.boundaries }
    {
        self.len
    }

    /// Whether some place has a look.
    pub(crate) fn looks(&self) -> bool
        ensures { result ≡ self.now.looks }
    {
        self.looks
    }

    /// Adds the boundaries of what the place reads. Returns whether they fitted.
    pub(crate) fn add_place(&mut self, place: &Place) -> bool
        ensures bounded { result ≡ true → IsBoundedPlace self.new place.now }
        ensures grows { Grows self.old self.new }
    {
        match place {
            Place::Char { c, .. } => self.add(*c as u32) && self.add(*c as u32 + 1),
            Place::Class { set, .. } => self.add_ranges(set.ranges()),
            Place::Look { .. } => self.add_looks(),
            _ => true,
        }
    }

    /// Adds the boundaries of the ranges.
    fn add_ranges(&mut self, ranges: &[ClassRange]) -> bool
        ensures bounded { result ≡ true → AreBounded self.new.boundaries ranges.now }
        ensures grows { Grows self.old self.new }
    {
        'bounds: for i in (0..ranges.len()).rev() {
            let ClassRange { start, end } = ranges[i];
            if !self.add(start as u32) || !self.add(end as u32 + 1) {
                return false;
            }
        }
        true
    }

    /// Adds the boundaries of what looks distinguish. Returns whether they fitted.
    fn add_looks(&mut self) -> bool
        ensures looks { result ≡ true → self.new.looks ≡ true }
        ensures grows { Grows self.old self.new }
    {
        'bounds: for k in 0..LOOK_BOUNDS.len() {
            if !self.add(LOOK_BOUNDS[k]) {
                return false;
            }
        }
        self.looks = true;
        true
    }

    /// Adds a boundary at this number. Returns whether it fitted.
    #[inline(never)]
    #[tactic(auto, using(crate::proofs::lazy_dfa::BoundaryLemmas::one_more))]
    fn add(&mut self, bound: u32) -> bool
        ensures added { result ≡ true → IsBoundary self.new.boundaries bound }
        ensures grows { Grows self.old self.new }
        ensures looks { self.new.looks ≡ self.old.looks }
    {
        if self.has(bound) {
            return true;
        }
        if self.len >= MOST {
            return false;
        }
        self.note(bound);
        self.push(bound);
        true
    }

    /// Adds a boundary at this number, which fits.
    #[tactic(auto, using(crate::proofs::lazy_dfa::BoundaryLemmas::one_more))]
    fn push(&mut self, bound: u32)
        requires { length self.old.boundaries < 125 }
        ensures { self.new ≡ record self.old {
          boundaries = self.old.boundaries ++ bound ∷ [];
        } }
    {
        self.cells[self.len] = bound;
        self.len += 1;
    }

    /// Records that the next cell has the boundary at this number.
    fn note(&mut self, bound: u32)
        requires { length self.old.boundaries < 125 }
        ensures { self.new ≡ self.old }
    {
        if bound < 128 {
            self.ascii[bound as usize] = self.len as u8;
        }
    }

    /// Whether an interval begins at this number. Most boundaries are at ASCII characters.
    fn has(&self, bound: u32) -> bool
        ensures { result ≡ true → IsBoundary self.now.boundaries bound }
    {
        if bound < 128 {
            return self.has_at(self.ascii[bound as usize] as usize, bound);
        }
        is_among(self.all(), bound)
    }

    /// Whether this cell has the boundary at this number.
    #[tactic(auto, using(crate::proofs::lazy_dfa::BoundaryLemmas::boundary_at))]
    fn has_at(&self, cell: usize, bound: u32) -> bool
        ensures { result ≡ true → IsBoundary self.now.boundaries bound }
    {
        let boundaries = self.all();
        cell < boundaries.len() && boundaries[cell] == bound
    }
}

/// Whether an interval begins at this number.
#[tactic(auto, using(crate::proofs::lazy_dfa::BoundaryLemmas::boundary_at))]
fn is_among(boundaries: &[u32], bound: u32) -> bool
    ensures { result ≡ true → IsBoundary boundaries.now bound }
{
    'bounds: for k in 0..boundaries.len() {
        if boundaries[k] == bound {
            return true;
        }
    }
    false
}
