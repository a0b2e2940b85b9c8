//! Classes of characters that no place of a graph distinguishes.
ghost use Rattle.std.specs.Prelude.{◌≡◌, ◌+◌, ◌≤◌, ◌<◌, ℕ, IfSome, IsCharBoundary, length, nat_le};
ghost use Rattle.std.specs.Prelude.{slice_index, List, true};
ghost use Rattle.std.specs.Char.{len_utf8};
ghost use Rattle.regex_lite_meta.specs.LazyDfa.Intervals.{AreIntervalsOf, IsAhead, IsInterval};
ghost use Rattle.regex_lite_meta.specs.LazyDfa.Intervals.{class_of, classes_in, interval_of, tick};

use crate::lazy_dfa::boundaries::Boundaries;
use regex_lite_engine::nfa::place::Place;
use regex_lite_engine::search::here::first_char;
use std::marker::Model;

/// The intervals between the boundaries of all ranges that a graph reads. The end of a haystack has
/// a class of its own.
#[derive(Drop)]
pub(crate) struct Classes {
    boundaries: Boundaries,
    /// The intervals of the ASCII characters.
    ascii: [u8; 128],
}

impl Model for Classes {
    ghost use Rattle.std.specs.Prelude.{◌≡◌, ◌≤◌, ◌<◌, ℕ, length, slice_index};
    ghost use Rattle.regex_lite_meta.specs.LazyDfa.Intervals.{Intervals, interval_of};

    ghost Value = { Intervals };

    ghost view = { λ classes. classes.boundaries };

    ghost invariant = { λ classes. (length classes.boundaries.boundaries ≤ 125)
        × ((c : ℕ) → c < 128
        → slice_index classes.ascii c ≡ interval_of classes.boundaries.boundaries c) };
}

impl Classes {
    /// The classes of characters that these places don't distinguish; `None` if there would be too
    /// many.
    pub(crate) fn of(places: &[Place]) -> Option<Classes>
        ensures { IfSome result (AreIntervalsOf places.now) }
    {
        let mut boundaries = Boundaries::new();
        'places: for q in 0..places.len() {
            if !boundaries.add_place(&places[q]) {
                return None;
            }
        }
        let ascii = ascii_of(boundaries.all());
        Some(Classes { boundaries, ascii })
    }

    /// Whether some place has a look.
    pub(crate) fn looks(&self) -> bool
        ensures { result ≡ self.now.looks }
    {
        self.boundaries.looks()
    }

    /// The number of classes.
    #[inline(always)]
    pub(crate) fn len(&self) -> usize
        ensures same { result ≡ classes_in self.now }
        ensures few { result < 128 }
    {
        self.boundaries.len() + 2
    }

    /// The class of the next character or of the end.
    pub(crate) fn class(&self, next: Option<char>) -> usize
        ensures same { result ≡ class_of self.now.boundaries next }
        ensures few { result < classes_in self.now }
    {
        match next {
            None => self.boundaries.len() + 1,
            Some(c) => self.interval(c),
        }
    }

    /// The class of the character.
    #[tactic(auto, using(crate::proofs::lazy_dfa::IntervalLemmas::interval_within))]
    fn interval(&self, c: char) -> usize
        ensures same { result ≡ interval_of self.now.boundaries c }
        ensures inside { result ≤ length self.now.boundaries }
    {
        if c.is_ascii() {
            self.ascii[c as usize] as usize
        } else {
            Interval::around(self.boundaries.all(), c as u32).class
        }
    }

    /// The class of this ASCII character.
    #[inline(always)]
    #[tactic(auto, using(crate::proofs::lazy_dfa::IntervalLemmas::interval_within))]
    pub(super) fn ascii_class(&self, byte: u8) -> usize
        requires { byte < 128 }
        ensures same { interval_of self.now.boundaries byte ≡ result }
        ensures few { result < classes_in self.now }
    {
        self.ascii[byte as usize] as usize
    }

    /// The class of the character at this offset, and the character's end. `None` at the end of the
    /// haystack. If the character isn't ASCII, its interval is stored in `near`.
    #[inline(always)]
    #[tactic(auto, using(crate::proofs::lazy_dfa::IntervalLemmas::interval_within))]
    pub(super) fn ahead(
        &self,
        haystack: &str,
        at: usize,
        near: &mut Interval,
    ) -> Option<(usize, usize)>
        requires boundary { IsCharBoundary haystack.now at }
        requires near { IsInterval self.now.boundaries near.old }
        ensures ahead { IfSome result
            (λ ahead. IsAhead self.now.boundaries haystack.now at ahead.0 ahead.1) }
        ensures few { IfSome result (λ ahead. ahead.0 < classes_in self.now) }
        ensures near { IsInterval self.now.boundaries near.new }
    {
        let bytes = haystack.as_bytes();
        if at >= bytes.len() {
            return None;
        }
        let byte = bytes[at];
        if byte >= 128 {
            return self.wide_ahead(haystack, at, near);
        }
        Some((self.ascii[byte as usize] as usize, at + 1))
    }

    /// Like `ahead`, for a character that may not be ASCII.
    #[inline(always)]
    fn wide_ahead(&self, haystack: &str, at: usize, near: &mut Interval) -> Option<(usize, usize)>
        requires inside { at < length haystack.now }
        requires boundary { IsCharBoundary haystack.now at }
        requires near { IsInterval self.now.boundaries near.old }
        ensures ahead { IfSome result
            (λ ahead. IsAhead self.now.boundaries haystack.now at ahead.0 ahead.1) }
        ensures few { IfSome result (λ ahead. ahead.0 < classes_in self.now) }
        ensures near { IsInterval self.now.boundaries near.new }
    {
        let Some(c) = first_char(haystack, at) else {
            return None;
        };
        Some((self.class_near(c as u32, near), at + width_of(c)))
    }

    /// The class of the character, which is likely to be in this interval. If it isn't, the
    /// interval is replaced by that of the character.
    #[inline(always)]
    fn class_near(&self, c: u32, near: &mut Interval) -> usize
        requires { IsInterval self.now.boundaries near.old }
        ensures same { interval_of self.now.boundaries c ≡ result }
        ensures few { result < classes_in self.now }
        ensures near { IsInterval self.now.boundaries near.new }
    {
        let boundaries = self.boundaries.all();
        if !near.has(c) {
            near.come_to(boundaries, c);
        }
        near.class
    }
}

/// The length of the character in bytes.
// Most characters that aren't ASCII have two bytes, so that is tested first.
#[inline(always)]
fn width_of(c: char) -> usize
    ensures { result ≡ len_utf8 c }
{
    if 0x80 <= c as u32 && (c as u32) < 0x800 {
        return 2;
    }
    c.len_utf8()
}

/// The numbers of the intervals of the ASCII characters: each boundary increases those from it on.
#[tactic(auto, using(crate::proofs::lazy_dfa::IntervalLemmas::interval_steps))]
fn ascii_of(boundaries: &[u32]) -> [u8; 128]
    requires { length boundaries.now ≤ 125 }
    ensures { (c : ℕ) → c < 128 → slice_index result c ≡ interval_of boundaries.now c }
{
    let mut ascii = [0; 128];
    'bounds: for k in (0..boundaries.len()).rev() {
        if boundaries[k] < 128 {
            count_from(&mut ascii, boundaries[k] as usize);
        }
    }
    ascii
}

/// Adds one for each character from this one on.
fn count_from(ascii: &mut [u8; 128], from: usize)
    requires { (c : ℕ) → c < 128 → slice_index ascii.old c < 125 }
    ensures { (c : ℕ) → c < 128
        → slice_index ascii.new c ≡ tick (nat_le from c) + slice_index ascii.old c }
{
    'characters: for c in from..128 {
        ascii[c] += 1;
    }
}

/// The characters from `start` up to, but not including, `end`. All are of one class.
#[derive(Clone, Copy)]
pub(super) struct Interval {
    start: u32,
    end: u32,
    pub class: usize,
}

impl Interval {
    /// An empty interval.
    #[inline(always)]
    pub(super) fn none() -> Interval
        ensures { (boundaries : List ℕ) → IsInterval boundaries result }
    {
        Interval {
            start: 0,
            end: 0,
            class: 0,
        }
    }

    /// The interval between these boundaries that contains this number.
    #[inline(never)]
    #[tactic(auto, using(crate::proofs::lazy_dfa::IntervalLemmas::interval_cons))]
    pub(super) fn around(boundaries: &[u32], c: u32) -> Interval
        requires { length boundaries.now ≤ 125 }
        ensures same { result.class ≡ interval_of boundaries.now c }
        ensures is { IsInterval boundaries.now result }
    {
        let mut around = Interval {
            start: 0,
            end: u32::MAX,
            class: 0,
        };
        'bounds: for k in (0..boundaries.len()).rev() {
            around.cut(boundaries[k], c);
        }
        around
    }

    /// Sets this to the interval between these boundaries that contains the number.
    // Not inlined, so that a character of the same interval takes few instructions.
    #[inline(never)]
    pub(super) fn come_to(&mut self, boundaries: &[u32], c: u32)
        requires { length boundaries.now ≤ 125 }
        ensures same { self.new.class ≡ interval_of boundaries.now c }
        ensures is { IsInterval boundaries.now self.new }
    {
        *self = Interval::around(boundaries, c);
    }

    /// Removes from the interval what this boundary separates from the number.
    fn cut(&mut self, bound: u32, c: u32)
        requires { self.old.class < 125 }
        ensures class { self.new.class ≡ tick (nat_le bound c) + self.old.class }
        ensures within { (self.old.start ≤ self.new.start) × (self.new.end ≤ self.old.end) }
        ensures same { (d : ℕ) → self.new.start ≤ d → d < self.new.end
            → nat_le bound d ≡ nat_le bound c }
    {
        if bound <= c {
            self.class += 1;
            self.start = self.start.max(bound);
        } else {
            self.end = self.end.min(bound);
        }
    }

    /// Whether the number is in the interval.
    #[inline(always)]
    pub(super) fn has(&self, c: u32) -> bool
        ensures { result ≡ true → (self.now.start ≤ c) × (c < self.now.end) }
    {
        self.start <= c && c < self.end
    }
}
