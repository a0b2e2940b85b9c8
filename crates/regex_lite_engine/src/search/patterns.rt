//! The patterns that are searched for, and where they may start.
ghost use Rattle.std.specs.Prelude.{◌≡◌, ◌≤◌, ◌<◌, ◌^◌, ℕ, List, [], All, IfSome};
ghost use Rattle.std.specs.Prelude.{chars, length, slice_get, Some};
ghost use Rattle.regex_lite_engine.specs.Graph.Places.{Place};
ghost use Rattle.regex_lite_engine.specs.Graph.Stored.{places_of};
ghost use Rattle.regex_lite_engine.specs.Search.Here.{IsHere};
ghost use Rattle.regex_lite_engine.specs.Search.Starts.{PassesTo};
ghost use Rattle.regex_lite_engine.specs.Search.Starts.{AreDeadAt, AreStartsAt};

use crate::nfa::table::Table;
use crate::search::here::Here;

/// The place at which a pattern is entered, and the pattern's number.
#[derive(Clone, Copy)]
pub struct Start {
    pub number: u32,
    pub place: u32,
}

/// The patterns that are searched for, and those of them that may start at a position.
pub trait Patterns {
    ghost use Rattle.regex_lite_engine.specs.declared.search.patterns.Start.{Start};

    /// The places of the patterns.
    ghost table: { Self → List (Place ℕ) };

    /// The places at which the patterns are entered, in the order of their numbers.
    ghost entries: { Self → List ℕ };

    /// The patterns that may start at the position reached last.
    ghost starts: { Self → List Start };

    /// The table of the patterns' places.
    fn table(&self) -> &Table
        ensures { places_of result.now ≡ table self.now };

    /// The next position after this one at which a match can begin, or the haystack's end. The
    /// positions before it are skipped. `None` if a match may begin here.
    fn skip(&self, haystack: &str, here: Here) -> Option<Here>
        requires { (p : ℕ) × IsHere (chars haystack.now) p here }
        ensures { (p : ℕ) → IsHere (chars haystack.now) p here → IfSome result
            (PassesTo (AreDeadAt (table self.now) (chars haystack.now) (entries self.now))
            (chars haystack.now) p) };

    /// Whether positions are skipped many bytes at a time.
    fn has_prefilter(&self) -> bool;

    /// Moves to a position: finds the patterns that may start there.
    fn come_to(&mut self, haystack: &str, here: Here)
        requires { (p : ℕ) × IsHere (chars haystack.now) p here }
        ensures table { table self.new ≡ table self.old }
        ensures entries { entries self.new ≡ entries self.old }
        ensures starts { (p : ℕ) → IsHere (chars haystack.now) p here
            → AreStartsAt (table self.new) (chars haystack.now) (entries self.new) p
            (starts self.new) }
        ensures inside { All (λ start. start.place < length (table self.new)) (starts self.new) }
        ensures few { length (starts self.new) ≤ length (entries self.new) }
        ensures countable { length (entries self.new) < 2 ^ 32 };

    /// The number of patterns that may start there.
    fn len(&self) -> usize
        ensures { result ≡ length (starts self.now) };

    /// The start with this index among them, in the order of the patterns.
    fn start(&self, k: usize) -> Start
        requires { k < length (starts self.now) }
        ensures { slice_get (starts self.now) k ≡ Some result };
}

/// Patterns for anchored searches: they start only at one position.
pub trait Anchored: Patterns {
    /// From here on no pattern may start.
    fn start_no_more(&mut self)
        ensures table { Self.table self.new ≡ Self.table self.old }
        ensures entries { Self.entries self.new ≡ Self.entries self.old }
        ensures starts { Self.starts self.new ≡ [] };
}

/// The next position from here on at which a match of these patterns can begin, or the haystack's
/// end. The positions before it are skipped.
// Inlined, since it is called at each position.
#[inline(always)]
pub fn pass_over<P: Patterns>(patterns: &P, haystack: &str, here: Here) -> Here
    requires { (p : ℕ) × IsHere (chars haystack.now) p here }
    ensures { (p : ℕ) → IsHere (chars haystack.now) p here
        → PassesTo (AreDeadAt (P.table patterns.now) (chars haystack.now) (P.entries patterns.now))
        (chars haystack.now) p result }
{
    match patterns.skip(haystack, here) {
        None => here,
        Some(next) => next,
    }
}
