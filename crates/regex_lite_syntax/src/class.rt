//! Sets of characters.
ghost use Rattle.std.specs.Prelude.{◌≡◌, IfOk, if◌then◌else◌};
ghost use Rattle.regex_lite_syntax.specs.AsciiMaps.{AreMapOf};
ghost use Rattle.regex_lite_syntax.specs.Sets.{complement};
ghost use Rattle.regex_lite_syntax.specs.Ranges.{in_ranges, AreRuns, AreRunsOf};
ghost use Rattle.regex_lite_syntax.specs.Parser.KnownSets.{known_members};
ghost use Rattle.regex_lite_syntax.specs.Parser.Readings.{named_or_not};

mod ascii;
pub(crate) mod letters;
pub(crate) mod named;
mod neighbours;
mod runs;

use ascii::words_of_ranges;
use named::{KnownSet, NamedSet};
use neighbours::{next_char, previous_char};
use runs::{append_between, join_all};
use std::alloc::{AllocError, Global};
use std::marker::Model;

/// The characters from `start` to `end`, both included.
#[derive(Clone, Copy, PartialEq, Eq, Debug)]
pub struct ClassRange {
    pub start: char,
    pub end: char,
}

/// The storage of a set's runs. Static runs are given by their name: a borrow of them would become
/// a part of the groups of a match too, and closures can't take such groups.
#[derive(Debug, Drop)]
enum RunStorage {
    Known(KnownSet),
    Made(Vec<ClassRange>),
}

/// A set of characters, as its maximal runs in order. U+D7FF and U+E000 are neighbours, so equal
/// sets have equal ranges.
#[derive(Debug, Drop)]
pub struct Class {
    ranges: RunStorage,
    // Two words, since a `u128` would align the places of a graph to 16 bytes too.
    ascii: [u64; 2],
}

impl Model for Class {
    ghost use Rattle.std.specs.Prelude.{List};
    ghost use Rattle.regex_lite_syntax.specs.declared.class.ClassRange.{ClassRange};
    ghost use Rattle.regex_lite_syntax.specs.AsciiMaps.{AreMappedRuns};
    ghost use Rattle.regex_lite_syntax.specs.Parser.RunStorage.{runs_of};

    ghost Value = { List ClassRange };

    ghost view = { λ class. runs_of class.ranges };

    ghost invariant = { λ class. AreMappedRuns (runs_of class.ranges) class.ascii };
}

impl Class {
    /// The set with these maximal runs.
    pub(crate) fn of_runs(ranges: Vec<ClassRange>) -> Class
        requires { AreRuns 0 ranges.items }
        ensures { result ≡ ranges.items }
    {
        let ascii = words_of_ranges(&ranges);
        let ranges = RunStorage::Made(ranges);
        Class { ranges, ascii }
    }

    /// The set with these static runs.
    pub(crate) fn of_known(set: KnownSet) -> Class
        ensures { AreRunsOf result (known_members set) }
    {
        let ascii = words_of_ranges(set.ranges());
        let ranges = RunStorage::Known(set);
        Class { ranges, ascii }
    }

    /// The set of the characters in any of these ranges.
    pub(crate) fn new(mut ranges: Vec<ClassRange>) -> Class
        ensures { AreRunsOf result (in_ranges ranges.items) }
    {
        ranges.sort_unstable_by_key(|range| range.start);
        let runs = join_all(&mut ranges);
        ranges.truncate(runs);
        Class::of_runs(ranges)
    }

    /// The set with this name, or its complement.
    pub(crate) fn named(alloc: Global, set: NamedSet, negated: bool) -> Result<Class, AllocError>
        ensures { IfOk result (λ class. AreRunsOf class (named_or_not set negated)) }
    {
        Class::of_known(KnownSet::Named(set)).into_negated(alloc, negated)
    }

    /// The complement of the set if `negated`, otherwise the set itself.
    pub(crate) fn into_negated(self, alloc: Global, negated: bool) -> Result<Class, AllocError>
        ensures { IfOk result (λ class. AreRunsOf class (if negated then complement (in_ranges self)
            else in_ranges self)) }
    {
        if negated {
            self.negate(alloc)
        } else {
            Ok(self)
        }
    }

    /// The complement of the set.
    pub(crate) fn negate(&self, alloc: Global) -> Result<Class, AllocError>
        ensures { IfOk result (λ class. AreRunsOf class (complement (in_ranges self.now))) }
    {
        let mut gaps = Vec::new(alloc);
        let mut start = Some('\0');
        for range in self.ranges() {
            append_between(&mut gaps, start, previous_char(range.start))?;
            start = next_char(range.end);
        }
        append_between(&mut gaps, start, Some(char::MAX))?;
        Ok(Class::of_runs(gaps))
    }

    /// Whether the set contains the character.
    pub fn contains(&self, c: char) -> bool
        ensures { result ≡ in_ranges self.now c }
    {
        let ranges = self.ranges();
        let at = ranges.partition_point(|range| range.end < c);
        at < ranges.len() && ranges[at].start <= c
    }

    /// The bitmap of the set's ASCII characters, the lowest 64 in the first word.
    pub fn ascii(&self) -> [u64; 2]
        ensures { AreMapOf result (in_ranges self.now) }
    {
        self.ascii
    }

    /// The maximal runs of the set, in order.
    pub fn ranges(&self) -> &[ClassRange]
        ensures same { result.now ≡ self.now }
        ensures runs { AreRuns 0 result.now }
    {
        match &self.ranges {
            RunStorage::Known(set) => set.ranges(),
            RunStorage::Made(ranges) => ranges,
        }
    }
}
