//! The size of a tree's NFA, counted before anything is compiled: one walk over the tree, which
//! needs no memory.
//!
//! A repetition is counted by multiplication, so a number may overflow. It then saturates, and the
//! pattern exceeds the size limit in any case.
ghost use Rattle.std.specs.Prelude.{◌≡◌, ◌+◌, ◌*◌, ◌^◌, ◌<◌, ℕ, Bool, map, option_map};
ghost use Rattle.regex_lite_syntax.specs.Tree.Regular.{IsRegular};
ghost use Rattle.regex_lite_syntax.specs.Tree.{Tree, Trees, class, repetition, capture};
ghost use Rattle.regex_lite_syntax.specs.Tree.{concat, alternation, none, more, trees};
ghost use Rattle.regex_lite_syntax.specs.Tree.Properties.{captures_len, static_captures_len};
ghost use Rattle.regex_lite_syntax.specs.Tree.Views.{text_of_name, tree_of};
ghost use Rattle.regex_lite_engine.specs.Graph.Size.{name_size};
ghost use Rattle.regex_lite_engine.specs.Graph.PlaceCounts.{whole_places, whole_arrows};
ghost use Rattle.regex_lite_engine.specs.Graph.PlaceCounts.{reading_places};
ghost use Rattle.regex_lite_engine.specs.Nfa.Saturation.{saturated, AreCountsOf, AreSumsOf};

mod copies;
mod limits;
pub(crate) mod measured;
pub(crate) mod totals;

use copies::{OwnPlaces, copies};
use regex_lite_syntax::{Class, Hir, Properties};
use std::rc::RcStr;

/// The counts of a tree's NFA. A number that overflows saturates.
#[derive(Clone, Copy)]
pub(crate) struct Counts {
    pub(crate) places: u64,
    pub(crate) arrows: u64,
    pub(crate) choice_arrows: u64,
    /// The number of places that read a character.
    pub(crate) reading: u64,
    pub(crate) ranges: u64,
    pub(crate) names_size: u64,
    pub(crate) properties: Properties,
}

/// The counts without a tree.
const NONE: Counts = Counts {
    places: 0,
    arrows: 0,
    choice_arrows: 0,
    reading: 0,
    ranges: 0,
    names_size: 0,
    properties: Properties {
        nullable: true,
        greatest_index: 0,
        static_groups: Some(0),
    },
};

/// The properties of a tree without groups that reads a character.
const NOT_NULLABLE: Properties = Properties {
    nullable: false,
    greatest_index: 0,
    static_groups: Some(0),
};

/// The counts of alternatives without a branch: a choice and a join.
const NO_BRANCHES: Counts = Counts {
    places: 2,
    arrows: 1,
    properties: NOT_NULLABLE,
    ..NONE
};

/// The counts of each branch besides its own places.
const BRANCH: Counts = Counts {
    arrows: 1,
    choice_arrows: 1,
    ..NONE
};

/// The counts of a place that reads a character.
const READING: Counts = Counts {
    places: 1,
    arrows: 1,
    reading: 1,
    properties: NOT_NULLABLE,
    ..NONE
};

/// The counts of the place of the empty tree or of a look.
const EMPTY: Counts = Counts {
    places: 1,
    arrows: 1,
    ..NONE
};

impl Counts {
    /// The counts of the tree.
    #[cycle(count)]
    pub(crate) fn of(hir: &Hir) -> Counts
        ensures { AreCountsOf (tree_of hir.now) result }
    {
        match hir {
            Hir::Empty | Hir::Look(_) => EMPTY,
            Hir::Char(_) => READING,
            Hir::Class(set) => Counts::of_class(set),
            Hir::Repetition {
                least,
                most,
                body,
                ..
            } => Counts::of(body).repeated(*least, *most),
            Hir::Capture { index, name, body } => Counts::of(body).captured(*index, name),
            Hir::Concat(parts) => Counts::of_parts(parts),
            Hir::Alternation(branches) => Counts::of_branches(branches),
        }
    }

    /// The counts of a concatenation of these parts.
    #[cycle(count)]
    fn of_parts(parts: &[Hir]) -> Counts
        ensures { AreCountsOf (concat (trees (map tree_of parts.now))) result }
    {
        let mut counts = NONE;
        for i in (0..parts.len()).rev() {
            counts = Counts::of(&parts[i]).then(counts);
        }
        counts
    }

    /// The counts of these branches, with their choice and their join.
    #[cycle(count)]
    fn of_branches(branches: &[Hir]) -> Counts
        ensures { AreCountsOf (alternation (trees (map tree_of branches.now))) result }
    {
        let Some(last) = branches.len().checked_sub(1) else {
            return NO_BRANCHES;
        };
        let mut counts = Counts::of(&branches[last]).alone();
        for i in (0..last).rev() {
            counts = Counts::of(&branches[i]).or(counts);
        }
        counts
    }

    /// The counts of the place of a set. If the set is empty, the place has no arrow and reads
    /// nothing.
    fn of_class(set: &Class) -> Counts
        ensures { AreCountsOf (class set.now) result }
    {
        let ranges = set.ranges().len();
        let arrows = if ranges == 0 { 0 } else { 1 };
        Counts {
            arrows,
            reading: arrows,
            ranges: ranges as u64,
            ..READING
        }
    }

    /// The counts of this tree followed by the rest.
    fn then(self, rest: Counts) -> Counts
        ensures { (first : Tree) (parts : Trees)
            → AreCountsOf first self → AreCountsOf (concat parts) rest
            → AreCountsOf (concat (more first parts)) result }
    {
        Counts {
            properties: self.properties.then(rest.properties),
            ..self.plus(rest)
        }
    }

    /// The sums of these numbers and the others. Properties have no sum: they are unchanged.
    fn plus(self, rest: Counts) -> Counts
        ensures { AreSumsOf self rest result }
    {
        Counts {
            places: self.places.saturating_add(rest.places),
            arrows: self.arrows.saturating_add(rest.arrows),
            choice_arrows: self.choice_arrows.saturating_add(rest.choice_arrows),
            reading: self.reading.saturating_add(rest.reading),
            ranges: self.ranges.saturating_add(rest.ranges),
            names_size: self.names_size.saturating_add(rest.names_size),
            properties: self.properties,
        }
    }

    /// The counts of this branch alone, with the choice and the join.
    fn alone(self) -> Counts
        ensures { (branch : Tree) → AreCountsOf branch self
            → AreCountsOf (alternation (more branch none)) result }
    {
        Counts {
            properties: self.properties.alone(),
            ..self.plus(NO_BRANCHES).plus(BRANCH)
        }
    }

    /// The counts of this branch and the others, with the arrow of their choice that leads to it.
    fn or(self, others: Counts) -> Counts
        ensures { (branch next : Tree) (rest : Trees)
            → AreCountsOf branch self → AreCountsOf (alternation (more next rest)) others
            → AreCountsOf (alternation (more branch (more next rest))) result }
    {
        Counts {
            properties: self.properties.or(others.properties),
            ..self.plus(others).plus(BRANCH)
        }
    }

    /// The counts of a group around this tree.
    fn captured(self, index: u32, name: &Option<RcStr>) -> Counts
        ensures { (body : Tree) → AreCountsOf body self
            → AreCountsOf (capture index (option_map text_of_name name.now) body) result }
    {
        Counts {
            places: self.places.saturating_add(2),
            arrows: self.arrows.saturating_add(2),
            names_size: self.names_size.saturating_add(name_size(name)),
            properties: self.properties.captured(index),
            ..self
        }
    }

    /// The counts of a repetition of this tree.
    fn repeated(self, least: u32, most: Option<u32>) -> Counts
        ensures { (body : Tree) (greedy : Bool) → AreCountsOf body self
            → AreCountsOf (repetition least most greedy body) result }
    {
        let copies = copies(least, most);
        let own = OwnPlaces::of(least, most, self.properties.nullable);
        Counts {
            places: times(copies, self.places, own.choices + own.others),
            arrows: times(copies, self.arrows, 2 * own.choices + own.others),
            choice_arrows: times(copies, self.choice_arrows, 2 * own.choices),
            reading: times(copies, self.reading, 0),
            ranges: times(copies, self.ranges, 0),
            properties: self.properties.repeated(least),
            ..self
        }
    }

    /// The number of arrows of the whole pattern, if its places can be numbered.
    pub(crate) fn arrows(&self) -> usize
        ensures { (tree : Tree) → AreCountsOf tree self.now → IsRegular tree
            → whole_places tree < 2 ^ 32 → result ≡ whole_arrows tree }
    {
        self.arrows.saturating_add(2) as usize
    }

    /// The number of places of the whole pattern that read a character, if its places can be
    /// numbered.
    pub(crate) fn reading(&self) -> usize
        ensures { (tree : Tree) → AreCountsOf tree self.now → whole_places tree < 2 ^ 32
            → result ≡ reading_places tree }
    {
        self.reading as usize
    }

    /// The number of groups of a match, including the whole match.
    pub(crate) fn captures_len(&self) -> usize
        ensures { (tree : Tree) → AreCountsOf tree self.now → result ≡ captures_len tree }
    {
        self.properties.greatest_index as usize + 1
    }

    /// The least number of groups that take part in every match, including the whole match, if it
    /// is known and the places can be numbered.
    pub(crate) fn static_captures_len(&self) -> Option<usize>
        ensures { (tree : Tree) → AreCountsOf tree self.now → whole_places tree < 2 ^ 32
            → result ≡ static_captures_len tree }
    {
        Some(self.properties.static_groups? as usize + 1)
    }
}

/// The size of the name, if there is one.
fn name_size(name: &Option<RcStr>) -> u64
    ensures { result ≡ saturated (name_size (option_map text_of_name name.now)) }
{
    match name {
        None => 0,
        Some(name) => (name.len() as u64).saturating_add(4),
    }
}

/// `copies` times `each`, plus `own`.
fn times(copies: u64, each: u64, own: u64) -> u64
    ensures { (n : ℕ) → each ≡ saturated n → result ≡ saturated (copies * n + own) }
{
    copies.saturating_mul(each).saturating_add(own)
}
