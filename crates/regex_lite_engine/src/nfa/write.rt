//! The compiler from trees to a table of places. The last part of each tree is written first, so
//! that the number of the place that follows is known.
//!
//! The definitions name a place by its address, a list of numbers that leads into the tree. Here
//! places are numbered in the order in which they are written, which `specs/Nfa/Layout.antt`
//! defines. Only the choice of a loop is written twice: its target is not known at first. All
//! places are counted before, so their table is allocated once, with its exact length.
ghost use Rattle.std.specs.Prelude.{◌≡◌, ◌<◌, ◌≤◌, ◌+◌, ◌*◌, ◌^◌, [], ◌∷◌, ◌++◌, All};
ghost use Rattle.std.specs.Prelude.{length, map, drop, slice_index_or, IfOk};
ghost use Rattle.regex_lite_syntax.specs.Tree.{trees};
ghost use Rattle.regex_lite_syntax.specs.Tree.Views.{tree_of};
ghost use Rattle.regex_lite_syntax.specs.Tree.Properties.{greatest_index, greatest_index_in};
ghost use Rattle.regex_lite_engine.specs.Graph.Places.{complete};
ghost use Rattle.regex_lite_engine.specs.Graph.Stored.{place_of};
ghost use Rattle.regex_lite_engine.specs.Graph.PlaceCounts.{places, places_in, whole_places};
ghost use Rattle.regex_lite_engine.specs.Graph.SideBySide.{places_of_all};
ghost use Rattle.regex_lite_engine.specs.Nfa.Layout.{IsAdded, layout, capture_layout, chain_layout};
ghost use Rattle.regex_lite_engine.specs.Nfa.Layout.{branches_layout, alternation_layout};
ghost use Rattle.regex_lite_engine.specs.Nfa.Layout.{pattern_layout, pattern_table, patterns_table};
ghost use Rattle.regex_lite_engine.specs.Nfa.Layout.{patterns_entries};

mod add;
mod repetition;

use crate::count::measured::Measured;
use crate::nfa::place::Place;
use regex_lite_syntax::Hir;
use std::alloc::{AllocError, Global};
use std::marker::Model;

/// The table of the tree's places, with those of group 0 around it and the match at number 0, and
/// the number of the place at which it is entered.
///
/// Condition: `count` is the number of places, so that the table is allocated only once, and each
/// slot can be numbered.
///
/// # Errors
///
/// If memory runs out, or a set has as many owners as can be counted.
pub(crate) fn write_out(
    alloc: Global,
    hir: &Hir,
    count: u32,
) -> Result<(Vec<Place>, u32), AllocError>
    requires count { count ≡ whole_places (tree_of hir.now) }
    requires slots { greatest_index (tree_of hir.now) < 2 ^ 31 }
    ensures written { IfOk result (λ graph. IsAdded (complete ∷ []) (map place_of graph.0.items)
        graph.1 (capture_layout 0 (layout (tree_of hir.now)) 1 0)) }
    ensures length { IfOk result (λ graph.
        length graph.0.items ≡ whole_places (tree_of hir.now)) }
{
    let mut writer = Writer::new(alloc, count)?;
    let start = writer.write_pattern(hir)?;
    Ok((writer.places, start))
}

/// The table of the places of several trees, one tree after another, and the numbers of the places
/// at which they are entered.
///
/// Condition: `count` is the total number of places, so that the table is allocated only once, and
/// each slot can be numbered.
///
/// # Errors
///
/// If memory runs out, or a set has as many owners as can be counted.
pub(crate) fn write_all(
    alloc: Global,
    hirs: &[Measured],
    count: u32,
) -> Result<(Vec<Place>, Vec<u32>), AllocError>
    requires count { count ≡ places_of_all (map tree_of hirs.now) }
    requires slots { All (λ tree. greatest_index tree < 2 ^ 31) (map tree_of hirs.now) }
    ensures written { IfOk result (λ graph.
        map place_of graph.0.items ≡ patterns_table (map tree_of hirs.now) 0) }
    ensures entries { IfOk result (λ graph.
        graph.1.items ≡ patterns_entries (map tree_of hirs.now) 0) }
    ensures length { IfOk result (λ graph.
        length graph.0.items ≡ places_of_all (map tree_of hirs.now)) }
{
    let mut writer = Writer::new(alloc, count)?;
    let entries = writer.write_patterns(hirs)?;
    Ok((writer.places, entries))
}

/// The places that have been written.
#[derive(Drop)]
struct Writer {
    alloc: Global,
    places: Vec<Place>,
}

impl Model for Writer {
    ghost use Rattle.std.specs.Prelude.{List};
    ghost use Rattle.regex_lite_engine.specs.declared.nfa.place.Place.{Place};

    ghost Value = { List Place };

    ghost view = { λ writer. writer.places.items };
}

impl Writer {
    /// No place yet, with memory for `count` places.
    fn new(alloc: Global, count: u32) -> Result<Writer, AllocError>
        ensures { IfOk result (λ writer. writer ≡ []) }
    {
        let places = Vec::with_capacity(alloc, count as usize)?;
        Ok(Writer { alloc, places })
    }

    /// Adds the places of a whole pattern: the one where its match is complete, and then those of
    /// the tree with group 0 around it. Returns the place at which it is entered.
    fn write_pattern(&mut self, hir: &Hir) -> Result<u32, AllocError>
        requires room { length self.old + whole_places (tree_of hir.now) < 2 ^ 32 }
        requires slots { greatest_index (tree_of hir.now) < 2 ^ 31 }
        ensures written { let tree = tree_of hir.now in let base = length self.old in
            IfOk result (λ entry. IsAdded (map place_of self.old) (map place_of self.new) entry
            (pattern_table tree base, (pattern_layout tree base).1)) }
        ensures grown { IfOk result (λ _.
            length self.new ≡ length self.old + whole_places (tree_of hir.now)) }
    {
        let end = self.add(Place::Match)?;
        self.write_group(0, hir, end)
    }

    /// Adds the places of whole patterns, one after another. Returns the places at which they are
    /// entered.
    fn write_patterns(&mut self, hirs: &[Measured]) -> Result<Vec<u32>, AllocError>
        requires room { length self.old + places_of_all (map tree_of hirs.now) < 2 ^ 32 }
        requires slots { All (λ tree. greatest_index tree < 2 ^ 31) (map tree_of hirs.now) }
        ensures written { IfOk result (λ _. map place_of self.new ≡ map place_of self.old
            ++ patterns_table (map tree_of hirs.now) (length self.old)) }
        ensures entries { IfOk result (λ entries.
            entries.items ≡ patterns_entries (map tree_of hirs.now) (length self.old)) }
        ensures grown { IfOk result (λ _.
            length self.new ≡ length self.old + places_of_all (map tree_of hirs.now)) }
    {
        let mut entries = Vec::with_capacity(self.alloc, hirs.len())?;
        for hir in hirs {
            entries.push(self.write_pattern(hir.hir())?)?;
        }
        Ok(entries)
    }

    /// Adds the places of the tree, which lead on to `exit`, and returns the place at which they
    /// are entered.
    #[cycle(write)]
    fn write(&mut self, hir: &Hir, exit: u32) -> Result<u32, AllocError>
        requires room { length self.old + places (tree_of hir.now) < 2 ^ 32 }
        requires slots { greatest_index (tree_of hir.now) < 2 ^ 31 }
        ensures written { IfOk result (λ entry. IsAdded
            (map place_of self.old) (map place_of self.new) entry
            (layout (tree_of hir.now) (length self.old) exit)) }
        ensures grown { IfOk result (λ _.
            length self.new ≡ length self.old + places (tree_of hir.now)) }
    {
        match hir {
            Hir::Empty => self.add_empty(exit),
            Hir::Char(c) => self.add_char(*c, exit),
            Hir::Class(class) => self.add_class(class, exit),
            Hir::Look(look) => self.add_look(*look, exit),
            Hir::Repetition {
                least,
                most,
                greedy,
                body,
            } => self.write_repetition(body, *least, *most, *greedy, exit),
            Hir::Capture { index, body, .. } => self.write_group(*index, body, exit),
            Hir::Concat(parts) => self.write_concat(parts, exit),
            Hir::Alternation(branches) => self.write_alternation(branches, exit),
        }
    }

    /// Writes the place where a group ends, its body, and the place where it begins. Returns the
    /// latter.
    #[cycle(write)]
    fn write_group(&mut self, index: u32, body: &Hir, exit: u32) -> Result<u32, AllocError>
        requires room { length self.old + (places (tree_of body.now) + 2) < 2 ^ 32 }
        requires slot { index < 2 ^ 31 }
        requires slots { greatest_index (tree_of body.now) < 2 ^ 31 }
        ensures written { IfOk result (λ entry. IsAdded
            (map place_of self.old) (map place_of self.new) entry
            (capture_layout index (layout (tree_of body.now)) (length self.old) exit)) }
        ensures grown { IfOk result (λ _.
            length self.new ≡ length self.old + (places (tree_of body.now) + 2)) }
    {
        let close = self.close_group(index, exit)?;
        let inner = self.write(body, close)?;
        self.open_group(index, inner)
    }

    /// Writes the parts of a concatenation, the last one first. Returns the place where the
    /// first is entered.
    #[cycle(write)]
    fn write_concat(&mut self, parts: &[Hir], exit: u32) -> Result<u32, AllocError>
        requires room { length self.old + places_in (trees (map tree_of parts.now)) < 2 ^ 32 }
        requires slots { greatest_index_in (trees (map tree_of parts.now)) < 2 ^ 31 }
        ensures written { IfOk result (λ entry. IsAdded
            (map place_of self.old) (map place_of self.new) entry
            (chain_layout (trees (map tree_of parts.now)) (length self.old) exit)) }
        ensures grown { IfOk result (λ _.
            length self.new ≡ length self.old + places_in (trees (map tree_of parts.now))) }
    {
        let mut next = exit;
        for i in (0..parts.len()).rev() {
            next = self.write(part_at(parts, i), next)?;
        }
        Ok(next)
    }

    /// Writes alternatives: the join after them, the branches in order, the choice. Returns the
    /// choice.
    #[cycle(write)]
    fn write_alternation(&mut self, branches: &[Hir], exit: u32) -> Result<u32, AllocError>
        requires room { let parts = trees (map tree_of branches.now) in
            length self.old + (places_in parts + 2) < 2 ^ 32 }
        requires slots { greatest_index_in (trees (map tree_of branches.now)) < 2 ^ 31 }
        ensures written { let parts = trees (map tree_of branches.now) in
            IfOk result (λ entry. IsAdded (map place_of self.old) (map place_of self.new) entry
            (alternation_layout (branches_layout parts) (length self.old) exit)) }
        ensures grown { let parts = trees (map tree_of branches.now) in
            IfOk result (λ _. length self.new ≡ length self.old + (places_in parts + 2)) }
    {
        let join = self.add_empty(exit)?;
        let entries = self.write_branches(branches, join)?;
        self.add(Place::Branches(entries))
    }

    /// Writes alternatives in order, each of which leads to the join. Returns the places at which
    /// they are entered.
    #[cycle(write)]
    fn write_branches(&mut self, branches: &[Hir], join: u32) -> Result<Vec<u32>, AllocError>
        requires room { length self.old + places_in (trees (map tree_of branches.now)) < 2 ^ 32 }
        requires slots { greatest_index_in (trees (map tree_of branches.now)) < 2 ^ 31 }
        ensures written { let parts = trees (map tree_of branches.now) in
            IfOk result (λ _. map place_of self.new
            ≡ map place_of self.old ++ (branches_layout parts (length self.old) join).0) }
        ensures entries { let parts = trees (map tree_of branches.now) in
            IfOk result (λ entries.
            entries.items ≡ (branches_layout parts (length self.old) join).1) }
        ensures grown { IfOk result (λ _.
            length self.new ≡ length self.old + places_in (trees (map tree_of branches.now))) }
    {
        let mut entries = Vec::with_capacity(self.alloc, branches.len())?;
        for branch in branches {
            entries.push(self.write(branch, join)?)?;
        }
        Ok(entries)
    }
}

/// The part at the index.
fn part_at(parts: &[Hir], i: usize) -> &Hir
    requires { i < length parts.now }
    ensures part { result.now ≡ slice_index_or parts.now i result.now }
    // The part needs no more places than the parts after it leave.
    ensures room { places (tree_of result.now)
        + places_in (trees (map tree_of (drop (i + 1) parts.now)))
        ≤ places_in (trees (map tree_of parts.now)) }
    ensures slots { greatest_index (tree_of result.now)
        ≤ greatest_index_in (trees (map tree_of parts.now)) }
{
    &parts[i]
}
