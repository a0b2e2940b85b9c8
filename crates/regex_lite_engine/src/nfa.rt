//! The graph of a pattern, an NFA: numbered places (states) with ordered arrows (transitions).
//!
//! A regex keeps its graph and not its tree. Sets of characters and the names of groups are shared
//! with the tree by reference counting, and not by an index into a table: a copy takes no memory
//! and no look-up, and a place can return its whole set. A choice of branches has a list of its
//! own.
ghost use Rattle.std.specs.Prelude.{◌≡◌, ◌^◌, ◌<◌, length, not, IfOk, IfErr};
ghost use Rattle.regex_lite_syntax.specs.Errors.{kind_of};
ghost use Rattle.regex_lite_syntax.specs.Tree.Properties.{nullable};
ghost use Rattle.regex_lite_syntax.specs.Tree.Regular.{IsRegular};
ghost use Rattle.regex_lite_syntax.specs.Tree.Views.{tree_of};
ghost use Rattle.regex_lite_engine.specs.Graph.Renumbered.{arrows_of, IsGraphOf, HasGroupsOf};
ghost use Rattle.regex_lite_engine.specs.Graph.Size.{Fits, IsDueToTree};
ghost use Rattle.regex_lite_engine.specs.Graph.Places.{stack_bound_of};
ghost use Rattle.regex_lite_engine.specs.Graph.Stored.{places_of, table_of};
ghost use Rattle.regex_lite_engine.specs.Search.Filters.{facts_of};
ghost use Rattle.regex_lite_engine.specs.Search.Starts.{AreFactsOf, DoWordsAnswer};

pub(crate) mod class;
pub(crate) mod groups;
pub mod list;
pub mod place;
mod reads;
pub(crate) mod stack_bound;
pub mod table;
mod write;

use crate::count::Counts;
use crate::search::one_pattern::OnePattern;
use crate::search::pattern_filter::PatternFilter;
use groups::Groups;
use regex_lite_syntax::prefilter::Filter;
use regex_lite_syntax::{Error, Hir};
use std::alloc::Global;
use std::marker::Model;
use std::rc::RcStr;
use table::Table;
use write::write_out;

/// A compiled pattern: a search starts at one place, and follows the arrows to the place where a
/// match is complete.
#[derive(Drop)]
pub struct Graph {
    table: Table,
    /// The place at which a search starts.
    start: u32,
    groups: Groups,
    /// The filter for positions at which a match can begin.
    filter: Filter,
    /// Whether each match reads a character.
    reads: bool,
}

impl Model for Graph {
    ghost use Rattle.std.specs.Prelude.{◌<◌, IsTrue, length};
    ghost use Rattle.regex_lite_engine.specs.Graph.Stored.{StoredGraph, places_of};
    ghost use Rattle.regex_lite_engine.specs.Search.Starts.{AreFactsOf, DoWordsAnswer};
    ghost use Rattle.regex_lite_engine.specs.Search.Starts.{NoneBeginsAtEnd};

    ghost Value = { StoredGraph };

    ghost view = { λ graph. record {
      places = graph.table.places;
      start = graph.start;
      arrows = graph.table.arrows;
      capture_names = graph.groups.capture_names;
      static_captures_len = graph.groups.static_captures_len;
      reads = graph.reads;
    } };

    ghost invariant = { λ graph. (graph.start < length graph.table.places)
        × AreFactsOf (places_of graph.table) graph.start graph.filter
        × (IsTrue graph.reads → NoneBeginsAtEnd (places_of graph.table) graph.start)
        × DoWordsAnswer (places_of graph.table) graph.start graph.filter };
}

impl Graph {
    /// Compiles the graph of a tree. The limits are checked before anything is compiled.
    ///
    /// Condition: the tree is regular, as the grammar gives it: in each repetition the least number
    /// is at most the most, a group's index is at least 1, each list has two trees or more, a
    /// character is a Unicode scalar value, and the ranges of a class are maximal runs in order.
    ///
    /// # Errors
    ///
    /// `Size` if the size is above the limit, `Places` if there are more places than can be
    /// numbered, `Slots` if a group's slots can't be numbered, and `Memory` if memory runs out or a
    /// set or a name has as many owners as can be counted. If several limits are exceeded, any of
    /// these errors may be returned.
    pub fn new(alloc: Global, hir: &Hir, size_limit: usize) -> Result<Graph, Error>
        requires { IsRegular (tree_of hir.now) }
        ensures ok { IfOk result (λ graph. IsGraphOf (tree_of hir.now) graph) }
        ensures groups { IfOk result (λ graph. HasGroupsOf (tree_of hir.now) graph) }
        ensures reads { IfOk result (λ graph. graph.reads ≡ not (nullable (tree_of hir.now))) }
        ensures fits { IfOk result (λ _. Fits size_limit (tree_of hir.now)) }
        ensures refused { IfErr result
            (λ error. IsDueToTree size_limit (tree_of hir.now) (kind_of error)) }
    {
        let counts = Counts::of(hir);
        let count = counts.within(size_limit)?;
        let groups = Groups::of(alloc, hir, &counts)?;
        let (places, start) = write_out(alloc, hir, count)?;
        let table = Table::new(places, counts.arrows(), counts.reading());
        let filter = Filter::of(alloc, hir);
        Ok(Graph {
            table,
            start,
            groups,
            filter,
            reads: !counts.properties.nullable,
        })
    }

    /// The places of the graph by number.
    pub fn table(&self) -> &Table
        ensures some { 0 < length result.now.places }
        ensures same { result.now ≡ record {
          places = self.now.places;
          arrows = self.now.arrows;
        } }
    {
        &self.table
    }

    /// The filter for positions at which a match can begin.
    fn filter(&self) -> PatternFilter<'_>
        ensures all { AreFactsOf (table_of self.now) self.now.start (facts_of result) }
        ensures answers { DoWordsAnswer (table_of self.now) self.now.start (facts_of result) }
        ensures inside { self.now.start < length self.now.places }
    {
        PatternFilter::Whole(&self.filter)
    }

    /// The pattern of the graph, which may start nowhere yet.
    pub fn pattern(&self) -> OnePattern<'_>
        ensures table { places_of result.table.now ≡ table_of self.now }
        ensures entry { result.entry ≡ self.now.start }
        ensures answers { DoWordsAnswer (places_of result.table.now) result.entry
            (facts_of result.filter) }
    {
        OnePattern {
            table: &self.table,
            entry: self.start,
            filter: self.filter(),
            reads: self.reads,
            may_start: false,
            first: usize::MAX,
        }
    }

    /// The number of places.
    pub fn places(&self) -> usize
        ensures same { result ≡ length self.now.places }
        ensures few { result < 2 ^ 32 }
        ensures stack_bound { stack_bound_of (table_of self.now) < result }
        ensures few_arrows { arrows_of (table_of self.now) < 2 ^ 34 }
    {
        self.table.places()
    }

    /// The number of arrows.
    pub fn arrows(&self) -> usize
        ensures same { result ≡ self.now.arrows }
        ensures all { result ≡ arrows_of (table_of self.now) }
        ensures few { result < 2 ^ 34 }
    {
        self.table.arrows()
    }

    /// The names of the groups by index, from group 0 on.
    pub fn capture_names(&self) -> &[Option<RcStr>]
        ensures { result.now ≡ self.now.capture_names }
    {
        self.groups.capture_names()
    }

    /// The least number of groups that take part in every match, including the whole match, if it
    /// is known.
    pub fn static_captures_len(&self) -> Option<usize>
        ensures { result ≡ self.now.static_captures_len }
    {
        self.groups.static_captures_len()
    }
}
