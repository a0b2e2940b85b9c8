//! The graph of several patterns: one table of places, with an entry and a match for each pattern.
ghost use Rattle.std.specs.Prelude.{◌≡◌, ◌∷◌, [], ◌^◌, ◌<◌, ◌≤◌, ◌⊎◌, ℕ, All, IfOk, IfSome};
ghost use Rattle.std.specs.Prelude.{IfErr, map, length, slice_get, slice_index, Some};
ghost use Rattle.regex_lite_syntax.specs.declared.error.ErrorKind.TheVariants.{Places};
ghost use Rattle.regex_lite_syntax.specs.Errors.{kind_of, out_of_memory};
ghost use Rattle.regex_lite_syntax.specs.Tree.Views.{tree_of};
ghost use Rattle.regex_lite_engine.specs.Graph.Renumbered.{arrows_of};
ghost use Rattle.regex_lite_engine.specs.Graph.Stored.{places_of};
ghost use Rattle.regex_lite_engine.specs.Graph.SideBySide.{AreRegularPatterns, places_of_all};
ghost use Rattle.regex_lite_engine.specs.Graph.Size.{Fits, IsDueToTree};
ghost use Rattle.regex_lite_engine.specs.Graph.StoredList.{HasGroupsOfList, IsGraphOfList};
ghost use Rattle.regex_lite_engine.specs.Graph.StoredList.{table_of_list};
ghost use Rattle.regex_lite_engine.specs.Search.Filters.{facts_of, own_facts_of};
ghost use Rattle.regex_lite_engine.specs.Search.NeededWords.{IsNeededByAny};
ghost use Rattle.regex_lite_engine.specs.Search.NumberedWords.{AreAnsweredBy, IsEachAnsweredBy};
ghost use Rattle.regex_lite_engine.specs.Search.Starts.{AreAllAtEnd, DoWordsAnswer};
ghost use Rattle.regex_lite_engine.specs.Search.Starts.{IsPrefixIndexOf, TellReading};

mod facts;

use crate::count::Counts;
use crate::count::measured::Measured;
use crate::count::totals::Totals;
use crate::nfa::groups::Groups;
use crate::nfa::table::Table;
use crate::nfa::write::write_all;
use crate::search::one_pattern::OnePattern;
use crate::search::own_filter::OwnFilter;
use facts::{filters_of, groups_of, needed_of, that_may_be_empty, that_read, words_of};
use regex_lite_syntax::prefilter::{ListWords, Needed, PrefixIndex};
use regex_lite_syntax::{Error, Hir};
use std::alloc::Global;
use std::marker::Model;

/// In a list of fewer patterns than these a search for one of them goes by all that its tree tells,
/// as that for a regex does. It pays where each pattern is searched for by itself: which of twelve
/// filters match took .52 to .79 of what it takes by two characters of each, in a quarter more
/// memory.
const MANY: usize = 16;

/// Several patterns that are written out as one graph. Each has places of its own, is entered at
/// one of them, and has a place where its match is complete.
#[derive(Drop)]
pub struct GraphList {
    table: Table,
    /// Where each pattern is entered, by its number.
    entries: Vec<u32>,
    /// By the number of the pattern.
    groups: Vec<Groups>,
    /// Where a match of each pattern can begin, by its number.
    filters: Vec<OwnFilter>,
    /// Whether each match of a pattern reads a character, by its number.
    pub(super) reads: Vec<bool>,
    /// Which patterns may start at a position.
    prefixes: PrefixIndex,
    /// The numbers of those that may match without reading a character, in order.
    at_end: Vec<u32>,
    /// The words of all patterns, if each is nothing but its words.
    words: Option<Box<ListWords>>,
    /// Words of which one stands in each match of any pattern, if some are known.
    needed: Option<Box<Needed>>,
}

impl Model for GraphList {
    ghost use Rattle.std.specs.Prelude.{◌<◌, ◌^◌, All, IfSome, length, map};
    ghost use Rattle.regex_lite_engine.specs.Graph.Stored.{places_of};
    ghost use Rattle.regex_lite_engine.specs.Graph.StoredList.{StoredList};
    ghost use Rattle.regex_lite_engine.specs.Search.Filters.{own_facts_of};
    ghost use Rattle.regex_lite_engine.specs.Search.NumberedWords.{AreAnsweredBy};
    ghost use Rattle.regex_lite_engine.specs.Search.NumberedWords.{IsEachAnsweredBy};
    ghost use Rattle.regex_lite_engine.specs.Search.NeededWords.{IsNeededByAny};
    ghost use Rattle.regex_lite_engine.specs.Search.Starts.{AreAllAtEnd, AreFiltersOf, AreReading};
    ghost use Rattle.regex_lite_engine.specs.Search.Starts.{IsPrefixIndexOf};

    ghost Value = { StoredList };

    ghost view = { λ list. record {
      places = list.table.places;
      entries = list.entries.items;
      arrows = list.table.arrows;
      groups = list.groups.items;
      reads = list.reads.items;
    } };

    ghost invariant = { λ list.
        All (λ entry. entry < length list.table.places) list.entries.items
        × (length list.entries.items < 2 ^ 32)
        × IsPrefixIndexOf (places_of list.table) list.entries.items list.prefixes
        × AreFiltersOf (places_of list.table) list.entries.items
        (map own_facts_of list.filters.items)
        × AreReading (places_of list.table) list.entries.items list.reads.items
        × AreAllAtEnd (places_of list.table) list.entries.items list.at_end.items
        × IfSome list.words (λ words.
        AreAnsweredBy (places_of list.table) list.entries.items words.value
        × IsEachAnsweredBy (places_of list.table) list.entries.items words.value)
        × IfSome list.needed (λ needed.
        IsNeededByAny (places_of list.table) list.entries.items needed.value) };
}

impl GraphList {
    /// The tree with its counts, if it exceeds none of the limits by itself. Nothing is written.
    ///
    /// # Errors
    ///
    /// `Size` where the size is above the limit, `Places` where there are more places than can be
    /// numbered, and `Slots` where a group's slots can't be numbered. If several limits are
    /// exceeded, any of them may be named.
    pub fn within_limits(hir: Hir, size_limit: usize) -> Result<Measured, Error>
        ensures same { IfOk result (λ measured. measured ≡ hir) }
        ensures ok { IfOk result (λ _. Fits size_limit (tree_of hir)) }
        ensures refused { IfErr result
            (λ error. IsDueToTree size_limit (tree_of hir) (kind_of error)) }
    {
        let counts = Counts::of(&hir);
        counts.within(size_limit)?;
        Ok(Measured::new(hir, counts))
    }

    /// The graph of these trees. Whether there are too many places is found out before anything is
    /// written.
    ///
    /// Conditions: each tree is regular, as the grammar gives it, and exceeds no limit by itself.
    ///
    /// # Errors
    ///
    /// `Places` where the trees have more places together than can be numbered, and `Memory` if
    /// memory runs out or a set or a name has as many owners as can be counted.
    pub fn new(alloc: Global, hirs: &[Measured]) -> Result<GraphList, Error>
        requires regular { AreRegularPatterns (map tree_of hirs.now) }
        requires fit { All (λ tree. (limit : ℕ) × Fits limit tree) (map tree_of hirs.now) }
        ensures ok { IfOk result (λ list. IsGraphOfList (map tree_of hirs.now) list) }
        ensures groups { IfOk result (λ list. HasGroupsOfList (map tree_of hirs.now) list) }
        ensures reads { IfOk result (λ list. TellReading (map tree_of hirs.now) list.reads) }
        ensures fits { IfOk result (λ _. places_of_all (map tree_of hirs.now) < 2 ^ 32) }
        ensures refused { IfErr result (λ error. (error ≡ out_of_memory)
            ⊎ ((kind_of error ≡ Places) × (2 ^ 32 ≤ places_of_all (map tree_of hirs.now)))) }
    {
        let totals = Totals::of(hirs)?;
        let groups = groups_of(alloc, hirs)?;
        let (places, entries) = write_all(alloc, hirs, totals.places)?;
        let table = Table::new(places, totals.arrows, totals.reading);
        let words = words_of(alloc, hirs);
        let filters = filters_of(alloc, hirs, words.is_none() && hirs.len() < MANY)?;
        let needed = needed_of(alloc, hirs, &filters);
        let reads = that_read(alloc, hirs)?;
        let prefixes = PrefixIndex::of(alloc, hirs)?;
        let at_end = that_may_be_empty(alloc, hirs)?;
        Ok(GraphList {
            table,
            entries,
            groups,
            filters,
            reads,
            prefixes,
            at_end,
            words,
            needed,
        })
    }

    /// Its places by number.
    pub fn table(&self) -> &Table
        ensures same { result.now ≡ record {
          places = self.now.places;
          arrows = self.now.arrows;
        } }
    {
        &self.table
    }

    /// Where each pattern is entered, by its number.
    pub fn entries(&self) -> &[u32]
        ensures same { result.now ≡ self.now.entries }
        ensures inside { All (λ entry. entry < length (table_of_list self.now)) result.now }
        ensures few { length result.now < 2 ^ 32 }
    {
        &self.entries
    }

    /// Which patterns may start at a position.
    pub fn prefixes(&self) -> &PrefixIndex
        ensures { IsPrefixIndexOf (table_of_list self.now) self.now.entries result.now }
    {
        &self.prefixes
    }

    /// The numbers of the patterns of which a match can begin at the haystack's end, in order.
    pub(crate) fn at_end(&self) -> &[u32]
        ensures { AreAllAtEnd (table_of_list self.now) self.now.entries result.now }
    {
        &self.at_end
    }

    /// The words of several patterns, if each is nothing but its words. Then the next of them is
    /// what a search finds, and those patterns match of which a word stands.
    #[inline(always)]
    pub fn words(&self) -> Option<&ListWords>
        ensures next { IfSome result (λ words.
            AreAnsweredBy (table_of_list self.now) self.now.entries words.now) }
        ensures each { IfSome result (λ words.
            IsEachAnsweredBy (table_of_list self.now) self.now.entries words.now) }
    {
        match &self.words {
            None => None,
            Some(words) => Some(words),
        }
    }

    /// Words of which one stands in each match of any pattern, if some are known.
    #[inline(always)]
    pub fn needed(&self) -> Option<&Needed>
        ensures { IfSome result (λ needed.
            IsNeededByAny (table_of_list self.now) self.now.entries needed.now) }
    {
        match &self.needed {
            None => None,
            Some(needed) => Some(needed),
        }
    }

    /// The pattern with this number, which may start nowhere yet.
    ///
    /// Condition: the list has more patterns than this number.
    pub fn pattern(&self, number: usize) -> OnePattern<'_>
        requires { number < length self.now.entries }
        ensures table { places_of result.table.now ≡ table_of_list self.now }
        ensures entry { result.entry ≡ slice_index self.now.entries number }
        ensures answers { DoWordsAnswer (places_of result.table.now) result.entry
            (facts_of result.filter) }
    {
        OnePattern {
            table: &self.table,
            entry: self.entries[number],
            filter: self.filters[number].view(),
            reads: self.reads[number],
            may_start: false,
            first: usize::MAX,
        }
    }

    /// The pattern of a list that has no other. It is searched for as that of a regex is.
    pub fn alone(&self) -> Option<OnePattern<'_>>
        ensures table { IfSome result
            (λ one. places_of one.table.now ≡ table_of_list self.now) }
        ensures entry { IfSome result (λ one. self.now.entries ≡ one.entry ∷ []) }
        ensures answers { IfSome result (λ one. DoWordsAnswer (places_of one.table.now) one.entry
            (facts_of one.filter)) }
    {
        if self.entries.len() == 1 {
            Some(self.pattern(0))
        } else {
            None
        }
    }

    /// How many patterns there are. Each has places.
    pub fn len(&self) -> usize
        ensures same { result ≡ length self.now.entries }
        ensures few { result < 2 ^ 32 }
        ensures places { 0 < result → 0 < length self.now.places }
    {
        self.entries.len()
    }

    /// How many places all patterns have together.
    pub fn places(&self) -> usize
        ensures same { result ≡ length self.now.places }
        ensures few { result < 2 ^ 32 }
    {
        self.table.places()
    }

    /// How many arrows all patterns have together.
    pub fn arrows(&self) -> usize
        ensures same { result ≡ self.now.arrows }
        ensures all { result ≡ arrows_of (table_of_list self.now) }
        ensures few { result < 2 ^ 34 }
    {
        self.table.arrows()
    }

    /// The groups of the pattern with this number.
    ///
    /// Condition: the list has more patterns than this number.
    pub fn groups(&self, number: usize) -> &Groups
        requires { number < length self.now.groups }
        ensures { slice_get self.now.groups number ≡ Some result.now }
    {
        &self.groups[number]
    }
}
