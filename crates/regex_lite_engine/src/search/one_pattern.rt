//! A single pattern to search for.
ghost use Rattle.std.specs.Prelude.{◌≡◌, ◌<◌, IfSome, IsTrue, length, true};
ghost use Rattle.regex_lite_engine.specs.Graph.Stored.{places_of};
ghost use Rattle.regex_lite_engine.specs.Search.Filters.{facts_of};
ghost use Rattle.regex_lite_engine.specs.Search.Starts.{AnswerSearches, AreFactsOf, DoWordsAnswer};
ghost use Rattle.regex_lite_engine.specs.Search.Starts.{NoneBeginsAtEnd};

use crate::nfa::table::Table;
use crate::search::here::Here;
use crate::search::pattern_filter::PatternFilter;
use crate::search::patterns::{Anchored, Patterns, Start};
use regex_lite_syntax::prefilter::Words;

/// A pattern of a graph, which may have others, and whether it may start at the position reached
/// last.
#[derive(Clone, Copy)]
pub struct OnePattern<'g> {
    pub table: &'g Table,
    /// The place at which the pattern is entered.
    pub entry: u32,
    /// The filter for positions at which a match can begin.
    pub filter: PatternFilter<'g>,
    /// Whether each match reads a character. Then none begins at the haystack's end.
    pub reads: bool,
    /// Whether the pattern may start at the position reached last; initially it doesn't.
    pub may_start: bool,
    /// The offset of a start that was found already, or an offset that no haystack has. From there
    /// nothing is skipped.
    pub first: usize,
    pub ghost inside: { entry < length (places_of table.now) },
    pub ghost facts: { AreFactsOf (places_of table.now) entry (facts_of filter) },
    pub ghost ends: { IsTrue reads → NoneBeginsAtEnd (places_of table.now) entry },
}

impl<'g> OnePattern<'g> {
    /// The pattern as one that starts everywhere, so that a step is independent of the
    /// position.
    #[inline(always)]
    pub fn everywhere(&self) -> OnePattern<'g>
        ensures table { result.table.now ≡ self.now.table.now }
        ensures entry { result.entry ≡ self.now.entry }
        ensures all { result.may_start ≡ true }
    {
        let mut all = *self;
        all.may_start = true;
        all
    }

    /// The words of the pattern, if its matches are exactly these words. Then a search finds the
    /// next occurrence of one of them.
    #[inline(always)]
    pub fn whole_words(&self) -> Option<&'g Words>
        requires { DoWordsAnswer (places_of self.now.table.now) self.now.entry
            (facts_of self.now.filter) }
        ensures { IfSome result (λ words.
            AnswerSearches (places_of self.now.table.now) self.now.entry words.now) }
    {
        self.filter.whole_words()
    }
}

impl<'g> Patterns for OnePattern<'g> {
    ghost use Rattle.std.specs.Prelude.{◌∷◌, [], if◌then◌else◌};
    ghost use Rattle.regex_lite_engine.specs.Graph.Stored.{places_of};

    ghost table = { λ one. places_of one.table.now };

    ghost entries = { λ one. one.entry ∷ [] };

    ghost starts = { λ one. if one.may_start
        then record { number = 0; place = one.entry } ∷ [] else [] };

    fn table(&self) -> &Table {
        self.table
    }

    // Inlined, and so are the next ones, since they are called at each position: as calls they made
    // `is_match` by line up to 1.09 times as expensive.
    #[inline(always)]
    fn skip(&self, haystack: &str, here: Here) -> Option<Here> {
        if here.at == self.first {
            return None;
        }
        self.filter.skip(haystack, here)
    }

    fn has_prefilter(&self) -> bool {
        self.filter.has_prefilter()
    }

    #[inline(always)]
    fn come_to(&mut self, haystack: &str, here: Here) {
        self.may_start = self.filter.may_start(haystack, here);
    }

    #[inline(always)]
    fn len(&self) -> usize {
        usize::from(self.may_start)
    }

    #[inline(always)]
    fn start(&self, _: usize) -> Start {
        Start {
            number: 0,
            place: self.entry,
        }
    }
}

impl<'g> Anchored for OnePattern<'g> {
    #[inline(always)]
    fn start_no_more(&mut self) {
        self.may_start = false;
    }
}
