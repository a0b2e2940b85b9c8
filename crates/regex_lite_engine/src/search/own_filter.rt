//! Compact filters for the positions at which a match of one of several patterns can begin.
//!
//! Which patterns match is found for one after another, and the index of a list has no prefilter.
//! So each pattern has a filter of its own. A pattern that begins with two ASCII characters, or
//! with them after the boundary of a word, says as much by these two, so that a word takes 16
//! bytes. In a list of few patterns that aren't all words each has all that its tree tells.
ghost use Rattle.std.specs.Prelude.{◌≡◌, IfOk};
ghost use Rattle.regex_lite_syntax.specs.Tree.Views.{tree_of};
ghost use Rattle.regex_lite_syntax.specs.Prefilter.StartFacts.{AreFactsOfTree};
ghost use Rattle.regex_lite_engine.specs.Search.Filters.{facts_of, own_facts_of};

use crate::search::pattern_filter::PatternFilter;
use crate::search::prefix::Prefix;
use regex_lite_syntax::Hir;
use regex_lite_syntax::prefilter::Filter;
use std::alloc::{AllocError, Global};

/// A filter for the positions at which a match can begin. Most patterns of a long list are words.
/// Two characters of a word filter as well as its whole filter, in a twentieth of the memory.
#[derive(Drop)]
pub(crate) enum OwnFilter {
    /// Each match begins with these two characters.
    Literal(Prefix),
    /// The filter of the whole tree.
    Whole(Box<Filter>),
}

impl OwnFilter {
    /// The filter of the tree: its prefix if it has one.
    ///
    /// # Errors
    ///
    /// If memory runs out.
    pub(crate) fn of(alloc: Global, hir: &Hir) -> Result<OwnFilter, AllocError>
        ensures { IfOk result (λ filter. AreFactsOfTree (tree_of hir.now) (own_facts_of filter)) }
    {
        if let Some(prefix) = Prefix::of(hir) {
            return Ok(OwnFilter::Literal(prefix));
        }
        OwnFilter::whole(alloc, hir)
    }

    /// The filter of the whole tree.
    ///
    /// # Errors
    ///
    /// If memory runs out.
    pub(crate) fn whole(alloc: Global, hir: &Hir) -> Result<OwnFilter, AllocError>
        ensures { IfOk result (λ filter. AreFactsOfTree (tree_of hir.now) (own_facts_of filter)) }
    {
        let filter = Box::new(alloc, Filter::of(alloc, hir))?;
        Ok(OwnFilter::Whole(filter))
    }

    /// Whether words are known with which each match begins.
    pub(crate) fn begins_with_words(&self) -> bool {
        match self {
            OwnFilter::Literal(_) => true,
            OwnFilter::Whole(filter) => filter.words().is_some(),
        }
    }

    /// The filter as searches take it.
    pub(crate) fn view(&self) -> PatternFilter<'_>
        ensures { facts_of result ≡ own_facts_of self.now }
    {
        match self {
            OwnFilter::Literal(prefix) => PatternFilter::Literal(*prefix),
            OwnFilter::Whole(filter) => PatternFilter::Whole(filter),
        }
    }
}
