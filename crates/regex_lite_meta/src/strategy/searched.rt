//! What is searched, as far as the choice of the engine depends on it: one pattern or several.
ghost use Rattle.std.specs.Prelude.{◌≡◌};

use regex_lite_engine::nfa::list::GraphList;
use regex_lite_engine::nfa::table::Table;
use regex_lite_engine::search::pattern_filter::PatternFilter;
use regex_lite_syntax::prefilter::{Filter, Prefilter, PrefixIndex};

/// The graph of one pattern or of several, and where their matches can begin. What takes time to
/// compute is computed only when it is needed.
#[derive(Clone, Copy)]
pub(crate) struct Searched<'g> {
    pub(super) table: &'g Table,
    prefixes: PrefixesOf<'g>,
}

/// What is known about the characters with which a match begins.
#[derive(Clone, Copy)]
enum PrefixesOf<'g> {
    One(PatternFilter<'g>),
    Several(&'g PrefixIndex),
}

/// How selective the starts of matches are.
#[derive(Clone, Copy)]
pub(super) enum Selectivity {
    /// A match begins with one of many characters.
    Often,
    /// A match begins with a character of a range, which is searched for.
    InRange,
    /// A match begins with one of a few bytes, of a few pairs of bytes, or of some words, which are
    /// searched for.
    Rarely,
    /// A match may begin with any character, since the pattern reads none.
    Unread,
    /// A match begins at few positions, which an index of several patterns, two known characters or
    /// whole words find.
    Indexed,
}

impl<'g> Searched<'g> {
    /// One pattern, by itself.
    #[inline(always)]
    pub(crate) fn one(table: &'g Table, filter: PatternFilter<'g>) -> Searched<'g>
        ensures { result.table.now ≡ table.now }
    {
        Searched {
            table,
            prefixes: PrefixesOf::One(filter),
        }
    }

    /// Several patterns.
    #[inline(always)]
    pub(crate) fn several(list: &'g GraphList) -> Searched<'g>
        ensures { result.table.now.places ≡ list.now.places }
    {
        Searched {
            table: list.table(),
            prefixes: PrefixesOf::Several(list.prefixes()),
        }
    }

    /// How selective the starts of matches are.
    #[inline(always)]
    pub(super) fn selectivity(&self) -> Selectivity {
        match self.prefixes {
            PrefixesOf::One(PatternFilter::Whole(filter)) => self.selectivity_by(filter),
            // A pattern that begins with two known characters is skipped at most positions.
            PrefixesOf::One(PatternFilter::Literal(_)) => Selectivity::Indexed,
            PrefixesOf::Several(prefixes) => {
                if prefixes.is_unselective() {
                    Selectivity::Often
                } else {
                    Selectivity::Indexed
                }
            }
        }
    }

    /// How selective the starts of matches of one pattern are.
    #[inline(always)]
    fn selectivity_by(&self, filter: &Filter) -> Selectivity {
        if filter.whole_words().is_some() {
            return Selectivity::Indexed;
        }
        if filter.words().is_some() {
            return Selectivity::Rarely;
        }
        match filter.prefilter() {
            None if self.table.reading() == 0 => Selectivity::Unread,
            None => Selectivity::Often,
            Some(Prefilter::Range(_, _)) => Selectivity::InRange,
            Some(_) => Selectivity::Rarely,
        }
    }

    /// Whether the graph reads characters, and something in it branches.
    pub(super) fn branches(&self) -> bool {
        self.table.reading() > 0 && self.table.arrows() >= self.table.places()
    }

    /// Whether there are several patterns, or none.
    #[inline(always)]
    pub(super) fn are_several(&self) -> bool {
        match self.prefixes {
            PrefixesOf::One(_) => false,
            PrefixesOf::Several(_) => true,
        }
    }
}
