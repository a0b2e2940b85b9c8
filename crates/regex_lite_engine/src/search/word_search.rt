//! Searches for patterns that are plain words.
ghost use Rattle.std.specs.Prelude.{◌≡◌, ◌+◌, ◌<◌, ◌∷◌, [], ℕ, IfSome, IsCharBoundary, List};
ghost use Rattle.std.specs.Prelude.{chars, length};
ghost use Rattle.regex_lite_syntax.specs.Tree.{Tree};
ghost use Rattle.regex_lite_engine.specs.Graph.Parts.{IsOwnPart, row_of};
ghost use Rattle.regex_lite_engine.specs.Graph.Renumbered.{arrows_of};
ghost use Rattle.regex_lite_engine.specs.Graph.SideBySide.{AreRegularPatterns};
ghost use Rattle.regex_lite_engine.specs.Graph.Stored.{places_of};
ghost use Rattle.regex_lite_engine.specs.Graph.StoredList.{IsGraphOfList};
ghost use Rattle.regex_lite_engine.specs.Search.Bounds.{IsBoundedBy};
ghost use Rattle.regex_lite_engine.specs.Search.Filters.{facts_of};
ghost use Rattle.regex_lite_engine.specs.Search.Offsets.{position_at};
ghost use Rattle.regex_lite_engine.specs.Search.OutcomeOfOne.{TellsEndOfOne, TellsOfOne};
ghost use Rattle.regex_lite_engine.specs.Search.Outcomes.{HasCostOfList, IsOutcomeOfList};
ghost use Rattle.regex_lite_engine.specs.Search.Starts.{DoWordsAnswer};

use crate::nfa::list::GraphList;
use crate::search::one_pattern::OnePattern;
use crate::search::outcome::Outcome;
use crate::steps::{Steps, no_steps};
use std::alloc::Global;

impl<'g> OnePattern<'g> {
    /// The most preferred match from the least start at or after this offset, without slots, and
    /// the cost of the search: a match counts as one place entered. `None` if the pattern isn't
    /// plain words.
    ///
    /// Condition: the start is on a character boundary.
    #[inline(always)]
    pub fn search_words(
        &self,
        alloc: Global,
        haystack: &str,
        start: usize,
    ) -> Option<(Option<Outcome>, Steps)>
        requires boundary { IsCharBoundary haystack.now start }
        requires answers { DoWordsAnswer (places_of self.now.table.now) self.now.entry
            (facts_of self.now.filter) }
        ensures reported { IfSome result (TellsOfOne (places_of self.now.table.now) self.now.entry
            haystack.now start 0) }
        ensures own { IfSome result (λ reported. (low len : ℕ)
            → IsOwnPart (places_of self.now.table.now) (self.now.entry ∷ []) low len
            → IsBoundedBy len (arrows_of (row_of (places_of self.now.table.now) low len) + 1)
            (chars haystack.now) (position_at haystack.now start) reported.1.tried
            reported.1.entered reported.1.looked) }
    {
        let words = self.whole_words()?;
        let Some((from, end)) = words.find_span(haystack.as_bytes(), start) else {
            return Some((None, no_steps()));
        };
        let outcome = Outcome {
            start: from,
            end,
            slots: Vec::new(alloc),
        };
        Some((Some(outcome), steps_of_match()))
    }

    /// The least end of any match that starts at or after this offset, and the cost of the search:
    /// a match counts as one place entered. `None` if the pattern isn't a single word.
    ///
    /// Condition: the start is on a character boundary.
    #[inline(always)]
    pub fn search_word_end(&self, haystack: &str, start: usize) -> Option<(Option<usize>, Steps)>
        requires boundary { IsCharBoundary haystack.now start }
        requires answers { DoWordsAnswer (places_of self.now.table.now) self.now.entry
            (facts_of self.now.filter) }
        ensures { IfSome result (TellsEndOfOne (places_of self.now.table.now) self.now.entry
            haystack.now start) }
    {
        let words = self.whole_words()?;
        if !words.is_one() {
            return None;
        }
        let Some((_, end)) = words.find_span(haystack.as_bytes(), start) else {
            return Some((None, no_steps()));
        };
        Some((Some(end), steps_of_match()))
    }
}

impl GraphList {
    /// The match that starts first at or after this offset, of the pattern with the lowest number
    /// that matches there, without slots: that number, the most preferred match of the pattern, and
    /// the cost of the search: a match counts as one place entered. `None` if a pattern isn't plain
    /// words.
    ///
    /// Condition: the start is on a character boundary.
    pub fn search_words(
        &self,
        alloc: Global,
        haystack: &str,
        start: usize,
    ) -> Option<(Option<(usize, Outcome)>, Steps)>
        requires boundary { IsCharBoundary haystack.now start }
        ensures found { IfSome result (λ reported. (trees : List Tree) → AreRegularPatterns trees
            → IsGraphOfList trees self.now → IsOutcomeOfList trees haystack.now start reported.0) }
        ensures slots { IfSome result (λ reported. IfSome reported.0
            (λ found. length found.1.slots.items ≡ 0)) }
        ensures cost { IfSome result (λ reported. (trees : List Tree) → IsGraphOfList trees self.now
            → HasCostOfList trees haystack.now start reported.1) }
        ensures entered { IfSome result
            (λ reported. IfSome reported.0 (λ _. 0 < reported.1.entered)) }
    {
        let words = self.words()?;
        // Each entry is a place of the graph.
        let _entries = self.entries();
        match words.find_span(haystack.as_bytes(), start) {
            None => Some((None, no_steps())),
            Some((number, (from, end))) => {
                let outcome = Outcome {
                    start: from,
                    end,
                    slots: Vec::new(alloc),
                };
                Some((Some((number, outcome)), steps_of_match()))
            }
        }
    }
}

/// The cost of a search by words that finds a match: one place entered.
#[inline(always)]
fn steps_of_match() -> Steps
    ensures { result ≡ record { tried = 1; entered = 1; looked = 0 } }
{
    let mut steps = no_steps();
    steps.count_try();
    steps.count_entry();
    steps
}
