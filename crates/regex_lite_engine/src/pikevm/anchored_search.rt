//! Anchored searches: they find a match that starts where the search starts.
ghost use Rattle.std.specs.Prelude.{◌≡◌, ◌<◌, ◌⊎◌, ◌↔◌, List, IfOk, IfSome, IsCharBoundary, IsTrue};
ghost use Rattle.std.specs.Prelude.{chars, false, length};
ghost use Rattle.regex_lite_syntax.specs.Tree.{Tree};
ghost use Rattle.regex_lite_engine.specs.Graph.SideBySide.{AreRegularPatterns};
ghost use Rattle.regex_lite_engine.specs.Graph.Stored.{places_of};
ghost use Rattle.regex_lite_engine.specs.Graph.StoredList.{IsGraphOfList};
ghost use Rattle.regex_lite_engine.specs.Search.AnswerAt.{AnyMatchesAt};
ghost use Rattle.regex_lite_engine.specs.Search.Offsets.{position_at, search_start};
ghost use Rattle.regex_lite_engine.specs.Search.OutcomeOfOne.{TellsAnyOfOneAt, TellsOfOneAt};
ghost use Rattle.regex_lite_engine.specs.Search.Outcomes.{HasCostOfList, IsOutcomeAtOfList};
ghost use Rattle.regex_lite_engine.specs.Search.Starts.{IsDeadAt};

use crate::nfa::list::GraphList;
use crate::pikevm::anchored::run_anchored;
use crate::pikevm::cache::{Cache, cache_for};
use crate::pikevm::thread_start::{MatchStart, NoStart};
use crate::search::here::Here;
use crate::search::one_pattern::OnePattern;
use crate::search::outcome::Outcome;
use crate::steps::{Steps, no_steps};
use std::alloc::{AllocError, Global};

impl<'g> OnePattern<'g> {
    /// The most preferred match that starts at this offset, with this number of slots, and the cost
    /// of the search. If WHOLE, only matches that end where the haystack ends count.
    ///
    /// Condition: the start is on a character boundary.
    ///
    /// # Errors
    ///
    /// If memory runs out, which can happen only before the search begins.
    pub fn search_anchored<const WHOLE: bool>(
        &mut self,
        alloc: Global,
        haystack: &str,
        start: usize,
        slots: usize,
    ) -> Result<(Option<Outcome>, Steps), AllocError>
        requires { IsCharBoundary haystack.now start }
        ensures { IfOk result (TellsOfOneAt (places_of self.old.table.now) self.old.entry
            WHOLE haystack.now start slots) }
    {
        if !self.may_start_at(haystack, start) {
            return Ok((None, no_steps()));
        }
        let mut cache = cache_for::<usize>(alloc, self.table, slots)?;
        run_anchored::<_, _, false, WHOLE>(&mut cache, self, haystack, start);
        let Cache { walk, best, .. } = cache;
        Ok((best.into_outcome(), walk.steps))
    }

    /// Whether a match starts at this offset, and the cost of the search. If WHOLE, only matches
    /// that end where the haystack ends count. The search stops at the first such match that it can
    /// confirm.
    ///
    /// Condition: the start is on a character boundary.
    ///
    /// # Errors
    ///
    /// If memory runs out, which can happen only before the search begins.
    pub fn search_any_anchored<const WHOLE: bool>(
        &mut self,
        alloc: Global,
        haystack: &str,
        start: usize,
    ) -> Result<(bool, Steps), AllocError>
        requires { IsCharBoundary haystack.now start }
        ensures { IfOk result (TellsAnyOfOneAt (places_of self.old.table.now) self.old.entry
            WHOLE haystack.now start) }
    {
        if !self.may_start_at(haystack, start) {
            return Ok((false, no_steps()));
        }
        let mut cache = cache_for::<NoStart>(alloc, self.table, 0)?;
        run_anchored::<_, _, true, WHOLE>(&mut cache, self, haystack, start);
        let Cache { walk, best, .. } = cache;
        Ok((best.end().is_some(), walk.steps))
    }

    /// Whether a match may start at this offset. This is checked before any memory is allocated.
    fn may_start_at(&self, haystack: &str, start: usize) -> bool
        requires { IsCharBoundary haystack.now start }
        ensures { result ≡ false → IsDeadAt (places_of self.now.table.now) (chars haystack.now)
            self.now.entry (position_at haystack.now start) }
    {
        self.filter.may_start(haystack, Here::at(haystack, start))
    }
}

impl GraphList {
    /// The match that starts at this offset, of the pattern with the lowest number that matches
    /// there: that number, the most preferred match of the pattern, and the cost of the search. The
    /// match has this number of slots. If WHOLE, only matches that end where the haystack ends
    /// count.
    ///
    /// Condition: the start is above the haystack's length or on a character boundary.
    ///
    /// # Errors
    ///
    /// If memory runs out, which can happen only before the search begins.
    pub fn search_anchored<const WHOLE: bool>(
        &self,
        alloc: Global,
        haystack: &str,
        start: usize,
        slots: usize,
    ) -> Result<(Option<(usize, Outcome)>, Steps), AllocError>
        requires { (length haystack.now < start) ⊎ IsCharBoundary haystack.now start }
        ensures found { IfOk result (λ reported. (trees : List Tree) → AreRegularPatterns trees
            → IsGraphOfList trees self.now → IsOutcomeAtOfList WHOLE trees
            haystack.now start reported.0) }
        ensures slots { IfOk result (λ reported. IfSome reported.0
            (λ found. length found.1.slots.items ≡ slots)) }
        ensures cost { IfOk result (λ reported. (trees : List Tree) → IsGraphOfList trees self.now
            → HasCostOfList trees haystack.now start reported.1) }
        ensures entered { IfOk result
            (λ reported. IfSome reported.0 (λ _. 0 < reported.1.entered)) }
    {
        if start > haystack.len() || self.len() == 0 {
            return Ok((None, no_steps()));
        }
        let (mut patterns, mut cache) = self.search_memory::<MatchStart>(alloc, slots)?;
        run_anchored::<_, _, false, WHOLE>(&mut cache, &mut patterns, haystack, start);
        let Cache { walk, best, .. } = cache;
        Ok((best.into_numbered(), walk.steps))
    }

    /// Whether a match of any pattern starts at this offset, and the cost of the search. If WHOLE,
    /// only matches that end where the haystack ends count. The search stops at the first such
    /// match that it can confirm.
    ///
    /// Condition: the start is above the haystack's length or on a character boundary.
    ///
    /// # Errors
    ///
    /// If memory runs out, which can happen only before the search begins.
    pub fn search_any_anchored<const WHOLE: bool>(
        &self,
        alloc: Global,
        haystack: &str,
        start: usize,
    ) -> Result<(bool, Steps), AllocError>
        requires { (length haystack.now < start) ⊎ IsCharBoundary haystack.now start }
        ensures found { IfOk result (λ reported. (trees : List Tree) → AreRegularPatterns trees
            → IsGraphOfList trees self.now → (IsTrue reported.0
            ↔ AnyMatchesAt WHOLE trees (chars haystack.now)
            (search_start haystack.now start))) }
        ensures cost { IfOk result (λ reported. (trees : List Tree) → IsGraphOfList trees self.now
            → HasCostOfList trees haystack.now start reported.1) }
        ensures entered { IfOk result (λ reported. IsTrue reported.0 → 0 < reported.1.entered) }
    {
        if start > haystack.len() || self.len() == 0 {
            return Ok((false, no_steps()));
        }
        let (mut patterns, mut cache) = self.search_memory::<NoStart>(alloc, 0)?;
        run_anchored::<_, _, true, WHOLE>(&mut cache, &mut patterns, haystack, start);
        let Cache { walk, best, .. } = cache;
        Ok((best.end().is_some(), walk.steps))
    }
}
