//! Searches for several patterns at once.
ghost use Rattle.std.specs.Prelude.{◌≡◌, ◌<◌, ◌^◌, ◌⊎◌, ◌↔◌, ℕ, List, IfOk, IfSome};
ghost use Rattle.std.specs.Prelude.{IsTrue, IsCharBoundary, IsUtf8, chars, length};
ghost use Rattle.regex_lite_syntax.specs.Tree.{Tree};
ghost use Rattle.regex_lite_engine.specs.Graph.SideBySide.{AreRegularPatterns};
ghost use Rattle.regex_lite_engine.specs.Graph.StoredList.{IsGraphOfList, table_of_list};
ghost use Rattle.regex_lite_engine.specs.Pikevm.Searching.{IsFresh};
ghost use Rattle.regex_lite_engine.specs.Search.AnswerOfList.{AnyMatchesFrom};
ghost use Rattle.regex_lite_engine.specs.Search.Bounds.{characters_left};
ghost use Rattle.regex_lite_engine.specs.Search.Counting.{CanCount};
ghost use Rattle.regex_lite_engine.specs.Search.Offsets.{search_start};
ghost use Rattle.regex_lite_engine.specs.Search.Outcomes.{IsOutcomeOfList, HasCostOfList};

use crate::nfa::list::GraphList;
use crate::pikevm::cache::{Cache, cache_for};
use crate::pikevm::run::run;
use crate::pikevm::thread_start::{MatchStart, NoStart, ThreadStart};
use crate::search::list_patterns::ListPatterns;
use crate::search::outcome::Outcome;
use crate::steps::{Steps, no_steps};
use std::alloc::{AllocError, Global};

impl GraphList {
    /// The match that starts first at or after this offset, of the pattern with the lowest number
    /// that matches there: that number, the most preferred match of the pattern, and the cost of
    /// the search. The match has this number of slots.
    ///
    /// Condition: the start is above the haystack's length or on a character boundary.
    ///
    /// # Errors
    ///
    /// If memory runs out, which can happen only before the search begins.
    pub fn search(
        &self,
        alloc: Global,
        haystack: &str,
        start: usize,
        slots: usize,
    ) -> Result<(Option<(usize, Outcome)>, Steps), AllocError>
        requires { (length haystack.now < start) ⊎ IsCharBoundary haystack.now start }
        ensures found { IfOk result (λ reported. (trees : List Tree) → AreRegularPatterns trees
            → IsGraphOfList trees self.now → IsOutcomeOfList trees haystack.now start reported.0) }
        ensures slots { IfOk result (λ reported. IfSome reported.0
            (λ found. length found.1.slots.items ≡ slots)) }
        ensures cost { IfOk result (λ reported. (trees : List Tree) → IsGraphOfList trees self.now
            → HasCostOfList trees haystack.now start reported.1) }
        ensures entered { IfOk result
            (λ reported. IfSome reported.0 (λ _. 0 < reported.1.entered)) }
    {
        if start > haystack.len() || self.len() == 0 {
            return Ok((None, no_steps()));
        }
        let (mut patterns, mut cache) = self.search_memory::<MatchStart>(alloc, slots)?;
        run::<_, _, false>(&mut cache, &mut patterns, haystack, start);
        let Cache { walk, best, .. } = cache;
        Ok((best.into_numbered(), walk.steps))
    }

    /// Whether any pattern matches from a position at or after this offset, and the cost of the
    /// search. It stops at the first match that it can confirm.
    ///
    /// Condition: the start is above the haystack's length or on a character boundary.
    ///
    /// # Errors
    ///
    /// If memory runs out, which can happen only before the search begins.
    pub fn search_any(
        &self,
        alloc: Global,
        haystack: &str,
        start: usize,
    ) -> Result<(bool, Steps), AllocError>
        requires { (length haystack.now < start) ⊎ IsCharBoundary haystack.now start }
        ensures found { IfOk result (λ reported. (trees : List Tree) → AreRegularPatterns trees
            → IsGraphOfList trees self.now → (IsTrue reported.0
            ↔ AnyMatchesFrom trees (chars haystack.now) (search_start haystack.now start))) }
        ensures cost { IfOk result (λ reported. (trees : List Tree) → IsGraphOfList trees self.now
            → HasCostOfList trees haystack.now start reported.1) }
        ensures entered { IfOk result (λ reported. IsTrue reported.0 → 0 < reported.1.entered) }
    {
        if start > haystack.len() || self.len() == 0 {
            return Ok((false, no_steps()));
        }
        let (mut patterns, mut cache) = self.search_memory::<NoStart>(alloc, 0)?;
        run::<_, _, true>(&mut cache, &mut patterns, haystack, start);
        let Cache { walk, best, .. } = cache;
        Ok((best.end().is_some(), walk.steps))
    }
    /// The patterns, none of which may start yet, and the memory of a search whose matches have
    /// this number of slots. All of it is allocated here.
    ///
    /// Condition: there is a pattern.
    ///
    /// # Errors
    ///
    /// If memory runs out.
    #[inline(always)]
    pub(super) fn search_memory<S: ThreadStart>(
        &self,
        alloc: Global,
        slots: usize,
    ) -> Result<(ListPatterns<'_>, Cache<S>), AllocError>
        requires { 0 < length self.now.entries }
        ensures list { IfOk result (λ memory. memory.0.list.now ≡ self.now) }
        ensures fresh { IfOk result (λ memory. IsFresh (table_of_list self.now) memory.1) }
        ensures counts { IfOk result (λ _. (haystack : List ℕ) (s : ℕ) → IsUtf8 haystack
            → length haystack < 2 ^ 63 → CanCount (table_of_list self.now)
            (length self.now.entries) (characters_left (chars haystack) s)) }
        ensures width { IfOk result (λ memory. length memory.1.best.row ≡ slots) }
    {
        // Each pattern has a number of 32 bits, and a place, since there are no more patterns.
        let _entries = self.entries();
        let patterns = ListPatterns::new(alloc, self)?;
        let cache = cache_for::<S>(alloc, self.table(), slots)?;
        Ok((patterns, cache))
    }
}
