//! A search with the bounded backtracker, from its working memory to its outcome.
ghost use Rattle.std.specs.Prelude.{◌≡◌, ◌<◌, IfOk, IfSome, IsCharBoundary, length};
ghost use Rattle.regex_lite_engine.specs.Backtrack.Searching.{IsFresh};
ghost use Rattle.regex_lite_engine.specs.Graph.Stored.{places_of};
ghost use Rattle.regex_lite_engine.specs.Search.Counting.{IsCountable};
ghost use Rattle.regex_lite_engine.specs.Search.NumberedOutcomes.{match_reported, best_at};
ghost use Rattle.regex_lite_engine.specs.Search.OutcomeOfOne.{TellsOfOne};

use crate::backtrack::run::run;
use crate::backtrack::stack::Stack;
use crate::backtrack::visited::Visited;
use crate::backtrack::walk::Backtracker;
use crate::nfa::table::Table;
use crate::search::one_pattern::OnePattern;
use crate::search::outcome::Outcome;
use crate::steps::{Steps, no_steps};
use std::alloc::{AllocError, Global};

impl<'g> OnePattern<'g> {
    /// The most preferred match from the least start at or after this offset, with this number of
    /// slots, and the cost of the search. It uses the bounded backtracker.
    ///
    /// Condition: the start is on a character boundary.
    ///
    /// # Errors
    ///
    /// If memory runs out, which can happen only before the search begins.
    pub fn search_depth_first(
        &self,
        alloc: Global,
        haystack: &str,
        start: usize,
        slots: usize,
    ) -> Result<(Option<Outcome>, Steps), AllocError>
        requires { IsCharBoundary haystack.now start }
        ensures { IfOk result (TellsOfOne (places_of self.now.table.now) self.now.entry haystack.now
            start slots) }
    {
        let Some(first) = self.first_start(haystack, start) else {
            return Ok((None, no_steps()));
        };
        let mut walk = walk_for(self.table, alloc, haystack, first.at, slots)?;
        let found = run::<true>(&mut walk, self, haystack, first);
        let Backtracker { stack, steps, .. } = walk;
        Ok((outcome_of(found, stack), steps))
    }
}

/// All memory of a search in this table, from this offset, that keeps this number of slots. It is
/// allocated before the search begins.
fn walk_for(
    table: &Table,
    alloc: Global,
    haystack: &str,
    start: usize,
    slots: usize,
) -> Result<Backtracker, AllocError>
    requires places { 0 < length table.now.places }
    requires boundary { IsCharBoundary haystack.now start }
    ensures fresh { IfOk result (λ walk. IsFresh (places_of table.now) haystack.now start walk) }
    ensures width { IfOk result (λ walk. length walk.stack.row ≡ slots) }
    ensures countable { IfOk result (λ _. IsCountable (places_of table.now)) }
{
    let offsets = (haystack.len() - start).checked_add(1).ok_or(AllocError)?;
    let stack_bound = table.stack_bound(slots);
    let room = stack_bound.checked_mul(offsets).ok_or(AllocError)?;
    let visited = Visited::none(alloc, table.places(), start, haystack.len())?;
    let stack = Stack::blank(alloc, room, slots)?;
    Ok(Backtracker {
        visited,
        stack,
        steps: no_steps(),
    })
}

/// The match with these offsets, with the slots of the path that led there.
fn outcome_of(found: Option<(usize, usize)>, stack: Stack) -> Option<Outcome>
    ensures reported { match_reported result ≡ best_at found stack.row }
    ensures slots { IfSome result
        (λ outcome. length outcome.slots.items ≡ length stack.row) }
{
    match found {
        None => None,
        Some((start, end)) => Some(Outcome {
            start,
            end,
            slots: stack.into_row(),
        }),
    }
}
