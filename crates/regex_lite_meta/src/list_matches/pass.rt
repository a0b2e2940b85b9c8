//! One pass over a haystack for all patterns of a list, by their prefix index.
ghost use Rattle.std.specs.Prelude.{◌≡◌, ◌+◌, ◌<◌, ℕ, List, IfErr, IfOk, IsCharBoundary, IsTrue};
ghost use Rattle.std.specs.Prelude.{chars, false, length, slice_index, slice_index_or};
ghost use Rattle.regex_lite_syntax.specs.Tree.{Tree};
ghost use Rattle.regex_lite_engine.specs.Graph.SideBySide.{AreRegularPatterns};
ghost use Rattle.regex_lite_engine.specs.Graph.StoredList.{IsGraphOfList, table_of_list};
ghost use Rattle.regex_lite_engine.specs.Search.AnswerOfList.{TellsWhich};
ghost use Rattle.regex_lite_engine.specs.Search.Offsets.{position_at};
ghost use Rattle.regex_lite_engine.specs.Search.Here.{IsHere};
ghost use Rattle.regex_lite_meta.specs.ListMatches.{AreKeptFor, NeedsNoMemory};
ghost use Rattle.regex_lite_meta.specs.ListPass.{PassKnowsAll, EndsPass, IsPassOf, IsReportedFrom};

use crate::list_matches::kept::Kept;
use crate::list_matches::status::{Rest, Status};
use crate::strategy::Credit;
use regex_lite_engine::nfa::list::GraphList;
use regex_lite_engine::search::here::Here;
use regex_lite_engine::search::list_patterns::ListPatterns;
use regex_lite_engine::search::patterns::{Patterns, pass_over};
use std::alloc::{AllocError, Global};

/// The patterns of a list, and what a pass over a haystack knows of each of them.
#[derive(Drop)]
pub(crate) struct ListPass<'g> {
    patterns: ListPatterns<'g>,
    /// The status of each pattern, by its number.
    statuses: Vec<Status>,
}

impl<'g> ListPass<'g> {
    /// All memory of their own that passes for the patterns of this list need.
    ///
    /// # Errors
    ///
    /// If memory runs out.
    pub(crate) fn new(alloc: Global, list: &'g GraphList) -> Result<ListPass<'g>, AllocError>
        ensures { IfOk result (IsPassOf list.now) }
    {
        Ok(ListPass {
            patterns: ListPatterns::new(alloc, list)?,
            statuses: vec![in alloc; Status::Left(0); list.len()]?,
        })
    }

    /// Finds which of the patterns match, by a pass over the haystack. Patterns that the pass
    /// leaves undecided are searched for one by one.
    pub(crate) fn search(
        &mut self,
        list: &GraphList,
        kept: &mut Kept,
        haystack: &str,
        start: usize,
        matched: &mut [bool],
    ) -> Result<(), AllocError>
        requires pass { IsPassOf list.now self.old }
        requires boundary { IsCharBoundary haystack.now start }
        requires all { length matched.old ≡ length list.now.entries }
        requires kept { AreKeptFor list.now kept.old }
        ensures found { IfOk result (λ _. (trees : List Tree) → AreRegularPatterns trees
            → IsGraphOfList trees list.now
            → TellsWhich trees (chars haystack.now) (position_at haystack.now start)
            matched.new) }
        ensures length { length matched.new ≡ length matched.old }
        ensures pass { IsPassOf list.now self.new }
        ensures kept { AreKeptFor list.now kept.new }
        ensures ready { NeedsNoMemory kept.old → NeedsNoMemory kept.new × IfErr result (λ _. ⊥) }
    {
        self.statuses.fill(Status::Open(start));
        let left = self.go(list, kept, haystack, Here::at(haystack, start))?;
        self.finish(list, kept, haystack, left, matched)
    }

    /// Continues from here, from one position at which patterns may start to the next, and tries
    /// them there. Returns the position at which it abandons the pass. `None` if it reaches the
    /// haystack's end.
    fn go(
        &mut self,
        list: &GraphList,
        kept: &mut Kept,
        haystack: &str,
        from: Here,
    ) -> Result<Option<Here>, AllocError>
        requires pass { IsPassOf list.now self.old }
        requires passed { (s p : ℕ) × IsHere (chars haystack.now) p from
            × PassKnowsAll list.now haystack.now s p self.old.statuses.items }
        requires kept { AreKeptFor list.now kept.old }
        ensures passed { IfOk result (λ left. (s p : ℕ) → IsHere (chars haystack.now) p from
            → PassKnowsAll list.now haystack.now s p self.old.statuses.items
            → EndsPass list.now haystack.now s self.new.statuses.items left) }
        ensures pass { IsPassOf list.now self.new }
        ensures kept { AreKeptFor list.now kept.new }
        ensures ready { NeedsNoMemory kept.old → NeedsNoMemory kept.new × IfErr result (λ _. ⊥) }
    {
        let mut credit = Credit::of(list.len(), haystack.len() - from.at);
        let mut here = from;
        'stops: loop {
            let stop = pass_over(&self.patterns, haystack, here);
            credit.earn(here.at, stop.at);
            if !self.try_each(list, kept, haystack, stop, &mut credit)? {
                return Ok(Some(stop));
            }
            if stop.after.is_none() {
                return Ok(None);
            }
            here = stop.next(haystack);
            if credit.is_spent() {
                return Ok(Some(here));
            }
        }
    }

    /// Tries the patterns that may start here. Returns whether it tried all of them.
    fn try_each(
        &mut self,
        list: &GraphList,
        kept: &mut Kept,
        haystack: &str,
        here: Here,
        credit: &mut Credit,
    ) -> Result<bool, AllocError>
        requires here { (p : ℕ) × IsHere (chars haystack.now) p here }
        requires pass { IsPassOf list.now self.old }
        requires kept { AreKeptFor list.now kept.old }
        ensures tried { IfOk result (λ all. (s p : ℕ) → IsHere (chars haystack.now) p here
            → PassKnowsAll list.now haystack.now s p self.old.statuses.items
            → PassKnowsAll list.now haystack.now s p self.new.statuses.items
            × (IsTrue all → PassKnowsAll list.now haystack.now s (p + 1) self.new.statuses.items)) }
        ensures pass { IsPassOf list.now self.new }
        ensures kept { AreKeptFor list.now kept.new }
        ensures ready { NeedsNoMemory kept.old → NeedsNoMemory kept.new × IfErr result (λ _. ⊥) }
    {
        let ListPass { patterns, statuses } = self;
        patterns.come_to(haystack, here);
        credit.pay_for_stop(patterns.len());
        'listed: for k in 0..patterns.len() {
            let number = patterns.start(k).number as usize;
            if statuses[number].is_due(here.at) {
                if credit.is_spent() {
                    return Ok(false);
                }
                let status = kept.try_at(list, number, haystack, here)?;
                statuses[number] = status;
                credit.pay_for_try(status);
            }
        }
        Ok(true)
    }

    /// Finds which patterns match, after a pass that was abandoned here or that reached the
    /// haystack's end.
    fn finish(
        &self,
        list: &GraphList,
        kept: &mut Kept,
        haystack: &str,
        left: Option<Here>,
        matched: &mut [bool],
    ) -> Result<(), AllocError>
        requires all { length matched.old ≡ length list.now.entries }
        requires kept { AreKeptFor list.now kept.old }
        requires passed { (s : ℕ)
            × EndsPass list.now haystack.now s self.now.statuses.items left }
        ensures reported { IfOk result (λ _. (s : ℕ)
            → EndsPass list.now haystack.now s self.now.statuses.items left
            → (number : ℕ) → number < length list.now.entries
            → IsReportedFrom (table_of_list list.now) haystack.now
            (slice_index list.now.entries number) s (slice_index_or matched.new number false)) }
        ensures length { length matched.new ≡ length matched.old }
        ensures kept { AreKeptFor list.now kept.new }
        ensures ready { NeedsNoMemory kept.old → NeedsNoMemory kept.new × IfErr result (λ _. ⊥) }
    {
        for number in 0..list.len() {
            matched[number] = match self.statuses[number].rest(left) {
                Rest::Known(found) => found,
                Rest::From(offset) => kept.search_one(list, number, haystack, offset)?.0,
            };
        }
        Ok(())
    }
}
