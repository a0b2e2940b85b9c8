//! The best match that a search has found so far.
ghost use Rattle.std.specs.Prelude.{◌≡◌, ◌↔◌, [], IfOk, IfSome, IsTrue, None, Some, length};
ghost use Rattle.std.specs.Prelude.{option_map};
ghost use Rattle.regex_lite_engine.specs.Search.NumberedOutcomes.{best_kept, numbered_at, span_of};
ghost use Rattle.regex_lite_engine.specs.Search.NumberedOutcomes.{with_match_start_kept};
ghost use Rattle.regex_lite_engine.specs.Search.Rows.{Row};

use crate::pikevm::slot::Slot;
use crate::pikevm::thread_start::{MatchStart, ThreadStart};
use crate::search::outcome::Outcome;
use std::alloc::{AllocError, Global};
use std::marker::Model;

/// The start of the best match, as far as it is kept, and its end. Its slots are in `row`.
#[derive(Drop)]
pub struct Best<S: ThreadStart> {
    found: Option<(S, usize)>,
    row: Vec<Option<usize>>,
}

impl<S: ThreadStart> Model for Best<S> {
    ghost use Rattle.regex_lite_engine.specs.Pikevm.Machine.{BestState};
    ghost use Rattle.regex_lite_engine.specs.Search.ThreadStarts.{found_reported};

    ghost Value = { BestState };

    ghost view = { λ best. record {
      found = found_reported S.reported best.found;
      row = best.row.items;
    } };
}

impl<S: ThreadStart> Best<S> {
    ghost use Rattle.regex_lite_engine.specs.Pikevm.Stepping.{best_of};

    /// No match yet, with a row of `width` slots.
    ///
    /// # Errors
    ///
    /// If memory runs out.
    pub fn with_width(alloc: Global, width: usize) -> Result<Best<S>, AllocError>
        ensures none { IfOk result (λ best. best_of best ≡ None) }
        ensures width { IfOk result (λ best. length best.row ≡ width) }
    {
        let row = vec![in alloc; None; width]?;
        Ok(Best { found: None, row })
    }

    /// Whether there is no match yet.
    pub fn is_none(&self) -> bool
        ensures { IsTrue result ↔ (best_of self.now ≡ None) }
    {
        self.found.is_none()
    }

    /// Makes this match the best, since the search has found it last.
    pub fn set(&mut self, start: S, end: usize, slots: &[Slot])
        requires { length slots.now ≡ length self.old.row }
        ensures found { best_of self.new ≡ Some (S.reported start, end, slots.now) }
        ensures width { length self.new.row ≡ length self.old.row }
    {
        self.found = Some((start, end));
        copy_slots(slots, &mut self.row);
    }

    /// The end of the match.
    pub fn end(&self) -> Option<usize>
        ensures { result ≡ option_map (λ best. best.1) (best_of self.now) }
    {
        match self.found {
            None => None,
            Some((_, end)) => Some(end),
        }
    }

    /// The slots of the last match that was found.
    pub fn row(&self) -> &[Option<usize>]
        ensures { result.now ≡ self.now.row }
    {
        &self.row
    }

    /// Sets the slots to those that another search has found.
    ///
    /// Condition: there are as many as the row has.
    pub fn set_row(&mut self, row: &[Option<usize>])
        requires { length row.now ≡ length self.old.row }
        ensures { self.new ≡ record self.old { row = row.now } }
    {
        self.row.copy_from_slice(row);
    }

    /// Removes the match. The row is unchanged.
    pub fn clear(&mut self)
        ensures none { best_of self.new ≡ None }
        ensures row { self.new.row ≡ self.old.row }
    {
        self.found = None;
    }
}

impl Best<usize> {
    ghost use Rattle.regex_lite_engine.specs.Pikevm.Stepping.{best_of};
    ghost use Rattle.regex_lite_engine.specs.Search.NumberedOutcomes.{match_reported};
    ghost use Rattle.regex_lite_engine.specs.Search.NumberedOutcomes.{with_start_kept};

    /// Turns this into the match, with its row.
    pub fn into_outcome(self) -> Option<Outcome>
        ensures reported { best_of self ≡ with_start_kept (match_reported result) }
        ensures width { IfSome result (λ outcome. length outcome.slots.items ≡ length self.row) }
    {
        let Best { found, row } = self;
        match found {
            None => None,
            Some((start, end)) => Some(Outcome {
                start,
                end,
                slots: row,
            }),
        }
    }
}

impl Best<MatchStart> {
    ghost use Rattle.regex_lite_engine.specs.Search.NumberedOutcomes.{numbered_reported};
    ghost use Rattle.regex_lite_engine.specs.Pikevm.Stepping.{best_of};

    /// The start of the match with the number of its pattern, and its end.
    pub fn found(&self) -> Option<(MatchStart, usize)>
        ensures { best_of self.now ≡ best_kept result self.now.row }
    {
        self.found
    }

    /// The number of the match's pattern, and the match's span.
    pub fn numbered_span(&self) -> Option<(usize, (usize, usize))>
        ensures { best_of self.now ≡ with_match_start_kept (numbered_at result self.now.row) }
    {
        numbered(self.found)
    }

    /// Turns this into the match, with its row and the number of its pattern.
    pub fn into_numbered(self) -> Option<(usize, Outcome)>
        ensures reported { best_of self ≡ with_match_start_kept (numbered_reported result) }
        ensures width { IfSome result
            (λ reported. length reported.1.slots.items ≡ length self.row) }
    {
        let Best { found, row } = self;
        let (match_start, end) = found?;
        let outcome = Outcome {
            start: match_start.at,
            end,
            slots: row,
        };
        Some((match_start.number as usize, outcome))
    }

    /// Makes this match the best, or removes the match if this is `None`.
    ///
    /// Condition: no slots are kept.
    pub fn keep(&mut self, found: Option<(MatchStart, usize)>)
        requires { length self.old.row ≡ 0 }
        ensures best { best_of self.new ≡ best_kept found [] }
        ensures row { self.new.row ≡ self.old.row }
    {
        self.found = found;
    }
}

/// The span of the match.
pub fn span_of(found: Option<(MatchStart, usize)>) -> Option<(usize, usize)>
    ensures { result ≡ span_of found }
{
    let (match_start, end) = found?;
    Some((match_start.at, end))
}

/// The number of the match's pattern, and the match's span.
pub fn numbered(found: Option<(MatchStart, usize)>) -> Option<(usize, (usize, usize))>
    ensures { (row : Row) → best_kept found row ≡ with_match_start_kept (numbered_at result row) }
{
    let (match_start, end) = found?;
    Some((match_start.number as usize, (match_start.at, end)))
}

/// Writes the content of each slot.
fn copy_slots(slots: &[Slot], row: &mut [Option<usize>])
    requires { length slots.now ≡ length row.old }
    ensures { row.new ≡ slots.now }
{
    'slots: for k in 0..slots.len() {
        row[k] = slots[k].get();
    }
}
