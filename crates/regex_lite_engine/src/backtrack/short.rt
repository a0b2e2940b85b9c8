//! A bounded backtracker for short haystacks, which reuses its memory.
ghost use Rattle.std.specs.Prelude.{◌≡◌, ◌+◌, ◌-◌, ◌*◌, ◌<◌, ◌↔◌, None, Some, IfOk, IfSome, IsTrue};
ghost use Rattle.std.specs.Prelude.{IsCharBoundary, chars, length, max};
ghost use Rattle.regex_lite_engine.specs.Backtrack.Searching.{IsFresh};
ghost use Rattle.regex_lite_engine.specs.Backtrack.Short.{SearchesShort};
ghost use Rattle.regex_lite_engine.specs.Graph.Stored.{places_of};
ghost use Rattle.regex_lite_engine.specs.Search.NumberedAnswer.{NoneStartsBefore};
ghost use Rattle.regex_lite_engine.specs.Search.Offsets.{position_at};
ghost use Rattle.regex_lite_engine.specs.Search.NumberedOutcomes.{IsNumberedOutcome, best_at};

use crate::backtrack::run::run;
use crate::backtrack::stack::Stack;
use crate::backtrack::visited::Visited;
use crate::backtrack::walk::Backtracker;
use crate::nfa::table::Table;
use crate::search::here::Here;
use crate::search::one_pattern::OnePattern;
use crate::steps::no_steps;
use std::alloc::{AllocError, Global};

/// A bounded backtracker for many short haystacks.
#[derive(Drop)]
pub struct ShortSearcher {
    walk: Backtracker,
    /// The greatest number of offsets of a search, including the end.
    offsets: usize,
}

impl ShortSearcher {
    /// A searcher of this table, for matches with this number of slots. A haystack is short if a
    /// search of it has at most `pairs` pairs of a place and an offset. All memory for them is
    /// allocated here. `None` if the table has so many places that not even a haystack of one byte
    /// is short.
    ///
    /// # Errors
    ///
    /// If memory runs out.
    pub fn new(
        alloc: Global,
        table: &Table,
        slots: usize,
        pairs: usize,
    ) -> Result<Option<ShortSearcher>, AllocError>
        ensures searches { IfOk result (λ made. IfSome made
            (SearchesShort (places_of table.now))) }
        ensures width { IfOk result (λ made. IfSome made
            (λ searcher. length searcher.walk.stack.row ≡ slots)) }
        ensures none { IfOk result (λ made. made ≡ None
            → pairs < max 1 (length (places_of table.now)) * 2) }
    {
        let offsets = pairs / table.places().max(1);
        if offsets < 2 {
            return Ok(None);
        }
        let room = table
            .stack_bound(slots)
            .checked_mul(offsets)
            .ok_or(AllocError)?;
        let walk = Backtracker {
            visited: Visited::with_room(alloc, pairs)?,
            stack: Stack::blank(alloc, room, slots)?,
            steps: no_steps(),
        };
        Ok(Some(ShortSearcher { walk, offsets }))
    }

    /// Whether a search over this many bytes is short enough.
    pub fn suits(&self, bytes: usize) -> bool
        ensures { IsTrue result ↔ (bytes < self.now.offsets) }
    {
        bytes < self.offsets
    }

    /// Returns the span of the match that a one-off search finds from this offset on. Its slots are
    /// in the row.
    ///
    /// Condition: the offset is on a character boundary, the haystack is short enough from there,
    /// and the searcher is one for the table of this pattern.
    pub fn search(
        &mut self,
        pattern: &OnePattern<'_>,
        haystack: &str,
        start: usize,
    ) -> Option<(usize, usize)>
        requires boundary { IsCharBoundary haystack.now start }
        requires short { length haystack.now - start < self.old.offsets }
        requires searches { SearchesShort (places_of pattern.now.table.now) self.old }
        ensures found { IsNumberedOutcome (places_of pattern.now.table.now) (chars haystack.now)
            pattern.now.entry (position_at haystack.now start)
            (best_at result self.new.walk.stack.row) }
        ensures searches { SearchesShort (places_of pattern.now.table.now) self.new }
        ensures width { length self.new.walk.stack.row ≡ length self.old.walk.stack.row }
        ensures offsets { self.new.offsets ≡ self.old.offsets }
    {
        self.restart(pattern.table, haystack, start);
        run::<false>(&mut self.walk, pattern, haystack, Here::at(haystack, start))
    }

    /// Resets the memory for a search from this offset.
    fn restart(&mut self, table: &Table, haystack: &str, start: usize)
        requires some { 0 < length (places_of table.now) }
        requires boundary { IsCharBoundary haystack.now start }
        requires short { length haystack.now - start < self.old.offsets }
        requires searches { SearchesShort (places_of table.now) self.old }
        ensures fresh { IsFresh (places_of table.now) haystack.now start self.new.walk }
        ensures searches { SearchesShort (places_of table.now) self.new }
        ensures width { length self.new.walk.stack.row ≡ length self.old.walk.stack.row }
        ensures offsets { self.new.offsets ≡ self.old.offsets }
    {
        self.walk
            .visited
            .restart(table.places(), start, haystack.len());
        self.walk.stack.clear();
        self.walk.steps = no_steps();
    }

    /// The slots of the match that was found last.
    pub fn row(&self) -> &[Option<usize>]
        ensures { result.now ≡ self.now.walk.stack.row }
    {
        self.walk.stack.row()
    }
}
