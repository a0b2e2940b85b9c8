//! A search with the PikeVM, from its working memory to its outcome.
ghost use Rattle.std.specs.Prelude.{IfOk, IsCharBoundary};
ghost use Rattle.regex_lite_engine.specs.Graph.Stored.{places_of};
ghost use Rattle.regex_lite_engine.specs.Search.OutcomeOfOne.{TellsOfOne};

use crate::pikevm::cache::{Cache, cache_for};
use crate::pikevm::run::run;
use crate::search::one_pattern::OnePattern;
use crate::search::outcome::Outcome;
use crate::steps::Steps;
use std::alloc::{AllocError, Global};

impl<'g> OnePattern<'g> {
    /// The most preferred match from the least start at or after this offset, with this number of
    /// slots, and the cost of the search. It uses the PikeVM.
    ///
    /// Condition: the start is on a character boundary.
    ///
    /// # Errors
    ///
    /// If memory runs out, which can happen only before the search begins.
    pub fn search_in_step(
        &mut self,
        alloc: Global,
        haystack: &str,
        start: usize,
        slots: usize,
    ) -> Result<(Option<Outcome>, Steps), AllocError>
        requires { IsCharBoundary haystack.now start }
        ensures { IfOk result (TellsOfOne (places_of self.old.table.now) self.old.entry haystack.now
            start slots) }
    {
        let mut cache = cache_for::<usize>(alloc, self.table, slots)?;
        run::<_, _, false>(&mut cache, self, haystack, start);
        let Cache { walk, best, .. } = cache;
        Ok((best.into_outcome(), walk.steps))
    }
}
