//! Searches begin with cached transitions: those that end there don't touch the PikeVM's memory.
ghost use Rattle.std.specs.Prelude.{◌≡◌, ℕ, None, chars, true};
ghost use Rattle.regex_lite_meta.specs.LazyDfa.Scanning.{ComesTo};
ghost use Rattle.regex_lite_meta.specs.LazyDfa.Starting.{CanGoOn, GoesOnFrom, HasGoneOn};
ghost use Rattle.regex_lite_engine.specs.Search.Offsets.{position_at};
ghost use Rattle.regex_lite_engine.specs.Search.Starts.{AreAllStarts};

use crate::lazy_dfa::automaton::LazyDfa;
use crate::lazy_dfa::run::Position;
use crate::lazy_dfa::scan::DfaPosition;
use regex_lite_engine::pikevm::cache::{Cache, restart};
use regex_lite_engine::pikevm::thread_start::MatchStart;
use regex_lite_engine::search::here::Here;
use regex_lite_engine::search::patterns::Patterns;

impl LazyDfa {
    /// The result of a search that continues at this offset: the most preferred match or, if
    /// EARLIEST, a match with the least end, whose start is meaningless. If too many transitions
    /// don't fit the cache, the error is the search's position.
    ///
    /// Condition: the offset is on a character boundary.
    // Inlined, and the two functions that it calls last are not: most searches need neither, and
    // calling this one would copy the result once more.
    #[inline(always)]
    pub(super) fn search<P: Patterns, const EARLIEST: bool>(
        &mut self,
        patterns: &P,
        cache: &mut Cache<MatchStart>,
        haystack: &str,
        from: usize,
    ) -> Result<Option<(MatchStart, usize)>, Position>
        requires all { AreAllStarts (P.table patterns.now) (P.entries patterns.now)
            (P.starts patterns.now) }
        requires on { CanGoOn (P.table patterns.now) (P.entries patterns.now) haystack.now from
            self.old cache.old }
        ensures { HasGoneOn (P.table patterns.now) (P.entries patterns.now) haystack.now from
            EARLIEST result self.new cache.new }
    {
        let Some(state) = self.start_state(haystack, from) else {
            return self.search_anew::<_, EARLIEST>(patterns, cache, haystack, from);
        };
        let mut at = DfaPosition {
            at: from,
            state,
            first: from,
            start_state_at: from,
            best: None,
        };
        if self.run::<P, EARLIEST>(patterns, haystack, &mut at) {
            return Ok(at.best);
        }
        self.search_on::<_, EARLIEST>(patterns, cache, haystack, from, at)
    }

    /// Continues as `search` does, from where `run` stopped.
    #[inline(never)]
    fn search_on<P: Patterns, const EARLIEST: bool>(
        &mut self,
        patterns: &P,
        cache: &mut Cache<MatchStart>,
        haystack: &str,
        from: usize,
        stopped: DfaPosition,
    ) -> Result<Option<(MatchStart, usize)>, Position>
        requires all { AreAllStarts (P.table patterns.now) (P.entries patterns.now)
            (P.starts patterns.now) }
        requires on { CanGoOn (P.table patterns.now) (P.entries patterns.now) haystack.now from
            self.old cache.old }
        requires scanned { (s : ℕ)
            → GoesOnFrom (P.table patterns.now) (P.entries patterns.now) haystack.now from s
            → ComesTo (P.table patterns.now) (P.entries patterns.now) (chars haystack.now) s
            (position_at haystack.now from) from self.old stopped }
        requires none { EARLIEST ≡ true → stopped.best ≡ None }
        ensures { HasGoneOn (P.table patterns.now) (P.entries patterns.now) haystack.now from
            EARLIEST result self.new cache.new }
    {
        let mut to = stopped;
        if self.scan_on::<P, EARLIEST>(patterns, haystack, &mut to) {
            return Ok(to.best);
        }
        restart(cache);
        let mut at = Position::begun(Here::at(haystack, from));
        self.resume(patterns, cache, haystack, &mut at, to);
        self.begin_anew(patterns, cache, haystack, &mut at, to);
        self.search_while_it_pays::<_, EARLIEST>(patterns, cache, haystack, at, 0)
    }

    /// Does what `search` does if its start state isn't cached.
    #[inline(never)]
    fn search_anew<P: Patterns, const EARLIEST: bool>(
        &mut self,
        patterns: &P,
        cache: &mut Cache<MatchStart>,
        haystack: &str,
        from: usize,
    ) -> Result<Option<(MatchStart, usize)>, Position>
        requires all { AreAllStarts (P.table patterns.now) (P.entries patterns.now)
            (P.starts patterns.now) }
        requires on { CanGoOn (P.table patterns.now) (P.entries patterns.now) haystack.now from
            self.old cache.old }
        ensures { HasGoneOn (P.table patterns.now) (P.entries patterns.now) haystack.now from
            EARLIEST result self.new cache.new }
    {
        restart(cache);
        let begun = Position::begun(Here::at(haystack, from));
        self.search_while_it_pays::<_, EARLIEST>(patterns, cache, haystack, begun, 0)
    }
}
