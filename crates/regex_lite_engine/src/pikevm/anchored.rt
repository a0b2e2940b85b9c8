//! An anchored search of the PikeVM: all its threads begin at one start.
//!
//! It costs what its longest path costs, wherever the next match is, and its memory depends on the
//! pattern alone. Where the first character rules a match out, no memory is requested. A lazy DFA
//! that starts patterns everywhere would go on to the next match, so that calls in a row without a
//! match would take the square of the text.
//!
//! WHOLE is a constant, and so a search without it has no test for it. With it a path that
//! completes a match before the haystack's end ends there without one, so that less preferred paths
//! go on. The depth-first search stops at the first match, and a cached transition completes a
//! match wherever it ends, so each would need the same condition. Nor is `\A(?:..)\z` written
//! around the pattern: a regex would hold two graphs, and not every accepted pattern is accepted
//! inside it.
ghost use Rattle.std.specs.Prelude.{◌≡◌, ◌+◌, ◌<◌, ℕ, IfOk, IfSome, IsCharBoundary, None};
ghost use Rattle.std.specs.Prelude.{chars, length};
ghost use Rattle.regex_lite_engine.specs.Graph.Renumbered.{arrows_of};
ghost use Rattle.regex_lite_engine.specs.Search.Bounds.{IsBoundedBy, StaysCounted, characters_left};
ghost use Rattle.regex_lite_engine.specs.Search.Offsets.{position_at};
ghost use Rattle.regex_lite_engine.specs.Search.NumberedOutcomes.{IsFoundTo};
ghost use Rattle.regex_lite_engine.specs.Pikevm.Searching.{IsFresh, IsBetween};
ghost use Rattle.regex_lite_engine.specs.Search.Counting.{CanCount};
ghost use Rattle.regex_lite_engine.specs.Pikevm.Stepping.{best_of};

use crate::pikevm::cache::Cache;
use crate::pikevm::run::is_done;
use crate::pikevm::thread_start::ThreadStart;
use crate::search::here::Here;
use crate::search::patterns::Anchored;

/// Steps from position to position until the match that starts at this offset is known: the most
/// preferred one or, if EARLIEST, any. If WHOLE, only matches that end where the haystack ends
/// count. The search stops when no thread is left.
///
/// Condition: the start is on a character boundary, the cache is new, or was reset, and was made
/// for the table of the patterns, and no count of the search can overflow.
pub fn run_anchored<S: ThreadStart, P: Anchored, const EARLIEST: bool, const WHOLE: bool>(
    cache: &mut Cache<S>,
    patterns: &mut P,
    haystack: &str,
    start: usize,
)
    requires boundary { IsCharBoundary haystack.now start }
    requires fresh { IsFresh (P.table patterns.old) cache.old }
    requires counts { CanCount (P.table patterns.old) (length (P.entries patterns.old))
        (characters_left (chars haystack.now) (position_at haystack.now start)) }
    ensures found { IsFoundTo EARLIEST (P.table patterns.old) (chars haystack.now)
        (P.entries patterns.old) WHOLE (position_at haystack.now start)
        (position_at haystack.now start) (best_of cache.new.best) }
    ensures bounded { IsBoundedBy (length (P.table patterns.old))
        (arrows_of (P.table patterns.old) + length (P.entries patterns.old)) (chars haystack.now)
        (position_at haystack.now start) cache.new.walk.steps.tried
        cache.new.walk.steps.entered cache.new.walk.steps.looked }
    ensures entry { ¬ (best_of cache.new.best ≡ None) → 0 < cache.new.walk.steps.entered }
    ensures counts { StaysCounted cache.old.walk.steps cache.new.walk.steps }
    ensures width { length cache.new.best.row ≡ length cache.old.best.row }
    ensures between { IsBetween (P.table patterns.old) cache.new }
    ensures table { P.table patterns.new ≡ P.table patterns.old }
    ensures entries { P.entries patterns.new ≡ P.entries patterns.old }
{
    let mut here = Here::at(haystack, start);
    patterns.come_to(haystack, here);
    'positions: loop {
        cache.go_over::<_, WHOLE>(patterns, here);
        if cache.walk.memory.threads() == 0 || is_done::<_, EARLIEST>(here, cache) {
            return;
        }
        here = here.next(haystack);
        patterns.start_no_more();
    }
}
