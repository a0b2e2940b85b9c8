//! One attempt at a pattern: a search from a position at which it may match, until it does or no
//! thread is left.
ghost use Rattle.std.specs.Prelude.{◌+◌, ℕ, chars};
ghost use Rattle.regex_lite_engine.specs.Graph.Stored.{places_of};
ghost use Rattle.regex_lite_engine.specs.Pikevm.Searching.{IsBetween, IsFresh};
ghost use Rattle.regex_lite_engine.specs.Search.Counting.{IsCountable};
ghost use Rattle.regex_lite_engine.specs.Search.Here.{IsHere};
ghost use Rattle.regex_lite_meta.specs.ListPass.{PassKnows};

use crate::list_matches::status::Status;
use regex_lite_engine::pikevm::cache::Cache;
use regex_lite_engine::pikevm::run::is_done;
use regex_lite_engine::pikevm::thread_start::NoStart;
use regex_lite_engine::search::here::Here;
use regex_lite_engine::search::one_pattern::OnePattern;

/// Searches for the pattern from here on until it matches or no thread is left. In the latter case
/// no match starts before the position that it has reached.
// Not inlined, so that its loop keeps its registers.
#[inline(never)]
pub(super) fn attempt(
    cache: &mut Cache<NoStart>,
    pattern: &mut OnePattern<'_>,
    haystack: &str,
    from: Here,
) -> Status
    requires here { (p : ℕ) × IsHere (chars haystack.now) p from }
    requires fresh { IsFresh (places_of pattern.old.table.now) cache.old }
    requires countable { IsCountable (places_of pattern.old.table.now) }
    ensures reported { (p : ℕ) → IsHere (chars haystack.now) p from
        → PassKnows (places_of pattern.old.table.now) haystack.now pattern.old.entry p (p + 1)
        result }
    ensures between { IsBetween (places_of pattern.old.table.now) cache.new }
{
    let mut here = from;
    'positions: loop {
        here = cache.pass(pattern, haystack, here);
        if is_done::<_, true>(here, cache) {
            return Status::Known(cache.best.end().is_some());
        }
        here = here.next(haystack);
        if cache.walk.memory.threads() == 0 {
            return Status::Open(here.at);
        }
    }
}
