//! A whole search of the PikeVM, for a match or for the least end of one.
ghost use Rattle.std.specs.Prelude.{◌≡◌, ◌+◌, ◌<◌, ◌⊎◌, ℕ, IsCharBoundary, IsTrue, None};
ghost use Rattle.std.specs.Prelude.{chars, false, length, true};
ghost use Rattle.regex_lite_engine.specs.Graph.Parts.{IsOwnPart, row_of};
ghost use Rattle.regex_lite_engine.specs.Graph.Renumbered.{arrows_of};
ghost use Rattle.regex_lite_engine.specs.Search.Bounds.{IsBoundedBy, StaysCounted, characters_left};
ghost use Rattle.regex_lite_engine.specs.Search.Offsets.{position_at};
ghost use Rattle.regex_lite_engine.specs.Search.NumberedOutcomes.{IsFoundOf};
ghost use Rattle.regex_lite_engine.specs.Search.Here.{IsHere};
ghost use Rattle.regex_lite_engine.specs.Pikevm.Passing.{IsUnderWay};
ghost use Rattle.regex_lite_engine.specs.Pikevm.Stopping.{Stops};
ghost use Rattle.regex_lite_engine.specs.Pikevm.Searching.{IsFresh, IsBetween};
ghost use Rattle.regex_lite_engine.specs.Search.Counting.{CanCount};
ghost use Rattle.regex_lite_engine.specs.Pikevm.Stepping.{best_of};

use crate::pikevm::cache::Cache;
use crate::pikevm::thread_start::ThreadStart;
use crate::search::here::Here;
use crate::search::patterns::Patterns;

/// Steps from position to position until the match is known: the most preferred one or, if
/// EARLIEST, one that ends at the first position at which any match is complete.
///
/// Condition: the start is on a character boundary, the cache is new, or was reset, and was made
/// for the table of the patterns, and no count of the search can overflow.
pub fn run<S: ThreadStart, P: Patterns, const EARLIEST: bool>(
    cache: &mut Cache<S>,
    patterns: &mut P,
    haystack: &str,
    start: usize,
)
    requires boundary { IsCharBoundary haystack.now start }
    requires fresh { IsFresh (P.table patterns.old) cache.old }
    requires counts { CanCount (P.table patterns.old) (length (P.entries patterns.old))
        (characters_left (chars haystack.now) (position_at haystack.now start)) }
    ensures found { IsFoundOf EARLIEST (P.table patterns.old) (chars haystack.now)
        (P.entries patterns.old) (position_at haystack.now start) (best_of cache.new.best) }
    ensures bounded { IsBoundedBy (length (P.table patterns.old))
        (arrows_of (P.table patterns.old) + length (P.entries patterns.old)) (chars haystack.now)
        (position_at haystack.now start) cache.new.walk.steps.tried
        cache.new.walk.steps.entered cache.new.walk.steps.looked }
    ensures own { (low len : ℕ) → IsOwnPart (P.table patterns.old) (P.entries patterns.old) low len
        → IsBoundedBy len
        (arrows_of (row_of (P.table patterns.old) low len) + length (P.entries patterns.old))
        (chars haystack.now) (position_at haystack.now start) cache.new.walk.steps.tried
        cache.new.walk.steps.entered cache.new.walk.steps.looked }
    ensures entry { ¬ (best_of cache.new.best ≡ None) → 0 < cache.new.walk.steps.entered }
    ensures counts { StaysCounted cache.old.walk.steps cache.new.walk.steps }
    ensures width { length cache.new.best.row ≡ length cache.old.best.row }
    ensures between { IsBetween (P.table patterns.old) cache.new }
    ensures table { P.table patterns.new ≡ P.table patterns.old }
    ensures entries { P.entries patterns.new ≡ P.entries patterns.old }
{
    advance::<_, _, EARLIEST>(cache, patterns, haystack, Here::at(haystack, start), None);
}

/// Continues a search from its position until its match is known: the most preferred one or, if
/// EARLIEST, one that ends at the first position at which any match is complete. It scans at most
/// this number of positions, if there is a limit. Returns the search's position then, or `None` if
/// it is over.
///
/// Conditions: no count of the search can overflow. If EARLIEST, there is no match yet.
pub fn advance<S: ThreadStart, P: Patterns, const EARLIEST: bool>(
    cache: &mut Cache<S>,
    patterns: &mut P,
    haystack: &str,
    from: Here,
    most: Option<u32>,
) -> Option<Here>
    requires on { (s p : ℕ) × IsHere (chars haystack.now) p from
        × CanCount (P.table patterns.old) (length (P.entries patterns.old))
        (characters_left (chars haystack.now) s)
        × IsUnderWay (P.table patterns.old) (chars haystack.now) (P.entries patterns.old) s p
        cache.old }
    requires none { EARLIEST ≡ true → best_of cache.old.best ≡ None }
    ensures stops { (s p : ℕ) → IsHere (chars haystack.now) p from
        → IsUnderWay (P.table patterns.old) (chars haystack.now) (P.entries patterns.old) s p
        cache.old → Stops (P.table patterns.old) (chars haystack.now) (P.entries patterns.old) s
        EARLIEST p cache.old cache.new result }
    ensures all { most ≡ None → result ≡ None }
    ensures counts { StaysCounted cache.old.walk.steps cache.new.walk.steps }
    ensures width { length cache.new.best.row ≡ length cache.old.best.row }
    ensures between { IsBetween (P.table patterns.old) cache.new }
    ensures table { P.table patterns.new ≡ P.table patterns.old }
    ensures entries { P.entries patterns.new ≡ P.entries patterns.old }
{
    let mut here = from;
    let mut left = most;
    'positions: loop {
        if is_spent(&mut left) {
            return Some(here);
        }
        here = cache.pass(patterns, haystack, here);
        if is_done::<_, EARLIEST>(here, cache) {
            return None;
        }
        here = here.next(haystack);
    }
}

/// Counts the next position, if their number is limited. Returns true when the budget is used up.
fn is_spent(left: &mut Option<u32>) -> bool
    ensures all { left.old ≡ None → (left.new ≡ None) × ¬ IsTrue result }
{
    let Some(positions) = *left else {
        return false;
    };
    if positions == 0 {
        return true;
    }
    *left = Some(positions - 1);
    false
}

/// Whether the match is known after this position, or no position is left.
pub fn is_done<S: ThreadStart, const EARLIEST: bool>(here: Here, cache: &Cache<S>) -> bool
    ensures done { IsTrue result → (here.after ≡ None) ⊎ (¬ (best_of cache.now.best ≡ None)
        × (EARLIEST ≡ false → length cache.now.walk.memory.threads ≡ 0)) }
    ensures at_end { here.after ≡ None → IsTrue result }
    ensures none_yet { EARLIEST ≡ true → ¬ IsTrue result → best_of cache.now.best ≡ None }
{
    if here.after.is_none() {
        return true;
    }
    (EARLIEST || cache.walk.memory.threads() == 0) && !cache.best.is_none()
}
