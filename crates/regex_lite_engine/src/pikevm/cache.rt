//! The working memory of the PikeVM, and its best match.
ghost use Rattle.std.specs.Prelude.{◌≡◌, ◌<◌, List, ℕ, IfOk, length};
ghost use Rattle.regex_lite_engine.specs.Graph.Places.{Place};
ghost use Rattle.regex_lite_engine.specs.Graph.Stored.{places_of};
ghost use Rattle.regex_lite_engine.specs.Search.Counting.{IsCountable};
ghost use Rattle.regex_lite_engine.specs.Pikevm.Searching.{GoesOnIn, IsBetween, IsFresh};

use crate::nfa::list::GraphList;
use crate::nfa::table::Table;
use crate::pikevm::best::Best;
use crate::pikevm::memory::Memory;
use crate::pikevm::thread_start::{MatchStart, ThreadStart};
use crate::pikevm::walk::Walk;
use crate::steps::no_steps;
use std::alloc::{AllocError, Global};

/// The working memory of a search. It is allocated before the search begins.
#[derive(Drop)]
pub struct Cache<S: ThreadStart> {
    pub walk: Walk<S>,
    pub best: Best<S>,
}

/// Allocates all memory of a search that keeps this number of slots.
///
/// Condition: the table has a place.
///
/// # Errors
///
/// If memory runs out.
#[inline(never)]
pub fn cache_for<S: ThreadStart>(
    alloc: Global,
    table: &Table,
    slots: usize,
) -> Result<Cache<S>, AllocError>
    requires { 0 < length table.now.places }
    ensures fresh { IfOk result (λ cache. IsFresh (places_of table.now) cache) }
    ensures width { IfOk result (λ cache. length cache.best.row ≡ slots) }
    ensures countable { IfOk result (λ _. IsCountable (places_of table.now)) }
{
    let places = table.places();
    // Each thread comes from a place that reads, or starts at the position.
    let room = table.reading() + 1;
    let best = Best::with_width(alloc, slots)?;
    let walk = Walk {
        memory: Memory::blank(alloc, places, room, slots)?,
        steps: no_steps(),
    };
    Ok(Cache { walk, best })
}

/// The memory of searches for several patterns that keep this number of slots. An empty list is
/// never searched for, so it needs no memory.
///
/// # Errors
///
/// If memory runs out.
pub fn cache_for_list(
    alloc: Global,
    list: &GraphList,
    slots: usize,
) -> Result<Cache<MatchStart>, AllocError>
    ensures ready { IfOk result (λ cache. GoesOnIn list.now cache) }
    ensures width { IfOk result (λ cache. length cache.best.row ≡ slots) }
{
    if list.len() > 0 {
        return cache_for(alloc, list.table(), slots);
    }
    let best = Best::with_width(alloc, slots)?;
    let walk = Walk {
        memory: Memory::blank(alloc, 0, 0, 0)?,
        steps: no_steps(),
    };
    Ok(Cache { walk, best })
}

/// Resets the cache for another search.
pub fn restart<S: ThreadStart>(cache: &mut Cache<S>)
    ensures fresh { (table : List (Place ℕ)) → IsBetween table cache.old → IsFresh table cache.new }
    ensures width { length cache.new.best.row ≡ length cache.old.best.row }
{
    cache.walk.memory.restart();
    cache.walk.steps = no_steps();
    cache.best.clear();
}
