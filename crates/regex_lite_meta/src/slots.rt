//! Searches for the slots of matches: with the bounded backtracker if the span is known and short
//! enough, and otherwise with the PikeVM.
//!
//! A match whose span is known is searched for in the haystack up to the character after its end. A
//! look sees no more than the characters beside its position, so up to that end each path leads
//! where it does in the whole haystack. If the search finds a match with that end, its path and
//! that of the known match are paths in both texts, and each is the most preferred in one of them:
//! so they are the same. But a look may hold where the search ends and not in the haystack, as in
//! `(a)(b$)?` on `abc`. If a longer match is found there, if there are too many pairs, or if the
//! memory was refused, the PikeVM searches from the match's start.
ghost use Rattle.std.specs.Prelude.{◌≡◌, ◌+◌, ◌<◌, [], ℕ, IfOk, IfSome};
ghost use Rattle.std.specs.Prelude.{IsCharBoundary, IsTrue, Some, chars, length, take};
ghost use Rattle.regex_lite_meta.specs.Slots.{FindsShortSlots, FindsSlotsIn};
ghost use Rattle.regex_lite_engine.specs.Graph.Stored.{places_of};
ghost use Rattle.regex_lite_engine.specs.Search.NumberedOutcomes.{IsNumberedOutcome, best_at};
ghost use Rattle.regex_lite_engine.specs.Search.Counting.{IsCountable};
ghost use Rattle.regex_lite_engine.specs.Pikevm.Searching.{IsBetween};
ghost use Rattle.regex_lite_engine.specs.Search.Offsets.{IsOffset, position_at};

use regex_lite_engine::backtrack::short::ShortSearcher;
use regex_lite_engine::nfa::table::Table;
use regex_lite_engine::pikevm::best::{Best, span_of};
use regex_lite_engine::pikevm::cache::{Cache, cache_for, restart};
use regex_lite_engine::pikevm::run::advance;
use regex_lite_engine::pikevm::thread_start::MatchStart;
use regex_lite_engine::search::here::next_char;
use regex_lite_engine::search::one_pattern::OnePattern;
use std::alloc::{AllocError, Global};

/// The memory of searches for slots. The slots of the last match are in the cache's row.
#[derive(Drop)]
pub(crate) struct SlotCache {
    pub cache: Cache<MatchStart>,
    /// The bounded backtracker. It is on the heap, since most searchers have none and are moved
    /// often.
    short: Option<Box<ShortSearcher>>,
}

impl SlotCache {
    /// Memory for searches in this table that keep as many slots as this cache, which was made for
    /// the table. Searches with at most `pairs` pairs of a place and an offset use the bounded
    /// backtracker, if there is memory for it.
    pub(crate) fn new(
        alloc: Global,
        cache: Cache<MatchStart>,
        table: &Table,
        pairs: usize,
    ) -> SlotCache
        ensures finds { IsBetween (places_of table.now) cache → IsCountable (places_of table.now)
            → FindsSlotsIn (places_of table.now) result }
        ensures cache { result.cache ≡ cache }
    {
        let slots = cache.best.row().len();
        let short = short_for(alloc, table, slots, pairs);
        SlotCache { cache, short }
    }

    /// Sets the row to the slots of the match with this span, which it returns.
    pub(crate) fn find_in_span(
        &mut self,
        pattern: &mut OnePattern<'_>,
        haystack: &str,
        span: (usize, usize),
    ) -> Option<(usize, usize)>
        requires finds { FindsSlotsIn (places_of pattern.old.table.now) self.old }
        requires known { (s : ℕ) × IsNumberedOutcome (places_of pattern.old.table.now)
            (chars haystack.now) pattern.old.entry s (best_at (Some span) []) }
        ensures finds { FindsSlotsIn (places_of pattern.old.table.now) self.new }
        ensures found { (s : ℕ) → IsNumberedOutcome (places_of pattern.old.table.now)
            (chars haystack.now) pattern.old.entry s (best_at (Some span) [])
            → IsNumberedOutcome (places_of pattern.old.table.now) (chars haystack.now)
            pattern.old.entry s (best_at result self.new.cache.best.row) }
        ensures width { length self.new.cache.best.row ≡ length self.old.cache.best.row }
    {
        if let Some(short) = &mut self.short {
            if find_short(short, pattern, haystack, span, &mut self.cache.best) {
                return Some(span);
            }
        }
        self.find_from(pattern, haystack, span.0)
    }

    /// The span of the most preferred match from the least start at or after this offset, found by
    /// the PikeVM. Its slots are in the row.
    pub(crate) fn find_from(
        &mut self,
        pattern: &mut OnePattern<'_>,
        haystack: &str,
        start: usize,
    ) -> Option<(usize, usize)>
        requires finds { FindsSlotsIn (places_of pattern.old.table.now) self.old }
        requires boundary { IsCharBoundary haystack.now start }
        ensures finds { FindsSlotsIn (places_of pattern.old.table.now) self.new }
        ensures found { IsNumberedOutcome (places_of pattern.old.table.now) (chars haystack.now)
            pattern.old.entry (position_at haystack.now start)
            (best_at result self.new.cache.best.row) }
        ensures width { length self.new.cache.best.row ≡ length self.old.cache.best.row }
    {
        let first = pattern.first_start(haystack, start)?;
        pattern.first = first.at;
        restart(&mut self.cache);
        advance::<_, _, false>(&mut self.cache, pattern, haystack, first, None);
        span_of(self.cache.best.found())
    }
}

/// A bounded backtracker for this many slots and at most `pairs` pairs of a place and an offset.
/// `None` if the table has too many places or memory runs out.
fn short_for(alloc: Global, table: &Table, slots: usize, pairs: usize) -> Option<Box<ShortSearcher>>
    ensures { IfSome result (λ boxed. FindsShortSlots (places_of table.now) slots boxed.value) }
{
    match ShortSearcher::new(alloc, table, slots, pairs) {
        Ok(Some(short)) => Box::new(alloc, short).ok(),
        _ => None,
    }
}

/// Sets the row to the slots of the match with this span, and returns whether it did. It doesn't if
/// the span is too long, or if a longer match ends where the search ends.
fn find_short(
    short: &mut ShortSearcher,
    pattern: &OnePattern<'_>,
    haystack: &str,
    span: (usize, usize),
    best: &mut Best<MatchStart>,
) -> bool
    requires finds { FindsShortSlots (places_of pattern.now.table.now) (length best.old.row)
        short.old }
    requires known { (s : ℕ) × IsNumberedOutcome (places_of pattern.now.table.now)
        (chars haystack.now) pattern.now.entry s (best_at (Some span) []) }
    ensures finds { FindsShortSlots (places_of pattern.now.table.now) (length best.new.row)
        short.new }
    ensures found { IsTrue result → (s : ℕ)
        → IsNumberedOutcome (places_of pattern.now.table.now) (chars haystack.now)
        pattern.now.entry s (best_at (Some span) [])
        → IsNumberedOutcome (places_of pattern.now.table.now) (chars haystack.now)
        pattern.now.entry s (best_at (Some span) best.new.row) }
    ensures same { best.new ≡ record best.old { row = best.new.row } }
    ensures width { length best.new.row ≡ length best.old.row }
{
    let (from, end) = span;
    let seen = up_to_next(haystack, end);
    if !short.suits(seen.len().saturating_sub(from)) {
        return false;
    }
    let Some((_, last)) = short.search(pattern, seen, from) else {
        return false;
    };
    // A look may hold at the end of the truncated haystack, but not in the whole haystack.
    if last != end {
        return false;
    }
    best.set_row(short.row());
    true
}

/// The haystack up to the end of the character at this offset: looks see no further from this
/// offset or earlier ones.
fn up_to_next(haystack: &str, at: usize) -> &str
    requires { IsCharBoundary haystack.now at }
    ensures { (p : ℕ) → IsOffset (chars haystack.now) p at
        → chars result.now ≡ take (p + 1) (chars haystack.now) }
{
    match next_char(haystack, at) {
        None => haystack,
        Some((_, past)) => &haystack[..past],
    }
}
