//! The positions at which a one-off search begins.
ghost use Rattle.std.specs.Prelude.{◌≡◌, ◌+◌, ◌<◌, ◌≤◌, ℕ, IfSome, IsCharBoundary, IsTrue};
ghost use Rattle.std.specs.Prelude.{None, chars, length};
ghost use Rattle.regex_lite_syntax.specs.Text.{Text};
ghost use Rattle.regex_lite_engine.specs.Graph.Stored.{places_of};
ghost use Rattle.regex_lite_engine.specs.Search.NumberedAnswer.{NoneStartsBefore};
ghost use Rattle.regex_lite_engine.specs.Search.Offsets.{position_at};
ghost use Rattle.regex_lite_engine.specs.Search.Here.{IsHere};
ghost use Rattle.regex_lite_engine.specs.Search.Starts.{AreDeadFrom, IsDeadAt, PassesTo};

use crate::search::here::Here;
use crate::search::one_pattern::OnePattern;
use crate::search::patterns::{Patterns, pass_over};

impl<'g> OnePattern<'g> {
    /// The first position from this offset on at which a match may begin. `None` if there is none.
    /// A search from the haystack's end always begins there, since that is its only start.
    ///
    /// Condition: the offset is on a character boundary.
    // Inlined, since many searches end at their first start.
    #[inline(always)]
    pub fn first_start(&self, haystack: &str, start: usize) -> Option<Here>
        requires { IsCharBoundary haystack.now start }
        ensures first { IfSome result (PassesTo
            (IsDeadAt (places_of self.now.table.now) (chars haystack.now) self.now.entry)
            (chars haystack.now) (position_at haystack.now start)) }
        ensures none { result ≡ None → AreDeadFrom (places_of self.now.table.now)
            (chars haystack.now) self.now.entry (position_at haystack.now start) }
    {
        let here = Here::at(haystack, start);
        if here.after.is_none() {
            return Some(here);
        }
        self.start_from(haystack, here)
    }

    /// The position at which a search from this offset begins that skips positions by itself: its
    /// first start if a prefilter finds it, and otherwise this offset. `None` if the prefilter
    /// finds none.
    ///
    /// Condition: the offset is on a character boundary.
    // Inlined, so that a search without a prefilter pays only for the test.
    #[inline(always)]
    pub fn search_start(&self, haystack: &str, start: usize) -> Option<usize>
        requires { IsCharBoundary haystack.now start }
        ensures boundary { IfSome result (IsCharBoundary haystack.now) }
        ensures least { IfSome result (λ at. NoneStartsBefore (places_of self.now.table.now)
            (chars haystack.now) self.now.entry (position_at haystack.now start)
            (position_at haystack.now at)) }
        ensures none { result ≡ None → AreDeadFrom (places_of self.now.table.now)
            (chars haystack.now) self.now.entry (position_at haystack.now start) }
    {
        if !self.has_prefilter() {
            return Some(start);
        }
        if start >= haystack.len() {
            return Some(start);
        }
        let first = self.filter.first_start(haystack, start);
        if first >= haystack.len() && self.reads {
            return None;
        }
        Some(first)
    }

    /// The first position after this one at which a match may begin.
    // Inlined, since the bounded backtracker calls it at each start.
    #[inline(always)]
    pub(crate) fn start_after(&self, haystack: &str, here: Here) -> Option<Here>
        requires { (p : ℕ) × IsHere (chars haystack.now) p here }
        ensures first { (p : ℕ) → IsHere (chars haystack.now) p here → IfSome result (PassesTo
            (IsDeadAt (places_of self.now.table.now) (chars haystack.now) self.now.entry)
            (chars haystack.now) (p + 1)) }
        ensures none { (p : ℕ) → IsHere (chars haystack.now) p here → result ≡ None
            → AreDeadFrom (places_of self.now.table.now) (chars haystack.now) self.now.entry
            (p + 1) }
    {
        if here.after.is_none() || self.begins_at_start_alone() {
            return None;
        }
        self.start_from(haystack, here.next(haystack))
    }

    /// Whether it is known that matches begin only at the haystack's start.
    fn begins_at_start_alone(&self) -> bool
        ensures { IsTrue result → (haystack : Text) (i : ℕ) → 0 < i → i ≤ length haystack
            → IsDeadAt (places_of self.now.table.now) haystack self.now.entry i }
    {
        self.reads && self.filter.begins_with_none()
    }

    /// The first position from here on at which a match may begin.
    #[inline(always)]
    fn start_from(&self, haystack: &str, here: Here) -> Option<Here>
        requires { (p : ℕ) × IsHere (chars haystack.now) p here }
        ensures first { (p : ℕ) → IsHere (chars haystack.now) p here → IfSome result (PassesTo
            (IsDeadAt (places_of self.now.table.now) (chars haystack.now) self.now.entry)
            (chars haystack.now) p) }
        ensures none { (p : ℕ) → IsHere (chars haystack.now) p here → result ≡ None
            → AreDeadFrom (places_of self.now.table.now) (chars haystack.now) self.now.entry p }
    {
        let first = pass_over(self, haystack, here);
        if first.after.is_none() && self.reads {
            return None;
        }
        Some(first)
    }
}
