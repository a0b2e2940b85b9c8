//! What is searched for, a regex or several patterns: the traits behind the calls for both.
ghost use Rattle.std.specs.Prelude.{◌≡◌, ◌↔◌, ◌<◌, ◌≤◌, length, unwrap_or, ⊤};
ghost use Rattle.std.specs.Prelude.{IfErr, IfOk, IfSome, IsCharBoundary, IsTrue};
ghost use Rattle.regex_lite.specs.Ahead.{AheadOf, after};
ghost use Rattle.regex_lite_c.specs.Answers.{IsOfFound};
ghost use Rattle.regex_lite_c.specs.GroupWalks.{IsFilled, group_buffer};
ghost use Rattle.regex_lite_c.specs.Kinds.{GivesGroups, GivesWritten};
ghost use Rattle.regex_lite_c.specs.SearchKinds.{AreFirstReported, IsFirst, SearchKind};
ghost use Rattle.regex_lite_c.specs.Walks.{AreListed, NoneComes, ended_of};

mod regex;

use crate::types::{Cost, MatchWalk, Span};
use crate::written::Written;
use regex_lite::{Captures, Error};

/// A search for one match: unanchored, anchored or for a whole match. Each call of the C interface
/// is for one kind of search, and calls a function that is generic over them.
pub(crate) trait Search {
    /// The type that is written for a match.
    type Span: Copy;

    /// The type that is written for groups besides their spans.
    type Reported: Copy;

    // A single pattern of a list can be searched for only if the list has it.
    ghost can_search: { Self → Type 0 } = { λ _. ⊤ };

    ghost search: { SearchKind Self Self.Span Self.Reported };

    /// Whether the search finds a match.
    fn has_match(&self, text: &str, start: usize) -> Result<bool, Error>
        requires can { Self.can_search self.now }
        requires start { IsCharBoundary text.now start }
        ensures { IfOk result
            (λ found. IsTrue found ↔ Self.search.Matches self.now text.now start) };

    /// The match that the search finds.
    fn first_span(&self, text: &str, start: usize) -> Result<Option<Self::Span>, Error>
        requires can { Self.can_search self.now }
        requires start { IsCharBoundary text.now start }
        ensures { IfOk result (IsFirst Self.search self.now text.now start) };

    /// The groups of that match, and what is written besides their spans.
    fn first_groups<'h>(
        &self,
        text: &'h str,
        start: usize,
    ) -> Result<Option<(Self::Reported, Captures<'h>)>, Error>
        requires can { Self.can_search self.now }
        requires start { IsCharBoundary text.now start }
        ensures { IfOk result (AreFirstReported Self.search self.now text.now start) };
}

/// What can be searched for from an offset on, for one match or for all.
pub(crate) trait Sought: Written + Drop {
    /// The first match from this offset on, and the cost of the search.
    fn counted_span(&self, text: &str, start: usize) -> Result<(Option<Self::Span>, Cost), Error>
        requires { IsCharBoundary text.now start }
        ensures found { IfOk result
            (λ reported. IsFirst Self.search self.now text.now start reported.0) }
        ensures cost { IfOk result
            (λ reported. Self.kind.IsCost self.now text.now start reported.1) }
        ensures entered { IfOk result (λ answer. IfSome answer.0 (λ _. 0 < answer.1.entered)) };

    /// Writes the next matches after one that ended there, and returns their number.
    fn write_after(
        &self,
        text: &str,
        ended: Option<usize>,
        spans: &mut [Self::Span],
    ) -> Result<usize, Error>
        requires { IsCharBoundary text.now (unwrap_or ended 0) }
        ensures listed { IfOk result (λ count.
            AreListed Self.kind (after self.now text.now ended) spans.old spans.new count) }
        ensures within { IfOk result (λ count. count ≤ length spans.old) }
        ensures none { IfOk result (λ count. count ≡ 0 → 0 < length spans.old
            → NoneComes Self.kind (after self.now text.now ended) × (spans.new ≡ spans.old)) }
        ensures refused { IfErr result (λ _. spans.new ≡ spans.old) };

    /// Writes the groups of the next matches, and where the last of these ends. Returns the answer,
    /// and the number to write.
    fn write_groups_after(
        &self,
        text: &str,
        walk: &mut MatchWalk,
        reported: &mut [Self::Reported],
        spans: &mut [Span],
    ) -> (u32, usize)
        requires { IsCharBoundary text.now (unwrap_or (ended_of walk.old) 0) }
        ensures filled { IsFilled Self.kind (after self.now text.now (ended_of walk.old))
            (group_buffer walk.old reported.old spans.old)
            (group_buffer walk.new reported.new spans.new) result.1 result.0 }
        ensures one_of { IsOfFound result.0 };
}

/// An iterator over the matches ahead in a text, as they are written.
pub(crate) trait Spans {
    /// What is searched for.
    type Sought: Written;

    ghost ahead: { Self → AheadOf Self.Sought };

    /// The next match, if there is one.
    fn next_span(&mut self) -> Option<<Self::Sought as Search>::Span>
        ensures { GivesWritten Self.Sought.kind (ahead self.old) result (ahead self.new) };
}

/// An iterator over the matches ahead in a text, with their groups and what is written besides
/// their spans.
pub(crate) trait GroupsAhead<'h> {
    /// What is searched for.
    type Sought: Written;

    ghost ahead: { Self → AheadOf Self.Sought };

    /// The groups of the next match, if there is one.
    fn next_groups(
        &mut self,
    ) -> Result<Option<(<Self::Sought as Search>::Reported, Captures<'h>)>, Error>
        ensures { IfOk result
            (λ item. GivesGroups Self.Sought.kind (ahead self.old) item (ahead self.new)) };
}
