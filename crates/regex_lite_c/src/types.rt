//! The types that calls take and return besides texts.
ghost use Rattle.std.specs.Prelude.{◌≡◌, ◌-◌, ◌^◌, Some, None, min, option_map};
ghost use Rattle.regex_lite.specs.MatchViews.{span_of_match};
ghost use Rattle.regex_lite_c.specs.Costs.{IsCostOf};
ghost use Rattle.regex_lite_c.specs.Faults.{IsFaultOf};
ghost use Rattle.regex_lite_c.specs.Spans.{span_of};
ghost use Rattle.regex_lite_c.specs.Walks.{ended_of};

use regex_lite::{FaultSpan, Match, Steps};

/// The settings under which a pattern is built.
#[repr(C)]
#[derive(Drop)]
pub struct Options {
    /// Letters match in either case: the flag `i`.
    pub case_insensitive: bool,
    /// `^` and `$` match at every line: the flag `m`.
    pub multi_line: bool,
    /// `.` matches every character: the flag `s`.
    pub dot_matches_new_line: bool,
    /// A carriage return ends a line as well: the flag `R`.
    pub crlf: bool,
    /// Greedy and lazy operators are swapped: the flag `U`.
    pub swap_greed: bool,
    /// White space and comments in the pattern are ignored: the flag `x`.
    pub ignore_whitespace: bool,
    /// How deeply the pattern may nest.
    pub nest_limit: u32,
    /// How large the compiled pattern may become.
    pub size_limit: usize,
}

/// A span: a part of a text, or none, as for a group that took no part.
#[repr(C)]
#[derive(Clone, Copy)]
pub struct Span {
    /// Whether there is a part. If not, both offsets are 0.
    pub is_there: bool,
    /// The offset of the first byte.
    pub start: usize,
    /// The offset after the last byte.
    pub end: usize,
}

impl Span {
    /// The span of a match.
    pub(crate) fn of(found: &Match<'_>) -> Span
        ensures { result ≡ span_of (Some (span_of_match found.now)) }
    {
        Span {
            is_there: true,
            start: found.start(),
            end: found.end(),
        }
    }

    /// The span from one offset to another.
    pub(crate) fn between(start: usize, end: usize) -> Span
        ensures { result ≡ span_of (Some (start, end)) }
    {
        Span {
            is_there: true,
            start,
            end,
        }
    }

    /// The span of a group, if it took part.
    pub(crate) fn of_group(group: Option<Match<'_>>) -> Span
        ensures { result ≡ span_of (option_map span_of_match group.entry) }
    {
        match group {
            Some(found) => Span::of(&found),
            None => Span::none(),
        }
    }

    /// The span of a group that took no part.
    pub(crate) fn none() -> Span
        ensures { result ≡ span_of None }
    {
        Span {
            is_there: false,
            start: 0,
            end: 0,
        }
    }
}

/// The place of a fault in a pattern.
#[repr(C)]
#[derive(Clone, Copy)]
pub struct Fault {
    /// The offset at which the part begins that can't be parsed.
    pub start: usize,
    /// The offset at which the fault ends: the length of the shortest prefix, longer than `start`,
    /// with which no accepted pattern begins. If the pattern is cut short, its length.
    pub end: usize,
    /// Whether some accepted pattern begins with this one.
    pub is_cut_short: bool,
}

impl Fault {
    /// The fault with this span, in a pattern of this many bytes.
    pub(crate) fn of(span: FaultSpan, len: usize) -> Fault
        ensures { IsFaultOf span len result }
    {
        match span.end {
            Some(end) => Fault {
                start: span.start,
                end,
                is_cut_short: false,
            },
            None => Fault {
                start: span.start,
                end: len,
                is_cut_short: true,
            },
        }
    }
}

/// The cost of a search, in places (NFA states). A number above 2^64 - 1 is written as 2^64 - 1.
#[repr(C)]
#[derive(Clone, Copy)]
pub struct Cost {
    /// The number of places that the search tried.
    pub tried: u64,
    /// The number of places that it entered.
    pub entered: u64,
    /// The number of places that it looked up.
    pub looked: u64,
}

impl Cost {
    /// The cost of these steps.
    pub(crate) fn of(steps: Steps) -> Cost
        ensures { IsCostOf steps result }
    {
        Cost {
            tried: capped(steps.tried()),
            entered: capped(steps.entered()),
            looked: capped(steps.looked()),
        }
    }
}

/// The number, capped at 2^64 - 1.
fn capped(n: u128) -> u64
    ensures { result ≡ min n (2 ^ 64 - 1) }
{
    if n < 1 << 64 { n as u64 } else { u64::MAX }
}

/// How matches are replaced, and the length of the new text and the number of matches that were
/// replaced.
#[repr(C)]
#[derive(Clone, Copy)]
pub struct Replacing {
    /// The greatest number of matches to replace, from the first on. 0 means all.
    pub limit: usize,
    /// Whether the template is literal, so that a `$` in it stands for itself.
    pub is_literal: bool,
    /// The length of the new text in bytes, which a call writes.
    pub len: usize,
    /// The number of matches that were replaced, which a call writes.
    pub count: usize,
}

/// The position of a walk over the matches in a text.
#[repr(C)]
#[derive(Clone, Copy)]
pub struct MatchWalk {
    /// Whether a match has been found yet.
    pub is_begun: bool,
    /// The end of the last match.
    pub end: usize,
}

impl MatchWalk {
    /// The end of the last match, if there was one.
    pub(crate) fn ended(&self) -> Option<usize>
        ensures { result ≡ ended_of self.now }
    {
        if self.is_begun { Some(self.end) } else { None }
    }

    /// The walk after the match with this span.
    pub(crate) fn after(span: &Span) -> MatchWalk
        ensures { ended_of result ≡ Some span.now.end }
    {
        MatchWalk {
            is_begun: true,
            end: span.end,
        }
    }
}

/// The position of a cut of a text into pieces.
#[repr(C)]
#[derive(Clone, Copy)]
pub struct Cut {
    /// The walk over the matches before which pieces were written.
    pub walk: MatchWalk,
    /// Whether the last piece was written.
    pub is_over: bool,
}
