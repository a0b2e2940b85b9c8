//! The types that calls for several patterns take and return besides texts.
ghost use Rattle.std.specs.Prelude.{◌≡◌};
ghost use Rattle.regex_lite.specs.MatchViews.{span_of_match};
ghost use Rattle.regex_lite_c.specs.ListSpans.{list_span_of};

use crate::types::Options;
use regex_lite::Match;

/// One of several patterns, whose bytes are concatenated: its length and its settings.
#[repr(C)]
#[derive(Drop)]
pub struct ListPattern {
    /// The length of the pattern in bytes.
    pub len: usize,
    /// The settings under which the pattern is built.
    pub options: Options,
}

/// Why several patterns are rejected.
#[repr(C)]
#[derive(Clone, Copy)]
pub struct ListRefusal {
    /// The number of the pattern that is rejected, or the number of patterns if no single one is
    /// rejected.
    pub number: usize,
    /// The length of the message in bytes.
    pub message_len: usize,
}

/// A match of one of several patterns.
#[repr(C)]
#[derive(Clone, Copy)]
pub struct ListSpan {
    /// The number of the pattern.
    pub number: usize,
    /// The offset of the match's first byte.
    pub start: usize,
    /// The offset after the match's last byte.
    pub end: usize,
}

impl ListSpan {
    /// The span of a match of the pattern with this number.
    pub(crate) fn of(number: usize, found: &Match<'_>) -> ListSpan
        ensures { result ≡ list_span_of (number, span_of_match found.now) }
    {
        ListSpan {
            number,
            start: found.start(),
            end: found.end(),
        }
    }
}

/// The pattern of a match, and the number of its groups.
#[repr(C)]
#[derive(Clone, Copy)]
pub struct ListGroups {
    /// The number of the pattern.
    pub number: usize,
    /// The number of its groups, including the whole match.
    pub count: usize,
}
