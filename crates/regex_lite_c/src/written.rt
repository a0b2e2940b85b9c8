//! What is written for the matches of a regex and of several patterns.
ghost use Rattle.std.specs.Prelude.{◌≡◌};
ghost use Rattle.regex_lite_c.specs.Kinds.{Kind};

use crate::list::types::ListSpan;
use crate::sought::Search;
use crate::types::Span;
use regex_lite::{Regex, RegexList};

/// What is searched for, and what a walk over all its matches writes.
pub(crate) trait Written: Search {
    ghost kind: { Kind Self Self.Span Self.Reported };

    /// The end of the match with this span.
    fn end_of(span: &Self::Span) -> usize
        ensures { result ≡ kind.end_of span.now };

    /// Whether a walk over all matches writes something for the groups of each besides their spans.
    fn is_reported() -> bool
        ensures { result ≡ kind.is_reported };
}

impl Written for Regex {
    ghost use Rattle.regex_lite_c.specs.Kinds.{of_regex};

    ghost kind = { of_regex };

    fn end_of(span: &Span) -> usize {
        span.end
    }

    fn is_reported() -> bool {
        false
    }
}

impl Written for RegexList {
    ghost use Rattle.regex_lite_c.specs.Kinds.{of_patterns};

    ghost kind = { of_patterns };

    fn end_of(span: &ListSpan) -> usize {
        span.end
    }

    fn is_reported() -> bool {
        true
    }
}
