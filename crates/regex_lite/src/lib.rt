//! Regular expressions over Unicode text.
//!
//! A *pattern* is the text of a regular expression, and a [`Regex`] is the compiled pattern. A
//! regex searches a *haystack*. A *match* is a part of the haystack that the pattern matches; it
//! may be empty. An *offset* counts bytes of UTF-8 from the start of the haystack, and no match
//! begins or ends inside a character. A regex holds its pattern compiled to an NFA, whose states
//! are called *places* here and whose transitions *arrows*.
//!
//! ```
//! let regex = Regex::new(alloc, "samwise|sam")?;
//! regex.is_match("samwise gamgee")?; // true
//! regex.is_match("frodo")?; // false
//! ```
//!
//! The test `examples::whole_crate` in tests/unit runs this example.
//!
//! A call that needs memory takes the allocator and returns an [`Error`] of the kind
//! [`ErrorKind::Memory`] if memory runs out. No call panics.
//!
//! What a pattern means is stated in `specs/`: the grammar says which tree a pattern stands for,
//! and the match relation says which parts of a haystack a tree matches.
//!
//! A [`RegexList`] holds several patterns, which are searched for in one pass: a search finds which
//! of them matches first, and where.
//!
//! A [`RegexBuilder`] parses and compiles the pattern through the crates below. The clones of a
//! [`Regex`] and the [`Captures`] that it finds share the compiled pattern. A [`RegexListBuilder`]
//! builds a [`RegexList`] in the same way. The module `string` has these types and the searches,
//! `owner` the reference counting, and `laws` theorems about the definitions alone.
#![tactic(auto)]

pub mod laws;
mod owner;
mod string;

pub use owner::Unboxed;
pub use regex_lite_engine::Steps;
pub use regex_lite_syntax::{ClassRange, Error, ErrorKind, Look, Part, PartKind};
pub use string::escape::escape;
pub use string::{
    CaptureLocations, CaptureMatches, CaptureNames, Captures, CapturesIn, FaultSpan,
    ListCaptureMatches, ListMatches, Match, Matches, NoExpand, Regex, RegexBuilder, RegexList,
    RegexListBuilder, RegexListSearcher, RegexSearcher, ReplaceBy, Replacer, ReplacerRef,
    SetMatches, Split, SplitN, SubCaptureMatches, Text,
};
