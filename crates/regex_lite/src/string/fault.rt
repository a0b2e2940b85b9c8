//! The place of the first fault in a pattern.
ghost use Rattle.std.specs.Prelude.{◌≡◌, ◌≤◌, length, chars, IfOk, IfErr, MatchOption};
ghost use Rattle.std.specs.Prelude.{IfSome, option_map};
ghost use Rattle.regex_lite_syntax.specs.Errors.{kind_of};
ghost use Rattle.regex_lite_syntax.specs.FaultPlaces.{IsUntold};
ghost use Rattle.regex_lite_engine.specs.Search.Offsets.{IsOffset, offset};
ghost use Rattle.regex_lite.specs.FaultOffsets.{HasTreeUnder, IsFaultSpan};

use crate::string::builder::RegexBuilder;
use crate::string::iter::scan::next_offset;
use regex_lite_syntax::{Error, FaultPlace, fault_at};

/// The place of a fault in a pattern, as byte offsets.
#[derive(Clone, Copy, PartialEq, Eq, Debug)]
pub struct FaultSpan {
    /// The start of the part of the pattern that can't be parsed.
    pub start: usize,
    /// The end of the shortest prefix, longer than `start`, with which no accepted pattern begins.
    /// `None` if some accepted pattern begins with the whole pattern, which may then be incomplete.
    pub end: Option<usize>,
}

impl RegexBuilder {
    /// The place of the first fault in the pattern, or `None` if the grammar gives the pattern a
    /// tree. The builder's limits don't matter.
    ///
    /// The fault starts with the part of the pattern at which the parser stops: a class, an escape,
    /// an operator, a directive, or a group with a faulty head. If the pattern ends while groups
    /// are open, the fault starts with the innermost of them. It ends at the end of the shortest
    /// prefix with which no accepted pattern begins, and has no end exactly if some accepted
    /// pattern begins with this one. An editor can mark the text between the two offsets. If there
    /// is no end, it can wait for more input.
    ///
    /// ```
    /// let builder = RegexBuilder::new(alloc, r"sam|\qwise")?;
    /// builder.fault_at()?; // Some(FaultSpan { start: 4, end: Some(6) })
    /// ```
    ///
    /// The test `examples::fault` in tests/unit runs this example.
    ///
    /// # Errors
    ///
    /// `Groups` if the pattern has more capture groups than can be numbered, and `Memory` if memory
    /// runs out.
    pub fn fault_at(&self) -> Result<Option<FaultSpan>, Error>
        ensures found { IfOk result (λ found. MatchOption found (HasTreeUnder self.now)
            (λ span. IsFaultSpan self.now span × (HasTreeUnder self.now → ⊥))) }
        ensures refused { IfErr result (λ error.
            IsUntold self.now.flags (chars self.now.pattern) (kind_of error)) }
    {
        let pattern = self.pattern.as_str();
        match fault_at(self.alloc, self.flags, pattern)? {
            None => Ok(None),
            Some(place) => Ok(Some(span_of(pattern, place))),
        }
    }
}

/// The offsets of a fault.
fn span_of(pattern: &str, place: FaultPlace) -> FaultSpan
    requires start { place.start ≤ length (chars pattern.now) }
    requires end { IfSome place.end (λ end. end ≤ length (chars pattern.now)) }
    ensures start { IsOffset (chars pattern.now) place.start result.start }
    ensures end { result.end ≡ option_map (offset (chars pattern.now)) place.end }
{
    let end = match place.end {
        None => None,
        Some(end) => Some(offset_of(pattern, end)),
    };
    FaultSpan {
        start: offset_of(pattern, place.start),
        end,
    }
}

/// The byte offset of a position in the text.
fn offset_of(text: &str, position: usize) -> usize
    requires { position ≤ length (chars text.now) }
    ensures { IsOffset (chars text.now) position result }
{
    let mut at = 0;
    for _ in 0..position {
        at = next_offset(text, at);
    }
    at
}
