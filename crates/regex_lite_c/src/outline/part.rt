//! Parts of a pattern, as they are written.
ghost use Rattle.std.specs.Prelude.{◌≡◌};
ghost use Rattle.regex_lite_c.specs.Outlines.{part_of_kind, written_part};

use crate::outline::kinds::{
    ALTERNATION, CAPTURE, CHAR, CLASS, CONCAT, EMPTY, LOOK, RANGE, REPETITION, number_of_look,
};
use regex_lite::{Part, PartKind};

/// A part of a pattern. A field that parts of its kind don't have is 0 or false.
#[repr(C)]
#[derive(Clone, Copy)]
pub struct WrittenPart {
    /// The depth of the part in the tree.
    pub depth: usize,
    /// The kind of the part: one of the numbers in `kinds`.
    pub kind: u32,
    /// The first character of a range, or the only one.
    pub first: u32,
    /// The last character of a range, or the only one.
    pub last: u32,
    /// The number of a look.
    pub look: u32,
    /// The index of a group.
    pub index: u32,
    /// The least number of passes of a repetition.
    pub least: u32,
    /// The greatest number of passes, if there is a limit.
    pub most: u32,
    /// Whether there is a limit.
    pub has_most: bool,
    /// Whether more passes are preferred to fewer.
    pub greedy: bool,
}

impl WrittenPart {
    /// This part as it is written.
    pub(crate) fn of(part: &Part) -> WrittenPart
        ensures { result ≡ written_part part.now }
    {
        let depth = part.depth;
        match part.kind {
            PartKind::Empty => WrittenPart::of_kind(depth, EMPTY),
            PartKind::Char(c) => WrittenPart {
                first: c as u32,
                last: c as u32,
                ..WrittenPart::of_kind(depth, CHAR)
            },
            PartKind::Class => WrittenPart::of_kind(depth, CLASS),
            PartKind::Range(range) => WrittenPart {
                first: range.start as u32,
                last: range.end as u32,
                ..WrittenPart::of_kind(depth, RANGE)
            },
            PartKind::Look(look) => WrittenPart {
                look: number_of_look(look),
                ..WrittenPart::of_kind(depth, LOOK)
            },
            PartKind::Repetition {
                least,
                most,
                greedy,
            } => WrittenPart {
                least,
                most: most.unwrap_or(0),
                has_most: most.is_some(),
                greedy,
                ..WrittenPart::of_kind(depth, REPETITION)
            },
            PartKind::Capture(index) => WrittenPart {
                index,
                ..WrittenPart::of_kind(depth, CAPTURE)
            },
            PartKind::Concat => WrittenPart::of_kind(depth, CONCAT),
            PartKind::Alternation => WrittenPart::of_kind(depth, ALTERNATION),
        }
    }

    /// A part of this kind, with all other fields 0 or false.
    fn of_kind(depth: usize, kind: u32) -> WrittenPart
        ensures { result ≡ part_of_kind depth kind }
    {
        WrittenPart {
            depth,
            kind,
            first: 0,
            last: 0,
            look: 0,
            index: 0,
            least: 0,
            most: 0,
            has_most: false,
            greedy: false,
        }
    }
}

/// The number of parts of a pattern, and the length of the message.
#[repr(C)]
#[derive(Clone, Copy)]
pub struct Outlined {
    /// The number of parts of the pattern.
    pub count: usize,
    /// The length of the message in bytes.
    pub message_len: usize,
}
