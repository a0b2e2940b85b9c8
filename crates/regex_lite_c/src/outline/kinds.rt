//! The numbers of the kinds of parts of a pattern, and of looks.
ghost use Rattle.std.specs.Prelude.{◌≡◌};
ghost use Rattle.regex_lite_c.specs.Outlines.{number_of_look};

use regex_lite::Look;

/// The empty text.
pub(crate) const EMPTY: u32 = 0;

/// A character.
pub(crate) const CHAR: u32 = 1;

/// A character of a set.
pub(crate) const CLASS: u32 = 2;

/// A range of a class.
pub(crate) const RANGE: u32 = 3;

/// A look.
pub(crate) const LOOK: u32 = 4;

/// A repetition.
pub(crate) const REPETITION: u32 = 5;

/// A group.
pub(crate) const CAPTURE: u32 = 6;

/// A concatenation.
pub(crate) const CONCAT: u32 = 7;

/// An alternation.
pub(crate) const ALTERNATION: u32 = 8;

/// The number of a look, from 1 on.
pub(crate) fn number_of_look(look: Look) -> u32
    ensures { result ≡ number_of_look look }
{
    match look {
        Look::Start => 1,
        Look::End => 2,
        Look::StartLF => 3,
        Look::EndLF => 4,
        Look::StartCRLF => 5,
        Look::EndCRLF => 6,
        Look::Word => 7,
        Look::WordNegate => 8,
        Look::WordStart => 9,
        Look::WordEnd => 10,
        Look::WordStartHalf => 11,
        Look::WordEndHalf => 12,
    }
}
