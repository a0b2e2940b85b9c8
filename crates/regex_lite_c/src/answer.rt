//! The numbers that calls return.
ghost use Rattle.std.specs.Prelude.{◌≡◌, cond};
ghost use Rattle.regex_lite_syntax.specs.Errors.{kind_of};
ghost use Rattle.regex_lite_c.specs.AnswerTexts.{answer_text};
ghost use Rattle.regex_lite_c.specs.Answers.{number_of};

use regex_lite::{Error, ErrorKind};

/// No: there is no match, or none is left.
pub(crate) const NO: u32 = 0;

/// Yes, and whatever the call writes was written completely.
pub(crate) const YES: u32 = 1;

/// The handle holds nothing.
pub(crate) const NOTHING_HELD: u32 = 2;

/// The bytes aren't valid UTF-8.
pub(crate) const NOT_TEXT: u32 = 3;

/// The offset is above the text's length or isn't on a character boundary.
pub(crate) const BAD_OFFSET: u32 = 4;

/// The buffer is too small for the first thing to write, and is unchanged.
pub(crate) const NO_ROOM: u32 = 5;

/// Memory ran out.
pub(crate) const OUT_OF_MEMORY: u32 = 6;

/// There is no group with this index.
pub(crate) const NO_GROUP: u32 = 7;

/// The list has no pattern with this number.
pub(crate) const NO_PATTERN: u32 = 8;

/// The grammar has no tree for the pattern.
pub(crate) const SYNTAX: u32 = 10;

/// The pattern exceeds the limit on nesting.
pub(crate) const NESTING: u32 = 11;

/// The pattern has more groups than can be numbered.
pub(crate) const GROUPS: u32 = 12;

/// The pattern exceeds the size limit.
pub(crate) const SIZE: u32 = 13;

/// The pattern has more places than can be numbered.
pub(crate) const PLACES: u32 = 14;

/// A group's slots can't be numbered.
pub(crate) const SLOTS: u32 = 15;

/// A replacer returned an error. No call here returns this, since callers can't pass replacers.
pub(crate) const REPLACE: u32 = 16;

/// Yes or no.
pub(crate) fn answer_of(is_so: bool) -> u32
    ensures { result ≡ cond is_so YES NO }
{
    if is_so { YES } else { NO }
}

/// The number of an error.
pub(crate) fn number_of(error: &Error) -> u32
    ensures { result ≡ number_of (kind_of error.now) }
{
    match error.kind() {
        ErrorKind::Syntax => SYNTAX,
        ErrorKind::Nesting => NESTING,
        ErrorKind::Groups => GROUPS,
        ErrorKind::Size => SIZE,
        ErrorKind::Places => PLACES,
        ErrorKind::Slots => SLOTS,
        ErrorKind::Memory => OUT_OF_MEMORY,
        ErrorKind::Replace => REPLACE,
    }
}

/// The text of an answer. A number that no call returns is an unknown answer.
pub(crate) fn text_of_answer(answer: u32) -> &'static str
    ensures { result.now ≡ answer_text answer }
{
    match answer {
        NO => "no match, or nothing is left",
        YES => "success",
        NOTHING_HELD => "the handle holds nothing",
        NOT_TEXT => "the bytes are not valid UTF-8",
        BAD_OFFSET => "an offset is out of range or inside a character",
        NO_ROOM => "the room is too small",
        OUT_OF_MEMORY => "out of memory",
        NO_GROUP => "there is no group with this index",
        NO_PATTERN => "there is no pattern with this number",
        SYNTAX => "the pattern has a syntax error",
        NESTING => "the pattern exceeds the limit on nesting",
        GROUPS => "the pattern has too many groups",
        SIZE => "the pattern exceeds the size limit",
        PLACES => "the pattern has too many places",
        SLOTS => "the pattern has too many ends of groups",
        _ => "unknown answer",
    }
}
