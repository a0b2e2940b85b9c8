//! The version of the library, and the texts of its answers.
ghost use Rattle.std.specs.Prelude.{◌≡◌};
ghost use Rattle.regex_lite_c.specs.AnswerTexts.{answer_text};
ghost use Rattle.regex_lite_c.specs.Buffers.{IsWritten};
ghost use Rattle.regex_lite_c.specs.declared.version.TheConstants.{VERSION};

use crate::answer::text_of_answer;
use crate::buffer;
use crate::version::VERSION;

/// Writes the version of the library to the buffer: 1. Its length is written either way.
#[unsafe(no_mangle)]
pub extern "C" fn regex_lite_version(buffer: &mut [u8], len: &mut usize) -> u32
    ensures { IsWritten VERSION.now buffer.old buffer.new len.new result }
{
    buffer::write(VERSION.as_bytes(), buffer, len)
}

/// Writes the text of an answer to the buffer: 1. A number that isn't an answer has a text too. The
/// text's length is written either way.
#[unsafe(no_mangle)]
pub extern "C" fn regex_lite_strerror(answer: u32, buffer: &mut [u8], len: &mut usize) -> u32
    ensures { IsWritten (answer_text answer) buffer.old buffer.new len.new result }
{
    buffer::write(text_of_answer(answer).as_bytes(), buffer, len)
}
