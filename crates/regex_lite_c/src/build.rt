//! Building and freeing regexes.
ghost use Rattle.std.specs.Prelude.{◌≡◌, ◌-◌, ◌^◌, None, IfOk, IfErr, length, min};
ghost use Rattle.regex_lite_syntax.specs.Errors.{out_of_memory, text_of};
ghost use Rattle.regex_lite.specs.Expression.{Builds, IsAccepted, IsDue, expression_of};
ghost use Rattle.regex_lite_c.specs.Building.{IsBuildAnswer, IsMessage};
ghost use Rattle.regex_lite_c.specs.Options.{flags_of, settings_of};

use crate::answer::{NOT_TEXT, YES, number_of};
use crate::buffer;
use crate::handle::{Handle, Holds};
use crate::types::Options;
use regex_lite::{Error, Regex, RegexBuilder};
use std::alloc::Global;

/// Builds the regex of a pattern: 1, and the handle holds it. Otherwise the reason, and the handle
/// holds nothing.
///
/// What was held before is freed. The text of an error is written to the buffer for a message, if
/// that is large enough. Its length is written either way, and is 0 if there is no text.
#[unsafe(no_mangle)]
pub extern "C" fn regex_lite_new(
    alloc: Global,
    handle: &mut Handle,
    pattern: &[u8],
    options: &Options,
    message: &mut [u8],
    message_len: &mut usize,
) -> u32
    ensures { IsBuildAnswer (settings_of pattern.now options.now) result handle.new.value
        message.old message.new message_len.new }
{
    let _freed = handle.take(alloc);
    *message_len = 0;
    let Ok(pattern) = std::str::from_utf8(pattern) else {
        return NOT_TEXT;
    };
    match built(alloc, pattern, options) {
        Ok(regex) => {
            handle.put(regex);
            YES
        }
        Err(error) => {
            write_message(&error, message, message_len);
            number_of(&error)
        }
    }
}

/// Frees the regex, if one is held.
#[unsafe(no_mangle)]
pub extern "C" fn regex_lite_free(alloc: Global, handle: &mut Handle)
    ensures { handle.new.value ≡ None }
{
    drop(handle.take(alloc));
}

/// The regex of this pattern under these options, on the heap.
fn built(alloc: Global, pattern: &str, options: &Options) -> Result<Box<Regex, Global>, Error>
    ensures ok { IfOk result
        (λ regex. regex.value ≡ expression_of (settings_of pattern.now options.now)) }
    ensures accepted { IfOk result (λ _. IsAccepted (settings_of pattern.now options.now)) }
    ensures refused { IfErr result (IsDue (settings_of pattern.now options.now)) }
    ensures complete { IfErr result
        (λ error. IsAccepted (settings_of pattern.now options.now) → error ≡ out_of_memory) }
{
    let regex = regex_of(alloc, pattern, options)?;
    Ok(Box::new(alloc, regex)?)
}

/// The regex of this pattern under these options.
pub(crate) fn regex_of(alloc: Global, pattern: &str, options: &Options) -> Result<Regex, Error>
    ensures { Builds (settings_of pattern.now options.now) result }
{
    builder_of(alloc, pattern, options)?.build()
}

/// A builder of this pattern under these options.
pub(crate) fn builder_of(
    alloc: Global,
    pattern: &str,
    options: &Options,
) -> Result<RegexBuilder, Error>
    ensures ok { IfOk result (λ builder. builder ≡ settings_of pattern.now options.now) }
    ensures refused { IfErr result (λ error. error ≡ out_of_memory) }
{
    let mut builder = RegexBuilder::new(alloc, pattern)?;
    set_flags(&mut builder, options);
    set_limits(&mut builder, options);
    Ok(builder)
}

/// Sets the flags of these options.
fn set_flags(builder: &mut RegexBuilder, options: &Options)
    ensures { builder.new ≡ record builder.old { flags = flags_of options.now } }
{
    builder.case_insensitive(options.case_insensitive);
    builder.multi_line(options.multi_line);
    builder.dot_matches_new_line(options.dot_matches_new_line);
    builder.crlf(options.crlf);
    builder.swap_greed(options.swap_greed);
    builder.ignore_whitespace(options.ignore_whitespace);
}

/// Sets the limits of these options.
fn set_limits(builder: &mut RegexBuilder, options: &Options)
    ensures { builder.new ≡ record builder.old {
      nest_limit = min options.now.nest_limit (2 ^ 32 - 2);
      size_limit = options.now.size_limit;
    } }
{
    builder.nest_limit(options.nest_limit);
    builder.size_limit(options.size_limit);
}

/// Writes the error's text to the buffer, if that is large enough, and writes its length.
pub(crate) fn write_message(error: &Error, message: &mut [u8], len: &mut usize)
    ensures { IsMessage (text_of error.now) message.old message.new len.new }
{
    buffer::write(error.text().as_bytes(), message, len);
}
