//! The outline of a pattern, written to the caller's buffer.
ghost use Rattle.std.specs.Prelude.{◌≡◌, ◌<◌, ◌≤◌, IfOk, IfErr, length};
ghost use Rattle.regex_lite_syntax.specs.Errors.{out_of_memory};
ghost use Rattle.regex_lite.specs.Outlines.{AreParts, IsDueOnReading, IsReadable};
ghost use Rattle.regex_lite_c.specs.Options.{settings_of};
ghost use Rattle.regex_lite_c.specs.Outlines.{IsOutlineAnswer, written_part};
ghost use Rattle.regex_lite_c.specs.Spans.{AreWrittenAs};

pub(crate) mod kinds;
pub(crate) mod part;

use crate::answer::{NO_ROOM, NOT_TEXT, YES, number_of};
use crate::build::{builder_of, write_message};
use crate::types::Options;
use part::{Outlined, WrittenPart};
use regex_lite::{Error, Part};
use std::alloc::Global;

/// Writes the parts of a pattern in order: 1, otherwise the reason. The number of parts is written
/// even if they don't fit; it is 0 if the pattern is rejected.
///
/// A pattern is rejected if `regex_lite_new` rejects it, with the same message, but never for the
/// size of its NFA: the size limit doesn't matter.
#[unsafe(no_mangle)]
pub extern "C" fn regex_lite_outline(
    alloc: Global,
    pattern: &[u8],
    options: &Options,
    parts: &mut [WrittenPart],
    message: &mut [u8],
    outlined: &mut Outlined,
) -> u32
    ensures { IsOutlineAnswer (settings_of pattern.now options.now) result parts.old parts.new
        message.old message.new outlined.new }
{
    *outlined = Outlined {
        count: 0,
        message_len: 0,
    };
    let Ok(pattern) = std::str::from_utf8(pattern) else {
        return NOT_TEXT;
    };
    match parts_of(alloc, pattern, options) {
        Ok(found) => write_parts(&found, parts, &mut outlined.count),
        Err(error) => {
            write_message(&error, message, &mut outlined.message_len);
            number_of(&error)
        }
    }
}

/// The parts of the pattern under these options.
fn parts_of(alloc: Global, pattern: &str, options: &Options) -> Result<Vec<Part>, Error>
    ensures parts { IfOk result
        (λ parts. AreParts (settings_of pattern.now options.now) parts.items) }
    ensures refused { IfErr result (IsDueOnReading (settings_of pattern.now options.now)) }
    ensures complete { IfErr result
        (λ error. IsReadable (settings_of pattern.now options.now) → error ≡ out_of_memory) }
{
    builder_of(alloc, pattern, options)?.outline()
}

/// Writes the parts, or nothing if they don't fit, and writes their number.
fn write_parts(found: &[Part], parts: &mut [WrittenPart], count: &mut usize) -> u32
    ensures count { count.new ≡ length found.now }
    ensures written { count.new ≤ length parts.old → (result ≡ YES)
        × AreWrittenAs written_part found.now parts.old parts.new }
    ensures no_room { length parts.old < count.new
        → (result ≡ NO_ROOM) × (parts.new ≡ parts.old) }
{
    *count = found.len();
    if parts.len() < *count {
        return NO_ROOM;
    }
    put_parts(found, parts);
    YES
}

/// Writes the parts.
fn put_parts(found: &[Part], parts: &mut [WrittenPart])
    requires { length found.now ≤ length parts.old }
    ensures { AreWrittenAs written_part found.now parts.old parts.new }
{
    for k in 0..found.len() {
        parts[k] = WrittenPart::of(&found[k]);
    }
}
