//! The caller's buffers for bytes.
ghost use Rattle.std.specs.Prelude.{◌≡◌, IfSome, MatchResult, None};
ghost use Rattle.std.specs.Fn.{FnOnceReturnsAt};
ghost use Rattle.regex_lite_c.specs.Buffers.{IsWritten};

use crate::answer::{NO_ROOM, NOTHING_HELD, YES};
use crate::handle::Holds;
use std::alloc::Global;

/// Writes a text to the buffer, or nothing if that is too small, and writes the text's length.
pub(crate) fn write(text: &[u8], buffer: &mut [u8], len: &mut usize) -> u32
    ensures { IsWritten text.now buffer.old buffer.new len.new result }
{
    *len = text.len();
    if text.len() > buffer.len() {
        return NO_ROOM;
    }
    buffer[..text.len()].copy_from_slice(text);
    YES
}

/// Writes the text that `find` finds in the value that is held, or returns the answer for its
/// absence.
pub(crate) fn write_from<H: Holds, F: FnOnce(&H::Value) -> Result<&str, u32>>(
    alloc: Global,
    handle: &mut H,
    buffer: &mut [u8],
    len: &mut usize,
    find: F,
) -> u32
    requires { F.IsAlwaysCallable find }
    ensures same { H.held handle.new ≡ H.held handle.old }
    ensures nothing_held { H.held handle.old ≡ None
        → (result ≡ NOTHING_HELD) × (buffer.new ≡ buffer.old) × (len.new ≡ len.old) }
    ensures found { IfSome (H.held handle.old) (λ value.
        (found : _) × FnOnceReturnsAt F.FnOnce find value found × MatchResult found
        (λ text. IsWritten text.now buffer.old buffer.new len.new result)
        (λ answer. (result ≡ answer) × (buffer.new ≡ buffer.old) × (len.new ≡ len.old))) }
{
    let Some(value) = handle.take(alloc) else {
        return NOTHING_HELD;
    };
    let answer = write_found(find(&*value), buffer, len);
    handle.put(value);
    answer
}

/// Writes this text, or returns the answer for its absence.
fn write_found(found: Result<&str, u32>, buffer: &mut [u8], len: &mut usize) -> u32
    ensures { MatchResult found.entry
        (λ text. IsWritten text.now buffer.old buffer.new len.new result)
        (λ answer. (result ≡ answer) × (buffer.new ≡ buffer.old) × (len.new ≡ len.old)) }
{
    match found {
        Ok(text) => write(text.as_bytes(), buffer, len),
        Err(answer) => answer,
    }
}
