//! New texts: a text with its matches replaced, and the pattern that matches a text.
ghost use Rattle.std.specs.Prelude.{◌≡◌, ◌≢◌, ◌⊎◌, IfOk, IfSome, IsUtf8, None};
ghost use Rattle.std.specs.Cow.{cow_str_bytes};
ghost use Rattle.regex_lite.specs.Escapes.{escaped_pattern};
ghost use Rattle.regex_lite_c.specs.Replacing.{IsReplaced, IsTextAnswer};

use crate::answer::{NOT_TEXT, NOTHING_HELD, OUT_OF_MEMORY};
use crate::buffer;
use crate::handle::{Handle, Holds};
use crate::types::Replacing;
use regex_lite::{Error, NoExpand, Regex};
use std::alloc::Global;
use std::borrow::CowStr;

/// Writes the text with its matches replaced to the buffer: 1. The new text's length and the number
/// of matches that were replaced are written to `replacing` either way.
#[unsafe(no_mangle)]
pub extern "C" fn regex_lite_replace(
    alloc: Global,
    handle: &mut Handle,
    text: &[u8],
    template: &[u8],
    replacing: &mut Replacing,
    buffer: &mut [u8],
) -> u32
    ensures same { handle.new.value ≡ handle.old.value }
    ensures how { (replacing.new.limit ≡ replacing.old.limit)
        × (replacing.new.is_literal ≡ replacing.old.is_literal) }
    ensures nothing_held { handle.old.value ≡ None → (result ≡ NOTHING_HELD)
        × (replacing.new ≡ replacing.old) × (buffer.new ≡ buffer.old) }
    ensures answer { IfSome handle.old.value (λ re. IsTextAnswer
        (IsUtf8 text.now × IsUtf8 template.now)
        (λ new. IsReplaced re text.now template.now replacing.old new replacing.new.count)
        buffer.old buffer.new replacing.old.len replacing.new.len result) }
    ensures not_counted { (result ≡ NOT_TEXT) ⊎ (result ≡ OUT_OF_MEMORY)
        → replacing.new.count ≡ replacing.old.count }
{
    let Some(regex) = handle.take(alloc) else {
        return NOTHING_HELD;
    };
    let answer = replace(&regex, text, template, replacing, buffer);
    handle.put(regex);
    answer
}

/// Writes the text with the matches of this regex replaced.
fn replace(
    regex: &Regex,
    text: &[u8],
    template: &[u8],
    replacing: &mut Replacing,
    buffer: &mut [u8],
) -> u32
    ensures how { (replacing.new.limit ≡ replacing.old.limit)
        × (replacing.new.is_literal ≡ replacing.old.is_literal) }
    ensures held { result ≢ NOTHING_HELD }
    ensures answer { IsTextAnswer (IsUtf8 text.now × IsUtf8 template.now)
        (λ new. IsReplaced regex.now text.now template.now replacing.old new replacing.new.count)
        buffer.old buffer.new replacing.old.len replacing.new.len result }
    ensures not_counted { (result ≡ NOT_TEXT) ⊎ (result ≡ OUT_OF_MEMORY)
        → replacing.new.count ≡ replacing.old.count }
{
    let Ok(text) = std::str::from_utf8(text) else {
        return NOT_TEXT;
    };
    let Ok(template) = std::str::from_utf8(template) else {
        return NOT_TEXT;
    };
    match replaced(regex, text, template, replacing) {
        Ok((new, count)) => {
            replacing.count = count;
            buffer::write(new.as_str().as_bytes(), buffer, &mut replacing.len)
        }
        Err(_) => OUT_OF_MEMORY,
    }
}

/// The text with the matches of this regex replaced, and their number.
fn replaced<'h>(
    regex: &Regex,
    text: &'h str,
    template: &str,
    replacing: &Replacing,
) -> Result<(CowStr<'h>, usize), Error>
    ensures { IfOk result (λ new. IsReplaced regex.now text.now template.now replacing.now
        (cow_str_bytes new.0) new.1) }
{
    if replacing.is_literal {
        regex.replacen_counted(text, replacing.limit, &mut NoExpand(template))
    } else {
        let mut template = template;
        regex.replacen_counted(text, replacing.limit, &mut template)
    }
}

/// Writes a pattern that matches exactly this text to the buffer: 1.
#[unsafe(no_mangle)]
pub extern "C" fn regex_lite_escape(
    alloc: Global,
    text: &[u8],
    buffer: &mut [u8],
    len: &mut usize,
) -> u32
    ensures { IsTextAnswer (IsUtf8 text.now) (λ new. new ≡ escaped_pattern text.now)
        buffer.old buffer.new len.old len.new result }
{
    let Ok(text) = std::str::from_utf8(text) else {
        return NOT_TEXT;
    };
    match regex_lite::escape(alloc, text) {
        Ok(pattern) => buffer::write(pattern.as_str().as_bytes(), buffer, len),
        Err(_) => OUT_OF_MEMORY,
    }
}
