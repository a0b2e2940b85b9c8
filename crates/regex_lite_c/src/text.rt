//! The caller's texts.
ghost use Rattle.std.specs.Prelude.{◌≡◌, ◌↔◌, IsTrue, IsUtf8, MatchResult, IsCharBoundary};
ghost use Rattle.regex_lite_c.specs.Answers.{IsRefusedText};

use crate::answer::{BAD_OFFSET, NOT_TEXT};

/// Whether these bytes are valid UTF-8.
#[unsafe(no_mangle)]
pub extern "C" fn regex_lite_is_text(bytes: &[u8]) -> bool
    ensures { IsTrue result ↔ IsUtf8 bytes.now }
{
    std::str::from_utf8(bytes).is_ok()
}

/// The bytes as a text, if they are valid UTF-8 and the offset is on a character boundary;
/// otherwise the answer that says why not.
pub(crate) fn text_from(bytes: &[u8], start: usize) -> Result<&str, u32>
    ensures { MatchResult result
        (λ text. (text.now ≡ bytes.now) × IsUtf8 bytes.now × IsCharBoundary bytes.now start)
        (λ refusal. IsRefusedText bytes.now start refusal) }
{
    let Ok(text) = std::str::from_utf8(bytes) else {
        return Err(NOT_TEXT);
    };
    if !text.is_char_boundary(start) {
        return Err(BAD_OFFSET);
    }
    Ok(text)
}
