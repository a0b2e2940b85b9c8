//! Where a word stands.
ghost use Rattle.std.specs.Prelude.{◌≤◌, ◌<◌, ◌+◌, ◌↔◌, IsTrue, MatchOption, drop, length};
ghost use Rattle.regex_lite_syntax.specs.Prefilter.Words.{StartsWith};

use crate::prefilter::words::letter::Letter;

/// Whether the word stands at this offset.
#[inline(always)]
pub(crate) fn stands(word: &[Letter], bytes: &[u8], at: usize) -> bool
    requires { at ≤ length bytes.now }
    ensures { IsTrue result ↔ StartsWith word.now (drop at bytes.now) }
{
    let len = word.len();
    if bytes.len() - at < len {
        return false;
    }
    // Words that may stand at one offset mostly begin alike, so the last letter tells them apart.
    if len > 0 && !word[len - 1].is(bytes[at + len - 1]) {
        return false;
    }
    wrong_letter(word, bytes, at).is_none()
}

/// The first letter of the word that isn't where it would be if the word stood at this offset.
/// None if the word stands there.
///
/// Condition: there are as many bytes from the offset on as the word has letters.
#[inline(always)]
pub(crate) fn wrong_letter(word: &[Letter], bytes: &[u8], at: usize) -> Option<usize>
    requires { at + length word.now ≤ length bytes.now }
    ensures { MatchOption result (StartsWith word.now (drop at bytes.now))
        (λ k. (k < length word.now) × ¬ StartsWith word.now (drop at bytes.now)) }
{
    'letters: for k in 0..word.len() {
        if !word[k].is(bytes[at + k]) {
            return Some(k);
        }
    }
    None
}
