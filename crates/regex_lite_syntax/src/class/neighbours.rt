//! The neighbours of a character: U+D7FF and U+E000 are neighbours.
ghost use Rattle.std.specs.Prelude.{◌≡◌, ◌<◌, IsTrue, MatchOption};
ghost use Rattle.regex_lite_syntax.specs.Characters.{is_character};
ghost use Rattle.regex_lite_syntax.specs.Ranges.{next_character};

/// The character after this one, if there is any.
pub(crate) fn next_char(c: char) -> Option<char>
    ensures { MatchOption result (c ≡ 0x10FFFF)
        (λ next. (c < 0x10FFFF) × (next ≡ next_character c)) }
{
    match c {
        '\u{D7FF}' => Some('\u{E000}'),
        _ => char::from_u32(u32::from(c) + 1),
    }
}

/// The character before this one, if there is any.
pub(crate) fn previous_char(c: char) -> Option<char>
    ensures { MatchOption result (c ≡ 0)
        (λ previous. IsTrue (is_character previous) × (next_character previous ≡ c)) }
{
    match c {
        '\0' => None,
        '\u{E000}' => Some('\u{D7FF}'),
        _ => char::from_u32(u32::from(c) - 1),
    }
}
