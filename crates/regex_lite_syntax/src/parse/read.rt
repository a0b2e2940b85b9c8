//! Single characters of a pattern, by their index.
ghost use Rattle.std.specs.Prelude.{◌≡◌, ◌<◌, ◌≤◌, ◌+◌, [], ◌∷◌, IsTrue};
ghost use Rattle.std.specs.Prelude.{false, MatchOption, drop, length};
ghost use Rattle.regex_lite_syntax.specs.Text.{Begins};

/// The character at the index, if one is left there.
pub(crate) fn char_at(chars: &[char], at: usize) -> Option<char>
    requires { at ≤ length chars.now }
    ensures { MatchOption result (drop at chars.now ≡ [])
        (λ c. (at < length chars.now) × (drop at chars.now ≡ c ∷ drop (at + 1) chars.now)) }
{
    chars.get(at).copied()
}

/// Whether this character is at the index.
pub(crate) fn is_at(chars: &[char], at: usize, c: char) -> bool
    requires { at ≤ length chars.now }
    ensures there { IsTrue result →
        (at < length chars.now) × (drop at chars.now ≡ c ∷ drop (at + 1) chars.now) }
    ensures absent { result ≡ false → Begins c (drop at chars.now) → ⊥ }
{
    at < chars.len() && chars[at] == c
}
