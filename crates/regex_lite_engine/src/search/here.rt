//! Positions in the haystack.
ghost use Rattle.std.specs.Prelude.{◌≡◌, ◌+◌, ◌^◌, ◌<◌, ℕ, IsSome, MatchOption, None, Some};
ghost use Rattle.std.specs.Prelude.{IsCharBoundary, chars, drop, slice_get};
ghost use Rattle.std.specs.Char.{len_utf8};
ghost use Rattle.regex_lite_syntax.specs.Text.{after, before};
ghost use Rattle.regex_lite_engine.specs.Search.Offsets.{position_at, IsOffset};

/// An offset into the haystack, with the characters before and after it.
#[derive(Clone, Copy)]
pub struct Here {
    pub before: Option<char>,
    pub after: Option<char>,
    pub at: usize,
    /// The next offset doesn't overflow, since no haystack is that long.
    pub ghost small: { at + 1 < 2 ^ 64 },
}

impl Here {
    ghost use Rattle.regex_lite_engine.specs.Search.Here.{IsHere};

    /// The position at this offset.
    ///
    /// Condition: the offset is on a character boundary.
    pub fn at(haystack: &str, at: usize) -> Here
        requires { IsCharBoundary haystack.now at }
        ensures here { IsHere (chars haystack.now) (position_at haystack.now at) result }
        ensures at { result.at ≡ at }
    {
        let _bytes = haystack.len();
        Here {
            before: last_char(haystack, at),
            after: first_char(haystack, at),
            at,
        }
    }

    /// The position after the next character.
    ///
    /// Condition: the position is one of the haystack, and there is a next character.
    #[inline(always)]
    pub fn next(self, haystack: &str) -> Here
        requires { (p : ℕ) × IsHere (chars haystack.now) p self × IsSome self.after }
        ensures { (p : ℕ) → IsHere (chars haystack.now) p self
            → IsHere (chars haystack.now) (p + 1) result }
    {
        let Some(c) = self.after else {
            return self;
        };
        // The sum doesn't overflow, since the length of a haystack is a `usize`.
        let _bytes = haystack.len();
        let at = self.at + byte_len(c);
        Here {
            before: Some(c),
            after: first_char(haystack, at),
            at,
        }
    }
}

/// The length of the character in bytes.
pub fn byte_len(c: char) -> usize
    ensures { result ≡ len_utf8 c }
{
    if c.is_ascii() { 1 } else { wide_len(c) }
}

/// The length in bytes of a character that isn't ASCII.
// Not inlined, so that an ASCII character takes a single test.
#[inline(never)]
fn wide_len(c: char) -> usize
    ensures { result ≡ len_utf8 c }
{
    c.len_utf8()
}

/// The character that begins at this offset.
///
/// Condition: the offset is on a character boundary.
pub fn first_char(haystack: &str, at: usize) -> Option<char>
    requires { IsCharBoundary haystack.now at }
    ensures { result ≡ slice_get (chars (drop at haystack.now)) 0 }
{
    haystack[at..].chars().next()
}

/// The next character, and the offset after it.
///
/// Condition: the offset is on a character boundary.
#[inline(always)]
pub fn next_char(haystack: &str, at: usize) -> Option<(char, usize)>
    requires { IsCharBoundary haystack.now at }
    ensures { MatchOption result
        (after (chars haystack.now) (position_at haystack.now at) ≡ None)
        (λ reported. (after (chars haystack.now) (position_at haystack.now at) ≡ Some reported.0)
        × (reported.1 ≡ at + len_utf8 reported.0)) }
{
    match first_char(haystack, at) {
        None => None,
        Some(c) => Some((c, at + byte_len(c))),
    }
}

/// The character that ends at this offset.
///
/// Condition: the offset is on a character boundary.
pub fn last_char(haystack: &str, at: usize) -> Option<char>
    requires { IsCharBoundary haystack.now at }
    ensures { (p : ℕ) → IsOffset (chars haystack.now) p at
        → result ≡ before (chars haystack.now) p }
{
    match haystack[..at].chars().next_back() {
        None => None,
        Some(c) => Some(c),
    }
}
