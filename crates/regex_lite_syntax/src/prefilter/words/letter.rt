//! The letters of a word.
//!
//! A letter is a byte or another, and not a byte and a mask. Both tests take as long, and this one
//! needs no law of bits.
ghost use Rattle.std.specs.Prelude.{◌≡◌, ◌%◌, ◌↔◌, IsTrue};

/// A byte of a word. Where the word may be in any case, it is a letter in one of two cases, and
/// else both are the same. The two cases of an ASCII letter have the same five lowest bits.
#[derive(Clone, Copy)]
pub(crate) struct Letter {
    pub byte: u8,
    pub other: u8,
    pub ghost same: { other % 32 ≡ byte % 32 },
}

impl Letter {
    ghost use Rattle.regex_lite_syntax.specs.Prefilter.Words.{IsLetter};

    /// This byte alone.
    pub(crate) fn exact(byte: u8) -> Letter
        ensures byte { result.byte ≡ byte }
        ensures other { result.other ≡ byte }
    {
        Letter { byte, other: byte }
    }

    /// Whether it is this byte.
    // Without a branch, since it is asked of many bytes at once.
    #[inline(always)]
    pub(crate) fn is(self, byte: u8) -> bool
        ensures { IsTrue result ↔ IsLetter self byte }
    {
        (byte == self.byte) | (byte == self.other)
    }

    /// Whether there is but one byte.
    pub(crate) fn is_exact(self) -> bool
        ensures { IsTrue result ↔ (self.other ≡ self.byte) }
    {
        self.other == self.byte
    }
}
