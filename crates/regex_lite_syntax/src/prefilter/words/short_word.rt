//! Words of few letters.
ghost use Rattle.std.specs.Prelude.{◌≡◌, ◌<◌, ◌∷◌, ◌++◌, [], false, length};

use crate::prefilter::words::letter::Letter;
use std::marker::Model;

/// How many letters there is room for. As many rule out enough.
const ROOM: usize = 8;

/// A word for whose letters no memory is requested.
#[derive(Drop)]
pub(crate) struct ShortWord {
    letters: [Letter; ROOM],
    len: usize,
}

impl Model for ShortWord {
    ghost use Rattle.std.specs.Prelude.{◌≤◌, List, take};
    ghost use Rattle.regex_lite_syntax.specs.declared.prefilter.words.letter.Letter.{Letter};

    ghost Value = { List Letter };

    ghost view = { λ word. take word.len word.letters };

    ghost invariant = { λ word. word.len ≤ 8 };
}

impl ShortWord {
    /// One without letters.
    pub(super) fn new() -> ShortWord
        ensures { result ≡ [] }
    {
        ShortWord {
            letters: [Letter::exact(0); ROOM],
            len: 0,
        }
    }

    /// How many letters it has.
    pub(super) fn len(&self) -> usize
        ensures { result ≡ length self.now }
    {
        self.letters().len()
    }

    /// Its letters.
    pub(super) fn letters(&self) -> &[Letter]
        ensures { result.now ≡ self.now }
    {
        &self.letters[..self.len]
    }

    /// Whether there is no room for a letter more.
    pub(super) fn is_full(&self) -> bool
        ensures { result ≡ false → length self.now < 8 }
    {
        self.len == ROOM
    }

    /// Adds a letter.
    ///
    /// Condition: there is room for it.
    pub(super) fn push(&mut self, letter: Letter)
        requires { length self.old < 8 }
        ensures { self.new ≡ self.old ++ letter ∷ [] }
    {
        self.letters[self.len] = letter;
        self.len += 1;
    }

    /// Removes all letters.
    pub(super) fn clear(&mut self)
        ensures { self.new ≡ [] }
    {
        self.len = 0;
    }

    /// Becomes the same as the other.
    pub(super) fn set_to(&mut self, other: &ShortWord)
        ensures { self.new ≡ other.now }
    {
        self.letters = other.letters;
        self.len = other.len;
    }
}
