//! A slot of a row, in one word.
ghost use Rattle.std.specs.Prelude.{◌≡◌, ◌+◌, ◌<◌, ◌^◌, None, Some};

use std::marker::Model;

/// The content of a slot: an offset, or none. An `Option` would take two words.
#[derive(Clone, Copy)]
pub struct Slot {
    /// One more than the offset, or 0.
    word: usize,
}

impl Model for Slot {
    ghost use Rattle.std.specs.Prelude.{ℕ, Option};
    ghost use Rattle.std.proofs.Common.{ap};
    ghost use Rattle.regex_lite_engine.specs.Search.Slots.{held_in, word_of, word_back};

    ghost Value = { Option ℕ };

    ghost view = { λ slot. held_in slot.word };

    ghost inverse = { λ held. record { word = word_of held } };

    ghost inverse_ok = { λ slot _. ap (λ word. record { word = word }) (word_back slot.word) };
}

impl Slot {
    /// A slot without an offset.
    pub fn blank() -> Slot
        ensures { result ≡ None }
    {
        Slot { word: 0 }
    }

    /// A slot with this offset.
    pub fn marked(at: usize) -> Slot
        requires { at + 1 < 2 ^ 64 }
        ensures { result ≡ Some at }
    {
        Slot { word: at + 1 }
    }

    /// The offset of the slot.
    pub fn get(self) -> Option<usize>
        ensures { result ≡ self }
    {
        if self.word == 0 {
            None
        } else {
            Some(self.word - 1)
        }
    }
}
