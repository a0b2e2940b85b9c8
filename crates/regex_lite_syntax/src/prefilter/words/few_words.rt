//! A few short words.
ghost use Rattle.std.specs.Prelude.{◌≡◌, ◌≤◌, ◌<◌, ◌++◌, ◌∷◌, [], IsTrue, length};
ghost use Rattle.regex_lite_syntax.specs.Prefilter.Words.{word_at};

use crate::prefilter::words::letter::Letter;
use crate::prefilter::words::short_word::ShortWord;
use std::marker::Model;

/// How many words there is room for. Each takes a search of its own.
pub(super) const MOST: usize = 4;

/// Words for which no memory is requested.
#[derive(Drop)]
pub(crate) struct FewWords {
    words: [ShortWord; MOST],
    len: usize,
}

impl Model for FewWords {
    ghost use Rattle.std.specs.Prelude.{◌≤◌, List, take};
    ghost use Rattle.regex_lite_syntax.specs.declared.prefilter.words.letter.Letter.{Letter};

    ghost Value = { List (List Letter) };

    ghost view = { λ few. take few.len few.words };

    ghost invariant = { λ few. few.len ≤ 4 };
}

impl FewWords {
    /// No words.
    pub(super) fn new() -> FewWords
        ensures { result ≡ [] }
    {
        FewWords {
            words: [
                ShortWord::new(),
                ShortWord::new(),
                ShortWord::new(),
                ShortWord::new(),
            ],
            len: 0,
        }
    }

    /// Becomes this word alone.
    pub(super) fn set_to_one(&mut self, word: &ShortWord)
        ensures { self.new ≡ word.now ∷ [] }
    {
        self.words[0].set_to(word);
        self.len = 1;
    }

    /// How many there are.
    pub(super) fn len(&self) -> usize
        ensures len { result ≡ length self.now }
        ensures few { result ≤ 4 }
    {
        self.words().len()
    }

    /// The word with this number.
    pub(super) fn word(&self, number: usize) -> &[Letter]
        requires { number < length self.now }
        ensures { result.now ≡ word_at self.now number }
    {
        self.words()[number].letters()
    }

    /// All of them.
    fn words(&self) -> &[ShortWord]
        ensures words { result.now ≡ self.now }
        ensures few { length result.now ≤ 4 }
    {
        &self.words[..self.len]
    }

    /// Adds the words of the other. Returns whether there was room.
    pub(super) fn add_all(&mut self, other: &FewWords) -> bool
        ensures { IsTrue result → self.new ≡ self.old ++ other.now }
    {
        'words: for word in other.words() {
            if self.len == MOST {
                return false;
            }
            self.words[self.len].set_to(word);
            self.len += 1;
        }
        true
    }

    /// How many letters the shortest has.
    pub(super) fn shortest(&self) -> usize {
        let mut least = usize::MAX;
        for word in self.words() {
            least = least.min(word.len());
        }
        least
    }
}
