//! A list of words, one after another in the same memory.
ghost use Rattle.std.specs.Prelude.{◌≡◌, ◌<◌, ◌≤◌, ◌-◌, ◌∷◌, ◌++◌, [], IfOk, drop, length};
ghost use Rattle.std.specs.Prelude.{slice_index, take, true};
ghost use Rattle.regex_lite_syntax.specs.Prefilter.WordLists.{all_words};
ghost use Rattle.regex_lite_syntax.specs.Prefilter.Words.{word_at};

use crate::prefilter::words::MOST;
use crate::prefilter::words::letter::Letter;
use std::alloc::{AllocError, Global};
use std::marker::Model;

/// Words, one at least. Letters are added to the last one.
#[derive(Drop)]
pub(crate) struct WordList {
    /// The letters of all words.
    letters: Vec<Letter>,
    /// Where each word but the last ends.
    ends: Vec<u32>,
    /// Where the last one begins.
    last: usize,
}

impl Model for WordList {
    ghost use Rattle.std.specs.Prelude.{◌≤◌, drop, length};
    ghost use Rattle.regex_lite_syntax.specs.Prefilter.WordLists.{AreEnds, ListOfWords};
    ghost use Rattle.regex_lite_syntax.specs.Prefilter.WordLists.{words_between};

    ghost Value = { ListOfWords };

    ghost view = { λ list. record {
      done = words_between 0 list.ends.items list.letters.items;
      last = drop list.last list.letters.items;
    } };

    ghost invariant = { λ list. AreEnds 0 list.ends.items list.last
        × (list.last ≤ length list.letters.items) };
}

/// Room for the letters of most words.
const LETTERS: usize = 16;

/// Room for each of many words.
const LETTERS_EACH: usize = 6;

/// With more letters no words are begun.
const MOST_LETTERS: usize = 1 << 20;

impl WordList {
    /// One word without letters.
    pub(super) fn new(alloc: Global) -> WordList
        ensures done { result.done ≡ [] }
        ensures last { result.last ≡ [] }
    {
        WordList {
            letters: Vec::new(alloc),
            ends: Vec::new(alloc),
            last: 0,
        }
    }

    /// How many words there are.
    pub(super) fn len(&self) -> usize
        ensures { result ≡ length (all_words self.now) }
    {
        self.ends.len() + 1
    }

    /// The word with this number.
    #[inline(always)]
    pub(super) fn word(&self, number: usize) -> &[Letter]
        requires { number < length (all_words self.now) }
        ensures { result.now ≡ word_at (all_words self.now) number }
    {
        let from = begin_of(&self.ends, number);
        let end = end_of(&self.ends, self.letters.len(), number);
        part(&self.letters, from, end)
    }

    /// The last word.
    pub(super) fn last(&self) -> &[Letter]
        ensures { result.now ≡ self.now.last }
    {
        &self.letters[self.last..]
    }

    /// Adds a letter to the last word.
    ///
    /// # Errors
    ///
    /// If memory runs out.
    pub(super) fn push(&mut self, letter: Letter) -> Result<(), AllocError>
        ensures { IfOk result (λ _. self.new ≡ record self.old {
          last = self.old.last ++ letter ∷ [];
        }) }
    {
        add_letter(&mut self.letters, letter)?;
        Ok(())
    }

    /// Adds letters to the last word.
    ///
    /// # Errors
    ///
    /// If memory runs out.
    pub(super) fn push_all(&mut self, letters: &[Letter]) -> Result<(), AllocError>
        ensures { IfOk result (λ _. self.new ≡ record self.old {
          last = self.old.last ++ letters.now;
        }) }
    {
        self.letters.extend_from_slice(letters)?;
        Ok(())
    }

    /// Removes all words and letters: one word without letters is left.
    pub(super) fn clear(&mut self)
        ensures done { self.new.done ≡ [] }
        ensures last { self.new.last ≡ [] }
    {
        self.letters.clear();
        self.ends.clear();
        self.last = 0;
    }

    /// Makes room for this number of words more, if they are as many as are looked for.
    ///
    /// # Errors
    ///
    /// If memory runs out.
    pub(super) fn reserve(&mut self, words: usize) -> Result<(), AllocError>
        ensures { self.new ≡ self.old }
    {
        if words <= MOST {
            self.ends.reserve(words)?;
            self.letters.reserve(words * LETTERS_EACH)?;
        }
        Ok(())
    }

    /// Adds a word without letters. Returns whether there was room.
    ///
    /// # Errors
    ///
    /// If memory runs out.
    pub(super) fn begin_word(&mut self) -> Result<bool, AllocError>
        ensures { IfOk result (λ begun. begun ≡ true → self.new ≡ record {
          done = self.old.done ++ self.old.last ∷ [];
          last = [];
        }) }
    {
        let end = self.letters.len();
        if end > MOST_LETTERS {
            return Ok(false);
        }
        self.ends.push(end as u32)?;
        self.last = end;
        Ok(true)
    }
}

/// Where the word with this number begins, by the ends of all but the last.
#[inline(always)]
fn begin_of(ends: &[u32], number: usize) -> usize
    requires { number ≤ length ends.now }
    ensures { result ≡ slice_index (0 ∷ ends.now) number }
{
    if number == 0 {
        return 0;
    }
    ends[number - 1] as usize
}

/// Where it ends. The last one ends there.
#[inline(always)]
fn end_of(ends: &[u32], last: usize, number: usize) -> usize
    requires { number ≤ length ends.now }
    ensures { result ≡ slice_index (ends.now ++ last ∷ []) number }
{
    if number == ends.len() {
        return last;
    }
    ends[number] as usize
}

/// The letters from one of them up to another.
#[inline(always)]
fn part(letters: &[Letter], from: usize, end: usize) -> &[Letter]
    requires order { from ≤ end }
    requires inside { end ≤ length letters.now }
    ensures { result.now ≡ take (end - from) (drop from letters.now) }
{
    &letters[from..end]
}

/// Adds a letter. Where there is no room, some more is requested than for one.
///
/// # Errors
///
/// If memory runs out.
fn add_letter(letters: &mut Vec<Letter>, letter: Letter) -> Result<(), AllocError>
    ensures added { IfOk result (λ _. letters.new.items ≡ letters.old.items ++ letter ∷ []) }
    ensures grown { length letters.old.items ≤ length letters.new.items }
{
    if letters.len() == letters.capacity() {
        letters.reserve(LETTERS)?;
    }
    letters.push(letter)?;
    Ok(())
}
