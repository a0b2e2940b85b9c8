//! Words of which one stands wherever a match begins, and searches for the next of them.
//!
//! Whether a pattern is nothing but its words is asked first, and the walk for prefixes follows
//! only if it is something else. One byte alone is a word only where it is the whole pattern, such
//! as a separator: it rules out little of what a longer pattern may begin with.
ghost use Rattle.std.specs.Prelude.{◌≡◌, ◌↔◌, ◌<◌, ◌≤◌, ◌^◌, ℕ, IfOk, IfSome};
ghost use Rattle.std.specs.Prelude.{IsCharBoundary, IsTrue, false, length};
ghost use Rattle.regex_lite_syntax.specs.Tree.Views.{tree_of};
ghost use Rattle.regex_lite_syntax.specs.Prefilter.NumberedWords.{HavePatterns, TellsWhichStand};
ghost use Rattle.regex_lite_syntax.specs.Prefilter.Spelling.{AreReportedWords};
ghost use Rattle.regex_lite_syntax.specs.Prefilter.WholeWords.{IsNextSpan};
ghost use Rattle.regex_lite_syntax.specs.Prefilter.WordLists.{all_words};
ghost use Rattle.regex_lite_syntax.specs.Prefilter.Words.{AnyStandsAt, AreLong, AreSuited};
ghost use Rattle.regex_lite_syntax.specs.Prefilter.Words.{IsLead};
ghost use Rattle.regex_lite_syntax.specs.Prefilter.Words.{IsNextWord, NoneStands, word_at};

mod branch_words;
mod few_words;
mod found_words;
mod frequency;
mod gain;
pub mod letter;
pub mod list_words;
mod needed;
mod needed_walk;
mod numbered;
mod pair;
mod shifts;
mod short_word;
mod spelling;
mod standing;
mod walk;
mod word_list;

use crate::hir::Hir;
use gain::{may_pay, shifts_pay};
pub use needed::{Needed, Reach};
use numbered::Numbered;
use pair::Pair;
use shifts::{Shifts, shortest};
use spelling::{may_begin_word, read_words};
use std::alloc::{AllocError, Global};
use std::marker::Model;
use walk::WordWalk;
use word_list::WordList;

/// More words aren't looked for.
const MOST: usize = 10_000;

/// How many letters each of several words has at least, and one with which matches of a longer
/// pattern begin. One byte alone rules little out.
const SHORTEST: usize = 2;

/// Words in the order in which the pattern has them.
#[derive(Drop)]
pub struct Words {
    list: WordList,
    finder: WordSearch,
}

/// How the next word is found.
#[derive(Drop)]
enum WordSearch {
    /// One word, by two of its letters.
    Pair(Pair),
    /// Several, by shifts.
    Shifts(Shifts),
}

impl Model for Words {
    ghost use Rattle.std.specs.Prelude.{List};
    ghost use Rattle.regex_lite_syntax.specs.declared.prefilter.words.letter.Letter.{Letter};
    ghost use Rattle.regex_lite_syntax.specs.Prefilter.Finders.{Finds};
    ghost use Rattle.regex_lite_syntax.specs.Prefilter.WordLists.{all_words};
    ghost use Rattle.regex_lite_syntax.specs.Prefilter.Words.{AreSuited};

    ghost Value = { List (List Letter) };

    ghost view = { λ words. all_words words.list };

    ghost invariant = { λ words. AreSuited (all_words words.list)
        × Finds (all_words words.list) words.finder };
}

impl Words {
    /// Those of the tree, if each match begins with one of some words, and whether the tree is one
    /// of them, the earlier preferred, and nothing else.
    ///
    /// # Errors
    ///
    /// If memory runs out.
    pub(crate) fn of(alloc: Global, hir: &Hir) -> Result<Option<(Words, bool)>, AllocError>
        ensures { IfOk result (λ reported. IfSome reported
            (λ reported. AreReportedWords (tree_of hir.now) reported.0 reported.1)) }
    {
        let mut list = WordList::new(alloc);
        if read_words(&mut list, hir)? {
            return match Words::of_list(alloc, list)? {
                None => Ok(None),
                Some(words) => Ok(Some((words, true))),
            };
        }
        list.clear();
        let Some(walked) = WordWalk::of(alloc, list, hir)? else {
            return Ok(None);
        };
        match Words::of_list(alloc, walked)? {
            None => Ok(None),
            Some(words) => Ok(Some((words, false))),
        }
    }

    /// These words, if they can be looked for and that pays.
    ///
    /// # Errors
    ///
    /// If memory runs out.
    fn of_list(alloc: Global, list: WordList) -> Result<Option<Words>, AllocError>
        ensures { IfOk result (λ reported. IfSome reported (λ words. words ≡ all_words list)) }
    {
        if list.len() > MOST || !are_suited(&list) {
            return Ok(None);
        }
        if list.len() == 1 {
            let finder = WordSearch::Pair(Pair::of(list.word(0)));
            return Ok(Some(Words { list, finder }));
        }
        if !are_long(&list) || !shifts_pay(&list, shortest(&list)) {
            return Ok(None);
        }
        let finder = WordSearch::Shifts(Shifts::of(alloc, &list)?);
        Ok(Some(Words { list, finder }))
    }

    /// The first offset from this one on at which a word stands, and the first word that stands
    /// there. A character begins there.
    ///
    /// Condition: the offset is at most the length.
    #[inline(always)]
    pub fn find(&self, bytes: &[u8], from: usize) -> Option<(usize, usize)>
        requires { from ≤ length bytes.now }
        ensures next { IsNextWord self.now bytes.now from result }
        ensures boundary { IfSome result (λ next. IsCharBoundary bytes.now next.0) }
    {
        match &self.finder {
            WordSearch::Pair(pair) => {
                let at = pair.find(self.list.word(0), bytes, from)?;
                Some((at, 0))
            }
            WordSearch::Shifts(shifts) => shifts.find(&self.list, bytes, from),
        }
    }

    /// Whether a word may stand at this offset: of several words, whether one does. Where there is
    /// one word, to compare it costs as much as to try what begins with it.
    ///
    /// Condition: the offset is at most the length.
    #[inline(always)]
    pub fn may_stand(&self, bytes: &[u8], at: usize) -> bool
        requires { at ≤ length bytes.now }
        ensures { result ≡ false → ¬ AnyStandsAt self.now bytes.now at }
    {
        match &self.finder {
            WordSearch::Pair(_) => true,
            WordSearch::Shifts(shifts) => shifts.stands_at(&self.list, bytes, at),
        }
    }

    /// How many letters each word has at least, as far as a search shifts.
    pub(super) fn reach(&self) -> usize {
        match &self.finder {
            WordSearch::Pair(_) => self.list.word(0).len(),
            WordSearch::Shifts(shifts) => shifts.reach(),
        }
    }

    /// Whether there is one word alone.
    #[inline(always)]
    pub fn is_one(&self) -> bool
        ensures { IsTrue result ↔ (length self.now ≡ 1) }
    {
        self.list.len() == 1
    }

    /// How many letters the word with this number has.
    #[inline(always)]
    fn len_of(&self, number: usize) -> usize
        requires { number < length self.now }
        ensures len { result ≡ length (word_at self.now number) }
        ensures few { result < 2 ^ 63 }
    {
        self.list.word(number).len()
    }

    /// Where the first word starts and ends that stands at the first offset from this one on at
    /// which any does.
    ///
    /// Condition: the offset is at most the length.
    #[inline(always)]
    pub fn find_span(&self, bytes: &[u8], from: usize) -> Option<(usize, usize)>
        requires { from ≤ length bytes.now }
        ensures { IsNextSpan self.now bytes.now from result }
    {
        let (at, number) = self.find(bytes, from)?;
        Some((at, at + self.len_of(number)))
    }

    /// Tells of each pattern, by its number, whether a word of it stands at this offset or after
    /// it. The owners are the numbers of the words' patterns.
    ///
    /// Conditions: each word has an owner, of which there is room for the answer, and the offset
    /// is at most the length.
    fn which_stand(&self, owners: &[u32], bytes: &[u8], from: usize, reported: &mut [bool])
        requires from { from ≤ length bytes.now }
        requires patterns { HavePatterns (record { words = self.now; owners = owners.now })
            (length reported.old) }
        ensures reported { TellsWhichStand (record { words = self.now; owners = owners.now })
            bytes.now from reported.new }
        ensures length { length reported.new ≡ length reported.old }
    {
        reported.fill(false);
        let numbered = Numbered {
            words: &self.list,
            owners,
        };
        let left = match &self.finder {
            WordSearch::Pair(_) => Some(from),
            WordSearch::Shifts(shifts) => shifts.mark(&numbered, bytes, from, reported),
        };
        if let Some(left) = left {
            numbered.mark_each(bytes, left, reported);
        }
    }

    /// The first offset from this one on at which a word stands, or the haystack's end.
    ///
    /// Condition: the offset is at most the length.
    #[inline(always)]
    pub fn next_offset(&self, haystack: &str, from: usize) -> usize
        requires { from ≤ length haystack.now }
        ensures low { from ≤ result }
        ensures high { result ≤ length haystack.now }
        ensures none { NoneStands self.now haystack.now from result }
        ensures stops { result < length haystack.now → AnyStandsAt self.now haystack.now result }
        ensures boundary { IsCharBoundary haystack.now result }
    {
        match self.find(haystack.as_bytes(), from) {
            None => haystack.len(),
            Some((at, _)) => at,
        }
    }
}

/// Whether words may be found in the tree for which a search pays. Asked first, since most patterns
/// have none.
pub(super) fn may_have_words(hir: &Hir) -> bool {
    may_begin_word(hir) && may_pay(hir)
}

/// Whether each word has a letter, and begins with the first byte of a character.
fn are_suited(list: &WordList) -> bool
    ensures { IsTrue result → AreSuited (all_words list.now) }
{
    'words: for number in 0..list.len() {
        let word = list.word(number);
        if word.is_empty() || !is_lead(word[0].byte) || !is_lead(word[0].other) {
            return false;
        }
    }
    true
}

/// Whether each word has as many letters as one of several is to have.
fn are_long(list: &WordList) -> bool
    ensures { IsTrue result → AreLong (all_words list.now) }
{
    'words: for number in 0..list.len() {
        if list.word(number).len() < SHORTEST {
            return false;
        }
    }
    true
}

/// Whether a character begins with this byte.
fn is_lead(byte: u8) -> bool
    ensures { IsTrue result → IsLead byte }
{
    byte < 0x80 || byte >= 0xC0
}
