//! Words beside the numbers of their patterns.
ghost use Rattle.std.specs.Prelude.{◌≡◌, ◌≤◌, ◌<◌, ℕ, length, slice_index};
ghost use Rattle.regex_lite_syntax.specs.Prefilter.Marks.{AddsMarks, AreMarked, IsMarked};
ghost use Rattle.regex_lite_syntax.specs.Prefilter.Marks.{numbered_words};
ghost use Rattle.regex_lite_syntax.specs.Prefilter.NumberedWords.{HavePatterns};
ghost use Rattle.regex_lite_syntax.specs.Prefilter.WordLists.{all_words};
ghost use Rattle.regex_lite_syntax.specs.Prefilter.Words.{AreSuited, WordStandsAt};

use crate::prefilter::words::pair::Pair;
use crate::prefilter::words::word_list::WordList;

/// Words, and the number of each one's pattern.
#[derive(Drop)]
pub(super) struct Numbered<'w> {
    pub words: &'w WordList,
    pub owners: &'w [u32],
}

impl<'w> Numbered<'w> {
    /// Marks each pattern of which a word stands at this offset or after it, by a search for each
    /// word of a pattern that isn't marked.
    pub(super) fn mark_each(&self, bytes: &[u8], from: usize, marks: &mut [bool])
        requires from { from ≤ length bytes.now }
        requires suited { AreSuited (all_words self.now.words.now) }
        requires patterns { HavePatterns (numbered_words self.now) (length marks.old) }
        ensures length { length marks.new ≡ length marks.old }
        ensures marked { (first to : ℕ) → first ≤ from
            → AreMarked (numbered_words self.now) bytes.now first from marks.old
            → AreMarked (numbered_words self.now) bytes.now first to marks.new }
    {
        'words: for number in 0..self.words.len() {
            self.mark_one(number, bytes, from, marks);
        }
    }

    /// Marks the pattern of the word with this number, if the word stands at this offset or after
    /// it.
    fn mark_one(&self, number: usize, bytes: &[u8], from: usize, marks: &mut [bool])
        requires number { number < length (all_words self.now.words.now) }
        requires from { from ≤ length bytes.now }
        requires suited { AreSuited (all_words self.now.words.now) }
        requires patterns { HavePatterns (numbered_words self.now) (length marks.old) }
        ensures length { length marks.new ≡ length marks.old }
        ensures here { (at : ℕ) → from ≤ at
            → WordStandsAt (all_words self.now.words.now) bytes.now number at
            → IsMarked marks.new (slice_index self.now.owners.now number) }
        ensures adds { AddsMarks (numbered_words self.now) bytes.now (λ at. from ≤ at) marks.old
            marks.new }
    {
        let owner = self.owners[number] as usize;
        if marks[owner] {
            return;
        }
        let word = self.words.word(number);
        let pair = Pair::of(word);
        match pair.find(word, bytes, from) {
            None => {}
            Some(_) => {
                marks[owner] = true;
            }
        }
    }
}
