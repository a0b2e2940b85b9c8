//! Which of several patterns have a word that stands in a text, found by shifts.
ghost use Rattle.std.specs.Prelude.{◌≡◌, ◌≤◌, ◌<◌, ◌+◌, ℕ, IfSome, MatchOption, length};
ghost use Rattle.std.specs.Prelude.{slice_index};
ghost use Rattle.regex_lite_syntax.specs.Prefilter.Finders.{AreShiftsOf};
ghost use Rattle.regex_lite_syntax.specs.Prefilter.Marks.{AddsMarks, AreMarked, IsMarked};
ghost use Rattle.regex_lite_syntax.specs.Prefilter.Marks.{numbered_words};
ghost use Rattle.regex_lite_syntax.specs.Prefilter.NumberedWords.{HavePatterns};
ghost use Rattle.regex_lite_syntax.specs.Prefilter.WordLists.{all_words};
ghost use Rattle.regex_lite_syntax.specs.Prefilter.Words.{WordStandsAt};

use crate::prefilter::words::numbered::Numbered;
use crate::prefilter::words::shifts::Shifts;
use crate::prefilter::words::standing::stands;

/// What a search for one word takes besides its bytes, each of which takes 1. All counts are
/// instructions.
const CALL: usize = 100;

/// What shifts take a byte.
const BYTE: usize = 3;

/// What a stop takes besides the words that may stand there.
const STOP: usize = 30;

/// What each of these takes besides its letters.
const LINK: usize = 4;

impl Shifts {
    /// Marks the patterns of the words that stand at this offset or after it, as long as that
    /// costs no more than a search for each of the others. Returns the offset at which it left off,
    /// before which it has marked all. None if it came to the end.
    ///
    /// Condition: the shifts are those of the words, and the offset is at most the length.
    // Not inlined, since its loop would lose its registers.
    #[inline(never)]
    pub(in crate::prefilter::words) fn mark(
        &self,
        numbered: &Numbered<'_>,
        bytes: &[u8],
        from: usize,
        marks: &mut [bool],
    ) -> Option<usize>
        requires from { from ≤ length bytes.now }
        requires shifts { AreShiftsOf (all_words numbered.now.words.now) self.now }
        requires patterns { HavePatterns (numbered_words numbered.now) (length marks.old) }
        ensures length { length marks.new ≡ length marks.old }
        ensures left { IfSome result (λ left. (from ≤ left) × (left ≤ length bytes.now)) }
        ensures marked { AreMarked (numbered_words numbered.now) bytes.now from from marks.old
            → MatchOption result
            ((to : ℕ) → AreMarked (numbered_words numbered.now) bytes.now from to marks.new)
            (λ left. AreMarked (numbered_words numbered.now) bytes.now from left marks.new) }
    {
        let mut budget = Budget::of(numbered.words.len(), marks.len());
        let mut at = from;
        let mut span = self.first_span(bytes, from);
        'stops: while let Some(stop) = self.next_stop(bytes, at, &mut span) {
            budget.pass(stop - at);
            if budget.is_spent() {
                return Some(stop);
            }
            self.mark_at(numbered, bytes, stop, marks, &mut budget);
            at = stop + 1;
        }
        None
    }

    /// Marks the patterns of the words that stand there.
    #[inline(always)]
    fn mark_at(
        &self,
        numbered: &Numbered<'_>,
        bytes: &[u8],
        at: usize,
        marks: &mut [bool],
        budget: &mut Budget,
    )
        requires room { at + self.now.reach ≤ length bytes.now }
        requires shifts { AreShiftsOf (all_words numbered.now.words.now) self.now }
        requires patterns { HavePatterns (numbered_words numbered.now) (length marks.old) }
        ensures length { length marks.new ≡ length marks.old }
        ensures here { (number : ℕ) → number < length (all_words numbered.now.words.now)
            → WordStandsAt (all_words numbered.now.words.now) bytes.now number at
            → IsMarked marks.new (slice_index numbered.now.owners.now number) }
        ensures adds { AddsMarks (numbered_words numbered.now) bytes.now (λ offset. offset ≡ at)
            marks.old marks.new }
    {
        let mut link = self.first_link(bytes, at);
        'words: while link > 0 {
            numbered.mark_word(link - 1, bytes, at, marks, budget);
            link = self.next[link - 1] as usize;
        }
    }
}

impl<'w> Numbered<'w> {
    /// Marks the pattern of the word with this number, if the word stands there.
    #[inline(always)]
    fn mark_word(
        &self,
        number: usize,
        bytes: &[u8],
        at: usize,
        marks: &mut [bool],
        budget: &mut Budget,
    )
        requires number { number < length (all_words self.now.words.now) }
        requires at { at ≤ length bytes.now }
        requires patterns { HavePatterns (numbered_words self.now) (length marks.old) }
        ensures length { length marks.new ≡ length marks.old }
        ensures here { WordStandsAt (all_words self.now.words.now) bytes.now number at
            → IsMarked marks.new (slice_index self.now.owners.now number) }
        ensures adds { AddsMarks (numbered_words self.now) bytes.now (λ offset. offset ≡ at)
            marks.old marks.new }
    {
        let owner = self.owners[number] as usize;
        if marks[owner] {
            return;
        }
        let word = self.words.word(number);
        budget.pay(word.len().saturating_add(LINK));
        if stands(word, bytes, at) {
            marks[owner] = true;
            budget.close_one();
        }
    }
}

/// What a search by shifts may still spend. It earns what searches for the words of the patterns
/// that are open would take, and pays for its stops and for the words that it compares.
#[derive(Drop)]
struct Budget {
    left: usize,
    /// How many patterns are open.
    open: usize,
    /// How many words each of them has.
    each: usize,
    /// What a byte earns.
    rate: usize,
}

impl Budget {
    /// That of a search for these patterns, which have this number of words together.
    fn of(words: usize, patterns: usize) -> Budget {
        let each = words / patterns.max(1);
        Budget {
            left: words.saturating_mul(CALL),
            open: patterns,
            each,
            rate: rate_of(patterns, each),
        }
    }

    /// Earns for bytes that it has passed, and pays for the stop after them.
    #[inline(always)]
    fn pass(&mut self, bytes: usize) {
        self.left = self.left.wrapping_add(bytes.wrapping_mul(self.rate));
        self.pay(STOP);
    }

    #[inline(always)]
    fn pay(&mut self, instructions: usize) {
        self.left = self.left.saturating_sub(instructions);
    }

    /// Notes that a pattern is no longer open.
    fn close_one(&mut self) {
        self.open = self.open.saturating_sub(1);
        self.rate = rate_of(self.open, self.each);
    }

    /// Whether nothing is left, or so few patterns are open that no byte earns anything.
    #[inline(always)]
    fn is_spent(&self) -> bool {
        self.left == 0 || self.rate == 0
    }
}

/// What searches for so many words of each open pattern take a byte more than shifts.
fn rate_of(open: usize, each: usize) -> usize {
    open.saturating_mul(each).saturating_sub(BYTE)
}
