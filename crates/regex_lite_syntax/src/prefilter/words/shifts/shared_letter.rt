//! A rare letter that several words share.
ghost use Rattle.std.specs.Prelude.{◌≤◌, ◌<◌, ◌∷◌, [], ℕ, List, IfSome, MatchOption, drop, length};
ghost use Rattle.regex_lite_syntax.specs.Prefilter.Finders.{IsSharedBy};
ghost use Rattle.regex_lite_syntax.specs.Prefilter.WordLists.{all_words};
ghost use Rattle.regex_lite_syntax.specs.Prefilter.Words.{AnyStandsAt, AreLong, NoneStands};
ghost use Rattle.regex_lite_syntax.specs.Prefilter.Words.{StartsWith};

use crate::prefilter::words::letter::Letter;
use crate::prefilter::words::pair::{Pair, rank_of};
use crate::prefilter::words::word_list::WordList;

/// Letters of a higher rank aren't looked for: they stand so near in most texts that shifting there
/// takes as much.
const RARE: u8 = 5;

/// A letter that stands in each of several words.
#[derive(Clone, Copy)]
pub(super) struct SharedLetter {
    letter: Letter,
    /// The greatest offset at which it first stands in a word.
    offset: usize,
}

impl SharedLetter {
    /// One of the two letters by which the first word alone would be looked for, if it is rare and
    /// stands in all words.
    ///
    /// Condition: each word has two letters at least.
    pub(super) fn of(words: &WordList) -> Option<SharedLetter>
        requires { AreLong (all_words words.now) }
        ensures { IfSome result (IsSharedBy (all_words words.now)) }
    {
        let first = words.word(0);
        let (rarest, next) = Pair::of(first).letters(first);
        let shared = SharedLetter::if_shared(words, rarest);
        if shared.is_some() {
            return shared;
        }
        SharedLetter::if_shared(words, next)
    }

    /// This letter, if it is rare and stands in all words.
    fn if_shared(words: &WordList, letter: Letter) -> Option<SharedLetter>
        ensures { IfSome result (IsSharedBy (all_words words.now)) }
    {
        if rank_of(letter) > RARE {
            return None;
        }
        let mut offset = 0;
        'words: for number in 0..words.len() {
            offset = first_offset(words.word(number), letter)?.max(offset);
        }
        Some(SharedLetter { letter, offset })
    }

    /// The first offset from this one on at which a word may stand, judging by the letter, and the
    /// first at which the letter does.
    ///
    /// Condition: the offset is at most the length.
    #[inline(always)]
    pub(super) fn next(self, bytes: &[u8], from: usize) -> Option<(usize, usize)>
        requires { from ≤ length bytes.now }
        ensures { (words : List (List Letter)) → IsSharedBy words self
            → MatchOption result ((at : ℕ) → from ≤ at → ¬ AnyStandsAt words bytes.now at)
            (λ next. (from ≤ next.0) × NoneStands words bytes.now from next.0
            × (next.0 ≤ next.1) × (next.1 < length bytes.now)) }
    {
        let at = Pair::of_first().find(&[self.letter], bytes, from)?;
        Some((at.saturating_sub(self.offset).max(from), at))
    }
}

/// The first offset at which the word has this letter, or one case of it.
fn first_offset(word: &[Letter], letter: Letter) -> Option<usize>
    ensures { IfSome result (λ k. (bytes : List ℕ) → StartsWith word.now bytes
        → StartsWith (letter ∷ []) (drop k bytes)) }
{
    'letters: for k in 0..word.len() {
        let own = word[k];
        if letter.is(own.byte) && letter.is(own.other) {
            return Some(k);
        }
    }
    None
}
