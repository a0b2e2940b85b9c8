//! Words of which each match of a pattern has one, and what stands before it.
//!
//! A search asks for the next word at its start and where no thread is left, but not behind a
//! character that may stand before a word: it has come from there, and asked before. So no text is
//! looked at once for each of its positions. A short word with which matches begin and a longer
//! needed one are both used, and the needed one is asked first, since the search ends where there
//! is none.
ghost use Rattle.std.specs.Prelude.{◌≡◌, ◌≤◌, ◌<◌, ◌-◌, ℕ, IfSome, false, length, slice_index};
ghost use Rattle.std.specs.Prelude.{map, true};
ghost use Rattle.regex_lite_syntax.specs.Tree.Views.{tree_of};
ghost use Rattle.regex_lite_syntax.specs.Prefilter.Needed.{HavePairs, IsNeededBy, IsNextBelow};
ghost use Rattle.regex_lite_syntax.specs.Prefilter.Needed.{AreNeededByEach, IsNextOf, IsNextReach};
ghost use Rattle.regex_lite_syntax.specs.Prefilter.NeededWalk.{as_needed};
ghost use Rattle.regex_lite_syntax.specs.Prefilter.FirstSet.{begins_with};

use crate::hir::Hir;
use crate::hir::as_hir::AsHir;
use crate::prefilter::first_set::FirstSet;
use crate::prefilter::words::branch_words::may_have_longer;
use crate::prefilter::words::few_words::{FewWords, MOST};
use crate::prefilter::words::found_words::FoundWords;
use crate::prefilter::words::gain::SHORT;
use crate::prefilter::words::needed_walk::NeededWalk;
use crate::prefilter::words::pair::Pair;
use std::marker::Model;

/// In how many bytes each of several words is looked for first.
const AT_FIRST: usize = 64;

/// Words of which one stands in each match, and the characters that may stand before it there. A
/// match begins only where such characters lead to a word.
#[derive(Drop)]
pub struct Needed {
    words: FewWords,
    /// How each word is found.
    pairs: [Pair; MOST],
    lead: FirstSet,
}

/// Where a word is reached.
#[derive(Clone, Copy)]
pub struct Reach {
    /// The first offset from which it is.
    pub from: usize,
    /// Where it stands.
    pub word: usize,
}

impl Model for Needed {
    ghost use Rattle.std.specs.Prelude.{length};
    ghost use Rattle.regex_lite_syntax.specs.Prefilter.Needed.{HavePairs, NeededWords};

    ghost Value = { NeededWords };

    ghost view = { λ needed. record {
      words = needed.words;
      lead = needed.lead;
    } };

    ghost invariant = { λ needed. HavePairs needed.words (length needed.words) needed.pairs };
}

impl Needed {
    /// Those of the tree, if some are known that are rare enough. None if they are what matches
    /// begin with, since their first characters tell as much.
    ///
    /// Where words are known with which matches begin, so many letters long at least, none of these
    /// letters is taken for a needed word, and one is looked for only if they are few and it has
    /// more: then it mostly stands less often. `find` of `T1\d:.*WARN` by line of a log takes .55
    /// of what it takes by `T1` alone, and of `\] [a-z]+ was refused` .34.
    pub(crate) fn of(hir: &Hir, begun: usize) -> Option<Needed>
        ensures { IfSome result (IsNeededBy (tree_of hir.now)) }
    {
        if begun > SHORT || begun > 0 && !may_have_longer(hir, begun) {
            return None;
        }
        let found = NeededWalk::of(hir, begun)?;
        if found.words.shortest() <= begun {
            return None;
        }
        Needed::by(found)
    }

    /// Those of several trees, if each tree has some that are rare enough and there is room for all
    /// of them. None if they are what matches begin with.
    pub fn of_all<T: AsHir>(hirs: &[T]) -> Option<Needed>
        ensures { IfSome result (AreNeededByEach (map T.tree hirs.now)) }
    {
        // Each has one at least.
        if hirs.len() > MOST {
            return None;
        }
        let mut all = FoundWords::none();
        for hir in hirs {
            let found = NeededWalk::of(hir.as_hir(), 0)?;
            if !all.add(&found.words, found.rank, &found.lead) {
                return None;
            }
        }
        if !all.are_rare() {
            return None;
        }
        Needed::by(all)
    }

    /// These words, if something may stand before one of them, and each has a letter.
    fn by(found: FoundWords) -> Option<Needed>
        ensures { IfSome result (λ needed. needed ≡ as_needed found.words found.lead) }
    {
        let FoundWords { words, lead, .. } = found;
        if !lead.any {
            return None;
        }
        let pairs = pairs_of(&words)?;
        Some(Needed { words, pairs, lead })
    }

    /// The first offset from this one on from which a word is reached, and where it stands then.
    ///
    /// Condition: the offset is at most the length.
    // Not inlined, as the search for words isn't.
    #[inline(never)]
    pub fn next_reach(&self, bytes: &[u8], from: usize) -> Option<Reach>
        requires { from ≤ length bytes.now }
        ensures { IsNextReach self.now bytes.now from result }
    {
        let word = self.next_word(bytes, from)?;
        let from = self.lead_start(bytes, from, word);
        Some(Reach { from, word })
    }

    /// The first offset from this one on at which a word stands. Several are looked for in few
    /// bytes first, and then in twice as many each time, so that one that is far away is not looked
    /// for much further than up to another.
    fn next_word(&self, bytes: &[u8], from: usize) -> Option<usize>
        requires { from ≤ length bytes.now }
        ensures next { IsNextOf self.now.words bytes.now from result }
        ensures inside { IfSome result (λ at. at < length bytes.now) }
    {
        if self.words.len() == 1 {
            return self.pairs[0].find(self.words.word(0), bytes, from);
        }
        let mut at = from;
        let mut len = AT_FIRST;
        'blocks: while at < bytes.len() {
            let end = at.saturating_add(len).min(bytes.len());
            let found = self.next_below(bytes, at, end);
            if found.is_some() {
                return found;
            }
            at = end;
            len = len.saturating_mul(2);
        }
        None
    }

    /// The first offset from the first of these on, and before the second, at which a word stands.
    fn next_below(&self, bytes: &[u8], from: usize, limit: usize) -> Option<usize>
        requires order { from ≤ limit }
        requires inside { limit ≤ length bytes.now }
        ensures { IsNextBelow self.now.words bytes.now from limit result }
    {
        let mut found = None;
        let mut end = limit;
        'words: for k in 0..self.words.len() {
            let at = self.pairs[k].find_below(self.words.word(k), bytes, from, end);
            if let Some(at) = at {
                found = Some(at);
                end = at;
            }
        }
        found
    }

    /// Where the characters begin that may stand before the word, if it stands at the second
    /// offset and they go back to the first one at most.
    fn lead_start(&self, bytes: &[u8], from: usize, word: usize) -> usize
        requires order { from ≤ word }
        requires inside { word ≤ length bytes.now }
        ensures low { from ≤ result }
        ensures high { result ≤ word }
        ensures led { (k : ℕ) → result ≤ k → k < word
            → begins_with self.now.lead (slice_index bytes.now k) ≡ true }
        ensures stops { from < result
            → begins_with self.now.lead (slice_index bytes.now (result - 1)) ≡ false }
    {
        let mut at = word;
        'lead: while at > from {
            if !self.may_lead(bytes[at - 1]) {
                return at;
            }
            at -= 1;
        }
        at
    }

    /// Whether the byte may be one of a character between a match's start and the word.
    #[inline(always)]
    pub fn may_lead(&self, byte: u8) -> bool
        ensures { result ≡ begins_with self.now.lead byte }
    {
        self.lead.begins_in(byte as usize)
    }
}

/// How each of the words is found. None if one of them has no letter.
fn pairs_of(words: &FewWords) -> Option<[Pair; MOST]>
    ensures { IfSome result (HavePairs words.now (length words.now)) }
{
    let mut pairs = [Pair::of_first(); MOST];
    'words: for k in 0..words.len() {
        let word = words.word(k);
        if word.is_empty() {
            return None;
        }
        pairs[k] = Pair::of(word);
    }
    Some(pairs)
}
