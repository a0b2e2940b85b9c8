//! Words of which each match of some trees has one, put together.
ghost use Rattle.std.specs.Prelude.{IsTrue};
ghost use Rattle.regex_lite_syntax.specs.Prefilter.NeededWalk.{ReachesToo, as_needed};

use crate::prefilter::first_set::FirstSet;
use crate::prefilter::words::few_words::FewWords;

/// A letter of a greater rank rules out too little if it is one of several words.
const COMMON_AMONG_SEVERAL: u8 = 6;

/// Words of which one stands in each match of any of some trees.
#[derive(Drop)]
pub(crate) struct FoundWords {
    pub(super) words: FewWords,
    /// The rank of the rarest letter of each word, or the greatest of these ranks.
    pub(super) rank: u8,
    /// The characters that may stand before the words.
    pub(super) lead: FirstSet,
}

impl FoundWords {
    /// No words.
    pub(super) fn none() -> FoundWords {
        FoundWords {
            words: FewWords::new(),
            rank: 0,
            lead: FirstSet::nowhere(),
        }
    }

    /// Adds words of one more tree, with the greatest rank of them and the characters that may
    /// stand before them. Returns whether there was room.
    pub(super) fn add(&mut self, words: &FewWords, rank: u8, lead: &FirstSet) -> bool
        ensures kept { IsTrue result → ReachesToo (as_needed self.old.words self.old.lead)
            (as_needed self.new.words self.new.lead) }
        ensures added { IsTrue result → ReachesToo (as_needed words.now lead.now)
            (as_needed self.new.words self.new.lead) }
    {
        if !self.words.add_all(words) {
            return false;
        }
        self.rank = self.rank.max(rank);
        self.lead.add_starts(lead);
        true
    }

    /// Whether they rule out enough for several words.
    pub(super) fn are_rare(&self) -> bool {
        self.words.shortest() > 1 || self.rank <= COMMON_AMONG_SEVERAL
    }
}
