//! The budget of a pass over a haystack for all patterns of a list: a cost model, in instructions.

use crate::list_matches::Status;
use regex_lite_engine::nfa::list::GraphList;

/// The number of patterns from which on a pass pays. With twelve filters it took 1.16 to 1.23 times
/// as many instructions as a search for each; with 16 words it takes .37 to .76 times as many.
const LEAST_PATTERNS: usize = 16;

/// The cost of a search for one pattern that finds nothing, besides its bytes: 190 to 440.
const CALL: usize = 200;

/// The cost of its filter for a byte: 1.0 to 3.9.
const BYTE: usize = 1;

/// What a pass may spend in advance: this for each pattern, and once the next constant. With 8 and
/// nothing, 16 words that don't occur took .87 in 20 bytes, where they take .47.
const ADVANCE: usize = 16;

const FIRST: usize = 500;

/// For each pattern and this number of bytes, one more instruction may be spent in advance.
const BYTES_FOR_ONE_MORE: usize = 64;

/// The cost of a stop: searching for the next position, and finding the patterns that may start
/// there.
const STOP: usize = 150;

/// The cost of each pattern that is found at a stop.
const LISTED: usize = 10;

/// The cost of a try that finds no match, besides the cost of a search for the pattern there. With
/// 400, 16 words that don't occur take .95 in 16 KB instead of .51.
const TRY: usize = 200;

/// Whether a pass over a haystack pays for this list. It doesn't if no match begins with a
/// character, as for anchored patterns: each of these is known at once to match nowhere else.
pub(crate) fn pays_in_one_pass(list: &GraphList) -> bool {
    list.len() >= LEAST_PATTERNS && list.prefixes().any.any
}

/// What a pass may still spend. It earns the cost of the searches for the open patterns, and pays
/// for what these searches wouldn't do.
#[derive(Drop)]
pub(crate) struct Credit {
    left: usize,
    /// The number of open patterns.
    open: usize,
    /// What each open pattern earns for a byte.
    byte: usize,
}

impl Credit {
    /// The credit of a pass over this number of bytes.
    pub(crate) fn of(patterns: usize, bytes: usize) -> Credit {
        let each = ADVANCE.saturating_add(bytes / BYTES_FOR_ONE_MORE);
        Credit {
            left: patterns.saturating_mul(each).saturating_add(FIRST),
            open: patterns,
            byte: BYTE.saturating_add(CALL / bytes.max(1)),
        }
    }

    /// Earns for the bytes between these offsets.
    pub(crate) fn earn(&mut self, from: usize, to: usize) {
        let bytes = to.saturating_sub(from);
        let earned = bytes.saturating_mul(self.open).saturating_mul(self.byte);
        self.left = self.left.saturating_add(earned);
    }

    /// Pays for a stop at which this number of patterns may start.
    pub(crate) fn pay_for_stop(&mut self, listed: usize) {
        self.pay(listed.saturating_mul(LISTED).saturating_add(STOP));
    }

    /// Pays for a try with this result, if it found nothing; otherwise records that the pattern is
    /// no longer open.
    pub(crate) fn pay_for_try(&mut self, status: Status) {
        if let Status::Open(_) = status {
            self.pay(TRY);
            return;
        }
        self.open = self.open.saturating_sub(1);
    }

    fn pay(&mut self, instructions: usize) {
        self.left = self.left.saturating_sub(instructions);
    }

    /// Whether the credit is used up, or no pattern is open.
    pub(crate) fn is_spent(&self) -> bool {
        self.left == 0 || self.open == 0
    }
}
