//! Whether a tree exceeds the limits on its NFA.
ghost use Rattle.std.specs.Prelude.{◌≡◌, ◌+◌, ◌*◌, ◌^◌, ◌<◌, ◌≤◌, ◌↔◌, ℕ, IfOk, IfErr};
ghost use Rattle.regex_lite_syntax.specs.Errors.{kind_of, passed_limit};
ghost use Rattle.regex_lite_syntax.specs.Tree.{Tree};
ghost use Rattle.regex_lite_engine.specs.Graph.Size.{size, Fits, IsDueToTree};
ghost use Rattle.regex_lite_engine.specs.Graph.PlaceCounts.{whole_places};
ghost use Rattle.regex_lite_engine.specs.Nfa.Saturation.{AreCountsOf};

use crate::count::Counts;
use regex_lite_syntax::LimitFault;

/// The size of a place.
const PLACE_SIZE: u128 = 32;

/// The size of a group; the whole match counts as one.
const GROUP_SIZE: u128 = 16;

/// The size of an arrow of a choice.
const ARROW_SIZE: u128 = 4;

/// The size of a range of a set.
const RANGE_SIZE: u128 = 8;

/// The least index of a group whose slots cannot be numbered.
const FIRST_PAST_SLOTS: u32 = 0x8000_0000;

impl Counts {
    /// The number of places of the whole pattern, if it exceeds none of the limits.
    pub(crate) fn within(&self, size_limit: usize) -> Result<u32, LimitFault>
        ensures ok { (tree : Tree) → AreCountsOf tree self.now
            → IfOk result (λ places. (places ≡ whole_places tree) × Fits size_limit tree) }
        ensures refused { (tree : Tree) → AreCountsOf tree self.now
            → IfErr result (λ fault. IsDueToTree size_limit tree (kind_of (passed_limit fault))) }
    {
        if self.size() > size_limit as u128 {
            return Err(LimitFault::Size);
        }
        if self.properties.greatest_index >= FIRST_PAST_SLOTS {
            return Err(LimitFault::Slots);
        }
        match u32::try_from(self.places.saturating_add(3)) {
            Ok(places) => Ok(places),
            Err(_) => Err(LimitFault::Places),
        }
    }

    /// The size of the whole pattern. If a count is saturated, the result may be wrong, but the
    /// result and the size are both above every limit.
    fn size(&self) -> u128
        ensures { (tree : Tree) (limit : ℕ) → AreCountsOf tree self.now → limit < 2 ^ 64
            → (result ≤ limit) ↔ (size tree ≤ limit) }
    {
        PLACE_SIZE * (u128::from(self.places) + 3)
            + GROUP_SIZE * (u128::from(self.properties.greatest_index) + 1)
            + ARROW_SIZE * u128::from(self.choice_arrows)
            + RANGE_SIZE * u128::from(self.ranges)
            + u128::from(self.names_size)
    }
}
