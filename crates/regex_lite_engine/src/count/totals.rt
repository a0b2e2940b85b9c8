//! The counts of all patterns of a list together.
ghost use Rattle.std.specs.Prelude.{◌≡◌, ◌^◌, ◌*◌, ◌+◌, ◌≤◌, IfOk, IfErr, map};
ghost use Rattle.regex_lite_syntax.specs.declared.error.LimitFault.TheVariants.{Places};
ghost use Rattle.regex_lite_syntax.specs.Tree.{Tree};
ghost use Rattle.regex_lite_syntax.specs.Tree.Regular.{IsRegular};
ghost use Rattle.regex_lite_syntax.specs.Tree.Views.{tree_of};
ghost use Rattle.regex_lite_engine.specs.Graph.PlaceCounts.{whole_places};
ghost use Rattle.regex_lite_engine.specs.Graph.SideBySide.{AreRegularPatterns, places_of_all};
ghost use Rattle.regex_lite_engine.specs.Nfa.Saturation.{AreCountsOf};
ghost use Rattle.regex_lite_engine.specs.Nfa.Totals.{AreTotalsOf, AreTotalsWith};

use crate::count::Counts;
use crate::count::measured::Measured;
use regex_lite_syntax::LimitFault;

/// The total counts of whole patterns, if their places can be numbered.
#[derive(Clone, Copy)]
pub(crate) struct Totals {
    pub(crate) places: u32,
    pub(crate) arrows: usize,
    /// The number of places that read a character.
    pub(crate) reading: usize,
}

impl Totals {
    /// The totals of an empty list.
    pub(crate) const NONE: Totals = Totals {
        places: 0,
        arrows: 0,
        reading: 0,
    };

    /// The totals of the patterns with these trees.
    ///
    /// # Errors
    ///
    /// `Places` if they have more places than can be numbered.
    pub(crate) fn of(hirs: &[Measured]) -> Result<Totals, LimitFault>
        requires { AreRegularPatterns (map tree_of hirs.now) }
        ensures ok { IfOk result (λ totals. AreTotalsOf (map tree_of hirs.now) totals) }
        ensures refused { IfErr result (λ fault. (fault ≡ Places)
            × (2 ^ 32 ≤ places_of_all (map tree_of hirs.now))) }
    {
        let mut totals = Totals::NONE;
        for hir in hirs {
            totals = totals.with(hir.counts())?;
        }
        Ok(totals)
    }

    /// The totals with one more pattern, which has these counts.
    ///
    /// # Errors
    ///
    /// `Places` if they have more places than can be numbered.
    fn with(self, counts: &Counts) -> Result<Totals, LimitFault>
        requires counted { (tree : Tree) × IsRegular tree × AreCountsOf tree counts.now }
        requires few_arrows { self.arrows ≤ 2 * self.places }
        requires few_reading { self.reading ≤ self.places }
        ensures ok { (tree : Tree) → IsRegular tree → AreCountsOf tree counts.now
            → IfOk result (AreTotalsWith self tree) }
        ensures refused { (tree : Tree) → AreCountsOf tree counts.now → IfErr result
            (λ fault. (fault ≡ Places) × (2 ^ 32 ≤ self.places + whole_places tree)) }
    {
        let own = counts.places.saturating_add(3);
        let Ok(places) = u32::try_from(own.saturating_add(u64::from(self.places))) else {
            return Err(LimitFault::Places);
        };
        Ok(Totals {
            places,
            arrows: self.arrows + counts.arrows(),
            reading: self.reading + counts.reading(),
        })
    }
}
