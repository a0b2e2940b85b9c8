//! A tree with its counts.
ghost use Rattle.std.specs.Prelude.{◌≡◌};
ghost use Rattle.regex_lite_syntax.specs.Tree.Views.{tree_of};
ghost use Rattle.regex_lite_engine.specs.Nfa.Saturation.{AreCountsOf};

use crate::count::Counts;
use regex_lite_syntax::{AsHir, Hir};
use std::marker::Model;

/// A tree with its counts, so that it is counted only once.
#[derive(Drop)]
pub struct Measured {
    hir: Hir,
    counts: Counts,
}

impl Model for Measured {
    ghost use Rattle.regex_lite_syntax.specs.contracts.hir.Hir.{the_row};
    ghost use Rattle.regex_lite_syntax.specs.declared.hir.Hir.{Hir};
    ghost use Rattle.regex_lite_syntax.specs.Tree.Views.{tree_of};
    ghost use Rattle.regex_lite_engine.specs.Nfa.Saturation.{AreCountsOf};

    ghost Value = { Hir };

    ghost coded = { the_row.coded };

    ghost view = { λ measured. measured.hir };

    ghost invariant = { λ measured. AreCountsOf (tree_of measured.hir) measured.counts };
}

impl Measured {
    /// The tree with its counts.
    pub(crate) fn new(hir: Hir, counts: Counts) -> Measured
        requires { AreCountsOf (tree_of hir) counts }
        ensures { result ≡ hir }
    {
        Measured { hir, counts }
    }

    /// The tree.
    pub(crate) fn hir(&self) -> &Hir
        ensures { result.now ≡ self.now }
    {
        &self.hir
    }

    /// The counts of the tree.
    pub(crate) fn counts(&self) -> &Counts
        ensures { AreCountsOf (tree_of self.now) result.now }
    {
        &self.counts
    }
}

impl AsHir for Measured {
    ghost use Rattle.regex_lite_syntax.specs.Tree.Views.{tree_of};

    ghost tree = { tree_of };

    fn as_hir(&self) -> &Hir {
        self.hir()
    }
}
