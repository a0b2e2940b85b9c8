//! Types that carry a tree.
ghost use Rattle.std.specs.Prelude.{◌≡◌};
ghost use Rattle.regex_lite_syntax.specs.Tree.{Tree};
ghost use Rattle.regex_lite_syntax.specs.Tree.Views.{tree_of};

use crate::hir::Hir;

/// A type that carries a tree, such as one that keeps counts with it.
pub trait AsHir {
    /// The tree that a value carries, in the definitions.
    ghost tree: { Self → Tree };

    /// The tree that the value carries.
    fn as_hir(&self) -> &Hir
        ensures { tree_of result.now ≡ tree self.now };
}
