//! What has been read of one group.
ghost use Rattle.std.specs.Prelude.{◌≡◌, ◌++◌, ◌∷◌, [], map, IfOk, OnOk};
ghost use Rattle.regex_lite_syntax.specs.Tree.{sequence_of, choice_of};
ghost use Rattle.regex_lite_syntax.specs.Grammar.Heads.{group_tree};
ghost use Rattle.regex_lite_syntax.specs.Tree.Views.{tree_of};
ghost use Rattle.regex_lite_syntax.specs.Parser.States.{group_kind};

use crate::flags::Flags;
use crate::hir::Hir;
use std::alloc::{AllocError, Global};
use std::mem;
use std::rc::RcStr;

/// The kind of a group.
#[derive(Drop)]
pub(crate) enum GroupKind {
    /// The group doesn't capture: it stands for its alternatives.
    NonCapturing,
    /// The group has this index, and this name if it has one.
    Capturing { index: u32, name: Option<RcStr> },
}

impl GroupKind {
    /// The tree of a group with these alternatives.
    pub(crate) fn into_tree(self, alloc: Global, body: Hir) -> Result<Hir, AllocError>
        ensures { IfOk result (λ hir.
            tree_of hir ≡ group_tree (group_kind self) (tree_of body)) }
    {
        match self {
            GroupKind::NonCapturing => Ok(body),
            GroupKind::Capturing { index, name } => Hir::capture(alloc, index, name, body),
        }
    }
}

/// A group that is open.
#[derive(Drop)]
pub(crate) struct OpenGroup {
    pub(crate) kind: GroupKind,
    /// What had been read around the group when it began.
    pub(crate) outer: Level,
}

/// The branches of a group that have ended, and the items of the current branch.
#[derive(Drop)]
pub(crate) struct Level {
    /// The flags that hold at the point that has been reached in the group.
    pub(crate) flags: Flags,
    pub(crate) branches: Vec<Hir>,
    pub(crate) items: Vec<Hir>,
}

impl Level {
    /// The level of a group of which nothing has been read.
    pub(crate) fn new(alloc: Global, flags: Flags) -> Level
        ensures flags { result.flags ≡ flags }
        ensures branches { result.branches.items ≡ [] }
        ensures items { result.items.items ≡ [] }
    {
        Level {
            flags,
            branches: Vec::new(alloc),
            items: Vec::new(alloc),
        }
    }

    /// Ends the current branch, and begins the next.
    pub(crate) fn end_branch(&mut self, alloc: Global) -> Result<(), AllocError>
        ensures flags { self.new.flags ≡ self.old.flags }
        ensures branches { let ended = sequence_of (map tree_of self.old.items.items) in
            OnOk result (map tree_of self.new.branches.items
            ≡ map tree_of self.old.branches.items ++ ended ∷ []) }
        ensures items { OnOk result (self.new.items.items ≡ []) }
    {
        let items = mem::replace(&mut self.items, Vec::new(alloc));
        self.branches.push(Hir::concat(items))?;
        Ok(())
    }

    /// Ends the group: returns its alternatives.
    pub(crate) fn into_tree(self) -> Result<Hir, AllocError>
        ensures { IfOk result (λ hir. tree_of hir ≡ choice_of
            (map tree_of self.branches.items ++ sequence_of (map tree_of self.items.items) ∷ [])) }
    {
        let Level {
            flags: _,
            mut branches,
            items,
        } = self;
        branches.push(Hir::concat(items))?;
        Ok(Hir::alternation(branches))
    }
}
