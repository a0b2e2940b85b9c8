//! The outline of a tree: its parts in preorder.
ghost use Rattle.std.specs.Prelude.{◌≡◌, ◌+◌, ◌^◌, ◌≤◌, ◌++◌, IfOk, map};
ghost use Rattle.regex_lite_syntax.specs.Limits.{depth as depth_of, depth_of_list};
ghost use Rattle.regex_lite_syntax.specs.Tree.{trees as trees_of};
ghost use Rattle.regex_lite_syntax.specs.Tree.Outline.{outline, outline_at, outlines_at, ranges_at};
ghost use Rattle.regex_lite_syntax.specs.Tree.Outline.{kind_of_root};
ghost use Rattle.regex_lite_syntax.specs.Tree.Views.{tree_of};

use super::Hir;
use super::look::Look;
use crate::class::ClassRange;
use std::alloc::{AllocError, Global};

/// The kind of a part of a pattern.
#[derive(Clone, Copy, PartialEq, Eq, Debug)]
pub enum PartKind {
    /// The empty text.
    Empty,
    /// This character.
    Char(char),
    /// A character of the set with these maximal runs, in order: the parts that follow it, one
    /// level below it. If there are none, the set is empty.
    Class,
    /// One of the runs of a class.
    Range(ClassRange),
    /// A test of the position.
    Look(Look),
    /// The part below it at least `least` times, and at most `most` times if there is a limit.
    Repetition {
        least: u32,
        most: Option<u32>,
        /// More passes are preferred to fewer.
        greedy: bool,
    },
    /// The part below it, whose span is that of the group with this index.
    Capture(u32),
    /// The parts one level below it, one after another.
    Concat,
    /// One of the parts one level below it, the earlier preferred.
    Alternation,
}

/// A part of a pattern: a node of its tree, or a run of a class.
#[derive(Clone, Copy, PartialEq, Eq, Debug)]
pub struct Part {
    /// The depth of the part: the number of parts around it.
    pub depth: usize,
    /// The kind of the part.
    pub kind: PartKind,
}

impl Hir {
    /// The parts of the tree in preorder, the order of the pattern. The parts of a part follow it
    /// directly, and are one level below it.
    ///
    /// Condition: nodes are nested at most 2^32 deep below the root.
    ///
    /// # Errors
    ///
    /// `AllocError` if memory runs out.
    pub fn outline(&self, alloc: Global) -> Result<Vec<Part>, AllocError>
        requires { depth_of (tree_of self.now) ≤ 2 ^ 32 }
        ensures { IfOk result (λ parts. parts.items ≡ outline (tree_of self.now)) }
    {
        let mut parts = Vec::new(alloc);
        add_parts(&mut parts, self, 0)?;
        Ok(parts)
    }

    /// The kind of the root.
    fn part_kind(&self) -> PartKind
        ensures { result ≡ kind_of_root (tree_of self.now) }
    {
        match self {
            Hir::Empty => PartKind::Empty,
            Hir::Char(c) => PartKind::Char(*c),
            Hir::Class(_) => PartKind::Class,
            Hir::Look(look) => PartKind::Look(*look),
            Hir::Repetition {
                least,
                most,
                greedy,
                ..
            } => PartKind::Repetition {
                least: *least,
                most: *most,
                greedy: *greedy,
            },
            Hir::Capture { index, .. } => PartKind::Capture(*index),
            Hir::Concat(_) => PartKind::Concat,
            Hir::Alternation(_) => PartKind::Alternation,
        }
    }
}

/// Adds the parts of a tree at this depth.
#[cycle(outline)]
fn add_parts(parts: &mut Vec<Part>, hir: &Hir, depth: usize) -> Result<(), AllocError>
    requires { depth + depth_of (tree_of hir.now) ≤ 2 ^ 32 }
    ensures { IfOk result (λ _.
        parts.new.items ≡ parts.old.items ++ outline_at (tree_of hir.now) depth) }
{
    let kind = hir.part_kind();
    parts.push(Part { depth, kind })?;
    match hir {
        Hir::Empty | Hir::Char(_) | Hir::Look(_) => Ok(()),
        Hir::Class(set) => add_ranges(parts, set.ranges(), depth + 1),
        Hir::Repetition { body, .. } | Hir::Capture { body, .. } => {
            add_parts(parts, body, depth + 1)
        }
        Hir::Concat(trees) | Hir::Alternation(trees) => add_all_parts(parts, trees, depth + 1),
    }
}

/// Adds the parts of each tree.
#[cycle(outline)]
fn add_all_parts(parts: &mut Vec<Part>, trees: &[Hir], depth: usize) -> Result<(), AllocError>
    requires { depth + depth_of_list (trees_of (map tree_of trees.now)) ≤ 2 ^ 32 }
    ensures { IfOk result (λ _. parts.new.items
        ≡ parts.old.items ++ outlines_at (trees_of (map tree_of trees.now)) depth) }
{
    for tree in trees {
        add_parts(parts, tree, depth)?;
    }
    Ok(())
}

/// Adds the runs of a class at this depth.
fn add_ranges(parts: &mut Vec<Part>, ranges: &[ClassRange], depth: usize) -> Result<(), AllocError>
    ensures { IfOk result (λ _. parts.new.items ≡ parts.old.items ++ ranges_at ranges.now depth) }
{
    for range in ranges {
        let kind = PartKind::Range(*range);
        parts.push(Part { depth, kind })?;
    }
    Ok(())
}
