//! The tree of a pattern.
ghost use Rattle.std.specs.Prelude.{◌≡◌, ◌<◌, ◌↔◌, map, option_map, IsTrue, IfOk};
ghost use Rattle.regex_lite_syntax.specs.Tree.{class, capture, sequence_of, choice_of};
ghost use Rattle.regex_lite_syntax.specs.Tree.{repeated, trees as trees_of};
ghost use Rattle.regex_lite_syntax.specs.Limits.{depth, depth_of_list};
ghost use Rattle.regex_lite_syntax.specs.Tree.Views.{text_of_name, tree_of};

pub(crate) mod as_hir;
pub(crate) mod look;
mod names;
pub(crate) mod outline;
pub(crate) mod properties;

use crate::class::Class;
use look::Look;
use std::alloc::{AllocError, Global};
use std::rc::{Rc, RcStr};

/// A pattern as a tree.
pub enum Hir {
    /// The empty text.
    Empty,
    /// This character.
    Char(char),
    /// A character of this set, which is shared with whatever is built from the tree.
    Class(Rc<Class>),
    /// A test of the position.
    Look(Look),
    /// `body` at least `least` times, and at most `most` times if there is a limit.
    Repetition {
        least: u32,
        most: Option<u32>,
        /// More passes are preferred to fewer.
        greedy: bool,
        body: Box<Hir>,
    },
    /// `body`, whose span is that of the group with this index, and with this name if it has one.
    /// The name is shared with whatever is built from the tree.
    Capture {
        index: u32,
        name: Option<RcStr>,
        body: Box<Hir>,
    },
    /// These trees, one after another.
    Concat(Vec<Hir>),
    /// One of these trees, the earlier preferred.
    Alternation(Vec<Hir>),
}

impl Drop for Hir {
    // A chain of repetitions can be as long as the pattern has operators, so it is dropped in a
    // loop: only lists are dropped by recursion.
    fn drop(mut self) {
        loop {
            match self {
                Hir::Empty => return,
                Hir::Char(_) => return,
                Hir::Class(_set) => return,
                Hir::Look(_) => return,
                Hir::Concat(_parts) => return,
                Hir::Alternation(_branches) => return,
                Hir::Repetition {
                    least: _,
                    most: _,
                    greedy: _,
                    body,
                } => self = Box::into_inner(body),
                Hir::Capture {
                    index: _,
                    name: _name,
                    body,
                } => self = Box::into_inner(body),
            }
        }
    }
}

impl Hir {
    /// A character of this set.
    pub(crate) fn class(alloc: Global, set: Class) -> Result<Hir, AllocError>
        ensures { IfOk result (λ hir. tree_of hir ≡ class set) }
    {
        Ok(Hir::Class(Rc::new(alloc, set)?))
    }

    /// A branch with these items.
    pub(crate) fn concat(mut items: Vec<Hir>) -> Hir
        ensures { tree_of result ≡ sequence_of (map tree_of items.items) }
    {
        if items.len() > 1 {
            return Hir::Concat(items);
        }
        match items.pop() {
            None => Hir::Empty,
            Some(item) => item,
        }
    }

    /// Alternatives with these branches.
    pub(crate) fn alternation(mut branches: Vec<Hir>) -> Hir
        ensures { tree_of result ≡ choice_of (map tree_of branches.items) }
    {
        if branches.len() > 1 {
            return Hir::Alternation(branches);
        }
        match branches.pop() {
            None => Hir::Empty,
            Some(branch) => branch,
        }
    }

    /// A group with this body.
    pub(crate) fn capture(
        alloc: Global,
        index: u32,
        name: Option<RcStr>,
        body: Hir,
    ) -> Result<Hir, AllocError>
        ensures { IfOk result (λ hir.
            tree_of hir ≡ capture index (option_map text_of_name name) (tree_of body)) }
    {
        let body = Box::new(alloc, body)?;
        Ok(Hir::Capture { index, name, body })
    }

    /// The tree of an item with an operator.
    pub(crate) fn repetition(
        alloc: Global,
        least: u32,
        most: Option<u32>,
        greedy: bool,
        body: Hir,
    ) -> Result<Hir, AllocError>
        ensures { IfOk result (λ hir. tree_of hir ≡ repeated least most greedy (tree_of body)) }
    {
        if least == 0 && most == Some(0) {
            return Ok(Hir::Empty);
        }
        if least == 1 && most == Some(1) {
            return Ok(body);
        }
        let body = Box::new(alloc, body)?;
        Ok(Hir::Repetition {
            least,
            most,
            greedy,
            body,
        })
    }

    /// Whether nodes are nested more deeply below the root than the limit.
    #[cycle(deeper)]
    pub(crate) fn is_deeper_than(&self, limit: u32) -> bool
        ensures { IsTrue result ↔ (limit < depth (tree_of self.now)) }
    {
        match self {
            Hir::Empty | Hir::Char(_) | Hir::Class(_) | Hir::Look(_) => false,
            Hir::Repetition { body, .. } | Hir::Capture { body, .. } => {
                limit == 0 || body.is_deeper_than(limit - 1)
            }
            Hir::Concat(parts) | Hir::Alternation(parts) => {
                limit == 0 || is_one_deeper_than(parts, limit - 1)
            }
        }
    }
}

/// Whether that holds for one of the trees.
#[cycle(deeper)]
fn is_one_deeper_than(trees: &[Hir], limit: u32) -> bool
    ensures { IsTrue result ↔ (limit < depth_of_list (trees_of (map tree_of trees.now))) }
{
    for tree in trees {
        if tree.is_deeper_than(limit) {
            return true;
        }
    }
    false
}
