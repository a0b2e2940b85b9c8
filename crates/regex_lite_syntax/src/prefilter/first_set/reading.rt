//! All characters that a match can read, and not only those with which it can begin.
ghost use Rattle.std.specs.Prelude.{◌≡◌, map};
ghost use Rattle.regex_lite_syntax.specs.Tree.{trees};
ghost use Rattle.regex_lite_syntax.specs.Tree.Views.{tree_of};
ghost use Rattle.regex_lite_syntax.specs.Prefilter.FirstSet.{EachReadsAmong, IsWider, ReadsAmong};

use crate::hir::Hir;
use crate::prefilter::first_set::FirstSet;

impl FirstSet {
    /// Adds all characters that a match of the tree can read.
    #[cycle(add_all)]
    pub(crate) fn add_all(&mut self, hir: &Hir)
        ensures grown { IsWider self.old self.new }
        ensures added { ReadsAmong (tree_of hir.now) self.new }
    {
        match hir {
            Hir::Empty => {}
            Hir::Char(c) => self.add_char(*c),
            Hir::Class(set) => self.add_class(set),
            Hir::Look(_) => {}
            Hir::Repetition { body, .. } => self.add_all(body),
            Hir::Capture { body, .. } => self.add_all(body),
            Hir::Concat(parts) => self.add_each(parts),
            Hir::Alternation(branches) => self.add_each(branches),
        }
    }

    /// Adds those of each of these.
    #[cycle(add_all)]
    fn add_each(&mut self, parts: &[Hir])
        ensures grown { IsWider self.old self.new }
        ensures added { EachReadsAmong (trees (map tree_of parts.now)) self.new }
    {
        for part in parts {
            self.add_all(part);
        }
    }

    /// Becomes the same as the other.
    #[inline(never)]
    pub(crate) fn set_to(&mut self, other: &FirstSet)
        ensures { self.new ≡ other.now }
    {
        self.any = other.any;
        self.ascii = other.ascii;
        self.others = other.others;
        self.at_start = other.at_start;
    }
}
