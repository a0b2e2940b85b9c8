//! The outline of a pattern: the nodes of its tree.
ghost use Rattle.std.specs.Prelude.{◌≡◌, ◌≤◌, IfOk, IfErr};
ghost use Rattle.regex_lite_syntax.specs.Errors.{out_of_memory};
ghost use Rattle.regex_lite_syntax.specs.Limits.{depth};
ghost use Rattle.regex_lite_syntax.specs.Tree.Outline.{outline};
ghost use Rattle.regex_lite_syntax.specs.Tree.Views.{tree_of};
ghost use Rattle.regex_lite.specs.Outlines.{AreParts, IsDueOnReading, IsReadable};

use crate::string::builder::RegexBuilder;
use regex_lite_syntax::{Error, Hir, Part};
use std::alloc::{AllocError, Global};

impl RegexBuilder {
    /// The parts of the pattern: the nodes of the tree that the grammar gives it, in preorder, and
    /// the ranges of its classes. The parts of a node follow it directly and are one level below
    /// it.
    ///
    /// An editor can explain a pattern with them. Neither groups that don't capture nor flags are
    /// parts: the parts are those of the pattern under its flags. `a{1}` is the part `a`, and
    /// `a{0}` the empty text. `Regex::capture_names` returns the names of groups.
    ///
    /// ```
    /// let builder = RegexBuilder::new(alloc, "(?:[a-z]|_)+")?;
    /// for part in builder.outline()? {
    ///     print!(rt; "{} {:?}, ", part.depth, part.kind);
    /// }
    /// // 0 Repetition { least: 1, most: None, greedy: true }, 1 Alternation, 2 Class,
    /// // 3 Range(ClassRange { start: 'a', end: 'z' }), 2 Char('_'),
    /// ```
    ///
    /// The test `examples::parts::outline` in tests/unit runs this example.
    ///
    /// # Errors
    ///
    /// Those that `build` returns before the pattern is compiled: `Syntax` if the grammar gives the
    /// pattern no tree, `Nesting` if it nests deeper than the nest limit, `Groups` if it has more
    /// capture groups than can be numbered, and `Memory` if memory runs out. The size limit doesn't
    /// matter.
    pub fn outline(&self) -> Result<Vec<Part>, Error>
        ensures parts { IfOk result (λ parts. AreParts self.now parts.items) }
        ensures refused { IfErr result (λ error. IsDueOnReading self.now error) }
        ensures complete { IfErr result
            (λ error. IsReadable self.now → error ≡ out_of_memory) }
    {
        let hir = self.hir()?;
        Ok(parts_of(self.alloc, &hir, self.nest_limit)?)
    }
}

/// The parts of a tree whose depth is within this limit.
fn parts_of(alloc: Global, hir: &Hir, nest_limit: u32) -> Result<Vec<Part>, AllocError>
    requires { depth (tree_of hir.now) ≤ nest_limit }
    ensures { IfOk result (λ parts. parts.items ≡ outline (tree_of hir.now)) }
{
    // The limit has 32 bits, and so has the depth.
    let _ = nest_limit;
    hir.outline(alloc)
}
