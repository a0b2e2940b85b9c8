//! The compiled form of a pattern.
use regex_lite_engine::Graph;
use regex_lite_syntax::Flags;
use std::fmt;
use std::marker::Model;

/// A pattern, and the flags under which it was read.
#[derive(Drop)]
pub(crate) struct Pattern {
    pub(crate) text: String,
    pub(crate) flags: Flags,
}

impl Model for Pattern {
    ghost use Rattle.std.specs.Prelude.{string_bytes};
    ghost use Rattle.regex_lite.specs.Expression.{Expression};

    ghost Value = { Expression };

    ghost view = { λ own. record {
      pattern = string_bytes own.text;
      flags = own.flags;
    } };
}

/// Writes the pattern as a string literal.
impl fmt::Debug for Pattern {
    fn fmt<W: fmt::Write>(&self, f: &mut fmt::Formatter<W>) -> fmt::Result {
        write!(f, "{:?}", self.text.as_str())
    }
}

/// The compiled pattern, which the clones of a regex share.
#[derive(Drop)]
pub(super) struct Compiled {
    pub(super) pattern: Pattern,
    pub(super) graph: Graph,
}

/// Writes the pattern as the only field of `Regex`.
impl fmt::Debug for Compiled {
    fn fmt<W: fmt::Write>(&self, f: &mut fmt::Formatter<W>) -> fmt::Result {
        f.debug_tuple("Regex").field(&self.pattern).finish()
    }
}
