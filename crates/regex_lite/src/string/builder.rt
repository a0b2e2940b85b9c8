//! The settings under which a pattern is built.
ghost use Rattle.std.specs.Prelude.{◌≡◌, ◌-◌, ◌^◌, min, IfOk, IfErr};
ghost use Rattle.regex_lite_syntax.specs.Errors.{out_of_memory};
ghost use Rattle.regex_lite_syntax.specs.Tree.Regular.{IsRegular};
ghost use Rattle.regex_lite_syntax.specs.Tree.Views.{tree_of};
ghost use Rattle.regex_lite.specs.Settings.{default_settings};
ghost use Rattle.regex_lite.specs.Expression.{Builds, IsDue, IsReadAs, expression_of};
ghost use Rattle.regex_lite.specs.Outlines.{IsDueOnReading};
ghost use Rattle.regex_lite.specs.RegexList.{IsAcceptedAs};

use crate::owner::Shared;
use crate::string::compiled::{Compiled, Pattern};
use crate::string::regex::Regex;
use regex_lite_engine::{Graph, GraphList, Measured};
use regex_lite_syntax::{Config, Error, Flags, Hir};
use std::alloc::{AllocError, Global};
use std::marker::Model;

/// A pattern with the settings under which it is to be built.
///
/// A setter says whether a flag is on at the pattern's first character. From there on the pattern
/// itself can turn it on and off, as by `(?i)` and `(?-i)`. If a setter is called several times,
/// the last call counts.
///
/// ```
/// let builder = RegexBuilder::new(alloc, "(?:ab)*c")?;
/// let regex = builder.build()?;
/// regex.is_match("ababc")?; // true
/// ```
///
/// The test `examples::builder` in tests/unit runs this example.
#[derive(Debug, Drop)]
pub struct RegexBuilder {
    pub(super) alloc: Global,
    pub(super) pattern: String,
    pub(super) flags: Flags,
    pub(super) nest_limit: u32,
    pub(super) size_limit: usize,
}

impl Model for RegexBuilder {
    ghost use Rattle.std.specs.Prelude.{string_bytes};
    ghost use Rattle.regex_lite.specs.Settings.{Settings};

    ghost Value = { Settings };

    ghost view = { λ builder. record {
      pattern = string_bytes builder.pattern;
      flags = builder.flags;
      nest_limit = builder.nest_limit;
      size_limit = builder.size_limit;
    } };
}

impl RegexBuilder {
    /// A builder with the default settings: no flag is on, the nest limit is 50 and the size
    /// limit 10485760.
    ///
    /// # Errors
    ///
    /// `Memory` if there is no memory for a copy of the pattern. The pattern isn't read before
    /// `build`.
    pub fn new(alloc: Global, pattern: &str) -> Result<RegexBuilder, Error>
        ensures ok { IfOk result (λ builder. builder ≡ default_settings pattern.now) }
        ensures refused { IfErr result (λ error. error ≡ out_of_memory) }
    {
        Ok(RegexBuilder {
            alloc,
            pattern: String::from_str(alloc, pattern)?,
            flags: Flags::default(),
            nest_limit: 50,
            size_limit: 10_485_760,
        })
    }

    /// Whether letters match in either case: the flag `i`.
    ///
    /// Only the ASCII letters `A` to `Z` and `a` to `z` have a second case. A letter, even one that
    /// is written as an escape, then matches in both cases. A bracketed class contains both cases
    /// of each letter that it lists, so `[^x]` excludes `X` too.
    ///
    /// ```
    /// let regex = RegexBuilder::new(alloc, "fro[c-e]o")?.case_insensitive(true).build()?;
    /// assert!(rt; regex.is_match("FRODO")?);
    /// ```
    ///
    /// The test `examples::either_case` in tests/unit runs this example.
    pub fn case_insensitive(&mut self, yes: bool) -> &mut RegexBuilder
        ensures same_reference { result.ghost_name ≡ self.entry.ghost_name }
        ensures value { result.now ≡
            record self.old { flags = record self.old.flags { case_insensitive = yes } } }
    {
        self.flags.case_insensitive = yes;
        self
    }

    /// Whether `^` and `$` match at every line: the flag `m`.
    ///
    /// With the flag `^` also matches after a line end, and `$` also before one. Without the flag
    /// `^` matches only at the haystack's start and `$` only at its end, as `\A` and `\z` always
    /// do.
    ///
    /// ```
    /// let regex = RegexBuilder::new(alloc, "^sam$")?.multi_line(true).build()?;
    /// assert!(rt; regex.is_match("frodo\nsam\n")?);
    /// ```
    ///
    /// The test `examples::every_line` in tests/unit runs this example.
    pub fn multi_line(&mut self, yes: bool) -> &mut RegexBuilder
        ensures same_reference { result.ghost_name ≡ self.entry.ghost_name }
        ensures value { result.now ≡
            record self.old { flags = record self.old.flags { multi_line = yes } } }
    {
        self.flags.multi_line = yes;
        self
    }

    /// Whether `.` matches every character: the flag `s`.
    ///
    /// Without the flag it excludes the line feed and, if `crlf` is on, the carriage return.
    pub fn dot_matches_new_line(&mut self, yes: bool) -> &mut RegexBuilder
        ensures same_reference { result.ghost_name ≡ self.entry.ghost_name }
        ensures value { result.now ≡
            record self.old { flags = record self.old.flags { dot_matches_new_line = yes } } }
    {
        self.flags.dot_matches_new_line = yes;
        self
    }

    /// Whether a carriage return ends a line as well: the flag `R`.
    ///
    /// Without the flag a line ends with a line feed. With it a line ends with a line feed, with a
    /// carriage return or with the two in this order: `\r\n`. Between these two neither `^` nor `$`
    /// matches. `^` and `$` match at lines only if `multi_line` is on. `.` excludes both characters
    /// even if that is off, unless `dot_matches_new_line` is on.
    pub fn crlf(&mut self, yes: bool) -> &mut RegexBuilder
        ensures same_reference { result.ghost_name ≡ self.entry.ghost_name }
        ensures value { result.now ≡
            record self.old { flags = record self.old.flags { crlf = yes } } }
    {
        self.flags.crlf = yes;
        self
    }

    /// Whether greedy and lazy operators are swapped: the flag `U`.
    ///
    /// With the flag `*`, `+` and `?` prefer fewer passes, and `*?`, `+?` and `??` more. This
    /// changes which match is found, but not whether there is one.
    pub fn swap_greed(&mut self, yes: bool) -> &mut RegexBuilder
        ensures same_reference { result.ghost_name ≡ self.entry.ghost_name }
        ensures value { result.now ≡
            record self.old { flags = record self.old.flags { swap_greed = yes } } }
    {
        self.flags.swap_greed = yes;
        self
    }

    /// Whether white space and comments in the pattern are ignored: the flag `x`.
    ///
    /// With the flag only escaped white space stands for itself. An unescaped `#` begins a comment,
    /// which ends with the next line feed. Both are ignored in bracketed classes too.
    ///
    /// ```
    /// let mut builder = RegexBuilder::new(alloc, "sam (?:wise)?  # of many")?;
    /// let regex = builder.ignore_whitespace(true).build()?;
    /// assert!(rt; regex.is_match("samwise")?);
    /// ```
    ///
    /// The test `examples::verbose` in tests/unit runs this example.
    pub fn ignore_whitespace(&mut self, yes: bool) -> &mut RegexBuilder
        ensures same_reference { result.ghost_name ≡ self.entry.ghost_name }
        ensures value { result.now ≡
            record self.old { flags = record self.old.flags { ignore_whitespace = yes } } }
    {
        self.flags.ignore_whitespace = yes;
        self
    }

    /// How deeply a pattern may nest.
    ///
    /// The limit bounds both how deeply groups are nested and how deeply nodes of the pattern's
    /// tree are nested below its root. With 0 a pattern may be one character, class or look, or
    /// empty. A limit above 2^32 - 2 counts as 2^32 - 2.
    ///
    /// ```
    /// let mut builder = RegexBuilder::new(alloc, "(?:a|(?:b|c+))")?;
    /// assert!(rt; builder.nest_limit(2).build().is_err());
    /// assert!(rt; builder.nest_limit(3).build()?.is_match("c")?);
    /// ```
    ///
    /// The test `examples::depth` in tests/unit runs this example.
    pub fn nest_limit(&mut self, limit: u32) -> &mut RegexBuilder
        ensures same_reference { result.ghost_name ≡ self.entry.ghost_name }
        ensures value { result.now ≡ record self.old { nest_limit = min limit (2 ^ 32 - 2) } }
    {
        self.nest_limit = limit.min(u32::MAX - 1);
        self
    }

    /// How large a compiled pattern may become.
    ///
    /// The size is that of the NFA. A state (a place) counts 32, a transition (an arrow) out of a
    /// choice 4, and a range of a character set 8. A counted operator multiplies these: `a{100}`
    /// has the size 3312. Each of the `captures_len` groups counts 16. A group's name counts 4 plus
    /// its length in bytes, once.
    ///
    /// ```
    /// let mut builder = RegexBuilder::new(alloc, "a")?;
    /// assert!(rt; builder.size_limit(143).build().is_err());
    /// assert!(rt; builder.size_limit(144).build()?.is_match("a")?);
    /// ```
    ///
    /// The test `examples::size` in tests/unit runs this example.
    pub fn size_limit(&mut self, limit: usize) -> &mut RegexBuilder
        ensures same_reference { result.ghost_name ≡ self.entry.ghost_name }
        ensures value { result.now ≡ record self.old { size_limit = limit } }
    {
        self.size_limit = limit;
        self
    }

    /// Builds the regex. The builder can be used again.
    ///
    /// The limits are checked before the pattern is compiled, so a rejected pattern takes no memory
    /// for its NFA.
    ///
    /// # Errors
    ///
    /// `Syntax` if the grammar gives the pattern no tree, `Nesting` if it nests deeper than the
    /// nest limit, `Groups` if it has more capture groups than can be numbered, `Size` if its size
    /// is above the size limit, `Places` if it has more places than can be numbered, `Slots` if a
    /// group's slots can't be numbered, and `Memory` if memory runs out. If several of `Size`,
    /// `Places` and `Slots` apply, any of them may be returned.
    ///
    /// The parser stops at the first fault. So a pattern without a tree can also give `Nesting` or
    /// `Groups`, but only if it has so many `(` that it could exceed that limit.
    pub fn build(&self) -> Result<Regex, Error>
        ensures { Builds self.now result }
    {
        let alloc = self.alloc;
        let hir = self.hir()?;
        let graph = Graph::new(alloc, &hir, self.size_limit)?;
        let compiled = Compiled {
            pattern: self.to_pattern()?,
            graph,
        };
        let compiled = Shared::new(alloc, compiled)?;
        Ok(Regex { alloc, compiled })
    }

    /// The tree of the pattern.
    pub(super) fn hir(&self) -> Result<Hir, Error>
        ensures read { IfOk result (λ hir. IsReadAs self.now (tree_of hir)) }
        ensures regular { IfOk result (λ hir. IsRegular (tree_of hir)) }
        ensures refused { IfErr result (λ error. IsDueOnReading self.now error) }
    {
        let config = Config {
            flags: self.flags,
            nest_limit: self.nest_limit,
        };
        Hir::parse(self.alloc, config, self.pattern.as_str())
    }

    /// The tree of the pattern, with its counts, if it exceeds no limit.
    pub(super) fn accepted_hir(&self) -> Result<Measured, Error>
        ensures accepted { IfOk result (λ hir. IsAcceptedAs self.now (tree_of hir)) }
        ensures refused { IfErr result (λ error. IsDue self.now error) }
    {
        let hir = self.hir()?;
        GraphList::within_limits(hir, self.size_limit)
    }

    /// The pattern, and the flags under which it is read.
    pub(super) fn to_pattern(&self) -> Result<Pattern, AllocError>
        ensures { IfOk result (λ own. own ≡ expression_of self.now) }
    {
        Ok(Pattern {
            text: self.pattern.clone()?,
            flags: self.flags,
        })
    }
}
