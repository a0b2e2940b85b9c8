//! A regex, and how it is built, cloned and printed.
ghost use Rattle.std.specs.Prelude.{◌≡◌, Some, string_bytes, ⊤};
ghost use Rattle.regex_lite.specs.Settings.{default_settings};
ghost use Rattle.regex_lite.specs.Expression.{Builds};

use crate::owner::Shared;
use crate::string::builder::RegexBuilder;
use crate::string::compiled::Compiled;
use regex_lite_syntax::Error;
use std::alloc::{AllocError, Global};
use std::fmt;
use std::marker::Model;

/// A compiled pattern.
///
/// Clones share the compiled pattern, so cloning is cheap. It always succeeds.
#[derive(Drop)]
pub struct Regex {
    pub(super) alloc: Global,
    pub(super) compiled: Shared<Compiled>,
}

impl Model for Regex {
    ghost use Rattle.regex_lite.specs.Expression.{Expression};

    ghost Value = { Expression };

    ghost use Rattle.regex_lite.specs.Compiled.{IsBuilt};

    ghost view = { λ regex. regex.compiled.pattern };

    ghost invariant = { λ regex. IsBuilt regex.compiled };
}

impl Regex {
    /// Compiles a pattern under the default settings.
    ///
    /// ```
    /// let regex = Regex::new(alloc, "a+")?;
    /// regex.as_str(); // "a+"
    /// ```
    ///
    /// The test `examples::pattern` in tests/unit runs this example.
    ///
    /// # Errors
    ///
    /// `Syntax` if the grammar gives the pattern no tree, `Nesting` if it nests deeper than 50,
    /// `Groups` if it has more capture groups than can be numbered, `Size` if its size is above
    /// 10485760, and `Memory` if memory runs out. A pattern with too many places or slots is above
    /// that size too, and may give `Places` or `Slots` instead. See [`RegexBuilder::build`].
    pub fn new(alloc: Global, pattern: &str) -> Result<Regex, Error>
        ensures { Builds (default_settings pattern.now) result }
    {
        RegexBuilder::new(alloc, pattern)?.build()
    }

    /// Compiles a pattern under the default settings, with the errors of [`Regex::new`].
    ///
    /// ```
    /// let regex = Regex::from_str(alloc, "(a)")?;
    /// assert!(rt; regex.is_match("a")?);
    /// ```
    ///
    /// The test `examples::conversions` in tests/unit runs this example.
    pub fn from_str(alloc: Global, s: &str) -> Result<Regex, Error>
        ensures { Builds (default_settings s.now) result }
    {
        Regex::new(alloc, s)
    }

    /// Compiles a pattern under the default settings, with the errors of [`Regex::new`].
    ///
    /// ```
    /// let regex = Regex::try_from(alloc, "(a)")?;
    /// assert!(rt; regex.is_match("a")?);
    /// ```
    ///
    /// The test `examples::conversions` in tests/unit runs this example.
    pub fn try_from(alloc: Global, s: &str) -> Result<Regex, Error>
        ensures { Builds (default_settings s.now) result }
    {
        Regex::from_str(alloc, s)
    }

    /// Compiles an owned pattern under the default settings, with the errors of [`Regex::new`]. A
    /// rejected pattern is dropped.
    ///
    /// ```
    /// let regex = Regex::try_from_string(alloc, String::from_str(alloc, "(a)")?)?;
    /// assert!(rt; regex.is_match("a")?);
    /// ```
    ///
    /// The test `examples::conversions` in tests/unit runs this example.
    pub fn try_from_string(alloc: Global, s: String) -> Result<Regex, Error>
        ensures { Builds (default_settings (string_bytes s)) result }
    {
        Regex::new(alloc, s.as_str())
    }

    /// The text of the pattern.
    pub fn as_str(&self) -> &str
        ensures { result.now ≡ self.now.pattern }
    {
        self.compiled.pattern.text.as_str()
    }
}

impl Clone for Regex {
    ghost is_clone = { λ old new. new ≡ old };

    ghost is_infallible = { λ _. ⊤ };

    /// An equal regex. Cloning needs no memory, and never fails.
    fn clone(&self) -> Result<Regex, AllocError> {
        Ok(Regex {
            alloc: self.alloc,
            compiled: self.compiled.clone()?,
        })
    }
}

/// Writes the pattern.
impl fmt::Display for Regex {
    ghost output = { λ regex. Some regex.pattern };

    fn fmt<W: fmt::Write>(&self, f: &mut fmt::Formatter<W>) -> fmt::Result {
        write!(f, "{}", self.as_str())
    }
}

/// Writes the pattern as the only field of `Regex`.
impl fmt::Debug for Regex {
    fn fmt<W: fmt::Write>(&self, f: &mut fmt::Formatter<W>) -> fmt::Result {
        self.compiled.fmt(f)
    }
}
