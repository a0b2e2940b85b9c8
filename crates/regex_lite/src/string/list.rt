//! Lists of patterns that are searched for in one pass.
ghost use Rattle.std.specs.Prelude.{◌≡◌, ◌↔◌, ◌≤◌, ◌<◌, ◌*◌, ◌^◌, [], ℕ, IsTrue};
ghost use Rattle.std.specs.Prelude.{length, map, option_map, slice_get, ⊤};
ghost use Rattle.regex_lite_syntax.specs.Tree.{Tree};
ghost use Rattle.regex_lite_syntax.specs.Tree.Properties.{captures_len, nullable};
ghost use Rattle.regex_lite_engine.specs.Graph.SideBySide.{arrows_of_all, places_of_all};
ghost use Rattle.regex_lite_engine.specs.Graph.SideBySide.{HasTree};
ghost use Rattle.regex_lite.specs.Scanning.{most_captures};
ghost use Rattle.regex_lite.specs.Expression.{OfTree};
ghost use Rattle.regex_lite.specs.ListedPattern.{OfPattern};
ghost use Rattle.regex_lite.specs.RegexList.{BuildsList, OfTrees};
ghost use Rattle.regex_lite.specs.Settings.{default_settings};
ghost use Rattle.regex_lite.specs.Slots.{kept_slots};

mod anchored;
mod build;
pub(super) mod builder;
pub(super) mod captures_iter;
pub(super) mod compiled;
mod counted;
pub(super) mod find_iter;
mod group_search;
pub(super) mod kept;
mod listed;
mod search;
mod searcher;
pub(super) mod set_matches;
mod set_searcher;
mod which;
mod whole;

use crate::owner::Shared;
use build::default_builders;
use compiled::CompiledList;
use regex_lite_syntax::Error;
use std::alloc::{AllocError, Global};
use std::fmt;
use std::marker::Model;

/// A compiled list of patterns, which are searched for in one pass. They are numbered in order,
/// from 0 on.
///
/// A search goes over the haystack once, whatever the number of patterns. It finds the match that
/// starts first and, among the patterns that match there, the one with the lowest number. Only
/// [`RegexList::matches`], which returns for each pattern whether it matches, may make one pass per
/// pattern: for fewer than 16 patterns, or if patterns can start at so many positions that a single
/// pass would be slower. A search for one pattern alone, such as [`RegexList::captures_of`], takes
/// the pattern's number.
///
/// Clones share the compiled patterns, so cloning is cheap. It always succeeds.
#[derive(Drop)]
pub struct RegexList {
    alloc: Global,
    compiled: Shared<CompiledList>,
}

impl Model for RegexList {
    ghost use Rattle.std.specs.Prelude.{List};
    ghost use Rattle.regex_lite.specs.CompiledList.{IsBuiltList};
    ghost use Rattle.regex_lite.specs.Expression.{Expression};

    ghost Value = { List Expression };

    ghost view = { λ list. list.compiled.patterns.items };

    ghost invariant = { λ list. IsBuiltList list.compiled };
}

impl RegexList {
    /// Compiles a list of these patterns, each under the default settings. The list may be empty,
    /// and a pattern may occur in it more than once.
    ///
    /// ```
    /// let list = RegexList::new(alloc, &["samwise", "sam"])?;
    /// list.len(); // 2
    /// list.as_str(1); // Some("sam")
    /// ```
    ///
    /// The test `examples::lists::patterns` in tests/unit runs this example.
    ///
    /// # Errors
    ///
    /// Those of [`Regex::new`](crate::Regex::new) for the first pattern that is rejected by itself.
    /// The size limit applies to each pattern by itself. If none is rejected, `Places` if they have
    /// 2^32 or more places together. `Memory` if memory runs out. All patterns are parsed and their
    /// places counted before any is compiled.
    pub fn new(alloc: Global, patterns: &[&str]) -> Result<RegexList, Error>
        ensures { BuildsList
            (map (λ pattern. default_settings pattern.now) patterns.now) result }
    {
        let builders = default_builders(alloc, patterns)?;
        RegexList::build(alloc, &builders)
    }

    /// The number of patterns.
    pub fn len(&self) -> usize
        ensures { result ≡ length self.now }
    {
        self.compiled.patterns.len()
    }

    /// Whether there is no pattern.
    pub fn is_empty(&self) -> bool
        ensures { IsTrue result ↔ (self.now ≡ []) }
    {
        self.compiled.patterns.is_empty()
    }

    /// The pattern with this number, if there is one.
    pub fn as_str(&self, i: usize) -> Option<&str>
        ensures { option_map (λ text. text.now) result
            ≡ option_map (λ re. re.pattern) (slice_get self.now i) }
    {
        let pattern = self.compiled.patterns.get(i)?;
        Some(pattern.text.as_str())
    }

    /// Whether the pattern with this number may match the empty text: what
    /// [`Regex::may_be_empty`](crate::Regex::may_be_empty) returns for it.
    ///
    /// Condition: the list has more patterns than this number.
    pub fn may_be_empty(&self, number: usize) -> bool
        requires { number < length self.now }
        ensures { OfPattern self.now number (λ re. OfTree re (λ tree. result ≡ nullable tree)) }
    {
        !self.compiled.graph.reads(number)
    }

    /// The number of places (NFA states) of the compiled patterns together. It is less than 2^32.
    pub fn places(&self) -> usize
        ensures counted { OfTrees self.now (λ trees. result ≡ places_of_all trees) }
        ensures bounded { result < 2 ^ 32 }
    {
        self.compiled.graph.places()
    }

    /// The number of arrows (transitions) of the compiled patterns together. It is at most twice
    /// the number of places.
    pub fn arrows(&self) -> usize
        ensures counted { OfTrees self.now (λ trees. result ≡ arrows_of_all trees) }
        ensures few { (places : ℕ) → OfTrees self.now (λ trees. places ≡ places_of_all trees)
            → result ≤ 2 * places }
        ensures bounded { result < 2 ^ 33 }
    {
        self.compiled.graph.arrows()
    }
}

impl RegexList {
    /// The number of slots that a search for groups keeps.
    fn kept_slots(&self) -> usize
        ensures { OfTrees self.now (λ trees. result ≡ kept_slots (most_captures trees)) }
    {
        self.compiled.kept_slots
    }

    /// The number of slots of the groups of the pattern with this number: two for each group.
    fn slots_of(&self, number: usize) -> usize
        requires { number < length self.now }
        ensures { OfTrees self.now (λ trees. (tree : Tree) → HasTree trees number tree
            → result ≡ 2 * captures_len tree) }
    {
        2 * self.compiled.graph.groups(number).capture_names().len()
    }
}

impl Clone for RegexList {
    ghost is_clone = { λ old new. new ≡ old };

    ghost is_infallible = { λ _. ⊤ };

    /// An equal list. Cloning needs no memory, and never fails.
    fn clone(&self) -> Result<RegexList, AllocError> {
        Ok(RegexList {
            alloc: self.alloc,
            compiled: self.compiled.clone()?,
        })
    }
}

/// Writes the patterns as a list, the only field of `RegexList`.
impl fmt::Debug for RegexList {
    fn fmt<W: fmt::Write>(&self, f: &mut fmt::Formatter<W>) -> fmt::Result {
        f.debug_tuple("RegexList")
            .field(&self.compiled.patterns)
            .finish()
    }
}
