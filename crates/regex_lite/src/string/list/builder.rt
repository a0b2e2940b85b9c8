//! The settings under which several patterns are built.
ghost use Rattle.std.specs.Prelude.{◌≡◌, ◌∷◌, ◌++◌, ◌-◌, ◌^◌, [], min, IfOk, IfErr};
ghost use Rattle.regex_lite_syntax.specs.Errors.{out_of_memory};
ghost use Rattle.regex_lite.specs.RegexList.{BuildsList};
ghost use Rattle.regex_lite.specs.Settings.{default_list, settings_of_next};

use crate::string::builder::RegexBuilder;
use crate::string::list::RegexList;
use regex_lite_syntax::{Error, Flags};
use std::alloc::Global;
use std::marker::Model;

/// Several patterns, each with the settings under which it is to be built.
///
/// A setter affects the patterns that are pushed after it. Patterns that were pushed before keep
/// their settings, so each pattern can have its own.
///
/// ```
/// let mut builder = RegexListBuilder::new(alloc);
/// builder.case_insensitive(true).push("frodo")?;
/// builder.case_insensitive(false).push("sam")?;
/// let list = builder.build()?;
/// list.is_match("FRODO")?; // true
/// list.is_match("SAM")?; // false
/// ```
///
/// The test `examples::lists::builder` in tests/unit runs this example.
#[derive(Debug, Drop)]
pub struct RegexListBuilder {
    alloc: Global,
    patterns: Vec<RegexBuilder>,
    /// The settings of the next pattern.
    flags: Flags,
    nest_limit: u32,
    size_limit: usize,
}

impl Model for RegexListBuilder {
    ghost use Rattle.regex_lite.specs.Settings.{ListSettings};

    ghost Value = { ListSettings };

    ghost view = { λ builder. record {
      patterns = builder.patterns.items;
      flags = builder.flags;
      nest_limit = builder.nest_limit;
      size_limit = builder.size_limit;
    } };
}

impl RegexListBuilder {
    /// A builder without patterns. The next pattern has the default settings: no flag is on, the
    /// nest limit is 50 and the size limit 10485760.
    pub fn new(alloc: Global) -> RegexListBuilder
        ensures { result ≡ default_list }
    {
        RegexListBuilder {
            alloc,
            patterns: Vec::new(alloc),
            flags: Flags::default(),
            nest_limit: 50,
            size_limit: 10_485_760,
        }
    }

    /// Adds a pattern after the others, under the current settings.
    ///
    /// # Errors
    ///
    /// `Memory` if there is no memory for a copy of the pattern. Then the builder is unchanged. The
    /// pattern isn't read before `build`.
    pub fn push(&mut self, pattern: &str) -> Result<(), Error>
        ensures ok { IfOk result (λ _. self.new ≡ record self.old {
          patterns = self.old.patterns ++ (settings_of_next self.old pattern.now ∷ []);
        }) }
        ensures refused { IfErr result
            (λ error. (error ≡ out_of_memory) × (self.new ≡ self.old)) }
    {
        let pattern = RegexBuilder {
            alloc: self.alloc,
            pattern: String::from_str(self.alloc, pattern)?,
            flags: self.flags,
            nest_limit: self.nest_limit,
            size_limit: self.size_limit,
        };
        self.patterns.push(pattern)?;
        Ok(())
    }

    /// [`RegexBuilder::case_insensitive`](crate::RegexBuilder::case_insensitive), for the patterns
    /// that are pushed after this call.
    pub fn case_insensitive(&mut self, yes: bool) -> &mut RegexListBuilder
        ensures same_reference { result.ghost_name ≡ self.entry.ghost_name }
        ensures value { result.now ≡
            record self.old { flags = record self.old.flags { case_insensitive = yes } } }
    {
        self.flags.case_insensitive = yes;
        self
    }

    /// [`RegexBuilder::multi_line`](crate::RegexBuilder::multi_line), for the patterns that are
    /// pushed after this call.
    pub fn multi_line(&mut self, yes: bool) -> &mut RegexListBuilder
        ensures same_reference { result.ghost_name ≡ self.entry.ghost_name }
        ensures value { result.now ≡
            record self.old { flags = record self.old.flags { multi_line = yes } } }
    {
        self.flags.multi_line = yes;
        self
    }

    /// [`RegexBuilder::dot_matches_new_line`](crate::RegexBuilder::dot_matches_new_line), for the
    /// patterns that are pushed after this call.
    pub fn dot_matches_new_line(&mut self, yes: bool) -> &mut RegexListBuilder
        ensures same_reference { result.ghost_name ≡ self.entry.ghost_name }
        ensures value { result.now ≡
            record self.old { flags = record self.old.flags { dot_matches_new_line = yes } } }
    {
        self.flags.dot_matches_new_line = yes;
        self
    }

    /// [`RegexBuilder::crlf`](crate::RegexBuilder::crlf), for the patterns that are pushed after
    /// this call.
    pub fn crlf(&mut self, yes: bool) -> &mut RegexListBuilder
        ensures same_reference { result.ghost_name ≡ self.entry.ghost_name }
        ensures value { result.now ≡
            record self.old { flags = record self.old.flags { crlf = yes } } }
    {
        self.flags.crlf = yes;
        self
    }

    /// [`RegexBuilder::swap_greed`](crate::RegexBuilder::swap_greed), for the patterns that are
    /// pushed after this call.
    pub fn swap_greed(&mut self, yes: bool) -> &mut RegexListBuilder
        ensures same_reference { result.ghost_name ≡ self.entry.ghost_name }
        ensures value { result.now ≡
            record self.old { flags = record self.old.flags { swap_greed = yes } } }
    {
        self.flags.swap_greed = yes;
        self
    }

    /// [`RegexBuilder::ignore_whitespace`](crate::RegexBuilder::ignore_whitespace), for the
    /// patterns that are pushed after this call.
    pub fn ignore_whitespace(&mut self, yes: bool) -> &mut RegexListBuilder
        ensures same_reference { result.ghost_name ≡ self.entry.ghost_name }
        ensures value { result.now ≡
            record self.old { flags = record self.old.flags { ignore_whitespace = yes } } }
    {
        self.flags.ignore_whitespace = yes;
        self
    }

    /// [`RegexBuilder::nest_limit`](crate::RegexBuilder::nest_limit), for the patterns that are
    /// pushed after this call.
    pub fn nest_limit(&mut self, limit: u32) -> &mut RegexListBuilder
        ensures same_reference { result.ghost_name ≡ self.entry.ghost_name }
        ensures value { result.now ≡ record self.old { nest_limit = min limit (2 ^ 32 - 2) } }
    {
        self.nest_limit = limit.min(u32::MAX - 1);
        self
    }

    /// [`RegexBuilder::size_limit`](crate::RegexBuilder::size_limit), for each pattern by itself
    /// that is pushed after this call.
    pub fn size_limit(&mut self, limit: usize) -> &mut RegexListBuilder
        ensures same_reference { result.ghost_name ≡ self.entry.ghost_name }
        ensures value { result.now ≡ record self.old { size_limit = limit } }
    {
        self.size_limit = limit;
        self
    }

    /// Builds the list of the patterns, in the order in which they were pushed. The builder can be
    /// used again.
    ///
    /// # Errors
    ///
    /// Those of [`RegexBuilder::build`](crate::RegexBuilder::build) for the first pattern that is
    /// rejected by itself, under its own settings. If none is rejected, `Places` if they have 2^32
    /// or more places together. `Memory` if memory runs out.
    pub fn build(&self) -> Result<RegexList, Error>
        ensures { BuildsList self.now.patterns result }
    {
        RegexList::build(self.alloc, &self.patterns)
    }
}
