//! Building a list of patterns.
ghost use Rattle.std.specs.Prelude.{◌≡◌, ◌⊎◌, IfOk, IfErr, length, map};
ghost use Rattle.regex_lite_syntax.specs.Errors.{out_of_memory};
ghost use Rattle.regex_lite_syntax.specs.Tree.Views.{tree_of};
ghost use Rattle.regex_lite.specs.Expression.{expression_of};
ghost use Rattle.regex_lite.specs.RegexList.{AreAcceptedAs, BuildsList, IsDueToLowest};
ghost use Rattle.regex_lite.specs.Settings.{default_settings};
ghost use Rattle.regex_lite.specs.Slots.{kept_slots, most_groups};

use crate::owner::Shared;
use crate::string::builder::RegexBuilder;
use crate::string::compiled::Pattern;
use crate::string::list::RegexList;
use crate::string::list::compiled::CompiledList;
use crate::string::slots::kept_of;
use regex_lite_engine::{GraphList, Measured};
use regex_lite_syntax::Error;
use std::alloc::{AllocError, Global};

impl RegexList {
    /// The list of these patterns, each under its own settings. All are parsed, and their places
    /// counted, before any is compiled.
    pub(super) fn build(alloc: Global, builders: &[RegexBuilder]) -> Result<RegexList, Error>
        ensures { BuildsList builders.now result }
    {
        let hirs = parse_all(alloc, builders)?;
        let graph = GraphList::new(alloc, &hirs)?;
        let patterns = patterns_of(alloc, builders)?;
        let kept_slots = kept_slots(&graph, builders.len());
        let compiled = CompiledList {
            patterns,
            graph,
            kept_slots,
        };
        let compiled = Shared::new(alloc, compiled)?;
        Ok(RegexList { alloc, compiled })
    }
}

/// The patterns with the default settings.
pub(super) fn default_builders(alloc: Global, patterns: &[&str]) -> Result<Vec<RegexBuilder>, Error>
    ensures ok { IfOk result (λ builders.
        builders.items ≡ map (λ pattern. default_settings pattern.now) patterns.now) }
    ensures refused { IfErr result (λ error. error ≡ out_of_memory) }
{
    let mut builders = Vec::with_capacity(alloc, patterns.len())?;
    for pattern in patterns {
        builders.push(RegexBuilder::new(alloc, pattern)?)?;
    }
    Ok(builders)
}

/// The trees of the patterns, if each is accepted by itself.
fn parse_all(alloc: Global, builders: &[RegexBuilder]) -> Result<Vec<Measured>, Error>
    ensures accepted { IfOk result (λ hirs.
        AreAcceptedAs builders.now (map tree_of hirs.items)) }
    ensures refused { IfErr result
        (λ error. (error ≡ out_of_memory) ⊎ IsDueToLowest builders.now error) }
{
    let mut hirs = Vec::with_capacity(alloc, builders.len())?;
    for builder in builders {
        hirs.push(builder.accepted_hir()?)?;
    }
    Ok(hirs)
}

/// The patterns and their flags, without the limits.
fn patterns_of(alloc: Global, builders: &[RegexBuilder]) -> Result<Vec<Pattern>, AllocError>
    ensures { IfOk result (λ patterns. patterns.items ≡ map expression_of builders.now) }
{
    let mut patterns = Vec::with_capacity(alloc, builders.len())?;
    for builder in builders {
        patterns.push(builder.to_pattern()?)?;
    }
    Ok(patterns)
}

/// The number of slots that a search for the groups keeps: two for each group of the pattern with
/// the most. If no pattern has a group besides the whole match, the span of the match suffices, and
/// no slot is kept.
fn kept_slots(graph: &GraphList, count: usize) -> usize
    requires { count ≡ length graph.now.groups }
    ensures { result ≡ kept_slots (most_groups graph.now.groups) }
{
    let mut most = 0;
    for number in 0..count {
        let own = 2 * graph.groups(number).capture_names().len();
        most = most.max(own);
    }
    kept_of(most)
}
