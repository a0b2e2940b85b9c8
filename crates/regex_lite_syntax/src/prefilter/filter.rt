//! What is known of the positions at which the matches of a pattern can begin.
ghost use Rattle.std.specs.Prelude.{◌≡◌, IfSome, IsTrue, Some, option_map};
ghost use Rattle.regex_lite_syntax.specs.Tree.Views.{tree_of};
ghost use Rattle.regex_lite_syntax.specs.Prefilter.Bytes.{IsPrefilterOf};
ghost use Rattle.regex_lite_syntax.specs.Prefilter.Needed.{IsNeededBy};
ghost use Rattle.regex_lite_syntax.specs.Prefilter.StartFacts.{AreFactsOfTree};
ghost use Rattle.regex_lite_syntax.specs.Prefilter.Spelling.{AreReportedWords};

use crate::hir::Hir;
use crate::prefilter::Prefilter;
use crate::prefilter::first_set::FirstSet;
use crate::prefilter::prefixes::PrefixSets;
use crate::prefilter::words::{Needed, Words, may_have_words};
use std::alloc::Global;
use std::marker::Model;

/// The words with which the matches of a tree begin, or else the characters, with a prefilter for
/// them, if there is one.
#[derive(Drop)]
pub struct Filter {
    prefixes: PrefixSets,
    /// What rules out whole blocks of bytes; `None` if too many bytes can begin a match, or if
    /// words do.
    prefilter: Option<Prefilter>,
    /// On the heap, since few patterns have words, and filters are moved about.
    words: Option<Box<Words>>,
    /// Whether the tree is nothing but one of its words.
    are_all: bool,
    /// Words of which one stands in each match, if some are known with which it doesn't begin.
    needed: Option<Box<Needed>>,
}

impl Model for Filter {
    ghost use Rattle.std.specs.Prelude.{IfSome, option_map};
    ghost use Rattle.regex_lite_syntax.specs.Prefilter.Bytes.{IsPrefilterOf};
    ghost use Rattle.regex_lite_syntax.specs.Prefilter.StartFacts.{StartFacts};

    ghost Value = { StartFacts };

    ghost view = { λ filter. record {
      prefixes = filter.prefixes;
      words = option_map (λ words. words.value) filter.words;
      are_all = filter.are_all;
      needed = option_map (λ needed. needed.value) filter.needed;
    } };

    ghost invariant = { λ filter. IfSome filter.prefilter (IsPrefilterOf filter.prefixes) };
}

impl Filter {
    /// That of the tree. Where memory runs out, no words are known.
    pub fn of(alloc: Global, hir: &Hir) -> Filter
        ensures { AreFactsOfTree (tree_of hir.now) result }
    {
        let first = FirstSet::of(hir);
        // Where matches begin at the haystack's start, words would be looked for up to its end.
        if first.any && !first.at_start && may_have_words(hir) {
            if let Some((words, are_all)) = words_of(alloc, hir) {
                let needed = needed_past(alloc, hir, &words, are_all);
                return Filter {
                    prefixes: PrefixSets {
                        first,
                        second: None,
                    },
                    prefilter: None,
                    words: Some(words),
                    are_all,
                    needed,
                };
            }
        }
        let prefixes = PrefixSets::with_first(first, hir);
        let prefilter = Prefilter::of(&prefixes);
        Filter {
            prefixes,
            prefilter,
            words: None,
            are_all: false,
            needed: needed_by(alloc, hir, 0),
        }
    }

    /// The characters that can come first and second.
    pub fn prefixes(&self) -> &PrefixSets
        ensures { result.now ≡ self.now.prefixes }
    {
        &self.prefixes
    }

    /// What rules out whole blocks of bytes; `None` if too many bytes can begin a match, or if
    /// words do.
    pub fn prefilter(&self) -> &Option<Prefilter>
        ensures { IfSome result.now (IsPrefilterOf self.now.prefixes) }
    {
        &self.prefilter
    }

    /// The words of which each match begins with one, if there are such words.
    #[inline(always)]
    pub fn words(&self) -> Option<&Words>
        ensures { option_map (λ words. words.now) result ≡ self.now.words }
    {
        match &self.words {
            None => None,
            Some(words) => Some(words),
        }
    }

    /// The words, if each match is one of them, and nothing else.
    #[inline(always)]
    pub fn whole_words(&self) -> Option<&Words>
        ensures words { IfSome result (λ words. self.now.words ≡ Some words.now) }
        ensures all { IfSome result (λ _. IsTrue self.now.are_all) }
    {
        match &self.words {
            Some(words) if self.are_all => Some(words),
            _ => None,
        }
    }

    /// Words of which one stands in each match, if some are known.
    #[inline(always)]
    pub fn needed(&self) -> Option<&Needed>
        ensures { option_map (λ needed. needed.now) result ≡ self.now.needed }
    {
        match &self.needed {
            None => None,
            Some(needed) => Some(needed),
        }
    }
}

/// Words of which each match of the tree needs one, if it begins with one of these, of which the
/// tree may be all, and the needed ones are known and there is memory.
fn needed_past(alloc: Global, hir: &Hir, words: &Words, are_all: bool) -> Option<Box<Needed>>
    ensures { IfSome result (λ needed. IsNeededBy (tree_of hir.now) needed.value) }
{
    if are_all {
        return None;
    }
    needed_by(alloc, hir, words.reach())
}

/// Words of which each match of the tree needs one, if some are known and there is memory. So many
/// letters at least the words have with which it begins.
// Not inlined, as the next one isn't.
#[inline(never)]
fn needed_by(alloc: Global, hir: &Hir, begun: usize) -> Option<Box<Needed>>
    ensures { IfSome result (λ needed. IsNeededBy (tree_of hir.now) needed.value) }
{
    Box::new(alloc, Needed::of(hir, begun)?).ok()
}

/// The words of the tree, if it has some and there is memory.
// Not inlined, so that a pattern without words costs no more than the call.
#[inline(never)]
fn words_of(alloc: Global, hir: &Hir) -> Option<(Box<Words>, bool)>
    ensures { IfSome result
        (λ reported. AreReportedWords (tree_of hir.now) reported.0.value reported.1) }
{
    let Ok(Some((words, are_all))) = Words::of(alloc, hir) else {
        return None;
    };
    match Box::new(alloc, words) {
        Ok(words) => Some((words, are_all)),
        Err(_) => None,
    }
}
