//! What a list of patterns keeps of each of its trees, or of all of them, beside their places.
ghost use Rattle.std.specs.Prelude.{◌≡◌, ◌^◌, ◌<◌, All, IfOk, IfSome, filter, length, map};
ghost use Rattle.std.specs.List.{range_with_len};
ghost use Rattle.regex_lite_syntax.specs.Tree.Views.{tree_of};
ghost use Rattle.regex_lite_syntax.specs.Prefilter.Needed.{AreNeededByEach};
ghost use Rattle.regex_lite_syntax.specs.Prefilter.NumberedWords.{AreWordsOfTrees};
ghost use Rattle.regex_lite_syntax.specs.Prefilter.StartFacts.{AreEachFactsOf, AreFactsOfTree};
ghost use Rattle.regex_lite_engine.specs.Graph.PlaceCounts.{whole_places};
ghost use Rattle.regex_lite_engine.specs.Graph.StoredList.{TellGroupsOf};
ghost use Rattle.regex_lite_engine.specs.Search.Filters.{own_facts_of};
ghost use Rattle.regex_lite_engine.specs.Search.Starts.{may_be_empty, TellReading};

use crate::count::measured::Measured;
use crate::nfa::groups::Groups;
use crate::search::own_filter::OwnFilter;
use regex_lite_syntax::Hir;
use regex_lite_syntax::prefilter::{ListWords, Needed};
use std::alloc::{AllocError, Global};

/// The groups of each of these trees, in their order.
///
/// # Errors
///
/// If memory runs out, or a name has as many owners as can be counted.
pub(super) fn groups_of(alloc: Global, hirs: &[Measured]) -> Result<Vec<Groups>, AllocError>
    requires { All (λ tree. whole_places tree < 2 ^ 32) (map tree_of hirs.now) }
    ensures all { IfOk result (λ groups. length groups.items ≡ length hirs.now) }
    ensures each { IfOk result (λ groups. TellGroupsOf (map tree_of hirs.now) groups.items) }
{
    let mut groups = Vec::with_capacity(alloc, hirs.len())?;
    for hir in hirs {
        groups.push(Groups::of(alloc, hir.hir(), hir.counts())?)?;
    }
    Ok(groups)
}

/// The filter of each of these trees, in their order: that of the whole tree, if the trees are few.
///
/// # Errors
///
/// If memory runs out.
pub(super) fn filters_of(
    alloc: Global,
    hirs: &[Measured],
    are_few: bool,
) -> Result<Vec<OwnFilter>, AllocError>
    ensures { IfOk result (λ filters. AreEachFactsOf (map tree_of hirs.now)
        (map own_facts_of filters.items)) }
{
    let mut filters = Vec::with_capacity(alloc, hirs.len())?;
    for hir in hirs {
        filters.push(filter_of(alloc, hir.hir(), are_few)?)?;
    }
    Ok(filters)
}

/// The filter of this tree: that of the whole tree, if it is one of few.
///
/// # Errors
///
/// If memory runs out.
fn filter_of(alloc: Global, hir: &Hir, are_few: bool) -> Result<OwnFilter, AllocError>
    ensures { IfOk result (λ filter. AreFactsOfTree (tree_of hir.now) (own_facts_of filter)) }
{
    if are_few {
        OwnFilter::whole(alloc, hir)
    } else {
        OwnFilter::of(alloc, hir)
    }
}

/// Of each of these trees whether its matches read a character, in their order.
///
/// # Errors
///
/// If memory runs out.
pub(super) fn that_read(alloc: Global, hirs: &[Measured]) -> Result<Vec<bool>, AllocError>
    ensures { IfOk result (λ reads. TellReading (map tree_of hirs.now) reads.items) }
{
    let mut reads = Vec::with_capacity(alloc, hirs.len())?;
    for hir in hirs {
        reads.push(!hir.counts().properties.nullable)?;
    }
    Ok(reads)
}

/// The numbers of the trees that may match without reading a character, in order.
///
/// # Errors
///
/// If memory runs out.
pub(super) fn that_may_be_empty(alloc: Global, hirs: &[Measured]) -> Result<Vec<u32>, AllocError>
    requires { length hirs.now < 2 ^ 32 }
    ensures { IfOk result (λ numbers. numbers.items
        ≡ filter (may_be_empty (map tree_of hirs.now)) (range_with_len 0 (length hirs.now))) }
{
    let mut numbers = Vec::new(alloc);
    for k in 0..hirs.len() {
        if hirs[k].counts().properties.nullable {
            numbers.push(k as u32)?;
        }
    }
    Ok(numbers)
}

/// The words of several trees, if each is nothing but its words and there is memory. A tree alone
/// is searched for as that of a regex is.
pub(super) fn words_of(alloc: Global, hirs: &[Measured]) -> Option<Box<ListWords>>
    ensures { IfSome result (λ words. AreWordsOfTrees (map tree_of hirs.now) words.value) }
{
    if hirs.len() < 2 {
        return None;
    }
    let Ok(Some(words)) = ListWords::of(alloc, hirs) else {
        return None;
    };
    match Box::new(alloc, words) {
        Ok(words) => Some(words),
        Err(_) => None,
    }
}

/// Words of which one stands in each match of any of these trees, if some are known and there is
/// memory. None are looked for where each match begins with a word that its filter knows: there
/// the index says as much. A tree alone is searched for as that of a regex is.
pub(super) fn needed_of(
    alloc: Global,
    hirs: &[Measured],
    filters: &[OwnFilter],
) -> Option<Box<Needed>>
    ensures { IfSome result (λ needed. AreNeededByEach (map tree_of hirs.now) needed.value) }
{
    if hirs.len() < 2 || all_begin_with_words(filters) {
        return None;
    }
    Box::new(alloc, Needed::of_all(hirs)?).ok()
}

/// Whether each of these filters knows words with which matches begin.
fn all_begin_with_words(filters: &[OwnFilter]) -> bool {
    for filter in filters {
        if !filter.begins_with_words() {
            return false;
        }
    }
    true
}
