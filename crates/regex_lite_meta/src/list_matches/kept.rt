//! The memory that the searches for the single patterns of a list share.
ghost use Rattle.std.specs.Prelude.{◌≡◌, ◌<◌, ◌+◌, ◌↔◌, List, ℕ, IfErr, IfOk};
ghost use Rattle.std.specs.Prelude.{IsCharBoundary, chars, is_some, false, length, slice_index};
ghost use Rattle.std.specs.Prelude.{IfSome, IsTrue, None};
ghost use Rattle.regex_lite_syntax.specs.Tree.{Tree};
ghost use Rattle.regex_lite_engine.specs.Graph.PlaceCounts.{whole_arrows, whole_places};
ghost use Rattle.regex_lite_engine.specs.Graph.SideBySide.{AreRegularPatterns};
ghost use Rattle.regex_lite_engine.specs.Graph.SideBySide.{HasTree};
ghost use Rattle.regex_lite_engine.specs.Graph.Stored.{places_of};
ghost use Rattle.regex_lite_engine.specs.Graph.StoredList.{IsGraphOfList, StoredList};
ghost use Rattle.regex_lite_engine.specs.Graph.StoredList.{table_of_list};
ghost use Rattle.regex_lite_engine.specs.Search.Answer.{HasMatchFrom};
ghost use Rattle.regex_lite_engine.specs.Search.Bounds.{IsBoundedBy};
ghost use Rattle.regex_lite_engine.specs.Search.Counting.{IsCountable};
ghost use Rattle.regex_lite_engine.specs.Search.Offsets.{position_at};
ghost use Rattle.regex_lite_engine.specs.Pikevm.Searching.{IsBetween, IsFresh};
ghost use Rattle.regex_lite_engine.specs.Pikevm.Stepping.{best_of};
ghost use Rattle.regex_lite_meta.specs.ListMatches.{AreKeptFor, IsDfaSearcherFor, IsReportedOf};
ghost use Rattle.regex_lite_meta.specs.ListMatches.{NeedsNoMemory};
ghost use Rattle.regex_lite_engine.specs.Search.Here.{IsHere};
ghost use Rattle.regex_lite_meta.specs.ListPass.{PassKnows, IsReportedFrom};

use crate::lazy_dfa::single::find_once;
use crate::list_matches::attempt::attempt;
use crate::list_matches::status::Status;
use crate::strategy::{Searched, Strategy, Wanted, choose};
use regex_lite_engine::Steps;
use regex_lite_engine::nfa::list::GraphList;
use regex_lite_engine::nfa::table::Table;
use regex_lite_engine::pikevm::cache::{Cache, cache_for, restart};
use regex_lite_engine::pikevm::run::run;
use regex_lite_engine::pikevm::thread_start::{MatchStart, NoStart};
use regex_lite_engine::search::here::Here;
use regex_lite_engine::steps::no_steps;
use std::alloc::{AllocError, Global};

/// The memory that a search for one pattern leaves to the search for the next.
#[derive(Drop)]
pub(crate) struct Kept {
    alloc: Global,
    /// The memory of the PikeVM.
    sets: Option<Cache<NoStart>>,
    /// The memory of searches with a lazy DFA.
    dfa_searcher: Option<Box<DfaSearcher>>,
}

impl Kept {
    /// No memory yet.
    pub(super) fn new(alloc: Global) -> Kept
        ensures { (list : StoredList) → AreKeptFor list result }
    {
        Kept {
            alloc,
            sets: None,
            dfa_searcher: None,
        }
    }

    /// All memory that searches for the patterns of this list need. The memory of a lazy DFA is
    /// requested once a search uses one; without it searches use the PikeVM.
    ///
    /// Condition: the list has a pattern.
    ///
    /// # Errors
    ///
    /// If memory runs out.
    pub(crate) fn ready(alloc: Global, list: &GraphList) -> Result<Kept, AllocError>
        requires { 0 < length list.now.entries }
        ensures kept { IfOk result (AreKeptFor list.now) }
        ensures ready { IfOk result NeedsNoMemory }
    {
        let _patterns = list.len();
        let sets = cache_for(alloc, list.table(), 0)?;
        Ok(Kept {
            alloc,
            sets: Some(sets),
            dfa_searcher: None,
        })
    }

    /// Whether the pattern with this number matches, and the cost of the search for it. Memory is
    /// requested for the first pattern that can match anywhere, and kept for the next ones.
    #[inline(always)]
    pub(super) fn search_one(
        &mut self,
        list: &GraphList,
        number: usize,
        haystack: &str,
        start: usize,
    ) -> Result<(bool, Steps), AllocError>
        requires number { number < length list.now.entries }
        requires boundary { IsCharBoundary haystack.now start }
        requires kept { AreKeptFor list.now self.old }
        ensures reported { IfOk result
            (λ reported. IsReportedFrom (table_of_list list.now) haystack.now
            (slice_index list.now.entries number) (position_at haystack.now start) reported.0) }
        ensures found { IfOk result (λ reported. (trees : List Tree) (tree : Tree)
            → AreRegularPatterns trees → IsGraphOfList trees list.now
            → HasTree trees number tree → (IsTrue reported.0
            ↔ HasMatchFrom tree (chars haystack.now) (position_at haystack.now start))) }
        ensures cost { IfOk result (λ reported. (trees : List Tree) (tree : Tree)
            → IsGraphOfList trees list.now → HasTree trees number tree
            → IsBoundedBy (whole_places tree) (whole_arrows tree + 1) (chars haystack.now)
            (position_at haystack.now start) reported.1.tried reported.1.entered
            reported.1.looked) }
        ensures entered { IfOk result (λ reported. IsTrue reported.0 → 0 < reported.1.entered) }
        ensures kept { AreKeptFor list.now self.new }
        ensures ready { NeedsNoMemory self.old → NeedsNoMemory self.new × IfErr result (λ _. ⊥) }
    {
        let pattern = list.pattern(number);
        // Any occurrence of a word is a match.
        if let Some((found, steps)) = pattern.search_words(self.alloc, haystack, start) {
            return Ok((found.is_some(), steps));
        }
        let Some(first) = pattern.first_start(haystack, start) else {
            return Ok((false, no_steps()));
        };
        self.search_from(list, number, haystack, first.at)
    }

    /// Whether the pattern matches from this offset on, at which a match of it may begin, and the
    /// cost of the search.
    #[inline(always)]
    fn search_from(
        &mut self,
        list: &GraphList,
        number: usize,
        haystack: &str,
        start: usize,
    ) -> Result<(bool, Steps), AllocError>
        requires number { number < length list.now.entries }
        requires boundary { IsCharBoundary haystack.now start }
        requires kept { AreKeptFor list.now self.old }
        ensures reported { IfOk result (IsReportedOf (table_of_list list.now) (chars haystack.now)
            (slice_index list.now.entries number) (position_at haystack.now start)) }
        ensures kept { AreKeptFor list.now self.new }
        ensures ready { NeedsNoMemory self.old → NeedsNoMemory self.new × IfErr result (λ _. ⊥) }
    {
        if dfa_pays(list, number, haystack.len() - start) {
            if let Some(reported) = self.search_with_dfa(list, number, haystack, start) {
                return Ok(reported);
            }
        }
        self.search_by_sets(list, number, haystack, start)
    }

    /// Tries the pattern here, where a match of it may begin. It isn't tried if searching for it by
    /// itself is faster.
    pub(super) fn try_at(
        &mut self,
        list: &GraphList,
        number: usize,
        haystack: &str,
        here: Here,
    ) -> Result<Status, AllocError>
        requires number { number < length list.now.entries }
        requires here { (p : ℕ) × IsHere (chars haystack.now) p here }
        requires kept { AreKeptFor list.now self.old }
        ensures reported { IfOk result (λ status. (p : ℕ) → IsHere (chars haystack.now) p here
            → PassKnows (table_of_list list.now) haystack.now (slice_index list.now.entries number)
            p (p + 1) status) }
        ensures kept { AreKeptFor list.now self.new }
        ensures ready { NeedsNoMemory self.old → NeedsNoMemory self.new × IfErr result (λ _. ⊥) }
    {
        if dfa_pays(list, number, haystack.len() - here.at) {
            return Ok(Status::Left(here.at));
        }
        let mut pattern = list.pattern(number);
        if let Some(sets) = &mut self.sets {
            restart(sets);
            return Ok(attempt(sets, &mut pattern, haystack, here));
        }
        let mut sets = cache_for(self.alloc, pattern.table, 0)?;
        let status = attempt(&mut sets, &mut pattern, haystack, here);
        self.sets.replace(sets);
        Ok(status)
    }

    /// What [`Kept::search_from`] returns, by the PikeVM alone.
    // Not inlined, so that its own loop is inlined: it has two callers.
    #[inline(never)]
    fn search_by_sets(
        &mut self,
        list: &GraphList,
        number: usize,
        haystack: &str,
        start: usize,
    ) -> Result<(bool, Steps), AllocError>
        requires number { number < length list.now.entries }
        requires boundary { IsCharBoundary haystack.now start }
        requires kept { AreKeptFor list.now self.old }
        ensures reported { IfOk result (IsReportedOf (table_of_list list.now) (chars haystack.now)
            (slice_index list.now.entries number) (position_at haystack.now start)) }
        ensures kept { AreKeptFor list.now self.new }
        ensures ready { NeedsNoMemory self.old → NeedsNoMemory self.new × IfErr result (λ _. ⊥) }
    {
        let mut pattern = list.pattern(number);
        let mut cache = memory_again(self.alloc, pattern.table, self.sets.take())?;
        run::<_, _, true>(&mut cache, &mut pattern, haystack, start);
        let reported = reported_by(&cache);
        self.sets.replace(cache);
        Ok(reported)
    }

    /// What [`Kept::search_from`] returns, with a lazy DFA if the search isn't over soon. `None` if
    /// there is no memory for that.
    // Not inlined, so that searches in short haystacks don't pay for it.
    #[inline(never)]
    fn search_with_dfa(
        &mut self,
        list: &GraphList,
        number: usize,
        haystack: &str,
        start: usize,
    ) -> Option<(bool, Steps)>
        requires number { number < length list.now.entries }
        requires boundary { IsCharBoundary haystack.now start }
        requires kept { AreKeptFor list.now self.old }
        ensures reported { IfSome result (IsReportedOf (table_of_list list.now) (chars haystack.now)
            (slice_index list.now.entries number) (position_at haystack.now start)) }
        ensures kept { AreKeptFor list.now self.new }
        ensures ready { NeedsNoMemory self.old → NeedsNoMemory self.new }
    {
        let mut dfa_searcher = match self.dfa_searcher.take() {
            Some(dfa_searcher) => dfa_searcher,
            None => DfaSearcher::new(self.alloc, list).ok()?,
        };
        let reported = dfa_searcher.search(list, number, haystack, start);
        self.dfa_searcher.replace(dfa_searcher);
        Some(reported)
    }
}

/// Whether a search for the pattern with this number in this many bytes uses a lazy DFA.
#[inline(always)]
fn dfa_pays(list: &GraphList, number: usize, bytes: usize) -> bool
    requires { number < length list.now.entries }
{
    let pattern = list.pattern(number);
    let searched = Searched::one(pattern.table, pattern.filter);
    matches!(
        choose(&searched, Wanted::Earliest, 0, bytes),
        Strategy::LazyDfa
    )
}

/// The memory of searches for single patterns of a list with a lazy DFA.
#[derive(Drop)]
struct DfaSearcher {
    alloc: Global,
    cache: Cache<MatchStart>,
}

impl DfaSearcher {
    /// The memory for the patterns of this list.
    ///
    /// Condition: the list has a pattern.
    ///
    /// # Errors
    ///
    /// If memory runs out.
    fn new(alloc: Global, list: &GraphList) -> Result<Box<DfaSearcher>, AllocError>
        requires { 0 < length list.now.entries }
        ensures { IfOk result (λ dfa_searcher. IsDfaSearcherFor list.now dfa_searcher.value) }
    {
        let _patterns = list.len();
        let cache = cache_for::<MatchStart>(alloc, list.table(), 0)?;
        Ok(Box::new(alloc, DfaSearcher { alloc, cache })?)
    }

    /// Whether the pattern with this number matches from this offset on, and the cost of the
    /// search.
    fn search(
        &mut self,
        list: &GraphList,
        number: usize,
        haystack: &str,
        start: usize,
    ) -> (bool, Steps)
        requires number { number < length list.now.entries }
        requires boundary { IsCharBoundary haystack.now start }
        requires learns { IsDfaSearcherFor list.now self.old }
        ensures reported { IsReportedOf (table_of_list list.now) (chars haystack.now)
            (slice_index list.now.entries number) (position_at haystack.now start) result }
        ensures learns { IsDfaSearcherFor list.now self.new }
    {
        let mut pattern = list.pattern(number);
        let mut all = list.pattern(number);
        all.may_start = true;
        let DfaSearcher { alloc, cache } = self;
        restart(cache);
        let found = find_once::<_, _, true>(&mut pattern, &all, *alloc, cache, haystack, start);
        (found.is_some(), cache.walk.steps)
    }
}

/// Memory for a search in this table: what was kept, if anything, reset for another search.
///
/// Condition: the table has a place.
///
/// # Errors
///
/// If memory runs out.
fn memory_again(
    alloc: Global,
    table: &Table,
    kept: Option<Cache<NoStart>>,
) -> Result<Cache<NoStart>, AllocError>
    requires some { 0 < length table.now.places }
    requires ready { IfSome kept (λ cache. IsBetween (places_of table.now) cache
        × IsCountable (places_of table.now)) }
    ensures fresh { IfOk result (IsFresh (places_of table.now)) }
    ensures countable { IfOk result (λ _. IsCountable (places_of table.now)) }
    ensures refused { IfErr result (λ _. kept ≡ None) }
{
    let Some(mut cache) = kept else {
        return cache_for(alloc, table, 0);
    };
    restart(&mut cache);
    Ok(cache)
}

/// Whether the search in this memory found a match, and its cost.
fn reported_by(cache: &Cache<NoStart>) -> (bool, Steps)
    ensures found { result.0 ≡ is_some (best_of cache.now.best) }
    ensures steps { result.1 ≡ cache.now.walk.steps }
{
    (cache.best.end().is_some(), cache.walk.steps)
}
