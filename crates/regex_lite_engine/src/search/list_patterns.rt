//! Several patterns, which are searched for at once.
ghost use Prim.{hlevel};
ghost use Rattle.std.specs.Prelude.{◌≡◌, ◌^◌, ◌≤◌, ◌<◌, ℕ, suc, All, IfOk};
ghost use Rattle.std.specs.Prelude.{None, Some, chars, filter, length, map, vec_capacity};
ghost use Rattle.std.specs.List.{range_with_len};
ghost use Rattle.std.proofs.Props.{props};
ghost use Rattle.regex_lite_syntax.specs.Text.{Text, after};
ghost use Rattle.regex_lite_syntax.specs.Prefilter.PrefixIndex.{is_candidate_at, IsWalkable};
ghost use Rattle.regex_lite_syntax.specs.Prefilter.ThirdMasks.{may_go_on};
ghost use Rattle.regex_lite_engine.specs.Graph.StoredList.{table_of_list};
ghost use Rattle.regex_lite_engine.specs.Search.Here.{IsHere};
ghost use Rattle.regex_lite_engine.specs.Search.Starts.{AreStartsAt, start_numbered};

use crate::nfa::list::GraphList;
use crate::nfa::table::Table;
use crate::search::here::Here;
use crate::search::list_skip::skip_all;
use crate::search::patterns::{Anchored, Patterns, Start};
use regex_lite_syntax::prefilter::PrefixIndex;
use std::alloc::{AllocError, Global};

/// Patterns, and those of them that may start at the position reached last.
#[derive(Drop)]
pub struct ListPatterns<'g> {
    pub list: &'g GraphList,
    /// The numbers of those that may start there. There is room for all patterns.
    numbers: Vec<u32>,
    pub ghost room: { length list.now.entries ≤ vec_capacity numbers },
    pub ghost inside: { All (λ n. n < length list.now.entries) numbers.items } by { hlevel props },
}

impl<'g> ListPatterns<'g> {
    /// Those of this graph, none of which may start yet. All the memory that they need is asked for
    /// here.
    ///
    /// # Errors
    ///
    /// Where memory runs out.
    pub fn new(alloc: Global, list: &'g GraphList) -> Result<ListPatterns<'g>, AllocError>
        ensures list { IfOk result (λ patterns. patterns.list.now ≡ list.now) }
    {
        Ok(ListPatterns {
            list,
            numbers: Vec::with_capacity(alloc, list.len())?,
        })
    }
}

impl<'g> Patterns for ListPatterns<'g> {
    ghost use Rattle.std.specs.Prelude.{map};
    ghost use Rattle.regex_lite_engine.specs.Graph.StoredList.{table_of_list};
    ghost use Rattle.regex_lite_engine.specs.Search.Starts.{start_numbered};

    ghost table = { λ patterns. table_of_list patterns.list.now };

    ghost entries = { λ patterns. patterns.list.now.entries };

    ghost starts = { λ patterns.
        map (start_numbered patterns.list.now.entries) patterns.numbers.items };

    fn table(&self) -> &Table {
        self.list.table()
    }

    fn skip(&self, haystack: &str, here: Here) -> Option<Here> {
        skip_all(self.list, haystack, here)
    }

    fn has_prefilter(&self) -> bool {
        self.list.needed().is_some()
    }

    // Inlined, so that a position at which no pattern may start costs no call.
    #[inline(always)]
    fn come_to(&mut self, haystack: &str, here: Here) {
        // Each has a number of 32 bits, since there are no more.
        let _entries = self.list.entries();
        // At the haystack's start the pairs don't cover all patterns, and its end has no byte.
        if here.before.is_some()
            && here.after.is_some()
            && !self
                .list
                .prefixes()
                .may_begin_at(haystack.as_bytes(), here.at)
        {
            self.numbers.clear();
            return;
        }
        list_starts(self.list, haystack, here, &mut self.numbers);
    }

    fn len(&self) -> usize {
        self.numbers.len()
    }

    fn start(&self, k: usize) -> Start {
        let number = self.numbers[k];
        Start {
            number,
            place: self.list.entries()[number as usize],
        }
    }
}

impl<'g> Anchored for ListPatterns<'g> {
    fn start_no_more(&mut self) {
        self.numbers.clear();
    }
}

/// Lists the patterns that may start here, in the order of their numbers.
// Not inlined, so that the loop of a search keeps its registers.
#[inline(never)]
fn list_starts(list: &GraphList, haystack: &str, here: Here, numbers: &mut Vec<u32>)
    requires here { (p : ℕ) × IsHere (chars haystack.now) p here }
    requires room { length list.now.entries ≤ vec_capacity numbers.old }
    ensures starts { (p : ℕ) → IsHere (chars haystack.now) p here
        → AreStartsAt (table_of_list list.now) (chars haystack.now) list.now.entries p
        (map (start_numbered list.now.entries) numbers.new.items) }
    ensures inside { All (λ n. n < length list.now.entries) numbers.new.items }
    ensures few { length numbers.new.items ≤ length list.now.entries }
    ensures capacity { vec_capacity numbers.old ≤ vec_capacity numbers.new }
{
    let Some(first) = here.after else {
        list_at_end(list, here, numbers);
        return;
    };
    // Each has a number of 32 bits, since there are no more.
    let _entries = list.entries();
    list_by_index(list.prefixes(), haystack, here, first, numbers);
}

/// Lists those that may start at the haystack's end: if it is empty all of them, since a search has
/// no other start there, and else those that may match without reading a character.
fn list_at_end(list: &GraphList, here: Here, numbers: &mut Vec<u32>)
    requires end { here.after ≡ None }
    requires room { length list.now.entries ≤ vec_capacity numbers.old }
    ensures starts { (haystack : Text) (p : ℕ) → IsHere haystack p here
        → AreStartsAt (table_of_list list.now) haystack list.now.entries p
        (map (start_numbered list.now.entries) numbers.new.items) }
    ensures inside { All (λ n. n < length list.now.entries) numbers.new.items }
    ensures few { length numbers.new.items ≤ length list.now.entries }
    ensures capacity { vec_capacity numbers.old ≤ vec_capacity numbers.new }
{
    if here.before.is_some() {
        copy_numbers(list.at_end(), numbers);
        return;
    }
    // Each has a number of 32 bits, since there are no more.
    let _entries = list.entries();
    list.prefixes().list_all(numbers);
}

/// Copies the numbers. There is room for them.
fn copy_numbers(from: &[u32], numbers: &mut Vec<u32>)
    requires { length from.now ≤ vec_capacity numbers.old }
    ensures copied { numbers.new.items ≡ from.now }
    ensures capacity { vec_capacity numbers.old ≤ vec_capacity numbers.new }
{
    numbers.clear();
    let _ = numbers.extend_from_slice(from);
}

/// Lists the patterns that may start here, before this character, in the order of their numbers.
fn list_by_index(
    prefixes: &PrefixIndex,
    haystack: &str,
    here: Here,
    first: char,
    numbers: &mut Vec<u32>,
)
    requires here { (p : ℕ) × IsHere (chars haystack.now) p here }
    requires first { here.after ≡ Some first }
    requires walkable { IsWalkable prefixes.now }
    requires few { prefixes.now.count < 2 ^ 32 }
    requires room { prefixes.now.count ≤ vec_capacity numbers.old }
    ensures listed { (p : ℕ) → IsHere (chars haystack.now) p here
        → numbers.new.items ≡ filter (is_candidate_at prefixes.now (chars haystack.now) p)
        (range_with_len 0 prefixes.now.count) }
    ensures capacity { vec_capacity numbers.old ≤ vec_capacity numbers.new }
{
    let second = here.next(haystack);
    prefixes.list(here.before, first, second.after, numbers);
    keep_by_third(prefixes, haystack, second, numbers);
}

/// Keeps only those of these patterns that may start by their third character too: the one after
/// the second here, if there is one.
fn keep_by_third(prefixes: &PrefixIndex, haystack: &str, second: Here, numbers: &mut Vec<u32>)
    requires { (p : ℕ) × IsHere (chars haystack.now) p second }
    ensures kept { (p : ℕ) → IsHere (chars haystack.now) p second
        → numbers.new.items
        ≡ filter (may_go_on prefixes.now.third_masks (after (chars haystack.now) (suc p)))
        numbers.old.items }
    ensures capacity { vec_capacity numbers.old ≤ vec_capacity numbers.new }
{
    if numbers.is_empty() || second.after.is_none() {
        return;
    }
    if let Some(third) = second.next(haystack).after {
        prefixes.third_masks.keep(third, numbers);
    }
}
