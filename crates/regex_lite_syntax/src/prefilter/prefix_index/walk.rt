//! The patterns that may start at a position, found in the rows of the characters there.
ghost use Rattle.std.specs.Prelude.{◌≡◌, ◌==◌, ◌||◌, ◌&&◌, ◌+◌, ◌-◌, ◌*◌, ◌^◌, ◌<◌};
ghost use Rattle.std.specs.Prelude.{◌≤◌, ◌++◌, [], ◌∷◌, ℕ, Some, None, filter, is_none};
ghost use Rattle.std.specs.Prelude.{length, option_map, unwrap_or, vec_capacity};
ghost use Rattle.std.specs.Int.{bit_at};
ghost use Rattle.std.specs.List.{range_with_len};
ghost use Rattle.regex_lite_syntax.specs.Prefilter.PrefixIndex.{may_start, IsWalkable};
ghost use Rattle.regex_lite_syntax.specs.Prefilter.Rows.{has, row_count, second_row, set_from};
ghost use Rattle.regex_lite_syntax.specs.Prefilter.Rows.{start_row};

use crate::prefilter::prefix_index::PrefixIndex;
use crate::prefilter::prefix_index::rows::{AT_START, first_row, second_row};

impl PrefixIndex {
    /// Lists the numbers of the patterns that may start at a position, in ascending order, by the
    /// character before it and the two after it. What was listed before is dropped.
    ///
    /// Conditions: [`PrefixIndex::of`] made the index, of fewer than 2^32 patterns, and the
    /// capacity of the list is at least their number.
    pub fn list(
        &self,
        before: Option<char>,
        first: char,
        second: Option<char>,
        numbers: &mut Vec<u32>,
    )
        requires walkable { IsWalkable self.now }
        requires few { self.now.count < 2 ^ 32 }
        requires room { self.now.count ≤ vec_capacity numbers.old }
        ensures listed { numbers.new.items
            ≡ filter (may_start self.now before (Some first) second)
            (range_with_len 0 self.now.count) }
        ensures capacity { vec_capacity numbers.old ≤ vec_capacity numbers.new }
    {
        numbers.clear();
        if before.is_some() && self.never_begins(first, second) {
            return;
        }
        let first = first_row(first);
        let second = row_after(first, second);
        for k in 0..self.rows.width() {
            let word = self.word(before, first, second, k);
            add_set(word, 64 * k, numbers);
        }
    }

    /// Lists the numbers of all patterns, as at the end of the haystack, where any of them may
    /// match. What was listed before is dropped.
    ///
    /// Conditions: there are fewer than 2^32 patterns, and the capacity of the list is at least
    /// their number.
    pub fn list_all(&self, numbers: &mut Vec<u32>)
        requires few { self.now.count < 2 ^ 32 }
        requires room { self.now.count ≤ vec_capacity numbers.old }
        ensures listed { numbers.new.items ≡ range_with_len 0 self.now.count }
        ensures capacity { vec_capacity numbers.old ≤ vec_capacity numbers.new }
    {
        numbers.clear();
        for number in 0..self.count {
            add(numbers, number as u32);
        }
    }

    /// Those of 64 patterns that may start, by the rows of both characters.
    fn word(&self, before: Option<char>, first: usize, second: usize, k: usize) -> u64
        requires walkable { IsWalkable self.now }
        requires first { first < row_count }
        requires second { second < row_count }
        requires inside { k < self.now.rows.width }
        ensures { (number : ℕ) → 64 * k ≤ number → number < 64 * (k + 1)
            → (bit_at result (number - 64 * k) == 1)
            ≡ ((has self.now.rows first number && has self.now.rows second number)
            || (is_none before && has self.now.rows start_row number)) }
    {
        let word = self.rows.word(first, k) & self.rows.word(second, k);
        if before.is_none() {
            return word | self.rows.word(AT_START, k);
        }
        word
    }
}

/// The row of the second character. Where there is none, all of the first row may start.
fn row_after(first: usize, second: Option<char>) -> usize
    requires { first < row_count }
    ensures row { result ≡ unwrap_or (option_map second_row second) first }
    ensures inside { result < row_count }
{
    match second {
        None => first,
        Some(c) => second_row(c),
    }
}

/// Adds the numbers of the bits that are set. Bit 0 has the number `lowest`.
fn add_set(word: u64, lowest: usize, numbers: &mut Vec<u32>)
    requires few { lowest + 64 ≤ 2 ^ 32 }
    requires room { length numbers.old.items + length (set_from lowest word)
        ≤ vec_capacity numbers.old }
    ensures added { numbers.new.items ≡ numbers.old.items ++ set_from lowest word }
    ensures capacity { vec_capacity numbers.old ≤ vec_capacity numbers.new }
{
    let mut left = word;
    while left != 0 {
        let k = left.trailing_zeros();
        left &= !(1 << k);
        add(numbers, lowest as u32 + k);
    }
}

/// Adds a number. There is room for it.
fn add(numbers: &mut Vec<u32>, number: u32)
    requires { length numbers.old.items < vec_capacity numbers.old }
    ensures items { numbers.new.items ≡ numbers.old.items ++ number ∷ [] }
    ensures capacity { vec_capacity numbers.old ≤ vec_capacity numbers.new }
{
    let _ = numbers.push(number);
}
