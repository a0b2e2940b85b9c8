//! BitRows of bits with a bit for each pattern.
ghost use Rattle.std.specs.Prelude.{◌≡◌, ◌==◌, ◌&&◌, ◌||◌, ◌+◌, ◌*◌, ◌<◌, ◌≤◌};
ghost use Rattle.std.specs.Prelude.{ℕ, IfOk, false, length, slice_index, true};
ghost use Rattle.regex_lite_syntax.specs.Prefilter.Rows.{first_row, has, is_in_column, second_row};
ghost use Rattle.regex_lite_syntax.specs.Prefilter.Rows.{row_count, IsSized};
ghost use Rattle.regex_lite_syntax.specs.Prefilter.FirstSet.{begins_with};

use crate::prefilter::first_set::FirstSet;
use std::alloc::{AllocError, Global};

/// How many rows there are for the first character, and as many for the second: one for each ASCII
/// character, and one for all others.
const COLUMNS: usize = 129;

/// The first row of those for the second character.
pub(crate) const SECOND: usize = COLUMNS;

/// The row of the patterns that may start at the haystack's start, whatever comes next.
pub(crate) const AT_START: usize = 2 * COLUMNS;

/// How many rows there are.
const ROWS: usize = AT_START + 1;

/// A bit for each pattern in each row.
#[derive(Drop)]
pub(crate) struct BitRows {
    /// One row after another, the lowest number first.
    words: Vec<u64>,
    /// How many words a row has.
    width: usize,
}

impl BitRows {
    /// BitRows for this number of patterns, with no pattern in them yet.
    pub(crate) fn blank(alloc: Global, count: usize) -> Result<BitRows, AllocError>
        ensures sized { IfOk result (λ rows. IsSized rows count) }
        ensures none { IfOk result (λ rows. (row number : ℕ) → has rows row number ≡ false) }
    {
        let width = count.div_ceil(64);
        let len = width.checked_mul(ROWS).ok_or(AllocError)?;
        let words = vec![in alloc; 0; len]?;
        Ok(BitRows { words, width })
    }

    /// Puts the pattern with this number into the row.
    pub(crate) fn set(&mut self, row: usize, number: usize)
        requires row { row < row_count }
        requires number { number < 64 * self.old.width }
        requires all { length self.old.words.items ≡ row_count * self.old.width }
        ensures set { (r n : ℕ) → n < 64 * self.old.width
            → has self.new r n ≡ (has self.old r n || (n == number && r == row)) }
        ensures width { self.new.width ≡ self.old.width }
        ensures all { length self.new.words.items ≡ length self.old.words.items }
    {
        self.words[row * self.width + number / 64] |= 1 << (number % 64);
    }

    /// Puts the pattern with this number into the row of each character with which a match can
    /// begin, of the rows from this one on.
    pub(crate) fn set_each(&mut self, base: usize, starts: &FirstSet, number: usize)
        requires base { base + 129 ≤ row_count }
        requires number { number < 64 * self.old.width }
        requires all { length self.old.words.items ≡ row_count * self.old.width }
        ensures set { (r n : ℕ) → n < 64 * self.old.width → has self.new r n
            ≡ (has self.old r n
            || (n == number && is_in_column (begins_with starts.now) base 129 r)) }
        ensures width { self.new.width ≡ self.old.width }
        ensures all { length self.new.words.items ≡ length self.old.words.items }
    {
        let mut code = 0;
        'codes: while code < COLUMNS {
            if code < 128 && starts.begins_in_none_of_row(code) {
                code += 16;
                continue;
            }
            if starts.begins_in(code) {
                self.set(base + code, number);
            }
            code += 1;
        }
    }

    /// Puts it into the row of each character, of the rows from this one on.
    pub(crate) fn set_all(&mut self, base: usize, number: usize)
        requires base { base + 129 ≤ row_count }
        requires number { number < 64 * self.old.width }
        requires all { length self.old.words.items ≡ row_count * self.old.width }
        ensures set { (r n : ℕ) → n < 64 * self.old.width → has self.new r n
            ≡ (has self.old r n || (n == number && is_in_column (λ _. true) base 129 r)) }
        ensures width { self.new.width ≡ self.old.width }
        ensures all { length self.new.words.items ≡ length self.old.words.items }
    {
        for code in 0..COLUMNS {
            self.set(base + code, number);
        }
    }

    /// How many words a row has.
    pub(crate) fn width(&self) -> usize
        ensures { result ≡ self.now.width }
    {
        self.width
    }

    /// A word of the row.
    pub(crate) fn word(&self, row: usize, k: usize) -> u64
        requires row { row < row_count }
        requires inside { k < self.now.width }
        requires all { length self.now.words.items ≡ row_count * self.now.width }
        ensures { result ≡ slice_index self.now.words.items (row * self.now.width + k) }
    {
        self.words[row * self.width + k]
    }
}

/// The row of this first character.
pub(crate) fn first_row(c: char) -> usize
    ensures row { result ≡ first_row c }
    ensures inside { result < row_count }
{
    if c.is_ascii() { c as usize } else { 128 }
}

/// The row of this second character.
pub(crate) fn second_row(c: char) -> usize
    ensures row { result ≡ second_row c }
    ensures inside { result < row_count }
{
    SECOND + first_row(c)
}
