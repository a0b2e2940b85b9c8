//! Which of several patterns may start at a position, by the characters that come next.
//!
//! Entering each of a thousand patterns at each position would cost a search most of its time. A
//! row of bits belongs to each first character, and to each second one, with a bit for each
//! pattern. The patterns that may start at a position are in the rows of both characters there. At
//! most positions there is none, which a set of second characters for each first one shows at once.
//! The third character rules out most of those that are left, by a mask of 32 bits for each pattern
//! (`third_masks`): rows for it would take four times the memory. The index takes 37 bytes for each
//! pattern, and 2 KB.
ghost use Rattle.std.specs.Prelude.{◌≡◌, ◌==◌, ◌&&◌, ◌||◌, ◌<◌, ◌*◌, ◌++◌};
ghost use Rattle.std.specs.Prelude.{[], ◌∷◌, ℕ, List, IfOk, length, map};
ghost use Rattle.regex_lite_syntax.specs.declared.prefilter.prefixes.PrefixSets.{PrefixSets};
ghost use Rattle.regex_lite_syntax.specs.Prefilter.PrefixIndex.{IsIndexOf, IsPrefixIndexOfTrees};
ghost use Rattle.regex_lite_syntax.specs.Prefilter.PrefixIndex.{IsWalkable};
ghost use Rattle.regex_lite_syntax.specs.Prefilter.Pairs.{in_set, is_unselective, ArePairsWith};
ghost use Rattle.regex_lite_syntax.specs.Prefilter.Pairs.{HasAllPairs};
ghost use Rattle.regex_lite_syntax.specs.Prefilter.Rows.{goes_on_with, has, IsSized, belongs};
ghost use Rattle.regex_lite_syntax.specs.Prefilter.Rows.{row_count};

mod ascii_set;
mod pairs;
mod rows;
mod third_masks;
mod walk;

use crate::hir::as_hir::AsHir;
use crate::prefilter::first_set::FirstSet;
use crate::prefilter::prefixes::PrefixSets;
use ascii_set::AsciiSet;
use rows::{AT_START, BitRows, SECOND};
use std::alloc::{AllocError, Global};
pub use third_masks::ThirdMasks;

/// How many lower-case ASCII letters there are.
const LETTERS: usize = 26;

/// An index of several trees: which of them may match from a position. A tree's number is its index
/// in the list.
#[derive(Drop)]
pub struct PrefixIndex {
    /// Where a match of any of them can begin.
    pub any: FirstSet,
    /// How many trees there are.
    pub count: usize,
    pub(crate) rows: BitRows,
    /// For each ASCII character, those that can come second in a match that begins with it.
    pub(crate) pairs: Vec<AsciiSet>,
    /// The characters that can come third in matches of each.
    pub third_masks: ThirdMasks,
}

impl PrefixIndex {
    /// The index of these trees.
    ///
    /// # Errors
    ///
    /// Where memory runs out.
    pub fn of<T: AsHir>(alloc: Global, hirs: &[T]) -> Result<PrefixIndex, AllocError>
        ensures ok { IfOk result (λ prefixes. IsPrefixIndexOfTrees (map T.tree hirs.now) prefixes) }
        ensures walkable { IfOk result IsWalkable }
    {
        let mut prefixes = PrefixIndex::none(alloc, hirs.len())?;
        for (number, hir) in hirs.iter().enumerate() {
            prefixes.add(number, &PrefixSets::of(hir.as_hir()));
        }
        let third_masks = ThirdMasks::of(alloc, hirs)?;
        Ok(PrefixIndex {
            third_masks,
            ..prefixes
        })
    }

    /// Whether at least 26 ASCII characters can come first, each before at least 26 second ones.
    /// Then some pattern may start at most positions of most texts.
    #[inline(never)]
    pub fn is_unselective(&self) -> bool
        ensures { result ≡ is_unselective self.now }
    {
        let mut often = 0;
        for k in 0..self.pairs.len() {
            if self.pairs[k].len() >= LETTERS {
                often += 1;
            }
        }
        often >= LETTERS
    }

    /// Room for this number of patterns, none of which is known yet.
    fn none(alloc: Global, count: usize) -> Result<PrefixIndex, AllocError>
        ensures count { IfOk result (λ prefixes. prefixes.count ≡ count) }
        ensures none { IfOk result (λ prefixes. IsIndexOf [] prefixes) }
    {
        Ok(PrefixIndex {
            any: FirstSet::nowhere(),
            count,
            rows: BitRows::blank(alloc, count)?,
            pairs: vec![in alloc; AsciiSet::empty(); 128]?,
            third_masks: ThirdMasks::none(alloc),
        })
    }

    /// Adds the pattern with this number, whose matches begin like this.
    fn add(&mut self, number: usize, prefixes: &PrefixSets)
        requires room { number < self.old.count }
        requires sized { IsSized self.old.rows self.old.count }
        requires pairs { HasAllPairs self.old }
        ensures count { self.new.count ≡ self.old.count }
        ensures sized { IsSized self.new.rows self.new.count }
        ensures added { (parts : List PrefixSets) → length parts ≡ number → IsIndexOf parts self.old
            → IsIndexOf (parts ++ prefixes.now ∷ []) self.new }
    {
        self.add_rows(number, prefixes);
        self.add_pairs(prefixes);
        self.any.add_starts(&prefixes.first);
    }

    /// Puts the pattern with this number into the rows of the characters with which it begins.
    fn add_rows(&mut self, number: usize, prefixes: &PrefixSets)
        requires room { number < self.old.count }
        requires sized { IsSized self.old.rows self.old.count }
        ensures set { (r n : ℕ) → r < row_count → n < 64 * self.old.rows.width
            → has self.new.rows r n
            ≡ (has self.old.rows r n || (n == number && belongs prefixes.now r)) }
        ensures width { self.new.rows.width ≡ self.old.rows.width }
        ensures all { length self.new.rows.words.items ≡ length self.old.rows.words.items }
        ensures same { self.new ≡ record self.old { rows = self.new.rows } }
    {
        self.rows.set_each(0, &prefixes.first, number);
        match &prefixes.second {
            None => self.rows.set_all(SECOND, number),
            Some(second) => self.rows.set_each(SECOND, second, number),
        }
        if prefixes.first.at_start {
            self.rows.set(AT_START, number);
        }
    }

    /// Adds the pairs of characters with which a match of the pattern can begin.
    fn add_pairs(&mut self, prefixes: &PrefixSets)
        requires { HasAllPairs self.old }
        ensures added { ArePairsWith prefixes.now self.old self.new }
        ensures same { self.new ≡ record self.old { pairs = self.new.pairs } }
    {
        let second = second_of(prefixes);
        let mut first = 0;
        'firsts: while first < 128 {
            if prefixes.first.begins_in_none_of_row(first) {
                first += 16;
                continue;
            }
            if prefixes.first.begins_in(first) {
                self.pairs[first] = self.pairs[first].union(second);
            }
            first += 1;
        }
    }
}

/// The ASCII characters that may come second.
fn second_of(prefixes: &PrefixSets) -> AsciiSet
    ensures { (code : ℕ) → code < 128 → in_set result code ≡ goes_on_with prefixes.now.second code }
{
    match &prefixes.second {
        None => AsciiSet::all(),
        Some(second) => AsciiSet::of(second),
    }
}
