//! With which third character a match of one of several patterns can go on.
//!
//! Most candidates that the first two characters leave are ruled out by the third, so a search
//! enters few. A pattern has a mask of 32 bits, each of which stands for all characters whose codes
//! leave the same remainder.
ghost use Rattle.std.specs.Prelude.{◌≡◌, ℕ, Option, Some, IfOk, IsTrue};
ghost use Rattle.std.specs.Prelude.{filter, map, true, vec_capacity};
ghost use Rattle.regex_lite_syntax.specs.Tree.Views.{tree_of};
ghost use Rattle.regex_lite_syntax.specs.Prefilter.FirstSet.{may_begin};
ghost use Rattle.regex_lite_syntax.specs.Prefilter.ThirdMasks.{in_mask, may_go_on, AreMasksOf};
ghost use Rattle.regex_lite_syntax.specs.Prefilter.ThirdMasks.{BeginsInMask, IsThirdOfTree};
ghost use Rattle.regex_lite_syntax.specs.Prefilter.ThirdMasks.{ReadsOne};

use crate::hir::Hir;
use crate::hir::as_hir::AsHir;
use crate::prefilter::first_set::FirstSet;
use std::alloc::{AllocError, Global};

/// The mask of all characters.
const ALL: u32 = u32::MAX;

/// The characters that can come third in matches of several patterns.
#[derive(Drop)]
pub struct ThirdMasks {
    /// A mask for each pattern, by its number.
    masks: Vec<u32>,
}

impl ThirdMasks {
    /// Those of no pattern.
    pub(crate) fn none(alloc: Global) -> ThirdMasks {
        ThirdMasks {
            masks: Vec::new(alloc),
        }
    }

    /// Those of these trees.
    ///
    /// # Errors
    ///
    /// Where memory runs out.
    pub(crate) fn of<T: AsHir>(alloc: Global, hirs: &[T]) -> Result<ThirdMasks, AllocError>
        ensures { IfOk result
            (λ third_masks. AreMasksOf (map T.tree hirs.now) third_masks.masks.items) }
    {
        let mut masks = Vec::with_capacity(alloc, hirs.len())?;
        for hir in hirs {
            masks.push(third_of(hir.as_hir()))?;
        }
        Ok(ThirdMasks { masks })
    }

    /// Keeps only those of these patterns that may have this third character.
    pub fn keep(&self, third: char, numbers: &mut Vec<u32>)
        ensures kept { numbers.new.items
            ≡ filter (may_go_on self.now (Some third)) numbers.old.items }
        ensures capacity { vec_capacity numbers.new ≡ vec_capacity numbers.old }
    {
        numbers.retain(|number| self.may_go_on(*number, third));
    }

    /// Whether the pattern with this number may have this third character.
    fn may_go_on(&self, number: u32, third: char) -> bool
        ensures { result ≡ may_go_on self.now (Some third) number }
    {
        match self.masks.get(number as usize) {
            None => true,
            Some(mask) => *mask >> (third as u32 % 32) & 1 == 1,
        }
    }
}

/// The mask of what comes third in a match of the tree, where two parts that read one character
/// each stand before it.
fn third_of(hir: &Hir) -> u32
    ensures { IsThirdOfTree (tree_of hir.now) result }
{
    if let Hir::Concat(parts) = hir {
        if let [first, second, third, ..] = parts.as_slice() {
            if reads_one(first) && reads_one(second) {
                return first_of(third);
            }
        }
    }
    ALL
}

/// Whether each match of the tree reads one character, judging by its root.
fn reads_one(hir: &Hir) -> bool
    ensures { IsTrue result → ReadsOne (tree_of hir.now) }
{
    matches!(hir, Hir::Char(_) | Hir::Class(_))
}

/// The mask of what a match of the tree begins with, or of all where it may read nothing.
fn first_of(hir: &Hir) -> u32
    ensures { BeginsInMask (tree_of hir.now) result }
{
    match hir {
        Hir::Char(c) => 1 << (*c as u32 % 32),
        _ => mask_of(&FirstSet::of(hir)),
    }
}

/// The mask of the characters with which a match can begin.
fn mask_of(starts: &FirstSet) -> u32
    ensures { (before : Option ℕ) (c : ℕ) → IsTrue (may_begin starts.now before (Some c))
        → in_mask result c ≡ true }
{
    if starts.at_start || starts.begins_in(128) {
        return ALL;
    }
    let mut mask = 0;
    for code in 0..128 {
        if starts.begins_in(code) {
            mask |= 1 << (code % 32);
        }
    }
    mask
}
