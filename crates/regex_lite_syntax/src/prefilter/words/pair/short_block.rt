//! Where two letters of a word stand in short blocks of bytes.
ghost use Rattle.std.specs.Prelude.{◌≡◌, ◌≤◌, ◌<◌, ℕ, length, slice_index};
ghost use Rattle.regex_lite_syntax.specs.Prefilter.Finders.{first_place};
ghost use Rattle.regex_lite_syntax.specs.Prefilter.Words.{IsLetter};

use crate::prefilter::words::letter::Letter;
use std::simd::prelude::*;

/// How many offsets are asked about at a time where few are left, or in a block of more at one of
/// which the word may stand.
pub(super) const SHORT_BLOCK: usize = 16;

/// The first place at which one of these bytes is the first letter, and the other the second, or
/// how many they are.
#[inline(always)]
pub(super) fn first_of_both(firsts: &[u8], seconds: &[u8], first: Letter, second: Letter) -> usize
    requires firsts { length firsts.now ≡ 16 }
    requires seconds { length seconds.now ≡ 16 }
    ensures few { result ≤ 16 }
    ensures none { (k : ℕ) → k < result → IsLetter first (slice_index firsts.now k)
        → ¬ IsLetter second (slice_index seconds.now k) }
{
    let (v, w) = (u8x16::from_slice(firsts), u8x16::from_slice(seconds));
    let are_first = v.simd_eq(u8x16::splat(first.byte)) | v.simd_eq(u8x16::splat(first.other));
    let are_second = w.simd_eq(u8x16::splat(second.byte)) | w.simd_eq(u8x16::splat(second.other));
    first_of((are_first & are_second).to_bitmask())
}

/// The place of the lowest bit that is set, or the length of a short block.
#[inline(always)]
fn first_of(places: u64) -> usize
    ensures { result ≡ first_place places }
{
    if places == 0 {
        return SHORT_BLOCK;
    }
    places.trailing_zeros() as usize
}
