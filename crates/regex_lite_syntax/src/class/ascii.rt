//! Bitmaps of the ASCII characters of a set.
ghost use Rattle.std.specs.Prelude.{◌≡◌};
ghost use Rattle.regex_lite_syntax.specs.AsciiMaps.{AreMapOf, IsMapOf};
ghost use Rattle.regex_lite_syntax.specs.Sets.{span};
ghost use Rattle.regex_lite_syntax.specs.Ranges.{in_ranges, AreRuns};

use super::ClassRange;

const LAST_ASCII: char = '\x7F';

/// The ASCII characters of the ranges, which are in order, as a bitmap in two words, the lowest
/// first.
#[inline(never)]
pub(crate) fn words_of_ranges(ranges: &[ClassRange]) -> [u64; 2]
    requires { AreRuns 0 ranges.now }
    ensures { AreMapOf result (in_ranges ranges.now) }
{
    let map = map_of_ranges(ranges);
    [(map % (1 << 64)) as u64, (map >> 64) as u64]
}

/// The ASCII characters of the ranges, which are in order, as a bitmap.
fn map_of_ranges(ranges: &[ClassRange]) -> u128
    requires { AreRuns 0 ranges.now }
    ensures { IsMapOf result (in_ranges ranges.now) }
{
    let mut map = 0;
    for range in ranges {
        if !range.start.is_ascii() {
            break;
        }
        map |= map_of_range(*range);
    }
    map
}

/// The ASCII characters of the range, as a bitmap.
fn map_of_range(range: ClassRange) -> u128
    ensures { IsMapOf result (span range.start range.end) }
{
    if !range.start.is_ascii() {
        return 0;
    }
    let end = range.end.min(LAST_ASCII);
    let from_start = u128::MAX << range.start as u32;
    let to_end = u128::MAX >> (LAST_ASCII as u32 - end as u32);
    from_start & to_end
}
