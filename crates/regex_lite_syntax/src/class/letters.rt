//! The other case of ASCII letters.
ghost use Rattle.std.specs.Prelude.{◌≡◌, ℕ, ◌+◌, ◌-◌, ◌<◌, ◌≤◌, ◌||◌};
ghost use Rattle.std.specs.Prelude.{◌&&◌, min, max, MatchOption, OnOk};
ghost use Rattle.regex_lite_syntax.specs.Characters.{is_letter, is_lower, is_upper, other_case};
ghost use Rattle.regex_lite_syntax.specs.Sets.{span, case_closure};
ghost use Rattle.regex_lite_syntax.specs.Ranges.{in_ranges};

use super::ClassRange;
use std::alloc::{AllocError, Global};

const LOWER: ClassRange = ClassRange {
    start: 'a',
    end: 'z',
};

const UPPER: ClassRange = ClassRange {
    start: 'A',
    end: 'Z',
};

/// Adds the other case of each ASCII letter of the ranges.
pub(crate) fn ascii_case_fold(alloc: Global, ranges: &mut Vec<ClassRange>) -> Result<(), AllocError>
    ensures { OnOk result ((c : ℕ) → in_ranges ranges.new.items c
        ≡ case_closure (in_ranges ranges.old.items) c) }
{
    let mut others = Vec::new(alloc);
    for range in ranges.iter() {
        push_other_case(&mut others, *range)?;
    }
    ranges.extend_from_slice(&others)?;
    Ok(())
}

/// Adds the other case of the ASCII letters of a range.
fn push_other_case(ranges: &mut Vec<ClassRange>, range: ClassRange) -> Result<(), AllocError>
    ensures { OnOk result ((c : ℕ) → in_ranges ranges.new.items c
        ≡ (in_ranges ranges.old.items c
        || (is_letter c && span range.start range.end (other_case c)))) }
{
    push_upper_case(ranges, range)?;
    push_lower_case(ranges, range)?;
    Ok(())
}

/// Adds the lower-case letters of a range as upper case.
fn push_upper_case(ranges: &mut Vec<ClassRange>, range: ClassRange) -> Result<(), AllocError>
    ensures { OnOk result ((c : ℕ) → in_ranges ranges.new.items c
        ≡ (in_ranges ranges.old.items c || (is_upper c && span range.start range.end (c + 32)))) }
{
    if let Some(lower) = intersection(range, LOWER) {
        let start = lower.start.to_ascii_uppercase();
        let end = lower.end.to_ascii_uppercase();
        ranges.push(ClassRange { start, end })?;
    }
    Ok(())
}

/// Adds the upper-case letters of a range as lower case.
fn push_lower_case(ranges: &mut Vec<ClassRange>, range: ClassRange) -> Result<(), AllocError>
    ensures { OnOk result ((c : ℕ) → in_ranges ranges.new.items c
        ≡ (in_ranges ranges.old.items c || (is_lower c && span range.start range.end (c - 32)))) }
{
    if let Some(upper) = intersection(range, UPPER) {
        let start = upper.start.to_ascii_lowercase();
        let end = upper.end.to_ascii_lowercase();
        ranges.push(ClassRange { start, end })?;
    }
    Ok(())
}

/// The characters that are in both ranges.
fn intersection(a: ClassRange, b: ClassRange) -> Option<ClassRange>
    ensures { MatchOption result (min a.end b.end < max a.start b.start)
        (λ range. (range.start ≡ max a.start b.start) × (range.end ≡ min a.end b.end)
        × (range.start ≤ range.end)) }
{
    let start = a.start.max(b.start);
    let end = a.end.min(b.end);
    if start <= end {
        Some(ClassRange { start, end })
    } else {
        None
    }
}
