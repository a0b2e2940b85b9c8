//! Joining ranges that have no character between them.
ghost use Rattle.std.specs.Prelude.{◌≡◌, ℕ, ◌+◌, ◌<◌, ◌≤◌, ◌||◌, All};
ghost use Rattle.std.specs.Prelude.{MatchBool, OnOk, length, take, drop};
ghost use Rattle.std.specs.List.Sorted.{IsNonDecreasingBy};
ghost use Rattle.regex_lite_syntax.specs.Sets.{span};
ghost use Rattle.regex_lite_syntax.specs.Ranges.{in_ranges, next_character, AreRuns, AreRunsOf};
ghost use Rattle.regex_lite_syntax.specs.Parser.RangeEnds.{span_of, start_of};

use super::ClassRange;
use super::neighbours::next_char;
use std::alloc::AllocError;

/// Joins ranges whose starts are in order into runs, which are stored at the front, and returns the
/// number of runs.
pub(crate) fn join_all(ranges: &mut [ClassRange]) -> usize
    requires { IsNonDecreasingBy (λ range. range.start) ranges.old }
    ensures { AreRunsOf (take result ranges.new) (in_ranges ranges.old) }
{
    let mut runs = 0;
    for at in 0..ranges.len() {
        let range = ranges[at];
        runs = join(ranges, runs, range);
    }
    runs
}

/// Adds the range, which starts no earlier than any of the runs at the front, and returns the new
/// number of runs.
fn join(ranges: &mut [ClassRange], runs: usize, range: ClassRange) -> usize
    requires inside { runs < length ranges.old }
    requires runs { AreRuns 0 (take runs ranges.old) }
    requires in_order { All (λ run. run.start ≤ range.start) (take runs ranges.old) }
    ensures inside { result ≤ runs + 1 }
    ensures runs { AreRuns 0 (take result ranges.new) }
    ensures in_order { All (λ run. run.start ≤ range.start) (take result ranges.new) }
    ensures members { (c : ℕ) → in_ranges (take result ranges.new) c
        ≡ (in_ranges (take runs ranges.old) c || span range.start range.end c) }
    ensures rest { drop (runs + 1) ranges.new ≡ drop (runs + 1) ranges.old }
{
    if range.start > range.end {
        return runs;
    }
    if runs > 0 && are_joined(ranges[runs - 1].end, range.start) {
        let last = &mut ranges[runs - 1];
        last.end = last.end.max(range.end);
        return runs;
    }
    ranges[runs] = range;
    runs + 1
}

/// Adds the range, which starts no earlier than any of the runs.
pub(crate) fn append(runs: &mut Vec<ClassRange>, range: ClassRange) -> Result<(), AllocError>
    requires runs { AreRuns 0 runs.old.items }
    requires in_order { All (λ run. run.start ≤ range.start) runs.old.items }
    ensures runs { OnOk result (AreRuns 0 runs.new.items) }
    ensures in_order { OnOk result (All (λ run. run.start ≤ range.start) runs.new.items) }
    ensures members { OnOk result ((c : ℕ) → in_ranges runs.new.items c
        ≡ (in_ranges runs.old.items c || span range.start range.end c)) }
{
    if range.start > range.end {
        return Ok(());
    }
    match runs.pop() {
        None => runs.push(range)?,
        Some(last) if are_joined(last.end, range.start) => {
            let start = last.start;
            let end = last.end.max(range.end);
            runs.push(ClassRange { start, end })?;
        }
        Some(last) => {
            runs.push(last)?;
            runs.push(range)?;
        }
    }
    Ok(())
}

/// Adds the characters from `start` to `end`, if both exist.
pub(crate) fn append_between(
    runs: &mut Vec<ClassRange>,
    start: Option<char>,
    end: Option<char>,
) -> Result<(), AllocError>
    requires runs { AreRuns 0 runs.old.items }
    requires in_order { All (λ run. run.start ≤ start_of start) runs.old.items }
    ensures runs { OnOk result (AreRuns 0 runs.new.items) }
    ensures in_order { OnOk result (All (λ run. run.start ≤ start_of start) runs.new.items) }
    ensures members { OnOk result ((c : ℕ) → in_ranges runs.new.items c
        ≡ (in_ranges runs.old.items c || span_of start end c)) }
{
    match (start, end) {
        (Some(start), Some(end)) => append(runs, ClassRange { start, end }),
        _ => Ok(()),
    }
}

/// Whether there is no character between the end of a range and the start of a later one.
fn are_joined(end: char, start: char) -> bool
    ensures { MatchBool result (start ≤ next_character end) (next_character end < start) }
{
    match next_char(end) {
        None => true,
        Some(next) => start <= next,
    }
}
