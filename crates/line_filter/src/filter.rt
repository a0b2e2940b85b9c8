//! The lines of an input that a pattern matches, or doesn't match.
ghost use Rattle.std.specs.Prelude.{◌≡◌, ◌≢◌, ◌↔◌, IfErr, IfOk, IfSome, IsTrue};
ghost use Rattle.line_filter.specs.declared.fault.FilterFault.TheVariants.{Unwritten};
ghost use Rattle.line_filter.specs.Lines.{AreFiltered, IsBegun, IsSelected, LineMatches};
ghost use Rattle.line_filter.specs.Lines.{lines_of, text_of};

use crate::blocks::{InputBlock, split_line, whole_lines};
use crate::fault::FilterFault;
use regex_lite::RegexSearcher;
use regex_lite::laws::searches_find_the_first_match;
use std::alloc::Global;
use std::io::{Read, Write};
use std::str;

/// Which lines are written.
#[derive(Clone, Copy, Debug)]
pub enum Selection {
    /// The lines that the pattern matches.
    Matching,
    /// The lines that the pattern doesn't match.
    Others,
}

/// Writes the selected lines of the input, whole and in order, and returns whether there is one.
///
/// A line ends with its line feed; the last may have none. The pattern is searched for in the text
/// before the line feed. A line that isn't valid UTF-8 counts as one that the pattern doesn't
/// match. Memory holds a block of the input and the longest line.
///
/// # Errors
///
/// `Unreadable` and `Unwritten` if a read or a write failed, and `Refused` if memory ran out.
/// Unless a write failed, the selected lines up to some line have been written.
pub fn filter<R: Read, W: Write>(
    alloc: Global,
    searcher: &mut RegexSearcher<'_>,
    selection: Selection,
    input: &mut R,
    output: &mut W,
) -> Result<bool, FilterFault>
    ensures filtered { IfOk result (λ found. IfSome (R.remaining input.old) (λ bytes.
        AreFiltered (IsSelected selection (LineMatches searcher.old)) (lines_of bytes)
        (W.contents output.old) (W.contents output.new) found)) }
    ensures begun { IfErr result (λ fault. fault ≢ Unwritten
        → IfSome (R.remaining input.old) (λ bytes.
        IsBegun (IsSelected selection (LineMatches searcher.old)) (lines_of bytes)
        (W.contents output.old) (W.contents output.new))) }
    ensures same { searcher.new ≡ searcher.old }
{
    let mut block = InputBlock::new(alloc);
    let mut found = false;
    for _turn in 0..u64::MAX {
        let start = block.len();
        if block.read_from(input)? {
            found |= write_lines(searcher, selection, block.as_slice(), output)?;
            return Ok(found);
        }
        let end = whole_lines(block.as_slice(), start);
        found |= write_lines(searcher, selection, &block.as_slice()[..end], output)?;
        block.drop_front(end);
    }
    Err(FilterFault::Unreadable)
}

/// Writes those of these lines that are selected, and returns whether there is one.
fn write_lines<W: Write>(
    searcher: &mut RegexSearcher<'_>,
    selection: Selection,
    lines: &[u8],
    output: &mut W,
) -> Result<bool, FilterFault>
    ensures filtered { IfOk result (λ found.
        AreFiltered (IsSelected selection (LineMatches searcher.old)) (lines_of lines.now)
        (W.contents output.old) (W.contents output.new) found) }
    ensures refused { IfErr result (λ fault. fault ≡ Unwritten) }
    ensures same { searcher.new ≡ searcher.old }
{
    let mut found = false;
    let mut rest = lines;
    while let Some((line, after)) = split_line(rest) {
        if is_selected(searcher, selection, line) {
            output.write_all(line)?;
            found = true;
        }
        rest = after;
    }
    Ok(found)
}

/// Whether the line is to be written.
fn is_selected(searcher: &mut RegexSearcher<'_>, selection: Selection, line: &[u8]) -> bool
    ensures found { IsTrue result
        ↔ IsSelected selection (LineMatches searcher.old) line.now }
    ensures same { searcher.new ≡ searcher.old }
{
    let is_match = matches_line(searcher, line);
    match selection {
        Selection::Matching => is_match,
        Selection::Others => !is_match,
    }
}

/// Whether the pattern matches in the line.
fn matches_line(searcher: &mut RegexSearcher<'_>, line: &[u8]) -> bool
    ensures found { IsTrue result ↔ LineMatches searcher.old line.now }
    ensures same { searcher.new ≡ searcher.old }
{
    searches_find_the_first_match();
    match str::from_utf8(without_feed(line)) {
        Ok(text) => searcher.is_match(text),
        Err(_) => false,
    }
}

/// The line without its line feed.
fn without_feed(line: &[u8]) -> &[u8]
    ensures { result.now ≡ text_of line.now }
{
    match line {
        [front @ .., b'\n'] => front,
        _ => line,
    }
}
