//! The place of the first fault in a pattern.
ghost use Rattle.std.specs.Prelude.{◌≡◌, ◌≢◌, ◌<◌, ◌≤◌, chars as chars_of, take, length};
ghost use Rattle.std.specs.Prelude.{IfOk, IfErr, IfSome, OnOk, MatchOption, MatchBool, Some, true};
ghost use Rattle.std.specs.Prelude.{option_map};
ghost use Rattle.regex_lite_syntax.specs.declared.error.ErrorKind.TheVariants.{Syntax};
ghost use Rattle.regex_lite_syntax.specs.Errors.{kind_of, syntax_error};
ghost use Rattle.regex_lite_syntax.specs.Characters.{AreCharacters};
ghost use Rattle.regex_lite_syntax.specs.CutShort.{is_cut_short};
ghost use Rattle.regex_lite_syntax.specs.FaultPlaces.{IsFaultAt, IsUntold, IsPlaceOfFault};
ghost use Rattle.regex_lite_syntax.specs.FaultPlaces.{BeginsNone, BeginsSome, IsEndOfFault};
ghost use Rattle.regex_lite_syntax.specs.Grammar.{HasTree};
ghost use Rattle.regex_lite_syntax.specs.Parser.FaultEnds.{IsRefusedUnread, IsEndAbove};
ghost use Rattle.regex_lite_syntax.specs.Parser.Starts.{Tracks};

use crate::error::{Error, SyntaxFault};
use crate::flags::Flags;
use crate::parse::{Parser, characters};
use std::alloc::{AllocError, Global};

/// The place of a fault in a pattern, in characters.
#[derive(Clone, Copy, PartialEq, Eq, Debug)]
pub struct FaultPlace {
    /// The number of characters before the part that can't be parsed.
    pub start: usize,
    /// The length of the shortest prefix, longer than `start`, with which no accepted pattern
    /// begins. `None` if some accepted pattern begins with the whole pattern, which may then be
    /// incomplete.
    pub end: Option<usize>,
}

/// The place at which the parser stops.
#[derive(Clone, Copy)]
struct Stop {
    /// The number of characters before the part that it can't parse.
    start: usize,
    /// Whether the pattern ends inside that part, and more of it could complete the part.
    is_cut_short: bool,
}

/// The place of the first fault in a pattern, or `None` if the grammar gives the pattern a tree.
///
/// # Errors
///
/// `Groups` if the pattern has more groups than can be numbered, and `Memory` if memory runs out.
pub fn fault_at(alloc: Global, flags: Flags, pattern: &str) -> Result<Option<FaultPlace>, Error>
    ensures found { let pattern = chars_of pattern.now in IfOk result (λ found.
        MatchOption found (HasTree flags pattern)
        (λ place. IsPlaceOfFault flags pattern place × (HasTree flags pattern → ⊥))) }
    ensures refused { IfErr result (λ error.
        IsUntold flags (chars_of pattern.now) (kind_of error)) }
{
    let chars = characters(alloc, pattern)?;
    match first_stop(alloc, flags, &chars)? {
        None => Ok(None),
        Some(stop) => Ok(Some(place_of(alloc, flags, &chars, stop)?)),
    }
}

/// The place at which the parser stops in the pattern with these characters, if it has a fault.
fn first_stop(alloc: Global, flags: Flags, chars: &[char]) -> Result<Option<Stop>, Error>
    requires { AreCharacters chars.now }
    ensures found { IfOk result (λ found. MatchOption found (HasTree flags chars.now)
        (λ stop. IsFaultAt flags chars.now stop.start × (HasTree flags chars.now → ⊥))) }
    ensures goes_on { IfOk result (λ found. IfSome found (λ stop. MatchBool stop.is_cut_short
        (BeginsSome flags chars.now) (BeginsNone flags chars.now))) }
    ensures refused { IfErr result (λ error. IsUntold flags chars.now (kind_of error)) }
    ensures unread { IfErr result (λ error. IsRefusedUnread chars.now (kind_of error)) }
{
    let mut parser = Parser::new(alloc, flags);
    // The starts of the open groups, the innermost last.
    let mut starts = Vec::new(alloc);
    let mut at = 0;
    loop {
        let here = parser.skip_gap(chars, at);
        if here == chars.len() {
            return Ok(unclosed(starts.pop()));
        }
        match parser.step(chars, here) {
            Ok(next) => at = next,
            Err(error) => return stop_or_error(error, here),
        }
        track(&mut starts, parser.open_groups(), here)?;
    }
}

/// The stop at the end of a pattern in which the innermost open group begins here, if one is open.
fn unclosed(start: Option<usize>) -> Option<Stop>
    ensures { result ≡ option_map (λ start. record { start = start; is_cut_short = true }) start }
{
    Some(Stop {
        start: start?,
        is_cut_short: true,
    })
}

/// The stop at the index for this error of the parser, if it is a syntax fault. Any other error is
/// returned.
fn stop_or_error(error: Error, start: usize) -> Result<Option<Stop>, Error>
    ensures stop { IfOk result (λ found. (fault : SyntaxFault) × (error ≡ syntax_error fault)
        × (found ≡ Some (record { start = start; is_cut_short = is_cut_short fault }))) }
    ensures other { IfErr result (λ e. (kind_of error ≢ Syntax) × (e ≡ error)) }
{
    match error.syntax_fault() {
        Some(fault) => Ok(Some(Stop {
            start,
            is_cut_short: fault.is_cut_short(),
        })),
        None => Err(error),
    }
}

/// Updates the starts of the open groups after a step from this index, after which this many groups
/// are open.
fn track(starts: &mut Vec<usize>, count: usize, here: usize) -> Result<(), AllocError>
    ensures { OnOk result (Tracks starts.old.items starts.new.items count here) }
{
    if count > starts.len() {
        starts.push(here)?;
    } else if count < starts.len() {
        starts.pop();
    }
    Ok(())
}

/// The place of the fault at which the parser stops.
fn place_of(alloc: Global, flags: Flags, chars: &[char], stop: Stop) -> Result<FaultPlace, Error>
    requires characters { AreCharacters chars.now }
    requires fault { IsFaultAt flags chars.now stop.start }
    requires goes_on { MatchBool stop.is_cut_short
        (BeginsSome flags chars.now) (BeginsNone flags chars.now) }
    ensures place { IfOk result (IsPlaceOfFault flags chars.now) }
    ensures refused { IfErr result (λ error. IsUntold flags chars.now (kind_of error)) }
{
    let start = stop.start;
    if stop.is_cut_short {
        return Ok(FaultPlace { start, end: None });
    }
    let end = end_of_fault(alloc, flags, chars, start)?;
    Ok(FaultPlace {
        start,
        end: Some(end),
    })
}

/// The length of the shortest prefix, longer than `start`, with which no accepted pattern begins,
/// if none begins with the whole pattern.
fn end_of_fault(alloc: Global, flags: Flags, chars: &[char], start: usize) -> Result<usize, Error>
    requires characters { AreCharacters chars.now }
    requires inside { start < length chars.now }
    requires none { BeginsNone flags chars.now }
    ensures end { IfOk result (IsEndOfFault flags chars.now start) }
    ensures refused { IfErr result (λ error. IsRefusedUnread chars.now (kind_of error)) }
{
    let mut low = start;
    // The number of characters doubles each time, so that the pattern is parsed about twice.
    let mut width: usize = 1;
    loop {
        let high = low.saturating_add(width).min(chars.len());
        if high == chars.len() || begins_none(alloc, flags, &chars[..high])? {
            return least_refused(alloc, flags, chars, low, high);
        }
        low = high;
        width = width.saturating_mul(2);
    }
}

/// By bisection between `low` and `high`: the length of a prefix with which no accepted pattern
/// begins, while one begins with the prefix one character shorter or that has length `low`. No
/// accepted pattern begins with the first `high` characters.
fn least_refused(
    alloc: Global,
    flags: Flags,
    chars: &[char],
    low: usize,
    high: usize,
) -> Result<usize, Error>
    requires characters { AreCharacters chars.now }
    requires inside { (low < high) × (high ≤ length chars.now) }
    requires none { BeginsNone flags (take high chars.now) }
    ensures end { IfOk result (IsEndAbove flags chars.now low high) }
    ensures refused { IfErr result (λ error. IsRefusedUnread chars.now (kind_of error)) }
{
    let mut below = low;
    let mut end = high;
    while end - below > 1 {
        let middle = below + (end - below) / 2;
        if begins_none(alloc, flags, &chars[..middle])? {
            end = middle;
        } else {
            below = middle;
        }
    }
    Ok(end)
}

/// Whether no accepted pattern begins with these characters.
fn begins_none(alloc: Global, flags: Flags, chars: &[char]) -> Result<bool, Error>
    requires { AreCharacters chars.now }
    ensures reported { IfOk result (λ is. MatchBool is
        (BeginsNone flags chars.now) (BeginsSome flags chars.now)) }
    ensures refused { IfErr result (λ error. IsRefusedUnread chars.now (kind_of error)) }
{
    match first_stop(alloc, flags, chars)? {
        None => Ok(false),
        Some(stop) => Ok(!stop.is_cut_short),
    }
}
