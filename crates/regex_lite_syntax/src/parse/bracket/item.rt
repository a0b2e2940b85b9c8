//! Items of a class.
ghost use Rattle.std.specs.Prelude.{◌≡◌, ◌<◌, ◌≤◌, ◌++◌, ◌∷◌, ℕ, List, drop, length};
ghost use Rattle.std.specs.Prelude.{IsTrue, false, IfOk, OnOk, IfErr, IfSome, MatchOption};
ghost use Rattle.regex_lite_syntax.specs.Text.{Text, Begins, the};
ghost use Rattle.regex_lite_syntax.specs.Grammar.Gaps.{EndsGap};
ghost use Rattle.regex_lite_syntax.specs.Sets.{Set};
ghost use Rattle.regex_lite_syntax.specs.Grammar.Escapes.{Primitive as Given, one};
ghost use Rattle.regex_lite_syntax.specs.Grammar.Classes.{ClassElement, RangeFollows, ClassItem};
ghost use Rattle.regex_lite_syntax.specs.Grammar.Classes.{ClassItems};
ghost use Rattle.regex_lite_syntax.specs.Parser.Readings.{primitive_of, ReachesTo};
ghost use Rattle.regex_lite_syntax.specs.Parser.ClassReadings.{element_primitive, IsElement};
ghost use Rattle.regex_lite_syntax.specs.Parser.ClassReadings.{item_set, BeginsOperator};
ghost use Rattle.regex_lite_syntax.specs.Parser.ClassReadings.{RangeTo, EndsOpen, HasItems};
ghost use Rattle.regex_lite_syntax.specs.Refusals.{NoReading, CanComplete};
ghost use Rattle.regex_lite_syntax.specs.CutShort.{is_cut_short};

use crate::class::named::NamedSet;
use crate::error::{SyntaxFault, UnexpectedEof};
use crate::parse::bracket::named::read_named_set;
use crate::parse::escape::{Primitive, read_escape};
use crate::parse::gap::skip_gap;
use crate::parse::read::is_at;

/// An element of an item: a character or an escape.
#[derive(Clone, Copy, PartialEq, Eq, Debug)]
pub(crate) enum Element {
    /// This character.
    Char(char),
    /// The set with this name, or its complement.
    Set { set: NamedSet, negated: bool },
}

/// An item of a class, which is the union of its items.
#[derive(Clone, Copy, PartialEq, Eq, Debug)]
pub(crate) enum Item {
    Alone(Element),
    /// The characters from `start` to `end`, both included.
    Range { start: char, end: char },
}

/// Reads an item, and returns the index after it. The character at the index isn't `]`.
pub(crate) fn read_item(
    chars: &[char],
    at: usize,
    verbose: bool,
) -> Result<(usize, Item), SyntaxFault>
    requires inside { at < length chars.now }
    requires past_gap { EndsGap verbose (drop at chars.now) }
    requires goes_on { Begins (the "]") (drop at chars.now) → ⊥ }
    ensures inside { IfOk result (λ r. (at < r.0) × (r.0 ≤ length chars.now)) }
    ensures ok { IfOk result (λ r.
        ClassItem verbose (drop at chars.now) (drop r.0 chars.now) (item_set r.1)) }
    ensures stays { IfOk result (λ r. (more : Text) → ClassItem verbose
        (drop at chars.now ++ more) (drop r.0 chars.now ++ more) (item_set r.1)) }
    ensures refused { IfErr result (λ fault.
        NoReading fault (HasItems verbose) (drop at chars.now)) }
    ensures completes { IfErr result (λ fault. CanComplete fault
        (λ t rest. (s : Set) × (sets : List Set) × ClassItems verbose (s ∷ sets) t rest)
        (drop at chars.now)) }
{
    if is_at(chars, at, '[') {
        let (end, element) = read_named_set(chars, at)?;
        return Ok((end, Item::Alone(element)));
    }
    if let Some(fault) = operator_fault(chars, at) {
        return Err(fault);
    }
    let (past, first) = read_element(chars, at, verbose, '\0')?;
    let Some(element) = element_of(first) else {
        return Err(fault_of_look(chars, past, verbose));
    };
    match find_range_end(chars, past, verbose)? {
        None => Ok((past, Item::Alone(element))),
        Some(last) => read_range(chars, first, last, verbose),
    }
}

/// The fault of an item that begins with the look before the index: nothing could complete it.
fn fault_of_look(chars: &[char], at: usize, verbose: bool) -> SyntaxFault
    requires { at ≤ length chars.now }
    ensures { is_cut_short result ≡ false }
{
    match find_range_end(chars, at, verbose) {
        Err(fault) => fault.for_good(),
        Ok(None) => SyntaxFault::ClassInvalidItem,
        Ok(Some(last)) => fault_of_range(chars, last, verbose),
    }
}

/// The fault if there is a doubled `&`, `-` or `~` at the index.
fn operator_fault(chars: &[char], at: usize) -> Option<SyntaxFault>
    requires { at < length chars.now }
    ensures { MatchOption result (BeginsOperator (drop at chars.now) → ⊥)
        (λ fault. BeginsOperator (drop at chars.now) × (is_cut_short fault ≡ false)) }
{
    let c = chars[at];
    if !is_at(chars, at + 1, c) {
        return None;
    }
    match c {
        '&' => Some(SyntaxFault::ClassIntersectionUnsupported),
        '-' => Some(SyntaxFault::ClassDifferenceUnsupported),
        '~' => Some(SyntaxFault::ClassSymmetricDifferenceUnsupported),
        _ => None,
    }
}

/// Reads one character or one escape, and returns the index after it. If the pattern ends inside an
/// escape, more of it completes the element only if that can be a character from `least` on.
fn read_element(
    chars: &[char],
    at: usize,
    verbose: bool,
    least: char,
) -> Result<(usize, Primitive), SyntaxFault>
    requires inside { at < length chars.now }
    requires past_gap { EndsGap verbose (drop at chars.now) }
    ensures inside { IfOk result (λ r. (at < r.0) × (r.0 ≤ length chars.now)) }
    ensures ok { IfOk result (λ r.
        ClassElement verbose (drop at chars.now) (drop r.0 chars.now) (primitive_of r.1)) }
    ensures refused { IfErr result (λ fault. NoReading fault
        (λ t. (rest : Text) × (p : Given) × ClassElement verbose t rest p × IsElement p
        × ReachesTo least p) (drop at chars.now)) }
    ensures completes { IfErr result (λ fault. CanComplete fault
        (λ t rest. (c : ℕ) × ClassElement verbose t rest (one c) × (least ≤ c))
        (drop at chars.now)) }
    ensures escaped { IfErr result (λ _. Begins (the "\\") (drop at chars.now)) }
{
    let c = chars[at];
    if c != '\\' {
        return Ok((at + 1, Primitive::Char(c)));
    }
    if !is_at(chars, at + 1, 'b') {
        return read_escape(chars, at + 1, verbose, least);
    }
    // What begins with `\b` is a look and not an element, so nothing completes it.
    read_escape(chars, at + 1, verbose, least).map_err(SyntaxFault::for_good)
}

/// The element of an item that isn't a range: anything but a look.
fn element_of(primitive: Primitive) -> Option<Element>
    ensures { MatchOption result (¬ IsElement (primitive_of primitive))
        (λ element. element_primitive element ≡ primitive_of primitive) }
{
    match primitive {
        Primitive::Char(c) => Some(Element::Char(c)),
        Primitive::Set { set, negated } => Some(Element::Set { set, negated }),
        Primitive::Look(_) => None,
    }
}

/// The index of a range's end, if a dash makes the element before the index the start of a range.
fn find_range_end(chars: &[char], at: usize, verbose: bool) -> Result<Option<usize>, SyntaxFault>
    requires { at ≤ length chars.now }
    ensures inside { IfOk result (λ found. IfSome found (λ last.
        (at < last) × (last < length chars.now) × EndsGap verbose (drop last chars.now))) }
    ensures ok { IfOk result (λ found. MatchOption found
        ((last : Text) → RangeFollows verbose (drop at chars.now) last → ⊥)
        (λ last. RangeFollows verbose (drop at chars.now) (drop last chars.now))) }
    ensures closed { OnOk result (¬ EndsOpen verbose (drop at chars.now)) }
    ensures refused { IfErr result (λ fault.
        IsTrue (is_cut_short fault) × EndsOpen verbose (drop at chars.now)) }
{
    let dash = skip_gap(chars, at, verbose);
    if dash == chars.len() {
        return Err(SyntaxFault::CutShort(UnexpectedEof::ClassAfterItem));
    }
    if !is_at(chars, dash, '-') {
        return Ok(None);
    }
    let last = skip_gap(chars, dash + 1, verbose);
    if last == chars.len() {
        return Err(SyntaxFault::CutShort(UnexpectedEof::ClassAfterDash));
    }
    match chars[last] {
        ']' | '-' => Ok(None),
        _ => Ok(Some(last)),
    }
}

/// Reads the end of a range that starts with this primitive, and returns the index after it.
fn read_range(
    chars: &[char],
    first: Primitive,
    last: usize,
    verbose: bool,
) -> Result<(usize, Item), SyntaxFault>
    requires inside { last < length chars.now }
    requires past_gap { EndsGap verbose (drop last chars.now) }
    ensures inside { IfOk result (λ r. (last < r.0) × (r.0 ≤ length chars.now)) }
    ensures ok { IfOk result (λ r. RangeTo verbose (primitive_of first)
        (drop last chars.now) (drop r.0 chars.now) (item_set r.1)) }
    ensures refused { IfErr result (λ fault. NoReading fault
        (λ t. (rest : Text) × (s : Set) × RangeTo verbose (primitive_of first) t rest s)
        (drop last chars.now)) }
    ensures completes { IfErr result (λ fault. CanComplete fault
        (λ t rest. (s : Set) × RangeTo verbose (primitive_of first) t rest s)
        (drop last chars.now)) }
{
    let Primitive::Char(start) = first else {
        return Err(fault_of_range(chars, last, verbose));
    };
    let (past, element) = read_element(chars, last, verbose, start)?;
    let Primitive::Char(end) = element else {
        return Err(SyntaxFault::ClassInvalidRangeItem);
    };
    if start > end {
        return Err(SyntaxFault::ClassInvalidRange);
    }
    Ok((past, Item::Range { start, end }))
}

/// The fault of a range that doesn't start with a character: nothing could complete it.
fn fault_of_range(chars: &[char], last: usize, verbose: bool) -> SyntaxFault
    requires inside { last < length chars.now }
    requires past_gap { EndsGap verbose (drop last chars.now) }
    ensures { is_cut_short result ≡ false }
{
    match read_element(chars, last, verbose, '\0') {
        Err(fault) => fault.for_good(),
        Ok(_) => SyntaxFault::ClassInvalidRangeItem,
    }
}
