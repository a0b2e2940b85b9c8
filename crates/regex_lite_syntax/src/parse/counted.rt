//! Counted operators: repetitions with bounds in braces.
ghost use Rattle.std.specs.Prelude.{◌≡◌, ◌↔◌, ℕ, ◌+◌, ◌-◌, ◌*◌, ◌^◌, ◌<◌, ◌≤◌, [], ◌∷◌, ◌++◌, drop};
ghost use Rattle.std.specs.Prelude.{length, Option, IsTrue, IfOk, IfSome, IfNone, SomeIff, IfErr};
ghost use Rattle.regex_lite_syntax.specs.Text.{Text};
ghost use Rattle.regex_lite_syntax.specs.Characters.{is_digit, digit_value};
ghost use Rattle.regex_lite_syntax.specs.Grammar.Gaps.{Gap};
ghost use Rattle.regex_lite_syntax.specs.Grammar.Counted.{WholeSide, Number};
ghost use Rattle.regex_lite_syntax.specs.Grammar.Counted.{EndsNumber, Limit, Counted};
ghost use Rattle.regex_lite_syntax.specs.Parser.Readings.{IsNotBelow};
ghost use Rattle.regex_lite_syntax.specs.Parser.Numbers.{GrowsTo, Becomes, CanReach};
ghost use Rattle.regex_lite_syntax.specs.Refusals.{NoReading, CanComplete};

use crate::error::{SyntaxFault, UnexpectedEof};
use crate::parse::gap::{is_white_space_char, skip_gap};
use crate::parse::read::char_at;

/// The least number of passes of an operator, and the greatest if there is a limit.
#[derive(Clone, Copy, PartialEq, Eq, Debug)]
pub(crate) struct Times {
    pub(crate) least: u32,
    pub(crate) most: Option<u32>,
}

/// A number that was read, the end of its digits, and the end of what may follow them.
#[derive(Clone, Copy)]
struct Decimal {
    past_digits: usize,
    end: usize,
    value: u32,
}

/// Reads a counted operator from after its opening brace on, and returns the index after it.
pub(crate) fn read_counted(
    chars: &[char],
    at: usize,
    verbose: bool,
) -> Result<(usize, Times), SyntaxFault>
    requires { at ≤ length chars.now }
    ensures inside { IfOk result (λ r. (at < r.0) × (r.0 ≤ length chars.now)) }
    ensures ok { IfOk result (λ r.
        Counted verbose (drop at chars.now) (drop r.0 chars.now) r.1.least r.1.most) }
    ensures refused { IfErr result (λ fault. NoReading fault
        (λ t. (rest : Text) × (least : ℕ) × (most : Option ℕ) × Counted verbose t rest least most)
        (drop at chars.now)) }
    ensures completes { IfErr result (λ fault. CanComplete fault
        (λ t rest. (least : ℕ) × (most : Option ℕ) × Counted verbose t rest least most)
        (drop at chars.now)) }
{
    let first = skip_gap(chars, at, verbose);
    if first == chars.len() {
        return Err(SyntaxFault::CutShort(UnexpectedEof::CountedRepetition));
    }
    let Decimal {
        end: past_min,
        value: least,
        ..
    } = read_number(chars, at, verbose)?;
    match char_at(chars, past_min) {
        None => Err(SyntaxFault::CutShort(UnexpectedEof::CountedRepetitionMin)),
        Some('}') => {
            let most = Some(least);
            Ok((past_min + 1, Times { least, most }))
        }
        Some(',') => {
            let (end, most) = read_limit(chars, past_min + 1, verbose, least)?;
            Ok((end, Times { least, most }))
        }
        Some(_) => Err(SyntaxFault::CountedRepetitionInvalid),
    }
}

/// Reads the limit, if there is one, from after the comma on, and the closing brace. A limit below
/// the least number is an error.
fn read_limit(
    chars: &[char],
    at: usize,
    verbose: bool,
    least: u32,
) -> Result<(usize, Option<u32>), SyntaxFault>
    requires { at ≤ length chars.now }
    ensures inside { IfOk result (λ r. (at < r.0) × (r.0 ≤ length chars.now)) }
    ensures ok { IfOk result (λ r.
        Limit verbose (drop at chars.now) (drop r.0 chars.now) r.1 × IsNotBelow least r.1) }
    ensures refused { IfErr result (λ fault. NoReading fault
        (λ t. (rest : Text) × (most : Option ℕ) × Limit verbose t rest most × IsNotBelow least most)
        (drop at chars.now)) }
    ensures completes { IfErr result (λ fault. CanComplete fault
        (λ t rest. (most : Option ℕ) × Limit verbose t rest most × IsNotBelow least most)
        (drop at chars.now)) }
{
    let first = skip_gap(chars, at, verbose);
    match char_at(chars, first) {
        None => return Err(SyntaxFault::CutShort(UnexpectedEof::CountedRepetitionComma)),
        Some('}') => return Ok((first + 1, None)),
        Some(_) => {}
    }
    let Decimal {
        past_digits,
        end,
        value: most,
    } = read_number(chars, at, verbose)?;
    match char_at(chars, end) {
        None => {
            let reaches = can_become(chars, past_digits, verbose, most, least);
            Err(SyntaxFault::at_end(UnexpectedEof::CountedRepetitionMinMax, reaches))
        }
        Some('}') if most < least => Err(SyntaxFault::CountedRepetitionInvalidRange),
        Some('}') => Ok((end + 1, Some(most))),
        Some(_) => Err(SyntaxFault::CountedRepetitionInvalid),
    }
}

/// Whether a number with which the pattern ends, whose digits end at this index, is at least the
/// least number, or can become so with more digits, if digits can follow.
fn can_become(chars: &[char], past_digits: usize, verbose: bool, number: u32, least: u32) -> bool
    requires { past_digits ≤ length chars.now }
    ensures { IsTrue result ↔
        CanReach least (Becomes verbose (drop past_digits chars.now) number) }
{
    if skip_gap(chars, past_digits, verbose) == chars.len() {
        can_grow(number, least)
    } else {
        number >= least
    }
}

/// Whether the number is at least the least number, or can become so with more digits.
fn can_grow(number: u32, least: u32) -> bool
    ensures { IsTrue result ↔ CanReach least (GrowsTo number) }
{
    // With some number of further digits, the number is between `low` and `high`.
    let mut low = u64::from(number);
    let mut high = low;
    while high < u64::from(least) {
        low *= 10;
        high = high * 10 + 9;
    }
    low <= u64::from(u32::MAX)
}

/// Reads a number with the white space around it.
fn read_number(chars: &[char], at: usize, verbose: bool) -> Result<Decimal, SyntaxFault>
    requires { at ≤ length chars.now }
    ensures inside { IfOk result (λ r.
        (at < r.end) × (r.past_digits ≤ r.end) × (r.end ≤ length chars.now)) }
    ensures ok { IfOk result (λ r.
        (number : Number verbose (drop at chars.now) (drop r.end chars.now) r.value)
        × (number.last ≡ drop r.past_digits chars.now)) }
    // There is no other number there that extends to a comma or a brace, nor in a longer text, if
    // anything is left after the number.
    ensures only { IfOk result (λ r.
        (more rest : Text) (n : ℕ) → (drop r.end chars.now ≡ [] → more ≡ [])
        → Number verbose (drop at chars.now ++ more) rest n → EndsNumber rest
        → (rest ≡ drop r.end chars.now ++ more) × (n ≡ r.value)) }
    ensures refused { IfErr result (λ fault. NoReading fault
        (λ t. (rest : Text) × (n : ℕ) × Number verbose t rest n × EndsNumber rest)
        (drop at chars.now)) }
    // If no number has begun, the greatest number can follow.
    ensures completes { IfErr result (λ fault. CanComplete fault
        (λ t rest. Number verbose t rest (2 ^ 32 - 1)) (drop at chars.now)) }
{
    let first = skip_side(chars, at, verbose);
    if first == chars.len() {
        return Err(SyntaxFault::CutShort(UnexpectedEof::Decimal));
    }
    let mut end = first;
    let mut number = 0;
    while let Some((next, digit)) = next_digit(chars, end, verbose) {
        let Some(longer) = with_digit(number, digit) else {
            return Err(SyntaxFault::DecimalInvalid);
        };
        number = longer;
        end = next;
    }
    if end == first {
        return Err(SyntaxFault::DecimalNoDigits);
    }
    Ok(Decimal {
        past_digits: end,
        end: skip_side(chars, end, verbose),
        value: number,
    })
}

/// The end of the white space next to a number.
fn skip_side(chars: &[char], at: usize, verbose: bool) -> usize
    requires { at ≤ length chars.now }
    ensures inside { (at ≤ result) × (result ≤ length chars.now) }
    ensures side { WholeSide verbose (drop at chars.now) (drop result chars.now) }
{
    if verbose {
        return skip_gap(chars, at, verbose);
    }
    let mut end = at;
    while end < chars.len() && is_white_space_char(chars[end]) {
        end += 1;
    }
    end
}

/// The value of the digit after the gap at the index, and the index after it.
fn next_digit(chars: &[char], at: usize, verbose: bool) -> Option<(usize, u32)>
    requires { at ≤ length chars.now }
    ensures inside { IfSome result (λ r. (at < r.0) × (r.0 ≤ length chars.now)) }
    ensures some { IfSome result (λ r.
        (c : ℕ) × Gap verbose (drop at chars.now) (c ∷ drop r.0 chars.now)
        × IsTrue (is_digit c) × (r.1 ≡ digit_value c)) }
    ensures none { IfNone result ((c : ℕ) (rest : Text) →
        Gap verbose (drop at chars.now) (c ∷ rest) → IsTrue (is_digit c) → ⊥) }
{
    let here = skip_gap(chars, at, verbose);
    let digit = char_at(chars, here)?.to_digit(10)?;
    Some((here + 1, digit))
}

/// The number with a digit appended, if it is below 2^32.
fn with_digit(number: u32, digit: u32) -> Option<u32>
    ensures { SomeIff result (number * 10 + digit < 2 ^ 32) (number * 10 + digit) }
{
    number.checked_mul(10)?.checked_add(digit)
}
