//! Characters by their numbers: a fixed number of hexadecimal digits, or any number of them in
//! braces.
ghost use Rattle.std.specs.Prelude.{◌≡◌, ℕ, ◌+◌, ◌<◌, ◌≤◌, drop, length, IsTrue};
ghost use Rattle.std.specs.Prelude.{false, MatchOption, IfOk, IfErr};
ghost use Rattle.regex_lite_syntax.specs.Text.{Text};
ghost use Rattle.regex_lite_syntax.specs.Characters.{is_character, is_hex_digit};
ghost use Rattle.regex_lite_syntax.specs.Characters.{digit_value as value_of_digit};
ghost use Rattle.regex_lite_syntax.specs.Grammar.Escapes.{FixedDigits, BracedDigits, Hexadecimal};
ghost use Rattle.regex_lite_syntax.specs.Parser.FurtherDigits.{ReachesNumber};
ghost use Rattle.regex_lite_syntax.specs.Refusals.{NoReading, CanComplete};

use crate::error::{SyntaxFault, UnexpectedEof};
use crate::parse::gap::skip_gap;
use crate::parse::read::char_at;

/// The number of the last character.
const LAST: u32 = 0x10_FFFF;
/// With this many further digits, every number but 0 is above the last character.
const TOO_MANY: u32 = 6;

/// Reads a character by its number, from after the letter that gives the number of digits.
pub(super) fn read_hexadecimal(
    chars: &[char],
    at: usize,
    verbose: bool,
    digits: u32,
    least: char,
) -> Result<(usize, char), SyntaxFault>
    requires inside { at ≤ length chars.now }
    requires some { 0 < digits }
    ensures inside { IfOk result (λ r. (at ≤ r.0) × (r.0 ≤ length chars.now)) }
    ensures ok { IfOk result (λ r.
        Hexadecimal verbose digits (drop at chars.now) (drop r.0 chars.now) r.1) }
    ensures refused { IfErr result (λ fault. NoReading fault
        (λ t. (rest : Text) × (c : ℕ) × Hexadecimal verbose digits t rest c × (least ≤ c))
        (drop at chars.now)) }
    ensures completes { IfErr result (λ fault. CanComplete fault
        (λ t rest. (c : ℕ) × Hexadecimal verbose digits t rest c × (least ≤ c))
        (drop at chars.now)) }
{
    let first = skip_gap(chars, at, verbose);
    match char_at(chars, first) {
        None => Err(SyntaxFault::CutShort(UnexpectedEof::Hex)),
        Some('{') => read_braced(chars, first + 1, verbose, least),
        Some(_) => read_fixed(chars, at, verbose, digits, least),
    }
}

/// Reads this number of digits.
fn read_fixed(
    chars: &[char],
    at: usize,
    verbose: bool,
    digits: u32,
    least: char,
) -> Result<(usize, char), SyntaxFault>
    requires { at ≤ length chars.now }
    ensures inside { IfOk result (λ r. (at ≤ r.0) × (r.0 ≤ length chars.now)) }
    ensures ok { IfOk result (λ r.
        FixedDigits verbose digits (drop at chars.now) (drop r.0 chars.now) r.1) }
    ensures refused { IfErr result (λ fault. NoReading fault
        (λ t. (rest : Text) × (c : ℕ) × FixedDigits verbose digits t rest c × (least ≤ c))
        (drop at chars.now)) }
    ensures completes { IfErr result (λ fault. CanComplete fault
        (λ t rest. (c : ℕ) × FixedDigits verbose digits t rest c × (least ≤ c))
        (drop at chars.now)) }
{
    let mut end = at;
    let mut number = 0;
    for read in 0..digits {
        let next = skip_gap(chars, end, verbose);
        let Some(c) = char_at(chars, next) else {
            let reaches = can_reach(number, digits - read, least);
            return Err(SyntaxFault::at_end(UnexpectedEof::HexFixed, reaches));
        };
        let Some(digit) = hex_value(c) else {
            return Err(SyntaxFault::HexFixedInvalidDigit);
        };
        number = number * 16 + digit;
        if number > LAST {
            return Err(SyntaxFault::HexFixedInvalid);
        }
        end = next + 1;
    }
    match char::from_u32(number) {
        Some(c) => Ok((end, c)),
        None => Err(SyntaxFault::HexFixedInvalid),
    }
}

/// Reads the digits from after an opening brace on, and the closing brace.
fn read_braced(
    chars: &[char],
    at: usize,
    verbose: bool,
    least: char,
) -> Result<(usize, char), SyntaxFault>
    requires { at ≤ length chars.now }
    ensures inside { IfOk result (λ r. (at ≤ r.0) × (r.0 ≤ length chars.now)) }
    ensures ok { IfOk result (λ r.
        BracedDigits verbose (drop at chars.now) (drop r.0 chars.now) r.1) }
    ensures refused { IfErr result (λ fault. NoReading fault
        (λ t. (rest : Text) × (c : ℕ) × BracedDigits verbose t rest c × (least ≤ c))
        (drop at chars.now)) }
    ensures completes { IfErr result (λ fault. CanComplete fault
        (λ t rest. (c : ℕ) × BracedDigits verbose t rest c × (least ≤ c)) (drop at chars.now)) }
{
    let mut end = at;
    let mut number = 0;
    loop {
        let next = skip_gap(chars, end, verbose);
        let Some(c) = char_at(chars, next) else {
            let reaches = can_reach_at_all(number, least);
            return Err(SyntaxFault::at_end(UnexpectedEof::HexBrace, reaches));
        };
        if c == '}' {
            if end == at {
                return Err(SyntaxFault::HexBraceEmpty);
            }
            return match char::from_u32(number) {
                Some(scalar) => Ok((next + 1, scalar)),
                None => Err(SyntaxFault::HexBraceInvalid),
            };
        }
        let Some(digit) = hex_value(c) else {
            return Err(SyntaxFault::HexBraceInvalidDigit);
        };
        number = number * 16 + digit;
        if number > LAST {
            return Err(SyntaxFault::HexBraceInvalid);
        }
        end = next + 1;
    }
}

/// Whether some digits after the number make it a character from `least` on. After 0 there is at
/// least one digit, after another number there may be none.
fn can_reach_at_all(number: u32, least: char) -> bool
    requires { number ≤ 0x10FFFF }
    ensures reached { IsTrue result → (further : Text) × ReachesNumber number least further
        × (0 < number + length further) }
    ensures absent { result ≡ false → (further : Text) → ReachesNumber number least further → ⊥ }
{
    // `10FFFF` may follow
    if number == 0 {
        return true;
    }
    for digits in 0..TOO_MANY {
        if can_reach(number, digits, least) {
            return true;
        }
    }
    false
}

/// Whether this number of digits after the number make it a character from `least` on.
fn can_reach(number: u32, digits: u32, least: char) -> bool
    requires { number ≤ 0x10FFFF }
    ensures reached { IsTrue result → (further : Text) × ReachesNumber number least further
        × (length further ≡ digits) }
    ensures absent { result ≡ false → (further : Text) → length further ≡ digits
        → ReachesNumber number least further → ⊥ }
{
    // the least and the greatest number that can follow, capped at the last character
    let mut low = number;
    let mut high = number;
    for _ in 0..digits {
        low = (low * 16).min(LAST + 1);
        high = (high * 16 + 15).min(LAST);
    }
    let last = last_char_to(high);
    least <= last && low <= last as u32
}

/// The last character with a number up to this one.
fn last_char_to(number: u32) -> char
    requires { number ≤ 0x10FFFF }
    ensures inside { result ≤ number }
    ensures scalar { IsTrue (is_character result) }
    ensures last { (c : ℕ) → IsTrue (is_character c) → c ≤ number → c ≤ result }
{
    match char::from_u32(number) {
        Some(c) => c,
        // the character before the surrogates
        None => '\u{D7FF}',
    }
}

/// The value of a hexadecimal digit.
fn hex_value(c: char) -> Option<u32>
    ensures { MatchOption result (is_hex_digit c ≡ false)
        (λ v. IsTrue (is_hex_digit c) × (v ≡ value_of_digit c) × (v < 16)) }
{
    match c {
        '0'..='9' => Some(c as u32 - '0' as u32),
        'a'..='f' => Some(c as u32 - 'a' as u32 + 10),
        'A'..='F' => Some(c as u32 - 'A' as u32 + 10),
        _ => None,
    }
}
