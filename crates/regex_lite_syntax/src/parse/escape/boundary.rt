//! Word boundaries: `\b`, and its forms with a name in braces.
ghost use Rattle.std.specs.Prelude.{◌≡◌, ◌≤◌, false, Some, ◌∷◌, ◌++◌, drop, length, IsTrue};
ghost use Rattle.std.specs.Prelude.{IfOk, IfSome, IfNone, IfErr};
ghost use Rattle.std.specs.List.{list_all};
ghost use Rattle.regex_lite_syntax.specs.declared.hir.look.Look.{Look};
ghost use Rattle.regex_lite_syntax.specs.Text.{Text, the};
ghost use Rattle.regex_lite_syntax.specs.Grammar.Gaps.{Gap, Spaced};
ghost use Rattle.regex_lite_syntax.specs.Grammar.Escapes.{is_boundary_character, boundary_named};
ghost use Rattle.regex_lite_syntax.specs.Grammar.Escapes.{BoundaryName, WordBoundary};
ghost use Rattle.regex_lite_syntax.specs.Parser.BoundaryNames.{EndsInName};
ghost use Rattle.regex_lite_syntax.specs.Refusals.{MayFollow, NoReading, Completable, CanComplete};

use crate::error::{SyntaxFault, UnexpectedEof};
use crate::hir::look::Look;
use crate::parse::gap::skip_gap;
use crate::parse::read::{char_at, is_at};

/// Reads the look of `\b`, from after the `b` on. A brace may also begin a counted operator, which
/// isn't part of the escape.
pub(super) fn read_word_boundary(
    chars: &[char],
    at: usize,
    verbose: bool,
) -> Result<(usize, Look), SyntaxFault>
    requires { at ≤ length chars.now }
    ensures inside { IfOk result (λ r. (at ≤ r.0) × (r.0 ≤ length chars.now)) }
    ensures ok { IfOk result (λ r.
        WordBoundary verbose (drop at chars.now) (drop r.0 chars.now) r.1) }
    ensures refused { IfErr result (λ fault. NoReading fault
        (λ t. (rest : Text) × (look : Look) × WordBoundary verbose t rest look)
        (drop at chars.now)) }
    ensures completes { IfErr result (λ fault. CanComplete fault
        (λ t rest. (look : Look) × WordBoundary verbose t rest look) (drop at chars.now)) }
{
    if !is_at(chars, at, '{') {
        return Ok((at, Look::Word));
    }
    let first = skip_gap(chars, at + 1, verbose);
    match char_at(chars, first) {
        None => Err(SyntaxFault::CutShort(UnexpectedEof::SpecialWordOrRepetition)),
        Some(c) if is_name_char(c) => read_name(chars, at + 1, verbose),
        Some(_) => Ok((at, Look::Word)),
    }
}

/// Reads a name from after the opening brace on, and the closing brace.
fn read_name(chars: &[char], at: usize, verbose: bool) -> Result<(usize, Look), SyntaxFault>
    requires { at ≤ length chars.now }
    ensures inside { IfOk result (λ r. (at ≤ r.0) × (r.0 ≤ length chars.now)) }
    ensures ok { IfOk result (λ r.
        BoundaryName verbose (drop at chars.now) (drop r.0 chars.now) r.1) }
    ensures refused { IfErr result (λ fault. NoReading fault
        (λ t. (rest : Text) × (look : Look) × BoundaryName verbose t rest look)
        (drop at chars.now)) }
    ensures completes { IfErr result (λ fault. CanComplete fault
        (λ t rest. (look : Look) × BoundaryName verbose t rest look) (drop at chars.now)) }
{
    if let Some(end) = skip_name(chars, at, verbose, "start") {
        return Ok((end, Look::WordStart));
    }
    if let Some(end) = skip_name(chars, at, verbose, "end") {
        return Ok((end, Look::WordEnd));
    }
    if let Some(end) = skip_name(chars, at, verbose, "start-half") {
        return Ok((end, Look::WordStartHalf));
    }
    if let Some(end) = skip_name(chars, at, verbose, "end-half") {
        return Ok((end, Look::WordEndHalf));
    }
    Err(fault_of_name(chars, at, verbose))
}

/// The index after this name and its closing brace, if both are there.
fn skip_name(chars: &[char], at: usize, verbose: bool, name: &str) -> Option<usize>
    requires inside { at ≤ length chars.now }
    requires letters { IsTrue (list_all is_boundary_character name.now) }
    ensures inside { IfSome result (λ end. (at ≤ end) × (end ≤ length chars.now)) }
    ensures there { IfSome result (λ end. (last : Text)
        × Spaced verbose is_boundary_character name.now (drop at chars.now) last
        × Gap verbose last (the "}" ∷ drop end chars.now)) }
    ensures absent { IfNone result ((last rest : Text)
        → Spaced verbose is_boundary_character name.now (drop at chars.now) last
        → Gap verbose last (the "}" ∷ rest) → ⊥) }
{
    let mut end = at;
    for letter in name.as_bytes() {
        let next = skip_gap(chars, end, verbose);
        if !is_at(chars, next, char::from(*letter)) {
            return None;
        }
        end = next + 1;
    }
    let close = skip_gap(chars, end, verbose);
    if is_at(chars, close, '}') {
        Some(close + 1)
    } else {
        None
    }
}

/// The fault of a missing name: its letters extend to the end of the pattern, it isn't closed, or
/// it isn't one of the names.
fn fault_of_name(chars: &[char], at: usize, verbose: bool) -> SyntaxFault
    requires { at ≤ length chars.now }
    ensures completes { CanComplete result
        (λ t rest. (look : Look) × BoundaryName verbose t rest look) (drop at chars.now) }
    ensures stands { (more rest : Text) (look : Look) → MayFollow result more
        → BoundaryName verbose (drop at chars.now ++ more) rest look
        → (past : Text) × BoundaryName verbose (drop at chars.now) past look }
{
    let mut end = at;
    loop {
        let next = skip_gap(chars, end, verbose);
        let Some(c) = char_at(chars, next) else {
            let goes_on = ends_in_any_name(chars, at, verbose);
            return SyntaxFault::at_end(UnexpectedEof::SpecialWordBoundary, goes_on);
        };
        if c == '}' {
            return SyntaxFault::SpecialWordBoundaryUnrecognized;
        }
        if !is_name_char(c) {
            return SyntaxFault::SpecialWordBoundaryUnclosed;
        }
        end = next + 1;
    }
}

/// Whether the pattern ends inside one of the names.
fn ends_in_any_name(chars: &[char], at: usize, verbose: bool) -> bool
    requires { at ≤ length chars.now }
    ensures completes { IsTrue result → Completable
        (λ t rest. (look : Look) × BoundaryName verbose t rest look) (drop at chars.now) }
    ensures absent { result ≡ false → (name : Text) (look : Look)
        → boundary_named name ≡ Some look → EndsInName verbose name (drop at chars.now) → ⊥ }
{
    // these two begin with the other two
    ends_in_name(chars, at, verbose, "start-half") || ends_in_name(chars, at, verbose, "end-half")
}

/// Whether the pattern ends inside this name, or before the brace that would close it.
fn ends_in_name(chars: &[char], at: usize, verbose: bool, name: &str) -> bool
    requires inside { at ≤ length chars.now }
    requires letters { IsTrue (list_all is_boundary_character name.now) }
    ensures there { IsTrue result → EndsInName verbose name.now (drop at chars.now) }
    ensures absent { result ≡ false → EndsInName verbose name.now (drop at chars.now) → ⊥ }
{
    let mut end = at;
    for letter in name.as_bytes() {
        let next = skip_gap(chars, end, verbose);
        if !is_at(chars, next, char::from(*letter)) {
            return next == chars.len();
        }
        end = next + 1;
    }
    skip_gap(chars, end, verbose) == chars.len()
}

/// Whether the character may occur in a name.
fn is_name_char(c: char) -> bool
    ensures { result ≡ is_boundary_character c }
{
    c.is_ascii_alphabetic() || c == '-'
}
