//! Names of capturing groups.
ghost use Rattle.std.specs.Prelude.{◌≡◌, ◌<◌, ◌≤◌, ◌-◌, ◌++◌, ◌∷◌, [], List, drop, length};
ghost use Rattle.std.specs.Prelude.{slice_range, false, IfOk, IfSome, IfNone, IfErr};
ghost use Rattle.regex_lite_syntax.specs.Text.{Text};
ghost use Rattle.regex_lite_syntax.specs.CutShort.{is_cut_short};
ghost use Rattle.regex_lite_syntax.specs.Grammar.GroupNames.{begins_name, continues_name};
ghost use Rattle.regex_lite_syntax.specs.Grammar.GroupNames.{NameWritten, NameOpening, NamesDiffer};
ghost use Rattle.regex_lite_syntax.specs.Tree.Views.{text_of_name};
ghost use Rattle.regex_lite_syntax.specs.Parser.NameOpenings.{Unnamed};
ghost use Rattle.regex_lite_syntax.specs.Refusals.{NoReading, CanComplete};

mod numeric;

use crate::error::{SyntaxFault, UnexpectedEof};
use crate::parse::read::{char_at, is_at};
use numeric::is_numeric;
use std::alloc::{AllocError, Global};
use std::rc::RcStr;
use unicode::properties::is_alphabetic;

/// The start of a name: the index after `?P<` or `?<`, if one of them is at the index.
pub(crate) fn skip_name_opening(chars: &[char], at: usize) -> Option<usize>
    requires { at ≤ length chars.now }
    ensures inside { IfSome result (λ start. (at < start) × (start ≤ length chars.now)) }
    ensures there { IfSome result (λ start.
        NameOpening (drop at chars.now) (drop start chars.now)) }
    ensures absent { IfNone result (Unnamed (drop at chars.now)) }
{
    if !is_at(chars, at, '?') {
        return None;
    }
    if is_at(chars, at + 1, '<') {
        return Some(at + 2);
    }
    if is_at(chars, at + 1, 'P') && is_at(chars, at + 2, '<') {
        return Some(at + 3);
    }
    None
}

/// Reads a name from after the `<` on, and returns the index after the `>` that ends it.
pub(crate) fn read_name(chars: &[char], at: usize) -> Result<usize, SyntaxFault>
    requires { at ≤ length chars.now }
    ensures inside { IfOk result (λ end. (at < end) × (end ≤ length chars.now)) }
    ensures ok { IfOk result (λ end. NameWritten (drop at chars.now) (drop end chars.now)
        (slice_range chars.now at (end - 1))) }
    ensures refused { IfErr result (λ fault. NoReading fault
        (λ t. (rest : Text) × (name : Text) × NameWritten t rest name) (drop at chars.now)) }
    // Whatever names came before, more of the pattern can make this a new name.
    ensures completes { IfErr result (λ fault. (names : List Text) → CanComplete fault
        (λ t rest. (name : Text) × NameWritten t rest name
        × (NamesDiffer names → NamesDiffer (names ++ name ∷ []))) (drop at chars.now)) }
{
    match char_at(chars, at) {
        None => return Err(SyntaxFault::CutShort(UnexpectedEof::GroupName)),
        Some('>') => return Err(SyntaxFault::EmptyGroupName),
        Some(c) if !may_begin_name(c) => return Err(fault_of_start(chars, at)),
        Some(_) => {}
    }
    let mut end = at + 1;
    while let Some(c) = char_at(chars, end) {
        if c == '>' {
            return Ok(end + 1);
        }
        if !may_continue_name(c) {
            return Err(SyntaxFault::InvalidGroupName);
        }
        end += 1;
    }
    Err(SyntaxFault::CutShort(UnexpectedEof::GroupNameEnd))
}

/// The fault of a missing name at the index: `(?<=` and `(?<!` open a look-around, but nothing
/// after `(?P<` does.
fn fault_of_start(chars: &[char], at: usize) -> SyntaxFault
    requires { at ≤ length chars.now }
    ensures { is_cut_short result ≡ false }
{
    let may_be_look = at >= 2 && chars[at - 2] == '?';
    if may_be_look && (is_at(chars, at, '=') || is_at(chars, at, '!')) {
        SyntaxFault::LookUnsupported
    } else {
        SyntaxFault::InvalidGroupName
    }
}

/// Whether the character may begin a name.
fn may_begin_name(c: char) -> bool
    ensures { result ≡ begins_name c }
{
    c == '_' || is_alphabetic(c)
}

/// Whether the character may continue a name.
fn may_continue_name(c: char) -> bool
    ensures { result ≡ continues_name c }
{
    matches!(c, '_' | '.' | '[' | ']') || is_alphabetic(c) || is_numeric(c)
}

/// The name of these characters.
pub(crate) fn name_of(alloc: Global, letters: &[char]) -> Result<RcStr, AllocError>
    ensures { IfOk result (λ name. text_of_name name ≡ letters.now) }
{
    let text: String = letters.iter().copied().collect(alloc)?;
    RcStr::from_string(text)
}
