//! Items that aren't groups.
ghost use Rattle.std.specs.Prelude.{◌≡◌, ◌<◌, ◌≤◌, drop, length, IsTrue, IfOk, IfErr};
ghost use Rattle.regex_lite_syntax.specs.Text.{Text};
ghost use Rattle.regex_lite_syntax.specs.Characters.{is_letter, AreCharacters};
ghost use Rattle.regex_lite_syntax.specs.Sets.{just, case_closure};
ghost use Rattle.regex_lite_syntax.specs.Grammar.Gaps.{EndsGap};
ghost use Rattle.regex_lite_syntax.specs.Ranges.{AreRunsOf};
ghost use Rattle.regex_lite_syntax.specs.Grammar.Escapes.{one};
ghost use Rattle.regex_lite_syntax.specs.Tree.{Tree};
ghost use Rattle.regex_lite_syntax.specs.Grammar.Atoms.{dot, anchor, PrimitiveTree, Atom};
ghost use Rattle.regex_lite_syntax.specs.Parser.Machine.{BeginsAtom};
ghost use Rattle.regex_lite_syntax.specs.Refusals.{Denies, Completable, IfCutShort};
ghost use Rattle.regex_lite_syntax.specs.Parser.Readings.{primitive_of};
ghost use Rattle.regex_lite_syntax.specs.Tree.Views.{tree_of};

use crate::class::named::KnownSet;
use crate::class::{Class, ClassRange};
use crate::error::Error;
use crate::flags::Flags;
use crate::hir::Hir;
use crate::hir::look::Look;
use crate::parse::bracket::read_class;
use crate::parse::escape::{Primitive, read_escape};
use std::alloc::{AllocError, Global};

/// Reads the item at the index, which isn't a group, and returns the index after it.
pub(crate) fn read_atom(
    alloc: Global,
    chars: &[char],
    at: usize,
    flags: Flags,
) -> Result<(usize, Hir), Error>
    requires inside { at < length chars.now }
    requires past_gap { EndsGap flags.ignore_whitespace (drop at chars.now) }
    requires begins { BeginsAtom (drop at chars.now) }
    requires characters { AreCharacters chars.now }
    ensures inside { IfOk result (λ r. (at < r.0) × (r.0 ≤ length chars.now)) }
    ensures ok { IfOk result (λ r.
        Atom flags (drop at chars.now) (drop r.0 chars.now) (tree_of r.1)) }
    ensures refused { IfErr result (λ error. Denies error
        (λ t. (rest : Text) × (a : Tree) × Atom flags t rest a) (drop at chars.now)) }
    ensures completes { IfErr result (λ error. IfCutShort error (Completable
        (λ t rest. (a : Tree) × Atom flags t rest a) (drop at chars.now))) }
{
    let verbose = flags.ignore_whitespace;
    match chars[at] {
        '.' => Ok((at + 1, Hir::class(alloc, dot_class(flags))?)),
        '^' => {
            let look = anchor_look(flags, Look::Start, Look::StartLF, Look::StartCRLF);
            Ok((at + 1, Hir::Look(look)))
        }
        '$' => {
            let look = anchor_look(flags, Look::End, Look::EndLF, Look::EndCRLF);
            Ok((at + 1, Hir::Look(look)))
        }
        '\\' => {
            let (end, primitive) = read_escape(chars, at + 1, verbose, '\0')?;
            Ok((end, piece_tree(alloc, flags, primitive)?))
        }
        '[' => {
            let (end, class) = read_class(alloc, chars, at, flags.case_insensitive, verbose)?;
            Ok((end, Hir::class(alloc, class)?))
        }
        c => Ok((at + 1, char_tree(alloc, flags, c)?)),
    }
}

/// The set of `.`.
fn dot_class(flags: Flags) -> Class
    ensures { AreRunsOf result (dot flags) }
{
    Class::of_known(KnownSet::Dot {
        new_lines: flags.dot_matches_new_line,
        crlf: flags.crlf,
    })
}

/// The range of one character.
fn only(c: char) -> ClassRange
    ensures { result ≡ record { start = c; end = c } }
{
    ClassRange { start: c, end: c }
}

/// The look of `^` or `$`: at the start or end of the haystack, or under `m` at that of a line of
/// either kind.
fn anchor_look(flags: Flags, whole: Look, line: Look, crlf_line: Look) -> Look
    ensures { result ≡ anchor flags whole line crlf_line }
{
    if !flags.multi_line {
        whole
    } else if flags.crlf {
        crlf_line
    } else {
        line
    }
}

/// The tree of a character: under `i` an ASCII letter matches in both cases.
fn char_tree(alloc: Global, flags: Flags, c: char) -> Result<Hir, AllocError>
    ensures { IfOk result (λ hir. PrimitiveTree flags (one c) (tree_of hir)) }
{
    if !flags.case_insensitive || !c.is_ascii_alphabetic() {
        return Ok(Hir::Char(c));
    }
    let class = both_cases(alloc, c)?;
    Hir::class(alloc, class)
}

/// An ASCII letter in both its cases.
fn both_cases(alloc: Global, letter: char) -> Result<Class, AllocError>
    requires { IsTrue (is_letter letter) }
    ensures { IfOk result (λ class. AreRunsOf class (case_closure (just letter))) }
{
    let upper = only(letter.to_ascii_uppercase());
    let lower = only(letter.to_ascii_lowercase());
    let ranges = vec![in alloc; upper, lower]?;
    Ok(Class::of_runs(ranges))
}

/// The tree of what an escape stands for.
fn piece_tree(alloc: Global, flags: Flags, primitive: Primitive) -> Result<Hir, AllocError>
    ensures { IfOk result (λ hir. PrimitiveTree flags (primitive_of primitive) (tree_of hir)) }
{
    match primitive {
        Primitive::Char(c) => char_tree(alloc, flags, c),
        Primitive::Set { set, negated } => Hir::class(alloc, Class::named(alloc, set, negated)?),
        Primitive::Look(look) => Ok(Hir::Look(look)),
    }
}
