//! Escapes: a backslash and what follows it.
ghost use Rattle.std.specs.Prelude.{◌≡◌, ◌<◌, ◌≤◌, ℕ, false, drop, length, IfOk, IfErr};
ghost use Rattle.std.specs.Prelude.{if◌then◌else◌};
ghost use Rattle.regex_lite_syntax.specs.Text.{Text, Begins, the};
ghost use Rattle.regex_lite_syntax.specs.Sets.{complement};
ghost use Rattle.regex_lite_syntax.specs.NamedSets.{members};
ghost use Rattle.regex_lite_syntax.specs.Parser.SetNames.{name_of};
ghost use Rattle.regex_lite_syntax.specs.Grammar.Escapes.{Primitive as Given, Escape};
ghost use Rattle.regex_lite_syntax.specs.Grammar.Escapes.{one, some_of, gives, refused};
ghost use Rattle.regex_lite_syntax.specs.Grammar.Escapes.{escape_kind, is_escapable};
ghost use Rattle.regex_lite_syntax.specs.Parser.Readings.{primitive_of, escape_kind_of, ReachesTo};
ghost use Rattle.regex_lite_syntax.specs.CutShort.{is_cut_short};
ghost use Rattle.regex_lite_syntax.specs.Refusals.{NoReading, CanComplete};

mod boundary;
mod hexadecimal;

use crate::class::named::NamedSet;
use crate::error::{SyntaxFault, UnexpectedEof};
use crate::hir::look::Look;
use crate::parse::read::char_at;
use boundary::read_word_boundary;
use hexadecimal::read_hexadecimal;

/// What an escape stands for.
#[derive(Clone, Copy, PartialEq, Eq, Debug)]
pub(crate) enum Primitive {
    /// This character.
    Char(char),
    /// The set with this name, or its complement.
    Set { set: NamedSet, negated: bool },
    Look(Look),
}

/// The meaning of the character after a backslash.
#[derive(Clone, Copy)]
enum Meaning {
    /// It stands for this, and no more is read.
    Gives(Primitive),
    /// A word boundary, perhaps with a name in braces.
    WordBoundary,
    /// This number of hexadecimal digits, or any number of them in braces.
    Hexadecimal(u32),
    Refused,
}

/// Reads an escape from after its backslash on, and returns the index after it. If the pattern ends
/// inside the number of a character, more of it completes the escape only if that can be a
/// character from `least` on.
pub(crate) fn read_escape(
    chars: &[char],
    at: usize,
    verbose: bool,
    least: char,
) -> Result<(usize, Primitive), SyntaxFault>
    requires { at ≤ length chars.now }
    ensures inside { IfOk result (λ r. (at < r.0) × (r.0 ≤ length chars.now)) }
    ensures ok { IfOk result (λ r.
        Escape verbose (drop at chars.now) (drop r.0 chars.now) (primitive_of r.1)) }
    ensures refused { IfErr result (λ fault. NoReading fault
        (λ t. (rest : Text) × (p : Given) × Escape verbose t rest p × ReachesTo least p)
        (drop at chars.now)) }
    ensures completes { IfErr result (λ fault. CanComplete fault
        (λ t rest. (p : Given) × Escape verbose t rest p) (drop at chars.now)) }
    ensures reaches { IfErr result (λ fault. (Begins (the "b") (drop at chars.now) → ⊥)
        → CanComplete fault (λ t rest. (c : ℕ) × Escape verbose t rest (one c) × (least ≤ c))
        (drop at chars.now)) }
{
    let Some(c) = char_at(chars, at) else {
        return Err(SyntaxFault::CutShort(UnexpectedEof::Escape));
    };
    match meaning_of(c) {
        Meaning::Gives(primitive) => Ok((at + 1, primitive)),
        Meaning::WordBoundary => {
            let (end, look) = read_word_boundary(chars, at + 1, verbose)?;
            Ok((end, Primitive::Look(look)))
        }
        Meaning::Hexadecimal(digits) => {
            let (end, scalar) = read_hexadecimal(chars, at + 1, verbose, digits, least)?;
            Ok((end, Primitive::Char(scalar)))
        }
        Meaning::Refused => Err(refusal_of(c)),
    }
}

/// The meaning of the character after a backslash.
fn meaning_of(c: char) -> Meaning
    ensures { escape_kind_of result ≡ escape_kind c }
{
    match c {
        'a' => Meaning::Gives(Primitive::Char('\u{07}')),
        'f' => Meaning::Gives(Primitive::Char('\u{0C}')),
        't' => Meaning::Gives(Primitive::Char('\t')),
        'n' => Meaning::Gives(Primitive::Char('\n')),
        'r' => Meaning::Gives(Primitive::Char('\r')),
        'v' => Meaning::Gives(Primitive::Char('\u{0B}')),
        'A' => Meaning::Gives(Primitive::Look(Look::Start)),
        'z' => Meaning::Gives(Primitive::Look(Look::End)),
        'B' => Meaning::Gives(Primitive::Look(Look::WordNegate)),
        '<' => Meaning::Gives(Primitive::Look(Look::WordStart)),
        '>' => Meaning::Gives(Primitive::Look(Look::WordEnd)),
        'b' => Meaning::WordBoundary,
        'd' => members_of(NamedSet::Digit),
        's' => members_of(NamedSet::Space),
        'w' => members_of(NamedSet::Word),
        'D' => others_than(NamedSet::Digit),
        'S' => others_than(NamedSet::Space),
        'W' => others_than(NamedSet::Word),
        'x' => Meaning::Hexadecimal(2),
        'u' => Meaning::Hexadecimal(4),
        'U' => Meaning::Hexadecimal(8),
        _ => other_meaning(c),
    }
}

/// The meaning of an escape for a set.
fn members_of(set: NamedSet) -> Meaning
    ensures { escape_kind_of result ≡ gives (some_of (members (name_of set))) }
{
    Meaning::Gives(Primitive::Set {
        set,
        negated: false,
    })
}

/// The meaning of an escape for the complement of a set.
fn others_than(set: NamedSet) -> Meaning
    ensures { escape_kind_of result ≡ gives (some_of (complement (members (name_of set)))) }
{
    Meaning::Gives(Primitive::Set { set, negated: true })
}

/// The meaning of a character that has no special meaning after a backslash.
fn other_meaning(c: char) -> Meaning
    ensures { escape_kind_of result ≡ (if is_escapable c then gives (one c) else refused) }
{
    if c.is_ascii() && !c.is_ascii_alphanumeric() && c != '<' && c != '>' {
        Meaning::Gives(Primitive::Char(c))
    } else {
        Meaning::Refused
    }
}

/// The fault of a character that isn't allowed after a backslash.
fn refusal_of(c: char) -> SyntaxFault
    ensures { is_cut_short result ≡ false }
{
    match c {
        '0'..='9' => SyntaxFault::BackreferenceUnsupported,
        'p' | 'P' => SyntaxFault::UnicodeClassUnsupported,
        _ => SyntaxFault::EscapeUnrecognized,
    }
}
