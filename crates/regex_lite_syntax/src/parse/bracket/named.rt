//! Named sets in a class, such as `[:alpha:]`.
ghost use Rattle.std.specs.Prelude.{◌≡◌, ◌<◌, ◌≤◌, ◌+◌, ◌-◌, ◌∷◌, ◌++◌, ◌&&◌, ◌==◌};
ghost use Rattle.std.specs.Prelude.{drop, take, Bool, length, IfOk, IfErr, OnOk, find};
ghost use Rattle.std.specs.List.{AllPass, list_any};
ghost use Rattle.regex_lite_syntax.specs.Text.{Begins, is_text, the};
ghost use Rattle.regex_lite_syntax.specs.Characters.{is_lower};
ghost use Rattle.regex_lite_syntax.specs.Parser.ClassReadings.{set_name, is_beginning, Lacks};
ghost use Rattle.regex_lite_syntax.specs.NamedSets.{SetName};
ghost use Rattle.regex_lite_syntax.specs.Grammar.Classes.{NamedClass};
ghost use Rattle.regex_lite_syntax.specs.Parser.ClassReadings.{IsNamedSet, HasNamedSet};
ghost use Rattle.regex_lite_syntax.specs.Refusals.{NoReading, CanComplete};
ghost use Rattle.regex_lite_syntax.specs.CutShort.{is_cut_short};

use crate::class::named::NamedSet;
use crate::error::{SyntaxFault, UnexpectedEof};
use crate::parse::bracket::item::Element;
use crate::parse::read::is_at;

/// Reads `[:name:]` or `[:^name:]`, whose first bracket is at the index.
pub(crate) fn read_named_set(chars: &[char], at: usize) -> Result<(usize, Element), SyntaxFault>
    requires inside { at < length chars.now }
    requires begins { drop at chars.now ≡ the "[" ∷ drop (at + 1) chars.now }
    ensures inside { IfOk result (λ r. (at < r.0) × (r.0 ≤ length chars.now)) }
    ensures ok { IfOk result (λ r. IsNamedSet (drop at chars.now) (drop r.0 chars.now) r.1) }
    ensures refused { IfErr result (λ fault. NoReading fault HasNamedSet (drop at chars.now)) }
    ensures completes { IfErr result (λ fault. CanComplete fault
        (λ t rest. (negated : Bool) × (set : SetName) × NamedClass t rest negated set)
        (drop at chars.now)) }
{
    expect(chars, at + 1, ':', true)?;
    let negated = is_at(chars, at + 2, '^');
    let begin = if negated { at + 3 } else { at + 2 };
    let end = skip_lower(chars, begin);
    let name = &chars[begin..end];
    expect(chars, end, ':', begins_name(name))?;
    let found = set_with_name(name);
    expect(chars, end + 1, ']', found.is_some())?;
    match found {
        None => Err(SyntaxFault::ClassNestUnsupported),
        Some(set) => Ok((end + 2, Element::Set { set, negated })),
    }
}

/// Returns an error if the character at the index isn't this one. If the pattern ends there, it is
/// cut short if a named set has `begun` before.
fn expect(chars: &[char], at: usize, c: char, begun: bool) -> Result<(), SyntaxFault>
    requires { at ≤ length chars.now }
    ensures there { OnOk result
        ((at < length chars.now) × (drop at chars.now ≡ c ∷ drop (at + 1) chars.now)) }
    ensures absent { IfErr result (λ _. Begins c (drop at chars.now) → ⊥) }
    ensures short { IfErr result
        (λ fault. is_cut_short fault ≡ (begun && (at == length chars.now))) }
{
    if at == chars.len() {
        return Err(SyntaxFault::at_end(UnexpectedEof::ClassNest, begun));
    }
    if is_at(chars, at, c) {
        Ok(())
    } else {
        Err(SyntaxFault::ClassNestUnsupported)
    }
}

/// The end of the lower-case letters from the index on.
fn skip_lower(chars: &[char], at: usize) -> usize
    requires { at ≤ length chars.now }
    ensures inside { (at ≤ result) × (result ≤ length chars.now) }
    ensures letters { AllPass is_lower (take (result - at) (drop at chars.now)) }
    ensures spelled { drop at chars.now
        ≡ take (result - at) (drop at chars.now) ++ drop result chars.now }
    ensures ends { Lacks is_lower (drop result chars.now) }
{
    let mut end = at;
    while end < chars.len() && chars[end].is_ascii_lowercase() {
        end += 1;
    }
    end
}

/// All named sets.
const ALL: [NamedSet; 14] = [
    NamedSet::Alnum,
    NamedSet::Alpha,
    NamedSet::Ascii,
    NamedSet::Blank,
    NamedSet::Cntrl,
    NamedSet::Digit,
    NamedSet::Graph,
    NamedSet::Lower,
    NamedSet::Print,
    NamedSet::Punct,
    NamedSet::Space,
    NamedSet::Upper,
    NamedSet::Word,
    NamedSet::Xdigit,
];

/// The set with this name.
fn set_with_name(name: &[char]) -> Option<NamedSet>
    ensures { result ≡ find (λ set. is_text name.now (set_name set)) ALL }
{
    ALL.iter()
        .copied()
        .find(|set| is_word(name, name_of_set(*set)))
}

/// Whether some set has a name that begins with these characters.
fn begins_name(chars: &[char]) -> bool
    ensures { result ≡ list_any (λ set. is_beginning chars.now (set_name set)) ALL }
{
    ALL.iter().any(|set| begins_word(chars, name_of_set(*set)))
}

/// The name of the set.
fn name_of_set(set: NamedSet) -> &'static str
    ensures { result.now ≡ set_name set }
{
    match set {
        NamedSet::Alnum => "alnum",
        NamedSet::Alpha => "alpha",
        NamedSet::Ascii => "ascii",
        NamedSet::Blank => "blank",
        NamedSet::Cntrl => "cntrl",
        NamedSet::Digit => "digit",
        NamedSet::Graph => "graph",
        NamedSet::Lower => "lower",
        NamedSet::Print => "print",
        NamedSet::Punct => "punct",
        NamedSet::Space => "space",
        NamedSet::Upper => "upper",
        NamedSet::Word => "word",
        NamedSet::Xdigit => "xdigit",
    }
}

/// Whether the characters are those of an ASCII word.
fn is_word(chars: &[char], word: &str) -> bool
    ensures { result ≡ is_text chars.now word.now }
{
    if chars.len() != word.len() {
        return false;
    }
    for (i, byte) in word.as_bytes().iter().enumerate() {
        if chars[i] != char::from(*byte) {
            return false;
        }
    }
    true
}

/// Whether an ASCII word begins with the characters.
fn begins_word(chars: &[char], word: &str) -> bool
    ensures { result ≡ is_beginning chars.now word.now }
{
    if chars.len() > word.len() {
        return false;
    }
    let bytes = word.as_bytes();
    for (i, c) in chars.iter().enumerate() {
        if *c != char::from(bytes[i]) {
            return false;
        }
    }
    true
}
