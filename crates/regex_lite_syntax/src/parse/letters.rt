//! Flags that are written in a pattern.
ghost use Rattle.std.specs.Prelude.{◌≡◌, ◌⊎◌, ◌<◌, ◌≤◌, ℕ, [], ◌∷◌, ◌++◌, IsTrue, true, false};
ghost use Rattle.std.specs.Prelude.{drop, length, slice_range, codes, IfOk, IfErr, IfSome, IfNone};
ghost use Rattle.std.specs.List.{AllPass, list_all};
ghost use Rattle.regex_lite_syntax.specs.declared.error.syntax.SyntaxFault.TheVariants.{
  FlagUnrecognized,
};
ghost use Rattle.regex_lite_syntax.specs.declared.flags.Flags.{Flags};
ghost use Rattle.regex_lite_syntax.specs.Text.{Text, the, ◌∈◌};
ghost use Rattle.regex_lite_syntax.specs.Characters.{is_one_of};
ghost use Rattle.regex_lite_syntax.specs.Grammar.FlagLetters.{is_flag_letter, with_flag};
ghost use Rattle.regex_lite_syntax.specs.Grammar.FlagLetters.{with_flags, all_differ};
ghost use Rattle.regex_lite_syntax.specs.Parser.FlagRuns.{EndedFlags, LetterRun};
ghost use Rattle.regex_lite_syntax.specs.Parser.NameOpenings.{EndsInOpening};
ghost use Rattle.regex_lite_syntax.specs.CutShort.{is_cut_short};
ghost use Rattle.regex_lite_syntax.specs.Refusals.{NoReading, Completable, CanComplete};

use crate::error::{SyntaxFault, UnexpectedEof};
use crate::flags::Flags;
use crate::parse::read::{char_at, is_at};

/// Reads a group's head from after its `?` on, up to the `:` or `)` that ends it. Returns its index
/// and the flags as the head changes them.
pub(crate) fn read_head(
    chars: &[char],
    at: usize,
    old: Flags,
) -> Result<(usize, Flags), SyntaxFault>
    requires { at ≤ length chars.now }
    ensures inside { IfOk result (λ r. (at ≤ r.0) × (r.0 < length chars.now)) }
    ensures ok { IfOk result (λ r. EndedFlags old (drop at chars.now) (drop r.0 chars.now) r.1) }
    ensures refused { IfErr result (λ fault. NoReading fault
        (λ t. (rest : Text) × (new : Flags) × EndedFlags old t rest new) (drop at chars.now)) }
    ensures cut_short { IfErr result (λ fault.
        EndsInOpening (the "?" ∷ drop at chars.now) → IsTrue (is_cut_short fault)) }
    // If the pattern ends inside the opening of a name, that may continue; otherwise flags may, up
    // to a `:`.
    ensures completes { let t = drop at chars.now in IfErr result (λ fault.
        IsTrue (is_cut_short fault) → EndsInOpening (the "?" ∷ t) ⊎ Completable
        (λ t rest. (new : Flags) × EndedFlags old t (the ":" ∷ rest) new) t) }
{
    match other_head(chars, at) {
        Some(fault) => Err(fault),
        None => read_flags(chars, at, old),
    }
}

/// The fault of a head that doesn't begin with flags. If a `P` ends the pattern, it may be part of
/// the opening of a name.
fn other_head(chars: &[char], at: usize) -> Option<SyntaxFault>
    requires { at ≤ length chars.now }
    ensures refused { IfSome result (λ fault. (old : Flags) → NoReading fault
        (λ t. (rest : Text) × (new : Flags) × EndedFlags old t rest new) (drop at chars.now)) }
    ensures cut_short { IfSome result (λ fault.
        EndsInOpening (the "?" ∷ drop at chars.now) → IsTrue (is_cut_short fault)) }
    ensures completes { IfSome result (λ fault.
        IsTrue (is_cut_short fault) → EndsInOpening (the "?" ∷ drop at chars.now)) }
    ensures goes_on { IfNone result (EndsInOpening (the "?" ∷ drop at chars.now) → ⊥) }
{
    match char_at(chars, at) {
        None => Some(SyntaxFault::CutShort(UnexpectedEof::GroupQuestion)),
        Some('=' | '!') => Some(SyntaxFault::LookUnsupported),
        Some('P') if at + 1 == chars.len() => Some(SyntaxFault::CutShort(
            UnexpectedEof::FlagOrName,
        )),
        Some(_) => None,
    }
}

/// Reads flags up to the `:` or `)` that ends them. Returns its index and the flags as these change
/// them.
fn read_flags(chars: &[char], at: usize, old: Flags) -> Result<(usize, Flags), SyntaxFault>
    requires { at ≤ length chars.now }
    ensures inside { IfOk result (λ r. (at ≤ r.0) × (r.0 < length chars.now)) }
    ensures ok { IfOk result (λ r. EndedFlags old (drop at chars.now) (drop r.0 chars.now) r.1) }
    ensures refused { IfErr result (λ fault. NoReading fault
        (λ t. (rest : Text) × (new : Flags) × EndedFlags old t rest new) (drop at chars.now)) }
    ensures completes { IfErr result (λ fault. CanComplete fault
        (λ t rest. (new : Flags) × EndedFlags old t (the ":" ∷ rest) new) (drop at chars.now)) }
{
    let (middle, set) = read_letters(chars, at, &[], true, old)?;
    if !is_at(chars, middle, '-') {
        return Ok((middle, set));
    }
    let begin = middle + 1;
    let before = &chars[at..middle];
    if is_out_of_letters(chars, begin, before) {
        return Err(SyntaxFault::DeadEnd(UnexpectedEof::Flag));
    }
    let (end, new) = read_letters(chars, begin, before, false, set)?;
    if is_at(chars, end, '-') {
        return Err(SyntaxFault::FlagRepeatedNegation);
    }
    if end == begin {
        return Err(SyntaxFault::FlagDanglingNegation);
    }
    Ok((end, new))
}

/// Whether the pattern ends at the index, where a flag letter has to follow, and all flag letters
/// already occur before.
fn is_out_of_letters(chars: &[char], at: usize, before: &[char]) -> bool
    requires { at ≤ length chars.now }
    ensures none_left { IsTrue result → (drop at chars.now ≡ [])
        × ((c : ℕ) → IsTrue (is_flag_letter c) → IsTrue (is_one_of before.now c)) }
    ensures some_left { result ≡ false → drop at chars.now ≡ []
        → (c : ℕ) × IsTrue (is_flag_letter c) × (is_one_of before.now c ≡ false) }
{
    at == chars.len() && has_every_letter(before)
}

/// Whether all flag letters are among these.
fn has_every_letter(letters: &[char]) -> bool
    ensures { result ≡ list_all (is_one_of letters.now) (codes "imsURxu") }
{
    ['i', 'm', 's', 'U', 'R', 'x', 'u']
        .iter()
        .all(|letter| letters.contains(letter))
}

/// Reads flag letters up to the `-`, `:` or `)` that ends them; other letters may come before.
/// Returns its index and the flags as these letters set or clear them.
fn read_letters(
    chars: &[char],
    at: usize,
    before: &[char],
    set: bool,
    old: Flags,
) -> Result<(usize, Flags), SyntaxFault>
    requires inside { at ≤ length chars.now }
    requires differ { IsTrue (all_differ before.now) }
    ensures inside { IfOk result (λ r. (at ≤ r.0) × (r.0 < length chars.now)) }
    ensures ok { IfOk result (λ r. LetterRun before.now (slice_range chars.now at r.0)
        (drop at chars.now) (drop r.0 chars.now)) }
    ensures flags { IfOk result (λ r. r.1 ≡ with_flags set (slice_range chars.now at r.0) old) }
    ensures refused { IfErr result (λ fault. NoReading fault
        (λ t. (letters : Text) × (rest : Text) × LetterRun before.now letters t rest)
        (drop at chars.now)) }
    // If the pattern is cut short, only such letters are left of it.
    ensures at_end { let t = drop at chars.now in IfErr result (λ fault.
        IsTrue (is_cut_short fault)
        → AllPass is_flag_letter t × IsTrue (all_differ (before.now ++ t))) }
{
    let mut flags = old;
    for end in at..chars.len() {
        let c = chars[end];
        if ends_letters(c) {
            return Ok((end, flags));
        }
        flags = with_letter(flags, set, c)?;
        if before.contains(&c) || chars[at..end].contains(&c) {
            return Err(SyntaxFault::FlagDuplicate);
        }
    }
    Err(SyntaxFault::CutShort(UnexpectedEof::Flag))
}

/// Whether the character ends a run of flag letters.
fn ends_letters(c: char) -> bool
    ensures { result ≡ c ∈ "-:)" }
{
    matches!(c, '-' | ':' | ')')
}

/// The flags after one letter.
fn with_letter(flags: Flags, set: bool, c: char) -> Result<Flags, SyntaxFault>
    ensures ok { IfOk result (λ new. IsTrue (is_flag_letter c) × (new ≡ with_flag set c flags)) }
    ensures refused { IfErr result (λ fault.
        (fault ≡ FlagUnrecognized) × (is_flag_letter c ≡ false)) }
{
    match c {
        'i' => Ok(Flags {
            case_insensitive: set,
            ..flags
        }),
        'm' => Ok(Flags {
            multi_line: set,
            ..flags
        }),
        's' => Ok(Flags {
            dot_matches_new_line: set,
            ..flags
        }),
        'U' => Ok(Flags {
            swap_greed: set,
            ..flags
        }),
        'R' => Ok(Flags { crlf: set, ..flags }),
        'x' => Ok(Flags {
            ignore_whitespace: set,
            ..flags
        }),
        'u' => Ok(flags),
        _ => Err(SyntaxFault::FlagUnrecognized),
    }
}
