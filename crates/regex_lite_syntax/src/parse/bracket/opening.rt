//! The opening of a class.
ghost use Rattle.std.specs.Prelude.{◌≡◌, ◌<◌, ◌≤◌, ◌+◌, ◌∷◌, ℕ, nat_lt, drop, length, IsTrue};
ghost use Rattle.regex_lite_syntax.specs.Text.{the};
ghost use Rattle.regex_lite_syntax.specs.Grammar.Gaps.{EndsGap};
ghost use Rattle.regex_lite_syntax.specs.Grammar.Classes.{Takes, Dashes};
ghost use Rattle.regex_lite_syntax.specs.Grammar.Classes.{FirstBracket, ClassOpening};
ghost use Rattle.regex_lite_syntax.specs.CutShort.{is_cut_short};

use crate::error::{SyntaxFault, UnexpectedEof};
use crate::parse::gap::skip_gap;
use crate::parse::read::is_at;

/// The opening of a class: its negation, and the dash or bracket that is a member.
#[derive(Clone, Copy, PartialEq, Eq, Debug)]
pub(crate) struct Opening {
    pub(crate) negated: bool,
    pub(crate) dash: bool,
    pub(crate) bracket: bool,
}

impl Opening {
    /// The fault of a pattern that ends after this opening.
    pub(crate) fn unclosed(self) -> SyntaxFault
        ensures { IsTrue (is_cut_short result) }
    {
        if self.dash {
            SyntaxFault::CutShort(UnexpectedEof::ClassAfterDash)
        } else if self.bracket {
            SyntaxFault::CutShort(UnexpectedEof::ClassAfterClosing)
        } else if self.negated {
            SyntaxFault::CutShort(UnexpectedEof::ClassAfterNegation)
        } else {
            SyntaxFault::CutShort(UnexpectedEof::Class)
        }
    }
}

/// Reads the opening of a class, from its bracket on, and returns the index after it.
pub(crate) fn read_opening(chars: &[char], at: usize, verbose: bool) -> (usize, Opening)
    requires inside { at < length chars.now }
    requires begins { drop at chars.now ≡ the "[" ∷ drop (at + 1) chars.now }
    ensures inside { (at < result.0) × (result.0 ≤ length chars.now) }
    ensures past_gap { EndsGap verbose (drop result.0 chars.now) }
    ensures opens { let opening = result.1 in
        ClassOpening verbose (drop at chars.now) (drop result.0 chars.now)
        opening.negated opening.dash opening.bracket }
{
    let first = skip_gap(chars, at + 1, verbose);
    let (past_caret, negated) = take(chars, first, '^', verbose);
    let (past_dashes, dash) = take_dashes(chars, past_caret, verbose);
    let (start, bracket) = take_bracket(chars, past_dashes, dash, verbose);
    let opening = Opening {
        negated,
        dash,
        bracket,
    };
    (start, opening)
}

/// Skips this character and the gap after it, and returns whether it is there.
fn take(chars: &[char], at: usize, c: char, verbose: bool) -> (usize, bool)
    requires inside { at ≤ length chars.now }
    requires past_gap { EndsGap verbose (drop at chars.now) }
    ensures inside { (at ≤ result.0) × (result.0 ≤ length chars.now) }
    ensures past_gap { EndsGap verbose (drop result.0 chars.now) }
    ensures takes { Takes verbose c (drop at chars.now) (drop result.0 chars.now) result.1 }
{
    if is_at(chars, at, c) {
        (skip_gap(chars, at + 1, verbose), true)
    } else {
        (at, false)
    }
}

/// Skips all dashes, each with the gap after it, and returns whether there are any.
fn take_dashes(chars: &[char], at: usize, verbose: bool) -> (usize, bool)
    requires inside { at ≤ length chars.now }
    requires past_gap { EndsGap verbose (drop at chars.now) }
    ensures inside { (at ≤ result.0) × (result.0 ≤ length chars.now) }
    ensures past_gap { EndsGap verbose (drop result.0 chars.now) }
    ensures takes { (dashes : ℕ)
        × Dashes verbose dashes (drop at chars.now) (drop result.0 chars.now)
        × (result.1 ≡ nat_lt 0 dashes) }
{
    let mut end = at;
    let mut found = false;
    while is_at(chars, end, '-') {
        end = skip_gap(chars, end + 1, verbose);
        found = true;
    }
    (end, found)
}

/// Skips a `]` that is a member and the gap after it, if there was no dash before.
fn take_bracket(chars: &[char], at: usize, dash: bool, verbose: bool) -> (usize, bool)
    requires inside { at ≤ length chars.now }
    requires past_gap { EndsGap verbose (drop at chars.now) }
    ensures inside { (at ≤ result.0) × (result.0 ≤ length chars.now) }
    ensures past_gap { EndsGap verbose (drop result.0 chars.now) }
    ensures takes { (dashes : ℕ) → dash ≡ nat_lt 0 dashes →
        FirstBracket verbose dashes (drop at chars.now) (drop result.0 chars.now) result.1 }
{
    if dash {
        (at, false)
    } else {
        take(chars, at, ']', verbose)
    }
}
