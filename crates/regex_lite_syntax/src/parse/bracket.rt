//! Bracketed classes.
ghost use Rattle.std.specs.Prelude.{◌≡◌, ◌<◌, ◌≤◌, ◌+◌, ◌∷◌, ◌||◌, ℕ};
ghost use Rattle.std.specs.Prelude.{List, drop, length, IfOk, IfErr};
ghost use Rattle.regex_lite_syntax.specs.Text.{Text, the};
ghost use Rattle.regex_lite_syntax.specs.Grammar.Gaps.{EndsGap};
ghost use Rattle.regex_lite_syntax.specs.Sets.{Set, union};
ghost use Rattle.regex_lite_syntax.specs.Ranges.{in_ranges, AreRuns};
ghost use Rattle.regex_lite_syntax.specs.Grammar.Classes.{ClassItems, BracketedClass};
ghost use Rattle.regex_lite_syntax.specs.Refusals.{Denies, Completable, IfCutShort};

mod item;
mod named;
mod opening;
mod set;

use crate::class::{Class, ClassRange};
use crate::error::{Error, SyntaxFault, UnexpectedEof};
use crate::parse::gap::skip_gap;
use crate::parse::read::is_at;
use item::read_item;
use opening::read_opening;
use set::{class_of, push_item, push_opening};
use std::alloc::Global;

/// Reads a class from its opening bracket on, and returns the index after it and the set.
pub(crate) fn read_class(
    alloc: Global,
    chars: &[char],
    at: usize,
    insensitive: bool,
    verbose: bool,
) -> Result<(usize, Class), Error>
    requires inside { at < length chars.now }
    requires begins { drop at chars.now ≡ the "[" ∷ drop (at + 1) chars.now }
    ensures inside { IfOk result (λ r. (at < r.0) × (r.0 ≤ length chars.now)) }
    ensures ok { IfOk result (λ r. BracketedClass insensitive verbose
        (drop at chars.now) (drop r.0 chars.now) (in_ranges r.1)) }
    ensures runs { IfOk result (λ r. AreRuns 0 r.1) }
    ensures refused { IfErr result (λ error. Denies error
        (λ t. (rest : Text) × (s : Set) × BracketedClass insensitive verbose t rest s)
        (drop at chars.now)) }
    ensures completes { IfErr result (λ error. IfCutShort error (Completable
        (λ t rest. (s : Set) × BracketedClass insensitive verbose t rest s)
        (drop at chars.now))) }
{
    let (start, opening) = read_opening(chars, at, verbose);
    if start == chars.len() {
        return Err(opening.unclosed().into());
    }
    let mut ranges = Vec::new(alloc);
    push_opening(&mut ranges, opening)?;
    let end = read_items(alloc, chars, start, verbose, &mut ranges)?;
    let class = class_of(alloc, ranges, insensitive, opening.negated)?;
    Ok((end, class))
}

/// Reads the items of a class and its closing bracket, and adds the items' sets.
fn read_items(
    alloc: Global,
    chars: &[char],
    at: usize,
    verbose: bool,
    ranges: &mut Vec<ClassRange>,
) -> Result<usize, Error>
    requires inside { at ≤ length chars.now }
    requires past_gap { EndsGap verbose (drop at chars.now) }
    ensures inside { IfOk result (λ end. (at < end) × (end ≤ length chars.now)) }
    ensures ok { IfOk result (λ end. (sets : List Set)
        × ClassItems verbose sets (drop at chars.now) (drop end chars.now)
        × ((c : ℕ) →
        in_ranges ranges.new.items c ≡ (in_ranges ranges.old.items c || union sets c))) }
    ensures refused { IfErr result (λ error. Denies error
        (λ t. (rest : Text) × (sets : List Set) × ClassItems verbose sets t rest)
        (drop at chars.now)) }
    ensures completes { IfErr result (λ error. IfCutShort error (Completable
        (λ t rest. (sets : List Set) × ClassItems verbose sets t rest) (drop at chars.now))) }
{
    let mut end = at;
    'items: while !is_at(chars, end, ']') {
        if end == chars.len() {
            return Err(SyntaxFault::CutShort(UnexpectedEof::Class).into());
        }
        let (past, item) = read_item(chars, end, verbose)?;
        push_item(alloc, ranges, item)?;
        end = skip_gap(chars, past, verbose);
    }
    Ok(end + 1)
}
