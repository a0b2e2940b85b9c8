//! The set of a class, from its opening and its items.
ghost use Rattle.std.specs.Prelude.{◌≡◌, ◌||◌, ◌∷◌, [], ℕ, List, IfOk, OnOk};
ghost use Rattle.regex_lite_syntax.specs.Text.{the};
ghost use Rattle.regex_lite_syntax.specs.Sets.{Set, just, union};
ghost use Rattle.regex_lite_syntax.specs.Ranges.{in_ranges, AreRunsOf};
ghost use Rattle.regex_lite_syntax.specs.Grammar.Classes.{only_if, class_set};
ghost use Rattle.regex_lite_syntax.specs.Parser.ClassReadings.{item_set};

use crate::class::letters::ascii_case_fold;
use crate::class::{Class, ClassRange};
use crate::parse::bracket::item::{Element, Item};
use crate::parse::bracket::opening::Opening;
use std::alloc::{AllocError, Global};

/// Adds the members of a class's opening.
pub(crate) fn push_opening(ranges: &mut Vec<ClassRange>, opening: Opening) -> Result<(), AllocError>
    ensures { OnOk result ((c : ℕ) → in_ranges ranges.new.items c ≡ (in_ranges ranges.old.items c
        || union (only_if opening.dash (just (the "-"))
        ∷ only_if opening.bracket (just (the "]")) ∷ []) c)) }
{
    if opening.dash {
        push_char(ranges, '-')?;
    }
    if opening.bracket {
        push_char(ranges, ']')?;
    }
    Ok(())
}

/// Adds the set of an item.
pub(crate) fn push_item(
    alloc: Global,
    ranges: &mut Vec<ClassRange>,
    item: Item,
) -> Result<(), AllocError>
    ensures { OnOk result ((c : ℕ) →
        in_ranges ranges.new.items c ≡ (in_ranges ranges.old.items c || item_set item c)) }
{
    match item {
        Item::Alone(Element::Char(c)) => push_char(ranges, c)?,
        Item::Alone(Element::Set { set, negated }) => {
            let class = Class::named(alloc, set, negated)?;
            ranges.extend_from_slice(class.ranges())?;
        }
        Item::Range { start, end } => ranges.push(ClassRange { start, end })?,
    }
    Ok(())
}

/// Adds a character.
fn push_char(ranges: &mut Vec<ClassRange>, c: char) -> Result<(), AllocError>
    ensures { OnOk result ((d : ℕ) →
        in_ranges ranges.new.items d ≡ (in_ranges ranges.old.items d || just c d)) }
{
    ranges.push(ClassRange { start: c, end: c })?;
    Ok(())
}

/// The class of these ranges, closed under case if `insensitive`, and then negated if `negated`.
pub(crate) fn class_of(
    alloc: Global,
    mut ranges: Vec<ClassRange>,
    insensitive: bool,
    negated: bool,
) -> Result<Class, AllocError>
    ensures { IfOk result (λ class. (sets : List Set) →
        ((c : ℕ) → in_ranges ranges.items c ≡ union sets c) →
        AreRunsOf class (class_set insensitive negated sets)) }
{
    if insensitive {
        ascii_case_fold(alloc, &mut ranges)?;
    }
    Class::new(ranges).into_negated(alloc, negated)
}
