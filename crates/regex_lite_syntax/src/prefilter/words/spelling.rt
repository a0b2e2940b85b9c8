//! Patterns that are nothing but words, and rows of characters.
ghost use Rattle.std.specs.Prelude.{◌≡◌, ◌≤◌, [], IfOk, IfSome, IsTrue, encode_utf8, false};
ghost use Rattle.std.specs.Prelude.{length, map, take, true};
ghost use Rattle.regex_lite_syntax.specs.Ranges.{in_ranges};
ghost use Rattle.regex_lite_syntax.specs.Tree.{trees};
ghost use Rattle.regex_lite_syntax.specs.Tree.Views.{tree_of};
ghost use Rattle.regex_lite_syntax.specs.Prefilter.Spelling.{AddsBytes, AddsLetters, AddsRow};
ghost use Rattle.regex_lite_syntax.specs.Prefilter.Spelling.{AddsSpelled};
ghost use Rattle.regex_lite_syntax.specs.Prefilter.WholeWords.{ArePasses, AreWholeWords, HasCases};
ghost use Rattle.regex_lite_syntax.specs.Prefilter.WholeWords.{IsItsWords, IsSpelled};
ghost use Rattle.regex_lite_syntax.specs.Prefilter.WordLists.{all_words};

use crate::class::Class;
use crate::hir::Hir;
use crate::prefilter::words::letter::Letter;
use crate::prefilter::words::word_list::WordList;
use std::alloc::AllocError;

/// A word of as many letters is long enough: of a row no more characters are read.
pub(super) const LONGEST: usize = 255;

/// Reads a tree that is one of some words, the earlier preferred, and nothing else. Returns whether
/// it is: then the list has these words.
///
/// Condition: no letter was read.
///
/// # Errors
///
/// If memory runs out.
pub(super) fn read_words(list: &mut WordList, hir: &Hir) -> Result<bool, AllocError>
    requires done { list.old.done ≡ [] }
    requires last { list.old.last ≡ [] }
    ensures { IfOk result (λ are. are ≡ true → IsItsWords (tree_of hir.now) (all_words list.new)) }
{
    match hir {
        Hir::Alternation(branches) => read_branches(list, branches),
        _ => read_word(list, hir),
    }
}

/// Whether the tree may begin with a letter of a word. If not, it has no words.
pub(super) fn may_begin_word(hir: &Hir) -> bool {
    match hir {
        Hir::Empty | Hir::Look(_) | Hir::Char(_) => true,
        Hir::Class(set) => letter_of(set).is_some(),
        Hir::Repetition { least, body, .. } => *least > 0 && may_begin_word(body),
        Hir::Capture { body, .. } => may_begin_word(body),
        Hir::Concat(parts) => parts.is_empty() || may_begin_word(&parts[0]),
        Hir::Alternation(branches) => branches.is_empty() || may_begin_word(&branches[0]),
    }
}

/// Reads branches each of which is a word. Returns whether they are.
///
/// Condition: no letter was read.
///
/// # Errors
///
/// If memory runs out.
fn read_branches(list: &mut WordList, branches: &[Hir]) -> Result<bool, AllocError>
    requires done { list.old.done ≡ [] }
    requires last { list.old.last ≡ [] }
    ensures { IfOk result (λ are. are ≡ true
        → AreWholeWords (trees (map tree_of branches.now)) (all_words list.new)) }
{
    list.reserve(branches.len())?;
    if branches.is_empty() || !read_word(list, &branches[0])? {
        return Ok(false);
    }
    'branches: for number in 1..branches.len() {
        if !list.begin_word()? || !read_word(list, &branches[number])? {
            return Ok(false);
        }
    }
    Ok(true)
}

/// Adds the letters of a tree that is a word and nothing else. Returns whether it is, and isn't
/// too long.
///
/// # Errors
///
/// If memory runs out.
#[cycle(read_word)]
fn read_word(list: &mut WordList, hir: &Hir) -> Result<bool, AllocError>
    ensures { IfOk result (λ is. is ≡ true → AddsSpelled (tree_of hir.now) list.old list.new) }
{
    match hir {
        Hir::Concat(parts) => read_parts(list, parts),
        Hir::Repetition {
            least,
            most,
            body,
            ..
        } if *least > 0 && *most == Some(*least) => read_passes(list, *least, body),
        _ => spell(list, hir),
    }
}

/// Adds the letters of parts each of which is a word. Returns whether they are.
///
/// # Errors
///
/// If memory runs out.
#[cycle(read_word)]
fn read_parts(list: &mut WordList, parts: &[Hir]) -> Result<bool, AllocError>
    ensures { IfOk result
        (λ are. are ≡ true → AddsRow (trees (map tree_of parts.now)) list.old list.new) }
{
    let read = read_row(list, parts)?;
    'parts: for k in read..parts.len() {
        if list.last().len() >= LONGEST || !read_word(list, &parts[k])? {
            return Ok(false);
        }
    }
    Ok(true)
}

/// Adds the letters of this tree so many times, if it is a word. Returns whether it is.
///
/// # Errors
///
/// If memory runs out.
#[cycle(read_word)]
fn read_passes(list: &mut WordList, passes: u32, body: &Hir) -> Result<bool, AllocError>
    ensures { IfOk result (λ are. are ≡ true
        → AddsLetters (ArePasses (IsSpelled (tree_of body.now)) passes) list.old list.new) }
{
    // So that nothing is read in vain.
    if passes as usize > LONGEST {
        return Ok(false);
    }
    'passes: for _k in 0..passes {
        if list.last().len() >= LONGEST || !read_word(list, body)? {
            return Ok(false);
        }
    }
    Ok(true)
}

/// Adds the letters of the parts with which these begin that are characters, or letters in any
/// case. Returns how many these are, as far as they are read.
///
/// # Errors
///
/// If memory runs out.
pub(super) fn read_row(list: &mut WordList, parts: &[Hir]) -> Result<usize, AllocError>
    ensures inside { IfOk result (λ read. read ≤ length parts.now) }
    ensures row { IfOk result
        (λ read. AddsRow (trees (map tree_of (take read parts.now))) list.old list.new) }
{
    let most = parts.len().min(LONGEST);
    'parts: for k in 0..most {
        if !spell(list, &parts[k])? {
            return Ok(k);
        }
    }
    Ok(most)
}

/// Adds the letters of the tree, if it is a character, or a letter in any case. Returns whether it
/// is.
///
/// # Errors
///
/// If memory runs out.
#[inline(always)]
pub(super) fn spell(list: &mut WordList, hir: &Hir) -> Result<bool, AllocError>
    ensures spelled { IfOk result
        (λ is. is ≡ true → AddsSpelled (tree_of hir.now) list.old list.new) }
    ensures same { IfOk result (λ is. is ≡ false → list.new ≡ list.old) }
{
    match hir {
        Hir::Char(c) if c.is_ascii() => {
            list.push(Letter::exact(*c as u8))?;
            Ok(true)
        }
        _ => spell_other(list, hir),
    }
}

/// The same of a tree that is no ASCII character.
///
/// # Errors
///
/// If memory runs out.
// Not inlined, so that the loop over a row has the registers.
#[inline(never)]
fn spell_other(list: &mut WordList, hir: &Hir) -> Result<bool, AllocError>
    ensures spelled { IfOk result
        (λ is. is ≡ true → AddsSpelled (tree_of hir.now) list.old list.new) }
    ensures same { IfOk result (λ is. is ≡ false → list.new ≡ list.old) }
{
    if let Hir::Char(c) = hir {
        push_bytes(list, *c)?;
        return Ok(true);
    }
    let Hir::Class(set) = hir else {
        return Ok(false);
    };
    let Some(letter) = letter_of(set) else {
        return Ok(false);
    };
    list.push(letter)?;
    Ok(true)
}

/// Adds the bytes of a character.
///
/// # Errors
///
/// If memory runs out.
// Not inlined, for the same reason.
#[inline(never)]
fn push_bytes(list: &mut WordList, c: char) -> Result<(), AllocError>
    ensures { IfOk result (λ _. AddsBytes (encode_utf8 c) list.old list.new) }
{
    let mut buffer = [0; 4];
    let text = c.encode_utf8(&mut buffer);
    let bytes = text.as_bytes();
    'bytes: for k in 0..bytes.len() {
        list.push(Letter::exact(bytes[k]))?;
    }
    Ok(())
}

/// The letter of two cases that the set consists of.
pub(super) fn letter_of(set: &Class) -> Option<Letter>
    ensures { IfSome result (HasCases (λ c. IsTrue (in_ranges set.now c))) }
{
    let [upper, lower] = set.ranges() else {
        return None;
    };
    if upper.start != upper.end || lower.start != lower.end || !lower.start.is_ascii() {
        return None;
    }
    let (byte, other) = (upper.start as u8, lower.start as u8);
    let are_cases = byte.to_ascii_lowercase() == other && other % 32 == byte % 32;
    if !upper.start.is_ascii() || !are_cases {
        return None;
    }
    Some(Letter { byte, other })
}
