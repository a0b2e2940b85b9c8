//! Building and freeing lists of patterns.
ghost use Rattle.std.specs.Prelude.{◌≡◌, ◌++◌, ◌∷◌, [], None, Err};
ghost use Rattle.std.specs.Prelude.{IfErr, IfOk, MatchOption, length, map};
ghost use Rattle.regex_lite_syntax.specs.Errors.{out_of_memory};
ghost use Rattle.regex_lite.specs.Expression.{expression_of};
ghost use Rattle.regex_lite.specs.RegexList.{AreAccepted, BuildsList};
ghost use Rattle.regex_lite_c.specs.ListBuilding.{AreAllBytes, AreTexts, IsDueAt, IsEachAccepted};
ghost use Rattle.regex_lite_c.specs.ListBuilding.{IsListBuildAnswer, IsRefusedAs, IsReported};
ghost use Rattle.regex_lite_c.specs.ListBuilding.{settings_of_all, settings_of_source};

use crate::answer::{BAD_OFFSET, NOT_TEXT, YES, number_of};
use crate::build::{regex_of, write_message};
use crate::handle::{Holds, ListHandle};
use crate::list::patterns::{PatternSource, are_all_bytes, sources};
use crate::list::types::{ListPattern, ListRefusal};
use regex_lite::{Error, ErrorKind, RegexList, RegexListBuilder};
use std::alloc::Global;

/// The reason why patterns are rejected.
#[derive(Drop)]
pub(crate) enum Refused {
    /// The pattern with this number isn't valid UTF-8.
    NotText(usize),
    /// The pattern with this number is rejected by itself, with this error. If the number is that
    /// of all patterns, no single pattern is rejected.
    By(usize, Error),
}

/// Builds a list of patterns, whose bytes are concatenated: 1, and the handle holds it. Otherwise
/// the reason, and the handle holds nothing.
///
/// What was held before is freed. The number of the rejected pattern is written, or the number of
/// patterns if no single one is rejected. The text of an error is written to the buffer for a
/// message, if that is large enough. Its length is written either way, and is 0 if there is no
/// text. The lengths of the patterns have to add up to that of the bytes; otherwise the answer is
/// that of a bad offset.
#[unsafe(no_mangle)]
pub extern "C" fn regex_lite_list_new(
    alloc: Global,
    handle: &mut ListHandle,
    bytes: &[u8],
    patterns: &[ListPattern],
    message: &mut [u8],
    refusal: &mut ListRefusal,
) -> u32
    ensures { IsListBuildAnswer bytes.now patterns.now result handle.new.value refusal.new
        message.old message.new }
{
    let _freed = handle.take(alloc);
    *refusal = ListRefusal {
        number: patterns.len(),
        message_len: 0,
    };
    if !are_all_bytes(patterns, bytes) {
        return BAD_OFFSET;
    }
    match built(alloc, bytes, patterns) {
        Ok(list) => {
            handle.put(list);
            YES
        }
        Err(refused) => tell(&refused, message, refusal),
    }
}

/// Frees the list, if one is held.
#[unsafe(no_mangle)]
pub extern "C" fn regex_lite_list_free(alloc: Global, handle: &mut ListHandle)
    ensures { handle.new.value ≡ None }
{
    drop(handle.take(alloc));
}

/// The list of these patterns, on the heap.
fn built(
    alloc: Global,
    bytes: &[u8],
    patterns: &[ListPattern],
) -> Result<Box<RegexList, Global>, Refused>
    requires { AreAllBytes patterns.now bytes.now }
    ensures ok { IfOk result (λ list.
        list.value ≡ map expression_of (settings_of_all bytes.now patterns.now)) }
    ensures accepted { IfOk result (λ _. AreAccepted (settings_of_all bytes.now patterns.now)) }
    ensures texts { IfOk result (λ _. AreTexts (settings_of_all bytes.now patterns.now)) }
    ensures refused { IfErr result (IsRefusedAs (settings_of_all bytes.now patterns.now)) }
{
    let sources = sources(alloc, bytes, patterns)?;
    match boxed(alloc, &sources) {
        Ok(list) => Ok(list),
        Err(error) => Err(why_refused(alloc, &sources, error)),
    }
}

/// The list of these patterns, on the heap.
fn boxed(alloc: Global, sources: &[PatternSource<'_>]) -> Result<Box<RegexList, Global>, Error>
    ensures ok { IfOk result
        (λ list. list.value ≡ map expression_of (map settings_of_source sources.now)) }
    ensures accepted { IfOk result (λ _. AreAccepted (map settings_of_source sources.now)) }
    ensures refused { IfErr result
        (λ error. BuildsList (map settings_of_source sources.now) (Err error)) }
{
    let list = list_of(alloc, sources)?;
    Ok(Box::new(alloc, list)?)
}

/// The list of these patterns.
fn list_of(alloc: Global, sources: &[PatternSource<'_>]) -> Result<RegexList, Error>
    ensures { BuildsList (map settings_of_source sources.now) result }
{
    let mut builder = RegexListBuilder::new(alloc);
    for source in sources {
        push(&mut builder, source)?;
    }
    builder.build()
}

/// Adds a pattern under its settings.
fn push(builder: &mut RegexListBuilder, source: &PatternSource<'_>) -> Result<(), Error>
    ensures ok { IfOk result (λ _. builder.new.patterns
        ≡ builder.old.patterns ++ (settings_of_source source.now ∷ [])) }
    ensures refused { IfErr result (λ error. error ≡ out_of_memory) }
{
    let options = source.options;
    builder.case_insensitive(options.case_insensitive);
    builder.multi_line(options.multi_line);
    builder.dot_matches_new_line(options.dot_matches_new_line);
    builder.crlf(options.crlf);
    builder.swap_greed(options.swap_greed);
    builder.ignore_whitespace(options.ignore_whitespace);
    builder.nest_limit(options.nest_limit);
    builder.size_limit(options.size_limit);
    builder.push(source.text)
}

/// The reason why these patterns, which can't be built because of this error, are rejected. If one
/// of them is rejected by itself, it has that pattern's number.
fn why_refused(alloc: Global, sources: &[PatternSource<'_>], error: Error) -> Refused
    requires texts { AreTexts (map settings_of_source sources.now) }
    requires refused { BuildsList (map settings_of_source sources.now) (Err error) }
    ensures { IsRefusedAs (map settings_of_source sources.now) result }
{
    match lowest_refused(alloc, sources) {
        Some((number, own)) => Refused::By(number, own),
        None => Refused::By(sources.len(), error),
    }
}

/// The number and the error of the first pattern that is rejected by itself; or the number of
/// patterns, if memory runs out before that.
fn lowest_refused(alloc: Global, sources: &[PatternSource<'_>]) -> Option<(usize, Error)>
    ensures { MatchOption result (IsEachAccepted (map settings_of_source sources.now))
        (λ reported. IsDueAt (map settings_of_source sources.now) reported.0 reported.1
        × (AreAccepted (map settings_of_source sources.now) → reported.1 ≡ out_of_memory)) }
{
    for k in 0..sources.len() {
        let source = &sources[k];
        if let Err(error) = regex_of(alloc, source.text, source.options) {
            return Some((number_for(&error, k, sources.len()), error));
        }
    }
    None
}

/// The number of a pattern that is rejected, or the number of patterns if memory ran out.
fn number_for(error: &Error, number: usize, count: usize) -> usize
    ensures memory { error.now ≡ out_of_memory → result ≡ count }
    ensures refused { (error.now ≡ out_of_memory → ⊥) → result ≡ number }
{
    match error.kind() {
        ErrorKind::Memory => count,
        _ => number,
    }
}

/// Writes the reason why patterns are rejected, and returns its number.
fn tell(refused: &Refused, message: &mut [u8], reported: &mut ListRefusal) -> u32
    requires { reported.old.message_len ≡ 0 }
    ensures { IsReported refused.now result reported.new message.old message.new }
{
    match refused {
        Refused::NotText(number) => {
            reported.number = *number;
            NOT_TEXT
        }
        Refused::By(number, error) => {
            reported.number = *number;
            write_message(error, message, &mut reported.message_len);
            number_of(error)
        }
    }
}
