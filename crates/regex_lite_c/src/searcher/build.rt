//! Making a searcher, giving it a text, and freeing it.
ghost use Rattle.std.specs.Prelude.{◌≡◌, [], None, Some, IfErr, IfOk, IfSome};
ghost use Rattle.regex_lite_syntax.specs.Errors.{out_of_memory};
ghost use Rattle.regex_lite_c.specs.SearcherAnswers.{IsMoveAnswer, IsReadAnswer};

use crate::answer::{NOT_TEXT, NOTHING_HELD, OUT_OF_MEMORY, YES};
use crate::handle::{Handle, Holds, SearcherHandle};
use crate::searcher::TextSearcher;
use regex_lite::{Error, Regex};
use std::alloc::Global;

/// Makes a searcher of the regex that the other handle holds, and empties that handle: 1. If memory
/// runs out, that handle is unchanged, and this one is empty.
///
/// What this one held before is freed. Until a text is read, the text is empty.
#[unsafe(no_mangle)]
pub extern "C" fn regex_lite_searcher_new(
    alloc: Global,
    handle: &mut SearcherHandle,
    regex: &mut Handle,
) -> u32
    ensures nothing_held { regex.old.value ≡ None → (result ≡ NOTHING_HELD)
        × (handle.new.value ≡ None) × (regex.new.value ≡ None) }
    ensures answer { IfSome regex.old.value
        (λ re. IsMoveAnswer re handle.new.value regex.new.value result) }
{
    let _freed = handle.take(alloc);
    let Some(held) = regex.take(alloc) else {
        return NOTHING_HELD;
    };
    match boxed(alloc, &held) {
        Ok(searcher) => {
            handle.put(searcher);
            YES
        }
        Err(_) => {
            regex.put(held);
            OUT_OF_MEMORY
        }
    }
}

/// A searcher for this regex on the heap, with an empty text.
fn boxed(alloc: Global, regex: &Regex) -> Result<Box<TextSearcher, Global>, Error>
    ensures ok { IfOk result (λ own. own.value ≡ record { re = regex.now; text = [] }) }
    ensures refused { IfErr result (λ error. error ≡ out_of_memory) }
{
    let searcher = TextSearcher::new(alloc, regex)?;
    Ok(Box::new(alloc, searcher)?)
}

/// Frees the searcher, if one is held: the regex, the memory and the text.
#[unsafe(no_mangle)]
pub extern "C" fn regex_lite_searcher_free(alloc: Global, handle: &mut SearcherHandle)
    ensures { handle.new.value ≡ None }
{
    drop(handle.take(alloc));
}

/// Makes a copy of these bytes the text that is searched from now on: 1. Otherwise the text is
/// unchanged.
#[unsafe(no_mangle)]
pub extern "C" fn regex_lite_searcher_read(
    alloc: Global,
    handle: &mut SearcherHandle,
    text: &[u8],
) -> u32
    ensures nothing_held { handle.old.value ≡ None
        → (result ≡ NOTHING_HELD) × (handle.new.value ≡ None) }
    ensures answer { IfSome handle.old.value
        (λ own. IsReadAnswer own text.now handle.new.value result) }
{
    let Some(mut searcher) = handle.take(alloc) else {
        return NOTHING_HELD;
    };
    let answer = read(&mut *searcher, text);
    handle.put(searcher);
    answer
}

/// Makes the searcher's text a copy of these bytes.
fn read(searcher: &mut TextSearcher, bytes: &[u8]) -> u32
    ensures { IsReadAnswer searcher.old bytes.now (Some searcher.new) result }
{
    let Ok(text) = std::str::from_utf8(bytes) else {
        return NOT_TEXT;
    };
    match searcher.read(text) {
        Ok(()) => YES,
        Err(_) => OUT_OF_MEMORY,
    }
}
