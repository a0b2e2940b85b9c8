//! Properties of a list of patterns.
ghost use Rattle.std.specs.Prelude.{◌≡◌, IfSome, MatchOption, None, cond, length, slice_get};
ghost use Rattle.regex_lite_syntax.specs.Tree.Properties.{nullable};
ghost use Rattle.regex_lite.specs.Expression.{OfTree};
ghost use Rattle.regex_lite.specs.RegexList.{OfTrees};
ghost use Rattle.regex_lite_engine.specs.Graph.SideBySide.{arrows_of_all, places_of_all};
ghost use Rattle.regex_lite_c.specs.Buffers.{IsPatternAnswer};

use crate::answer::{NO, NO_PATTERN, NOTHING_HELD, YES, answer_of};
use crate::buffer;
use crate::handle::{ListHandle, ask};
use regex_lite::RegexList;
use std::alloc::Global;

/// The number of patterns in the list; 0 if the handle is empty.
#[unsafe(no_mangle)]
pub extern "C" fn regex_lite_list_len(alloc: Global, handle: &mut ListHandle) -> usize
    ensures same { handle.new.value ≡ handle.old.value }
    ensures counted { MatchOption handle.old.value (result ≡ 0) (λ list. result ≡ length list) }
{
    ask(alloc, handle, 0, |list| list.len())
}

/// Writes the pattern with this number to the buffer: 1, or 0 if there is none.
#[unsafe(no_mangle)]
pub extern "C" fn regex_lite_list_pattern_at(
    alloc: Global,
    handle: &mut ListHandle,
    number: usize,
    buffer: &mut [u8],
    len: &mut usize,
) -> u32
    ensures same { handle.new.value ≡ handle.old.value }
    ensures nothing_held { handle.old.value ≡ None
        → (result ≡ NOTHING_HELD) × (buffer.new ≡ buffer.old) × (len.new ≡ len.old) }
    ensures answer { IfSome handle.old.value (λ list.
        IsPatternAnswer list number buffer.old buffer.new len.old len.new result) }
{
    buffer::write_from(
        alloc,
        handle,
        buffer,
        len,
        |list| list.as_str(number).ok_or(NO),
    )
}

/// Whether the pattern with this number may match the empty text if its looks are assumed to hold:
/// 1 or 0. With 0 none of its matches is empty.
#[unsafe(no_mangle)]
pub extern "C" fn regex_lite_list_may_be_empty(
    alloc: Global,
    handle: &mut ListHandle,
    number: usize,
) -> u32
    ensures same { handle.new.value ≡ handle.old.value }
    ensures answer { MatchOption handle.old.value (result ≡ NOTHING_HELD)
        (λ list. MatchOption (slice_get list number) (result ≡ NO_PATTERN)
        (λ re. OfTree re (λ tree. result ≡ cond (nullable tree) YES NO))) }
{
    let say = |list: &RegexList| may_be_empty(list, number);
    ask(alloc, handle, NOTHING_HELD, say)
}

/// Whether the pattern with this number may match the empty text.
fn may_be_empty(list: &RegexList, number: usize) -> u32
    ensures { MatchOption (slice_get list.now number) (result ≡ NO_PATTERN)
        (λ re. OfTree re (λ tree. result ≡ cond (nullable tree) YES NO)) }
{
    if number >= list.len() {
        return NO_PATTERN;
    }
    answer_of(list.may_be_empty(number))
}

/// The number of places (NFA states) of the compiled patterns together; 0 if the handle is empty.
#[unsafe(no_mangle)]
pub extern "C" fn regex_lite_list_places(alloc: Global, handle: &mut ListHandle) -> usize
    ensures same { handle.new.value ≡ handle.old.value }
    ensures counted { MatchOption handle.old.value (result ≡ 0)
        (λ list. OfTrees list (λ trees. result ≡ places_of_all trees)) }
{
    ask(alloc, handle, 0, |list| list.places())
}

/// The number of arrows (transitions) of the compiled patterns together; 0 if the handle is empty.
#[unsafe(no_mangle)]
pub extern "C" fn regex_lite_list_arrows(alloc: Global, handle: &mut ListHandle) -> usize
    ensures same { handle.new.value ≡ handle.old.value }
    ensures counted { MatchOption handle.old.value (result ≡ 0)
        (λ list. OfTrees list (λ trees. result ≡ arrows_of_all trees)) }
{
    ask(alloc, handle, 0, |list| list.arrows())
}
