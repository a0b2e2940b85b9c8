//! Properties of a regex: its pattern and its groups.
ghost use Rattle.std.specs.Prelude.{◌≡◌, IfSome, MatchOption, None};
ghost use Rattle.std.specs.Prelude.{cond, option_map, slice_get, unwrap_or};
ghost use Rattle.regex_lite_syntax.specs.Tree.Properties.{captures_len, nullable};
ghost use Rattle.regex_lite_syntax.specs.Tree.Properties.{static_captures_len};
ghost use Rattle.regex_lite_engine.specs.Graph.PlaceCounts.{whole_arrows, whole_places};
ghost use Rattle.regex_lite.specs.CaptureNames.{names_left};
ghost use Rattle.regex_lite.specs.Expression.{OfTree};
ghost use Rattle.regex_lite.specs.Groups.{index_of, is_named};
ghost use Rattle.regex_lite_c.specs.Names.{IsIndexAnswer, IsNameAnswer};
ghost use Rattle.regex_lite_c.specs.Buffers.{IsWritten};

use crate::answer::{NO, NO_GROUP, NOTHING_HELD, YES, answer_of};
use crate::buffer;
use crate::handle::{Handle, Holds, ask};
use regex_lite::{CaptureNames, Regex};
use std::alloc::Global;

/// Writes the pattern to the buffer: 1.
#[unsafe(no_mangle)]
pub extern "C" fn regex_lite_pattern(
    alloc: Global,
    handle: &mut Handle,
    buffer: &mut [u8],
    len: &mut usize,
) -> u32
    ensures same { handle.new.value ≡ handle.old.value }
    ensures nothing_held { handle.old.value ≡ None
        → (result ≡ NOTHING_HELD) × (buffer.new ≡ buffer.old) × (len.new ≡ len.old) }
    ensures answer { IfSome handle.old.value (λ re.
        IsWritten re.pattern buffer.old buffer.new len.new result) }
{
    buffer::write_from(alloc, handle, buffer, len, |regex| Ok(regex.as_str()))
}

/// The number of groups of a match, including the whole match; 0 if the handle holds nothing.
#[unsafe(no_mangle)]
pub extern "C" fn regex_lite_groups(alloc: Global, handle: &mut Handle) -> usize
    ensures same { handle.new.value ≡ handle.old.value }
    ensures counted { MatchOption handle.old.value (result ≡ 0)
        (λ re. OfTree re (λ tree. result ≡ captures_len tree)) }
{
    ask(alloc, handle, 0, |regex| regex.captures_len())
}

/// The least number of groups that take part in every match, including the whole match; 0 if it
/// isn't known or the handle is empty.
#[unsafe(no_mangle)]
pub extern "C" fn regex_lite_static_groups(alloc: Global, handle: &mut Handle) -> usize
    ensures same { handle.new.value ≡ handle.old.value }
    ensures known { MatchOption handle.old.value (result ≡ 0)
        (λ re. OfTree re (λ tree. result ≡ unwrap_or (static_captures_len tree) 0)) }
{
    ask(
        alloc,
        handle,
        0,
        |regex| regex.static_captures_len().unwrap_or(0),
    )
}

/// Whether the pattern may match the empty text if its looks are assumed to hold: 1 or 0. With 0 no
/// match is empty.
#[unsafe(no_mangle)]
pub extern "C" fn regex_lite_may_be_empty(alloc: Global, handle: &mut Handle) -> u32
    ensures same { handle.new.value ≡ handle.old.value }
    ensures answer { MatchOption handle.old.value (result ≡ NOTHING_HELD)
        (λ re. OfTree re (λ tree. result ≡ cond (nullable tree) YES NO)) }
{
    let say = |regex: &Regex| answer_of(regex.may_be_empty());
    ask(alloc, handle, NOTHING_HELD, say)
}

/// The number of places (NFA states) of the compiled pattern; 0 if the handle is empty.
#[unsafe(no_mangle)]
pub extern "C" fn regex_lite_places(alloc: Global, handle: &mut Handle) -> usize
    ensures same { handle.new.value ≡ handle.old.value }
    ensures counted { MatchOption handle.old.value (result ≡ 0)
        (λ re. OfTree re (λ tree. result ≡ whole_places tree)) }
{
    ask(alloc, handle, 0, |regex| regex.places())
}

/// The number of arrows (transitions) of the compiled pattern; 0 if the handle is empty.
#[unsafe(no_mangle)]
pub extern "C" fn regex_lite_arrows(alloc: Global, handle: &mut Handle) -> usize
    ensures same { handle.new.value ≡ handle.old.value }
    ensures counted { MatchOption handle.old.value (result ≡ 0)
        (λ re. OfTree re (λ tree. result ≡ whole_arrows tree)) }
{
    ask(alloc, handle, 0, |regex| regex.arrows())
}

/// Writes the name of the group with this index to the buffer: 1, or 0 if the group has no name.
#[unsafe(no_mangle)]
pub extern "C" fn regex_lite_group_name(
    alloc: Global,
    handle: &mut Handle,
    index: usize,
    buffer: &mut [u8],
    len: &mut usize,
) -> u32
    ensures same { handle.new.value ≡ handle.old.value }
    ensures nothing_held { handle.old.value ≡ None
        → (result ≡ NOTHING_HELD) × (buffer.new ≡ buffer.old) × (len.new ≡ len.old) }
    ensures answer { IfSome handle.old.value (λ re.
        IsNameAnswer re index buffer.old buffer.new len.old len.new result) }
{
    let Some(regex) = handle.take(alloc) else {
        return NOTHING_HELD;
    };
    let answer = group_name(&regex, index, buffer, len);
    handle.put(regex);
    answer
}

/// Writes the name of this group.
fn group_name(regex: &Regex, index: usize, buffer: &mut [u8], len: &mut usize) -> u32
    ensures { IsNameAnswer regex.now index buffer.old buffer.new len.old len.new result }
{
    match name_in(regex.capture_names(), index) {
        Some(Some(name)) => buffer::write(name.as_bytes(), buffer, len),
        Some(None) => NO,
        None => NO_GROUP,
    }
}

/// The name with this index.
fn name_in<'r>(mut names: CaptureNames<'r>, index: usize) -> Option<Option<&'r str>>
    ensures { option_map (option_map (λ name. name.now)) result
        ≡ slice_get (names_left names.entry) index }
{
    names.nth(index)
}

/// The index of the group with this name: 1 with the index written, or 0 if no group has it.
#[unsafe(no_mangle)]
pub extern "C" fn regex_lite_group_index(
    alloc: Global,
    handle: &mut Handle,
    name: &[u8],
    index: &mut usize,
) -> u32
    ensures same { handle.new.value ≡ handle.old.value }
    ensures nothing_held { handle.old.value ≡ None
        → (result ≡ NOTHING_HELD) × (index.new ≡ index.old) }
    ensures answer { IfSome handle.old.value (λ re.
        IsIndexAnswer re name.now index.old index.new result) }
{
    let Some(regex) = handle.take(alloc) else {
        return NOTHING_HELD;
    };
    let answer = group_index(&regex, name, index);
    handle.put(regex);
    answer
}

/// The index of this group.
fn group_index(regex: &Regex, name: &[u8], index: &mut usize) -> u32
    ensures { IsIndexAnswer regex.now name.now index.old index.new result }
{
    match index_in(regex.capture_names(), name) {
        Some(i) => {
            *index = i;
            YES
        }
        None => NO,
    }
}

/// The index of this name.
fn index_in(mut names: CaptureNames<'_>, name: &[u8]) -> Option<usize>
    ensures { result ≡ index_of (names_left names.entry) name.now }
{
    names.position(|own| is_named(own, name))
}

/// Whether these bytes are the group's name.
fn is_named(own: Option<&str>, name: &[u8]) -> bool
    ensures { result ≡ is_named name.now (option_map (λ text. text.now) own.entry) }
{
    match own {
        Some(own) => own.as_bytes() == name,
        None => false,
    }
}
