//! Handles, which C holds: a pointer to a regex, a list of patterns or a searcher on the heap, or
//! null.
//!
//! A regex itself can't cross to C, since its clones share it. So a caller has one opaque pointer.
//! Each call takes the value out of its handle, asks it and puts it back, which is two stores, and
//! no contract speaks of a pointer. What crosses to C can't have a type parameter, nor can a field
//! of it, so each kind has a handle of its own. All of them hand their pointer to a `HeapPlace`,
//! which has one.
ghost use Rattle.std.specs.Prelude.{◌≡◌, List, Option, None, Some, MatchOption};
ghost use Rattle.std.specs.Coded.{coded_option};
ghost use Rattle.std.specs.Fn.{FnOnceReturnsAt};
ghost use Rattle.regex_lite.specs.Expression.{Expression};
ghost use Rattle.regex_lite.specs.contracts.string.list.RegexList as patterns;
ghost use Rattle.regex_lite.specs.contracts.string.regex.Regex as regex;
ghost use Rattle.regex_lite_c.specs.Searchers.{TextSearch};
ghost use Rattle.regex_lite_c.specs.contracts.searcher.TextSearcher as searcher;

use crate::place::HeapPlace;
use crate::searcher::TextSearcher;
use regex_lite::{Regex, RegexList, Unboxed};
use std::alloc::Global;
use std::marker::Model;

/// A pointer to a regex, or null.
///
/// It is a single pointer. A caller who copies it has two owners of one regex, which nothing here
/// can detect.
#[repr(C)]
#[derive(Drop)]
pub struct Handle {
    ptr: *mut u8,
    pub ghost value: { Option Expression } by { coded_option regex.the_row.coded },
}

impl Model for Handle {
    ghost use Rattle.regex_lite_c.specs.Handles.{holds};

    ghost also_owns = { λ handle. holds handle.ptr handle.value };
}

/// A pointer to a list of patterns, or null.
///
/// It is a single pointer. A caller who copies it has two owners of one list, which nothing here
/// can detect.
#[repr(C)]
#[derive(Drop)]
pub struct ListHandle {
    ptr: *mut u8,
    pub ghost value: { Option (List Expression) } by { coded_option patterns.the_row.coded },
}

impl Model for ListHandle {
    ghost use Rattle.regex_lite_c.specs.Handles.{holds_list};

    ghost also_owns = { λ handle. holds_list handle.ptr handle.value };
}

/// A pointer to a searcher with its text, or null.
///
/// It is a single pointer. A caller who copies it has two owners of one searcher, which nothing
/// here can detect.
#[repr(C)]
#[derive(Drop)]
pub struct SearcherHandle {
    ptr: *mut u8,
    pub ghost value: { Option TextSearch } by { coded_option searcher.the_row.coded },
}

impl Model for SearcherHandle {
    ghost use Rattle.regex_lite_c.specs.Handles.{holds_searcher};

    ghost also_owns = { λ handle. holds_searcher handle.ptr handle.value };
}

/// A handle of any kind. There are three types of handles, since a type that crosses to C has no
/// type parameter.
pub(crate) trait Holds: Drop {
    /// The type of the value that is held.
    type Value: Drop;

    ghost held: { Self → Option Self.Value };

    /// The handle with this pointer.
    fn from_place(place: HeapPlace<Self::Value>) -> Self
        ensures { held result ≡ place.value };

    /// The pointer to the value that is held.
    fn into_place(self) -> HeapPlace<Self::Value>
        ensures { result.value ≡ held self };

    /// Takes the value out of the handle.
    final fn take(&mut self, alloc: Global) -> Option<Box<Self::Value, Global>>
        ensures taken { MatchOption result (held self.old ≡ None)
            (λ value. held self.old ≡ Some value.value) }
        ensures nothing { held self.new ≡ None }
    {
        let old = std::mem::replace(self, Self::from_place(HeapPlace::nothing()));
        match old.into_place().into_unboxed(alloc) {
            Some(value) => Some(value.into_box()),
            None => None,
        }
    }

    /// Puts this value into the handle.
    ///
    /// Condition: the handle is empty; otherwise its value would never be freed.
    final fn put(&mut self, value: Box<Self::Value, Global>)
        requires { held self.old ≡ None }
        ensures { held self.new ≡ Some value.value }
    {
        *self = Self::from_place(HeapPlace::of(Unboxed::of(value)));
    }
}

/// The result of `say` for the value that is held, or `absent` if the handle is empty.
// Calls that write to the caller's memory take the value and put it back themselves: a contract
// can't state that what a closure borrows is unchanged if the closure isn't called.
pub(crate) fn ask<H: Holds, R: Drop, F: FnOnce(&H::Value) -> R>(
    alloc: Global,
    handle: &mut H,
    absent: R,
    say: F,
) -> R
    requires { F.IsAlwaysCallable say }
    ensures same { H.held handle.new ≡ H.held handle.old }
    ensures said { MatchOption (H.held handle.old) (result ≡ absent)
        (λ value. FnOnceReturnsAt F.FnOnce say value result) }
{
    let Some(value) = handle.take(alloc) else {
        return absent;
    };
    let said = say(&*value);
    handle.put(value);
    said
}

impl Holds for Handle {
    type Value = Regex;

    ghost held = { λ handle. handle.value };

    fn from_place(place: HeapPlace<Regex>) -> Handle
        ensures { result.value ≡ place.value }
    {
        let HeapPlace { ptr } = place;
        let ptr = ptr as *mut u8;
        Handle { ptr }
    }

    fn into_place(self) -> HeapPlace<Regex>
        ensures { result.value ≡ self.value }
    {
        let Handle { ptr } = self;
        let ptr = ptr as *mut Regex;
        HeapPlace { ptr }
    }
}

impl Holds for ListHandle {
    type Value = RegexList;

    ghost held = { λ handle. handle.value };

    fn from_place(place: HeapPlace<RegexList>) -> ListHandle
        ensures { result.value ≡ place.value }
    {
        let HeapPlace { ptr } = place;
        let ptr = ptr as *mut u8;
        ListHandle { ptr }
    }

    fn into_place(self) -> HeapPlace<RegexList>
        ensures { result.value ≡ self.value }
    {
        let ListHandle { ptr } = self;
        let ptr = ptr as *mut RegexList;
        HeapPlace { ptr }
    }
}

impl Holds for SearcherHandle {
    type Value = TextSearcher;

    ghost held = { λ handle. handle.value };

    fn from_place(place: HeapPlace<TextSearcher>) -> SearcherHandle
        ensures { result.value ≡ place.value }
    {
        let HeapPlace { ptr } = place;
        let ptr = ptr as *mut u8;
        SearcherHandle { ptr }
    }

    fn into_place(self) -> HeapPlace<TextSearcher>
        ensures { result.value ≡ self.value }
    {
        let SearcherHandle { ptr } = self;
        let ptr = ptr as *mut TextSearcher;
        HeapPlace { ptr }
    }
}
