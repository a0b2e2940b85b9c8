//! A pointer to a value on the heap, or null.
ghost use Rattle.std.specs.Prelude.{◌≡◌, Option, None, Some, MatchOption};
ghost use Rattle.std.specs.Coded.{coded_option};

use regex_lite::Unboxed;
use std::alloc::Global;
use std::marker::Model;

/// A pointer to a value on the heap, or null.
pub(crate) struct HeapPlace<T> {
    pub(crate) ptr: *mut T,
    pub ghost value: { Option T } by { coded_option T.code },
}

impl<T> Model for HeapPlace<T> {
    ghost use Rattle.regex_lite_c.specs.Handles.{holds_of};

    ghost also_owns = { λ place. holds_of T.row place.ptr place.value };
}

impl<T> HeapPlace<T> {
    /// A null pointer.
    pub(crate) fn nothing() -> HeapPlace<T>
        ensures { result.value ≡ None }
    {
        let ptr = std::ptr::null_mut();
        HeapPlace { ptr }
    }

    /// The pointer to this value.
    pub(crate) fn of(value: Unboxed<T, Global>) -> HeapPlace<T>
        ensures { result.value ≡ Some value.value }
    {
        let Unboxed { ptr, alloc: _ } = value;
        HeapPlace { ptr }
    }

    /// The value, if there is one.
    pub(crate) fn into_unboxed(self, alloc: Global) -> Option<Unboxed<T, Global>>
        ensures { MatchOption result (self.value ≡ None) (λ value. self.value ≡ Some value.value) }
    {
        let HeapPlace { ptr } = self;
        if ptr.is_null() {
            return None;
        }
        Some(Unboxed { ptr, alloc })
    }
}
