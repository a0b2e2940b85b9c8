//! A value on the heap without its box.
ghost use Rattle.std.specs.Prelude.{◌≡◌};
ghost use Rattle.std.specs.Box.Ownership.{box_owns};

use std::alloc::Allocator;
use std::marker::Model;

/// A pointer to a value on the heap, and the right to free it. It replaces the value's box, for
/// instance while C holds the pointer.
pub struct Unboxed<T, A: Allocator> {
    /// A pointer to the value.
    pub ptr: *mut T,
    /// The allocator that frees the value's memory.
    pub alloc: A,
    /// The value.
    pub ghost value: { T },
}

impl<T, A: Allocator> Model for Unboxed<T, A> {
    ghost also_owns = { λ unboxed.
        box_owns (A.dealloc_token unboxed.alloc) T.row unboxed.ptr unboxed.value };
}

impl<T: Drop, A: Allocator> Unboxed<T, A> {
    /// The value of this box.
    pub fn of(boxed: Box<T, A>) -> Unboxed<T, A>
        ensures { result.value ≡ boxed.value }
    {
        let (ptr, alloc) = Box::into_raw_with_allocator(boxed);
        Unboxed { ptr, alloc }
    }

    /// The box again.
    pub fn into_box(self) -> Box<T, A>
        ensures { result.value ≡ self.value }
    {
        let Unboxed { ptr, alloc } = self;
        unsafe { Box::from_raw(alloc, ptr) }
    }
}
