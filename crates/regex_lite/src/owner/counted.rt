//! Counted owners.
ghost use Rattle.std.specs.Prelude.{◌≡◌, IfSome, MatchResult};
ghost use Rattle.regex_lite.specs.Owner.Ownership.{owner_owns, owner_shares};

use crate::owner::unboxed::Unboxed;
use std::alloc::Global;
use std::marker::Model;

/// What the owners of a value share: their count and the value.
///
/// A count that has reached 2^64 - 1 stays there.
#[derive(Drop)]
pub(super) struct Block<T> {
    pub(super) count: usize,
    pub(super) value: T,
}

/// One of the owners that a block counts.
pub(super) struct Counted<T> {
    ptr: *const Block<T>,
    pub ghost value: { T },
}

impl<T> Model for Counted<T> {
    ghost also_owns = { λ owner. owner_owns T.row owner.ptr owner.value };

    ghost also_shares = { λ owner _ κ. owner_shares T.row owner.ptr owner.value κ };
}

impl<T> Counted<T> {
    /// The first owner of a block.
    pub(super) fn first(block: Unboxed<Block<T>, Global>) -> Counted<T>
        requires { block.value.count ≡ 1 }
        ensures { result.value ≡ block.value.value }
    {
        let Unboxed { ptr, alloc: _ } = block;
        Counted { ptr }
    }

    /// Another owner. If the count is full, or becomes full, the value is leaked and borrowed for
    /// `'static`.
    pub(super) fn another(&self) -> Result<Counted<T>, &'static T>
    where
        T: 'static,
        ensures { MatchResult result
            (λ owner. owner.value ≡ self.now.value) (λ value. value.now ≡ self.now.value) }
    {
        let ptr = self.ptr.cast_mut();
        unsafe {
            let count = (*ptr).count;
            if count >= usize::MAX - 1 {
                (*ptr).count = usize::MAX;
                return Err(&(*ptr).value);
            }
            (*ptr).count = count + 1;
        }
        Ok(Counted { ptr })
    }

    /// The value.
    pub(super) fn value(&self) -> &T
        ensures { result.now ≡ self.now.value }
    {
        unsafe { &(*self.ptr).value }
    }

    /// Gives up one ownership. The last owner gets the block back, unless the value is leaked.
    pub(super) fn release(self, alloc: Global) -> Option<Unboxed<Block<T>, Global>>
        ensures { IfSome result (λ block. block.value.value ≡ self.value) }
    {
        let Counted { ptr } = self;
        let ptr = ptr.cast_mut();
        unsafe {
            let count = (*ptr).count;
            if count == usize::MAX {
                return None;
            }
            if count != 1 {
                (*ptr).count = count - 1;
                return None;
            }
        }
        Some(Unboxed { ptr, alloc })
    }
}
