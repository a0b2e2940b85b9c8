//! The shared owner.
ghost use Rattle.std.specs.Prelude.{◌≡◌, IfOk, IfErr};

use crate::owner::counted::{Block, Counted};
use crate::owner::lasting::Lasting;
use crate::owner::unboxed::Unboxed;
use std::alloc::{AllocError, AllocFailed, Global};
use std::marker::Model;
use std::ops::Deref;

/// A counted owner, or one that was created when the count was full.
enum Owner<T: 'static> {
    Counted(Counted<T>),
    Uncounted(Lasting<T>),
}

/// An owner of a value on the heap, whose clones own it too.
///
/// The value is dropped with its last owner. If it ever had 2^64 - 1 owners at once, it is never
/// dropped.
pub(crate) struct Shared<T: 'static> {
    alloc: Global,
    owner: Owner<T>,
}

impl<T: 'static> Model for Shared<T> {
    ghost use Rattle.regex_lite.specs.Owner.Values.{value_of};

    ghost Value = { T };

    ghost view = { λ shared. value_of shared.owner };
}

impl<T: Drop + 'static> Shared<T> {
    /// The only owner of this value. On an error the value is returned.
    pub(crate) fn new(alloc: Global, value: T) -> Result<Shared<T>, AllocFailed<T>>
        ensures ok { IfOk result (λ shared. shared ≡ value) }
        ensures refused { IfErr result (λ failed. failed.value ≡ value) }
    {
        match Box::new(alloc, Block { count: 1, value }) {
            Ok(block) => {
                let owner = Owner::Counted(Counted::first(Unboxed::of(block)));
                Ok(Shared { alloc, owner })
            }
            Err(failed) => {
                let AllocFailed { value: block } = failed;
                let Block { count: _, value } = block;
                Err(AllocFailed { value })
            }
        }
    }
}

impl<T: Drop + 'static> Drop for Shared<T> {
    #[inline(never)]
    fn drop(self) {
        let Shared { alloc, owner } = self;
        match owner {
            Owner::Counted(counted) => match counted.release(alloc) {
                Some(block) => drop(block.into_box()),
                None => {}
            },
            Owner::Uncounted(_) => {}
        }
    }
}

impl<T: 'static> Deref for Shared<T> {
    type Target = T;

    ghost deref_gives = { λ shared value. value ≡ shared };

    fn deref(&self) -> &T
        ensures { result.now ≡ self.now }
    {
        match &self.owner {
            Owner::Counted(counted) => counted.value(),
            Owner::Uncounted(lasting) => lasting.value(),
        }
    }
}

/// Another owner of the same value. It needs no memory, and never fails.
impl<T: Drop + 'static> Clone for Shared<T> {
    ghost use Rattle.std.specs.Prelude.{⊤};

    ghost is_clone = { λ old new. new ≡ old };

    ghost is_infallible = { λ _. ⊤ };

    fn clone(&self) -> Result<Shared<T>, AllocError> {
        let owner = match &self.owner {
            Owner::Counted(counted) => match counted.another() {
                Ok(other) => Owner::Counted(other),
                Err(value) => Owner::Uncounted(Lasting::of(value)),
            },
            Owner::Uncounted(lasting) => Owner::Uncounted(Lasting::of(lasting.value())),
        };
        Ok(Shared {
            alloc: self.alloc,
            owner,
        })
    }
}
