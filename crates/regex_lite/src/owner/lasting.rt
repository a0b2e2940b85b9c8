//! Owners that aren't counted.
ghost use Rattle.std.specs.Prelude.{◌≡◌};
ghost use Rattle.regex_lite.specs.Owner.Ownership.{lent_static};

use std::marker::Model;

/// A pointer to a leaked value.
///
/// It stands for a `&'static` to the value. It is a pointer since the borrow checker rejects
/// passing on a value that holds a `'static` together with other lifetimes.
#[derive(Drop)]
pub(super) struct Lasting<T> {
    ptr: *const T,
    pub ghost value: { T },
}

impl<T> Model for Lasting<T> {
    ghost also_owns = { λ lasting. lent_static T.row lasting.ptr lasting.value };

    ghost also_shares = { λ lasting _ _. lent_static T.row lasting.ptr lasting.value };
}

impl<T: 'static> Lasting<T> {
    /// An owner of the value that is borrowed for `'static`.
    pub(super) fn of(value: &'static T) -> Lasting<T>
        ensures { result.value ≡ value.now }
    {
        let ptr = &raw const *value;
        Lasting { ptr }
    }

    /// The value.
    pub(super) fn value(&self) -> &'static T
        ensures { result.now ≡ self.now.value }
    {
        unsafe { &*self.ptr }
    }
}
