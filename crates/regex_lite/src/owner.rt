//! A value that several owners in one thread share.
//!
//! Cloning the library's `Rc` fails if its count is full. Cloning a [`Shared`] never fails: a full
//! count stays full, and the value is leaked.
//!
//! The memory follows the library's protocol for `Rc`, which leaves open how a count is stored.
//! Here a word below the maximum is the count, and the maximum says that the value is leaked. A
//! spare `Rc` for that case or a second count doesn't help, since nothing is known of what a cell
//! holds, and a wider count can be filled too. An owner takes 16 bytes, where an `Rc` takes 8, and
//! there are no weak owners. The eight functions of `counted`, `lasting` and `unboxed` touch
//! pointers, and each is proved by hand.
mod counted;
mod lasting;
mod shared;
mod unboxed;

pub(crate) use shared::Shared;
pub use unboxed::Unboxed;
