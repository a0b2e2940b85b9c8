//! Parsing: the errors, the tree and the grammar of patterns, and prefilters.
//!
//! [`Hir::parse`] parses a pattern under the [`Flags`] of a [`Config`] and returns its tree,
//! [`Hir`], or an [`Error`]. The module `parse` has a function for each construct and keeps the
//! open groups on a stack of its own. `class` builds the character sets of a tree, `hir` has the
//! properties of a tree, and `error` the errors. `prefilter` derives from trees where matches can
//! begin. `laws` has theorems about the definitions alone.
#![tactic(auto)]

mod class;
mod error;
mod flags;
mod hir;
pub mod laws;
mod parse;
pub mod prefilter;

pub use class::{Class, ClassRange};
pub use error::{Error, ErrorKind, LimitFault, SyntaxFault, UnexpectedEof};
pub use flags::Flags;
pub use hir::Hir;
pub use hir::as_hir::AsHir;
pub use hir::look::Look;
pub use hir::outline::{Part, PartKind};
pub use hir::properties::Properties;
pub use parse::Config;
pub use parse::fault::{FaultPlace, fault_at};
