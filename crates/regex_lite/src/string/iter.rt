//! Iterators over matches, over the groups of matches, and over the pieces between matches.
pub(super) mod captures_iter;
pub(crate) mod cursor;
pub(super) mod find_iter;
pub(crate) mod finds;
pub(crate) mod group_scan;
pub(crate) mod scan;
pub(super) mod split;
