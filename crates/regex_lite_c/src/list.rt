//! Lists of patterns that are searched for in one pass.

mod anchored;
mod build;
mod group_walk;
mod groups;
mod listed;
mod patterns;
mod properties;
mod search;
mod sought;
pub(crate) mod types;
mod walk;
mod which;
mod whole;
