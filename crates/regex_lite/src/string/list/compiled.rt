//! The compiled form of several patterns.
use crate::string::compiled::Pattern;
use regex_lite_engine::GraphList;

/// The compiled patterns, which the clones of a list share.
#[derive(Drop)]
pub(crate) struct CompiledList {
    /// The patterns by number.
    pub(crate) patterns: Vec<Pattern>,
    pub(crate) graph: GraphList,
    /// The number of slots that a search for groups keeps.
    pub(crate) kept_slots: usize,
}
