//! What a search found.

/// What a search found: the span of the match, and the contents of its slots, all as offsets. Slots
/// 2k and 2k + 1 are the start and the end of group k.
#[derive(Drop)]
pub struct Outcome {
    pub start: usize,
    pub end: usize,
    pub slots: Vec<Option<usize>>,
}
