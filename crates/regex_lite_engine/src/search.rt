//! What all searches share: a position with the characters next to it, the patterns, the positions
//! that are skipped, and the outcome.
//!
//! Whether a match may begin is asked in several ways, from the widest to the narrowest. A
//! `StartFinder` is the filter of a pattern, or a list with its index. `first_start` returns the
//! first offset from one on at which a match may begin: by `first_by_needed` if each match needs
//! one of some words, and else by `first_known`, which goes by the words, the first characters or,
//! for a list, two bytes. `next_start` returns the next such offset, or none if a match may begin
//! at the position itself. For first characters `next_offset` looks for the next byte, by
//! `next_block` where a prefilter compares blocks, and by `next_stop` elsewhere. Of a single
//! position, `may_begin` judges by the characters beside it, `may_go_on` by the second character,
//! and `may_start` by the characters beside it and the words. `pass_over` returns the position
//! itself or the next one.
pub mod all_of_list;
mod first_start;
pub mod here;
pub mod list_patterns;
mod list_skip;
pub mod one_pattern;
pub mod outcome;
pub mod own_filter;
pub mod pattern_filter;
pub mod patterns;
pub mod prefix;
pub(crate) mod skip;
mod start_finder;
mod word_search;
