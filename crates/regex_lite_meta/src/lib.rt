//! Searching a graph: the choice of the engine, and the lazy DFA.
//!
//! [`search`], [`search_any`] and [`search_shortest`] search a graph once. [`search_list`],
//! [`search_list_uncounted`] and [`search_list_any`] search the graph of several patterns once. A
//! [`GraphSearcher`] and a [`GraphListSearcher`] reuse their memory for many searches.
//! [`search_each`] and [`search_each_uncounted`] find which of several patterns match, and a
//! [`GraphSetSearcher`] does so for many haystacks. All of them use a lazy DFA (`lazy_dfa`) where
//! that pays, and otherwise the PikeVM or the bounded backtracker of `regex_lite_engine`; the
//! results are the same. A [`SlotSearcher`] finds the slots of matches that another search has
//! found. [`search_listed`] and [`search_listed_any`] search for one of several patterns, given by
//! its number.
#![tactic(auto)]

mod anchored;
mod lazy_dfa;
mod list_matches;
mod list_searcher;
mod listed;
mod once;
mod one;
mod pattern_searcher;
mod searcher;
mod set_searcher;
mod several_searcher;
mod slot_searcher;
mod slots;
mod strategy;

pub use anchored::{search_anchored, search_any_anchored};
pub use list_matches::{search_each, search_each_uncounted};
pub use list_searcher::GraphListSearcher;
pub use listed::{search_listed, search_listed_any};
pub use once::{
    search, search_any, search_list, search_list_any, search_list_uncounted, search_shortest,
};
pub use searcher::GraphSearcher;
pub use set_searcher::GraphSetSearcher;
pub use slot_searcher::SlotSearcher;
