//! The engines: the graph (NFA) of a pattern, the PikeVM and the bounded backtracker. Templates are
//! parsed here too.
//!
//! [`Graph::new`] counts a tree (`count`), checks it against the limits and compiles it to an NFA:
//! numbered states (places) with ordered transitions (arrows) (`nfa`). A search counts its
//! [`Steps`] and returns an [`Outcome`]: position by position (`pikevm`), or by backtracking in
//! short haystacks (`backtrack`). `search` has what both share. `interpolate` parses a template
//! into its pieces. `laws` has theorems about the definitions alone: about matches, ways (accepting
//! paths), answers and templates.
//!
//! The modules are public for `regex_lite_meta`, which chooses an engine and adds the lazy DFA.
#![tactic(auto)]

pub mod backtrack;
mod bits;
mod count;
pub mod interpolate;
pub mod laws;
pub mod nfa;
pub mod pikevm;
pub mod search;
pub mod steps;

pub use count::measured::Measured;
pub use nfa::Graph;
pub use nfa::groups::Groups;
pub use nfa::list::GraphList;
pub use search::outcome::Outcome;
pub use steps::Steps;
