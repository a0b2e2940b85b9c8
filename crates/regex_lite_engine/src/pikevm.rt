//! The PikeVM: an NFA simulation in step with the haystack, which also finds groups.
//!
//! # What it is
//!
//! Thompson's simulation reads a haystack once, character by character, and keeps the set of NFA
//! states that some path has reached. Pike's machine gives each of these states a thread, which
//! knows where its path began and what its groups have matched. The size of the NFA bounds what a
//! character costs: m states and n characters take time O(m * n), whatever the pattern. Here an NFA
//! state is a `Place` of the graph, and a transition reads a `char`, not a byte.
//!
//! # How it works
//!
//! A step (`step`) follows the threads of a position in the order of their preference. It takes the
//! epsilon closure of each depth first: `enter` goes on along a state's first transition and pushes
//! the others onto a stack (`stack`), so nothing recurses. A state is entered once at a position,
//! by the most preferred path that comes to it, and all later paths end there. A state that reads a
//! character is tested against the next one as it is entered. If that fits, its target becomes a
//! thread of the next position, so a thread has always read its character already.
//!
//! The order of threads gives leftmost-first matching. A thread that completes a match cuts off the
//! threads behind it. Those before it go on, since what they complete is preferred. Until there is
//! a match, the patterns also start at each position, behind all of its threads: so an earlier
//! start is preferred to a later one, and at one start a lower pattern to a higher one.
//!
//! A slot is set in the row of the path that is followed. A frame on the stack restores it when the
//! branch that set it is left, and the row is copied where the path leaves a thread.
//!
//! # Memory
//!
//! All memory is requested before the first step, by four requests at most, and its size depends on
//! the pattern alone. The set of entered states (`place_set`) is one word of bits for up to 64
//! states. A larger NFA has a stamp of two bytes for each state, and the set holds those with the
//! stamp of the current generation: a step empties it by counting the generation up, and it is
//! cleared once in 65,535 steps. A `cell` holds a frame and a thread of each of the two lists, so
//! that these share a request. It takes 40 bytes for each state, 56 where threads carry the number
//! of a pattern, and 24 where only an end is wanted. Slots take two rows more for each state that
//! reads (`rows`). All of these are initialised only as far as a search comes.
//!
//! # Trade-offs and limits
//!
//! It handles every pattern, every haystack and every kind of search, and it never gives up. It is
//! also the slowest engine: a character costs a visit to each state that some thread reaches, and
//! with slots a copy of a row for each thread. Where there is neither a thread nor a match, the
//! prefilter names the next start (`pass`). Modes are type parameters, so one loop serves all: a
//! `ThreadStart` says what a thread keeps of its start, which may be nothing; EARLIEST ends a
//! search at the first position that completes a match; WHOLE lets only the haystack's end complete
//! one.
//! The states that a search tries and enters are counted, and bounds on these counts are proved.
//!
//! # Where it is used
//!
//! `strategy` in `regex_lite_meta` takes it where nothing faster fits. Anchored searches and whole
//! matches go by it (`anchored`), and it takes the steps that the lazy DFA caches. Read `step`
//! next, then `walk` and `enter`, and for the loop over positions `run`. Its invariant is
//! `IsInStep` in `specs/Pikevm/InStep.antt`.

pub mod anchored;
mod anchored_search;
pub mod best;
pub mod cache;
pub(crate) mod cell;
mod enter;
mod list_search;
pub mod memory;
mod pass;
pub mod place_set;
pub(crate) mod rows;
pub mod run;
pub(crate) mod search;
pub(crate) mod slot;
mod stack;
pub(crate) mod step;
pub mod thread_start;
mod threads;
pub(crate) mod walk;
