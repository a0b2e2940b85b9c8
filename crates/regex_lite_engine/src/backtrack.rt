//! The bounded backtracker: a depth-first search that enters no pair of a state and an offset
//! twice.
//!
//! # What it is
//!
//! A backtracking matcher follows one path through the NFA as far as it leads, then returns to the
//! transition that it deferred last. If it keeps no record of its failures, that can take
//! exponential time. This one marks each pair of an NFA state (a `Place` of the graph) and an
//! offset that it enters, like the BitState engine of RE2. Such a pair would fail again, so a path
//! that comes back to it ends there. Time and memory are linear in the number of pairs.
//!
//! # How it works
//!
//! From a start, `walk` enters the state at which the pattern begins. `enter` goes on along the
//! first transition of a state, if it fits there, and pushes a frame for each other one. Preferred
//! paths are tried first, so the first match that is complete is the most preferred one of its
//! start, and the search is over. Where a path fails, the last frame is popped. If none is left, no
//! match starts there, and `run` goes on to the next start that the prefilter admits. The marks are
//! kept from start to start: what an earlier one has entered leads to no match.
//!
//! There is one row of slots, that of the current path. Setting a slot pushes a frame that undoes
//! it, so the row is right whenever a path is resumed, and nothing is copied. Pairs have offsets
//! and not positions, since a path knows its offset and would otherwise have to count characters.
//! Those of offsets inside a character are never used.
//!
//! # Memory
//!
//! All memory is requested before the first step. `visited` has a bit for each pair: up to 2,048
//! bits lie in the value itself, and more in a vector with capacity for all, which is initialised
//! only as far as the search comes. The stack has capacity for all frames that the pairs can leave,
//! of 16 bytes each: at each offset one for each transition of a state after its first, and with
//! slots one for each state that sets a slot. So `find` needs no stack for a pattern without a
//! choice.
//!
//! A `ShortSearcher` keeps its memory from search to search, and has a byte for each pair in place
//! of a bit: its generation, the number of the search that entered it last. So nothing is cleared
//! between searches but once in 255, and a byte takes no shifts and masks. It counts no steps.
//!
//! # Trade-offs and limits
//!
//! It visits what one path needs, where the PikeVM visits what all threads need, and slots cost it
//! next to nothing. But its memory grows with the haystack. So a caller decides by the number of
//! pairs, which is `places * (bytes + 1)`, before it begins, and it never gives up on the way. A
//! single search may go depth first up to 262,144 pairs, whose bits take 32 KB. Bytes decide though
//! there may be fewer characters, since each search in a loop of `find_at` would count those of all
//! that is left. It finds the most preferred match of one pattern, with its groups: earliest ends,
//! lists of patterns, anchored searches and whole matches are left to the PikeVM.
//!
//! # Where it is used
//!
//! `strategy` in `regex_lite_meta` takes it for `find` and `captures` in short haystacks, and
//! `slots` there, with a `ShortSearcher`, for the groups of a match whose span is known. Read
//! `walk` next, then `enter` and `visited`. Its invariant is `IsDepthFirst` in
//! `specs/Backtrack/DepthFirst.antt`.

mod enter;
mod frame;
mod run;
mod search;
pub mod short;
mod stack;
mod visited;
mod walk;
