//! A lazy DFA: it caches the steps of the PikeVM as transitions, and builds its states on demand.
//!
//! # What it is
//!
//! The threads of a PikeVM at a position are all that a search goes on with. A DFA state stands for
//! such a list of threads, and a transition by a character for a whole step. A pattern may have too
//! many states to build them all, so this DFA is built as searches go, like those of RE2 and
//! regex-automata: the PikeVM takes a step once, and later searches look it up.
//!
//! # How it works
//!
//! A state (`state`) has its NFA states (places of the graph) in the order of preference, each with
//! the number of its pattern; whether there is a match, and whether the last step completed one;
//! and, if the pattern has looks, what these see of the character before. The epsilon closure is a
//! part of the step and not of the state. It is taken when the next character is known, so looks
//! ahead need nothing of their own. A step also starts all patterns while there is no match, so it
//! is the same wherever it is taken. Characters, not bytes, are mapped to classes that no state of
//! the NFA distinguishes (`classes`), and the end of the haystack is one more class. A transition
//! takes four bytes (`NextState`): where the row of its state begins, the number of that state, and
//! a `TransitionKind`, which says whether the transition is special.
//!
//! A search begins in a cached start state, one for each look-behind context, and follows
//! transitions by offset and row alone (`onward`). `scan` handles special ones, and asks the
//! prefilter at the start state. Where a transition isn't cached, the PikeVM goes on (`find`), and
//! `determinize` looks up the state that it comes to by a hash (`lookup`), or adds it.
//!
//! # Where a match starts
//!
//! No reverse scan finds it. Each NFA state of a DFA state has a bit instead: whether its thread
//! began at the first start, which is the last offset without a thread, or a later one at which the
//! most preferred thread began. A match of such a thread starts there. A scan stops where another
//! thread completes a match, and where a transition isn't cached. The PikeVM then goes on from the
//! NFA states of that DFA state, if all began at the first start. If not, it goes over what lies
//! behind the last offset without a thread once more, or, in a pattern without a loop, over as many
//! characters as a match can have (`reach`). Slots are not tracked: where they are wanted, this
//! finds the span, and `slots` the groups in it.
//!
//! # Trade-offs and limits
//!
//! Following a cached transition takes some instructions and counts as no step. To build one costs
//! more than a step of the PikeVM, so this pays in long haystacks and in searchers that are kept.
//! There are at most 256 states, 7,168 transitions, and 2,176 NFA states in all of them
//! (`capacity`), which take some 64 KB, and 127 classes: a pattern with more has no lazy DFA. All
//! memory is requested when it is made, and where that is refused, searches go without it.
//!
//! A full cache is never reset. It keeps what it has, and the PikeVM takes all other steps. The
//! lazy DFA of several patterns is dropped if, over 8 KB, more than one transition in 32 bytes
//! doesn't fit: its steps start every pattern, where the index of the list starts few.
//!
//! # Where it is used
//!
//! `strategy` takes it from 1,000 bytes on for one pattern, and from 4,096 for several, where slots
//! are wanted, or where a prefilter finds the starts anyway. A searcher that callers keep has no
//! such minimum. A one-off search (`single`) first takes 64 steps of the PikeVM. Read `state` and
//! `automaton` next, then `find` and `onward`.

pub(crate) mod automaton;
mod begin;
pub(crate) mod boundaries;
mod build;
mod capacity;
pub(crate) mod classes;
pub(crate) mod cursor;
pub(crate) mod determinize;
pub(crate) mod find;
pub(crate) mod list_spans;
pub(crate) mod lookup;
mod onward;
mod part;
pub(crate) mod reach;
pub(crate) mod run;
pub(crate) mod scan;
pub(crate) mod single;
pub(crate) mod skip;
pub(crate) mod spans;
pub(crate) mod start_states;
pub(crate) mod state;
