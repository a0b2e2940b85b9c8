//! Regular expressions for programs in C, and in every language that can call C.
//!
//! A caller keeps a [`Handle`](handle::Handle): one opaque pointer, initially null. Each call takes
//! a pointer to the handle, and only those that build and free change what it holds. Texts and
//! arrays belong to the caller: no call keeps a pointer to one.
//!
//! If a call returns an answer, it is one of the numbers in `answer`: 1 for yes, 0 for no, and
//! otherwise the reason for a failure. Bytes that aren't valid UTF-8, a bad offset or index, and an
//! empty handle have answers of their own, so the caller needn't check for them. The contract of
//! each call states its result in bytes, numbers and spans, in terms of the call of `regex_lite`
//! that it makes. bindings/c/regex_lite.h documents the calls for callers in C.
#![tactic(auto)]

mod about;
mod anchored;
mod answer;
mod buffer;
mod build;
mod each;
mod fault;
mod group_walk;
mod groups;
mod handle;
mod list;
mod outline;
mod place;
mod properties;
mod replace;
mod search;
mod searcher;
mod sought;
mod split;
mod text;
mod types;
mod version;
mod walk;
mod whole;
mod written;
