//! Entering a place: how the path continues, and what is pushed onto the stack.
ghost use Rattle.std.specs.Prelude.{◌≡◌, ◌+◌, ◌-◌, ◌≤◌, ◌++◌, false};
ghost use Rattle.std.specs.Prelude.{IsCharBoundary, chars, length, map};
ghost use Rattle.regex_lite_syntax.specs.Ranges.{in_ranges};
ghost use Rattle.regex_lite_syntax.specs.Sets.{just};
ghost use Rattle.regex_lite_syntax.specs.Text.{after, before};
ghost use Rattle.regex_lite_syntax.specs.Tree.Looks.{holds_between};
ghost use Rattle.regex_lite_engine.specs.Backtrack.Entering.{Enters, IsReadOn};
ghost use Rattle.regex_lite_engine.specs.Backtrack.Machine.{completes, explore, onto};
ghost use Rattle.regex_lite_engine.specs.Graph.Places.{stack_bound_with};
ghost use Rattle.regex_lite_engine.specs.Graph.Stored.{place_of};
ghost use Rattle.regex_lite_engine.specs.Search.Offsets.{position_at};

use crate::backtrack::frame::Frame;
use crate::backtrack::stack::Stack;
use crate::nfa::class::MappedClass;
use crate::nfa::place::Place;
use crate::search::here::{Here, next_char};
use regex_lite_syntax::Look;

/// How the path continues from a place.
#[derive(Clone, Copy)]
pub enum Continuation {
    /// To this place at this offset.
    To { place: u32, at: usize },
    /// It backtracks to what is left on the stack.
    Back,
    /// It doesn't: a match is complete.
    Complete,
}

/// Follows the first arrow of the place if it matches at this offset, and pushes the others.
#[inline(always)]
pub fn enter(place: &Place, haystack: &str, at: usize, stack: &mut Stack) -> Continuation
    requires boundary { IsCharBoundary haystack.now at }
    requires room { length stack.old.frames
        + stack_bound_with (length stack.old.row) (place_of place.now) ≤ stack.old.room }
    ensures entered { Enters (chars haystack.now) (position_at haystack.now at) at place.now
        stack.old (record stack.new { frames = onto result stack.new.frames })
        (completes result) }
    ensures room { stack.new.room ≡ stack.old.room }
{
    match place {
        Place::Empty { to } => Continuation::To { place: *to, at },
        Place::Char { c, to } => read_char(*c, *to, haystack, at),
        Place::Class { to, set } => read_class(set, *to, haystack, at),
        Place::Look { look, to } => {
            if holds_at(*look, haystack, at) {
                Continuation::To { place: *to, at }
            } else {
                Continuation::Back
            }
        }
        Place::Slot { slot, to } => {
            stack.mark(*slot, at);
            Continuation::To { place: *to, at }
        }
        Place::Choice { first, second } => {
            stack.push(Frame::Explore { place: *second, at });
            Continuation::To { place: *first, at }
        }
        Place::Branches(entries) => branch(entries, at, stack),
        Place::Match => Continuation::Complete,
    }
}

/// Whether the look holds at this offset.
// Not inlined: when inlined, its stack frame is cleared at each place.
#[inline(never)]
fn holds_at(look: Look, haystack: &str, at: usize) -> bool
    requires { IsCharBoundary haystack.now at }
    ensures { result ≡ holds_between look
        (before (chars haystack.now) (position_at haystack.now at))
        (after (chars haystack.now) (position_at haystack.now at)) }
{
    let here = Here::at(haystack, at);
    look.holds(here.before, here.after)
}

/// Reads the next character if it is this one.
#[inline(always)]
fn read_char(c: char, to: u32, haystack: &str, at: usize) -> Continuation
    requires { IsCharBoundary haystack.now at }
    ensures { IsReadOn at (just c)
        (after (chars haystack.now) (position_at haystack.now at)) to result }
{
    match next_char(haystack, at) {
        Some((next, past)) if next == c => Continuation::To {
            place: to,
            at: past,
        },
        _ => Continuation::Back,
    }
}

/// Reads the next character if it is in the set.
#[inline(always)]
fn read_class(set: &MappedClass, to: u32, haystack: &str, at: usize) -> Continuation
    requires { IsCharBoundary haystack.now at }
    ensures { IsReadOn at (in_ranges set.now)
        (after (chars haystack.now) (position_at haystack.now at)) to result }
{
    match next_char(haystack, at) {
        Some((next, past)) if set.contains(next) => Continuation::To {
            place: to,
            at: past,
        },
        _ => Continuation::Back,
    }
}

/// Continues at the first of these places, and pushes the others.
#[inline(always)]
fn branch(entries: &[u32], at: usize, stack: &mut Stack) -> Continuation
    requires { length stack.old.frames + (length entries.now - 1) ≤ stack.old.room }
    ensures onto { onto result stack.new.frames
        ≡ map (λ q. explore q at) entries.now ++ stack.old.frames }
    ensures open { completes result ≡ false }
    ensures same { stack.new ≡ record stack.old { frames = stack.new.frames } }
{
    match entries.split_first() {
        None => Continuation::Back,
        Some((first, others)) => {
            stack.push_all(others, at);
            Continuation::To { place: *first, at }
        }
    }
}
