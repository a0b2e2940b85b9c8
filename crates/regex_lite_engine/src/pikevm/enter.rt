//! Entering a place: following its arrows.
ghost use Rattle.std.specs.Prelude.{◌≡◌, ◌+◌, ◌^◌, ◌≤◌, ◌<◌, ◌∷◌, ◌++◌, ℕ, length, map};
ghost use Rattle.std.specs.Prelude.{false, true};
ghost use Rattle.regex_lite_syntax.specs.Ranges.{in_ranges};
ghost use Rattle.regex_lite_syntax.specs.Sets.{just};
ghost use Rattle.regex_lite_engine.specs.Graph.Places.{stack_bound};
ghost use Rattle.regex_lite_engine.specs.Graph.Stored.{place_of};
ghost use Rattle.regex_lite_engine.specs.Pikevm.Entering.{completes, onto, reads};
ghost use Rattle.regex_lite_engine.specs.Pikevm.Entering.{Enters, reading_on, SlotMarked};
ghost use Rattle.regex_lite_engine.specs.Pikevm.Machine.{explore};

use crate::nfa::class::MappedClass;
use crate::nfa::place::Place;
use crate::pikevm::cell::Job;
use crate::pikevm::memory::Memory;
use crate::pikevm::slot::Slot;
use crate::pikevm::thread_start::ThreadStart;
use crate::search::here::Here;

/// How a walk continues from a place.
#[derive(Clone, Copy)]
pub enum Onward {
    /// To this place, without the stack.
    To(u32),
    /// To the next place on the stack.
    Back,
    /// It doesn't: a match is complete.
    Complete,
}

/// Returns the first place that this one leads to at this position. The other places are pushed
/// onto the stack, and a place that it leads to at the next position is added to the threads there.
/// If WHOLE, a match is complete only at the haystack's end.
// Inlined, like the functions of `Walk`, which try each place: as calls they made `is_match` by
// line up to 1.09 times as expensive.
#[inline(always)]
pub fn enter<S: ThreadStart, const WHOLE: bool>(
    place: &Place,
    here: Here,
    start: S,
    memory: &mut Memory<S>,
) -> Onward
    requires room { length memory.old.frames + (stack_bound (place_of place.now) + 1)
        ≤ length memory.old.entered }
    requires next_room { length memory.old.next < memory.old.room }
    ensures entered { Enters WHOLE here (S.reported start) place.now memory.old
        (record memory.new { frames = onto result memory.new.frames }) (completes result) }
    ensures same { memory.new ≡ record memory.old {
      row = memory.new.row;
      frames = memory.new.frames;
      next = memory.new.next;
    } }
{
    match place {
        Place::Empty { to } => return Onward::To(*to),
        Place::Char { c, to } => {
            read_on(is_read(*c, here.after), *to, start, memory);
        }
        Place::Class { to, set } => {
            read_on(is_in_set(set, here.after), *to, start, memory);
        }
        Place::Look { look, to } => {
            if look.holds(here.before, here.after) {
                return Onward::To(*to);
            }
        }
        Place::Slot { slot, to } => {
            mark(*slot, here.at, memory);
            return Onward::To(*to);
        }
        Place::Choice { first, second } => {
            memory.push(Job::Explore(*second));
            return Onward::To(*first);
        }
        Place::Branches(entries) => return branch(entries, memory),
        Place::Match => {
            if !WHOLE || here.after.is_none() {
                return Onward::Complete;
            }
        }
    }
    Onward::Back
}

/// Whether this character comes next.
fn is_read(c: char, after: Option<char>) -> bool
    ensures { result ≡ reads (just c) after }
{
    match after {
        None => false,
        Some(next) => next == c,
    }
}

/// Whether a character of the set comes next.
#[inline(always)]
fn is_in_set(set: &MappedClass, after: Option<char>) -> bool
    ensures { result ≡ reads (in_ranges set.now) after }
{
    match after {
        None => false,
        Some(next) => set.contains(next),
    }
}

/// Adds a thread at the next position, if the character is read.
fn read_on<S: ThreadStart>(reads: bool, to: u32, start: S, memory: &mut Memory<S>)
    requires { length memory.old.next < memory.old.room }
    ensures { memory.new ≡ reading_on reads memory.old (to, S.reported start, memory.old.row) }
{
    if reads {
        memory.push_next(to, start);
    }
}

/// Continues at the first of these places, and pushes the others.
fn branch<S: ThreadStart>(entries: &[u32], memory: &mut Memory<S>) -> Onward
    requires { length memory.old.frames + length entries.now ≤ length memory.old.entered }
    ensures onto { onto result memory.new.frames
        ≡ map explore entries.now ++ memory.old.frames }
    ensures open { completes result ≡ false }
    ensures same { memory.new ≡ record memory.old { frames = memory.new.frames } }
{
    match entries.split_first() {
        None => Onward::Back,
        Some((first, others)) => {
            memory.push_all(others);
            Onward::To(*first)
        }
    }
}

/// Marks the slot, if it is kept.
fn mark<S: ThreadStart>(slot: u32, at: usize, memory: &mut Memory<S>)
    requires room { length memory.old.frames < length memory.old.entered }
    requires small { at + 1 < 2 ^ 64 }
    ensures marked { (to : ℕ) → SlotMarked at slot to memory.old
        (record memory.new { frames = explore to ∷ memory.new.frames }) }
    ensures same { memory.new
        ≡ record memory.old { row = memory.new.row; frames = memory.new.frames } }
{
    let row = memory.row();
    if (slot as usize) < row.len() {
        // If the stack is empty, the content of the slot isn't needed again.
        if !memory.is_done() {
            let old = row[slot as usize];
            memory.push(Job::Restore { slot, old });
        }
        memory.put(slot, Slot::marked(at));
    }
}
