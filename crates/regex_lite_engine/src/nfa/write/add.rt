//! Adding single places.
ghost use Rattle.std.specs.Prelude.{◌≡◌, ◌<◌, ◌+◌, ◌*◌, ◌^◌, [], ◌∷◌, ◌++◌, length, map};
ghost use Rattle.std.specs.Prelude.{slice_set, IfOk};
ghost use Rattle.regex_lite_engine.specs.Graph.Places.{choice, go, go_holding, go_marking};
ghost use Rattle.regex_lite_engine.specs.Graph.Places.{one_char, one_of, with_arrows};
ghost use Rattle.regex_lite_engine.specs.Graph.Stored.{place_of};

use super::Writer;
use crate::nfa::class::MappedClass;
use crate::nfa::place::Place;
use regex_lite_syntax::{Class, Look};
use std::alloc::AllocError;
use std::rc::Rc;

impl Writer {
    /// Adds a place, and returns its number.
    pub(super) fn add(&mut self, place: Place) -> Result<u32, AllocError>
        requires { length self.old + 1 < 2 ^ 32 }
        ensures number { IfOk result (λ number. number ≡ length self.old) }
        ensures added { IfOk result (λ _. self.new ≡ self.old ++ place ∷ []) }
    {
        let number = self.places.len() as u32;
        self.places.push(place)?;
        Ok(number)
    }

    /// Adds a place that continues without a condition, and returns its number.
    pub(super) fn add_empty(&mut self, exit: u32) -> Result<u32, AllocError>
        requires { length self.old + 1 < 2 ^ 32 }
        ensures number { IfOk result (λ number. number ≡ length self.old) }
        ensures added { IfOk result (λ _. map place_of self.new ≡ map place_of self.old
            ++ with_arrows (go exit ∷ []) ∷ []) }
        ensures grown { IfOk result (λ _. length self.new ≡ length self.old + 1) }
    {
        self.add(Place::Empty { to: exit })
    }

    /// Adds the place that reads the character, and returns its number.
    pub(super) fn add_char(&mut self, c: char, exit: u32) -> Result<u32, AllocError>
        requires { length self.old + 1 < 2 ^ 32 }
        ensures number { IfOk result (λ number. number ≡ length self.old) }
        ensures added { IfOk result (λ _. map place_of self.new ≡ map place_of self.old
            ++ one_char c exit ∷ []) }
        ensures grown { IfOk result (λ _. length self.new ≡ length self.old + 1) }
    {
        self.add(Place::Char { c, to: exit })
    }

    /// Adds the place that reads a character of the class, and returns its number.
    pub(super) fn add_class(&mut self, class: &Rc<Class>, exit: u32) -> Result<u32, AllocError>
        requires { length self.old + 1 < 2 ^ 32 }
        ensures number { IfOk result (λ number. number ≡ length self.old) }
        ensures added { IfOk result (λ _. map place_of self.new ≡ map place_of self.old
            ++ one_of class.now.value exit ∷ []) }
        ensures grown { IfOk result (λ _. length self.new ≡ length self.old + 1) }
    {
        let set = MappedClass::new(class)?;
        self.add(Place::Class { set, to: exit })
    }

    /// Adds the place where the look has to hold, and returns its number.
    pub(super) fn add_look(&mut self, look: Look, exit: u32) -> Result<u32, AllocError>
        requires { length self.old + 1 < 2 ^ 32 }
        ensures number { IfOk result (λ number. number ≡ length self.old) }
        ensures added { IfOk result (λ _. map place_of self.new ≡ map place_of self.old
            ++ with_arrows (go_holding look exit ∷ []) ∷ []) }
        ensures grown { IfOk result (λ _. length self.new ≡ length self.old + 1) }
    {
        self.add(Place::Look { look, to: exit })
    }

    /// Adds a choice between the body of a repetition and the other place, and returns its number.
    pub(super) fn add_choice(
        &mut self,
        greedy: bool,
        body: u32,
        other: u32,
    ) -> Result<u32, AllocError>
        requires { length self.old + 1 < 2 ^ 32 }
        ensures number { IfOk result (λ number. number ≡ length self.old) }
        ensures added { IfOk result (λ _. map place_of self.new ≡ map place_of self.old
            ++ choice greedy body other ∷ []) }
        ensures grown { IfOk result (λ _. length self.new ≡ length self.old + 1) }
    {
        self.add(choice_of(greedy, body, other))
    }

    /// Sets the place with this number to such a choice.
    pub(super) fn put_choice(&mut self, number: u32, greedy: bool, body: u32, other: u32)
        requires { number < length self.old }
        ensures put { map place_of self.new
            ≡ slice_set (map place_of self.old) number (choice greedy body other) }
        ensures length { length self.new ≡ length self.old }
    {
        self.places[number as usize] = choice_of(greedy, body, other);
    }

    /// Adds the place at which the group ends, and returns its number.
    pub(super) fn close_group(&mut self, index: u32, exit: u32) -> Result<u32, AllocError>
        requires room { length self.old + 1 < 2 ^ 32 }
        requires slot { index < 2 ^ 31 }
        ensures number { IfOk result (λ number. number ≡ length self.old) }
        ensures added { IfOk result (λ _. map place_of self.new ≡ map place_of self.old
            ++ with_arrows (go_marking (2 * index + 1) exit ∷ []) ∷ []) }
        ensures grown { IfOk result (λ _. length self.new ≡ length self.old + 1) }
    {
        self.add(Place::Slot {
            slot: 2 * index + 1,
            to: exit,
        })
    }

    /// Adds the place at which the group begins, and returns its number.
    pub(super) fn open_group(&mut self, index: u32, body: u32) -> Result<u32, AllocError>
        requires room { length self.old + 1 < 2 ^ 32 }
        requires slot { index < 2 ^ 31 }
        ensures number { IfOk result (λ number. number ≡ length self.old) }
        ensures added { IfOk result (λ _. map place_of self.new ≡ map place_of self.old
            ++ with_arrows (go_marking (2 * index) body ∷ []) ∷ []) }
        ensures grown { IfOk result (λ _. length self.new ≡ length self.old + 1) }
    {
        self.add(Place::Slot {
            slot: 2 * index,
            to: body,
        })
    }
}

/// A choice between the body of a repetition and the other place.
fn choice_of(greedy: bool, body: u32, other: u32) -> Place
    ensures { place_of result ≡ choice greedy body other }
{
    if greedy {
        Place::Choice {
            first: body,
            second: other,
        }
    } else {
        Place::Choice {
            first: other,
            second: body,
        }
    }
}
