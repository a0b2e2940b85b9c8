//! The cost of a search.
ghost use Rattle.std.specs.Prelude.{◌≡◌, ◌+◌, ◌-◌, ◌<◌, ◌^◌, min, if◌then◌else◌};

use std::marker::Model;

/// The cost of a search, as counts of its steps.
#[derive(Clone, Copy, PartialEq, Eq, Debug)]
pub struct Steps {
    tried: u128,
    entered: u128,
    looked: u128,
}

impl Model for Steps {
    ghost use Rattle.regex_lite_engine.specs.Search.Bounds.{StepCounts};

    ghost Value = { StepCounts };

    ghost view = { λ steps. record {
      tried = steps.tried;
      entered = steps.entered;
      looked = steps.looked;
    } };

    ghost inverse = { λ counts. record {
      tried = counts.tried;
      entered = counts.entered;
      looked = counts.looked;
    } };
}

impl Steps {
    /// The total cost of two searches. A sum that overflows saturates.
    pub fn plus(&self, other: &Steps) -> Steps
        ensures tried { result.tried ≡ min (self.now.tried + other.now.tried) (2 ^ 128 - 1) }
        ensures entered { result.entered
            ≡ min (self.now.entered + other.now.entered) (2 ^ 128 - 1) }
        ensures looked { result.looked ≡ min (self.now.looked + other.now.looked) (2 ^ 128 - 1) }
    {
        Steps {
            tried: self.tried.saturating_add(other.tried),
            entered: self.entered.saturating_add(other.entered),
            looked: self.looked.saturating_add(other.looked),
        }
    }

    /// Counts that the search tries a place.
    pub(crate) fn count_try(&mut self)
        requires { self.old.tried + 1 < 2 ^ 128 }
        ensures { self.new ≡ record self.old { tried = self.old.tried + 1 } }
    {
        self.tried += 1;
    }

    /// Counts that the search tries a place, if COUNTED.
    #[inline(always)]
    pub(crate) fn count_try_if<const COUNTED: bool>(&mut self)
        requires { self.old.tried + 1 < 2 ^ 128 }
        ensures { self.new
            ≡ if COUNTED then record self.old { tried = self.old.tried + 1 } else self.old }
    {
        if COUNTED {
            self.count_try();
        }
    }

    /// Counts that the search enters a place.
    pub(crate) fn count_entry(&mut self)
        requires { self.old.entered + 1 < 2 ^ 128 }
        ensures { self.new ≡ record self.old { entered = self.old.entered + 1 } }
    {
        self.entered += 1;
    }

    /// Counts that the search looks a place up.
    pub(crate) fn count_look(&mut self)
        requires { self.old.looked + 1 < 2 ^ 128 }
        ensures { self.new ≡ record self.old { looked = self.old.looked + 1 } }
    {
        self.looked += 1;
    }

    /// The number of places (NFA states) that the search tried: how often it reached one by an
    /// arrow or as a start.
    pub fn tried(&self) -> u128
        ensures { result ≡ self.now.tried }
    {
        self.tried
    }

    /// The number of places that the search entered, each at most once per position.
    pub fn entered(&self) -> u128
        ensures { result ≡ self.now.entered }
    {
        self.entered
    }

    /// The number of places that the search looked up in the graph.
    pub fn looked(&self) -> u128
        ensures { result ≡ self.now.looked }
    {
        self.looked
    }
}

/// The cost of a search that has done nothing yet. It is no associated function of [`Steps`], since
/// users see that type.
pub fn no_steps() -> Steps
    ensures tried { result.tried ≡ 0 }
    ensures entered { result.entered ≡ 0 }
    ensures looked { result.looked ≡ 0 }
{
    Steps {
        tried: 0,
        entered: 0,
        looked: 0,
    }
}
