//! A regex that a searcher borrows from a caller or owns.
//!
//! The searchers of `regex_lite_meta` don't hold their graph, and each of their calls is given it
//! under the condition that they were made for it: a struct can't borrow from itself, so a searcher
//! with a borrowed graph could not own its regex. What holds both keeps that condition as its
//! invariant, and no caller owes it. A searcher that always held a clone would need no such choice.
//! But then each list of matches would count one more owner, and the lifetime in its type would
//! stand for nothing.
ghost use Rattle.std.specs.Prelude.{◌≡◌, IfOk};
ghost use Rattle.regex_lite.specs.Compiled.{IsBuilt, SharesGroups};

use crate::owner::Shared;
use crate::string::compiled::Compiled;
use crate::string::regex::Regex;
use crate::string::source::Source;
use regex_lite_engine::Graph;
use std::alloc::{AllocError, Global};
use std::marker::Model;

/// Whether a searcher borrows or owns the compiled pattern.
enum Held<'r> {
    Lent(&'r Shared<Compiled>),
    Own(Shared<Compiled>),
}

/// The parts of a regex, which a searcher holds as long as it lives.
#[derive(Drop)]
pub(super) struct HeldRegex<'r> {
    alloc: Global,
    compiled: Held<'r>,
}

/// Written by hand, so that dropping a searcher is one call in a proof, not two paths.
impl<'r> Drop for Held<'r> {
    fn drop(self) {
        match self {
            Held::Lent(_) => {}
            Held::Own(compiled) => drop(compiled),
        }
    }
}

impl<'r> Model for HeldRegex<'r> {
    ghost use Rattle.regex_lite.specs.declared.string.compiled.Compiled.{Compiled};

    ghost Value = { Compiled };

    ghost use Rattle.regex_lite.specs.Compiled.{IsBuilt};
    ghost use Rattle.regex_lite.specs.Holding.{held_by};

    ghost view = { λ held. held_by held.compiled };

    ghost invariant = { λ held. IsBuilt (held_by held.compiled) };
}

impl HeldRegex<'static> {
    /// Holds a regex that the searcher owns.
    pub fn own(regex: Regex) -> HeldRegex<'static>
        ensures { result.pattern ≡ regex }
    {
        let Regex { alloc, compiled } = regex;
        HeldRegex {
            alloc,
            compiled: Held::Own(compiled),
        }
    }
}

impl<'r> HeldRegex<'r> {
    /// Holds a regex that the searcher borrows.
    pub fn lent(regex: &'r Regex) -> HeldRegex<'r>
        ensures { result.pattern ≡ regex.now }
    {
        HeldRegex {
            alloc: regex.alloc,
            compiled: Held::Lent(&regex.compiled),
        }
    }

    /// The allocator for the searches.
    pub fn alloc(&self) -> Global {
        self.alloc
    }

    /// The owner of the compiled pattern.
    fn owner(&self) -> &Shared<Compiled>
        ensures same { result.now ≡ self.now }
        ensures built { IsBuilt self.now }
    {
        match &self.compiled {
            Held::Lent(compiled) => compiled,
            Held::Own(compiled) => compiled,
        }
    }

    /// The compiled pattern.
    pub fn compiled(&self) -> &Compiled
        ensures { result.now ≡ self.now }
    {
        self.owner()
    }

    /// The graph (the NFA) to search.
    pub fn graph(&self) -> &Graph
        ensures same { result.now ≡ self.now.graph }
        ensures built { IsBuilt self.now }
    {
        &self.owner().graph
    }

    /// The source of the names of the groups.
    pub fn source(&self) -> Result<Source, AllocError>
        ensures { IfOk result (SharesGroups self.now.pattern) }
    {
        Ok(Source::of_regex(self.owner().clone()?))
    }
}

impl<'r> Clone for HeldRegex<'r> {
    ghost use Rattle.std.specs.Prelude.{◌≡◌, ⊤};

    ghost is_clone = { λ old new. new ≡ old };

    ghost is_infallible = { λ _. ⊤ };

    /// The same regex, borrowed or shared. It needs no memory, and never fails.
    fn clone(&self) -> Result<HeldRegex<'r>, AllocError> {
        let compiled = match &self.compiled {
            Held::Lent(compiled) => Held::Lent(compiled),
            Held::Own(compiled) => Held::Own(compiled.clone()?),
        };
        Ok(HeldRegex {
            alloc: self.alloc,
            compiled,
        })
    }
}
