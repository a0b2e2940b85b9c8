//! The names of the capturing groups that have been read.
//!
//! They are kept in an ordered set. So n names cost n log n, and no hostile pattern can make them
//! cost more, as it could with hashing.
ghost use Rattle.std.specs.Prelude.{◌≡◌, ◌∷◌, ◌++◌, [], Contains, IfOk, MatchBool};
ghost use Rattle.regex_lite_syntax.specs.Tree.Views.{text_of_name};

use std::alloc::{AllocError, Global};
use std::collections::BTreeSet;
use std::marker::Model;
use std::rc::RcStr;

/// The names, in order.
#[derive(Drop)]
pub(crate) struct GroupNames {
    in_order: Vec<RcStr>,
    // The same names as a set. A pattern may have many names, and each is looked up.
    known: BTreeSet<RcStr>,
}

impl Model for GroupNames {
    ghost use Rattle.std.specs.Prelude.{List};
    ghost use Rattle.regex_lite_syntax.specs.Text.{Text};
    ghost use Rattle.regex_lite_syntax.specs.Tree.Views.{names_of};
    ghost use Rattle.regex_lite_syntax.specs.Parser.KnownNames.{Knows};

    ghost Value = { List Text };

    ghost view = { λ names. names_of names.in_order.items };

    ghost invariant = { λ names. Knows names.known names.in_order.items };
}

impl GroupNames {
    /// No names.
    pub(crate) fn new(alloc: Global) -> GroupNames
        ensures { result ≡ [] }
    {
        GroupNames {
            in_order: Vec::new(alloc),
            known: BTreeSet::new(alloc),
        }
    }

    /// Adds a name after the others, unless there is such a name. Returns whether it is new.
    pub(crate) fn insert(&mut self, name: &RcStr) -> Result<bool, AllocError>
        ensures { IfOk result (λ is_new. MatchBool is_new
            ((self.new ≡ self.old ++ text_of_name name.now ∷ [])
            × (Contains self.old (text_of_name name.now) → ⊥))
            (Contains self.old (text_of_name name.now))) }
    {
        if self.known.contains(name) {
            return Ok(false);
        }
        let key = name.clone()?;
        self.in_order.push(name.clone()?)?;
        if let Err(refused) = self.known.insert(key) {
            self.in_order.pop();
            return Err(refused.into());
        }
        Ok(true)
    }
}
