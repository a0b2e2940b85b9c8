//! Sets of patterns of a list that match.
ghost use Rattle.std.specs.Prelude.{◌≡◌, ◌<◌, ◌↔◌, ℕ, IfOk, IfErr, IsTrue, Some};
ghost use Rattle.std.specs.Prelude.{false, length, slice_get, slice_index_or, true};
ghost use Rattle.regex_lite_syntax.specs.Errors.{out_of_memory};

use regex_lite_syntax::Error;
use std::fmt;
use std::marker::Model;

/// The set of the patterns of a [`RegexList`](crate::RegexList) that match, by their numbers.
#[derive(Drop)]
pub struct SetMatches {
    /// By number, whether the pattern matches.
    pub(super) matched: Vec<bool>,
}

impl Model for SetMatches {
    ghost use Rattle.std.specs.Prelude.{Bool, List};

    ghost Value = { List Bool };

    ghost view = { λ set. set.matched.items };
}

impl SetMatches {
    /// The number of patterns in the list, matching or not.
    pub fn len(&self) -> usize
        ensures { result ≡ length self.now }
    {
        self.matched.len()
    }

    /// Whether the pattern with this number matches. `false` if no pattern has this number.
    pub fn matched(&self, i: usize) -> bool
        ensures { result ≡ slice_index_or self.now i false }
    {
        match self.matched.get(i) {
            Some(matched) => *matched,
            None => false,
        }
    }

    /// Whether one of the patterns matches.
    pub fn matched_any(&self) -> bool
        ensures { IsTrue result ↔ ((i : ℕ) × (slice_get self.now i ≡ Some true)) }
    {
        for matched in &self.matched {
            if *matched {
                return true;
            }
        }
        false
    }

    /// Whether each of the patterns matches. `true` for an empty list.
    pub fn matched_all(&self) -> bool
        ensures { IsTrue result
            ↔ ((i : ℕ) → i < length self.now → slice_get self.now i ≡ Some true) }
    {
        for matched in &self.matched {
            if !*matched {
                return false;
            }
        }
        true
    }

    /// An equal set in memory of its own.
    ///
    /// # Errors
    ///
    /// `Memory` if memory runs out.
    pub fn try_clone(&self) -> Result<SetMatches, Error>
        ensures ok { IfOk result (λ set. set ≡ self.now) }
        ensures refused { IfErr result (λ error. error ≡ out_of_memory) }
    {
        let matched = self.matched.clone()?;
        Ok(SetMatches { matched })
    }
}

/// Writes for each pattern, by number, whether it matches.
impl fmt::Debug for SetMatches {
    fn fmt<W: fmt::Write>(&self, f: &mut fmt::Formatter<W>) -> fmt::Result {
        f.debug_tuple("SetMatches").field(&self.matched).finish()
    }
}
