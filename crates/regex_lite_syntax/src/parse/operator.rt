//! Operators.
ghost use Rattle.std.specs.Prelude.{◌≡◌, ◌<◌, ◌+◌, ◌∷◌, [], ℕ, Some};
ghost use Rattle.std.specs.Prelude.{drop, length, IfOk, IfErr, OnOk};
ghost use Rattle.regex_lite_syntax.specs.Errors.{kind_of};
ghost use Rattle.regex_lite_syntax.specs.Text.{the};
ghost use Rattle.regex_lite_syntax.specs.Tree.{repeated};
ghost use Rattle.regex_lite_syntax.specs.Grammar.Operators.{times, greed};
ghost use Rattle.regex_lite_syntax.specs.Tree.Views.{tree_of};
ghost use Rattle.regex_lite_syntax.specs.Refusals.{Refuses, NoReading, IfCutShort};
ghost use Rattle.regex_lite_syntax.specs.Parser.States.{Advances, CanRead, BeginsTooMany, Adds};
ghost use Rattle.regex_lite_syntax.specs.Parser.States.{CanReadOn};

use crate::error::{Error, SyntaxFault};
use crate::hir::Hir;
use crate::parse::Parser;
use crate::parse::counted::{Times, read_counted};
use crate::parse::read::is_at;
use std::alloc::AllocError;

impl Parser {
    /// Reads an operator of one character, with these times, from the index on.
    pub(crate) fn read_operator(
        &mut self,
        chars: &[char],
        at: usize,
        least: u32,
        most: Option<u32>,
    ) -> Result<usize, Error>
        requires inside { at < length chars.now }
        requires bounded { (c : ℕ) → drop at chars.now ≡ c ∷ drop (at + 1) chars.now →
            times c ≡ Some (least, most) }
        ensures ok { IfOk result (Advances self.old self.new chars.now at) }
        ensures refused { let t = drop at chars.now in IfErr result (λ error.
            Refuses error (λ fault. NoReading fault (CanRead self.old) t) ⊥
            (BeginsTooMany self.old t)) }
        ensures completes { IfErr result (λ error.
            IfCutShort error (CanReadOn self.old (drop at chars.now))) }
    {
        let Some(item) = self.here.items.pop() else {
            return Err(SyntaxFault::UncountedRepetitionSubMissing.into());
        };
        let lazy = is_at(chars, at + 1, '?');
        self.add_repeated(item, Times { least, most }, lazy)?;
        Ok(if lazy { at + 2 } else { at + 1 })
    }

    /// Reads a counted operator, from the `{` at the index.
    pub(crate) fn read_counted_operator(
        &mut self,
        chars: &[char],
        at: usize,
    ) -> Result<usize, Error>
        requires inside { at < length chars.now }
        requires begins { drop at chars.now ≡ the "{" ∷ drop (at + 1) chars.now }
        ensures ok { IfOk result (Advances self.old self.new chars.now at) }
        ensures refused { let t = drop at chars.now in IfErr result (λ error.
            Refuses error (λ fault. NoReading fault (CanRead self.old) t) ⊥
            (BeginsTooMany self.old t)) }
        ensures completes { IfErr result (λ error.
            IfCutShort error (CanReadOn self.old (drop at chars.now))) }
    {
        let Some(item) = self.here.items.pop() else {
            return Err(SyntaxFault::CountedRepetitionSubMissing.into());
        };
        let (end, times) = read_counted(chars, at + 1, self.here.flags.ignore_whitespace)?;
        let past_gap = self.skip_gap(chars, end);
        let lazy = is_at(chars, past_gap, '?');
        self.add_repeated(item, times, lazy)?;
        Ok(if lazy { past_gap + 1 } else { end })
    }

    /// Adds the item, repeated this number of times.
    fn add_repeated(&mut self, item: Hir, times: Times, lazy: bool) -> Result<(), AllocError>
        ensures { OnOk result (Adds self.old self.new (repeated times.least times.most
            (greed self.old.here.flags lazy) (tree_of item))) }
    {
        let greedy = lazy == self.here.flags.swap_greed;
        let Times { least, most } = times;
        self.add(Hir::repetition(self.alloc, least, most, greedy, item)?)
    }
}
