//! Groups and directives.
ghost use Rattle.std.specs.Prelude.{◌≡◌, ◌<◌, ◌≤◌, ◌+◌, ◌∷◌, [], true, false};
ghost use Rattle.std.specs.Prelude.{drop, length, option_map, IfOk, IfErr, OnOk};
ghost use Rattle.regex_lite_syntax.specs.Limits.{PassesGroups};
ghost use Rattle.regex_lite_syntax.specs.Text.{Text, the};
ghost use Rattle.regex_lite_syntax.specs.Grammar.Gaps.{WholeGap};
ghost use Rattle.regex_lite_syntax.specs.Grammar.GroupNames.{NameOpening};
ghost use Rattle.regex_lite_syntax.specs.Tree.Views.{text_of_name};
ghost use Rattle.regex_lite_syntax.specs.Parser.NameOpenings.{Unnamed};
ghost use Rattle.regex_lite_syntax.specs.Refusals.{Refuses, NoReading, IfCutShort};
ghost use Rattle.regex_lite_syntax.specs.Parser.States.{group_kind, Advances, CanRead, CanReadOn};
ghost use Rattle.regex_lite_syntax.specs.Parser.States.{BeginsTooMany, OpensGroup, OpensCapture};
ghost use Rattle.regex_lite_syntax.specs.Parser.States.{Closes, Directs};

use crate::error::{Error, SyntaxFault};
use crate::flags::Flags;
use crate::parse::Parser;
use crate::parse::letters::read_head;
use crate::parse::level::{GroupKind, Level, OpenGroup};
use crate::parse::name::{name_of, read_name, skip_name_opening};
use crate::parse::read::is_at;
use std::alloc::AllocError;
use std::mem;
use std::rc::RcStr;

impl Parser {
    /// Reads the head of a group, or a directive, from the `(` at the index.
    pub(crate) fn read_group_head(&mut self, chars: &[char], at: usize) -> Result<usize, Error>
        requires inside { at < length chars.now }
        requires begins { drop at chars.now ≡ the "(" ∷ drop (at + 1) chars.now }
        ensures ok { IfOk result (Advances self.old self.new chars.now at) }
        ensures refused { let t = drop at chars.now in IfErr result (λ error.
            Refuses error (λ fault. NoReading fault (CanRead self.old) t) ⊥
            (BeginsTooMany self.old t)) }
        ensures completes { IfErr result (λ error.
            IfCutShort error (CanReadOn self.old (drop at chars.now))) }
    {
        let first = self.skip_gap(chars, at + 1);
        if !is_at(chars, first, '?') {
            self.open_capture(None)?;
            return Ok(at + 1);
        }
        match skip_name_opening(chars, first) {
            Some(name) => self.read_named_head(chars, at, first, name),
            None => self.read_flags_head(chars, at, first),
        }
    }

    /// Reads the head of a named group, from the `(` at the index and the opening of a name, from
    /// `first` on.
    fn read_named_head(
        &mut self,
        chars: &[char],
        at: usize,
        first: usize,
        start: usize,
    ) -> Result<usize, Error>
        requires inside { (at < first) × (first < start) × (start ≤ length chars.now) }
        requires begins { drop at chars.now ≡ the "(" ∷ drop (at + 1) chars.now }
        requires gap { WholeGap self.old.here.flags.ignore_whitespace
            (drop (at + 1) chars.now) (drop first chars.now) }
        requires opens { NameOpening (drop first chars.now) (drop start chars.now) }
        ensures ok { IfOk result (Advances self.old self.new chars.now at) }
        ensures refused { let t = drop at chars.now in IfErr result (λ error.
            Refuses error (λ fault. NoReading fault (CanRead self.old) t) ⊥
            (BeginsTooMany self.old t)) }
        ensures completes { IfErr result (λ error.
            IfCutShort error (CanReadOn self.old (drop at chars.now))) }
    {
        let end = read_name(chars, start)?;
        let name = name_of(self.alloc, &chars[start..end - 1])?;
        if !self.names.insert(&name)? {
            return Err(SyntaxFault::DuplicateCaptureName.into());
        }
        self.open_capture(Some(name))?;
        Ok(end)
    }

    /// Reads a head with flags, from the `(` at the index and the `?` at `question`, which doesn't
    /// open a name.
    fn read_flags_head(
        &mut self,
        chars: &[char],
        at: usize,
        question: usize,
    ) -> Result<usize, Error>
        requires inside { (at < question) × (question < length chars.now) }
        requires begins { drop at chars.now ≡ the "(" ∷ drop (at + 1) chars.now }
        requires gap { WholeGap self.old.here.flags.ignore_whitespace
            (drop (at + 1) chars.now) (drop question chars.now) }
        requires question { drop question chars.now
            ≡ the "?" ∷ drop (question + 1) chars.now }
        requires unnamed { Unnamed (drop question chars.now) }
        ensures ok { IfOk result (Advances self.old self.new chars.now at) }
        ensures refused { let t = drop at chars.now in IfErr result (λ error.
            Refuses error (λ fault. NoReading fault (CanRead self.old) t) ⊥
            (BeginsTooMany self.old t)) }
        ensures completes { IfErr result (λ error.
            IfCutShort error (CanReadOn self.old (drop at chars.now))) }
    {
        if is_at(chars, question + 1, ')') {
            return Err(SyntaxFault::EmptyFlags.into());
        }
        let (end, flags) = read_head(chars, question + 1, self.here.flags)?;
        if is_at(chars, end, ')') {
            self.set_flags(flags);
            return Ok(end + 1);
        }
        self.open(GroupKind::NonCapturing, flags)?;
        Ok(end + 1)
    }

    /// Reads the end of a group, from the `)` at the index.
    pub(crate) fn read_group_end(&mut self, chars: &[char], at: usize) -> Result<usize, Error>
        requires inside { at < length chars.now }
        requires begins { drop at chars.now ≡ the ")" ∷ drop (at + 1) chars.now }
        ensures ok { IfOk result (Advances self.old self.new chars.now at) }
        ensures refused { let t = drop at chars.now in IfErr result (λ error.
            Refuses error (λ fault. NoReading fault (CanRead self.old) t) ⊥
            (BeginsTooMany self.old t)) }
        ensures completes { IfErr result (λ error.
            IfCutShort error (CanReadOn self.old (drop at chars.now))) }
    {
        if !self.close()? {
            return Err(SyntaxFault::UnopenedGroup.into());
        }
        Ok(at + 1)
    }

    /// Begins a group with the next number.
    #[inline(never)]
    fn open_capture(&mut self, name: Option<RcStr>) -> Result<(), Error>
        ensures ok { OnOk result
            (OpensCapture self.old self.new (option_map text_of_name name)) }
        ensures refused { IfErr result (λ error.
            Refuses error (λ _. ⊥) ⊥ (PassesGroups (self.old.groups + 1))) }
    {
        let Some(index) = self.groups.checked_add(1) else {
            return Err(Error::groups());
        };
        self.groups = index;
        let flags = self.here.flags;
        self.open(GroupKind::Capturing { index, name }, flags)?;
        Ok(())
    }

    /// Begins a group in which these flags hold.
    #[inline(never)]
    fn open(&mut self, kind: GroupKind, flags: Flags) -> Result<(), AllocError>
        ensures { OnOk result (OpensGroup self.old self.new (group_kind kind) flags) }
    {
        let inner = Level::new(self.alloc, flags);
        let outer = mem::replace(&mut self.here, inner);
        self.below.push(OpenGroup { kind, outer })?;
        Ok(())
    }

    /// Ends the innermost group. Returns whether there is one.
    fn close(&mut self) -> Result<bool, AllocError>
        ensures closed { IfOk result (λ found. found ≡ true → Closes self.old self.new) }
        ensures none { IfOk result (λ found. found ≡ false → self.old.below.items ≡ []) }
    {
        match self.below.pop() {
            None => Ok(false),
            Some(OpenGroup { kind, outer }) => {
                let inner = mem::replace(&mut self.here, outer);
                let body = inner.into_tree()?;
                self.here.items.push(kind.into_tree(self.alloc, body)?)?;
                Ok(true)
            }
        }
    }

    /// Sets the flags that hold from here on.
    fn set_flags(&mut self, flags: Flags)
        ensures { Directs self.old self.new flags }
    {
        self.here.flags = flags;
    }
}
