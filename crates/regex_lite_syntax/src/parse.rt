//! The parser: from a pattern to its tree.
//!
//! The parser makes one pass over the pattern, and keeps the open groups on a stack of its own:
//! however deeply groups are nested, there is no recursion. Each step reads one part: an item of a
//! branch, an operator, a `|`, the head of a group or its end, or a directive.
ghost use Rattle.std.specs.Prelude.{◌≡◌, ◌<◌, ◌≤◌, ◌^◌, ◌↔◌, ◌≢◌, ◌∷◌, [], drop};
ghost use Rattle.std.specs.Prelude.{length, chars, IsTrue, IfOk, IfErr, OnOk};
ghost use Rattle.regex_lite_syntax.specs.Errors.{kind_of};
ghost use Rattle.regex_lite_syntax.specs.Text.{Text};
ghost use Rattle.regex_lite_syntax.specs.Characters.{AreCharacters};
ghost use Rattle.regex_lite_syntax.specs.Grammar.Gaps.{EndsGap, WholeGap};
ghost use Rattle.regex_lite_syntax.specs.Limits.{IsAdmitted, IsDueToPattern, depth};
ghost use Rattle.regex_lite_syntax.specs.Tree.Regular.{IsRegular};
ghost use Rattle.regex_lite_syntax.specs.Tree.Views.{tree_of};
ghost use Rattle.regex_lite_syntax.specs.Parser.Machine.{first_state, BeginsAtom};
ghost use Rattle.regex_lite_syntax.specs.Refusals.{Refuses, NoReading, IfCutShort};
ghost use Rattle.regex_lite_syntax.specs.Parser.States.{state, Advances, CanRead, CanReadOn};
ghost use Rattle.regex_lite_syntax.specs.Parser.States.{BeginsTooMany, EndsBranch, Adds};
ghost use Rattle.regex_lite_syntax.specs.Parser.States.{Finishes, FinishesTooDeep};

mod atom;
mod bracket;
mod counted;
mod escape;
pub(crate) mod fault;
mod gap;
mod group;
mod group_names;
mod letters;
mod level;
mod name;
mod operator;
mod read;

use crate::error::{Error, SyntaxFault, UnexpectedEof};
use crate::flags::Flags;
use crate::hir::Hir;
use atom::read_atom;
use gap::skip_gap;
use group_names::GroupNames;
use level::{Level, OpenGroup};
use std::alloc::{AllocError, Global};

/// The settings under which a pattern is parsed.
#[derive(Clone, Copy, PartialEq, Eq, Debug)]
pub struct Config {
    /// The flags at its first character.
    pub flags: Flags,
    /// How deeply groups may be nested, and the tree's nodes below its root.
    pub nest_limit: u32,
}

/// The parser at a point of the pattern.
#[derive(Drop)]
pub(crate) struct Parser {
    alloc: Global,
    /// The number of groups that have been numbered.
    groups: u32,
    /// The names of groups, in order.
    names: GroupNames,
    /// The open groups, the innermost last.
    below: Vec<OpenGroup>,
    /// What has been read of the innermost open group, or of the whole pattern if none is open.
    here: Level,
}

impl Hir {
    /// The tree of a pattern.
    ///
    /// # Errors
    ///
    /// `Syntax` if the grammar gives the pattern no tree, `Nesting` if it nests too deeply,
    /// `Groups` if it has more groups than can be numbered, and `Memory` if memory runs out.
    pub fn parse(alloc: Global, config: Config, pattern: &str) -> Result<Hir, Error>
        ensures tree { IfOk result (λ hir.
            IsAdmitted config.flags config.nest_limit (chars pattern.now) (tree_of hir)) }
        ensures regular { IfOk result (λ hir. IsRegular (tree_of hir)) }
        ensures refused { IfErr result (λ error.
            IsDueToPattern config.flags config.nest_limit (chars pattern.now) (kind_of error)) }
    {
        let chars = characters(alloc, pattern)?;
        parse_chars(alloc, config, &chars)
    }
}

/// The characters of a text.
fn characters(alloc: Global, text: &str) -> Result<Vec<char>, AllocError>
    ensures { IfOk result (λ found. found.items ≡ chars text.now) }
{
    text.chars().collect(alloc)
}

/// The tree of the pattern with these characters.
// Its loop needs the registers, so it is not inlined, and what it runs for each part is.
#[inline(never)]
fn parse_chars(alloc: Global, config: Config, chars: &[char]) -> Result<Hir, Error>
    requires { AreCharacters chars.now }
    ensures tree { IfOk result (λ hir.
        IsAdmitted config.flags config.nest_limit chars.now (tree_of hir)) }
    ensures regular { IfOk result (λ hir. IsRegular (tree_of hir)) }
    ensures refused { IfErr result (λ error.
        IsDueToPattern config.flags config.nest_limit chars.now (kind_of error)) }
{
    let mut parser = Parser::new(alloc, config.flags);
    let mut at = 0;
    loop {
        let here = parser.skip_gap(chars, at);
        if here == chars.len() {
            return parser.finish(config.nest_limit);
        }
        at = parser.step(chars, here)?;
        if parser.is_deeper_than(config.nest_limit) {
            return Err(Error::nesting());
        }
    }
}

impl Parser {
    /// A parser before the first character.
    fn new(alloc: Global, flags: Flags) -> Parser
        ensures state { (pattern : Text) → state result pattern 0 ≡ first_state flags pattern }
        ensures names { result.names ≡ [] }
    {
        Parser {
            alloc,
            groups: 0,
            names: GroupNames::new(alloc),
            below: Vec::new(alloc),
            here: Level::new(alloc, flags),
        }
    }

    /// The end of the gap at the index.
    fn skip_gap(&self, chars: &[char], at: usize) -> usize
        requires { at ≤ length chars.now }
        ensures inside { (at ≤ result) × (result ≤ length chars.now) }
        ensures gap { WholeGap self.now.here.flags.ignore_whitespace
            (drop at chars.now) (drop result chars.now) }
    {
        skip_gap(chars, at, self.here.flags.ignore_whitespace)
    }

    /// The number of open groups.
    fn open_groups(&self) -> usize
        ensures { result ≡ length self.now.below.items }
    {
        self.below.len()
    }

    /// Whether more groups are open than the limit.
    fn is_deeper_than(&self, nest_limit: u32) -> bool
        ensures { IsTrue result ↔ (nest_limit < length self.now.below.items) }
    {
        self.below.len() > nest_limit as usize
    }

    /// Reads the part at the index, and the gap before it, and returns the index after it.
    #[inline(always)]
    fn step(&mut self, chars: &[char], at: usize) -> Result<usize, Error>
        requires inside { at < length chars.now }
        requires past_gap { EndsGap self.old.here.flags.ignore_whitespace (drop at chars.now) }
        requires characters { AreCharacters chars.now }
        ensures ok { IfOk result (Advances self.old self.new chars.now at) }
        ensures refused { let t = drop at chars.now in IfErr result (λ error.
            Refuses error (λ fault. NoReading fault (CanRead self.old) t) ⊥
            (BeginsTooMany self.old t)) }
        ensures completes { IfErr result (λ error.
            IfCutShort error (CanReadOn self.old (drop at chars.now))) }
    {
        match chars[at] {
            '(' => self.read_group_head(chars, at),
            ')' => self.read_group_end(chars, at),
            '|' => {
                self.end_branch()?;
                Ok(at + 1)
            }
            '?' => self.read_operator(chars, at, 0, Some(1)),
            '*' => self.read_operator(chars, at, 0, None),
            '+' => self.read_operator(chars, at, 1, None),
            '{' => self.read_counted_operator(chars, at),
            _ => self.read_item(chars, at),
        }
    }

    /// Ends the pattern: returns the tree, if no group is open and the tree is no deeper than the
    /// limit.
    fn finish(self, nest_limit: u32) -> Result<Hir, Error>
        ensures ok { IfOk result (λ hir.
            Finishes self (tree_of hir) × (nest_limit < depth (tree_of hir) → ⊥)) }
        ensures groups { self.groups < 2 ^ 32 }
        ensures refused { IfErr result (λ error. Refuses error
            (λ _. self.below.items ≢ []) (FinishesTooDeep self nest_limit) ⊥) }
    {
        if !self.below.is_empty() {
            return Err(SyntaxFault::CutShort(UnexpectedEof::Group).into());
        }
        let hir = self.here.into_tree()?;
        if hir.is_deeper_than(nest_limit) {
            return Err(Error::nesting());
        }
        Ok(hir)
    }

    /// Reads an item that isn't a group. Nothing else can be at the index.
    fn read_item(&mut self, chars: &[char], at: usize) -> Result<usize, Error>
        requires inside { at < length chars.now }
        requires past_gap { EndsGap self.old.here.flags.ignore_whitespace (drop at chars.now) }
        requires begins { BeginsAtom (drop at chars.now) }
        requires characters { AreCharacters chars.now }
        ensures ok { IfOk result (Advances self.old self.new chars.now at) }
        ensures refused { let t = drop at chars.now in IfErr result (λ error.
            Refuses error (λ fault. NoReading fault (CanRead self.old) t) ⊥
            (BeginsTooMany self.old t)) }
        ensures completes { IfErr result (λ error.
            IfCutShort error (CanReadOn self.old (drop at chars.now))) }
    {
        let (end, item) = read_atom(self.alloc, chars, at, self.here.flags)?;
        self.add(item)?;
        Ok(end)
    }

    /// Adds an item to the branch.
    fn add(&mut self, item: Hir) -> Result<(), AllocError>
        ensures { OnOk result (Adds self.old self.new (tree_of item)) }
    {
        self.here.items.push(item)?;
        Ok(())
    }

    /// Ends a branch, and begins the next.
    fn end_branch(&mut self) -> Result<(), AllocError>
        ensures { OnOk result (EndsBranch self.old self.new) }
    {
        self.here.end_branch(self.alloc)?;
        Ok(())
    }
}
