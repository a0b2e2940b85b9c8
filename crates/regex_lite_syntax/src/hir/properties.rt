//! Properties of a tree: whether it can match the empty text, the greatest index of its groups, and
//! how many groups take part in every match.
ghost use Rattle.std.specs.Prelude.{◌≡◌, ℕ, Bool, Option, map, option_map};
ghost use Rattle.regex_lite_syntax.specs.Text.{Text};
ghost use Rattle.regex_lite_syntax.specs.Tree.{Tree, Trees, repetition, capture, concat};
ghost use Rattle.regex_lite_syntax.specs.Tree.{alternation, none, more, trees as trees_of};
ghost use Rattle.regex_lite_syntax.specs.Tree.Views.{tree_of};
ghost use Rattle.regex_lite_syntax.specs.Tree.Properties.{nullable, all_nullable, any_nullable};
ghost use Rattle.regex_lite_syntax.specs.Tree.Properties.{sum, common, in_passes, in_32_bits};
ghost use Rattle.regex_lite_syntax.specs.Tree.Properties.{ArePropertiesOf};

use super::Hir;

/// Properties of a tree. They are computed from the properties of its parts, so any walk over the
/// tree can compute them along the way.
#[derive(Clone, Copy, Debug)]
pub struct Properties {
    /// Whether the tree may match without reading a character.
    pub nullable: bool,
    /// The greatest index of a group, or 0 if there is none.
    pub greatest_index: u32,
    /// The least number of groups that take part in every match, if it is known and fits 32 bits.
    pub static_groups: Option<u32>,
}

impl Properties {
    /// The properties of a concatenation with this first part and the rest.
    pub fn then(self, rest: Properties) -> Properties
        ensures { (first : Tree) (parts : Trees)
            → ArePropertiesOf first self → ArePropertiesOf (concat parts) rest
            → ArePropertiesOf (concat (more first parts)) result }
    {
        Properties {
            nullable: self.nullable && rest.nullable,
            greatest_index: self.greatest_index.max(rest.greatest_index),
            static_groups: sum(self.static_groups, rest.static_groups),
        }
    }

    /// The properties of alternatives with only this branch.
    pub fn alone(self) -> Properties
        ensures { (branch : Tree) → ArePropertiesOf branch self
            → ArePropertiesOf (alternation (more branch none)) result }
    {
        self
    }

    /// The properties of alternatives with this branch before the others.
    pub fn or(self, others: Properties) -> Properties
        ensures { (branch next : Tree) (rest : Trees)
            → ArePropertiesOf branch self
            → ArePropertiesOf (alternation (more next rest)) others
            → ArePropertiesOf (alternation (more branch (more next rest))) result }
    {
        Properties {
            nullable: self.nullable || others.nullable,
            greatest_index: self.greatest_index.max(others.greatest_index),
            static_groups: common(self.static_groups, others.static_groups),
        }
    }

    /// The properties of a group around this tree.
    pub fn captured(self, index: u32) -> Properties
        ensures { (name : Option Text) (body : Tree) → ArePropertiesOf body self
            → ArePropertiesOf (capture index name body) result }
    {
        Properties {
            greatest_index: self.greatest_index.max(index),
            static_groups: sum(Some(1), self.static_groups),
            ..self
        }
    }

    /// The properties of a repetition of this tree with at least `least` passes.
    pub fn repeated(self, least: u32) -> Properties
        ensures { (most : Option ℕ) (greedy : Bool) (body : Tree) → ArePropertiesOf body self
            → ArePropertiesOf (repetition least most greedy body) result }
    {
        Properties {
            nullable: least == 0 || self.nullable,
            static_groups: in_passes(least, self.static_groups),
            ..self
        }
    }
}

/// The sum, if both are known.
fn sum(a: Option<u32>, b: Option<u32>) -> Option<u32>
    ensures { (n m : Option ℕ) → a ≡ in_32_bits n → b ≡ in_32_bits m
        → result ≡ in_32_bits (sum n m) }
{
    a?.checked_add(b?)
}

/// The common number, if there is one.
fn common(a: Option<u32>, b: Option<u32>) -> Option<u32>
    ensures { (n m : Option ℕ) → a ≡ in_32_bits n → b ≡ in_32_bits m
        → result ≡ in_32_bits (common n m) }
{
    if a == b { a } else { None }
}

/// The number of groups that take part in at least `least` passes. If none is required each group
/// may be skipped, so the number is known only if there is no group.
fn in_passes(least: u32, groups: Option<u32>) -> Option<u32>
    ensures { (n : Option ℕ) → groups ≡ in_32_bits n → result ≡ in_32_bits (in_passes least n) }
{
    if least > 0 || groups == Some(0) {
        groups
    } else {
        None
    }
}

impl Hir {
    /// Whether the tree can match without reading a character.
    #[cycle(nullable)]
    pub fn is_nullable(&self) -> bool
        ensures { result ≡ nullable (tree_of self.now) }
    {
        match self {
            Hir::Empty | Hir::Look(_) => true,
            Hir::Char(_) | Hir::Class(_) => false,
            Hir::Repetition { least, body, .. } => *least == 0 || body.is_nullable(),
            Hir::Capture { body, .. } => body.is_nullable(),
            Hir::Concat(parts) => are_all_nullable(parts),
            Hir::Alternation(branches) => is_any_nullable(branches),
        }
    }
}

/// Whether each of the trees can match without reading a character.
#[cycle(nullable)]
fn are_all_nullable(trees: &[Hir]) -> bool
    ensures { result ≡ all_nullable (trees_of (map tree_of trees.now)) }
{
    for tree in trees {
        if !tree.is_nullable() {
            return false;
        }
    }
    true
}

/// Whether one of the trees can match without reading a character.
#[cycle(nullable)]
fn is_any_nullable(trees: &[Hir]) -> bool
    ensures { result ≡ any_nullable (trees_of (map tree_of trees.now)) }
{
    for tree in trees {
        if tree.is_nullable() {
            return true;
        }
    }
    false
}
