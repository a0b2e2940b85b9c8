//! The names of a tree's groups.
ghost use Rattle.std.specs.Prelude.{◌≡◌, ◌<◌, ℕ, None, IfOk, length};
ghost use Rattle.std.specs.Prelude.{map, option_map, slice_index_or};
ghost use Rattle.regex_lite_syntax.specs.Tree.Properties.{captures_len, greatest_index};
ghost use Rattle.regex_lite_syntax.specs.Tree.Properties.{greatest_index_in};
ghost use Rattle.regex_lite_syntax.specs.Tree.Properties.{group_name, group_name_in};
ghost use Rattle.regex_lite_syntax.specs.Tree.{trees as trees_of};
ghost use Rattle.regex_lite_syntax.specs.Tree.NameTables.{AddsNames, name_if_at};
ghost use Rattle.regex_lite_syntax.specs.Tree.Views.{text_of_name, tree_of};

use super::Hir;
use std::alloc::{AllocError, Global};
use std::rc::RcStr;

impl Hir {
    /// The names of the groups by index, from group 0 on. Each is shared with the tree.
    ///
    /// Condition: `len` is one more than the greatest index.
    pub fn capture_names(&self, alloc: Global, len: usize) -> Result<Vec<Option<RcStr>>, AllocError>
        requires { len ≡ captures_len (tree_of self.now) }
        ensures each_group { IfOk result (λ names. length names.items ≡ len) }
        ensures names { IfOk result (λ names. (k : ℕ)
            → slice_index_or (map (option_map text_of_name) names.items) k None
            ≡ group_name (tree_of self.now) k) }
    {
        let mut names = vec![in alloc; None; len]?;
        add_names(&mut names, self)?;
        Ok(names)
    }
}

/// Adds the names of a tree's groups to a table.
#[cycle(add)]
fn add_names(names: &mut [Option<RcStr>], hir: &Hir) -> Result<(), AllocError>
    requires { greatest_index (tree_of hir.now) < length names.old }
    ensures { IfOk result (λ _. AddsNames (group_name (tree_of hir.now)) names.old names.new) }
{
    match hir {
        Hir::Empty | Hir::Char(_) | Hir::Class(_) | Hir::Look(_) => Ok(()),
        Hir::Repetition { body, .. } => add_names(names, body),
        Hir::Capture { index, name, body } => {
            add_name(names, *index, name)?;
            add_names(names, body)
        }
        Hir::Concat(parts) | Hir::Alternation(parts) => add_all_names(names, parts),
    }
}

/// Adds the names of the groups of each tree.
#[cycle(add)]
fn add_all_names(names: &mut [Option<RcStr>], trees: &[Hir]) -> Result<(), AllocError>
    requires { greatest_index_in (trees_of (map tree_of trees.now)) < length names.old }
    ensures { IfOk result (λ _.
        AddsNames (group_name_in (trees_of (map tree_of trees.now))) names.old names.new) }
{
    for tree in trees {
        add_names(names, tree)?;
    }
    Ok(())
}

/// Adds a group's name, if it has one and the table has none for the group yet.
fn add_name(names: &mut [Option<RcStr>], index: u32, name: &Option<RcStr>) -> Result<(), AllocError>
    requires { index < length names.old }
    ensures { IfOk result (λ _.
        AddsNames (name_if_at index (option_map text_of_name name.now)) names.old names.new) }
{
    if names[index as usize].is_none() {
        names[index as usize] = name.clone()?;
    }
    Ok(())
}
