//! What is known about the groups of one pattern.
ghost use Rattle.std.specs.Prelude.{◌≡◌, ◌^◌, ◌<◌, ℕ, length, map};
ghost use Rattle.std.specs.Prelude.{option_map, slice_index_or, None, IfOk};
ghost use Rattle.regex_lite_syntax.specs.Tree.Properties.{captures_len, group_name};
ghost use Rattle.regex_lite_syntax.specs.Tree.Views.{text_of_name, tree_of};
ghost use Rattle.regex_lite_engine.specs.Graph.PlaceCounts.{whole_places};
ghost use Rattle.regex_lite_engine.specs.Graph.StoredList.{TellsGroupsOf};
ghost use Rattle.regex_lite_engine.specs.Nfa.Saturation.{AreCountsOf};

use crate::count::Counts;
use regex_lite_syntax::Hir;
use std::alloc::{AllocError, Global};
use std::marker::Model;
use std::rc::RcStr;

/// The groups of one pattern.
#[derive(Drop)]
pub struct Groups {
    /// The names by index, shared with the tree.
    capture_names: Vec<Option<RcStr>>,
    static_captures_len: Option<usize>,
}

impl Model for Groups {
    ghost use Rattle.regex_lite_engine.specs.Graph.StoredList.{StoredGroups};

    ghost Value = { StoredGroups };

    ghost view = { λ groups. record {
      capture_names = groups.capture_names.items;
      static_captures_len = groups.static_captures_len;
    } };
}

impl Groups {
    /// The groups of the tree, which has these counts.
    ///
    /// Condition: the tree's places can be numbered.
    ///
    /// # Errors
    ///
    /// If memory runs out, or a name has as many owners as can be counted.
    pub(crate) fn of(alloc: Global, hir: &Hir, counts: &Counts) -> Result<Groups, AllocError>
        requires counted { AreCountsOf (tree_of hir.now) counts.now }
        requires few { whole_places (tree_of hir.now) < 2 ^ 32 }
        ensures { IfOk result (λ groups. TellsGroupsOf (tree_of hir.now) groups) }
    {
        let capture_names = capture_names(alloc, hir, counts)?;
        Ok(Groups {
            capture_names,
            static_captures_len: counts.static_captures_len(),
        })
    }

    /// The names by index, from group 0 on.
    pub fn capture_names(&self) -> &[Option<RcStr>]
        ensures { result.now ≡ self.now.capture_names }
    {
        &self.capture_names
    }

    /// The least number of groups that take part in every match, including the whole match, if it
    /// is known.
    pub fn static_captures_len(&self) -> Option<usize>
        ensures { result ≡ self.now.static_captures_len }
    {
        self.static_captures_len
    }
}

/// The names of the groups by index. If the tree has none, it isn't traversed.
fn capture_names(
    alloc: Global,
    hir: &Hir,
    counts: &Counts,
) -> Result<Vec<Option<RcStr>>, AllocError>
    requires { AreCountsOf (tree_of hir.now) counts.now }
    ensures each_group { IfOk result (λ names.
        length names.items ≡ captures_len (tree_of hir.now)) }
    ensures names { IfOk result (λ names. (k : ℕ)
        → slice_index_or (map (option_map text_of_name) names.items) k None
        ≡ group_name (tree_of hir.now) k) }
{
    let len = counts.captures_len();
    if counts.names_size == 0 {
        let names = vec![in alloc; None; len]?;
        return Ok(names);
    }
    hir.capture_names(alloc, len)
}
