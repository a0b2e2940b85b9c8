//! A searcher for which of several patterns match, which reuses its memory.
ghost use Rattle.std.specs.Prelude.{◌≡◌, ◌<◌, ◌⊎◌, List, IfOk, IfSome, IsCharBoundary, chars};
ghost use Rattle.std.specs.Prelude.{length};
ghost use Rattle.regex_lite_syntax.specs.Tree.{Tree};
ghost use Rattle.regex_lite_engine.specs.Graph.SideBySide.{AreRegularPatterns};
ghost use Rattle.regex_lite_engine.specs.Graph.StoredList.{IsGraphOfList};
ghost use Rattle.regex_lite_engine.specs.Search.AnswerOfList.{TellsWhich};
ghost use Rattle.regex_lite_engine.specs.Search.Offsets.{search_start};
ghost use Rattle.regex_lite_meta.specs.ListMatches.{IsReadyFor};
ghost use Rattle.regex_lite_meta.specs.ListPass.{IsPassOf};

use crate::list_matches::{Kept, ListPass, search_all};
use crate::strategy::pays_in_one_pass;
use regex_lite_engine::nfa::list::GraphList;
use std::alloc::{AllocError, Global};
use std::marker::Model;

/// The graph of several patterns, and the memory of the searches for each of them.
#[derive(Drop)]
pub struct GraphSetSearcher<'g> {
    graph: &'g GraphList,
    /// The memory of searches for single patterns. An empty list needs none.
    kept: Option<Kept>,
    /// The memory of a pass for all patterns, where a pass pays.
    pass: Option<ListPass<'g>>,
}

impl<'g> Model for GraphSetSearcher<'g> {
    ghost use Rattle.regex_lite_engine.specs.Graph.StoredList.{StoredList};
    ghost use Rattle.std.specs.Prelude.{IfSome};
    ghost use Rattle.regex_lite_meta.specs.ListMatches.{IsReadyFor};
    ghost use Rattle.regex_lite_meta.specs.ListPass.{IsPassOf};

    ghost Value = { StoredList };

    ghost view = { λ searcher. searcher.graph.now };

    ghost invariant = { λ searcher. IsReadyFor searcher.graph.now searcher.kept
        × IfSome searcher.pass (IsPassOf searcher.graph.now) };
}

impl<'g> GraphSetSearcher<'g> {
    /// A searcher of this graph. It allocates all memory that its searches need.
    ///
    /// # Errors
    ///
    /// If memory runs out.
    pub fn new(alloc: Global, graph: &'g GraphList) -> Result<GraphSetSearcher<'g>, AllocError>
        ensures { IfOk result (λ searcher. searcher ≡ graph.now) }
    {
        let kept = memory_for(alloc, graph)?;
        let pass = pass_for(alloc, graph)?;
        Ok(GraphSetSearcher { graph, kept, pass })
    }

    /// Writes for each pattern, by its number, whether it matches from a position at or after this
    /// offset. For long haystacks it requests memory for a lazy DFA, and does without if there is
    /// none; the results are the same.
    ///
    /// Conditions: `matched` has an element for each pattern, and the start is above the haystack's
    /// length or on a character boundary.
    pub fn search(&mut self, haystack: &str, start: usize, matched: &mut [bool])
        requires all { length matched.old ≡ length self.old.entries }
        requires start { (length haystack.now < start) ⊎ IsCharBoundary haystack.now start }
        ensures found { (trees : List Tree) → AreRegularPatterns trees
            → IsGraphOfList trees self.old → TellsWhich trees (chars haystack.now)
            (search_start haystack.now start) matched.new }
        ensures length { length matched.new ≡ length matched.old }
        ensures same { self.new ≡ self.old }
    {
        matched.fill(false);
        if start > haystack.len() {
            return;
        }
        if let Some(words) = self.graph.words() {
            words.which_stand(haystack.as_bytes(), start, matched);
            return;
        }
        let Some(kept) = &mut self.kept else {
            return;
        };
        // This never fails, since all memory that it needs was allocated before.
        match &mut self.pass {
            Some(pass) => {
                let _ = pass.search(self.graph, kept, haystack, start, matched);
            }
            None => {
                let _ = search_all(self.graph, kept, haystack, start, matched);
            }
        }
    }
}

/// The memory of searches for the patterns of this list, if it has any.
///
/// # Errors
///
/// If memory runs out.
fn memory_for(alloc: Global, list: &GraphList) -> Result<Option<Kept>, AllocError>
    ensures { IfOk result (IsReadyFor list.now) }
{
    if list.len() == 0 {
        return Ok(None);
    }
    let kept = Kept::ready(alloc, list)?;
    Ok(Some(kept))
}

/// The memory of passes for all patterns of the list, where they pay.
///
/// # Errors
///
/// If memory runs out.
fn pass_for<'g>(alloc: Global, list: &'g GraphList) -> Result<Option<ListPass<'g>>, AllocError>
    ensures { IfOk result (λ pass. IfSome pass (IsPassOf list.now)) }
{
    if !pays_in_one_pass(list) {
        return Ok(None);
    }
    let pass = ListPass::new(alloc, list)?;
    Ok(Some(pass))
}
