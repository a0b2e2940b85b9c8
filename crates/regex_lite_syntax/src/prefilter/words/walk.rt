//! The words with which the matches of a tree begin, found by one walk over it.
ghost use Rattle.std.specs.Prelude.{◌≡◌, ◌≤◌, ◌++◌, ◌∷◌, [], Bool, IfOk, IfSome, false};
ghost use Rattle.std.specs.Prelude.{length, map, take, true};
ghost use Rattle.regex_lite_syntax.specs.Tree.{alternation, concat, repetition, trees};
ghost use Rattle.regex_lite_syntax.specs.Tree.Views.{tree_of};
ghost use Rattle.regex_lite_syntax.specs.Prefilter.WordLists.{all_words};
ghost use Rattle.regex_lite_syntax.specs.Prefilter.WordWalk.{GrowsBy};
ghost use Rattle.regex_lite_syntax.specs.Prefilter.Words.{AreWordsOfTree};

use crate::hir::Hir;
use crate::prefilter::words::SHORTEST;
use crate::prefilter::words::letter::Letter;
use crate::prefilter::words::spelling::{LONGEST, read_row, spell};
use crate::prefilter::words::word_list::WordList;
use std::alloc::{AllocError, Global};

/// What has as many letters rules out enough, so that what branches after it isn't looked at. Then
/// a pattern has no more letters than this for each of its branches. Nor are more passes.
const LONG: usize = 16;

/// The words with which the parts begin over which the walk has gone.
#[derive(Drop)]
pub(crate) struct WordWalk {
    words: WordList,
    /// Whether the last word is all that was read. If not, letters are no longer added to it.
    is_open: bool,
    /// How many letters of the last word come from passes after an operator's first.
    repeats: usize,
}

impl WordWalk {
    /// The words with which the matches of the tree begin. None if there are too many, or if one
    /// would be too short. The list is that to which they are added.
    ///
    /// Condition: the list has no letters yet.
    ///
    /// # Errors
    ///
    /// If memory runs out.
    pub(super) fn of(
        alloc: Global,
        words: WordList,
        hir: &Hir,
    ) -> Result<Option<WordList>, AllocError>
        requires done { words.done ≡ [] }
        requires last { words.last ≡ [] }
        ensures { IfOk result (λ reported. IfSome reported
            (λ words. AreWordsOfTree (tree_of hir.now) (all_words words))) }
    {
        let mut walk = WordWalk {
            words,
            is_open: true,
            repeats: 0,
        };
        if !walk.extend(alloc, hir)? || !walk.close() {
            return Ok(None);
        }
        let WordWalk { words, .. } = walk;
        Ok(Some(words))
    }

    /// Goes over the tree. Returns whether there may be words: not if one would be too short.
    ///
    /// # Errors
    ///
    /// If memory runs out.
    #[cycle(extend)]
    fn extend(&mut self, alloc: Global, hir: &Hir) -> Result<bool, AllocError>
        ensures { IfOk result (λ may. may ≡ true → GrowsBy (tree_of hir.now) self.old self.new) }
    {
        match hir {
            Hir::Empty | Hir::Look(_) => Ok(true),
            Hir::Char(_) | Hir::Class(_) => self.extend_by_leaf(hir),
            Hir::Repetition {
                least,
                most,
                body,
                ..
            } => self.extend_by_passes(alloc, *least, *most, body),
            Hir::Capture { body, .. } => self.extend(alloc, body),
            Hir::Concat(parts) => self.extend_by_parts(alloc, parts),
            Hir::Alternation(branches) => self.extend_by_branches(alloc, branches),
        }
    }

    /// Goes over these parts in a row.
    ///
    /// # Errors
    ///
    /// If memory runs out.
    #[cycle(extend)]
    fn extend_by_parts(&mut self, alloc: Global, parts: &[Hir]) -> Result<bool, AllocError>
        ensures { IfOk result (λ may. may ≡ true
            → GrowsBy (concat (trees (map tree_of parts.now))) self.old self.new) }
    {
        let read = self.extend_by_row(parts)?;
        'parts: for k in read..parts.len() {
            if !self.is_open {
                return Ok(true);
            }
            if !self.extend(alloc, &parts[k])? {
                return Ok(false);
            }
        }
        Ok(true)
    }

    /// Goes over as many passes of the tree as there are at least, up to a number of them, as long
    /// as each adds letters to one word. Behind them letters are added if there are never more.
    ///
    /// # Errors
    ///
    /// If memory runs out.
    #[cycle(extend)]
    fn extend_by_passes(
        &mut self,
        alloc: Global,
        least: u32,
        most: Option<u32>,
        body: &Hir,
    ) -> Result<bool, AllocError>
        ensures { IfOk result (λ may. may ≡ true → (greedy : Bool)
            → GrowsBy (repetition least most greedy (tree_of body.now)) self.old self.new) }
    {
        let passes = least.min(LONG as u32);
        'passes: for pass in 0..passes {
            let (len, repeats) = (self.words.last().len(), self.repeats);
            if !self.extend(alloc, body)? {
                return Ok(false);
            }
            let added = self.words.last().len().saturating_sub(len);
            let again = repeats.saturating_add(added);
            self.repeats = if pass == 0 { self.repeats } else { again };
            // What adds nothing in one pass adds nothing in others.
            if !self.is_open || added == 0 {
                return Ok(self.close());
            }
        }
        if most == Some(passes) {
            return Ok(true);
        }
        Ok(self.close())
    }

    /// Goes over these branches: each makes a word at least, which begins with the last one.
    ///
    /// # Errors
    ///
    /// If memory runs out.
    #[cycle(extend)]
    fn extend_by_branches(&mut self, alloc: Global, branches: &[Hir]) -> Result<bool, AllocError>
        ensures { IfOk result (λ may. may ≡ true
            → GrowsBy (alternation (trees (map tree_of branches.now))) self.old self.new) }
    {
        if !self.is_open {
            return Ok(true);
        }
        if self.words.last().len() >= LONG {
            return Ok(self.close());
        }
        self.words.reserve(branches.len())?;
        let mut stem = Vec::new(alloc);
        stem.extend_from_slice(self.words.last())?;
        let repeats = self.repeats;
        let mut is_first = true;
        for branch in branches {
            if !is_first && !self.begin_again(&stem, repeats)? {
                return Ok(false);
            }
            is_first = false;
            if !self.extend(alloc, branch)? || !self.close() {
                return Ok(false);
            }
        }
        Ok(true)
    }

    /// Adds a word that begins with these letters, which are all that was read, and of which so
    /// many come from repeated passes. Returns whether there was room.
    ///
    /// # Errors
    ///
    /// If memory runs out.
    fn begin_again(&mut self, stem: &[Letter], repeats: usize) -> Result<bool, AllocError>
        ensures { IfOk result (λ begun. begun ≡ true → self.new ≡ record {
          words = record {
            done = self.old.words.done ++ self.old.words.last ∷ [];
            last = stem.now;
          };
          is_open = true;
          repeats = repeats;
        }) }
    {
        if !self.words.begin_word()? {
            return Ok(false);
        }
        self.is_open = true;
        self.repeats = repeats;
        self.words.push_all(stem)?;
        Ok(true)
    }

    /// Goes over a character, or a character of a set.
    ///
    /// # Errors
    ///
    /// If memory runs out.
    fn extend_by_leaf(&mut self, hir: &Hir) -> Result<bool, AllocError>
        ensures { IfOk result (λ may. may ≡ true → GrowsBy (tree_of hir.now) self.old self.new) }
    {
        if !self.is_open {
            return Ok(true);
        }
        if !spell(&mut self.words, hir)? {
            return Ok(self.close());
        }
        self.close_if_long();
        Ok(true)
    }

    /// Goes over the parts with which these begin that are characters, or letters in any case.
    /// Returns how many these are, as far as they are read.
    ///
    /// # Errors
    ///
    /// If memory runs out.
    fn extend_by_row(&mut self, parts: &[Hir]) -> Result<usize, AllocError>
        ensures inside { IfOk result (λ read. read ≤ length parts.now) }
        ensures grown { IfOk result
            (λ read.
            GrowsBy (concat (trees (map tree_of (take read parts.now)))) self.old self.new) }
    {
        if !self.is_open {
            return Ok(0);
        }
        let read = read_row(&mut self.words, parts)?;
        self.close_if_long();
        Ok(read)
    }

    /// Adds no more letters to the last word, if it is long.
    fn close_if_long(&mut self)
        ensures { self.new.words ≡ self.old.words }
    {
        if self.words.last().len() >= LONGEST {
            self.is_open = false;
        }
    }

    /// Adds no more letters to the last word. Returns whether it isn't too short, where letters of
    /// passes after the first don't count: where nothing but these makes a word longer, a word that
    /// each match needs rules out more.
    fn close(&mut self) -> bool
        ensures { self.new ≡ record self.old { is_open = false } }
    {
        self.is_open = false;
        self.words.last().len().saturating_sub(self.repeats) >= SHORTEST
    }
}
