//! The words of several patterns, which are searched for at once.
//!
//! The words stand in the order of the patterns, each beside the number of its pattern. The first
//! word that stands at the first offset where any does is of the lowest pattern that matches there,
//! so it is the list's answer, and a search needs neither memory nor the graph.
ghost use Rattle.std.specs.Prelude.{◌≡◌, ◌≤◌, ◌<◌, ◌++◌, IfOk, IfSome, IsTrue, length, map};
ghost use Rattle.std.specs.Prelude.{false, replicate};
ghost use Rattle.regex_lite_syntax.specs.Prefilter.NumberedWords.{AreWordsOfTrees};
ghost use Rattle.regex_lite_syntax.specs.Prefilter.NumberedWords.{IsNextOfPatterns};
ghost use Rattle.regex_lite_syntax.specs.Prefilter.NumberedWords.{AreGatheredFrom, HavePatterns};
ghost use Rattle.regex_lite_syntax.specs.Prefilter.NumberedWords.{TellsWhichStand};
ghost use Rattle.regex_lite_syntax.specs.Prefilter.WordLists.{all_words};
ghost use Rattle.regex_lite_syntax.specs.Prefilter.Words.{AnyStandsAt};

use crate::hir::as_hir::AsHir;
use crate::prefilter::words::spelling::read_words;
use crate::prefilter::words::word_list::WordList;
use crate::prefilter::words::{MOST, Words};
use std::alloc::{AllocError, Global};
use std::marker::Model;

/// The words of several patterns of which each is nothing but its words, in the order of the
/// patterns.
#[derive(Drop)]
pub struct ListWords {
    words: Words,
    /// The number of each word's pattern.
    owners: Vec<u32>,
}

impl Model for ListWords {
    ghost use Rattle.std.specs.Prelude.{◌≡◌, length};
    ghost use Rattle.regex_lite_syntax.specs.Prefilter.NumberedWords.{NumberedWords};

    ghost Value = { NumberedWords };

    ghost view = { λ list. record { words = list.words; owners = list.owners.items } };

    ghost invariant = { λ list. length list.owners.items ≡ length list.words };
}

impl ListWords {
    /// Those of these trees, if each is nothing but its words, and they can be looked for and that
    /// pays.
    ///
    /// # Errors
    ///
    /// If memory runs out.
    pub fn of<T: AsHir>(alloc: Global, hirs: &[T]) -> Result<Option<ListWords>, AllocError>
        ensures { IfOk result
            (λ reported. IfSome reported (AreWordsOfTrees (map T.tree hirs.now))) }
    {
        if hirs.len() > MOST {
            return Ok(None);
        }
        let Some(Gathered { list, owners }) = Gathered::of(alloc, hirs)? else {
            return Ok(None);
        };
        match Words::of_list(alloc, list)? {
            None => Ok(None),
            Some(words) => Ok(Some(ListWords { words, owners })),
        }
    }

    /// The first offset from this one on at which a word stands, and of the first word that stands
    /// there the number of its pattern, and where it starts and ends.
    ///
    /// Condition: the offset is at most the length.
    #[inline(always)]
    pub fn find_span(&self, bytes: &[u8], from: usize) -> Option<(usize, (usize, usize))>
        requires { from ≤ length bytes.now }
        ensures { IsNextOfPatterns self.now bytes.now from result }
    {
        let (at, number) = self.words.find(bytes, from)?;
        let owner = self.owners[number] as usize;
        Some((owner, (at, at + self.words.len_of(number))))
    }

    /// Whether a word stands at this offset. It may say so of a single word that doesn't.
    ///
    /// Condition: the offset is at most the length.
    #[inline(always)]
    pub fn may_stand(&self, bytes: &[u8], at: usize) -> bool
        requires { at ≤ length bytes.now }
        ensures { result ≡ false → ¬ AnyStandsAt self.now.words bytes.now at }
    {
        self.words.may_stand(bytes, at)
    }

    /// Reports for each pattern, by its number, whether a word of it stands at this offset or after
    /// it.
    ///
    /// Conditions: there is room for as many answers as there are patterns, and the offset is at
    /// most the length.
    pub fn which_stand(&self, bytes: &[u8], from: usize, reported: &mut [bool])
        requires from { from ≤ length bytes.now }
        requires patterns { HavePatterns self.now (length reported.old) }
        ensures reported { TellsWhichStand self.now bytes.now from reported.new }
        ensures length { length reported.new ≡ length reported.old }
    {
        self.words.which_stand(&self.owners, bytes, from, reported);
    }
}

/// Words that are put together, and the number of each one's pattern.
#[derive(Drop)]
struct Gathered {
    list: WordList,
    owners: Vec<u32>,
}

impl Gathered {
    /// The words of these trees, if each is nothing but its words and there is room.
    ///
    /// # Errors
    ///
    /// If memory runs out.
    fn of<T: AsHir>(alloc: Global, hirs: &[T]) -> Result<Option<Gathered>, AllocError>
        requires few { length hirs.now ≤ 10000 }
        ensures { IfOk result (λ reported. IfSome reported (λ gathered.
            AreGatheredFrom (map T.tree hirs.now) (length hirs.now) (all_words gathered.list)
            gathered.owners.items)) }
    {
        let Some(first) = hirs.first() else {
            return Ok(None);
        };
        let mut list = WordList::new(alloc);
        if !read_words(&mut list, first.as_hir())? {
            return Ok(None);
        }
        let mut owners = Vec::with_capacity(alloc, hirs.len())?;
        own(&mut owners, 0, list.len())?;
        list.reserve(hirs.len())?;
        let mut more = WordList::new(alloc);
        'trees: for number in 1..hirs.len() {
            more.clear();
            if !read_words(&mut more, hirs[number].as_hir())? {
                return Ok(None);
            }
            if !append(&mut list, &more)? {
                return Ok(None);
            }
            own(&mut owners, number as u32, more.len())?;
        }
        Ok(Some(Gathered { list, owners }))
    }
}

/// Adds these words after the others. Returns whether there was room.
///
/// # Errors
///
/// If memory runs out.
fn append(list: &mut WordList, more: &WordList) -> Result<bool, AllocError>
    ensures { IfOk result (λ added. IsTrue added
        → all_words list.new ≡ all_words list.old ++ all_words more.now) }
{
    'words: for number in 0..more.len() {
        if !list.begin_word()? {
            return Ok(false);
        }
        list.push_all(more.word(number))?;
    }
    Ok(true)
}

/// Adds the number of a pattern that has this many words.
///
/// # Errors
///
/// If memory runs out.
fn own(owners: &mut Vec<u32>, number: u32, count: usize) -> Result<(), AllocError>
    ensures { IfOk result (λ _. owners.new.items ≡ owners.old.items ++ replicate count number) }
{
    'words: for _k in 0..count {
        owners.push(number)?;
    }
    Ok(())
}
