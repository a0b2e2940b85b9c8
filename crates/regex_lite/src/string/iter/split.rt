//! The pieces of a haystack between its matches.
ghost use Rattle.std.specs.Prelude.{◌≡◌, ◌↔◌, List, ℕ, IfOk, IfErr};
ghost use Rattle.regex_lite_syntax.specs.Errors.{out_of_memory};
ghost use Rattle.regex_lite.specs.Pieces.{ArePieces, ArePiecesLeft};
ghost use Rattle.regex_lite.specs.Pieces.{ArePiecesLeftN, ArePiecesWithin};

use crate::string::iter::find_iter::Matches;
use crate::string::regex::Regex;
use regex_lite_syntax::Error;
use std::iter::FusedIterator;
use std::marker::Model;

impl Regex {
    /// The pieces of the haystack between the matches of [`Regex::find_iter`], from left to right.
    ///
    /// There is always one piece more than there are matches: a match at the start or at the end of
    /// the haystack has an empty piece before or after it.
    ///
    /// ```
    /// let regex = Regex::new(alloc, " *, *")?;
    /// for field in regex.split("name , age")? {
    ///     field; // "name", then "age"
    /// }
    /// ```
    ///
    /// The test `examples::pieces` in tests/unit runs this example.
    ///
    /// # Errors
    ///
    /// `Memory` if memory runs out. The items need no memory, so they never fail.
    pub fn split<'r, 'h>(&'r self, haystack: &'h str) -> Result<Split<'r, 'h>, Error>
        ensures pieces { IfOk result (λ it. (list : List (List ℕ))
            → ArePiecesLeft it list ↔ ArePieces self.now haystack.now list) }
        ensures refused { IfErr result (λ error. error ≡ out_of_memory) }
    {
        Ok(Split {
            matches: Matches::new(self, haystack, None)?,
            is_done: false,
        })
    }

    /// The pieces of [`Regex::split`] if there are at most `limit`; otherwise the first `limit` - 1
    /// of them, and then the rest of the haystack. With a limit of 0 there are none.
    ///
    /// ```
    /// let regex = Regex::new(alloc, " ")?;
    /// for word in regex.splitn("a b c", 2)? {
    ///     word; // "a", then "b c"
    /// }
    /// ```
    ///
    /// The test `examples::first_pieces` in tests/unit runs this example.
    ///
    /// # Errors
    ///
    /// `Memory` if memory runs out. The items need no memory, so they never fail.
    pub fn splitn<'r, 'h>(
        &'r self,
        haystack: &'h str,
        limit: usize,
    ) -> Result<SplitN<'r, 'h>, Error>
        ensures pieces { IfOk result (λ it. (list : List (List ℕ))
            → ArePiecesLeftN it list ↔ ArePiecesWithin limit self.now haystack.now list) }
        ensures refused { IfErr result (λ error. error ≡ out_of_memory) }
    {
        if limit < 2 {
            return Ok(SplitN {
                pieces: Pieces::Whole((limit == 1).then_some(haystack)),
            });
        }
        let matches = Matches::new(self, haystack, Some(limit - 1))?;
        Ok(SplitN {
            pieces: Pieces::Cut(Split {
                matches,
                is_done: false,
            }),
        })
    }
}

/// An iterator over the pieces of a haystack between its matches: [`Regex::split`] returns it.
///
/// After the last piece it always returns `None`. The pieces borrow only the haystack, so they can
/// outlive the iterator and the regex.
#[derive(Debug, Drop)]
pub struct Split<'r, 'h> {
    matches: Matches<'r, 'h>,
    is_done: bool,
}

impl<'r, 'h> Model for Split<'r, 'h> {
    ghost use Rattle.regex_lite.specs.Pieces.{Cutting};

    ghost Value = { Cutting };

    ghost view = { λ it. record {
      matches = it.matches;
      is_done = it.is_done;
    } };
}

impl<'r, 'h> Iterator for Split<'r, 'h> {
    ghost use Rattle.regex_lite.specs.Pieces.{GivesPiece, most_pieces};

    type Item = &'h str;

    ghost next_gives = { GivesPiece };

    ghost remaining = { most_pieces };

    fn next(&mut self) -> Option<&'h str> {
        if self.is_done {
            return None;
        }
        let cursor = self.matches.cursor();
        let from = cursor.ended.unwrap_or(0);
        match self.matches.next() {
            Some(found) => Some(&cursor.haystack[from..found.start()]),
            None => {
                self.is_done = true;
                Some(&cursor.haystack[from..])
            }
        }
    }
}

impl<'r, 'h> FusedIterator for Split<'r, 'h> {}

/// An iterator over a limited number of pieces of a haystack: [`Regex::splitn`] returns it.
///
/// After the last piece it always returns `None`. The pieces borrow only the haystack, so they can
/// outlive the iterator and the regex.
#[derive(Debug, Drop)]
pub struct SplitN<'r, 'h> {
    pieces: Pieces<'r, 'h>,
}

impl<'r, 'h> Model for SplitN<'r, 'h> {
    ghost use Rattle.regex_lite.specs.Pieces.{CuttingN};

    ghost Value = { CuttingN };

    ghost use Rattle.regex_lite.specs.PiecesLeft.{cutting_of};

    ghost view = { λ it. cutting_of it.pieces };
}

/// The pieces that a [`SplitN`] has left.
#[derive(Debug, Drop)]
enum Pieces<'r, 'h> {
    /// The pieces between matches.
    Cut(Split<'r, 'h>),
    /// The whole haystack as the only piece, or none. It needs no search, so no memory.
    Whole(Option<&'h str>),
}

impl<'r, 'h> Iterator for SplitN<'r, 'h> {
    ghost use Rattle.regex_lite.specs.Pieces.{GivesPieceN, most_pieces_n};

    type Item = &'h str;

    ghost next_gives = { GivesPieceN };

    ghost remaining = { most_pieces_n };

    fn next(&mut self) -> Option<&'h str> {
        match &mut self.pieces {
            Pieces::Cut(split) => split.next(),
            Pieces::Whole(rest) => rest.take(),
        }
    }
}

impl<'r, 'h> FusedIterator for SplitN<'r, 'h> {}
