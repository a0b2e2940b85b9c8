//! A scan over the matches in a haystack.
ghost use Rattle.std.specs.Prelude.{◌≡◌, ◌<◌, Some, None, IfSome};
ghost use Rattle.std.specs.Prelude.{IsCharBoundary, chars, length, unwrap_or};
ghost use Rattle.regex_lite_engine.specs.Search.Offsets.{search_start};
ghost use Rattle.regex_lite.specs.Ahead.{most_ahead};
ghost use Rattle.regex_lite.specs.Answers.{AreLawful, IsAnswerWhereEmpty};
ghost use Rattle.regex_lite.specs.Answers.{IsEmptyAnswerFrom, TellsOfAnswer};
ghost use Rattle.regex_lite.specs.Items.{GivesNext};
ghost use Rattle.regex_lite.specs.NextMatch.{IsNextOffset, TellsNextMatch};
ghost use Rattle.regex_lite.specs.Scanning.{IsAfterAnswer, IsMatchWithSlots};
ghost use Rattle.regex_lite.specs.Searches.{CanStartAt};

use crate::string::iter::cursor::Cursor;
use crate::string::iter::finds::Finds;
use crate::string::matches::Match;
use std::fmt;
use std::marker::Model;

/// A finder of matches, and its position in the haystack.
#[derive(Drop)]
pub(crate) struct Scan<'h, F: Finds + Drop> {
    finder: F,
    cursor: Cursor<'h>,
}

impl<'h, F: Finds + Drop> Model for Scan<'h, F> {
    ghost use Rattle.std.specs.Prelude.{◌≢◌, Some, chars};
    ghost use Rattle.regex_lite.specs.Scanning.{IsAfterAnswer, Scanning};

    ghost Value = { Scanning F };

    ghost view = { λ scan. record {
      finder = scan.finder;
      haystack = scan.cursor.haystack.now;
      limit = scan.cursor.limit;
      ended = scan.cursor.ended;
    } };

    // Needed only until the limit is reached.
    ghost invariant = { λ scan. scan.cursor.limit ≢ Some 0 → IsAfterAnswer F.found_of
        (F.IsAnswer (F.sought scan.finder) (chars scan.cursor.haystack.now)) scan.cursor };
}

impl<'h, F: Finds + Drop> Scan<'h, F> {
    /// A scan from the start of the haystack. With a limit, it returns at most that many matches.
    pub fn new(finder: F, haystack: &'h str, limit: Option<usize>) -> Scan<'h, F>
        ensures finder { result.finder ≡ finder }
        ensures haystack { result.haystack ≡ haystack.now }
        ensures limit { result.limit ≡ limit }
        ensures ended { result.ended ≡ None }
    {
        Scan {
            finder,
            cursor: Cursor::start(haystack, limit),
        }
    }

    /// A scan that continues after a match that ended at this offset, without a limit.
    pub fn after(finder: F, haystack: &'h str, ended: Option<usize>) -> Scan<'h, F>
        requires { IsCharBoundary haystack.now (unwrap_or ended 0) }
        ensures finder { result.finder ≡ finder }
        ensures haystack { result.haystack ≡ haystack.now }
        ensures limit { result.limit ≡ None }
        ensures ended { result.ended ≡ ended }
    {
        Scan {
            finder,
            cursor: Cursor::after(haystack, ended),
        }
    }

    /// The finder of the matches.
    pub fn finder(&self) -> &F
        ensures { result.now ≡ self.now.finder }
    {
        &self.finder
    }

    /// The scan's position.
    pub fn cursor(&self) -> Cursor<'h>
        ensures haystack { result.haystack.now ≡ self.now.haystack }
        ensures ended { result.ended ≡ self.now.ended }
    {
        self.cursor
    }

    /// The next match, if there is one, with the number of its pattern. The finder keeps its slots.
    pub fn next(&mut self) -> Option<(F::Number, Match<'h>)>
        ensures steps { GivesNext F.sought F.slots F.found_of F.number_of F.IsAnswer
            self.old result self.new }
        ensures fewer { IfSome result (λ _. most_ahead self.new < most_ahead self.old) }
        ensures lawful { IfSome result (λ _. AreLawful F.found_of (chars self.old.haystack)
            (F.IsAnswer (F.sought self.old.finder) (chars self.old.haystack))) }
        ensures sought { F.sought self.new.finder ≡ F.sought self.old.finder }
        ensures slots { length (F.slots self.new.finder) ≡ length (F.slots self.old.finder) }
    {
        if self.cursor.is_over() {
            return None;
        }
        match next_match(&mut self.finder, self.cursor) {
            Some((number, found)) => {
                self.cursor = self.cursor.pass(&found);
                Some((number, found))
            }
            None => {
                self.cursor = self.cursor.at_end();
                None
            }
        }
    }

    /// Returns to an earlier position, with no more matches.
    pub fn stop_at(&mut self, cursor: Cursor<'h>)
        requires { cursor.haystack.now ≡ self.old.haystack }
        ensures finder { self.new.finder ≡ self.old.finder }
        ensures haystack { self.new.haystack ≡ self.old.haystack }
        ensures ended { self.new.ended ≡ cursor.entry.ended }
        ensures limit { self.new.limit ≡ Some 0 }
    {
        self.cursor = cursor.at_end();
    }
}

impl<'h, F: Finds + fmt::Debug + Drop> Scan<'h, F> {
    /// Writes its parts as those of an iterator with this name. It has no clause: no contract says
    /// what a `Debug` writes, so nothing is known of the text of a part.
    pub fn fmt_as<W: fmt::Write>(&self, name: &str, f: &mut fmt::Formatter<W>) -> fmt::Result {
        f.debug_struct(name)
            .field("searcher", &self.finder)
            .field("cursor", &self.cursor)
            .finish()
    }
}

/// The match after the last one, or the first.
fn next_match<'h, F: Finds>(finder: &mut F, cursor: Cursor<'h>) -> Option<(F::Number, Match<'h>)>
    requires { IsAfterAnswer F.found_of
        (F.IsAnswer (F.sought finder.old) (chars cursor.haystack.now)) cursor }
    ensures next { TellsNextMatch F.found_of F.number_of
        (F.IsAnswer (F.sought finder.old) (chars cursor.entry.haystack.now))
        cursor.entry.haystack.now cursor.entry.ended (F.slots finder.new) result }
    ensures empty { IsAnswerWhereEmpty F.found_of
        (F.IsAnswer (F.sought finder.old) (chars cursor.entry.haystack.now))
        cursor.entry.haystack.now result }
    ensures lawful { AreLawful F.found_of (chars cursor.entry.haystack.now)
        (F.IsAnswer (F.sought finder.old) (chars cursor.entry.haystack.now)) }
    ensures sought { F.sought finder.new ≡ F.sought finder.old }
    ensures slots { length (F.slots finder.new) ≡ length (F.slots finder.old) }
{
    let Some(end) = cursor.ended else {
        return first_match(finder, cursor.haystack);
    };
    // A search from the end of an empty match would find that match again.
    if cursor.was_empty {
        match_after_empty(finder, cursor.haystack, end)
    } else {
        match_after(finder, cursor.haystack, end)
    }
}

/// The first match.
fn first_match<'h, F: Finds>(finder: &mut F, haystack: &'h str) -> Option<(F::Number, Match<'h>)>
    ensures next { TellsNextMatch F.found_of F.number_of
        (F.IsAnswer (F.sought finder.old) (chars haystack.now)) haystack.now None
        (F.slots finder.new) result }
    ensures empty { IsAnswerWhereEmpty F.found_of
        (F.IsAnswer (F.sought finder.old) (chars haystack.now)) haystack.now result }
    ensures lawful { AreLawful F.found_of (chars haystack.now)
        (F.IsAnswer (F.sought finder.old) (chars haystack.now)) }
    ensures sought { F.sought finder.new ≡ F.sought finder.old }
    ensures slots { length (F.slots finder.new) ≡ length (F.slots finder.old) }
{
    match_at(finder, haystack, 0)
}

/// The match after one that ended at this offset, whichever pattern that was of.
fn match_after<'h, F: Finds>(
    finder: &mut F,
    haystack: &'h str,
    end: usize,
) -> Option<(F::Number, Match<'h>)>
    requires { IsCharBoundary haystack.now end }
    ensures next { TellsNextMatch F.found_of F.number_of
        (F.IsAnswer (F.sought finder.old) (chars haystack.now)) haystack.now (Some end)
        (F.slots finder.new) result }
    ensures empty { IsAnswerWhereEmpty F.found_of
        (F.IsAnswer (F.sought finder.old) (chars haystack.now)) haystack.now result }
    ensures lawful { AreLawful F.found_of (chars haystack.now)
        (F.IsAnswer (F.sought finder.old) (chars haystack.now)) }
    ensures sought { F.sought finder.new ≡ F.sought finder.old }
    ensures slots { length (F.slots finder.new) ≡ length (F.slots finder.old) }
{
    let found = match_at(finder, haystack, end)?;
    // A match from here on that ends no later is empty and lies here.
    if found.1.end() > end {
        return Some(found);
    }
    match_after_empty(finder, haystack, end)
}

/// The match after an empty one at this offset: the first from the next character on.
fn match_after_empty<'h, F: Finds>(
    finder: &mut F,
    haystack: &'h str,
    at: usize,
) -> Option<(F::Number, Match<'h>)>
    requires boundary { IsCharBoundary haystack.now at }
    requires empty { IsEmptyAnswerFrom F.found_of
        (F.IsAnswer (F.sought finder.old) (chars haystack.now)) haystack.now at }
    ensures next { TellsNextMatch F.found_of F.number_of
        (F.IsAnswer (F.sought finder.old) (chars haystack.now)) haystack.now (Some at)
        (F.slots finder.new) result }
    ensures empty { IsAnswerWhereEmpty F.found_of
        (F.IsAnswer (F.sought finder.old) (chars haystack.now)) haystack.now result }
    ensures lawful { AreLawful F.found_of (chars haystack.now)
        (F.IsAnswer (F.sought finder.old) (chars haystack.now)) }
    ensures sought { F.sought finder.new ≡ F.sought finder.old }
    ensures slots { length (F.slots finder.new) ≡ length (F.slots finder.old) }
{
    match_at(finder, haystack, next_offset(haystack, at))
}

/// The first match that starts at this offset or later. The finder keeps its slots.
pub(crate) fn match_at<'h, F: Finds>(
    finder: &mut F,
    haystack: &'h str,
    start: usize,
) -> Option<(F::Number, Match<'h>)>
    requires { CanStartAt haystack.now start }
    ensures found { TellsOfAnswer (F.IsAnswer (F.sought finder.old) (chars haystack.now))
        (IsMatchWithSlots F.found_of F.number_of haystack.now (F.slots finder.new))
        (search_start haystack.now start) result }
    ensures empty { IsAnswerWhereEmpty F.found_of
        (F.IsAnswer (F.sought finder.old) (chars haystack.now)) haystack.now result }
    ensures lawful { AreLawful F.found_of (chars haystack.now)
        (F.IsAnswer (F.sought finder.old) (chars haystack.now)) }
    ensures sought { F.sought finder.new ≡ F.sought finder.old }
    ensures slots { length (F.slots finder.new) ≡ length (F.slots finder.old) }
{
    let (number, (from, to)) = finder.find_at(haystack, start)?;
    Some((number, Match::new(haystack, from, to)))
}

/// The end of the character at this offset. At the haystack's end it is an offset above the length,
/// from which no search finds anything.
pub(crate) fn next_offset(haystack: &str, at: usize) -> usize
    requires { IsCharBoundary haystack.now at }
    ensures { IsNextOffset haystack.now at result }
{
    match haystack[at..].chars().next() {
        Some(c) => at + c.len_utf8(),
        None => at + 1,
    }
}
