//! A scan over the matches in a haystack, with their groups.
//!
//! A search for the next match returns its span alone, and its slots stay in the memory of the
//! searcher. Groups are made of them only for a match that is wanted. So a match that is skipped is
//! never copied, and the end of a list takes no memory.
ghost use Rattle.std.specs.Prelude.{◌≡◌, ◌<◌, None, IfSome, IsCharBoundary, length, unwrap_or};
ghost use Rattle.regex_lite.specs.Ahead.{most_ahead};
ghost use Rattle.regex_lite.specs.Items.{GivesNextGroups};

use crate::string::captures::Captures;
use crate::string::iter::finds::Finds;
use crate::string::iter::scan::Scan;
use regex_lite_syntax::Error;
use std::fmt;
use std::marker::Model;

/// A scan that keeps the slots of all groups of its matches, and groups whose memory it can reuse.
#[derive(Drop)]
pub(crate) struct GroupScan<'h, F: Finds + Drop> {
    scan: Scan<'h, F>,
    spare: Option<Captures<'h>>,
}

impl<'h, F: Finds + Drop> Model for GroupScan<'h, F> {
    ghost use Rattle.std.specs.Prelude.{IfSome, length};
    ghost use Rattle.regex_lite.specs.Scanning.{Scanning};

    ghost Value = { Scanning F };

    ghost view = { λ groups. groups.scan };

    ghost invariant = { λ groups.
        F.AreSlotsForGroups (F.sought groups.scan.finder) (length (F.slots groups.scan.finder))
        × IfSome groups.spare (F.CanReuse (F.sought groups.scan.finder)) };
}

impl<'h, F: Finds + Drop> GroupScan<'h, F> {
    /// A scan from the start of the haystack. With a limit, it returns at most that many matches.
    ///
    /// Condition: the finder keeps the slots of all groups.
    pub fn new(finder: F, haystack: &'h str, limit: Option<usize>) -> GroupScan<'h, F>
        requires { F.AreSlotsForGroups (F.sought finder) (length (F.slots finder)) }
        ensures finder { result.finder ≡ finder }
        ensures haystack { result.haystack ≡ haystack.now }
        ensures limit { result.limit ≡ limit }
        ensures ended { result.ended ≡ None }
    {
        GroupScan {
            scan: Scan::new(finder, haystack, limit),
            spare: None,
        }
    }

    /// A scan that continues after a match that ended at this offset, without a limit.
    ///
    /// Conditions: the finder keeps the slots of all groups. The offset is on a character boundary.
    pub fn after(finder: F, haystack: &'h str, ended: Option<usize>) -> GroupScan<'h, F>
        requires room { F.AreSlotsForGroups (F.sought finder) (length (F.slots finder)) }
        requires boundary { IsCharBoundary haystack.now (unwrap_or ended 0) }
        ensures finder { result.finder ≡ finder }
        ensures haystack { result.haystack ≡ haystack.now }
        ensures limit { result.limit ≡ None }
        ensures ended { result.ended ≡ ended }
    {
        GroupScan {
            scan: Scan::after(finder, haystack, ended),
            spare: None,
        }
    }

    /// The groups of the next match, if there is one, with the number of its pattern. After an
    /// error there is none.
    pub fn next(&mut self) -> Option<Result<(F::Number, Captures<'h>), Error>>
        ensures steps { GivesNextGroups F.sought F.found_of F.number_of F.IsAnswer F.AreGroupsFound
            self.old result self.new }
        ensures fewer { IfSome result (λ _. most_ahead self.new < most_ahead self.old) }
    {
        let cursor = self.scan.cursor();
        let spare = self.spare.take();
        let found = self.scan.next()?;
        match self.scan.finder().captures(cursor.haystack, &found, spare) {
            Ok(caps) => Some(Ok((found.0, caps))),
            Err(error) => {
                self.scan.stop_at(cursor);
                Some(Err(error))
            }
        }
    }

    /// Takes back groups that it returned, so that the next ones reuse their memory.
    pub fn take_back(&mut self, caps: Captures<'h>)
        requires { F.CanReuse (F.sought self.old.finder) caps }
        ensures { self.new ≡ self.old }
    {
        self.spare = Some(caps);
    }
}

impl<'h, F: Finds + fmt::Debug + Drop> GroupScan<'h, F> {
    /// Writes its parts as those of an iterator with this name. It has no clause, for the reason
    /// given at `Scan::fmt_as`.
    pub fn fmt_as<W: fmt::Write>(&self, name: &str, f: &mut fmt::Formatter<W>) -> fmt::Result {
        self.scan.fmt_as(name, f)
    }
}
