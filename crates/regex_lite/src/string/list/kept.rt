//! A searcher for several patterns, which callers keep to search many haystacks.
//!
//! It has a memory without slots and, if some pattern has groups, one with slots, like the searcher
//! of a regex. Groups are read in the second alone, which may find a match by a lazy DFA of its own
//! before its slots. The searches that tell which patterns match have a third memory, a PikeVM
//! without slots. They keep no DFA of a pattern, which could take 60 KB: a list may have thousands
//! of patterns. In a long haystack they request one where that pays, and drop it after the pattern.
ghost use Rattle.std.specs.Prelude.{◌≡◌, ◌↔◌, None, IfOk, IfErr, IsTrue, length};
ghost use Rattle.regex_lite_syntax.specs.Errors.{out_of_memory};
ghost use Rattle.regex_lite.specs.Keeping.{FindsAllGroups};
ghost use Rattle.regex_lite.specs.RegexListSearches.{AnyMatches, TellsLocationsOfList};
ghost use Rattle.regex_lite.specs.RegexListSearches.{TellsMatchOfList, TellsWhichMatch};
ghost use Rattle.regex_lite.specs.Scanning.{ListSearching};
ghost use Rattle.regex_lite.specs.Searches.{CanStartAt};

use crate::string::iter::scan::match_at;
use crate::string::list::RegexList;
use crate::string::list::searcher::ListSearcher;
use crate::string::list::set_matches::SetMatches;
use crate::string::list::set_searcher::SetSearcher;
use crate::string::locations::CaptureLocations;
use crate::string::matches::Match;
use crate::string::regex_searcher::ENDLESS;
use regex_lite_syntax::Error;
use std::fmt;
use std::marker::Model;

/// A searcher runs a list of patterns over many haystacks: the list, and the memory of its
/// searches.
///
/// [`RegexList::searcher`] makes it. Whatever it searched before, `is_match`, `find` and `find_at`
/// return what the list's calls of these names return, `captures_read` and `captures_read_at` write
/// the groups that its `captures` and `captures_at` return, and `matches_read` and
/// `matches_read_at` write the set that its `matches` and `matches_at` return. But no call fails
/// for lack of memory, and searches reuse the transitions that earlier searches have cached.
///
/// ```
/// let list = RegexList::new(alloc, &["warn", "error"])?;
/// let mut searcher = list.searcher()?;
/// searcher.find("2 errors"); // the number 1, and the match of "error"
/// searcher.is_match("all is well"); // false
/// ```
///
/// The test `examples::lists::many_haystacks` in tests/unit runs this example.
#[derive(Drop)]
pub struct RegexListSearcher<'r> {
    pub(super) matches: ListSearcher<'r>,
    /// Finds the slots of all groups, if some pattern has groups besides the whole match.
    pub(super) groups: Option<ListSearcher<'r>>,
    /// Finds which patterns match.
    set: SetSearcher<'r>,
}

impl<'r> Model for RegexListSearcher<'r> {
    ghost use Rattle.std.specs.Prelude.{◌≡◌, List};
    ghost use Rattle.regex_lite.specs.Expression.{Expression};
    ghost use Rattle.regex_lite.specs.Keeping.{FindsAllGroups};

    ghost Value = { List Expression };

    ghost view = { λ searcher. searcher.matches.list };

    ghost invariant = { λ searcher. FindsAllGroups searcher.matches searcher.groups
        × (searcher.set ≡ searcher.matches.list) };
}

impl RegexList {
    /// A searcher of this list for many haystacks.
    ///
    /// It allocates all memory that its searches need, including the memory for groups.
    ///
    /// # Errors
    ///
    /// `Memory` if memory runs out.
    pub fn searcher(&self) -> Result<RegexListSearcher<'_>, Error>
        ensures list { IfOk result (λ searcher. searcher ≡ self.now) }
        ensures refused { IfErr result (λ error. error ≡ out_of_memory) }
    {
        let matches = ListSearcher::new(self, 0, ENDLESS)?;
        let groups = self.searcher_of_groups()?;
        let set = SetSearcher::new(self)?;
        Ok(RegexListSearcher {
            matches,
            groups,
            set,
        })
    }

    /// The searcher for groups, if some pattern has groups besides the whole match.
    fn searcher_of_groups(&self) -> Result<Option<ListSearcher<'_>>, Error>
        ensures groups { IfOk result (λ groups. (matches : ListSearching) → matches.list ≡ self.now
            → length matches.slots ≡ 0 → FindsAllGroups matches groups) }
        ensures refused { IfErr result (λ error. error ≡ out_of_memory) }
    {
        let slots = self.kept_slots();
        if slots == 0 {
            return Ok(None);
        }
        let searcher = ListSearcher::new(self, slots, ENDLESS)?;
        Ok(Some(searcher))
    }
}

impl<'r> RegexListSearcher<'r> {
    /// [`RegexList::is_match`], but it never fails.
    pub fn is_match(&mut self, haystack: &str) -> bool
        ensures found { IsTrue result ↔ AnyMatches self.old haystack.now 0 }
        ensures same { self.new ≡ self.old }
    {
        self.matches.is_match(haystack)
    }

    /// [`RegexList::find`], but it never fails.
    pub fn find<'h>(&mut self, haystack: &'h str) -> Option<(usize, Match<'h>)>
        ensures found { TellsMatchOfList self.old haystack.now 0 result }
        ensures same { self.new ≡ self.old }
    {
        self.find_at(haystack, 0)
    }

    /// [`RegexList::find_at`], but it never fails.
    ///
    /// Condition: the start is above the haystack's length or on a character boundary.
    pub fn find_at<'h>(&mut self, haystack: &'h str, start: usize) -> Option<(usize, Match<'h>)>
        requires { CanStartAt haystack.now start }
        ensures found { TellsMatchOfList self.old haystack.now start result }
        ensures same { self.new ≡ self.old }
    {
        match_at(&mut self.matches, haystack, start)
    }

    /// Writes to the set which of the patterns match somewhere in the haystack, as
    /// [`RegexList::matches`] returns it. It never fails.
    ///
    /// For long haystacks it requests memory to cache transitions, as [`RegexList::matches`] does.
    /// If there is none, the search is slower.
    ///
    /// Condition: the set is from [`RegexList::set_matches`] of this list, or of another list with
    /// as many patterns.
    ///
    /// ```
    /// let list = RegexList::new(alloc, &["[0-9]+", "[a-z]+", "sam"])?;
    /// let mut searcher = list.searcher()?;
    /// let mut set = list.set_matches()?;
    /// searcher.matches_read(&mut set, "sam");
    /// set.matched(0); // false
    /// set.matched(1); // true
    /// set.matched(2); // true
    /// searcher.matches_read(&mut set, "42");
    /// set.matched(2); // false
    /// ```
    ///
    /// The test `examples::lists::many_sets` in tests/unit runs this example.
    pub fn matches_read(&mut self, set: &mut SetMatches, haystack: &str)
        requires { length set.old ≡ length self.old }
        ensures found { TellsWhichMatch self.old haystack.now 0 set.new }
        ensures same { self.new ≡ self.old }
    {
        self.matches_read_at(set, haystack, 0);
    }

    /// Writes to the set which of the patterns match somewhere from this offset on, as
    /// [`RegexList::matches_at`] returns it. It never fails.
    ///
    /// Conditions: the set is from this list, or from another one with as many patterns. The start
    /// is above the haystack's length or on a character boundary.
    pub fn matches_read_at(&mut self, set: &mut SetMatches, haystack: &str, start: usize)
        requires room { length set.old ≡ length self.old }
        requires start { CanStartAt haystack.now start }
        ensures found { TellsWhichMatch self.old haystack.now start set.new }
        ensures same { self.new ≡ self.old }
    {
        self.set.tell(set, haystack, start);
    }

    /// The match that [`RegexList::find`] returns, with the number of its pattern, and writes the
    /// groups of that pattern to the locations. It never fails.
    ///
    /// The groups have the indices of their own pattern. It writes as many groups as the locations
    /// have; those that the pattern doesn't have are `None`. Without a match the locations are
    /// unchanged.
    ///
    /// ```
    /// let list = RegexList::new(alloc, &["([a-z]+)=([0-9]+)", "#([a-z]+)"])?;
    /// let mut searcher = list.searcher()?;
    /// let mut locations = list.capture_locations()?;
    /// searcher.captures_read(&mut locations, "width=72"); // 0, and the match of "width=72"
    /// locations.get(2); // Some((6, 8))
    /// searcher.captures_read(&mut locations, "a #note"); // 1, and the match of "#note"
    /// locations.get(1); // Some((3, 7))
    /// locations.get(2); // None
    /// ```
    ///
    /// The test `examples::lists::many_reads` in tests/unit runs this example.
    pub fn captures_read<'h>(
        &mut self,
        locs: &mut CaptureLocations,
        haystack: &'h str,
    ) -> Option<(usize, Match<'h>)>
        ensures found { TellsLocationsOfList self.old haystack.now 0 locs.new result }
        ensures len { length locs.new ≡ length locs.old }
        ensures none { result ≡ None → locs.new ≡ locs.old }
        ensures same { self.new ≡ self.old }
    {
        self.captures_read_at(locs, haystack, 0)
    }

    /// The match that [`RegexList::find_at`] returns, with the number of its pattern, and writes
    /// the groups of that pattern to the locations. It never fails.
    ///
    /// The groups have the indices of their own pattern. It writes as many groups as the locations
    /// have; those that the pattern doesn't have are `None`. Without a match the locations are
    /// unchanged.
    ///
    /// Condition: the start is above the haystack's length or on a character boundary.
    pub fn captures_read_at<'h>(
        &mut self,
        locs: &mut CaptureLocations,
        haystack: &'h str,
        start: usize,
    ) -> Option<(usize, Match<'h>)>
        requires { CanStartAt haystack.now start }
        ensures found { TellsLocationsOfList self.old haystack.now start locs.new result }
        ensures len { length locs.new ≡ length locs.old }
        ensures none { result ≡ None → locs.new ≡ locs.old }
        ensures same { self.new ≡ self.old }
    {
        let Some(groups) = &mut self.groups else {
            return self.matches.read_at(locs, haystack, start);
        };
        groups.read_at(locs, haystack, start)
    }
}

/// Writes the list as the only field of `RegexListSearcher`.
impl<'r> fmt::Debug for RegexListSearcher<'r> {
    fn fmt<W: fmt::Write>(&self, f: &mut fmt::Formatter<W>) -> fmt::Result {
        f.debug_tuple("RegexListSearcher")
            .field(&self.matches)
            .finish()
    }
}
