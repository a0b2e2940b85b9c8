//! A searcher for several patterns, which reuses its memory.
ghost use Rattle.std.specs.Prelude.{◌≡◌, ◌↔◌, ℕ, List, None, Some, IfOk, IfErr, IfSome};
ghost use Rattle.std.specs.Prelude.{IsTrue, length};
ghost use Rattle.regex_lite_syntax.specs.Errors.{out_of_memory};
ghost use Rattle.regex_lite.specs.Anchored.{TellsLocationsAtOfList, TellsMatchAtOfList};
ghost use Rattle.regex_lite.specs.MatchOffsets.{SomeMatchesAt};
ghost use Rattle.regex_lite.specs.RegexListSearches.{AnyMatches, TellsLocationsOfList};
ghost use Rattle.regex_lite.specs.Scanning.{AreSlotsForAllGroups, TellsListMatch};
ghost use Rattle.regex_lite.specs.Searches.{CanStartAt};

use crate::string::captures::Captures;
use crate::string::iter::finds::Finds;
use crate::string::iter::scan::match_at;
use crate::string::list::RegexList;
use crate::string::locations::CaptureLocations;
use crate::string::matches::Match;
use crate::string::slots::{all_slots, or_whole};
use crate::string::source::Source;
use regex_lite_syntax::Error;
use std::fmt;
use std::marker::Model;

/// Several patterns, and the memory of their searches.
#[derive(Drop)]
pub(super) struct ListSearcher<'r> {
    list: &'r RegexList,
    inner: regex_lite_meta::GraphListSearcher<'r>,
}

impl<'r> Model for ListSearcher<'r> {
    ghost use Rattle.regex_lite.specs.Scanning.{ListSearching, SearchesForList};

    ghost Value = { ListSearching };

    ghost view = { λ searcher. record {
      list = searcher.list.now;
      slots = searcher.inner.slots;
    } };

    ghost invariant = { λ searcher. SearchesForList searcher.list.now searcher.inner };
}

impl<'r> ListSearcher<'r> {
    /// A searcher of these patterns, for haystacks of about `bytes` bytes and matches with `slots`
    /// slots.
    pub fn new(list: &'r RegexList, slots: usize, bytes: usize) -> Result<ListSearcher<'r>, Error>
        ensures list { IfOk result (λ searcher. searcher.list ≡ list.now) }
        ensures slots { IfOk result (λ searcher. length searcher.slots ≡ slots) }
        ensures refused { IfErr result (λ error. error ≡ out_of_memory) }
    {
        let graph = &list.compiled.graph;
        let inner = regex_lite_meta::GraphListSearcher::new(list.alloc, graph, slots, bytes)?;
        Ok(ListSearcher { list, inner })
    }

    /// Whether any pattern matches.
    pub fn is_match(&mut self, haystack: &str) -> bool
        ensures found { IsTrue result ↔ AnyMatches self.old.list haystack.now 0 }
        ensures list { self.new.list ≡ self.old.list }
        ensures slots { length self.new.slots ≡ length self.old.slots }
    {
        self.inner.search_any(haystack, 0)
    }

    /// The first match that starts at this offset or later, with the number of its pattern. Writes
    /// its groups to the locations.
    pub fn read_at<'h>(
        &mut self,
        locs: &mut CaptureLocations,
        haystack: &'h str,
        start: usize,
    ) -> Option<(usize, Match<'h>)>
        requires room { AreSlotsForAllGroups self.old.list (length self.old.slots) }
        requires start { CanStartAt haystack.now start }
        ensures found { TellsLocationsOfList self.old.list haystack.now start locs.new result }
        ensures len { length locs.new ≡ length locs.old }
        ensures none { result ≡ None → locs.new ≡ locs.old }
        ensures list { self.new.list ≡ self.old.list }
        ensures slots { length self.new.slots ≡ length self.old.slots }
    {
        let last = match_at(self, haystack, start)?;
        self.read(locs, &last);
        Some(last)
    }

    /// Whether any pattern matches at this offset.
    pub fn is_match_anchored_at(&mut self, haystack: &str, start: usize) -> bool
        requires { CanStartAt haystack.now start }
        ensures found { IsTrue result ↔ SomeMatchesAt self.old.list haystack.now start }
        ensures list { self.new.list ≡ self.old.list }
        ensures slots { length self.new.slots ≡ length self.old.slots }
    {
        self.inner.search_any_anchored(haystack, start)
    }

    /// The match that starts at this offset, with the number of its pattern. The searcher keeps its
    /// slots.
    pub fn find_anchored_at<'h>(
        &mut self,
        haystack: &'h str,
        start: usize,
    ) -> Option<(usize, Match<'h>)>
        requires { CanStartAt haystack.now start }
        ensures found { TellsMatchAtOfList self.old.list haystack.now start result }
        ensures kept { IfSome result (λ last.
            TellsListMatch self.old.list haystack.now start self.new.slots (Some last)) }
        ensures list { self.new.list ≡ self.old.list }
        ensures slots { length self.new.slots ≡ length self.old.slots }
    {
        let (number, (from, to)) = self.inner.search_anchored(haystack, start)?;
        Some((number, Match::new(haystack, from, to)))
    }

    /// The match that starts at this offset, with the number of its pattern. Writes its groups to
    /// the locations.
    pub fn read_anchored_at<'h>(
        &mut self,
        locs: &mut CaptureLocations,
        haystack: &'h str,
        start: usize,
    ) -> Option<(usize, Match<'h>)>
        requires room { AreSlotsForAllGroups self.old.list (length self.old.slots) }
        requires start { CanStartAt haystack.now start }
        ensures found { TellsLocationsAtOfList self.old.list haystack.now start locs.new result }
        ensures len { length locs.new ≡ length locs.old }
        ensures none { result ≡ None → locs.new ≡ locs.old }
        ensures list { self.new.list ≡ self.old.list }
        ensures slots { length self.new.slots ≡ length self.old.slots }
    {
        let last = self.find_anchored_at(haystack, start)?;
        self.read(locs, &last);
        Some(last)
    }

    /// Writes the groups of the last match to the locations.
    fn read(&self, locs: &mut CaptureLocations, last: &(usize, Match<'_>))
        requires room { AreSlotsForAllGroups self.now.list (length self.now.slots) }
        requires last { (haystack : List ℕ) × ((start : ℕ)
            × TellsListMatch self.now.list haystack start self.now.slots (Some last.now)) }
        ensures found { (haystack : List ℕ) (start : ℕ)
            → TellsListMatch self.now.list haystack start self.now.slots (Some last.now)
            → TellsLocationsOfList self.now.list haystack start locs.new (Some last.now) }
        ensures len { length locs.new ≡ length locs.old }
    {
        let (number, found) = last;
        let whole = [Some(found.start()), Some(found.end())];
        let slots = or_whole(self.inner.slots(), &whole);
        // A search keeps slots for the pattern with the most groups. This one may have fewer.
        let own = self.list.slots_of(*number);
        locs.write(&slots[..own]);
    }
}

impl<'r> Finds for ListSearcher<'r> {
    ghost use Rattle.std.specs.Prelude.{ℕ, List, ⊤};
    ghost use Rattle.regex_lite_engine.specs.Search.Answer.{Found};
    ghost use Rattle.regex_lite.specs.Expression.{Expression};
    ghost use Rattle.regex_lite.specs.ListAhead.{AreGroupsFoundInList};
    ghost use Rattle.regex_lite.specs.MatchList.{IsAnswerOfPatterns};
    ghost use Rattle.regex_lite.specs.Scanning.{AreSlotsForAllGroups};

    type Number = usize;

    ghost Sought = { List Expression };

    ghost Answer = { ℕ × Found };

    ghost found_of = { λ own. own.1 };

    ghost number_of = { λ own. own.0 };

    ghost IsAnswer = { IsAnswerOfPatterns };

    ghost AreGroupsFound = { λ list haystack answer groups.
        AreGroupsFoundInList list haystack answer.0 answer.1 groups };

    ghost AreSlotsForGroups = { AreSlotsForAllGroups };

    ghost CanReuse = { λ list groups. ⊤ };

    ghost sought = { λ searcher. searcher.list };

    ghost slots = { λ searcher. searcher.slots };

    /// [`RegexList::find_at`], but it never fails.
    fn find_at(&mut self, haystack: &str, start: usize) -> Option<(usize, (usize, usize))> {
        self.inner.search(haystack, start)
    }

    /// The groups, in memory of their own. Only replacements return groups for reuse, and a list
    /// has no replacements.
    fn captures<'h>(
        &self,
        haystack: &'h str,
        last: &(usize, Match<'h>),
        _spare: Option<Captures<'h>>,
    ) -> Result<Captures<'h>, Error> {
        let list = self.list;
        let (number, whole) = last;
        let kept = self.inner.slots();
        let mut slots = Vec::with_capacity(list.alloc, kept.len())?;
        slots.extend_from_slice(kept)?;
        let mut slots = all_slots(slots, (whole.start(), whole.end()))?;
        let source = Source::of_listed(list.compiled.clone()?, *number);
        // A search keeps slots for the pattern with the most groups. This one may have fewer.
        slots.truncate(source.slots());
        Ok(Captures::new(haystack, slots, source))
    }
}

/// Writes the patterns.
impl<'r> fmt::Debug for ListSearcher<'r> {
    fn fmt<W: fmt::Write>(&self, f: &mut fmt::Formatter<W>) -> fmt::Result {
        write!(f, "{:?}", self.list)
    }
}
