//! Several patterns as what is searched for.

use crate::answer::OUT_OF_MEMORY;
use crate::group_walk::fill_groups;
use crate::list::types::{ListGroups, ListSpan};
use crate::sought::{GroupsAhead, Search, Sought, Spans};
use crate::types::{Cost, MatchWalk, Span};
use crate::walk::fill;
use regex_lite::{Captures, Error, ListCaptureMatches, ListMatches, RegexList};

impl<'r, 'h> Spans for ListMatches<'r, 'h> {
    ghost use Rattle.regex_lite.specs.ListAhead.{list_ahead_of};

    type Sought = RegexList;

    ghost ahead = { list_ahead_of };

    fn next_span(&mut self) -> Option<ListSpan> {
        self.next()
            .map(|(number, found)| ListSpan::of(number, &found))
    }
}

impl<'r, 'h> GroupsAhead<'h> for ListCaptureMatches<'r, 'h> {
    ghost use Rattle.regex_lite.specs.ListAhead.{list_ahead_of};

    type Sought = RegexList;

    ghost ahead = { list_ahead_of };

    fn next_groups(&mut self) -> Result<Option<(ListGroups, Captures<'h>)>, Error> {
        match self.next() {
            Some(Ok((number, caps))) => {
                let count = caps.len();
                Ok(Some((ListGroups { number, count }, caps)))
            }
            Some(Err(error)) => Err(error),
            None => Ok(None),
        }
    }
}

impl Search for RegexList {
    ghost use Rattle.regex_lite_c.specs.SearchKinds.{patterns_search};

    type Span = ListSpan;

    type Reported = ListGroups;

    ghost search = { patterns_search };

    fn has_match(&self, text: &str, start: usize) -> Result<bool, Error> {
        self.is_match_at(text, start)
    }

    fn first_span(&self, text: &str, start: usize) -> Result<Option<ListSpan>, Error> {
        match self.find_at(text, start)? {
            Some((number, found)) => Ok(Some(ListSpan::of(number, &found))),
            None => Ok(None),
        }
    }

    fn first_groups<'h>(
        &self,
        text: &'h str,
        start: usize,
    ) -> Result<Option<(ListGroups, Captures<'h>)>, Error> {
        match self.captures_at(text, start)? {
            Some((number, caps)) => {
                let count = caps.len();
                Ok(Some((ListGroups { number, count }, caps)))
            }
            None => Ok(None),
        }
    }
}

impl Sought for RegexList {
    fn counted_span(&self, text: &str, start: usize) -> Result<(Option<ListSpan>, Cost), Error> {
        let (reported, steps) = self.find_counted_at(text, start)?;
        match reported {
            Some((number, found)) => Ok((Some(ListSpan::of(number, &found)), Cost::of(steps))),
            None => Ok((None, Cost::of(steps))),
        }
    }

    fn write_after(
        &self,
        text: &str,
        ended: Option<usize>,
        spans: &mut [ListSpan],
    ) -> Result<usize, Error> {
        let mut matches = self.find_iter_after(text, ended)?;
        Ok(fill(&mut matches, spans))
    }

    fn write_groups_after(
        &self,
        text: &str,
        walk: &mut MatchWalk,
        reported: &mut [ListGroups],
        spans: &mut [Span],
    ) -> (u32, usize) {
        match self.captures_iter_after(text, walk.ended()) {
            Ok(mut items) => fill_groups(&mut items, walk, reported, spans),
            Err(_) => (OUT_OF_MEMORY, 0),
        }
    }
}
