//! A regex as what is searched for.

use crate::answer::OUT_OF_MEMORY;
use crate::group_walk::fill_groups;
use crate::sought::{GroupsAhead, Search, Sought, Spans};
use crate::types::{Cost, MatchWalk, Span};
use crate::walk::fill;
use regex_lite::{CaptureMatches, Captures, Error, Matches, Regex};

impl<'r, 'h> Spans for Matches<'r, 'h> {
    ghost use Rattle.regex_lite.specs.Ahead.{ahead_of};

    type Sought = Regex;

    ghost ahead = { ahead_of };

    fn next_span(&mut self) -> Option<Span> {
        self.next().map(|found| Span::of(&found))
    }
}

impl<'r, 'h> GroupsAhead<'h> for CaptureMatches<'r, 'h> {
    ghost use Rattle.regex_lite.specs.Ahead.{ahead_of};

    type Sought = Regex;

    ghost ahead = { ahead_of };

    fn next_groups(&mut self) -> Result<Option<(usize, Captures<'h>)>, Error> {
        match self.next() {
            Some(Ok(caps)) => Ok(Some((caps.len(), caps))),
            Some(Err(error)) => Err(error),
            None => Ok(None),
        }
    }
}

impl Search for Regex {
    ghost use Rattle.regex_lite_c.specs.SearchKinds.{regex_search};

    type Span = Span;

    type Reported = usize;

    ghost search = { regex_search };

    fn has_match(&self, text: &str, start: usize) -> Result<bool, Error> {
        self.is_match_at(text, start)
    }

    fn first_span(&self, text: &str, start: usize) -> Result<Option<Span>, Error> {
        match self.find_at(text, start)? {
            Some(found) => Ok(Some(Span::of(&found))),
            None => Ok(None),
        }
    }

    fn first_groups<'h>(
        &self,
        text: &'h str,
        start: usize,
    ) -> Result<Option<(usize, Captures<'h>)>, Error> {
        match self.captures_at(text, start)? {
            Some(caps) => Ok(Some((caps.len(), caps))),
            None => Ok(None),
        }
    }
}

impl Sought for Regex {
    fn counted_span(&self, text: &str, start: usize) -> Result<(Option<Span>, Cost), Error> {
        let (found, steps) = self.find_counted_at(text, start)?;
        match found {
            Some(found) => Ok((Some(Span::of(&found)), Cost::of(steps))),
            None => Ok((None, Cost::of(steps))),
        }
    }

    fn write_after(
        &self,
        text: &str,
        ended: Option<usize>,
        spans: &mut [Span],
    ) -> Result<usize, Error> {
        let mut matches = self.find_iter_after(text, ended)?;
        Ok(fill(&mut matches, spans))
    }

    fn write_groups_after(
        &self,
        text: &str,
        walk: &mut MatchWalk,
        reported: &mut [usize],
        spans: &mut [Span],
    ) -> (u32, usize) {
        match self.captures_iter_after(text, walk.ended()) {
            Ok(mut items) => fill_groups(&mut items, walk, reported, spans),
            Err(_) => (OUT_OF_MEMORY, 0),
        }
    }
}
