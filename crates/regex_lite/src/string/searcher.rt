//! A searcher, which reuses its memory.
ghost use Rattle.std.specs.Prelude.{◌≡◌, ◌↔◌, IfOk, IfErr, IfSome, IsTrue, chars, length};
ghost use Rattle.regex_lite_syntax.specs.Errors.{out_of_memory};
ghost use Rattle.regex_lite_engine.specs.Search.AnswerAt.{HasMatchAt};
ghost use Rattle.regex_lite_engine.specs.Search.Offsets.{search_start};
ghost use Rattle.regex_lite.specs.Anchored.{TellsAnswerAt};
ghost use Rattle.regex_lite.specs.Compiled.{AreOfRegex, SharesGroups};
ghost use Rattle.regex_lite.specs.Expression.{OfTree};
ghost use Rattle.regex_lite.specs.Searches.{CanStartAt, IsMatchOf, MatchesFrom};

use crate::string::captures::Captures;
use crate::string::compiled::Compiled;
use crate::string::held::HeldRegex;
use crate::string::iter::finds::Finds;
use crate::string::matches::Match;
use crate::string::regex::Regex;
use crate::string::slots::all_slots;
use crate::string::source::Source;
use regex_lite_syntax::Error;
use std::fmt;
use std::marker::Model;

/// A regex, and the memory of its searches.
#[derive(Drop)]
pub(crate) struct Searcher<'r> {
    regex: HeldRegex<'r>,
    inner: regex_lite_meta::GraphSearcher,
}

impl<'r> Model for Searcher<'r> {
    ghost use Rattle.regex_lite.specs.Scanning.{RegexSearching};
    ghost use Rattle.regex_lite_meta.specs.Searching.{SearchesGraph, row_of_graph};

    ghost Value = { RegexSearching };

    ghost view = { λ searcher. record {
      regex = searcher.regex.pattern;
      slots = row_of_graph searcher.inner;
    } };

    ghost invariant = { λ searcher. SearchesGraph searcher.regex.graph searcher.inner };
}

impl<'r> Searcher<'r> {
    /// A searcher of this regex, for haystacks of about `bytes` bytes and matches with `slots`
    /// slots.
    pub fn new(regex: &'r Regex, slots: usize, bytes: usize) -> Result<Searcher<'r>, Error>
        ensures regex { IfOk result (λ searcher. searcher.regex ≡ regex.now) }
        ensures slots { IfOk result (λ searcher. length searcher.slots ≡ slots) }
        ensures refused { IfErr result (λ error. error ≡ out_of_memory) }
    {
        Searcher::of(HeldRegex::lent(regex), slots, bytes)
    }

    /// A searcher of a held regex, for haystacks of about `bytes` bytes and matches with `slots`
    /// slots.
    // Inlined, so that the searcher, which is large, is copied less often.
    #[inline(always)]
    pub fn of(regex: HeldRegex<'r>, slots: usize, bytes: usize) -> Result<Searcher<'r>, Error>
        ensures regex { IfOk result (λ searcher. searcher.regex ≡ regex.entry.pattern) }
        ensures slots { IfOk result (λ searcher. length searcher.slots ≡ slots) }
        ensures refused { IfErr result (λ error. error ≡ out_of_memory) }
    {
        let graph = regex.graph();
        let inner = regex_lite_meta::GraphSearcher::new(regex.alloc(), graph, slots, bytes)?;
        Ok(Searcher { regex, inner })
    }

    /// The compiled pattern.
    pub fn compiled(&self) -> &Compiled
        ensures { result.now.pattern ≡ self.now.regex }
    {
        self.regex.compiled()
    }

    /// Whether the pattern matches.
    pub fn is_match(&mut self, haystack: &str) -> bool
        ensures found { IsTrue result ↔ MatchesFrom self.old.regex haystack.now 0 }
        ensures regex { self.new.regex ≡ self.old.regex }
        ensures slots { length self.new.slots ≡ length self.old.slots }
    {
        self.inner.search_any(self.regex.graph(), haystack, 0)
    }

    /// Whether a match starts at this offset. If WHOLE, only matches that end where the haystack
    /// ends count.
    pub fn is_match_anchored<const WHOLE: bool>(&mut self, haystack: &str, start: usize) -> bool
        requires { CanStartAt haystack.now start }
        ensures found { OfTree self.old.regex (λ tree. IsTrue result
            ↔ HasMatchAt WHOLE tree (chars haystack.now) (search_start haystack.now start)) }
        ensures regex { self.new.regex ≡ self.old.regex }
        ensures slots { length self.new.slots ≡ length self.old.slots }
    {
        let graph = self.regex.graph();
        self.inner
            .search_any_anchored::<WHOLE>(graph, haystack, start)
    }

    /// The match that starts at this offset. If WHOLE, it is the one that the pattern prefers among
    /// those that end where the haystack ends.
    pub fn find_anchored<'h, const WHOLE: bool>(
        &mut self,
        haystack: &'h str,
        start: usize,
    ) -> Option<Match<'h>>
        requires { CanStartAt haystack.now start }
        ensures found { TellsAnswerAt WHOLE (λ tree. IsMatchOf haystack.now) self.old.regex
            haystack.now start result }
        ensures regex { self.new.regex ≡ self.old.regex }
        ensures slots { length self.new.slots ≡ length self.old.slots }
    {
        let graph = self.regex.graph();
        let (from, to) = self.inner.search_anchored::<WHOLE>(graph, haystack, start)?;
        Some(Match::new(haystack, from, to))
    }

    /// The slots and the source of the spare groups, or new ones with room for the slots that are
    /// kept.
    fn parts<'h>(&self, spare: Option<Captures<'h>>) -> Result<(Vec<Option<usize>>, Source), Error>
        requires { IfSome spare (AreOfRegex self.now.regex) }
        ensures ok { IfOk result (λ parts. SharesGroups self.now.regex parts.1) }
        ensures refused { IfErr result (λ error. error ≡ out_of_memory) }
    {
        if let Some(caps) = spare {
            return Ok(caps.into_parts());
        }
        let slots = Vec::with_capacity(self.regex.alloc(), self.inner.slots().len())?;
        let source = self.regex.source()?;
        Ok((slots, source))
    }
}

impl<'r> Finds for Searcher<'r> {
    ghost use Rattle.regex_lite_engine.specs.Search.Answer.{Found};
    ghost use Rattle.regex_lite.specs.Compiled.{AreOfRegex};
    ghost use Rattle.regex_lite.specs.Expression.{Expression};
    ghost use Rattle.regex_lite.specs.Items.{AreGroupsFound};
    ghost use Rattle.regex_lite.specs.MatchList.{IsAnswerOf};
    ghost use Rattle.regex_lite.specs.Scanning.{AreSlotsForGroups};

    type Number = ();

    ghost Sought = { Expression };

    ghost Answer = { Found };

    ghost found_of = { λ own. own };

    ghost number_of = { λ own. tt };

    ghost IsAnswer = { IsAnswerOf };

    ghost AreGroupsFound = { AreGroupsFound };

    ghost AreSlotsForGroups = { AreSlotsForGroups };

    ghost CanReuse = { AreOfRegex };

    ghost sought = { λ searcher. searcher.regex };

    ghost slots = { λ searcher. searcher.slots };

    /// [`Regex::find_at`], but it never fails.
    fn find_at(&mut self, haystack: &str, start: usize) -> Option<((), (usize, usize))> {
        let span = self.inner.search(self.regex.graph(), haystack, start)?;
        Some(((), span))
    }

    /// The groups, in the memory of the spare groups if there are any.
    fn captures<'h>(
        &self,
        haystack: &'h str,
        last: &((), Match<'h>),
        spare: Option<Captures<'h>>,
    ) -> Result<Captures<'h>, Error> {
        let (_, whole) = last;
        let (mut slots, source) = self.parts(spare)?;
        slots.clear();
        slots.extend_from_slice(self.inner.slots())?;
        let slots = all_slots(slots, (whole.start(), whole.end()))?;
        Ok(Captures::new(haystack, slots, source))
    }
}

/// Writes the regex.
impl<'r> fmt::Debug for Searcher<'r> {
    fn fmt<W: fmt::Write>(&self, f: &mut fmt::Formatter<W>) -> fmt::Result {
        write!(f, "{:?}", self.compiled())
    }
}
