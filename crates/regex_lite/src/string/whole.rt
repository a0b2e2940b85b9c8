//! Whole matches: matches that start and end where the haystack does.
ghost use Rattle.std.specs.Prelude.{◌≡◌, ◌↔◌, IfOk, IfErr, IsTrue, length};
ghost use Rattle.regex_lite_syntax.specs.Errors.{out_of_memory};
ghost use Rattle.regex_lite.specs.Anchored.{TellsWholeGroups, TellsWholeMatch};
ghost use Rattle.regex_lite.specs.MatchOffsets.{MatchesSpan};

use crate::string::captures::Captures;
use crate::string::matches::Match;
use crate::string::regex::Regex;
use crate::string::regex_searcher::RegexSearcher;
use regex_lite_meta::search_any_anchored;
use regex_lite_syntax::Error;

impl Regex {
    /// Whether the pattern matches the whole haystack.
    ///
    /// It is what a search with `\A(?:..)\z` around the pattern would return. So even a pattern
    /// that prefers a shorter match may match the whole haystack: `a|ab` matches all of "ab".
    ///
    /// # Errors
    ///
    /// `Memory` if memory runs out.
    pub fn is_full_match(&self, haystack: &str) -> Result<bool, Error>
        ensures found { IfOk result (λ found. IsTrue found
            ↔ MatchesSpan self.now haystack.now (0, length haystack.now)) }
        ensures refused { IfErr result (λ error. error ≡ out_of_memory) }
    {
        let graph = &self.compiled.graph;
        let (found, _) = search_any_anchored::<true>(graph, self.alloc, haystack, 0)?;
        Ok(found)
    }

    /// The match of the whole haystack, if there is one.
    ///
    /// ```
    /// let regex = Regex::new(alloc, "[0-9]+|[0-9]+px")?;
    /// regex.full_match("72px")?; // the match of "72px"
    /// regex.full_match("72pt")?; // None
    /// ```
    ///
    /// The test `examples::full` in tests/unit runs this example.
    ///
    /// # Errors
    ///
    /// `Memory` if memory runs out.
    pub fn full_match<'h>(&self, haystack: &'h str) -> Result<Option<Match<'h>>, Error>
        ensures found { IfOk result (λ found. TellsWholeMatch self.now haystack.now found) }
        ensures refused { IfErr result (λ error. error ≡ out_of_memory) }
    {
        self.match_anchored::<true>(haystack, 0)
    }

    /// The groups of the match of the whole haystack, if there is one.
    ///
    /// If the pattern matches the whole haystack in several ways, the groups are those of the
    /// preferred one. A group that takes part more than once has the span of the last time.
    ///
    /// # Errors
    ///
    /// `Memory` if memory runs out.
    pub fn full_captures<'h>(&self, haystack: &'h str) -> Result<Option<Captures<'h>>, Error>
        ensures found { IfOk result (λ found. TellsWholeGroups self.now haystack.now found) }
        ensures refused { IfErr result (λ error. error ≡ out_of_memory) }
    {
        self.groups_anchored::<true>(haystack, 0)
    }
}

impl<'r> RegexSearcher<'r> {
    /// [`Regex::is_full_match`], but it never fails.
    pub fn is_full_match(&mut self, haystack: &str) -> bool
        ensures found { IsTrue result
            ↔ MatchesSpan self.old haystack.now (0, length haystack.now) }
        ensures same { self.new ≡ self.old }
    {
        self.matches.is_match_anchored::<true>(haystack, 0)
    }

    /// [`Regex::full_match`], but it never fails.
    pub fn full_match<'h>(&mut self, haystack: &'h str) -> Option<Match<'h>>
        ensures found { TellsWholeMatch self.old haystack.now result }
        ensures same { self.new ≡ self.old }
    {
        self.matches.find_anchored::<true>(haystack, 0)
    }
}
