//! Searches for one pattern of a list, given by its number.
ghost use Rattle.std.specs.Prelude.{◌≡◌, ◌<◌, ◌↔◌, IfOk, IfErr, IfSome, IsTrue, length};
ghost use Rattle.regex_lite_syntax.specs.Errors.{out_of_memory};
ghost use Rattle.regex_lite.specs.ListedPattern.{OfPattern};
ghost use Rattle.regex_lite.specs.RegexListSearches.{AreOfPattern};
ghost use Rattle.regex_lite.specs.Searches.{CanStartAt, MatchesFrom, TellsGroups, TellsMatch};

use crate::string::captures::Captures;
use crate::string::list::RegexList;
use crate::string::matches::Match;
use crate::string::slots::{kept_of, slots_with, whole_slots};
use crate::string::source::Source;
use regex_lite_engine::Outcome;
use regex_lite_meta::{search_listed, search_listed_any};
use regex_lite_syntax::Error;

/// These searches look only for the pattern with the given number, and return what the search of
/// the same name of the pattern's own [`Regex`](crate::Regex) returns, whatever the other patterns
/// match. [`RegexList::find`] returns the match that starts first; a caller that prefers some
/// patterns to others, wherever they match, searches for them in that order instead.
impl RegexList {
    /// Whether the pattern with this number matches somewhere in the haystack.
    ///
    /// Condition: the list has more patterns than this number.
    ///
    /// # Errors
    ///
    /// `Memory` if memory runs out.
    pub fn is_match_of(&self, number: usize, haystack: &str) -> Result<bool, Error>
        requires { number < length self.now }
        ensures found { IfOk result (λ found. OfPattern self.now number
            (λ re. IsTrue found ↔ MatchesFrom re haystack.now 0)) }
        ensures refused { IfErr result (λ error. error ≡ out_of_memory) }
    {
        self.is_match_of_at(number, haystack, 0)
    }

    /// Whether the pattern with this number matches somewhere from this offset on.
    ///
    /// Looks see the whole haystack, as they do in [`RegexList::is_match_at`].
    ///
    /// Conditions: the list has more patterns than this number. The start is above the haystack's
    /// length or on a character boundary.
    ///
    /// # Errors
    ///
    /// `Memory` if memory runs out.
    pub fn is_match_of_at(&self, number: usize, haystack: &str, start: usize) -> Result<bool, Error>
        requires number { number < length self.now }
        requires start { CanStartAt haystack.now start }
        ensures found { IfOk result (λ found. OfPattern self.now number
            (λ re. IsTrue found ↔ MatchesFrom re haystack.now start)) }
        ensures refused { IfErr result (λ error. error ≡ out_of_memory) }
    {
        let graph = &self.compiled.graph;
        let found = search_listed_any(graph, number, self.alloc, haystack, start)?;
        Ok(found)
    }

    /// The match of the pattern with this number that starts first: the one that the pattern's own
    /// [`Regex`](crate::Regex) finds.
    ///
    /// Condition: the list has more patterns than this number.
    ///
    /// # Errors
    ///
    /// `Memory` if memory runs out.
    pub fn find_of<'h>(&self, number: usize, haystack: &'h str) -> Result<Option<Match<'h>>, Error>
        requires { number < length self.now }
        ensures found { IfOk result (λ found. OfPattern self.now number
            (λ re. TellsMatch re haystack.now 0 found)) }
        ensures refused { IfErr result (λ error. error ≡ out_of_memory) }
    {
        self.find_of_at(number, haystack, 0)
    }

    /// The match of the pattern with this number that starts first, at this offset or later.
    ///
    /// Looks see the whole haystack, as they do in [`RegexList::is_match_at`].
    ///
    /// Conditions: the list has more patterns than this number. The start is above the haystack's
    /// length or on a character boundary.
    ///
    /// # Errors
    ///
    /// `Memory` if memory runs out.
    pub fn find_of_at<'h>(
        &self,
        number: usize,
        haystack: &'h str,
        start: usize,
    ) -> Result<Option<Match<'h>>, Error>
        requires number { number < length self.now }
        requires start { CanStartAt haystack.now start }
        ensures found { IfOk result (λ found. OfPattern self.now number
            (λ re. TellsMatch re haystack.now start found)) }
        ensures refused { IfErr result (λ error. error ≡ out_of_memory) }
    {
        let graph = &self.compiled.graph;
        let Some(outcome) = search_listed(graph, number, self.alloc, haystack, start, 0)? else {
            return Ok(None);
        };
        let found = Match::new(haystack, outcome.start, outcome.end);
        Ok(Some(found))
    }

    /// The groups of the match that [`RegexList::find_of`] returns, with the pattern's own indices
    /// and names.
    ///
    /// A router that takes the first of its rules that matches anywhere first finds out which
    /// match, and then searches for the groups of that one:
    ///
    /// ```
    /// let rules = RegexList::new(alloc, &["id=([0-9]+)", "([a-z]+)=([0-9]+)"])?;
    /// let set = rules.matches("x=1&id=72")?;
    /// set.matched(0); // true, though the other rule matches further to the left
    /// if let Some(caps) = rules.captures_of(0, "x=1&id=72")? {
    ///     caps.get(1); // the match of "72"
    /// }
    /// ```
    ///
    /// The test `examples::lists::first_rule` in tests/unit runs this example.
    ///
    /// Condition: the list has more patterns than this number.
    ///
    /// # Errors
    ///
    /// `Memory` if memory runs out.
    pub fn captures_of<'h>(
        &self,
        number: usize,
        haystack: &'h str,
    ) -> Result<Option<Captures<'h>>, Error>
        requires { number < length self.now }
        ensures found { IfOk result (λ found. OfPattern self.now number
            (λ re. TellsGroups re haystack.now 0 found)) }
        ensures of_match { IfOk result (λ found. IfSome found
            (λ groups. AreOfPattern self.now (number, groups))) }
        ensures refused { IfErr result (λ error. error ≡ out_of_memory) }
    {
        self.captures_of_at(number, haystack, 0)
    }

    /// The groups of the match that [`RegexList::find_of_at`] returns, with the pattern's own
    /// indices and names.
    ///
    /// Looks see the whole haystack, as they do in [`RegexList::is_match_at`].
    ///
    /// Conditions: the list has more patterns than this number. The start is above the haystack's
    /// length or on a character boundary.
    ///
    /// # Errors
    ///
    /// `Memory` if memory runs out.
    pub fn captures_of_at<'h>(
        &self,
        number: usize,
        haystack: &'h str,
        start: usize,
    ) -> Result<Option<Captures<'h>>, Error>
        requires number { number < length self.now }
        requires start { CanStartAt haystack.now start }
        ensures found { IfOk result (λ found. OfPattern self.now number
            (λ re. TellsGroups re haystack.now start found)) }
        ensures of_match { IfOk result (λ found. IfSome found
            (λ groups. AreOfPattern self.now (number, groups))) }
        ensures refused { IfErr result (λ error. error ≡ out_of_memory) }
    {
        let count = kept_of(self.slots_of(number));
        let whole = whole_slots(self.alloc, count)?;
        let graph = &self.compiled.graph;
        let reported = search_listed(graph, number, self.alloc, haystack, start, count)?;
        let Some(Outcome { start, end, slots }) = reported else {
            return Ok(None);
        };
        let slots = slots_with(slots, whole, (start, end));
        let source = Source::of_listed(self.compiled.clone()?, number);
        let caps = Captures::new(haystack, slots, source);
        Ok(Some(caps))
    }
}
