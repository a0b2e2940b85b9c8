//! A searcher, which callers keep to search many haystacks.
//!
//! It has two memories: one without slots and, if the regex has groups, one with slots for them. A
//! filter asks for matches far more often than for groups. Without slots a search copies no rows
//! and can go by a lazy DFA. `captures_read` finds the match in the first memory, and then its
//! groups in the second from where it begins, so that nothing before a match is gone over with
//! slots. One memory for both would make each search for a match pay for groups. Memory that no
//! search comes to is only reserved. No haystack is too short for the DFA here, since there may
//! always be another one.
ghost use Rattle.std.specs.Prelude.{◌≡◌, ◌↔◌, ◌*◌, ℕ, None, Some, IfOk, IfErr, IsTrue, length};
ghost use Rattle.regex_lite_syntax.specs.Errors.{out_of_memory};
ghost use Rattle.regex_lite_syntax.specs.Tree.Properties.{captures_len};
ghost use Rattle.regex_lite.specs.Expression.{OfTree};
ghost use Rattle.regex_lite.specs.Keeping.{SearchesForGroups};
ghost use Rattle.regex_lite.specs.Searches.{CanRead, CanStartAt, MatchesFrom};
ghost use Rattle.regex_lite.specs.Searches.{TellsLocations, TellsMatch};

use crate::string::group_searcher::GroupSearcher;
use crate::string::held::HeldRegex;
use crate::string::iter::scan::match_at;
use crate::string::locations::CaptureLocations;
use crate::string::matches::Match;
use crate::string::regex::Regex;
use crate::string::searcher::Searcher;
use regex_lite_syntax::Error;
use std::fmt;
use std::marker::Model;

/// The assumed length of all haystacks together, in bytes: there may always be another one.
pub(crate) const ENDLESS: usize = usize::MAX;

/// A searcher runs a regex over many haystacks: the regex, and the memory of its searches.
///
/// [`Regex::searcher`] makes one that borrows the regex, and [`Regex::into_searcher`] one that owns
/// it. Each call returns what the regex's call of the same name returns, whatever was searched
/// before. But no call needs memory, so none fails, and searches reuse the transitions that earlier
/// searches have cached.
///
/// ```
/// let regex = Regex::new(alloc, "warn|error")?;
/// let mut searcher = regex.searcher()?;
/// searcher.is_match("2 warnings"); // true
/// searcher.is_match("all is well"); // false
/// ```
///
/// The test `examples::many_haystacks` in tests/unit runs this example.
#[derive(Drop)]
pub struct RegexSearcher<'r> {
    pub(super) matches: Searcher<'r>,
    /// Finds the slots of all groups, if there are groups besides the whole match.
    groups: Option<GroupSearcher<'r>>,
}

impl<'r> Model for RegexSearcher<'r> {
    ghost use Rattle.regex_lite.specs.Expression.{Expression};
    ghost use Rattle.regex_lite.specs.Keeping.{SearchesForGroups};

    ghost Value = { Expression };

    ghost view = { λ searcher. searcher.matches.regex };

    ghost invariant = { λ searcher. SearchesForGroups searcher.matches.regex searcher.groups };
}

impl Regex {
    /// A searcher of this regex for many haystacks.
    ///
    /// It allocates all memory that its searches need, including the memory for groups and for
    /// cached transitions. It has no such cache if each match begins with one of a few characters
    /// and nothing in the pattern branches.
    ///
    /// # Errors
    ///
    /// `Memory` if memory runs out.
    pub fn searcher(&self) -> Result<RegexSearcher<'_>, Error>
        ensures regex { IfOk result (λ searcher. searcher ≡ self.now) }
        ensures refused { IfErr result (λ error. error ≡ out_of_memory) }
    {
        RegexSearcher::of(HeldRegex::lent(self), self.slots())
    }

    /// A searcher that owns this regex. It borrows nothing, so it can be stored or returned without
    /// the regex.
    ///
    /// Otherwise it is like [`Regex::searcher`]. A caller that needs both can clone the regex,
    /// which is cheap.
    ///
    /// ```
    /// fn warnings(alloc: Global) -> Result<RegexSearcher<'static>, Error> {
    ///     Regex::new(alloc, "warn|error")?.into_searcher()
    /// }
    ///
    /// let mut searcher = warnings(alloc)?;
    /// searcher.is_match("2 warnings"); // true
    /// ```
    ///
    /// The test `examples::owned_searcher` in tests/unit runs this example.
    ///
    /// # Errors
    ///
    /// `Memory` if memory runs out. Then the regex is dropped.
    pub fn into_searcher(self) -> Result<RegexSearcher<'static>, Error>
        ensures regex { IfOk result (λ searcher. searcher ≡ self) }
        ensures refused { IfErr result (λ error. error ≡ out_of_memory) }
    {
        let slots = self.slots();
        RegexSearcher::of(HeldRegex::own(self), slots)
    }
}

/// The searcher for the groups of this regex's matches, which have `slots` slots, if there are
/// groups besides the whole match.
fn searcher_of_groups<'r>(
    regex: &HeldRegex<'r>,
    slots: usize,
) -> Result<Option<GroupSearcher<'r>>, Error>
    requires { OfTree regex.now.pattern (λ tree. slots ≡ 2 * captures_len tree) }
    ensures groups { IfOk result (SearchesForGroups regex.now.pattern) }
    ensures refused { IfErr result (λ error. error ≡ out_of_memory) }
{
    if slots == 2 {
        return Ok(None);
    }
    let searcher = GroupSearcher::new(regex.clone()?, slots)?;
    Ok(Some(searcher))
}

impl<'r> RegexSearcher<'r> {
    /// A searcher of a held regex whose matches have `slots` slots.
    fn of(regex: HeldRegex<'r>, slots: usize) -> Result<RegexSearcher<'r>, Error>
        requires { OfTree regex.pattern (λ tree. slots ≡ 2 * captures_len tree) }
        ensures regex { IfOk result (λ searcher. searcher ≡ regex.entry.pattern) }
        ensures refused { IfErr result (λ error. error ≡ out_of_memory) }
    {
        let groups = searcher_of_groups(&regex, slots)?;
        let matches = Searcher::of(regex, 0, ENDLESS)?;
        Ok(RegexSearcher { matches, groups })
    }

    /// [`Regex::is_match`], but it never fails.
    pub fn is_match(&mut self, haystack: &str) -> bool
        ensures found { IsTrue result ↔ MatchesFrom self.old haystack.now 0 }
        ensures same { self.new ≡ self.old }
    {
        self.matches.is_match(haystack)
    }

    /// [`Regex::find`], but it never fails.
    pub fn find<'h>(&mut self, haystack: &'h str) -> Option<Match<'h>>
        ensures found { TellsMatch self.old haystack.now 0 result }
        ensures same { self.new ≡ self.old }
    {
        self.find_at(haystack, 0)
    }

    /// [`Regex::find_at`], but it never fails.
    ///
    /// Condition: the start is above the haystack's length or on a character boundary.
    pub fn find_at<'h>(&mut self, haystack: &'h str, start: usize) -> Option<Match<'h>>
        requires { CanStartAt haystack.now start }
        ensures found { TellsMatch self.old haystack.now start result }
        ensures same { self.new ≡ self.old }
    {
        let (_, found) = match_at(&mut self.matches, haystack, start)?;
        Some(found)
    }

    /// [`Regex::captures_read`], but it never fails.
    ///
    /// It writes as many groups as the locations have. Without a match the locations are unchanged.
    ///
    /// Condition: the locations have no more groups than the regex.
    ///
    /// ```
    /// let regex = Regex::new(alloc, "([a-z]+)=([0-9]+)")?;
    /// let mut searcher = regex.searcher()?;
    /// let mut locations = regex.capture_locations()?;
    /// searcher.captures_read(&mut locations, "width=72"); // the match of "width=72"
    /// locations.get(2); // Some((6, 8))
    /// searcher.captures_read(&mut locations, "#height=5"); // the match of "height=5"
    /// locations.get(2); // Some((8, 9))
    /// ```
    ///
    /// The test `examples::many_reads` in tests/unit runs this example.
    pub fn captures_read<'h>(
        &mut self,
        locs: &mut CaptureLocations,
        haystack: &'h str,
    ) -> Option<Match<'h>>
        requires { CanRead self.old locs.old }
        ensures found { TellsLocations self.old haystack.now 0 locs.new result }
        ensures len { length locs.new ≡ length locs.old }
        ensures again { CanRead self.new locs.new }
        ensures none { result ≡ None → locs.new ≡ locs.old }
        ensures same { self.new ≡ self.old }
    {
        self.captures_read_at(locs, haystack, 0)
    }

    /// [`Regex::captures_read_at`], but it never fails.
    ///
    /// It writes as many groups as the locations have. Without a match the locations are unchanged.
    ///
    /// Conditions: the locations have no more groups than the regex. The start is above the
    /// haystack's length or on a character boundary.
    pub fn captures_read_at<'h>(
        &mut self,
        locs: &mut CaptureLocations,
        haystack: &'h str,
        start: usize,
    ) -> Option<Match<'h>>
        requires room { CanRead self.old locs.old }
        requires start { CanStartAt haystack.now start }
        ensures found { TellsLocations self.old haystack.now start locs.new result }
        ensures len { length locs.new ≡ length locs.old }
        ensures again { CanRead self.new locs.new }
        ensures none { result ≡ None → locs.new ≡ locs.old }
        ensures same { self.new ≡ self.old }
    {
        let found = self.find_at(haystack, start)?;
        self.read(haystack, &found, locs);
        Some(found)
    }

    /// Writes the groups of a match in the haystack to the locations, as many as the locations
    /// have.
    pub(super) fn read<'h>(
        &mut self,
        haystack: &'h str,
        found: &Match<'h>,
        locs: &mut CaptureLocations,
    )
        requires few { CanRead self.old locs.old }
        requires found { (start : ℕ) × TellsMatch self.old haystack.now start (Some found.now) }
        ensures locations { (start : ℕ) → TellsMatch self.old haystack.now start (Some found.now)
            → TellsLocations self.old haystack.now start locs.new (Some found.now) }
        ensures len { length locs.new ≡ length locs.old }
        ensures same { self.new ≡ self.old }
    {
        let Some(groups) = &mut self.groups else {
            locs.write(&[Some(found.start()), Some(found.end())]);
            return;
        };
        groups.read(haystack, (found.start(), found.end()), locs);
    }
}

/// Writes the regex as the only field of `RegexSearcher`.
impl<'r> fmt::Debug for RegexSearcher<'r> {
    fn fmt<W: fmt::Write>(&self, f: &mut fmt::Formatter<W>) -> fmt::Result {
        f.debug_tuple("RegexSearcher")
            .field(&self.matches.compiled())
            .finish()
    }
}
