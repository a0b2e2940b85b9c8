//! The groups of a match.
ghost use Rattle.std.specs.Prelude.{◌≡◌, ◌≤◌, Some, IsSome, IfSome, length, option_map, take};
ghost use Rattle.regex_lite.specs.Groups.{AreGroups, group_span, group_text};
ghost use Rattle.regex_lite.specs.Groups.{named_span, named_text};
ghost use Rattle.regex_lite.specs.Compiled.{groups_of, names_of};

use crate::string::captures_in::CapturesIn;
use crate::string::locations::CaptureLocations;
use crate::string::matches::Match;
use crate::string::source::Source;
use crate::string::sub_captures::SubCaptureMatches;
use std::fmt;
use std::marker::Model;
use std::ops::Deref;

/// The groups of a match: the last span of each group that took part.
///
/// It borrows only the haystack, and shares the names of the groups with the regex, or the list of
/// patterns, that found it.
///
/// ```
/// let regex = Regex::new(alloc, "(?<key>[a-z]+)=([0-9]+)?")?;
/// if let Some(caps) = regex.captures("width=")? {
///     caps.at(0); // "width="
///     if caps.name("key").is_some() {
///         caps.at_name("key"); // "width"
///     }
///     caps.get(2); // None
/// }
/// ```
///
/// The test `examples::groups` in tests/unit runs this example.
#[derive(Drop)]
pub struct Captures<'h> {
    inner: CapturesIn<&'h str>,
}

impl<'h> Model for Captures<'h> {
    ghost use Rattle.regex_lite.specs.Groups.{Groups};

    ghost Value = { Groups };

    ghost view = { λ caps. caps.inner };
}

/// Gives access to [`CapturesIn::extract`].
impl<'h> Deref for Captures<'h> {
    type Target = CapturesIn<&'h str>;

    ghost deref_gives = { λ caps inner. inner ≡ caps };

    fn deref(&self) -> &CapturesIn<&'h str>
        ensures { result.now ≡ self.now }
    {
        &self.inner
    }
}

impl<'h> Captures<'h> {
    ghost use Rattle.regex_lite.specs.MatchViews.{haystack_of_match, span_of_match};

    /// The groups with these slots. The source has their names.
    pub(super) fn new(haystack: &'h str, slots: Vec<Option<usize>>, source: Source) -> Captures<'h>
        requires { AreGroups (groups_of haystack.now slots.items source) }
        ensures { result ≡ groups_of haystack.now slots.items source }
    {
        Captures {
            inner: CapturesIn::new(haystack, slots, source),
        }
    }

    /// The slots and the source of the names.
    pub(super) fn into_parts(self) -> (Vec<Option<usize>>, Source)
        ensures names { names_of result.1 ≡ self.entry.names }
        ensures static_captures { result.1.static_captures_len ≡ self.entry.static_captures_len }
    {
        self.inner.into_parts()
    }

    /// The last match of the group with this index, or `None` if there is no such group or it took
    /// no part. Group 0 is the whole match.
    pub fn get(&self, i: usize) -> Option<Match<'h>>
        ensures span { option_map span_of_match result ≡ group_span self.now i }
        ensures haystack { IfSome result (λ m. haystack_of_match m ≡ self.now.haystack) }
    {
        let (start, end) = self.inner.span(i)?;
        Some(Match::new(self.inner.haystack, start, end))
    }

    /// The last match of the group with this name, or `None` if there is no such group or it took
    /// no part.
    ///
    /// ```
    /// let regex = Regex::new(alloc, "(?<first>[a-z])(?<second>[0-9])?")?;
    /// if let Some(caps) = regex.captures("a")? {
    ///     caps.name("first"); // the match of "a"
    ///     caps.name("second"); // None
    ///     caps.name("third"); // None
    /// }
    /// ```
    ///
    /// The test `examples::named_groups` in tests/unit runs this example.
    pub fn name(&self, name: &str) -> Option<Match<'h>>
        ensures span { option_map span_of_match result ≡ named_span self.now name.now }
        ensures haystack { IfSome result (λ m. haystack_of_match m ≡ self.now.haystack) }
    {
        let i = self.inner.index_of(name)?;
        self.get(i)
    }

    /// The last match of each group, beginning with the whole match: [`Captures::get`] of each
    /// index below [`Captures::len`].
    pub fn iter<'c>(&'c self) -> SubCaptureMatches<'c, 'h>
        ensures haystack { result.groups ≡ self.now }
        ensures groups { result.spans ≡ self.now.spans }
    {
        SubCaptureMatches::new(self)
    }

    /// The number of groups, including the whole match: the `captures_len` of the pattern.
    pub fn len(&self) -> usize
        ensures { result ≡ length self.now.spans }
    {
        self.inner.groups()
    }

    /// The text of the group with this index.
    ///
    /// Condition: the group exists and took part, as [`Captures::get`] shows.
    ///
    /// ```
    /// let regex = Regex::new(alloc, "(a+)(b+)?")?;
    /// if let Some(caps) = regex.captures("xaa")? {
    ///     caps.at(0); // "aa": the whole match always took part
    ///     if caps.get(1).is_some() {
    ///         caps.at(1); // "aa"
    ///     }
    /// }
    /// ```
    ///
    /// The test `examples::group_texts` in tests/unit runs this example.
    pub fn at(&self, i: usize) -> &'h str
        requires { IsSome (group_span self.now i) }
        ensures { Some result.now ≡ group_text self.now i }
    {
        match self.get(i) {
            Some(found) => found.as_str(),
            None => unreachable!(),
        }
    }

    /// The text of the group with this name.
    ///
    /// Condition: the group exists and took part, as [`Captures::name`] shows.
    ///
    /// ```
    /// let regex = Regex::new(alloc, "(?<key>[a-z]+)=")?;
    /// if let Some(caps) = regex.captures("width=")? {
    ///     if caps.name("key").is_some() {
    ///         caps.at_name("key"); // "width"
    ///     }
    /// }
    /// ```
    ///
    /// The test `examples::groups` in tests/unit makes this call.
    pub fn at_name(&self, name: &str) -> &'h str
        requires { IsSome (named_span self.now name.now) }
        ensures { Some result.now ≡ named_text self.now name.now }
    {
        match self.name(name) {
            Some(found) => found.as_str(),
            None => unreachable!(),
        }
    }

    /// Writes as many groups as the locations have to them.
    pub(super) fn write(&self, locs: &mut CaptureLocations)
        requires { length locs.old ≤ length self.now.spans }
        ensures spans { locs.new ≡ take (length locs.old) self.now.spans }
        ensures len { length locs.new ≡ length locs.old }
    {
        self.inner.write(locs);
    }
}

/// Writes the match of each group.
impl<'h> fmt::Debug for Captures<'h> {
    fn fmt<W: fmt::Write>(&self, f: &mut fmt::Formatter<W>) -> fmt::Result {
        f.debug_list().entries(self.iter()).finish()
    }
}
