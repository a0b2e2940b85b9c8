//! A match: a part of a haystack that a pattern matches.
ghost use Rattle.std.specs.Prelude.{◌≡◌, ◌-◌, ◌↔◌, IsTrue};
ghost use Rattle.regex_lite.specs.Groups.{LiesIn};

use std::fmt;
use std::ops::Range;

/// A match: a part of the haystack, from one offset to another.
///
/// It borrows only the haystack, so it can outlive the regex that found it. Two matches are equal
/// if the texts of their haystacks, their starts and their ends are equal.
#[derive(Clone, Copy)]
pub struct Match<'h> {
    haystack: &'h str,
    start: usize,
    end: usize,
    pub ghost lies_in: { LiesIn haystack.now (start, end) },
}

impl<'h> Match<'h> {
    ghost use Rattle.regex_lite.specs.MatchViews.{haystack_of_match, span_of_match, text_of_match};

    /// The match from one offset of the haystack to another.
    ///
    /// Condition: the offsets are in order, in the haystack and on character boundaries.
    pub(super) fn new(haystack: &'h str, start: usize, end: usize) -> Match<'h>
        requires { LiesIn haystack.now (start, end) }
        ensures span { span_of_match result ≡ (start, end) }
        ensures haystack { haystack_of_match result ≡ haystack.now }
    {
        Match {
            haystack,
            start,
            end,
        }
    }

    /// The offset of the match's first byte.
    pub fn start(&self) -> usize
        ensures { result ≡ (span_of_match self.now).0 }
    {
        self.start
    }

    /// The offset after the match's last byte.
    pub fn end(&self) -> usize
        ensures { result ≡ (span_of_match self.now).1 }
    {
        self.end
    }

    /// Whether the match is empty.
    pub fn is_empty(&self) -> bool
        ensures { IsTrue result ↔ ((span_of_match self.now).0 ≡ (span_of_match self.now).1) }
    {
        self.start == self.end
    }

    /// The length of the match in bytes.
    pub fn len(&self) -> usize
        ensures { result ≡ (span_of_match self.now).1 - (span_of_match self.now).0 }
    {
        self.end - self.start
    }

    /// The range from the match's start to its end.
    pub fn range(&self) -> Range<usize>
        ensures { span_of_match self.now ≡ (result.start, result.end) }
    {
        self.start..self.end
    }

    /// The text of the match, as a part of the haystack.
    ///
    /// ```
    /// let regex = Regex::new(alloc, "[0-9]+")?;
    /// if let Some(found) = regex.find("b52")? {
    ///     found.as_str(); // "52"
    ///     found.range(); // 1..3
    /// }
    /// ```
    ///
    /// The test `examples::matched_text` in tests/unit runs this example.
    pub fn as_str(&self) -> &'h str
        ensures { result.now ≡ text_of_match self.now }
    {
        &self.haystack[self.start..self.end]
    }
}

impl<'h> PartialEq for Match<'h> {
    ghost use Rattle.std.proofs.Common.{rules};
    ghost use Rattle.std.specs.Cmp.Rules.{comparing};
    ghost use Rattle.regex_lite.specs.MatchViews.{is_same_match};

    ghost eq = { is_same_match };

    ghost laws = { Prim.search (comparing, rules) };

    /// Whether the haystacks have the same text and the offsets are equal.
    fn eq(&self, other: &Match<'h>) -> bool {
        self.haystack == other.haystack && self.start == other.start && self.end == other.end
    }
}

impl<'h> Eq for Match<'h> {
    ghost use Rattle.std.proofs.Common.{rules};
    ghost use Rattle.std.specs.Cmp.Rules.{comparing};

    ghost laws = { Prim.search (comparing, rules) };
}

/// Writes the two offsets and the text of the match.
impl<'h> fmt::Debug for Match<'h> {
    fn fmt<W: fmt::Write>(&self, f: &mut fmt::Formatter<W>) -> fmt::Result {
        f.debug_struct("Match")
            .field("start", &self.start)
            .field("end", &self.end)
            .field("string", &self.as_str())
            .finish()
    }
}

impl<'h> From<Match<'h>> for &'h str {
    ghost use Rattle.regex_lite.specs.MatchViews.{text_of_match};

    ghost from_gives = { λ found text. text.now ≡ text_of_match found };

    /// The text of the match.
    fn from(m: Match<'h>) -> &'h str {
        m.as_str()
    }
}

impl<'h> From<Match<'h>> for Range<usize> {
    ghost use Rattle.regex_lite.specs.MatchViews.{span_of_match};

    ghost from_gives = { λ found range. span_of_match found ≡ (range.start, range.end) };

    /// The range from the match's start to its end.
    fn from(m: Match<'h>) -> Range<usize> {
        m.range()
    }
}
