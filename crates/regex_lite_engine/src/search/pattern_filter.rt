//! Filters for the positions at which a match of one pattern can begin.
ghost use Rattle.std.specs.Prelude.{◌≡◌, ℕ, IfSome, IsTrue, Some, false, chars, IsCharBoundary};
ghost use Rattle.regex_lite_syntax.specs.Prefilter.StartFacts.{NeverStarts};
ghost use Rattle.regex_lite_syntax.specs.Prefilter.FirstSet.{may_begin};
ghost use Rattle.regex_lite_engine.specs.Search.Filters.{facts_of};
ghost use Rattle.regex_lite_engine.specs.Search.Offsets.{IsOffset};
ghost use Rattle.regex_lite_engine.specs.Search.Here.{IsHere};
ghost use Rattle.regex_lite_engine.specs.Search.Starts.{PassesTo, SkipsTo};

use crate::search::here::Here;
use crate::search::prefix::Prefix;
use crate::search::start_finder::{first_start, next_start};
use regex_lite_syntax::prefilter::{Filter, Words};

/// A filter for the positions at which a match of a pattern can begin.
#[derive(Clone, Copy)]
pub enum PatternFilter<'g> {
    /// Each match begins with these two characters.
    Literal(Prefix),
    /// The filter of the whole tree.
    Whole(&'g Filter),
}

impl<'g> PatternFilter<'g> {
    /// Whether a match can begin here, judging by the next character. At the haystack's end the
    /// answer is always yes.
    // Inlined, and so are the next ones, since they are called at each position: as calls they made
    // `find` by line up to 1.57 times as expensive.
    #[inline(always)]
    pub(crate) fn may_begin(self, here: Here) -> bool
        ensures { result ≡ false
            → may_begin (facts_of self.entry).prefixes.first here.before here.after ≡ false }
    {
        match self {
            PatternFilter::Whole(filter) => {
                filter.prefixes().first.may_begin(here.before, here.after)
            }
            PatternFilter::Literal(prefix) => prefix.may_begin(here.after),
        }
    }

    /// Whether a match can begin here, judging by the next character and, if each match begins with
    /// one of some words, by those words.
    #[inline(always)]
    pub(crate) fn may_start(self, haystack: &str, here: Here) -> bool
        requires { (p : ℕ) × IsHere (chars haystack.now) p here }
        ensures { result ≡ false → (p : ℕ) → IsHere (chars haystack.now) p here
            → NeverStarts (facts_of self.entry) (chars haystack.now) p }
    {
        if !self.may_begin(here) {
            return false;
        }
        self.may_stand(haystack, here)
    }

    /// Whether one of the words occurs here, if each match begins with one of some words; otherwise
    /// true.
    #[inline(always)]
    fn may_stand(self, haystack: &str, here: Here) -> bool
        requires { (p : ℕ) × IsHere (chars haystack.now) p here }
        ensures { result ≡ false → (p : ℕ) → IsHere (chars haystack.now) p here
            → NeverStarts (facts_of self.entry) (chars haystack.now) p }
    {
        match self {
            PatternFilter::Whole(filter) => match filter.words() {
                None => true,
                Some(words) => words.may_stand(haystack.as_bytes(), here.at),
            },
            PatternFilter::Literal(_) => true,
        }
    }

    /// The next position after this one at which a match can begin, or the haystack's end. None if
    /// one may begin here.
    #[inline(always)]
    pub(crate) fn skip(self, haystack: &str, here: Here) -> Option<Here>
        requires { (p : ℕ) × IsHere (chars haystack.now) p here }
        ensures { (p : ℕ) → IsHere (chars haystack.now) p here → IfSome result
            (PassesTo (NeverStarts (facts_of self.entry) (chars haystack.now))
            (chars haystack.now) p) }
    {
        let at = self.next_start(haystack, here)?;
        Some(Here::at(haystack, at))
    }

    /// The offset of the next position after this one at which a match can begin, or of the
    /// haystack's end. `None` if one may begin here.
    #[inline(always)]
    fn next_start(self, haystack: &str, here: Here) -> Option<usize>
        requires { (p : ℕ) × IsHere (chars haystack.now) p here }
        ensures boundary { IfSome result (IsCharBoundary haystack.now) }
        ensures passes { (p : ℕ) → IsHere (chars haystack.now) p here → IfSome result
            (SkipsTo (NeverStarts (facts_of self.entry) (chars haystack.now)) haystack.now p) }
    {
        match self {
            PatternFilter::Whole(filter) => next_start(filter, haystack, here),
            PatternFilter::Literal(prefix) => prefix.next_start(haystack, here),
        }
    }

    /// The first offset from this one on at which a match can begin, or the haystack's end.
    #[inline(always)]
    pub(crate) fn first_start(self, haystack: &str, from: usize) -> usize
        requires { IsCharBoundary haystack.now from }
        ensures boundary { IsCharBoundary haystack.now result }
        ensures passes { (p : ℕ) → IsOffset (chars haystack.now) p from
            → SkipsTo (NeverStarts (facts_of self.entry) (chars haystack.now)) haystack.now p
            result }
    {
        match self {
            PatternFilter::Whole(filter) => first_start(filter, haystack, from),
            PatternFilter::Literal(prefix) => prefix.next_offset(haystack.as_bytes(), from),
        }
    }

    /// Whether no match begins with a character: then matches begin only at the haystack's start or
    /// end.
    #[inline(always)]
    pub(crate) fn begins_with_none(self) -> bool
        ensures { IsTrue result → (facts_of self.entry).prefixes.first.any ≡ false }
    {
        match self {
            PatternFilter::Whole(filter) => !filter.prefixes().first.any,
            PatternFilter::Literal(_) => false,
        }
    }

    /// The words of the pattern, if its matches are exactly these words.
    #[inline(always)]
    pub(crate) fn whole_words(self) -> Option<&'g Words>
        ensures words { IfSome result (λ words. (facts_of self.entry).words ≡ Some words.now) }
        ensures all { IfSome result (λ _. IsTrue (facts_of self.entry).are_all) }
    {
        match self {
            PatternFilter::Whole(filter) => filter.whole_words(),
            PatternFilter::Literal(_) => None,
        }
    }

    /// Whether positions are skipped many bytes at a time.
    pub(crate) fn has_prefilter(self) -> bool {
        match self {
            PatternFilter::Whole(filter) => {
                filter.words().is_some()
                    || filter.prefilter().is_some()
                    || filter.needed().is_some()
            }
            PatternFilter::Literal(_) => true,
        }
    }
}
