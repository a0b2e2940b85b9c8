//! Building the new text of a haystack whose matches are replaced.
ghost use Rattle.std.specs.Prelude.{◌≡◌, ◌≤◌, ◌+◌, ◌++◌, ◌⊎◌, ℕ, List, [], Some, None, Ok, Err};
ghost use Rattle.std.specs.Prelude.{IfOk, IfErr, MatchOption, IsCharBoundary, drop, string_bytes};
ghost use Rattle.std.specs.Prelude.{unwrap_or};
ghost use Rattle.std.specs.Cow.{IsOwnedStr, cow_str_bytes};
ghost use Rattle.regex_lite_syntax.specs.Errors.{out_of_memory};
ghost use Rattle.regex_lite.specs.Ahead.{IsOnward};
ghost use Rattle.regex_lite.specs.Groups.{LiesIn, whole_span};
ghost use Rattle.regex_lite.specs.Replacements.{most_replaced};

use crate::string::captures::Captures;
use crate::string::matches::Match;
use crate::string::replacer::Replacer;
use regex_lite_syntax::Error;
use std::alloc::Global;
use std::borrow::CowStr;

/// A haystack, the new text up to the end of the last match, and the number of matches that were
/// replaced.
#[derive(Drop)]
pub(super) struct Rewrite<'h> {
    haystack: &'h str,
    text: String,
    ended: Option<usize>,
    replaced: usize,
    ghost stands: { IsCharBoundary haystack.now (unwrap_or ended 0) },
    ghost few: { replaced ≤ most_replaced ended },
}

impl<'h> Rewrite<'h> {
    ghost use Rattle.regex_lite.specs.MatchViews.{haystack_of_match, span_of_match};
    ghost use Rattle.regex_lite.specs.Rewriting.{text_up_to};

    /// A rewrite of the haystack before its first match.
    pub fn start(alloc: Global, haystack: &'h str) -> Rewrite<'h>
        ensures haystack { result.haystack ≡ haystack.entry }
        ensures text { string_bytes result.text ≡ [] }
        ensures ended { result.ended ≡ None }
        ensures counted { result.replaced ≡ 0 }
    {
        Rewrite {
            haystack,
            text: String::new(alloc),
            ended: None,
            replaced: 0,
        }
    }

    /// Replaces the next match with this text.
    pub fn replace(&mut self, found: &Match<'h>, text: &str) -> Result<(), Error>
        requires haystack { haystack_of_match found.now ≡ self.old.haystack.now }
        requires onward { IsOnward self.old.ended (span_of_match found.now) }
        ensures text { IfOk result (λ _. string_bytes self.new.text
            ≡ text_up_to self.old (span_of_match found.now).0 ++ text.now) }
        ensures haystack { self.new.haystack ≡ self.old.haystack }
        ensures ended { IfOk result (λ _. self.new.ended ≡ Some (span_of_match found.now).1) }
        ensures counted { IfOk result (λ _. self.new.replaced ≡ self.old.replaced + 1) }
        ensures refused { IfErr result (λ error. error ≡ out_of_memory) }
    {
        self.pass(found.start(), found.end())?;
        self.text.push_str(text)?;
        Ok(())
    }

    /// Replaces the next match, which has these groups, with what the replacer appends.
    pub fn replace_with<R: Replacer>(
        &mut self,
        caps: &Captures<'h>,
        rep: &mut R,
    ) -> Result<(), Error>
        requires can_append { R.can_append rep.old }
        requires haystack { caps.now.haystack ≡ self.old.haystack.now }
        requires onward { IsOnward self.old.ended (whole_span caps.now) }
        ensures text { IfOk result (λ _. (text : List ℕ)
            × R.appends rep.old caps.now text (Ok tt) rep.new
            × (string_bytes self.new.text ≡ text_up_to self.old (whole_span caps.now).0 ++ text)) }
        ensures haystack { self.new.haystack ≡ self.old.haystack }
        ensures ended { IfOk result (λ _. self.new.ended ≡ Some (whole_span caps.now).1) }
        ensures counted { IfOk result (λ _. self.new.replaced ≡ self.old.replaced + 1) }
        ensures again { R.can_append rep.new }
        ensures refused { IfErr result (λ error. ((error ≡ out_of_memory) × (rep.new ≡ rep.old))
            ⊎ ((text : List ℕ) × R.appends rep.old caps.now text (Err error) rep.new)) }
    {
        let (start, end) = caps.whole_span();
        self.pass(start, end)?;
        rep.replace_append(caps, &mut self.text)
    }

    /// The new text with the rest of the haystack, or the haystack if nothing was replaced, and the
    /// number of matches that were replaced.
    pub fn finish(mut self) -> Result<(CowStr<'h>, usize), Error>
        ensures ok { IfOk result (λ new. MatchOption self.entry.ended
            (new.0 ≡ CowStr.Borrowed self.entry.haystack)
            (λ from. IsOwnedStr new.0 × (cow_str_bytes new.0
            ≡ string_bytes self.entry.text ++ drop from self.entry.haystack.now))) }
        ensures counted { IfOk result (λ new. new.1 ≡ self.entry.replaced) }
        ensures refused { IfErr result (λ error. error ≡ out_of_memory) }
    {
        let Some(from) = self.ended else {
            return Ok((CowStr::Borrowed(self.haystack), self.replaced));
        };
        let rest = &self.haystack[from..];
        self.text.push_str(rest)?;
        Ok((CowStr::Owned(self.text), self.replaced))
    }

    /// Appends the text before the next match, and moves past that match.
    fn pass(&mut self, start: usize, end: usize) -> Result<(), Error>
        requires lies_in { LiesIn self.old.haystack.now (start, end) }
        requires onward { IsOnward self.old.ended (start, end) }
        ensures text { IfOk result (λ _. string_bytes self.new.text ≡ text_up_to self.old start) }
        ensures haystack { self.new.haystack ≡ self.old.haystack }
        ensures ended { IfOk result (λ _. self.new.ended ≡ Some end) }
        ensures counted { IfOk result (λ _. self.new.replaced ≡ self.old.replaced + 1) }
        ensures refused { IfErr result (λ error. error ≡ out_of_memory) }
    {
        let from = self.ended.unwrap_or(0);
        // At the first match this reserves room for the whole haystack.
        self.text.reserve(self.haystack.len() - from)?;
        self.text.push_str(&self.haystack[from..start])?;
        self.ended = Some(end);
        self.replaced += 1;
        Ok(())
    }
}
