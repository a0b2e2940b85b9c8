//! Replacing matches.
ghost use Rattle.std.specs.Prelude.{◌≡◌, ◌⊎◌, None, IfOk, IfErr, chars};
ghost use Rattle.std.specs.Cow.{IsOwnedStr, cow_str_bytes};
ghost use Rattle.regex_lite_syntax.specs.Errors.{out_of_memory};
ghost use Rattle.regex_lite.specs.Ahead.{whole};
ghost use Rattle.regex_lite.specs.MatchList.{IsAnswerOf};
ghost use Rattle.regex_lite.specs.Searches.{MatchesFrom};
ghost use Rattle.regex_lite.specs.Replacements.{IsHandedOn, IsReplacement, limit_of};

use crate::string::regex::Regex;
use crate::string::replacer::Replacer;
use regex_lite_syntax::Error;
use std::borrow::CowStr;

impl Regex {
    /// The haystack with its first match replaced.
    ///
    /// See [`Regex::replacen`].
    ///
    /// ```
    /// let regex = Regex::new(alloc, "[0-9]+")?;
    /// regex.replace("7 of 9", "no. $0")?; // "no. 7 of 9"
    /// ```
    ///
    /// The test `examples::replacing::replaced_once` in tests/unit runs this example.
    pub fn replace<'h, R: Replacer>(&self, haystack: &'h str, rep: R) -> Result<CowStr<'h>, Error>
        requires { R.can_append rep }
        ensures replaced { IfOk result (λ text. IsReplacement R.fixed R.appends rep
            (whole self.now haystack.now (limit_of 1)) (cow_str_bytes text)) }
        ensures borrowed { IfOk result (λ text. IsAnswerOf self.now (chars haystack.now) 0 None
            → text ≡ CowStr.Borrowed haystack.entry) }
        ensures owned { IfOk result (λ text. MatchesFrom self.now haystack.now 0
            → IsOwnedStr text) }
        ensures refused { IfErr result (λ error. (error ≡ out_of_memory)
            ⊎ IsHandedOn R.fixed R.appends rep (whole self.now haystack.now (limit_of 1)) error) }
    {
        self.replacen(haystack, 1, rep)
    }

    /// The haystack with all its matches replaced.
    ///
    /// See [`Regex::replacen`].
    ///
    /// ```
    /// let regex = Regex::new(alloc, "(?<first>[a-z]+) (?<last>[a-z]+)")?;
    /// regex.replace_all("ada lovelace", "$last, $first")?; // "lovelace, ada"
    /// ```
    ///
    /// The test `examples::replacing::replaced` in tests/unit runs this example.
    pub fn replace_all<'h, R: Replacer>(
        &self,
        haystack: &'h str,
        rep: R,
    ) -> Result<CowStr<'h>, Error>
        requires { R.can_append rep }
        ensures replaced { IfOk result (λ text. IsReplacement R.fixed R.appends rep
            (whole self.now haystack.now None) (cow_str_bytes text)) }
        ensures borrowed { IfOk result (λ text. IsAnswerOf self.now (chars haystack.now) 0 None
            → text ≡ CowStr.Borrowed haystack.entry) }
        ensures owned { IfOk result (λ text. MatchesFrom self.now haystack.now 0
            → IsOwnedStr text) }
        ensures refused { IfErr result (λ error. (error ≡ out_of_memory)
            ⊎ IsHandedOn R.fixed R.appends rep (whole self.now haystack.now None) error) }
    {
        self.replacen(haystack, 0, rep)
    }

    /// The haystack with its first `limit` matches replaced; a limit of 0 means all. The matches
    /// are those of [`Regex::find_iter`].
    ///
    /// The replacer is asked for a fixed text once, before the first search. If it has none, it is
    /// asked to append a text for each match. Without a match the haystack itself is returned,
    /// otherwise a new text.
    ///
    /// ```
    /// let regex = Regex::new(alloc, " +")?;
    /// regex.replacen("to be  or not", 2, "_")?; // "to_be_or not"
    /// ```
    ///
    /// The test `examples::replacing::replaced_within` in tests/unit runs this example.
    ///
    /// Condition: the replacer can append, as its ghost member `can_append` states. A
    /// [`ReplaceBy`](crate::ReplaceBy) can if its closure may be called on any groups, a
    /// [`ReplacerRef`](crate::ReplacerRef) if the replacer that it borrows can, and a text or a
    /// [`NoExpand`](crate::NoExpand) always can.
    ///
    /// # Errors
    ///
    /// `Memory` if memory runs out, and the error that the replacer returns for one of the matches.
    /// By then it may have been asked to replace earlier ones.
    pub fn replacen<'h, R: Replacer>(
        &self,
        haystack: &'h str,
        limit: usize,
        mut rep: R,
    ) -> Result<CowStr<'h>, Error>
        requires { R.can_append rep }
        ensures replaced { IfOk result (λ text. IsReplacement R.fixed R.appends rep
            (whole self.now haystack.now (limit_of limit)) (cow_str_bytes text)) }
        ensures borrowed { IfOk result (λ text. IsAnswerOf self.now (chars haystack.now) 0 None
            → text ≡ CowStr.Borrowed haystack.entry) }
        ensures owned { IfOk result (λ text. MatchesFrom self.now haystack.now 0
            → IsOwnedStr text) }
        ensures refused { IfErr result (λ error. (error ≡ out_of_memory)
            ⊎ IsHandedOn R.fixed R.appends rep (whole self.now haystack.now (limit_of limit))
            error) }
    {
        let (text, _) = self.replacen_counted(haystack, limit, &mut rep)?;
        Ok(text)
    }
}
