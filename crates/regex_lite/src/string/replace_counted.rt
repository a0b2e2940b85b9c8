//! Replacing matches and counting them. The other replacements call these functions.
ghost use Rattle.std.specs.Prelude.{◌≡◌, ◌⊎◌, None, IfOk, IfErr, chars};
ghost use Rattle.std.specs.Cow.{IsOwnedStr, cow_str_bytes};
ghost use Rattle.regex_lite_syntax.specs.Errors.{out_of_memory};
ghost use Rattle.regex_lite.specs.Ahead.{AreSoManyAhead, IsOver, ahead, whole};
ghost use Rattle.regex_lite.specs.MatchList.{IsAnswerOf};
ghost use Rattle.regex_lite.specs.Searches.{MatchesFrom};
ghost use Rattle.regex_lite.specs.Replacements.{IsLeft, IsRefused, IsReplacedBy};
ghost use Rattle.regex_lite.specs.Replacements.{IsReplacedInTurn, Leaves, Refuses, Replaces};
ghost use Rattle.regex_lite.specs.Replacements.{limit_of};

use crate::string::iter::find_iter::Matches;
use crate::string::iter::group_scan::GroupScan;
use crate::string::regex::Regex;
use crate::string::replacer::Replacer;
use crate::string::rewrite::Rewrite;
use crate::string::searcher::Searcher;
use regex_lite_syntax::Error;
use std::borrow::CowStr;

impl Regex {
    /// The haystack with all its matches replaced, and their number.
    ///
    /// See [`Regex::replacen_counted`].
    ///
    /// ```
    /// let regex = Regex::new(alloc, "[0-9]+")?;
    /// regex.replace_all_counted("7 of 9", &mut "no. $0")?; // ("no. 7 of no. 9", 2)
    /// ```
    ///
    /// The test `examples::replacing::replaced_and_counted` in tests/unit runs this example.
    pub fn replace_all_counted<'h, R: Replacer>(
        &self,
        haystack: &'h str,
        rep: &mut R,
    ) -> Result<(CowStr<'h>, usize), Error>
        requires { R.can_append rep.old }
        ensures replaced { IfOk result (λ reported. Replaces R.fixed R.appends rep.old
            (whole self.now haystack.now None) (cow_str_bytes reported.0) rep.new) }
        ensures counted { IfOk result (λ reported. AreSoManyAhead
            (whole self.now haystack.now None) reported.1) }
        ensures borrowed { IfOk result (λ reported. IsAnswerOf self.now (chars haystack.now) 0 None
            → reported.0 ≡ CowStr.Borrowed haystack.entry) }
        ensures owned { IfOk result (λ reported. MatchesFrom self.now haystack.now 0
            → IsOwnedStr reported.0) }
        ensures refused { IfErr result (λ error.
            ((error ≡ out_of_memory)
            × Leaves R.fixed R.appends rep.old (whole self.now haystack.now None) rep.new)
            ⊎ Refuses R.fixed R.appends rep.old (whole self.now haystack.now None) error rep.new) }
        ensures again { R.can_append rep.new }
    {
        self.replacen_counted(haystack, 0, rep)
    }

    /// The haystack with its first `limit` matches replaced, and the number of matches that were
    /// replaced; a limit of 0 means all. The text is that of [`Regex::replacen`].
    ///
    /// The replacer is borrowed, and keeps the state in which its last call leaves it. It is asked
    /// for a fixed text once and, if it has none, to append a text for each match that is replaced.
    ///
    /// ```
    /// let regex = Regex::new(alloc, " +")?;
    /// regex.replacen_counted("to be  or not", 2, &mut "_")?; // ("to_be_or not", 2)
    /// regex.replacen_counted("to be", 2, &mut "_")?; // ("to_be", 1)
    /// ```
    ///
    /// The test `examples::replacing::replaced_within_and_counted` in tests/unit runs this example.
    ///
    /// Condition: the replacer can append, as for [`Regex::replacen`]. Afterwards it still can.
    ///
    /// # Errors
    ///
    /// `Memory` if memory runs out, and the error that the replacer returns for one of the matches.
    /// Then too the replacer keeps the state in which its last call leaves it.
    pub fn replacen_counted<'h, R: Replacer>(
        &self,
        haystack: &'h str,
        limit: usize,
        rep: &mut R,
    ) -> Result<(CowStr<'h>, usize), Error>
        requires { R.can_append rep.old }
        ensures replaced { IfOk result (λ reported. Replaces R.fixed R.appends rep.old
            (whole self.now haystack.now (limit_of limit)) (cow_str_bytes reported.0) rep.new) }
        ensures counted { IfOk result (λ reported. AreSoManyAhead
            (whole self.now haystack.now (limit_of limit)) reported.1) }
        ensures borrowed { IfOk result (λ reported. IsAnswerOf self.now (chars haystack.now) 0 None
            → reported.0 ≡ CowStr.Borrowed haystack.entry) }
        ensures owned { IfOk result (λ reported. MatchesFrom self.now haystack.now 0
            → IsOwnedStr reported.0) }
        ensures refused { IfErr result (λ error.
            ((error ≡ out_of_memory) × Leaves R.fixed R.appends rep.old
            (whole self.now haystack.now (limit_of limit)) rep.new)
            ⊎ Refuses R.fixed R.appends rep.old (whole self.now haystack.now (limit_of limit))
            error rep.new) }
        ensures again { R.can_append rep.new }
    {
        let limit = limit_of_matches(limit);
        if let Some(text) = rep.no_expansion() {
            return self.replace_by(haystack, limit, text);
        }
        self.replace_in_turn(haystack, limit, rep)
    }

    /// Replaces each match by one text.
    fn replace_by<'h>(
        &self,
        haystack: &'h str,
        limit: Option<usize>,
        text: &str,
    ) -> Result<(CowStr<'h>, usize), Error>
        ensures replaced { IfOk result (λ new. IsReplacedBy text.now
            (whole self.now haystack.now limit) (cow_str_bytes new.0)) }
        ensures counted { IfOk result (λ new. AreSoManyAhead
            (whole self.now haystack.now limit) new.1) }
        ensures borrowed { IfOk result (λ new. IsOver (whole self.now haystack.now limit)
            → new.0 ≡ CowStr.Borrowed haystack.entry) }
        ensures owned { IfOk result (λ new. ¬ (IsOver (whole self.now haystack.now limit))
            → IsOwnedStr new.0) }
        ensures refused { IfErr result (λ error. error ≡ out_of_memory) }
    {
        let mut rewrite = Rewrite::start(self.alloc, haystack);
        for found in Matches::new(self, haystack, limit)? {
            rewrite.replace(&found, text)?;
        }
        rewrite.finish()
    }

    /// Replaces each match by what the replacer appends for it.
    fn replace_in_turn<'h, R: Replacer>(
        &self,
        haystack: &'h str,
        limit: Option<usize>,
        rep: &mut R,
    ) -> Result<(CowStr<'h>, usize), Error>
        requires { R.can_append rep.old }
        ensures replaced { IfOk result (λ new. IsReplacedInTurn R.fixed R.appends rep.old
            (whole self.now haystack.now limit) (cow_str_bytes new.0) rep.new) }
        ensures counted { IfOk result (λ new. AreSoManyAhead
            (whole self.now haystack.now limit) new.1) }
        ensures borrowed { IfOk result (λ new. IsOver (whole self.now haystack.now limit)
            → new.0 ≡ CowStr.Borrowed haystack.entry) }
        ensures owned { IfOk result (λ new. ¬ (IsOver (whole self.now haystack.now limit))
            → IsOwnedStr new.0) }
        ensures refused { IfErr result (λ error.
            ((error ≡ out_of_memory)
            × IsLeft R.fixed R.appends rep.old (whole self.now haystack.now limit) rep.new)
            ⊎ IsRefused R.fixed R.appends rep.old (whole self.now haystack.now limit) error
            rep.new) }
        ensures again { R.can_append rep.new }
    {
        let searcher = Searcher::new(self, self.kept_slots(), haystack.len())?;
        let mut scan = GroupScan::new(searcher, haystack, limit);
        self.replace_each(haystack, &mut scan, rep)
    }

    /// Replaces each match that the scan gives, from the start of the haystack.
    fn replace_each<'h, R: Replacer>(
        &self,
        haystack: &'h str,
        scan: &mut GroupScan<'h, Searcher<'_>>,
        rep: &mut R,
    ) -> Result<(CowStr<'h>, usize), Error>
        requires can_append { R.can_append rep.old }
        requires haystack { scan.old.haystack ≡ haystack.now }
        requires begins { scan.old.ended ≡ None }
        ensures replaced { IfOk result (λ new. IsReplacedInTurn R.fixed R.appends rep.old
            (ahead scan.old) (cow_str_bytes new.0) rep.new) }
        ensures counted { IfOk result (λ new. AreSoManyAhead (ahead scan.old) new.1) }
        ensures borrowed { IfOk result (λ new. IsOver (ahead scan.old)
            → new.0 ≡ CowStr.Borrowed haystack.entry) }
        ensures owned { IfOk result (λ new. ¬ (IsOver (ahead scan.old)) → IsOwnedStr new.0) }
        ensures refused { IfErr result (λ error.
            ((error ≡ out_of_memory)
            × IsLeft R.fixed R.appends rep.old (ahead scan.old) rep.new)
            ⊎ IsRefused R.fixed R.appends rep.old (ahead scan.old) error rep.new) }
        ensures again { R.can_append rep.new }
    {
        let mut rewrite = Rewrite::start(self.alloc, haystack);
        'items: while let Some(item) = scan.next() {
            let (_, caps) = item?;
            rewrite.replace_with(&caps, rep)?;
            scan.take_back(caps);
        }
        rewrite.finish()
    }
}

/// The greatest number of matches to replace, if it is limited.
fn limit_of_matches(limit: usize) -> Option<usize>
    ensures { result ≡ limit_of limit }
{
    if limit == 0 { None } else { Some(limit) }
}
