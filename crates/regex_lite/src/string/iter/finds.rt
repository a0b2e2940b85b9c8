//! What the iterators need of a searcher: matches and their groups.
ghost use Rattle.std.specs.Prelude.{◌≡◌, List, Option, ℕ, IfOk, IfErr, IfSome, chars, length};
ghost use Rattle.regex_lite_syntax.specs.Errors.{out_of_memory};
ghost use Rattle.regex_lite_syntax.specs.Text.{Text};
ghost use Rattle.regex_lite_engine.specs.Search.Answer.{Found};
ghost use Rattle.regex_lite_engine.specs.Search.Offsets.{search_start};
ghost use Rattle.regex_lite.specs.Answers.{AreLawful, TellsOfAnswer};
ghost use Rattle.regex_lite.specs.Groups.{Groups, whole_span};
ghost use Rattle.regex_lite.specs.MatchViews.{span_of_match};
ghost use Rattle.regex_lite.specs.Scanning.{IsMatchOfSearch, IsSpanWithSlots};
ghost use Rattle.regex_lite.specs.Searches.{CanStartAt};

use crate::string::captures::Captures;
use crate::string::matches::Match;
use regex_lite_syntax::Error;

/// A searcher for one pattern or for several, with its memory.
pub(crate) trait Finds {
    /// The number of a pattern, if there are several.
    type Number: Drop;

    /// What is searched for: an expression or a list of them.
    ghost Sought: { Type 0 };

    /// The answer of a search that finds a match.
    ghost Answer: { Type 0 };

    /// The match of an answer.
    ghost found_of: { Answer → Found };

    /// The pattern's number in an answer.
    ghost number_of: { Answer → Self.Number };

    /// The answer is that of a search from this position on.
    ghost IsAnswer: { Sought → Text → (s : ℕ) → Option Answer → Type 0 };

    /// The groups are those of the answer in this haystack.
    ghost AreGroupsFound: { Sought → (haystack : List ℕ) → Answer → Groups → Type 0 };

    /// A search keeps this many slots for the groups.
    ghost AreSlotsForGroups: { Sought → (slots : ℕ) → Type 0 };

    /// The memory of these groups can be reused for others.
    ghost CanReuse: { Sought → Groups → Type 0 };

    /// What is searched for.
    ghost sought: { Self → Sought };

    /// The slots of the last match that was found.
    ghost slots: { Self → List (Option ℕ) };

    /// The first match that starts at this offset or later, with the number of its pattern. The
    /// searcher keeps its slots.
    fn find_at(&mut self, haystack: &str, start: usize) -> Option<(Self::Number, (usize, usize))>
        requires { CanStartAt haystack.now start }
        ensures found { TellsOfAnswer (IsAnswer (sought self.old) (chars haystack.now))
            (IsSpanWithSlots found_of number_of haystack.now (slots self.new))
            (search_start haystack.now start) result }
        ensures lawful { AreLawful found_of (chars haystack.now)
            (IsAnswer (sought self.old) (chars haystack.now)) }
        ensures sought { sought self.new ≡ sought self.old }
        ensures slots { length (slots self.new) ≡ length (slots self.old) };

    /// The groups of the last match, which was found in this haystack. They may reuse the memory of
    /// the spare groups, if there are any.
    fn captures<'h>(
        &self,
        haystack: &'h str,
        last: &(Self::Number, Match<'h>),
        spare: Option<Captures<'h>>,
    ) -> Result<Captures<'h>, Error>
        requires spare { IfSome spare (CanReuse (sought self.now)) }
        requires room { AreSlotsForGroups (sought self.now) (length (slots self.now)) }
        requires last { (answer : Answer) × IsMatchOfSearch found_of number_of
            (IsAnswer (sought self.now) (chars haystack.now)) haystack.now (slots self.now)
            answer last.now }
        ensures groups { IfOk result (λ groups. (answer : Answer)
            → IsMatchOfSearch found_of number_of
            (IsAnswer (sought self.now) (chars haystack.now)) haystack.now (slots self.now)
            answer last.now
            → AreGroupsFound (sought self.now) haystack.now answer groups) }
        ensures span { IfOk result (λ groups. whole_span groups ≡ span_of_match last.now.1) }
        ensures refused { IfErr result (λ error. error ≡ out_of_memory) };
}
