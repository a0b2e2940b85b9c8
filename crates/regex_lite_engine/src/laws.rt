//! Laws of the definitions. The function that states a law has an empty body: its contract is the
//! law.
ghost use Rattle.regex_lite_engine.specs.TemplateLaws.{
  PlainTemplatesGiveThemselves,
  TemplatesGiveOneText,
};
ghost use Rattle.regex_lite_engine.specs.ListSearchLaws.{AtMostOneAnswerOfList, HasAnswerOfList};
ghost use Rattle.regex_lite_engine.specs.ListSearchLaws.{ListAnswersAreAnswers, NoneMatchNothing};
ghost use Rattle.regex_lite_engine.specs.ListSearchLaws.{OneAnswersByItself, PatternsStandApart};
ghost use Rattle.regex_lite_engine.specs.WayLaws.{MatchesAreWays};
ghost use Rattle.regex_lite_engine.specs.SearchLaws.{AnchoredAnswersAreAnswers, AnswerIsHead};
ghost use Rattle.regex_lite_engine.specs.SearchLaws.{AnswersAreMatches};
ghost use Rattle.regex_lite_engine.specs.SearchLaws.{AnswersNeedNoLaterText};
ghost use Rattle.regex_lite_engine.specs.SearchLaws.{AtMostOneAnswer, EnoughTakePart};
ghost use Rattle.regex_lite_engine.specs.SearchLaws.{GroupsLieInside, HasAnswer, ListIsOfAllWays};
ghost use Rattle.regex_lite_engine.specs.SearchLaws.{PreferenceIsTotal, PreferredWaysAreEarlier};

/// A tree that the grammar gives matches from one position to another exactly if a way leads from
/// the one to the other: an accepting path of the NFA that is written out for the tree.
pub fn matches_are_ways()
    ensures { MatchesAreWays }
{}

/// Of two different ways from one position, one is preferred to the other.
pub fn preference_is_total()
    ensures { PreferenceIsTotal }
{}

/// A way is preferred to another exactly if it takes the earlier arrow where they first differ.
pub fn preferred_ways_are_earlier()
    ensures { PreferredWaysAreEarlier }
{}

/// A search has an answer.
pub fn search_has_an_answer()
    ensures { HasAnswer }
{}

/// A search has at most one answer.
pub fn at_most_one_answer()
    ensures { AtMostOneAnswer }
{}

/// A search finds something exactly if the tree matches from a position at or after the start, and
/// what it finds is such a match.
pub fn answers_are_matches()
    ensures { AnswersAreMatches }
{}

/// An anchored search finds something exactly if the search from there finds it and it starts
/// there.
pub fn anchored_answers_are_answers()
    ensures { AnchoredAnswersAreAnswers }
{}

/// If each pass of a repetition without a limit reads a character, the preference list has all ways
/// from the position, each preferred to those after it.
pub fn list_is_of_all_ways()
    ensures { ListIsOfAllWays }
{}

/// If each pass of a repetition without a limit reads a character, the end and the marks of an
/// answer are the first entry of the preference list at its start.
pub fn answer_is_head_of_list()
    ensures { AnswerIsHead }
{}

/// A group that took part lies inside the whole match, its start not after its end.
pub fn groups_lie_inside()
    ensures { GroupsLieInside }
{}

/// At least as many groups take part in a match as the static number says.
pub fn enough_groups_take_part()
    ensures { EnoughTakePart }
{}

/// A match of a tree without looks is also found if the haystack is cut off at the end of the
/// match.
pub fn answers_need_no_later_text()
    ensures { AnswersNeedNoLaterText }
{}

/// For given texts of the groups, a template has exactly one expansion.
pub fn templates_give_one_text()
    ensures { TemplatesGiveOneText }
{}

/// A template without a `$` is its own expansion.
pub fn plain_templates_give_themselves()
    ensures { PlainTemplatesGiveThemselves }
{}

/// The ways of a pattern that is written out next to others are those of the pattern by itself.
pub fn patterns_stand_apart()
    ensures { PatternsStandApart }
{}

/// A search for several patterns has an answer.
pub fn list_search_has_an_answer()
    ensures { HasAnswerOfList }
{}

/// A search for several patterns has at most one answer.
pub fn at_most_one_answer_of_list()
    ensures { AtMostOneAnswerOfList }
{}

/// A search for several patterns finds something exactly if one of them matches from a position at
/// or after the start. What it finds is the answer of the pattern with the number.
pub fn list_answers_are_answers()
    ensures { ListAnswersAreAnswers }
{}

/// A list of one pattern has the answer of the pattern.
pub fn one_answers_by_itself()
    ensures { OneAnswersByItself }
{}

/// A list of no pattern matches nothing.
pub fn none_match_nothing()
    ensures { NoneMatchNothing }
{}
