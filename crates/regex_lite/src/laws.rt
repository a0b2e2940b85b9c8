//! What this library is for, in two contracts, and laws of what searches return and where patterns
//! match, of trees, groups, lists, pieces and replacements, of escaped texts and of equality. The
//! function that states a law has an empty body: its contract is the law.
ghost use Rattle.std.specs.Cmp.{IsEquivalence};
ghost use Rattle.regex_lite.specs.AnchoredLaws.{AnchoredListSearchesAreSearches};
ghost use Rattle.regex_lite.specs.AnchoredLaws.{AnchoredListSearchesFindAt};
ghost use Rattle.regex_lite.specs.AnchoredLaws.{AnchoredSearchesAreSearches};
ghost use Rattle.regex_lite.specs.AnchoredLaws.{AnchoredSearchesFindAt};
ghost use Rattle.regex_lite.specs.EmptyLaws.{OnlyNullableMatchesAreEmpty};
ghost use Rattle.regex_lite.specs.GroupLaws.{AllGroupsTakePart, GroupsHaveNames};
ghost use Rattle.regex_lite.specs.GroupLaws.{GroupsHaveTheirSpans, ListMatchIsGroup0};
ghost use Rattle.regex_lite.specs.GroupLaws.{MatchIsGroup0, OneNameList};
ghost use Rattle.regex_lite.specs.Headline.{Headline, ListHeadline};
ghost use Rattle.regex_lite.specs.Laws.{EnoughGroupsTakePart, EscapedTextsAreRefusedForSize};
ghost use Rattle.regex_lite.specs.Laws.{EscapedTextsMatchThemselves, GroupsLieInside};
ghost use Rattle.regex_lite.specs.Laws.{MatchesAreTheirSpans, SearchesAgree};
ghost use Rattle.regex_lite.specs.ListLaws.{MatchesAreApart, NumberWithinLimit, OneListAhead};
ghost use Rattle.regex_lite.specs.ListLaws.{OneMatchList};
ghost use Rattle.regex_lite.specs.MatchViews.{is_same_match};
ghost use Rattle.regex_lite.specs.OffsetLaws.{ListSearchesFindFirst, MatchesFromStart};
ghost use Rattle.regex_lite.specs.OffsetLaws.{SearchesFindFirst};
ghost use Rattle.regex_lite.specs.PieceLaws.{FixedTextIsTemplate};
ghost use Rattle.regex_lite.specs.PieceLaws.{LentReplacersReplaceAlike, OnePieceList};
ghost use Rattle.regex_lite.specs.PieceLaws.{PiecesAndMatches, WholeMatchesGiveHaystack};
ghost use Rattle.regex_lite.specs.RegexListLaws.{EmptyListFindsNothing, ListAnswersAreAnswers};
ghost use Rattle.regex_lite.specs.RegexListLaws.{ListOfOneAnswersAsItsRegex};
ghost use Rattle.regex_lite.specs.RegexListLaws.{ListOfOneIsAcceptedAsItsRegex, ListSearchesAgree};
ghost use Rattle.regex_lite.specs.ResultLaws.{EachListSearchShows, EachSearchShows};
ghost use Rattle.regex_lite.specs.Searches.{CanStartAt};
ghost use Rattle.regex_lite.specs.TextLaws.{TextsRefuseForMemory, TextsRewrite};
ghost use Rattle.regex_lite.specs.TreeLaws.{OneTree, OneTreeList, TreesAreNumbered};
ghost use Rattle.regex_lite.specs.WholeLaws.{WholeListSearchesFindWhole, WholeSearchesFindWhole};

use crate::{Captures, Error, RegexBuilder, RegexListBuilder, Replacer, Steps};

/// The whole promise of this library for one pattern, by public calls alone: the regex is built,
/// and the counted search returns the groups of the match at or after the start, and its cost.
///
/// Condition: the start is above the haystack's length or on a character boundary.
///
/// # Errors
///
/// Those of [`RegexBuilder::build`], and `Memory` if memory runs out.
pub fn headline<'h>(
    builder: &RegexBuilder,
    haystack: &'h str,
    start: usize,
) -> Result<(Option<Captures<'h>>, Steps), Error>
    requires { CanStartAt haystack.now start }
    ensures { Headline builder.now haystack.now start result }
{
    let regex = builder.build()?;
    regex.captures_counted_at(haystack, start)
}

/// The whole promise of this library for several patterns at once. The result has the number of the
/// pattern that matches.
///
/// Condition: the start is above the haystack's length or on a character boundary.
///
/// # Errors
///
/// Those of [`RegexListBuilder::build`], and `Memory` if memory runs out.
pub fn list_headline<'h>(
    builder: &RegexListBuilder,
    haystack: &'h str,
    start: usize,
) -> Result<(Option<(usize, Captures<'h>)>, Steps), Error>
    requires { CanStartAt haystack.now start }
    ensures { ListHeadline builder.now.patterns haystack.now start result }
{
    let list = builder.build()?;
    list.captures_counted_at(haystack, start)
}

/// A pattern has at most one tree, and several patterns have at most one list of trees, in which
/// each pattern's tree has the pattern's number.
pub fn patterns_have_one_tree()
    ensures one_tree { OneTree }
    ensures one_list { OneTreeList }
    ensures numbered { TreesAreNumbered }
{}

/// In terms of the offsets at which the pattern matches, a search returns a match exactly if none
/// begins before it, from the start on, and the pattern prefers it to the others that begin where
/// it does. It returns nothing exactly if no match begins at the start or later. From offset 0 on
/// the pattern matches exactly if a match begins anywhere.
pub fn searches_find_the_first_match()
    ensures first { SearchesFindFirst }
    ensures anywhere { MatchesFromStart }
{}

/// In terms of the offsets at which several patterns match, a search for all of them returns a
/// match exactly if no match of any of them begins before it, from the start on, its pattern is the
/// lowest with a match that begins there, and that pattern prefers it. The search returns nothing
/// exactly if no match of any pattern begins at the start or later.
pub fn list_searches_find_the_first_match()
    ensures { ListSearchesFindFirst }
{}

/// An anchored search returns a match exactly if the search from there on returns it and it starts
/// there. This holds for one pattern and for several, whether a search returns the match, its
/// groups or their spans.
pub fn anchored_searches_find_what_starts_there()
    ensures one { AnchoredSearchesAreSearches }
    ensures several { AnchoredListSearchesAreSearches }
{}

/// In terms of the offsets at which patterns match, an anchored search returns a match exactly if
/// it starts where the search does and the pattern prefers it to the others that start there. It
/// returns nothing exactly if no match starts there. Of several patterns the number is that of the
/// lowest one that matches there.
pub fn anchored_searches_find_the_match_there()
    ensures one { AnchoredSearchesFindAt }
    ensures several { AnchoredListSearchesFindAt }
{}

/// A search for a whole match returns a match of the whole haystack, or nothing exactly if the
/// pattern doesn't match the whole of it. Its groups lie in the haystack, and group 0 is all of it.
/// Of several patterns the number is that of the lowest one that matches the whole haystack.
pub fn whole_searches_find_whole_matches()
    ensures one { WholeSearchesFindWhole }
    ensures several { WholeListSearchesFindWhole }
{}

/// If [`Regex::may_be_empty`](crate::Regex::may_be_empty) returns `false`, which is derived from
/// the pattern's tree alone, no match is empty in any haystack.
pub fn matches_are_empty_only_where_they_may_be()
    ensures { OnlyNullableMatchesAreEmpty }
{}

/// The result of any single search shows whether the pattern, or one of several patterns, matches
/// from the start on. A search that writes to locations returns the same match as the search for a
/// match.
pub fn each_search_shows_whether_there_is_a_match()
    ensures one { EachSearchShows }
    ensures several { EachListSearchShows }
{}

/// Group 0 of the groups that a search returns is the match that the search for a match returns,
/// for one pattern and for several. The groups of each match ahead have the match as group 0.
pub fn match_is_group_0()
    ensures one { MatchIsGroup0 }
    ensures several { ListMatchIsGroup0 }
    ensures each { GroupsHaveTheirSpans }
{}

/// All groups of a pattern have one list of names, and the groups of each of its matches have that
/// list.
pub fn groups_have_one_list_of_names()
    ensures one_list { OneNameList }
    ensures of_groups { GroupsHaveNames }
{}

/// The searches of a pattern in a haystack, from one offset on, agree on whether there is a match,
/// and the match that is found is group 0.
pub fn searches_agree()
    ensures { SearchesAgree }
{}

/// The groups that a search returns lie inside the match, on character boundaries. At least
/// `static_captures_len` of them took part, so all did if that is their number.
pub fn groups_lie_inside()
    ensures inside { GroupsLieInside }
    ensures enough { EnoughGroupsTakePart }
    ensures all { AllGroupsTakePart }
{}

/// The matches in a haystack don't overlap, their ends increase strictly, and there is at most one
/// more of them than there are characters. The list of the matches in a haystack is unique.
pub fn matches_are_apart()
    ensures apart { MatchesAreApart }
    ensures one_list { OneMatchList }
{}

/// The list of the matches ahead of an iterator, or of those that a replacement replaces, is
/// unique. Up to a limit, their number is the number of all matches in the haystack or the limit,
/// whichever is less.
pub fn matches_within_a_limit_are_counted()
    ensures one_list { OneListAhead }
    ensures number { NumberWithinLimit }
{}

/// A haystack has one more piece than it has matches, and its pieces and matches, alternating, make
/// up the haystack. The list of its pieces is unique.
pub fn pieces_and_matches_are_the_haystack()
    ensures between { PiecesAndMatches }
    ensures one_list { OnePieceList }
{}

/// Replacing each match by the template `$0` changes nothing. Here `R` is any text used as a
/// replacer.
pub fn whole_matches_give_the_haystack<R>()
    ensures { WholeMatchesGiveHaystack R }
{}

/// For a text without `$`, replacing each match by the text itself gives the same as using the text
/// as a template. Here `R` is as above.
pub fn fixed_text_is_template<R>()
    ensures { FixedTextIsTemplate R }
{}

/// A text as a replacer, with a `$` or without, gives the haystack with each match replaced by the
/// expansion of the text as a template. The only error is that memory runs out. Here `R` is as
/// above.
pub fn texts_rewrite_by_their_template<R>()
    ensures rewritten { TextsRewrite R }
    ensures refused { TextsRefuseForMemory R }
{}

/// A borrowed replacer behaves as the replacer itself, and leaves that in the same state. Here `L`
/// is the type that borrows it, such as `ReplacerRef`.
pub fn lent_replacers_replace_alike<L, R: Replacer>()
    ensures { LentReplacersReplaceAlike R.fixed R.appends L }
{}

/// Equality of matches is an equivalence: two are equal exactly if the texts of their haystacks,
/// their starts and their ends are equal.
pub fn matches_are_equal_by_text_and_span()
    ensures equivalence { IsEquivalence is_same_match }
    ensures by_text { MatchesAreTheirSpans }
{}

/// Equality is an equivalence for every type that has it, such as [`Error`](crate::Error).
pub fn equality_is_an_equivalence<T: Eq>()
    ensures { IsEquivalence T.eq }
{}

/// The pattern that [`escape`](crate::escape) returns for a text has a tree under the default
/// settings, and matches exactly where the text occurs in the haystack. Its only errors are `Size`,
/// `Places` and `Memory`.
pub fn escaped_texts_match_themselves()
    ensures refused { EscapedTextsAreRefusedForSize }
    ensures matches { EscapedTextsMatchThemselves }
{}

/// A list of one pattern is accepted exactly if the pattern is, and each of its searches returns
/// what the search of the pattern's [`Regex`](crate::Regex) returns, within the same cost.
pub fn list_of_one_answers_as_its_regex()
    ensures accepted { ListOfOneIsAcceptedAsItsRegex }
    ensures answers { ListOfOneAnswersAsItsRegex }
{}

/// No search of a list without patterns finds anything, and each tries no place.
pub fn empty_list_finds_nothing()
    ensures { EmptyListFindsNothing }
{}

/// A match that a search for several patterns finds is the match that the search for the pattern
/// with the returned number finds from the same offset on.
pub fn list_answers_are_answers()
    ensures { ListAnswersAreAnswers }
{}

/// The searches for several patterns in a haystack, from one offset on, agree on whether there is a
/// match and of which pattern, and the match that is found is group 0.
pub fn list_searches_agree()
    ensures { ListSearchesAgree }
{}
