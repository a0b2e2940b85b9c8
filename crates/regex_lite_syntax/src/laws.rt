//! Laws of the definitions. The function that states a law has an empty body: its contract is the
//! law.
ghost use Rattle.regex_lite_syntax.specs.SyntaxLaws.{AtMostOneTree, EqualSetsHaveEqualRanges};
ghost use Rattle.regex_lite_syntax.specs.SyntaxLaws.{EscapedTextsAreLiteral, GroupsAreNumbered};
ghost use Rattle.regex_lite_syntax.specs.SyntaxLaws.{LiteralsMatchTheirText, NoIndexStandsTwice};
ghost use Rattle.regex_lite_syntax.specs.SyntaxLaws.{ReadingGoesOn};

/// Flags and a pattern have at most one tree, one number of groups and one depth of groups.
pub fn at_most_one_tree()
    ensures { AtMostOneTree }
{}

/// A set of characters has exactly one list of maximal runs.
pub fn equal_sets_have_equal_ranges()
    ensures { EqualSetsHaveEqualRanges }
{}

/// The groups of a pattern are numbered in the order of their opening parentheses.
pub fn groups_are_numbered()
    ensures { GroupsAreNumbered }
{}

/// No index occurs twice in a tree that the grammar gives. The number of groups that take part in
/// every match depends on this: two groups with one index would count twice but have one span.
pub fn no_index_stands_twice()
    ensures { NoIndexStandsTwice }
{}

/// If neither `i` nor `x` is on, the tree of an escaped text is the text's characters, one after
/// another, without a group.
pub fn escaped_texts_are_literal()
    ensures { EscapedTextsAreLiteral }
{}

/// The characters of a text, one after another, match exactly where the text occurs.
pub fn literals_match_their_text()
    ensures { LiteralsMatchTheirText }
{}

/// Parsing goes from left to right: what is read of a pattern is also read of each longer pattern
/// that begins with it, if more than a gap is left.
pub fn reading_goes_on()
    ensures { ReadingGoesOn }
{}
