//! The faults of a pattern, and the text of each.
ghost use Rattle.std.specs.Prelude.{◌≡◌, false};
ghost use Rattle.regex_lite_syntax.specs.FaultTexts.{fault_text};
ghost use Rattle.regex_lite_syntax.specs.CutShort.{is_cut_short};

use crate::error::unexpected_eof::UnexpectedEof;

/// A rule of the grammar that a pattern breaks.
#[derive(Clone, Copy, PartialEq, Eq, Debug)]
pub enum SyntaxFault {
    /// The pattern ends inside this part, which more of the pattern could complete.
    CutShort(UnexpectedEof),
    /// The pattern ends inside this part, which nothing could complete.
    DeadEnd(UnexpectedEof),
    DuplicateCaptureName,
    UnopenedGroup,
    LookUnsupported,
    EmptyFlags,
    InvalidGroupName,
    EmptyGroupName,
    FlagUnrecognized,
    FlagRepeatedNegation,
    FlagDuplicate,
    FlagDanglingNegation,
    DecimalNoDigits,
    DecimalInvalid,
    HexBraceInvalidDigit,
    HexBraceEmpty,
    HexBraceInvalid,
    HexFixedInvalidDigit,
    HexFixedInvalid,
    BackreferenceUnsupported,
    UnicodeClassUnsupported,
    EscapeUnrecognized,
    UncountedRepetitionSubMissing,
    CountedRepetitionSubMissing,
    CountedRepetitionInvalid,
    CountedRepetitionInvalidRange,
    ClassInvalidRangeItem,
    ClassInvalidItem,
    ClassInvalidRange,
    ClassNestUnsupported,
    ClassIntersectionUnsupported,
    ClassDifferenceUnsupported,
    ClassSymmetricDifferenceUnsupported,
    SpecialWordBoundaryUnclosed,
    SpecialWordBoundaryUnrecognized,
}

impl SyntaxFault {
    /// The fault of a pattern that ends inside this part, depending on whether more of it could
    /// complete the part.
    pub(crate) fn at_end(part: UnexpectedEof, is_completable: bool) -> SyntaxFault
        ensures { is_cut_short result ≡ is_completable }
    {
        if is_completable {
            SyntaxFault::CutShort(part)
        } else {
            SyntaxFault::DeadEnd(part)
        }
    }

    /// Whether the pattern ends inside a part that more of it could complete.
    pub(crate) fn is_cut_short(self) -> bool
        ensures { result ≡ is_cut_short self }
    {
        matches!(self, SyntaxFault::CutShort(_))
    }

    /// The fault as one of a pattern that nothing could complete.
    pub(crate) fn for_good(self) -> SyntaxFault
        ensures { is_cut_short result ≡ false }
    {
        match self {
            SyntaxFault::CutShort(part) => SyntaxFault::DeadEnd(part),
            other => other,
        }
    }

    /// The text with which the fault is reported.
    pub fn text(self) -> &'static str
        ensures { result.now ≡ fault_text self }
    {
        match self {
            SyntaxFault::CutShort(part) | SyntaxFault::DeadEnd(part) => part.text(),
            SyntaxFault::DuplicateCaptureName => "duplicate capture group name",
            SyntaxFault::UnopenedGroup => "found closing ')' without matching '('",
            SyntaxFault::LookUnsupported => "look-around is not supported",
            SyntaxFault::EmptyFlags => "empty flag directive '(?)' is not allowed",
            SyntaxFault::InvalidGroupName => "invalid group name",
            SyntaxFault::EmptyGroupName => "empty capture group names are not allowed",
            SyntaxFault::FlagUnrecognized => "unrecognized inline flag",
            SyntaxFault::FlagRepeatedNegation => "inline flag negation cannot be repeated",
            SyntaxFault::FlagDuplicate => "duplicate inline flag is not allowed",
            SyntaxFault::FlagDanglingNegation => "inline flags cannot end with negation directive",
            SyntaxFault::DecimalNoDigits => "expected decimal number, but found no digits",
            SyntaxFault::DecimalInvalid => "got invalid decimal number",
            SyntaxFault::HexBraceInvalidDigit => {
                "expected hexadecimal number in braces, but got non-hex digit"
            }
            SyntaxFault::HexBraceEmpty => {
                "expected hexadecimal number in braces, but got no digits"
            }
            SyntaxFault::HexBraceInvalid => "got invalid hexadecimal number in braces",
            SyntaxFault::HexFixedInvalidDigit => {
                "expected fixed length hexadecimal number, but got non-hex digit"
            }
            SyntaxFault::HexFixedInvalid => "got invalid fixed length hexadecimal number",
            SyntaxFault::BackreferenceUnsupported => "backreferences are not supported",
            SyntaxFault::UnicodeClassUnsupported => "Unicode character classes are not supported",
            SyntaxFault::EscapeUnrecognized => "unrecognized escape sequence",
            SyntaxFault::UncountedRepetitionSubMissing => {
                "uncounted repetition operator must be applied to a sub-expression"
            }
            SyntaxFault::CountedRepetitionSubMissing => {
                "counted repetition operator must be applied to a sub-expression"
            }
            SyntaxFault::CountedRepetitionInvalid => {
                "expected closing brace for counted repetition, but got something else"
            }
            SyntaxFault::CountedRepetitionInvalidRange => {
                "found counted repetition with a min bigger than its max"
            }
            SyntaxFault::ClassInvalidRangeItem => {
                "character class ranges must start and end with a single character"
            }
            SyntaxFault::ClassInvalidItem => "invalid escape sequence in character class",
            SyntaxFault::ClassInvalidRange => "invalid range in character class",
            SyntaxFault::ClassNestUnsupported => "nested character classes are not supported",
            SyntaxFault::ClassIntersectionUnsupported => {
                "character class intersection is not supported"
            }
            SyntaxFault::ClassDifferenceUnsupported => {
                "character class difference is not supported"
            }
            SyntaxFault::ClassSymmetricDifferenceUnsupported => {
                "character class symmetric difference is not supported"
            }
            SyntaxFault::SpecialWordBoundaryUnclosed => {
                "special word boundary assertion is unclosed or has an invalid character"
            }
            SyntaxFault::SpecialWordBoundaryUnrecognized => {
                "special word boundary assertion is unrecognized"
            }
        }
    }
}
