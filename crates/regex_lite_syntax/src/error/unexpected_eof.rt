//! Faults of patterns that end inside a part, and the text of each.
ghost use Rattle.std.specs.Prelude.{◌≡◌};
ghost use Rattle.regex_lite_syntax.specs.FaultTexts.{eof_text};

/// The part inside which a pattern ends.
#[derive(Clone, Copy, PartialEq, Eq, Debug)]
pub enum UnexpectedEof {
    /// A group.
    Group,
    /// The head of a group, after its `?`.
    GroupQuestion,
    /// The name of a group, before its first character.
    GroupName,
    /// The name of a group.
    GroupNameEnd,
    /// The flags of a group or a directive.
    Flag,
    /// A head of a group that continues with a name or with flags.
    FlagOrName,
    /// A counted operator, before the digits of a number.
    Decimal,
    /// Hexadecimal digits in braces.
    HexBrace,
    /// A fixed number of hexadecimal digits.
    HexFixed,
    /// An escape, before its hexadecimal digits.
    Hex,
    /// An escape, after its backslash.
    Escape,
    /// A counted operator, after its brace.
    CountedRepetition,
    /// A counted operator, after its first number.
    CountedRepetitionMin,
    /// A counted operator, after its comma.
    CountedRepetitionComma,
    /// A counted operator, after its second number.
    CountedRepetitionMinMax,
    /// A class.
    Class,
    /// A class, after an item.
    ClassAfterItem,
    /// A class, after a dash.
    ClassAfterDash,
    /// A class, after the `^` that negates it.
    ClassAfterNegation,
    /// A class, after a `]` that stands for itself.
    ClassAfterClosing,
    /// A named set in a class.
    ClassNest,
    /// The name of a look in braces.
    SpecialWordBoundary,
    /// Braces after `\b`, with the name of a look or a counted operator.
    SpecialWordOrRepetition,
}

impl UnexpectedEof {
    /// The text with which the fault is reported.
    pub fn text(self) -> &'static str
        ensures { result.now ≡ eof_text self }
    {
        match self {
            UnexpectedEof::Group => "found open group without closing ')'",
            UnexpectedEof::GroupQuestion => "expected closing ')', but got end of pattern",
            UnexpectedEof::GroupName => "expected capture group name, but got end of pattern",
            UnexpectedEof::GroupNameEnd => {
                "expected end of capture group name, but got end of pattern"
            }
            UnexpectedEof::Flag => {
                "expected ':' or ')' to end inline flags, but got end of pattern"
            }
            UnexpectedEof::FlagOrName => "unrecognized inline flag",
            UnexpectedEof::Decimal => "expected decimal number, but found no digits",
            UnexpectedEof::HexBrace => {
                "expected hexadecimal number, but saw end of pattern before closing brace"
            }
            UnexpectedEof::HexFixed => {
                "expected fixed length hexadecimal number, but saw end of pattern first"
            }
            UnexpectedEof::Hex => "expected hexadecimal number, but saw end of pattern first",
            UnexpectedEof::Escape => {
                "saw start of escape sequence, but saw end of pattern before it finished"
            }
            UnexpectedEof::CountedRepetition => "found unclosed counted repetition operator",
            UnexpectedEof::CountedRepetitionMin => {
                "found incomplete and unclosed counted repetition operator"
            }
            UnexpectedEof::CountedRepetitionComma => {
                "found counted repetition operator with a comma that is unclosed"
            }
            UnexpectedEof::CountedRepetitionMinMax => {
                "found counted repetition with min and max that is unclosed"
            }
            UnexpectedEof::Class => "found unclosed character class",
            UnexpectedEof::ClassAfterItem => "non-empty character class has no closing bracket",
            UnexpectedEof::ClassAfterDash => {
                "non-empty character class has no closing bracket after dash"
            }
            UnexpectedEof::ClassAfterNegation => "negated character class has no closing bracket",
            UnexpectedEof::ClassAfterClosing => {
                "character class begins with literal ']' but has no closing bracket"
            }
            UnexpectedEof::ClassNest => "nested character classes are not supported",
            UnexpectedEof::SpecialWordBoundary => {
                "special word boundary assertion is unclosed or has an invalid character"
            }
            UnexpectedEof::SpecialWordOrRepetition => {
                "found start of special word boundary or repetition without an end"
            }
        }
    }
}
