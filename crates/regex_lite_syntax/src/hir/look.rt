//! Tests of a position.
ghost use Rattle.std.specs.Prelude.{◌≡◌};
ghost use Rattle.regex_lite_syntax.specs.Tree.Looks.{holds_between, is, is_word};

/// A look: a test of a position in the haystack by the characters next to it.
#[derive(Clone, Copy, PartialEq, Eq, Debug)]
pub enum Look {
    /// The haystack starts here.
    Start,
    /// The haystack ends here.
    End,
    /// A line starts here, where lines end with a line feed.
    StartLF,
    /// A line ends here, where lines end with a line feed.
    EndLF,
    /// A line starts here, where lines end with a carriage return, a line feed or both.
    StartCRLF,
    /// A line ends here, where lines end with a carriage return, a line feed or both.
    EndCRLF,
    /// A word starts or ends here.
    Word,
    /// No word starts or ends here.
    WordNegate,
    /// A word starts here.
    WordStart,
    /// A word ends here.
    WordEnd,
    /// There is no word character before.
    WordStartHalf,
    /// There is no word character after.
    WordEndHalf,
}

impl Look {
    /// Whether the test holds between the characters before and after a position. One of them is
    /// missing at the start and at the end of the haystack.
    // Not inlined, since the loop of a search would then compute all twelve looks at each position,
    // whether a place needs one or not.
    #[inline(never)]
    #[tactic(auto, unfolding(crate::specs::Tree::Looks::holds_between))]
    pub fn holds(self, before: Option<char>, after: Option<char>) -> bool
        ensures { result ≡ holds_between self before after }
    {
        match self {
            Look::Start => before.is_none(),
            Look::End => after.is_none(),
            Look::StartLF => before.is_none() || is_char(before, '\n'),
            Look::EndLF => after.is_none() || is_char(after, '\n'),
            Look::StartCRLF => {
                before.is_none()
                    || is_char(before, '\n')
                    || is_char(before, '\r') && !is_char(after, '\n')
            }
            Look::EndCRLF => {
                after.is_none()
                    || is_char(after, '\r')
                    || is_char(after, '\n') && !is_char(before, '\r')
            }
            Look::Word => is_word_char(before) != is_word_char(after),
            Look::WordNegate => is_word_char(before) == is_word_char(after),
            Look::WordStart => !is_word_char(before) && is_word_char(after),
            Look::WordEnd => is_word_char(before) && !is_word_char(after),
            Look::WordStartHalf => !is_word_char(before),
            Look::WordEndHalf => !is_word_char(after),
        }
    }
}

/// Whether there is a character and it is this one.
fn is_char(neighbour: Option<char>, c: char) -> bool
    ensures { result ≡ is neighbour c }
{
    match neighbour {
        Some(found) => found == c,
        None => false,
    }
}

/// Whether there is a character and it is a word character.
fn is_word_char(neighbour: Option<char>) -> bool
    ensures { result ≡ is_word neighbour }
{
    match neighbour {
        Some(c) => c.is_ascii_alphanumeric() || c == '_',
        None => false,
    }
}
