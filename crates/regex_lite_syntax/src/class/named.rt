//! Character sets that have names.
ghost use Rattle.std.specs.Prelude.{◌≡◌};
ghost use Rattle.regex_lite_syntax.specs.Parser.KnownSets.{dot_members, dot_runs, known_members};
ghost use Rattle.regex_lite_syntax.specs.Parser.KnownSets.{known_runs, named_runs};
ghost use Rattle.regex_lite_syntax.specs.Ranges.{AreRunsOf};
ghost use Rattle.regex_lite_syntax.specs.NamedSets.{members};
ghost use Rattle.regex_lite_syntax.specs.Parser.SetNames.{name_of};

use super::ClassRange;

/// The ranges with these first and last characters.
macro_rules! ranges {
    ($(($start:literal, $end:literal)),+) => {
        &[$(ClassRange { start: $start, end: $end }),+]
    };
}

/// A set with static runs.
#[derive(Clone, Copy, PartialEq, Eq, Debug)]
pub(crate) enum KnownSet {
    /// The set with this name.
    Named(NamedSet),
    /// The set of `.`: all characters except line terminators, unless they are included too.
    Dot { new_lines: bool, crlf: bool },
}

/// A set of ASCII characters that has a name.
#[derive(Clone, Copy, PartialEq, Eq, Debug)]
pub(crate) enum NamedSet {
    Alnum,
    Alpha,
    Ascii,
    Blank,
    Cntrl,
    Digit,
    Graph,
    Lower,
    Print,
    Punct,
    Space,
    Upper,
    Word,
    Xdigit,
}

impl KnownSet {
    /// The maximal runs of the set, in order.
    pub(crate) fn ranges(self) -> &'static [ClassRange]
        ensures same { result.now ≡ known_runs self }
        ensures runs { AreRunsOf result.now (known_members self) }
    {
        match self {
            KnownSet::Named(set) => set.ranges(),
            KnownSet::Dot { new_lines, crlf } => dot_ranges(new_lines, crlf),
        }
    }
}

/// The maximal runs of the set of `.`, in order.
fn dot_ranges(new_lines: bool, crlf: bool) -> &'static [ClassRange]
    ensures same { result.now ≡ dot_runs new_lines crlf }
    ensures runs { AreRunsOf result.now (dot_members new_lines crlf) }
{
    if new_lines {
        ranges![('\0', '\u{10FFFF}')]
    } else if crlf {
        ranges![('\0', '\t'), ('\x0B', '\x0C'), ('\x0E', '\u{10FFFF}')]
    } else {
        ranges![('\0', '\t'), ('\x0B', '\u{10FFFF}')]
    }
}

impl NamedSet {
    /// The maximal runs of the set, in order.
    fn ranges(self) -> &'static [ClassRange]
        ensures same { result.now ≡ named_runs self }
        ensures runs { AreRunsOf result.now (members (name_of self)) }
    {
        match self {
            NamedSet::Alnum => ranges![('0', '9'), ('A', 'Z'), ('a', 'z')],
            NamedSet::Alpha => ranges![('A', 'Z'), ('a', 'z')],
            NamedSet::Ascii => ranges![('\0', '\x7F')],
            NamedSet::Blank => ranges![('\t', '\t'), (' ', ' ')],
            NamedSet::Cntrl => ranges![('\0', '\x1F'), ('\x7F', '\x7F')],
            NamedSet::Digit => ranges![('0', '9')],
            NamedSet::Graph => ranges![('!', '~')],
            NamedSet::Lower => ranges![('a', 'z')],
            NamedSet::Print => ranges![(' ', '~')],
            NamedSet::Punct => ranges![('!', '/'), (':', '@'), ('[', '`'), ('{', '~')],
            NamedSet::Space => ranges![('\t', '\r'), (' ', ' ')],
            NamedSet::Upper => ranges![('A', 'Z')],
            NamedSet::Word => ranges![('0', '9'), ('A', 'Z'), ('_', '_'), ('a', 'z')],
            NamedSet::Xdigit => ranges![('0', '9'), ('A', 'F'), ('a', 'f')],
        }
    }
}
