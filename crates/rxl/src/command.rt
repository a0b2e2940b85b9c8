//! Commands: what the arguments ask for.
ghost use Rattle.std.specs.Prelude.{◌≡◌, MatchOption};
ghost use Rattle.rxl.specs.Commands.{Asks};

/// A command: what the arguments ask for.
#[derive(Clone, Copy, Debug)]
pub(crate) enum Command<'a> {
    /// Answer a question about the pattern and standard input.
    Ask(Question<'a>, &'a str),
    /// Print a pattern that matches exactly this text.
    Escape(&'a str),
}

/// A question about a pattern and a haystack.
#[derive(Clone, Copy, Debug)]
pub(crate) enum Question<'a> {
    /// Whether there is a match.
    IsMatch,
    /// The spans of the matches.
    Find,
    /// The spans of the groups of the matches.
    Captures,
    /// The pieces between the matches.
    Split,
    /// The haystack with each match replaced by this template.
    Replace(&'a str),
}

impl<'a> Command<'a> {
    /// The command of the arguments, if they are a complete one.
    pub fn of(args: &[&'a str]) -> Option<Command<'a>>
        ensures { MatchOption result ((command : Command) → Asks args.now command → ⊥)
            (Asks args.now) }
    {
        match args {
            ["is-match", pattern] => Some(Command::Ask(Question::IsMatch, pattern)),
            ["find", pattern] => Some(Command::Ask(Question::Find, pattern)),
            ["captures", pattern] => Some(Command::Ask(Question::Captures, pattern)),
            ["split", pattern] => Some(Command::Ask(Question::Split, pattern)),
            ["replace", pattern, text] => Some(Command::Ask(Question::Replace(text), pattern)),
            ["escape", text] => Some(Command::Escape(text)),
            _ => None,
        }
    }
}
