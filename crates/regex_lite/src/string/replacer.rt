//! Replacers: what a match is replaced by.
ghost use Rattle.std.specs.Prelude.{◌≡◌, ◌++◌, ℕ, List, Option, None};
ghost use Rattle.std.specs.Prelude.{Some, ⊤, string_bytes, option_map};
ghost use Rattle.std.specs.Borrow.{sem};
ghost use Rattle.regex_lite.specs.Groups.{Groups};
ghost use Rattle.regex_lite.specs.Replacing.{Answer, IsAppendedResult, IsAppendedText, Rests};

use crate::string::captures::Captures;
use regex_lite_syntax::Error;

/// A replacer gives the texts that replace matches. [`Regex::replacen`](crate::Regex::replacen)
/// asks it for a fixed text once and, if it has none, to append a text for the groups of each
/// match.
///
/// Texts are replacers: each is a template, as [`Captures::expand`] reads it. [`NoExpand`] is a
/// text that isn't read as a template, and [`ReplaceBy`] wraps a closure.
pub trait Replacer: Drop {
    /// The states in which the replacer may be asked.
    ghost can_append: { Self → Type 0 } = { λ _. ⊤ };

    /// What it may append and return for groups, between its states before and after the call.
    ghost appends: { Self → Groups → List ℕ → Answer → Self → Type 0 };

    /// What it may return if it is asked for a fixed text, between its states before and after the
    /// call.
    ghost fixed: { Self → Option (List ℕ) → Self → Type 0 };

    /// Appends the text that replaces the match with these groups. The text before it is unchanged,
    /// even on an error.
    ///
    /// # Errors
    ///
    /// Those of the replacer. The replacers of this library return only `Memory`, if memory runs
    /// out, except that a [`ReplaceBy`] returns the error of its closure.
    fn replace_append(&mut self, caps: &Captures<'_>, dst: &mut String) -> Result<(), Error>
        requires { can_append self.old }
        ensures appended { (text : List ℕ)
            × (string_bytes dst.new ≡ string_bytes dst.old ++ text)
            × appends self.old caps.now text result self.new }
        ensures again { can_append self.new };

    /// A text that replaces every match, if there is one.
    fn no_expansion(&mut self) -> Option<&str>
        requires { can_append self.old }
        ensures* rests { sem 𝓛 (Rests Self.row self.entry (λ new. can_append new
            × fixed self.old (option_map (λ text. text.now) result) new)) };

    /// Borrows the replacer, so that it can be used again.
    fn by_ref(&mut self) -> ReplacerRef<'_, Self>
    where
        Self: Sized,
        ensures same_reference { result.0.ghost_name ≡ self.entry.ghost_name }
        ensures value { result.0.now ≡ self.old }
    {
        ReplacerRef(self)
    }
}

/// A borrowed replacer: [`Replacer::by_ref`] returns it.
#[derive(Debug, Drop)]
pub struct ReplacerRef<'a, R>(&'a mut R);

impl<'a, R: Replacer> Replacer for ReplacerRef<'a, R> {
    ghost can_append = { λ old. R.can_append old.0.now };

    ghost appends = { λ old groups text answer new.
        R.appends old.0.now groups text answer new.0.now };

    ghost fixed = { λ old text new. R.fixed old.0.now text new.0.now };

    fn replace_append(&mut self, caps: &Captures<'_>, dst: &mut String) -> Result<(), Error> {
        self.0.replace_append(caps, dst)
    }

    fn no_expansion(&mut self) -> Option<&str> {
        self.0.no_expansion()
    }
}

/// A text that isn't read as a template: it replaces each match as it is.
///
/// ```
/// let regex = Regex::new(alloc, "(?<sum>[0-9]+) dollars")?;
/// regex.replace("5 dollars", NoExpand("$sum"))?; // "$sum"
/// ```
///
/// The test `examples::replacing::not_expanded` in tests/unit runs this example.
#[derive(Clone, Copy, Debug)]
pub struct NoExpand<'t>(pub &'t str);

impl<'t> Replacer for NoExpand<'t> {
    ghost appends = { λ old _ text answer new.
        IsAppendedText old.0.now text answer × (new ≡ old) };

    ghost fixed = { λ old text new. (text ≡ Some old.0.now) × (new ≡ old) };

    fn replace_append(&mut self, _caps: &Captures<'_>, dst: &mut String) -> Result<(), Error> {
        append(self.0, dst)
    }

    fn no_expansion(&mut self) -> Option<&str> {
        Some(self.0)
    }
}

/// A replacer by a closure, which returns the text for each match from its groups, or an error.
///
/// ```
/// let regex = Regex::new(alloc, "[a-z]+")?;
/// let lengths = ReplaceBy(|caps: &Captures<'_>| -> Result<String, Error> {
///     let len = caps.get(0).map_or(0, |m| m.len());
///     Ok(format!(in alloc; "{len}")?)
/// });
/// regex.replace_all("to be, or not", lengths)?; // "2 2, 2 3"
/// ```
///
/// The test `examples::replacing::replaced_by_closure` in tests/unit runs this example.
///
/// Condition: the closure may be called on any groups.
#[derive(Drop)]
pub struct ReplaceBy<F>(pub F);

impl<F: Drop + FnMut(&Captures<'_>) -> Result<String, Error>> Replacer for ReplaceBy<F> {
    ghost can_append = { λ old. F.IsAlwaysCallable old.0 };

    ghost appends = { λ old groups text answer new. (caps : _) × (made : _) × (caps.now ≡ groups)
        × F.step old.0 caps made new.0 × IsAppendedResult made text answer };

    ghost fixed = { λ old text new. (text ≡ None) × (new ≡ old) };

    fn replace_append(&mut self, caps: &Captures<'_>, dst: &mut String) -> Result<(), Error> {
        match (self.0)(caps) {
            Ok(text) => append(text.as_str(), dst),
            Err(error) => Err(error),
        }
    }

    fn no_expansion(&mut self) -> Option<&str> {
        None
    }
}

/// Appends the text.
fn append(complete: &str, dst: &mut String) -> Result<(), Error>
    ensures { (text : List ℕ) × (string_bytes dst.new ≡ string_bytes dst.old ++ text)
        × IsAppendedText complete.now text result }
{
    dst.push_str(complete)?;
    Ok(())
}
