//! Texts as replacers: each is a template.
ghost use Rattle.std.specs.Prelude.{◌≡◌, ◌++◌, ℕ, List, string_bytes, option_map};
ghost use Rattle.std.specs.Cow.{cow_str_bytes};
ghost use Rattle.regex_lite.specs.Replacing.{IsAppendedTemplate, IsFixedText};

use crate::string::captures::Captures;
use crate::string::replacer::Replacer;
use regex_lite_syntax::Error;
use std::borrow::CowStr;

impl<'t> Replacer for &'t str {
    ghost appends = { λ old groups text answer new.
        IsAppendedTemplate old.now groups text answer × (new ≡ old) };

    ghost fixed = { λ old text new. IsFixedText old.now text × (new ≡ old) };

    fn replace_append(&mut self, caps: &Captures<'_>, dst: &mut String) -> Result<(), Error> {
        append_template(self, caps, dst)
    }

    fn no_expansion(&mut self) -> Option<&str> {
        fixed_text(self)
    }
}

impl<'t> Replacer for &'t String {
    ghost appends = { λ old groups text answer new.
        IsAppendedTemplate (string_bytes old.now) groups text answer × (new ≡ old) };

    ghost fixed = { λ old text new. IsFixedText (string_bytes old.now) text × (new ≡ old) };

    fn replace_append(&mut self, caps: &Captures<'_>, dst: &mut String) -> Result<(), Error> {
        append_template(self.as_str(), caps, dst)
    }

    fn no_expansion(&mut self) -> Option<&str> {
        fixed_text(self.as_str())
    }
}

impl Replacer for String {
    ghost appends = { λ old groups text answer new.
        IsAppendedTemplate (string_bytes old) groups text answer × (new ≡ old) };

    ghost fixed = { λ old text new. IsFixedText (string_bytes old) text × (new ≡ old) };

    fn replace_append(&mut self, caps: &Captures<'_>, dst: &mut String) -> Result<(), Error> {
        append_template(self.as_str(), caps, dst)
    }

    fn no_expansion(&mut self) -> Option<&str> {
        fixed_text(self.as_str())
    }
}

impl<'t> Replacer for CowStr<'t> {
    ghost appends = { λ old groups text answer new.
        IsAppendedTemplate (cow_str_bytes old) groups text answer × (new ≡ old) };

    ghost fixed = { λ old text new. IsFixedText (cow_str_bytes old) text × (new ≡ old) };

    fn replace_append(&mut self, caps: &Captures<'_>, dst: &mut String) -> Result<(), Error> {
        append_template(self.as_str(), caps, dst)
    }

    fn no_expansion(&mut self) -> Option<&str> {
        fixed_text(self.as_str())
    }
}

impl<'c, 't> Replacer for &'c CowStr<'t> {
    ghost appends = { λ old groups text answer new.
        IsAppendedTemplate (cow_str_bytes old.now) groups text answer × (new ≡ old) };

    ghost fixed = { λ old text new. IsFixedText (cow_str_bytes old.now) text × (new ≡ old) };

    fn replace_append(&mut self, caps: &Captures<'_>, dst: &mut String) -> Result<(), Error> {
        append_template(self.as_str(), caps, dst)
    }

    fn no_expansion(&mut self) -> Option<&str> {
        fixed_text(self.as_str())
    }
}

/// The text, if it has no `$` and so is its own expansion.
fn fixed_text(text: &str) -> Option<&str>
    ensures { IsFixedText text.now (option_map (λ fixed. fixed.now) result) }
{
    if text.as_bytes().contains(&b'$') {
        None
    } else {
        Some(text)
    }
}

/// Appends the expansion of the template for the groups.
fn append_template(template: &str, caps: &Captures<'_>, dst: &mut String) -> Result<(), Error>
    ensures { (text : List ℕ) × (string_bytes dst.new ≡ string_bytes dst.old ++ text)
        × IsAppendedTemplate template.now caps.now text result }
{
    caps.expand(template, dst)
}
