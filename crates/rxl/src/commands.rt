//! The output of the commands.
ghost use Rattle.std.specs.Prelude.{◌≡◌, ◌↔◌, ⊤, true, option_map, IfOk, IfErr, IsTrue};
ghost use Rattle.std.specs.Cow.{IsOwnedStr};
ghost use Rattle.regex_lite.specs.Errors.{out_of_memory};
ghost use Rattle.regex_lite.specs.Escapes.{escaped_pattern};
ghost use Rattle.regex_lite.specs.MatchViews.{span_of_match};
ghost use Rattle.rxl.specs.declared.command.Question.TheVariants as question;
ghost use Rattle.rxl.specs.Output.{Puts, PutsSome};
ghost use Rattle.rxl.specs.Printed.{Prints, group_text, groups_line, span_text};

use crate::output::Output;
use regex_lite::{Captures, Error, Match, Regex, escape};
use std::alloc::Global;
use std::borrow::CowStr;
use std::io::Write;

/// Prints the spans of the matches, and returns whether there is one.
pub(crate) fn print_matches<W: Write>(
    regex: &Regex,
    haystack: &str,
    output: &mut Output,
    out: &mut W,
) -> Result<bool, Error>
    ensures ok { IfOk result (λ found.
        PutsSome (Prints question.Find regex.now haystack.now found)
        output.old (W.contents out.old) output.new (W.contents out.new)) }
    ensures kept { PutsSome (λ _. ⊤)
        output.old (W.contents out.old) output.new (W.contents out.new) }
    ensures refused { IfErr result (λ error. error ≡ out_of_memory) }
{
    let mut has_match = false;
    for found in regex.find_iter(haystack)? {
        print_span(found, output, out);
        output.text(out, "\n");
        has_match = true;
    }
    Ok(has_match)
}

/// Prints the spans of the groups of the matches, and returns whether there is a match.
pub(crate) fn print_captures<W: Write>(
    regex: &Regex,
    haystack: &str,
    output: &mut Output,
    out: &mut W,
) -> Result<bool, Error>
    ensures ok { IfOk result (λ found.
        PutsSome (Prints question.Captures regex.now haystack.now found)
        output.old (W.contents out.old) output.new (W.contents out.new)) }
    ensures kept { PutsSome (λ _. ⊤)
        output.old (W.contents out.old) output.new (W.contents out.new) }
    ensures refused { IfErr result (λ error. error ≡ out_of_memory) }
{
    let mut has_match = false;
    for item in regex.captures_iter(haystack)? {
        let caps = item?;
        print_groups(&caps, output, out);
        has_match = true;
    }
    Ok(has_match)
}

/// Prints the pieces between the matches. There is always at least one.
pub(crate) fn print_pieces<W: Write>(
    regex: &Regex,
    haystack: &str,
    output: &mut Output,
    out: &mut W,
) -> Result<bool, Error>
    ensures ok { IfOk result (λ found.
        PutsSome (Prints question.Split regex.now haystack.now found)
        output.old (W.contents out.old) output.new (W.contents out.new)) }
    ensures kept { PutsSome (λ _. ⊤)
        output.old (W.contents out.old) output.new (W.contents out.new) }
    ensures refused { IfErr result (λ error. error ≡ out_of_memory) }
{
    for piece in regex.split(haystack)? {
        output.text(out, "[");
        output.text(out, piece);
        output.text(out, "]\n");
    }
    Ok(true)
}

/// Prints the haystack with each match replaced by the template, and returns whether there is a
/// match.
pub(crate) fn print_replaced<W: Write>(
    regex: &Regex,
    haystack: &str,
    template: &str,
    output: &mut Output,
    out: &mut W,
) -> Result<bool, Error>
    ensures ok { IfOk result (λ found.
        PutsSome (Prints (question.Replace template.entry) regex.now haystack.now found)
        output.old (W.contents out.old) output.new (W.contents out.new)) }
    ensures kept { PutsSome (λ _. ⊤)
        output.old (W.contents out.old) output.new (W.contents out.new) }
    ensures refused { IfErr result (λ error. error ≡ out_of_memory) }
{
    let replaced = regex.replace_all(haystack, template)?;
    output.text(out, replaced.as_str());
    // Without a match the haystack itself is returned, otherwise a new text.
    Ok(is_new(&replaced))
}

/// Whether the text is owned, and so a new one.
fn is_new(text: &CowStr<'_>) -> bool
    ensures { IsTrue result ↔ IsOwnedStr text.now }
{
    matches!(text, CowStr::Owned(_))
}

/// Prints a pattern that matches exactly this text.
pub(crate) fn print_escaped<W: Write>(
    alloc: Global,
    text: &str,
    output: &mut Output,
    out: &mut W,
) -> Result<bool, Error>
    ensures ok { IfOk result (λ found. (found ≡ true)
        × Puts output.old (W.contents out.old) output.new (W.contents out.new)
        (escaped_pattern text.now)) }
    ensures kept { PutsSome (λ _. ⊤)
        output.old (W.contents out.old) output.new (W.contents out.new) }
    ensures refused { IfErr result (λ error. error ≡ out_of_memory) }
{
    let pattern = escape(alloc, text)?;
    output.text(out, pattern.as_str());
    Ok(true)
}

/// Prints the spans of the groups, and a line feed.
fn print_groups<W: Write>(caps: &Captures<'_>, output: &mut Output, out: &mut W)
    ensures { Puts output.old (W.contents out.old) output.new (W.contents out.new)
        (groups_line caps.now.spans) }
{
    let mut separator = "";
    for group in caps.iter() {
        output.text(out, separator);
        print_group(group, output, out);
        separator = " ";
    }
    output.text(out, "\n");
}

/// Prints the span of a group, or a dash.
fn print_group<W: Write>(group: Option<Match<'_>>, output: &mut Output, out: &mut W)
    ensures { Puts output.old (W.contents out.old) output.new (W.contents out.new)
        (group_text (option_map span_of_match group.entry)) }
{
    match group {
        Some(found) => print_span(found, output, out),
        None => output.text(out, "-"),
    }
}

/// Prints the span of a match.
fn print_span<W: Write>(found: Match<'_>, output: &mut Output, out: &mut W)
    ensures { Puts output.old (W.contents out.old) output.new (W.contents out.new)
        (span_text (span_of_match found.entry)) }
{
    output.number(out, found.start());
    output.text(out, "..");
    output.number(out, found.end());
}
