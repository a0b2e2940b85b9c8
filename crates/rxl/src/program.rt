//! The program, generic over its reader and its writers.
ghost use Rattle.std.specs.Prelude.{◌≡◌, ◌<◌, ◌≤◌, ◌⊎◌, ⊤, List, ℕ};
ghost use Rattle.std.specs.Prelude.{Err, IfOk, IfErr, IfSome, IsUtf8};
ghost use Rattle.std.specs.Io.KnownBytes.{Appends};
ghost use Rattle.rxl.specs.Faults.{Ends, IsFaultOf, IsQuestionFault, IsReadFault, IsReported};
ghost use Rattle.regex_lite.specs.Expression.{IsAccepted};
ghost use Rattle.regex_lite.specs.Settings.{default_settings};
ghost use Rattle.regex_lite.specs.Errors.{out_of_memory};
ghost use Rattle.rxl.specs.declared.fault.Failure.{Failure};
ghost use Rattle.rxl.specs.declared.fault.Failure.TheVariants.{NotUtf8, Usage};
ghost use Rattle.rxl.specs.Commands.{AskForNone};
ghost use Rattle.rxl.specs.Output.{PutsSome};
ghost use Rattle.rxl.specs.Printed.{Prints};
ghost use Rattle.rxl.specs.Program.{AsksForInput, IsCommandAnswered, IsDone};
ghost use Rattle.rxl.specs.Program.{IsQuestionAnswered, TakesInput, status_of};

use crate::command::{Command, Question};
use crate::commands::{print_captures, print_escaped, print_matches, print_pieces, print_replaced};
use crate::fault::Failure;
use crate::output::Output;
use regex_lite::{Error, Regex};
use std::alloc::Global;
use std::io::{Read, Write};
use std::str;

/// Runs the program on its arguments, without the program's own name, and returns its exit status:
/// 0 if what was asked for was found, 1 if it wasn't, and 2 after a fault, which is reported in one
/// line on `err`.
///
/// The arguments are checked first. Then the pattern is compiled, and then the whole input is read.
/// So nothing is read if the arguments are wrong, if a text is to be escaped, or if the pattern is
/// rejected. What was printed before a fault remains.
pub(crate) fn run<R: Read, O: Write, E: Write>(
    alloc: Global,
    args: &[&str],
    input: &mut R,
    out: &mut O,
    err: &mut E,
) -> u8
    ensures known { result ≤ 2 }
    ensures done { result < 2 → IsDone args.now (R.remaining input.old)
        (O.contents out.old) (O.contents out.new) result }
    ensures silent { result < 2 → err.new ≡ err.old }
    ensures fault { result ≡ 2 → (fault : Failure) × Ends fault args.now (R.remaining input.old)
        (O.contents out.old) (O.contents out.new)
        × IsReported fault (E.contents err.old) (E.contents err.new) }
    ensures usage { AskForNone args.now → (result ≡ 2) × (input.new ≡ input.old)
        × (out.new ≡ out.old) × IsReported Usage (E.contents err.old) (E.contents err.new) }
    ensures unread { (input.new ≡ input.old) ⊎ AsksForInput args.now }
    ensures kept { (text : List ℕ) × Appends (O.contents out.old) (O.contents out.new) text }
{
    match print_answer(alloc, args, input, out) {
        Ok(true) => 0,
        Ok(false) => 1,
        Err(fault) => {
            // If this fails too, only the status can report it.
            let _ = fault.report(alloc, err);
            2
        }
    }
}

/// Runs the command that the arguments ask for, and returns whether something was found.
fn print_answer<R: Read, W: Write>(
    alloc: Global,
    args: &[&str],
    input: &mut R,
    out: &mut W,
) -> Result<bool, Failure>
    ensures ok { IfOk result (λ found. IsDone args.now (R.remaining input.old)
        (W.contents out.old) (W.contents out.new) (status_of found)) }
    ensures refused { IfErr result (λ fault. Ends fault args.now (R.remaining input.old)
        (W.contents out.old) (W.contents out.new)) }
    ensures usage { AskForNone args.now → (result ≡ Err Usage) × (input.new ≡ input.old)
        × (out.new ≡ out.old) }
    ensures unread { (input.new ≡ input.old) ⊎ AsksForInput args.now }
    ensures kept { (text : List ℕ) × Appends (W.contents out.old) (W.contents out.new) text }
{
    let Some(command) = Command::of(args) else {
        return Err(Failure::Usage);
    };
    let mut output = Output::new(alloc)?;
    let answer = answer(alloc, command, input, &mut output, out);
    let written = output.finish(out);
    let found = answer?;
    written?;
    Ok(found)
}

/// Prints the answer to a command.
fn answer<R: Read, W: Write>(
    alloc: Global,
    command: Command<'_>,
    input: &mut R,
    output: &mut Output,
    out: &mut W,
) -> Result<bool, Failure>
    ensures ok { IfOk result (λ found.
        PutsSome (IsCommandAnswered command.entry (R.remaining input.old) found)
        output.old (W.contents out.old) output.new (W.contents out.new)) }
    ensures kept { PutsSome (λ _. ⊤)
        output.old (W.contents out.old) output.new (W.contents out.new) }
    ensures refused { IfErr result (λ fault.
        IsFaultOf fault command.entry (R.remaining input.old)) }
    ensures unread { (input.new ≡ input.old) ⊎ TakesInput command.entry }
{
    match command {
        Command::Ask(question, pattern) => ask(alloc, question, pattern, input, output, out),
        Command::Escape(text) => Ok(print_escaped(alloc, text, output, out)?),
    }
}

/// Prints the answer to a question about the pattern and the input.
fn ask<R: Read, W: Write>(
    alloc: Global,
    question: Question<'_>,
    pattern: &str,
    input: &mut R,
    output: &mut Output,
    out: &mut W,
) -> Result<bool, Failure>
    ensures ok { IfOk result (λ found.
        PutsSome (IsQuestionAnswered question.entry pattern.now (R.remaining input.old) found)
        output.old (W.contents out.old) output.new (W.contents out.new)) }
    ensures kept { PutsSome (λ _. ⊤)
        output.old (W.contents out.old) output.new (W.contents out.new) }
    ensures refused { IfErr result (λ fault.
        IsQuestionFault fault pattern.now (R.remaining input.old)) }
    ensures unread { (input.new ≡ input.old) ⊎ IsAccepted (default_settings pattern.now) }
{
    let regex = Regex::new(alloc, pattern)?;
    let bytes = read_all(alloc, input)?;
    let haystack = text_of(bytes.as_slice())?;
    Ok(print_question(&regex, question, haystack, output, out)?)
}

/// Prints the answer to a question about the regex and the haystack.
fn print_question<W: Write>(
    regex: &Regex,
    question: Question<'_>,
    haystack: &str,
    output: &mut Output,
    out: &mut W,
) -> Result<bool, Error>
    ensures ok { IfOk result (λ found.
        PutsSome (Prints question.entry regex.now haystack.now found)
        output.old (W.contents out.old) output.new (W.contents out.new)) }
    ensures kept { PutsSome (λ _. ⊤)
        output.old (W.contents out.old) output.new (W.contents out.new) }
    ensures refused { IfErr result (λ error. error ≡ out_of_memory) }
{
    match question {
        Question::IsMatch => regex.is_match(haystack),
        Question::Find => print_matches(regex, haystack, output, out),
        Question::Captures => print_captures(regex, haystack, output, out),
        Question::Split => print_pieces(regex, haystack, output, out),
        Question::Replace(template) => print_replaced(regex, haystack, template, output, out),
    }
}

/// All bytes that the reader still has.
fn read_all<R: Read>(alloc: Global, input: &mut R) -> Result<Vec<u8>, Failure>
    ensures ok { IfOk result
        (λ bytes. IfSome (R.remaining input.old) (λ known. bytes.items ≡ known)) }
    ensures refused { IfErr result IsReadFault }
{
    let mut bytes = Vec::new(alloc);
    match input.read_to_end(&mut bytes) {
        Ok(_) => Ok(bytes),
        Err(error) => Err(Failure::of_read(error)),
    }
}

/// The bytes as a text.
fn text_of(bytes: &[u8]) -> Result<&str, Failure>
    ensures ok { IfOk result (λ text. (text.now ≡ bytes.now) × IsUtf8 bytes.now) }
    ensures refused { IfErr result (λ fault. (fault ≡ NotUtf8) × ¬ (IsUtf8 bytes.now)) }
{
    match str::from_utf8(bytes) {
        Ok(text) => Ok(text),
        Err(_) => Err(Failure::NotUtf8),
    }
}
