//! Why the program ends without an answer.
ghost use Rattle.std.specs.Prelude.{is_ok};
ghost use Rattle.rxl.specs.declared.fault.Failure.{Failure};
ghost use Rattle.rxl.specs.declared.fault.Failure.TheVariants.{Refused};
ghost use Rattle.rxl.specs.Faults.{IsReadFault, IsReportedAs, line_of_fault};
ghost use Rattle.rxl.specs.Output.{IsWritten};

use crate::output::write_line;
use regex_lite::Error;
use std::alloc::Global;
use std::io;
use std::io::Write;

/// A fault of a run.
#[derive(Debug, Drop)]
pub(crate) enum Failure {
    /// The arguments aren't a complete command.
    Usage,
    /// The bytes of standard input aren't valid UTF-8.
    NotUtf8,
    /// A read of standard input failed.
    Unreadable,
    /// A write to standard output failed.
    Unwritten,
    /// The pattern was rejected, or memory ran out.
    Refused(Error),
}

impl Failure {
    /// The fault for a failed read of standard input.
    pub(crate) fn of_read(error: io::Error) -> Failure
        ensures { IsReadFault result }
    {
        match error.kind() {
            io::ErrorKind::OutOfMemory => Failure::Refused(Error::memory()),
            _ => Failure::Unreadable,
        }
    }

    /// Writes the line that reports the fault. If there is no memory to describe an error, the line
    /// reports that memory ran out.
    ///
    /// # Errors
    ///
    /// If a write failed. Then a prefix of the line was written.
    pub(crate) fn report<W: Write>(self, alloc: Global, out: &mut W) -> io::Result<()>
        ensures { (named : Failure) × IsReportedAs self named
            × IsWritten (W.contents out.old) (W.contents out.new) (line_of_fault named)
            (is_ok result) }
    {
        match self {
            Failure::Usage => write_line(
                out,
                "usage: rxl is-match|find|captures|split|replace|escape PATTERN [TEXT]",
            ),
            Failure::NotUtf8 => write_line(out, "standard input is not UTF-8"),
            Failure::Unreadable => write_line(out, "standard input cannot be read"),
            Failure::Unwritten => write_line(out, "standard output cannot be written"),
            Failure::Refused(error) => report_refusal(error, alloc, out),
        }
    }
}

/// Writes the text of the error and a line feed, or that memory ran out.
fn report_refusal<W: Write>(error: Error, alloc: Global, out: &mut W) -> io::Result<()>
    ensures { (named : Failure) × IsReportedAs (Refused error) named
        × IsWritten (W.contents out.old) (W.contents out.new) (line_of_fault named)
        (is_ok result) }
{
    match format!(in alloc; "{error}") {
        Ok(text) => write_line(out, text.as_str()),
        Err(_) => write_line(out, "out of memory"),
    }
}

impl From<Error> for Failure {
    ghost use Rattle.std.specs.Prelude.{◌≡◌};
    ghost use Rattle.rxl.specs.declared.fault.Failure.TheVariants.{Refused};

    ghost from_gives = { λ error fault. fault ≡ Refused error };

    fn from(error: Error) -> Failure {
        Failure::Refused(error)
    }
}

impl From<io::Error> for Failure {
    ghost use Rattle.std.specs.Prelude.{◌≡◌};
    ghost use Rattle.rxl.specs.declared.fault.Failure.TheVariants.{Unwritten};

    ghost from_gives = { λ _ fault. fault ≡ Unwritten };

    /// The fault for a failed write of standard output.
    fn from(_: io::Error) -> Failure {
        Failure::Unwritten
    }
}
