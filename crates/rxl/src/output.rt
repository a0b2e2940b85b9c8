//! Buffered output.
ghost use Rattle.std.specs.Prelude.{◌≡◌, ◌≤◌, ◌++◌, ℕ, List, [], drop, length};
ghost use Rattle.std.specs.Prelude.{Option, IfErr, IfOk, false, is_ok, codes};
ghost use Rattle.std.specs.Fmt.{decimal};
ghost use Rattle.rxl.specs.declared.fault.Failure.TheVariants.{Unwritten};
ghost use Rattle.regex_lite.specs.Errors.{out_of_memory};
ghost use Rattle.rxl.specs.Output.{IsPrinted, IsWritten, Puts};

use crate::fault::Failure;
use regex_lite::Error;
use std::alloc::Global;
use std::io;
use std::io::Write;

/// The greatest number of bytes that are buffered.
const LARGE: usize = 8192;

/// The greatest number of digits of a number.
const DIGITS: usize = 20;

/// Texts that were printed but not yet written. Once a write has failed, all further texts are
/// dropped.
#[derive(Drop)]
pub(crate) struct Output {
    waiting: Vec<u8>,
    has_failed: bool,
}

impl Output {
    /// An output to which nothing has been printed yet.
    ///
    /// # Errors
    ///
    /// If there is no memory for the buffer, which is allocated here.
    pub fn new(alloc: Global) -> Result<Output, Error>
        ensures waiting { IfOk result (λ output. output.waiting.items ≡ []) }
        ensures has_failed { IfOk result (λ output. output.has_failed ≡ false) }
        ensures refused { IfErr result (λ error. error ≡ out_of_memory) }
    {
        Ok(Output {
            waiting: Vec::with_capacity(alloc, LARGE)?,
            has_failed: false,
        })
    }

    /// Prints a text. If it doesn't fit the buffer, it is written at once.
    pub fn text<W: Write>(&mut self, out: &mut W, text: &str)
        ensures { Puts self.old (W.contents out.old) self.new (W.contents out.new) text.now }
    {
        if self.has_failed {
            return;
        }
        let bytes = text.as_bytes();
        let room = LARGE.saturating_sub(self.waiting.len());
        if bytes.len() > room || self.waiting.extend_from_slice(bytes).is_err() {
            self.send(out, bytes);
        }
    }

    /// Prints a number in decimal digits.
    pub fn number<W: Write>(&mut self, out: &mut W, number: usize)
        ensures { Puts self.old (W.contents out.old) self.new (W.contents out.new)
            (decimal number) }
    {
        if self.waiting.len() > LARGE - DIGITS {
            self.send(out, b"");
        }
        if !self.has_failed {
            // There is room for the digits, so this doesn't fail.
            self.has_failed = write!(self.waiting, "{number}").is_err();
        }
    }

    /// Writes what was buffered, and then these bytes.
    fn send<W: Write>(&mut self, out: &mut W, bytes: &[u8])
        ensures { Puts self.old (W.contents out.old) self.new (W.contents out.new) bytes.now }
    {
        if self.has_failed {
            return;
        }
        self.has_failed = write_both(out, self.waiting.as_slice(), bytes).is_err();
        self.waiting.clear();
    }

    /// Writes what is left.
    ///
    /// # Errors
    ///
    /// `Unwritten` if a write failed, now or before.
    pub fn finish<W: Write>(self, out: &mut W) -> Result<(), Failure>
        ensures written { (before : Option (List ℕ)) → (text : List ℕ)
            → IsPrinted before (W.contents out.old) self text
            → IsWritten before (W.contents out.new) text (is_ok result) }
        ensures refused { IfErr result (λ fault. fault ≡ Unwritten) }
    {
        if self.has_failed {
            return Err(Failure::Unwritten);
        }
        write_all(out, self.waiting.as_slice())?;
        out.flush()?;
        Ok(())
    }
}

/// Writes the text and a line feed.
pub(crate) fn write_line<W: Write>(out: &mut W, text: &str) -> io::Result<()>
    ensures { IsWritten (W.contents out.old) (W.contents out.new) (text.now ++ codes "\n")
        (is_ok result) }
{
    write_both(out, text.as_bytes(), b"\n")
}

/// Writes the bytes of both slices.
fn write_both<W: Write>(out: &mut W, first: &[u8], second: &[u8]) -> io::Result<()>
    ensures { IsWritten (W.contents out.old) (W.contents out.new) (first.now ++ second.now)
        (is_ok result) }
{
    write_all(out, first)?;
    write_all(out, second)
}

/// Writes all bytes. If a write fails, a prefix of them was written.
fn write_all<W: Write>(out: &mut W, bytes: &[u8]) -> io::Result<()>
    ensures { IsWritten (W.contents out.old) (W.contents out.new) bytes.now (is_ok result) }
{
    let mut rest = bytes;
    for _ in 0..u64::MAX {
        if rest.is_empty() {
            return Ok(());
        }
        match out.write(rest) {
            Ok(0) => break,
            Ok(count) => rest = rest_after(rest, count),
            Err(error) if error.kind() == io::ErrorKind::Interrupted => {}
            Err(error) => return Err(error),
        }
    }
    Err(io::Error::from(io::ErrorKind::WriteZero))
}

/// The bytes after the first `count`.
fn rest_after(bytes: &[u8], count: usize) -> &[u8]
    requires { count ≤ length bytes.now }
    ensures { result.now ≡ drop count bytes.now }
{
    &bytes[count..]
}
