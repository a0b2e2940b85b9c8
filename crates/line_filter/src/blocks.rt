//! The input, block by block, and the lines of a block.
ghost use Rattle.std.specs.Prelude.{◌≡◌, ◌≢◌, ◌<◌, ◌≤◌, ◌++◌, ℕ, List, ◌∷◌, []};
ghost use Rattle.std.specs.Prelude.{IfErr, IfOk, MatchOption, OnOk, drop, length, take, true};
ghost use Rattle.std.specs.Io.KnownBytes.{Consumes, IsAtEnd};
ghost use Rattle.line_filter.specs.declared.fault.FilterFault.TheVariants.{Unwritten};
ghost use Rattle.line_filter.specs.Lines.{lines_of};

use crate::fault::FilterFault;
use memchr::{memchr, memrchr};
use std::alloc::{AllocError, Global};
use std::io;
use std::io::Read;
use std::marker::Model;

/// The number of bytes by which the memory grows. A read returns at most that many, unless lines
/// are longer.
const BLOCK: usize = 65536;

/// The bytes that were read but not yet filtered.
#[derive(Drop)]
pub(crate) struct InputBlock {
    /// The memory of the block, the front of which is in use.
    bytes: Vec<u8>,
    filled: usize,
}

impl Model for InputBlock {
    ghost use Rattle.std.specs.Prelude.{◌≤◌, ℕ, List, length, take};

    ghost Value = { List ℕ };

    ghost view = { λ block. take block.filled block.bytes.items };

    ghost invariant = { λ block. block.filled ≤ length block.bytes.items };
}

impl InputBlock {
    /// A block without bytes.
    pub fn new(alloc: Global) -> InputBlock
        ensures { result ≡ [] }
    {
        InputBlock {
            bytes: Vec::new(alloc),
            filled: 0,
        }
    }

    /// The number of bytes in the block.
    pub fn len(&self) -> usize
        ensures { result ≡ length self.now }
    {
        self.filled
    }

    /// The bytes of the block.
    pub fn as_slice(&self) -> &[u8]
        ensures { result.now ≡ self.now }
    {
        &self.bytes[..self.filled]
    }

    /// Appends what one read of the input returns, and returns whether the input has ended. If the
    /// read was interrupted, nothing is appended, and the input may continue.
    ///
    /// # Errors
    ///
    /// `Unreadable` if the read failed, and `Refused` if memory ran out.
    pub fn read_from<R: Read>(&mut self, input: &mut R) -> Result<bool, FilterFault>
        ensures read { IfOk result (λ is_end. (bytes : List ℕ)
            × (self.new ≡ self.old ++ bytes)
            × Consumes (R.remaining input.old) (R.remaining input.new) bytes
            × (is_end ≡ true → IsAtEnd (R.remaining input.new))) }
        ensures refused { IfErr result (λ fault. fault ≢ Unwritten) }
    {
        make_room(&mut self.bytes, self.filled)?;
        match input.read(&mut self.bytes[self.filled..]) {
            Ok(count) => {
                self.filled += count;
                Ok(count == 0)
            }
            Err(error) if error.kind() == io::ErrorKind::Interrupted => Ok(false),
            Err(_) => Err(FilterFault::Unreadable),
        }
    }

    /// Drops the first bytes of the block.
    ///
    /// Condition: the block has at least that many bytes.
    pub fn drop_front(&mut self, count: usize)
        requires { count ≤ length self.old }
        ensures { self.new ≡ drop count self.old }
    {
        self.bytes.copy_within(count..self.filled, 0);
        self.filled -= count;
    }
}

/// Makes the memory larger if all of it is in use.
///
/// Condition: at most the whole memory is in use.
fn make_room(bytes: &mut Vec<u8>, filled: usize) -> Result<(), AllocError>
    requires { filled ≤ length bytes.old.items }
    ensures room { OnOk result (filled < length bytes.new.items) }
    ensures held { take filled bytes.new.items ≡ take filled bytes.old.items }
{
    if filled == bytes.len() {
        bytes.resize(filled.saturating_add(BLOCK), 0)?;
    }
    Ok(())
}

/// The number of bytes at the front that are whole lines, whatever follows. It searches only for
/// line feeds at or after `start`.
pub(crate) fn whole_lines(bytes: &[u8], start: usize) -> usize
    requires { start ≤ length bytes.now }
    ensures inside { result ≤ length bytes.now }
    ensures whole { (more : List ℕ) → lines_of (bytes.now ++ more)
        ≡ lines_of (take result bytes.now) ++ lines_of (drop result bytes.now ++ more) }
{
    match memrchr(b'\n', &bytes[start..]) {
        Some(at) => start + at + 1,
        None => 0,
    }
}

/// The first line and the bytes after it, or `None` if there are no bytes.
pub(crate) fn split_line(bytes: &[u8]) -> Option<(&[u8], &[u8])>
    ensures { MatchOption result (bytes.now ≡ []) (λ parts.
        (lines_of bytes.now ≡ parts.0.now ∷ lines_of parts.1.now)
        × (length parts.1.now < length bytes.now)) }
{
    if bytes.is_empty() {
        return None;
    }
    let end = match memchr(b'\n', bytes) {
        Some(at) => at + 1,
        None => bytes.len(),
    };
    Some(bytes.split_at(end))
}
