//! The errors for a pattern: their kinds, and the text of each.
//!
//! The texts of syntax faults are in one place, `SyntaxFault::text`. Each names the rule of the
//! grammar that a pattern breaks.
ghost use Rattle.std.specs.Prelude.{◌≡◌, ◌≢◌, MatchOption, Some};
ghost use Rattle.regex_lite_syntax.specs.declared.error.ErrorKind.TheVariants.{Syntax};
ghost use Rattle.regex_lite_syntax.specs.Errors.{kind_of, text_of, syntax_error};
ghost use Rattle.regex_lite_syntax.specs.Errors.{too_deep, too_many_groups, passed_limit};
ghost use Rattle.regex_lite_syntax.specs.Errors.{out_of_memory, refused_replacement};

mod syntax;
mod unexpected_eof;

use std::alloc::{AllocError, AllocFailed};
use std::fmt;
use std::marker::Model;
pub use syntax::SyntaxFault;
pub use unexpected_eof::UnexpectedEof;

/// The kind of an [`Error`].
#[derive(Clone, Copy, PartialEq, Eq, Debug)]
pub enum ErrorKind {
    /// The grammar has no tree for the pattern.
    Syntax,
    /// The pattern nests deeper than the nest limit.
    Nesting,
    /// The pattern has more capture groups than can be numbered.
    Groups,
    /// The size of the compiled pattern is above the size limit.
    Size,
    /// The compiled pattern has more places (NFA states) than can be numbered.
    Places,
    /// A group's slots can't be numbered.
    Slots,
    /// Memory ran out.
    Memory,
    /// A caller's replacer returned an error.
    Replace,
}

/// A limit on compiled patterns.
#[derive(Clone, Copy, PartialEq, Eq, Debug)]
pub enum LimitFault {
    /// The size limit.
    Size,
    /// The number of places that can be numbered.
    Places,
    /// The number of slots that can be numbered.
    Slots,
}

/// The cause of an [`Error`].
#[derive(Clone, Copy, PartialEq, Eq, Debug)]
pub(crate) enum Cause {
    Syntax(SyntaxFault),
    Nesting,
    Groups,
    Limit(LimitFault),
    Memory,
    Replace,
}

/// Why a call failed: an error with a kind, and with a text, which `Display` writes.
#[derive(Clone, PartialEq, Eq, Debug, Drop)]
pub struct Error {
    fault: Cause,
}

impl Model for Error {
    ghost use Rattle.std.proofs.Common.{ap};
    ghost use Rattle.regex_lite_syntax.specs.Errors.{Refusal};

    ghost Value = { Refusal };

    ghost use Rattle.regex_lite_syntax.specs.Faults.{refusal_of, fault_of, fault_back};

    ghost view = { λ error. refusal_of error.fault };

    ghost inverse = { λ refusal. record { fault = fault_of refusal } };

    ghost inverse_ok = { λ error _.
        ap (λ fault. record { fault = fault }) (fault_back error.fault) };
}

impl Error {
    /// The kind of the error.
    pub fn kind(&self) -> ErrorKind
        ensures { result ≡ kind_of self.now }
    {
        match self.fault {
            Cause::Syntax(_) => ErrorKind::Syntax,
            Cause::Nesting => ErrorKind::Nesting,
            Cause::Groups => ErrorKind::Groups,
            Cause::Limit(LimitFault::Size) => ErrorKind::Size,
            Cause::Limit(LimitFault::Places) => ErrorKind::Places,
            Cause::Limit(LimitFault::Slots) => ErrorKind::Slots,
            Cause::Memory => ErrorKind::Memory,
            Cause::Replace => ErrorKind::Replace,
        }
    }

    /// The rule of the grammar that the pattern breaks, if that is the error.
    pub(crate) fn syntax_fault(&self) -> Option<SyntaxFault>
        ensures { MatchOption result (kind_of self.now ≢ Syntax)
            (λ fault. self.now ≡ syntax_error fault) }
    {
        match self.fault {
            Cause::Syntax(fault) => Some(fault),
            _ => None,
        }
    }

    /// The error for a pattern that nests deeper than the limit.
    pub(crate) fn nesting() -> Error
        ensures { result ≡ too_deep }
    {
        Error {
            fault: Cause::Nesting,
        }
    }

    /// The error for a pattern with more groups than can be numbered.
    pub(crate) fn groups() -> Error
        ensures { result ≡ too_many_groups }
    {
        Error {
            fault: Cause::Groups,
        }
    }

    /// The error that memory ran out, for a caller's replacer to return.
    pub fn memory() -> Error
        ensures { result ≡ out_of_memory }
    {
        Error {
            fault: Cause::Memory,
        }
    }

    /// The error that a replacement isn't possible, for a caller's replacer to return.
    pub fn replace() -> Error
        ensures { result ≡ refused_replacement }
    {
        Error {
            fault: Cause::Replace,
        }
    }

    /// The text that `Display` writes. It is static, so it needs no memory.
    pub fn text(&self) -> &'static str
        ensures { result.now ≡ text_of self.now }
    {
        match self.fault {
            Cause::Syntax(fault) => fault.text(),
            Cause::Nesting => "pattern has too much nesting",
            Cause::Groups => "too many capture groups",
            Cause::Limit(LimitFault::Size) => "compiled regex exceeded size limit",
            Cause::Limit(LimitFault::Places) => "exhausted state IDs, too many states",
            Cause::Limit(LimitFault::Slots) => "capture group slots exhausted",
            Cause::Memory => "out of memory",
            Cause::Replace => "replacement refused",
        }
    }
}

impl fmt::Display for Error {
    ghost output = { λ error. Some (text_of error) };

    fn fmt<W: fmt::Write>(&self, f: &mut fmt::Formatter<W>) -> fmt::Result {
        write!(f, "{}", self.text())
    }
}

impl std::error::Error for Error {}

impl From<SyntaxFault> for Error {
    ghost from_gives = { λ fault error. error ≡ syntax_error fault };

    fn from(fault: SyntaxFault) -> Error {
        Error {
            fault: Cause::Syntax(fault),
        }
    }
}

impl From<LimitFault> for Error {
    ghost from_gives = { λ fault error. error ≡ passed_limit fault };

    fn from(fault: LimitFault) -> Error {
        Error {
            fault: Cause::Limit(fault),
        }
    }
}

impl From<AllocError> for Error {
    ghost from_gives = { λ _ error. error ≡ out_of_memory };

    fn from(_: AllocError) -> Error {
        Error::memory()
    }
}

impl<T: Drop> From<AllocFailed<T>> for Error {
    ghost from_gives = { λ _ error. error ≡ out_of_memory };

    fn from(_: AllocFailed<T>) -> Error {
        Error::memory()
    }
}
