//! Why a run of the filter ends early.
use regex_lite::Error;
use std::alloc::{AllocError, AllocFailed};
use std::{fmt, io};

/// Why a run of the filter ends early.
#[derive(Debug, Drop)]
pub enum FilterFault {
    /// The arguments aren't a pattern, with or without the flag.
    Usage,
    /// The pattern was rejected, or memory ran out.
    Refused(Error),
    /// A read of the input failed.
    Unreadable,
    /// A write to the output failed.
    Unwritten,
}

impl fmt::Display for FilterFault {
    fn fmt<W: fmt::Write>(&self, f: &mut fmt::Formatter<W>) -> fmt::Result {
        match self {
            FilterFault::Usage => write!(f, "usage: line_filter [-v] PATTERN"),
            FilterFault::Refused(error) => write!(f, "{error}"),
            FilterFault::Unreadable => write!(f, "standard input cannot be read"),
            FilterFault::Unwritten => write!(f, "standard output cannot be written"),
        }
    }
}

impl From<Error> for FilterFault {
    ghost use Rattle.std.specs.Prelude.{◌≡◌};
    ghost use Rattle.line_filter.specs.declared.fault.FilterFault.TheVariants.{Refused};

    ghost from_gives = { λ error fault. fault ≡ Refused error };

    fn from(error: Error) -> FilterFault {
        FilterFault::Refused(error)
    }
}

impl From<AllocError> for FilterFault {
    ghost use Rattle.std.specs.Prelude.{◌≡◌};
    ghost use Rattle.regex_lite.specs.Errors.{out_of_memory};
    ghost use Rattle.line_filter.specs.declared.fault.FilterFault.TheVariants.{Refused};

    ghost from_gives = { λ _ fault. fault ≡ Refused out_of_memory };

    fn from(_: AllocError) -> FilterFault {
        FilterFault::Refused(Error::memory())
    }
}

impl<T: Drop> From<AllocFailed<T>> for FilterFault {
    fn from(_: AllocFailed<T>) -> FilterFault {
        FilterFault::Refused(Error::memory())
    }
}

impl From<io::Error> for FilterFault {
    ghost use Rattle.std.specs.Prelude.{◌≡◌};
    ghost use Rattle.line_filter.specs.declared.fault.FilterFault.TheVariants.{Unwritten};

    ghost from_gives = { λ _ fault. fault ≡ Unwritten };

    /// The fault for a failed write.
    fn from(_: io::Error) -> FilterFault {
        FilterFault::Unwritten
    }
}
