//! The refusal of a CL file.
ghost use Rattle.std.specs.Prelude.{◌≡◌};
ghost use Rattle.apt_cldata.specs.Causes as causes;
ghost use Rattle.apt_cldata.specs.Reading as reading;

use std::alloc::{AllocError, AllocFailed};
use thiserror::Error;

/// Why bytes are no CL file.
#[derive(Clone, Copy, Debug, PartialEq, Eq)]
pub enum ClCause {
    /// The file doesn't begin with its head.
    Header,
    /// The file ends within its head or a record, or without FINI.
    Truncated,
    /// A record's length is that of no record, or not that of its kind.
    Length,
    /// A record's number is not the next one.
    Seq,
    /// There is no record of this class, or of this subtype in its class.
    Class,
    /// A word is out of its range.
    Range,
    /// Bytes stand behind the record of FINI.
    AfterFini,
    /// The head tells another number of records than there are.
    Count,
}

impl ClCause {
    /// Its name, as it is printed.
    pub fn name(&self) -> &'static str
        ensures { result.now ≡ causes.name_of self.now }
    {
        match self {
            ClCause::Header => "Header",
            ClCause::Truncated => "Truncated",
            ClCause::Length => "Length",
            ClCause::Seq => "Seq",
            ClCause::Class => "Class",
            ClCause::Range => "Range",
            ClCause::AfterFini => "AfterFini",
            ClCause::Count => "Count",
        }
    }
}

/// Why there are no records: the first fault of the bytes with its place, which counts bytes from 0, or want
/// of memory.
#[derive(Debug, PartialEq, Eq, Drop, Error)]
pub enum ClError {
    #[error("byte {at}: {cause:?}")]
    Bad { at: u64, cause: ClCause },
    #[error("no memory")]
    NoMemory,
}

impl From<AllocError> for ClError {
    ghost use Rattle.apt_cldata.specs.declared.error.ClError.TheVariants as errors;

    ghost from_gives = { λ _ e. e ≡ errors.NoMemory };

    fn from(_: AllocError) -> Self {
        ClError::NoMemory
    }
}

impl<T: Drop> From<AllocFailed<T>> for ClError {
    ghost use Rattle.apt_cldata.specs.declared.error.ClError.TheVariants as errors;

    ghost from_gives = { λ _ e. e ≡ errors.NoMemory };

    fn from(_: AllocFailed<T>) -> Self {
        ClError::NoMemory
    }
}

/// The first place of some bytes that can't stand, counted from 0, and why.
#[derive(Clone, Copy, PartialEq, Eq)]
pub(crate) struct ClFault {
    pub at: u64,
    pub cause: ClCause,
}

impl ClFault {
    pub(crate) fn new(at: u64, cause: ClCause) -> ClFault
        ensures { result ≡ reading.fault at cause }
    {
        ClFault { at, cause }
    }
}

impl From<ClFault> for ClError {
    ghost use Rattle.apt_cldata.specs.declared.error.ClError.TheVariants as errors;

    ghost from_gives = { λ f e. e ≡ errors.Bad f.at f.cause };

    fn from(fault: ClFault) -> Self {
        ClError::Bad {
            at: fault.at,
            cause: fault.cause,
        }
    }
}
