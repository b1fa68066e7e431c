//! Why a text is no outline.

ghost use Rattle.std.specs.Prelude.{◌≡◌};
ghost use Rattle.apt_outline.specs.Causes as causes;

use std::alloc::{AllocError, AllocFailed};
use thiserror::Error;

/// Why an outline is refused, at a line.
#[derive(Clone, Copy, Debug, PartialEq, Eq)]
pub enum OutlineCause {
    /// The line has a byte that is no character, or more than 256.
    Byte,
    /// The first line is not `OUTLINE 1`.
    Header,
    /// The line is no part.
    Word,
    /// A name has no figure.
    Undefined,
    /// A name stands for no point, or for no circle.
    WrongKind,
    /// The two points of an edge are the same.
    Degenerate,
    /// There is no part: the line is the one behind the last.
    Empty,
}

impl OutlineCause {
    /// Its name, as it is printed.
    pub fn name(&self) -> &'static str
        ensures { result.now ≡ causes.name_of self.now }
    {
        match self {
            OutlineCause::Byte => "Byte",
            OutlineCause::Header => "Header",
            OutlineCause::Word => "Word",
            OutlineCause::Undefined => "Undefined",
            OutlineCause::WrongKind => "WrongKind",
            OutlineCause::Degenerate => "Degenerate",
            OutlineCause::Empty => "Empty",
        }
    }
}

/// The first fault of an outline with its line, from 1, or want of memory.
#[derive(Clone, Copy, Debug, PartialEq, Eq, Error)]
pub enum OutlineError {
    #[error("line {line}: {cause:?}")]
    Bad { line: u32, cause: OutlineCause },
    #[error("no memory")]
    NoMemory,
}

impl From<AllocError> for OutlineError {
    ghost use Rattle.std.specs.Prelude.{◌≡◌};
    ghost use Rattle.apt_outline.specs.declared.cause.OutlineError.TheVariants as errors;

    ghost from_gives = { λ _ e. e ≡ errors.NoMemory };

    fn from(_: AllocError) -> Self {
        OutlineError::NoMemory
    }
}

impl<T: Drop> From<AllocFailed<T>> for OutlineError {
    ghost use Rattle.std.specs.Prelude.{◌≡◌};
    ghost use Rattle.apt_outline.specs.declared.cause.OutlineError.TheVariants as errors;

    ghost from_gives = { λ _ e. e ≡ errors.NoMemory };

    fn from(_: AllocFailed<T>) -> Self {
        OutlineError::NoMemory
    }
}
