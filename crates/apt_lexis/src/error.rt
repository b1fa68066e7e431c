//! The refusal of a text.
use crate::PartCause;
use std::alloc::{AllocError, AllocFailed};
use thiserror::Error;

/// Why there is no program: the first fault of the text with its line, from 1, or want of memory.
#[derive(Debug, PartialEq, Eq, Drop, Error)]
pub enum ParseError {
    #[error("line {line}: {cause:?}")]
    Bad { line: u32, cause: PartCause },
    #[error("no memory")]
    NoMemory,
}

impl From<AllocError> for ParseError {
    ghost use Rattle.std.specs.Prelude.{◌≡◌};
    ghost use Rattle.apt_lexis.specs.declared.error.ParseError.TheVariants as errors;

    ghost from_gives = { λ _ e. e ≡ errors.NoMemory };

    fn from(_: AllocError) -> Self {
        ParseError::NoMemory
    }
}

impl<T: Drop> From<AllocFailed<T>> for ParseError {
    ghost use Rattle.std.specs.Prelude.{◌≡◌};
    ghost use Rattle.apt_lexis.specs.declared.error.ParseError.TheVariants as errors;

    ghost from_gives = { λ _ e. e ≡ errors.NoMemory };

    fn from(_: AllocFailed<T>) -> Self {
        ParseError::NoMemory
    }
}
