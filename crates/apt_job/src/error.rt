//! Why there are no jobs.

use std::alloc::{AllocError, AllocFailed};
use thiserror::Error;

/// Why there are no jobs: the first record that does not answer the steps, by its number from 1 (one past the last
/// where a record is missing), or want of memory.
#[derive(Debug, PartialEq, Eq, Drop, Error)]
pub enum JobError {
    #[error("entry {seq}")]
    Entry { seq: u64 },
    #[error("no memory")]
    NoMemory,
}

impl From<AllocError> for JobError {
    ghost use Rattle.std.specs.Prelude.{◌≡◌};
    ghost use Rattle.apt_job.specs.declared.error.JobError.TheVariants as errors;

    ghost from_gives = { λ _ e. e ≡ errors.NoMemory };

    fn from(_: AllocError) -> Self {
        JobError::NoMemory
    }
}

impl<T: Drop> From<AllocFailed<T>> for JobError {
    ghost use Rattle.std.specs.Prelude.{◌≡◌};
    ghost use Rattle.apt_job.specs.declared.error.JobError.TheVariants as errors;

    ghost from_gives = { λ _ e. e ≡ errors.NoMemory };

    fn from(_: AllocFailed<T>) -> Self {
        JobError::NoMemory
    }
}
