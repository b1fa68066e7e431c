//! Files that one run alone holds.
use std::fs::{File, TryLockError};
use std::io;
use std::rt::Files;

/// A system whose files a run can hold, so that others see that it is at work on them.
pub trait HoldFiles: Files {
    /// Holds a file until it is closed, also by the end of the run, unless another run holds it.
    /// Whether it is held now; an error where the system can hold no file.
    fn try_hold(&self, file: &Self::File) -> io::Result<bool>;
}

impl HoldFiles for HostRuntime {
    fn try_hold(&self, file: &File) -> io::Result<bool> {
        match file.try_lock() {
            Ok(()) => Ok(true),
            Err(TryLockError::WouldBlock) => Ok(false),
            Err(TryLockError::Error(error)) => Err(error),
        }
    }
}
