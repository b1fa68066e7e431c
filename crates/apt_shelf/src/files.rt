//! Files that are read piece by piece over any shelf.
ghost use Rattle.std.specs.Prelude.{◌≡◌, ◌+◌, ◌<◌, ◌≤◌, true, length, IfOk, IsErrOf};
ghost use Rattle.apt_shelf.specs.Told.{Lacks, Rose, Takes};
ghost use Rattle.apt_shelf.specs.Files.{HoldsAt, IsLongerAt, HasMore};

use crate::shelf::{ReadStart, Shelf, ShelfFault};
use std::alloc::{AllocError, Global};

/// How many bytes are read, or written, at a time.
pub(crate) const PIECE: usize = 4096;

/// Why a file was not read.
#[derive(Clone, Copy, Debug, PartialEq, Eq)]
pub enum ReadError {
    /// There is no file of that name.
    Missing,
    /// The file could not be opened or read.
    Fault,
    /// The file has more bytes than the limit.
    TooLong,
    /// Memory was lacking.
    NoMemory,
}

impl From<ReadStart> for ReadError {
    ghost use Rattle.apt_shelf.specs.Errors.{of_start};

    ghost from_gives = { λ s e. e ≡ of_start s };

    fn from(error: ReadStart) -> Self {
        match error {
            ReadStart::Missing => ReadError::Missing,
            ReadStart::Fault => ReadError::Fault,
            ReadStart::NoMemory => ReadError::NoMemory,
        }
    }
}

impl From<ShelfFault> for ReadError {
    ghost use Rattle.apt_shelf.specs.Errors.{of_fault};

    ghost from_gives = { λ s e. e ≡ of_fault s };

    fn from(error: ShelfFault) -> Self {
        match error {
            ShelfFault::Fault => ReadError::Fault,
            ShelfFault::NoMemory => ReadError::NoMemory,
        }
    }
}

impl From<AllocError> for ReadError {
    ghost use Rattle.apt_shelf.specs.declared.files.ReadError.TheVariants as errors;

    ghost from_gives = { λ _ e. e ≡ errors.NoMemory };

    fn from(_: AllocError) -> Self {
        ReadError::NoMemory
    }
}

/// Reads the next bytes of a file of which so many are read, which is not more than `limit`; none only at its end, and
/// `TooLong` where they come to more than `limit`.
pub fn read_piece<H: Shelf>(
    shelf: &mut H,
    buf: &mut [u8],
    so_far: usize,
    limit: usize,
) -> Result<usize, ReadError>
    requires started { H.reading shelf.old ≡ true }
    requires room { 0 < length buf.old }
    requires within { so_far ≤ limit }
    ensures within { IfOk result (λ n. (n ≤ length buf.new) × (so_far + n ≤ limit)) }
    ensures taken { IfOk result (λ n. Takes (H.left shelf.old) (H.left shelf.new) n buf.new) }
    ensures missing { ¬ (IsErrOf result ReadError.Missing) }
    ensures fault { IsErrOf result ReadError.Fault → Rose (H.read_faults shelf.old) (H.read_faults shelf.new) }
    ensures too_long { IsErrOf result ReadError.TooLong → HasMore (H.left shelf.old) so_far limit }
    ensures reading { H.reading shelf.new ≡ true }
    ensures later { H.read_faults shelf.old ≤ H.read_faults shelf.new }
    ensures told { H.told shelf.new ≡ H.told shelf.old }
    ensures writing { H.writing shelf.new ≡ H.writing shelf.old }
    ensures write_faults { H.write_faults shelf.new ≡ H.write_faults shelf.old }
{
    let n = shelf.read(buf)?;
    if n > limit - so_far {
        return Err(ReadError::TooLong);
    }
    Ok(n)
}

/// All bytes of a name, if they are at most `limit`; `TooLong` if they are more.
pub fn read_all<H: Shelf>(
    alloc: Global,
    shelf: &mut H,
    name: &str,
    limit: usize,
) -> Result<Vec<u8>, ReadError>
    ensures bytes { IfOk result (λ v. HoldsAt (H.told shelf.old) name.now v.items) }
    ensures short { IfOk result (λ v. length v.items ≤ limit) }
    ensures missing { IsErrOf result ReadError.Missing → Lacks (H.told shelf.old) name.now (H.read_faults shelf.old) (H.read_faults shelf.new) }
    ensures fault { IsErrOf result ReadError.Fault → Rose (H.read_faults shelf.old) (H.read_faults shelf.new) }
    ensures too_long { IsErrOf result ReadError.TooLong → IsLongerAt (H.told shelf.old) name.now limit }
    ensures later { H.read_faults shelf.old ≤ H.read_faults shelf.new }
    ensures told { H.told shelf.new ≡ H.told shelf.old }
    ensures writing { H.writing shelf.new ≡ H.writing shelf.old }
    ensures write_faults { H.write_faults shelf.new ≡ H.write_faults shelf.old }
{
    shelf.start_read(name)?;
    let mut bytes = Vec::new(alloc);
    let mut buf = [0u8; PIECE];
    'pieces: loop {
        let n = read_piece(shelf, &mut buf, bytes.len(), limit)?;
        if n == 0 {
            return Ok(bytes);
        }
        bytes.extend_from_slice(&buf[..n])?;
    }
}
