//! What files and lines are asked of.
ghost use Rattle.std.specs.Prelude.{◌≡◌, ℕ, ◌<◌, ◌≤◌, List, [], length, Bool, true, false, Option, IsSome, IfOk, OnOk, OnErr, IsErrOf};
ghost use Rattle.std.specs.FinMap.{insert};
ghost use Rattle.apt_shelf.specs.Told.{Contents, Rose, Steps, StartsAt, Lacks, Takes, MayBeEmptied, KeepsPrefix, Adds, StartCause, FaultCause, Puts, PutsPrefix};

use std::alloc::AllocError;
use std::io::{self, ErrorKind};

/// Why a read was not started.
#[derive(Clone, Copy, Debug, PartialEq, Eq)]
pub enum ReadStart {
    /// There is no file of that name.
    Missing,
    /// The file could not be opened.
    Fault,
    /// Memory was lacking.
    NoMemory,
}

/// Why a call on a shelf or a sink was refused.
#[derive(Clone, Copy, Debug, PartialEq, Eq)]
pub enum ShelfFault {
    /// The file or the sink failed.
    Fault,
    /// Memory was lacking.
    NoMemory,
}

impl From<AllocError> for ReadStart {
    ghost use Rattle.apt_shelf.specs.declared.shelf.ReadStart.TheVariants as starts;

    ghost from_gives = { λ _ e. e ≡ starts.NoMemory };

    fn from(_: AllocError) -> Self {
        ReadStart::NoMemory
    }
}

impl From<AllocError> for ShelfFault {
    ghost use Rattle.apt_shelf.specs.declared.shelf.ShelfFault.TheVariants as faults;

    ghost from_gives = { λ _ e. e ≡ faults.NoMemory };

    fn from(_: AllocError) -> Self {
        ShelfFault::NoMemory
    }
}

impl From<io::Error> for ShelfFault {
    fn from(error: io::Error) -> Self {
        match error.kind() {
            ErrorKind::OutOfMemory => ShelfFault::NoMemory,
            _ => ShelfFault::Fault,
        }
    }
}

impl ShelfFault {
    /// Gives itself back. A fault raises the count of faults, a lack of memory does not.
    pub fn counted(self, faults: &mut u64) -> ShelfFault
        ensures same { result ≡ self }
        ensures later { faults.old ≤ faults.new }
        ensures rose { self ≡ ShelfFault.Fault → Rose faults.old faults.new }
    {
        if self == ShelfFault::Fault {
            *faults = faults.saturating_add(1);
        }
        self
    }
}

/// Files by name. One at a time is read, and one is written. A call never changes the count of
/// faults of the other kind.
pub trait Shelf {
    /// The bytes under each name, where the shelf tells them.
    ghost told: { Self → Option Contents };

    /// Whether a read is started.
    ghost reading: { Self → Bool };

    /// What is left to read, where that is told.
    ghost left: { Self → Option (List ℕ) };

    /// The name that is being written.
    ghost writing: { Self → Option (List ℕ) };

    /// How often starting to read and reading have failed.
    ghost read_faults: { Self → ℕ };

    /// How often starting to write and appending have failed.
    ghost write_faults: { Self → ℕ };

    /// Starts to read a name, from its front. `Missing` where there is no such file, `Fault` where
    /// it could not be opened: then the count of reading faults rose. After a refusal no read is
    /// started.
    fn start_read(&mut self, name: &str) -> Result<(), ReadStart>
        ensures ok { OnOk result ((reading self.new ≡ true) × StartsAt (told self.old) name.now (left self.new)) }
        ensures err { OnErr result (reading self.new ≡ false) }
        ensures missing { IsErrOf result ReadStart.Missing → Lacks (told self.old) name.now (read_faults self.old) (read_faults self.new) }
        ensures cause { StartCause (read_faults self.old) (read_faults self.new) result }
        ensures told { told self.new ≡ told self.old }
        ensures writing { writing self.new ≡ writing self.old }
        ensures write_faults { write_faults self.new ≡ write_faults self.old };

    /// Reads some bytes to the front of the buffer, none only at the end, and says how many. After a
    /// refusal all that was left still is.
    fn read(&mut self, buf: &mut [u8]) -> Result<usize, ShelfFault>
        requires started { reading self.old ≡ true }
        requires room { 0 < length buf.old }
        ensures within { IfOk result (λ n. n ≤ length buf.new) }
        ensures taken { IfOk result (λ n. Takes (left self.old) (left self.new) n buf.new) }
        ensures err { OnErr result (left self.new ≡ left self.old) }
        ensures reading { reading self.new ≡ true }
        ensures cause { FaultCause (read_faults self.old) (read_faults self.new) result }
        ensures told { told self.new ≡ told self.old }
        ensures writing { writing self.new ≡ writing self.old }
        ensures write_faults { write_faults self.new ≡ write_faults self.old };

    /// Starts to write a name, which holds nothing from then on. After a refusal no write is started,
    /// and the name is as before or holds nothing.
    fn start_write(&mut self, name: &str) -> Result<(), ShelfFault>
        ensures ok { OnOk result ((writing self.new ≡ Some name.now) × Steps (λ m. insert m name.now []) (told self.old) (told self.new)) }
        ensures err { OnErr result ((writing self.new ≡ None) × MayBeEmptied name.now (told self.old) (told self.new)) }
        ensures cause { FaultCause (write_faults self.old) (write_faults self.new) result }
        ensures reading { reading self.new ≡ reading self.old }
        ensures left { left self.new ≡ left self.old }
        ensures read_faults { read_faults self.new ≡ read_faults self.old };

    /// Adds bytes at the end of the name that is being written. After a refusal a front part of them
    /// may have been added.
    fn append(&mut self, bytes: &[u8]) -> Result<(), ShelfFault>
        requires started { IsSome (writing self.old) }
        ensures ok { OnOk result ((writing self.new ≡ writing self.old) × Adds (writing self.old) bytes.now (told self.old) (told self.new)) }
        ensures err { OnErr result (KeepsPrefix (writing self.old) bytes.now (told self.old) (told self.new)) }
        ensures cause { FaultCause (write_faults self.old) (write_faults self.new) result }
        ensures reading { reading self.new ≡ reading self.old }
        ensures left { left self.new ≡ left self.old }
        ensures read_faults { read_faults self.new ≡ read_faults self.old };
}

/// Where lines are put.
pub trait Sink {
    /// All bytes that were put, where the sink tells them.
    ghost shown: { Self → Option (List ℕ) };

    /// How often a put has failed.
    ghost faults: { Self → ℕ };

    /// Puts bytes at the end. After a refusal a front part of them may have been put.
    fn put(&mut self, bytes: &[u8]) -> Result<(), ShelfFault>
        ensures ok { OnOk result (Puts bytes.now (shown self.old) (shown self.new)) }
        ensures err { OnErr result (PutsPrefix bytes.now (shown self.old) (shown self.new)) }
        ensures cause { FaultCause (faults self.old) (faults self.new) result };
}
