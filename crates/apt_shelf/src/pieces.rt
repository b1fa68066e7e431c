//! Bytes that are written in pieces.
ghost use Rattle.std.specs.Prelude.{◌≡◌, ◌+◌, ◌≤◌, ◌++◌, [], length, IsSome, OnOk, OnErr, IsErrOf};
ghost use Rattle.std.specs.FinMap.{insert};
ghost use Rattle.apt_shelf.specs.Told.{Adds, Steps, Rose, KeepsPrefix, FaultCause};
ghost use Rattle.apt_shelf.specs.Files.{AddsAny, AddsFront, WritesPrefix};

use crate::files::PIECE;
use crate::shelf::{Shelf, ShelfFault};
use std::marker::Model;

/// Holds bytes back until they are a piece of 4,096, which is appended whole; it takes no memory. Clauses see the bytes
/// that are held. Behind a refusal it holds no part of a file.
#[derive(Drop)]
pub struct Pieces {
    buffer: [u8; PIECE],
    /// How many bytes at the front of the buffer are held.
    held: usize,
    ghost within: { held ≤ 4096 },
}

impl Model for Pieces {
    ghost use Rattle.std.specs.Prelude.{ℕ, List, take};

    ghost Value = { List ℕ };

    ghost view = { λ p. take p.held p.buffer };
}

impl Pieces {
    pub fn new() -> Pieces
        ensures { result ≡ [] }
    {
        Pieces {
            buffer: [0; PIECE],
            held: 0,
        }
    }

    /// Takes bytes more, and appends what is full. After a refusal a front part of what was held and of these may have
    /// been added.
    pub fn push<H: Shelf>(&mut self, shelf: &mut H, bytes: &[u8]) -> Result<(), ShelfFault>
        requires started { IsSome (H.writing shelf.old) }
        ensures ok { OnOk result ((H.writing shelf.new ≡ H.writing shelf.old) × AddsFront (H.writing shelf.old) (self.old ++ bytes.now) self.new (H.told shelf.old) (H.told shelf.new)) }
        ensures err { OnErr result (KeepsPrefix (H.writing shelf.old) (self.old ++ bytes.now) (H.told shelf.old) (H.told shelf.new)) }
        ensures cause { FaultCause (H.write_faults shelf.old) (H.write_faults shelf.new) result }
        ensures reading { H.reading shelf.new ≡ H.reading shelf.old }
        ensures left { H.left shelf.new ≡ H.left shelf.old }
        ensures read_faults { H.read_faults shelf.new ≡ H.read_faults shelf.old }
    {
        let mut rest = bytes;
        'pieces: while rest.len() > self.room() {
            let (front, after) = rest.split_at(self.room());
            self.hold(front);
            self.append(shelf)?;
            rest = after;
        }
        self.hold(rest);
        Ok(())
    }

    /// Appends what is held, the last piece of a file. After a refusal a front part of it may have been added.
    pub fn finish<H: Shelf>(self, shelf: &mut H) -> Result<(), ShelfFault>
        requires started { IsSome (H.writing shelf.old) }
        ensures ok { OnOk result ((H.writing shelf.new ≡ H.writing shelf.old) × AddsAny (H.writing shelf.old) self (H.told shelf.old) (H.told shelf.new)) }
        ensures err { OnErr result (KeepsPrefix (H.writing shelf.old) self (H.told shelf.old) (H.told shelf.new)) }
        ensures cause { FaultCause (H.write_faults shelf.old) (H.write_faults shelf.new) result }
        ensures reading { H.reading shelf.new ≡ H.reading shelf.old }
        ensures left { H.left shelf.new ≡ H.left shelf.old }
        ensures read_faults { H.read_faults shelf.new ≡ H.read_faults shelf.old }
    {
        if self.held > 0 {
            shelf.append(&self.buffer[..self.held])?;
        }
        Ok(())
    }

    /// Appends the bytes that are held, and holds none then.
    fn append<H: Shelf>(&mut self, shelf: &mut H) -> Result<(), ShelfFault>
        requires started { IsSome (H.writing shelf.old) }
        ensures ok { OnOk result ((H.writing shelf.new ≡ H.writing shelf.old) × Adds (H.writing shelf.old) self.old (H.told shelf.old) (H.told shelf.new)) }
        ensures none { OnOk result (self.new ≡ []) }
        ensures err { OnErr result (KeepsPrefix (H.writing shelf.old) self.old (H.told shelf.old) (H.told shelf.new)) }
        ensures cause { FaultCause (H.write_faults shelf.old) (H.write_faults shelf.new) result }
        ensures reading { H.reading shelf.new ≡ H.reading shelf.old }
        ensures left { H.left shelf.new ≡ H.left shelf.old }
        ensures read_faults { H.read_faults shelf.new ≡ H.read_faults shelf.old }
    {
        shelf.append(&self.buffer[..self.held])?;
        self.held = 0;
        Ok(())
    }

    /// How many bytes more a piece would have.
    fn room(&self) -> usize
        ensures { result + length self.now ≡ 4096 }
    {
        PIECE - self.held
    }

    /// Takes bytes for which there is room.
    fn hold(&mut self, bytes: &[u8])
        requires { length self.old + length bytes.now ≤ 4096 }
        ensures { self.new ≡ self.old ++ bytes.now }
    {
        let end = self.held + bytes.len();
        self.buffer[self.held..end].copy_from_slice(bytes);
        self.held = end;
    }
}

/// Writes a whole file, piece by piece. After a refusal the name is as before, or holds a front part
/// of the bytes.
pub fn write_all<H: Shelf>(shelf: &mut H, name: &str, bytes: &[u8]) -> Result<(), ShelfFault>
    ensures ok { OnOk result (Steps (λ m. insert m name.now bytes.now) (H.told shelf.old) (H.told shelf.new)) }
    ensures err { OnErr result (WritesPrefix name.now bytes.now (H.told shelf.old) (H.told shelf.new)) }
    ensures fault { IsErrOf result ShelfFault.Fault → Rose (H.write_faults shelf.old) (H.write_faults shelf.new) }
    ensures later { H.write_faults shelf.old ≤ H.write_faults shelf.new }
    ensures reading { H.reading shelf.new ≡ H.reading shelf.old }
    ensures left { H.left shelf.new ≡ H.left shelf.old }
    ensures read_faults { H.read_faults shelf.new ≡ H.read_faults shelf.old }
{
    shelf.start_write(name)?;
    let mut pieces = Pieces::new();
    pieces.push(shelf, bytes)?;
    pieces.finish(shelf)?;
    Ok(())
}
