//! The reader of a tape on a machine.

ghost use Rattle.std.specs.Prelude.{◌≡◌, ◌++◌, ◌+◌, ◌<◌, ◌^◌, true, false, List, ℕ, [], length, IfOk};
ghost use Rattle.apt_circular.specs.declared.ArcAct.{ArcAct};
ghost use Rattle.apt_control.specs.Pieces.{RefusesAs};
ghost use Rattle.apt_tape.specs.Tapes.{OfMoves, WithArcs, WithHoles, kind_on, run_in};
ghost use Rattle.apt_tape.specs.Runs.{kind_of, code_of, bytes_read, acts_in, Stands, IsTaken};

use crate::Taker;
use apt_circular::{ArcHeld, ArcReader};
use apt_control::{ControlError, Held, TapeReader};
use apt_cycle::{CycleHeld, CycleReader};
use apt_machine::Machine;
use std::alloc::{AllocError, Global};

/// A tape of a machine whose bytes come in pieces.
#[derive(Drop)]
pub enum Reader {
    Plain(TapeReader),
    Arcs(ArcReader),
    Holes { circles: bool, reader: CycleReader },
}

impl Reader {
    /// A reader of no bytes. It keeps the allocator, and takes no memory.
    pub fn new(alloc: Global, m: &Machine) -> Reader
        ensures kind { kind_of result ≡ kind_on m.now }
        ensures code { code_of result ≡ m.now.code }
        ensures count { bytes_read result ≡ 0 }
        ensures stands { Stands [] result [] }
    {
        if m.cycles {
            Reader::Holes {
                circles: m.circles,
                reader: CycleReader::new(alloc, m.code, CycleHeld::new(m.circles)),
            }
        } else if m.circles {
            Reader::Arcs(ArcReader::new(alloc, m.code, ArcHeld::new()))
        } else {
            Reader::Plain(TapeReader::new(alloc, m.code, Held::new()))
        }
    }

    /// Takes a piece more. It refuses where the bytes so far hold a fault that no bytes behind them could mend, and the
    /// refusal is that of the whole tape.
    #[tactic(auto, using(crate::proofs::Plainly::refuses_plain))]
    pub fn feed(self, piece: &[u8]) -> Result<Reader, ControlError>
        requires { bytes_read self + length piece.now < 2 ^ 64 }
        ensures kind { IfOk result (λ r. kind_of r ≡ kind_of self) }
        ensures code { IfOk result (λ r. code_of r ≡ code_of self) }
        ensures count { IfOk result (λ r. bytes_read r ≡ bytes_read self + length piece.now) }
        ensures behind { (acts : List ArcAct) (front : List ℕ) → Stands acts self front → IfOk result (λ r. Stands acts r (front ++ piece.now)) }
        ensures whole { (acts : List ArcAct) (front more : List ℕ) → Stands acts self front → RefusesAs result (run_in (kind_of self) (code_of self) (front ++ piece.now ++ more)) }
    {
        match self {
            Reader::Plain(reader) => Ok(Reader::Plain(reader.feed(piece)?)),
            Reader::Arcs(reader) => Ok(Reader::Arcs(reader.feed(piece)?)),
            Reader::Holes { circles, reader } => {
                let reader = reader.feed(piece)?;
                Ok(Reader::Holes { circles, reader })
            }
        }
    }

    /// Hands the acts so far, but for those that were dropped, to a taker.
    pub fn hand_to<T: Taker>(&self, taken: T) -> Result<T, AllocError>
        ensures { (none : T) (before : List ArcAct) → T.has none taken before → IfOk result (λ now. T.has none now (before ++ acts_in self.now)) }
    {
        match self {
            Reader::Plain(reader) => taken.with(reader.acts()),
            Reader::Arcs(reader) => taken.with(reader.acts()),
            Reader::Holes { reader, .. } => taken.with(reader.acts()),
        }
    }

    /// Drops the acts so far, and goes on without them.
    pub fn drop_acts(&mut self)
        ensures kind { kind_of self.new ≡ kind_of self.old }
        ensures code { code_of self.new ≡ code_of self.old }
        ensures count { bytes_read self.new ≡ bytes_read self.old }
        ensures behind { (acts : List ArcAct) (front : List ℕ) → Stands acts self.old front → Stands (acts ++ acts_in self.old) self.new front }
    {
        match self {
            Reader::Plain(reader) => reader.drop_acts(),
            Reader::Arcs(reader) => reader.drop_acts(),
            Reader::Holes { reader, .. } => reader.drop_acts(),
        }
    }

    /// Hands the last acts of a tape that has come to its end to a taker of those before: a tape that has not started,
    /// or not ended, is refused.
    pub fn finish_into<T: Taker>(self, taken: T) -> Result<T, ControlError>
        ensures { (none : T) (before : List ArcAct) (tape : List ℕ) → T.has none taken before → Stands before self tape → IsTaken (T.has none) (run_in (kind_of self) (code_of self) tape) result }
    {
        match self {
            Reader::Plain(reader) => rest_of_plain(reader, taken),
            Reader::Arcs(reader) => rest_of_arcs(reader, taken),
            Reader::Holes { circles, reader } => rest_of_holes(circles, reader, taken),
        }
    }
}

fn rest_of_plain<T: Taker>(reader: TapeReader, taken: T) -> Result<T, ControlError>
    ensures { (none : T) (before : List ArcAct) (tape : List ℕ) → T.has none taken before → Stands before (Reader.Plain reader) tape → IsTaken (T.has none) (run_in OfMoves reader.code tape) result }
{
    let rest = reader.finish()?;
    let taken = taken.with(&rest)?;
    Ok(taken)
}

fn rest_of_arcs<T: Taker>(reader: ArcReader, taken: T) -> Result<T, ControlError>
    ensures { (none : T) (before : List ArcAct) (tape : List ℕ) → T.has none taken before → Stands before (Reader.Arcs reader) tape → IsTaken (T.has none) (run_in WithArcs reader.code tape) result }
{
    let rest = reader.finish()?;
    let taken = taken.with(&rest)?;
    Ok(taken)
}

fn rest_of_holes<T: Taker>(circles: bool, reader: CycleReader, taken: T) -> Result<T, ControlError>
    ensures { (none : T) (before : List ArcAct) (tape : List ℕ) → T.has none taken before → Stands before (Reader.Holes circles reader) tape → IsTaken (T.has none) (run_in (WithHoles circles) reader.code tape) result }
{
    let rest = reader.finish()?;
    let taken = taken.with(&rest)?;
    Ok(taken)
}
