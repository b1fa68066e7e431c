//! The run of a tape on a machine, of whose acts something is taken while it is read.

ghost use Rattle.std.specs.Prelude.{◌≡◌, ◌++◌, ◌+◌, ◌<◌, ◌^◌, List, ℕ, [], length, map, Ok, IfOk};
ghost use Rattle.apt_tapecode.specs.declared.Code.{Code};
ghost use Rattle.apt_circular.specs.declared.ArcAct.{ArcAct};
ghost use Rattle.apt_tape.specs.Tapes.{Kind, kind_on, run_in};
ghost use Rattle.apt_tape.specs.Runs.{kind_of, code_of, bytes_read, HasRun, IsTaken};

use crate::{Reader, TapeAct};
use apt_control::ControlError;
use apt_machine::Machine;
use std::alloc::{AllocError, Global};

/// What takes the acts of a tape.
pub trait Taker: Drop {
    /// From what was there before the first act it was taken of these acts, in order.
    ghost has: { Self → Self → List ArcAct → Type 0 };

    /// Takes of acts that come behind those so far.
    fn with<A: TapeAct>(self, acts: &[A]) -> Result<Self, AllocError>
        ensures { (none : Self) (before : List ArcAct) → has none self before → IfOk result (λ taken. has none taken (before ++ map A.arc acts.now)) };
}

/// A tape so far, and what was taken of its acts.
#[derive(Drop)]
pub struct TapeRun<T: Drop> {
    pub reader: Reader,
    pub taken: T,
}

impl<T: Taker> TapeRun<T> {
    /// Nothing is read yet.
    pub fn new(alloc: Global, m: &Machine, none: T) -> TapeRun<T>
        requires { T.has none none [] }
        ensures taken { result.taken ≡ none }
        ensures kind { kind_of result.reader ≡ kind_on m.now }
        ensures code { code_of result.reader ≡ m.now.code }
        ensures count { bytes_read result.reader ≡ 0 }
        ensures run { HasRun (T.has none) (kind_on m.now) m.now.code [] (Ok result) }
    {
        TapeRun {
            reader: Reader::new(alloc, m),
            taken: none,
        }
    }

    /// Goes on with a piece, and takes of its acts.
    pub fn feed(self, piece: &[u8]) -> Result<TapeRun<T>, ControlError>
        requires { bytes_read self.reader + length piece.now < 2 ^ 63 }
        ensures run { (none : T) (kind : Kind) (code : Code) (front : List ℕ) → HasRun (T.has none) kind code front (Ok self) → HasRun (T.has none) kind code (front ++ piece.now) result }
        ensures count { IfOk result (λ run. bytes_read run.reader ≡ bytes_read self.reader + length piece.now) }
    {
        let TapeRun { reader, taken } = self;
        let mut reader = reader.feed(piece)?;
        let taken = reader.hand_to(taken)?;
        reader.drop_acts();
        Ok(TapeRun { reader, taken })
    }

    /// What was taken of a tape that has come to its end.
    pub fn finish(self) -> Result<T, ControlError>
        ensures { (none : T) (kind : Kind) (code : Code) (tape : List ℕ) → HasRun (T.has none) kind code tape (Ok self) → IsTaken (T.has none) (run_in kind code tape) result }
    {
        let TapeRun { reader, taken } = self;
        reader.finish_into(taken)
    }
}
