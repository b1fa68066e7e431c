//! The bytes of a tape on a machine, piece by piece.

ghost use Rattle.std.specs.Prelude.{◌≡◌, ◌<◌, ◌++◌, [], true, false, Ok, length};
ghost use Rattle.apt_tape.specs.Tapes.{IsWritable, acts_on, run_on, tape_on};

use apt_circular::ArcBytes;
use apt_cycle::CycleBytes;
use apt_machine::Machine;
use apt_post::{Piece, TapeBytes, take_piece};
use apt_records::Record;
use std::marker::Model;

/// The tape of records on a machine, whose bytes are taken piece by piece, from the first. Clauses see those that are
/// left.
#[derive(Drop)]
pub struct Tape<'a> {
    left: Left<'a>,
}

/// What is left of a tape of each kind.
#[derive(Drop)]
enum Left<'a> {
    Plain(TapeBytes<'a>),
    Arcs(ArcBytes<'a>),
    Holes(CycleBytes<'a>),
}

impl<'a> Model for Tape<'a> {
    ghost use Rattle.std.specs.Prelude.{ℕ, List};
    ghost use Rattle.apt_tape.specs.Bytes.{bytes_left};

    ghost Value = { List ℕ };

    ghost view = { λ t. bytes_left t.left };
}

impl<'a> Tape<'a> {
    /// The bytes of the tape of the acts that records ask for. A control of the machine runs them to just these acts.
    #[tactic(auto, using(crate::proofs::Plainly::plain_bytes, crate::proofs::Plainly::plain_runs, crate::proofs::Plainly::arc_bytes, crate::proofs::Plainly::arc_runs, crate::proofs::Plainly::hole_bytes, crate::proofs::Plainly::hole_runs, crate::proofs::Plainly::writable_fits, crate::proofs::Plainly::writable_goes))]
    pub fn of(records: &'a [Record], m: &Machine) -> Tape<'a>
        requires { IsWritable records.now }
        ensures bytes { result ≡ tape_on m.now (acts_on m.now records.now) }
        ensures run { run_on m.now result ≡ Ok (acts_on m.now records.now) }
    {
        if m.cycles {
            Tape {
                left: Left::Holes(CycleBytes::of(records, m)),
            }
        } else if m.circles {
            Tape {
                left: Left::Arcs(ArcBytes::of(records, m)),
            }
        } else {
            Tape {
                left: Left::Plain(TapeBytes::of(records, m)),
            }
        }
    }

    /// Takes the next bytes in the place of a piece before, whole blocks up to the one with which it has 1,024 bytes, and
    /// says whether any were left.
    pub fn take_piece(&mut self, piece: &mut Piece) -> bool
        ensures taken { self.old ≡ piece.new.items ++ self.new }
        ensures shorter { result ≡ true → length self.new < length self.old }
        ensures end { result ≡ false → self.old ≡ [] }
    {
        match &mut self.left {
            Left::Plain(tape) => take_piece(tape, piece),
            Left::Arcs(tape) => take_piece(tape, piece),
            Left::Holes(tape) => take_piece(tape, piece),
        }
    }
}
