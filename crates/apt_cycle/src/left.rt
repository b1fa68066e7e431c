//! The bytes of a tape with holes, piece by piece.

ghost use Rattle.std.specs.Prelude.{◌≡◌, ◌<◌, ◌++◌, [], true, false, None, Ok, length};
ghost use Rattle.arrayvec.specs.ArrayVec.{array_vec_len};
ghost use Rattle.apt_circular.specs.ArcTape.{CanActs};
ghost use Rattle.apt_circular.specs.Fits.{IsFitting};
ghost use Rattle.apt_circular.specs.Plans.{plan_on};
ghost use Rattle.apt_circular.specs.Writable.{ArcsCan};
ghost use Rattle.apt_cycle.specs.CycleBlocks.{cycle_run};
ghost use Rattle.apt_cycle.specs.CycleTape as tapes;
ghost use Rattle.apt_cycle.specs.Windows.{acts_left};

use crate::CyclePoster;
use crate::window::Window;
use apt_circular::TapePlan;
use apt_machine::Machine;
use apt_post::{Blockwise, Piece};
use apt_records::Record;
use std::marker::Model;

/// The tape of records on a machine with drill cycles, whose bytes are taken from the first. Clauses see those that
/// are left.
#[derive(Drop)]
pub struct CycleBytes<'a> {
    window: Window<'a>,
    poster: CyclePoster,
    begun: bool,
}

impl<'a> Model for CycleBytes<'a> {
    ghost use Rattle.std.specs.Prelude.{ℕ, List, [], ◌++◌, if◌then◌else◌};
    ghost use Rattle.apt_circular.specs.ArcTape.{CanActs};
    ghost use Rattle.apt_cycle.specs.CycleTape.{cycle_tape, posted};
    ghost use Rattle.apt_cycle.specs.Windows.{acts_left};

    ghost Value = { List ℕ };

    ghost view = { λ t. (if t.begun then [] else cycle_tape t.poster.machine []) ++ posted t.poster (acts_left t.window) };

    ghost invariant = { λ t. CanActs t.poster.machine.incremental t.poster.held (acts_left t.window) };
}

impl<'a> CycleBytes<'a> {
    /// The bytes of the tape of the acts that records ask for on the machine, with circles or without. A control with
    /// cycles runs them to just these acts.
    #[tactic(auto, using(crate::proofs::BlockByBlock::all_left, apt_circular::proofs::BlockByBlock::plan_acts, crate::proofs::Planned::planned_runs))]
    pub fn of(records: &'a [Record], m: &Machine) -> CycleBytes<'a>
        requires fits { IsFitting (plan_on m.now.circles records.now) }
        requires goes { ArcsCan None (plan_on m.now.circles records.now) }
        ensures bytes { result ≡ tapes.cycle_tape m.now (plan_on m.now.circles records.now) }
        ensures run { cycle_run m.now.circles m.now.code result ≡ Ok (plan_on m.now.circles records.now) }
    {
        CycleBytes {
            window: Window::of(TapePlan::of(records, m)),
            poster: CyclePoster::new(m),
            begun: false,
        }
    }
}

impl<'a> Blockwise for CycleBytes<'a> {
    ghost left = { λ t. t };

    fn push_next(&mut self, piece: &mut Piece) -> bool {
        if self.begun {
            push_block(&mut self.window, &mut self.poster, piece)
        } else {
            self.begun = true;
            self.poster.push_start(piece);
            true
        }
    }
}

/// Appends the bytes of the next block of the acts that are left, and says whether any were.
#[tactic(auto, using(crate::proofs::BlockByBlock::some_bytes, crate::proofs::BlockByBlock::none_posted))]
fn push_block(window: &mut Window<'_>, poster: &mut CyclePoster, piece: &mut Piece) -> bool
    requires room { array_vec_len piece.old < 1024 }
    requires can { CanActs poster.old.machine.incremental poster.old.held (acts_left window.old) }
    ensures taken { piece.old.items ++ tapes.posted poster.old (acts_left window.old) ≡ piece.new.items ++ tapes.posted poster.new (acts_left window.new) }
    ensures more { result ≡ true → array_vec_len piece.old < array_vec_len piece.new }
    ensures end { result ≡ false → tapes.posted poster.new (acts_left window.new) ≡ [] }
    ensures can { CanActs poster.new.machine.incremental poster.new.held (acts_left window.new) }
{
    window.fill();
    if window.front.is_empty() {
        return false;
    }
    let count = poster.push_next(piece, window.front.as_slice());
    window.pass(count);
    true
}
