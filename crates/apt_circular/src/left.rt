//! The bytes of a tape with arcs, piece by piece.

ghost use Rattle.std.specs.Prelude.{◌≡◌, None, Ok};
ghost use Rattle.apt_circular.specs.ArcBlocks.{arc_run};
ghost use Rattle.apt_circular.specs.ArcPlan as plans;
ghost use Rattle.apt_circular.specs.ArcTape as tapes;
ghost use Rattle.apt_circular.specs.Fits.{IsFitting};
ghost use Rattle.apt_circular.specs.Writable.{ArcsCan};

use crate::{ArcPlan, ArcPoster};
use apt_machine::Machine;
use apt_post::{Blockwise, Piece};
use apt_records::Record;
use std::marker::Model;

/// The tape of records on a machine that cuts arcs, whose bytes are taken from the first. Clauses see those that
/// are left.
#[derive(Drop)]
pub struct ArcBytes<'a> {
    plan: ArcPlan<'a>,
    poster: ArcPoster,
    begun: bool,
}

impl<'a> Model for ArcBytes<'a> {
    ghost use Rattle.std.specs.Prelude.{ℕ, List, [], ◌++◌, if◌then◌else◌};
    ghost use Rattle.apt_circular.specs.ArcTape.{CanActs, arc_tape};
    ghost use Rattle.apt_circular.specs.ArcPosting.{posted};

    ghost Value = { List ℕ };

    ghost view = { λ t. (if t.begun then [] else arc_tape t.poster.machine []) ++ posted t.poster t.plan };

    ghost invariant = { λ t. CanActs t.poster.machine.incremental t.poster.held t.plan };
}

impl<'a> ArcBytes<'a> {
    /// The bytes of the tape of the acts that records ask for. A control that cuts arcs runs them to just these acts.
    #[tactic(auto, using(crate::proofs::BlockByBlock::all_left, crate::proofs::BlockByBlock::plan_acts, crate::proofs::BlockByBlock::plan_runs))]
    pub fn of(records: &'a [Record], m: &Machine) -> ArcBytes<'a>
        requires fits { IsFitting (plans.plan_arcs records.now) }
        requires goes { ArcsCan None (plans.plan_arcs records.now) }
        ensures bytes { result ≡ tapes.arc_tape m.now (plans.plan_arcs records.now) }
        ensures run { arc_run m.now.code result ≡ Ok (plans.plan_arcs records.now) }
    {
        ArcBytes {
            plan: ArcPlan::of(records),
            poster: ArcPoster::new(m),
            begun: false,
        }
    }
}

impl<'a> Blockwise for ArcBytes<'a> {
    ghost left = { λ t. t };

    #[inline(always)]
    #[tactic(auto, using(crate::proofs::BlockByBlock::some_bytes))]
    fn push_next(&mut self, piece: &mut Piece) -> bool {
        if self.begun {
            let Some(act) = self.plan.next() else {
                return false;
            };
            self.poster.push_bytes(piece, &act);
        } else {
            self.begun = true;
            self.poster.push_start(piece);
        }
        true
    }
}
