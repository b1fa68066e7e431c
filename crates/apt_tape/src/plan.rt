//! The acts that records ask for on a machine.

ghost use Rattle.std.specs.Prelude.{◌≡◌, ◌∷◌, ◌+◌, ◌<◌, ◌^◌, [], List, None, length, IfSome};
ghost use Rattle.apt_records.specs.Ranges.{vertex_count};
ghost use Rattle.apt_post.specs.Plan.{segments};
ghost use Rattle.apt_circular.specs.Plans.{left_of};
ghost use Rattle.apt_circular.specs.declared.ArcAct.{ArcAct};
ghost use Rattle.apt_tape.specs.Tapes.{acts_on};

use crate::TapeAct;
use apt_circular::{ArcAct, ArcPlan, TapePlan, arc_counts};
use apt_control::Act;
use apt_machine::Machine;
use apt_post::{Counts, Plan, counts};
use apt_records::Record;

/// A plan, whose acts are taken one after the other.
pub(crate) trait Planned: Drop {
    type Act: TapeAct;

    /// The acts that are left.
    ghost left: { Self → List ArcAct };

    /// The first of them, none at the end.
    fn take_first(&mut self) -> Option<Self::Act>
        ensures taken { IfSome result (λ act. left self.old ≡ Self.Act.arc act ∷ left self.new) }
        ensures end { result ≡ None → left self.old ≡ [] }
        ensures stays { result ≡ None → left self.new ≡ [] };
}

impl<'a> Planned for Plan<'a> {
    type Act = Act;

    ghost use Rattle.apt_circular.specs.Plans.{plainly};

    ghost left = { λ plan. plainly plan };

    #[inline(always)]
    fn take_first(&mut self) -> Option<Act> {
        self.next()
    }
}

impl<'a> Planned for ArcPlan<'a> {
    type Act = ArcAct;

    ghost left = { λ plan. plan };

    #[inline(always)]
    fn take_first(&mut self) -> Option<ArcAct> {
        self.next()
    }
}

/// The plan of the acts that records ask for on a machine.
#[tactic(auto, using(crate::proofs::Plainly::planned_said))]
pub(crate) fn plan_of<'a>(records: &'a [Record], m: &Machine) -> TapePlan<'a>
    ensures { left_of result ≡ acts_on m.now records.now }
{
    TapePlan::of(records, m)
}

/// How many acts records ask for on a machine, and how many contour segments they have.
#[tactic(auto, using(crate::proofs::Plainly::plain_count, crate::proofs::Plainly::arc_count))]
pub fn counts_on(records: &[Record], m: &Machine) -> Counts
    requires few { vertex_count records.now + length records.now < 2 ^ 62 }
    ensures acts { result.acts ≡ length (acts_on m.now records.now) }
    ensures segments { result.segments ≡ segments records.now }
{
    if m.circles {
        arc_counts(records)
    } else {
        counts(records)
    }
}
