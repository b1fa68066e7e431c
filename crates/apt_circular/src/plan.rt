//! The acts that records ask for on a machine with circles or without.

ghost use Rattle.std.specs.Prelude.{◌≡◌, ◌∷◌, [], None, IfSome};
ghost use Rattle.apt_circular.specs.Plans.{left_of, plan_on};

use crate::{ArcAct, ArcPlan};
use apt_machine::Machine;
use apt_post::Plan;
use apt_records::Record;

/// The acts that records ask for on a machine, one after the other.
#[derive(Drop)]
pub enum TapePlan<'a> {
    Plain(Plan<'a>),
    Arcs(ArcPlan<'a>),
}

impl<'a> TapePlan<'a> {
    /// All acts that records ask for.
    pub fn of(records: &'a [Record], m: &Machine) -> TapePlan<'a>
        ensures { left_of result ≡ plan_on m.now.circles records.now }
    {
        if m.circles {
            TapePlan::Arcs(ArcPlan::of(records))
        } else {
            TapePlan::Plain(Plan::of(records))
        }
    }

    /// The next act, none at the end.
    #[inline(always)]
    pub fn next(&mut self) -> Option<ArcAct>
        ensures taken { IfSome result (λ act. left_of self.old ≡ act ∷ left_of self.new) }
        ensures end { result ≡ None → left_of self.old ≡ [] }
        ensures stays { result ≡ None → left_of self.new ≡ [] }
    {
        match self {
            TapePlan::Plain(plan) => match plan.next() {
                Some(act) => Some(ArcAct::Plain(act)),
                None => None,
            },
            TapePlan::Arcs(plan) => plan.next(),
        }
    }
}
