//! The acts of a tape beside the plan of a machine, while the tape is read.

ghost use Rattle.std.specs.Prelude.{◌≡◌, ◌+◌, ◌<◌, ◌≤◌, ◌^◌, ◌++◌, map, false, IsTrue, List, [], ◌∷◌, length, None};
ghost use Rattle.apt_records.specs.Ranges.{vertex_count};
ghost use Rattle.apt_circular.specs.declared.ArcAct.{ArcAct};
ghost use Rattle.apt_circular.specs.Plans.{left_of};
ghost use Rattle.apt_tape.specs.Differences.{AreBeside, HeadsDiffer};

use crate::act::is_same_act;
use crate::plan::{Planned, plan_of};
use crate::{Taker, TapeAct};
use apt_circular::TapePlan;
use apt_machine::Machine;
use apt_records::Record;
use std::alloc::AllocError;

/// The acts so far beside the plan of records: what is left of the plan behind them, and the number of the next act, from
/// 1, where all are as planned; else the number of the first that is not.
#[derive(Drop)]
pub struct Comparison<'a> {
    pub records: &'a [Record],
    pub machine: &'a Machine,
    left: TapePlan<'a>,
    next: u64,
    first: Option<u64>,
    ghost few: { next + length (left_of left) ≤ 2 ^ 63 },
}

impl<'a> Comparison<'a> {
    ghost use Rattle.apt_tape.specs.Comparisons.{AreCompared};
    ghost use Rattle.apt_tape.specs.Differences.{IsDifference};
    ghost use Rattle.apt_tape.specs.declared.comparison.Comparison.{Comparison};
    ghost use Rattle.apt_tape.specs.Tapes.{acts_on};

    /// No acts beside the plan of some records on a machine.
    #[tactic(auto, using(crate::proofs::Comparing::plan_fits))]
    pub fn with_plan(records: &'a [Record], machine: &'a Machine) -> Comparison<'a>
        requires { vertex_count records.now + length records.now < 2 ^ 62 }
        ensures records { result.records.now ≡ records.now }
        ensures machine { result.machine.now ≡ machine.now }
        ensures begun { AreCompared result result [] }
    {
        Comparison {
            records,
            machine,
            left: plan_of(records, machine),
            next: 1,
            first: None,
        }
    }

    /// Goes on with acts behind those so far, which are all as planned.
    fn onwards<A: TapeAct>(self, acts: &[A]) -> Comparison<'a>
        requires { self.first ≡ None }
        ensures records { result.records.now ≡ self.entry.records.now }
        ensures machine { result.machine.now ≡ self.entry.machine.now }
        ensures beside { (planned before : List ArcAct) → planned ≡ before ++ left_of self.entry.left → self.entry.next ≡ length before + 1 → AreBeside planned (left_of result.left) result.first (before ++ map A.arc acts.now) }
        ensures next { result.first ≡ None → result.next ≡ self.entry.next + length acts.now }
    {
        let Comparison {
            records,
            machine,
            left,
            next,
            ..
        } = self;
        match left {
            TapePlan::Plain(plan) => {
                let Along { left, next, first } = go_along(plan, acts, next);
                Comparison {
                    records,
                    machine,
                    left: TapePlan::Plain(left),
                    next,
                    first,
                }
            }
            TapePlan::Arcs(plan) => {
                let Along { left, next, first } = go_along(plan, acts, next);
                Comparison {
                    records,
                    machine,
                    left: TapePlan::Arcs(left),
                    next,
                    first,
                }
            }
        }
    }

    /// The first place, from 1, at which all acts and the plan differ.
    pub fn difference(self) -> Option<u64>
        ensures { (begun : Comparison) (acts : List ArcAct) → AreCompared begun self.entry acts → IsDifference (acts_on begun.machine.now begun.records.now) result acts }
    {
        let Comparison {
            mut left,
            next,
            first,
            ..
        } = self;
        if first.is_some() {
            return first;
        }
        if left.next().is_some() {
            Some(next)
        } else {
            None
        }
    }
}

impl<'a> Taker for Comparison<'a> {
    ghost use Rattle.apt_tape.specs.Comparisons.{AreCompared};

    ghost has = { AreCompared };

    #[tactic(auto, using(crate::proofs::Comparing::compared_still, crate::proofs::Comparing::compared_on))]
    fn with<A: TapeAct>(self, acts: &[A]) -> Result<Comparison<'a>, AllocError> {
        match self.first {
            Some(_) => Ok(self),
            None => Ok(self.onwards(acts)),
        }
    }
}

/// What is left of a plan behind acts, the number of the next act, from 1, and that of the first that is not as planned.
#[derive(Drop)]
struct Along<P: Drop> {
    left: P,
    next: u64,
    first: Option<u64>,
}

/// Goes along a plan with acts, up to the first that is not as planned.
fn go_along<P: Planned, A: TapeAct>(plan: P, acts: &[A], from: u64) -> Along<P>
    requires few { from + length (P.left plan) ≤ 2 ^ 63 }
    ensures beside { (planned before : List ArcAct) → planned ≡ before ++ P.left plan → from ≡ length before + 1 → AreBeside planned (P.left result.left) result.first (before ++ map A.arc acts.now) }
    ensures next { result.first ≡ None → result.next ≡ from + length acts.now }
    ensures few { result.next + length (P.left result.left) ≤ 2 ^ 63 }
{
    let mut left = plan;
    let mut next = from;
    'acts: for act in acts {
        if !begins_with(&mut left, act) {
            return Along {
                left,
                next,
                first: Some(next),
            };
        }
        next += 1;
    }
    Along {
        left,
        next,
        first: None,
    }
}

/// Whether an act is the first of those that are left, which is taken.
#[inline(always)]
fn begins_with<P: Planned, A: TapeAct>(plan: &mut P, act: &A) -> bool
    ensures same { IsTrue result → P.left plan.old ≡ A.arc act.now ∷ P.left plan.new }
    ensures differ { result ≡ false → (xs : List ArcAct) → HeadsDiffer (A.arc act.now ∷ xs) (P.left plan.old) }
    ensures fewer { length (P.left plan.new) ≤ length (P.left plan.old) }
{
    match plan.take_first() {
        Some(planned) => is_same_act(act, &planned),
        None => false,
    }
}
