//! The plain steps of steps.

ghost use Rattle.std.specs.Prelude.{◌≡◌, ◌≤◌, ◌+◌, ◌++◌, ◌∷◌, [], None, false, length, unsigned_abs, IfOk, OnOk};
ghost use Rattle.apt_words.specs.Contours.{contours};
ghost use Rattle.apt_words.specs.ProgramEnds.{StepsEnd};
ghost use Rattle.apt_words.specs.Sources.{AreExecuted};
ghost use Rattle.apt_scalar.specs.StepScalars.{HasScalars, HasDrillScalars, AreScalars, AreDrillScalars};
ghost use Rattle.apt_meaning.specs.Compiled.{first_refused};
ghost use Rattle.apt_meaning.specs.Situations.{first_situation};
ghost use Rattle.apt_pattern.specs.Expansions as spec;
ghost use Rattle.apt_pattern.specs.Patterns as patterns;
ghost use Rattle.apt_pattern.specs.Ranges.{IsPattern, IsCycleOrNone, IsCycle};
ghost use Rattle.apt_pattern.specs.Taking.{IsTaken, IsVisited, points_in};

use crate::cycle::{Cycle, above, bottom, goto};
use crate::drilling::{Decision, Driller, Visited};
use crate::pattern::{Pattern, point_at};
use apt_records::Position;
use apt_unroll::Unrolled;
use apt_words::{Deed, Refusal, Step, Units};
use std::alloc::{AllocError, Global};
use std::collections::VecDeque;

/// What was done of a step.
pub(crate) enum Taken {
    On,
    Refused(Refusal),
    Stopped,
}

/// The plain steps of executed statements, up to the first that a case of patterns and cycles refuses, and that refusal;
/// else the fault behind the last. A definition that its own case refuses stays and is the last, and no fault is told.
/// An error is want of memory.
pub fn expand(alloc: Global, u: Unrolled) -> Result<Unrolled, AllocError>
    requires scalars { AreScalars u.steps }
    requires drills { AreDrillScalars u.steps }
    requires sources { AreExecuted u.steps }
    ensures value { IfOk result (λ r. r ≡ spec.expansion u.steps u.fault) }
    ensures whole { IfOk result (λ r. r.fault ≡ None → first_refused first_situation r.steps ≡ None → spec.AreReplaced spec.nothing_drilled u r.steps) }
    ensures ends { IfOk result (λ r. r.fault ≡ None → first_refused first_situation r.steps ≡ None → StepsEnd false u.steps → StepsEnd false r.steps) }
    ensures scalars { IfOk result (λ r. AreScalars r.steps) }
    ensures sources { IfOk result (λ r. AreExecuted r.steps) }
    ensures few { IfOk result (λ r. length r.steps ≤ length u.steps + 25000) }
    ensures contours { IfOk result (λ r. contours r.steps ≤ contours u.steps) }
{
    expand_value(alloc, u)
}

fn expand_value(alloc: Global, u: Unrolled) -> Result<Unrolled, AllocError>
    requires scalars { AreScalars u.steps }
    requires drills { AreDrillScalars u.steps }
    ensures { IfOk result (λ r. r ≡ spec.expansion u.steps u.fault) }
{
    let Unrolled { steps, fault } = u;
    let mut driller = Driller::new(alloc);
    let mut plain = Vec::with_capacity(alloc, steps.len())?;
    let mut left = VecDeque::from_vec(steps);
    'steps: while let Some(st) = left.pop_front() {
        match take(&mut driller, st, &mut plain)? {
            Taken::On => {}
            Taken::Refused(refusal) => {
                let fault = Some(refusal);
                return Ok(Unrolled {
                    steps: plain,
                    fault,
                });
            }
            Taken::Stopped => {
                return Ok(Unrolled {
                    steps: plain,
                    fault: None,
                });
            }
        }
    }
    Ok(Unrolled {
        steps: plain,
        fault,
    })
}

/// Puts the plain steps of a step behind some steps.
fn take(d: &mut Driller, st: Step, steps: &mut Vec<Step>) -> Result<Taken, AllocError>
    requires scalars { HasScalars st.deed }
    requires drills { HasDrillScalars st.deed }
    ensures { IfOk result (λ taken. IsTaken st steps.old.items steps.new.items (spec.outcome d.old st.deed) taken d.new) }
{
    match d.decide(&st.deed)? {
        Decision::Stays => {
            steps.push(st)?;
            Ok(Taken::On)
        }
        Decision::Visits(visited) => {
            push_visits(d.units(), d.cycle(), &st, visited, steps)?;
            Ok(Taken::On)
        }
        Decision::Refused(case) => {
            let Step { line, step, .. } = st;
            Ok(Taken::Refused(Refusal { line, step, case }))
        }
        Decision::Stopped => {
            steps.push(st)?;
            Ok(Taken::Stopped)
        }
    }
}

fn push(st: &Step, deed: Deed, steps: &mut Vec<Step>) -> Result<(), AllocError>
    ensures { OnOk result (steps.new.items ≡ steps.old.items ++ spec.in_place st.now deed ∷ []) }
{
    let Step { line, step, .. } = *st;
    steps.push(Step { line, step, deed })?;
    Ok(())
}

fn push_visits(
    units: Units,
    cycle: Option<Cycle>,
    st: &Step,
    visited: Visited,
    steps: &mut Vec<Step>,
) -> Result<(), AllocError>
    requires visited { IsVisited visited }
    requires cycle { IsCycleOrNone cycle }
    ensures { OnOk result (steps.new.items ≡ steps.old.items ++ spec.plain_steps st.now (patterns.visits units cycle (points_in visited))) }
{
    match visited {
        Visited::Nothing => Ok(()),
        Visited::One(p) => push_visit(units, cycle, st, p, steps),
        Visited::All(pattern) => push_all(units, cycle, st, &pattern, steps),
    }
}

fn push_all(
    units: Units,
    cycle: Option<Cycle>,
    st: &Step,
    pattern: &Pattern,
    steps: &mut Vec<Step>,
) -> Result<(), AllocError>
    requires pattern { IsPattern pattern.now }
    requires cycle { IsCycleOrNone cycle }
    ensures { OnOk result (steps.new.items ≡ steps.old.items ++ spec.plain_steps st.now (patterns.visits units cycle (patterns.points_of pattern.now))) }
{
    let mut k = 0;
    'points: while k < pattern.count {
        push_visit(units, cycle, st, point_at(pattern, k), steps)?;
        k += 1;
    }
    Ok(())
}

/// A visit to a point, which is the place of a statement or a point between two of them.
fn push_visit(
    units: Units,
    cycle: Option<Cycle>,
    st: &Step,
    p: Position,
    steps: &mut Vec<Step>,
) -> Result<(), AllocError>
    requires x { unsigned_abs p.xy.x ≤ 150000000 }
    requires y { unsigned_abs p.xy.y ≤ 150000000 }
    requires z { unsigned_abs p.z ≤ 150000000 }
    requires cycle { IsCycleOrNone cycle }
    ensures { OnOk result (steps.new.items ≡ steps.old.items ++ spec.plain_steps st.now (patterns.visit units cycle p)) }
{
    match cycle {
        None => push(st, goto(units, p), steps),
        Some(cycle) => push_hole(units, cycle, st, p, steps),
    }
}

fn push_hole(
    units: Units,
    cycle: Cycle,
    st: &Step,
    p: Position,
    steps: &mut Vec<Step>,
) -> Result<(), AllocError>
    requires x { unsigned_abs p.xy.x ≤ 150000000 }
    requires y { unsigned_abs p.xy.y ≤ 150000000 }
    requires z { unsigned_abs p.z ≤ 150000000 }
    requires cycle { IsCycle cycle }
    ensures { OnOk result (steps.new.items ≡ steps.old.items ++ spec.plain_steps st.now (patterns.hole units cycle p)) }
{
    let above = above(cycle, p);
    push(st, Deed::Rapid, steps)?;
    push(st, goto(units, above), steps)?;
    push(st, goto(units, bottom(cycle, p)), steps)?;
    push(st, Deed::Rapid, steps)?;
    push(st, goto(units, above), steps)
}
