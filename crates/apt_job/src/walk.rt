//! The walk over steps and records.

ghost use Rattle.std.specs.Prelude.{true, ◌≡◌, ◌+◌, ◌<◌, ◌≤◌, ◌^◌, ◌++◌, ℕ, length, IfOk, IfErr, OnOk};
ghost use Rattle.apt_words.specs.Sources.{AreExecuted};
ghost use Rattle.apt_scalar.specs.StepScalars.{AreScalars};
ghost use Rattle.apt_certify.specs.Jobs.{AreJobs, point_count};
ghost use Rattle.apt_certify.specs.Verdicts.{IsVerdict};
ghost use Rattle.apt_certify.specs.declared.verdict.Verdict.{Verdict};
ghost use Rattle.apt_records.specs.Ranges.{AreRecords, vertex_count};
ghost use Rattle.apt_records.specs.declared.record.Record.{Record};
ghost use Rattle.apt_meaning.specs.Compiled.{first_refused};
ghost use Rattle.apt_meaning.specs.Ranges.{IsSituation, IsMotion, IsEffect, HasMotion};
ghost use Rattle.apt_meaning.specs.Motions.{is_defined};
ghost use Rattle.apt_meaning.specs.Paths.{contours_of};
ghost use Rattle.apt_meaning.specs.Records as written;
ghost use Rattle.apt_meaning.specs.Situations.{first_situation};
ghost use Rattle.apt_meaning.specs.Vertices.{HasIn};
ghost use Rattle.apt_meaning.specs.declared.effect.Effect.TheVariants as effects;
ghost use Rattle.apt_meaning.specs.Expectations.{FailsAt};
ghost use Rattle.apt_meaning.specs.Records.{Follows};
ghost use Rattle.apt_job.specs.Answering.{IsEntry, IsEntryAt};
ghost use Rattle.apt_job.specs.Fronts.{cuts_at};
ghost use Rattle.apt_job.specs.InAndOut.{TellsInAndOut};
ghost use Rattle.apt_job.specs.Jobs.{AreSides, HasSides, jobs_by, jobs_said, MakesJobs};

use crate::JobError;
use crate::fronts::{Cuts, front_of};
use crate::legs::{Sides, effect_sides, take_leg};
use apt_certify::Job;
use apt_meaning::{Effect, Motion, Situation, effect_of};
use apt_offset::signs::opposite;
use apt_records::{Record, Vertices};
use apt_stop::Legs;
use apt_words::Step;
use std::alloc::{AllocError, Global};

/// The first record that does not answer the steps, by the place behind those that do and how many there still fit.
fn entry(at: usize, fitting: u64) -> JobError
    requires few { at < 2 ^ 62 }
    requires fitting { fitting ≤ 4 }
    ensures { result ≡ JobError.Entry ((at + 1) + fitting) }
{
    let seq = at as u64 + 1;
    JobError::Entry { seq: seq + fitting }
}

/// Lets go of the vertices of a contour, the last of some records, where there are more than the one for which a record has
/// room itself; and of those before it.
fn let_go(alloc: Global, records: &mut [Record], vertices: (usize, usize))
    ensures { length records.new ≡ length records.old }
{
    let n = records.len();
    if vertices.1 > 1 && n >= 1 {
        empty(alloc, &mut records[n - 1]);
    }
    if vertices.0 > 1 && n >= 2 {
        empty(alloc, &mut records[n - 2]);
    }
}

fn empty(alloc: Global, record: &mut Record) {
    if let Record::Contour(vertices) = record {
        *vertices = Vertices::level(0, Vec::new(alloc));
    }
}

/// How many vertices the first of two legs has and the last.
fn sizes(cuts: &Cuts<'_>) -> (usize, usize) {
    match cuts {
        Cuts::None => (0, 0),
        Cuts::One(vertices) => (0, vertices.len()),
        Cuts::Two(first, second) => (first.len(), second.len()),
    }
}

/// Makes the jobs of a contour; then holds what holds behind it.
fn cut(
    alloc: Global,
    jobs: &mut Vec<Job>,
    here: &mut Situation,
    motion: &Motion,
    legs: Legs,
    sides: Sides,
    cuts: &Cuts<'_>,
) -> Result<(), AllocError>
    requires motion { IsMotion motion.now }
    requires defined { is_defined motion.now ≡ true }
    requires sides { AreSides motion.now sides }
    requires vertices { HasIn (effects.Cuts motion.now legs) (cuts_at cuts.now) }
    ensures after { OnOk result (here.new ≡ written.after here.old (effects.Cuts motion.now legs) (cuts_at cuts.now)) }
    ensures jobs { OnOk result (jobs.new.items ≡ jobs.old.items ++ jobs_by (effects.Cuts motion.now legs) (cuts_at cuts.now)) }
{
    match cuts {
        Cuts::None => here.cut_to(motion, motion.start.xy),
        Cuts::One(vertices) => {
            let end = take_leg(alloc, jobs, motion, sides.stop, sides.axis, vertices)?;
            here.cut_to(motion, end);
        }
        Cuts::Two(first, second) => {
            let met = take_leg(alloc, jobs, motion, sides.stop, sides.axis, first)?;
            let onward = motion.onward(met);
            let end = take_leg(
                alloc,
                jobs,
                &onward,
                opposite(sides.stop),
                sides.axis,
                second,
            )?;
            here.cut_to(motion, end);
        }
    }
    Ok(())
}

/// Makes the jobs of an effect that is a contour; then holds what holds behind it.
fn take(
    alloc: Global,
    jobs: &mut Vec<Job>,
    here: &mut Situation,
    effect: &Effect,
    sides: Sides,
    cuts: &Cuts<'_>,
) -> Result<(), AllocError>
    requires situation { IsSituation here.old }
    requires effect { IsEffect effect.now }
    requires has_motion { HasMotion effect.now }
    requires sides { HasSides sides effect.now }
    requires vertices { HasIn effect.now (cuts_at cuts.now) }
    requires may { written.MayHave effect.now (cuts_at cuts.now) }
    ensures after { OnOk result (here.new ≡ written.after here.old effect.now (cuts_at cuts.now)) }
    ensures jobs { OnOk result (jobs.new.items ≡ jobs.old.items ++ jobs_by effect.now (cuts_at cuts.now)) }
{
    match effect {
        Effect::Defines(name, figure) => here.table.set(name.copied(), *figure)?,
        Effect::Sets(change) => here.settings.change(change),
        Effect::Moves(reach, to) => here.go_to(*reach, *to),
        Effect::Cuts(motion, legs) => cut(alloc, jobs, here, motion, *legs, sides, cuts)?,
    }
    Ok(())
}

/// The jobs of records that answer steps, whether or not their contours are legal: one for each leg of a contour, in order, as
/// the records say it by themselves. What records hold in memory goes as soon as their jobs are made.
///
/// # Errors
///
/// `Entry` has the number of the first record that does not answer the steps, from 1.
#[tactic(auto, using(crate::proofs::Walks::jobs_follow))]
pub fn jobs(alloc: Global, steps: &[Step], records: Vec<Record>) -> Result<Vec<Job>, JobError>
    requires scalars { AreScalars steps.now }
    requires sources { AreExecuted steps.now }
    requires passes { first_refused first_situation steps.now ≡ None }
    requires records { AreRecords records.items }
    requires few { vertex_count records.items + length records.items < 2 ^ 62 }
    ensures jobs { IfOk result (λ js. MakesJobs first_situation steps.now records.items js.items) }
    ensures follows { IfOk result (λ js. Follows steps.now records.items) }
    ensures said { IfOk result (λ js. js.items ≡ jobs_said records.items) }
    ensures in_and_out { IfOk result (λ js. (v : Verdict) → IsVerdict js.items v → TellsInAndOut (contours_of records.items) v) }
    ensures range { IfOk result (λ js. AreJobs js.items) }
    ensures few { IfOk result (λ js. point_count js.items < 2 ^ 63) }
    ensures entry { IfErr result (IsEntry steps.now records.items) }
    ensures entry_at { (seq : ℕ) → FailsAt first_situation 1 steps.now records.items seq → IsEntryAt seq result }
{
    jobs_value(alloc, steps, records)
}

fn jobs_value(alloc: Global, steps: &[Step], mut records: Vec<Record>) -> Result<Vec<Job>, JobError>
    requires scalars { AreScalars steps.now }
    requires sources { AreExecuted steps.now }
    requires passes { first_refused first_situation steps.now ≡ None }
    requires records { AreRecords records.items }
    requires few { vertex_count records.items + length records.items < 2 ^ 62 }
    ensures jobs { IfOk result (λ js. MakesJobs first_situation steps.now records.items js.items) }
    ensures range { IfOk result (λ js. AreJobs js.items) }
    ensures few { IfOk result (λ js. point_count js.items < 2 ^ 63) }
    ensures entry { IfErr result (IsEntry steps.now records.items) }
{
    let mut here = Situation::first(alloc);
    let mut at = 0;
    let mut jobs = Vec::new(alloc);
    'steps: for st in steps {
        let found = effect_of(&here, &st.deed)?;
        let sides = effect_sides(&found);
        let front = match front_of(st, &found, sides, &records[at..]) {
            Ok(front) => front,
            Err(fitting) => return Err(entry(at, fitting)),
        };
        // Records answer only a step that asks for something.
        let Some(found) = &found else { unreachable!() };
        take(alloc, &mut jobs, &mut here, found, sides, &front.cuts)?;
        let behind = records.len() - front.rest.len();
        let vertices = sizes(&front.cuts);
        let_go(alloc, &mut records[at..behind], vertices);
        at = behind;
    }
    if at == records.len() {
        Ok(jobs)
    } else {
        Err(entry(at, 0))
    }
}
