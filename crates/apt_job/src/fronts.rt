//! The records in front of a list: whether they are those of a step.

ghost use Rattle.std.specs.Prelude.{◌≡◌, ◌↔◌, ◌≤◌, ◌++◌, true, [], List, Some, IfSome, IfErr, IsSomeAnd, IsTrue, MatchOption, MatchResult};
ghost use Rattle.apt_plane.specs.declared.figures.Pt.{Pt};
ghost use Rattle.apt_meaning.specs.Effects.{effect_of};
ghost use Rattle.apt_meaning.specs.Expectations as expectations;
ghost use Rattle.apt_meaning.specs.Expectations.{Departs, expected, expected_of};
ghost use Rattle.apt_meaning.specs.Motions as motions;
ghost use Rattle.apt_meaning.specs.Records.{Begins, MayHave, effect_records};
ghost use Rattle.apt_meaning.specs.declared.effect.Effect.TheVariants as effects;
ghost use Rattle.apt_meaning.specs.declared.situation.Situation.{Situation};
ghost use Rattle.apt_job.specs.Fronts.{points_at, cuts_at, IsBehind};
ghost use Rattle.apt_job.specs.Jobs.{AreSides, HasSides};

use crate::legs::Sides;
use crate::matches::{is_check, is_drive, is_note, is_point, is_statement};
use apt_meaning::{Change, Effect, Motion};
use apt_records::{Note, Position, Reach, Record, VertexSlice};
use apt_stop::Legs;
use apt_words::Step;

/// The vertices of a leg in front, and the records behind the one in front.
#[derive(Drop)]
pub(crate) struct Front<'a> {
    pub vertices: VertexSlice<'a>,
    pub rest: &'a [Record],
}

/// The vertices of the legs of a contour.
#[derive(Drop)]
pub(crate) enum Cuts<'a> {
    None,
    One(VertexSlice<'a>),
    Two(VertexSlice<'a>, VertexSlice<'a>),
}

/// The vertices of the legs of a step, and the records behind those of the step.
#[derive(Drop)]
pub(crate) struct StepFront<'a> {
    pub cuts: Cuts<'a>,
    pub rest: &'a [Record],
}

/// The records behind one without vertices.
fn behind<'a>(front: &Front<'a>) -> StepFront<'a>
    ensures cuts { cuts_at result.cuts ≡ [] }
    ensures rest { result.rest.now ≡ front.now.rest.now }
{
    nothing(front.rest)
}

/// No record is taken.
fn nothing(records: &[Record]) -> StepFront<'_>
    ensures cuts { cuts_at result.cuts ≡ [] }
    ensures rest { result.rest.now ≡ records.now }
{
    StepFront {
        cuts: Cuts::None,
        rest: records,
    }
}

fn statement<'a>(step: &Step, records: &'a [Record]) -> Option<Front<'a>>
    ensures { IsBehind (expectations.Exactly (Record.Statement step.now.line step.now.step)) records.now result }
{
    let [first, rest @ ..] = records else {
        return None;
    };
    if is_statement(step, first) {
        Some(Front {
            vertices: VertexSlice::none(),
            rest,
        })
    } else {
        None
    }
}

fn note<'a>(note: &Note, records: &'a [Record]) -> Option<Front<'a>>
    ensures { IsBehind (expectations.Exactly (Record.Note note.now)) records.now result }
{
    let [first, rest @ ..] = records else {
        return None;
    };
    if is_note(note, first) {
        Some(Front {
            vertices: VertexSlice::none(),
            rest,
        })
    } else {
        None
    }
}

fn point<'a>(reach: Reach, to: Position, records: &'a [Record]) -> Option<Front<'a>>
    ensures { IsBehind (expectations.Exactly (Record.Point reach to)) records.now result }
{
    let [first, rest @ ..] = records else {
        return None;
    };
    if is_point(reach, to, first) {
        Some(Front {
            vertices: VertexSlice::none(),
            rest,
        })
    } else {
        None
    }
}

fn drive<'a>(m: &Motion, sides: Sides, records: &'a [Record]) -> Option<Front<'a>>
    requires { AreSides m.now sides }
    ensures { IsBehind (expectations.exactly_if (motions.has_track m.now) (Record.Drive m.now.drive m.now.side m.now.sense)) records.now result }
{
    let [first, rest @ ..] = records else {
        return None;
    };
    if sides.has_track && is_drive(m, first) {
        Some(Front {
            vertices: VertexSlice::none(),
            rest,
        })
    } else {
        None
    }
}

fn check<'a>(m: &Motion, sides: Sides, records: &'a [Record]) -> Option<Front<'a>>
    requires sides { AreSides m.now sides }
    requires track { motions.has_track m.now ≡ true }
    ensures { IsBehind (expectations.exactly_if (motions.has_stop m.now) (Record.Check m.now.check m.now.how)) records.now result }
{
    let [first, rest @ ..] = records else {
        return None;
    };
    if sides.has_stop && is_check(m, first) {
        Some(Front {
            vertices: VertexSlice::none(),
            rest,
        })
    } else {
        None
    }
}

/// The vertices of a contour at the height of its start.
fn vertices_at(start: Position, r: &Record) -> Option<VertexSlice<'_>>
    ensures { MatchOption result (¬ ((vertices : List Pt) × expectations.Meets (expectations.VerticesAt start.z) r.now vertices)) (λ ps. expectations.Meets (expectations.VerticesAt start.z) r.now (points_at ps)) }
{
    match r {
        Record::Contour(vertices) => {
            let all = vertices.all();
            if all.are_at(start.z) { Some(all) } else { None }
        }
        _ => None,
    }
}

#[inline(always)]
fn contour(start: Position, records: &[Record]) -> Option<Front<'_>>
    ensures { IsBehind (expectations.VerticesAt start.z) records.now result }
{
    let [first, rest @ ..] = records else {
        return None;
    };
    match vertices_at(start, first) {
        Some(vertices) => Some(Front { vertices, rest }),
        None => None,
    }
}

/// The records of a contour.
#[tactic(auto, using(crate::proofs::InFront::cut_said, crate::proofs::InFront::two_said, crate::proofs::InFront::cut_departs, crate::proofs::InFront::second_departs))]
fn cut<'a>(
    m: &Motion,
    legs: Legs,
    sides: Sides,
    records: &'a [Record],
) -> Result<StepFront<'a>, u64>
    requires { AreSides m.now sides }
    ensures said { MatchResult result (λ f. (records.now ≡ effect_records (effects.Cuts m.now legs) (cuts_at f.cuts) ++ f.rest.now) × MayHave (effects.Cuts m.now legs) (cuts_at f.cuts)) (Departs (expected_of (Some (effects.Cuts m.now legs))) records.now) }
    ensures few { IfErr result (λ k. k ≤ 3) }
{
    let Some(behind_drive) = drive(m, sides, records) else {
        return Err(0);
    };
    let Some(behind_check) = check(m, sides, behind_drive.rest) else {
        return Err(1);
    };
    let Some(first) = contour(m.start, behind_check.rest) else {
        return Err(2);
    };
    match legs {
        Legs::One => Ok(StepFront {
            cuts: Cuts::One(first.vertices),
            rest: first.rest,
        }),
        Legs::Two => match contour(m.start, first.rest) {
            Some(second) => Ok(StepFront {
                cuts: Cuts::Two(first.vertices, second.vertices),
                rest: second.rest,
            }),
            None => Err(3),
        },
    }
}

/// The records of an effect.
fn effect_front<'a>(
    effect: &Option<Effect>,
    sides: Sides,
    records: &'a [Record],
) -> Result<StepFront<'a>, u64>
    requires { IfSome effect.now (HasSides sides) }
    ensures said { MatchResult result (λ f. IsSomeAnd effect.now (λ e. (records.now ≡ effect_records e (cuts_at f.cuts) ++ f.rest.now) × MayHave e (cuts_at f.cuts))) (Departs (expected_of effect.now) records.now) }
    ensures few { IfErr result (λ k. k ≤ 3) }
{
    match effect {
        None => Err(0),
        Some(Effect::Defines(..)) => Ok(nothing(records)),
        Some(Effect::Sets(Change::Side(_) | Change::Nothing)) => Ok(nothing(records)),
        Some(Effect::Sets(Change::Said(said))) => match note(said, records) {
            Some(front) => Ok(behind(&front)),
            None => Err(0),
        },
        Some(Effect::Moves(reach, to)) => match point(*reach, *to, records) {
            Some(front) => Ok(behind(&front)),
            None => Err(0),
        },
        Some(Effect::Cuts(m, legs)) => cut(m, *legs, sides, records),
    }
}

/// Whether an effect has no record.
fn is_silent(effect: &Option<Effect>) -> bool
    ensures { IsTrue result ↔ (expected_of effect.now ≡ []) }
{
    matches!(
        effect,
        Some(Effect::Defines(..) | Effect::Sets(Change::Side(_) | Change::Nothing))
    )
}

/// The records of a step, which begin with its statement; else how many records in front are as they are due.
pub(crate) fn front_of<'a>(
    step: &Step,
    effect: &Option<Effect>,
    sides: Sides,
    records: &'a [Record],
) -> Result<StepFront<'a>, u64>
    requires { IfSome effect.now (HasSides sides) }
    ensures taken { (here : Situation) → effect_of here step.now.deed ≡ effect.now → MatchResult result (λ f. IsSomeAnd effect.now (λ e. Begins here step.now records.now e (cuts_at f.cuts) f.rest.now)) (Departs (expected here step.now) records.now) }
    ensures few { IfErr result (λ k. k ≤ 4) }
{
    if is_silent(effect) {
        return Ok(nothing(records));
    }
    let Some(behind) = statement(step, records) else {
        return Err(0);
    };
    match effect_front(effect, sides, behind.rest) {
        Ok(front) => Ok(front),
        Err(fitting) => Err(fitting + 1),
    }
}
