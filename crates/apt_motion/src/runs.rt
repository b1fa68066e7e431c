//! The records of a part program, and the first step of it that is refused.

ghost use Rattle.std.specs.Prelude.{◌≡◌, ◌≤◌, IfOk};
ghost use Rattle.apt_words.specs.Answers.{IsDueAs};
ghost use Rattle.apt_words.specs.Sources.{AreExecuted};
ghost use Rattle.apt_scalar.specs.StepScalars.{AreScalars};
ghost use Rattle.apt_records.specs.Ranges.{AreRecords, vertex_count};
ghost use Rattle.apt_meaning.specs.Compiled.{compilation, first_refused, most_points};
ghost use Rattle.apt_meaning.specs.Cuts.{IsOwnCut};
ghost use Rattle.apt_meaning.specs.Paths.{EveryContour, IsLegalCut, contours_of};
ghost use Rattle.apt_meaning.specs.Records.{Follows};
ghost use Rattle.apt_meaning.specs.Situations.{first_situation};
ghost use Rattle.apt_motion.specs.Drafts as drafts;
ghost use Rattle.apt_motion.specs.Ends.{refusal_in};

use crate::acts::act;
use crate::counting::past_limit;
use crate::dividing::cut_all;
use crate::drafts::Draft;
use crate::filling::fill;
use apt_certify::Gate;
use apt_meaning::Situation;
use apt_records::Record;
use apt_words::{Refusal, Step};
use std::alloc::{AllocError, Global};
use std::thread::Threads;

/// Why there are no records.
#[derive(Clone, Copy)]
pub enum RunError {
    /// The first refused step, and its case.
    Refused(Refusal),
    /// Memory was lacking.
    NoMemory,
}

impl From<AllocError> for RunError {
    ghost use Rattle.std.specs.Prelude.{◌≡◌};
    ghost use Rattle.apt_motion.specs.declared.runs.RunError.TheVariants as errors;

    ghost from_gives = { λ _ e. e ≡ errors.NoMemory };

    fn from(_: AllocError) -> Self {
        RunError::NoMemory
    }
}

/// The draft of steps up to the first that a case refuses, and that refusal.
fn draft_of(alloc: Global, steps: &[Step]) -> Result<(Draft, Option<Refusal>), AllocError>
    requires scalars { AreScalars steps.now }
    requires sources { AreExecuted steps.now }
    ensures value { IfOk result (λ d. drafts.draft_from first_situation steps.now ≡ record { records = d.0.records.items; rounds = d.0.rounds.items; refusal = d.1 }) }
    ensures room { IfOk result (λ d. drafts.HasRoom d.0.records.items d.0.room) }
{
    let mut here = Situation::first(alloc);
    let mut draft = Draft::blank(alloc, steps.len())?;
    'steps: for st in steps {
        match act(&mut draft, &mut here, st) {
            Ok(()) => {}
            Err(RunError::Refused(refusal)) => return Ok((draft, Some(refusal))),
            Err(RunError::NoMemory) => return Err(AllocError),
        }
    }
    Ok((draft, None))
}

/// The records of steps: all are drawn, the vertices of their arcs counted, and then the arcs divided.
#[tactic(auto, using(crate::proofs::Drafted::compiled))]
fn run_value<G: Gate>(
    rt: &(impl Threads + Sync),
    alloc: Global,
    steps: Vec<Step>,
    gate: &G,
) -> Result<Vec<Record>, RunError>
    requires scalars { AreScalars steps.items }
    requires sources { AreExecuted steps.items }
    ensures { IsDueAs (λ records. records.items) refusal_in (compilation first_situation steps.items) result }
{
    let (draft, refusal) = draft_of(alloc, &steps)?;
    // The steps' memory is free for the vertices.
    drop(steps);
    if let Some(past) = past_limit(rt, alloc, &draft)? {
        return Err(RunError::Refused(past));
    }
    if let Some(refusal) = refusal {
        return Err(RunError::Refused(refusal));
    }
    let Draft {
        mut records,
        rounds,
        ..
    } = draft;
    let cuts = cut_all(rt, alloc, &rounds, gate)?;
    fill(&mut records, cuts);
    records.shrink_to_fit();
    Ok(records)
}

/// The first step that a case refuses, None where all of them pass. Each contour is run to its contact, and no record
/// is made.
pub fn ends(alloc: Global, steps: &[Step]) -> Result<Option<Refusal>, AllocError>
    requires scalars { AreScalars steps.now }
    requires sources { AreExecuted steps.now }
    ensures { IfOk result (λ refusal. refusal ≡ first_refused first_situation steps.now) }
{
    let mut here = Situation::first(alloc);
    'steps: for st in steps {
        match act(&mut (), &mut here, st) {
            Ok(()) => {}
            Err(RunError::Refused(refusal)) => return Ok(Some(refusal)),
            Err(RunError::NoMemory) => return Err(AllocError),
        }
    }
    Ok(None)
}

/// The records of steps, whose arcs are divided by several threads; the gate is told of each arc, by its number from 1
/// over all steps, before it is divided. The steps go as soon as their records are drawn. A contour along a line has one vertex, the point at which it stops; round a circle it has those
/// of its arc's division into chords, each within the inward tolerance. A program has up to 500,000 vertices. `Refused`
/// has the first step that a case refuses, or that has too many vertices. The records follow the steps, every contour
/// is legal, and all numbers are in range.
#[tactic(auto, using(crate::proofs::Walks::run_follows, crate::proofs::Walks::run_legal, crate::proofs::Walks::run_own, crate::proofs::Walks::run_in_range, crate::proofs::Walks::run_fits))]
pub fn run<G: Gate>(
    rt: &(impl Threads + Sync),
    alloc: Global,
    steps: Vec<Step>,
    gate: &G,
) -> Result<Vec<Record>, RunError>
    requires scalars { AreScalars steps.items }
    requires sources { AreExecuted steps.items }
    ensures value { IsDueAs (λ records. records.items) refusal_in (compilation first_situation steps.items) result }
    ensures follows { IfOk result (λ records. Follows steps.items records.items) }
    ensures legal { IfOk result (λ records. EveryContour IsLegalCut (contours_of records.items)) }
    ensures own { IfOk result (λ records. EveryContour IsOwnCut (contours_of records.items)) }
    ensures range { IfOk result (λ records. AreRecords records.items) }
    ensures points { IfOk result (λ records. vertex_count records.items ≤ most_points) }
{
    run_value(rt, alloc, steps, gate)
}
