//! The command `guard`.

ghost use Rattle.std.specs.Prelude.{◌≡◌, ◌≤◌, ℕ, List, None, Ok, length, IfOk, IfErr};
ghost use Rattle.apt_meaning.specs.Compiled.{first_refused};
ghost use Rattle.apt_meaning.specs.Situations.{first_situation};
ghost use Rattle.apt_outline.specs.Guards.{AreParts};
ghost use Rattle.apt_part.specs.Promise.{AreSteps};
ghost use Rattle.apt_core.specs.Due.{answer_of, ComesToNone, OrNoMemory};
ghost use Rattle.apt_core.specs.Evidence.{IsEvidence, IsInRange};
ghost use Rattle.apt_core.specs.Guarding.{Outlines, outline_due, IsGuarding};
ghost use Rattle.apt_core.specs.Inputs.{files_on};
ghost use Rattle.apt_core.specs.Promise.{Guards};
ghost use Rattle.apt_core.specs.Request.{four_names};

use crate::certify::{contours_on, evidence_of};
use crate::due::{outline_answer, steps_on};
use crate::evidence::Evidence;
use crate::reading::{OUTLINE_LIMIT, read_input};
use crate::words::Names;
use apt_certify::Gate;
use apt_outline::{Part, guard_split, outline, reaches};
use apt_report::{Status, Summary};
use apt_shelf::Shelf;
use apt_words::Step;
use std::alloc::Global;
use std::thread::Threads;

/// Reads what `certify` reads and then an outline, judges as `certify` does, and then whether a contour comes too near to a
/// part of the outline.
pub(crate) fn guard<H: Shelf, G: Gate>(
    rt: &(impl Threads + Sync),
    alloc: Global,
    shelf: &mut H,
    names: Names<'_>,
    name: &str,
    gate: &G,
) -> Result<Summary, Status>
    ensures { Guards (four_names names.entry) name.now (files_on H.Shelf shelf.old) (files_on H.Shelf shelf.new) (answer_of result) }
{
    let evidence = evidence_of(alloc, shelf, names)?;
    let text = read_input(alloc, shelf, name, OUTLINE_LIMIT)?;
    guard_evidence(rt, alloc, evidence, &text, gate)
}

/// What is found of a part, of a CL file's records, of where a tape first differs from their plan, and of an outline, on a
/// machine.
fn guard_evidence<G: Gate>(
    rt: &(impl Threads + Sync),
    alloc: Global,
    evidence: Evidence,
    text: &[u8],
    gate: &G,
) -> Result<Summary, Status>
    requires range { IsInRange evidence }
    requires short { length text.now ≤ 65536 }
    ensures { (table cl tape : List ℕ) → IsEvidence table cl tape evidence → OrNoMemory (IsGuarding evidence.text.items table cl tape text.now (answer_of result)) (answer_of result) }
{
    let Evidence {
        text: part,
        machine,
        records,
        difference,
    } = evidence;
    let machine = machine?;
    let steps = steps_on(alloc, part, &machine)?;
    let parts = parts_on(alloc, text, &steps)?;
    let records = records?;
    let difference = difference?;
    let reaches = reaches(alloc, &records)?;
    let contours = contours_on(rt, alloc, &machine, &steps, records, difference, gate)?;
    match guard_split(rt, &contours.jobs, &reaches, &parts, gate) {
        Some(gouge) => Err(Status::Gouge(gouge)),
        None => Ok(Summary::Guarded {
            segments: contours.verdict.segments,
            parts: parts.len() as u64,
        }),
    }
}

/// The parts of an outline, by the figures that hold behind the last step.
#[tactic(auto, using(apt_outline::proofs::Held::steps_defined, crate::proofs::Chains::bad_outline_told))]
fn parts_on(alloc: Global, text: &[u8], steps: &[Step]) -> Result<Vec<Part>, Status>
    requires short { length text.now ≤ 65536 }
    requires steps { AreSteps steps.now }
    requires passes { first_refused first_situation steps.now ≡ None }
    ensures names { IfOk result (λ parts. Outlines steps.now text.now parts.items) }
    ensures range { IfOk result (λ parts. AreParts parts.items) }
    ensures none { IfErr result (ComesToNone (outline_due steps.now text.now)) }
{
    match outline(alloc, text, steps) {
        Ok(parts) => Ok(parts),
        Err(error) => Err(outline_answer(error)),
    }
}
