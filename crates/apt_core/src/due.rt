//! What texts come to, or the answer where one has a fault.

ghost use Rattle.std.specs.Prelude.{◌≡◌, ◌≤◌, length, IfOk, IfErr, Ok, Err};
ghost use Rattle.apt_machine.specs.Machines.{IsMachine};
ghost use Rattle.apt_machine.specs.Tables as tables;
ghost use Rattle.apt_part.specs.Compilation as parts;
ghost use Rattle.apt_part.specs.Promise.{Passes, Promise, AreSteps};
ghost use Rattle.apt_core.specs.Due.{ComesToNone, machine_due, part_due, steps_due, part_told, cl_told, tape_told, outline_told};

use apt_certify::Gate;
use apt_cldata::ClError;
use apt_control::ControlError;
use apt_machine::{Machine, table};
use apt_outline::OutlineError;
use apt_part::{Part, PartError, part_of, steps_of};
use apt_report::Status;
use apt_words::Step;
use std::alloc::Global;
use std::thread::Threads;

/// The machine of a table.
pub(crate) fn machine_of(text: &[u8]) -> Result<Machine, Status>
    requires short { length text.now ≤ 65536 }
    ensures machine { IfOk result (λ m. tables.table_of text.now ≡ Ok m) }
    ensures range { IfOk result IsMachine }
    ensures none { IfErr result (λ s. machine_due text.now ≡ Err s) }
{
    match table(text) {
        Ok(machine) => Ok(machine),
        Err(error) => Err(Status::BadMachine {
            line: error.line,
            cause: error.cause,
        }),
    }
}

/// How a part that has a fault, or a refused step, is told.
fn part_status(error: PartError) -> Status
    ensures { result ≡ part_told error }
{
    match error {
        PartError::Bad { line, cause } => Status::BadPart { line, cause },
        PartError::Refused(r) => Status::Refused {
            line: r.line,
            step: r.step,
            case: r.case,
        },
        PartError::NoMemory => Status::NoMemory,
    }
}

/// The part of a text on a machine.
#[tactic(auto, using(crate::proofs::Chains::none_told))]
pub(crate) fn part_on<G: Gate>(
    rt: &(impl Threads + Sync),
    alloc: Global,
    text: Vec<u8>,
    machine: &Machine,
    gate: &G,
) -> Result<Part, Status>
    requires { IsMachine machine.now }
    ensures part { IfOk result (λ p. parts.part_of machine.now text.items ≡ Ok (Ok p)) }
    ensures promise { IfOk result (λ p. Promise machine.now text.items p) }
    ensures none { IfErr result (ComesToNone (part_due machine.now text.items)) }
{
    match part_of(rt, alloc, text, machine, gate) {
        Ok(part) => Ok(part),
        Err(error) => Err(part_status(error)),
    }
}

/// The steps of a text on a machine.
#[tactic(auto, using(crate::proofs::Chains::none_told))]
pub(crate) fn steps_on(alloc: Global, text: Vec<u8>, machine: &Machine) -> Result<Vec<Step>, Status>
    ensures comes { IfOk result (λ steps. parts.steps_of machine.now text.items ≡ Ok (Ok steps.items)) }
    ensures passes { IfOk result (λ steps. Passes machine.now text.items steps.items) }
    ensures steps { IfOk result (λ steps. AreSteps steps.items) }
    ensures none { IfErr result (ComesToNone (steps_due machine.now text.items)) }
{
    match steps_of(alloc, text, machine) {
        Ok(steps) => Ok(steps),
        Err(error) => Err(part_status(error)),
    }
}

/// How a CL file that has a fault is told.
pub(crate) fn cl_answer(error: ClError) -> Status
    ensures { result ≡ cl_told error }
{
    match error {
        ClError::Bad { at, cause } => Status::BadCl { at, cause },
        ClError::NoMemory => Status::NoMemory,
    }
}

/// How a tape that has a fault is told.
pub(crate) fn tape_answer(error: ControlError) -> Status
    ensures { result ≡ tape_told error }
{
    match error {
        ControlError::Bad { at, cause } => Status::BadTape { at, cause },
        ControlError::NoMemory => Status::NoMemory,
    }
}

/// How an outline that has a fault is told.
pub(crate) fn outline_answer(error: OutlineError) -> Status
    ensures { result ≡ outline_told error }
{
    match error {
        OutlineError::Bad { line, cause } => Status::BadOutline { line, cause },
        OutlineError::NoMemory => Status::NoMemory,
    }
}
