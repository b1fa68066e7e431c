//! Parts.

ghost use Rattle.std.specs.Prelude.{◌≡◌, false, IfOk};
ghost use Rattle.std.specs.Result.{result_map_both};
ghost use Rattle.apt_words.specs.Nesting.{AreNested};
ghost use Rattle.apt_words.specs.Sources.{AreStmts, AreExecuted, AreNumbered};
ghost use Rattle.apt_scalar.specs.StepScalars.{AreScalars, AreDrillScalars};
ghost use Rattle.apt_meaning.specs.Situations.{first_situation};
ghost use Rattle.apt_meaning.specs.Compiled.{compilation, first_refused};
ghost use Rattle.apt_words.specs.Answers.{IsDue, IsDueAs};
ghost use Rattle.apt_lexis.specs.Sentences as sentences;
ghost use Rattle.apt_motion.specs.Ends.{refusal_in};
ghost use Rattle.apt_machine.specs.Machines.{IsMachine};
ghost use Rattle.apt_parse.specs.Programs.{program_of};
ghost use Rattle.apt_post.specs.Limits as limiting;
ghost use Rattle.apt_part.specs.Compilation as parts;
ghost use Rattle.apt_part.specs.Answering.{IsPart};
ghost use Rattle.apt_part.specs.Promise.{Passes, Promise, AreSteps};
ghost use Rattle.apt_part.specs.Plain.{StandsFor};

use apt_certify::Gate;
use apt_lexis::{ParseError, PartCause};
use apt_machine::Machine;
use apt_motion::{RunError, ends, run};
use apt_parse::parse;
use apt_pattern::{are_undrilled, expand};
use apt_post::limits;
use apt_records::Record;
use apt_unroll::{Unrolled, unroll};
use apt_words::{Program, Refusal, Step};
use std::alloc::{AllocError, Global};
use std::marker::Model;
use std::snapshot::Snapshot;
use std::thread::Threads;

/// The records that the plain steps of a part program ask for. Clauses see the steps too, which go as soon as the records are
/// drawn.
#[derive(Drop)]
pub struct Part {
    pub steps: Snapshot<Vec<Step>>,
    pub records: Vec<Record>,
}

impl Model for Part {
    ghost use Rattle.apt_part.specs.Compilation.{Compiled};

    ghost Value = { Compiled };

    ghost view = { λ p. record { steps = p.steps.value.items; records = p.records.items } };
}

/// Why a part has no records: the first fault of its text with its line, the first refused step, or want of memory.
#[derive(Drop)]
pub enum PartError {
    Bad { line: u32, cause: PartCause },
    Refused(Refusal),
    NoMemory,
}

impl From<ParseError> for PartError {
    ghost use Rattle.std.specs.Prelude.{◌≡◌};
    ghost use Rattle.apt_part.specs.Answering.{of_text};

    ghost from_gives = { λ e told. told ≡ of_text e };

    fn from(e: ParseError) -> PartError {
        match e {
            ParseError::Bad { line, cause } => PartError::Bad { line, cause },
            ParseError::NoMemory => PartError::NoMemory,
        }
    }
}

/// The steps of a text on a machine, where none of them is refused; no record is made. The text goes as soon as it has
/// been read.
///
/// # Errors
///
/// `Bad` is the first fault of the text, and else `Refused` the first step that is refused.
#[tactic(auto, using(crate::proofs::Promised::steps_pass, crate::proofs::Promised::passing_steps))]
pub fn steps_of(alloc: Global, text: Vec<u8>, machine: &Machine) -> Result<Vec<Step>, PartError>
    ensures value { IsPart (parts.steps_of machine.now text.items) (result_map_both (λ steps. steps.items) (λ e. e) result) }
    ensures passes { IfOk result (λ steps. Passes machine.now text.items steps.items) }
    ensures steps { IfOk result (λ steps. AreSteps steps.items) }
{
    steps_of_value(alloc, text, machine)
}

fn steps_of_value(alloc: Global, text: Vec<u8>, machine: &Machine) -> Result<Vec<Step>, PartError>
    ensures { IsPart (parts.steps_of machine.now text.items) (result_map_both (λ steps. steps.items) (λ e. e) result) }
{
    let program = program_in(alloc, text)?;
    match steps_by(alloc, program, machine) {
        Ok(steps) => Ok(steps),
        Err(RunError::Refused(refusal)) => Err(PartError::Refused(refusal)),
        Err(RunError::NoMemory) => Err(PartError::NoMemory),
    }
}

/// The program of a text, or its first fault.
fn program_in(alloc: Global, text: Vec<u8>) -> Result<Program, ParseError>
    ensures program { IsDue sentences.fault_in (program_of text.items) result }
    ensures sources { IfOk result (λ p. AreStmts p) }
    ensures nested { IfOk result (λ p. AreNested false p) }
{
    parse(alloc, &text)
}

/// The steps of statements, or the first that is refused.
#[tactic(auto, using(crate::proofs::Undrilled::steps_stand))]
fn steps_by(alloc: Global, program: Program, machine: &Machine) -> Result<Vec<Step>, RunError>
    requires sources { AreStmts program }
    requires nested { AreNested false program }
    ensures { IsDueAs (λ steps. steps.items) refusal_in (parts.steps_by machine.now program) result }
{
    let Ok(unrolled) = unroll(alloc, &program) else {
        return Err(RunError::NoMemory);
    };
    let plain = plain_steps(alloc, unrolled)?;
    check_plain(alloc, plain, machine)
}

/// Plain steps of which neither their own cases nor the machine refuse one, or the first that is refused, else the fault
/// behind them.
fn check_plain(alloc: Global, plain: Unrolled, machine: &Machine) -> Result<Vec<Step>, RunError>
    requires scalars { AreScalars plain.steps }
    requires sources { AreExecuted plain.steps }
    ensures { IsDueAs (λ steps. steps.items) refusal_in (parts.unless_refused plain.steps (parts.refusal_by machine.now plain)) result }
{
    let refused = refused_in(alloc, &plain.steps, machine)?;
    match refused.or(plain.fault) {
        None => Ok(plain.steps),
        Some(refusal) => Err(RunError::Refused(refusal)),
    }
}

/// The plain steps of executed statements. Where none of these names a pattern or drills they are left as they are: what
/// they come to is the same.
fn plain_steps(alloc: Global, unrolled: Unrolled) -> Result<Unrolled, AllocError>
    requires scalars { AreScalars unrolled.steps }
    requires drills { AreDrillScalars unrolled.steps }
    requires sources { AreExecuted unrolled.steps }
    requires numbers { AreNumbered 1 unrolled.steps }
    ensures stands { IfOk result (λ plain. StandsFor unrolled plain) }
    ensures scalars { IfOk result (λ plain. AreScalars plain.steps) }
    ensures sources { IfOk result (λ plain. AreExecuted plain.steps) }
{
    if are_undrilled(&unrolled.steps) {
        Ok(unrolled)
    } else {
        expand(alloc, unrolled)
    }
}

/// The first of steps that its own cases or the machine refuse.
fn refused_in(
    alloc: Global,
    steps: &[Step],
    machine: &Machine,
) -> Result<Option<Refusal>, AllocError>
    requires scalars { AreScalars steps.now }
    requires sources { AreExecuted steps.now }
    ensures { IfOk result (λ r. r ≡ parts.earliest_of (limiting.limits machine.now steps.now) (first_refused first_situation steps.now)) }
{
    let past = limits(steps, machine);
    match ends(alloc, steps)? {
        None => Ok(past),
        Some(own) => Ok(Some(earliest(past, own))),
    }
}

/// The part of a text on a machine: its steps, and their records, whose arcs are divided by several threads. The gate is
/// told of each arc, by its number from 1, before it is divided. The text goes as soon as it has been read.
///
/// # Errors
///
/// `Bad` is the first fault of the text, and else `Refused` the first step that is refused.
#[tactic(auto, using(crate::proofs::Promised::promised, crate::proofs::Promised::part_steps))]
pub fn part_of<G: Gate>(
    rt: &(impl Threads + Sync),
    alloc: Global,
    text: Vec<u8>,
    machine: &Machine,
    gate: &G,
) -> Result<Part, PartError>
    requires { IsMachine machine.now }
    ensures value { IsPart (parts.part_of machine.now text.items) result }
    ensures promise { IfOk result (λ p. Promise machine.now text.items p) }
    ensures steps { IfOk result (λ p. AreSteps p.steps) }
{
    part_of_value(rt, alloc, text, machine, gate)
}

fn part_of_value<G: Gate>(
    rt: &(impl Threads + Sync),
    alloc: Global,
    text: Vec<u8>,
    machine: &Machine,
    gate: &G,
) -> Result<Part, PartError>
    ensures { IsPart (parts.part_of machine.now text.items) result }
{
    let program = program_in(alloc, text)?;
    match part_by(rt, alloc, program, machine, gate) {
        Ok(part) => Ok(part),
        Err(RunError::Refused(refusal)) => Err(PartError::Refused(refusal)),
        Err(RunError::NoMemory) => Err(PartError::NoMemory),
    }
}

/// What statements come to, or the first refused step.
fn part_by<G: Gate>(
    rt: &(impl Threads + Sync),
    alloc: Global,
    program: Program,
    machine: &Machine,
    gate: &G,
) -> Result<Part, RunError>
    requires sources { AreStmts program }
    requires nested { AreNested false program }
    ensures { IsDue refusal_in (parts.part_by machine.now program) result }
{
    let Ok(unrolled) = unroll(alloc, &program) else {
        return Err(RunError::NoMemory);
    };
    // The statements' memory is free for the records.
    drop(program);
    let plain = plain_steps(alloc, unrolled)?;
    record_plain(rt, alloc, plain, machine, gate)
}

/// Plain steps with their records, or the first that is refused, else the fault behind them.
fn record_plain<G: Gate>(
    rt: &(impl Threads + Sync),
    alloc: Global,
    plain: Unrolled,
    machine: &Machine,
    gate: &G,
) -> Result<Part, RunError>
    requires scalars { AreScalars plain.steps }
    requires sources { AreExecuted plain.steps }
    ensures { IsDue refusal_in (parts.with_steps plain.steps (parts.records_by machine.now plain)) result }
{
    let Unrolled {
        steps: executed,
        fault,
    } = plain;
    let steps = Snapshot::of(&executed);
    let records = records_of(rt, alloc, executed, machine, gate)?;
    match fault {
        None => Ok(Part { steps, records }),
        Some(fault) => Err(RunError::Refused(fault)),
    }
}

/// The records of steps, or the first that its own cases or the machine refuse.
fn records_of<G: Gate>(
    rt: &(impl Threads + Sync),
    alloc: Global,
    steps: Vec<Step>,
    machine: &Machine,
    gate: &G,
) -> Result<Vec<Record>, RunError>
    requires scalars { AreScalars steps.items }
    requires sources { AreExecuted steps.items }
    ensures { IsDueAs (λ records. records.items) refusal_in (parts.earlier (limiting.limits machine.now steps.items) (compilation first_situation steps.items)) result }
{
    let past = limits(&steps, machine);
    match run(rt, alloc, steps, gate) {
        Ok(records) => match past {
            None => Ok(records),
            Some(past) => Err(RunError::Refused(past)),
        },
        Err(RunError::Refused(own)) => Err(RunError::Refused(earliest(past, own))),
        Err(RunError::NoMemory) => Err(RunError::NoMemory),
    }
}

fn earliest(past: Option<Refusal>, own: Refusal) -> Refusal
    ensures { result ≡ parts.earliest past own }
{
    match past {
        Some(past) if past.step < own.step => past,
        _ => own,
    }
}
