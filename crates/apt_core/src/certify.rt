//! The command `certify`.

ghost use Rattle.std.specs.Prelude.{◌≡◌, ◌+◌, ◌<◌, ◌^◌, ℕ, List, [], ◌∷◌, length, None, Ok, IfOk, IfErr, MatchResult};
ghost use Rattle.apt_records.specs.Ranges.{AreRecords, vertex_count};
ghost use Rattle.apt_meaning.specs.Situations.{first_situation};
ghost use Rattle.apt_meaning.specs.Compiled.{first_refused};
ghost use Rattle.apt_meaning.specs.Records.{Follows};
ghost use Rattle.apt_certify.specs.Jobs.{AreJobs, point_count};
ghost use Rattle.apt_certify.specs.Verdicts.{IsVerdict};
ghost use Rattle.apt_job.specs.Jobs.{jobs_said};
ghost use Rattle.apt_part.specs.Promise.{AreSteps};
ghost use Rattle.apt_circular.specs.declared.ArcAct.{ArcAct};
ghost use Rattle.apt_machine.specs.declared.machine.Machine.{Machine};
ghost use Rattle.apt_tape.specs.Tapes.{acts_on, run_on};
ghost use Rattle.apt_tape.specs.Runs.{IsTaken};
ghost use Rattle.apt_part.specs.Promise.{file_limit};
ghost use Rattle.apt_tape.specs.declared.comparison.Comparison.{Comparison};
ghost use Rattle.apt_tape.specs.Comparisons.{AreCompared};
ghost use Rattle.apt_tape.specs.Differences.{IsDifference};
ghost use Rattle.apt_core.specs.Due.{answer_of, acts_due, ComesToNone, OrNoMemory};
ghost use Rattle.apt_core.specs.Evidence.{IsEvidence, IsInRange, DiffersOn};
ghost use Rattle.apt_core.specs.Request.{four_names};
ghost use Rattle.apt_core.specs.Inputs.{files_on, input, inputs, AreRead, Reads, ReadsAll, IsStopped};
ghost use Rattle.apt_core.specs.Certificates.{IsMissed, IsJudgement};
ghost use Rattle.apt_core.specs.Promise.{Certifies};

use crate::due::{machine_of, steps_on, tape_answer};
use crate::evidence::Evidence;
use crate::reading::{MACHINE_LIMIT, PART_LIMIT, read_input, records_input, run_input, skip_input};
use crate::words::Names;
use apt_certify::{Gate, Job, check_jobs_split};
use apt_control::ControlError;
use apt_job::{JobError, jobs};
use apt_machine::Machine;
use apt_records::Record;
use apt_report::{Miss, Status, Summary, Verdict};
use apt_shelf::Shelf;
use apt_tape::Comparison;
use apt_words::Step;
use std::alloc::Global;
use std::thread::Threads;

/// Reads the part, the machine table, the CL file and the tape, and judges the last two against the part.
pub(crate) fn certify<H: Shelf, G: Gate>(
    rt: &(impl Threads + Sync),
    alloc: Global,
    shelf: &mut H,
    names: Names<'_>,
    gate: &G,
) -> Result<Summary, Status>
    ensures { Certifies (four_names names.entry) (files_on H.Shelf shelf.old) (files_on H.Shelf shelf.new) (answer_of result) }
{
    let evidence = evidence_of(alloc, shelf, names)?;
    judge_evidence(rt, alloc, evidence, gate)
}

/// Reads the part, the machine table, the CL file and the tape, each to its end, or gives the answer for the first that
/// can't be read.
pub(crate) fn evidence_of<H: Shelf>(
    alloc: Global,
    shelf: &mut H,
    names: Names<'_>,
) -> Result<Evidence, Status>
    ensures evidence { IfOk result (λ e. (table : List ℕ) × (cl : List ℕ) × (tape : List ℕ) × ReadsAll (H.told shelf.old) (inputs (four_names names.entry)) (e.text.items ∷ table ∷ cl ∷ tape ∷ []) × IsEvidence table cl tape e) }
    ensures range { IfOk result IsInRange }
    ensures stopped { IfErr result (IsStopped (inputs (four_names names.entry)) (files_on H.Shelf shelf.old) (files_on H.Shelf shelf.new)) }
    ensures read { AreRead (files_on H.Shelf shelf.old) (files_on H.Shelf shelf.new) }
{
    let text = read_input(alloc, shelf, names.part, PART_LIMIT)?;
    let table = read_input(alloc, shelf, names.machine, MACHINE_LIMIT)?;
    let records = records_input(alloc, shelf, names.cl)?;
    let machine = machine_of(&table);
    let difference = difference_on(alloc, shelf, names.tape, &machine, &records)?;
    Ok(Evidence {
        text,
        machine,
        records,
        difference,
    })
}

/// Reads a tape to its end, and compares its acts with the plan of the records, where the machine and they are there.
fn difference_on<H: Shelf>(
    alloc: Global,
    shelf: &mut H,
    name: &str,
    machine: &Result<Machine, Status>,
    records: &Result<Vec<Record>, Status>,
) -> Result<Result<Option<u64>, Status>, Status>
    requires few { IfOk records.now (λ r. vertex_count r.items + length r.items < 2 ^ 62) }
    ensures differs { IfOk result (λ difference. (tape : List ℕ) × Reads (H.told shelf.old) (input name.now file_limit) tape × DiffersOn machine.now records.now tape difference) }
    ensures stopped { IfErr result (IsStopped (input name.now file_limit ∷ []) (files_on H.Shelf shelf.old) (files_on H.Shelf shelf.new)) }
    ensures read { AreRead (files_on H.Shelf shelf.old) (files_on H.Shelf shelf.new) }
{
    match (machine, records) {
        (Ok(machine), Ok(records)) => {
            let none = Comparison::with_plan(records, machine);
            let run = run_input(alloc, shelf, name, machine, none)?;
            Ok(difference_in(run))
        }
        // a tape that can't be read is told before the fault of a table or of a CL file
        _ => {
            skip_input(alloc, shelf, name)?;
            Ok(Ok(None))
        }
    }
}

/// The first place, from 1, at which the acts of a run differ from the plan beside which it was, or the answer to the
/// tape's fault.
fn difference_in(run: Result<Comparison<'_>, ControlError>) -> Result<Option<u64>, Status>
    ensures { (begun : Comparison) (machine : Machine) (tape : List ℕ) → IsTaken (AreCompared begun) (run_on machine tape) run.entry → MatchResult result (λ at. (acts : List ArcAct) × IsDifference (acts_on begun.machine.now begun.records.now) at acts × (run_on machine tape ≡ Ok acts)) (ComesToNone (acts_due machine tape)) }
{
    match run {
        Ok(compared) => Ok(compared.difference()),
        Err(error) => Err(tape_answer(error)),
    }
}

/// What is found of a part, of a CL file's records, and of where a tape first differs from their plan, on a machine. The
/// records go as their jobs are made, to keep the peak of memory low.
fn judge_evidence<G: Gate>(
    rt: &(impl Threads + Sync),
    alloc: Global,
    evidence: Evidence,
    gate: &G,
) -> Result<Summary, Status>
    requires range { IsInRange evidence }
    ensures { (table cl tape : List ℕ) → IsEvidence table cl tape evidence → OrNoMemory (IsJudgement evidence.text.items table cl tape (answer_of result)) (answer_of result) }
{
    let Evidence {
        text,
        machine,
        records,
        difference,
    } = evidence;
    let machine = machine?;
    let steps = steps_on(alloc, text, &machine)?;
    let records = records?;
    let difference = difference?;
    let contours = contours_on(rt, alloc, &machine, &steps, records, difference, gate)?;
    Ok(Summary::Certified(contours.verdict))
}

/// The contours that records say, and the verdict over them.
#[derive(Drop)]
pub(crate) struct Contours {
    pub jobs: Vec<Job>,
    pub verdict: Verdict,
}

/// The contours of records that answer the steps and whose plan on the machine is the acts, with the verdict over them, or
/// what is missed.
pub(crate) fn contours_on<G: Gate>(
    rt: &(impl Threads + Sync),
    alloc: Global,
    machine: &Machine,
    steps: &[Step],
    records: Vec<Record>,
    difference: Option<u64>,
    gate: &G,
) -> Result<Contours, Status>
    requires steps { AreSteps steps.now }
    requires passes { first_refused first_situation steps.now ≡ None }
    requires records { AreRecords records.items }
    requires few { vertex_count records.items + length records.items < 2 ^ 62 }
    ensures follows { IfOk result (λ _. Follows steps.now records.items) }
    ensures said { IfOk result (λ c. c.jobs.items ≡ jobs_said records.items) }
    ensures range { IfOk result (λ c. AreJobs c.jobs.items × (point_count c.jobs.items < 2 ^ 63)) }
    ensures verdict { IfOk result (λ c. IsVerdict (jobs_said records.items) c.verdict) }
    ensures legal { IfOk result (λ c. c.verdict.first_bad ≡ None) }
    ensures planned { (acts : List ArcAct) → IsDifference (acts_on machine.now records.items) difference acts → IfOk result (λ _. acts ≡ acts_on machine.now records.items) }
    ensures missed { (acts : List ArcAct) → IsDifference (acts_on machine.now records.items) difference acts → IfErr result (λ s. OrNoMemory (IsMissed machine.now steps.now records.items acts s) s) }
{
    let jobs = match jobs(alloc, steps, records) {
        Ok(jobs) => jobs,
        Err(JobError::Entry { seq }) => return Err(Status::NotCertified {
            miss: Miss::Entry { seq },
        }),
        Err(JobError::NoMemory) => return Err(Status::NoMemory),
    };
    let verdict = check_jobs_split(rt, &jobs, gate);
    if let Some(bad) = verdict.first_bad {
        return Err(Status::NotCertified {
            miss: Miss::Motion(bad),
        });
    }
    match difference {
        Some(at) => Err(Status::NotCertified {
            miss: Miss::Act { at },
        }),
        None => Ok(Contours { jobs, verdict }),
    }
}
