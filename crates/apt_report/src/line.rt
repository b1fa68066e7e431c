//! Printed lines.

ghost use Rattle.std.specs.Prelude.{◌≡◌, IfOk};
ghost use Rattle.std.specs.String.{string_bytes};
ghost use Rattle.apt_report.specs.Lines as lines;

use crate::{
    Bad, ClCause, Gouge, MachineCause, Miss, OutlineCause, PartCause, Status, Summary, TapeCause,
    Verdict,
};
use apt_words::Case;
use std::alloc::{AllocError, Global};

/// The line of an answer with its line feed; no bytes where a tape was run or points were listed, which have lines
/// of their own, and where reading, writing or memory failed.
pub fn line_of(alloc: Global, s: &Status) -> Result<Vec<u8>, AllocError>
    ensures { IfOk result (λ v. v.items ≡ lines.line_of s.now) }
{
    let text = text_of(alloc, s)?;
    Ok(text.into_bytes())
}

fn text_of(alloc: Global, s: &Status) -> Result<String, AllocError>
    ensures { IfOk result (λ t. string_bytes t ≡ lines.line_of s.now) }
{
    match s {
        Status::Done(
            Summary::Compiled {
                records,
                acts,
                segments,
            },
        ) => compiled_line(alloc, *records, *acts, *segments),
        Status::Done(Summary::Certified(verdict)) => certified_line(alloc, verdict),
        Status::Done(Summary::Decoded { .. } | Summary::Listed { .. }) => Ok(String::new(alloc)),
        Status::Done(Summary::Demo { n, verdict }) => demo_line(alloc, *n, verdict),
        Status::Done(Summary::Guarded { segments, parts }) => guarded_line(
            alloc, *segments, *parts,
        ),
        Status::Usage => String::from_str(alloc, "USAGE\n"),
        Status::Missing { name } => format!(in alloc; "MISSING {}\n", name.text),
        Status::TooLong { name } => format!(in alloc; "TOO LONG {}\n", name.text),
        Status::BadMachine { line, cause } => bad_machine_line(alloc, *line, *cause),
        Status::BadPart { line, cause } => bad_part_line(alloc, *line, *cause),
        Status::Refused { line, step, case } => refused_line(alloc, *line, *step, *case),
        Status::BadCl { at, cause } => bad_cl_line(alloc, *at, *cause),
        Status::BadTape { at, cause } => bad_tape_line(alloc, *at, *cause),
        Status::NotCertified { miss } => miss_line(alloc, miss),
        Status::BadOutline { line, cause } => bad_outline_line(alloc, *line, *cause),
        Status::Gouge(gouge) => gouge_line(alloc, gouge),
        Status::ReadFault | Status::WriteFault | Status::NoMemory => Ok(String::new(alloc)),
    }
}

fn compiled_line(
    alloc: Global,
    records: u64,
    acts: u64,
    segments: u64,
) -> Result<String, AllocError>
    ensures { IfOk result (λ t. string_bytes t ≡ lines.compiled_line records acts segments) }
{
    format!(in alloc; "DONE {records} RECORDS {acts} ACTS {segments} SEGMENTS\n")
}

fn bad_part_line(alloc: Global, line: u32, cause: PartCause) -> Result<String, AllocError>
    ensures { IfOk result (λ t. string_bytes t ≡ lines.bad_part_line line cause) }
{
    let cause = cause.name();
    format!(in alloc; "BAD PART LINE {line} {cause}\n")
}

fn bad_machine_line(alloc: Global, line: u32, cause: MachineCause) -> Result<String, AllocError>
    ensures { IfOk result (λ t. string_bytes t ≡ lines.bad_machine_line line cause) }
{
    let why = cause.name();
    format!(in alloc; "BAD MACHINE LINE {line} {why}\n")
}

fn refused_line(alloc: Global, line: u32, step: u32, case: Case) -> Result<String, AllocError>
    ensures { IfOk result (λ t. string_bytes t ≡ lines.refused_line line step case) }
{
    let case = case.name();
    format!(in alloc; "REFUSED LINE {line} STEP {step} {case}\n")
}

fn certified_line(alloc: Global, verdict: &Verdict) -> Result<String, AllocError>
    ensures { IfOk result (λ t. string_bytes t ≡ lines.certified_line verdict.now) }
{
    format!(in alloc;
        "YES {} SEGMENTS IN {} OUT {}\n",
        verdict.segments, verdict.worst_in, verdict.worst_out
    )
}

fn demo_line(alloc: Global, n: u32, verdict: &Verdict) -> Result<String, AllocError>
    ensures { IfOk result (λ t. string_bytes t ≡ lines.demo_line n verdict.now) }
{
    format!(in alloc;
        "DEMO {} SEGMENTS {} IN {} OUT {}\n",
        n, verdict.segments, verdict.worst_in, verdict.worst_out
    )
}

fn bad_cl_line(alloc: Global, at: u64, cause: ClCause) -> Result<String, AllocError>
    ensures { IfOk result (λ t. string_bytes t ≡ lines.bad_cl_line at cause) }
{
    let why = cause.name();
    format!(in alloc; "BAD CL AT {at} {why}\n")
}

fn bad_tape_line(alloc: Global, at: u64, cause: TapeCause) -> Result<String, AllocError>
    ensures { IfOk result (λ t. string_bytes t ≡ lines.bad_tape_line at cause) }
{
    let why = cause.name();
    format!(in alloc; "BAD TAPE AT {at} {why}\n")
}

fn miss_line(alloc: Global, miss: &Miss) -> Result<String, AllocError>
    ensures { IfOk result (λ t. string_bytes t ≡ lines.miss_line miss.now) }
{
    match miss {
        Miss::Entry { seq } => format!(in alloc; "NOT CERTIFIED ENTRY {}\n", *seq),
        Miss::Motion(bad) => motion_line(alloc, bad),
        Miss::Act { at } => format!(in alloc; "NOT CERTIFIED ACT {}\n", *at),
    }
}

fn motion_line(alloc: Global, bad: &Bad) -> Result<String, AllocError>
    ensures { IfOk result (λ t. string_bytes t ≡ lines.motion_line bad.now) }
{
    let reason = bad.reason.name();
    format!(in alloc;
        "NOT CERTIFIED MOTION {} SEGMENT {} {} AT {}/{}\n",
        bad.motion, bad.segment, reason, bad.spot.j, bad.spot.m
    )
}

fn guarded_line(alloc: Global, segments: u64, parts: u64) -> Result<String, AllocError>
    ensures { IfOk result (λ t. string_bytes t ≡ lines.guarded_line segments parts) }
{
    format!(in alloc; "CLEAR {segments} SEGMENTS {parts} PARTS\n")
}

fn bad_outline_line(alloc: Global, line: u32, cause: OutlineCause) -> Result<String, AllocError>
    ensures { IfOk result (λ t. string_bytes t ≡ lines.bad_outline_line line cause) }
{
    let why = cause.name();
    format!(in alloc; "BAD OUTLINE LINE {line} {why}\n")
}

fn gouge_line(alloc: Global, gouge: &Gouge) -> Result<String, AllocError>
    ensures { IfOk result (λ t. string_bytes t ≡ lines.gouge_line gouge.now) }
{
    format!(in alloc;
        "GOUGE MOTION {} SEGMENT {} PART {} AT {}/{}\n",
        gouge.motion, gouge.segment, gouge.part, gouge.spot.j, gouge.spot.m
    )
}
