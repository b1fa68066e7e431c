//! Outlines as they are written.

ghost use Rattle.std.specs.Prelude.{◌≡◌, ◌+◌, ◌≤◌, List, length, IfOk, IfErr};
ghost use Rattle.apt_words.specs.Answers.{IsDueAs, Tells};
ghost use Rattle.apt_lexis.specs.Lines.{lines_of};
ghost use Rattle.apt_scalar.specs.StepScalars.{AreScalars};
ghost use Rattle.apt_records.specs.declared.record.Record.{Record};
ghost use Rattle.apt_meaning.specs.Records.{Follows};
ghost use Rattle.apt_outline.specs.Guards.{AreParts};
ghost use Rattle.apt_outline.specs.Holding as holding;
ghost use Rattle.apt_outline.specs.Outlines as outlines;

use crate::cause::{OutlineCause, OutlineError};
use crate::figures::figures_at_end;
use crate::line::part_of;
use crate::parts::Part;
use apt_defs::Table;
use apt_lexis::{is_readable, next_line};
use apt_words::Step;
use std::alloc::Global;

fn bad(line: u32, cause: OutlineCause) -> OutlineError
    ensures { result ≡ OutlineError.Bad line cause }
{
    OutlineError::Bad { line, cause }
}

/// The parts of an outline, a text of at most 65,536 bytes, by the figures that names stand for behind the steps of a
/// program.
///
/// The first line is `OUTLINE 1`. Every other that is not empty is a part: `EDGE P Q` the straight edge between two points,
/// `BOSS C` the disc of a circle, to be kept out of, and `BORE C` the inside of one, not to be left.
///
/// # Errors
///
/// The cause of the first line, from 1, that has one, the first in this order: `Byte`; in the first line `Header`; in every
/// other `Word`, `Undefined`, `WrongKind`, `Degenerate`. Where no line has one and there is no part, `Empty` at the number of
/// the last line plus 1. An empty text is `Header` at line 1.
pub fn outline(alloc: Global, text: &[u8], steps: &[Step]) -> Result<Vec<Part>, OutlineError>
    requires short { length text.now ≤ 65536 }
    requires scalars { AreScalars steps.now }
    requires defined { holding.AreDefined holding.nothing_held steps.now }
    ensures value { IsDueAs (λ v. v.items) outlines.fault_in (outlines.outline_of (holding.figures_at_end steps.now) text.now) result }
    ensures behind { (written : List Record) (follows : Follows steps.now written) → IsDueAs (λ v. v.items) outlines.fault_in (outlines.outline_of follows.behind.table text.now) result }
    ensures range { IfOk result (λ v. AreParts v.items) }
    ensures place { IfErr result (λ e. Tells (λ fault. outlines.Stands (length (lines_of text.now)) fault.0 fault.1) (outlines.fault_in e)) }
{
    let figures = figures_at_end(alloc, steps)?;
    outline_by(alloc, &figures, text)
}

/// The parts of an outline by the figures that names stand for.
fn outline_by(alloc: Global, figures: &Table, text: &[u8]) -> Result<Vec<Part>, OutlineError>
    requires short { length text.now ≤ 65536 }
    ensures value { IsDueAs (λ v. v.items) outlines.fault_in (outlines.outline_of figures.now text.now) result }
    ensures range { IfOk result (λ v. AreParts v.items) }
    ensures place { IfErr result (λ e. Tells (λ fault. outlines.Stands (length (lines_of text.now)) fault.0 fault.1) (outlines.fault_in e)) }
{
    let Some((first, rest)) = next_line(text) else {
        return Err(bad(1, OutlineCause::Header));
    };
    if !is_readable(first) {
        return Err(bad(1, OutlineCause::Byte));
    }
    if first != b"OUTLINE 1".as_slice() {
        return Err(bad(1, OutlineCause::Header));
    }
    parts_of(alloc, figures, rest)
}

/// The parts of the lines behind the first.
#[tactic(auto, using(crate::proofs::Places::of_line_stands))]
fn parts_of(alloc: Global, figures: &Table, text: &[u8]) -> Result<Vec<Part>, OutlineError>
    requires short { length text.now ≤ 65536 }
    ensures value { IsDueAs (λ v. v.items) outlines.fault_in (outlines.parts_of figures.now (lines_of text.now)) result }
    ensures range { IfOk result (λ v. AreParts v.items) }
    ensures place { IfErr result (λ e. Tells (λ fault. outlines.Stands (1 + length (lines_of text.now)) fault.0 fault.1) (outlines.fault_in e)) }
{
    let mut parts = Vec::new(alloc);
    let mut line = 2;
    let mut rest = text;
    'lines: while let Some((first, after)) = next_line(rest) {
        if !first.is_empty() {
            parts.push(part_of(figures, first).map_err(|cause| bad(line, cause))?)?;
        }
        line += 1;
        rest = after;
    }
    if parts.is_empty() {
        Err(bad(line, OutlineCause::Empty))
    } else {
        Ok(parts)
    }
}
