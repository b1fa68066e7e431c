//! The command `compile`.

ghost use Rattle.std.specs.Prelude.{◌≢◌, ◌≤◌, ◌+◌, length, IfOk, IfErr};
ghost use Rattle.apt_records.specs.Lists.{IsFile};
ghost use Rattle.apt_records.specs.Ranges.{vertex_count};
ghost use Rattle.apt_tape.specs.Tapes.{IsWritable};
ghost use Rattle.apt_core.specs.Due.{answer_of, ComesToNone};
ghost use Rattle.apt_core.specs.Request.{four_names};
ghost use Rattle.apt_core.specs.Inputs.{files_on};
ghost use Rattle.apt_core.specs.Outputs.{output_of, output_due, IsOutput};
ghost use Rattle.apt_core.specs.Promise.{Compiles};

use crate::delivery::{Output, deliver};
use crate::due::{machine_of, part_on};
use crate::reading::{MACHINE_LIMIT, PART_LIMIT, read_input};
use crate::words::Names;
use apt_certify::Gate;
use apt_part::Part;
use apt_report::{Status, Summary};
use apt_shelf::{Shelf, ShelfFault};
use std::alloc::Global;
use std::thread::Threads;

/// Reads the part and the machine table, and writes the part's CL file and then its tape.
pub(crate) fn compile<H: Shelf, G: Gate>(
    rt: &(impl Threads + Sync),
    alloc: Global,
    shelf: &mut H,
    names: Names<'_>,
    gate: &G,
) -> Result<Summary, Status>
    requires apart { names.cl.now ≢ names.tape.now }
    ensures { Compiles (four_names names.entry) (files_on H.Shelf shelf.old) (files_on H.Shelf shelf.new) (answer_of result) }
{
    let text = read_input(alloc, shelf, names.part, PART_LIMIT)?;
    let table = read_input(alloc, shelf, names.machine, MACHINE_LIMIT)?;
    let output = output_by(rt, alloc, text, &table, gate)?;
    match deliver(alloc, shelf, &output, names.cl, names.tape) {
        Ok(summary) => Ok(summary),
        Err(ShelfFault::Fault) => Err(Status::WriteFault),
        Err(ShelfFault::NoMemory) => Err(Status::NoMemory),
    }
}

/// What a text is compiled to for the machine of a table.
#[tactic(auto, using(crate::proofs::Outputs::output_is, crate::proofs::Outputs::few_records))]
fn output_by<G: Gate>(
    rt: &(impl Threads + Sync),
    alloc: Global,
    text: Vec<u8>,
    table: &[u8],
    gate: &G,
) -> Result<Output, Status>
    requires short { length table.now ≤ 65536 }
    ensures output { IfOk result (λ o. IsOutput text.items table.now (output_of o.machine o.records.items)) }
    ensures file { IfOk result (λ o. IsFile o.records.items) }
    ensures writable { IfOk result (λ o. IsWritable o.records.items) }
    ensures few { IfOk result (λ o. vertex_count o.records.items + length o.records.items ≤ 67108864) }
    ensures none { IfErr result (ComesToNone (output_due text.items table.now)) }
{
    let machine = machine_of(table)?;
    let Part { records, .. } = part_on(rt, alloc, text, &machine, gate)?;
    Ok(Output { records, machine })
}
