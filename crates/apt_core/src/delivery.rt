//! The writing of a CL file and of its tape.

ghost use Rattle.std.specs.Prelude.{◌≡◌, ◌+◌, ◌≤◌, length, IfOk, OnOk, OnErr, IsErrOf};
ghost use Rattle.std.specs.FinMap.{insert};
ghost use Rattle.apt_shelf.specs.Files.{WritesPrefix};
ghost use Rattle.apt_shelf.specs.Told.{Rose, Steps};
ghost use Rattle.apt_records.specs.Lists.{IsFile};
ghost use Rattle.apt_records.specs.Ranges.{vertex_count};
ghost use Rattle.apt_tape.specs.Tapes.{IsWritable};
ghost use Rattle.apt_core.specs.Delivery.{with_output, WritesFront};
ghost use Rattle.apt_core.specs.Outputs.{output_of};

use apt_cldata::ClBytes;
use apt_machine::Machine;
use apt_post::{Counts, Piece};
use apt_records::Record;
use apt_report::Summary;
use apt_shelf::{Pieces, Shelf, ShelfFault};
use apt_tape::{Tape, counts_on};
use std::alloc::Global;

/// The room for the records that are written next, in bytes. More is taken only for a record that is longer.
const ROOM: usize = 20_480;

/// The records of a part, and the machine for which its tape is.
#[derive(Drop)]
pub(crate) struct Output {
    pub records: Vec<Record>,
    pub machine: Machine,
}

/// Writes the CL file whole, and then the tape.
#[tactic(auto, using(crate::proofs::Deliveries::cl_cut, crate::proofs::Deliveries::tape_cut, crate::proofs::Deliveries::both_whole))]
pub(crate) fn deliver<H: Shelf>(
    alloc: Global,
    shelf: &mut H,
    output: &Output,
    cl: &str,
    tape: &str,
) -> Result<Summary, ShelfFault>
    requires file { IsFile output.now.records.items }
    requires writable { IsWritable output.now.records.items }
    requires few { vertex_count output.now.records.items + length output.now.records.items ≤ 67108864 }
    ensures told { IfOk result (λ summary. summary ≡ (output_of output.now.machine output.now.records.items).summary) }
    ensures whole { OnOk result (Steps (with_output cl.now tape.now (output_of output.now.machine output.now.records.items)) (H.told shelf.old) (H.told shelf.new)) }
    ensures front { OnErr result (WritesFront cl.now tape.now (output_of output.now.machine output.now.records.items) (H.told shelf.old) (H.told shelf.new)) }
    ensures fault { IsErrOf result ShelfFault.Fault → Rose (H.write_faults shelf.old) (H.write_faults shelf.new) }
    ensures later { H.write_faults shelf.old ≤ H.write_faults shelf.new }
    ensures read_faults { H.read_faults shelf.new ≡ H.read_faults shelf.old }
{
    let records = output.records.as_slice();
    let Counts { acts, segments } = counts_on(records, &output.machine);
    write_cl(alloc, shelf, cl, ClBytes::of(records))?;
    write_tape(shelf, tape, Tape::of(records, &output.machine))?;
    Ok(Summary::Compiled {
        records: records.len() as u64,
        acts,
        segments,
    })
}

/// Writes a CL file piece by piece, so that a long one is never in memory as a whole. After a refusal the name is as
/// before, or holds a front part of the file.
fn write_cl<H: Shelf>(
    alloc: Global,
    shelf: &mut H,
    name: &str,
    file: ClBytes<'_>,
) -> Result<(), ShelfFault>
    ensures ok { OnOk result (Steps (λ m. insert m name.now file.entry) (H.told shelf.old) (H.told shelf.new)) }
    ensures err { OnErr result (WritesPrefix name.now file.entry (H.told shelf.old) (H.told shelf.new)) }
    ensures fault { IsErrOf result ShelfFault.Fault → Rose (H.write_faults shelf.old) (H.write_faults shelf.new) }
    ensures later { H.write_faults shelf.old ≤ H.write_faults shelf.new }
    ensures read_faults { H.read_faults shelf.new ≡ H.read_faults shelf.old }
{
    let mut records = Vec::with_capacity(alloc, ROOM)?;
    let mut pieces = Pieces::new();
    let mut left = file;
    shelf.start_write(name)?;
    'pieces: while !left.is_empty() {
        left.take_piece(&mut records)?;
        pieces.push(shelf, &records)?;
    }
    pieces.finish(shelf)?;
    Ok(())
}

/// Writes a tape in the same way.
fn write_tape<H: Shelf>(shelf: &mut H, name: &str, tape: Tape<'_>) -> Result<(), ShelfFault>
    ensures ok { OnOk result (Steps (λ m. insert m name.now tape.entry) (H.told shelf.old) (H.told shelf.new)) }
    ensures err { OnErr result (WritesPrefix name.now tape.entry (H.told shelf.old) (H.told shelf.new)) }
    ensures fault { IsErrOf result ShelfFault.Fault → Rose (H.write_faults shelf.old) (H.write_faults shelf.new) }
    ensures later { H.write_faults shelf.old ≤ H.write_faults shelf.new }
    ensures read_faults { H.read_faults shelf.new ≡ H.read_faults shelf.old }
{
    let mut blocks = Piece::new();
    let mut pieces = Pieces::new();
    let mut left = tape;
    shelf.start_write(name)?;
    'pieces: while left.take_piece(&mut blocks) {
        pieces.push(shelf, &blocks)?;
    }
    pieces.finish(shelf)?;
    Ok(())
}
