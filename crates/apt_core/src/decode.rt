//! The command `decode`.

ghost use Rattle.std.specs.Prelude.{◌≡◌, ℕ, List, Ok};
ghost use Rattle.apt_machine.specs.declared.machine.Machine.{Machine};
ghost use Rattle.apt_machine.specs.Tables.{table_of};
ghost use Rattle.apt_core.specs.Decoding.{said_of, said_due, IsSaid};
ghost use Rattle.apt_core.specs.declared.taker.ActLines.{ActLines};
ghost use Rattle.apt_core.specs.Request.{tape_names};
ghost use Rattle.apt_core.specs.Inputs.{files_on};
ghost use Rattle.apt_tape.specs.Runs.{IsTaken};
ghost use Rattle.apt_tape.specs.Tapes.{run_on};
ghost use Rattle.apt_core.specs.Promise.{Decodes};

use crate::due::{machine_of, tape_answer};
use crate::put::Reply;
use crate::reading::{MACHINE_LIMIT, read_input, run_input, skip_input};
use crate::taker::ActLines;
use crate::words::TapeNames;
use apt_control::ControlError;
use apt_report::{Status, Summary};
use apt_shelf::Shelf;
use apt_tape::Taker;
use std::alloc::Global;

/// Reads the machine table and the tape, and gives the acts to which a control runs the tape.
pub(crate) fn decode<H: Shelf>(
    alloc: Global,
    shelf: &mut H,
    names: TapeNames<'_>,
) -> Result<Reply, Status>
    ensures { Decodes (tape_names names.entry) (files_on H.Shelf shelf.old) (files_on H.Shelf shelf.new) (said_of result) }
{
    let table = read_input(alloc, shelf, names.machine, MACHINE_LIMIT)?;
    match machine_of(&table) {
        Ok(machine) => {
            let none = ActLines::none(alloc);
            let run = run_input(alloc, shelf, names.tape, &machine, none)?;
            list_acts(run)
        }
        Err(answer) => {
            // a tape that can't be read is told before the table's fault
            skip_input(alloc, shelf, names.tape)?;
            Err(answer)
        }
    }
}

/// The lines of the acts to which a control ran a tape.
fn list_acts(run: Result<ActLines, ControlError>) -> Result<Reply, Status>
    ensures { (machine : Machine) (table tape : List ℕ) (none : ActLines) → table_of table ≡ Ok machine → IsTaken (⟦<ActLines as Taker>⟧.has none) (run_on machine tape) run → IsSaid (said_of (said_due table tape)) (said_of result) }
{
    match run {
        Ok(ActLines { text, acts }) => Ok(Reply {
            status: Status::Done(Summary::Decoded { acts }),
            lines: Some(text),
        }),
        Err(error) => Err(tape_answer(error)),
    }
}
