//! Machine tables.

ghost use Rattle.std.specs.Prelude.{◌≡◌, ◌+◌, ◌≤◌, length, IfOk};
ghost use Rattle.std.specs.Result.{IfErr};
ghost use Rattle.apt_lexis.specs.Lines.{lines_of};
ghost use Rattle.apt_machine.specs.Keys.{blank_draft};
ghost use Rattle.apt_machine.specs.Machines.{IsMachine};
ghost use Rattle.apt_machine.specs.Spelling.{spelled};
ghost use Rattle.apt_machine.specs.Tables as tables;

use crate::draft::Draft;
use crate::line::behind_line;
use crate::version::{Version, version_of};
use crate::{Machine, MachineCause, MachineError};
use apt_lexis::{is_readable, next_line};

fn fault(line: u32, cause: MachineCause) -> MachineError
    ensures { result ≡ tables.fault line cause }
{
    MachineError { line, cause }
}

/// The machine of a table, a text of at most 65,536 bytes.
///
/// The first line is `MACHINE 1`, or `MACHINE 2`: then MODE, ZEROS, ARCS and DRILL are keys too. Where one of these
/// or WORDS is left out, the first of its values is taken.
///
/// # Errors
///
/// The cause of the first line, from 1, that has one, the first in this order: `Byte`; in the first line
/// `Header`; in every other that is not empty `Key`, `Twice`, `Value`. Where no line has one and a key that
/// can't be left out is absent, `Missing` at the number of the last line plus 1. An empty text is `Header` at
/// line 1.
pub fn table(bytes: &[u8]) -> Result<Machine, MachineError>
    requires short { length bytes.now ≤ 65536 }
    ensures value { result ≡ tables.table_of bytes.now }
    ensures spelled { (m : Machine) → IsMachine m → bytes.now ≡ spelled m → result ≡ Ok m }
    ensures range { IfOk result IsMachine }
    ensures place { IfErr result (λ e. tables.Stands (length (lines_of bytes.now)) e.line e.cause) }
{
    let Some((first, rest)) = next_line(bytes) else {
        return Err(fault(1, MachineCause::Header));
    };
    if !is_readable(first) {
        return Err(fault(1, MachineCause::Byte));
    }
    let Some(version) = version_of(first) else {
        return Err(fault(1, MachineCause::Header));
    };
    machine_of(version, rest)
}

/// The machine of the lines behind the first.
#[tactic(auto, using(crate::proofs::Places::of_line_stands))]
fn machine_of(version: Version, text: &[u8]) -> Result<Machine, MachineError>
    requires short { length text.now ≤ 65536 }
    ensures value { result ≡ tables.machine_from version 2 blank_draft (lines_of text.now) }
    ensures range { IfOk result IsMachine }
    ensures place { IfErr result (λ e. tables.Stands (1 + length (lines_of text.now)) e.line e.cause) }
{
    let mut draft = Draft::blank();
    let mut line = 2;
    let mut rest = text;
    'lines: while let Some((first, after)) = next_line(rest) {
        draft = behind_line(version, draft, first).map_err(|cause| fault(line, cause))?;
        line += 1;
        rest = after;
    }
    draft.machine().ok_or(fault(line, MachineCause::Missing))
}
