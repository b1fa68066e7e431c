//! The command `demo`.

ghost use Rattle.std.specs.Prelude.{◌≡◌, ◌≤◌, length, IfOk};
ghost use Rattle.apt_demo.specs.Demo.{demo_part};
ghost use Rattle.apt_demo.specs.Promise.{demo_machine, HasRecords};
ghost use Rattle.apt_core.specs.Demo.{shown_for, IsDemo, HoldsDemo};
ghost use Rattle.apt_core.specs.Due.{answer_of, OrNoMemory};

use crate::certify::certify;
use crate::compile::compile;
use crate::put::status_of;
use crate::words::Names;
use apt_certify::Gate;
use apt_demo::demo_part;
use apt_report::{Status, Summary};
use apt_shelf::{Shelf, SureShelf};
use std::alloc::{AllocError, Global};
use std::thread::Threads;

/// The table of the machine with the greatest limits.
const TABLE: &str = "MACHINE 1\nCODE RS358\nSEQ 1\nFEEDMAX 9999\nSPINMAX 9999\nTOOLMAX 99\n";

/// The names in the store that the command makes for itself.
const NAMES: Names<'static> = Names {
    part: "PART",
    machine: "MACHINE",
    cl: "CL",
    tape: "TAPE",
};

/// Compiles the part of so many circles, and judges what came of it, over a store in memory.
pub(crate) fn demo<G: Gate>(
    rt: &(impl Threads + Sync),
    alloc: Global,
    n: u32,
    gate: &G,
) -> Result<Summary, Status>
    requires { (1 ≤ n) × (n ≤ 800) }
    ensures { OrNoMemory (IsDemo n (answer_of result)) (answer_of result) }
{
    let mut store = store_of(alloc, n)?;
    match status_of(compile(rt, alloc, &mut store, NAMES, gate)) {
        Status::Done(_) => demo_answer(n, status_of(certify(rt, alloc, &mut store, NAMES, gate))),
        fault => Err(fault),
    }
}

/// A store with the part and the table.
fn store_of(alloc: Global, n: u32) -> Result<SureShelf, AllocError>
    requires { (1 ≤ n) × (n ≤ 800) }
    ensures holds { IfOk result (λ store. HoldsDemo n (⟦<SureShelf as Shelf>⟧.told store)) }
    ensures short { IfOk result (λ _. length (demo_part n) ≤ 4194304) }
    ensures records { IfOk result (λ _. HasRecords demo_machine (demo_part n)) }
{
    let part = (String::from_str(alloc, NAMES.part)?, demo_part(alloc, n)?);
    let table = (
        String::from_str(alloc, NAMES.machine)?,
        Vec::from_slice(alloc, TABLE.as_bytes())?,
    );
    let mut files = Vec::new(alloc);
    files.push(part)?;
    files.push(table)?;
    SureShelf::new(alloc, files)
}

/// The answer of a certificate, as it is shown.
fn demo_answer(n: u32, answer: Status) -> Result<Summary, Status>
    ensures { answer_of result ≡ shown_for n answer }
{
    match answer {
        Status::Done(Summary::Certified(verdict)) => Ok(Summary::Demo { n, verdict }),
        other => Err(other),
    }
}
