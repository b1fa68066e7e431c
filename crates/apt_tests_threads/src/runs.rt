//! Runs of the program over files in memory, through gates.

use crate::gates::{Counts, Meeting};
use apt_core::{Gate, Status, apt};
use apt_shelf::{FailList, MemShelf, MemSink};
use std::alloc::{AllocError, AllocGlobal, Global};
use std::process::Abort;
use std::test::Fail;
use std::thread::Threads;

/// Two circles, round each of which two contours run: four arcs.
const CIRCLES: &str =
    "PARTNO CIRCLES\nCUTTER/.5\nFEDRAT/10\nFROM/-5,-5,.5\nTLRGT\nC=CIRCLE/0,0,1\nL=LINE/0,0,1,0\nGOTO/2,0,.5\nGO/TO,C\nGORGT/C,ON,L\nGOFWD/C,ON,L\nD=CIRCLE/10,0,1\nM=LINE/10,0,11,0\nGOTO/12,0,.5\nGO/TO,D\nGORGT/D,ON,M\nGOFWD/D,ON,M\nFINI\n";

const MACHINE: &str = "MACHINE 1\nCODE RS358\nSEQ 1\nFEEDMAX 9999\nSPINMAX 9999\nTOOLMAX 99\n";

/// A file of a text.
fn file(alloc: Global, name: &str, text: &str) -> Result<(String, Vec<u8>), AllocError> {
    let name = String::from_str(alloc, name)?;
    let bytes = Vec::from_slice(alloc, text.as_bytes())?;
    Ok((name, bytes))
}

/// A store with the part and a machine table.
fn stored(alloc: Global) -> Result<MemShelf, Fail> {
    let part = file(alloc, "PART", CIRCLES)?;
    let machine = file(alloc, "MACHINE", MACHINE)?;
    let files = vec![in alloc; part, machine]?;
    Ok(MemShelf::new(alloc, files, FailList::none(alloc))?)
}

/// The number of the answer to words, through a gate.
fn answer<R: Threads + Sync + AllocGlobal, G: Gate>(
    rt: &R,
    shelf: &mut MemShelf,
    words: &str,
    gate: &G,
) -> Result<u8, Fail> {
    let alloc = rt.alloc();
    let mut list = Vec::new(alloc);
    for word in words.split(' ') {
        list.push(String::from_str(alloc, word)?)?;
    }
    let mut out = MemSink::new(alloc, Vec::new(alloc));
    Ok(apt(rt, alloc, &list, shelf, &mut out, gate).number())
}

/// The part is compiled through one gate, and certified through another.
fn assert_runs<R: Threads + Sync + Abort + AllocGlobal, G: Gate>(
    rt: &R,
    compiling: &G,
    certifying: &G,
) -> Result<(), Fail> {
    let mut shelf = stored(rt.alloc())?;
    let compiled = answer(rt, &mut shelf, "compile PART MACHINE CL TAPE", compiling)?;
    assert_eq!(rt; compiled, 0);
    let certified = answer(rt, &mut shelf, "certify PART MACHINE CL TAPE", certifying)?;
    assert_eq!(rt; certified, 0);
    Ok(())
}

#[test]
fn arcs_are_divided_and_contours_judged_at_one_time(rt: HostRuntime) -> Result<(), Fail> {
    let (arcs, contours) = (Meeting::new(), Meeting::new());
    assert_runs(&rt, &arcs, &contours)?;
    assert_eq!(rt; arcs.told(), [1, 1, 0]);
    assert_eq!(rt; contours.told(), [1, 1, 0]);
    Ok(())
}

#[test]
fn each_arc_and_each_contour_is_told_once(rt: HostRuntime) -> Result<(), Fail> {
    let (arcs, contours) = (Counts::new(), Counts::new());
    assert_runs(&rt, &arcs, &contours)?;
    assert_eq!(rt; arcs.told(), 1_010_101);
    assert_eq!(rt; contours.told(), 1_010_101);
    Ok(())
}

/// `demo` divides its four arcs first, and then judges its four contours.
#[test]
fn demo_tells_of_arcs_and_contours(rt: HostRuntime) -> Result<(), Fail> {
    let mut shelf = stored(rt.alloc())?;
    let gate = Counts::new();
    assert_eq!(rt; answer(&rt, &mut shelf, "demo 2", &gate)?, 0);
    assert_eq!(rt; gate.told(), 2_020_202);
    Ok(())
}

/// No row has it: memory does not run out there.
#[test]
fn memory_has_a_number(rt: HostRuntime) {
    assert_eq!(rt; Status::NoMemory.number(), 12);
}
