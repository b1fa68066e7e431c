//! The calls over whole lists of acts, which the program writes one after the other. Its tapes are rows.

use apt_block::Block;
use apt_control::Act;
use apt_machine::Machine;
use apt_post::{blocks, plan, tape};
use apt_records::{Note, Record};
use apt_tapecode::Code;
use apt_words::{Command, Units};
use std::alloc::{AllocError, Global};
use std::test::Fail;

fn machine(code: Code, seq: u16) -> Machine {
    Machine {
        code,
        seq,
        feedmax: 9999,
        spinmax: 9999,
        toolmax: 99,
        changed: false,
        incremental: false,
        short: false,
        circles: false,
        cycles: false,
    }
}

/// The tape without a move, in both codes.
const EMPTY: [(Code, [u8; 26]); 2] = [
    (
        Code::Rs358,
        [
            0xa5, 0x0a, 0x4e, 0x30, 0x30, 0x30, 0xb1, 0x47, 0xb7, 0x30, 0x47, 0x39, 0x30, 0x47,
            0x39, 0xb4, 0x0a, 0x4e, 0x30, 0x30, 0x30, 0xb2, 0x4d, 0x30, 0xb2, 0x0a,
        ],
    ),
    (
        Code::Rs244,
        [
            0x0b, 0x80, 0x45, 0x20, 0x20, 0x20, 0x01, 0x67, 0x07, 0x20, 0x67, 0x19, 0x20, 0x67,
            0x19, 0x04, 0x80, 0x45, 0x20, 0x20, 0x20, 0x02, 0x54, 0x20, 0x02, 0x80,
        ],
    ),
];

fn empty_tape(alloc: Global, code: Code) -> Result<Vec<u8>, AllocError> {
    let acts = [Act::Units(Units::Inch), Act::End];
    tape(alloc, &acts, &machine(code, 1))
}

#[test]
fn writes_an_empty_tape(rt: HostRuntime) -> Result<(), Fail> {
    for (code, want) in &EMPTY {
        let bytes = empty_tape(rt.alloc(), *code)?;
        assert!(rt; bytes.as_slice() == want.as_slice());
    }
    Ok(())
}

/// A tool and a move that stand alone, as blocks.
fn two_blocks(alloc: Global) -> Result<Vec<Block>, AllocError> {
    let acts = [Act::Do(Command::Tool(7)), Act::Rapid { x: 1, y: -2, z: 3 }];
    blocks(alloc, &acts, &machine(Code::Rs358, 0))
}

#[test]
fn gives_the_blocks_of_any_acts(rt: HostRuntime) -> Result<(), Fail> {
    assert_eq!(rt; two_blocks(rt.alloc())?.len(), 2);
    Ok(())
}

/// The acts of records that only end.
fn least_plan(alloc: Global) -> Result<Vec<Act>, AllocError> {
    plan(alloc, &[Record::Note(Note::Fini)])
}

#[test]
fn plans_the_end(rt: HostRuntime) -> Result<(), Fail> {
    let acts = least_plan(rt.alloc())?;
    let want = [Act::Units(Units::Inch), Act::End];
    assert!(rt; acts.as_slice() == want.as_slice());
    Ok(())
}
