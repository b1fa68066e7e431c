//! Tapes that a control runs. Those that it refuses are rows.

use apt_control::{Act, read_tape};
use apt_tapecode::{Code, punch};
use apt_words::{Command, Cool, Turn, Units};
use std::alloc::{AllocError, AllocGlobal, Global};
use std::process::Abort;
use std::test::Fail;

fn punched(alloc: Global, code: Code, text: &str) -> Result<Vec<u8>, AllocError> {
    let mut bytes = Vec::new(alloc);
    for ch in text.as_bytes() {
        bytes.push(punch(code, *ch).unwrap_or(0))?;
    }
    Ok(bytes)
}

/// A tape is run to these acts.
fn assert_runs<R: Abort + AllocGlobal>(rt: &R, code: Code, tape: &[u8], want: &[Act]) {
    let is_run = match read_tape(rt.alloc(), code, tape) {
        Ok(acts) => acts.as_slice() == want,
        Err(_) => false,
    };
    assert!(rt; is_run);
}

/// Texts of tapes, and what they have the machine do.
const RUNS: [(&str, &[Act]); 3] = [
    (
        "0%\nN0001G70G90G94\nG01X+00100000Y-00200000Z+00300000F0100\nX+00000007\nG00Z+00000000\nM02\n%",
        &[
            Act::Units(Units::Inch),
            Act::Cut {
                x: 100_000,
                y: -200_000,
                z: 300_000,
                feed: 100,
            },
            Act::Cut {
                x: 7,
                y: -200_000,
                z: 300_000,
                feed: 100,
            },
            Act::Rapid {
                x: 7,
                y: -200_000,
                z: 0,
            },
            Act::End,
        ],
    ),
    (
        "%G71G90\nG01X1Y-2Z3F100\nG91X40000000\nY+0\nG00X-1Z-4M08\nG90G70X7\nG01Y8\nM02\n",
        &[
            Act::Units(Units::Mm),
            Act::Cut {
                x: 1,
                y: -2,
                z: 3,
                feed: 100,
            },
            Act::Cut {
                x: 40_000_001,
                y: -2,
                z: 3,
                feed: 100,
            },
            Act::Cut {
                x: 40_000_001,
                y: -2,
                z: 3,
                feed: 100,
            },
            Act::Do(Command::Coolant(Cool::Flood)),
            Act::Rapid {
                x: 40_000_000,
                y: -2,
                z: -1,
            },
            Act::Units(Units::Inch),
            Act::Rapid { x: 7, y: -2, z: -1 },
            Act::Cut {
                x: 7,
                y: 8,
                z: -1,
                feed: 100,
            },
            Act::End,
        ],
    ),
    (
        "%G71\nS0700M03\nS0008M04\nM05\nT09M06\nM07\nM08\nM09\nM00\nM01\nM02\n",
        &[
            Act::Units(Units::Mm),
            Act::Do(Command::Spindle(Turn::Cw, 700)),
            Act::Do(Command::Spindle(Turn::Ccw, 8)),
            Act::Do(Command::Spindle(Turn::Off, 0)),
            Act::Do(Command::Tool(9)),
            Act::Do(Command::Coolant(Cool::Mist)),
            Act::Do(Command::Coolant(Cool::Flood)),
            Act::Do(Command::Coolant(Cool::Off)),
            Act::Do(Command::Stop),
            Act::Do(Command::OptStop),
            Act::End,
        ],
    ),
];

#[test]
fn runs_tapes(rt: HostRuntime) -> Result<(), Fail> {
    for &(text, acts) in &RUNS {
        for code in [Code::Rs244, Code::Rs358] {
            let tape = punched(rt.alloc(), code, text)?;
            assert_runs(&rt, code, &tape, acts);
        }
    }
    Ok(())
}
