//! A half circle as one block: the tape of a machine that cuts arcs, and the plan of its records.

use apt_circular::{ArcAct, ArcHeld, ArcReader, plan_arcs};
use apt_control::ControlError;
use apt_plane::{Circ, Pt, Surface};
use apt_records::{Note, Position, Reach, Record, Vertices};
use apt_report::arc_lines;
use apt_tapecode::{Code, punch};
use apt_words::Side;
use std::alloc::{AllocError, Global};
use std::test::Fail;

/// From (0, 225000) to (0, -225000) about the origin, clockwise.
const TEXT: &str =
    "%\nN0001G70G90G94\nN0002G01X+00000000Y+00225000Z+00000000F0100\nN0003G02X+00000000Y-00225000Z+00000000I+00000000J-00225000F0100\nN0004M02\n";

const LINES: &str =
    "UNITS INCH\nCUT 0 225000 0 FEED 100\nARC CW 0 -225000 0 CENTRE 0 0 FEED 100\nEND\n";

fn punched(alloc: Global, text: &str) -> Result<Vec<u8>, AllocError> {
    let mut bytes = Vec::new(alloc);
    for ch in text.as_bytes() {
        bytes.push(punch(Code::Rs358, *ch).unwrap_or(0))?;
    }
    Ok(bytes)
}

/// The acts to which a control that cuts arcs runs a tape.
fn run(alloc: Global, text: &str) -> Result<Vec<ArcAct>, ControlError> {
    let tape = punched(alloc, text)?;
    ArcReader::new(alloc, Code::Rs358, ArcHeld::new())
        .feed(&tape)?
        .finish()
}

#[test]
fn runs_a_half_circle(rt: HostRuntime) -> Result<(), Fail> {
    let Ok(acts) = run(rt.alloc(), TEXT) else {
        assert!(rt; false);
        return Ok(());
    };
    assert!(rt; arc_lines(rt.alloc(), &acts)?.as_slice() == LINES.as_bytes());
    Ok(())
}

fn at(y: i64) -> Position {
    Position {
        xy: Pt { x: 0, y },
        z: 0,
    }
}

/// A move to where the half circle begins, and the half circle through one vertex more.
fn records(alloc: Global) -> Result<Vec<Record>, AllocError> {
    let circle = Surface::Circ(Circ {
        c: Pt { x: 0, y: 0 },
        r: 225_000,
    });
    let mut vertices = Vec::new(alloc);
    vertices.push(Pt { x: 225_000, y: 0 })?;
    vertices.push(at(-225_000).xy)?;
    let mut records = Vec::new(alloc);
    records.push(Record::Note(Note::Feed(100)))?;
    records.push(Record::Point(Reach::Goto, at(225_000)))?;
    records.push(Record::Drive {
        surface: circle,
        side: Side::On,
        sense: -1,
    })?;
    records.push(Record::Contour(Vertices::level(0, vertices)))?;
    records.push(Record::Note(Note::Fini))?;
    Ok(records)
}

#[test]
fn plans_a_half_circle(rt: HostRuntime) -> Result<(), Fail> {
    let acts = plan_arcs(rt.alloc(), &records(rt.alloc())?)?;
    assert!(rt; arc_lines(rt.alloc(), &acts)?.as_slice() == LINES.as_bytes());
    Ok(())
}
