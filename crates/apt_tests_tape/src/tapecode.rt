//! The rows of holes of characters, in both codes.

use crate::rows::assert_all;
use apt_tapecode::{Code, Read, punch, sense};

/// The head of a tape, "%\nN0001G70G90G94\n", and the letters of circles and holes, with their rows in RS-244 and in
/// RS-358.
const CHARACTERS: [(u8, u8, u8); 20] = [
    (b'%', 0x0b, 0xa5),
    (b'\n', 0x80, 0x0a),
    (b'N', 0x45, 0x4e),
    (b'0', 0x20, 0x30),
    (b'0', 0x20, 0x30),
    (b'0', 0x20, 0x30),
    (b'1', 0x01, 0xb1),
    (b'G', 0x67, 0x47),
    (b'7', 0x07, 0xb7),
    (b'0', 0x20, 0x30),
    (b'G', 0x67, 0x47),
    (b'9', 0x19, 0x39),
    (b'0', 0x20, 0x30),
    (b'G', 0x67, 0x47),
    (b'9', 0x19, 0x39),
    (b'4', 0x04, 0xb4),
    (b'\n', 0x80, 0x0a),
    (b'I', 0x79, 0xc9),
    (b'J', 0x51, 0xca),
    (b'R', 0x49, 0xd2),
];

fn is_punched(code: Code, ch: u8, byte: u8) -> bool {
    punch(code, ch) == Some(byte) && sense(code, byte) == Read::Char(ch)
}

fn are_punched(row: &(u8, u8, u8)) -> bool {
    let (ch, rs244, rs358) = *row;
    is_punched(Code::Rs244, ch, rs244) && is_punched(Code::Rs358, ch, rs358)
}

#[test]
fn punches_and_senses(rt: HostRuntime) {
    assert_all(&rt, &CHARACTERS, are_punched);
}

/// What all bytes are read as, in rows of sixteen: a character, of which LF stands as `/`, or `.` for a byte
/// that is skipped, `p` for one of bad parity and `c` for one of no character.
const ALL_244: [&[u8]; 16] = [
    b".12p4pp78pp%pccp",
    b".pp3p56pp9cpcppc",
    b"0ppTpccppZcpcppc",
    b"pcSpcppXYppcpc.p",
    b"-ppcpNcppRcpcppc",
    b"pJcpMppccppcpccp",
    b"pccpcppGcppcpccp",
    b"+ppcpcFppIcpcpp.",
    b"/ppcpccppccpcppc",
    b"pccpcppccppcpccp",
    b"pccpcppccppcpccp",
    b"cppcpccppccpcppc",
    b"pccpcppccppcpccp",
    b"cppcpccppccpcppc",
    b"cppcpccppccpcppc",
    b"pccpcppccppcpccp",
];

const ALL_358: [&[u8]; 16] = [
    b".ppcpccpp./pcppc",
    b"pccpcppccppcpccp",
    b"pccpcppccpp+p-cp",
    b"0pp3p56pp9cpcppc",
    b"pccpcppGcppcpMNp",
    b"cppSpccppYZpcppc",
    b"cppcpccppccpcppc",
    b"pccpcppccppcpccp",
    b"pccpcppccppcp.cp",
    b"cppcpccppccpcppc",
    b".ppcp%cppccpcppc",
    b"p12p4pp78ppcpccp",
    b"cppcpcFppIJpcppc",
    b"pcRpTppcXppcpccp",
    b"pccpcppccppcpccp",
    b"cppcpccppccpcpp.",
];

fn read_of(letter: u8) -> Read {
    match letter {
        b'.' => Read::Skip,
        b'p' => Read::BadParity,
        b'c' => Read::BadCode,
        b'/' => Read::Char(b'\n'),
        ch => Read::Char(ch),
    }
}

fn wanted(rows: &[&[u8]], byte: u8) -> Option<Read> {
    let row = rows.get((byte / 16) as usize)?;
    let letter = row.get((byte % 16) as usize)?;
    Some(read_of(*letter))
}

#[test]
fn reads_every_byte(rt: HostRuntime) {
    for byte in 0..=255u8 {
        let read = sense(Code::Rs244, byte);
        assert!(rt; wanted(&ALL_244, byte) == Some(read), "at {byte}");
        let read = sense(Code::Rs358, byte);
        assert!(rt; wanted(&ALL_358, byte) == Some(read), "at {byte}");
    }
}
