//! Lines that are written from their last character to their first, into a room at whose end they end.
#![tactic(auto)]

ghost use Rattle.std.specs.Prelude.{◌≡◌, ◌≤◌, ◌+◌, ◌-◌, ◌++◌, length, drop, OnOk};
ghost use Rattle.std.specs.Fmt.{decimal, signed_decimal};
ghost use Rattle.apt_lines.specs.Decimals.{pointed, signed_pointed, blanks};

use itoa::write_digits;
use std::alloc::AllocError;

/// The room of a line: six numbers, of at most twenty characters each, and some thirty others.
pub const ROOM: usize = 192;

/// Appends what starts at a place of the room.
pub fn push_from(text: &mut Vec<u8>, room: &[u8], start: usize) -> Result<(), AllocError>
    requires { start ≤ length room.now }
    ensures { OnOk result (text.new.items ≡ text.old.items ++ drop start room.now) }
{
    text.extend_from_slice(&room[start..])
}

/// Writes a text that is a line, or the end of one.
#[tactic(auto, using(crate::proofs::Backwards::none_behind))]
pub fn whole_line(room: &mut [u8], text: &str) -> usize
    requires room { length room.old ≡ 192 }
    requires short { length text.now ≤ 192 }
    ensures start { result + length text.now ≡ 192 }
    ensures line { drop result room.new ≡ text.now }
{
    write_text(room, ROOM, text)
}

/// Writes a text in front of what starts at `end`, and answers where it starts.
pub fn write_text(room: &mut [u8], end: usize, text: &str) -> usize
    requires short { length text.now ≤ end }
    requires end { end ≤ length room.old }
    ensures start { result + length text.now ≡ end }
    ensures written { drop result room.new ≡ text.now ++ drop end room.old }
{
    let start = end - text.len();
    room[start..end].copy_from_slice(text.as_bytes());
    start
}

/// Writes blanks from a place on, if it stands in front of what starts at `end`.
pub fn write_blanks(room: &mut [u8], end: usize, place: usize) -> usize
    requires { end ≤ length room.old }
    ensures start { result + (end - place) ≡ end }
    ensures written { drop result room.new ≡ blanks (end - place) ++ drop end room.old }
{
    if end <= place {
        return end;
    }
    room[place..end].fill(b' ');
    place
}

/// Writes a number in front of what starts at `end`, and answers where it starts.
pub fn write_number(room: &mut [u8], end: usize, n: i64) -> usize
    requires room { 40 ≤ end }
    requires end { end ≤ length room.old }
    ensures start { (result ≤ end) × (end ≤ result + 21) }
    ensures written { drop result room.new ≡ signed_decimal n ++ drop end room.old }
{
    let start = write_digits(n.unsigned_abs(), room, end);
    if n >= 0 {
        return start;
    }
    room[start - 1] = b'-';
    start - 1
}

/// The same of a number whose last digits stand behind a point.
pub fn write_signed_pointed(room: &mut [u8], end: usize, decimals: usize, v: i64) -> usize
    requires room { 40 ≤ end }
    requires end { end ≤ length room.old }
    requires decimals { decimals ≤ 9 }
    ensures start { (result ≤ end) × (end ≤ result + 40) }
    ensures written { drop result room.new ≡ signed_pointed decimals v ++ drop end room.old }
{
    let start = write_pointed(room, end, decimals, v.unsigned_abs());
    if v >= 0 {
        return start;
    }
    room[start - 1] = b'-';
    start - 1
}

/// The same without a sign.
pub fn write_pointed(room: &mut [u8], end: usize, decimals: usize, n: u64) -> usize
    requires room { 40 ≤ end }
    requires end { end ≤ length room.old }
    requires decimals { decimals ≤ 9 }
    ensures start { (result ≤ end) × (end ≤ result + 30) }
    ensures written { drop result room.new ≡ pointed decimals n ++ drop end room.old }
{
    let mut left = n;
    let mut at = end;
    'decimals: for i in 0..decimals {
        at -= 1;
        room[at] = b'0' + (left % 10) as u8;
        left /= 10;
    }
    room[at - 1] = b'.';
    write_count(room, at - 1, left)
}

/// Writes a count in front of what starts at `end`, and answers where it starts.
pub fn write_count(room: &mut [u8], end: usize, n: u64) -> usize
    requires room { 20 ≤ end }
    requires end { end ≤ length room.old }
    ensures start { (result + length (decimal n) ≡ end) × (end ≤ result + 20) }
    ensures written { drop result room.new ≡ decimal n ++ drop end room.old }
{
    write_digits(n, room, end)
}
