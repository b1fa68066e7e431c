//! The lines of a tape's acts.

ghost use Rattle.std.specs.Prelude.{◌≡◌, ◌≤◌, ◌+◌, ◌++◌, map, length, drop, codes, IfOk, OnOk};
ghost use Rattle.std.specs.Fmt.{signed_decimal};
ghost use Rattle.apt_report.specs.Acts as lines;

use apt_circular::ArcAct;
use apt_control::Act;
use apt_lines::{ROOM, push_from, whole_line, write_number, write_text};
use apt_tape::TapeAct;
use apt_words::{Command, Cool, Turn, Units};
use std::alloc::{AllocError, Global};

/// A line for each act, with its line feed. Coordinates are in grid units, feeds in tenths of an inch or of
/// a millimetre per minute, spindle speeds in turns per minute.
///
/// # Errors
///
/// Memory lacks.
#[tactic(auto, using(crate::proofs::ActLines::plain_lines))]
pub fn act_lines(alloc: Global, acts: &[Act]) -> Result<Vec<u8>, AllocError>
    ensures value { IfOk result (λ v. v.items ≡ lines.act_lines acts.now) }
{
    let mut text = Vec::new(alloc);
    push_lines(&mut text, acts)?;
    Ok(text)
}

/// A line for each act of a control that cuts arcs, with its line feed: for an arc its end, its centre and its feed.
///
/// # Errors
///
/// Memory lacks.
pub fn arc_lines(alloc: Global, acts: &[ArcAct]) -> Result<Vec<u8>, AllocError>
    ensures value { IfOk result (λ v. v.items ≡ lines.arc_lines acts.now) }
{
    let mut text = Vec::new(alloc);
    push_lines(&mut text, acts)?;
    Ok(text)
}

/// Appends the same lines to a text.
///
/// # Errors
///
/// Memory lacks.
pub fn push_lines<A: TapeAct>(text: &mut Vec<u8>, acts: &[A]) -> Result<(), AllocError>
    ensures { OnOk result (text.new.items ≡ text.old.items ++ lines.arc_lines (map A.arc acts.now)) }
{
    let mut room = [0u8; ROOM];
    'acts: for act in acts {
        let start = match act.as_plain() {
            Some(plain) => act_line(&mut room, plain),
            None => arc_act_line(&mut room, &act.as_arc()),
        };
        push_from(text, &room, start)?;
    }
    Ok(())
}

/// Writes the line of an act from its last character to its first, so that it ends where the room ends, and answers
/// where it starts.
#[inline(always)]
fn act_line(room: &mut [u8], act: &Act) -> usize
    requires { length room.old ≡ 192 }
    ensures start { result ≤ 192 }
    ensures line { drop result room.new ≡ lines.act_line act.now }
{
    match *act {
        Act::Units(Units::Inch) => whole_line(room, "UNITS INCH\n"),
        Act::Units(Units::Mm) => whole_line(room, "UNITS MM\n"),
        Act::Rapid { x, y, z } => {
            let end = whole_line(room, "\n");
            let at = write_place(room, end, x, y, z);
            write_text(room, at, "RAPID ")
        }
        Act::Cut { x, y, z, feed } => cut_line(room, x, y, z, feed),
        Act::Do(command) => command_line(room, command),
        Act::End => whole_line(room, "END\n"),
    }
}

fn command_line(room: &mut [u8], command: Command) -> usize
    requires { length room.old ≡ 192 }
    ensures start { result ≤ 192 }
    ensures line { drop result room.new ≡ lines.command_line command }
{
    match command {
        Command::Spindle(Turn::Cw, n) => number_line(room, "SPINDLE CW ", n),
        Command::Spindle(Turn::Ccw, n) => number_line(room, "SPINDLE CCW ", n),
        Command::Spindle(Turn::Off, _) => whole_line(room, "SPINDLE OFF\n"),
        Command::Coolant(Cool::Mist) => whole_line(room, "COOLANT MIST\n"),
        Command::Coolant(Cool::Flood) => whole_line(room, "COOLANT FLOOD\n"),
        Command::Coolant(Cool::Off) => whole_line(room, "COOLANT OFF\n"),
        Command::Tool(n) => number_line(room, "TOOL ", n),
        Command::Stop => whole_line(room, "STOP\n"),
        Command::OptStop => whole_line(room, "OPSTOP\n"),
    }
}

fn cut_line(room: &mut [u8], x: i64, y: i64, z: i64, feed: i64) -> usize
    requires { length room.old ≡ 192 }
    ensures start { result ≤ 192 }
    ensures line { drop result room.new ≡ lines.cut_line x y z feed }
{
    let end = whole_line(room, "\n");
    let at = write_number(room, end, feed);
    let at = write_text(room, at, " FEED ");
    let at = write_place(room, at, x, y, z);
    write_text(room, at, "CUT ")
}

/// Writes the line of an act of a control that cuts arcs in the same way.
fn arc_act_line(room: &mut [u8], act: &ArcAct) -> usize
    requires { length room.old ≡ 192 }
    ensures start { result ≤ 192 }
    ensures line { drop result room.new ≡ lines.arc_act_line act.now }
{
    match *act {
        ArcAct::Plain(act) => act_line(room, &act),
        ArcAct::Arc {
            turn,
            x,
            y,
            z,
            cx,
            cy,
            feed,
        } => {
            let end = whole_line(room, "\n");
            let at = write_number(room, end, feed);
            let at = write_text(room, at, " FEED ");
            let at = write_centre(room, at, cx, cy);
            let at = write_text(room, at, " CENTRE ");
            let at = write_place(room, at, x, y, z);
            write_text(room, at, turn_text(turn))
        }
    }
}

/// What the line of an arc begins with.
fn turn_text(turn: i8) -> &'static str
    ensures text { result.now ≡ lines.turn_text turn }
    ensures short { length result.now ≤ 8 }
{
    if turn == 1 { "ARC CCW " } else { "ARC CW " }
}

/// Writes a line of a short text and a number.
fn number_line(room: &mut [u8], text: &str, n: i64) -> usize
    requires room { length room.old ≡ 192 }
    requires short { length text.now ≤ 40 }
    ensures start { result ≤ 192 }
    ensures line { drop result room.new ≡ text.now ++ (signed_decimal n ++ codes "\n") }
{
    let end = whole_line(room, "\n");
    let at = write_number(room, end, n);
    write_text(room, at, text)
}

/// Writes the numbers of a place in front of what starts at `end`.
fn write_place(room: &mut [u8], end: usize, x: i64, y: i64, z: i64) -> usize
    requires room { 84 ≤ end }
    requires end { end ≤ length room.old }
    ensures start { (result ≤ end) × (end ≤ result + 65) }
    ensures written { drop result room.new ≡ signed_decimal x ++ (codes " " ++ (signed_decimal y ++ (codes " " ++ (signed_decimal z ++ drop end room.old)))) }
{
    let at = write_number(room, end, z);
    let at = write_text(room, at, " ");
    let at = write_number(room, at, y);
    let at = write_text(room, at, " ");
    write_number(room, at, x)
}

/// Writes the numbers of a centre in front of what starts at `end`.
fn write_centre(room: &mut [u8], end: usize, x: i64, y: i64) -> usize
    requires room { 62 ≤ end }
    requires end { end ≤ length room.old }
    ensures start { (result ≤ end) × (end ≤ result + 43) }
    ensures written { drop result room.new ≡ signed_decimal x ++ (codes " " ++ (signed_decimal y ++ drop end room.old)) }
{
    let at = write_number(room, end, y);
    let at = write_text(room, at, " ");
    write_number(room, at, x)
}
