//! The bytes of a record: its words behind their length.
ghost use Rattle.std.specs.Prelude.{◌≡◌, pos, [], ◌∷◌, ◌++◌, ◌+◌, ◌-◌, ◌*◌, ◌^◌, ◌<◌, ◌≤◌, length, map, vec_len, vec_capacity, OnOk};
ghost use Rattle.std.specs.List.{flat_map};
ghost use Rattle.apt_records.specs.Lists.{IsShort};
ghost use Rattle.apt_cldata.specs.Files as files;
ghost use Rattle.apt_records.specs.Lists as lists;
ghost use Rattle.apt_records.specs.Words as spec;
ghost use Rattle.apt_records.specs.Vertices.{at_height};

use crate::bytes::{push_length, push_word};
use apt_plane::{Pt, Surface};
use apt_records::{Note, Position, Reach, Record, VertexSlice};
use apt_words::{Command, Cool, Side, Stop, Turn, Units};
use std::alloc::AllocError;

/// Appends a record with its number; after a refusal a part of it may stand there.
#[tactic(auto, using(apt_records::proofs::Lengths::triples_length))]
pub(crate) fn push_record(bytes: &mut Vec<u8>, seq: u64, said: &Record) -> Result<(), AllocError>
    requires short { IsShort said.now }
    requires number { seq < 2 ^ 63 }
    ensures { OnOk result (bytes.new.items ≡ bytes.old.items ++ files.record_bytes seq said.now) }
{
    let seq = seq as i64;
    match said {
        Record::Statement { line, step } => {
            let (line, step) = (row(i64::from(*line)), row(i64::from(*step)));
            push_rows(bytes, &[row(seq), row(1000), row(0), line, step])
        }
        Record::Note(note) => push_note(bytes, seq, note),
        Record::Drive {
            surface,
            side,
            sense,
        } => {
            let [kind, a, b, c, d] = surface_rows(surface);
            let (side, sense) = (row(side_word(*side)), row(i64::from(*sense)));
            let rows = [row(seq), row(3000), row(1), kind, a, b, c, d, side, sense];
            push_rows(bytes, &rows)
        }
        Record::Check { surface, how } => {
            let [kind, a, b, c, d] = surface_rows(surface);
            let how = row(stop_word(*how));
            push_rows(bytes, &[row(seq), row(3000), row(2), kind, a, b, c, d, how])
        }
        Record::Point(reach, to) => {
            let [x, y, z] = position_rows(*to);
            let reach = row(reach_word(*reach));
            push_rows(bytes, &[row(seq), row(5000), reach, x, y, z])
        }
        Record::Contour(vertices) => push_contour(bytes, seq, &vertices.all()),
    }
}

/// A word's bytes.
#[tactic(auto, unfolding(crate::specs::Files::word_bytes))]
fn row(word: i64) -> [u8; 8]
    ensures { result ≡ files.word_bytes word }
{
    word.to_be_bytes()
}

/// Appends words, each by its bytes, behind their length.
fn push_rows(bytes: &mut Vec<u8>, rows: &[[u8; 8]]) -> Result<(), AllocError>
    requires { 8 * length rows.now < 2 ^ 32 }
    ensures { OnOk result (bytes.new.items ≡ bytes.old.items ++ (files.length_bytes (8 * length rows.now) ++ flat_map (λ row. row) rows.now)) }
{
    bytes.reserve(4 + 8 * rows.len())?;
    push_length(bytes, 8 * rows.len() as u32);
    bytes.extend_from_slice(rows.as_flattened())
}

fn push_command(bytes: &mut Vec<u8>, seq: i64, command: Command) -> Result<(), AllocError>
    ensures { OnOk result (bytes.new.items ≡ bytes.old.items ++ files.framed (seq ∷ spec.command_words command)) }
{
    match command {
        Command::Stop => push_rows(bytes, &[row(seq), row(2000), row(3)]),
        Command::OptStop => push_rows(bytes, &[row(seq), row(2000), row(4)]),
        Command::Spindle(turn, n) => {
            let (n, turn) = (row(n), row(turn_word(turn)));
            push_rows(bytes, &[row(seq), row(2000), row(7), n, turn])
        }
        Command::Coolant(cool) => {
            let cool = row(cool_word(cool));
            push_rows(bytes, &[row(seq), row(2000), row(8), cool])
        }
        Command::Tool(n) => push_rows(bytes, &[row(seq), row(2000), row(9), row(n)]),
    }
}

fn push_note(bytes: &mut Vec<u8>, seq: i64, note: &Note) -> Result<(), AllocError>
    requires short { 8 * (1 + length (spec.note_words note.now)) ≤ lists.most_bytes }
    ensures { OnOk result (bytes.new.items ≡ bytes.old.items ++ files.framed (seq ∷ spec.note_words note.now)) }
{
    match note {
        Note::Partno(text) => push_partno(bytes, seq, &text.bytes),
        Note::Rapid => push_rows(bytes, &[row(seq), row(2000), row(2)]),
        Note::Do(command) => push_command(bytes, seq, *command),
        Note::End => push_rows(bytes, &[row(seq), row(2000), row(5)]),
        Note::Feed(tenths) => push_rows(bytes, &[row(seq), row(2000), row(6), row(*tenths)]),
        Note::Cutter(d) => push_rows(bytes, &[row(seq), row(6000), row(1), row(*d)]),
        Note::Intol(t) => push_rows(bytes, &[row(seq), row(6000), row(2), row(*t)]),
        Note::Outtol(t) => push_rows(bytes, &[row(seq), row(6000), row(3), row(*t)]),
        Note::Units(units) => {
            let units = row(units_word(*units));
            push_rows(bytes, &[row(seq), row(6000), row(4), units])
        }
        Note::Fini => push_rows(bytes, &[row(seq), row(14_000), row(0)]),
    }
}

/// Appends the length of so many words and the first of them, and makes room for the others.
fn push_front(bytes: &mut Vec<u8>, count: usize, words: &[i64]) -> Result<(), AllocError>
    requires most { 8 * count < 2 ^ 32 }
    requires least { length words.now ≤ count }
    ensures value { OnOk result (bytes.new.items ≡ bytes.old.items ++ (files.length_bytes (8 * count) ++ flat_map files.word_bytes words.now)) }
    ensures room { OnOk result (vec_len bytes.new + 8 * (count - length words.now) ≤ vec_capacity bytes.new) }
{
    bytes.reserve(4 + 8 * count)?;
    push_length(bytes, 8 * count as u32);
    'words: for word in words {
        push_word(bytes, *word);
    }
    Ok(())
}

/// Appends PARTNO with its text, of which each byte is a word.
fn push_partno(bytes: &mut Vec<u8>, seq: i64, text: &[u8]) -> Result<(), AllocError>
    requires short { 8 * (3 + length text.now) < 2 ^ 32 }
    ensures { OnOk result (bytes.new.items ≡ bytes.old.items ++ files.framed (seq ∷ pos 2000 ∷ pos 1 ∷ map pos text.now)) }
{
    push_front(bytes, 3 + text.len(), &[seq, 2000, 1])?;
    'bytes: for byte in text {
        push_word(bytes, i64::from(*byte));
    }
    Ok(())
}

/// Appends a contour with its vertices, each of three words.
fn push_contour(bytes: &mut Vec<u8>, seq: i64, vertices: &VertexSlice<'_>) -> Result<(), AllocError>
    requires short { 8 * (3 + 3 * length vertices.now) < 2 ^ 32 }
    ensures { OnOk result (bytes.new.items ≡ bytes.old.items ++ files.framed (seq ∷ pos 5000 ∷ pos 5 ∷ flat_map spec.position_words vertices.now)) }
{
    let (z, level, apart) = vertices.parts();
    if let ([], [vertex]) = (level, apart) {
        let [x, y, z] = position_rows(*vertex);
        return push_rows(bytes, &[row(seq), row(5000), row(5), x, y, z]);
    }
    push_front(bytes, 3 + 3 * vertices.len(), &[seq, 5000, 5])?;
    push_level(bytes, z, level);
    push_apart(bytes, apart);
    Ok(())
}

/// Appends the words of points at a height, for which there is room.
fn push_level(bytes: &mut Vec<u8>, z: i64, points: &[Pt])
    requires { vec_len bytes.old + 24 * length points.now ≤ vec_capacity bytes.old }
    ensures value { bytes.new.items ≡ bytes.old.items ++ flat_map files.position_bytes (map (at_height z) points.now) }
    ensures len { vec_len bytes.new ≡ vec_len bytes.old + 24 * length points.now }
    ensures capacity { vec_capacity bytes.new ≡ vec_capacity bytes.old }
{
    'points: for p in points {
        push_position(bytes, Position { xy: *p, z });
    }
}

/// Appends the words of positions, for which there is room.
fn push_apart(bytes: &mut Vec<u8>, positions: &[Position])
    requires { vec_len bytes.old + 24 * length positions.now ≤ vec_capacity bytes.old }
    ensures value { bytes.new.items ≡ bytes.old.items ++ flat_map files.position_bytes positions.now }
    ensures len { vec_len bytes.new ≡ vec_len bytes.old + 24 * length positions.now }
    ensures capacity { vec_capacity bytes.new ≡ vec_capacity bytes.old }
{
    'positions: for p in positions {
        push_position(bytes, *p);
    }
}

/// Appends the three words of a position, for which there is room.
fn push_position(bytes: &mut Vec<u8>, p: Position)
    requires { vec_len bytes.old + 24 ≤ vec_capacity bytes.old }
    ensures value { bytes.new.items ≡ bytes.old.items ++ files.position_bytes p }
    ensures len { vec_len bytes.new ≡ vec_len bytes.old + 24 }
    ensures capacity { vec_capacity bytes.new ≡ vec_capacity bytes.old }
{
    push_word(bytes, p.xy.x);
    push_word(bytes, p.xy.y);
    push_word(bytes, p.z);
}

/// A surface's kind and its four numbers, each by its bytes.
fn surface_rows(surface: &Surface) -> [[u8; 8]; 5]
    ensures { result ≡ map files.word_bytes (spec.surface_words surface.now) }
{
    match surface {
        Surface::Line(l) => {
            let (base, dir) = (l.base, l.dir);
            [row(1), row(base.x), row(base.y), row(dir.dx), row(dir.dy)]
        }
        Surface::Circ(c) => [row(2), row(c.c.x), row(c.c.y), row(c.r), row(0)],
    }
}

/// A position's three words, each by its bytes.
fn position_rows(p: Position) -> [[u8; 8]; 3]
    ensures { result ≡ map files.word_bytes (spec.position_words p) }
{
    [row(p.xy.x), row(p.xy.y), row(p.z)]
}

fn units_word(units: Units) -> i64
    ensures { result ≡ spec.units_word units }
{
    match units {
        Units::Inch => 1,
        Units::Mm => 2,
    }
}

fn turn_word(turn: Turn) -> i64
    ensures { result ≡ spec.turn_word turn }
{
    match turn {
        Turn::Off => 0,
        Turn::Cw => 1,
        Turn::Ccw => 2,
    }
}

fn cool_word(cool: Cool) -> i64
    ensures { result ≡ spec.cool_word cool }
{
    match cool {
        Cool::Off => 0,
        Cool::Mist => 1,
        Cool::Flood => 2,
    }
}

fn side_word(side: Side) -> i64
    ensures { result ≡ spec.side_word side }
{
    match side {
        Side::Left => 1,
        Side::Right => 2,
        Side::On => 3,
    }
}

fn stop_word(stop: Stop) -> i64
    ensures { result ≡ spec.stop_word stop }
{
    match stop {
        Stop::To => 1,
        Stop::On => 2,
        Stop::Past => 3,
        Stop::Tanto => 4,
    }
}

fn reach_word(reach: Reach) -> i64
    ensures { result ≡ spec.reach_word reach }
{
    match reach {
        Reach::From => 1,
        Reach::Goto => 2,
        Reach::Godlta => 3,
        Reach::Start => 4,
    }
}
