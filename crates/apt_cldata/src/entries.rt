//! The record that words say.
ghost use Rattle.std.specs.Prelude.{◌≡◌, ◌+◌, ◌<◌, ◌^◌, length, IfOk};
ghost use Rattle.apt_cldata.specs.Reading.{numbers_of};
ghost use Rattle.apt_cldata.specs.Records as spec;

use crate::bytes::{Word, number};
use crate::fields::{
    GREATEST, Misfit, circle_at, cool_at, coordinate, count_at, dir_at, from_to, point_at,
    sense_at, side_at, stop_at, text_byte, turn_at, units_at, zero_at,
};
use apt_plane::{Line, Surface};
use apt_records::{Note, Position, Reach, Record, Vertices};
use apt_words::{Command, Text};
use std::alloc::{AllocError, Global};

/// The record of a class, a subtype and the words behind them, or what keeps them from being one.
#[tactic(auto, unfolding(crate::specs::Records::record_of))]
pub(crate) fn record_of(
    alloc: Global,
    class: i64,
    sub: i64,
    words: &[Word],
) -> Result<Result<Record, Misfit>, AllocError>
    requires { length words.now < 2 ^ 32 }
    ensures { IfOk result (λ r. r ≡ spec.record_of class sub (numbers_of words.now)) }
{
    match class {
        1000 if sub == 0 => Ok(statement_by(words)),
        2000 => command_by(alloc, sub, words),
        3000 => Ok(surface_record_by(sub, words)),
        5000 => motion_by(alloc, sub, words),
        6000 => Ok(setting_by(sub, words)),
        14_000 if sub == 0 => Ok(note_alone(Note::Fini, words)),
        1000 | 14_000 => Ok(Err(Misfit::Subtype)),
        _ => Ok(Err(Misfit::Class)),
    }
}

fn statement_by(words: &[Word]) -> Result<Record, Misfit>
    ensures { result ≡ spec.statement_by (numbers_of words.now) }
{
    let [line, step] = words else {
        return Err(Misfit::Count);
    };
    let line = count_at(0, number(line))?;
    let step = count_at(1, number(step))?;
    Ok(Record::Statement { line, step })
}

/// A text, or its first bad word.
fn text_by(alloc: Global, words: &[Word]) -> Result<Result<Text, Misfit>, AllocError>
    requires { length words.now < 2 ^ 32 }
    ensures { IfOk result (λ r. r ≡ spec.text_by 0 (numbers_of words.now)) }
{
    let mut bytes = Vec::new(alloc);
    'words: for (i, word) in words.iter().enumerate() {
        match text_byte(i as u32, number(word)) {
            Ok(byte) => bytes.push(byte)?,
            Err(misfit) => return Ok(Err(misfit)),
        }
    }
    Ok(Ok(Text { bytes }))
}

fn partno_by(alloc: Global, words: &[Word]) -> Result<Result<Record, Misfit>, AllocError>
    requires { length words.now < 2 ^ 32 }
    ensures { IfOk result (λ r. r ≡ spec.partno_by (numbers_of words.now)) }
{
    match text_by(alloc, words)? {
        Ok(text) => Ok(Ok(Record::Note(Note::Partno(text)))),
        Err(misfit) => Ok(Err(misfit)),
    }
}

/// A note of no words.
fn note_alone(note: Note, words: &[Word]) -> Result<Record, Misfit>
    ensures { result ≡ spec.note_alone note (numbers_of words.now) }
{
    if words.is_empty() {
        Ok(Record::Note(note))
    } else {
        Err(Misfit::Count)
    }
}

/// The number of a note of one word.
fn number_alone(least: i64, most: i64, words: &[Word]) -> Result<i64, Misfit>
    ensures { result ≡ spec.number_alone least most (numbers_of words.now) }
{
    match words {
        [n] => from_to(least, most, 0, number(n)),
        _ => Err(Misfit::Count),
    }
}

fn spindl_at(n: i64, turn: i64) -> Result<Record, Misfit>
    ensures { result ≡ spec.spindl_at n turn }
{
    let n = from_to(0, GREATEST, 0, n)?;
    let turn = turn_at(1, n, turn)?;
    Ok(Record::Note(Note::Do(Command::Spindle(turn, n))))
}

fn spindl_by(words: &[Word]) -> Result<Record, Misfit>
    ensures { result ≡ spec.spindl_by (numbers_of words.now) }
{
    match words {
        [n, turn] => spindl_at(number(n), number(turn)),
        _ => Err(Misfit::Count),
    }
}

fn coolnt_by(words: &[Word]) -> Result<Record, Misfit>
    ensures { result ≡ spec.coolnt_by (numbers_of words.now) }
{
    let [c] = words else {
        return Err(Misfit::Count);
    };
    let cool = cool_at(0, number(c))?;
    Ok(Record::Note(Note::Do(Command::Coolant(cool))))
}

fn command_by(alloc: Global, sub: i64, words: &[Word]) -> Result<Result<Record, Misfit>, AllocError>
    requires { length words.now < 2 ^ 32 }
    ensures { IfOk result (λ r. r ≡ spec.command_by sub (numbers_of words.now)) }
{
    match sub {
        1 => partno_by(alloc, words),
        2 => Ok(note_alone(Note::Rapid, words)),
        3 => Ok(note_alone(Note::Do(Command::Stop), words)),
        4 => Ok(note_alone(Note::Do(Command::OptStop), words)),
        5 => Ok(note_alone(Note::End, words)),
        6 => Ok(fedrat_by(words)),
        7 => Ok(spindl_by(words)),
        8 => Ok(coolnt_by(words)),
        9 => Ok(loadtl_by(words)),
        _ => Ok(Err(Misfit::Subtype)),
    }
}

fn fedrat_by(words: &[Word]) -> Result<Record, Misfit>
    ensures { result ≡ spec.fedrat_by (numbers_of words.now) }
{
    Ok(Record::Note(Note::Feed(number_alone(1, GREATEST, words)?)))
}

fn loadtl_by(words: &[Word]) -> Result<Record, Misfit>
    ensures { result ≡ spec.loadtl_by (numbers_of words.now) }
{
    let n = number_alone(1, GREATEST, words)?;
    Ok(Record::Note(Note::Do(Command::Tool(n))))
}

fn setting_by(sub: i64, words: &[Word]) -> Result<Record, Misfit>
    ensures { result ≡ spec.setting_by sub (numbers_of words.now) }
{
    match sub {
        1 => Ok(Record::Note(Note::Cutter(number_alone(0, 1_000_000, words)?))),
        2 => Ok(Record::Note(Note::Intol(number_alone(0, 10_000, words)?))),
        3 => Ok(Record::Note(Note::Outtol(number_alone(0, 10_000, words)?))),
        4 => {
            let [u] = words else {
                return Err(Misfit::Count);
            };
            Ok(Record::Note(Note::Units(units_at(0, number(u))?)))
        }
        _ => Err(Misfit::Subtype),
    }
}

fn line_by(x: i64, y: i64, dx: i64, dy: i64) -> Result<Surface, Misfit>
    ensures { result ≡ spec.line_by x y dx dy }
{
    let base = point_at(1, x, y)?;
    let dir = dir_at(3, dx, dy)?;
    Ok(Surface::Line(Line { base, dir }))
}

fn circle_by(x: i64, y: i64, r: i64, zero: i64) -> Result<Surface, Misfit>
    ensures { result ≡ spec.circle_by x y r zero }
{
    let centre = point_at(1, x, y)?;
    let circle = circle_at(3, centre, r)?;
    zero_at(4, zero)?;
    Ok(Surface::Circ(circle))
}

#[tactic(auto, unfolding(crate::specs::Records::surface_by))]
fn surface_by(kind: i64, a: i64, b: i64, c: i64, d: i64) -> Result<Surface, Misfit>
    ensures { result ≡ spec.surface_by kind a b c d }
{
    match kind {
        1 => line_by(a, b, c, d),
        2 => circle_by(a, b, c, d),
        _ => Err(Misfit::Word(0)),
    }
}

/// The words behind a surface.
fn drive_on(surface: Surface, side: i64, sense: i64) -> Result<Record, Misfit>
    ensures { result ≡ spec.drive_on surface side sense }
{
    let side = side_at(5, side)?;
    let sense = sense_at(6, sense)?;
    Ok(Record::Drive {
        surface,
        side,
        sense,
    })
}

#[tactic(auto, unfolding(crate::specs::Records::drive_at))]
fn drive_at(
    kind: i64,
    a: i64,
    b: i64,
    c: i64,
    d: i64,
    side: i64,
    sense: i64,
) -> Result<Record, Misfit>
    ensures { result ≡ spec.drive_at kind a b c d side sense }
{
    let surface = surface_by(kind, a, b, c, d)?;
    drive_on(surface, side, sense)
}

#[tactic(auto, using(crate::proofs::Counts::drive_few, crate::proofs::Counts::drive_many))]
fn drive_by(words: &[Word]) -> Result<Record, Misfit>
    ensures { result ≡ spec.drive_by (numbers_of words.now) }
{
    match words {
        [kind, a, b, c, d, side, sense] => drive_at(
            number(kind),
            number(a),
            number(b),
            number(c),
            number(d),
            number(side),
            number(sense),
        ),
        _ => Err(Misfit::Count),
    }
}

#[tactic(auto, unfolding(crate::specs::Records::check_at))]
fn check_at(kind: i64, a: i64, b: i64, c: i64, d: i64, how: i64) -> Result<Record, Misfit>
    ensures { result ≡ spec.check_at kind a b c d how }
{
    let surface = surface_by(kind, a, b, c, d)?;
    let how = stop_at(5, how)?;
    Ok(Record::Check { surface, how })
}

#[tactic(auto, using(crate::proofs::Counts::check_few, crate::proofs::Counts::check_many))]
fn check_by(words: &[Word]) -> Result<Record, Misfit>
    ensures { result ≡ spec.check_by (numbers_of words.now) }
{
    match words {
        [kind, a, b, c, d, how] => check_at(
            number(kind),
            number(a),
            number(b),
            number(c),
            number(d),
            number(how),
        ),
        _ => Err(Misfit::Count),
    }
}

fn surface_record_by(sub: i64, words: &[Word]) -> Result<Record, Misfit>
    ensures { result ≡ spec.surface_record_by sub (numbers_of words.now) }
{
    match sub {
        1 => drive_by(words),
        2 => check_by(words),
        _ => Err(Misfit::Subtype),
    }
}

/// The position whose first word has an index.
fn position_by(i: u32, x: i64, y: i64, z: i64) -> Result<Position, Misfit>
    requires { i + 2 < 2 ^ 32 }
    ensures { result ≡ spec.position_by i x y z }
{
    let xy = point_at(i, x, y)?;
    let z = coordinate(i + 2, z)?;
    Ok(Position { xy, z })
}

fn reached_by(reach: Reach, words: &[Word]) -> Result<Record, Misfit>
    ensures { result ≡ spec.reached_by reach (numbers_of words.now) }
{
    let [x, y, z] = words else {
        return Err(Misfit::Count);
    };
    let to = position_by(0, number(x), number(y), number(z))?;
    Ok(Record::Point(reach, to))
}

/// Positions of three words each, or the first bad word. A single one takes no memory of its own.
fn positions_by(alloc: Global, words: &[Word]) -> Result<Result<Vertices, Misfit>, AllocError>
    requires { length words.now < 2 ^ 32 }
    ensures { IfOk result (λ r. r ≡ spec.positions_by 0 (numbers_of words.now)) }
{
    if let [x, y, z] = words {
        return match position_by(0, number(x), number(y), number(z)) {
            Ok(position) => Ok(Ok(Vertices::one(position))),
            Err(misfit) => Ok(Err(misfit)),
        };
    }
    many_positions(alloc, words)
}

fn many_positions(alloc: Global, words: &[Word]) -> Result<Result<Vertices, Misfit>, AllocError>
    requires { length words.now < 2 ^ 32 }
    ensures { IfOk result (λ r. r ≡ spec.positions_by 0 (numbers_of words.now)) }
{
    let mut list = Vec::with_capacity(alloc, words.len() / 3)?;
    let mut i = 0;
    let mut rest = words;
    'triples: while let [x, y, z, after @ ..] = rest {
        match position_by(i, number(x), number(y), number(z)) {
            Ok(position) => list.push_reserved(position),
            Err(misfit) => return Ok(Err(misfit)),
        }
        i += 3;
        rest = after;
    }
    if rest.is_empty() {
        Ok(Ok(Vertices::of(alloc, list)?))
    } else {
        Ok(Err(Misfit::Count))
    }
}

#[tactic(auto, using(crate::proofs::WordByWord::numbers_length))]
fn contour_by(alloc: Global, words: &[Word]) -> Result<Result<Record, Misfit>, AllocError>
    requires { length words.now < 2 ^ 32 }
    ensures { IfOk result (λ r. r ≡ spec.contour_by (numbers_of words.now)) }
{
    if words.is_empty() || words.len() % 3 != 0 {
        return Ok(Err(Misfit::Count));
    }
    match positions_by(alloc, words)? {
        Ok(vertices) => Ok(Ok(Record::Contour(vertices))),
        Err(misfit) => Ok(Err(misfit)),
    }
}

fn motion_by(alloc: Global, sub: i64, words: &[Word]) -> Result<Result<Record, Misfit>, AllocError>
    requires { length words.now < 2 ^ 32 }
    ensures { IfOk result (λ r. r ≡ spec.motion_by sub (numbers_of words.now)) }
{
    match sub {
        1 => Ok(reached_by(Reach::From, words)),
        2 => Ok(reached_by(Reach::Goto, words)),
        3 => Ok(reached_by(Reach::Godlta, words)),
        4 => Ok(reached_by(Reach::Start, words)),
        5 => contour_by(alloc, words),
        _ => Ok(Err(Misfit::Subtype)),
    }
}
