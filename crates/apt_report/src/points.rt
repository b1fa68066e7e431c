//! The listing of a CL file.

ghost use Rattle.std.specs.Prelude.{◌≡◌, ◌≤◌, ◌<◌, ◌^◌, ◌+◌, ◌++◌, length, drop, codes, IfOk, OnOk};
ghost use Rattle.std.specs.Fmt.{decimal};
ghost use Rattle.std.specs.List.{flat_map};
ghost use Rattle.apt_post.specs.Plan.{units_of};
ghost use Rattle.apt_records.specs.Ranges.{AreRecords};
ghost use Rattle.apt_report.specs.Columns.{GivesBack, rows_from};
ghost use Rattle.apt_lines.specs.Decimals.{right_in};
ghost use Rattle.apt_report.specs.Listing as lines;

use apt_lines::{
    ROOM, push_from, whole_line, write_blanks, write_count, write_signed_pointed, write_text,
};
use apt_records::{Note, Position, Reach, Record, VertexSlice};
use apt_words::Units;
use std::alloc::{AllocError, Global};

/// The lines of some records, and how many points they tell.
#[derive(Drop)]
pub struct PointLines {
    pub text: Vec<u8>,
    pub points: u64,
}

/// A line for each point of the records, with the number of its record, from 1, and how many points there are.
/// Coordinates are in inches with five decimals or in millimetres with four, as the first record of UNITS says.
///
/// # Errors
///
/// Memory lacks.
#[tactic(auto, using(crate::proofs::Told::points_told))]
pub fn listing(alloc: Global, records: &[Record]) -> Result<PointLines, AllocError>
    ensures value { IfOk result (λ l. l.text.items ≡ lines.listing records.now) }
    ensures points { IfOk result (λ l. l.points ≡ lines.point_count records.now) }
    ensures told { AreRecords records.now → length records.now < 10 ^ 8 → IfOk result (λ l. GivesBack (units_of records.now) (rows_from 1 records.now) l.text.items) }
{
    listing_value(alloc, records)
}

fn listing_value(alloc: Global, records: &[Record]) -> Result<PointLines, AllocError>
    ensures value { IfOk result (λ l. l.text.items ≡ lines.listing records.now) }
    ensures points { IfOk result (λ l. l.points ≡ lines.point_count records.now) }
{
    let decimals = decimals_in(units_of(records));
    let mut text = Vec::new(alloc);
    let mut room = [0u8; ROOM];
    let mut seq = 0;
    let mut points = 0;
    'records: for record in records {
        seq += 1;
        push_lines(&mut text, &mut room, decimals, seq, record)?;
        points += record_count(record);
    }
    let start = end_line(&mut room, points);
    push_from(&mut text, &room, start)?;
    Ok(PointLines {
        text,
        points: points as u64,
    })
}

/// The units of the first UNITS record, else inches.
fn units_of(records: &[Record]) -> Units
    ensures { result ≡ units_of records.now }
{
    'records: for record in records {
        if let Record::Note(Note::Units(units)) = record {
            return *units;
        }
    }
    Units::Inch
}

fn decimals_in(units: Units) -> usize
    ensures value { result ≡ lines.decimals_in units }
    ensures small { result ≤ 5 }
{
    match units {
        Units::Inch => 5,
        Units::Mm => 4,
    }
}

fn word_of(reach: Reach) -> &'static str
    ensures value { result.now ≡ lines.word_of reach }
    ensures four { length result.now ≡ 4 }
{
    match reach {
        Reach::From => "FROM",
        Reach::Goto => "GOTO",
        Reach::Godlta => "DELT",
        Reach::Start => "STRT",
    }
}

fn record_count(r: &Record) -> usize
    ensures { result ≡ lines.record_count r.now }
{
    match r {
        Record::Point(..) => 1,
        Record::Contour(vertices) => vertices.all().len(),
        _ => 0,
    }
}

/// Appends the lines of a record.
fn push_lines(
    text: &mut Vec<u8>,
    room: &mut [u8],
    decimals: usize,
    seq: usize,
    r: &Record,
) -> Result<(), AllocError>
    requires room { length room.old ≡ 192 }
    requires decimals { decimals ≤ 5 }
    ensures { OnOk result (text.new.items ≡ text.old.items ++ lines.record_lines decimals seq r.now) }
{
    match r {
        Record::Point(reach, to) => {
            let start = point_line(room, decimals, seq, word_of(*reach), *to);
            push_from(text, room, start)
        }
        Record::Contour(vertices) => push_contour(text, room, decimals, seq, vertices.all()),
        _ => Ok(()),
    }
}

fn push_contour(
    text: &mut Vec<u8>,
    room: &mut [u8],
    decimals: usize,
    seq: usize,
    vertices: VertexSlice<'_>,
) -> Result<(), AllocError>
    requires room { length room.old ≡ 192 }
    requires decimals { decimals ≤ 5 }
    ensures { OnOk result (text.new.items ≡ text.old.items ++ flat_map (lines.point_line decimals seq (codes "CONT")) vertices.entry) }
{
    let mut left = vertices;
    'vertices: while let Some((to, behind)) = left.split_first() {
        let start = point_line(room, decimals, seq, "CONT", to);
        push_from(text, room, start)?;
        left = behind;
    }
    Ok(())
}

/// Writes the line of a point, and answers where it starts.
fn point_line(room: &mut [u8], decimals: usize, seq: usize, word: &str, to: Position) -> usize
    requires room { length room.old ≡ 192 }
    requires decimals { decimals ≤ 5 }
    requires four { length word.now ≡ 4 }
    ensures start { result ≤ 192 }
    ensures line { drop result room.new ≡ lines.point_line decimals seq word.now to }
{
    let end = whole_line(room, "\n");
    let at = write_coordinate(room, end, decimals, to.z);
    let at = write_coordinate(room, at, decimals, to.xy.y);
    let at = write_coordinate(room, at, decimals, to.xy.x);
    let at = write_text(room, at, word);
    let at = write_text(room, at, " ");
    write_seq(room, at, seq)
}

/// Writes a coordinate right in eleven places.
fn write_coordinate(room: &mut [u8], end: usize, decimals: usize, v: i64) -> usize
    requires room { 40 ≤ end }
    requires end { end ≤ length room.old }
    requires decimals { decimals ≤ 5 }
    ensures start { (result ≤ end) × (end ≤ result + 40) }
    ensures written { drop result room.new ≡ lines.coordinate decimals v ++ drop end room.old }
{
    let start = write_signed_pointed(room, end, decimals, v);
    write_blanks(room, start, end - 11)
}

/// Writes the number of a record right in eight places.
fn write_seq(room: &mut [u8], end: usize, n: usize) -> usize
    requires room { 40 ≤ end }
    requires end { end ≤ length room.old }
    ensures start { result ≤ end }
    ensures written { drop result room.new ≡ right_in 8 (decimal n) ++ drop end room.old }
{
    let start = write_count(room, end, n as u64);
    write_blanks(room, start, end - 8)
}

fn end_line(room: &mut [u8], points: usize) -> usize
    requires { length room.old ≡ 192 }
    ensures start { result ≤ 192 }
    ensures line { drop result room.new ≡ lines.end_line points }
{
    let end = whole_line(room, " POINTS\n");
    let at = write_count(room, end, points as u64);
    write_text(room, at, "END ")
}
