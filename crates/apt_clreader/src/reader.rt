//! Reading a CL file.

ghost use Rattle.std.specs.Prelude.{◌≡◌, ◌+◌, ◌*◌, ◌^◌, ◌<◌, ◌≤◌, ◌++◌, [], ℕ, List, None, drop, length, Ok, Err, IfOk, OnOk};
ghost use Rattle.apt_words.specs.Answers.{IsDueAs};
ghost use Rattle.apt_records.specs.Ranges.{AreRecords, vertex_count};
ghost use Rattle.apt_records.specs.Lists.{IsFile};
ghost use Rattle.apt_cldata.specs.Files.{IsFileOf};
ghost use Rattle.apt_records.specs.Lists as lists;
ghost use Rattle.apt_cldata.specs.Reading.{counted, read_of, fault_in};
ghost use Rattle.apt_clreader.specs.declared.state.Part.TheVariants as parts;
ghost use Rattle.apt_clreader.specs.Begun as begun;
ghost use Rattle.apt_clreader.specs.Pieces.{StandsFor, HasRead, count_of};
ghost use Rattle.apt_clreader.specs.Steps.{IsNext, GoesOn, Takes, IsLeft};

use crate::state::{ClReader, Part, Taken};
use apt_cldata::{ClCause, ClError, first_record, read_head};
use apt_records::{Note, Record};
use std::alloc::{AllocError, Global};

/// How a file of version 2 begins.
const SECOND: &[u8] = b"APTCL 2\n";

impl ClReader {
    /// No bytes so far. It takes no memory.
    pub fn new(alloc: Global) -> ClReader
        ensures stands { StandsFor result [] }
        ensures count { count_of result ≡ 0 }
    {
        ClReader {
            alloc,
            part: Part::Head,
            number: None,
            records: Vec::new(alloc),
            at: 0,
            end: 0,
            held: Vec::new(alloc),
        }
    }

    /// Goes on with the next bytes.
    ///
    /// # Errors
    ///
    /// `Bad` with the first place that can't stand and its cause, whatever comes behind these bytes; `NoMemory`.
    pub fn feed(self, piece: &[u8]) -> Result<ClReader, ClError>
        requires { count_of self + length piece.now < 2 ^ 63 }
        ensures stands { (front : List ℕ) → StandsFor self front → HasRead (front ++ piece.now) result }
        ensures count { IfOk result (λ reader. count_of reader ≡ count_of self + length piece.now) }
    {
        let ClReader {
            alloc,
            part,
            number,
            records,
            at,
            mut held,
            ..
        } = self;
        held.extend_from_slice(piece)?;
        go_on(alloc, part, number, records, at, held)
    }

    /// The records of the whole file, whose bytes have all been read.
    ///
    /// # Errors
    ///
    /// `Bad` with the first place that can't stand and its cause; `NoMemory`.
    pub fn finish(self) -> Result<Vec<Record>, ClError>
        ensures value { (file : List ℕ) → StandsFor self file → IsDueAs (λ v. v.items) fault_in (read_of file) result }
        ensures range { IfOk result (λ v. AreRecords v.items) }
        ensures few { IfOk result (λ v. vertex_count v.items + length v.items ≤ count_of self) }
    {
        let ClReader {
            part,
            number,
            records,
            end,
            held,
            ..
        } = self;
        match part {
            Part::Nothing => check_count(number, records),
            Part::Records => Err(ClError::Bad {
                at: end,
                cause: ClCause::Truncated,
            }),
            Part::Head => {
                read_head(&held)?;
                // What is held is no whole head, so that it has a fault.
                unreachable!()
            }
        }
    }
}

/// The records behind a head, unless it told another number of them.
fn check_count(number: Option<u64>, records: Vec<Record>) -> Result<Vec<Record>, ClError>
    ensures value { IsDueAs (λ v. v.items) fault_in (counted number records.items) result }
    ensures same { IfOk result (λ v. v.items ≡ records.items) }
{
    match number {
        Some(n) if n != records.len() as u64 => Err(ClError::Bad {
            at: 8,
            cause: ClCause::Count,
        }),
        _ => Ok(records),
    }
}

/// Reads what is whole of some bytes.
fn go_on(
    alloc: Global,
    part: Part,
    number: Option<u64>,
    records: Vec<Record>,
    at: u64,
    held: Vec<u8>,
) -> Result<ClReader, ClError>
    requires place { at + length held.items < 2 ^ 63 }
    requires head { part ≡ parts.Head → at ≡ 0 }
    requires ranges { AreRecords records.items }
    requires few { 8 * (vertex_count records.items + length records.items) ≤ at }
    ensures stands { GoesOn part number records.items at held.items result }
    ensures count { IfOk result (λ reader. count_of reader ≡ at + length held.items) }
{
    match part {
        Part::Head => behind_start(alloc, held),
        Part::Records => with_records(alloc, number, records, at, held),
        Part::Nothing => with_nothing(alloc, number, records, at, held),
    }
}

/// Whether a whole head is there.
fn has_head(held: &[u8]) -> bool
    ensures { result ≡ begun.has_head held.now }
{
    if held.starts_with(SECOND) {
        16 <= held.len()
    } else {
        8 <= held.len()
    }
}

/// Reads what is whole of the front of a file.
fn behind_start(alloc: Global, held: Vec<u8>) -> Result<ClReader, ClError>
    requires place { length held.items < 2 ^ 63 }
    ensures stands { GoesOn parts.Head None [] 0 held.items result }
    ensures count { IfOk result (λ reader. count_of reader ≡ length held.items) }
{
    let records = Vec::new(alloc);
    if !has_head(&held) {
        return Ok(ClReader {
            alloc,
            part: Part::Head,
            number: None,
            records,
            at: 0,
            end: 0,
            held,
        });
    }
    let head = read_head(&held)?;
    let rest = Vec::from_slice(alloc, head.rest)?;
    with_records(alloc, head.number, records, head.at, rest)
}

/// Reads the whole records in front.
fn with_records(
    alloc: Global,
    number: Option<u64>,
    mut records: Vec<Record>,
    at: u64,
    mut held: Vec<u8>,
) -> Result<ClReader, ClError>
    requires place { at + length held.items < 2 ^ 63 }
    requires ranges { AreRecords records.items }
    requires few { 8 * (vertex_count records.items + length records.items) ≤ at }
    ensures stands { GoesOn parts.Records number records.items at held.items result }
    ensures count { IfOk result (λ reader. count_of reader ≡ at + length held.items) }
{
    let taken = take_records(alloc, &mut records, at, &held)?;
    drop_front(alloc, &mut held, taken.bytes)?;
    let at = at + taken.bytes as u64;
    if taken.is_done {
        with_nothing(alloc, number, records, at, held)
    } else {
        Ok(ClReader {
            alloc,
            part: Part::Records,
            number,
            records,
            at,
            end: taken.end,
            held,
        })
    }
}

/// Nothing may stand behind the record of FINI.
fn with_nothing(
    alloc: Global,
    number: Option<u64>,
    records: Vec<Record>,
    at: u64,
    held: Vec<u8>,
) -> Result<ClReader, ClError>
    requires place { at + length held.items < 2 ^ 63 }
    requires ranges { AreRecords records.items }
    requires few { 8 * (vertex_count records.items + length records.items) ≤ at }
    ensures stands { GoesOn parts.Nothing number records.items at held.items result }
    ensures count { IfOk result (λ reader. count_of reader ≡ at + length held.items) }
{
    if held.is_empty() {
        Ok(ClReader {
            alloc,
            part: Part::Nothing,
            number,
            records,
            at,
            end: at,
            held,
        })
    } else {
        Err(ClError::Bad {
            at,
            cause: ClCause::AfterFini,
        })
    }
}

/// Adds the whole records in front of some bytes.
fn take_records(
    alloc: Global,
    records: &mut Vec<Record>,
    at: u64,
    bytes: &[u8],
) -> Result<Taken, ClError>
    requires place { at + length bytes.now < 2 ^ 63 }
    requires ranges { AreRecords records.old.items }
    requires few { 8 * (vertex_count records.old.items + length records.old.items) ≤ at }
    ensures taken { Takes records.old.items at bytes.now records.new.items result }
    ensures there { IfOk result (λ t. t.bytes ≤ length bytes.now) }
    ensures left { IfOk result (λ t. IsLeft t.is_done records.new.items (at + t.bytes) t.end (drop t.bytes bytes.now)) }
    ensures ranges { IfOk result (λ t. AreRecords records.new.items) }
    ensures few { IfOk result (λ t. 8 * (vertex_count records.new.items + length records.new.items) ≤ at + t.bytes) }
{
    let mut taken = 0;
    'records: loop {
        match next_record(
            alloc,
            records.len() as u64 + 1,
            at + taken as u64,
            &bytes[taken..],
        ) {
            Ok((record, size)) => {
                let is_last = is_fini(&record);
                records.push(record)?;
                taken += size;
                if is_last {
                    return Ok(Taken {
                        bytes: taken,
                        is_done: true,
                        end: 0,
                    });
                }
            }
            Err(error) if tells_end(&error) => {
                return Ok(Taken {
                    bytes: taken,
                    is_done: false,
                    end: place_in(&error),
                });
            }
            Err(error) => return Err(error),
        }
    }
}

/// The first record of some bytes, and how many of them it has. An error that tells that they end within it may go with
/// more of them.
fn next_record(alloc: Global, seq: u64, at: u64, bytes: &[u8]) -> Result<(Record, usize), ClError>
    requires number { seq < 2 ^ 63 }
    requires place { at + length bytes.now < 2 ^ 63 }
    ensures { IsNext seq at bytes.now result }
{
    first_record(alloc, seq, at, bytes)
}

/// Whether the bytes end within what was read.
fn tells_end(error: &ClError) -> bool
    ensures { result ≡ begun.tells_end error.now }
{
    matches!(
        error,
        ClError::Bad {
            cause: ClCause::Truncated,
            ..
        }
    )
}

/// The place that an error tells.
fn place_in(error: &ClError) -> u64
    ensures { result ≡ begun.place_in error.now }
{
    match error {
        ClError::Bad { at, .. } => *at,
        ClError::NoMemory => 0,
    }
}

fn is_fini(record: &Record) -> bool
    ensures { result ≡ lists.is_fini «record».now }
{
    matches!(record, Record::Note(Note::Fini))
}

/// Lets go of so many bytes in front.
fn drop_front(alloc: Global, held: &mut Vec<u8>, n: usize) -> Result<(), AllocError>
    requires { n ≤ length held.old.items }
    ensures { OnOk result (held.new.items ≡ drop n held.old.items) }
{
    if n > 0 {
        *held = Vec::from_slice(alloc, &held[n..])?;
    }
    Ok(())
}

/// The records of a CL file, which has one of the two versions.
///
/// # Errors
///
/// `Bad` with the first place that can't stand and its cause; `NoMemory`.
#[tactic(auto, using(apt_cldata::proofs::Laws::read_gives_bytes, apt_cldata::proofs::Laws::read_gives_file, apt_cldata::proofs::Laws::read_gives_few))]
pub fn read(alloc: Global, bytes: &[u8]) -> Result<Vec<Record>, ClError>
    requires { length bytes.now < 2 ^ 63 }
    ensures value { IsDueAs (λ v. v.items) fault_in (read_of bytes.now) result }
    ensures all { (rs : List Record) → IsFile rs → IsFileOf rs bytes.now → IsDueAs (λ v. v.items) fault_in (Ok rs) result }
    ensures bytes { IfOk result (λ v. IsFileOf v.items bytes.now) }
    ensures file { IfOk result (λ v. IsFile v.items) }
    ensures few { IfOk result (λ v. vertex_count v.items + length v.items ≤ length bytes.now) }
{
    read_value(alloc, bytes)
}

fn read_value(alloc: Global, bytes: &[u8]) -> Result<Vec<Record>, ClError>
    requires { length bytes.now < 2 ^ 63 }
    ensures { IsDueAs (λ v. v.items) fault_in (read_of bytes.now) result }
{
    ClReader::new(alloc).feed(bytes)?.finish()
}
