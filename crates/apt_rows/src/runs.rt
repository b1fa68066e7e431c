//! The runs of a row, and what differs from it.

use crate::contents::record_count;
use crate::rows::{Call, Fail, File, Row, Run, Want};
use anyhow::{Context, Result, ensure};
use apt_core::{OpenGate, apt};
use apt_shelf::{Calls, FailList, MemShelf, MemSink};
use std::alloc::Global;
use std::fmt::Display;
use std::thread::Threads;

/// A run, by its file, its row and its number from 1.
#[derive(Clone, Copy)]
struct Place<'a> {
    file: &'a str,
    row: &'a str,
    run: usize,
}

/// What a name held before a run.
#[derive(Drop)]
struct Before<'a> {
    name: &'a str,
    bytes: Option<Vec<u8>>,
}

/// Makes the runs of a row, and tells what differs.
pub fn run_row(
    rt: &(impl Print + Threads + Sync + AllocGlobal),
    file: &str,
    row: &Row<'_>,
) -> Result<()> {
    let alloc = rt.alloc();
    let (fails, puts) = failing(alloc, &row.fails)?;
    ensure!(row.step > 0, "reads that give nothing");
    let mut shelf = MemShelf::slow(alloc, files_of(alloc, row)?, fails, row.step)?;
    let mut sink = MemSink::new(alloc, puts);
    let names = names_of(alloc, row)?;
    let mut number: usize = 0;
    for run in &row.runs {
        number = number.saturating_add(1);
        let place = Place {
            file,
            row: row.title,
            run: number,
        };
        make_run(rt, place, run, &names, &mut shelf, &mut sink)?;
    }
    Ok(())
}

/// The files of a row, for a shelf.
fn files_of(alloc: Global, row: &Row<'_>) -> Result<Vec<(String, Vec<u8>)>> {
    let mut files = Vec::new(alloc);
    for file in &row.files {
        files.push((
            String::from_str(alloc, file.name)?,
            Vec::from_slice(alloc, &file.bytes)?,
        ))?;
    }
    Ok(files)
}

/// The calls that fail, on the shelf and on the sink.
fn failing(alloc: Global, fails: &[Fail]) -> Result<(FailList, Vec<u64>)> {
    let mut list = FailList::none(alloc);
    let mut puts = Vec::new(alloc);
    for fail in fails {
        let numbers = match fail.call {
            Call::ReadStart => &mut list.read_starts,
            Call::Read => &mut list.reads,
            Call::WriteStart => &mut list.write_starts,
            Call::Append => &mut list.appends,
            Call::Put => &mut puts,
        };
        numbers.push(fail.number)?;
    }
    Ok((list, puts))
}

/// The names of a row's files, and the words of its runs.
fn names_of<'a>(alloc: Global, row: &Row<'a>) -> Result<Vec<&'a str>> {
    let mut names = file_names(alloc, &row.files)?;
    for run in &row.runs {
        add_names(&mut names, &run.words)?;
    }
    Ok(names)
}

fn file_names<'a>(alloc: Global, files: &[File<'a>]) -> Result<Vec<&'a str>> {
    let mut names = Vec::new(alloc);
    for file in files {
        names.push(file.name)?;
    }
    Ok(names)
}

/// Adds the words that are not among the names.
fn add_names<'a>(names: &mut Vec<&'a str>, words: &[&'a str]) -> Result<()> {
    for word in words {
        if !names.contains(word) {
            names.push(*word)?;
        }
    }
    Ok(())
}

/// Makes a run, and tells what differs.
fn make_run(
    rt: &(impl Print + Threads + Sync + AllocGlobal),
    place: Place<'_>,
    run: &Run<'_>,
    names: &[&str],
    shelf: &mut MemShelf,
    sink: &mut MemSink,
) -> Result<()> {
    let alloc = rt.alloc();
    let words = owned(alloc, &run.words)?;
    let before = held_now(alloc, shelf, names)?;
    let start = sink.bytes().len();
    let status = apt(rt, alloc, &words, shelf, sink, &OpenGate).number();
    if run.status != Some(status) {
        tell(rt, place, format_args!("status {status}"))?;
    }
    let printed = sink.bytes().get(start..).context("the sink lost bytes")?;
    if run.prints.as_slice() != printed {
        let text = shown(alloc, printed, 0)?;
        tell(rt, place, format_args!("printed \"{text}\""))?;
    }
    for one in &before {
        compare(rt, place, run, one, shelf.file(one.name))?;
    }
    compare_calls(rt, place, run.calls, shelf.calls())
}

/// The words of a command line.
fn owned(alloc: Global, words: &[&str]) -> Result<Vec<String>> {
    let mut list = Vec::new(alloc);
    for word in words {
        list.push(String::from_str(alloc, word)?)?;
    }
    Ok(list)
}

/// What the names hold.
fn held_now<'a>(alloc: Global, shelf: &MemShelf, names: &[&'a str]) -> Result<Vec<Before<'a>>> {
    let mut list = Vec::new(alloc);
    for name in names {
        let bytes = match shelf.file(name) {
            Some(bytes) => Some(Vec::from_slice(alloc, bytes)?),
            None => None,
        };
        list.push(Before { name: *name, bytes })?;
    }
    Ok(list)
}

/// Tells where a name holds another thing than the run says, or than before where it says nothing.
fn compare(
    rt: &(impl Print + AllocGlobal),
    place: Place<'_>,
    run: &Run<'_>,
    before: &Before<'_>,
    came: Option<&[u8]>,
) -> Result<()> {
    let name = before.name;
    let held = run.holds.iter().find(|held| held.name == name);
    match held.map(|held| &held.want) {
        Some(Want::Records(count)) => compare_count(rt, place, name, *count, came),
        Some(Want::Bytes(bytes)) => compare_bytes(rt, place, name, Some(bytes), came),
        None => compare_bytes(rt, place, name, before.bytes.as_deref(), came),
    }
}

/// Tells where a name holds no CL file of so many records.
fn compare_count(
    rt: &impl Print,
    place: Place<'_>,
    name: &str,
    count: u64,
    came: Option<&[u8]>,
) -> Result<()> {
    let records = came.map_or(0, |bytes| record_count(bytes));
    if records == count {
        return Ok(());
    }
    tell(rt, place, format_args!("{name} holds {records} records"))
}

/// Tells where a name holds other bytes.
fn compare_bytes(
    rt: &(impl Print + AllocGlobal),
    place: Place<'_>,
    name: &str,
    want: Option<&[u8]>,
    came: Option<&[u8]>,
) -> Result<()> {
    if came == want {
        return Ok(());
    }
    let Some(bytes) = came else {
        return tell(rt, place, format_args!("{name} holds nothing"));
    };
    let wanted = want.unwrap_or(&[]);
    let (length, at) = (bytes.len(), first_other(bytes, wanted));
    let text = shown(rt.alloc(), bytes, at)?;
    tell(
        rt,
        place,
        format_args!("{name} holds {length} bytes, from {at} on \"{text}\""),
    )
}

/// Tells where other calls were made so far than are wanted.
fn compare_calls(
    rt: &impl Print,
    place: Place<'_>,
    want: Option<Calls>,
    made: Calls,
) -> Result<()> {
    if want.is_none_or(|calls| calls == made) {
        return Ok(());
    }
    let Calls {
        read_starts,
        reads,
        write_starts,
        appends,
    } = made;
    tell(
        rt,
        place,
        format_args!("calls {read_starts} {reads} {write_starts} {appends}"),
    )
}

/// The place of the first byte that is another than wanted.
fn first_other(bytes: &[u8], wanted: &[u8]) -> usize {
    bytes
        .iter()
        .zip(wanted)
        .take_while(|(byte, want)| byte == want)
        .count()
}

/// How many bytes are shown at most.
const SHOWN: usize = 48;

/// Some bytes from a place on, in characters and escapes.
fn shown(alloc: Global, bytes: &[u8], at: usize) -> Result<String> {
    let mut text = String::new(alloc);
    for byte in bytes.iter().skip(at).take(SHOWN) {
        match byte {
            b' ' | b'!' | b'#'..=b'[' | b']'..=b'~' => text.push(char::from(*byte))?,
            _ => text.push_str(format!(in alloc; "\\x{byte:02x}")?.as_str())?,
        }
    }
    Ok(text)
}

/// Tells what came, where it is not what was wanted.
fn tell(rt: &impl Print, place: Place<'_>, what: impl Display + Drop) -> Result<()> {
    let Place { file, row, run } = place;
    println!(rt; "{file}: {row}: run {run}: {what}")?;
    Ok(())
}
