//! The rows of a data file.

use crate::blocks::{Block, blocks_of};
use crate::codes::Code;
use crate::contents::{Kept, Writing, content, writing_of};
use anyhow::{Context, Result, bail, ensure};
use apt_shelf::Calls;
use std::alloc::Global;

/// Files, and the runs over them in their order.
#[derive(Drop)]
pub struct Row<'a> {
    pub title: &'a str,
    pub files: Vec<File<'a>>,
    pub fails: Vec<Fail>,
    /// How many bytes a read gives at most.
    pub step: usize,
    pub runs: Vec<Run<'a>>,
}

/// What stands under a name.
#[derive(Drop)]
pub struct File<'a> {
    pub name: &'a str,
    pub bytes: Vec<u8>,
}

/// A call that fails, by its number from 1 in its row.
#[derive(Clone, Copy)]
pub struct Fail {
    pub call: Call,
    pub number: u64,
}

/// The calls on a shelf and a sink.
#[derive(Clone, Copy)]
pub enum Call {
    ReadStart,
    Read,
    WriteStart,
    Append,
    Put,
}

/// The words of a command line, and what they come to.
#[derive(Drop)]
pub struct Run<'a> {
    pub words: Vec<&'a str>,
    pub status: Option<u8>,
    pub prints: Vec<u8>,
    pub holds: Vec<Held<'a>>,
    /// The calls on the shelf in the row so far.
    pub calls: Option<Calls>,
}

/// What a name holds behind a run.
#[derive(Drop)]
pub struct Held<'a> {
    pub name: &'a str,
    pub want: Want,
}

#[derive(Drop)]
pub enum Want {
    /// These bytes.
    Bytes(Vec<u8>),
    /// A CL file of so many records.
    Records(u64),
}

/// The rows of a text.
pub fn rows_of<'a>(alloc: Global, text: &'a str) -> Result<Vec<Row<'a>>> {
    let mut kept = Vec::new(alloc);
    let mut rows = Vec::new(alloc);
    for block in blocks_of(alloc, text)? {
        let (mark, rest) = (block.mark, block.rest);
        add_block(alloc, &mut kept, &mut rows, block).context(format_args!(":{mark} {rest}"))?;
    }
    Ok(rows)
}

/// Adds what a block says to the rows, or to what is kept.
fn add_block<'a>(
    alloc: Global,
    kept: &mut Vec<Kept<'a>>,
    rows: &mut Vec<Row<'a>>,
    block: Block<'a>,
) -> Result<()> {
    match block.mark {
        "#" => Ok(()),
        "keep" => {
            kept.push(kept_of(alloc, block)?)?;
            Ok(())
        }
        "row" => {
            rows.push(Row {
                title: block.rest,
                files: Vec::new(alloc),
                fails: Vec::new(alloc),
                step: usize::MAX,
                runs: Vec::new(alloc),
            })?;
            Ok(())
        }
        _ => add_to_row(alloc, kept, rows.last_mut().context("no row")?, &block),
    }
}

/// Adds what a block says to a row.
fn add_to_row<'a>(
    alloc: Global,
    kept: &[Kept<'a>],
    row: &mut Row<'a>,
    block: &Block<'a>,
) -> Result<()> {
    match block.mark {
        "file" => {
            ensure!(row.runs.is_empty(), "a file behind a run");
            let words = words_of(alloc, block.rest)?;
            let (name, how) = words.split_first().context("no name")?;
            let bytes = content(alloc, kept, how, block.lines.as_str())?;
            row.files.push(File { name: *name, bytes })?;
        }
        "fails" => row.fails.push(fail_of(block.rest)?)?,
        "slow" => row.step = block.rest.parse::<usize>()?,
        "run" => row.runs.push(Run {
            words: words_of(alloc, block.rest)?,
            status: None,
            prints: Vec::new(alloc),
            holds: Vec::new(alloc),
            calls: None,
        })?,
        _ => add_to_run(alloc, kept, row.runs.last_mut().context("no run")?, block)?,
    }
    Ok(())
}

/// Adds what a block says to a run.
fn add_to_run<'a>(
    alloc: Global,
    kept: &[Kept<'a>],
    run: &mut Run<'a>,
    block: &Block<'a>,
) -> Result<()> {
    match block.mark {
        "status" => run.status = Some(block.rest.parse::<u8>()?),
        "prints" => run.prints = content(alloc, kept, &[], block.lines.as_str())?,
        "holds" => {
            let words = words_of(alloc, block.rest)?;
            let (name, how) = words.split_first().context("no name")?;
            ensure!(run.words.contains(name), "no word of the run");
            let want = match how {
                ["of", count, "records"] => Want::Records(count.parse::<u64>()?),
                _ => Want::Bytes(content(alloc, kept, how, block.lines.as_str())?),
            };
            run.holds.push(Held { name: *name, want })?;
        }
        "calls" => run.calls = Some(calls_of(alloc, block.rest)?),
        _ => bail!("no such mark"),
    }
    Ok(())
}

/// The content that is kept by a block.
fn kept_of<'a>(alloc: Global, block: Block<'a>) -> Result<Kept<'a>> {
    let words = words_of(alloc, block.rest)?;
    let (name, writing) = match words.as_slice() {
        [name] => (*name, Writing::Characters(Code::Plain)),
        [name, writing] => (*name, writing_of(writing)?),
        _ => bail!("no name and writing"),
    };
    Ok(Kept {
        name,
        writing,
        lines: block.lines,
    })
}

/// Words that stand between blanks; `""` is a word without a character.
fn words_of<'a>(alloc: Global, text: &'a str) -> Result<Vec<&'a str>> {
    let mut words = Vec::new(alloc);
    for word in text.split_ascii_whitespace() {
        words.push(if word == "\"\"" { "" } else { word })?;
    }
    Ok(words)
}

/// The call that fails.
fn fail_of(text: &str) -> Result<Fail> {
    let (call, number) = text.split_once(' ').context("no number")?;
    let call = match call {
        "read-start" => Call::ReadStart,
        "read" => Call::Read,
        "write-start" => Call::WriteStart,
        "append" => Call::Append,
        "put" => Call::Put,
        _ => bail!("no such call"),
    };
    Ok(Fail {
        call,
        number: number.parse::<u64>()?,
    })
}

/// The calls on a shelf, by the number of each kind.
fn calls_of(alloc: Global, text: &str) -> Result<Calls> {
    let words = words_of(alloc, text)?;
    let [read_starts, reads, write_starts, appends] = words.as_slice() else {
        bail!("no four numbers");
    };
    Ok(Calls {
        read_starts: read_starts.parse::<u64>()?,
        reads: reads.parse::<u64>()?,
        write_starts: write_starts.parse::<u64>()?,
        appends: appends.parse::<u64>()?,
    })
}
