//! Runs the rows of data files over files in memory, and tells where an answer is another than its row says.
#![tactic(auto)]

mod blocks;
mod codes;
mod contents;
mod each;
mod rows;
mod runs;

use anyhow::{Context, Result};
use each::spread;
use rows::rows_of;
use runs::run_row;
use std::rt::Files;
use std::thread::Threads;
use std::{env, fs};

fn main(rt: HostRuntime) -> Result<()> {
    for name in env::args(&rt)?.skip(1) {
        run_file(&rt, name.as_str())?;
    }
    Ok(())
}

/// Runs the rows of a data file, and tells how many they are.
fn run_file(rt: &(impl Files + Print + Threads + Sync + AllocGlobal), name: &str) -> Result<()> {
    let text = fs::read_to_string(rt, name)?;
    let text = spread(rt.alloc(), text.as_str()).context(format_args!("{name}"))?;
    let rows = rows_of(rt.alloc(), text.as_str()).context(format_args!("{name}"))?;
    let mut runs: usize = 0;
    for row in &rows {
        run_row(rt, name, row)?;
        runs = runs.saturating_add(row.runs.len());
    }
    let count = rows.len();
    println!(rt; "{name}: {count} rows, {runs} runs")?;
    Ok(())
}
