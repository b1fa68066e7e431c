//! The marks of a data file, with what stands below each.

use anyhow::{Context, Result};
use std::alloc::Global;

/// A mark with what is written behind it, and the lines below it.
#[derive(Drop)]
pub struct Block<'a> {
    pub mark: &'a str,
    pub rest: &'a str,
    pub lines: String,
}

/// The blocks of a text: one begins at each line whose first byte is a colon.
pub fn blocks_of<'a>(alloc: Global, text: &'a str) -> Result<Vec<Block<'a>>> {
    let text = text.strip_suffix('\n').unwrap_or(text);
    let text = text.strip_prefix(':').context("the first line is no mark")?;
    let mut blocks = Vec::new(alloc);
    for piece in text.split("\n:") {
        add_piece(alloc, &mut blocks, piece)?;
    }
    Ok(blocks)
}

/// Adds a block, or to the last one the lines below `:times`.
fn add_piece<'a>(alloc: Global, blocks: &mut Vec<Block<'a>>, piece: &'a str) -> Result<()> {
    let (head, below) = match piece.split_once('\n') {
        Some((head, below)) => (head, Some(below)),
        None => (piece, None),
    };
    let (mark, rest) = head.split_once(' ').unwrap_or((head, ""));
    if mark == "times" {
        let last = blocks.last_mut().context("nothing to repeat in")?;
        return repeat(&mut last.lines, rest, below.context("no line to repeat")?);
    }
    let mut lines = String::new(alloc);
    push_lines(&mut lines, below)?;
    blocks.push(Block { mark, rest, lines })?;
    Ok(())
}

/// Adds lines, of which the last has lost its end.
fn push_lines(lines: &mut String, below: Option<&str>) -> Result<()> {
    if let Some(below) = below {
        lines.push_str(below)?;
        lines.push('\n')?;
    }
    Ok(())
}

/// Adds the first of some lines so many times, and then the others.
fn repeat(lines: &mut String, times: &str, below: &str) -> Result<()> {
    let (line, others) = match below.split_once('\n') {
        Some((line, others)) => (line, Some(others)),
        None => (below, None),
    };
    for _ in 0..times.parse::<u32>()? {
        push_lines(lines, Some(line))?;
    }
    push_lines(lines, others)
}
