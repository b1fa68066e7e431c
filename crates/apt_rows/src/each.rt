//! Lines of a data file that stand once for each of some numbers.

use anyhow::{Context, Result};
use std::alloc::Global;

/// What stands for the number in such lines.
const NUMBER: &str = "{n}";

/// The text, with the lines between `:each FIRST LAST` and `:end` once for each number from the first to the last.
pub fn spread(alloc: Global, text: &str) -> Result<String> {
    let mut pieces = text.split("\n:each ");
    let mut whole = String::from_str(alloc, pieces.next().unwrap_or(""))?;
    for piece in pieces {
        let (numbers, below) = piece.split_once('\n').context(":each of no line")?;
        push_each(alloc, &mut whole, numbers, below).context(format_args!(":each {numbers}"))?;
    }
    Ok(whole)
}

/// Adds the lines before `:end` once for each number, and then the others.
fn push_each(alloc: Global, whole: &mut String, numbers: &str, below: &str) -> Result<()> {
    let (first, last) = numbers.split_once(' ').context("no last number")?;
    let (lines, others) = below.split_once("\n:end").context("no end")?;
    for number in first.parse::<u32>()?..=last.parse::<u32>()? {
        let number = format!(in alloc; "{number}")?;
        let lines = lines.replace(alloc, NUMBER, number.as_str())?;
        whole.push('\n')?;
        whole.push_str(lines.as_str())?;
    }
    whole.push_str(others)?;
    Ok(())
}
