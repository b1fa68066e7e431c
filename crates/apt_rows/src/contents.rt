//! What contents stand for.

use crate::codes::{Code, byte_of, hex_byte};
use anyhow::{Context, Result, bail};
use std::alloc::Global;

/// How a content is written.
#[derive(Clone, Copy)]
pub enum Writing {
    /// A text, or the characters of a tape.
    Characters(Code),
    /// The records of a CL file, a line for each.
    Records,
    /// The same, of a file of version 1.
    FirstRecords,
    /// Pairs of hexadecimal digits.
    Hex,
}

/// A content that others name.
#[derive(Drop)]
pub struct Kept<'a> {
    pub name: &'a str,
    pub writing: Writing,
    pub lines: String,
}

/// The writing of a name.
pub fn writing_of(name: &str) -> Result<Writing> {
    Ok(match name {
        "text" => Writing::Characters(Code::Plain),
        "rs358" => Writing::Characters(Code::Rs358),
        "rs244" => Writing::Characters(Code::Rs244),
        "records" => Writing::Records,
        "records-1" => Writing::FirstRecords,
        "hex" => Writing::Hex,
        _ => bail!("no such writing: {name}"),
    })
}

/// The bytes of a content, by the words that say how it is written.
pub fn content(alloc: Global, kept: &[Kept<'_>], how: &[&str], lines: &str) -> Result<Vec<u8>> {
    match how {
        [] => bytes_of(alloc, Writing::Characters(Code::Plain), lines),
        ["as", name, change @ ..] => {
            let same = kept
                .iter()
                .find(|one| one.name == *name)
                .context("nothing of that name is kept")?;
            changed(alloc, same, change, lines)
        }
        [name] => bytes_of(alloc, writing_of(name)?, lines),
        _ => bail!("no such content"),
    }
}

/// The bytes of a kept content with a change.
fn changed(alloc: Global, kept: &Kept<'_>, change: &[&str], lines: &str) -> Result<Vec<u8>> {
    let whole = kept.lines.as_str();
    match change {
        [] => bytes_of(alloc, kept.writing, whole),
        ["front", length] => {
            let bytes = bytes_of(alloc, kept.writing, whole)?;
            let front = bytes.get(..length.parse::<usize>()?).context("too short")?;
            Ok(Vec::from_slice(alloc, front)?)
        }
        ["at", at, "drop", count, put @ ..] => {
            let bytes = bytes_of(alloc, kept.writing, whole)?;
            let put = put_bytes(alloc, put)?;
            spliced(alloc, &bytes, at.parse()?, count.parse()?, &put)
        }
        ["at", at, "turn", holes] => {
            let bytes = bytes_of(alloc, kept.writing, whole)?;
            turned(bytes, at.parse()?, holes)
        }
        ["line", at, "drop", count] => {
            let text = spliced_lines(alloc, whole, at.parse()?, count.parse()?, lines)?;
            bytes_of(alloc, kept.writing, text.as_str())
        }
        _ => bail!("no such change"),
    }
}

/// The bytes that are put in place of others.
fn put_bytes(alloc: Global, put: &[&str]) -> Result<Vec<u8>> {
    match put {
        [] => Ok(Vec::new(alloc)),
        ["put", digits] => bytes_of(alloc, Writing::Hex, digits),
        _ => bail!("no such change"),
    }
}

/// Bytes with others in place of so many from a place on.
fn spliced(alloc: Global, bytes: &[u8], at: usize, count: usize, put: &[u8]) -> Result<Vec<u8>> {
    let (front, rest) = bytes.split_at_checked(at).context("no such place")?;
    let back = rest.get(count..).context("not as many bytes")?;
    let mut new = Vec::from_slice(alloc, front)?;
    new.extend_from_slice(put)?;
    new.extend_from_slice(back)?;
    Ok(new)
}

/// Bytes with some holes of one turned, by two hexadecimal digits.
fn turned(mut bytes: Vec<u8>, at: usize, holes: &str) -> Result<Vec<u8>> {
    let [high, low] = holes.as_bytes() else {
        bail!("no pair of digits");
    };
    let holes = hex_byte(*high, *low).context("no pair of digits")?;
    let byte = bytes.get_mut(at).context("no such place")?;
    *byte ^= holes;
    Ok(bytes)
}

/// Lines with others in place of so many from one on, by its number from 1.
fn spliced_lines(
    alloc: Global,
    lines: &str,
    first: usize,
    count: usize,
    put: &str,
) -> Result<String> {
    let front = first.saturating_sub(1);
    let behind = front.saturating_add(count);
    let mut text = String::new(alloc);
    let new = lines
        .split_inclusive('\n')
        .take(front)
        .chain(put.split_inclusive('\n'))
        .chain(lines.split_inclusive('\n').skip(behind));
    for line in new {
        text.push_str(line)?;
    }
    Ok(text)
}

/// The bytes of lines that are written in this way.
fn bytes_of(alloc: Global, writing: Writing, lines: &str) -> Result<Vec<u8>> {
    match writing {
        Writing::Characters(code) => coded(alloc, code, lines),
        Writing::Records => records(alloc, lines),
        Writing::FirstRecords => first_records(alloc, lines),
        Writing::Hex => pairs(alloc, lines),
    }
}

/// The bytes of characters, in which `\xHH` is a byte as it is, and a backslash drops the end of its line.
fn coded(alloc: Global, code: Code, lines: &str) -> Result<Vec<u8>> {
    let mut bytes = Vec::new(alloc);
    for (place, piece) in lines.split('\\').enumerate() {
        let characters = match piece.as_bytes() {
            characters if place == 0 => characters,
            [b'\n', behind @ ..] => behind,
            [b'x', high, low, behind @ ..] => {
                bytes.push(hex_byte(*high, *low).context("no byte behind a backslash")?)?;
                behind
            }
            _ => bail!("nothing known behind a backslash"),
        };
        push_coded(&mut bytes, code, characters)?;
    }
    Ok(bytes)
}

fn push_coded(bytes: &mut Vec<u8>, code: Code, characters: &[u8]) -> Result<()> {
    for character in characters {
        bytes.push(byte_of(code, *character).context("no character of the code")?)?;
    }
    Ok(())
}

/// The bytes of pairs of digits, between which white space is passed over.
fn pairs(alloc: Global, lines: &str) -> Result<Vec<u8>> {
    let digits: String = lines.split_ascii_whitespace().collect(alloc)?;
    let mut bytes = Vec::new(alloc);
    for pair in digits.as_bytes().chunks(2) {
        let [high, low] = pair else {
            bail!("half a byte");
        };
        bytes.push(hex_byte(*high, *low).context("no pair of digits")?)?;
    }
    Ok(bytes)
}

/// The head of a CL file has so many bytes.
const HEAD_BYTES: usize = 16;

/// The CL file of records, numbered from 1, each by its class, its subtype and its words.
fn records(alloc: Global, lines: &str) -> Result<Vec<u8>> {
    let mut bytes = Vec::from_slice(alloc, b"APTCL 2\n")?;
    let count = lines.lines().count() as u64;
    bytes.extend_from_slice(&count.to_be_bytes())?;
    push_records(alloc, &mut bytes, lines)?;
    Ok(bytes)
}

/// The same in version 1.
fn first_records(alloc: Global, lines: &str) -> Result<Vec<u8>> {
    let mut bytes = Vec::from_slice(alloc, b"APTCL 1\n")?;
    push_records(alloc, &mut bytes, lines)?;
    Ok(bytes)
}

fn push_records(alloc: Global, bytes: &mut Vec<u8>, lines: &str) -> Result<()> {
    let mut number: i64 = 0;
    for line in lines.lines() {
        number = number.wrapping_add(1);
        let record = record(alloc, number, line)?;
        bytes.extend_from_slice(&u32::try_from(record.len())?.to_be_bytes())?;
        bytes.extend_from_slice(&record)?;
    }
    Ok(())
}

/// The bytes of a record: its number, and the words of its line.
fn record(alloc: Global, number: i64, line: &str) -> Result<Vec<u8>> {
    let mut bytes = Vec::from_slice(alloc, &number.to_be_bytes())?;
    for word in line.split_ascii_whitespace() {
        bytes.extend_from_slice(&word.parse::<i64>()?.to_be_bytes())?;
    }
    Ok(bytes)
}

/// How many records a CL file has, by their lengths.
pub fn record_count(cl: &[u8]) -> u64 {
    let mut rest = cl.get(HEAD_BYTES..).unwrap_or(&[]);
    let mut count: u64 = 0;
    for _ in 0..cl.len() {
        let Some((length, behind)) = rest.split_first_chunk::<4>() else {
            break;
        };
        rest = behind
            .get(u32::from_be_bytes(*length) as usize..)
            .unwrap_or(&[]);
        count = count.wrapping_add(1);
    }
    count
}
