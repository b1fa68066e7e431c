//! Reading the records of a CL file, one by one.
ghost use Rattle.std.specs.Prelude.{◌≡◌, ◌+◌, ◌^◌, ◌<◌, ◌≤◌, length, drop, Ok, Err, IfOk, MatchResult};
ghost use Rattle.apt_words.specs.Answers.{IsDueAs};
ghost use Rattle.apt_cldata.specs.Reading.{fault_in};
ghost use Rattle.apt_cldata.specs.Reading as spec;

use crate::bytes::{length_in, word_in};
use crate::entries::record_of;
use crate::error::ClFault;
use crate::fields::Misfit;
use crate::{ClCause, ClError};
use apt_records::Record;
use std::alloc::{AllocError, Global};

/// How a file begins, in version 2. The number of its records stands behind it.
pub(crate) const HEAD: &[u8] = b"APTCL 2\n";

/// The front of a head, behind which its version stands.
const FRONT: &[u8] = b"APTCL ";

/// The most bytes that the words of a record have.
const MOST_BYTES: usize = 67_108_864;

fn is_length(n: usize) -> bool
    ensures { result ≡ spec.is_length n }
{
    n % 8 == 0 && 24 <= n && n <= MOST_BYTES
}

/// Where the file ends.
fn cut_short(at: u64, bytes: &[u8]) -> ClFault
    requires { at + length bytes.now < 2 ^ 64 }
    ensures { result ≡ spec.cut_short at bytes.now }
{
    ClFault::new(at + bytes.len() as u64, ClCause::Truncated)
}

/// The length of the first record, whose bytes are all there.
#[tactic(auto, unfolding(crate::specs::Reading::length_of))]
fn length_of(at: u64, bytes: &[u8]) -> Result<usize, ClFault>
    requires { at + length bytes.now < 2 ^ 64 }
    ensures value { result ≡ spec.length_of at bytes.now }
    ensures least { IfOk result (λ n. 24 ≤ n) }
    ensures most { IfOk result (λ n. n < 2 ^ 32) }
    ensures there { IfOk result (λ n. 4 + n ≤ length bytes.now) }
{
    if bytes.len() < 4 {
        return Err(cut_short(at, bytes));
    }
    let n = length_in(bytes);
    if !is_length(n) {
        return Err(ClFault::new(at, ClCause::Length));
    }
    if bytes.len() < 4 + n {
        return Err(cut_short(at, bytes));
    }
    Ok(n)
}

/// The place of a misfit, of a record at a place.
fn misfit_at(at: u64, misfit: Misfit) -> ClFault
    requires { at < 2 ^ 63 }
    ensures { result ≡ spec.misfit_at at misfit }
{
    match misfit {
        Misfit::Class => ClFault::new(at + 12, ClCause::Class),
        Misfit::Subtype => ClFault::new(at + 20, ClCause::Class),
        Misfit::Count => ClFault::new(at, ClCause::Length),
        Misfit::Word(i) => ClFault::new(at + 28 + 8 * u64::from(i), ClCause::Range),
    }
}

/// What is said, or its misfit by its place.
fn at_place(at: u64, said: Result<Record, Misfit>) -> Result<Record, ClFault>
    requires { at < 2 ^ 63 }
    ensures { result ≡ spec.located at said }
{
    match said {
        Ok(record) => Ok(record),
        Err(misfit) => Err(misfit_at(at, misfit)),
    }
}

/// The record of so many bytes behind their length.
fn record_in(alloc: Global, n: usize, bytes: &[u8]) -> Result<Result<Record, Misfit>, AllocError>
    requires least { 24 ≤ n }
    requires most { n < 2 ^ 32 }
    requires there { 4 + n ≤ length bytes.now }
    ensures { IfOk result (λ r. r ≡ spec.record_in n bytes.now) }
{
    let class = word_in(&bytes[12..]);
    let sub = word_in(&bytes[20..]);
    let (words, _) = bytes[28..4 + n].as_chunks::<8>();
    record_of(alloc, class, sub, words)
}

/// That record, if it has the number that is due.
#[tactic(auto, unfolding(crate::specs::Reading::said_by))]
fn said_by(
    alloc: Global,
    seq: i64,
    at: u64,
    n: usize,
    bytes: &[u8],
) -> Result<Result<Record, ClFault>, AllocError>
    requires least { 24 ≤ n }
    requires most { n < 2 ^ 32 }
    requires there { 4 + n ≤ length bytes.now }
    requires place { at < 2 ^ 63 }
    ensures { IfOk result (λ r. r ≡ spec.said_by seq at n bytes.now) }
{
    if word_in(&bytes[4..]) == seq {
        Ok(at_place(at, record_in(alloc, n, bytes)?))
    } else {
        Ok(Err(ClFault::new(at + 4, ClCause::Seq)))
    }
}

/// The first record of some bytes at a place of a file, which has the number that is due, and how many bytes it has.
///
/// # Errors
///
/// `Bad` with the first place that can't stand and its cause; `NoMemory`.
#[tactic(auto, unfolding(crate::specs::Reading::first_of))]
pub fn first_record(
    alloc: Global,
    seq: u64,
    at: u64,
    bytes: &[u8],
) -> Result<(Record, usize), ClError>
    requires number { seq < 2 ^ 63 }
    requires place { at + length bytes.now < 2 ^ 63 }
    ensures value { IsDueAs (λ p. spec.piece p.0 (at + p.1) (drop p.1 bytes.now)) fault_in (spec.first_of seq at bytes.now) result }
    ensures there { IfOk result (λ p. p.1 ≤ length bytes.now) }
    ensures some { IfOk result (λ p. 28 ≤ p.1) }
{
    let n = length_of(at, bytes)?;
    let record = said_by(alloc, seq as i64, at, n, bytes)??;
    Ok((record, 4 + n))
}

/// What the head of a file tells: the number of its records, in version 2, and the bytes behind it with their place.
#[derive(Clone, Copy)]
pub struct Head<'a> {
    pub number: Option<u64>,
    pub at: u64,
    pub rest: &'a [u8],
}

/// The bytes behind some that are due, from a place on.
fn behind<'a>(at: u64, due: &[u8], bytes: &'a [u8]) -> Result<&'a [u8], ClFault>
    requires { at + length due.now < 2 ^ 64 }
    ensures { MatchResult result (λ rest. spec.behind_head at due.now bytes.now ≡ Ok rest.now) (λ f. spec.behind_head at due.now bytes.now ≡ Err f) }
{
    'places: for (i, want) in due.iter().enumerate() {
        let at = at + i as u64;
        match bytes.get(i) {
            None => {
                return Err(ClFault::new(at, ClCause::Truncated));
            }
            Some(byte) if byte != want => {
                return Err(ClFault::new(at, ClCause::Header));
            }
            Some(_) => {}
        }
    }
    Ok(&bytes[due.len()..])
}

/// The head of version 2, from its number on.
#[tactic(auto, unfolding(crate::specs::Reading::count_in))]
fn numbered_head(at: u64, bytes: &[u8]) -> Result<Head<'_>, ClFault>
    requires { at + length bytes.now < 2 ^ 63 }
    ensures { MatchResult result (λ h. spec.numbered at bytes.now ≡ Ok (spec.head h.number h.at h.rest.now)) (λ f. spec.numbered at bytes.now ≡ Err f) }
{
    match bytes.split_first_chunk() {
        None => Err(cut_short(at, bytes)),
        Some((count, rest)) => Ok(Head {
            number: Some(u64::from_be_bytes(*count)),
            at: at + 8,
            rest,
        }),
    }
}

/// The head from its version on.
fn versioned_head(at: u64, bytes: &[u8]) -> Result<Head<'_>, ClFault>
    requires { at + length bytes.now < 2 ^ 63 }
    ensures { MatchResult result (λ h. spec.versioned at bytes.now ≡ Ok (spec.head h.number h.at h.rest.now)) (λ f. spec.versioned at bytes.now ≡ Err f) }
{
    match bytes.split_first() {
        None => Err(ClFault::new(at, ClCause::Truncated)),
        Some((b'1', bytes)) => Ok(Head {
            number: None,
            at: at + 2,
            rest: behind(at + 1, b"\n", bytes)?,
        }),
        Some((b'2', bytes)) => numbered_head(at + 2, behind(at + 1, b"\n", bytes)?),
        Some(_) => Err(ClFault::new(at, ClCause::Header)),
    }
}

/// The head of a file.
///
/// # Errors
///
/// `Bad` with the first place that can't stand and its cause.
pub fn read_head(bytes: &[u8]) -> Result<Head<'_>, ClError>
    requires { length bytes.now < 2 ^ 63 }
    ensures value { IsDueAs (λ h. spec.head h.number h.at h.rest.now) fault_in (spec.head_in bytes.now) result }
    ensures there { IfOk result (λ h. h.at + length h.rest.now ≡ length bytes.now) }
{
    let version = behind(0, FRONT, bytes)?;
    Ok(versioned_head(6, version)?)
}
