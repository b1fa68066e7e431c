//! Writing a CL file.
ghost use Rattle.std.specs.Prelude.{◌≡◌, ◌≢◌, ◌^◌, ◌<◌, ◌≤◌, ◌++◌, [], Ok, ◌+◌, MatchBool, length, vec_len, drop, IfOk, OnOk, OnErr};
ghost use Rattle.apt_records.specs.Lists.{AreShort, IsFile};
ghost use Rattle.apt_cldata.specs.Files.{StandApart, file_of};
ghost use Rattle.apt_cldata.specs.Files as spec;
ghost use Rattle.apt_cldata.specs.Reading.{read_of};
ghost use Rattle.apt_cldata.specs.Shortness.{short_prop};

use crate::reading::HEAD;
use crate::words::push_record;
use apt_records::Record;
use std::alloc::{AllocError, Global};
use std::marker::Model;

/// A piece ends with the record with which it has so many bytes.
const PIECE: usize = 16_384;

/// The bytes of a CL file of these records, which are read as them again; where a record begins, no other
/// record's bytes begin.
#[tactic(auto, using(crate::proofs::Laws::file_again, crate::proofs::Laws::file_apart))]
pub fn write(alloc: Global, records: &[Record]) -> Result<Vec<u8>, AllocError>
    requires { IsFile records.now }
    ensures bytes { IfOk result (λ v. v.items ≡ file_of records.now) }
    ensures again { IfOk result (λ v. read_of v.items ≡ Ok records.now) }
    ensures apart { IfOk result (λ v. StandApart 1 records.now (drop 16 v.items)) }
{
    write_value(alloc, records)
}

fn write_value(alloc: Global, records: &[Record]) -> Result<Vec<u8>, AllocError>
    requires { IsFile records.now }
    ensures { IfOk result (λ v. v.items ≡ file_of records.now) }
{
    let mut bytes = Vec::new(alloc);
    push_head(&mut bytes, records.len())?;
    push_records(&mut bytes, usize::MAX, 1, records)?;
    Ok(bytes)
}

/// A CL file whose bytes are taken piece by piece, from the first. Clauses see those that are left.
#[derive(Drop)]
pub struct ClBytes<'a> {
    records: &'a [Record],
    first: u64,
    begun: bool,
    ghost short: { AreShort records.now } by { short_prop records.now },
    ghost numbers: { first + length records.now ≤ 2 ^ 63 },
}

impl<'a> Model for ClBytes<'a> {
    ghost use Rattle.std.specs.Prelude.{ℕ, List, [], ◌++◌, length, if◌then◌else◌};
    ghost use Rattle.apt_cldata.specs.Files.{head_of, records_bytes};

    ghost Value = { List ℕ };

    ghost view = { λ b. (if b.begun then [] else head_of (length b.records.now)) ++ records_bytes b.first b.records.now };
}

impl<'a> ClBytes<'a> {
    /// The bytes of a CL file of these records, which are read as them again; where a record begins, no other
    /// record's bytes begin.
    #[tactic(auto, using(crate::proofs::Laws::file_again, crate::proofs::Laws::file_apart))]
    pub fn of(records: &'a [Record]) -> ClBytes<'a>
        requires { IsFile records.now }
        ensures bytes { result ≡ file_of records.now }
        ensures again { read_of result ≡ Ok records.now }
        ensures apart { StandApart 1 records.now (drop 16 result) }
    {
        ClBytes {
            records,
            first: 1,
            begun: false,
        }
    }

    /// Whether none are left.
    #[tactic(auto, using(crate::proofs::Left::none_or_some))]
    pub fn is_empty(&self) -> bool
        ensures { MatchBool result (self.now ≡ []) (self.now ≢ []) }
    {
        self.begun && self.records.is_empty()
    }

    /// Takes the next bytes in the place of a piece before: whole records, and the head before the first. After a
    /// refusal all that were left still are.
    pub fn take_piece(&mut self, piece: &mut Vec<u8>) -> Result<(), AllocError>
        ensures taken { OnOk result (self.old ≡ piece.new.items ++ self.new) }
        ensures shorter { OnOk result (self.old ≢ [] → length self.new < length self.old) }
        ensures kept { OnErr result (self.new ≡ self.old) }
    {
        piece.clear();
        if !self.begun {
            push_head(piece, self.records.len())?;
        }
        let count = push_records(piece, PIECE, self.first, self.records)?;
        self.begun = true;
        self.first += count as u64;
        self.records = self.records.split_at(count).1;
        Ok(())
    }
}

/// Appends the head of a file of so many records.
#[tactic(auto, unfolding(crate::specs::Files::count_bytes))]
fn push_head(bytes: &mut Vec<u8>, count: usize) -> Result<(), AllocError>
    ensures { OnOk result (bytes.new.items ≡ bytes.old.items ++ spec.head_of count) }
{
    bytes.extend_from_slice(HEAD)?;
    bytes.extend_from_slice(&(count as u64).to_be_bytes())
}

/// Appends records, numbered from `first` on, until there are so many bytes, and says how many records.
fn push_records(
    bytes: &mut Vec<u8>,
    limit: usize,
    first: u64,
    records: &[Record],
) -> Result<usize, AllocError>
    requires short { AreShort records.now }
    requires numbers { first + length records.now ≤ 2 ^ 63 }
    ensures bytes { IfOk result (λ n. bytes.new.items ++ spec.records_bytes (first + n) (drop n records.now) ≡ bytes.old.items ++ spec.records_bytes first records.now) }
    ensures short { IfOk result (λ n. AreShort (drop n records.now)) }
    ensures within { IfOk result (λ n. n ≤ length records.now) }
    ensures all { IfOk result (λ n. vec_len bytes.new < limit → n ≡ length records.now) }
{
    let mut count = 0;
    'records: for record in records {
        if bytes.len() >= limit {
            return Ok(count);
        }
        push_record(bytes, first + count as u64, record)?;
        count += 1;
    }
    Ok(count)
}
