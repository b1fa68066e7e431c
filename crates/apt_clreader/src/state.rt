//! What a reader holds.

ghost use Rattle.std.specs.Prelude.{◌+◌, ◌*◌, ◌^◌, ◌<◌, ◌≤◌, length};
ghost use Rattle.apt_records.specs.Ranges.{AreRecords, vertex_count};
ghost use Rattle.apt_clreader.specs.Begun.{IsBegun};
ghost use Rattle.apt_clreader.specs.Single.{begun_single, records_single};

use apt_records::Record;
use std::alloc::Global;

/// What of a file comes next.
#[derive(Clone, Copy)]
pub enum Part {
    Head,
    Records,
    /// Nothing may stand behind FINI.
    Nothing,
}

/// A CL file whose bytes come in pieces: the records so far, and the bytes of the record that is begun.
#[derive(Drop)]
pub struct ClReader {
    pub(crate) alloc: Global,
    pub(crate) part: Part,
    /// How many records the head told, in version 2.
    pub(crate) number: Option<u64>,
    pub(crate) records: Vec<Record>,
    /// The place of the first byte that is held.
    pub(crate) at: u64,
    /// The place at which the file is cut short, if it ends within a record.
    pub(crate) end: u64,
    pub(crate) held: Vec<u8>,
    ghost begun: { IsBegun part records.items at end held.items } by { begun_single part records.items at end held.items },
    ghost ranges: { AreRecords records.items } by { records_single records.items },
    ghost few: { 8 * (vertex_count records.items + length records.items) ≤ at },
    ghost small: { at + length held.items < 2 ^ 63 },
}

/// What was taken of bytes by whole records: how many bytes they have, whether FINI was the last, and where the file is cut
/// short if it ends behind these bytes.
#[derive(Clone, Copy)]
pub(crate) struct Taken {
    pub(crate) bytes: usize,
    pub(crate) is_done: bool,
    pub(crate) end: u64,
}
