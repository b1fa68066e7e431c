//! Files in memory, one read and one written at a time.
ghost use Rattle.std.specs.Prelude.{◌≡◌, ◌↔◌, ◌++◌, [], min, length, take, drop, is_some, option_map, slice_get, true, Some, None, IsSome, IfSome, IfNone, IsSomeAnd, OnOk, OnErr, IsErrOf};
ghost use Rattle.std.specs.Option.{ForSome};
ghost use Rattle.std.specs.FinMap.{insert};
ghost use Rattle.apt_shelf.specs.Told.{appended};
ghost use Rattle.apt_shelf.specs.Entries.{entries, contents, held, IsFirstIndex, IsAbsent};
ghost use Rattle.apt_shelf.specs.Reading.{IsWithin, Grows, left_in, moved};
ghost use Rattle.apt_shelf.specs.declared.reading.Source.TheVariants as sources;

use crate::reading::Reading;
use crate::shelf::ReadStart;
use std::alloc::{AllocError, Global};
use std::mem;

/// The files, the read and the write that are started. A call fails for lack of memory alone.
#[derive(Drop)]
pub(crate) struct Store {
    alloc: Global,
    files: Vec<(String, Vec<u8>)>,
    reading: Option<Reading>,
    writing: Option<String>,
    ghost within: { ForSome reading (IsWithin files.items) },
}

impl Store {
    ghost use Rattle.apt_shelf.specs.Store.{contents_of, left_of, writing_of};

    pub(crate) fn new(alloc: Global, files: Vec<(String, Vec<u8>)>) -> Store
        ensures contents { contents_of result ≡ contents files.items }
        ensures reading { result.reading ≡ None }
        ensures writing { result.writing ≡ None }
    {
        Store {
            alloc,
            files,
            reading: None,
            writing: None,
        }
    }

    /// What a name holds.
    pub(crate) fn file(&self, name: &str) -> Option<&[u8]>
        ensures { option_map (λ bytes. bytes.now) result ≡ held (contents_of self.now) name.now }
    {
        let i = index_of(&self.files, name)?;
        Some(&self.files[i].1)
    }

    pub(crate) fn stop_reading(&mut self)
        ensures contents { contents_of self.new ≡ contents_of self.old }
        ensures reading { self.new.reading ≡ None }
        ensures writing { self.new.writing ≡ self.old.writing }
    {
        self.reading = None;
    }

    pub(crate) fn start_read(&mut self, name: &str) -> Result<(), ReadStart>
        ensures ok { OnOk result ((is_some self.new.reading ≡ true) × IsSome (held (contents_of self.old) name.now) × (left_of self.new ≡ held (contents_of self.old) name.now)) }
        ensures err { OnErr result (self.new.reading ≡ None) }
        ensures missing { IsErrOf result ReadStart.Missing ↔ (held (contents_of self.old) name.now ≡ None) }
        ensures only { OnErr result (IsErrOf result ReadStart.Missing) }
        ensures contents { contents_of self.new ≡ contents_of self.old }
        ensures writing { self.new.writing ≡ self.old.writing }
    {
        self.reading = None;
        let Some(i) = index_of(&self.files, name) else {
            return Err(ReadStart::Missing);
        };
        self.reading = Some(Reading::new(&self.files, i));
        Ok(())
    }

    pub(crate) fn read(&mut self, buf: &mut [u8]) -> usize
        requires { is_some self.old.reading ≡ true }
        ensures read { IsSomeAnd (left_of self.old) (λ left. (result ≡ min (length left) (length buf.new)) × (take result buf.new ≡ take result left) × (left_of self.new ≡ Some (drop result left))) }
        ensures reading { is_some self.new.reading ≡ true }
        ensures contents { contents_of self.new ≡ contents_of self.old }
        ensures writing { self.new.writing ≡ self.old.writing }
    {
        match &mut self.reading {
            Some(reading) => reading.read(&self.files, buf),
            None => 0,
        }
    }

    pub(crate) fn stop_writing(&mut self)
        ensures contents { contents_of self.new ≡ contents_of self.old }
        ensures reading { is_some self.new.reading ≡ is_some self.old.reading }
        ensures left { left_of self.new ≡ left_of self.old }
        ensures writing { self.new.writing ≡ None }
    {
        self.writing = None;
    }

    pub(crate) fn start_write(&mut self, name: &str) -> Result<(), AllocError>
        ensures ok { OnOk result ((writing_of self.new ≡ Some name.now) × (contents_of self.new ≡ insert (contents_of self.old) name.now [])) }
        ensures err { OnErr result ((self.new.writing ≡ None) × (contents_of self.new ≡ contents_of self.old)) }
        ensures reading { is_some self.new.reading ≡ is_some self.old.reading }
        ensures left { left_of self.new ≡ left_of self.old }
    {
        self.writing = None;
        let copy = String::from_str(self.alloc, name)?;
        empty_file(self.alloc, &mut self.files, &mut self.reading, name)?;
        self.writing = Some(copy);
        Ok(())
    }

    pub(crate) fn append(&mut self, bytes: &[u8]) -> Result<(), AllocError>
        requires { IsSome (writing_of self.old) }
        ensures ok { OnOk result (IsSomeAnd (writing_of self.old) (λ name. contents_of self.new ≡ appended (contents_of self.old) name bytes.now)) }
        ensures err { OnErr result (contents_of self.new ≡ contents_of self.old) }
        ensures reading { is_some self.new.reading ≡ is_some self.old.reading }
        ensures left { left_of self.new ≡ left_of self.old }
        ensures writing { self.new.writing ≡ self.old.writing }
    {
        match &self.writing {
            Some(name) => add_to_file(self.alloc, &mut self.files, name, bytes),
            None => Ok(()),
        }
    }
}

/// The place of a name.
fn index_of(files: &[(String, Vec<u8>)], name: &str) -> Option<usize>
    ensures found { IfSome result (IsFirstIndex (entries files.now) name.now) }
    ensures absent { IfNone result (IsAbsent (entries files.now) name.now) }
    ensures holds { IfSome result (λ i. held (contents files.now) name.now ≡ option_map (λ f. f.1.items) (slice_get files.now i)) }
    ensures holds_none { IfNone result (held (contents files.now) name.now ≡ None) }
{
    for (i, file) in files.iter().enumerate() {
        if file.0.as_str() == name {
            return Some(i);
        }
    }
    None
}

/// The name holds nothing afterwards, and the read has left what it had.
fn empty_file(
    alloc: Global,
    files: &mut Vec<(String, Vec<u8>)>,
    reading: &mut Option<Reading>,
    name: &str,
) -> Result<(), AllocError>
    requires within { ForSome reading.old (IsWithin files.old.items) }
    ensures ok { OnOk result (contents files.new.items ≡ insert (contents files.old.items) name.now []) }
    ensures err { OnErr result (files.new.items ≡ files.old.items) }
    ensures within { ForSome reading.new (IsWithin files.new.items) }
    ensures reading { is_some reading.new ≡ is_some reading.old }
    ensures left { option_map (left_in files.new.items) reading.new ≡ option_map (left_in files.old.items) reading.old }
{
    match index_of(files, name) {
        Some(i) => {
            let bytes = mem::replace(&mut files[i].1, Vec::new(alloc));
            hold(reading, i, bytes);
        }
        None => files.push((String::from_str(alloc, name)?, Vec::new(alloc)))?,
    }
    Ok(())
}

/// Moves the bytes of the file at this place to the read, if it reads that file.
fn hold(reading: &mut Option<Reading>, place: usize, bytes: Vec<u8>)
    ensures { reading.new ≡ option_map (moved place (sources.Held bytes)) reading.old }
{
    if let Some(reading) = reading {
        reading.hold(place, bytes);
    }
}

/// The name has the bytes at its end afterwards.
fn add_to_file(
    alloc: Global,
    files: &mut Vec<(String, Vec<u8>)>,
    name: &str,
    bytes: &[u8],
) -> Result<(), AllocError>
    ensures ok { OnOk result (contents files.new.items ≡ appended (contents files.old.items) name.now bytes.now) }
    ensures err { OnErr result (contents files.new.items ≡ contents files.old.items) }
    ensures grows { Grows files.old.items files.new.items }
{
    match index_of(files, name) {
        Some(i) => files[i].1.extend_from_slice(bytes)?,
        None => files.push((
            String::from_str(alloc, name)?,
            Vec::from_slice(alloc, bytes)?,
        ))?,
    }
    Ok(())
}
