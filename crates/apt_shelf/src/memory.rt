//! Files in memory.
ghost use Rattle.std.specs.Prelude.{◌≡◌, ◌↔◌, ◌<◌, ◌≤◌, ◌-◌, ◌/◌, ◌^◌, [], min, length, take, true, false, option_map, Some, None, IsSome, IsSomeAnd, IfOk, OnOk, OnErr, IsErr, IsErrOf, IsOkAnd};
ghost use Rattle.std.specs.FinMap.{insert};
ghost use Rattle.apt_shelf.specs.Told.{appended, Steps, StartsAt, Lacks, Takes, MayBeEmptied, KeepsPrefix, Adds, StartCause, FaultCause};
ghost use Rattle.apt_shelf.specs.Tally.{no_fails, fails_next, counted, faults_after};
ghost use Rattle.apt_shelf.specs.Memory.{files_of, told_of, reading_of, left_of, writing_of, read_faults_of, write_faults_of, calls_of, none_called, step_of, made_of};
ghost use Rattle.apt_shelf.specs.Entries.{contents, held};

use crate::shelf::{ReadStart, Shelf, ShelfFault};
use crate::step::Step;
use crate::store::Store;
use crate::tally::Tally;
use std::alloc::{AllocError, Global};
use std::marker::Model;

/// The calls that fail, of each kind by their numbers, from 1.
#[derive(Drop)]
pub struct FailList {
    pub read_starts: Vec<u64>,
    pub reads: Vec<u64>,
    pub write_starts: Vec<u64>,
    pub appends: Vec<u64>,
}

impl Model for FailList {
    ghost use Rattle.apt_shelf.specs.Tally.{FailLists};

    ghost Value = { FailLists };

    ghost view = { λ f. record { read_starts = f.read_starts.items; reads = f.reads.items; write_starts = f.write_starts.items; appends = f.appends.items } };
}

impl FailList {
    /// No call fails.
    pub fn none(alloc: Global) -> FailList
        ensures { result ≡ no_fails }
    {
        FailList {
            read_starts: Vec::new(alloc),
            reads: Vec::new(alloc),
            write_starts: Vec::new(alloc),
            appends: Vec::new(alloc),
        }
    }
}

/// The calls on a shelf, of each kind.
#[derive(Drop)]
pub struct ShelfCalls {
    read_starts: Tally,
    reads: Tally,
    write_starts: Tally,
    appends: Tally,
}

/// How many calls on a shelf were made so far, of each kind. One that failed counts too.
#[derive(Clone, Copy, Debug, PartialEq, Eq)]
pub struct Calls {
    pub read_starts: u64,
    pub reads: u64,
    pub write_starts: u64,
    pub appends: u64,
}

/// Files in memory, with calls that fail by their numbers. At a name that stands twice among its
/// first files the first counts.
#[derive(Drop)]
pub struct MemShelf {
    store: Store,
    calls: ShelfCalls,
    read_faults: u64,
    write_faults: u64,
    /// How many bytes a read gives at most.
    step: Step,
}

impl MemShelf {
    /// A shelf with these files, on which these calls fail. It takes no memory.
    pub fn new(
        alloc: Global,
        files: Vec<(String, Vec<u8>)>,
        fail: FailList,
    ) -> Result<MemShelf, AllocError>
        ensures told { IsOkAnd result (λ shelf. ⟦<MemShelf as Shelf>⟧.told shelf ≡ Some (contents files.items)) }
        ensures reading { IsOkAnd result (λ shelf. ⟦<MemShelf as Shelf>⟧.reading shelf ≡ false) }
        ensures writing { IsOkAnd result (λ shelf. ⟦<MemShelf as Shelf>⟧.writing shelf ≡ None) }
        ensures read_faults { IsOkAnd result (λ shelf. ⟦<MemShelf as Shelf>⟧.read_faults shelf ≡ 0) }
        ensures write_faults { IsOkAnd result (λ shelf. ⟦<MemShelf as Shelf>⟧.write_faults shelf ≡ 0) }
        ensures calls { IsOkAnd result (λ shelf. calls_of shelf ≡ none_called fail) }
        ensures step { IsOkAnd result (λ shelf. step_of shelf ≡ 2 ^ 64 - 1) }
    {
        MemShelf::slow(alloc, files, fail, usize::MAX)
    }

    /// The same shelf, of which a read gives at most so many bytes.
    pub fn slow(
        alloc: Global,
        files: Vec<(String, Vec<u8>)>,
        fail: FailList,
        step: usize,
    ) -> Result<MemShelf, AllocError>
        requires step { 1 ≤ step }
        ensures told { IsOkAnd result (λ shelf. ⟦<MemShelf as Shelf>⟧.told shelf ≡ Some (contents files.items)) }
        ensures reading { IsOkAnd result (λ shelf. ⟦<MemShelf as Shelf>⟧.reading shelf ≡ false) }
        ensures writing { IsOkAnd result (λ shelf. ⟦<MemShelf as Shelf>⟧.writing shelf ≡ None) }
        ensures read_faults { IsOkAnd result (λ shelf. ⟦<MemShelf as Shelf>⟧.read_faults shelf ≡ 0) }
        ensures write_faults { IsOkAnd result (λ shelf. ⟦<MemShelf as Shelf>⟧.write_faults shelf ≡ 0) }
        ensures calls { IsOkAnd result (λ shelf. calls_of shelf ≡ none_called fail) }
        ensures step { IsOkAnd result (λ shelf. step_of shelf ≡ step) }
    {
        Ok(MemShelf {
            store: Store::new(alloc, files),
            calls: ShelfCalls {
                read_starts: Tally::new(fail.read_starts),
                reads: Tally::new(fail.reads),
                write_starts: Tally::new(fail.write_starts),
                appends: Tally::new(fail.appends),
            },
            read_faults: 0,
            write_faults: 0,
            step: Step::new(step),
        })
    }

    /// What a name holds, if it is there.
    pub fn file(&self, name: &str) -> Option<&[u8]>
        ensures { option_map (λ bytes. bytes.now) result ≡ held (files_of self.now) name.now }
    {
        self.store.file(name)
    }

    /// The calls that were made so far. It takes no memory.
    pub fn calls(&self) -> Calls
        ensures { result ≡ made_of (calls_of self.now) }
    {
        Calls {
            read_starts: self.calls.read_starts.made(),
            reads: self.calls.reads.made(),
            write_starts: self.calls.write_starts.made(),
            appends: self.calls.appends.made(),
        }
    }
}

impl Shelf for MemShelf {
    ghost told = { told_of };

    ghost reading = { reading_of };

    ghost left = { left_of };

    ghost writing = { writing_of };

    ghost read_faults = { read_faults_of };

    ghost write_faults = { write_faults_of };

    fn start_read(&mut self, name: &str) -> Result<(), ReadStart>
        ensures ok { OnOk result ((reading_of self.new ≡ true) × StartsAt (told_of self.old) name.now (left_of self.new)) }
        ensures err { OnErr result (reading_of self.new ≡ false) }
        ensures missing { IsErrOf result ReadStart.Missing → Lacks (told_of self.old) name.now (read_faults_of self.old) (read_faults_of self.new) }
        ensures cause { StartCause (read_faults_of self.old) (read_faults_of self.new) result }
        ensures told { told_of self.new ≡ told_of self.old }
        ensures writing { writing_of self.new ≡ writing_of self.old }
        ensures write_faults { write_faults_of self.new ≡ write_faults_of self.old }
        ensures calls { calls_of self.new ≡ record (calls_of self.old) { read_starts = counted (calls_of self.old).read_starts } }
        ensures fails { IsErrOf result ReadStart.Fault ↔ (fails_next (calls_of self.old).read_starts ≡ true) }
        ensures lacks { IsErrOf result ReadStart.Missing ↔ ((fails_next (calls_of self.old).read_starts ≡ false) × (held (files_of self.old) name.now ≡ None)) }
        ensures counted { read_faults_of self.new ≡ faults_after (calls_of self.old).read_starts (read_faults_of self.old) }
        ensures step { step_of self.new ≡ step_of self.old }
    {
        self.store.stop_reading();
        if self.calls.read_starts.next_fails(&mut self.read_faults) {
            return Err(ReadStart::Fault);
        }
        self.store.start_read(name)
    }

    fn read(&mut self, buf: &mut [u8]) -> Result<usize, ShelfFault>
        requires started { reading_of self.old ≡ true }
        requires room { 0 < length buf.old }
        ensures within { IfOk result (λ n. n ≤ length buf.new) }
        ensures taken { IfOk result (λ n. Takes (left_of self.old) (left_of self.new) n buf.new) }
        ensures err { OnErr result (left_of self.new ≡ left_of self.old) }
        ensures reading { reading_of self.new ≡ true }
        ensures cause { FaultCause (read_faults_of self.old) (read_faults_of self.new) result }
        ensures told { told_of self.new ≡ told_of self.old }
        ensures writing { writing_of self.new ≡ writing_of self.old }
        ensures write_faults { write_faults_of self.new ≡ write_faults_of self.old }
        ensures calls { calls_of self.new ≡ record (calls_of self.old) { reads = counted (calls_of self.old).reads } }
        ensures fails { IsErr result ↔ (fails_next (calls_of self.old).reads ≡ true) }
        ensures fault { OnErr result (IsErrOf result ShelfFault.Fault) }
        ensures most { IfOk result (λ n. IsSomeAnd (left_of self.old) (λ left. n ≡ min (step_of self.old) (min (length left) (length buf.new)))) }
        ensures counted { read_faults_of self.new ≡ faults_after (calls_of self.old).reads (read_faults_of self.old) }
        ensures step { step_of self.new ≡ step_of self.old }
    {
        if self.calls.reads.next_fails(&mut self.read_faults) {
            return Err(ShelfFault::Fault);
        }
        let n = self.step.within(buf.len());
        Ok(self.store.read(&mut buf[..n]))
    }

    fn start_write(&mut self, name: &str) -> Result<(), ShelfFault>
        ensures ok { OnOk result ((writing_of self.new ≡ Some name.now) × Steps (λ m. insert m name.now []) (told_of self.old) (told_of self.new)) }
        ensures err { OnErr result ((writing_of self.new ≡ None) × MayBeEmptied name.now (told_of self.old) (told_of self.new)) }
        ensures cause { FaultCause (write_faults_of self.old) (write_faults_of self.new) result }
        ensures reading { reading_of self.new ≡ reading_of self.old }
        ensures left { left_of self.new ≡ left_of self.old }
        ensures read_faults { read_faults_of self.new ≡ read_faults_of self.old }
        ensures calls { calls_of self.new ≡ record (calls_of self.old) { write_starts = counted (calls_of self.old).write_starts } }
        ensures fails { IsErrOf result ShelfFault.Fault ↔ (fails_next (calls_of self.old).write_starts ≡ true) }
        ensures counted { write_faults_of self.new ≡ faults_after (calls_of self.old).write_starts (write_faults_of self.old) }
        ensures step { step_of self.new ≡ step_of self.old }
    {
        self.store.stop_writing();
        if self.calls.write_starts.next_fails(&mut self.write_faults) {
            return Err(ShelfFault::Fault);
        }
        Ok(self.store.start_write(name)?)
    }

    /// A failing append keeps the first half of its bytes, rounded down. Where memory lacks for
    /// that half it answers NoMemory, and keeps nothing.
    fn append(&mut self, bytes: &[u8]) -> Result<(), ShelfFault>
        requires started { IsSome (writing_of self.old) }
        ensures ok { OnOk result ((writing_of self.new ≡ writing_of self.old) × Adds (writing_of self.old) bytes.now (told_of self.old) (told_of self.new)) }
        ensures err { OnErr result (KeepsPrefix (writing_of self.old) bytes.now (told_of self.old) (told_of self.new)) }
        ensures cause { FaultCause (write_faults_of self.old) (write_faults_of self.new) result }
        ensures reading { reading_of self.new ≡ reading_of self.old }
        ensures left { left_of self.new ≡ left_of self.old }
        ensures read_faults { read_faults_of self.new ≡ read_faults_of self.old }
        ensures calls { calls_of self.new ≡ record (calls_of self.old) { appends = counted (calls_of self.old).appends } }
        ensures fails { fails_next (calls_of self.old).appends ≡ true → IsErr result }
        ensures fault { IsErrOf result ShelfFault.Fault → fails_next (calls_of self.old).appends ≡ true }
        ensures half { IsErrOf result ShelfFault.Fault → IsSomeAnd (writing_of self.old) (λ name. files_of self.new ≡ appended (files_of self.old) name (take (length bytes.now / 2) bytes.now)) }
        ensures no_memory { IsErrOf result ShelfFault.NoMemory → files_of self.new ≡ files_of self.old }
        ensures counted { write_faults_of self.new ≡ faults_after (calls_of self.old).appends (write_faults_of self.old) }
        ensures step { step_of self.new ≡ step_of self.old }
    {
        if self.calls.appends.next_fails(&mut self.write_faults) {
            self.store.append(&bytes[..bytes.len() / 2])?;
            return Err(ShelfFault::Fault);
        }
        Ok(self.store.append(bytes)?)
    }
}
