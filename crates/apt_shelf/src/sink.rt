//! Where lines are put.
ghost use Rattle.std.specs.Prelude.{◌≡◌, ◌++◌, ◌/◌, [], length, take, true, Some, None, OnOk, OnErr, IsErr, IsErrOf};
ghost use Rattle.apt_shelf.specs.Told.{Puts, PutsPrefix, FaultCause};
ghost use Rattle.apt_shelf.specs.Tally.{uncalled, fails_next, counted, faults_after};
ghost use Rattle.apt_shelf.specs.Sink.{shown_of, faults_of, puts_of};

use crate::shelf::{ShelfFault, Sink};
use crate::tally::Tally;
use std::alloc::Global;

/// A sink in memory, with puts that fail by their numbers, from 1.
#[derive(Drop)]
pub struct MemSink {
    bytes: Vec<u8>,
    puts: Tally,
    faults: u64,
}

impl MemSink {
    /// An empty sink, on which these puts fail. It takes no memory.
    pub fn new(alloc: Global, fail: Vec<u64>) -> MemSink
        ensures shown { ⟦<MemSink as Sink>⟧.shown result ≡ Some [] }
        ensures faults { ⟦<MemSink as Sink>⟧.faults result ≡ 0 }
        ensures calls { puts_of result ≡ uncalled fail.items }
    {
        MemSink {
            bytes: Vec::new(alloc),
            puts: Tally::new(fail),
            faults: 0,
        }
    }

    /// What was put.
    pub fn bytes(&self) -> &[u8]
        ensures { ⟦<MemSink as Sink>⟧.shown self.now ≡ Some result.now }
    {
        &self.bytes
    }
}

impl Sink for MemSink {
    ghost shown = { λ s. Some (shown_of s) };

    ghost faults = { faults_of };

    /// A failing put keeps the first half of its bytes, rounded down. Where memory lacks for that
    /// half it answers NoMemory, and keeps nothing.
    fn put(&mut self, bytes: &[u8]) -> Result<(), ShelfFault>
        ensures ok { OnOk result (Puts bytes.now (Some (shown_of self.old)) (Some (shown_of self.new))) }
        ensures err { OnErr result (PutsPrefix bytes.now (Some (shown_of self.old)) (Some (shown_of self.new))) }
        ensures cause { FaultCause (faults_of self.old) (faults_of self.new) result }
        ensures calls { puts_of self.new ≡ counted (puts_of self.old) }
        ensures fails { fails_next (puts_of self.old) ≡ true → IsErr result }
        ensures fault { IsErrOf result ShelfFault.Fault → fails_next (puts_of self.old) ≡ true }
        ensures half { IsErrOf result ShelfFault.Fault → shown_of self.new ≡ shown_of self.old ++ take (length bytes.now / 2) bytes.now }
        ensures no_memory { IsErrOf result ShelfFault.NoMemory → shown_of self.new ≡ shown_of self.old }
        ensures counted { faults_of self.new ≡ faults_after (puts_of self.old) (faults_of self.old) }
    {
        if self.puts.next_fails(&mut self.faults) {
            self.bytes.extend_from_slice(&bytes[..bytes.len() / 2])?;
            return Err(ShelfFault::Fault);
        }
        Ok(self.bytes.extend_from_slice(bytes)?)
    }
}
