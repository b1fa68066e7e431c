//! Files in memory that never fail.
ghost use Rattle.std.specs.Prelude.{◌≡◌, false, is_some, option_map, Some, None, IsOkAnd};
ghost use Rattle.apt_shelf.specs.Entries.{contents, held};
ghost use Rattle.apt_shelf.specs.Store.{left_of, writing_of};
ghost use Rattle.apt_shelf.specs.Sure.{files_of};

use crate::shelf::{ReadStart, Shelf, ShelfFault};
use crate::store::Store;
use std::alloc::{AllocError, Global};

/// Files in memory, where nothing but memory ever fails. At a name that stands twice among its
/// first files the first counts.
#[derive(Drop)]
pub struct SureShelf {
    store: Store,
}

impl SureShelf {
    /// A shelf with these files. It takes no memory.
    pub fn new(alloc: Global, files: Vec<(String, Vec<u8>)>) -> Result<SureShelf, AllocError>
        ensures told { IsOkAnd result (λ shelf. ⟦<SureShelf as Shelf>⟧.told shelf ≡ Some (contents files.items)) }
        ensures reading { IsOkAnd result (λ shelf. ⟦<SureShelf as Shelf>⟧.reading shelf ≡ false) }
        ensures writing { IsOkAnd result (λ shelf. ⟦<SureShelf as Shelf>⟧.writing shelf ≡ None) }
    {
        Ok(SureShelf {
            store: Store::new(alloc, files),
        })
    }

    /// What a name holds, if it is there.
    pub fn file(&self, name: &str) -> Option<&[u8]>
        ensures { option_map (λ bytes. bytes.now) result ≡ held (files_of self.now) name.now }
    {
        self.store.file(name)
    }
}

impl Shelf for SureShelf {
    ghost told = { λ s. Some (files_of s) };

    ghost reading = { λ s. is_some s.store.reading };

    ghost left = { λ s. left_of s.store };

    ghost writing = { λ s. writing_of s.store };

    ghost read_faults = { λ _. 0 };

    ghost write_faults = { λ _. 0 };

    fn start_read(&mut self, name: &str) -> Result<(), ReadStart> {
        self.store.start_read(name)
    }

    fn read(&mut self, buf: &mut [u8]) -> Result<usize, ShelfFault> {
        Ok(self.store.read(buf))
    }

    fn start_write(&mut self, name: &str) -> Result<(), ShelfFault> {
        Ok(self.store.start_write(name)?)
    }

    fn append(&mut self, bytes: &[u8]) -> Result<(), ShelfFault> {
        Ok(self.store.append(bytes)?)
    }
}
