//! Files of a folder.
ghost use Rattle.std.specs.Prelude.{◌≡◌, ◌≤◌, length, false, is_some, option_map, Some, None, IfOk};
ghost use Rattle.std.specs.String.{string_bytes};
ghost use Rattle.apt_shelf.specs.Told.{FaultCause};
ghost use Rattle.apt_folder.specs.Folder.{folder_of, path_in};

use crate::draft::FileId;
use crate::hold::HoldFiles;
use crate::outputs::{self, Output};
use apt_shelf::{ReadStart, Shelf, ShelfFault};
use std::alloc::{AllocError, Global};
use std::fs::{self, OpenFile};
use std::io::{self, ErrorKind, Read, Write};
use std::rt::Files;

/// The files of a folder; a name that begins with `/` is taken as it is. Each error of the system
/// counts as a fault, a missing file too, but a lack of memory does not.
///
/// What is written lies beside its place until `settle` puts it there, or `discard` removes it: one of
/// them ends the writing. In its place is written at once a device or a pipe, a file to which the
/// name is a link or that has several names, and one beside which no file like it can be made.
///
/// A run holds what it has beside a place. What no run holds there was left by one that was ended:
/// `settle` and `discard` remove it beside each output, but for files that were opened.
///
/// A file that was opened is never written, nor is what standard output leads to: where a name leads
/// there, by any path or link, `start_write` answers `Fault`, the count of writing faults rises, and
/// the file stays as it is. Files are told apart by device and inode number, so a new name is taken
/// by an empty file at once.
#[derive(Drop)]
pub struct FolderShelf<'a, R: Files> {
    rt: &'a R,
    alloc: Global,
    folder: String,
    read_faults: u64,
    write_faults: u64,
    opened: Vec<FileId>,
    input: Option<R::File>,
    outputs: Vec<Output<R::File>>,
    writing: Option<String>,
}

impl<'a, R: HoldFiles> FolderShelf<'a, R> {
    /// The files of this folder.
    pub fn new(rt: &'a R, alloc: Global, folder: &str) -> Result<FolderShelf<'a, R>, AllocError>
        ensures folder { IfOk result (λ shelf. folder_of shelf ≡ folder.now) }
        ensures reading { IfOk result (λ shelf. ⟦<FolderShelf<'a, R> as Shelf>⟧.reading shelf ≡ false) }
        ensures writing { IfOk result (λ shelf. ⟦<FolderShelf<'a, R> as Shelf>⟧.writing shelf ≡ None) }
        ensures read_faults { IfOk result (λ shelf. ⟦<FolderShelf<'a, R> as Shelf>⟧.read_faults shelf ≡ 0) }
        ensures write_faults { IfOk result (λ shelf. ⟦<FolderShelf<'a, R> as Shelf>⟧.write_faults shelf ≡ 0) }
    {
        let mut opened = Vec::new(alloc);
        if let Some(id) = standard_output(rt) {
            opened.push(id)?;
        }
        Ok(FolderShelf {
            rt,
            alloc,
            folder: String::from_str(alloc, folder)?,
            read_faults: 0,
            write_faults: 0,
            opened,
            input: None,
            outputs: Vec::new(alloc),
            writing: None,
        })
    }

    /// How often reading has failed.
    pub fn read_faults(&self) -> u64
        ensures { result ≡ ⟦<FolderShelf<'a, R> as Shelf>⟧.read_faults self.now }
    {
        self.read_faults
    }

    /// How often writing has failed.
    pub fn write_faults(&self) -> u64
        ensures { result ≡ ⟦<FolderShelf<'a, R> as Shelf>⟧.write_faults self.now }
    {
        self.write_faults
    }

    /// Puts all that was written in its place, in the order in which it was begun, once the system
    /// has it on the disk. After a refusal what is not in its place is removed. Nothing is being
    /// written from then on.
    pub fn settle(&mut self) -> Result<(), ShelfFault>
        ensures cause { FaultCause (⟦<FolderShelf<'a, R> as Shelf>⟧.write_faults self.old) (⟦<FolderShelf<'a, R> as Shelf>⟧.write_faults self.new) result }
        ensures writing { ⟦<FolderShelf<'a, R> as Shelf>⟧.writing self.new ≡ None }
        ensures reading { ⟦<FolderShelf<'a, R> as Shelf>⟧.reading self.new ≡ ⟦<FolderShelf<'a, R> as Shelf>⟧.reading self.old }
        ensures read_faults { ⟦<FolderShelf<'a, R> as Shelf>⟧.read_faults self.new ≡ ⟦<FolderShelf<'a, R> as Shelf>⟧.read_faults self.old }
        ensures folder { folder_of self.new ≡ folder_of self.old }
    {
        let settled = outputs::put_in_place(self.rt, &mut self.outputs);
        self.discard();
        match settled {
            Ok(()) => Ok(()),
            Err(fault) => Err(fault.counted(&mut self.write_faults)),
        }
    }

    /// Removes all that was written and isn't in its place. Nothing is being written from then on.
    pub fn discard(&mut self)
        ensures writing { ⟦<FolderShelf<'a, R> as Shelf>⟧.writing self.new ≡ None }
        ensures reading { ⟦<FolderShelf<'a, R> as Shelf>⟧.reading self.new ≡ ⟦<FolderShelf<'a, R> as Shelf>⟧.reading self.old }
        ensures read_faults { ⟦<FolderShelf<'a, R> as Shelf>⟧.read_faults self.new ≡ ⟦<FolderShelf<'a, R> as Shelf>⟧.read_faults self.old }
        ensures write_faults { ⟦<FolderShelf<'a, R> as Shelf>⟧.write_faults self.new ≡ ⟦<FolderShelf<'a, R> as Shelf>⟧.write_faults self.old }
        ensures folder { folder_of self.new ≡ folder_of self.old }
    {
        self.writing = None;
        outputs::remove_all(self.rt, self.alloc, &mut self.outputs, &self.opened);
    }
}

/// The path of a name.
fn path_of(alloc: Global, folder: &str, name: &str) -> Result<String, AllocError>
    ensures { IfOk result (λ path. string_bytes path ≡ path_in folder.now name.now) }
{
    if name.starts_with('/') {
        String::from_str(alloc, name)
    } else {
        format!(in alloc; "{folder}/{name}")
    }
}

/// What standard output leads to, where that is known: what is printed lies there.
fn standard_output<R: Files>(rt: &R) -> Option<FileId> {
    let found = fs::metadata(rt, "/dev/stdout").ok()?;
    Some(FileId::of(&found))
}

/// A file to be read, and which one it is. One that is being written is read where its bytes lie.
fn open_source<R: Files>(
    rt: &R,
    path: &str,
    outputs: &[Output<R::File>],
) -> io::Result<(R::File, FileId)> {
    let file = fs::open(rt, path)?;
    let id = FileId::of(&file.metadata()?);
    match outputs::beside_of(outputs, id) {
        Some(beside) => Ok((fs::open(rt, beside)?, id)),
        None => Ok((file, id)),
    }
}

/// Reads some bytes to the front of the buffer. A read that a signal interrupts is tried again.
fn read_some<F: Read>(file: &mut F, buf: &mut [u8]) -> io::Result<usize>
    ensures { IfOk result (λ n. n ≤ length buf.new) }
{
    for _ in 0..u64::MAX {
        match file.read(buf) {
            Ok(count) => return Ok(count),
            Err(error) if error.kind() == ErrorKind::Interrupted => {}
            Err(error) => return Err(error),
        }
    }
    Err(io::Error::from(ErrorKind::Interrupted))
}

impl<'a, R: HoldFiles> Shelf for FolderShelf<'a, R> {
    ghost use Rattle.std.specs.String.{string_bytes};

    ghost told = { λ _. None };

    ghost reading = { λ s. is_some s.input };

    ghost left = { λ _. None };

    ghost writing = { λ s. option_map string_bytes s.writing };

    ghost read_faults = { λ s. s.read_faults };

    ghost write_faults = { λ s. s.write_faults };

    fn start_read(&mut self, name: &str) -> Result<(), ReadStart> {
        self.input = None;
        let path = path_of(self.alloc, &self.folder, name)?;
        match open_source(self.rt, path.as_str(), &self.outputs) {
            Ok((file, id)) => {
                self.opened.push(id).map_err(AllocError::from)?;
                self.input = Some(file);
                Ok(())
            }
            Err(error) if error.kind() == ErrorKind::OutOfMemory => Err(ReadStart::NoMemory),
            Err(error) => {
                self.read_faults = self.read_faults.saturating_add(1);
                if error.kind() == ErrorKind::NotFound {
                    Err(ReadStart::Missing)
                } else {
                    Err(ReadStart::Fault)
                }
            }
        }
    }

    fn read(&mut self, buf: &mut [u8]) -> Result<usize, ShelfFault> {
        let Some(file) = &mut self.input else {
            return Ok(0);
        };
        match read_some(file, buf) {
            Ok(count) => Ok(count),
            Err(error) => Err(ShelfFault::from(error).counted(&mut self.read_faults)),
        }
    }

    fn start_write(&mut self, name: &str) -> Result<(), ShelfFault> {
        self.writing = None;
        let path = path_of(self.alloc, &self.folder, name)?;
        let name = String::from_str(self.alloc, name)?;
        match outputs::begin(
            self.rt,
            self.alloc,
            path,
            &mut self.opened,
            &mut self.outputs,
        ) {
            Ok(()) => {
                self.writing = Some(name);
                Ok(())
            }
            Err(fault) => Err(fault.counted(&mut self.write_faults)),
        }
    }

    fn append(&mut self, bytes: &[u8]) -> Result<(), ShelfFault> {
        match outputs::append(&mut self.outputs, bytes) {
            Ok(()) => Ok(()),
            Err(fault) => Err(fault.counted(&mut self.write_faults)),
        }
    }
}
