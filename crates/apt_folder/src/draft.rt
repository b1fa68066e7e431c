//! Drafts: files beside the places of outputs, until all outputs are whole.
use crate::hold::HoldFiles;
use apt_shelf::ShelfFault;
use std::alloc::{AllocError, Global};
use std::fs::{self, Metadata, OpenFile, OpenOptions};
use std::io::{self, ErrorKind};
use std::os::unix::fs::MetadataExt;
use std::rt::Files;

/// How many names are tried for a draft.
const NAMES: u32 = 9999;

/// How many of them are looked at for what was left, even where nothing lies under them: fewer runs
/// write at one place at once.
const LOOKED_AT: u32 = 4;

/// Which file it is, under whatever name. Under a runtime that numbers no files all are alike.
#[derive(Clone, Copy, PartialEq, Eq)]
pub(crate) struct FileId {
    device: u64,
    inode: u64,
}

impl FileId {
    pub(crate) fn of(file: &Metadata) -> FileId {
        FileId {
            device: file.dev(),
            inode: file.ino(),
        }
    }
}

/// A file beside the place of an output. It is held as long as it is open, where the system can
/// hold files: one that no run holds was left by a run that was ended.
#[derive(Drop)]
pub(crate) struct Draft<F> {
    pub(crate) file: F,
    pub(crate) path: String,
    pub(crate) id: FileId,
}

/// A file that was not there before.
pub(crate) fn open_new<R: Files>(rt: &R, path: &str) -> io::Result<R::File> {
    OpenOptions::new()
        .write(true)
        .create_new(true)
        .open(rt, path)
}

/// A draft beside a path, with the permissions of the file there. `None` where none can be made
/// that is like it.
pub(crate) fn make_beside<R: HoldFiles>(
    rt: &R,
    alloc: Global,
    path: &str,
    found: &Metadata,
) -> Result<Option<Draft<R::File>>, ShelfFault> {
    let Some(draft) = open_beside(rt, alloc, path)? else {
        return Ok(None);
    };
    match make_alike(&draft.file, found) {
        Ok(true) => Ok(Some(draft)),
        Ok(false) => {
            fs::remove_file(rt, &draft.path)?;
            Ok(None)
        }
        Err(error) => {
            let _ = fs::remove_file(rt, &draft.path);
            Err(ShelfFault::from(error))
        }
    }
}

/// A draft beside a path, under the first name that is free. `None` where the system lets no file
/// be made there, or the name is too long.
fn open_beside<R: HoldFiles>(
    rt: &R,
    alloc: Global,
    path: &str,
) -> Result<Option<Draft<R::File>>, ShelfFault> {
    for number in 1..=NAMES {
        let beside = format!(in alloc; "{path}.unfinished-{number}")?;
        match open_free(rt, beside.as_str()) {
            Ok(Some((file, id))) => {
                return Ok(Some(Draft {
                    file,
                    path: beside,
                    id,
                }));
            }
            Ok(None) => {}
            Err(error) => match error.kind() {
                ErrorKind::PermissionDenied
                | ErrorKind::ReadOnlyFilesystem
                | ErrorKind::InvalidFilename => return Ok(None),
                _ => return Err(ShelfFault::from(error)),
            },
        }
    }
    Err(ShelfFault::Fault)
}

/// A new file of this name, and which one it is; `None` where the name is taken.
fn open_free<R: HoldFiles>(rt: &R, path: &str) -> io::Result<Option<(R::File, FileId)>> {
    match open_new(rt, path) {
        Ok(file) => match hold_new(rt, path, &file) {
            Ok(Some(id)) => Ok(Some((file, id))),
            Ok(None) => Ok(None),
            Err(error) => {
                let _ = fs::remove_file(rt, path);
                Err(error)
            }
        },
        Err(error) if error.kind() == ErrorKind::AlreadyExists => Ok(None),
        Err(error) => Err(error),
    }
}

/// Holds a file that was made just now, and says which one it is; `None` where another run took it
/// for a left one before it was held. Where files can't be held no run takes it for one.
fn hold_new<R: HoldFiles>(rt: &R, path: &str, file: &R::File) -> io::Result<Option<FileId>> {
    if let Ok(false) = rt.try_hold(file) {
        return Ok(None);
    }
    let id = FileId::of(&file.metadata()?);
    if leads_to(rt, path, id)? {
        Ok(Some(id))
    } else {
        Ok(None)
    }
}

/// Whether a path leads to this file, and not by a link.
fn leads_to<R: Files>(rt: &R, path: &str, id: FileId) -> io::Result<bool> {
    match fs::symlink_metadata(rt, path) {
        Ok(found) => Ok(FileId::of(&found) == id),
        Err(error) if error.kind() == ErrorKind::NotFound => Ok(false),
        Err(error) => Err(error),
    }
}

/// Gives a file the permissions of another; `false` where it can't have them, or has another user
/// or group.
fn make_alike<F: OpenFile>(file: &F, found: &Metadata) -> io::Result<bool> {
    let made = file.metadata()?;
    if made.uid() != found.uid() || made.gid() != found.gid() {
        return Ok(false);
    }
    Ok(made.mode() == found.mode() || file.set_permissions(found.permissions()).is_ok())
}

/// Removes the drafts beside a path that were left by runs that were ended, but none of the files
/// that were opened. What the system doesn't let go stays.
pub(crate) fn clear_beside<R: HoldFiles>(
    rt: &R,
    alloc: Global,
    path: &str,
    opened: &[FileId],
) -> Result<(), AllocError> {
    for number in 1..=NAMES {
        let beside = format!(in alloc; "{path}.unfinished-{number}")?;
        match fs::symlink_metadata(rt, beside.as_str()) {
            Ok(found) if may_be_draft(&found) && !opened.contains(&FileId::of(&found)) => {
                let _ = remove_left(rt, beside.as_str(), FileId::of(&found));
            }
            Ok(_) => {}
            Err(_) if number < LOOKED_AT => {}
            Err(_) => break,
        }
    }
    Ok(())
}

/// Whether it may be a draft: a regular file that has one name.
fn may_be_draft(found: &Metadata) -> bool {
    found.is_file() && found.nlink() == 1
}

/// Removes this file, unless a run holds it or another lies at its path by now.
fn remove_left<R: HoldFiles>(rt: &R, path: &str, id: FileId) -> io::Result<()> {
    let file = OpenOptions::new().write(true).open(rt, path)?;
    let is_same = FileId::of(&file.metadata()?) == id;
    // another run may have removed it, and put its own there, until it was held
    if is_same && rt.try_hold(&file)? && leads_to(rt, path, id)? {
        fs::remove_file(rt, path)?;
    }
    Ok(())
}
