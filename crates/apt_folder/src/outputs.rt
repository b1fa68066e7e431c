//! Files of a folder that are written: beside their places, until all of them are whole.
use crate::draft::{Draft, FileId, clear_beside, make_beside, open_new};
use crate::hold::HoldFiles;
use apt_shelf::ShelfFault;
use std::alloc::{AllocError, Global};
use std::fs::{self, Metadata, OpenFile, OpenOptions};
use std::io::{self, ErrorKind, Write};
use std::os::unix::fs::MetadataExt;
use std::rt::Files;

/// A file that is written.
#[derive(Drop)]
pub(crate) struct Output<F> {
    /// What its path leads to. It is kept open, so that no other file gets its number.
    place: F,
    path: String,
    id: Option<FileId>,
    /// Whether nothing was there before.
    is_new: bool,
    /// Whether it is a regular file, and no device or pipe.
    is_regular: bool,
    /// Where its bytes lie until they are put in their place; without it they go there at once.
    draft: Option<Draft<F>>,
}

/// Begins to write what a path leads to, which must be none of the files that were opened. It is
/// opened with its bytes: they stay until the output is put in its place, or else are dropped now.
pub(crate) fn begin<R: HoldFiles>(
    rt: &R,
    alloc: Global,
    path: String,
    opened: &mut Vec<FileId>,
    outputs: &mut Vec<Output<R::File>>,
) -> Result<(), ShelfFault> {
    sync(outputs)?;
    outputs.reserve(1)?;
    let (place, is_new) = open_place(rt, path.as_str())?;
    let mut output = Output {
        place,
        path,
        id: None,
        is_new,
        is_regular: false,
        draft: None,
    };
    match prepare(rt, alloc, &mut output, opened) {
        Ok(()) => Ok(outputs.push(output).map_err(AllocError::from)?),
        Err(fault) => {
            remove(rt, &output);
            Err(fault)
        }
    }
}

/// What a path leads to, with its bytes, or a new file there, and whether it is new.
fn open_place<R: Files>(rt: &R, path: &str) -> io::Result<(R::File, bool)> {
    match open_new(rt, path) {
        Ok(file) => Ok((file, true)),
        Err(error) => {
            // a link may lead to a file that is still to be made
            let is_there = error.kind() == ErrorKind::AlreadyExists;
            let file = OpenOptions::new()
                .write(true)
                .create(is_there)
                .open(rt, path)?;
            Ok((file, false))
        }
    }
}

/// Finds out what was opened, and makes a file beside it, or empties it.
fn prepare<R: HoldFiles>(
    rt: &R,
    alloc: Global,
    output: &mut Output<R::File>,
    opened: &mut Vec<FileId>,
) -> Result<(), ShelfFault> {
    let found = output.place.metadata()?;
    let id = FileId::of(&found);
    if opened.contains(&id) {
        return Err(ShelfFault::Fault);
    }
    opened.push(id).map_err(AllocError::from)?;
    output.id = Some(id);
    // a device or a pipe has no length
    if !found.is_file() {
        return Ok(());
    }
    output.is_regular = true;
    if is_alone(rt, output.path.as_str(), &found)? {
        if let Some(draft) = make_beside(rt, alloc, output.path.as_str(), &found)? {
            let id = draft.id;
            output.draft = Some(draft);
            opened.push(id).map_err(AllocError::from)?;
            return Ok(());
        }
    }
    Ok(output.place.set_len(0)?)
}

/// Whether a file has this name alone, which is no link to it. One in whose place another has come
/// meanwhile is refused: its bytes would be lost.
fn is_alone<R: Files>(rt: &R, path: &str, found: &Metadata) -> Result<bool, ShelfFault> {
    let id = FileId::of(found);
    if FileId::of(&fs::metadata(rt, path)?) != id {
        return Err(ShelfFault::Fault);
    }
    let named = fs::symlink_metadata(rt, path)?;
    Ok(found.nlink() == 1 && FileId::of(&named) == id)
}

/// Adds bytes to the last output.
pub(crate) fn append<F: Write>(outputs: &mut [Output<F>], bytes: &[u8]) -> Result<(), ShelfFault> {
    let Some(output) = outputs.last_mut() else {
        return Err(ShelfFault::Fault);
    };
    match &mut output.draft {
        Some(draft) => draft.file.write_all(bytes)?,
        None => output.place.write_all(bytes)?,
    }
    Ok(())
}

/// Waits until the bytes of the last output lie on the disk. A device or a pipe has none there.
fn sync<F: OpenFile>(outputs: &[Output<F>]) -> io::Result<()> {
    match outputs.last() {
        Some(output) if output.is_regular => match &output.draft {
            Some(draft) => draft.file.sync_all(),
            None => output.place.sync_all(),
        },
        _ => Ok(()),
    }
}

/// Puts all outputs in their places, the first one first, once the last one lies on the disk too.
pub(crate) fn put_in_place<R: Files>(
    rt: &R,
    outputs: &mut [Output<R::File>],
) -> Result<(), ShelfFault> {
    sync(outputs)?;
    for output in outputs.iter_mut() {
        if let Some(draft) = &output.draft {
            fs::rename(rt, &draft.path, &output.path)?;
        }
        output.draft = None;
        output.is_new = false;
    }
    Ok(())
}

/// Removes what was made for outputs that are not in their places, and what earlier runs left
/// beside the places, and forgets all outputs.
pub(crate) fn remove_all<R: HoldFiles>(
    rt: &R,
    alloc: Global,
    outputs: &mut Vec<Output<R::File>>,
    opened: &[FileId],
) {
    for output in outputs.iter() {
        remove(rt, output);
        if output.is_regular {
            let _ = clear_beside(rt, alloc, &output.path, opened);
        }
    }
    outputs.clear();
}

/// Removes what was made for an output that is not in its place.
fn remove<R: Files>(rt: &R, output: &Output<R::File>) {
    if let Some(draft) = &output.draft {
        let _ = fs::remove_file(rt, &draft.path);
    }
    if output.is_new && !is_replaced(rt, output) {
        let _ = fs::remove_file(rt, &output.path);
    }
}

/// Whether another file lies at the place of an output by now: another run may have put it there.
fn is_replaced<R: Files>(rt: &R, output: &Output<R::File>) -> bool {
    match (output.id, fs::symlink_metadata(rt, &output.path)) {
        (Some(id), Ok(found)) => FileId::of(&found) != id,
        _ => false,
    }
}

/// Where the bytes of a file lie that is written, if not in its place.
pub(crate) fn beside_of<F>(outputs: &[Output<F>], place: FileId) -> Option<&str> {
    for output in outputs {
        if output.id == Some(place) {
            return match &output.draft {
                Some(draft) => Some(draft.path.as_str()),
                None => None,
            };
        }
    }
    None
}
