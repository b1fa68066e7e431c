//! The store over real files: what it reads and writes, and what the system refuses, which is told and counted once.

use apt_folder::{FolderShelf, HoldFiles, StdSink};
use apt_shelf::{ReadError, Shelf, ShelfFault, Sink, read_all, write_all};
use std::alloc::{AllocGlobal, Global};
use std::fs::{self, Permissions};
use std::os::unix::fs::{MetadataExt, PermissionsExt, symlink};
use std::process::Abort;
use std::rt::Files;
use std::test::Fail;

/// How often reading has failed so far, and how often writing has.
type Faults = (u64, u64);

fn faults<F: HoldFiles>(shelf: &FolderShelf<'_, F>) -> Faults {
    (shelf.read_faults(), shelf.write_faults())
}

/// No file read here is longer, in bytes.
const MOST: usize = 10_000;

/// Names hold these bytes.
fn assert_hold<R: Abort + AllocGlobal, F: HoldFiles>(
    rt: &R,
    shelf: &mut FolderShelf<'_, F>,
    names: &[&str],
    bytes: &[u8],
) {
    for name in names {
        let read = read_all(rt.alloc(), shelf, name, MOST);
        assert!(rt;
            matches!(&read, Ok(read) if read.as_slice() == bytes),
            "{name}"
        );
    }
}

/// Bytes are written under names.
fn assert_take<R: Abort, F: HoldFiles>(
    rt: &R,
    shelf: &mut FolderShelf<'_, F>,
    names: &[&str],
    bytes: &[u8],
) {
    for name in names {
        assert!(rt; write_all(shelf, name, bytes).is_ok(), "{name}");
    }
}

/// Names are not begun to be written.
fn assert_spare<R: Abort, F: HoldFiles>(rt: &R, shelf: &mut FolderShelf<'_, F>, names: &[&str]) {
    for name in names {
        assert!(rt; shelf.start_write(name) == Err(ShelfFault::Fault), "{name}");
    }
}

/// What is asked of a store for a name.
#[derive(Clone, Copy)]
enum Deed {
    StartRead,
    Read,
    StartWrite,
    Write,
}

/// What comes of it.
fn tried<F: HoldFiles>(
    alloc: Global,
    shelf: &mut FolderShelf<'_, F>,
    deed: Deed,
    name: &str,
) -> Result<(), ReadError> {
    match deed {
        Deed::StartRead => shelf.start_read(name)?,
        Deed::Read => {
            read_all(alloc, shelf, name, MOST)?;
        }
        Deed::StartWrite => shelf.start_write(name)?,
        Deed::Write => write_all(shelf, name, b"%")?,
    }
    Ok(())
}

/// Refusals, with how often reading and writing has failed behind each.
const REFUSED: [(Deed, &str, ReadError, Faults); 11] = [
    // what is not there
    (Deed::StartRead, "apt_no_file", ReadError::Missing, (1, 0)),
    (
        Deed::StartRead,
        "apt_no_folder/file",
        ReadError::Missing,
        (2, 0),
    ),
    (Deed::Read, "apt_no_file", ReadError::Missing, (3, 0)),
    // a folder
    (Deed::Read, "apt_names_test", ReadError::Fault, (4, 0)),
    (Deed::StartWrite, "apt_names_test", ReadError::Fault, (4, 1)),
    (Deed::Write, "apt_names_test", ReadError::Fault, (4, 2)),
    // a link to itself and a name within a file are faults for everyone, and no missing files
    (
        Deed::StartRead,
        "apt_names_test/loop",
        ReadError::Fault,
        (5, 2),
    ),
    (
        Deed::StartWrite,
        "apt_names_test/loop",
        ReadError::Fault,
        (5, 3),
    ),
    (
        Deed::StartRead,
        "apt_names_test/file/file",
        ReadError::Fault,
        (6, 3),
    ),
    (
        Deed::StartWrite,
        "apt_names_test/file/file",
        ReadError::Fault,
        (6, 4),
    ),
    // a full disk
    (Deed::Write, "/dev/full", ReadError::Fault, (6, 5)),
];

#[test]
fn what_is_refused_is_told_and_counted_once(rt: HostRuntime) -> Result<(), Fail> {
    let alloc = rt.alloc();
    let _ = fs::remove_dir_all(&rt, "apt_names_test");
    fs::create_dir(&rt, "apt_names_test")?;
    fs::write(&rt, "apt_names_test/file", "bytes")?;
    symlink(&rt, "loop", "apt_names_test/loop")?;
    let mut shelf = FolderShelf::new(&rt, alloc, ".")?;
    // the system opens a folder, and reads nothing of it; a file of no bytes is no append
    shelf.start_read("apt_names_test")?;
    assert_take(&rt, &mut shelf, &["/dev/full"], b"");
    for &(deed, name, want, count) in &REFUSED {
        let found = tried(alloc, &mut shelf, deed, name);
        assert!(rt; found == Err(want), "{name}");
        assert!(rt; faults(&shelf) == count, "{name}");
    }
    fs::remove_dir_all(&rt, "apt_names_test")?;
    Ok(())
}

const CLOSED: [(Deed, Faults); 3] = [
    (Deed::StartRead, (1, 0)),
    (Deed::Read, (2, 0)),
    (Deed::StartWrite, (2, 1)),
];

/// Whoever runs the tests as root may open every file.
#[test]
fn a_file_without_permission_is_a_fault(rt: HostRuntime) -> Result<(), Fail> {
    let _ = fs::remove_file(&rt, "apt_closed_test");
    fs::write(&rt, "apt_closed_test", "bytes")?;
    let is_root = fs::metadata(&rt, "apt_closed_test")?.uid() == 0;
    fs::set_permissions(&rt, "apt_closed_test", Permissions::from_mode(0))?;
    let mut shelf = FolderShelf::new(&rt, rt.alloc(), ".")?;
    for &(deed, count) in &CLOSED {
        let found = tried(rt.alloc(), &mut shelf, deed, "apt_closed_test");
        assert!(rt; is_root || (found == Err(ReadError::Fault) && faults(&shelf) == count));
    }
    fs::remove_file(&rt, "apt_closed_test")?;
    Ok(())
}

/// Bytes that differ from piece to piece.
fn long_bytes(alloc: Global, length: u32) -> Result<Vec<u8>, Fail> {
    let mut bytes = Vec::new(alloc);
    for i in 0..length {
        bytes.push((i % 251) as u8)?;
    }
    Ok(bytes)
}

#[test]
fn a_file_of_several_pieces_is_read_whole(rt: HostRuntime) -> Result<(), Fail> {
    for length in [4095, 4096, 4097, 10_000] {
        let bytes = long_bytes(rt.alloc(), length)?;
        let mut shelf = FolderShelf::new(&rt, rt.alloc(), ".")?;
        assert_take(&rt, &mut shelf, &["apt_pieces_test"], &bytes);
        assert_hold(&rt, &mut shelf, &["apt_pieces_test"], &bytes);
        shelf.settle()?;
        fs::remove_file(&rt, "apt_pieces_test")?;
    }
    Ok(())
}

#[test]
fn folder_keeps_files(rt: HostRuntime) -> Result<(), Fail> {
    let mut shelf = FolderShelf::new(&rt, rt.alloc(), ".")?;
    assert_take(&rt, &mut shelf, &["apt_shelf_test.txt"], b"hello");
    assert_hold(&rt, &mut shelf, &["apt_shelf_test.txt"], b"hello");
    assert_spare(&rt, &mut shelf, &["no_folder/file"]);
    assert_hold(&rt, &mut shelf, &["/dev/null"], b"");
    shelf.settle()?;
    fs::remove_file(&rt, "apt_shelf_test.txt")?;
    Ok(())
}

/// A folder of three files, with two links to the first.
fn make_folder<R: Files + AllocGlobal>(rt: &R) -> Result<(), Fail> {
    let _ = fs::remove_dir_all(rt, "apt_shelf_test");
    fs::create_dir(rt, "apt_shelf_test")?;
    fs::write(rt, "apt_shelf_test/part", "bytes")?;
    fs::write(rt, "apt_shelf_test/machine", "bytes")?;
    fs::write(rt, "apt_shelf_test/tape", "bytes")?;
    symlink(rt, "part", "apt_shelf_test/soft")?;
    fs::hard_link(rt, "apt_shelf_test/part", "apt_shelf_test/hard")?;
    Ok(())
}

#[test]
fn folder_spares_what_it_opened(rt: HostRuntime) -> Result<(), Fail> {
    make_folder(&rt)?;
    let whole = fs::canonicalize(&rt, "apt_shelf_test/part")?;
    let mut shelf = FolderShelf::new(&rt, rt.alloc(), "apt_shelf_test")?;
    assert_hold(&rt, &mut shelf, &["part", "machine"], b"bytes");
    assert_spare(
        &rt,
        &mut shelf,
        &["./part", "part", "soft", "hard", "./machine"],
    );
    assert_spare(&rt, &mut shelf, &["../apt_shelf_test/part"]);
    assert_spare(&rt, &mut shelf, &[whole.as_str()]);
    assert!(rt; faults(&shelf) == (0, 7));
    assert_hold(&rt, &mut shelf, &["part", "machine"], b"bytes");
    // another file is emptied and written, a new one too, and a device
    assert_take(&rt, &mut shelf, &["./tape", "new", "/dev/null"], b"%");
    assert_spare(&rt, &mut shelf, &["tape"]);
    assert!(rt; faults(&shelf) == (0, 8));
    assert_hold(&rt, &mut shelf, &["tape", "new"], b"%");
    fs::remove_dir_all(&rt, "apt_shelf_test")?;
    Ok(())
}

/// Whether there is something under names.
fn assert_there<R: Abort + Files>(rt: &R, names: &[&str], want: bool) -> Result<(), Fail> {
    for name in names {
        let found = fs::exists(rt, *name)?;
        assert!(rt; found == want, "{name}");
    }
    Ok(())
}

/// What lies in the folder under the names of drafts, which no run is at work on.
const LEFT: [&str; 4] = [
    "apt_shelf_test/tape.unfinished-1",
    "apt_shelf_test/tape.unfinished-2",
    "apt_shelf_test/tape.unfinished-4",
    "apt_shelf_test/new.unfinished-4",
];

#[test]
fn what_was_left_beside_outputs_is_cleared(rt: HostRuntime) -> Result<(), Fail> {
    make_folder(&rt)?;
    for name in LEFT {
        fs::write(&rt, name, "left")?;
    }
    fs::create_dir(&rt, "apt_shelf_test/tape.unfinished-3")?;
    let mut shelf = FolderShelf::new(&rt, rt.alloc(), "apt_shelf_test")?;
    assert_hold(&rt, &mut shelf, &["tape.unfinished-2"], b"left");
    assert_take(&rt, &mut shelf, &["tape", "new"], b"%");
    let mut other = FolderShelf::new(&rt, rt.alloc(), "apt_shelf_test")?;
    assert_take(&rt, &mut other, &["tape"], b"+");
    shelf.settle()?;
    let gone = [LEFT[0], LEFT[2], LEFT[3]];
    assert_there(&rt, &gone, false)?;
    // an input, a folder, and what another run is at work on
    let kept = [
        LEFT[1],
        "apt_shelf_test/tape.unfinished-3",
        "apt_shelf_test/tape.unfinished-6",
    ];
    assert_there(&rt, &kept, true)?;
    other.settle()?;
    assert_there(&rt, &[kept[0], kept[2]], false)?;
    assert_hold(&rt, &mut shelf, &["tape"], b"+");
    fs::remove_dir_all(&rt, "apt_shelf_test")?;
    Ok(())
}

#[test]
fn standard_output_takes_a_line(rt: HostRuntime) -> Result<(), Fail> {
    let mut sink = StdSink::new(&rt);
    sink.put(b"a line\n")?;
    Ok(())
}
