//! The program `apt`, over the files of the current folder and standard output.
#![tactic(auto)]

use apt_core::{OpenGate, Status, apt};
use apt_folder::{FolderShelf, HoldFiles, StdSink};
use apt_shelf::{MemSink, ShelfFault, Sink};
use std::alloc::AllocGlobal;
use std::io::ErrorKind;
use std::process::ExitCode;
use std::rt::Env;
use std::thread::Threads;
use std::{env, fs};

/// The exit status where the words of the command line can't be read.
const WORDS_UNREADABLE: u8 = 15;

/// The exit status where memory is refused.
const NO_MEMORY: u8 = 12;

enum WordsError {
    Unreadable,
    NoMemory,
}

fn main(rt: HostRuntime) -> ExitCode {
    // a standard stream that is closed must not be taken by a file that is opened later
    let _streams = [(); 3].map(|()| fs::open(&rt, "/dev/null"));
    let alloc = rt.alloc();
    let words = match words_of(&rt) {
        Ok(words) => words,
        Err(WordsError::Unreadable) => return ExitCode::from(WORDS_UNREADABLE),
        Err(WordsError::NoMemory) => return ExitCode::from(NO_MEMORY),
    };
    let Ok(mut shelf) = FolderShelf::new(&rt, alloc, ".") else {
        return ExitCode::from(NO_MEMORY);
    };
    let status = if is_compile(&words) {
        compile(&rt, &words, &mut shelf)
    } else {
        let mut out = StdSink::new(&rt);
        apt(&rt, alloc, &words, &mut shelf, &mut out, &OpenGate)
    };
    ExitCode::from(status.number())
}

/// The words after the program's name.
fn words_of(rt: &(impl Env + AllocGlobal)) -> Result<Vec<String>, WordsError> {
    let args = match env::args(rt) {
        Ok(args) => args,
        Err(error) if error.kind() == ErrorKind::OutOfMemory => return Err(WordsError::NoMemory),
        Err(_) => return Err(WordsError::Unreadable),
    };
    let mut words = Vec::new(rt.alloc());
    for word in args.skip(1) {
        if has_control_byte(&word) {
            return Err(WordsError::Unreadable);
        }
        if words.push(word).is_err() {
            return Err(WordsError::NoMemory);
        }
    }
    Ok(words)
}

/// Whether a word has a byte that would break the line of an answer, as a line feed does.
fn has_control_byte(word: &str) -> bool {
    word.as_bytes().iter().any(|byte| byte.is_ascii_control())
}

/// Whether the words are those of the command that writes files.
fn is_compile(words: &[String]) -> bool {
    match words.first() {
        Some(word) => word.as_str() == "compile",
        None => false,
    }
}

/// Compiles a part. Its line is kept in memory until both files are in their places.
fn compile<R: HoldFiles + Print + AllocGlobal + Threads + Sync>(
    rt: &R,
    words: &[String],
    shelf: &mut FolderShelf<'_, R>,
) -> Status {
    let alloc = rt.alloc();
    let mut line = MemSink::new(alloc, Vec::new(alloc));
    let status = apt(rt, alloc, words, shelf, &mut line, &OpenGate);
    match end(rt, shelf, &status, line.bytes()) {
        Ok(()) => status,
        Err(ShelfFault::Fault) => Status::WriteFault,
        Err(ShelfFault::NoMemory) => Status::NoMemory,
    }
}

/// Puts the files in their places where both are whole, else removes what was made of them, and
/// then puts the line.
fn end<R: HoldFiles + Print>(
    rt: &R,
    shelf: &mut FolderShelf<'_, R>,
    status: &Status,
    line: &[u8],
) -> Result<(), ShelfFault> {
    match status {
        Status::Done(_) => shelf.settle()?,
        _ => shelf.discard(),
    }
    StdSink::new(rt).put(line)
}
