//! The files that a command reads.

ghost use Rattle.std.specs.Prelude.{◌≡◌, ◌+◌, ◌<◌, ◌≤◌, ◌^◌, ℕ, List, [], ◌∷◌, length, Ok, IfOk, IfErr, IsErrOf, MatchResult};
ghost use Rattle.apt_shelf.specs.Told.{Lacks, Rose};
ghost use Rattle.apt_shelf.specs.Files.{IsLongerAt};
ghost use Rattle.apt_records.specs.Ranges.{AreRecords, vertex_count};
ghost use Rattle.apt_cldata.specs.Reading.{read_of};
ghost use Rattle.apt_part.specs.Promise.{file_limit};
ghost use Rattle.apt_core.specs.Due.{ComesToNone, records_due};
ghost use Rattle.apt_core.specs.Inputs.{input, files_on, AreRead, Reads, IsStopped, IsToldFor};
ghost use Rattle.apt_tape.specs.Runs.{IsTaken};
ghost use Rattle.apt_tape.specs.Tapes.{run_on};

use crate::due::cl_answer;
use crate::intake::{Intake, records_of};
use apt_clreader::ClReader;
use apt_control::ControlError;
use apt_machine::Machine;
use apt_records::Record;
use apt_report::{FileName, Status};
use apt_shelf::{ReadError, Shelf, read_all, read_piece};
use apt_tape::{Taker, TapeRun};
use std::alloc::{AllocError, Global};

/// The longest part program, in bytes.
pub(crate) const PART_LIMIT: usize = 4_194_304;

/// The longest machine table, in bytes.
pub(crate) const MACHINE_LIMIT: usize = 65_536;

/// The longest outline, in bytes.
pub(crate) const OUTLINE_LIMIT: usize = 65_536;

/// The longest CL file and the longest tape, in bytes.
const FILE_LIMIT: usize = 67_108_864;

/// How many bytes of such a file are read at a time.
const PIECE: usize = 4096;

/// All bytes of a name, or the answer where it can't be read.
pub(crate) fn read_input<H: Shelf>(
    alloc: Global,
    shelf: &mut H,
    name: &str,
    limit: usize,
) -> Result<Vec<u8>, Status>
    ensures text { IfOk result (λ v. Reads (H.told shelf.old) (input name.now limit) v.items) }
    ensures stopped { IfErr result (IsStopped (input name.now limit ∷ []) (files_on H.Shelf shelf.old) (files_on H.Shelf shelf.new)) }
    ensures read { AreRead (files_on H.Shelf shelf.old) (files_on H.Shelf shelf.new) }
{
    match read_all(alloc, shelf, name, limit) {
        Ok(text) => Ok(text),
        Err(error) => Err(unread(alloc, name, error)),
    }
}

/// The answer where a name can't be read.
fn unread(alloc: Global, name: &str, error: ReadError) -> Status
    ensures { IsToldFor name.now error result }
{
    match error {
        ReadError::Missing => match file_name(alloc, name) {
            Ok(name) => Status::Missing { name },
            Err(_) => Status::NoMemory,
        },
        ReadError::Fault => Status::ReadFault,
        ReadError::TooLong => match file_name(alloc, name) {
            Ok(name) => Status::TooLong { name },
            Err(_) => Status::NoMemory,
        },
        ReadError::NoMemory => Status::NoMemory,
    }
}

fn file_name(alloc: Global, name: &str) -> Result<FileName, AllocError>
    ensures { IfOk result (λ n. n ≡ name.now) }
{
    Ok(FileName {
        text: String::from_str(alloc, name)?,
    })
}

/// What is taken of the acts of a machine's tape, which is read piece by piece, or the answer where it can't be read.
pub(crate) fn run_input<H: Shelf, T: Taker>(
    alloc: Global,
    shelf: &mut H,
    name: &str,
    machine: &Machine,
    none: T,
) -> Result<Result<T, ControlError>, Status>
    requires { T.has none none [] }
    ensures run { IfOk result (λ run. (tape : List ℕ) × Reads (H.told shelf.old) (input name.now file_limit) tape × IsTaken (T.has none) (run_on machine.now tape) run) }
    ensures stopped { IfErr result (IsStopped (input name.now file_limit ∷ []) (files_on H.Shelf shelf.old) (files_on H.Shelf shelf.new)) }
    ensures read { AreRead (files_on H.Shelf shelf.old) (files_on H.Shelf shelf.new) }
{
    let begun = Ok(TapeRun::new(alloc, machine, none));
    match take_input(alloc, shelf, name, begun)? {
        Ok(run) => Ok(run.finish()),
        Err(error) => Ok(Err(error)),
    }
}

/// The records of a CL file, which is read piece by piece, or the answer where it is none, and else the one where it can't
/// be read.
pub(crate) fn records_input<H: Shelf>(
    alloc: Global,
    shelf: &mut H,
    name: &str,
) -> Result<Result<Vec<Record>, Status>, Status>
    ensures records { IfOk result (λ records. (cl : List ℕ) × Reads (H.told shelf.old) (input name.now file_limit) cl × MatchResult records (λ r. read_of cl ≡ Ok r.items) (ComesToNone (records_due cl))) }
    ensures range { IfOk result (λ records. IfOk records (λ r. AreRecords r.items × (vertex_count r.items + length r.items < 2 ^ 62))) }
    ensures stopped { IfErr result (IsStopped (input name.now file_limit ∷ []) (files_on H.Shelf shelf.old) (files_on H.Shelf shelf.new)) }
    ensures read { AreRead (files_on H.Shelf shelf.old) (files_on H.Shelf shelf.new) }
{
    let begun = Ok(ClReader::new(alloc));
    let run = take_input(alloc, shelf, name, begun)?;
    match records_of(run) {
        Ok(records) => Ok(Ok(records)),
        Err(error) => Ok(Err(cl_answer(error))),
    }
}

/// Reads a name to its end, where nothing of what it holds plays a part, or gives the answer where it can't be read.
pub(crate) fn skip_input<H: Shelf>(alloc: Global, shelf: &mut H, name: &str) -> Result<(), Status>
    ensures whole { IfOk result (λ _. (bytes : List ℕ) × Reads (H.told shelf.old) (input name.now file_limit) bytes) }
    ensures stopped { IfErr result (IsStopped (input name.now file_limit ∷ []) (files_on H.Shelf shelf.old) (files_on H.Shelf shelf.new)) }
    ensures read { AreRead (files_on H.Shelf shelf.old) (files_on H.Shelf shelf.new) }
{
    take_input(alloc, shelf, name, ())
}

/// Takes in all bytes of a name, or gives the answer where it can't be read.
fn take_input<H: Shelf, I: Intake>(
    alloc: Global,
    shelf: &mut H,
    name: &str,
    begun: I,
) -> Result<I, Status>
    requires none { I.has begun begun [] }
    requires count { I.count begun ≡ 0 }
    ensures has { IfOk result (λ taken. (bytes : List ℕ) × Reads (H.told shelf.old) (input name.now file_limit) bytes × I.has begun taken bytes) }
    ensures count { IfOk result (λ taken. I.count taken ≤ file_limit) }
    ensures stopped { IfErr result (IsStopped (input name.now file_limit ∷ []) (files_on H.Shelf shelf.old) (files_on H.Shelf shelf.new)) }
    ensures read { AreRead (files_on H.Shelf shelf.old) (files_on H.Shelf shelf.new) }
{
    match take_pieces(shelf, name, begun) {
        Ok(taken) => Ok(taken),
        Err(error) => Err(unread(alloc, name, error)),
    }
}

/// The same. The file is read to its end also behind a fault, so that one that is too long is told as such.
fn take_pieces<H: Shelf, I: Intake>(shelf: &mut H, name: &str, begun: I) -> Result<I, ReadError>
    requires none { I.has begun begun [] }
    requires count { I.count begun ≡ 0 }
    ensures has { IfOk result (λ taken. (bytes : List ℕ) × Reads (H.told shelf.old) (input name.now file_limit) bytes × I.has begun taken bytes) }
    ensures count { IfOk result (λ taken. I.count taken ≤ file_limit) }
    ensures missing { IsErrOf result ReadError.Missing → Lacks (H.told shelf.old) name.now (H.read_faults shelf.old) (H.read_faults shelf.new) }
    ensures fault { IsErrOf result ReadError.Fault → Rose (H.read_faults shelf.old) (H.read_faults shelf.new) }
    ensures too_long { IsErrOf result ReadError.TooLong → IsLongerAt (H.told shelf.old) name.now file_limit }
    ensures read { AreRead (files_on H.Shelf shelf.old) (files_on H.Shelf shelf.new) }
{
    shelf.start_read(name)?;
    let mut taken = begun;
    let mut count = 0;
    let mut buf = [0u8; PIECE];
    'pieces: loop {
        let n = read_piece(shelf, &mut buf, count, FILE_LIMIT)?;
        if n == 0 {
            return Ok(taken);
        }
        taken = taken.with(&buf[..n]);
        count += n;
    }
}
