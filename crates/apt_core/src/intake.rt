//! What takes in a file piece by piece: the run of a tape, and that of a CL file.

ghost use Rattle.std.specs.Prelude.{◌≡◌, ◌+◌, ◌<◌, ◌≤◌, ◌^◌, ◌++◌, ℕ, List, length, IfOk};
ghost use Rattle.apt_words.specs.Answers.{IsDueAs};
ghost use Rattle.apt_records.specs.Ranges.{AreRecords, vertex_count};
ghost use Rattle.apt_cldata.specs.Reading as cldata;
ghost use Rattle.apt_clreader.specs.Pieces.{HasRead, count_of};
ghost use Rattle.apt_core.specs.Intakes.{count_in};

use apt_cldata::ClError;
use apt_clreader::ClReader;
use apt_control::ControlError;
use apt_records::Record;
use apt_tape::{Taker, TapeRun};

pub(crate) trait Intake: Drop {
    /// From what was there before the first byte, it has taken in these bytes.
    ghost has: { Self → Self → List ℕ → Type 0 };

    /// How many bytes it has counted.
    ghost count: { Self → ℕ };

    /// Takes in bytes that come behind those so far. A refusal stays as it is.
    fn with(self, piece: &[u8]) -> Self
        requires { count self + length piece.now < 2 ^ 63 }
        ensures has { (begun : Self) (front : List ℕ) → has begun self front → has begun result (front ++ piece.now) }
        ensures count { count result ≤ count self + length piece.now };
}

impl<T: Taker> Intake for Result<TapeRun<T>, ControlError> {
    ghost use Rattle.apt_core.specs.Intakes.{count_in};
    ghost use Rattle.apt_core.specs.TapeRuns.{RunsFrom};
    ghost use Rattle.apt_tape.specs.Runs.{bytes_read};

    ghost has = { RunsFrom T.has };

    ghost count = { count_in (λ run. bytes_read run.reader) };

    fn with(self, piece: &[u8]) -> Result<TapeRun<T>, ControlError> {
        self?.feed(piece)
    }
}

/// Nothing is taken, where a file must only be there to be read.
impl Intake for () {
    ghost has = { λ _ _ _. Unit {0} };

    ghost count = { λ _. 0 };

    fn with(self, _: &[u8]) {}
}

impl Intake for Result<ClReader, ClError> {
    ghost use Rattle.apt_clreader.specs.Pieces.{HasRead, count_of};
    ghost use Rattle.apt_core.specs.Intakes.{count_in};

    ghost has = { λ _ run front. HasRead front run };

    ghost count = { count_in count_of };

    fn with(self, piece: &[u8]) -> Result<ClReader, ClError> {
        self?.feed(piece)
    }
}

/// The records of a CL file that has come to its end.
pub(crate) fn records_of(run: Result<ClReader, ClError>) -> Result<Vec<Record>, ClError>
    requires { count_in count_of run < 2 ^ 62 }
    ensures value { (cl : List ℕ) → HasRead cl run → IsDueAs (λ v. v.items) cldata.fault_in (cldata.read_of cl) result }
    ensures range { IfOk result (λ v. AreRecords v.items) }
    ensures few { IfOk result (λ v. vertex_count v.items + length v.items < 2 ^ 62) }
{
    run?.finish()
}
