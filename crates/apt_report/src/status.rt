//! The answers of the program.

ghost use Rattle.std.specs.Prelude.{◌≡◌};

use apt_block::TapeCause;
use apt_certify::{Bad, Verdict};
use apt_cldata::ClCause;
use apt_lexis::PartCause;
use apt_machine::MachineCause;
use apt_outline::{Gouge, OutlineCause};
use apt_words::Case;
use std::alloc::AllocError;
use std::marker::Model;

/// A name of the command line. Clauses see its bytes.
#[derive(Drop)]
pub struct FileName {
    pub text: String,
}

impl Model for FileName {
    ghost use Rattle.std.specs.Prelude.{ℕ, List};
    ghost use Rattle.std.specs.String.{string_bytes};

    ghost Value = { List ℕ };

    ghost view = { λ n. string_bytes n.text };
}

/// What was done. Counts are of the CL file's records, the tape's acts, and the segments of its contours.
#[derive(Clone, Copy, PartialEq, Eq)]
pub enum Summary {
    Compiled {
        records: u64,
        acts: u64,
        segments: u64,
    },
    /// A CL file and a tape were found right, with this verdict over the contours.
    Certified(Verdict),
    /// A tape was run, with so many acts; their lines are printed in place of one of its own.
    Decoded {
        acts: u64,
    },
    /// The points of a CL file were listed, so many; their lines are printed in place of one of its own.
    Listed {
        points: u64,
    },
    /// The part of so many circles was compiled and certified, with this verdict over its contours.
    Demo {
        n: u32,
        verdict: Verdict,
    },
    /// A CL file and a tape were found right, and none of so many contour segments comes too near to one of so many parts
    /// of an outline.
    Guarded {
        segments: u64,
        parts: u64,
    },
}

/// Where a CL file or a tape is not right.
#[derive(Clone, Copy, PartialEq, Eq)]
pub enum Miss {
    /// The number of the first record that does not answer the part, from 1.
    Entry { seq: u64 },
    /// The first contour that is not legal.
    Motion(Bad),
    /// The first place, from 1, at which the tape's acts and those of the CL file differ.
    Act { at: u64 },
}

/// What the program answers.
#[derive(Drop)]
pub enum Status {
    Done(Summary),
    /// The words are none of a command.
    Usage,
    /// There is no file of the name.
    Missing { name: FileName },
    /// A file could not be read.
    ReadFault,
    /// The file of the name is longer than its limit.
    TooLong { name: FileName },
    /// The text is no machine table: its first fault, with its line (from 1).
    BadMachine { line: u32, cause: MachineCause },
    /// The text is no part program: its first fault, with its line (from 1).
    BadPart { line: u32, cause: PartCause },
    /// The first step of the part that can't be done: its line and its number, both from 1, and the case.
    Refused { line: u32, step: u32, case: Case },
    /// The bytes are no CL file: the first place, from 0, and why.
    BadCl { at: u64, cause: ClCause },
    /// A control can't run the tape: the first place, from 0, and why.
    BadTape { at: u64, cause: TapeCause },
    /// The CL file or the tape is not that of the part.
    NotCertified { miss: Miss },
    /// A file could not be written.
    WriteFault,
    NoMemory,
    /// The text is no outline: its first fault, with its line (from 1).
    BadOutline { line: u32, cause: OutlineCause },
    /// A contour brings the cutter into a part of the outline: where it first does.
    Gouge(Gouge),
}

impl Status {
    ghost use Rattle.apt_report.specs.StatusNumbers.{number_of};

    /// The number with which a program of this answer ends.
    pub fn number(&self) -> u8
        ensures { result ≡ number_of self.now }
    {
        match self {
            Status::Done(_) => 0,
            Status::Usage => 1,
            Status::Missing { .. } => 2,
            Status::ReadFault => 3,
            Status::TooLong { .. } => 4,
            Status::BadMachine { .. } => 5,
            Status::BadPart { .. } => 6,
            Status::Refused { .. } => 7,
            Status::BadCl { .. } => 8,
            Status::BadTape { .. } => 9,
            Status::NotCertified { .. } => 10,
            Status::WriteFault => 11,
            Status::NoMemory => 12,
            Status::BadOutline { .. } => 13,
            Status::Gouge(_) => 14,
        }
    }
}

impl From<AllocError> for Status {
    ghost use Rattle.apt_report.specs.declared.status.Status.TheVariants as answers;

    ghost from_gives = { λ _ s. s ≡ answers.NoMemory };

    fn from(_: AllocError) -> Self {
        Status::NoMemory
    }
}
