//! Why a text is no machine table.

ghost use Rattle.std.specs.Prelude.{◌≡◌};
ghost use Rattle.apt_machine.specs.Causes as causes;

use thiserror::Error;

/// Why a machine table is refused, at a line.
#[derive(Clone, Copy, Debug, PartialEq, Eq)]
pub enum MachineCause {
    /// The line has a byte that is no character, or more than 256.
    Byte,
    /// The first line is neither `MACHINE 1` nor `MACHINE 2`.
    Header,
    /// The line begins with no key.
    Key,
    /// The key stands already.
    Twice,
    /// The key can't have the value.
    Value,
    /// A key is missing: the line is the one behind the last.
    Missing,
}

impl MachineCause {
    /// Its name, as it is printed.
    pub fn name(&self) -> &'static str
        ensures { result.now ≡ causes.name_of self.now }
    {
        match self {
            MachineCause::Byte => "Byte",
            MachineCause::Header => "Header",
            MachineCause::Key => "Key",
            MachineCause::Twice => "Twice",
            MachineCause::Value => "Value",
            MachineCause::Missing => "Missing",
        }
    }
}

/// The first fault of a machine table, with its line, from 1.
#[derive(Clone, Copy, Debug, PartialEq, Eq, Error)]
#[error("line {line}: {cause:?}")]
pub struct MachineError {
    pub line: u32,
    pub cause: MachineCause,
}
