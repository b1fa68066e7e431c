//! What a table has said of a machine so far.

ghost use Rattle.std.specs.Prelude.{◌≡◌, IfSome};
ghost use Rattle.apt_machine.specs.Keys as keys;
ghost use Rattle.apt_machine.specs.Machines.{IsDraft, IsMachine};

use crate::Machine;
use crate::key::Key;
use crate::number::number_within;
use apt_tapecode::Code;

/// What a table has said of a machine so far; of a key of two values, whether it is the second.
#[derive(Clone, Copy)]
pub(crate) struct Draft {
    pub code: Option<Code>,
    pub seq: Option<u16>,
    pub feedmax: Option<u16>,
    pub spinmax: Option<u16>,
    pub toolmax: Option<u8>,
    pub words: Option<bool>,
    pub mode: Option<bool>,
    pub zeros: Option<bool>,
    pub arcs: Option<bool>,
    pub drill: Option<bool>,
}

impl Draft {
    pub fn blank() -> Draft
        ensures { result ≡ keys.blank_draft }
    {
        Draft {
            code: None,
            seq: None,
            feedmax: None,
            spinmax: None,
            toolmax: None,
            words: None,
            mode: None,
            zeros: None,
            arcs: None,
            drill: None,
        }
    }

    /// Whether a key stands already.
    pub fn has(&self, key: Key) -> bool
        ensures { result ≡ keys.has self.now key }
    {
        match key {
            Key::Code => self.code.is_some(),
            Key::Seq => self.seq.is_some(),
            Key::Feedmax => self.feedmax.is_some(),
            Key::Spinmax => self.spinmax.is_some(),
            Key::Toolmax => self.toolmax.is_some(),
            Key::Words => self.words.is_some(),
            Key::Mode => self.mode.is_some(),
            Key::Zeros => self.zeros.is_some(),
            Key::Arcs => self.arcs.is_some(),
            Key::Drill => self.drill.is_some(),
        }
    }

    /// With one key more, where it can have the value.
    pub fn with(mut self, key: Key, value: &[u8]) -> Option<Draft>
        ensures value { result ≡ keys.with_value self key value.now }
        ensures within { IsDraft self → IfSome result IsDraft }
    {
        match key {
            Key::Code => self.code = Some(code_named(value)?),
            Key::Seq => self.seq = Some(number_within(0, 999, value)?),
            Key::Feedmax => self.feedmax = Some(number_within(1, 9999, value)?),
            Key::Spinmax => self.spinmax = Some(number_within(1, 9999, value)?),
            Key::Toolmax => self.toolmax = Some(number_within(1, 99, value)? as u8),
            Key::Words => self.words = Some(choice(b"ALL", b"CHANGED", value)?),
            Key::Mode => self.mode = Some(choice(b"ABS", b"INC", value)?),
            Key::Zeros => self.zeros = Some(choice(b"KEPT", b"DROPPED", value)?),
            Key::Arcs => self.arcs = Some(choice(b"LINES", b"CIRCLES", value)?),
            Key::Drill => self.drill = Some(choice(b"MOVES", b"CYCLES", value)?),
        }
        Some(self)
    }

    /// The machine, where each of the first five keys stands. A later key that doesn't has its first value.
    pub fn machine(self) -> Option<Machine>
        ensures value { result ≡ keys.machine_of self }
        ensures within { IsDraft self → IfSome result IsMachine }
    {
        Some(Machine {
            code: self.code?,
            seq: self.seq?,
            feedmax: self.feedmax?,
            spinmax: self.spinmax?,
            toolmax: self.toolmax?,
            changed: self.words.unwrap_or(false),
            incremental: self.mode.unwrap_or(false),
            short: self.zeros.unwrap_or(false),
            circles: self.arcs.unwrap_or(false),
            cycles: self.drill.unwrap_or(false),
        })
    }
}

fn code_named(value: &[u8]) -> Option<Code>
    ensures { result ≡ keys.code_named value.now }
{
    match value {
        b"RS244" => Some(Code::Rs244),
        b"RS358" => Some(Code::Rs358),
        _ => None,
    }
}

/// Whether a value is the second of two words, where it is one of them.
fn choice(first: &[u8], second: &[u8], value: &[u8]) -> Option<bool>
    ensures { result ≡ keys.choice first.now second.now value.now }
{
    if value == first {
        Some(false)
    } else if value == second {
        Some(true)
    } else {
        None
    }
}
