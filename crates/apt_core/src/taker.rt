//! The lines of a tape's acts, while the tape is read.

ghost use Rattle.std.specs.Prelude.{◌≤◌, [], length};

use apt_report::push_lines;
use apt_tape::{Taker, TapeAct};
use std::alloc::{AllocError, Global};

/// The lines of acts, and how many acts there are.
#[derive(Drop)]
pub(crate) struct ActLines {
    pub text: Vec<u8>,
    pub acts: u64,
    ghost few: { acts ≤ length text.items },
}

impl ActLines {
    /// No lines. It takes no memory.
    pub(crate) fn none(alloc: Global) -> ActLines
        ensures { ⟦<ActLines as Taker>⟧.has result result [] }
    {
        ActLines {
            text: Vec::new(alloc),
            acts: 0,
        }
    }
}

impl Taker for ActLines {
    ghost use Rattle.std.specs.Prelude.{◌≡◌, length};
    ghost use Rattle.apt_report.specs.Acts.{arc_lines};

    ghost has = { λ _ l acts. (l.text.items ≡ arc_lines acts) × (l.acts ≡ length acts) };

    fn with<A: TapeAct>(self, acts: &[A]) -> Result<ActLines, AllocError> {
        let ActLines {
            mut text,
            acts: count,
        } = self;
        push_lines(&mut text, acts)?;
        Ok(ActLines {
            text,
            acts: count + acts.len() as u64,
        })
    }
}
