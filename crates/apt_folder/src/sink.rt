//! Where lines are printed.
ghost use Rattle.std.specs.Prelude.{◌≡◌, None};

use apt_shelf::{ShelfFault, Sink};
use std::io::Print;

/// Standard output. Each error of the system counts as a fault, but a lack of memory does not.
#[derive(Drop)]
pub struct StdSink<'a, R: Print> {
    rt: &'a R,
    faults: u64,
}

impl<'a, R: Print> StdSink<'a, R> {
    /// The standard output of this runtime.
    pub fn new(rt: &'a R) -> StdSink<'a, R>
        ensures { ⟦<StdSink<'a, R> as Sink>⟧.faults result ≡ 0 }
    {
        StdSink { rt, faults: 0 }
    }
}

impl<'a, R: Print> Sink for StdSink<'a, R> {
    ghost shown = { λ _. None };

    ghost faults = { λ s. s.faults };

    fn put(&mut self, bytes: &[u8]) -> Result<(), ShelfFault> {
        match self.rt.write_all(bytes) {
            Ok(()) => Ok(()),
            Err(error) => Err(ShelfFault::from(error).counted(&mut self.faults)),
        }
    }
}
