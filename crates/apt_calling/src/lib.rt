//! A caller of `apt`, over files in memory.
#![tactic(auto)]

ghost use Rattle.std.specs.Prelude.{◌≡◌, Some, IsTrue};
ghost use Rattle.apt_shelf.specs.Memory.{files_of};
ghost use Rattle.apt_core.specs.Words.{FourNames, Compile, work_in, texts};
ghost use Rattle.apt_calling.specs.Calling.{HasCompiled};

use apt_core::{OpenGate, Status, apt};
use apt_shelf::{MemShelf, MemSink};
use std::alloc::Global;
use std::thread::Threads;

/// Whether the words compile a part of the shelf: then it holds a CL file and a tape that are right for the part.
pub fn compiles(
    rt: &(impl Threads + Sync),
    alloc: Global,
    words: &[String],
    shelf: &mut MemShelf,
    line: &mut MemSink,
) -> bool
    ensures { IsTrue result → (n : FourNames) → work_in (texts words.now) ≡ Some (Compile n) → HasCompiled n (files_of shelf.old) (files_of shelf.new) }
{
    match apt(rt, alloc, words, shelf, line, &OpenGate) {
        Status::Done(_) => true,
        _ => false,
    }
}
