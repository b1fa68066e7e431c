//! The top call: the words of a command line over a shelf of files and a sink of lines.
#![tactic(auto)]

ghost use Rattle.std.specs.Prelude.{◌≡◌, Some, None};
ghost use Rattle.apt_core.specs.Words.{work_in, texts};
ghost use Rattle.apt_core.specs.Request.{work_of, IsSound};
ghost use Rattle.apt_core.specs.Inputs.{files_on};
ghost use Rattle.apt_core.specs.Promise.{IsRun, Completes, Works, outside};

mod certify;
mod compile;
mod decode;
mod delivery;
mod demo;
mod due;
mod evidence;
mod guard;
mod intake;
mod list;
mod put;
mod reading;
mod taker;
mod words;

pub use apt_certify::{Gate, OpenGate};
pub use apt_report::{
    Bad, ClCause, FileName, Gouge, MachineCause, Miss, OutlineCause, PartCause, Reason, Status,
    Summary, TapeCause, Verdict,
};
use apt_shelf::{Shelf, Sink};
use certify::certify;
use compile::compile;
use decode::decode;
use demo::demo;
use guard::guard;
use list::list;
use put::{Reply, tell};
use std::alloc::Global;
use std::thread::Threads;
use words::{Request, request_of};

/// Does what the words ask, and puts the answer's line, or the lines of a tape's acts.
///
/// `compile PART MACHINE CL TAPE` reads a part under the name PART (at most 4 MiB) and a machine table under the name
/// MACHINE (at most 65,536 bytes), writes the part's CL file under the name CL, and then its tape for this machine
/// under the name TAPE.
///
/// `certify PART MACHINE CL TAPE` reads a part, a machine table, a CL file and a tape (the last two at most 64 MiB
/// each), in this order, and answers whether the CL file and the tape are right for the part on this machine. It
/// writes nothing.
///
/// `guard PART MACHINE CL TAPE OUTLINE` reads what `certify` reads, and then an outline (at most 65,536 bytes). It answers
/// as `certify` does where that is not that all is right, but for a fault of the outline, which it answers before one of
/// the CL file; and else whether a contour brings the cutter into a part of the outline. It writes nothing.
///
/// `decode MACHINE TAPE` reads a machine table and a tape, and puts a line for each act to which a control of this
/// machine runs the tape, and no other line. It writes nothing.
///
/// `list CL` reads a CL file (at most 64 MiB), and puts a line for each point of its records, then how many there are,
/// and no other line. It writes nothing.
///
/// `demo N`, N from 1 to 800, makes the part of N circles and the table of the machine with the greatest limits, compiles
/// and certifies them over a store in memory of its own, and answers with the verdict. It neither reads nor writes.
///
/// The gate is told of each arc that `compile` or `demo` divides, by its number from 1, before it is divided, and of each
/// contour that `certify`, `guard` or `demo` judges, by its number from 1, before it is judged; `guard` tells it of each
/// contour once more, before it is tried against the outline. All are done by several threads.
///
/// A table is judged when all that is read has been read, and before the part.
#[tactic(auto, using(crate::proofs::Running::run_is, crate::proofs::Running::completes))]
pub fn apt<H: Shelf, K: Sink, G: Gate>(
    rt: &(impl Threads + Sync),
    alloc: Global,
    words: &[String],
    shelf: &mut H,
    out: &mut K,
    gate: &G,
) -> Status
    ensures runs { IsRun (work_in (texts words.now)) (outside H.Shelf K.Sink shelf.old out.old) (outside H.Shelf K.Sink shelf.new out.new) result }
    ensures usage { result ≡ Status.Usage → work_in (texts words.now) ≡ None }
    ensures untouched { work_in (texts words.now) ≡ None → shelf.new ≡ shelf.old }
    ensures complete { Completes (work_in (texts words.now)) (outside H.Shelf K.Sink shelf.old out.old) (outside H.Shelf K.Sink shelf.new out.new) result }
{
    let reply = answer(rt, alloc, words, shelf, gate);
    tell(alloc, out, reply)
}

/// The answer to the words.
fn answer<H: Shelf, G: Gate>(
    rt: &(impl Threads + Sync),
    alloc: Global,
    words: &[String],
    shelf: &mut H,
    gate: &G,
) -> Reply
    ensures works { Works (work_in (texts words.now)) (files_on H.Shelf shelf.old) (files_on H.Shelf shelf.new) result }
    ensures untouched { work_in (texts words.now) ≡ None → shelf.new ≡ shelf.old }
{
    match request_of(words) {
        Some(request) => answer_to(rt, alloc, request, shelf, gate),
        None => Reply::with_line(Status::Usage),
    }
}

/// The answer to a request.
fn answer_to<H: Shelf, G: Gate>(
    rt: &(impl Threads + Sync),
    alloc: Global,
    request: Request<'_>,
    shelf: &mut H,
    gate: &G,
) -> Reply
    requires { IsSound request }
    ensures { Works (Some (work_of request.entry)) (files_on H.Shelf shelf.old) (files_on H.Shelf shelf.new) result }
{
    match request {
        Request::Compile(names) => Reply::of(compile(rt, alloc, shelf, names, gate)),
        Request::Certify(names) => Reply::of(certify(rt, alloc, shelf, names, gate)),
        Request::Decode(names) => Reply::from_work(decode(alloc, shelf, names)),
        Request::List(name) => Reply::from_work(list(alloc, shelf, name)),
        Request::Demo(n) => Reply::of(demo(rt, alloc, n, gate)),
        Request::Guard(names, outline) => {
            Reply::of(guard(rt, alloc, shelf, names, outline, gate))
        }
    }
}
