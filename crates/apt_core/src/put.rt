//! The text of an answer, put on a sink.

ghost use Rattle.std.specs.Prelude.{◌≡◌};
ghost use Rattle.apt_core.specs.Due.{answer_of};
ghost use Rattle.apt_core.specs.Decoding.{lined, said_of};
ghost use Rattle.apt_core.specs.Promise.{IsPut, lines_on};

use apt_report::{Status, Summary, line_of};
use apt_shelf::{ShelfFault, Sink};
use std::alloc::Global;
use std::marker::Model;

/// An answer, and the lines that are put for it in place of its own. Clauses see the answer and the text that is put.
#[derive(Drop)]
pub(crate) struct Reply {
    pub status: Status,
    pub lines: Option<Vec<u8>>,
}

impl Model for Reply {
    ghost use Rattle.std.specs.Prelude.{option_map};
    ghost use Rattle.apt_core.specs.Decoding.{Said, said_with};

    ghost Value = { Said };

    ghost view = { λ r. said_with r.status (option_map (λ v. v.items) r.lines) };
}

impl Reply {
    /// An answer with its own line.
    pub(crate) fn with_line(status: Status) -> Reply
        ensures { result ≡ lined status }
    {
        Reply {
            status,
            lines: None,
        }
    }

    /// What a work says, or its answer with its own line.
    pub(crate) fn from_work(work: Result<Reply, Status>) -> Reply
        ensures { result ≡ said_of work }
    {
        match work {
            Ok(reply) => reply,
            Err(status) => Reply::with_line(status),
        }
    }

    /// The answer of a work, with its own line.
    pub(crate) fn of(work: Result<Summary, Status>) -> Reply
        ensures { result ≡ lined (answer_of work) }
    {
        Reply::with_line(status_of(work))
    }
}

/// The answer of a work.
pub(crate) fn status_of(work: Result<Summary, Status>) -> Status
    ensures { result ≡ answer_of work }
{
    match work {
        Ok(summary) => Status::Done(summary),
        Err(status) => status,
    }
}

/// Puts the text of an answer, and gives the answer; `WriteFault` or `NoMemory` where that fails.
#[tactic(auto, using(crate::proofs::Putting::short_put))]
pub(crate) fn tell<K: Sink>(alloc: Global, out: &mut K, reply: Reply) -> Status
    ensures { IsPut reply (lines_on K.Sink out.old) (lines_on K.Sink out.new) result }
{
    let Reply { status, lines } = reply;
    if let Some(text) = lines {
        return put_text(out, status, &text);
    }
    match line_of(alloc, &status) {
        Ok(line) => put_text(out, status, &line),
        Err(_) => Status::NoMemory,
    }
}

/// Puts a text, where it has a byte.
#[tactic(auto, using(crate::proofs::Putting::silent_put, crate::proofs::Putting::text_put, crate::proofs::Putting::front_put, crate::proofs::Putting::front_put_short))]
fn put_text<K: Sink>(out: &mut K, status: Status, text: &[u8]) -> Status
    ensures { IsPut (record { answer = status; text = text.now }) (lines_on K.Sink out.old) (lines_on K.Sink out.new) result }
{
    if text.is_empty() {
        return status;
    }
    match out.put(text) {
        Ok(()) => status,
        Err(ShelfFault::Fault) => Status::WriteFault,
        Err(ShelfFault::NoMemory) => Status::NoMemory,
    }
}
