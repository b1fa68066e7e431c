//! Whether a record is the one that is due.

ghost use Rattle.std.specs.Prelude.{◌≡◌, ◌↔◌, IsTrue};

use apt_meaning::Motion;
use apt_plane::{Circ, Dir, Line, Pt, Surface};
use apt_records::{Note, Position, Reach, Record};
use apt_words::Step;

/// Whether two notes say the same.
fn is_same_note(a: &Note, b: &Note) -> bool
    ensures { IsTrue result ↔ (a.now ≡ b.now) }
{
    match (a, b) {
        (Note::Partno(a), Note::Partno(b)) => a.bytes == b.bytes,
        (Note::Units(a), Note::Units(b)) => a == b,
        (Note::Cutter(a), Note::Cutter(b)) => a == b,
        (Note::Intol(a), Note::Intol(b)) => a == b,
        (Note::Outtol(a), Note::Outtol(b)) => a == b,
        (Note::Feed(a), Note::Feed(b)) => a == b,
        (Note::Do(a), Note::Do(b)) => a.is_same(*b),
        (Note::Rapid, Note::Rapid) => true,
        (Note::End, Note::End) => true,
        (Note::Fini, Note::Fini) => true,
        _ => false,
    }
}

pub(crate) fn is_statement(step: &Step, r: &Record) -> bool
    ensures { IsTrue result ↔ (r.now ≡ Record.Statement step.now.line step.now.step) }
{
    match r {
        Record::Statement { line, step: number } => *line == step.line && *number == step.step,
        _ => false,
    }
}

pub(crate) fn is_note(note: &Note, r: &Record) -> bool
    ensures { IsTrue result ↔ (r.now ≡ Record.Note note.now) }
{
    match r {
        Record::Note(said) => is_same_note(said, note),
        _ => false,
    }
}

// A derived `==` of a struct is proved exact where it stands alone, and not beside another test, nor of a struct of two
// structs: so each of these stands in a function.

fn is_same_position(p: Position, q: Position) -> bool
    ensures { IsTrue result ↔ (p ≡ q) }
{
    p == q
}

pub(crate) fn is_point(reach: Reach, to: Position, r: &Record) -> bool
    ensures { IsTrue result ↔ (r.now ≡ Record.Point reach to) }
{
    match r {
        Record::Point(how, p) => *how == reach && is_same_position(*p, to),
        _ => false,
    }
}

fn is_same_base(p: Pt, q: Pt) -> bool
    ensures { IsTrue result ↔ (p ≡ q) }
{
    p == q
}

fn is_same_dir(a: Dir, b: Dir) -> bool
    ensures { IsTrue result ↔ (a ≡ b) }
{
    a == b
}

fn is_same_line(a: &Line, b: &Line) -> bool
    ensures { IsTrue result ↔ (a.now ≡ b.now) }
{
    is_same_base(a.base, b.base) && is_same_dir(a.dir, b.dir)
}

fn is_same_circle(a: &Circ, b: &Circ) -> bool
    ensures { IsTrue result ↔ (a.now ≡ b.now) }
{
    a == b
}

fn is_same_surface(a: &Surface, b: &Surface) -> bool
    ensures { IsTrue result ↔ (a.now ≡ b.now) }
{
    match (a, b) {
        (Surface::Line(a), Surface::Line(b)) => is_same_line(a, b),
        (Surface::Circ(a), Surface::Circ(b)) => is_same_circle(a, b),
        (Surface::Line(_), Surface::Circ(_)) | (Surface::Circ(_), Surface::Line(_)) => false,
    }
}

pub(crate) fn is_drive(m: &Motion, r: &Record) -> bool
    ensures { IsTrue result ↔ (r.now ≡ Record.Drive m.now.drive m.now.side m.now.sense) }
{
    match r {
        Record::Drive {
            surface,
            side,
            sense,
        } => is_same_surface(surface, &m.drive) && *side == m.side && *sense == m.sense,
        _ => false,
    }
}

pub(crate) fn is_check(m: &Motion, r: &Record) -> bool
    ensures { IsTrue result ↔ (r.now ≡ Record.Check m.now.check m.now.how) }
{
    match r {
        Record::Check { surface, how } => is_same_surface(surface, &m.check) && *how == m.how,
        _ => false,
    }
}
