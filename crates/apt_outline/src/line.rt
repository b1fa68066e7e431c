//! The lines of an outline.

ghost use Rattle.std.specs.Prelude.{◌≡◌, Some, IfOk};
ghost use Rattle.std.specs.Result.{IfErr};
ghost use Rattle.apt_plane.specs.Ranges.{IsCircle};
ghost use Rattle.apt_defs.specs.Figures.{IsFigure};
ghost use Rattle.apt_lexis.specs.Words.{in_front, behind};
ghost use Rattle.apt_outline.specs.Clearances.{IsPart};
ghost use Rattle.apt_outline.specs.Outlines as outlines;

use crate::cause::OutlineCause;
use crate::parts::Part;
use apt_defs::{Figure, Table};
use apt_lexis::{first_word, is_readable};
use apt_plane::{Circ, Surface};
use apt_words::Symbol;

/// The edge between two points that differ in x or y.
fn edge_between(from: Figure, to: Figure) -> Result<Part, OutlineCause>
    requires from { IsFigure from }
    requires to { IsFigure to }
    ensures value { result ≡ outlines.edge_between from to }
    ensures range { IfOk result IsPart }
    ensures cause { IfErr result outlines.IsOfLine }
{
    let (Figure::Point { xy: p, .. }, Figure::Point { xy: q, .. }) = (from, to) else {
        return Err(OutlineCause::WrongKind);
    };
    if p.x == q.x && p.y == q.y {
        Err(OutlineCause::Degenerate)
    } else {
        Ok(Part::Edge(p, q))
    }
}

/// The edge between the points of two names, one blank apart.
fn edge(figures: &Table, names: &[u8]) -> Result<Part, OutlineCause>
    ensures value { result ≡ outlines.edge_line figures.now (in_front names.now) (behind names.now) }
    ensures range { IfOk result IsPart }
    ensures cause { IfErr result outlines.IsOfLine }
{
    let (from, Some(to)) = first_word(names) else {
        return Err(OutlineCause::Word);
    };
    let (Some(from), Some(to)) = (Symbol::name(from), Symbol::name(to)) else {
        return Err(OutlineCause::Word);
    };
    let (Some(from), Some(to)) = (figures.get(&from), figures.get(&to)) else {
        return Err(OutlineCause::Undefined);
    };
    edge_between(from, to)
}

/// The circle of a name.
fn circle(figures: &Table, name: &[u8]) -> Result<Circ, OutlineCause>
    ensures value { result ≡ outlines.circle_line figures.now name.now }
    ensures range { IfOk result IsCircle }
    ensures cause { IfErr result outlines.IsOfLine }
{
    let name = Symbol::name(name).ok_or(OutlineCause::Word)?;
    match figures.get(&name).ok_or(OutlineCause::Undefined)? {
        Figure::Shape(Surface::Circ(circle)) => Ok(circle),
        _ => Err(OutlineCause::WrongKind),
    }
}

/// The part of a line, by its word and what stands behind it.
fn part_by(figures: &Table, word: &[u8], rest: &[u8]) -> Result<Part, OutlineCause>
    ensures value { result ≡ outlines.part_by figures.now word.now (Some rest.now) }
    ensures range { IfOk result IsPart }
    ensures cause { IfErr result outlines.IsOfLine }
{
    if word == b"EDGE".as_slice() {
        edge(figures, rest)
    } else if word == b"BOSS".as_slice() {
        Ok(Part::Boss(circle(figures, rest)?))
    } else if word == b"BORE".as_slice() {
        Ok(Part::Bore(circle(figures, rest)?))
    } else {
        Err(OutlineCause::Word)
    }
}

/// The part of a line.
pub(crate) fn part_of(figures: &Table, line: &[u8]) -> Result<Part, OutlineCause>
    ensures value { result ≡ outlines.part_of figures.now line.now }
    ensures range { IfOk result IsPart }
    ensures cause { IfErr result outlines.IsOfLine }
{
    if !is_readable(line) {
        return Err(OutlineCause::Byte);
    }
    match first_word(line) {
        (word, Some(rest)) => part_by(figures, word, rest),
        (_, None) => Err(OutlineCause::Word),
    }
}
