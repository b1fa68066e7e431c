//! The forms of POINT.

ghost use Rattle.std.specs.Prelude.{◌≡◌, pos, ◌≤ℤ◌, IfOk};
ghost use Rattle.apt_plane.specs.Ranges.{IsPoint, IsLine, IsMoved, IsCircle, IsRound, IsSurface};
ghost use Rattle.apt_canon.specs.Circles as circles;
ghost use Rattle.apt_scalar.specs.Scalars.{IsScalar};
ghost use Rattle.apt_scalar.specs.StepScalars.{AllScalars};
ghost use Rattle.apt_words.specs.Asks.{listed};
ghost use Rattle.apt_defs.specs.Figures.{IsFigure};
ghost use Rattle.apt_defs.specs.Forms as forms;

use crate::figure::{Figure, a_point, in_case};
use crate::numbers::{height_by, point_by};
use crate::table::{Table, circle_named, line_named, surface};
use apt_canon::{circle_circle, line_circle, line_line};
use apt_plane::vectors::{displacement, length_squared};
use apt_plane::{Circ, Line, Moved, Pt, Surface};
use apt_words::{Case, Pick, Symbol, Units};

pub fn point_xy(units: Units, x: i64, y: i64, z: Option<i64>) -> Result<Figure, Case>
    requires x { IsScalar x }
    requires y { IsScalar y }
    requires z { AllScalars (listed z) }
    ensures value { result ≡ forms.point_xy units x y z }
    ensures range { IfOk result IsFigure }
{
    let xy = point_by(units, x, y)?;
    let z = height_by(units, z)?;
    Ok(Figure::Point { xy, z })
}

pub fn point_lines(table: &Table, a: &Symbol, b: &Symbol) -> Result<Figure, Case>
    ensures value { result ≡ forms.point_lines table.now a.now b.now }
    ensures range { IfOk result IsFigure }
{
    let a = line_named(table, a)?;
    let b = line_named(table, b)?;
    a_point(in_case(line_line(&as_moved(a), &as_moved(b)))?)
}

fn as_moved(line: Line) -> Moved
    requires { IsLine line }
    ensures line { result.line ≡ line }
    ensures off { result.off ≡ pos 0 }
    ensures range { IsMoved result }
{
    Moved { line, off: 0 }
}

/// The point of two surfaces that a modifier names.
pub fn point_pick(table: &Table, pick: Pick, a: &Symbol, b: &Symbol) -> Result<Figure, Case>
    ensures value { result ≡ forms.point_pick table.now pick a.now b.now }
    ensures range { IfOk result IsFigure }
{
    let a = surface(table, a)?;
    let b = surface(table, b)?;
    let (p, q) = meetings(a, b)?;
    a_point(pick_point(pick, p, q))
}

/// The two points in which a circle meets a line or another circle.
fn meetings(a: Surface, b: Surface) -> Result<(Pt, Pt), Case>
    requires a { IsSurface a }
    requires b { IsSurface b }
    ensures value { result ≡ forms.meetings a b }
    ensures range { IfOk result (λ m. IsPoint m.0 × IsPoint m.1) }
{
    match (a, b) {
        (Surface::Line(_), Surface::Line(_)) => Err(Case::WrongKind),
        (Surface::Line(line), Surface::Circ(circle)) => on_line(line, circle),
        (Surface::Circ(circle), Surface::Line(line)) => on_line(line, circle),
        (Surface::Circ(a), Surface::Circ(b)) => on_circle(a, b),
    }
}

fn on_line(line: Line, circle: Circ) -> Result<(Pt, Pt), Case>
    requires line { IsLine line }
    requires circle { IsCircle circle }
    ensures value { result ≡ forms.meetings (Surface.Line line) (Surface.Circ circle) }
    ensures range { IfOk result (λ m. IsPoint m.0 × IsPoint m.1) }
{
    let line = as_moved(line);
    let p = in_case(line_circle(&line, &circle, 1))?;
    let q = in_case(line_circle(&line, &circle, -1))?;
    Ok((p, q))
}

fn on_circle(a: Circ, b: Circ) -> Result<(Pt, Pt), Case>
    requires a { IsCircle a }
    requires b { IsCircle b }
    ensures value { result ≡ forms.meetings (Surface.Circ a) (Surface.Circ b) }
    ensures range { IfOk result (λ m. IsPoint m.0 × IsPoint m.1) }
{
    if length_squared(displacement(a.c, b.c)) == 0 {
        return Err(Case::NoMeeting);
    }
    on_both(a, b)
}

fn on_both(a: Circ, b: Circ) -> Result<(Pt, Pt), Case>
    requires a { IsCircle a }
    requires b { IsCircle b }
    ensures value { result ≡ forms.both_meetings (λ sigma. circles.circle_circle a b sigma) }
    ensures range { IfOk result (λ m. IsPoint m.0 × IsPoint m.1) }
{
    let p = in_case(circle_circle(&a, &b, 1))?;
    let q = in_case(circle_circle(&a, &b, -1))?;
    Ok((p, q))
}

fn pick_point(pick: Pick, p: Pt, q: Pt) -> Pt
    requires p { IsPoint p }
    requires q { IsPoint q }
    ensures value { result ≡ forms.picked pick p q }
    ensures range { IsPoint result }
{
    if is_preferred(pick, q, p) { q } else { p }
}

fn is_preferred(pick: Pick, p: Pt, q: Pt) -> bool
    ensures { result ≡ forms.is_preferred pick p q }
{
    match pick {
        Pick::XLarge => is_further(p.x, q.x, p.y, q.y),
        Pick::XSmall => is_further(q.x, p.x, q.y, p.y),
        Pick::YLarge => is_further(p.y, q.y, p.x, q.x),
        Pick::YSmall => is_further(q.y, p.y, q.x, p.x),
    }
}

/// Whether `a` is greater than `b`, or equal and `c` is greater than `d`.
fn is_further(a: i64, b: i64, c: i64, d: i64) -> bool
    ensures { result ≡ forms.is_further a b c d }
{
    if a > b {
        true
    } else if a < b {
        false
    } else {
        c > d
    }
}

pub fn centre_point(table: &Table, circle: &Symbol) -> Result<Figure, Case>
    ensures value { result ≡ forms.centre_point table.now circle.now }
    ensures range { IfOk result IsFigure }
{
    a_point(circle_named(table, circle)?.c)
}
