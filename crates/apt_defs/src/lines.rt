//! The forms of LINE.

ghost use Rattle.std.specs.Prelude.{◌≡◌, IfOk};
ghost use Rattle.apt_plane.specs.Ranges.{IsPoint};
ghost use Rattle.apt_scalar.specs.Scalars.{IsScalar};
ghost use Rattle.apt_defs.specs.Figures.{IsFigure};
ghost use Rattle.apt_defs.specs.Forms as forms;

use crate::figure::{Figure, a_line, line_formed};
use crate::numbers::{length_by, point_by};
use crate::table::{Table, circle_named, line_named, point_named};
use apt_canon::{parallel_at, tangent_from, tangent_two};
use apt_plane::vectors::{displacement, length_squared, perp};
use apt_plane::{Line, Pt};
use apt_words::{Case, Pick, Symbol, Units};

pub fn line_xy(units: Units, x: i64, y: i64, u: i64, v: i64) -> Result<Figure, Case>
    requires x { IsScalar x }
    requires y { IsScalar y }
    requires u { IsScalar u }
    requires v { IsScalar v }
    ensures value { result ≡ forms.line_xy units x y u v }
    ensures range { IfOk result IsFigure }
{
    let p = point_by(units, x, y)?;
    line_on(units, p, u, v)
}

fn line_on(units: Units, p: Pt, u: i64, v: i64) -> Result<Figure, Case>
    requires p { IsPoint p }
    requires u { IsScalar u }
    requires v { IsScalar v }
    ensures value { result ≡ forms.line_on units p u v }
    ensures range { IfOk result IsFigure }
{
    let q = point_by(units, u, v)?;
    through(p, q)
}

pub fn line_points(table: &Table, p: &Symbol, q: &Symbol) -> Result<Figure, Case>
    ensures value { result ≡ forms.line_points table.now p.now q.now }
    ensures range { IfOk result IsFigure }
{
    let p = point_named(table, p)?;
    let q = point_named(table, q)?;
    through(p, q)
}

/// The line through two points that differ.
#[tactic(auto, using(crate::proofs::Ends::displacement_in_range))]
fn through(p: Pt, q: Pt) -> Result<Figure, Case>
    requires p { IsPoint p }
    requires q { IsPoint q }
    ensures value { result ≡ forms.line_through p q }
    ensures range { IfOk result IsFigure }
{
    let dir = displacement(p, q);
    if length_squared(dir) == 0 {
        return Err(Case::Degenerate);
    }
    a_line(Line { base: p, dir })
}

pub fn line_parallel(table: &Table, p: &Symbol, line: &Symbol) -> Result<Figure, Case>
    ensures value { result ≡ forms.line_parallel table.now p.now line.now }
    ensures range { IfOk result IsFigure }
{
    let base = point_named(table, p)?;
    let dir = line_named(table, line)?.dir;
    a_line(Line { base, dir })
}

#[tactic(auto, using(apt_plane::proofs::Turned::perp_dir))]
pub fn line_perpendicular(table: &Table, p: &Symbol, line: &Symbol) -> Result<Figure, Case>
    ensures value { result ≡ forms.line_perpendicular table.now p.now line.now }
    ensures range { IfOk result IsFigure }
{
    let base = point_named(table, p)?;
    let dir = perp(line_named(table, line)?.dir);
    a_line(Line { base, dir })
}

/// The parallel at a distance.
pub fn line_at(
    units: Units,
    table: &Table,
    line: &Symbol,
    pick: Pick,
    v: i64,
) -> Result<Figure, Case>
    requires { IsScalar v }
    ensures value { result ≡ forms.line_at units table.now line.now pick v }
    ensures range { IfOk result IsFigure }
{
    let line = line_named(table, line)?;
    let distance = length_by(units, v)?;
    line_formed(parallel_at(&line, pick, distance))
}

pub fn line_tangent(table: &Table, p: &Symbol, left: bool, circle: &Symbol) -> Result<Figure, Case>
    ensures value { result ≡ forms.line_tangent table.now p.now left circle.now }
    ensures range { IfOk result IsFigure }
{
    let p = point_named(table, p)?;
    let circle = circle_named(table, circle)?;
    line_formed(tangent_from(p, left, &circle))
}

pub fn line_two(
    table: &Table,
    left_a: bool,
    a: &Symbol,
    left_b: bool,
    b: &Symbol,
) -> Result<Figure, Case>
    ensures value { result ≡ forms.line_two table.now left_a a.now left_b b.now }
    ensures range { IfOk result IsFigure }
{
    let a = circle_named(table, a)?;
    let b = circle_named(table, b)?;
    line_formed(tangent_two(&a, left_a, &b, left_b))
}
