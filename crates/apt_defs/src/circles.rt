//! The forms of CIRCLE.

ghost use Rattle.std.specs.Prelude.{◌≡◌, IfOk};
ghost use Rattle.apt_scalar.specs.Scalars.{IsScalar};
ghost use Rattle.apt_defs.specs.Figures.{IsFigure};
ghost use Rattle.apt_defs.specs.Forms as forms;

use crate::figure::{Figure, circle_formed};
use crate::numbers::{length_by, point_by};
use crate::table::{Table, line_named, point_named};
use apt_canon::{circle_of, circle_three, circle_through, circle_touching, corner};
use apt_words::{Case, Pick, Symbol, Units};

pub fn circle_xyr(units: Units, x: i64, y: i64, r: i64) -> Result<Figure, Case>
    requires x { IsScalar x }
    requires y { IsScalar y }
    requires r { IsScalar r }
    ensures value { result ≡ forms.circle_xyr units x y r }
    ensures range { IfOk result IsFigure }
{
    let centre = point_by(units, x, y)?;
    let r = length_by(units, r)?;
    circle_formed(circle_of(centre, r))
}

pub fn circle_points(table: &Table, a: &Symbol, b: &Symbol, c: &Symbol) -> Result<Figure, Case>
    ensures value { result ≡ forms.circle_points table.now a.now b.now c.now }
    ensures range { IfOk result IsFigure }
{
    let a = point_named(table, a)?;
    let b = point_named(table, b)?;
    let c = point_named(table, c)?;
    circle_formed(circle_three(a, b, c))
}

pub fn circle_radius(units: Units, table: &Table, p: &Symbol, r: i64) -> Result<Figure, Case>
    requires { IsScalar r }
    ensures value { result ≡ forms.circle_radius units table.now p.now r }
    ensures range { IfOk result IsFigure }
{
    let centre = point_named(table, p)?;
    let r = length_by(units, r)?;
    circle_formed(circle_of(centre, r))
}

pub fn circle_tangent(table: &Table, p: &Symbol, line: &Symbol) -> Result<Figure, Case>
    ensures value { result ≡ forms.circle_tangent table.now p.now line.now }
    ensures range { IfOk result IsFigure }
{
    let centre = point_named(table, p)?;
    let line = line_named(table, line)?;
    circle_formed(circle_touching(centre, &line))
}

pub fn circle_by_point(table: &Table, p: &Symbol, q: &Symbol) -> Result<Figure, Case>
    ensures value { result ≡ forms.circle_by_point table.now p.now q.now }
    ensures range { IfOk result IsFigure }
{
    let centre = point_named(table, p)?;
    let through = point_named(table, q)?;
    circle_formed(circle_through(centre, through))
}

pub fn circle_corner(
    units: Units,
    table: &Table,
    pick_a: Pick,
    a: &Symbol,
    pick_b: Pick,
    b: &Symbol,
    r: i64,
) -> Result<Figure, Case>
    requires { IsScalar r }
    ensures value { result ≡ forms.circle_corner units table.now pick_a a.now pick_b b.now r }
    ensures range { IfOk result IsFigure }
{
    let a = line_named(table, a)?;
    let b = line_named(table, b)?;
    let r = length_by(units, r)?;
    circle_formed(corner(&a, pick_a, &b, pick_b, r))
}
