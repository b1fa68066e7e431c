//! Tables of tests: their rows, and the figures that rows draw, which are there only where they are in range.

ghost use Rattle.std.specs.Prelude.{◌+◌, ◌≤◌, unsigned_abs, IsTrue, IfSome};
ghost use Rattle.apt_plane.specs.Ranges.{IsPoint, IsDir, IsLine, IsMoved, IsCircle, IsRound, IsSurface, IsSense};
ghost use Rattle.apt_offset.specs.Ranges.{IsTarget, IsRadius};

use apt_offset::Target;
use apt_plane::vectors::length_squared;
use apt_plane::{Circ, Dir, Line, Moved, Pt, Surface};
use std::process::Abort;

/// A point, or a direction.
pub(crate) type Pair = (i64, i64);

/// A line by a point and its direction.
pub(crate) type Straight = (Pair, Pair);

/// A line, and how far it is moved to its left.
pub(crate) type Slid = (Straight, i64);

/// A circle by its centre and radius.
pub(crate) type Round = (Pair, i64);

/// A surface.
#[derive(Clone, Copy)]
pub(crate) enum Drawn {
    Line(Pair, Pair),
    Ring(Pair, i64),
}

/// The track of a surface: a line that is moved to its left, or a circle.
#[derive(Clone, Copy)]
pub(crate) enum Track {
    Beside(Pair, Pair, i64),
    Ring(Pair, i64),
}

/// Stops at the first row that is not right, and tells its number.
pub(crate) fn assert_all<R, F: Fn(&R) -> bool>(rt: &impl Abort, rows: &[R], is_right: F)
    requires { F.IsAlwaysCallable is_right }
{
    for (number, row) in rows.iter().enumerate() {
        assert!(rt; is_right(row), "row {number}, counted from 0");
    }
}

fn is_point(p: Pt) -> bool
    ensures { IsTrue result → IsPoint p }
{
    p.x.unsigned_abs() <= 50_000_000 && p.y.unsigned_abs() <= 50_000_000
}

fn is_dir(dir: Dir) -> bool
    ensures { IsTrue result → IsDir dir }
{
    dir.dx.unsigned_abs() <= 100_000_000
        && dir.dy.unsigned_abs() <= 100_000_000
        && length_squared(dir) >= 1
}

fn is_inside(c: Pt, r: u64) -> bool
    requires point { IsPoint c }
    requires r { r ≤ 49000000 }
    ensures { IsTrue result → (unsigned_abs c.x + r ≤ 49000000) × (unsigned_abs c.y + r ≤ 49000000) }
{
    c.x.unsigned_abs() + r <= 49_000_000 && c.y.unsigned_abs() + r <= 49_000_000
}

pub(crate) fn is_sense(sense: i8) -> bool
    ensures { IsTrue result → IsSense sense }
{
    sense == 1 || sense == -1
}

pub(crate) fn is_radius(radius: i64) -> bool
    ensures { IsTrue result → IsRadius radius }
{
    radius >= 0 && radius <= 500_000
}

pub(crate) fn point(at: Pair) -> Option<Pt>
    ensures { IfSome result IsPoint }
{
    let (x, y) = at;
    let p = Pt { x, y };
    if is_point(p) { Some(p) } else { None }
}

pub(crate) fn dir(along: Pair) -> Option<Dir>
    ensures { IfSome result IsDir }
{
    let (dx, dy) = along;
    let u = Dir { dx, dy };
    if is_dir(u) { Some(u) } else { None }
}

pub(crate) fn line(straight: Straight) -> Option<Line>
    ensures { IfSome result IsLine }
{
    let (at, along) = straight;
    let base = point(at)?;
    let dir = dir(along)?;
    Some(Line { base, dir })
}

pub(crate) fn moved(slid: Slid) -> Option<Moved>
    ensures { IfSome result IsMoved }
{
    let (straight, off) = slid;
    let line = line(straight)?;
    if off.unsigned_abs() <= 100_000_000 {
        Some(Moved { line, off })
    } else {
        None
    }
}

/// A circle whose radius is a length.
pub(crate) fn round(ring: Round) -> Option<Circ>
    ensures { IfSome result IsRound }
{
    let (centre, r) = ring;
    let c = point(centre)?;
    if r >= 0 && r <= 100_000_000 {
        Some(Circ { c, r })
    } else {
        None
    }
}

/// A circle that may be a surface.
pub(crate) fn circle(ring: Round) -> Option<Circ>
    ensures { IfSome result IsCircle }
{
    let (centre, r) = ring;
    let c = point(centre)?;
    if r >= 100 && r <= 49_000_000 && is_inside(c, r.unsigned_abs()) {
        Some(Circ { c, r })
    } else {
        None
    }
}

pub(crate) fn surface(drawn: Drawn) -> Option<Surface>
    ensures { IfSome result IsSurface }
{
    match drawn {
        Drawn::Line(base, along) => Some(Surface::Line(line((base, along))?)),
        Drawn::Ring(centre, r) => Some(Surface::Circ(circle((centre, r))?)),
    }
}

fn beside(slid: Slid) -> Option<Target>
    ensures { IfSome result IsTarget }
{
    let Moved { line, off } = moved(slid)?;
    Some(Target::Line {
        base: line.base,
        dir: line.dir,
        off,
    })
}

fn ring(ring: Round) -> Option<Target>
    ensures { IfSome result IsTarget }
{
    let Circ { c, r } = round(ring)?;
    if r >= 100 {
        Some(Target::Circ { c, r })
    } else {
        None
    }
}

pub(crate) fn target(track: Track) -> Option<Target>
    ensures { IfSome result IsTarget }
{
    match track {
        Track::Beside(base, along, off) => beside(((base, along), off)),
        Track::Ring(centre, r) => ring((centre, r)),
    }
}
