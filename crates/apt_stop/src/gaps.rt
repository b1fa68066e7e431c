//! Whether two surfaces come near to touching.

ghost use Rattle.std.specs.Prelude.{◌≡◌, ◌↔◌, ◌*◌, ◌^◌, ◌≤◌, pos, ◌-ℤ◌, ◌≤ℤ◌, unsigned_abs, IsTrue};
ghost use Rattle.apt_plane.specs.Ranges.{IsLine, IsCircle, IsSurface};
ghost use Rattle.apt_offset.specs.Targets as targets;
ghost use Rattle.apt_stop.specs.Gaps as spec;
ghost use Rattle.apt_stop.specs.Touching.{AreTouching};

use crate::nearness::{is_in_strip, square};
use apt_offset::touch_outside;
use apt_plane::vectors::{displacement, height, length_squared, length_squared_of};
use apt_plane::{Circ, Line, Surface};

/// Surfaces that touch may have a gap of so many grid units between them, or overlap by as many.
const GAP: i64 = 2;

/// Whether two surfaces touch, up to a gap; two lines do not.
pub fn is_touching(drive: &Surface, check: &Surface) -> bool
    requires drive { IsSurface drive.now }
    requires check { IsSurface check.now }
    ensures value { result ≡ spec.is_touching drive.now check.now }
    ensures touching { IsTrue result ↔ AreTouching drive.now check.now }
{
    match (drive, check) {
        (Surface::Line(_), Surface::Line(_)) => false,
        (Surface::Line(line), Surface::Circ(circle)) => line_touches(line, circle),
        (Surface::Circ(circle), Surface::Line(line)) => line_touches(line, circle),
        (Surface::Circ(first), Surface::Circ(second)) => circles_touch(first, second),
    }
}

fn line_touches(line: &Line, circle: &Circ) -> bool
    requires line { IsLine line.now }
    requires circle { IsCircle circle.now }
    ensures { result ≡ spec.line_touches line.now circle.now }
{
    let height = size(height(line.base, line.dir, circle.c));
    is_in_strip(height, circle.r, GAP, length_squared_of(line.dir))
}

fn size(z: i128) -> i128
    requires { unsigned_abs z ≤ 2 * 10 ^ 16 }
    ensures value { result ≡ spec.size z }
    ensures small { unsigned_abs result ≤ 2 * 10 ^ 16 }
{
    z.abs()
}

fn circles_touch(first: &Circ, second: &Circ) -> bool
    requires first { IsCircle first.now }
    requires second { IsCircle second.now }
    ensures { result ≡ spec.circles_touch first.now second.now }
{
    is_about(
        touching_distance(first, second),
        length_squared(displacement(first.c, second.c)),
    )
}

/// How far apart the centres of two circles are that touch.
fn touching_distance(first: &Circ, second: &Circ) -> i64
    requires first { IsCircle first.now }
    requires second { IsCircle second.now }
    ensures value { result ≡ spec.touching_distance first.now second.now }
    ensures least { pos 0 ≤ℤ result }
    ensures most { result ≤ℤ pos (10 ^ 8) }
{
    if touch_outside(first, second) {
        first.r + second.r
    } else {
        (first.r - second.r).abs()
    }
}

/// Whether the root of `n` is at most a gap away from a length.
fn is_about(a: i64, n: u128) -> bool
    requires least { pos 0 ≤ℤ a }
    requires most { a ≤ℤ pos (10 ^ 8) }
    ensures { result ≡ spec.is_about a n }
{
    square(less_gap(a)) <= n && n <= square(a + GAP)
}

fn less_gap(a: i64) -> i64
    requires least { pos 0 ≤ℤ a }
    ensures { result ≡ targets.greater (pos 0) (a -ℤ spec.gap) }
{
    if a < GAP { 0 } else { a - GAP }
}
