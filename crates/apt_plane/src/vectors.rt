//! Ways between points and their products. Nothing is rounded.

ghost use Rattle.std.specs.Prelude.{◌≡◌, ◌≤◌, ◌^◌, ◌*◌, ◌*ℤ◌, unsigned_abs};
ghost use Rattle.apt_plane.specs.Ranges.{IsPoint, IsDir, IsShort, IsVector};
ghost use Rattle.apt_plane.specs.Vectors as spec;

use crate::figures::{Dir, Pt};

/// The way from one point to another, in grid units.
pub fn displacement(p: Pt, q: Pt) -> Dir
    requires start { IsPoint p }
    requires end { IsPoint q }
    ensures value { result ≡ spec.displacement p q }
    ensures fits { IsVector result }
    ensures short { IsShort result }
{
    Dir {
        dx: q.x - p.x,
        dy: q.y - p.y,
    }
}

/// The cross product, in the product of both units: positive where `v` points to the left of `u`.
pub fn cross(u: Dir, v: Dir) -> i128
    requires first { IsVector u }
    requires second { IsVector v }
    ensures value { result ≡ spec.cross u v }
    ensures small { unsigned_abs result ≤ 2 ^ 125 }
{
    times(u.dx, v.dy) - times(u.dy, v.dx)
}

/// The dot product, in the product of both units.
pub fn dot(u: Dir, v: Dir) -> i128
    requires first { IsVector u }
    requires second { IsVector v }
    ensures value { result ≡ spec.dot u v }
    ensures small { unsigned_abs result ≤ 2 ^ 125 }
{
    times(u.dx, v.dx) + times(u.dy, v.dy)
}

/// The square of the length.
pub fn length_squared(u: Dir) -> u128
    ensures { result ≡ spec.length_squared u }
{
    square(u.dx) + square(u.dy)
}

/// The square of the length of a direction.
#[tactic(auto, using(crate::proofs::Heights::length_squared_small))]
pub fn length_squared_of(dir: Dir) -> u128
    requires { IsDir dir }
    ensures value { result ≡ spec.length_squared dir }
    ensures small { result ≤ 2 * 10 ^ 16 }
{
    length_squared(dir)
}

/// The cross product of two directions.
#[tactic(auto, using(crate::proofs::Heights::cross_small))]
pub fn cross_of(first: Dir, second: Dir) -> i128
    requires first { IsDir first }
    requires second { IsDir second }
    ensures value { result ≡ spec.cross first second }
    ensures small { unsigned_abs result ≤ 2 * 10 ^ 16 }
{
    cross(first, second)
}

/// The signed distance to the left of the line through the base, times the length of its direction.
#[tactic(auto, using(crate::proofs::Heights::displacement_height_small))]
pub fn height(base: Pt, dir: Dir, p: Pt) -> i128
    requires base { IsPoint base }
    requires dir { IsDir dir }
    requires point { IsPoint p }
    ensures value { result ≡ spec.cross dir (spec.displacement base p) }
    ensures small { unsigned_abs result ≤ 2 * 10 ^ 16 }
{
    cross(dir, displacement(base, p))
}

/// The way turned by a quarter to the left.
pub fn perp(u: Dir) -> Dir
    requires { IsVector u }
    ensures value { result ≡ spec.perp u }
    ensures fits { IsVector result }
{
    Dir {
        dx: -u.dy,
        dy: u.dx,
    }
}

fn times(a: i64, b: i64) -> i128
    requires left { unsigned_abs a ≤ 2 ^ 62 }
    requires right { unsigned_abs b ≤ 2 ^ 62 }
    ensures value { result ≡ a *ℤ b }
    ensures small { unsigned_abs result ≤ 2 ^ 124 }
{
    i128::from(a) * i128::from(b)
}

fn square(a: i64) -> u128
    ensures value { result ≡ unsigned_abs a * unsigned_abs a }
    ensures small { result ≤ 2 ^ 126 }
{
    let size = u128::from(a.unsigned_abs());
    size * size
}
