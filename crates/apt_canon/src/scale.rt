//! What all formulas share: lengths in small units, nearest quotients, frames, and the coordinate limit.

ghost use Rattle.std.specs.Prelude.{◌≡◌, ◌≢◌, ◌*◌, ◌^◌, ◌≤◌, ◌<◌, pos, neg_ℤ, ◌+ℤ◌, ◌*ℤ◌, unsigned_abs};
ghost use Rattle.apt_num.specs.Near.{near};
ghost use Rattle.apt_plane.specs.Vectors as vectors;
ghost use Rattle.apt_plane.specs.Ranges.{IsPoint, IsDir, IsMoved};
ghost use Rattle.apt_canon.specs.Scale as scale;
ghost use Rattle.apt_canon.specs.Circles as circles;

use crate::FormFault;
use apt_num::{div_near, isqrt};
use apt_plane::vectors::{height, length_squared_of, perp};
use apt_plane::{Dir, Moved, Pt};

/// The coordinate limit, in grid units.
const LIMIT: u128 = 50_000_000;

/// One unit of length in the formulas.
pub(crate) const UNIT: i128 = 1 << 35;

/// A point that may leave the coordinate limit, in grid units.
#[derive(Clone, Copy, Debug, PartialEq, Eq)]
pub struct Wide {
    pub x: i128,
    pub y: i128,
}

/// The length of a direction, in units, rounded down. Along an axis it is exact.
#[tactic(auto, using(crate::proofs::Axes::upright, crate::proofs::Axes::level, crate::proofs::Axes::not_none))]
pub(crate) fn measure(dir: Dir) -> u64
    requires { IsDir dir }
    ensures value { pos result ≡ scale.length_of dir }
    ensures small { result < 2 ^ 63 }
    ensures large { 2 ^ 35 ≤ result }
{
    if dir.dx == 0 {
        units(dir.dy)
    } else if dir.dy == 0 {
        units(dir.dx)
    } else {
        root_of(dir)
    }
}

/// The same as a signed number.
pub(crate) fn length_of(dir: Dir) -> i128
    requires { IsDir dir }
    ensures value { result ≡ scale.length_of dir }
    ensures small { unsigned_abs result < 2 ^ 63 }
    ensures large { 2 ^ 35 ≤ unsigned_abs result }
{
    i128::from(measure(dir))
}

/// A size, in units.
fn units(size: i64) -> u64
    requires least { 1 ≤ unsigned_abs size }
    requires most { unsigned_abs size ≤ 10 ^ 8 }
    ensures value { result ≡ unsigned_abs size * 2 ^ 35 }
    ensures small { result < 2 ^ 63 }
    ensures large { 2 ^ 35 ≤ result }
{
    size.unsigned_abs() * (1 << 35)
}

fn root_of(dir: Dir) -> u64
    requires { IsDir dir }
    ensures value { pos result ≡ scale.length_of dir }
    ensures small { result < 2 ^ 63 }
    ensures large { 2 ^ 35 ≤ result }
{
    isqrt(length_squared_of(dir) * (1 << 70)) as u64
}

pub(crate) fn times(a: i64, b: i128) -> i128
    requires a { unsigned_abs a ≤ 10 ^ 8 }
    requires b { unsigned_abs b ≤ 2 ^ 91 }
    ensures value { result ≡ a *ℤ b }
    ensures small { unsigned_abs result ≤ 10 ^ 8 * unsigned_abs b }
{
    i128::from(a) * b
}

/// A coordinate, and the nearest quotient beyond it.
pub(crate) fn shifted(base: i64, share: i128, divisor: i128) -> i128
    requires base { unsigned_abs base ≤ 50000000 }
    requires share { unsigned_abs share ≤ 2 ^ 119 }
    requires divisor { unsigned_abs divisor ≤ 2 ^ 91 }
    requires not_zero { divisor ≢ pos 0 }
    ensures { result ≡ base +ℤ near share divisor }
{
    i128::from(base) + div_near(share, divisor)
}

/// A point within the coordinate limit, else `OutOfRange`.
pub(crate) fn in_range(point: Wide) -> Result<Pt, FormFault>
    ensures { result ≡ scale.in_range (record { x = point.x; y = point.y }) }
{
    if point.x.unsigned_abs() <= LIMIT && point.y.unsigned_abs() <= LIMIT {
        Ok(Pt {
            x: point.x as i64,
            y: point.y as i64,
        })
    } else {
        Err(FormFault::OutOfRange)
    }
}

/// The same of a point.
pub(crate) fn within(point: Pt) -> Result<Pt, FormFault>
    ensures { result ≡ scale.in_range point }
{
    in_range(Wide {
        x: i128::from(point.x),
        y: i128::from(point.y),
    })
}

/// How far a point lies to the left of a moved line, in units of 2^-30.
pub(crate) fn depth(l: &Moved, p: Pt) -> i128
    requires line { IsMoved l.now }
    requires point { IsPoint p }
    ensures value { result ≡ circles.depth l.now.line.dir (vectors.cross l.now.line.dir (vectors.displacement l.now.line.base p)) l.now.off }
    ensures small { unsigned_abs result ≤ 2 ^ 58 }
{
    let cross = height(l.line.base, l.line.dir, p);
    div_near(cross * (1 << 65), length_of(l.line.dir)) - i128::from(l.off) * (1 << 30)
}

/// The same the other way, as of a depth.
pub(crate) fn opposite(x: i128) -> i128
    requires { unsigned_abs x ≤ 2 ^ 58 }
    ensures value { result ≡ neg_ℤ x }
    ensures small { unsigned_abs result ≤ 2 ^ 58 }
{
    -x
}

/// The point, rounded to the grid, that lies `x` units of 2^-30 along a direction from another, and `y` to its left.
pub(crate) fn framed(c: Pt, d: Dir, x: i128, y: i128) -> Pt
    requires point { IsPoint c }
    requires dir { IsDir d }
    requires x { unsigned_abs x ≤ 2 ^ 58 }
    requires y { unsigned_abs y ≤ 2 ^ 58 }
    ensures { result ≡ circles.framed c d x y }
{
    let length = length_of(d);
    let left = perp(d);
    Pt {
        x: placed(c.x, in_frame(d.dx, x, left.dx, y), length),
        y: placed(c.y, in_frame(d.dy, x, left.dy, y), length),
    }
}

fn in_frame(a: i64, x: i128, b: i64, y: i128) -> i128
    requires a { unsigned_abs a ≤ 10 ^ 8 }
    requires x { unsigned_abs x ≤ 2 ^ 58 }
    requires b { unsigned_abs b ≤ 10 ^ 8 }
    requires y { unsigned_abs y ≤ 2 ^ 58 }
    ensures value { result ≡ pos 32 *ℤ ((x *ℤ a) +ℤ (y *ℤ b)) }
    ensures small { unsigned_abs result ≤ 2 ^ 91 }
{
    32 * (times(a, x) + times(b, y))
}

/// A coordinate, and the nearest quotient beyond it where the divisor is a length.
pub(crate) fn placed(base: i64, share: i128, length: i128) -> i64
    requires base { unsigned_abs base ≤ 50000000 }
    requires share { unsigned_abs share ≤ 2 ^ 91 }
    requires large { 2 ^ 35 ≤ unsigned_abs length }
    requires small { unsigned_abs length < 2 ^ 63 }
    ensures { result ≡ base +ℤ near share length }
{
    shifted(base, share, length) as i64
}
