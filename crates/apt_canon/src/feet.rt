//! The point of a circle in a direction, the foot of a point on a line, and parallels at a distance.

ghost use Rattle.std.specs.Prelude.{◌≡◌, ◌↔◌, ◌⊎◌, ◌^◌, ◌≤◌, ◌<◌, ◌*◌, ◌<ℤ◌, ◌≤ℤ◌, pos, ◌-ℤ◌, ◌*ℤ◌, unsigned_abs, IfOk, IsErrOf, false};
ghost use Rattle.apt_num.specs.declared.Sign.TheVariants as signs;
ghost use Rattle.apt_num.specs.Near.{near, half_up};
ghost use Rattle.apt_num.specs.Sign.{square};
ghost use Rattle.apt_plane.specs.Vectors as vectors;
ghost use Rattle.apt_plane.specs.Ranges.{IsPoint, IsDir, IsLine, IsMoved, IsRound};
ghost use Rattle.apt_canon.specs.Scale.{IsNearLine, IsNearCircle, IsAway};
ghost use Rattle.apt_canon.specs.Scale as scale;
ghost use Rattle.apt_canon.specs.Feet.{IsPicked};
ghost use Rattle.apt_canon.specs.Feet as feet;

use crate::FormFault;
use crate::picks::{offset_picked, side_picked};
use crate::scale::{depth, framed, measure, opposite, within};
use apt_plane::vectors::perp;
use apt_plane::{Circ, Dir, Line, Moved, Pt};
use apt_words::Pick;

/// The point, rounded to the grid, of a circle in a direction from its centre.
///
/// # Errors
///
/// `OutOfRange` where the point leaves the coordinate limit.
pub fn ray(c: &Circ, u: Dir) -> Result<Pt, FormFault>
    requires circle { IsRound c.now }
    requires dir { IsDir u }
    ensures value { result ≡ feet.ray c.now u }
    ensures out_of_range { IsErrOf result FormFault.OutOfRange ↔ (scale.is_in_range (feet.ray_point c.now u) ≡ false) }
    ensures in_range { IfOk result (λ p. IsPoint p) }
    ensures on_circle { IfOk result (λ p. IsNearCircle c.now (pos 1) p) }
    ensures across { IfOk result (λ p. 2 * square (vectors.cross u (vectors.displacement c.now.c p)) ≤ vectors.length_squared u) }
    ensures onwards { IfOk result (λ p. (pos 0 <ℤ c.now.r) → pos 0 <ℤ vectors.dot u (vectors.displacement c.now.c p)) }
{
    within(ray_point(c, u))
}

/// The point of a circle in a direction from its centre, whether or not it is in range: less than a unit off the
/// direction, and within three quarters of one of the circle.
pub fn ray_point(c: &Circ, u: Dir) -> Pt
    requires circle { IsRound c.now }
    requires dir { IsDir u }
    ensures value { result ≡ feet.ray_point c.now u }
    ensures on_circle { IsNearCircle c.now (pos 1) result }
    ensures across { 2 * square (vectors.cross u (vectors.displacement c.now.c result)) ≤ vectors.length_squared u }
    ensures onwards { (pos 0 <ℤ c.now.r) → pos 0 <ℤ vectors.dot u (vectors.displacement c.now.c result) }
    ensures radius { (pos 100 ≤ℤ c.now.r) → 2 * unsigned_abs (pos (vectors.length_squared (vectors.displacement c.now.c result)) -ℤ (c.now.r *ℤ c.now.r)) ≤ 3 * unsigned_abs c.now.r }
{
    along(c.c, u, c.r, measure(u))
}

/// The foot, rounded to the grid, of a point on a moved line.
///
/// # Errors
///
/// `OutOfRange` where the foot leaves the coordinate limit.
pub fn foot(p: Pt, l: &Moved) -> Result<Pt, FormFault>
    requires point { IsPoint p }
    requires line { IsMoved l.now }
    ensures value { result ≡ feet.foot p l.now.line l.now.off }
    ensures out_of_range { IsErrOf result FormFault.OutOfRange ↔ (scale.is_in_range (feet.foot_point p l.now.line l.now.off) ≡ false) }
    ensures in_range { IfOk result (λ q. IsPoint q) }
    ensures on_line { IfOk result (λ q. IsNearLine l.now.line l.now.off (pos 1) q) }
    ensures across { IfOk result (λ q. 2 * square (vectors.dot l.now.line.dir (vectors.displacement p q)) ≤ vectors.length_squared l.now.line.dir) }
{
    within(foot_point(p, l))
}

/// The foot of a point on a moved line, whether or not it is in range: less than a unit off the square to the line.
pub fn foot_point(p: Pt, l: &Moved) -> Pt
    requires point { IsPoint p }
    requires line { IsMoved l.now }
    ensures value { result ≡ feet.foot_point p l.now.line l.now.off }
    ensures on_line { IsNearLine l.now.line l.now.off (pos 1) result }
    ensures across { 2 * square (vectors.dot l.now.line.dir (vectors.displacement p result)) ≤ vectors.length_squared l.now.line.dir }
{
    framed(p, l.line.dir, 0, opposite(depth(l, p)))
}

/// The parallel of a line at a distance in grid units, on the side of the greater or smaller x or y.
///
/// # Errors
///
/// `Degenerate` where the distance is below 0, or the line runs along the axis of the modifier;
/// `OutOfRange` where its base leaves the coordinate limit.
pub fn parallel_at(l: &Line, pick: Pick, d: i64) -> Result<Line, FormFault>
    requires line { IsLine l.now }
    requires distance { unsigned_abs d ≤ 10 ^ 8 }
    ensures value { result ≡ feet.parallel_at l.now pick d }
    ensures degenerate { IsErrOf result FormFault.Degenerate ↔ ((d <ℤ pos 0) ⊎ (feet.side_picked l.now pick ≡ signs.Zero)) }
    ensures in_range { IfOk result (λ m. IsLine m) }
    ensures same_dir { IfOk result (λ m. m.dir ≡ l.now.dir) }
    ensures on_line { IfOk result (λ m. IfOk (feet.offset_picked (feet.side_picked l.now pick) d) (λ h. IsNearLine l.now h (pos 1) m.base)) }
    ensures beside { IfOk result (λ m. (pos 0 <ℤ d) → IsPicked l.now pick m.base) }
    ensures away { IfOk result (λ m. (pos 0 <ℤ d) → IsAway l.now d m.base) }
{
    parallel_at_value(l, pick, d)
}

fn parallel_at_value(l: &Line, pick: Pick, d: i64) -> Result<Line, FormFault>
    requires line { IsLine l.now }
    requires distance { unsigned_abs d ≤ 10 ^ 8 }
    ensures { result ≡ feet.parallel_at l.now pick d }
{
    if d < 0 {
        return Err(FormFault::Degenerate);
    }
    let off = offset_picked(side_picked(l, pick), d)?;
    let base = within(parallel_point(l, off))?;
    Ok(Line { base, dir: l.dir })
}

fn parallel_point(l: &Line, h: i64) -> Pt
    requires line { IsLine l.now }
    requires offset { unsigned_abs h ≤ 10 ^ 8 }
    ensures { result ≡ feet.parallel_point l.now h }
{
    along(l.base, perp(l.dir), h, measure(l.dir))
}

/// The point at a distance along a direction from another: the direction's length is given.
fn along(c: Pt, u: Dir, distance: i64, length: u64) -> Pt
    requires point { IsPoint c }
    requires x { unsigned_abs u.dx ≤ 10 ^ 8 }
    requires y { unsigned_abs u.dy ≤ 10 ^ 8 }
    requires distance { unsigned_abs distance ≤ 10 ^ 8 }
    requires large { 2 ^ 35 ≤ length }
    ensures { result ≡ scale.from c (scale.nearest (scale.times (distance *ℤ scale.unit) u) (pos length)) }
{
    Pt {
        x: c.x + units_over(product(distance, u.dx), length),
        y: c.y + units_over(product(distance, u.dy), length),
    }
}

fn product(a: i64, b: i64) -> i64
    requires a { unsigned_abs a ≤ 10 ^ 8 }
    requires b { unsigned_abs b ≤ 10 ^ 8 }
    ensures value { result ≡ a *ℤ b }
    ensures small { unsigned_abs result ≤ 10 ^ 16 }
{
    a * b
}

/// A number times a unit over a length, to the nearest whole number.
fn units_over(n: i64, length: u64) -> i64
    requires n { unsigned_abs n ≤ 10 ^ 16 }
    requires large { 2 ^ 35 ≤ length }
    ensures value { result ≡ near (n *ℤ scale.unit) (pos length) }
    ensures small { unsigned_abs result ≤ 10 ^ 16 }
{
    let size = size_over(n.unsigned_abs(), length) as i64;
    if n < 0 { -size } else { size }
}

/// The same of a size: half a length is added, and the quotient rounded down.
fn size_over(n: u64, length: u64) -> u64
    requires n { n ≤ 10 ^ 16 }
    requires large { 2 ^ 35 ≤ length }
    ensures value { result ≡ half_up (n * 2 ^ 35) length }
    ensures small { result ≤ 10 ^ 16 }
{
    ((u128::from(n) * (1 << 35) + u128::from(length / 2)) / u128::from(length)) as u64
}
