//! Circles about a centre, through points, along lines, and in corners.

ghost use Rattle.std.specs.Prelude.{◌≡◌, ◌≢◌, ◌↔◌, ◌⊎◌, ◌+◌, ◌*◌, ◌^◌, ◌≤◌, pos, ◌*ℤ◌, ◌-ℤ◌, ◌≤ℤ◌, ◌<ℤ◌, unsigned_abs, IfOk, IsErrOf, Ok};
ghost use Rattle.apt_num.specs.declared.Sign.TheVariants as signs;
ghost use Rattle.apt_num.specs.Near.{near};
ghost use Rattle.apt_plane.specs.Vectors as vectors;
ghost use Rattle.apt_plane.specs.Ranges.{IsPoint, IsDir, IsLine, IsCircle};
ghost use Rattle.apt_canon.specs.Scale.{IsNearCircle};
ghost use Rattle.apt_canon.specs.Scale as scale;
ghost use Rattle.apt_canon.specs.Feet.{IsPicked};
ghost use Rattle.apt_canon.specs.Feet as feet;
ghost use Rattle.apt_canon.specs.Rounds as rounds;
ghost use Rattle.apt_canon.specs.RoundLaws.{IsTooLarge, Touches, AreOnLine, IsThrough, rounded_through, IsBeside, NoCorner};

use crate::FormFault;
use crate::lines::{line_line, product_difference};
use crate::picks::{offset_picked, side_picked};
use crate::scale::{UNIT, Wide, length_of};
use apt_num::{div_near, root_near};
use apt_plane::vectors::{cross, displacement, height, length_squared, length_squared_of};
use apt_plane::{Circ, Dir, Line, Moved, Pt};
use apt_words::Pick;

/// The least radius, in grid units.
const LEAST_RADIUS: i64 = 100;

/// How far a circle reaches at most from the axes, in grid units.
const REACH: u128 = 49_000_000;

/// A centre further from a point of its circle makes the circle too large, whatever its radius.
const FAR: u128 = 200_000_000;

/// The circle about a centre, its radius in grid units.
///
/// # Errors
///
/// `Degenerate` where the radius is under 100, `TooLarge` where the circle reaches further from an axis than 49,000,000.
pub fn circle_of(c: Pt, r: i64) -> Result<Circ, FormFault>
    ensures value { result ≡ rounds.circle_of c r }
    ensures degenerate { IsErrOf result FormFault.Degenerate ↔ (r <ℤ pos 100) }
    ensures too_large { IsErrOf result FormFault.TooLarge ↔ IsTooLarge (rounds.circle c r) }
    ensures range { IfOk result (λ k. IsCircle k) }
{
    circle_of_value(c, r)
}

fn circle_of_value(c: Pt, r: i64) -> Result<Circ, FormFault>
    ensures { result ≡ rounds.circle_of c r }
{
    if r < LEAST_RADIUS {
        Err(FormFault::Degenerate)
    } else if reach(c.x, r) > REACH || reach(c.y, r) > REACH {
        Err(FormFault::TooLarge)
    } else {
        Ok(Circ { c, r })
    }
}

fn reach(x: i64, r: i64) -> u128
    ensures { result ≡ unsigned_abs x + unsigned_abs r }
{
    u128::from(x.unsigned_abs()) + u128::from(r.unsigned_abs())
}

/// The circle about a centre through a point, its radius rounded.
///
/// # Errors
///
/// Those of `circle_of`.
pub fn circle_through(c: Pt, p: Pt) -> Result<Circ, FormFault>
    requires c { IsPoint c }
    requires p { IsPoint p }
    ensures value { result ≡ rounds.circle_through c p }
    ensures degenerate { IsErrOf result FormFault.Degenerate ↔ ((rounds.about_through c p).r <ℤ pos 100) }
    ensures too_large { IsErrOf result FormFault.TooLarge ↔ IsTooLarge (rounds.about_through c p) }
    ensures range { IfOk result (λ k. IsCircle k) }
    ensures centre { IfOk result (λ k. k.c ≡ c) }
    ensures through { IfOk result (λ k. IsNearCircle k (pos 1) p) }
{
    circle_of_value(c, length_near(displacement(c, p)))
}

/// The length of a way, to the nearest whole number.
fn length_near(way: Dir) -> i64
    requires dx { unsigned_abs way.dx ≤ 2 * 10 ^ 8 }
    requires dy { unsigned_abs way.dy ≤ 2 * 10 ^ 8 }
    ensures { result ≡ pos (rounds.length_near way) }
{
    root_near(length_squared(way)) as i64
}

/// The circle about a centre that touches a line, its radius rounded.
///
/// # Errors
///
/// Those of `circle_of`.
pub fn circle_touching(c: Pt, l: &Line) -> Result<Circ, FormFault>
    requires c { IsPoint c }
    requires l { IsLine l.now }
    ensures value { result ≡ rounds.circle_touching c l.now }
    ensures degenerate { IsErrOf result FormFault.Degenerate ↔ ((rounds.about_touching c l.now).r <ℤ pos 100) }
    ensures too_large { IsErrOf result FormFault.TooLarge ↔ IsTooLarge (rounds.about_touching c l.now) }
    ensures range { IfOk result (λ k. IsCircle k) }
    ensures centre { IfOk result (λ k. k.c ≡ c) }
    ensures touches { IfOk result (λ k. Touches k l.now) }
{
    circle_of_value(c, distance_from_line(c, l))
}

fn distance_from_line(p: Pt, l: &Line) -> i64
    requires p { IsPoint p }
    requires l { IsLine l.now }
    ensures { result ≡ rounds.distance_from_line p l.now }
{
    let size = height(l.base, l.dir, p).unsigned_abs() as i128;
    div_near(size * UNIT, length_of(l.dir)) as i64
}

/// The circle through three points, its centre and its radius rounded.
///
/// # Errors
///
/// `Degenerate` where they are on one line, and those of `circle_of`.
pub fn circle_three(p: Pt, q: Pt, r: Pt) -> Result<Circ, FormFault>
    requires p { IsPoint p }
    requires q { IsPoint q }
    requires r { IsPoint r }
    ensures value { result ≡ rounds.circle_three p q r }
    ensures degenerate { IsErrOf result FormFault.Degenerate ↔ (AreOnLine p q r ⊎ ((rounded_through p q r).r <ℤ pos 100)) }
    ensures too_large { IsErrOf result FormFault.TooLarge ↔ ((¬ AreOnLine p q r) × IsTooLarge (rounded_through p q r)) }
    ensures range { IfOk result (λ k. IsCircle k) }
    ensures through { IfOk result (λ k. IsThrough p q r k) }
{
    circle_three_value(p, q, r)
}

fn circle_three_value(p: Pt, q: Pt, r: Pt) -> Result<Circ, FormFault>
    requires p { IsPoint p }
    requires q { IsPoint q }
    requires r { IsPoint r }
    ensures { result ≡ rounds.circle_three p q r }
{
    let b = displacement(p, q);
    let c = displacement(p, r);
    let turn = cross(b, c);
    if turn == 0 {
        return Err(FormFault::Degenerate);
    }
    circle_about(p, centre_from(b, c, turn))
}

/// The way to the centre from the first of three points, given the ways to the others and their cross product.
fn centre_from(b: Dir, c: Dir, turn: i128) -> Wide
    requires b { IsDir b }
    requires c { IsDir c }
    requires turn { turn ≡ vectors.cross b c }
    requires turn_small { unsigned_abs turn ≤ 2 * 10 ^ 16 }
    requires not_zero { turn ≢ pos 0 }
    ensures x { result.x ≡ (rounds.centre_from b c).dx }
    ensures y { result.y ≡ (rounds.centre_from b c).dy }
{
    let squared_b = length_squared_of(b) as i128;
    let squared_c = length_squared_of(c) as i128;
    Wide {
        x: share(c.dy, squared_b, b.dy, squared_c, turn),
        y: share(b.dx, squared_c, c.dx, squared_b, turn),
    }
}

/// `a * b - c * d` over twice the cross product.
fn share(a: i64, b: i128, c: i64, d: i128, turn: i128) -> i128
    requires a { unsigned_abs a ≤ 10 ^ 8 }
    requires b { unsigned_abs b ≤ 2 * 10 ^ 16 }
    requires c { unsigned_abs c ≤ 10 ^ 8 }
    requires d { unsigned_abs d ≤ 2 * 10 ^ 16 }
    requires turn_small { unsigned_abs turn ≤ 2 * 10 ^ 16 }
    requires not_zero { turn ≢ pos 0 }
    ensures { result ≡ near ((a *ℤ b) -ℤ (c *ℤ d)) (pos 2 *ℤ turn) }
{
    div_near(product_difference(a, b, c, d), 2 * turn)
}

/// The circle whose centre lies so from one of its points.
fn circle_about(p: Pt, way: Wide) -> Result<Circ, FormFault>
    requires { IsPoint p }
    ensures { result ≡ rounds.circle_about p (record { dx = way.x; dy = way.y }) }
{
    if way.x.unsigned_abs() > FAR || way.y.unsigned_abs() > FAR {
        return Err(FormFault::TooLarge);
    }
    let way = Dir {
        dx: way.x as i64,
        dy: way.y as i64,
    };
    circle_from(p, way)
}

fn circle_from(p: Pt, way: Dir) -> Result<Circ, FormFault>
    requires p { IsPoint p }
    requires dx { unsigned_abs way.dx ≤ 2 * 10 ^ 8 }
    requires dy { unsigned_abs way.dy ≤ 2 * 10 ^ 8 }
    ensures { result ≡ rounds.circle_of (scale.from p way) (pos (rounds.length_near way)) }
{
    let centre = Pt {
        x: p.x + way.dx,
        y: p.y + way.dy,
    };
    circle_of_value(centre, length_near(way))
}

/// The circle of a radius, in grid units, in the corner of two lines, on the sides that modifiers name.
///
/// # Errors
///
/// `Degenerate` where the radius is under 100 or a modifier names no side, then `NoMeeting` where the lines are parallel,
/// `OutOfRange` where the centre leaves the coordinate limit, and `TooLarge` as in `circle_of`.
pub fn corner(a: &Line, pick_a: Pick, b: &Line, pick_b: Pick, r: i64) -> Result<Circ, FormFault>
    requires a { IsLine a.now }
    requires b { IsLine b.now }
    requires r { unsigned_abs r ≤ 10 ^ 8 }
    ensures value { result ≡ rounds.corner a.now pick_a b.now pick_b r }
    ensures refused { (e : FormFault) → IsErrOf result e ↔ NoCorner a.now pick_a b.now pick_b r e }
    ensures range { IfOk result (λ k. IsCircle k) }
    ensures radius { IfOk result (λ k. k.r ≡ r) }
    ensures on_a { IfOk result (λ k. IsBeside (feet.side_picked a.now pick_a) a.now r k.c) }
    ensures on_b { IfOk result (λ k. IsBeside (feet.side_picked b.now pick_b) b.now r k.c) }
    ensures sides { IfOk result (λ k. IsPicked a.now pick_a k.c × IsPicked b.now pick_b k.c) }
    ensures touches { IfOk result (λ k. Touches k a.now × Touches k b.now) }
{
    corner_value(a, pick_a, b, pick_b, r)
}

fn corner_value(a: &Line, pick_a: Pick, b: &Line, pick_b: Pick, r: i64) -> Result<Circ, FormFault>
    requires a { IsLine a.now }
    requires b { IsLine b.now }
    requires r { unsigned_abs r ≤ 10 ^ 8 }
    ensures { result ≡ rounds.corner a.now pick_a b.now pick_b r }
{
    if r < LEAST_RADIUS {
        return Err(FormFault::Degenerate);
    }
    let ha = offset_picked(side_picked(a, pick_a), r)?;
    let hb = offset_picked(side_picked(b, pick_b), r)?;
    let centre = line_line(&Moved { line: *a, off: ha }, &Moved { line: *b, off: hb })?;
    circle_of_value(centre, r)
}
