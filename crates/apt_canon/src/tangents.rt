//! Lines that touch circles.

ghost use Rattle.std.specs.Prelude.{◌≡◌, ◌≢◌, ◌↔◌, ◌+◌, ◌*◌, ◌^◌, ◌≤◌, ◌<◌, pos, neg_ℤ, ◌+ℤ◌, ◌-ℤ◌, ◌*ℤ◌, ◌-◌, unsigned_abs, IfOk, IsErrOf};
ghost use Rattle.apt_num.specs.Near.{near};
ghost use Rattle.apt_num.specs.Root.{root};
ghost use Rattle.apt_num.specs.Sign as signs;
ghost use Rattle.apt_plane.specs.Vectors as vectors;
ghost use Rattle.apt_plane.specs.Ranges.{IsPoint, IsDir, IsLine, IsCircle};
ghost use Rattle.apt_canon.specs.Scale.{IsNearLine, IsNearCircle};
ghost use Rattle.apt_canon.specs.Tangents.{PassesBy, RunsAlong};
ghost use Rattle.apt_canon.specs.Tangents as tangents;

use crate::FormFault;
use crate::lines::product_difference;
use crate::scale::{Wide, times};
use apt_num::{div_near, isqrt};
use apt_plane::vectors::{displacement, length_squared, length_squared_of};
use apt_plane::{Circ, Dir, Line, Pt};

/// The length of a tangent's direction.
const LENGTH: i64 = 99_999_000;

/// The tangent from a point to a circle: `left` for the one that has the circle on its right, as seen from the point.
/// Its base is the point, and its direction is about 99999000 long.
///
/// # Errors
///
/// `NoMeeting` where the point is inside the circle.
pub fn tangent_from(p: Pt, left: bool, c: &Circ) -> Result<Line, FormFault>
    requires point { IsPoint p }
    requires circle { IsCircle c.now }
    ensures value { result ≡ tangents.tangent_from p left c.now }
    ensures no_meeting { IsErrOf result FormFault.NoMeeting ↔ (vectors.length_squared (vectors.displacement p c.now.c) < signs.square c.now.r) }
    ensures range { IfOk result (λ t. IsLine t) }
    ensures base { IfOk result (λ t. t.base ≡ p) }
    ensures touches { IfOk result (λ t. IsNearLine t (neg_ℤ (tangents.side_of_circle left *ℤ c.now.r)) (pos 2) c.now.c) }
    ensures side { IfOk result (λ t. PassesBy left t c.now) }
    ensures onwards { IfOk result (λ t. vectors.length_squared (vectors.displacement p c.now.c) ≢ signs.square c.now.r → RunsAlong (vectors.displacement p c.now.c) t) }
{
    tangent_from_value(p, left, c)
}

/// The tangent of two circles: `left_a` and `left_b` where it has the first and the second on its right, as seen from
/// the first to the second. Its base is the touching point on the first, and its direction is about 99999000 long.
///
/// # Errors
///
/// `Degenerate` where both are one circle on one side, `NoMeeting` where one is inside the other, or where the circles
/// overlap and the tangent is to cross between them.
pub fn tangent_two(a: &Circ, left_a: bool, b: &Circ, left_b: bool) -> Result<Line, FormFault>
    requires a { IsCircle a.now }
    requires b { IsCircle b.now }
    ensures value { result ≡ tangents.tangent_two a.now left_a b.now left_b }
    ensures degenerate { IsErrOf result FormFault.Degenerate ↔ ((a.now.c ≡ b.now.c) × (tangents.drop a.now left_a b.now left_b ≡ pos 0)) }
    ensures no_meeting { IsErrOf result FormFault.NoMeeting ↔ (vectors.length_squared (vectors.displacement a.now.c b.now.c) < signs.square (tangents.drop a.now left_a b.now left_b)) }
    ensures range { IfOk result (λ t. IsLine t) }
    ensures base { IfOk result (λ t. IsNearCircle a.now (pos 1) t.base) }
    ensures touches_a { IfOk result (λ t. IsNearLine t (neg_ℤ (tangents.side_of_circle left_a *ℤ a.now.r)) (pos 2) a.now.c) }
    ensures touches_b { IfOk result (λ t. IsNearLine t (neg_ℤ (tangents.side_of_circle left_b *ℤ b.now.r)) (pos 2) b.now.c) }
    ensures side_a { IfOk result (λ t. PassesBy left_a t a.now) }
    ensures side_b { IfOk result (λ t. PassesBy left_b t b.now) }
    ensures onwards { IfOk result (λ t. vectors.length_squared (vectors.displacement a.now.c b.now.c) ≢ signs.square (tangents.drop a.now left_a b.now left_b) → RunsAlong (vectors.displacement a.now.c b.now.c) t) }
{
    tangent_two_value(a, left_a, b, left_b)
}

fn tangent_from_value(p: Pt, left: bool, c: &Circ) -> Result<Line, FormFault>
    requires point { IsPoint p }
    requires circle { IsCircle c.now }
    ensures { result ≡ tangents.tangent_from p left c.now }
{
    let way = displacement(p, c.c);
    if length_squared(way) < square(c.r) {
        return Err(FormFault::NoMeeting);
    }
    Ok(Line {
        base: p,
        dir: direction(way, -on_side(left, c.r)),
    })
}

fn tangent_two_value(a: &Circ, left_a: bool, b: &Circ, left_b: bool) -> Result<Line, FormFault>
    requires a { IsCircle a.now }
    requires b { IsCircle b.now }
    ensures { result ≡ tangents.tangent_two a.now left_a b.now left_b }
{
    let way = displacement(a.c, b.c);
    let drop = drop_between(a, left_a, b, left_b);
    let apart = length_squared(way);
    if apart < square(drop) {
        return Err(FormFault::NoMeeting);
    }
    if apart == 0 {
        return Err(FormFault::Degenerate);
    }
    Ok(Line {
        base: touch_point(a, left_a, way, drop),
        dir: direction(way, drop),
    })
}

/// How far a tangent comes nearer from the first centre to the second.
fn drop_between(a: &Circ, left_a: bool, b: &Circ, left_b: bool) -> i64
    requires a { IsCircle a.now }
    requires b { IsCircle b.now }
    ensures value { result ≡ tangents.drop a.now left_a b.now left_b }
    ensures small { unsigned_abs result ≤ 10 ^ 8 }
{
    on_side(left_a, a.r) - on_side(left_b, b.r)
}

/// Where the tangent touches the circle that it starts at.
fn touch_point(a: &Circ, left: bool, way: Dir, drop: i64) -> Pt
    requires circle { IsCircle a.now }
    requires way { IsDir way }
    requires drop { signs.square drop ≤ vectors.length_squared way }
    requires small { unsigned_abs drop ≤ 10 ^ 8 }
    ensures { result ≡ tangents.touch_point a.now left way drop }
{
    let turned = falling(way, drop);
    let whole = divisor(way);
    let radius = on_side(left, a.r);
    Pt {
        x: a.c.x + quotient(radius, -turned.y, whole),
        y: a.c.y + quotient(radius, turned.x, whole),
    }
}

/// The direction of the tangent that comes nearer by `drop` along a way.
fn direction(way: Dir, drop: i64) -> Dir
    requires way { IsDir way }
    requires drop { signs.square drop ≤ vectors.length_squared way }
    requires small { unsigned_abs drop ≤ 10 ^ 8 }
    ensures { result ≡ tangents.falling_dir way drop }
{
    let turned = falling(way, drop);
    let whole = divisor(way);
    Dir {
        dx: quotient(LENGTH, turned.x, whole),
        dy: quotient(LENGTH, turned.y, whole),
    }
}

/// A number times the part of a whole, over that whole, to the nearest whole number.
fn quotient(n: i64, part: i128, whole: i128) -> i64
    requires n { unsigned_abs n ≤ 10 ^ 8 }
    requires part { unsigned_abs part ≤ unsigned_abs whole }
    requires whole { unsigned_abs whole ≤ 2 ^ 85 }
    requires not_zero { whole ≢ pos 0 }
    ensures value { result ≡ near (n *ℤ part) whole }
    ensures small { unsigned_abs result ≤ unsigned_abs n }
{
    div_near(times(n, part), whole) as i64
}

/// The same direction, times the length of the way, in units of 2^-30.
fn falling(way: Dir, drop: i64) -> Wide
    requires way { IsDir way }
    requires drop { signs.square drop ≤ vectors.length_squared way }
    requires small { unsigned_abs drop ≤ 10 ^ 8 }
    ensures x { result.x ≡ (tangents.falling way drop).dx }
    ensures y { result.y ≡ (tangents.falling way drop).dy }
    ensures x_small { unsigned_abs result.x ≤ vectors.length_squared way * 2 ^ 30 }
    ensures y_small { unsigned_abs result.y ≤ vectors.length_squared way * 2 ^ 30 }
{
    let along = reach(way, drop);
    let across = times(drop, 1 << 30);
    Wide {
        x: product_difference(way.dx, along, way.dy, -across),
        y: product_difference(way.dy, along, way.dx, across),
    }
}

/// The length of the tangent between the touching points, times 2^30.
fn reach(way: Dir, drop: i64) -> i128
    requires way { IsDir way }
    requires drop { signs.square drop ≤ vectors.length_squared way }
    requires small { unsigned_abs drop ≤ 10 ^ 8 }
    ensures value { result ≡ pos (root ((vectors.length_squared way - signs.square drop) * 2 ^ 60)) }
    ensures small { unsigned_abs result ≤ 2 ^ 58 }
{
    isqrt((length_squared_of(way) - square(drop)) * (1 << 60)) as i128
}

fn divisor(way: Dir) -> i128
    requires { IsDir way }
    ensures value { result ≡ tangents.fall_divisor way }
    ensures small { unsigned_abs result ≤ 2 ^ 85 }
{
    length_squared_of(way) as i128 * (1 << 30)
}

/// A radius to the side of the circle on which the tangent runs: to the left is positive.
fn on_side(left: bool, r: i64) -> i64
    requires { unsigned_abs r ≤ 10 ^ 8 }
    ensures value { result ≡ tangents.side_of_circle left *ℤ r }
    ensures small { unsigned_abs result ≤ 10 ^ 8 }
    ensures size { unsigned_abs result ≡ unsigned_abs r }
{
    if left { r } else { -r }
}

fn square(n: i64) -> u128
    ensures { result ≡ signs.square n }
{
    let size = u128::from(n.unsigned_abs());
    size * size
}
