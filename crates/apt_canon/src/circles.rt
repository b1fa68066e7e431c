//! The points in which a moved line, or a circle, meets a circle.

ghost use Rattle.std.specs.Prelude.{◌≡◌, ◌≢◌, ◌↔◌, ◌*◌, ◌^◌, ◌≤◌, pos, neg_ℤ, ◌+ℤ◌, ◌-ℤ◌, ◌*ℤ◌, ◌≤ℤ◌, nat_le, ◌&&◌, unsigned_abs, IfOk, IsErrOf};
ghost use Rattle.apt_num.specs.Sign as signs;
ghost use Rattle.apt_plane.specs.Vectors as vectors;
ghost use Rattle.apt_plane.specs.Ranges.{IsPoint, IsDir, IsMoved, IsRound, IsSense};
ghost use Rattle.apt_canon.specs.Scale.{IsNearLine, IsNearCircle};
ghost use Rattle.apt_canon.specs.Scale as scale;
ghost use Rattle.apt_canon.specs.Circles as circles;
ghost use Rattle.apt_canon.specs.Circles.{DoMeet, IsFurther, IsBeyond};

use crate::FormFault;
use crate::scale::{depth, framed, length_of, times, within};
use apt_num::{Sign, div_near, isqrt, root_sign};
use apt_plane::vectors::{displacement, height, length_squared, length_squared_of};
use apt_plane::{Circ, Dir, Moved, Pt};

/// The point, rounded to the grid, in which a moved line meets a circle: of the two the one further along the line
/// for a `sigma` of 1, the other for -1. Where the line touches the circle both are one.
///
/// # Errors
///
/// `NoMeeting` where the line passes the circle by, `OutOfRange` where the point leaves the coordinate limit.
pub fn line_circle(l: &Moved, c: &Circ, sigma: i8) -> Result<Pt, FormFault>
    requires line { IsMoved l.now }
    requires circle { IsRound c.now }
    requires sense { IsSense sigma }
    ensures value { result ≡ circles.line_circle l.now.line l.now.off c.now sigma }
    ensures no_meeting { IsErrOf result FormFault.NoMeeting ↔ ¬ IsNearLine l.now.line l.now.off c.now.r c.now.c }
    ensures in_range { IfOk result (λ p. IsPoint p) }
    ensures on_line { IfOk result (λ p. IsNearLine l.now.line l.now.off (pos 1) p) }
    ensures on_circle { IfOk result (λ p. IsNearCircle c.now (pos 1) p) }
    ensures along { IfOk result (λ p. IsFurther l.now.line c.now sigma p) }
{
    line_circle_value(l, c, sigma)
}

fn line_circle_value(l: &Moved, c: &Circ, sigma: i8) -> Result<Pt, FormFault>
    requires line { IsMoved l.now }
    requires circle { IsRound c.now }
    requires sense { IsSense sigma }
    ensures { result ≡ circles.line_circle l.now.line l.now.off c.now sigma }
{
    if reaches(l, c) {
        within(line_circle_point_value(l, c, sigma))
    } else {
        Err(FormFault::NoMeeting)
    }
}

/// The same point of a line and a circle that meet, in range or not.
pub fn line_circle_point(l: &Moved, c: &Circ, sigma: i8) -> Pt
    requires line { IsMoved l.now }
    requires circle { IsRound c.now }
    requires sense { IsSense sigma }
    requires meeting { IsNearLine l.now.line l.now.off c.now.r c.now.c }
    ensures value { result ≡ circles.line_circle_point l.now.line l.now.off c.now sigma }
    ensures on_line { IsNearLine l.now.line l.now.off (pos 1) result }
    ensures on_circle { IsNearCircle c.now (pos 1) result }
    ensures along { IsFurther l.now.line c.now sigma result }
{
    line_circle_point_value(l, c, sigma)
}

fn line_circle_point_value(l: &Moved, c: &Circ, sigma: i8) -> Pt
    requires line { IsMoved l.now }
    requires circle { IsRound c.now }
    requires sense { IsSense sigma }
    ensures { result ≡ circles.line_circle_point l.now.line l.now.off c.now sigma }
{
    let depth = depth(l, c.c);
    framed(
        c.c,
        l.line.dir,
        by_sigma(sigma, half_chord(c.r, depth)),
        -depth,
    )
}

/// Whether a moved line meets a circle.
fn reaches(l: &Moved, c: &Circ) -> bool
    requires line { IsMoved l.now }
    requires circle { IsRound c.now }
    ensures { result ≡ circles.reaches l.now.line l.now.off c.now }
{
    let height = height(l.line.base, l.line.dir, c.c);
    let square = length_squared_of(l.line.dir);
    is_between(height, l.off, c.r, square)
}

/// Whether `height` is at most `r` lengths away from `off` of them, for the square of a length.
fn is_between(height: i128, off: i64, r: i64, square: u128) -> bool
    requires height { unsigned_abs height ≤ 2 * 10 ^ 16 }
    requires off { unsigned_abs off ≤ 10 ^ 8 }
    requires r { unsigned_abs r ≤ 10 ^ 8 }
    requires square { square ≤ 2 * 10 ^ 16 }
    ensures { result ≡ (signs.is_at_least height (off -ℤ r) square && signs.is_at_least (neg_ℤ height) (neg_ℤ off -ℤ r) square) }
{
    is_at_least(height, off - r, square) && is_at_least(-height, -off - r, square)
}

/// Whether `height >= length * sqrt(square)`.
fn is_at_least(height: i128, length: i64, square: u128) -> bool
    requires height { unsigned_abs height ≤ 2 * 10 ^ 16 }
    requires length { unsigned_abs length ≤ 4 * 10 ^ 8 }
    requires square { square ≤ 2 * 10 ^ 16 }
    ensures { result ≡ signs.is_at_least height length square }
{
    root_sign(height, i128::from(length), square) != Sign::Minus
}

/// The point, rounded to the grid, in which two circles of radii from 100 meet: of the two the one to the left of the
/// way from the first centre to the second for a `sigma` of 1, the other for -1. Where they touch both are one.
///
/// # Errors
///
/// `Degenerate` where the centres are one, `NoMeeting` where the circles don't meet, `OutOfRange` where the point
/// leaves the coordinate limit.
pub fn circle_circle(a: &Circ, b: &Circ, sigma: i8) -> Result<Pt, FormFault>
    requires a { IsRound a.now }
    requires b { IsRound b.now }
    requires a_least { pos 100 ≤ℤ a.now.r }
    requires b_least { pos 100 ≤ℤ b.now.r }
    requires sense { IsSense sigma }
    ensures value { result ≡ circles.circle_circle a.now b.now sigma }
    ensures concentric { IsErrOf result FormFault.Degenerate ↔ (a.now.c ≡ b.now.c) }
    ensures no_meeting { IsErrOf result FormFault.NoMeeting ↔ ((a.now.c ≢ b.now.c) × ¬ DoMeet a.now b.now) }
    ensures in_range { IfOk result (λ p. IsPoint p) }
    ensures on_a { IfOk result (λ p. IsNearCircle a.now (pos 1) p) }
    ensures on_b { IfOk result (λ p. IsNearCircle b.now (pos 1) p) }
    ensures across { IfOk result (λ p. IsBeyond a.now b.now sigma p) }
{
    circle_circle_value(a, b, sigma)
}

fn circle_circle_value(a: &Circ, b: &Circ, sigma: i8) -> Result<Pt, FormFault>
    requires a { IsRound a.now }
    requires b { IsRound b.now }
    requires a_least { pos 100 ≤ℤ a.now.r }
    requires b_least { pos 100 ≤ℤ b.now.r }
    requires sense { IsSense sigma }
    ensures { result ≡ circles.circle_circle a.now b.now sigma }
{
    let square = length_squared(displacement(a.c, b.c));
    if square == 0 {
        Err(FormFault::Degenerate)
    } else if overlap(a.r, b.r, square) {
        within(circle_circle_point_value(a, b, sigma))
    } else {
        Err(FormFault::NoMeeting)
    }
}

/// The same point of two circles that meet about different centres, in range or not.
pub fn circle_circle_point(a: &Circ, b: &Circ, sigma: i8) -> Pt
    requires a { IsRound a.now }
    requires b { IsRound b.now }
    requires a_least { pos 100 ≤ℤ a.now.r }
    requires b_least { pos 100 ≤ℤ b.now.r }
    requires sense { IsSense sigma }
    requires apart { a.now.c ≢ b.now.c }
    requires meeting { DoMeet a.now b.now }
    ensures value { result ≡ circles.circle_circle_point a.now b.now sigma }
    ensures on_a { IsNearCircle a.now (pos 1) result }
    ensures on_b { IsNearCircle b.now (pos 1) result }
    ensures across { IsBeyond a.now b.now sigma result }
{
    circle_circle_point_value(a, b, sigma)
}

fn circle_circle_point_value(a: &Circ, b: &Circ, sigma: i8) -> Pt
    requires a { IsRound a.now }
    requires b { IsRound b.now }
    requires a_least { pos 100 ≤ℤ a.now.r }
    requires b_least { pos 100 ≤ℤ b.now.r }
    requires sense { IsSense sigma }
    requires apart { a.now.c ≢ b.now.c }
    requires meeting { DoMeet a.now b.now }
    ensures { result ≡ circles.circle_circle_point a.now b.now sigma }
{
    let way = way_between(a.c, b.c);
    let depth = chord_depth(a, b, way);
    framed(a.c, way, depth, by_sigma(sigma, half_chord(a.r, depth)))
}

/// The way between two points is a direction.
fn way_between(p: Pt, q: Pt) -> Dir
    requires start { IsPoint p }
    requires end { IsPoint q }
    requires apart { p ≢ q }
    ensures value { result ≡ vectors.displacement p q }
    ensures dir { IsDir result }
{
    displacement(p, q)
}

/// How far the common chord of two circles lies from the first centre, in units of 2^-30.
fn chord_depth(a: &Circ, b: &Circ, way: Dir) -> i128
    requires a { IsRound a.now }
    requires b { IsRound b.now }
    requires a_least { pos 100 ≤ℤ a.now.r }
    requires b_least { pos 100 ≤ℤ b.now.r }
    requires way { way ≡ vectors.displacement a.now.c b.now.c }
    requires dir { IsDir way }
    requires meeting { DoMeet a.now b.now }
    ensures value { result ≡ circles.chord_depth a.now b.now }
    ensures small { unsigned_abs result ≤ 2 ^ 57 }
{
    div_near(
        chord_share(length_squared_of(way), a.r, b.r),
        length_of(way),
    )
}

fn chord_share(square: u128, r: i64, q: i64) -> i128
    requires square { square ≤ 2 * 10 ^ 16 }
    requires r { unsigned_abs r ≤ 10 ^ 8 }
    requires q { unsigned_abs q ≤ 10 ^ 8 }
    ensures value { result ≡ ((pos square +ℤ (r *ℤ r)) -ℤ (q *ℤ q)) *ℤ pos (2 ^ 64) }
    ensures small { unsigned_abs result ≤ 2 ^ 120 }
{
    (square as i128 + square_of(r) - square_of(q)) * (1 << 64)
}

fn square_of(r: i64) -> i128
    requires { unsigned_abs r ≤ 10 ^ 8 }
    ensures value { result ≡ r *ℤ r }
    ensures small { unsigned_abs result ≤ 10 ^ 16 }
{
    times(r, i128::from(r))
}

/// Whether the root of a square is at most the sum of two radii, and at least their difference.
fn overlap(r: i64, q: i64, square: u128) -> bool
    requires r { unsigned_abs r ≤ 10 ^ 8 }
    requires q { unsigned_abs q ≤ 10 ^ 8 }
    ensures { result ≡ (nat_le (signs.square (r -ℤ q)) square && nat_le square (signs.square (r +ℤ q))) }
{
    size_squared(r - q) <= square && square <= size_squared(r + q)
}

fn size_squared(length: i64) -> u128
    requires { unsigned_abs length ≤ 2 * 10 ^ 8 }
    ensures { result ≡ signs.square length }
{
    let size = u128::from(length.unsigned_abs());
    size * size
}

/// Half of the chord at a depth, in units of 2^-30: none where rounding brought the depth past the edge.
fn half_chord(r: i64, depth: i128) -> i128
    requires least { pos 0 ≤ℤ r }
    requires most { r ≤ℤ pos (10 ^ 8) }
    requires depth { unsigned_abs depth ≤ 2 ^ 58 }
    ensures value { result ≡ circles.half_chord r depth }
    ensures small { unsigned_abs result ≤ 2 ^ 57 }
{
    let radius = u128::from(r.unsigned_abs());
    let size = depth.unsigned_abs();
    isqrt((radius * radius * (1 << 60)).saturating_sub(size * size)) as i128
}

/// A length that `sigma` turns.
fn by_sigma(sigma: i8, length: i128) -> i128
    requires sense { IsSense sigma }
    requires length { unsigned_abs length ≤ 2 ^ 57 }
    ensures value { result ≡ sigma *ℤ length }
    ensures small { unsigned_abs result ≤ 2 ^ 57 }
{
    if sigma < 0 { -length } else { length }
}
