//! On which side of its stop a course runs, and whether its stop lies behind it.

ghost use Rattle.std.specs.Prelude.{◌≡◌, ◌*◌, ◌^◌, ◌≤◌, ◌*ℤ◌, unsigned_abs};
ghost use Rattle.apt_plane.specs.Ranges.{IsPoint, IsDir, IsShort, IsLine, IsSense};
ghost use Rattle.apt_plane.specs.Vectors as vectors;
ghost use Rattle.apt_canon.specs.Meeting as meeting;
ghost use Rattle.apt_offset.specs.Ranges.{IsTarget};
ghost use Rattle.apt_stop.specs.Nearness as near;
ghost use Rattle.apt_stop.specs.Courses as spec;
ghost use Rattle.apt_stop.specs.Choices as choices;
ghost use Rattle.apt_stop.specs.Steps as steps;
ghost use Rattle.apt_stop.specs.Steps.{IsPlaced};

use crate::course::Course;
use crate::nearness::{
    NEAR_STOP, heading, is_at_least, is_in_ring, is_in_strip, side_by_height, square,
};
use apt_num::{Sign, compare, sign_of};
use apt_offset::Target;
use apt_plane::vectors::{cross, displacement, dot, height, length_squared, length_squared_of};
use apt_plane::{Dir, Line, Pt, by_sense};

/// The side of a target on which a point is, and none where it is near.
pub(crate) fn far_side(target: &Target, p: Pt) -> Option<Sign>
    requires target { IsTarget target.now }
    requires point { IsPoint p }
    ensures { result ≡ steps.far_side target.now p }
{
    match *target {
        Target::Line { base, dir, off } => {
            let height = height(base, dir, p);
            let square = length_squared_of(dir);
            if is_in_strip(height, off, NEAR_STOP, square) {
                None
            } else {
                Some(side_by_height(height, off, square))
            }
        }
        Target::Circ { c, r } => {
            let distance = length_squared(displacement(c, p));
            if is_in_ring(r, NEAR_STOP, distance) {
                None
            } else {
                Some(compare(square(r), distance))
            }
        }
    }
}

/// The side of its stop on which a course runs whose start is on this side of it, or near it.
pub(crate) fn side_from(c: &Course, far: Option<Sign>) -> Sign
    requires { IsPlaced c.now }
    ensures { result ≡ steps.side_from c.now far }
{
    match far {
        Some(side) => side,
        None => headed_side(c),
    }
}

/// The side into which a course heads from its start.
fn headed_side(c: &Course) -> Sign
    requires { IsPlaced c.now }
    ensures { result ≡ spec.headed_side c.now c.now.track c.now.stop }
{
    match (&c.track, &c.stop) {
        (Target::Line { dir, .. }, Target::Line { dir: stop, .. }) => {
            sign_of(cross(*stop, heading(c.sense, *dir)))
        }
        (Target::Line { dir, .. }, Target::Circ { c: centre, .. }) => {
            sign_of(way_on_to(c, *dir, *centre))
        }
        (Target::Circ { c: centre, .. }, Target::Line { dir, .. }) => {
            sign_of(by_sense(c.sense, dot_short(displacement(*centre, c.start), *dir)))
        }
        (Target::Circ { c: centre, .. }, Target::Circ { c: other, .. }) => {
            sign_of(by_sense(c.sense, off_axis(c, *centre, *other)))
        }
    }
}

/// Whether the stop lies behind a course whose start is on this side of it, or near it.
pub(crate) fn is_past(c: &Course, far: Option<Sign>) -> bool
    requires { IsPlaced c.now }
    ensures { result ≡ steps.past_from c.now c.now.track c.now.stop far }
{
    match (&c.track, &c.stop) {
        (Target::Line { dir, .. }, Target::Line { dir: stop, .. }) => match far {
            Some(side) => is_same(side, sign_of(cross(*stop, heading(c.sense, *dir)))),
            None => true,
        },
        (Target::Line { dir, .. }, Target::Circ { c: centre, .. }) => {
            let way = way_on_to(c, *dir, *centre);
            match far {
                Some(side) => side == Sign::Minus && way <= 0,
                None => is_not_ahead(way, length_squared_of(*dir)),
            }
        }
        (Target::Circ { c: centre, .. }, Target::Line { dir, .. }) => match far {
            Some(_) => false,
            None => is_by_axis(
                dot_short(displacement(*centre, c.start), *dir),
                length_squared_of(*dir),
            ),
        },
        (Target::Circ { c: centre, .. }, Target::Circ { c: other, .. }) => match far {
            Some(_) => false,
            None => is_by_axis(
                off_axis(c, *centre, *other),
                length_short(displacement(*centre, *other)),
            ),
        },
    }
}

pub(crate) fn is_same(first: Sign, second: Sign) -> bool
    ensures { result ≡ choices.is_same first second }
{
    first == second
}

/// How far a line runs on to a point, times its length.
pub(crate) fn way_on_to(c: &Course, dir: Dir, p: Pt) -> i128
    requires start { IsPoint c.now.start }
    requires sense { IsSense c.now.sense }
    requires dir { IsDir dir }
    requires point { IsPoint p }
    ensures value { result ≡ choices.way_on_to c.now dir p }
    ensures small { unsigned_abs result ≤ 2 * 10 ^ 16 }
{
    dot_short(displacement(c.start, p), heading(c.sense, dir))
}

/// How far a course starts off the axis of two circles, times the length of that.
fn off_axis(c: &Course, centre: Pt, other: Pt) -> i128
    requires start { IsPoint c.now.start }
    requires centre { IsPoint centre }
    requires other { IsPoint other }
    ensures value { result ≡ vectors.cross (vectors.displacement centre c.now.start) (vectors.displacement centre other) }
    ensures small { unsigned_abs result ≤ 2 * 10 ^ 16 }
{
    cross_short(displacement(centre, c.start), displacement(centre, other))
}

/// Whether `k <= 8 * sqrt(n)`.
pub(crate) fn is_not_ahead(k: i128, n: u128) -> bool
    requires k { unsigned_abs k ≤ 2 * 10 ^ 16 }
    requires n { n ≤ 2 * 10 ^ 16 }
    ensures { result ≡ choices.is_not_ahead k n }
{
    is_at_least(-k, -NEAR_STOP, n)
}

/// Whether `k` is also at least as much below 0.
pub(crate) fn is_by_axis(k: i128, n: u128) -> bool
    requires k { unsigned_abs k ≤ 2 * 10 ^ 16 }
    requires n { n ≤ 2 * 10 ^ 16 }
    ensures { result ≡ choices.is_by_axis k n }
{
    is_in_strip(k, 0, NEAR_STOP, n)
}

/// Whether two lines are parallel.
pub(crate) fn are_parallel(a: &Line, b: &Line) -> bool
    requires first { IsLine a.now }
    requires second { IsLine b.now }
    ensures { result ≡ meeting.are_parallel a.now b.now }
{
    cross(a.dir, b.dir).unsigned_abs() == 0
}

#[tactic(auto, using(apt_plane::proofs::Heights::short_dot_small))]
pub(crate) fn dot_short(u: Dir, v: Dir) -> i128
    requires first { IsShort u }
    requires second { IsShort v }
    ensures value { result ≡ vectors.dot u v }
    ensures small { unsigned_abs result ≤ 2 * 10 ^ 16 }
{
    dot(u, v)
}

#[tactic(auto, using(apt_plane::proofs::Heights::short_cross_small))]
pub(crate) fn cross_short(u: Dir, v: Dir) -> i128
    requires first { IsShort u }
    requires second { IsShort v }
    ensures value { result ≡ vectors.cross u v }
    ensures small { unsigned_abs result ≤ 2 * 10 ^ 16 }
{
    cross(u, v)
}

#[tactic(auto, using(apt_plane::proofs::Heights::short_square_small))]
fn length_short(u: Dir) -> u128
    requires { IsShort u }
    ensures value { result ≡ vectors.length_squared u }
    ensures small { result ≤ 2 * 10 ^ 16 }
{
    length_squared(u)
}
