//! Whether targets meet.

ghost use Rattle.std.specs.Prelude.{◌≡◌, ◌↔◌, ◌*◌, ◌^◌, ◌≤◌, unsigned_abs};
ghost use Rattle.apt_num.specs.Sign as signs;
ghost use Rattle.apt_plane.specs.Ranges.{IsLine, IsMoved, IsRound};
ghost use Rattle.apt_contact.specs.Contacts.{IsCurve, AreParallel, Meet, Touch};
ghost use Rattle.apt_contact.specs.Meetings as spec;

use crate::Meeting;
use apt_num::{Sign, root_sign};
use apt_offset::Target;
use apt_plane::vectors::{cross_of, displacement, height, length_squared, length_squared_of};
use apt_plane::{Circ, Line, Moved};

/// In how many points two targets meet: lines moved by up to 10^8 grid units, and circles of any radius from 0 to 10^8.
pub fn meet(a: &Target, b: &Target) -> Meeting
    requires first { IsCurve a.now }
    requires second { IsCurve b.now }
    ensures value { result ≡ spec.meeting_of a.now b.now }
    ensures parallel { (result ≡ Meeting.Parallel) ↔ AreParallel a.now b.now }
    ensures apart { (result ≡ Meeting.Apart) ↔ ((¬ AreParallel a.now b.now) × (¬ Meet a.now b.now)) }
    ensures one { (result ≡ Meeting.One) ↔ ((¬ AreParallel a.now b.now) × Touch a.now b.now) }
{
    meet_value(a, b)
}

fn meet_value(a: &Target, b: &Target) -> Meeting
    requires first { IsCurve a.now }
    requires second { IsCurve b.now }
    ensures { result ≡ spec.meeting_of a.now b.now }
{
    match *a {
        Target::Line { base, dir, off } => {
            let line = Line { base, dir };
            line_meets(&Moved { line, off }, b)
        }
        Target::Circ { c, r } => circle_meets(&Circ { c, r }, b),
    }
}

fn line_meets(l: &Moved, other: &Target) -> Meeting
    requires line { IsMoved l.now }
    requires other { IsCurve other.now }
    ensures { result ≡ spec.meeting_of (Target.Line l.now.line.base l.now.line.dir l.now.off) other.now }
{
    match *other {
        Target::Line { base, dir, off: _ } => lines_meet(&l.line, &Line { base, dir }),
        Target::Circ { c, r } => line_meets_circle(l, &Circ { c, r }),
    }
}

fn circle_meets(c: &Circ, other: &Target) -> Meeting
    requires circle { IsRound c.now }
    requires other { IsCurve other.now }
    ensures { result ≡ spec.meeting_of (Target.Circ c.now.c c.now.r) other.now }
{
    match *other {
        Target::Line { base, dir, off } => {
            let line = Line { base, dir };
            line_meets_circle(&Moved { line, off }, c)
        }
        Target::Circ { c: centre, r } => circles_meet(c, &Circ { c: centre, r }),
    }
}

fn lines_meet(a: &Line, b: &Line) -> Meeting
    requires first { IsLine a.now }
    requires second { IsLine b.now }
    ensures { result ≡ spec.of_lines a.now b.now }
{
    if cross_of(a.dir, b.dir) == 0 {
        Meeting::Parallel
    } else {
        Meeting::One
    }
}

fn line_meets_circle(l: &Moved, c: &Circ) -> Meeting
    requires line { IsMoved l.now }
    requires circle { IsRound c.now }
    ensures { result ≡ spec.of_line_and_circle l.now.line l.now.off c.now }
{
    let height = height(l.line.base, l.line.dir, c.c);
    let square = length_squared_of(l.line.dir);
    by_sides(
        side(height, l.off + c.r, square),
        side(height, l.off - c.r, square),
    )
}

/// The sign of `height - length * sqrt(square)`.
fn side(height: i128, length: i64, square: u128) -> Sign
    requires height { unsigned_abs height ≤ 2 * 10 ^ 16 }
    requires length { unsigned_abs length ≤ 2 * 10 ^ 8 }
    requires square { square ≤ 2 * 10 ^ 16 }
    ensures { result ≡ signs.root_sign_of height length square }
{
    root_sign(height, i128::from(length), square)
}

fn by_sides(far: Sign, near: Sign) -> Meeting
    ensures { result ≡ spec.by_sides far near }
{
    match (far, near) {
        (Sign::Plus, _) | (Sign::Minus, Sign::Minus) => Meeting::Apart,
        (Sign::Zero, _) | (Sign::Minus, Sign::Zero) => Meeting::One,
        (Sign::Minus, Sign::Plus) => Meeting::Two,
    }
}

fn circles_meet(a: &Circ, b: &Circ) -> Meeting
    requires a { IsRound a.now }
    requires b { IsRound b.now }
    ensures { result ≡ spec.of_circles a.now b.now }
{
    let apart = length_squared(displacement(a.c, b.c));
    if apart == 0 {
        Meeting::Parallel
    } else {
        by_distance(square(a.r - b.r), apart, square(a.r + b.r))
    }
}

fn by_distance(least: u128, apart: u128, most: u128) -> Meeting
    ensures { result ≡ spec.by_distance least apart most }
{
    if apart < least || most < apart {
        Meeting::Apart
    } else if apart == least || apart == most {
        Meeting::One
    } else {
        Meeting::Two
    }
}

fn square(length: i64) -> u128
    ensures { result ≡ signs.square length }
{
    let size = u128::from(length.unsigned_abs());
    size * size
}
