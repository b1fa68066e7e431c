//! The place of the cutter at a surface: left of a line or inside a circle (Plus), right or outside
//! (Minus), or on it (Zero).

ghost use Rattle.std.specs.Prelude.{◌≡◌, ◌↔◌, true, false, ℤ, ◌<ℤ◌};
ghost use Rattle.apt_plane.specs.Distances.{InBand};
ghost use Rattle.apt_plane.specs.Ranges.{IsPoint, IsSurface, IsLine, IsCircle};
ghost use Rattle.apt_plane.specs.Vectors.{scaled};
ghost use Rattle.apt_offset.specs.Refusals.{StartsOn};
ghost use Rattle.apt_offset.specs.Sides as spec;
ghost use Rattle.apt_offset.specs.Targets.{band_at};

use crate::signs::{is_zero, opposite, times};
use apt_num::{Sign, compare, sign_of};
use apt_plane::vectors::{cross, displacement, length_squared};
use apt_plane::{Circ, Line, Pt, Surface};
use apt_words::{Side, Stop};

/// The place at the drive surface.
pub fn side_at_drive(side: Side, sense: i8) -> Sign
    ensures { result ≡ spec.side_at_drive side sense }
{
    match side {
        Side::Left => sign_of(i128::from(sense)),
        Side::Right => opposite(sign_of(i128::from(sense))),
        Side::On => Sign::Zero,
    }
}

/// The place at the check surface where the motion stops; Zero under `To` and `Past` where the start is on it.
#[tactic(auto, using(crate::proofs::Refusals::starts_on, crate::proofs::Aside::stops_aside))]
pub fn side_at_check(check: &Surface, how: Stop, start: Pt, drive: &Surface, at_drive: Sign) -> Sign
    requires check { IsSurface check.now }
    requires start { IsPoint start }
    requires drive { IsSurface drive.now }
    ensures value { result ≡ spec.side_at_check check.now how start drive.now at_drive }
    ensures on_check { (spec.is_on_check how result ≡ true) ↔ StartsOn check.now how start }
    ensures aside { spec.is_on_check how result ≡ false → (r i o : ℤ) (q : Pt) → i <ℤ r → InBand check.now (band_at check.now result r i o) (scaled q) → spec.StopsAside check.now how start q }
{
    match how {
        Stop::To => side_at(check, start),
        Stop::Past => opposite(side_at(check, start)),
        Stop::On => Sign::Zero,
        Stop::Tanto => side_at_tangency(drive, check, at_drive),
    }
}

/// Whether a motion that stops so, at this place of its check surface, starts on that surface.
pub fn is_on_check(how: Stop, side: Sign) -> bool
    ensures { result ≡ spec.is_on_check how side }
{
    match how {
        Stop::To | Stop::Past => is_zero(side),
        Stop::On | Stop::Tanto => false,
    }
}

fn side_at(surface: &Surface, p: Pt) -> Sign
    requires surface { IsSurface surface.now }
    requires point { IsPoint p }
    ensures { result ≡ spec.side_at surface.now p }
{
    match surface {
        Surface::Line(line) => side_of_line(line, p),
        Surface::Circ(circle) => side_of_circle(circle, p),
    }
}

fn side_of_line(line: &Line, p: Pt) -> Sign
    requires line { IsLine line.now }
    requires point { IsPoint p }
    ensures { result ≡ spec.side_at (Surface.Line line.now) p }
{
    sign_of(cross(line.dir, displacement(line.base, p)))
}

#[tactic(auto, using(crate::proofs::Circles::as_square))]
fn side_of_circle(circle: &Circ, p: Pt) -> Sign
    requires circle { IsCircle circle.now }
    requires point { IsPoint p }
    ensures { result ≡ spec.side_at (Surface.Circ circle.now) p }
{
    let size = u128::from(circle.r.unsigned_abs());
    compare(size * size, length_squared(displacement(circle.c, p)))
}

fn side_at_tangency(drive: &Surface, check: &Surface, at_drive: Sign) -> Sign
    requires drive { IsSurface drive.now }
    requires check { IsSurface check.now }
    ensures { result ≡ spec.side_at_tangency drive.now check.now at_drive }
{
    if at_drive == Sign::Zero {
        return Sign::Zero;
    }
    match (drive, check) {
        (Surface::Line(_), Surface::Line(_)) => Sign::Zero,
        (Surface::Line(line), Surface::Circ(circle)) => {
            inside_or_outside(times(at_drive, side_of_line(line, circle.c)))
        }
        (Surface::Circ(circle), Surface::Line(line)) => {
            times(side_or_left(side_of_line(line, circle.c)), at_drive)
        }
        (Surface::Circ(first), Surface::Circ(second)) => {
            if touch_outside(first, second) {
                opposite(at_drive)
            } else {
                at_drive
            }
        }
    }
}

/// `Plus` in place of `Zero`.
pub fn side_or_left(side: Sign) -> Sign
    ensures { result ≡ spec.side_or_left side }
{
    match side {
        Sign::Minus => Sign::Minus,
        Sign::Zero | Sign::Plus => Sign::Plus,
    }
}

fn inside_or_outside(side: Sign) -> Sign
    ensures { result ≡ spec.inside_or_outside side }
{
    match side {
        Sign::Plus => Sign::Plus,
        Sign::Zero | Sign::Minus => Sign::Minus,
    }
}

/// Whether two circles that touch do so from outside: their centres are at least the greater radius apart.
pub fn touch_outside(first: &Circ, second: &Circ) -> bool
    requires first { IsCircle first.now }
    requires second { IsCircle second.now }
    ensures { result ≡ spec.touch_outside first.now second.now }
{
    let greater = u128::from(first.r.unsigned_abs().max(second.r.unsigned_abs()));
    greater * greater <= length_squared(displacement(first.c, second.c))
}
