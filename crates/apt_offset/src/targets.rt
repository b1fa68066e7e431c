//! Targets and tolerance bands.

ghost use Rattle.std.specs.Prelude.{◌≡◌, ◌↔◌, false, true, ℤ, pos, ◌≤◌, ◌≤ℤ◌, unsigned_abs};
ghost use Rattle.apt_plane.specs.Ranges.{IsSurface, IsBand};
ghost use Rattle.apt_offset.specs.Targets as moving;
ghost use Rattle.apt_offset.specs.Bands.{IsInBand, HasEdgeWithin, reach};
ghost use Rattle.apt_offset.specs.Refusals.{HasNoRoom};
ghost use Rattle.apt_offset.specs.Ranges.{IsRadius, IsTolerance, IsTarget};

use crate::Target;
use apt_num::Sign;
use apt_plane::{Band, Surface};

const LEAST_RADIUS: i64 = 100;

/// A surface moved by the cutter's radius `r`, in grid units, to a place of the cutter.
#[tactic(auto, using(crate::proofs::Refusals::moved_no_room))]
pub fn offset_surface(s: &Surface, side: Sign, r: i64) -> Target
    requires surface { IsSurface s.now }
    requires radius { IsRadius r }
    ensures value { result ≡ moving.offset_surface s.now side r }
    ensures touches { HasEdgeWithin s.now side r (pos 0) (pos 0) (reach result) }
    ensures no_room { (moving.lacks_room result ≡ true) ↔ HasNoRoom s.now side r }
    ensures fits { moving.lacks_room result ≡ false → IsTarget result }
{
    let off = signed(side, r);
    match s {
        Surface::Line(line) => Target::Line {
            base: line.base,
            dir: line.dir,
            off,
        },
        Surface::Circ(circle) => Target::Circ {
            c: circle.c,
            r: circle.r - off,
        },
    }
}

/// Whether a target is a circle with a radius below 100 grid units.
pub fn lacks_room(target: &Target) -> bool
    ensures { result ≡ moving.lacks_room target.now }
{
    match target {
        Target::Line { .. } => false,
        Target::Circ { r, .. } => *r < LEAST_RADIUS,
    }
}

/// A length to the left, to the right or none.
pub fn signed(side: Sign, r: i64) -> i64
    requires { IsRadius r }
    ensures value { result ≡ moving.signed side r }
    ensures small { unsigned_abs result ≤ 500000 }
{
    match side {
        Sign::Plus => r,
        Sign::Zero => 0,
        Sign::Minus => -r,
    }
}

fn greater(a: i64, b: i64) -> i64
    requires first { IsTolerance a }
    requires second { IsTolerance b }
    ensures value { result ≡ moving.greater a b }
    ensures fits { IsTolerance result }
{
    if a <= b { b } else { a }
}

/// The band of the cutter's centre about a surface, at a place of the cutter with the radius `r`: of distances to
/// the left of a line, or from a circle's centre. `i` is the tolerance towards the surface and `o` the one away
/// from it, in grid units.
pub fn band_at(s: &Surface, side: Sign, r: i64, i: i64, o: i64) -> Band
    requires surface { IsSurface s.now }
    requires radius { IsRadius r }
    requires inwards { IsTolerance i }
    requires outwards { IsTolerance o }
    ensures value { result ≡ moving.band_at s.now side r i o }
    ensures edge { (x : ℤ) → IsInBand result x ↔ HasEdgeWithin s.now side r i o x }
    ensures fits { IsBand result }
{
    match s {
        Surface::Line(_) => line_band(side, r, i, o),
        Surface::Circ(circle) => circle_band(circle.r, side, r, i, o),
    }
}

fn line_band(side: Sign, r: i64, i: i64, o: i64) -> Band
    requires radius { IsRadius r }
    requires inwards { IsTolerance i }
    requires outwards { IsTolerance o }
    ensures value { result ≡ moving.line_band side r i o }
    ensures fits { IsBand result }
{
    match side {
        Sign::Plus => Band {
            lo: r - i,
            hi: r + o,
        },
        Sign::Minus => Band {
            lo: -r - o,
            hi: -r + i,
        },
        Sign::Zero => {
            let both = greater(i, o);
            Band {
                lo: -both,
                hi: both,
            }
        }
    }
}

fn circle_band(circle: i64, side: Sign, r: i64, i: i64, o: i64) -> Band
    requires least { pos 100 ≤ℤ circle }
    requires most { circle ≤ℤ pos 49000000 }
    requires radius { IsRadius r }
    requires inwards { IsTolerance i }
    requires outwards { IsTolerance o }
    ensures value { result ≡ moving.circle_band circle side r i o }
    ensures fits { IsBand result }
{
    match side {
        Sign::Plus => Band {
            lo: circle - r - o,
            hi: circle - r + i,
        },
        Sign::Minus => Band {
            lo: circle + r - i,
            hi: circle + r + o,
        },
        Sign::Zero => {
            let both = greater(i, o);
            Band {
                lo: circle - both,
                hi: circle + both,
            }
        }
    }
}
