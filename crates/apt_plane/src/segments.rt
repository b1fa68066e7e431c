//! All points of a segment against a band along a line, and against one edge of a band.

ghost use Rattle.std.specs.Prelude.{◌≤◌, ◌*◌, ◌^◌, ◌↔◌, IsTrue, IsOk, IfErr, unsigned_abs, neg_ℤ};
ghost use Rattle.apt_plane.specs.Ranges.{IsPoint, IsLine, IsSurface, IsBand};
ghost use Rattle.apt_plane.specs.Distances.{IsAbove, IsBelow, IsOver, IsUnder, InBand, EveryPoint};
ghost use Rattle.apt_plane.specs.Segments.{IsFirstEnd, IsFirstOff, IsFirstOutside};
ghost use Rattle.apt_plane.specs.Vectors.{scaled};
ghost use Rattle.apt_num.specs.Sign.{AtLeast};

use crate::figures::{Band, Line, Pt, Spot, Surface};
use crate::rings::{is_from_centre, is_to_centre, nearer_foot};
use crate::vectors::{height, length_squared_of};
use apt_num::{Sign, root_sign};

pub(crate) const START: Spot = Spot { j: 0, m: 1 };

pub(crate) const END: Spot = Spot { j: 1, m: 1 };

/// Whether every point of the segment PQ has its signed distance to the left of the line in the band.
///
/// # Errors
///
/// The first of its two ends that hasn't: (0, 1) for P, (1, 1) for Q.
#[tactic(auto, using(crate::proofs::SegmentLaws::ends_decide))]
pub fn segment_in_line_band(p: Pt, q: Pt, line: &Line, band: Band) -> Result<(), Spot>
    requires start { IsPoint p }
    requires end { IsPoint q }
    requires line { IsLine line.now }
    requires band { IsBand band }
    ensures all { IsOk result ↔ EveryPoint p q (InBand (Surface.Line line.now) band) }
    ensures first { IfErr result (λ s. IsFirstOutside p q (Surface.Line line.now) band s) }
{
    // The height of a point between two is a mean of theirs, so the ends tell of all.
    if !is_in_band(line, band, p) {
        Err(START)
    } else if !is_in_band(line, band, q) {
        Err(END)
    } else {
        Ok(())
    }
}

/// Whether every point of the segment PQ has at least a distance from the surface: to the left of a line, or
/// from a centre.
///
/// # Errors
///
/// The first that hasn't of (0, 1) for P, (1, 1) for Q, and at a circle the point between them that is nearest
/// to its centre, as `segment_in_ring` gives it.
pub fn segment_over(p: Pt, q: Pt, surface: &Surface, lo: i64) -> Result<(), Spot>
    requires start { IsPoint p }
    requires end { IsPoint q }
    requires surface { IsSurface surface.now }
    requires length { unsigned_abs lo ≤ 4 * 10 ^ 8 }
    ensures all { IsOk result ↔ EveryPoint p q (IsOver surface.now lo) }
    ensures first { IfErr result (λ s. IsFirstOff surface.now (IsOver surface.now lo) p q s) }
{
    if !is_over(surface, lo, p) {
        return Err(START);
    }
    if !is_over(surface, lo, q) {
        return Err(END);
    }
    match surface {
        Surface::Line(_) => Ok(()),
        Surface::Circ(circle) => match nearer_foot(p, q, circle.c, lo) {
            Some(spot) => Err(spot),
            None => Ok(()),
        },
    }
}

/// Whether every point of the segment PQ has at most a distance from the surface.
///
/// # Errors
///
/// The first of its two ends that hasn't: (0, 1) for P, (1, 1) for Q.
pub fn segment_under(p: Pt, q: Pt, surface: &Surface, hi: i64) -> Result<(), Spot>
    requires start { IsPoint p }
    requires end { IsPoint q }
    requires surface { IsSurface surface.now }
    requires length { unsigned_abs hi ≤ 4 * 10 ^ 8 }
    ensures all { IsOk result ↔ EveryPoint p q (IsUnder surface.now hi) }
    ensures first { IfErr result (λ s. IsFirstEnd (IsUnder surface.now hi) p q s) }
{
    if !is_under(surface, hi, p) {
        Err(START)
    } else if !is_under(surface, hi, q) {
        Err(END)
    } else {
        Ok(())
    }
}

fn is_over(surface: &Surface, lo: i64, p: Pt) -> bool
    requires surface { IsSurface surface.now }
    requires length { unsigned_abs lo ≤ 4 * 10 ^ 8 }
    requires point { IsPoint p }
    ensures { IsTrue result ↔ IsOver surface.now lo (scaled p) }
{
    match surface {
        Surface::Line(line) => is_above(line, lo, p),
        Surface::Circ(circle) => is_from_centre(circle.c, lo, p),
    }
}

fn is_under(surface: &Surface, hi: i64, p: Pt) -> bool
    requires surface { IsSurface surface.now }
    requires length { unsigned_abs hi ≤ 4 * 10 ^ 8 }
    requires point { IsPoint p }
    ensures { IsTrue result ↔ IsUnder surface.now hi (scaled p) }
{
    match surface {
        Surface::Line(line) => is_below(line, hi, p),
        Surface::Circ(circle) => is_to_centre(circle.c, hi, p),
    }
}

fn is_above(line: &Line, lo: i64, p: Pt) -> bool
    requires line { IsLine line.now }
    requires length { unsigned_abs lo ≤ 4 * 10 ^ 8 }
    requires point { IsPoint p }
    ensures { IsTrue result ↔ IsAbove line.now lo (scaled p) }
{
    is_at_least(
        height(line.base, line.dir, p),
        lo,
        length_squared_of(line.dir),
    )
}

fn is_below(line: &Line, hi: i64, p: Pt) -> bool
    requires line { IsLine line.now }
    requires length { unsigned_abs hi ≤ 4 * 10 ^ 8 }
    requires point { IsPoint p }
    ensures { IsTrue result ↔ IsBelow line.now hi (scaled p) }
{
    is_at_most(
        height(line.base, line.dir, p),
        hi,
        length_squared_of(line.dir),
    )
}

fn is_in_band(line: &Line, band: Band, p: Pt) -> bool
    requires line { IsLine line.now }
    requires band { IsBand band }
    requires point { IsPoint p }
    ensures { IsTrue result ↔ InBand (Surface.Line line.now) band (scaled p) }
{
    is_above(line, band.lo, p) && is_below(line, band.hi, p)
}

/// Whether `height >= length * sqrt(square)`.
fn is_at_least(height: i128, length: i64, square: u128) -> bool
    requires height { unsigned_abs height ≤ 2 * 10 ^ 16 }
    requires length { unsigned_abs length ≤ 4 * 10 ^ 8 }
    requires square { square ≤ 2 * 10 ^ 16 }
    ensures { IsTrue result ↔ AtLeast height length square }
{
    root_sign(height, i128::from(length), square) != Sign::Minus
}

fn is_at_most(height: i128, length: i64, square: u128) -> bool
    requires height { unsigned_abs height ≤ 2 * 10 ^ 16 }
    requires length { unsigned_abs length ≤ 4 * 10 ^ 8 }
    requires square { square ≤ 2 * 10 ^ 16 }
    ensures { IsTrue result ↔ AtLeast (neg_ℤ height) (neg_ℤ length) square }
{
    root_sign(height, i128::from(length), square) != Sign::Plus
}
