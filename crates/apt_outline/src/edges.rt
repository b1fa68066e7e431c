//! A segment against a straight edge.

ghost use Rattle.std.specs.Prelude.{◌≡◌, ◌≤◌, ◌<◌, ◌*◌, ◌^◌, ◌↔◌, ◌≤ℤ◌, ◌-ℤ◌, ℕ, pos, IsTrue, unsigned_abs, [], ◌∷◌, MatchOption};
ghost use Rattle.apt_plane.specs.Ranges.{IsPoint};
ghost use Rattle.apt_plane.specs.Vectors.{scaled};
ghost use Rattle.apt_plane.specs.Distances.{EveryPoint};
ghost use Rattle.apt_outline.specs.Spots.{at_spot, crossing, spots, IsFirstSpot};
ghost use Rattle.apt_outline.specs.Clearances.{IsFar, IsClear};
ghost use Rattle.apt_outline.specs.declared.parts.Part.{Part};
ghost use Rattle.apt_outline.specs.Edges.{side, IsMissedBy};

use crate::feet::near_foot;
use crate::products::{cross_of, dot_of, square_of};
use apt_plane::vectors::displacement;
use apt_plane::{Pt, Spot};

/// The first spot of the segment AB at which it is nearer than `rho` to the edge PQ.
pub(crate) fn edge_spot(a: Pt, b: Pt, p: Pt, q: Pt, rho: i64) -> Option<Spot>
    requires a { IsPoint a }
    requires b { IsPoint b }
    requires p { IsPoint p }
    requires q { IsPoint q }
    requires length { unsigned_abs rho ≤ 2 * 10 ^ 8 }
    ensures { MatchOption result (EveryPoint a b (IsClear rho (Part.Edge p q))) (λ s. IsFirstSpot a b (IsClear rho (Part.Edge p q)) (spots (Part.Edge p q) a b) s) }
{
    if rho <= 0 {
        None
    } else {
        near_spot(a, b, p, q, rho.unsigned_abs())
    }
}

fn near_spot(a: Pt, b: Pt, p: Pt, q: Pt, r: u64) -> Option<Spot>
    requires a { IsPoint a }
    requires b { IsPoint b }
    requires p { IsPoint p }
    requires q { IsPoint q }
    requires some { 1 ≤ r }
    requires length { r ≤ 2 * 10 ^ 8 }
    ensures { MatchOption result (EveryPoint a b (IsFar r p q)) (λ s. IsFirstSpot a b (IsFar r p q) (spots (Part.Edge p q) a b) s) }
{
    if !is_far(a, p, q, r) {
        return Some(Spot { j: 0, m: 1 });
    }
    if !is_far(b, p, q, r) {
        return Some(Spot { j: 1, m: 1 });
    }
    if let Some(spot) = near_foot(a, b, p, q, r) {
        return Some(spot);
    }
    if let Some(spot) = near_foot(a, b, q, p, r) {
        return Some(spot);
    }
    crossing_spot(a, b, p, q)
}

/// Whether a point is at least `r` from the edge PQ.
fn is_far(a: Pt, p: Pt, q: Pt, r: u64) -> bool
    requires a { IsPoint a }
    requires p { IsPoint p }
    requires q { IsPoint q }
    requires length { r ≤ 2 * 10 ^ 8 }
    ensures { IsTrue result ↔ IsFar r p q (scaled a) }
{
    let edge = displacement(p, q);
    let way = displacement(p, a);
    let along = dot_of(edge, way);
    let whole = square_of(edge);
    if along <= 0 {
        r * r <= square_of(way)
    } else if along.unsigned_abs() >= whole {
        r * r <= square_of(displacement(q, a))
    } else {
        is_at_most(u128::from(r * r) * u128::from(whole), cross_of(edge, way))
    }
}

fn is_at_most(limit: u128, area: i64) -> bool
    ensures { IsTrue result ↔ (limit ≤ unsigned_abs area * unsigned_abs area) }
{
    let size = u128::from(area.unsigned_abs());
    limit <= size * size
}

/// The point at which the segment AB crosses the edge PQ.
fn crossing_spot(a: Pt, b: Pt, p: Pt, q: Pt) -> Option<Spot>
    requires a { IsPoint a }
    requires b { IsPoint b }
    requires p { IsPoint p }
    requires q { IsPoint q }
    ensures { MatchOption result (IsMissedBy p q a b) (λ s. (crossing a b p q ≡ s ∷ []) × ((r : ℕ) → 0 < r → ¬ IsFar r p q (at_spot a b s))) }
{
    let edge = displacement(p, q);
    let start = cross_of(edge, displacement(p, a));
    let end = cross_of(edge, displacement(p, b));
    if start > 0 && end < 0 {
        if are_sides(p, q, a, b) {
            Some(spot_between(start, end))
        } else {
            None
        }
    } else if start < 0 && end > 0 {
        if are_sides(q, p, a, b) {
            Some(spot_between(-start, -end))
        } else {
            None
        }
    } else {
        None
    }
}

/// Whether the first point is not to the left of the segment AB, and the second not to its right.
fn are_sides(p: Pt, q: Pt, a: Pt, b: Pt) -> bool
    requires a { IsPoint a }
    requires b { IsPoint b }
    requires p { IsPoint p }
    requires q { IsPoint q }
    ensures { IsTrue result ↔ ((side p a b ≤ℤ pos 0) × (pos 0 ≤ℤ side q a b)) }
{
    let segment = displacement(a, b);
    cross_of(segment, displacement(a, p)) <= 0 && cross_of(segment, displacement(a, q)) >= 0
}

/// The spot that divides a segment as the heights of its ends over a line do.
fn spot_between(start: i64, end: i64) -> Spot
    requires start { unsigned_abs start ≤ 2 * 10 ^ 16 }
    requires end { unsigned_abs end ≤ 2 * 10 ^ 16 }
    ensures j { result.j ≡ start }
    ensures m { result.m ≡ start -ℤ end }
{
    Spot {
        j: i128::from(start),
        m: i128::from(start - end),
    }
}
