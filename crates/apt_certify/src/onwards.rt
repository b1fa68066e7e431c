//! Segments whose start is within: their end tells of them, and at a circle the foot of its centre too.

ghost use Rattle.std.specs.Prelude.{◌≤◌, ◌*◌, ◌^◌, ◌↔◌, IsTrue, unsigned_abs};
ghost use Rattle.apt_plane.specs.Ranges.{IsPoint, IsSurface, IsBand};
ghost use Rattle.apt_plane.specs.Vectors.{scaled};
ghost use Rattle.apt_plane.specs.Distances.{IsOver, InBand, EveryPoint};
ghost use Rattle.apt_offset.specs.Edges.{IsWithinEdge};
ghost use Rattle.apt_certify.specs.Jobs.{IsNarrow};

use crate::distances::{is_at_least, is_at_most};
use apt_num::Sign;
use apt_plane::{Band, Pt, Surface, nearer_foot};

/// Whether all of a segment is in a band in which it starts.
pub(crate) fn stays_in_band(surface: &Surface, band: Band, p: Pt, q: Pt) -> bool
    requires surface { IsSurface surface.now }
    requires band { IsNarrow band }
    requires start { IsPoint p }
    requires end { IsPoint q }
    requires here { InBand surface.now band (scaled p) }
    ensures { IsTrue result ↔ EveryPoint p q (InBand surface.now band) }
{
    is_at_most(surface, band.hi, q) && stays_over(surface, band.lo, p, q)
}

/// Whether no point of a segment is beyond an edge of a band, where its start is not.
pub(crate) fn stays_within_edge(surface: &Surface, band: Band, beyond: Sign, p: Pt, q: Pt) -> bool
    requires surface { IsSurface surface.now }
    requires band { IsBand band }
    requires start { IsPoint p }
    requires end { IsPoint q }
    requires here { IsWithinEdge surface.now band beyond (scaled p) }
    ensures { IsTrue result ↔ EveryPoint p q (IsWithinEdge surface.now band beyond) }
{
    match beyond {
        Sign::Plus => is_at_most(surface, band.hi, q),
        Sign::Minus => stays_over(surface, band.lo, p, q),
        Sign::Zero => true,
    }
}

/// Whether all of a segment has at least a distance at which it starts.
fn stays_over(surface: &Surface, lo: i64, p: Pt, q: Pt) -> bool
    requires surface { IsSurface surface.now }
    requires length { unsigned_abs lo ≤ 4 * 10 ^ 8 }
    requires start { IsPoint p }
    requires end { IsPoint q }
    requires here { IsOver surface.now lo (scaled p) }
    ensures { IsTrue result ↔ EveryPoint p q (IsOver surface.now lo) }
{
    if !is_at_least(surface, lo, q) {
        return false;
    }
    match surface {
        Surface::Line(_) => true,
        Surface::Circ(circle) => nearer_foot(p, q, circle.c, lo).is_none(),
    }
}

/// Whether a point is not beyond an edge of a band.
pub(crate) fn is_within_edge(surface: &Surface, band: Band, beyond: Sign, p: Pt) -> bool
    requires surface { IsSurface surface.now }
    requires band { IsBand band }
    requires point { IsPoint p }
    ensures { IsTrue result ↔ IsWithinEdge surface.now band beyond (scaled p) }
{
    match beyond {
        Sign::Plus => is_at_most(surface, band.hi, p),
        Sign::Minus => is_at_least(surface, band.lo, p),
        Sign::Zero => true,
    }
}
