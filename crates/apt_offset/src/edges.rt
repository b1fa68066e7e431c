//! Segments that pass an edge of a band.

ghost use Rattle.std.specs.Prelude.{◌≡◌, ◌↔◌, None, Some, IsNone, IfSome, MatchResult};
ghost use Rattle.apt_plane.specs.Ranges.{IsPoint, IsSurface, IsBand};
ghost use Rattle.apt_plane.specs.Distances.{EveryPoint};
ghost use Rattle.apt_plane.specs.Segments.{IsFirstOff};
ghost use Rattle.apt_offset.specs.Edges.{IsWithinEdge};

use apt_num::Sign;
use apt_plane::{Band, Pt, Spot, Surface, segment_over, segment_under};

/// The first point of the segment PQ that is past an edge of a band about the check surface, of the upper edge
/// (`Plus`) or the lower one (`Minus`); `Zero` is no edge. Of the ends first, as `segment_over` and
/// `segment_under` give it; `None` where no point is past it.
pub fn overruns(p: Pt, q: Pt, check: &Surface, band: Band, beyond: Sign) -> Option<Spot>
    requires start { IsPoint p }
    requires end { IsPoint q }
    requires check { IsSurface check.now }
    requires band { IsBand band }
    ensures none { IsNone result ↔ EveryPoint p q (IsWithinEdge check.now band beyond) }
    ensures first { IfSome result (λ s. IsFirstOff check.now (IsWithinEdge check.now band beyond) p q s) }
{
    match beyond {
        Sign::Plus => off(segment_under(p, q, check, band.hi)),
        Sign::Minus => off(segment_over(p, q, check, band.lo)),
        Sign::Zero => None,
    }
}

fn off(within: Result<(), Spot>) -> Option<Spot>
    ensures { MatchResult within (λ u. result ≡ None) (λ s. result ≡ Some s) }
{
    match within {
        Ok(()) => None,
        Err(spot) => Some(spot),
    }
}
