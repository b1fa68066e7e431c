//! The quarter points of a track on the way from a start to an end.

ghost use Rattle.std.specs.Prelude.{◌≡◌, ◌≤◌, ◌∷◌, [], ◌^◌, ◌*ℤ◌, IfSome, IsNone, unsigned_abs};
ghost use Rattle.apt_plane.specs.Ranges.{IsPoint, IsDir, IsSense};
ghost use Rattle.apt_canon.specs.Feet as feet;
ghost use Rattle.apt_arc.specs.Ranges.{IsTrack, IsArc};
ghost use Rattle.apt_arc.specs.Made as spec;
ghost use Rattle.apt_arc.specs.Halves.{IsNext};

use crate::arc::Arc;
use apt_canon::ray_point;
use apt_plane::vectors::{cross, displacement, dot};
use apt_plane::{Circ, Dir, Pt, before, by_sense};

/// A direction turned by a quarter in the sense.
#[tactic(auto, using(crate::proofs::Quartered::dir_left, crate::proofs::Quartered::dir_right))]
pub(crate) fn onward(sense: i8, u: Dir) -> Dir
    requires dir { IsDir u }
    ensures value { result ≡ spec.onward sense u }
    ensures dir { IsDir result }
{
    if sense < 0 {
        Dir {
            dx: u.dy,
            dy: -u.dx,
        }
    } else {
        Dir {
            dx: -u.dy,
            dy: u.dx,
        }
    }
}

/// The point of a track in a direction.
fn point_at(track: &Circ, u: Dir) -> Pt
    requires track { IsTrack track.now }
    requires dir { IsDir u }
    ensures value { result ≡ feet.ray_point track.now u }
    ensures point { IsPoint result }
{
    ray_point(track, u)
}

/// Whether the point in a direction lies up to a quarter turn behind the start.
fn is_behind(arc: &Arc, u: Dir) -> bool
    requires arc { IsArc arc.now }
    requires dir { IsDir u }
    ensures { result ≡ spec.is_behind arc.now.track arc.now.sense arc.now.start u }
{
    let point = displacement(arc.track.c, point_at(&arc.track, u));
    let way = displacement(arc.track.c, arc.start);
    dot(point, way) > 0 && by_sense(arc.sense, cross(point, way)) >= 0
}

/// The direction of the first quarter point past the start.
#[tactic(auto, using(crate::proofs::Quartered::first_none, crate::proofs::Quartered::first_behind, crate::proofs::Quartered::first_later))]
pub(crate) fn first_past(arc: &Arc, u: Dir, left: u8) -> Dir
    requires arc { IsArc arc.now }
    requires dir { IsDir u }
    ensures value { result ≡ spec.first_past left arc.now.track arc.now.sense arc.now.start u }
    ensures dir { IsDir result }
{
    if left == 0 || is_behind(arc, u) {
        return onward(arc.sense, u);
    }
    first_past(arc, onward(arc.sense, u), left - 1)
}

/// Whether a point comes after the start and before the end.
fn is_on_the_way(arc: &Arc, point: Pt) -> bool
    requires arc { IsArc arc.now }
    requires point { IsPoint point }
    ensures { result ≡ spec.is_on_the_way arc.now.track arc.now.sense arc.now.start arc.now.end point }
{
    let from = displacement(arc.track.c, arc.start);
    let to = displacement(arc.track.c, arc.end);
    let way = displacement(arc.track.c, point);
    before(from, from, way, arc.sense) && before(from, way, to, arc.sense)
}

/// The point in a direction, if at most so many are left and it is on the way.
pub(crate) fn next_point(arc: &Arc, u: Dir, left: u8) -> Option<Pt>
    requires arc { IsArc arc.now }
    requires dir { IsDir u }
    ensures some { IfSome result (λ q. IsNext left arc.now u q) }
    ensures none { IsNone result → spec.stations left arc.now u ≡ arc.now.end ∷ [] }
{
    if left == 0 {
        return None;
    }
    let point = point_at(&arc.track, u);
    if is_on_the_way(arc, point) {
        Some(point)
    } else {
        None
    }
}
