//! A piece of an arc, halved until its chords are clear.

ghost use Rattle.std.specs.Prelude.{◌≡◌, ◌≤◌, ◌+◌, ◌^◌, ◌++◌, ◌∷◌, [], ◌↔◌, IsTrue, IsFalse, false, pos, length, take, vec_len, vec_capacity};
ghost use Rattle.apt_plane.specs.Vectors.{displacement};
ghost use Rattle.apt_plane.specs.Ranges.{IsPoint, IsDir};
ghost use Rattle.apt_canon.specs.Scale.{IsNearCircle, sum};
ghost use Rattle.apt_arc.specs.Ranges.{IsTrack, IsSag, IsPiece, IsArc};
ghost use Rattle.apt_arc.specs.Cuts.{IsClear};
ghost use Rattle.apt_arc.specs.Cuts as cuts;
ghost use Rattle.apt_arc.specs.Made as spec;
ghost use Rattle.apt_arc.specs.Halves.{IsHalved};

use crate::arc::Arc;
use apt_canon::ray_point;
use apt_plane::vectors::displacement;
use apt_plane::{Circ, Dir, Pt, nearer_foot};

/// Whether no point of a chord lies further inside of a track than the sag.
fn is_clear(track: &Circ, sag: i64, a: Pt, b: Pt) -> bool
    requires track { IsTrack track.now }
    requires sag { IsSag track.now sag }
    requires start { IsNearCircle track.now (pos 3) a }
    requires end { IsNearCircle track.now (pos 3) b }
    ensures value { result ≡ spec.is_clear track.now sag a b }
    ensures clear { IsTrue result ↔ IsClear track.now sag a b }
{
    // The ends are near the track, so only the foot of the centre can be too far inside.
    nearer_foot(a, b, track.c, track.r - sag).is_none()
}

/// The point of a track half way between two.
fn middle(track: &Circ, a: Pt, b: Pt) -> Pt
    requires track { IsTrack track.now }
    requires start { IsPoint a }
    requires end { IsPoint b }
    requires dir { IsDir (sum (displacement track.now.c a) (displacement track.now.c b)) }
    ensures { result ≡ cuts.middle track.now a b }
{
    let first = displacement(track.c, a);
    let second = displacement(track.c, b);
    let between = Dir {
        dx: first.dx + second.dx,
        dy: first.dy + second.dy,
    };
    ray_point(track, between)
}

/// Whether a piece is one chord.
#[tactic(auto, using(crate::proofs::Halved::is_halved, crate::proofs::Lists::pieces_none, crate::proofs::Lists::pieces_clear))]
fn is_whole(arc: &Arc, a: Pt, b: Pt, depth: u8) -> bool
    requires arc { IsArc arc.now }
    requires piece { IsPiece arc.now.track arc.now.sense a b }
    ensures whole { IsTrue result → spec.pieces depth arc.now.track arc.now.sag a b ≡ b ∷ [] }
    ensures halved { IsFalse result → IsHalved depth arc.now.track arc.now.sag a b }
{
    depth == 0 || is_clear(&arc.track, arc.sag, a, b)
}

/// The point half way along a piece, between its halves.
fn halve(arc: &Arc, a: Pt, b: Pt) -> Pt
    requires arc { IsArc arc.now }
    requires piece { IsPiece arc.now.track arc.now.sense a b }
    requires not_clear { spec.is_clear arc.now.track arc.now.sag a b ≡ false }
    ensures value { result ≡ cuts.middle arc.now.track a b }
    ensures first { IsPiece arc.now.track arc.now.sense a result }
    ensures second { IsPiece arc.now.track arc.now.sense result b }
{
    middle(&arc.track, a, b)
}

/// Appends the vertices of a piece behind its start, halved at most so deep, as far as there is room for them, and
/// counts them all.
#[tactic(auto, using(crate::proofs::Halved::one_long, crate::proofs::Halved::power_half, crate::proofs::Rooms::one_fits))]
pub(crate) fn append_piece(arc: &Arc, a: Pt, b: Pt, depth: u8, out: &mut Vec<Pt>) -> u64
    requires arc { IsArc arc.now }
    requires piece { IsPiece arc.now.track arc.now.sense a b }
    requires depth { depth ≤ 24 }
    ensures count { result ≡ length (spec.pieces depth arc.now.track arc.now.sag a b) }
    ensures small { result ≤ 2 ^ depth }
    ensures items { out.new.items ≡ take (vec_capacity out.old) (out.old.items ++ spec.pieces depth arc.now.track arc.now.sag a b) }
    ensures capacity { vec_capacity out.new ≡ vec_capacity out.old }
{
    if is_whole(arc, a, b, depth) {
        push_if_room(out, b);
        return 1;
    }
    let m = halve(arc, a, b);
    append_piece(arc, a, m, depth - 1, out) + append_piece(arc, m, b, depth - 1, out)
}

/// Counts the vertices of a piece behind its start, halved at most so deep.
#[tactic(auto, using(crate::proofs::Halved::one_long, crate::proofs::Halved::power_half))]
pub(crate) fn count_piece(arc: &Arc, a: Pt, b: Pt, depth: u8) -> u64
    requires arc { IsArc arc.now }
    requires piece { IsPiece arc.now.track arc.now.sense a b }
    requires depth { depth ≤ 24 }
    ensures count { result ≡ length (spec.pieces depth arc.now.track arc.now.sag a b) }
    ensures small { result ≤ 2 ^ depth }
{
    if is_whole(arc, a, b, depth) {
        return 1;
    }
    let m = halve(arc, a, b);
    count_piece(arc, a, m, depth - 1) + count_piece(arc, m, b, depth - 1)
}

/// Appends a point if there is room for it.
#[tactic(auto, using(crate::proofs::Rooms::one_more, crate::proofs::Rooms::none_more))]
fn push_if_room(out: &mut Vec<Pt>, point: Pt)
    ensures items { out.new.items ≡ take (vec_capacity out.old) (out.old.items ++ point ∷ []) }
    ensures capacity { vec_capacity out.new ≡ vec_capacity out.old }
{
    if out.len() < out.capacity() {
        out.push_reserved(point);
    }
}
