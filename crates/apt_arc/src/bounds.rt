//! A bound on the number of vertices of a piece, found without halving it.

ghost use Rattle.std.specs.Prelude.{◌≡◌, ◌≤◌, ◌*◌, ◌^◌, length, unsigned_abs};
ghost use Rattle.apt_plane.specs.Ranges.{IsPoint};
ghost use Rattle.apt_plane.specs.Vectors as vectors;
ghost use Rattle.apt_arc.specs.Ranges.{IsTrack, IsSag, IsPiece, IsArc};
ghost use Rattle.apt_arc.specs.Bounds as spec;
ghost use Rattle.apt_arc.specs.Made.{pieces};

use crate::arc::Arc;
use apt_plane::vectors::{displacement, length_squared};
use apt_plane::{Circ, Pt};

/// A number that the vertices of a piece behind its start are not more than, halved at most so deep.
pub(crate) fn piece_bound(arc: &Arc, a: Pt, b: Pt, depth: u8) -> u64
    requires arc { IsArc arc.now }
    requires piece { IsPiece arc.now.track arc.now.sense a b }
    requires depth { depth ≤ 24 }
    ensures bound { length (pieces depth arc.now.track arc.now.sag a b) ≤ result }
    ensures small { result ≤ 2 ^ depth }
{
    let clear = clear_length(&arc.track, arc.sag, a, b);
    number(depth, arc.track.r.unsigned_abs(), clear, chord_length(a, b))
}

/// The number of vertices of a piece of a track, halved at most so deep where its chord is longer than `clear`.
#[tactic(auto, using(crate::proofs::Numbers::number_none, crate::proofs::Numbers::number_clear, crate::proofs::Numbers::number_halved, crate::proofs::Numbers::double_small))]
fn number(depth: u8, r: u64, clear: u128, d: u128) -> u64
    requires least { 100 ≤ r }
    requires most { r ≤ 49500000 }
    requires length { d ≤ 2 * 10 ^ 16 }
    requires depth { depth ≤ 24 }
    ensures value { result ≡ spec.number depth r clear d }
    ensures small { result ≤ 2 ^ depth }
{
    if depth == 0 || d <= clear {
        return 1;
    }
    2 * number(depth - 1, r, clear, shorter(r, d))
}

/// A bound on the square of the chord of each half of a piece, whose own is at most `d`.
fn shorter(r: u64, d: u128) -> u128
    requires least { 100 ≤ r }
    requires most { r ≤ 49500000 }
    requires length { d ≤ 2 * 10 ^ 16 }
    ensures value { result ≡ spec.shorter r d }
    ensures small { result ≤ d }
{
    let r = u128::from(r);
    let inner = r - 3;
    let bulge = (d + 30 * r) * (d + 191 * r) / (46 * (inner * inner));
    d.min(d / 4 + r / 16 + bulge + 4)
}

/// The square of a chord below which no point of it lies further inside of a track than the sag.
fn clear_length(track: &Circ, sag: i64, a: Pt, b: Pt) -> u128
    requires track { IsTrack track.now }
    requires sag { IsSag track.now sag }
    requires start { IsPoint a }
    requires end { IsPoint b }
    ensures { result ≡ spec.clear_length track.now sag a b }
{
    let inner = u128::from((track.r - sag).unsigned_abs());
    4 * nearest(track, a, b).saturating_sub(inner * inner)
}

/// The square of a distance from the centre that the ends of a piece have, and the points half way.
fn nearest(track: &Circ, a: Pt, b: Pt) -> u128
    requires track { IsTrack track.now }
    requires start { IsPoint a }
    requires end { IsPoint b }
    ensures value { result ≡ spec.nearest track.now a b }
    ensures small { result ≤ 2 * 10 ^ 16 }
{
    let half_way = u128::from(track.r.unsigned_abs()) - 1;
    chord_length(track.c, a)
        .min(chord_length(track.c, b))
        .min(half_way * half_way)
}

/// The square of the distance of two points.
#[tactic(auto, using(apt_plane::proofs::Lengths::displacement_short))]
fn chord_length(a: Pt, b: Pt) -> u128
    requires start { IsPoint a }
    requires end { IsPoint b }
    ensures value { result ≡ vectors.length_squared (vectors.displacement a b) }
    ensures small { result ≤ 2 * 10 ^ 16 }
{
    length_squared(displacement(a, b))
}
