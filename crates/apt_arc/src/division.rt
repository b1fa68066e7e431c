//! The vertices of an arc.

ghost use Rattle.std.specs.Prelude.{◌≡◌, ◌≤◌, ◌<◌, ◌+◌, ◌*◌, ◌^◌, ◌++◌, ◌↔◌, OnOk, OnErr, IsErrOf, ℕ, List, length, take, unsigned_abs, vec_capacity};
ghost use Rattle.apt_plane.specs.declared.figures.Pt.{Pt};
ghost use Rattle.apt_plane.specs.Ranges.{IsDir};
ghost use Rattle.apt_arc.specs.Ranges.{IsArc, ArePieces};
ghost use Rattle.apt_arc.specs.Divisions.{IsDivision};
ghost use Rattle.apt_arc.specs.Made.{divided};
ghost use Rattle.apt_arc.specs.Made as spec;

use crate::arc::Arc;
use crate::bounds::piece_bound;
use crate::cuts::{append_piece, count_piece};
use crate::quarters::{first_past, next_point, onward};
use apt_plane::{Dir, Pt};
use std::alloc::AllocError;

/// No piece is halved more often than so, one half in the other.
const DEPTH: u8 = 24;

/// Why an arc is not divided.
#[derive(Clone, Copy, Debug, PartialEq, Eq)]
pub enum ArcError {
    NoMemory,
    TooManyPoints,
}

/// Appends the vertices of an arc behind its start, the last of which is its end.
///
/// # Errors
///
/// `TooManyPoints` exactly where they are more than `room`; `NoMemory` where memory runs out. Then `out` is as
/// before.
#[tactic(auto, using(crate::proofs::Divided::divides, crate::proofs::Divided::short))]
pub fn chords(arc: &Arc, room: u64, out: &mut Vec<Pt>) -> Result<(), ArcError>
    requires { IsArc arc.now }
    ensures ok { OnOk result (out.new.items ≡ out.old.items ++ divided arc.now) }
    ensures too_many { IsErrOf result ArcError.TooManyPoints ↔ (room < length (divided arc.now)) }
    ensures err { OnErr result (out.new.items ≡ out.old.items) }
    ensures division { IsDivision arc.now (divided arc.now) }
    ensures only { (list : List Pt) → IsDivision arc.now list → list ≡ divided arc.now }
    ensures short { (k : ℕ) → unsigned_abs arc.now.track.r ≤ 3 ^ k * unsigned_abs arc.now.sag → length (divided arc.now) ≤ 5 * 2 ^ k }
{
    chords_value(arc, room, out)
}

/// The number of vertices of an arc behind its start, which [`chords`] appends.
#[tactic(auto, using(crate::proofs::Divided::divides))]
pub fn count(arc: &Arc) -> u64
    requires { IsArc arc.now }
    ensures count { result ≡ length (divided arc.now) }
    ensures division { IsDivision arc.now (divided arc.now) }
    ensures only { (list : List Pt) → IsDivision arc.now list → list ≡ divided arc.now }
{
    count_from(arc, arc.start, first_past(arc, arc.axis, 3), 4)
}

/// The number of those from a point through the quarter points from a direction on.
fn count_from(arc: &Arc, from: Pt, u: Dir, left: u8) -> u64
    requires arc { IsArc arc.now }
    requires dir { IsDir u }
    requires pieces { ArePieces arc.now.track arc.now.sense from (spec.stations left arc.now u) }
    requires few { left ≤ 4 }
    ensures count { result ≡ length (spec.vertices left arc.now from u) }
    ensures small { result ≤ (left + 1) * 2 ^ 24 }
{
    match next_point(arc, u, left) {
        Some(point) => count_piece(arc, from, point, DEPTH)
            + count_from(arc, point, onward(arc.sense, u), left - 1),
        None => count_piece(arc, from, arc.end, DEPTH),
    }
}

/// A number that the vertices of an arc are not more than, found without dividing it.
pub fn bound(arc: &Arc) -> u64
    requires { IsArc arc.now }
    ensures bound { length (divided arc.now) ≤ result }
    ensures small { result ≤ 5 * 2 ^ 24 }
{
    bound_from(arc, arc.start, first_past(arc, arc.axis, 3), 4)
}

/// The same from a point through the quarter points from a direction on.
fn bound_from(arc: &Arc, from: Pt, u: Dir, left: u8) -> u64
    requires arc { IsArc arc.now }
    requires dir { IsDir u }
    requires pieces { ArePieces arc.now.track arc.now.sense from (spec.stations left arc.now u) }
    requires few { left ≤ 4 }
    ensures bound { length (spec.vertices left arc.now from u) ≤ result }
    ensures small { result ≤ (left + 1) * 2 ^ 24 }
{
    match next_point(arc, u, left) {
        Some(point) => piece_bound(arc, from, point, DEPTH)
            + bound_from(arc, point, onward(arc.sense, u), left - 1),
        None => piece_bound(arc, from, arc.end, DEPTH),
    }
}

/// The vertices are made once, where there is room for them already; else twice, behind room for them all.
#[tactic(auto, using(crate::proofs::Rooms::all_there, crate::proofs::Rooms::as_before))]
fn chords_value(arc: &Arc, room: u64, out: &mut Vec<Pt>) -> Result<(), ArcError>
    requires arc { IsArc arc.now }
    ensures ok { OnOk result (out.new.items ≡ out.old.items ++ divided arc.now) }
    ensures too_many { IsErrOf result ArcError.TooManyPoints ↔ (room < length (divided arc.now)) }
    ensures err { OnErr result (out.new.items ≡ out.old.items) }
{
    let before = out.len();
    let due = append_whole(arc, out);
    if due <= room && due <= (out.capacity() - before) as u64 {
        return Ok(());
    }
    out.truncate(before);
    if due > room {
        return Err(ArcError::TooManyPoints);
    }
    match append_behind_room(arc, due, out) {
        Ok(()) => Ok(()),
        Err(AllocError) => Err(ArcError::NoMemory),
    }
}

/// Appends the vertices, so many, once there is room for them.
#[tactic(auto, using(crate::proofs::Rooms::all_there))]
fn append_behind_room(arc: &Arc, due: u64, out: &mut Vec<Pt>) -> Result<(), AllocError>
    requires arc { IsArc arc.now }
    requires due { due ≡ length (divided arc.now) }
    ensures ok { OnOk result (out.new.items ≡ out.old.items ++ divided arc.now) }
    ensures err { OnErr result (out.new.items ≡ out.old.items) }
{
    out.reserve(due as usize)?;
    append_whole(arc, out);
    Ok(())
}

/// Appends the vertices as far as there is room for them, and counts them all.
fn append_whole(arc: &Arc, out: &mut Vec<Pt>) -> u64
    requires { IsArc arc.now }
    ensures count { result ≡ length (divided arc.now) }
    ensures items { out.new.items ≡ take (vec_capacity out.old) (out.old.items ++ divided arc.now) }
    ensures capacity { vec_capacity out.new ≡ vec_capacity out.old }
{
    append_from(arc, arc.start, first_past(arc, arc.axis, 3), 4, out)
}

/// The same from a point through the quarter points from a direction on.
fn append_from(arc: &Arc, from: Pt, u: Dir, left: u8, out: &mut Vec<Pt>) -> u64
    requires arc { IsArc arc.now }
    requires dir { IsDir u }
    requires pieces { ArePieces arc.now.track arc.now.sense from (spec.stations left arc.now u) }
    requires few { left ≤ 4 }
    ensures count { result ≡ length (spec.vertices left arc.now from u) }
    ensures small { result ≤ (left + 1) * 2 ^ 24 }
    ensures items { out.new.items ≡ take (vec_capacity out.old) (out.old.items ++ spec.vertices left arc.now from u) }
    ensures capacity { vec_capacity out.new ≡ vec_capacity out.old }
{
    match next_point(arc, u, left) {
        Some(point) => append_piece(arc, from, point, DEPTH, out)
            + append_from(arc, point, onward(arc.sense, u), left - 1, out),
        None => append_piece(arc, from, arc.end, DEPTH, out),
    }
}
