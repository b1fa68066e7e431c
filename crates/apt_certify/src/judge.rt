//! The judge of jobs.

ghost use Rattle.std.specs.Prelude.{◌≡◌, ◌↔◌, ◌≤◌, ◌<◌, ◌+◌, ◌^◌, ◌≤ℤ◌, ◌+ℤ◌, ◌-ℤ◌, unsigned_abs, [], ◌∷◌, length, IsTrue, IsNone, IfSome, MatchOption};
ghost use Rattle.apt_plane.specs.Ranges.{IsPoint, IsSense};
ghost use Rattle.apt_certify.specs.declared.verdict.Verdict.{Verdict};
ghost use Rattle.apt_plane.specs.Distances.{InBand};
ghost use Rattle.apt_certify.specs.Legal.{EveryPointFrom, IsLegal};
ghost use Rattle.apt_certify.specs.Tests.{AllHold, segment_tests, tests_from};
ghost use Rattle.apt_certify.specs.Jobs.{ArePoints, IsNarrow, IsLeg, IsJob, AreJobs, point_count, IsLegalPath, AreLegal};
ghost use Rattle.apt_certify.specs.Tracks.{IsEdge, AreReaches, deviation_of};
ghost use Rattle.apt_certify.specs.Deviations.{track_distance, EveryPointAlong};
ghost use Rattle.apt_certify.specs.Verdicts.{IsFailure, IsFailureOfPath, IsVerdict};
ghost use Rattle.apt_certify.specs.Verdicts as verdicts;

use crate::deviations::{Deviations, greater, path_deviations};
use crate::gate::{Gate, OpenGate};
use crate::leg::{Job, Leg};
use crate::segments::{Failure, edge_of, end_fault, first_fault, onward_fault};
use crate::verdict::{Bad, Verdict};
use apt_offset::Target;
use apt_plane::{Band, Pt};

/// The verdict over jobs, of less than 2^63 points together.
#[tactic(auto, using(crate::proofs::Single::only_verdict, crate::proofs::Halves::none_where_legal))]
pub fn check_jobs(jobs: &[Job]) -> Verdict
    requires jobs { AreJobs jobs.now }
    requires few { point_count jobs.now < 2 ^ 63 }
    ensures verdict { IsVerdict jobs.now result }
    ensures only { (v : Verdict) → IsVerdict jobs.now v → v ≡ result }
    ensures legal { IsNone result.first_bad ↔ AreLegal jobs.now }
{
    check_from(jobs, 1, &OpenGate)
}

/// The verdict over jobs of which the first has this number. The gate is told of each before it is judged.
pub(crate) fn check_from<G: Gate>(jobs: &[Job], first: u64, gate: &G) -> Verdict
    requires jobs { AreJobs jobs.now }
    requires few { point_count jobs.now < 2 ^ 63 }
    requires numbers { first + length jobs.now < 2 ^ 64 }
    ensures { IsVerdict jobs.now result }
{
    let mut verdict = Verdict {
        segments: 0,
        worst_in: 0,
        worst_out: 0,
        first_bad: None,
    };
    'jobs: for (i, job) in jobs.iter().enumerate() {
        gate.enter(first + i as u64);
        verdict = merged(verdict, i as u64, job_verdict(job));
    }
    verdict
}

/// The verdict over two lists of jobs, the first of `n` motions, from the verdicts over each.
pub fn merged(v: Verdict, n: u64, w: Verdict) -> Verdict
    requires segments { v.segments + w.segments < 2 ^ 64 }
    requires motions { IfSome w.first_bad (λ bad. n + bad.motion < 2 ^ 64) }
    ensures { result ≡ verdicts.merged v n w }
{
    Verdict {
        segments: v.segments + w.segments,
        worst_in: greater(v.worst_in, w.worst_in),
        worst_out: greater(v.worst_out, w.worst_out),
        first_bad: v.first_bad.or(behind_motions(n, w.first_bad)),
    }
}

fn behind_motions(n: u64, bad: Option<Bad>) -> Option<Bad>
    requires { IfSome bad (λ b. n + b.motion < 2 ^ 64) }
    ensures { result ≡ verdicts.behind_motions n bad }
{
    match bad {
        Some(bad) => Some(Bad {
            motion: n + bad.motion,
            ..bad
        }),
        None => None,
    }
}

/// The verdict over one job.
fn job_verdict(job: &Job) -> Verdict
    requires { IsJob job.now }
    ensures verdict { IsVerdict (job.now ∷ []) result }
    ensures motion { IfSome result.first_bad (λ bad. bad.motion ≡ 1) }
{
    path_verdict(&job.leg, job.out_sign, job.points.all())
}

#[tactic(auto, using(crate::proofs::Edges::track_fits))]
fn path_verdict(leg: &Leg, out_sign: i8, points: &[Pt]) -> Verdict
    requires leg { IsLeg leg.now }
    requires out_sign { IsSense out_sign }
    requires moves { 2 ≤ length points.now }
    requires points { ArePoints points.now }
    ensures verdict { IsVerdict (record { leg = leg.now; out_sign = out_sign; points = points.now } ∷ []) result }
    ensures motion { IfSome result.first_bad (λ bad. bad.motion ≡ 1) }
{
    let past = path_deviations(&leg.track, points);
    let in_band = fits_band(distance_of(&leg.track), past, leg.band);
    Verdict {
        segments: points.len() as u64 - 1,
        worst_in: on_side(-out_sign, past),
        worst_out: on_side(out_sign, past),
        first_bad: path_fault(leg, in_band, points),
    }
}

/// The deviation to the greater distances (1), or to the less (-1).
fn on_side(sign: i8, past: Deviations) -> i64
    requires sign { IsSense sign }
    ensures { result ≡ deviation_of sign past }
{
    if sign > 0 { past.over } else { past.under }
}

/// The distance of a track from its surface.
fn distance_of(track: &Target) -> i64
    ensures { result ≡ track_distance track.now }
{
    match track {
        Target::Line { off, .. } => *off,
        Target::Circ { r, .. } => *r,
    }
}

/// Whether what lies so far past a distance at most is in a band.
fn fits_band(distance: i64, past: Deviations, band: Band) -> bool
    requires distance { unsigned_abs distance ≤ 10 ^ 8 }
    requires past { AreReaches past }
    requires band { IsNarrow band }
    ensures { IsTrue result ↔ ((band.lo ≤ℤ (distance -ℤ past.under)) × ((distance +ℤ past.over) ≤ℤ band.hi)) }
{
    band.lo <= distance - past.under && distance + past.over <= band.hi
}

/// The first test of a motion that fails, as that of motion 1.
fn path_fault(leg: &Leg, in_band: bool, points: &[Pt]) -> Option<Bad>
    requires leg { IsLeg leg.now }
    requires known { IsTrue in_band → EveryPointAlong points.now (InBand leg.now.drive leg.now.band) }
    requires moves { 2 ≤ length points.now }
    requires points { ArePoints points.now }
    ensures { MatchOption result (IsLegalPath leg.now points.now) (λ bad. (bad.motion ≡ 1) × IsFailureOfPath leg.now points.now bad.segment bad.reason bad.spot) }
{
    match points {
        [start, first, vertices @ ..] => leg_fault(leg, in_band, *start, *first, vertices),
        // A motion has two points at least.
        _ => unreachable!(),
    }
}

fn leg_fault(leg: &Leg, in_band: bool, start: Pt, first: Pt, vertices: &[Pt]) -> Option<Bad>
    requires leg { IsLeg leg.now }
    requires known { IsTrue in_band → EveryPointFrom start (first ∷ vertices.now) (InBand leg.now.drive leg.now.band) }
    requires start { IsPoint start }
    requires first { IsPoint first }
    requires vertices { ArePoints vertices.now }
    ensures { MatchOption result (IsLegal leg.now start (first ∷ vertices.now)) (λ bad. (bad.motion ≡ 1) × IsFailure leg.now start (tests_from start (first ∷ vertices.now)) bad.segment bad.reason bad.spot) }
{
    let edge = edge_of(leg);
    match first_fault(leg, edge, in_band, start, first) {
        Some(fault) => Some(first_motion(1, fault)),
        None => further_fault(leg, edge, in_band, start, first, vertices),
    }
}

/// The same where the tests of the first segment hold.
fn further_fault(
    leg: &Leg,
    edge: Band,
    in_band: bool,
    start: Pt,
    first: Pt,
    vertices: &[Pt],
) -> Option<Bad>
    requires leg { IsLeg leg.now }
    requires edge { IsEdge leg.now edge }
    requires known { IsTrue in_band → EveryPointFrom first vertices.now (InBand leg.now.drive leg.now.band) }
    requires start { IsPoint start }
    requires first { IsPoint first }
    requires vertices { ArePoints vertices.now }
    requires hold { AllHold leg.now start (segment_tests start first) }
    ensures { MatchOption result (IsLegal leg.now start (first ∷ vertices.now)) (λ bad. (bad.motion ≡ 1) × IsFailure leg.now start (tests_from start (first ∷ vertices.now)) bad.segment bad.reason bad.spot) }
{
    // Where a segment ends, the tests that it passed tell of the start of the next.
    let mut at = first;
    'vertices: for (i, q) in vertices.iter().enumerate() {
        if let Some(fault) = onward_fault(leg, edge, in_band, start, at, *q) {
            return Some(first_motion(i as u64 + 2, fault));
        }
        at = *q;
    }
    match end_fault(leg, at) {
        Some(fault) => Some(first_motion(vertices.len() as u64 + 1, fault)),
        None => None,
    }
}

/// A fault in a segment of motion 1.
fn first_motion(segment: u64, fault: Failure) -> Bad
    ensures { result ≡ record { motion = 1; segment = segment; spot = fault.spot; reason = fault.reason } }
{
    Bad {
        motion: 1,
        segment,
        spot: fault.spot,
        reason: fault.reason,
    }
}
