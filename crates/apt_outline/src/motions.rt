//! The cutter of every motion against every part.

ghost use Rattle.std.proofs.Common.{get_or};
ghost use Rattle.std.specs.Prelude.{◌≡◌, ◌≤◌, ◌<◌, ◌+◌, ◌*◌, ◌^◌, ◌∷◌, [], length, unsigned_abs, IfSome, MatchOption};
ghost use Rattle.apt_plane.specs.Ranges.{IsPoint};
ghost use Rattle.apt_certify.specs.Jobs.{ArePoints, IsJob, AreJobs, point_count};
ghost use Rattle.apt_outline.specs.Clearances as clearances;
ghost use Rattle.apt_outline.specs.Clearances.{IsReach};
ghost use Rattle.std.specs.Prelude.{Option};
ghost use Rattle.apt_outline.specs.declared.parts.Gouge.{Gouge};
ghost use Rattle.apt_outline.specs.Guards.{segment, passes, IsClearOfAll, IsFound, AreParts, AreReaches};
ghost use Rattle.apt_outline.specs.Guards as guards;

use crate::bounds::Bounds;
use crate::parts::{Gouge, Part, Reach};
use crate::rounds::part_spot;
use apt_certify::{Gate, Job, OpenGate};
use apt_plane::Pt;

/// The first motion whose cutter comes nearer to a part than its reach allows, in it the first segment, of the parts the
/// first, and on the segment the first spot.
#[tactic(auto, using(crate::proofs::Single::only_found))]
pub fn guard(jobs: &[Job], reaches: &[Reach], parts: &[Part]) -> Option<Gouge>
    requires jobs { AreJobs jobs.now }
    requires few { point_count jobs.now < 2 ^ 63 }
    requires same { length reaches.now ≡ length jobs.now }
    requires reaches { AreReaches reaches.now }
    requires parts { AreParts parts.now }
    ensures found { IsFound (passes jobs.now reaches.now) parts.now result }
    ensures only { (found : Option Gouge) → IsFound (passes jobs.now reaches.now) parts.now found → found ≡ result }
{
    guard_from(jobs, reaches, parts, 1, &OpenGate)
}

/// The same of motions of which the first has this number. The gate is told of each before it is tried.
pub(crate) fn guard_from<G: Gate>(
    jobs: &[Job],
    reaches: &[Reach],
    parts: &[Part],
    first: u64,
    gate: &G,
) -> Option<Gouge>
    requires jobs { AreJobs jobs.now }
    requires few { point_count jobs.now < 2 ^ 63 }
    requires numbers { first + length jobs.now < 2 ^ 64 }
    requires same { length reaches.now ≡ length jobs.now }
    requires reaches { AreReaches reaches.now }
    requires parts { AreParts parts.now }
    ensures { IsFound (passes jobs.now reaches.now) parts.now result }
{
    'jobs: for (i, job) in jobs.iter().enumerate() {
        gate.enter(first + i as u64);
        if let Some(gouge) = motion_gouge(job, clearance(reach_at(reaches, i)), parts) {
            return Some(Gouge {
                motion: i as u64 + 1,
                ..gouge
            });
        }
    }
    None
}

#[tactic(auto, using(crate::proofs::Guarding::reach_at, crate::proofs::Guarding::reach_is))]
fn reach_at(reaches: &[Reach], i: usize) -> Reach
    requires reaches { AreReaches reaches.now }
    requires place { i < length reaches.now }
    ensures value { result ≡ get_or reaches.now i result }
    ensures range { IsReach result }
{
    reaches[i]
}

/// How far the centre of a cutter keeps from what is cut.
fn clearance(reach: Reach) -> i64
    requires { IsReach reach }
    ensures value { result ≡ clearances.clearance reach }
    ensures small { unsigned_abs result ≤ 2 * 10 ^ 8 }
{
    reach.r - reach.i
}

/// The first gouge of a motion, as that of motion 1.
fn motion_gouge(job: &Job, rho: i64, parts: &[Part]) -> Option<Gouge>
    requires job { IsJob job.now }
    requires length { unsigned_abs rho ≤ 2 * 10 ^ 8 }
    requires parts { AreParts parts.now }
    ensures { MatchOption result (guards.IsClearPath rho parts.now job.now.points) (guards.IsGougeOfPath rho parts.now job.now.points) }
{
    path_gouge(job.points.all(), rho, parts)
}

/// The first gouge of a path, as that of motion 1.
fn path_gouge(points: &[Pt], rho: i64, parts: &[Part]) -> Option<Gouge>
    requires points { ArePoints points.now }
    requires length { unsigned_abs rho ≤ 2 * 10 ^ 8 }
    requires parts { AreParts parts.now }
    ensures { MatchOption result (guards.IsClearPath rho parts.now points.now) (guards.IsGougeOfPath rho parts.now points.now) }
{
    match points {
        [start, rest @ ..] => path_from(*start, rest, rho, parts),
        [] => None,
    }
}

/// The same of a path that begins at a point. One in a box that is far from each part is not walked.
fn path_from(start: Pt, rest: &[Pt], rho: i64, parts: &[Part]) -> Option<Gouge>
    requires start { IsPoint start }
    requires points { ArePoints rest.now }
    requires length { unsigned_abs rho ≤ 2 * 10 ^ 8 }
    requires parts { AreParts parts.now }
    ensures { MatchOption result (guards.IsClearPath rho parts.now (start ∷ rest.now)) (guards.IsGougeOfPath rho parts.now (start ∷ rest.now)) }
{
    if Bounds::of(start, rest).is_far_from(parts, rho) {
        None
    } else {
        onwards(start, rest, rho, parts)
    }
}

/// The same, segment by segment.
fn onwards(start: Pt, rest: &[Pt], rho: i64, parts: &[Part]) -> Option<Gouge>
    requires start { IsPoint start }
    requires points { ArePoints rest.now }
    requires length { unsigned_abs rho ≤ 2 * 10 ^ 8 }
    requires parts { AreParts parts.now }
    ensures { MatchOption result (guards.IsClearPath rho parts.now (start ∷ rest.now)) (guards.IsGougeOfPath rho parts.now (start ∷ rest.now)) }
{
    let mut at = start;
    'points: for (i, q) in rest.iter().enumerate() {
        if let Some(gouge) = segment_gouge(at, *q, rho, parts) {
            return Some(Gouge {
                segment: i as u64 + 1,
                ..gouge
            });
        }
        at = *q;
    }
    None
}

/// The first gouge of a segment, as that of segment 1 of motion 1.
fn segment_gouge(a: Pt, b: Pt, rho: i64, parts: &[Part]) -> Option<Gouge>
    requires a { IsPoint a }
    requires b { IsPoint b }
    requires length { unsigned_abs rho ≤ 2 * 10 ^ 8 }
    requires parts { AreParts parts.now }
    ensures { MatchOption result (IsClearOfAll rho parts.now (segment a b)) (guards.IsGougeOfSegment rho parts.now (segment a b)) }
{
    'parts: for (k, part) in parts.iter().enumerate() {
        if let Some(spot) = part_spot(a, b, rho, part) {
            return Some(Gouge {
                motion: 1,
                segment: 1,
                part: k as u64 + 1,
                spot,
            });
        }
    }
    None
}

/// The first gouge of two lists of motions, the first of `n`, from the first of each.
pub(crate) fn first_of(a: Option<Gouge>, n: u64, b: Option<Gouge>) -> Option<Gouge>
    requires { IfSome b (λ g. n + g.motion < 2 ^ 64) }
    ensures { result ≡ guards.first_of a n b }
{
    match a {
        Some(gouge) => Some(gouge),
        None => match b {
            Some(gouge) => Some(Gouge {
                motion: n + gouge.motion,
                ..gouge
            }),
            None => None,
        },
    }
}
