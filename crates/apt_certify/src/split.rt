//! The judge of jobs, by halves of halves of their list in threads of their own.

ghost use Rattle.std.specs.Prelude.{◌≡◌, ◌↔◌, ◌<◌, ◌+◌, ◌^◌, ◌++◌, length, IsNone};
ghost use Rattle.std.specs.Thread.{IsSync};
ghost use Rattle.apt_certify.specs.declared.verdict.Verdict.{Verdict};
ghost use Rattle.apt_certify.specs.Jobs.{AreJobs, point_count, AreLegal};
ghost use Rattle.apt_certify.specs.Verdicts.{IsVerdict};

use crate::gate::Gate;
use crate::judge::{check_from, merged};
use crate::leg::Job;
use crate::verdict::Verdict;
use std::thread::{Threads, join};

/// How often a list is halved at most, so there are at most 8 threads.
const HALVINGS: u8 = 3;

/// The verdict of `check_jobs`, by halves of halves of the list in threads of their own. The gate is told of each job, by
/// its number from 1, before it is judged.
#[tactic(auto, using(crate::proofs::Single::only_verdict, crate::proofs::Halves::none_where_legal))]
pub fn check_jobs_split<G: Gate>(rt: &(impl Threads + Sync), jobs: &[Job], gate: &G) -> Verdict
    requires jobs { AreJobs jobs.now }
    requires few { point_count jobs.now < 2 ^ 63 }
    ensures verdict { IsVerdict jobs.now result }
    ensures only { (v : Verdict) → IsVerdict jobs.now v → v ≡ result }
    ensures legal { IsNone result.first_bad ↔ AreLegal jobs.now }
{
    check_halves(rt, jobs, 1, HALVINGS, gate)
}

/// The verdict over jobs of which the first has this number, from halves of their list that are halved so often at
/// most.
#[cycle(halves)]
#[tactic(auto, using(crate::proofs::Halves::segments_few, crate::proofs::Halves::bad_fits))]
fn check_halves<R: Threads + Sync, G: Gate>(
    rt: &R,
    jobs: &[Job],
    first: u64,
    depth: u8,
    gate: &G,
) -> Verdict
    requires jobs { AreJobs jobs.now }
    requires few { point_count jobs.now < 2 ^ 63 }
    requires numbers { first + length jobs.now < 2 ^ 64 }
    ensures { IsVerdict jobs.now result }
{
    if depth == 0 || jobs.len() < 2 {
        return check_from(jobs, first, gate);
    }
    let (left, right) = halves(jobs);
    let second = first + left.len() as u64;
    let (a, b) = join(
        rt,
        || -> Verdict
            requires { IsSync R.row × IsSync G.row × AreJobs left.now × (point_count left.now < 2 ^ 63) × (first + length left.now < 2 ^ 64) × (0 < depth) }
            ensures { IsVerdict left.entry.now result }
        { check_halves(rt, left, first, depth - 1, gate) },
        || -> Verdict
            requires { IsSync R.row × IsSync G.row × AreJobs right.now × (point_count right.now < 2 ^ 63) × (second + length right.now < 2 ^ 64) × (0 < depth) }
            ensures { IsVerdict right.entry.now result }
        { check_halves(rt, right, second, depth - 1, gate) },
    );
    merged(a, left.len() as u64, b)
}

/// The two halves of a list.
#[tactic(auto, using(crate::proofs::Halves::jobs_front, crate::proofs::Halves::jobs_back, crate::proofs::Halves::points_parts))]
fn halves(jobs: &[Job]) -> (&[Job], &[Job])
    requires jobs { AreJobs jobs.now }
    requires few { point_count jobs.now < 2 ^ 63 }
    ensures front { AreJobs result.0.now }
    ensures back { AreJobs result.1.now }
    ensures whole { jobs.now ≡ result.0.now ++ result.1.now }
    ensures lengths { length result.0.now + length result.1.now ≡ length jobs.now }
    ensures points { point_count result.0.now + point_count result.1.now < 2 ^ 63 }
{
    jobs.split_at(jobs.len() / 2)
}
