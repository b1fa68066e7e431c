//! How many acts records ask for on a machine that cuts arcs.

ghost use Rattle.std.specs.Prelude.{◌≡◌, ◌+◌, ◌<◌, ◌^◌, length};
ghost use Rattle.apt_records.specs.Ranges.{vertex_count};
ghost use Rattle.apt_post.specs.Plan.{segments};
ghost use Rattle.apt_circular.specs.ArcPlan as plans;

use crate::planning::Coming;
use apt_post::{Counts, act_count, segment_count};
use apt_records::Record;

/// A contour round a circle has one act, however many its vertices are.
#[tactic(auto, using(crate::proofs::HowMany::plain_many))]
fn arc_count(c: Coming, r: &Record) -> usize
    ensures { result ≡ length (plans.record_arcs c r.now) }
{
    match (r, c.turning()) {
        (Record::Contour(vertices), Some(_)) => vertices.all().len().min(1),
        _ => act_count(c.pending, r),
    }
}

/// How many acts records ask for on a machine that cuts arcs, and how many contour segments they have.
#[tactic(auto, using(crate::proofs::HowMany::arcs_more, crate::proofs::HowMany::arcs_few, apt_post::proofs::HowMany::segments_few))]
pub fn arc_counts(records: &[Record]) -> Counts
    requires few { vertex_count records.now + length records.now < 2 ^ 62 }
    ensures acts { result.acts ≡ length (plans.plan_arcs records.now) }
    ensures segments { result.segments ≡ segments records.now }
{
    let mut coming = Coming::nothing();
    let mut acts = 1;
    let mut segments = 0;
    'records: for record in records {
        acts += arc_count(coming, record) as u64;
        segments += segment_count(record) as u64;
        coming = coming.behind(record);
    }
    Counts { acts, segments }
}
