//! The vertices of divided arcs in their contours.

ghost use Rattle.std.specs.Prelude.{◌≡◌};
ghost use Rattle.apt_motion.specs.Drafts as drafts;

use crate::arcs::Cut;
use apt_records::Record;
use std::collections::VecDeque;

/// Whether a record is a contour that is still to be divided.
pub(crate) fn is_open(r: &Record) -> bool
    ensures { result ≡ drafts.is_open r.now }
{
    match r {
        Record::Contour(vertices) => vertices.all().len() == 0,
        _ => false,
    }
}

/// Gives each contour that is to be divided the next of these vertices. There is nothing to do where none is.
#[tactic(auto, using(crate::proofs::Drafted::filled_by_none))]
pub(crate) fn fill(records: &mut Vec<Record>, cuts: Vec<Cut>)
    ensures { records.new.items ≡ drafts.filled records.old.items cuts.items }
{
    if cuts.is_empty() {
        return;
    }
    let mut left = VecDeque::from_vec(cuts);
    for record in records.iter_mut() {
        give(record, &mut left);
    }
}

/// Gives a contour that is to be divided the first of the vertices that are left.
fn give(r: &mut Record, left: &mut VecDeque<Cut>)
    ensures given { r.new ≡ drafts.given r.old left.old.items }
    ensures left { left.new.items ≡ drafts.cuts_behind r.old left.old.items }
{
    if is_open(r) {
        if let Some(cut) = left.pop_front() {
            *r = Record::Contour(cut.vertices());
        }
    }
}
