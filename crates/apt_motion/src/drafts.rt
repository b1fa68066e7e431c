//! What steps leave to be divided: the arcs of contours round circles.

ghost use Rattle.std.specs.Prelude.{◌≡◌, ◌++◌, [], ◌∷◌, List, map, OnOk, IfOk};
ghost use Rattle.apt_words.specs.Rows.{NoneHolds};
ghost use Rattle.apt_meaning.specs.Cuts.{arc_of, end_point};
ghost use Rattle.apt_meaning.specs.Ranges.{IsMotion};
ghost use Rattle.apt_meaning.specs.Refusals.{motion_cases};
ghost use Rattle.apt_records.specs.Vertices.{at_height};
ghost use Rattle.apt_records.specs.declared.record.Record.{Record};
ghost use Rattle.apt_motion.specs.Drafts as drafts;

use crate::arcs::Round;
use apt_meaning::Motion;
use apt_plane::Pt;
use apt_records::{Position, Record, Vertices};
use std::alloc::{AllocError, Global};

/// A contour has so many records, and no step has more.
pub(crate) const MOST_RECORDS: usize = 5;

/// The contours of a program have so many vertices at most.
pub(crate) const MOST_POINTS: u64 = 500_000;

/// The records of steps, in which a contour round a circle has no vertices yet, and the arcs of these contours, in order;
/// and how many vertices more a program may have than its records, where it may have those.
#[derive(Drop)]
pub(crate) struct Draft {
    pub records: Vec<Record>,
    pub rounds: Vec<Round>,
    pub room: Option<u64>,
    pub alloc: Global,
}

impl Draft {
    /// No records yet, and room for those of so many steps.
    pub fn blank(alloc: Global, steps: usize) -> Result<Draft, AllocError>
        ensures records { IfOk result (λ draft. draft.records.items ≡ []) }
        ensures rounds { IfOk result (λ draft. draft.rounds.items ≡ []) }
        ensures room { IfOk result (λ draft. drafts.HasRoom draft.records.items draft.room) }
    {
        Ok(Draft {
            records: Vec::with_capacity(alloc, steps.saturating_mul(MOST_RECORDS))?,
            rounds: Vec::new(alloc),
            room: Some(MOST_POINTS),
            alloc,
        })
    }
}

/// The room that is left behind a record.
#[inline(always)]
pub(crate) fn room_behind(room: Option<u64>, r: &Record) -> Option<u64>
    ensures { (before : List Record) → drafts.HasRoom before room → drafts.HasRoom (before ++ r.now ∷ []) result }
{
    room?.checked_sub(known(r))
}

/// The vertices that a record has.
pub(crate) fn known(r: &Record) -> u64
    ensures { result ≡ drafts.known r.now }
{
    match r {
        Record::Contour(vertices) => vertices.all().len() as u64,
        _ => 0,
    }
}

/// The vertices of a leg that are known at once: its end along a line, and none round a circle, whose arc goes behind the
/// others.
#[inline(always)]
pub(crate) fn draw(
    alloc: Global,
    rounds: &mut Vec<Round>,
    motion: &Motion,
    end: Pt,
) -> Result<Vertices, AllocError>
    requires motion { IsMotion motion.now }
    requires none { NoneHolds (motion_cases motion.now) }
    requires end { end ≡ end_point motion.now }
    ensures vertices { IfOk result (λ vs. vs ≡ map (at_height motion.now.start.z) (drafts.drawn_on motion.now)) }
    ensures rounds { OnOk result (rounds.new.items ≡ rounds.old.items ++ drafts.rounds_by motion.now.start.z (arc_of motion.now)) }
{
    let z = motion.start.z;
    match motion.arc(end) {
        None => Ok(Vertices::one(Position { xy: end, z })),
        Some(arc) => {
            rounds.push(Round { arc, z })?;
            Ok(Vertices::level(z, Vec::new(alloc)))
        }
    }
}
