//! How near the cutter of each contour may come.

ghost use Rattle.std.specs.Prelude.{◌≡◌, ◌≤◌, List, map, pos, ◌≤ℤ◌, IfOk};
ghost use Rattle.apt_words.specs.declared.deed.Step.{Step};
ghost use Rattle.apt_records.specs.Ranges.{AreRecords, IsRecord, IsFromTo};
ghost use Rattle.apt_meaning.specs.Paths.{contours_of};
ghost use Rattle.apt_meaning.specs.Records.{Follows};
ghost use Rattle.apt_outline.specs.Clearances.{IsReach};
ghost use Rattle.apt_outline.specs.Guards.{AreReaches};
ghost use Rattle.apt_outline.specs.Reaches as spec;

use crate::parts::Reach;
use apt_records::{Note, Record};
use std::alloc::{AllocError, Global};

/// The least that INTOL counts as, a grid step.
const GRID_STEP: i64 = 8;

/// The diameter of the cutter and INTOL as records say them last.
#[derive(Clone, Copy)]
pub(crate) struct Cutter {
    diameter: i64,
    intol: i64,
}

/// What is said behind a record more.
fn behind(said: Cutter, r: &Record) -> Cutter
    requires said { spec.IsCutter said }
    requires r { IsRecord r.now }
    ensures value { result ≡ spec.cutter_behind said r.now }
    ensures range { spec.IsCutter result }
{
    match r {
        Record::Note(Note::Cutter(diameter)) => Cutter {
            diameter: *diameter,
            ..said
        },
        Record::Note(Note::Intol(intol)) => Cutter {
            intol: *intol,
            ..said
        },
        _ => said,
    }
}

/// The reach of a contour record, by what is said before it.
fn reach_at(said: Cutter, r: &Record) -> Option<Reach>
    requires { spec.IsCutter said }
    ensures value { result ≡ spec.reach_at said r.now }
{
    match r {
        Record::Contour(_) => Some(Reach {
            r: said.diameter.unsigned_abs().div_ceil(2) as i64,
            i: said.intol.max(GRID_STEP),
        }),
        _ => None,
    }
}

/// For each contour record the radius of the cutter, half its diameter rounded up, and how far it may come into what is
/// not cut: INTOL, which counts as at least a grid step. Both are as the records before it say them last.
pub fn reaches(alloc: Global, records: &[Record]) -> Result<Vec<Reach>, AllocError>
    requires { AreRecords records.now }
    ensures said { IfOk result (λ v. v.items ≡ spec.reaches_of records.now) }
    ensures legs { (steps : List Step) → Follows steps records.now → IfOk result (λ v. v.items ≡ map spec.reach_of (contours_of records.now)) }
    ensures range { IfOk result (λ v. AreReaches v.items) }
{
    let mut reaches = Vec::new(alloc);
    let mut said = Cutter {
        diameter: 0,
        intol: 0,
    };
    'records: for record in records {
        if let Some(reach) = reach_at(said, record) {
            reaches.push(reach)?;
        }
        said = behind(said, record);
    }
    Ok(reaches)
}
