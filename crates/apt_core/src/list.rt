//! The command `list`.

ghost use Rattle.std.specs.Prelude.{◌≡◌, ℕ, List, Ok, MatchResult};
ghost use Rattle.apt_cldata.specs.Reading.{read_of};
ghost use Rattle.apt_core.specs.Decoding.{said_of, IsSaid};
ghost use Rattle.apt_core.specs.Due.{ComesToNone, records_due};
ghost use Rattle.apt_core.specs.Listing.{listed_due};
ghost use Rattle.apt_core.specs.Inputs.{files_on};
ghost use Rattle.apt_core.specs.Promise.{Lists};

use crate::put::Reply;
use crate::reading::records_input;
use apt_records::Record;
use apt_report::{PointLines, Status, Summary, listing};
use apt_shelf::Shelf;
use std::alloc::Global;

/// Reads a CL file, and gives its points.
pub(crate) fn list<H: Shelf>(alloc: Global, shelf: &mut H, name: &str) -> Result<Reply, Status>
    ensures { Lists name.now (files_on H.Shelf shelf.old) (files_on H.Shelf shelf.new) (said_of result) }
{
    let records = records_input(alloc, shelf, name)?;
    list_records(alloc, records)
}

/// The points of a CL file's records, each with its line, or the answer where it is none.
fn list_records(alloc: Global, records: Result<Vec<Record>, Status>) -> Result<Reply, Status>
    ensures { (cl : List ℕ) → MatchResult records (λ r. read_of cl ≡ Ok r.items) (ComesToNone (records_due cl)) → IsSaid (said_of (listed_due cl)) (said_of result) }
{
    let records = records?;
    let PointLines { text, points } = listing(alloc, &records)?;
    Ok(Reply {
        status: Status::Done(Summary::Listed { points }),
        lines: Some(text),
    })
}
