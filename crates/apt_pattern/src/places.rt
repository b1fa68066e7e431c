//! Places, and the cases that refuse them.

ghost use Rattle.std.specs.Prelude.{◌≡◌};
ghost use Rattle.apt_words.specs.Asks.{listed, place_numbers};
ghost use Rattle.apt_scalar.specs.Scalars.{IsScalar};
ghost use Rattle.apt_scalar.specs.StepScalars.{AllScalars};
ghost use Rattle.apt_defs.specs.Figures.{Table as TableOf};
ghost use Rattle.apt_pattern.specs.Taking as taking;
ghost use Rattle.apt_pattern.specs.Taking.{IsPlace};

use apt_defs::{Figure, Table, is_in_reach};
use apt_meaning::position_by;
use apt_records::Position;
use apt_words::{Case, Place, Symbol, Units};

/// The point of a name, or the case that refuses the name.
pub(crate) fn point_in(table: &Table, name: &Symbol) -> Result<Position, Case>
    ensures { IsPlace Units.Inch table.now (Place.Named name.now) result }
{
    match table.get(name) {
        None => Err(Case::Undefined),
        Some(Figure::Point { xy, z }) => Ok(Position { xy, z }),
        Some(Figure::Shape(_) | Figure::Scalar) => Err(Case::WrongKind),
    }
}

/// A place, or the first case that refuses it.
pub(crate) fn place_in(units: Units, table: &Table, place: &Place) -> Result<Position, Case>
    requires { AllScalars (place_numbers place.now) }
    ensures { IsPlace units table.now place.now result }
{
    match place {
        Place::Xyz(x, y, z) => place_at(units, *x, *y, *z),
        Place::Named(name) => point_in(table, name),
    }
}

/// A place by its coordinates.
#[tactic(auto, using(crate::proofs::Deciding::at_reached, crate::proofs::Deciding::at_far))]
fn place_at(units: Units, x: i64, y: i64, z: Option<i64>) -> Result<Position, Case>
    requires x { IsScalar x }
    requires y { IsScalar y }
    requires z { AllScalars (listed z) }
    ensures { (table : TableOf) → IsPlace units table (Place.Xyz x y z) result }
{
    let p = position_by(units, x, y, z);
    if is_reached(p) {
        Ok(p)
    } else {
        Err(Case::OutOfRange)
    }
}

/// Whether a position is within the coordinate limit.
fn is_reached(p: Position) -> bool
    ensures { result ≡ taking.is_reached p }
{
    is_in_reach(p.xy.x) && is_in_reach_too(p.xy.y, p.z)
}

fn is_in_reach_too(y: i64, z: i64) -> bool
    ensures { result ≡ taking.are_in_reach y z }
{
    is_in_reach(y) && is_in_reach(z)
}
