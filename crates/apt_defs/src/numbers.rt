//! The numbers of definitions, in grid units.

ghost use Rattle.std.specs.Prelude.{◌≡◌, ◌^◌, ◌≤◌, unsigned_abs, IfOk};
ghost use Rattle.apt_plane.specs.Ranges.{IsPoint};
ghost use Rattle.apt_scalar.specs.Scalars.{IsScalar};
ghost use Rattle.apt_scalar.specs.StepScalars.{AllScalars};
ghost use Rattle.apt_words.specs.Asks.{listed};
ghost use Rattle.apt_defs.specs.Forms as forms;

use apt_plane::Pt;
use apt_scalar::grid_units;
use apt_words::{Case, Units};

/// The coordinate limit, in grid units.
const REACH: u64 = 50_000_000;

/// The limit of lengths, in grid units.
const LONGEST: u64 = 100_000_000;

/// Whether a coordinate in grid units is within the coordinate limit.
pub fn is_in_reach(g: i64) -> bool
    ensures { result ≡ forms.is_in_reach g }
{
    g.unsigned_abs() <= REACH
}

fn within(limit: u64, g: i64) -> Result<i64, Case>
    ensures value { result ≡ forms.within limit g }
    ensures range { IfOk result (λ v. unsigned_abs v ≤ limit) }
{
    if g.unsigned_abs() <= limit {
        Ok(g)
    } else {
        Err(Case::OutOfRange)
    }
}

/// A coordinate: `OutOfRange` beyond the coordinate limit.
pub fn coordinate(units: Units, v: i64) -> Result<i64, Case>
    requires { IsScalar v }
    ensures value { result ≡ forms.coordinate units v }
    ensures range { IfOk result (λ g. unsigned_abs g ≤ 50000000) }
{
    within(REACH, grid_units(units, v))
}

/// A radius or a distance: `OutOfRange` where it is too long.
pub fn length_by(units: Units, v: i64) -> Result<i64, Case>
    requires { IsScalar v }
    ensures value { result ≡ forms.length_by units v }
    ensures range { IfOk result (λ g. unsigned_abs g ≤ 10 ^ 8) }
{
    within(LONGEST, grid_units(units, v))
}

/// A height, 0 where it is left out.
pub fn height_by(units: Units, z: Option<i64>) -> Result<i64, Case>
    requires { AllScalars (listed z) }
    ensures value { result ≡ forms.height_by units z }
    ensures range { IfOk result (λ g. unsigned_abs g ≤ 50000000) }
{
    match z {
        None => Ok(0),
        Some(z) => coordinate(units, z),
    }
}

/// The point of two coordinates.
pub fn point_by(units: Units, x: i64, y: i64) -> Result<Pt, Case>
    requires x { IsScalar x }
    requires y { IsScalar y }
    ensures value { result ≡ forms.point_by units x y }
    ensures range { IfOk result IsPoint }
{
    let x = coordinate(units, x)?;
    let y = coordinate(units, y)?;
    Ok(Pt { x, y })
}
