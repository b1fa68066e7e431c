//! Drill cycles, and the places of a hole.

ghost use Rattle.std.specs.Prelude.{◌≡◌, ◌≤◌, unsigned_abs};
ghost use Rattle.apt_pattern.specs.Patterns as spec;
ghost use Rattle.apt_pattern.specs.Ranges.{IsCycle};

use apt_records::Position;
use apt_words::{Deed, Units};

/// How holes are drilled, in grid units: so deep below a point, from so far above it.
#[derive(Clone, Copy)]
pub struct Cycle {
    pub depth: i64,
    pub clearance: i64,
}

/// So many grid units in millionths.
fn scalar_of(units: Units, g: i64) -> i64
    requires { unsigned_abs g ≤ 200000000 }
    ensures { result ≡ spec.scalar_of units g }
{
    match units {
        Units::Inch => g * 10,
        Units::Mm => g * 100,
    }
}

/// GOTO a position.
pub(crate) fn goto(units: Units, p: Position) -> Deed
    requires x { unsigned_abs p.xy.x ≤ 200000000 }
    requires y { unsigned_abs p.xy.y ≤ 200000000 }
    requires z { unsigned_abs p.z ≤ 200000000 }
    ensures { result ≡ spec.goto units p }
{
    Deed::GotoXy(
        scalar_of(units, p.xy.x),
        scalar_of(units, p.xy.y),
        Some(scalar_of(units, p.z)),
    )
}

/// Above a point, from where a hole is drilled.
pub(crate) fn above(cycle: Cycle, p: Position) -> Position
    requires cycle { IsCycle cycle }
    requires z { unsigned_abs p.z ≤ 150000000 }
    ensures value { result ≡ spec.above cycle p }
    ensures z { unsigned_abs result.z ≤ 151000000 }
{
    Position {
        xy: p.xy,
        z: p.z + cycle.clearance,
    }
}

/// The bottom of its hole.
pub(crate) fn bottom(cycle: Cycle, p: Position) -> Position
    requires cycle { IsCycle cycle }
    requires z { unsigned_abs p.z ≤ 150000000 }
    ensures value { result ≡ spec.bottom cycle p }
    ensures z { unsigned_abs result.z ≤ 151000000 }
{
    Position {
        xy: p.xy,
        z: p.z - cycle.depth,
    }
}
