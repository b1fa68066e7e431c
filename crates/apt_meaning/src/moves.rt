//! Positions by scalars, and what holds behind moves and contours.

ghost use Rattle.std.specs.Prelude.{◌≡◌, ◌≤◌, ◌+ℤ◌, [], Some, unsigned_abs};
ghost use Rattle.apt_scalar.specs.Scalars.{IsScalar, grid_units};
ghost use Rattle.apt_scalar.specs.StepScalars.{AllScalars};
ghost use Rattle.apt_words.specs.Asks.{listed};
ghost use Rattle.apt_plane.specs.Ranges.{IsPoint};
ghost use Rattle.apt_records.specs.Ranges.{IsPosition};
ghost use Rattle.apt_meaning.specs.Effects as asking;
ghost use Rattle.apt_meaning.specs.Ranges.{IsSituation, IsMotion, IsPositionOrNone};
ghost use Rattle.apt_meaning.specs.Records as written;
ghost use Rattle.apt_meaning.specs.Situations as situations;
ghost use Rattle.apt_meaning.specs.declared.effect.Effect.TheVariants as effects;

use crate::{Motion, Situation};
use apt_offset::tangent;
use apt_plane::vectors::{displacement, length_squared};
use apt_plane::{Dir, Pt};
use apt_records::{Position, Reach};
use apt_scalar::grid_units;
use apt_stop::heading;
use apt_words::Units;

/// A position by scalars; the height is 0 where it is left out.
pub fn position_by(units: Units, x: i64, y: i64, z: Option<i64>) -> Position
    requires x { IsScalar x }
    requires y { IsScalar y }
    requires z { AllScalars (listed z) }
    ensures { result ≡ asking.position_by units x y z }
{
    Position {
        xy: Pt {
            x: grid_units(units, x),
            y: grid_units(units, y),
        },
        z: height(units, z),
    }
}

/// The height is 0 where it is left out.
fn height(units: Units, z: Option<i64>) -> i64
    requires { AllScalars (listed z) }
    ensures { result ≡ asking.height_by units z }
{
    match z {
        None => 0,
        Some(z) => grid_units(units, z),
    }
}

/// A position moved by three scalars.
pub fn moved_by(units: Units, x: i64, y: i64, z: i64, from: Position) -> Position
    requires x { IsScalar x }
    requires y { IsScalar y }
    requires z { IsScalar z }
    requires from { IsPosition from }
    ensures { result ≡ asking.moved_by units x y z from }
{
    Position {
        xy: Pt {
            x: coordinate_moved(units, x, from.xy.x),
            y: coordinate_moved(units, y, from.xy.y),
        },
        z: coordinate_moved(units, z, from.z),
    }
}

#[tactic(auto, using(crate::proofs::EffectRanges::grid_units_small))]
fn coordinate_moved(units: Units, by: i64, from: i64) -> i64
    requires by { IsScalar by }
    requires from { unsigned_abs from ≤ 50000000 }
    ensures { result ≡ from +ℤ grid_units units by }
{
    from + grid_units(units, by)
}

impl Situation {
    /// A position is reached.
    pub fn go_to(&mut self, reach: Reach, to: Position)
        requires situation { IsSituation self.old }
        requires to { IsPosition to }
        ensures { self.new ≡ written.after self.old (effects.Moves reach to) [] }
    {
        self.forward = forward_behind(self.position, to.xy, self.forward);
        self.settings.reach(reach);
        self.position = Some(to);
    }

    /// A contour is cut that ends at a point.
    pub fn cut_to(&mut self, motion: &Motion, end: Pt)
        requires motion { IsMotion motion.now }
        requires end { IsPoint end }
        ensures after { self.new ≡ written.cut_at self.old motion.now end }
        ensures onwards { written.LeadsOn motion.now end self.new.forward }
        ensures same_drive { written.GoesOn motion.now end self.new.forward }
    {
        self.forward = heading(motion.sense, tangent(&motion.drive, end));
        self.settings.side = motion.side;
        self.position = Some(Position {
            xy: end,
            z: motion.start.z,
        });
    }
}

/// Forward after a move.
fn forward_behind(from: Option<Position>, to: Pt, forward: Dir) -> Dir
    requires from { IsPositionOrNone from }
    requires to { IsPoint to }
    ensures { result ≡ situations.forward_behind from to forward }
{
    match from {
        None => forward,
        Some(from) => forward_from(from, to, forward),
    }
}

fn forward_from(from: Position, to: Pt, forward: Dir) -> Dir
    requires from { IsPosition from }
    requires to { IsPoint to }
    ensures { result ≡ situations.forward_behind (Some from) to forward }
{
    let along = displacement(from.xy, to);
    if length_squared(along) == 0 {
        forward
    } else {
        along
    }
}
