//! Where a course ends that touches its check surface.

ghost use Rattle.std.specs.Prelude.{◌≡◌, ◌≢◌, pos, if◌then◌else◌, Ok, Err};
ghost use Rattle.apt_canon.specs.Scale as scale;
ghost use Rattle.apt_plane.specs.Ranges.{IsDir};
ghost use Rattle.apt_offset.specs.Ranges.{IsTarget};
ghost use Rattle.apt_offset.specs.Targets as moving;
ghost use Rattle.apt_stop.specs.Choices as choices;
ghost use Rattle.apt_stop.specs.Steps.{IsPlaced, IsAxis, HasHalf};

use crate::course::Course;
use crate::sides::{cross_short, dot_short, is_by_axis, is_not_ahead, is_same, way_on_to};
use apt_canon::{foot, ray};
use apt_num::{Sign, sign_of};
use apt_offset::Target;
use apt_plane::vectors::{displacement, length_squared_of};
use apt_plane::{Axis, Circ, Dir, Line, Moved, Pt};
use apt_words::Case;

/// Whether the axis on which a course touches lies behind it.
pub(crate) fn is_past_axis(c: &Course, axis: &Axis) -> bool
    requires course { IsPlaced c.now }
    requires axis { IsAxis axis.now }
    ensures { result ≡ choices.is_past_axis c.now c.now.track axis.now }
{
    match &c.track {
        Target::Line { dir, .. } => {
            is_not_ahead(way_on_to(c, *dir, axis.through), length_squared_of(*dir))
        }
        Target::Circ { .. } => {
            let way = displacement(axis.through, c.start);
            is_by_axis(cross_short(axis.along, way), length_squared_of(axis.along))
                && is_same(axis.half, sign_of(dot_short(axis.along, way)))
        }
    }
}

/// The point of a target, rounded to the grid, on an axis.
///
/// # Errors
///
/// `OutOfRange` where it leaves the coordinate limit.
pub(crate) fn touch_point(track: &Target, axis: &Axis) -> Result<Pt, Case>
    requires track { IsTarget track.now }
    requires axis { IsAxis axis.now }
    requires half { HasHalf track.now axis.now }
    ensures { result ≡ if scale.is_in_range (choices.touches_on track.now axis.now) then Ok (choices.touches_on track.now axis.now) else Err Case.OutOfRange }
{
    let point = match *track {
        Target::Line { base, dir, off } => {
            let line = Line { base, dir };
            foot(axis.through, &Moved { line, off })
        }
        Target::Circ { c, r } => ray(&Circ { c, r }, half_of(axis)),
    };
    match point {
        Ok(point) => Ok(point),
        Err(_) => Err(Case::OutOfRange),
    }
}

/// The direction of an axis towards its half.
fn half_of(axis: &Axis) -> Dir
    requires along { IsDir axis.now.along }
    requires half { axis.now.half ≢ Sign.Zero }
    ensures value { result ≡ scale.times (moving.signed axis.now.half (pos 1)) axis.now.along }
    ensures dir { IsDir result }
{
    let Dir { dx, dy } = axis.along;
    match axis.half {
        Sign::Plus => axis.along,
        Sign::Zero => Dir { dx: 0, dy: 0 },
        Sign::Minus => Dir { dx: -dx, dy: -dy },
    }
}
