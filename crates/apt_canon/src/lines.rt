//! The point in which two lines meet.

ghost use Rattle.std.specs.Prelude.{◌≡◌, ◌≢◌, ◌↔◌, ◌*◌, ◌+◌, ◌^◌, ◌≤◌, ◌<◌, pos, ◌+ℤ◌, ◌-ℤ◌, ◌*ℤ◌, unsigned_abs, IfOk, IsErrOf};
ghost use Rattle.apt_plane.specs.Vectors as vectors;
ghost use Rattle.apt_plane.specs.Ranges.{IsPoint, IsLine, IsMoved};
ghost use Rattle.apt_canon.specs.Scale.{IsNearLine};
ghost use Rattle.apt_canon.specs.Meeting as meeting;
ghost use Rattle.apt_canon.specs.Scale as scale;

use crate::FormFault;
use crate::scale::{UNIT, Wide, in_range, length_of, shifted, times};
use apt_plane::vectors::{cross_of, height};
use apt_plane::{Line, Moved, Pt};

/// The point, rounded to the grid, in which two moved lines meet.
///
/// # Errors
///
/// `NoMeeting` where they are parallel, `OutOfRange` where the point leaves the coordinate limit.
pub fn line_line(a: &Moved, b: &Moved) -> Result<Pt, FormFault>
    requires a { IsMoved a.now }
    requires b { IsMoved b.now }
    ensures value { result ≡ meeting.line_line a.now.line a.now.off b.now.line b.now.off }
    ensures parallel { IsErrOf result FormFault.NoMeeting ↔ (vectors.cross a.now.line.dir b.now.line.dir ≡ pos 0) }
    ensures in_range { IfOk result (λ p. IsPoint p) }
    ensures on_a { IfOk result (λ p. IsNearLine a.now.line a.now.off (pos 1) p) }
    ensures on_b { IfOk result (λ p. IsNearLine b.now.line b.now.off (pos 1) p) }
{
    line_line_value(&a.line, a.off, &b.line, b.off)
}

/// The same point of two lines that meet, in range or not.
pub fn line_line_point(a: &Moved, b: &Moved) -> Wide
    requires a { IsMoved a.now }
    requires b { IsMoved b.now }
    requires apart { vectors.cross a.now.line.dir b.now.line.dir ≢ pos 0 }
    ensures x { result.x ≡ (meeting.meeting_point a.now.line a.now.off b.now.line b.now.off).x }
    ensures y { result.y ≡ (meeting.meeting_point a.now.line a.now.off b.now.line b.now.off).y }
    ensures on_a { IsNearLine a.now.line a.now.off (pos 1) (record { x = result.x; y = result.y }) }
    ensures on_b { IsNearLine b.now.line b.now.off (pos 1) (record { x = result.x; y = result.y }) }
{
    let turn = cross_of(a.line.dir, b.line.dir);
    meeting_point(&a.line, a.off, &b.line, b.off, turn)
}

fn line_line_value(a: &Line, ha: i64, b: &Line, hb: i64) -> Result<Pt, FormFault>
    requires a { IsLine a.now }
    requires b { IsLine b.now }
    requires ha { unsigned_abs ha ≤ 10 ^ 8 }
    requires hb { unsigned_abs hb ≤ 10 ^ 8 }
    ensures { result ≡ meeting.line_line a.now ha b.now hb }
{
    let turn = cross_of(a.dir, b.dir);
    if turn == 0 {
        return Err(FormFault::NoMeeting);
    }
    in_range(meeting_point(a, ha, b, hb, turn))
}

fn meeting_point(a: &Line, ha: i64, b: &Line, hb: i64, turn: i128) -> Wide
    requires a { IsLine a.now }
    requires b { IsLine b.now }
    requires ha { unsigned_abs ha ≤ 10 ^ 8 }
    requires hb { unsigned_abs hb ≤ 10 ^ 8 }
    requires turn { turn ≡ vectors.cross a.now.dir b.now.dir }
    requires turn_small { unsigned_abs turn ≤ 2 * 10 ^ 16 }
    requires not_zero { turn ≢ pos 0 }
    ensures x { result.x ≡ (meeting.meeting_point a.now ha b.now hb).x }
    ensures y { result.y ≡ (meeting.meeting_point a.now ha b.now hb).y }
{
    let displacement = meeting_displacement(a, ha, b, hb);
    let divisor = turn * UNIT;
    Wide {
        x: shifted(a.base.x, displacement.x, divisor),
        y: shifted(a.base.y, displacement.y, divisor),
    }
}

fn meeting_displacement(a: &Line, ha: i64, b: &Line, hb: i64) -> Wide
    requires a { IsLine a.now }
    requires b { IsLine b.now }
    requires ha { unsigned_abs ha ≤ 10 ^ 8 }
    requires hb { unsigned_abs hb ≤ 10 ^ 8 }
    ensures x { result.x ≡ (meeting.meeting_displacement a.now ha b.now hb).dx }
    ensures y { result.y ≡ (meeting.meeting_displacement a.now ha b.now hb).dy }
    ensures x_small { unsigned_abs result.x ≤ 2 ^ 119 }
    ensures y_small { unsigned_abs result.y ≤ 2 ^ 119 }
{
    let first = times(ha, length_of(a.dir));
    let second = height_from(hb, length_of(b.dir), height(b.base, b.dir, a.base));
    Wide {
        x: product_difference(b.dir.dx, first, a.dir.dx, second),
        y: product_difference(b.dir.dy, first, a.dir.dy, second),
    }
}

/// The height of a moved line, from a point whose own height is `cross`.
fn height_from(offset: i64, length: i128, cross: i128) -> i128
    requires offset { unsigned_abs offset ≤ 10 ^ 8 }
    requires length { unsigned_abs length < 2 ^ 63 }
    requires cross { unsigned_abs cross ≤ 2 * 10 ^ 16 }
    ensures value { result ≡ (offset *ℤ length) -ℤ (cross *ℤ scale.unit) }
    ensures small { unsigned_abs result ≤ 2 ^ 91 }
{
    times(offset, length) - cross * UNIT
}

pub(crate) fn product_difference(a: i64, b: i128, c: i64, d: i128) -> i128
    requires a { unsigned_abs a ≤ 10 ^ 8 }
    requires b { unsigned_abs b ≤ 2 ^ 91 }
    requires c { unsigned_abs c ≤ 10 ^ 8 }
    requires d { unsigned_abs d ≤ 2 ^ 91 }
    ensures value { result ≡ (a *ℤ b) -ℤ (c *ℤ d) }
    ensures small { unsigned_abs result ≤ 10 ^ 8 * (unsigned_abs b + unsigned_abs d) }
{
    times(a, b) - times(c, d)
}
