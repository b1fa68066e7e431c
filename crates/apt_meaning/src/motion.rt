//! Motions.

ghost use Rattle.std.specs.Prelude.{◌≡◌, ◌^◌, ◌/◌, ◌≤ℤ◌, ◌-ℤ◌, unsigned_abs, false, pos, IfSome};
ghost use Rattle.apt_words.specs.Rows.{NoneHolds};
ghost use Rattle.apt_plane.specs.Ranges.{IsPoint, IsSurface, IsSense};
ghost use Rattle.apt_arc.specs.Ranges.{IsArc};
ghost use Rattle.apt_offset.specs.Ranges.{IsTarget, IsCircleTarget, IsTolerance};
ghost use Rattle.apt_offset.specs.Targets as targets;
ghost use Rattle.apt_offset.specs.Turns as turns;
ghost use Rattle.apt_records.specs.Ranges.{IsPosition};
ghost use Rattle.apt_meaning.specs.Motions as motions;
ghost use Rattle.apt_meaning.specs.Cuts as cuts;
ghost use Rattle.apt_meaning.specs.Ranges.{AreSettings, IsForward, IsAllowance, IsMotion};
ghost use Rattle.apt_meaning.specs.Refusals as refusals;

use crate::Settings;
use apt_arc::Arc;
use apt_num::Sign;
use apt_offset::{Target, band_at, offset_surface, side_at_check, side_at_drive, tangent, turn};
use apt_plane::{Circ, Dir, Pt, Surface};
use apt_records::Position;
use apt_stop::{Course, axis_towards};
use apt_words::{Go, Side, Stop};

/// A grid step, in grid units.
const GRID_STEP: i64 = 8;

/// A contour motion: where it starts, along which drive surface, with the cutter on which side and in which sense
/// (1 along a line's direction or anticlockwise round a circle, -1 the other way), how it stops at which check surface,
/// and with the cutter at which place there; with the cutter's radius and the tolerances inwards and outwards, each at
/// least one grid step, in grid units. All legs of a contour have the place at the check surface of its first start.
#[derive(Clone, Copy)]
pub struct Motion {
    pub start: Position,
    pub drive: Surface,
    pub side: Side,
    pub sense: i8,
    pub check: Surface,
    pub how: Stop,
    pub check_side: Sign,
    pub radius: i64,
    pub inner: i64,
    pub outer: i64,
}

impl Motion {
    /// The motion along a drive surface that runs so against forward.
    #[inline(always)]
    #[tactic(auto, using(crate::proofs::EffectRanges::along_in, crate::proofs::Aside::ends_aside, crate::proofs::Counted::counts_as))]
    pub fn along(
        settings: &Settings,
        start: Position,
        drive: &Surface,
        turned: Sign,
        how: Stop,
        check: &Surface,
    ) -> Motion
        requires settings { AreSettings settings.now }
        requires start { IsPosition start }
        requires drive { IsSurface drive.now }
        requires turned { turns.is_zero turned ≡ false }
        requires check { IsSurface check.now }
        ensures value { result ≡ motions.motion settings.now start drive.now turned how check.now }
        ensures aside { motions.EndsAside result }
        ensures inner { motions.CountsAs settings.now.intol result.inner }
        ensures outer { motions.CountsAs settings.now.outtol result.outer }
        ensures range { IsMotion result }
    {
        Motion::along_value(settings, start, drive, turned, how, check)
    }

    #[inline(always)]
    fn along_value(
        settings: &Settings,
        start: Position,
        drive: &Surface,
        turned: Sign,
        how: Stop,
        check: &Surface,
    ) -> Motion
        requires settings { AreSettings settings.now }
        requires start { IsPosition start }
        requires drive { IsSurface drive.now }
        requires turned { turns.is_zero turned ≡ false }
        requires check { IsSurface check.now }
        ensures { result ≡ motions.motion settings.now start drive.now turned how check.now }
    {
        let sense = sense_of(turned);
        let at_drive = side_at_drive(settings.side, sense);
        Motion {
            start,
            drive: *drive,
            side: settings.side,
            sense,
            check: *check,
            how,
            check_side: side_at_check(check, how, start.xy, drive, at_drive),
            radius: settings.radius,
            inner: allowance(settings.intol),
            outer: allowance(settings.outtol),
        }
    }

    /// The place of the cutter at the drive surface.
    pub fn drive_side(&self) -> Sign
        ensures { result ≡ motions.drive_side self.now }
    {
        side_at_drive(self.side, self.sense)
    }

    /// The motion from another point, with the same stop.
    pub fn onward(&self, from: Pt) -> Motion
        requires motion { IsMotion self.now }
        requires from { IsPoint from }
        ensures value { result ≡ motions.onward self.now from }
        ensures range { IsMotion result }
    {
        Motion {
            start: Position {
                xy: from,
                z: self.start.z,
            },
            ..*self
        }
    }

    /// The curve of the cutter's centre.
    pub fn track(&self) -> Target
        requires { IsMotion self.now }
        ensures value { result ≡ motions.track_of self.now }
        ensures range { targets.lacks_room result ≡ false → IsTarget result }
    {
        offset_surface(&self.drive, self.drive_side(), self.radius)
    }

    /// The curve on which it stops, by the place of the cutter at the check surface.
    #[inline(always)]
    pub fn stop(&self) -> Target
        requires { IsMotion self.now }
        ensures value { result ≡ motions.stop_of self.now }
        ensures range { targets.lacks_room result ≡ false → IsTarget result }
    {
        offset_surface(&self.check, self.check_side, self.radius)
    }

    /// Its course, before it is cut, by its track and its stop.
    #[inline(always)]
    pub fn course(&self, track: Target, stop: Target) -> Course
        requires motion { IsMotion self.now }
        requires track { track ≡ motions.track_of self.now }
        requires track_room { IsTarget track }
        requires stop { stop ≡ motions.stop_of self.now }
        requires stop_room { IsTarget stop }
        ensures value { result ≡ motions.course_of self.now }
        ensures start { IsPoint result.start }
        ensures drive { IsSurface result.drive }
        ensures track { IsTarget result.track }
        ensures sense { IsSense result.sense }
        ensures check { IsSurface result.check }
        ensures stop { IsTarget result.stop }
    {
        Course {
            start: self.start.xy,
            drive: self.drive,
            track,
            sense: self.sense,
            check: self.check,
            how: self.how,
            stop,
        }
    }

    /// The arc along which it runs to its end, where its track is a circle. Where no case refuses the motion, the arc can
    /// be divided.
    #[tactic(auto, using(crate::proofs::Contours::Arcs::arc_in))]
    pub fn arc(&self, end: Pt) -> Option<Arc>
        requires motion { IsMotion self.now }
        requires room { targets.lacks_room (motions.track_of self.now) ≡ false }
        requires end { end ≡ cuts.end_point self.now }
        ensures value { result ≡ cuts.arc_of self.now }
        ensures range { NoneHolds (refusals.motion_cases self.now) → IfSome result IsArc }
    {
        match self.drive {
            Surface::Line(_) => None,
            Surface::Circ(_) => self.arc_to(end),
        }
    }

    fn arc_to(&self, end: Pt) -> Option<Arc>
        requires motion { IsMotion self.now }
        requires room { targets.lacks_room (motions.track_of self.now) ≡ false }
        requires end { end ≡ cuts.end_point self.now }
        ensures { result ≡ cuts.arc_of self.now }
    {
        match self.track() {
            Target::Line { .. } => None,
            Target::Circ { c, r } => Some(self.arc_about(c, r, end)),
        }
    }

    fn arc_about(&self, c: Pt, r: i64, end: Pt) -> Arc
        requires motion { IsMotion self.now }
        requires track { IsCircleTarget c r }
        requires end { end ≡ cuts.end_point self.now }
        ensures { result ≡ cuts.arc_on self.now c r }
    {
        Arc {
            track: Circ { c, r },
            sense: self.sense,
            axis: axis_towards(c, &self.check),
            sag: self.sag(r),
            start: self.start.xy,
            end,
        }
    }

    /// How far chords may lie inside of a track of this radius.
    fn sag(&self, r: i64) -> i64
        requires motion { IsMotion self.now }
        requires least { pos 100 ≤ℤ r }
        requires most { r ≤ℤ pos (10 ^ 8) }
        ensures { result ≡ cuts.sag self.now r }
    {
        lesser(self.inner_margin(r), quarter(r))
    }

    /// How far inside of a track of this radius the drive band reaches.
    fn inner_margin(&self, r: i64) -> i64
        requires motion { IsMotion self.now }
        requires least { pos 100 ≤ℤ r }
        requires most { r ≤ℤ pos (10 ^ 8) }
        ensures { result ≡ r -ℤ (motions.leg_of self.now).band.lo }
    {
        let band = band_at(
            &self.drive,
            self.drive_side(),
            self.radius,
            self.inner,
            self.outer,
        );
        r - band.lo
    }
}

/// A quarter of a length.
fn quarter(r: i64) -> i64
    requires { pos 0 ≤ℤ r }
    ensures { result ≡ pos (unsigned_abs r / 4) }
{
    (r.unsigned_abs() / 4) as i64
}

/// How a drive surface runs at the start against forward.
pub fn turn_at(forward: Dir, start: Position, drive: &Surface, go: Go) -> Sign
    requires forward { IsForward forward }
    requires start { IsPosition start }
    requires drive { IsSurface drive.now }
    ensures { result ≡ turns.turn forward (turns.tangent drive.now start.xy) go }
{
    let along = tangent(drive, start.xy);
    turn(forward, along, go)
}

/// Whether both tolerances are below a grid step.
pub fn is_too_fine(settings: &Settings) -> bool
    ensures { result ≡ refusals.is_too_fine settings.now }
{
    settings.intol < GRID_STEP && settings.outtol < GRID_STEP
}

/// The sense of a motion: 1 along a line's direction or anticlockwise round a circle, -1 the other way.
fn sense_of(turned: Sign) -> i8
    requires { turns.is_zero turned ≡ false }
    ensures value { result ≡ targets.signed turned (pos 1) }
    ensures range { IsSense result }
{
    match turned {
        Sign::Plus => 1,
        Sign::Zero => 0,
        Sign::Minus => -1,
    }
}

/// A tolerance counts as at least a grid step.
fn allowance(tolerance: i64) -> i64
    requires { IsTolerance tolerance }
    ensures value { result ≡ targets.greater tolerance motions.grid_step }
    ensures range { IsAllowance result }
{
    if tolerance <= GRID_STEP {
        GRID_STEP
    } else {
        tolerance
    }
}

fn lesser(a: i64, b: i64) -> i64
    ensures { result ≡ cuts.lesser a b }
{
    if a <= b { a } else { b }
}
