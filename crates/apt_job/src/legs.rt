//! The jobs of motions.

ghost use Rattle.std.specs.Prelude.{◌≡◌, ◌∷◌, ◌++◌, [], true, false, IfOk, OnOk, IfSome};
ghost use Rattle.apt_plane.specs.Ranges.{IsPoint, IsSurface, IsSense};
ghost use Rattle.apt_offset.specs.Ranges.{IsTarget};
ghost use Rattle.apt_stop.specs.Courses.{axis_of};
ghost use Rattle.apt_certify.specs.Jobs.{ArePoints};
ghost use Rattle.apt_certify.specs.Legal.{last_of};
ghost use Rattle.apt_certify.specs.Legs as legs;
ghost use Rattle.apt_meaning.specs.Motions as motions;
ghost use Rattle.apt_meaning.specs.Ranges.{IsMotion, HasMotion};
ghost use Rattle.apt_job.specs.Jobs as spec;
ghost use Rattle.apt_job.specs.Fronts.{points_at};
ghost use Rattle.apt_job.specs.Jobs.{AreSides, HasSides};

use apt_certify::{Job, Leg, Points};
use apt_meaning::{Effect, Motion};
use apt_num::Sign;
use apt_offset::signs::{is_zero, opposite};
use apt_offset::{band_at, is_on_check, lacks_room};
use apt_plane::{Axis, Pt, Surface};
use apt_records::VertexSlice;
use apt_stop::{Course, axis, kept_side};
use std::alloc::{AllocError, Global};

/// Whether the track of a motion is there, and where it is, whether the stop is; where both are, the side of the stop on
/// which the motion runs, and the axis on which it ends where it touches.
#[derive(Clone, Copy)]
pub(crate) struct Sides {
    pub has_track: bool,
    pub has_stop: bool,
    pub stop: Sign,
    pub axis: Option<Axis>,
}

#[tactic(auto, using(crate::proofs::Ranges::no_track, crate::proofs::Ranges::no_stop, crate::proofs::Ranges::stop_there))]
fn sides_of(m: &Motion) -> Sides
    requires { IsMotion m.now }
    ensures { AreSides m.now result }
{
    let track = m.track();
    if lacks_room(&track) {
        return unbounded(false);
    }
    let stop = m.stop();
    if is_on_check(m.how, m.check_side) || lacks_room(&stop) {
        return unbounded(true);
    }
    bounds(&m.course(track, stop))
}

/// The sides of a motion without a stop.
fn unbounded(has_track: bool) -> Sides
    ensures { result ≡ spec.unbounded has_track }
{
    Sides {
        has_track,
        has_stop: false,
        stop: Sign::Zero,
        axis: None,
    }
}

/// The sides of a motion, by its course.
fn bounds(course: &Course) -> Sides
    requires start { IsPoint course.now.start }
    requires drive { IsSurface course.now.drive }
    requires track { IsTarget course.now.track }
    requires sense { IsSense course.now.sense }
    requires check { IsSurface course.now.check }
    requires stop { IsTarget course.now.stop }
    ensures { result ≡ spec.bounded course.now }
{
    let stop = kept_side(course);
    let axis = axis(course);
    Sides {
        has_track: true,
        has_stop: !is_zero(stop) || axis.is_some(),
        stop,
        axis,
    }
}

/// Those of the motion of an effect; an effect that is no contour has none.
pub(crate) fn effect_sides(effect: &Option<Effect>) -> Sides
    requires { IfSome effect.now HasMotion }
    ensures { IfSome effect.now (HasSides result) }
{
    match effect {
        Some(Effect::Cuts(m, _)) => sides_of(m),
        Some(Effect::Defines(..) | Effect::Sets(..) | Effect::Moves(..)) | None => {
            unbounded(false)
        }
    }
}

/// The edge of the stop that a leg must not pass, by the side of the stop on which it runs.
fn beyond(m: &Motion, side: Sign) -> Sign
    ensures { result ≡ legs.beyond_of m.now.check side }
{
    match m.check {
        Surface::Line(_) => opposite(side),
        Surface::Circ(_) => side,
    }
}

fn leg_on(m: &Motion, side: Sign, touching: Option<Axis>) -> Leg
    requires motion { IsMotion m.now }
    requires touching { touching ≡ axis_of (motions.course_of m.now) }
    ensures { result ≡ motions.leg_on m.now side }
{
    Leg {
        drive: m.drive,
        track: m.track(),
        band: band_at(&m.drive, m.drive_side(), m.radius, m.inner, m.outer),
        check: m.check,
        stop_band: band_at(&m.check, m.check_side, m.radius, m.inner, m.outer),
        beyond: beyond(m, side),
        sense: m.sense,
        axis: touching,
    }
}

/// 1 where outside is further to a line's left or further from a circle's centre, else -1.
fn out_sign_at(surface: &Surface, side: Sign) -> i8
    ensures { result ≡ spec.out_sign_at surface.now side }
{
    match (surface, side) {
        (Surface::Line(_), Sign::Plus | Sign::Zero) => 1,
        (Surface::Line(_), Sign::Minus) => -1,
        (Surface::Circ(_), Sign::Plus) => -1,
        (Surface::Circ(_), Sign::Zero | Sign::Minus) => 1,
    }
}

/// The start and the points of the vertices behind it.
fn points(alloc: Global, start: Pt, behind: &VertexSlice<'_>) -> Result<Points, AllocError>
    ensures { IfOk result (λ ps. ps ≡ start ∷ points_at behind.now) }
{
    match behind.split_first() {
        Some((end, rest)) if rest.len() == 0 => Ok(Points::ends(start, end.xy)),
        _ => Ok(Points::of(listed(alloc, start, behind)?)),
    }
}

fn listed(alloc: Global, start: Pt, behind: &VertexSlice<'_>) -> Result<Vec<Pt>, AllocError>
    ensures { IfOk result (λ ps. ps.items ≡ start ∷ points_at behind.now) }
{
    let mut points = Vec::with_capacity(alloc, behind.len().saturating_add(1))?;
    points.push_reserved(start);
    behind.append_points(&mut points)?;
    Ok(points)
}

/// The last of a start and points behind it.
#[tactic(auto, using(crate::proofs::Ranges::last_in))]
fn end_of(start: Pt, points: &[Pt]) -> Pt
    requires start { IsPoint start }
    requires points { ArePoints points.now }
    ensures value { result ≡ last_of start points.now }
    ensures range { IsPoint result }
{
    last_of(start, points)
}

fn last_of(start: Pt, points: &[Pt]) -> Pt
    ensures { result ≡ last_of start points.now }
{
    match points {
        [.., last] => *last,
        [] => start,
    }
}

/// Makes the job of a leg. Where the leg ends.
pub(crate) fn take_leg(
    alloc: Global,
    jobs: &mut Vec<Job>,
    m: &Motion,
    side: Sign,
    touching: Option<Axis>,
    behind: &VertexSlice<'_>,
) -> Result<Pt, AllocError>
    requires motion { IsMotion m.now }
    requires touching { touching ≡ axis_of (motions.course_of m.now) }
    requires vertices { ArePoints (points_at behind.now) }
    ensures jobs { OnOk result (jobs.new.items ≡ jobs.old.items ++ spec.job_said (record { motion = m.now; side = side; vertices = points_at behind.now }) ∷ []) }
    ensures last { IfOk result (λ p. p ≡ last_of m.now.start.xy (points_at behind.now)) }
    ensures range { IfOk result IsPoint }
{
    let points = points(alloc, m.start.xy, behind)?;
    let last = end_of(m.start.xy, &points.all()[1..]);
    jobs.push(Job {
        leg: leg_on(m, side, touching),
        out_sign: out_sign_at(&m.drive, m.drive_side()),
        points,
    })?;
    Ok(last)
}
