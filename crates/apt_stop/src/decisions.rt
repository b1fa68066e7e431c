//! Where courses stop.

ghost use Rattle.std.specs.Prelude.{◌≡◌, ◌≢◌, ◌↔◌, Some, IfOk, IsErrOf};
ghost use Rattle.apt_words.specs.Rows.{unless, first_of};
ghost use Rattle.apt_plane.specs.Ranges.{IsPoint, IsSurface, IsSense};
ghost use Rattle.apt_offset.specs.Ranges.{IsTarget};
ghost use Rattle.apt_offset.specs.Targets as moving;
ghost use Rattle.apt_contact.specs.Contacts.{HasMeeting};
ghost use Rattle.apt_contact.specs.Meetings.{meeting_of};
ghost use Rattle.apt_stop.specs.Courses as spec;
ghost use Rattle.apt_stop.specs.Choices as choices;
ghost use Rattle.apt_stop.specs.Ends.{IsEndOn};
ghost use Rattle.apt_stop.specs.Ranges.{IsCourse};
ghost use Rattle.apt_stop.specs.Sides.{RunsOn};
ghost use Rattle.apt_stop.specs.Steps as steps;
ghost use Rattle.apt_stop.specs.Steps.{IsPlaced};
ghost use Rattle.apt_stop.specs.Tangencies as tangencies;

use crate::course::{Choice, Course};
use crate::gaps::is_touching;
use crate::sides::{are_parallel, far_side, is_past, side_from};
use crate::tangencies::tangent_axis;
use crate::touches::{is_past_axis, touch_point};
use apt_canon::line_line;
use apt_contact::{Meeting, contact, meet};
use apt_num::Sign;
use apt_offset::Target;
use apt_offset::signs::opposite;
use apt_plane::{Axis, Line, Moved};
use apt_words::{Case, Stop};

/// How a course ends: the side of its stop on which it runs, its last point, rounded to the grid, and the axis on which
/// it ends where it touches.
///
/// # Errors
///
/// The first case that refuses it: `Parallel`, `NotTangent` where it touches or `NoContact` where it doesn't, `Behind`,
/// `OutOfRange`.
#[inline(always)]
pub fn decide(c: &Course) -> Result<Choice, Case>
    requires { IsCourse c.now }
    ensures value { result ≡ unless (choices.course_cases c.now) (choices.choice_of c.now) }
    ensures refused { (case : Case) → IsErrOf result case ↔ (first_of (choices.course_cases c.now) ≡ Some case) }
    ensures range { IfOk result (λ x. IsPoint x.end) }
    ensures end { IfOk result (λ x. IsEndOn c.now.track c.now x.end) }
{
    decide_value(c)
}

fn decide_value(c: &Course) -> Result<Choice, Case>
    requires { IsCourse c.now }
    ensures { result ≡ unless (choices.course_cases c.now) (choices.choice_of c.now) }
{
    match c.how {
        Stop::Tanto => touching(c),
        Stop::To | Stop::On | Stop::Past => meeting(c),
    }
}

/// How a course ends that meets its stop.
#[tactic(auto, using(apt_contact::proofs::MeetingLaws::target_is_curve))]
fn meeting(c: &Course) -> Result<Choice, Case>
    requires { IsPlaced c.now }
    ensures { result ≡ steps.meeting c.now }
{
    if let (
        Target::Line { base, dir, off },
        Target::Line {
            base: at,
            dir: along,
            off: over,
        },
    ) = (c.track, c.stop)
    {
        let track = Moved {
            line: Line { base, dir },
            off,
        };
        let stop = Moved {
            line: Line {
                base: at,
                dir: along,
            },
            off: over,
        };
        return straight(c, &track, &stop);
    }
    match meet(&c.track, &c.stop) {
        Meeting::Parallel => Err(Case::Parallel),
        Meeting::Apart => Err(Case::NoContact),
        Meeting::One | Meeting::Two => leading(c),
    }
}

/// The same along a line to a line, the motion that programs have most.
fn straight(c: &Course, track: &Moved, stop: &Moved) -> Result<Choice, Case>
    requires placed { IsPlaced c.now }
    requires track { c.now.track ≡ Target.Line track.now.line.base track.now.line.dir track.now.off }
    requires stop { c.now.stop ≡ Target.Line stop.now.line.base stop.now.line.dir stop.now.off }
    ensures { result ≡ steps.straight c.now track.now stop.now }
{
    if are_parallel(&track.line, &stop.line) {
        return Err(Case::Parallel);
    }
    let far = far_side(&c.stop, c.start);
    if is_past(c, far) {
        return Err(Case::Behind);
    }
    match line_line(track, stop) {
        Ok(end) => Ok(Choice {
            side: side_from(c, far),
            end,
            axis: None,
        }),
        Err(_) => Err(Case::OutOfRange),
    }
}

/// How a course ends whose targets meet.
fn leading(c: &Course) -> Result<Choice, Case>
    requires placed { IsPlaced c.now }
    requires meeting { HasMeeting (meeting_of c.now.track c.now.stop) }
    ensures { result ≡ steps.led c.now }
{
    let far = far_side(&c.stop, c.start);
    if is_past(c, far) {
        return Err(Case::Behind);
    }
    let side = side_from(c, far);
    let end = contact(&c.track, &c.stop, sigma(c, side))?;
    Ok(Choice {
        side,
        end,
        axis: None,
    })
}

/// Which of the two points in which its targets meet a course comes to on a side of its stop.
fn sigma(c: &Course, side: Sign) -> i8
    requires sense { IsSense c.now.sense }
    requires side { steps.HasSide c.now.track c.now.stop side }
    ensures value { result ≡ choices.sigma_of c.now.sense side c.now.track c.now.stop }
    ensures sense { IsSense result }
{
    match (&c.track, &c.stop) {
        (Target::Line { .. }, Target::Line { .. }) => 1,
        (Target::Line { .. } | Target::Circ { .. }, Target::Circ { .. }) => signed(side, c.sense),
        (Target::Circ { .. }, Target::Line { .. }) => signed(opposite(side), c.sense),
    }
}

fn signed(side: Sign, sense: i8) -> i8
    requires { IsSense sense }
    ensures { result ≡ moving.signed side sense }
{
    match side {
        Sign::Plus => sense,
        Sign::Zero => 0,
        Sign::Minus => -sense,
    }
}

/// How a course ends that touches its check surface.
fn touching(c: &Course) -> Result<Choice, Case>
    requires { IsCourse c.now }
    ensures { result ≡ steps.touch c.now (tangencies.tangent_axis c.now.drive c.now.check) }
{
    let Some(axis) = tangent_axis(&c.drive, &c.check) else {
        return Err(Case::Parallel);
    };
    if !is_touching(&c.drive, &c.check) {
        return Err(Case::NotTangent);
    }
    if is_past_axis(c, &axis) {
        return Err(Case::Behind);
    }
    let end = touch_point(&c.track, &axis)?;
    Ok(Choice {
        side: Sign::Zero,
        end,
        axis: Some(axis),
    })
}

/// The side of its stop on which a course runs: that of its start, or where the start is near the stop the one into
/// which it heads; `Plus` left of a line and inside a circle, `Zero` where the way in which it heads leads along.
pub fn stop_side(c: &Course) -> Sign
    requires start { IsPoint c.now.start }
    requires track { IsTarget c.now.track }
    requires sense { IsSense c.now.sense }
    requires stop { IsTarget c.now.stop }
    ensures value { result ≡ spec.stop_side c.now }
    ensures side { (s : Sign) → (result ≡ s) ↔ RunsOn c.now s }
{
    side_from(c, far_side(&c.stop, c.start))
}

/// The same, and `Zero` for a course that touches its check surface.
pub fn kept_side(c: &Course) -> Sign
    requires start { IsPoint c.now.start }
    requires track { IsTarget c.now.track }
    requires sense { IsSense c.now.sense }
    requires stop { IsTarget c.now.stop }
    ensures value { result ≡ spec.kept_side c.now }
    ensures touches { c.now.how ≡ Stop.Tanto → result ≡ Sign.Zero }
    ensures meets { c.now.how ≢ Stop.Tanto → (s : Sign) → (result ≡ s) ↔ RunsOn c.now s }
{
    match c.how {
        Stop::Tanto => Sign::Zero,
        Stop::To | Stop::On | Stop::Past => stop_side(c),
    }
}

/// The axis on which a course ends where it touches its check surface.
pub fn axis(c: &Course) -> Option<Axis>
    requires drive { IsSurface c.now.drive }
    requires check { IsSurface c.now.check }
    ensures { result ≡ spec.axis_of c.now }
{
    match c.how {
        Stop::Tanto => tangent_axis(&c.drive, &c.check),
        Stop::To | Stop::On | Stop::Past => None,
    }
}
