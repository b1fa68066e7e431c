//! Where a start-up ends.

ghost use Rattle.std.specs.Prelude.{◌≡◌, ◌↔◌, ◌++◌, ◌<ℤ◌, false, pos, Some, None, IfOk, IsErrOf};
ghost use Rattle.apt_words.specs.Rows.{unless, first_of};
ghost use Rattle.apt_plane.specs.Ranges.{IsPoint};
ghost use Rattle.apt_offset.specs.Ranges.{IsTarget};
ghost use Rattle.apt_offset.specs.Targets as moving;
ghost use Rattle.apt_contact.specs.Contacts.{IsNearTarget};
ghost use Rattle.apt_contact.specs.Meetings as meetings;
ghost use Rattle.apt_startup.specs.Nearest.{IsNearBoth, IsNearest, EachAside};
ghost use Rattle.apt_startup.specs.Ranges.{IsStartUp, IsGoal};
ghost use Rattle.apt_startup.specs.StartUps as spec;

use crate::nearest::{contact_near, in_range, nearest_on};
use crate::{Goal, StartUp};
use apt_contact::{Meeting, meet};
use apt_num::Sign;
use apt_offset::{Target, is_on_check, lacks_room, offset_surface, side_at_check};
use apt_plane::Pt;
use apt_words::Case;

/// The point, rounded to the grid, at which a start-up ends: on one surface the nearest one, on two the nearer of
/// their contacts.
///
/// # Errors
///
/// The first case that refuses it: `NoRoom`, `OnCheck`, `Parallel`, `NoContact`, `OutOfRange`, the first two of each
/// surface in turn.
pub fn start(u: &StartUp) -> Result<Pt, Case>
    requires { IsStartUp u.now }
    ensures value { result ≡ unless (spec.start_up_cases u.now) (spec.start_point u.now) }
    ensures refused { (case : Case) → IsErrOf result case ↔ (first_of (spec.start_up_cases u.now) ≡ Some case) }
    ensures range { IfOk result IsPoint }
    ensures near { IfOk result (IsNearBoth u.now u.now.second) }
    ensures nearest { IfOk result (IsNearest u.now u.now.second) }
    ensures aside { pos 1 <ℤ u.now.radius → IfOk result (EachAside u.now u.now.second) }
{
    match &u.second {
        None => start_on_one(u),
        Some(second) => start_on_two(u, second),
    }
}

fn start_on_one(u: &StartUp) -> Result<Pt, Case>
    requires { IsStartUp u.now }
    ensures value { result ≡ unless (spec.cases_by u.now None) (spec.point_by u.now None) }
    ensures range { IfOk result IsPoint }
    ensures near { IfOk result (IsNearBoth u.now None) }
    ensures nearest { IfOk result (IsNearest u.now None) }
{
    if has_no_room(u, &u.first) {
        return Err(Case::NoRoom);
    }
    if is_on(u, &u.first) {
        return Err(Case::OnCheck);
    }
    in_range(nearest_on(u.start, &target(u, &u.first)))
}

fn start_on_two(u: &StartUp, second: &Goal) -> Result<Pt, Case>
    requires u { IsStartUp u.now }
    requires second { IsGoal second.now }
    ensures value { result ≡ unless (spec.cases_by u.now (Some second.now)) (spec.point_by u.now (Some second.now)) }
    ensures range { IfOk result IsPoint }
    ensures near { IfOk result (IsNearBoth u.now (Some second.now)) }
{
    if has_no_room(u, &u.first) || has_no_room(u, second) {
        return Err(Case::NoRoom);
    }
    if is_on(u, &u.first) || is_on(u, second) {
        return Err(Case::OnCheck);
    }
    meeting_near(u.start, &target(u, &u.first), &target(u, second))
}

/// Where two targets meet, nearer to a point.
#[tactic(auto, using(apt_contact::proofs::MeetingLaws::target_is_curve))]
fn meeting_near(p: Pt, a: &Target, b: &Target) -> Result<Pt, Case>
    requires point { IsPoint p }
    requires first { IsTarget a.now }
    requires second { IsTarget b.now }
    ensures value { result ≡ unless (meetings.meeting_cases a.now b.now ++ spec.range_cases (spec.meeting_near p a.now b.now)) (spec.meeting_near p a.now b.now) }
    ensures range { IfOk result IsPoint }
    ensures on_first { IfOk result (IsNearTarget a.now (pos 1)) }
    ensures on_second { IfOk result (IsNearTarget b.now (pos 1)) }
{
    match meet(a, b) {
        Meeting::Parallel => Err(Case::Parallel),
        Meeting::Apart => Err(Case::NoContact),
        Meeting::One | Meeting::Two => contact_near(p, a, b),
    }
}

/// The place of the cutter at a surface on which it starts.
fn goal_side(u: &StartUp, goal: &Goal) -> Sign
    requires u { IsStartUp u.now }
    requires goal { IsGoal goal.now }
    ensures { result ≡ spec.goal_side u.now goal.now }
{
    side_at_check(&goal.surface, goal.how, u.start, &goal.surface, Sign::Zero)
}

fn target(u: &StartUp, goal: &Goal) -> Target
    requires u { IsStartUp u.now }
    requires goal { IsGoal goal.now }
    ensures value { result ≡ spec.goal_target u.now goal.now }
    ensures fits { moving.lacks_room (spec.goal_target u.now goal.now) ≡ false → IsTarget result }
{
    offset_surface(&goal.surface, goal_side(u, goal), u.radius)
}

fn is_on(u: &StartUp, goal: &Goal) -> bool
    requires u { IsStartUp u.now }
    requires goal { IsGoal goal.now }
    ensures { result ≡ spec.is_on u.now goal.now }
{
    is_on_check(goal.how, goal_side(u, goal))
}

fn has_no_room(u: &StartUp, goal: &Goal) -> bool
    requires u { IsStartUp u.now }
    requires goal { IsGoal goal.now }
    ensures { result ≡ spec.has_no_room u.now goal.now }
{
    !is_on(u, goal) && lacks_room(&target(u, goal))
}
