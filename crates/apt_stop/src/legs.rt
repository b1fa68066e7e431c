//! The legs of a contour: to the first meeting with its check surface, and to the second.

ghost use Rattle.std.specs.Prelude.{◌≡◌, ◌↔◌, pos, Some, IfOk, IsErrOf, IsTrue, true, false};
ghost use Rattle.apt_words.specs.Rows.{unless, first_of, NoneHolds};
ghost use Rattle.apt_plane.specs.Ranges.{IsPoint};
ghost use Rattle.apt_offset.specs.Ranges.{IsTarget};
ghost use Rattle.apt_contact.specs.Contacts.{IsNearTarget};
ghost use Rattle.apt_stop.specs.Courses as spec;
ghost use Rattle.apt_stop.specs.Choices as choices;
ghost use Rattle.apt_stop.specs.Legs as legging;
ghost use Rattle.apt_stop.specs.Legs.{next_leg};
ghost use Rattle.apt_stop.specs.Nearness as near;
ghost use Rattle.apt_stop.specs.Ranges.{IsCourse};
ghost use Rattle.apt_stop.specs.Touching.{IsNotTangent};

use crate::course::{Choice, Course};
use crate::decisions::decide;
use crate::gaps::is_touching;
use crate::nearness::{NEAR_STOP, is_near};
use crate::tangencies::tangent_axis;
use apt_contact::{Meeting, meet};
use apt_offset::Target;
use apt_plane::{Pt, Surface};
use apt_words::{Case, Stop};

/// How many legs a contour has: one to the first meeting with its check surface, two to the second.
#[derive(Clone, Copy)]
pub enum Legs {
    One,
    Two,
}

/// Where the legs of a contour end: the first, and the second where there are two.
#[derive(Clone, Copy)]
pub struct Ends {
    pub first: Pt,
    pub second: Option<Pt>,
}

impl Ends {
    /// The last of them, where the contour ends.
    pub fn last(&self) -> Pt
        ensures { result ≡ legging.last_end self.now }
    {
        self.second.unwrap_or(self.first)
    }
}

/// Whether a start is near a stop: at most 8 grid units from it.
#[tactic(auto, using(crate::proofs::Within::near_tells))]
pub fn near_stop(start: Pt, stop: &Target) -> bool
    requires start { IsPoint start }
    requires stop { IsTarget stop.now }
    ensures value { result ≡ near.is_near stop.now near.near_stop start }
    ensures near { IsTrue result ↔ IsNearTarget stop.now (pos 8) start }
{
    is_near(stop, NEAR_STOP, start)
}

/// Where so many legs to one stop end, rounded to the grid. The second starts where the first ends, and runs on the
/// other side of the stop.
///
/// # Errors
///
/// The first case that refuses them: those of all courses to the stop (`Parallel`, `NotTangent` or `NoContact`);
/// `FullTurn` for two legs round a circle from near the stop; then `Behind` and `OutOfRange` of the first leg, and of
/// the second.
#[inline(always)]
pub fn decide_legs(c: &Course, legs: Legs) -> Result<Ends, Case>
    requires { IsCourse c.now }
    ensures value { result ≡ unless (legging.leg_cases legs c.now) (legging.ends_of legs c.now) }
    ensures refused { (case : Case) → IsErrOf result case ↔ (first_of (legging.leg_cases legs c.now) ≡ Some case) }
    ensures not_tangent { IsErrOf result Case.NotTangent ↔ IsNotTangent c.now }
    ensures full_turn { IsErrOf result Case.FullTurn ↔ legging.IsFullTurn legs c.now }
    ensures range { IfOk result legging.AreEnds }
    ensures ends { IfOk result (legging.LegsEnd c.now) }
    ensures aside { legging.IsStopOfStart c.now → IfOk result (legging.LegsStopAside c.now) }
{
    decide_legs_value(c, legs)
}

#[inline(always)]
fn decide_legs_value(c: &Course, legs: Legs) -> Result<Ends, Case>
    requires { IsCourse c.now }
    ensures value { result ≡ unless (legging.leg_cases legs c.now) (legging.ends_of legs c.now) }
    ensures range { IfOk result legging.AreEnds }
    ensures ends { IfOk result (legging.LegsEnd c.now) }
{
    match legs {
        Legs::One => one_end(c),
        Legs::Two => two_ends(c),
    }
}

#[inline(always)]
#[tactic(auto, using(crate::proofs::TwoLegs::one_is, crate::proofs::TwoLegs::one_refused))]
fn one_end(c: &Course) -> Result<Ends, Case>
    requires { IsCourse c.now }
    ensures value { result ≡ unless (legging.leg_cases Legs.One c.now) (legging.ends_of Legs.One c.now) }
    ensures range { IfOk result legging.AreEnds }
    ensures ends { IfOk result (legging.LegsEnd c.now) }
{
    match decide(c) {
        Ok(choice) => Ok(Ends {
            first: choice.end,
            second: None,
        }),
        Err(case) => Err(case),
    }
}

#[tactic(auto, using(crate::proofs::TwoLegs::fully, crate::proofs::TwoLegs::refused_first, crate::proofs::TwoLegs::refused_next, crate::proofs::TwoLegs::both_free, crate::proofs::TwoLegs::free_course))]
fn two_ends(c: &Course) -> Result<Ends, Case>
    requires { IsCourse c.now }
    ensures value { result ≡ unless (legging.leg_cases Legs.Two c.now) (legging.ends_of Legs.Two c.now) }
    ensures range { IfOk result legging.AreEnds }
    ensures ends { IfOk result (legging.LegsEnd c.now) }
{
    if turns_fully(c) {
        return Err(stop_case(c).unwrap_or(Case::FullTurn));
    }
    match decide(c) {
        Err(case) => Err(case),
        Ok(first) => match decide_next(c, first.end) {
            Err(case) => Err(case),
            Ok(second) => Ok(Ends {
                first: first.end,
                second: Some(second.end),
            }),
        },
    }
}

/// Whether two legs round a circle would turn fully: the start is near the stop.
#[tactic(auto, using(crate::proofs::Moved::stop_target))]
fn turns_fully(c: &Course) -> bool
    requires { IsCourse c.now }
    ensures { result ≡ legging.turns_fully c.now }
{
    is_round(&c.drive) && near_stop(c.start, &c.stop)
}

fn is_round(surface: &Surface) -> bool
    ensures { result ≡ legging.is_round surface.now }
{
    match surface {
        Surface::Line(_) => false,
        Surface::Circ(_) => true,
    }
}

/// How the leg behind a course ends, whose cases at the stop are those of the course.
#[tactic(auto, using(crate::proofs::NextLegs::next_is, crate::proofs::NextLegs::next_answer))]
fn decide_next(c: &Course, end: Pt) -> Result<Choice, Case>
    requires course { IsCourse c.now }
    requires none { NoneHolds (choices.course_cases c.now) }
    requires end { end ≡ choices.end_of c.now }
    ensures value { result ≡ unless (choices.way_cases (next_leg c.now)) (choices.choice_of (next_leg c.now)) }
    ensures second { IfOk result (λ x. legging.IsSecond c.now x.end) }
    ensures range { IfOk result (λ x. IsPoint x.end) }
{
    decide(&next_course(c, end))
}

fn next_course(c: &Course, end: Pt) -> Course
    requires course { IsCourse c.now }
    requires end { end ≡ choices.end_of c.now }
    ensures { result ≡ next_leg c.now }
{
    Course { start: end, ..*c }
}

/// The case that refuses all courses to a stop.
fn stop_case(c: &Course) -> Option<Case>
    requires { IsCourse c.now }
    ensures { result ≡ first_of (choices.stop_cases c.now) }
{
    match c.how {
        Stop::Tanto => touch_case(c),
        Stop::To | Stop::On | Stop::Past => meeting_case(c),
    }
}

fn touch_case(c: &Course) -> Option<Case>
    requires course { IsCourse c.now }
    requires touching { spec.is_tanto c.now.how ≡ true }
    ensures { result ≡ first_of (choices.stop_cases c.now) }
{
    if tangent_axis(&c.drive, &c.check).is_none() {
        return Some(Case::Parallel);
    }
    if is_touching(&c.drive, &c.check) {
        None
    } else {
        Some(Case::NotTangent)
    }
}

#[tactic(auto, using(crate::proofs::Stops::track_curve, crate::proofs::Stops::stop_curve))]
fn meeting_case(c: &Course) -> Option<Case>
    requires course { IsCourse c.now }
    requires meeting { spec.is_tanto c.now.how ≡ false }
    ensures { result ≡ first_of (choices.stop_cases c.now) }
{
    match meet(&c.track, &c.stop) {
        Meeting::Parallel => Some(Case::Parallel),
        Meeting::Apart => Some(Case::NoContact),
        Meeting::One | Meeting::Two => None,
    }
}
