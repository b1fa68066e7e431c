//! Where targets meet.

ghost use Rattle.std.specs.Prelude.{◌≡◌, ◌↔◌, ◌≤ℤ◌, pos, false, IfOk, IsErrOf};
ghost use Rattle.apt_plane.specs.Ranges.{IsPoint, IsMoved, IsSense};
ghost use Rattle.apt_canon.specs.Scale.{is_in_range};
ghost use Rattle.apt_canon.specs.Scale as scale;
ghost use Rattle.apt_offset.specs.Ranges.{IsTarget, IsCircleTarget};
ghost use Rattle.apt_contact.specs.Contacts as spec;
ghost use Rattle.apt_contact.specs.Contacts.{HasMeeting, IsNearTarget};
ghost use Rattle.apt_contact.specs.Meetings.{meeting_of};

use apt_canon::{FormFault, circle_circle, line_circle, line_line};
use apt_offset::Target;
use apt_plane::{Circ, Line, Moved, Pt};
use apt_words::Case;

/// The point, rounded to the grid, in which two targets meet; of two the one for sigma 1, or -1: along a line's
/// direction and against it, or to the left and to the right of the way from the first centre to the second.
///
/// # Errors
///
/// `OutOfRange` where the point leaves the coordinate limit.
pub fn contact(a: &Target, b: &Target, sigma: i8) -> Result<Pt, Case>
    requires first { IsTarget a.now }
    requires second { IsTarget b.now }
    requires sigma { IsSense sigma }
    requires meeting { HasMeeting (meeting_of a.now b.now) }
    ensures value { result ≡ spec.contact a.now b.now sigma }
    ensures out_of_range { IsErrOf result Case.OutOfRange ↔ (is_in_range (spec.contact_point a.now b.now sigma) ≡ false) }
    ensures in_range { IfOk result IsPoint }
    ensures on_first { IfOk result (λ p. IsNearTarget a.now (pos 1) p) }
    ensures on_second { IfOk result (λ p. IsNearTarget b.now (pos 1) p) }
{
    match contact_of(a, b, sigma) {
        Ok(point) => Ok(point),
        Err(_) => Err(Case::OutOfRange),
    }
}

/// What the closed formula answers: the targets meet, so it has one fault alone.
fn contact_of(a: &Target, b: &Target, sigma: i8) -> Result<Pt, FormFault>
    requires first { IsTarget a.now }
    requires second { IsTarget b.now }
    requires sigma { IsSense sigma }
    requires meeting { HasMeeting (meeting_of a.now b.now) }
    ensures value { result ≡ scale.in_range (spec.contact_point a.now b.now sigma) }
    ensures in_range { IfOk result IsPoint }
    ensures on_first { IfOk result (λ p. IsNearTarget a.now (pos 1) p) }
    ensures on_second { IfOk result (λ p. IsNearTarget b.now (pos 1) p) }
{
    match *a {
        Target::Line { base, dir, off } => {
            let line = Line { base, dir };
            contact_with_line(&Moved { line, off }, b, sigma)
        }
        Target::Circ { c, r } => contact_with_circle(&Circ { c, r }, b, sigma),
    }
}

fn contact_with_line(l: &Moved, other: &Target, sigma: i8) -> Result<Pt, FormFault>
    requires line { IsMoved l.now }
    requires other { IsTarget other.now }
    requires sigma { IsSense sigma }
    requires meeting { HasMeeting (meeting_of (Target.Line l.now.line.base l.now.line.dir l.now.off) other.now) }
    ensures value { result ≡ scale.in_range (spec.contact_point (Target.Line l.now.line.base l.now.line.dir l.now.off) other.now sigma) }
    ensures in_range { IfOk result IsPoint }
    ensures on_line { IfOk result (λ p. IsNearTarget (Target.Line l.now.line.base l.now.line.dir l.now.off) (pos 1) p) }
    ensures on_other { IfOk result (λ p. IsNearTarget other.now (pos 1) p) }
{
    match *other {
        Target::Line { base, dir, off } => {
            let line = Line { base, dir };
            line_line(l, &Moved { line, off })
        }
        Target::Circ { c, r } => line_circle(l, &Circ { c, r }, sigma),
    }
}

fn contact_with_circle(c: &Circ, other: &Target, sigma: i8) -> Result<Pt, FormFault>
    requires circle { IsCircleTarget c.now.c c.now.r }
    requires other { IsTarget other.now }
    requires sigma { IsSense sigma }
    requires meeting { HasMeeting (meeting_of (Target.Circ c.now.c c.now.r) other.now) }
    ensures value { result ≡ scale.in_range (spec.contact_point (Target.Circ c.now.c c.now.r) other.now sigma) }
    ensures in_range { IfOk result IsPoint }
    ensures on_circle { IfOk result (λ p. IsNearTarget (Target.Circ c.now.c c.now.r) (pos 1) p) }
    ensures on_other { IfOk result (λ p. IsNearTarget other.now (pos 1) p) }
{
    match *other {
        Target::Line { base, dir, off } => {
            let line = Line { base, dir };
            line_circle(&Moved { line, off }, c, sigma)
        }
        Target::Circ { c: centre, r } => circle_circle(c, &Circ { c: centre, r }, sigma),
    }
}
