//! The points of targets that are nearest to a position.

ghost use Rattle.std.specs.Prelude.{◌≡◌, pos, neg_ℤ, IfOk, IsTrue};
ghost use Rattle.apt_words.specs.Rows.{unless};
ghost use Rattle.apt_plane.specs.Ranges.{IsPoint, IsDir, IsShort, IsMoved, IsRound};
ghost use Rattle.apt_canon.specs.Scale as scale;
ghost use Rattle.apt_canon.specs.Scale.{IsNearLine, IsNearCircle};
ghost use Rattle.apt_canon.specs.Circles as circles;
ghost use Rattle.apt_offset.specs.Ranges.{IsTarget, IsCircleTarget};
ghost use Rattle.apt_contact.specs.Contacts.{HasMeeting, IsNearTarget};
ghost use Rattle.apt_contact.specs.Meetings as meetings;
ghost use Rattle.apt_startup.specs.Nearest.{IsFootOf};
ghost use Rattle.apt_startup.specs.Ranges.{IsInSight};
ghost use Rattle.apt_startup.specs.StartUps as spec;

use apt_canon::{circle_circle_point, foot_point, line_circle_point, ray_point};
use apt_contact::contact;
use apt_offset::Target;
use apt_plane::vectors::{displacement, length_squared};
use apt_plane::{Circ, Dir, Line, Moved, Pt};
use apt_words::Case;

const LIMIT: u64 = 50_000_000;

/// The point of a target nearest to another, in range or not.
pub(crate) fn nearest_on(p: Pt, target: &Target) -> Pt
    requires point { IsPoint p }
    requires target { IsTarget target.now }
    ensures value { result ≡ spec.nearest_on p target.now }
    ensures near { IsNearTarget target.now (pos 1) result }
    ensures foot { IsFootOf p target.now result }
{
    match *target {
        Target::Line { base, dir, off } => {
            let line = Line { base, dir };
            foot_point(p, &Moved { line, off })
        }
        Target::Circ { c, r } => ray_point(&Circ { c, r }, way_or_right(displacement(c, p))),
    }
}

fn way_or_right(way: Dir) -> Dir
    requires { IsShort way }
    ensures value { result ≡ spec.way_or_right way }
    ensures dir { IsDir result }
{
    if length_squared(way) == 0 {
        Dir { dx: 1, dy: 0 }
    } else {
        way
    }
}

/// The nearer contact of two targets.
pub(crate) fn contact_near(p: Pt, a: &Target, b: &Target) -> Result<Pt, Case>
    requires point { IsPoint p }
    requires first { IsTarget a.now }
    requires second { IsTarget b.now }
    requires meeting { HasMeeting (meetings.meeting_of a.now b.now) }
    ensures value { result ≡ unless (spec.range_cases (spec.meeting_near p a.now b.now)) (spec.meeting_near p a.now b.now) }
    ensures range { IfOk result IsPoint }
    ensures on_first { IfOk result (λ q. IsNearTarget a.now (pos 1) q) }
    ensures on_second { IfOk result (λ q. IsNearTarget b.now (pos 1) q) }
{
    match *a {
        Target::Line { base, dir, off } => {
            let line = Line { base, dir };
            near_on_line(p, &Moved { line, off }, b)
        }
        Target::Circ { c, r } => near_on_circle(p, &Circ { c, r }, b),
    }
}

fn near_on_line(p: Pt, l: &Moved, other: &Target) -> Result<Pt, Case>
    requires point { IsPoint p }
    requires line { IsMoved l.now }
    requires other { IsTarget other.now }
    requires meeting { HasMeeting (meetings.meeting_of (Target.Line l.now.line.base l.now.line.dir l.now.off) other.now) }
    ensures value { result ≡ unless (spec.range_cases (spec.meeting_near p (Target.Line l.now.line.base l.now.line.dir l.now.off) other.now)) (spec.meeting_near p (Target.Line l.now.line.base l.now.line.dir l.now.off) other.now) }
    ensures range { IfOk result IsPoint }
    ensures on_line { IfOk result (λ q. IsNearTarget (Target.Line l.now.line.base l.now.line.dir l.now.off) (pos 1) q) }
    ensures on_other { IfOk result (λ q. IsNearTarget other.now (pos 1) q) }
{
    match *other {
        Target::Line { .. } => {
            let Line { base, dir } = l.line;
            contact(
                &Target::Line {
                    base,
                    dir,
                    off: l.off,
                },
                other,
                -1,
            )
        }
        Target::Circ { c, r } => line_and_circle(p, l, &Circ { c, r }),
    }
}

fn near_on_circle(p: Pt, c: &Circ, other: &Target) -> Result<Pt, Case>
    requires point { IsPoint p }
    requires circle { IsCircleTarget c.now.c c.now.r }
    requires other { IsTarget other.now }
    requires meeting { HasMeeting (meetings.meeting_of (Target.Circ c.now.c c.now.r) other.now) }
    ensures value { result ≡ unless (spec.range_cases (spec.meeting_near p (Target.Circ c.now.c c.now.r) other.now)) (spec.meeting_near p (Target.Circ c.now.c c.now.r) other.now) }
    ensures range { IfOk result IsPoint }
    ensures on_circle { IfOk result (λ q. IsNearTarget (Target.Circ c.now.c c.now.r) (pos 1) q) }
    ensures on_other { IfOk result (λ q. IsNearTarget other.now (pos 1) q) }
{
    match *other {
        Target::Line { base, dir, off } => {
            let line = Line { base, dir };
            line_and_circle(p, &Moved { line, off }, c)
        }
        Target::Circ { c: centre, r } => two_circles(p, c, &Circ { c: centre, r }),
    }
}

/// Where a line meets a circle, nearer to a point.
fn line_and_circle(p: Pt, l: &Moved, c: &Circ) -> Result<Pt, Case>
    requires point { IsPoint p }
    requires line { IsMoved l.now }
    requires circle { IsRound c.now }
    requires meeting { HasMeeting (meetings.of_line_and_circle l.now.line l.now.off c.now) }
    ensures value { result ≡ unless (spec.range_cases (spec.nearer_to p (circles.line_circle_point l.now.line l.now.off c.now (neg_ℤ (pos 1))) (circles.line_circle_point l.now.line l.now.off c.now (pos 1)))) (spec.nearer_to p (circles.line_circle_point l.now.line l.now.off c.now (neg_ℤ (pos 1))) (circles.line_circle_point l.now.line l.now.off c.now (pos 1))) }
    ensures range { IfOk result IsPoint }
    ensures on_line { IfOk result (λ q. IsNearLine l.now.line l.now.off (pos 1) q) }
    ensures on_circle { IfOk result (λ q. IsNearCircle c.now (pos 1) q) }
{
    nearer(p, line_circle_point(l, c, -1), line_circle_point(l, c, 1))
}

/// Where two circles meet, nearer to a point.
fn two_circles(p: Pt, a: &Circ, b: &Circ) -> Result<Pt, Case>
    requires point { IsPoint p }
    requires a { IsCircleTarget a.now.c a.now.r }
    requires b { IsCircleTarget b.now.c b.now.r }
    requires meeting { HasMeeting (meetings.of_circles a.now b.now) }
    ensures value { result ≡ unless (spec.range_cases (spec.nearer_to p (circles.circle_circle_point a.now b.now (neg_ℤ (pos 1))) (circles.circle_circle_point a.now b.now (pos 1)))) (spec.nearer_to p (circles.circle_circle_point a.now b.now (neg_ℤ (pos 1))) (circles.circle_circle_point a.now b.now (pos 1))) }
    ensures range { IfOk result IsPoint }
    ensures on_a { IfOk result (λ q. IsNearCircle a.now (pos 1) q) }
    ensures on_b { IfOk result (λ q. IsNearCircle b.now (pos 1) q) }
{
    nearer(
        p,
        circle_circle_point(a, b, -1),
        circle_circle_point(a, b, 1),
    )
}

/// The second of two points where it is nearer to `p`, else the first; within the coordinate limit.
fn nearer(p: Pt, a: Pt, b: Pt) -> Result<Pt, Case>
    requires point { IsPoint p }
    requires first { IsInSight a }
    requires second { IsInSight b }
    ensures value { result ≡ unless (spec.range_cases (spec.nearer_to p a b)) (spec.nearer_to p a b) }
    ensures range { IfOk result IsPoint }
{
    if distance_squared(p, b) < distance_squared(p, a) {
        in_range(b)
    } else {
        in_range(a)
    }
}

fn distance_squared(p: Pt, q: Pt) -> u128
    requires point { IsPoint p }
    requires other { IsInSight q }
    ensures { result ≡ spec.distance_squared p q }
{
    length_squared(Dir {
        dx: q.x - p.x,
        dy: q.y - p.y,
    })
}

/// A point within the coordinate limit.
pub(crate) fn in_range(p: Pt) -> Result<Pt, Case>
    ensures value { result ≡ unless (spec.range_cases p) p }
    ensures range { IfOk result IsPoint }
    ensures same { IfOk result (λ q. q ≡ p) }
{
    if is_in_range(p) {
        Ok(p)
    } else {
        Err(Case::OutOfRange)
    }
}

fn is_in_range(p: Pt) -> bool
    ensures value { result ≡ scale.is_in_range p }
    ensures point { IsTrue result → IsPoint p }
{
    p.x.unsigned_abs() <= LIMIT && p.y.unsigned_abs() <= LIMIT
}
