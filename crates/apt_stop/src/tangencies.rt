//! The axis on which a motion ends that touches its check surface.

ghost use Rattle.std.specs.Prelude.{◌≡◌, ◌↔◌, ◌||◌, int_le, IfSome};
ghost use Rattle.std.specs.Option.{IsNone};
ghost use Rattle.apt_plane.specs.Ranges.{IsPoint, IsDir, IsLine, IsCircle, IsSurface};
ghost use Rattle.apt_stop.specs.Tangencies as spec;

use apt_num::{Sign, sign_of};
use apt_offset::signs::opposite;
use apt_offset::{side_or_left, touch_outside};
use apt_plane::vectors::{cross, displacement, length_squared, perp};
use apt_plane::{Axis, Circ, Dir, Line, Pt, Surface};

/// The axis through the centre of a circle on which a motion along `drive` ends that touches `check`; there is none
/// for two lines, and for circles about one centre.
pub fn tangent_axis(drive: &Surface, check: &Surface) -> Option<Axis>
    requires drive { IsSurface drive.now }
    requires check { IsSurface check.now }
    ensures value { result ≡ spec.tangent_axis drive.now check.now }
    ensures none { IsNone result ↔ spec.HaveNoAxis drive.now check.now }
    ensures range { IfSome result (λ axis. IsPoint axis.through × IsDir axis.along) }
{
    match (drive, check) {
        (Surface::Line(_), Surface::Line(_)) => None,
        (Surface::Line(line), Surface::Circ(circle)) => Some(Axis {
            through: circle.c,
            along: perp(line.dir),
            half: Sign::Zero,
        }),
        (Surface::Circ(circle), Surface::Line(line)) => Some(Axis {
            through: circle.c,
            along: perp(line.dir),
            half: half_towards(line, circle),
        }),
        (Surface::Circ(first), Surface::Circ(second)) => axis_of_circles(first, second),
    }
}

/// The direction of one of the quarter points of an arc about `c` that stops at `check`: square to a line, or through
/// both centres.
#[tactic(auto, using(crate::proofs::Axes::towards_is_dir))]
pub fn axis_towards(c: Pt, check: &Surface) -> Dir
    requires centre { IsPoint c }
    requires check { IsSurface check.now }
    ensures value { result ≡ spec.axis_towards c check.now }
    ensures range { spec.IsElsewhere c check.now → IsDir result }
{
    direction_towards(c, check)
}

fn direction_towards(c: Pt, check: &Surface) -> Dir
    requires centre { IsPoint c }
    requires check { IsSurface check.now }
    ensures { result ≡ spec.axis_towards c check.now }
{
    match check {
        Surface::Line(line) => perp(line.dir),
        Surface::Circ(circle) => displacement(c, circle.c),
    }
}

fn half_towards(line: &Line, circle: &Circ) -> Sign
    requires line { IsLine line.now }
    requires circle { IsCircle circle.now }
    ensures { result ≡ spec.half_towards line.now circle.now }
{
    opposite(side_or_left(sign_of(cross(line.dir, displacement(line.base, circle.c)))))
}

fn axis_of_circles(first: &Circ, second: &Circ) -> Option<Axis>
    requires first { IsCircle first.now }
    requires second { IsCircle second.now }
    ensures { result ≡ spec.tangent_axis (Surface.Circ first.now) (Surface.Circ second.now) }
{
    let along = displacement(first.c, second.c);
    if length_squared(along) == 0 {
        return None;
    }
    Some(Axis {
        through: first.c,
        along,
        half: touching_half(first, second),
    })
}

fn touching_half(first: &Circ, second: &Circ) -> Sign
    requires first { IsCircle first.now }
    requires second { IsCircle second.now }
    ensures { result ≡ spec.touching_half first.now second.now }
{
    if touch_outside(first, second) || second.r <= first.r {
        Sign::Plus
    } else {
        Sign::Minus
    }
}
