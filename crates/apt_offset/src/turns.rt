//! The turn at the start of a contour motion.

ghost use Rattle.std.specs.Prelude.{◌≡◌};
ghost use Rattle.apt_plane.specs.Ranges.{IsPoint, IsSurface, IsVector};
ghost use Rattle.apt_offset.specs.Turns as turning;

use crate::signs::opposite;
use apt_num::{Sign, sign_of};
use apt_plane::vectors::{cross, displacement, dot, perp};
use apt_plane::{Dir, Pt, Surface};
use apt_words::Go;

/// The direction of a surface at a point: that of a line, or the tangent of a circle, anticlockwise.
pub fn tangent(drive: &Surface, at: Pt) -> Dir
    requires drive { IsSurface drive.now }
    requires at { IsPoint at }
    ensures value { result ≡ turning.tangent drive.now at }
    ensures fits { IsVector result }
{
    match drive {
        Surface::Line(line) => line.dir,
        Surface::Circ(circle) => perp(displacement(circle.c, at)),
    }
}

/// How a direction runs against forward: to the left or right by the cross product, forward or back by the dot product.
pub fn turn(forward: Dir, along: Dir, go: Go) -> Sign
    requires forward { IsVector forward }
    requires along { IsVector along }
    ensures { result ≡ turning.turn forward along go }
{
    match go {
        Go::Left => sign_of(cross(forward, along)),
        Go::Right => opposite(sign_of(cross(forward, along))),
        Go::Forward => sign_of(dot(forward, along)),
        Go::Back => opposite(sign_of(dot(forward, along))),
    }
}
