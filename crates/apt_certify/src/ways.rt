//! Products of short ways: they fit in 64 bits.

ghost use Rattle.std.specs.Prelude.{◌≡◌, ◌≤◌, ◌*◌, ◌^◌, unsigned_abs};
ghost use Rattle.apt_plane.specs.Ranges.{IsPoint, IsDir, IsShort};
ghost use Rattle.apt_plane.specs.Vectors as spec;

use apt_plane::vectors::{cross, dot, height, length_squared};
use apt_plane::{Dir, Pt};

/// The cross product: positive where the second points to the left of the first.
#[tactic(auto, using(apt_plane::proofs::Heights::short_cross_small))]
pub(crate) fn cross_of(first: Dir, second: Dir) -> i64
    requires first { IsShort first }
    requires second { IsShort second }
    ensures value { result ≡ spec.cross first second }
    ensures small { unsigned_abs result ≤ 2 * 10 ^ 16 }
{
    cross(first, second) as i64
}

/// The dot product.
#[tactic(auto, using(apt_plane::proofs::Heights::short_dot_small))]
pub(crate) fn dot_of(first: Dir, second: Dir) -> i64
    requires first { IsShort first }
    requires second { IsShort second }
    ensures value { result ≡ spec.dot first second }
    ensures small { unsigned_abs result ≤ 2 * 10 ^ 16 }
{
    dot(first, second) as i64
}

/// The square of the length.
#[tactic(auto, using(apt_plane::proofs::Heights::short_square_small))]
pub(crate) fn square_of(way: Dir) -> u64
    requires { IsShort way }
    ensures value { result ≡ spec.length_squared way }
    ensures small { result ≤ 2 * 10 ^ 16 }
{
    length_squared(way) as u64
}

/// The signed distance to the left of the line through the base, times the length of its direction.
pub(crate) fn height_of(base: Pt, dir: Dir, p: Pt) -> i64
    requires base { IsPoint base }
    requires dir { IsDir dir }
    requires point { IsPoint p }
    ensures value { result ≡ spec.cross dir (spec.displacement base p) }
    ensures small { unsigned_abs result ≤ 2 * 10 ^ 16 }
{
    height(base, dir, p) as i64
}
