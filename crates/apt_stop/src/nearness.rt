//! How near a point is to a target, and on which side of it.

ghost use Rattle.std.specs.Prelude.{◌≡◌, ◌*◌, ◌^◌, ◌≤◌, ◌&&◌, nat_le, pos, neg_ℤ, ◌+ℤ◌, ◌-ℤ◌, ◌≤ℤ◌, unsigned_abs};
ghost use Rattle.apt_num.specs.Sign.{root_sign_of};
ghost use Rattle.apt_num.specs.Sign as signs;
ghost use Rattle.apt_plane.specs.Ranges.{IsPoint, IsDir, IsVector, IsSense};
ghost use Rattle.apt_plane.specs.Vectors as vectors;
ghost use Rattle.apt_offset.specs.Ranges.{IsTarget, IsLineTarget, IsCircleTarget};
ghost use Rattle.apt_stop.specs.Nearness as near;

use apt_num::{Sign, compare, root_sign};
use apt_offset::Target;
use apt_plane::vectors::{displacement, height, length_squared, length_squared_of};
use apt_plane::{Dir, Pt};

/// A stop is near within so many grid units.
pub(crate) const NEAR_STOP: i64 = 8;

/// Whether a point is at most `g` grid units from a target.
#[inline(always)]
pub fn is_near(target: &Target, g: i64, p: Pt) -> bool
    requires target { IsTarget target.now }
    requires least { pos 0 ≤ℤ g }
    requires most { g ≤ℤ pos 100 }
    requires point { IsPoint p }
    ensures { result ≡ near.is_near target.now g p }
{
    match target {
        Target::Line { base, dir, off } => {
            is_in_strip(height(*base, *dir, p), *off, g, length_squared_of(*dir))
        }
        Target::Circ { c, r } => is_in_ring(*r, g, length_squared(displacement(*c, p))),
    }
}

/// On which side of a target a point is: `Plus` is left of a line and inside a circle.
pub fn side_of(target: &Target, p: Pt) -> Sign
    requires target { IsTarget target.now }
    requires point { IsPoint p }
    ensures { result ≡ near.side_of target.now p }
{
    match target {
        Target::Line { base, dir, off } => side_by_height(
            height(*base, *dir, p),
            *off,
            length_squared_of(*dir),
        ),
        Target::Circ { c, r } => compare(square(*r), length_squared(displacement(*c, p))),
    }
}

/// The direction in which a motion goes along a line: that of the line for 1, the other for -1.
#[tactic(auto, using(crate::proofs::Headings::kept, crate::proofs::Headings::turned))]
pub fn heading(sense: i8, d: Dir) -> Dir
    requires sense { IsSense sense }
    requires direction { IsVector d }
    ensures value { result ≡ near.heading sense d }
    ensures fits { IsVector result }
{
    if sense < 0 {
        Dir {
            dx: -d.dx,
            dy: -d.dy,
        }
    } else {
        d
    }
}

/// Whether a point of this height over a line is near it, moved to its left.
pub(crate) fn is_in_strip(height: i128, off: i64, g: i64, length_squared: u128) -> bool
    requires height { unsigned_abs height ≤ 2 * 10 ^ 16 }
    requires off { unsigned_abs off ≤ 10 ^ 8 }
    requires least { pos 0 ≤ℤ g }
    requires most { g ≤ℤ pos 100 }
    requires length_squared { length_squared ≤ 2 * 10 ^ 16 }
    ensures { result ≡ (signs.is_at_least height (off -ℤ g) length_squared && signs.is_at_least (neg_ℤ height) (neg_ℤ off -ℤ g) length_squared) }
{
    is_at_least(height, off - g, length_squared) && is_at_least(-height, -off - g, length_squared)
}

pub(crate) fn is_in_ring(r: i64, g: i64, length_squared: u128) -> bool
    requires radius { pos 100 ≤ℤ r }
    requires limit { r ≤ℤ pos (10 ^ 8) }
    requires least { pos 0 ≤ℤ g }
    requires most { g ≤ℤ pos 100 }
    ensures { result ≡ (nat_le (signs.square (r -ℤ g)) length_squared && nat_le length_squared (signs.square (r +ℤ g))) }
{
    square(r - g) <= length_squared && length_squared <= square(r + g)
}

/// Whether `k >= h * sqrt(n)`.
#[tactic(auto, using(crate::proofs::Sizes::product_fits))]
pub(crate) fn is_at_least(k: i128, h: i64, n: u128) -> bool
    requires k { unsigned_abs k ≤ 2 * 10 ^ 16 }
    requires h { unsigned_abs h ≤ 2 * 10 ^ 8 }
    requires n { n ≤ 2 * 10 ^ 16 }
    ensures { result ≡ signs.is_at_least k h n }
{
    match root_sign(k, i128::from(h), n) {
        Sign::Minus => false,
        Sign::Zero | Sign::Plus => true,
    }
}

/// On which side of a line, moved to its left, a point of this height over it is.
#[tactic(auto, using(crate::proofs::Sizes::product_fits))]
pub(crate) fn side_by_height(height: i128, off: i64, length_squared: u128) -> Sign
    requires height { unsigned_abs height ≤ 2 * 10 ^ 16 }
    requires off { unsigned_abs off ≤ 10 ^ 8 }
    requires length_squared { length_squared ≤ 2 * 10 ^ 16 }
    ensures { result ≡ root_sign_of height off length_squared }
{
    root_sign(height, i128::from(off), length_squared)
}

pub(crate) fn square(a: i64) -> u128
    ensures { result ≡ signs.square a }
{
    let size = u128::from(a.unsigned_abs());
    size * size
}
