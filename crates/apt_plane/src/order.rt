//! The order of directions round a centre.

ghost use Rattle.std.specs.Prelude.{◌≡◌, ◌↔◌, ◌≤◌, ◌^◌, ◌*ℤ◌, IsTrue, unsigned_abs};
ghost use Rattle.apt_plane.specs.Ranges.{IsVector, IsSense};
ghost use Rattle.apt_plane.specs.Order.{ComesBefore};
ghost use Rattle.apt_plane.specs.Order as spec;

use crate::figures::Dir;
use crate::vectors::{cross, dot};
use apt_num::{Sign, sign_of};

/// Whether `u` comes before `v` in a turn that begins at `s`: anticlockwise for sense 1, clockwise for -1. It
/// begins with `s` itself; directions that are one do not come before each other.
pub fn before(s: Dir, u: Dir, v: Dir, sense: i8) -> bool
    requires start { IsVector s }
    requires first { IsVector u }
    requires second { IsVector v }
    requires sense { IsSense sense }
    ensures value { result ≡ spec.is_before s sense u v }
    ensures order { IsTrue result ↔ ComesBefore s sense u v }
{
    is_earlier(
        turn_class(s, u, sense),
        turn_class(s, v, sense),
        by_sense(sense, cross(u, v)),
    )
}

/// The lower class comes first, and within one class that from which the other lies onwards.
fn is_earlier(first: u8, second: u8, onwards: i128) -> bool
    ensures { result ≡ spec.is_earlier first second onwards }
{
    first < second || (first == second && (first == 1 || first == 3) && onwards > 0)
}

/// `s` itself 0, up to a half turn 1, the half turn 2, beyond it 3.
fn turn_class(s: Dir, u: Dir, sense: i8) -> u8
    requires start { IsVector s }
    requires way { IsVector u }
    requires sense { IsSense sense }
    ensures { result ≡ spec.turn_class s sense u }
{
    class_of(sign_of(by_sense(sense, cross(s, u))), sign_of(dot(s, u)))
}

fn class_of(aside: Sign, ahead: Sign) -> u8
    ensures { result ≡ spec.class_of aside ahead }
{
    match aside {
        Sign::Plus => 1,
        Sign::Minus => 3,
        Sign::Zero => match ahead {
            Sign::Plus => 0,
            Sign::Zero | Sign::Minus => 2,
        },
    }
}

/// A number by the sense of a turn.
#[tactic(auto, using(crate::proofs::Turns::kept, crate::proofs::Turns::negated))]
pub fn by_sense(sense: i8, area: i128) -> i128
    requires sense { IsSense sense }
    requires area { unsigned_abs area ≤ 2 ^ 125 }
    ensures { result ≡ sense *ℤ area }
{
    if sense < 0 { -area } else { area }
}
