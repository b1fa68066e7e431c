//! The side of a line that a modifier names.

ghost use Rattle.std.specs.Prelude.{◌≡◌, ◌^◌, ◌≤◌, unsigned_abs, IfOk};
ghost use Rattle.apt_plane.specs.Ranges.{IsLine};
ghost use Rattle.apt_canon.specs.Feet as feet;

use crate::FormFault;
use apt_num::{Sign, sign_of};
use apt_plane::Line;
use apt_words::Pick;

/// The side of a line that a modifier names: `Plus` is its left, and `Zero` none, where the line runs along the
/// axis of the modifier.
pub fn side_picked(l: &Line, pick: Pick) -> Sign
    requires { IsLine l.now }
    ensures { result ≡ feet.side_picked l.now pick }
{
    let part = match pick {
        Pick::XLarge => -l.dir.dy,
        Pick::XSmall => l.dir.dy,
        Pick::YLarge => l.dir.dx,
        Pick::YSmall => -l.dir.dx,
    };
    sign_of(i128::from(part))
}

/// How far a line is moved to its left, in grid units, for a distance to the side that a modifier names.
/// `Degenerate` where it names none.
pub fn offset_picked(side: Sign, distance: i64) -> Result<i64, FormFault>
    requires { unsigned_abs distance ≤ 10 ^ 8 }
    ensures value { result ≡ feet.offset_picked side distance }
    ensures small { IfOk result (λ h. unsigned_abs h ≤ 10 ^ 8) }
{
    match side {
        Sign::Plus => Ok(distance),
        Sign::Zero => Err(FormFault::Degenerate),
        Sign::Minus => Ok(-distance),
    }
}
