//! How near points are to targets, and where surfaces touch, worked out by hand.

use crate::rows::Drawn::{Line, Ring};
use crate::rows::{Drawn, Pair, Track, assert_all, point, surface, target};
use apt_num::Sign;
use apt_plane::Axis;
use apt_stop::{is_near, is_touching, side_of, tangent_axis};

mod decisions;

/// Along (3, 4), moved by 50: (x, y) has the height 3y - 4x, which is 5 times its distance.
const SLANTED: Track = Track::Beside((0, 0), (3, 4), 50);

/// Along (1, 1), moved by -10: the height y - x is the root of 2 times the distance, and 9, 10 and 11
/// roots of 2 are 12.7, 14.1 and 15.6.
const DIAGONAL: Track = Track::Beside((0, 0), (1, 1), -10);

/// From the lowest points that there are to the highest.
const MOVED_FAR: Track = Track::Beside((0, -50_000_000), (1, 0), 100_000_000);

const ROUND: Track = Track::Ring((0, 0), 100);

/// Targets, a point, whether it is at most so far from the target, and on which side.
const NEAR: [(Track, Pair, i64, bool, Sign); 25] = [
    (SLANTED, (-1, 82), 8, true, Sign::Zero),
    (SLANTED, (-2, 81), 8, true, Sign::Plus),
    (SLANTED, (0, 83), 8, true, Sign::Minus),
    (SLANTED, (-2, 94), 8, true, Sign::Plus),
    (SLANTED, (0, 97), 8, false, Sign::Plus),
    (SLANTED, (0, 70), 8, true, Sign::Minus),
    (SLANTED, (-2, 67), 8, false, Sign::Minus),
    (SLANTED, (0, -83), 8, false, Sign::Minus),
    (DIAGONAL, (0, -12), 1, false, Sign::Plus),
    (DIAGONAL, (0, -13), 1, true, Sign::Plus),
    (DIAGONAL, (0, -14), 1, true, Sign::Plus),
    (DIAGONAL, (0, -15), 1, true, Sign::Minus),
    (DIAGONAL, (0, -16), 1, false, Sign::Minus),
    (DIAGONAL, (0, 14), 1, false, Sign::Plus),
    (MOVED_FAR, (7, 50_000_000), 0, true, Sign::Zero),
    (MOVED_FAR, (7, 49_999_992), 8, true, Sign::Minus),
    (MOVED_FAR, (7, 49_999_991), 8, false, Sign::Minus),
    (ROUND, (60, 80), 8, true, Sign::Zero),
    (ROUND, (60, 79), 8, true, Sign::Plus),
    (ROUND, (61, 80), 8, true, Sign::Minus),
    (ROUND, (92, 0), 8, true, Sign::Plus),
    (ROUND, (91, 0), 8, false, Sign::Plus),
    (ROUND, (0, -108), 8, true, Sign::Minus),
    (ROUND, (0, -109), 8, false, Sign::Minus),
    (ROUND, (0, 0), 8, false, Sign::Plus),
];

fn place_of(track: Track, at: Pair, most: i64) -> Option<(bool, Sign)> {
    let target = target(track)?;
    let p = point(at)?;
    if most >= 0 && most <= 100 {
        Some((is_near(&target, most, p), side_of(&target, p)))
    } else {
        None
    }
}

fn is_placed(row: &(Track, Pair, i64, bool, Sign)) -> bool {
    let (track, at, most, near, side) = *row;
    match place_of(track, at, most) {
        Some((is_near, is_at)) => is_near == near && is_at == side,
        None => false,
    }
}

#[test]
fn points_near_targets(rt: HostRuntime) {
    assert_all(&rt, &NEAR, is_placed);
}

/// A circle of the radius 1.
const UNIT: Drawn = Ring((0, 0), 100_000);

/// The line that touches it from above.
const LEVEL: Drawn = Line((0, 100_000), (1, 0));

/// A circle of the radius 100.
const SMALL: Drawn = Ring((0, 0), 100);

/// A circle of 300 around the small one, which touches it.
const GREAT: Drawn = Ring((200, 0), 300);

/// Surfaces, and whether they touch. 1.00002 from the unit circle's centre a line touches it, and 1.00003 from it not;
/// circles touch from outside at the sum of their radii, one in the other at the difference.
const TOUCHES: [(Drawn, Drawn, bool); 21] = [
    (UNIT, Line((0, 99_997), (1, 0)), false),
    (UNIT, Line((0, 99_998), (1, 0)), true),
    (UNIT, LEVEL, true),
    (UNIT, Line((0, 100_002), (1, 0)), true),
    (UNIT, Line((0, 100_003), (1, 0)), false),
    (LEVEL, LEVEL, false),
    (SMALL, Ring((0, 0), 100), true),
    (SMALL, Ring((2, 0), 100), true),
    (SMALL, Ring((3, 0), 100), false),
    (SMALL, Ring((197, 0), 100), false),
    (SMALL, Ring((198, 0), 100), true),
    (SMALL, Ring((202, 0), 100), true),
    (SMALL, Ring((203, 0), 100), false),
    (SMALL, Ring((197, 0), 300), false),
    (SMALL, Ring((198, 0), 300), true),
    (SMALL, Ring((202, 0), 300), true),
    (SMALL, Ring((203, 0), 300), false),
    (SMALL, Ring((397, 0), 300), false),
    (SMALL, Ring((398, 0), 300), true),
    (SMALL, Ring((402, 0), 300), true),
    (SMALL, Ring((403, 0), 300), false),
];

fn touching(drive: Drawn, check: Drawn) -> Option<bool> {
    Some(is_touching(&surface(drive)?, &surface(check)?))
}

fn touch_so(row: &(Drawn, Drawn, bool)) -> bool {
    let (drive, check, want) = *row;
    touching(drive, check) == Some(want) && touching(check, drive) == Some(want)
}

#[test]
fn surfaces_that_touch(rt: HostRuntime) {
    assert_all(&rt, &TOUCHES, touch_so);
}

/// Drive and check surfaces, and the half of the axis on which they touch with its direction. It is on the line's side
/// of a circle, and of two circles on the side of the other centre, but for the smaller of two that touch one in the
/// other.
const AXES: [(Drawn, Drawn, Option<(Sign, Pair)>); 8] = [
    (UNIT, LEVEL, Some((Sign::Plus, (0, 1)))),
    (LEVEL, UNIT, Some((Sign::Zero, (0, 1)))),
    (SMALL, Ring((200, 0), 100), Some((Sign::Plus, (200, 0)))),
    (SMALL, GREAT, Some((Sign::Minus, (200, 0)))),
    (GREAT, SMALL, Some((Sign::Plus, (-200, 0)))),
    (SMALL, Ring((1, 0), 100), Some((Sign::Plus, (1, 0)))),
    (LEVEL, Line((0, 100_001), (1, 0)), None),
    (GREAT, Ring((200, 0), 100), None),
];

fn axis_of(drive: Drawn, check: Drawn) -> Option<Option<Axis>> {
    Some(tangent_axis(&surface(drive)?, &surface(check)?))
}

fn has_axis(row: &(Drawn, Drawn, Option<(Sign, Pair)>)) -> bool {
    let (drive, check, want) = *row;
    match (axis_of(drive, check), want) {
        (Some(None), None) => true,
        (Some(Some(axis)), Some((half, (dx, dy)))) => {
            axis.half == half && axis.along.dx == dx && axis.along.dy == dy
        }
        _ => false,
    }
}

#[test]
fn axes_of_tangency(rt: HostRuntime) {
    assert_all(&rt, &AXES, has_axis);
}
