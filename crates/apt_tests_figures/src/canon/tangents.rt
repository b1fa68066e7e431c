//! Tangents. The answers with no whole root were computed from square roots of 60 digits.

use crate::rows::{Pair, Round, Straight, assert_all, circle, point};
use apt_canon::{FormFault, tangent_from, tangent_two};
use apt_plane::Line;

type Found = Result<Line, FormFault>;

/// A tangent, or why there is none.
type Want = Result<Straight, FormFault>;

const NONE: Want = Err(FormFault::NoMeeting);

fn is_line(found: Option<Found>, want: Want) -> bool {
    match (found, want) {
        (Some(Ok(line)), Ok(((x, y), (dx, dy)))) => {
            line.base.x == x && line.base.y == y && line.dir.dx == dx && line.dir.dy == dy
        }
        (Some(Err(fault)), Err(other)) => fault == other,
        _ => false,
    }
}

/// From a point, to the left or not, past a circle.
const FROM: [(Pair, bool, Round, Want); 7] = [
    // The sides of the triangle are 3, 4 and 5.
    (
        (0, 0),
        true,
        ((500_000, 0), 300_000),
        Ok(((0, 0), (79_999_200, 59_999_400))),
    ),
    (
        (0, 0),
        false,
        ((500_000, 0), 300_000),
        Ok(((0, 0), (79_999_200, -59_999_400))),
    ),
    (
        (123_456, -7_654_321),
        false,
        ((-2_222_222, 3_333_333), 98_765),
        Ok(((123_456, -7_654_321), (-20_017_153, 97_975_066))),
    ),
    // From the circle itself, and from inside.
    (
        (0, 0),
        true,
        ((500_000, 0), 500_000),
        Ok(((0, 0), (0, 99_999_000))),
    ),
    (
        (0, 0),
        false,
        ((0, 500_000), 500_000),
        Ok(((0, 0), (99_999_000, 0))),
    ),
    ((0, 0), true, ((500_000, 0), 500_001), NONE),
    // From corner to corner.
    (
        (-50_000_000, -50_000_000),
        true,
        ((48_999_900, 48_999_900), 100),
        Ok(((-50_000_000, -50_000_000), (70_709_921, 70_710_022))),
    ),
];

fn drawn_from(p: Pair, left: bool, past: Round) -> Option<Found> {
    Some(tangent_from(point(p)?, left, &circle(past)?))
}

fn passes(row: &(Pair, bool, Round, Want)) -> bool {
    let (p, left, past, want) = *row;
    is_line(drawn_from(p, left, past), want)
}

#[test]
fn tangents_from_points(rt: HostRuntime) {
    assert_all(&rt, &FROM, passes);
}

/// Past two circles, each to the left or not.
const TWO: [(Round, bool, Round, bool, Want); 15] = [
    (
        ((-48_999_900, -48_999_900), 100),
        true,
        ((48_999_900, 48_999_900), 100),
        true,
        Ok(((-48_999_971, -48_999_829), (70_709_971, 70_709_971))),
    ),
    (
        ((-48_999_900, -48_999_900), 100),
        false,
        ((48_999_900, 48_999_900), 100),
        true,
        Ok(((-48_999_829, -48_999_971), (70_709_869, 70_710_073))),
    ),
    // On all sides.
    (
        ((0, 0), 300_000),
        true,
        ((1_000_000, 0), 200_000),
        true,
        Ok(((30_000, 298_496), (99_497_749, -9_999_900))),
    ),
    (
        ((0, 0), 300_000),
        false,
        ((1_000_000, 0), 200_000),
        false,
        Ok(((30_000, -298_496), (99_497_749, 9_999_900))),
    ),
    (
        ((0, 0), 300_000),
        true,
        ((1_000_000, 0), 200_000),
        false,
        Ok(((150_000, 259_808), (86_601_674, -49_999_500))),
    ),
    (
        ((0, 0), 300_000),
        false,
        ((1_000_000, 0), 200_000),
        true,
        Ok(((150_000, -259_808), (86_601_674, 49_999_500))),
    ),
    // Parallel, past equal circles.
    (
        ((0, 0), 5_000),
        true,
        ((30_000, 40_000), 5_000),
        true,
        Ok(((-4_000, 3_000), (59_999_400, 79_999_200))),
    ),
    (
        ((0, 0), 5_000),
        false,
        ((30_000, 40_000), 5_000),
        false,
        Ok(((4_000, -3_000), (59_999_400, 79_999_200))),
    ),
    // Circles that touch have a tangent where they do, from inside and from outside.
    (
        ((0, 0), 300_000),
        true,
        ((100_000, 0), 200_000),
        true,
        Ok(((300_000, 0), (0, -99_999_000))),
    ),
    (((0, 0), 300_000), true, ((99_999, 0), 200_000), true, NONE),
    (
        ((0, 0), 300_000),
        true,
        ((500_000, 0), 200_000),
        false,
        Ok(((300_000, 0), (0, -99_999_000))),
    ),
    (
        ((0, 0), 300_000),
        true,
        ((499_999, 0), 200_000),
        false,
        NONE,
    ),
    // About one centre.
    (
        ((0, 0), 300_000),
        true,
        ((0, 0), 300_000),
        true,
        Err(FormFault::Degenerate),
    ),
    (((0, 0), 300_000), true, ((0, 0), 300_000), false, NONE),
    (((0, 0), 300_000), true, ((0, 0), 200_000), true, NONE),
];

fn drawn_past_two(a: Round, left_a: bool, b: Round, left_b: bool) -> Option<Found> {
    Some(tangent_two(&circle(a)?, left_a, &circle(b)?, left_b))
}

fn pass_both(row: &(Round, bool, Round, bool, Want)) -> bool {
    let (a, left_a, b, left_b, want) = *row;
    is_line(drawn_past_two(a, left_a, b, left_b), want)
}

#[test]
fn tangents_of_two_circles(rt: HostRuntime) {
    assert_all(&rt, &TWO, pass_both);
}
