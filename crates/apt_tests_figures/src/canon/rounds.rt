//! Circles, and why they are none.

use crate::rows::{Pair, Round, Straight, assert_all, line, point};
use apt_canon::{FormFault, circle_of, circle_three, circle_through, circle_touching, corner};
use apt_plane::Circ;
use apt_words::Pick;

type Found = Result<Circ, FormFault>;

/// A circle, or why there is none.
type Want = Result<Round, FormFault>;

const NONE: Want = Err(FormFault::Degenerate);

const LARGE: Want = Err(FormFault::TooLarge);

fn is_circle(found: Option<Found>, want: Want) -> bool {
    match (found, want) {
        (Some(Ok(circle)), Ok(((x, y), r))) => circle.c.x == x && circle.c.y == y && circle.r == r,
        (Some(Err(fault)), Err(other)) => fault == other,
        _ => false,
    }
}

/// By a centre and a radius: the least radius, and the reach.
const ABOUT: [(Pair, i64, Want); 7] = [
    ((0, 0), 100, Ok(((0, 0), 100))),
    ((0, 0), 99, NONE),
    ((0, 0), -100, NONE),
    ((48_000_000, 0), 1_000_000, Ok(((48_000_000, 0), 1_000_000))),
    ((48_000_000, 0), 1_000_001, LARGE),
    (
        (0, -48_000_000),
        1_000_000,
        Ok(((0, -48_000_000), 1_000_000)),
    ),
    ((0, -48_000_000), 1_000_001, LARGE),
];

fn about(row: &(Pair, i64, Want)) -> bool {
    let (centre, r, want) = *row;
    match point(centre) {
        Some(c) => is_circle(Some(circle_of(c, r)), want),
        None => false,
    }
}

#[test]
fn circles_by_their_radius(rt: HostRuntime) {
    assert_all(&rt, &ABOUT, about);
}

/// By a centre and a point. The roots of 10100 and of 10121 are 100.498 and 100.603.
const THROUGH: [(Pair, Pair, Want); 6] = [
    ((0, 0), (99, 0), NONE),
    ((0, 0), (48_000_000, 0), Ok(((0, 0), 48_000_000))),
    ((0, -48_000_000), (48_000_000, 0), LARGE),
    ((0, 0), (300, -400), Ok(((0, 0), 500))),
    ((0, 0), (100, 10), Ok(((0, 0), 100))),
    ((0, 0), (100, 11), Ok(((0, 0), 101))),
];

fn drawn_through(centre: Pair, p: Pair) -> Option<Found> {
    Some(circle_through(point(centre)?, point(p)?))
}

fn through(row: &(Pair, Pair, Want)) -> bool {
    let (centre, p, want) = *row;
    is_circle(drawn_through(centre, p), want)
}

#[test]
fn circles_through_a_point(rt: HostRuntime) {
    assert_all(&rt, &THROUGH, through);
}

/// The x axis.
const RIGHT: Straight = ((0, 0), (5, 0));

/// The y axis.
const UP: Straight = ((0, 0), (0, 3));

/// The length of its direction is 5.
const STEEP: Straight = ((0, 0), (3, 4));

/// By a centre and a line that they touch, from both its sides.
const TOUCHING: [(Pair, Straight, Want); 4] = [
    ((0, 99), RIGHT, NONE),
    ((500, 0), STEEP, Ok(((500, 0), 400))),
    ((-500, 0), STEEP, Ok(((-500, 0), 400))),
    ((0, 501), STEEP, Ok(((0, 501), 301))),
];

fn drawn_touching(centre: Pair, to: Straight) -> Option<Found> {
    Some(circle_touching(point(centre)?, &line(to)?))
}

fn touches(row: &(Pair, Straight, Want)) -> bool {
    let (centre, to, want) = *row;
    is_circle(drawn_touching(centre, to), want)
}

#[test]
fn circles_that_touch_a_line(rt: HostRuntime) {
    assert_all(&rt, &TOUCHING, touches);
}

/// Through three points.
const THREE: [(Pair, Pair, Pair, Want); 9] = [
    ((0, 0), (198, 0), (99, 99), NONE),
    ((0, 0), (200, 0), (100, 100), Ok(((100, 0), 100))),
    // The exact radius is 223606.798.
    (
        (0, 0),
        (400_000, 0),
        (0, 200_000),
        Ok(((200_000, 100_000), 223_607)),
    ),
    (
        (0, 200_000),
        (400_000, 0),
        (0, 0),
        Ok(((200_000, 100_000), 223_607)),
    ),
    ((0, 0), (-401, 0), (0, -301), Ok(((-201, -151), 251))),
    // On a line.
    ((0, 0), (300, 400), (-600, -800), NONE),
    ((0, 0), (300, 400), (0, 0), NONE),
    // The first centre lies 1.25 * 10^15 below; the other is near, and its circle too large.
    ((-50_000_000, 0), (50_000_000, 0), (0, 1), LARGE),
    ((0, 0), (50_000_000, 0), (0, 50_000_000), LARGE),
];

fn drawn_by_three(p: Pair, q: Pair, r: Pair) -> Option<Found> {
    Some(circle_three(point(p)?, point(q)?, point(r)?))
}

fn three(row: &(Pair, Pair, Pair, Want)) -> bool {
    let (p, q, r, want) = *row;
    is_circle(drawn_by_three(p, q, r), want)
}

#[test]
fn circles_through_three_points(rt: HostRuntime) {
    assert_all(&rt, &THREE, three);
}

/// In the corner of two lines, on a side of each.
const CORNERS: [(Straight, Pick, Straight, Pick, i64, Want); 14] = [
    (
        RIGHT,
        Pick::YLarge,
        UP,
        Pick::XLarge,
        250,
        Ok(((250, 250), 250)),
    ),
    (
        RIGHT,
        Pick::YLarge,
        UP,
        Pick::XSmall,
        250,
        Ok(((-250, 250), 250)),
    ),
    (
        RIGHT,
        Pick::YSmall,
        UP,
        Pick::XSmall,
        250,
        Ok(((-250, -250), 250)),
    ),
    (
        RIGHT,
        Pick::YSmall,
        UP,
        Pick::XLarge,
        250,
        Ok(((250, -250), 250)),
    ),
    (
        STEEP,
        Pick::YLarge,
        RIGHT,
        Pick::YLarge,
        200,
        Ok(((-100, 200), 200)),
    ),
    (
        STEEP,
        Pick::XLarge,
        RIGHT,
        Pick::YLarge,
        200,
        Ok(((400, 200), 200)),
    ),
    // A radius that is none comes first, then a modifier that names no side, the first line's before the second's.
    (RIGHT, Pick::YLarge, RIGHT, Pick::YLarge, 99, NONE),
    (RIGHT, Pick::XLarge, UP, Pick::XLarge, 250, NONE),
    (UP, Pick::XLarge, RIGHT, Pick::XLarge, 250, NONE),
    (RIGHT, Pick::YLarge, RIGHT, Pick::XLarge, 250, NONE),
    (
        RIGHT,
        Pick::YLarge,
        RIGHT,
        Pick::YLarge,
        250,
        Err(FormFault::NoMeeting),
    ),
    // Past the limit, at it, and within the reach of circles.
    (
        RIGHT,
        Pick::YLarge,
        ((49_999_900, 0), (0, 1)),
        Pick::XLarge,
        101,
        Err(FormFault::OutOfRange),
    ),
    (
        RIGHT,
        Pick::YLarge,
        ((49_999_900, 0), (0, 1)),
        Pick::XLarge,
        100,
        LARGE,
    ),
    (
        RIGHT,
        Pick::YLarge,
        ((48_999_800, 0), (0, 1)),
        Pick::XLarge,
        100,
        Ok(((48_999_900, 100), 100)),
    ),
];

fn cornered(a: Straight, pick_a: Pick, b: Straight, pick_b: Pick, r: i64) -> Option<Found> {
    let a = line(a)?;
    let b = line(b)?;
    if r.unsigned_abs() <= 100_000_000 {
        Some(corner(&a, pick_a, &b, pick_b, r))
    } else {
        None
    }
}

fn fills(row: &(Straight, Pick, Straight, Pick, i64, Want)) -> bool {
    let (a, pick_a, b, pick_b, r, want) = *row;
    is_circle(cornered(a, pick_a, b, pick_b, r), want)
}

#[test]
fn circles_in_corners(rt: HostRuntime) {
    assert_all(&rt, &CORNERS, fills);
}
