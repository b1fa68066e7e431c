//! Points of circles in a direction, feet on lines, and parallels. Those that aren't whole were computed from square
//! roots of 80 digits.

use super::{At, is_at};
use crate::rows::{Pair, Round, Slid, Straight, assert_all, dir, line, moved, point, round};
use apt_canon::{FormFault, foot, foot_point, parallel_at, ray, ray_point};
use apt_plane::{Line, Pt};
use apt_words::Pick;

/// Circles, a direction from the centre, the point there, and whether it is within the limit.
const RAYS: [(Round, Pair, Pair, bool); 11] = [
    (((1000, 2000), 500), (3, 4), (1300, 2400), true),
    (((1000, 2000), 500), (-60, -80), (700, 1600), true),
    (
        ((1234567, -7654321), 12345),
        (30, 41),
        (1241857, -7644358),
        true,
    ),
    (((3, -4), 0), (30, 41), (3, -4), true),
    // Half a unit more than 70.71 in each part goes away from the centre, in each quarter alike.
    (((0, 0), 100), (1, 1), (71, 71), true),
    (((0, 0), 100), (-1, 1), (-71, 71), true),
    (((0, 0), 100), (-1, -1), (-71, -71), true),
    (((0, 0), 100), (1, -1), (71, -71), true),
    (((49_999_900, 0), 101), (0, 1), (49_999_900, 101), true),
    (((49_999_900, 0), 101), (1, 0), (50_000_001, 0), false),
    (((49_999_900, 0), 100), (1, 0), (50_000_000, 0), true),
];

/// What a call answers whose point is within the limit or not.
fn within(at: Pair, is_within: bool) -> At {
    if is_within {
        Ok(at)
    } else {
        Err(FormFault::OutOfRange)
    }
}

fn is_pair(p: Pt, at: Pair) -> bool {
    let (x, y) = at;
    p.x == x && p.y == y
}

fn ray_of(circle: Round, along: Pair) -> Option<Result<Pt, FormFault>> {
    Some(ray(&round(circle)?, dir(along)?))
}

fn ray_point_of(circle: Round, along: Pair) -> Option<Pt> {
    Some(ray_point(&round(circle)?, dir(along)?))
}

fn goes_to(row: &(Round, Pair, Pair, bool)) -> bool {
    let (circle, along, at, is_within) = *row;
    match (ray_of(circle, along), ray_point_of(circle, along)) {
        (Some(found), Some(p)) => is_at(found, within(at, is_within)) && is_pair(p, at),
        _ => false,
    }
}

#[test]
fn rays(rt: HostRuntime) {
    assert_all(&rt, &RAYS, goes_to);
}

/// Points, a line, the foot on it, and whether that is within the limit. The left of (3, 4) is (-4, 3), with a length
/// of 5.
const FEET: [(Pair, Slid, Pair, bool); 7] = [
    ((25, 0), (((0, 0), (3, 4)), 0), (9, 12), true),
    ((25, 0), (((0, 0), (3, 4)), 5), (5, 15), true),
    ((25, 0), (((0, 0), (3, 4)), -5), (13, 9), true),
    (
        (1234567, -7654321),
        (((-2222222, 3333333), (-17, 5)), -6789),
        (3935626, 1529278),
        true,
    ),
    // The feet lie at (0.5, 0.5) and (-0.5, -0.5), and are rounded away from the point.
    ((1, 0), (((0, 0), (1, 1)), 0), (0, 1), true),
    ((-1, 0), (((0, 0), (1, 1)), 0), (0, -1), true),
    (
        (50_000_000, -50_000_000),
        (
            ((-50_000_000, 50_000_000), (99_999_999, 100_000_000)),
            100_000_000,
        ),
        (-120_710_679, 120_710_677),
        false,
    ),
];

fn foot_of(p: Pair, onto: Slid) -> Option<Result<Pt, FormFault>> {
    Some(foot(point(p)?, &moved(onto)?))
}

fn foot_point_of(p: Pair, onto: Slid) -> Option<Pt> {
    Some(foot_point(point(p)?, &moved(onto)?))
}

fn drops_to(row: &(Pair, Slid, Pair, bool)) -> bool {
    let (p, onto, at, is_within) = *row;
    match (foot_of(p, onto), foot_point_of(p, onto)) {
        (Some(found), Some(q)) => is_at(found, within(at, is_within)) && is_pair(q, at),
        _ => false,
    }
}

#[test]
fn feet(rt: HostRuntime) {
    assert_all(&rt, &FEET, drops_to);
}

/// Lines, the side of the parallel by a modifier, its distance, and its base; its direction is that of the line. The
/// side is that of the modifier, whichever way the line runs.
const PARALLELS: [(Straight, Pick, i64, At); 10] = [
    (((7, 0), (5, 0)), Pick::YLarge, 1000, Ok((7, 1000))),
    (((7, 0), (5, 0)), Pick::YSmall, 1000, Ok((7, -1000))),
    (((7, 0), (-5, 0)), Pick::YLarge, 1000, Ok((7, 1000))),
    (((0, 0), (3, 4)), Pick::XLarge, 500, Ok((400, -300))),
    (((0, 0), (3, 4)), Pick::XSmall, 500, Ok((-400, 300))),
    (
        ((1234567, -7654321), (30, 41)),
        Pick::YSmall,
        12345,
        Ok((1244530, -7661611)),
    ),
    (((0, 0), (3, 4)), Pick::XLarge, 0, Ok((0, 0))),
    (
        ((0, 50_000_000), (5, 0)),
        Pick::XLarge,
        1000,
        Err(FormFault::Degenerate),
    ),
    (
        ((0, 50_000_000), (5, 0)),
        Pick::YLarge,
        -1,
        Err(FormFault::Degenerate),
    ),
    (
        ((0, 50_000_000), (5, 0)),
        Pick::YLarge,
        1,
        Err(FormFault::OutOfRange),
    ),
];

fn parallel(to: Straight, pick: Pick, distance: i64) -> Option<Result<Line, FormFault>> {
    let to = line(to)?;
    if distance.unsigned_abs() <= 100_000_000 {
        Some(parallel_at(&to, pick, distance))
    } else {
        None
    }
}

fn runs_beside(row: &(Straight, Pick, i64, At)) -> bool {
    let (to, pick, distance, want) = *row;
    match parallel(to, pick, distance) {
        Some(Ok(line)) => is_at(Ok(line.base), want),
        Some(Err(fault)) => is_at(Err(fault), want),
        None => false,
    }
}

#[test]
fn parallels(rt: HostRuntime) {
    assert_all(&rt, &PARALLELS, runs_beside);
}
