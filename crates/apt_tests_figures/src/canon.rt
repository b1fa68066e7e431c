//! Meetings of lines, worked out by hand or computed from square roots of 80 digits.

use crate::rows::{Pair, Slid, assert_all, moved};
use apt_canon::{FormFault, Wide, line_line, line_line_point};
use apt_plane::vectors::cross_of;
use apt_plane::{Moved, Pt};

mod circles;
mod feet;
mod rounds;
mod tangents;

/// A point, or why there is none.
type At = Result<Pair, FormFault>;

const NONE: At = Err(FormFault::NoMeeting);

const FAR: At = Err(FormFault::OutOfRange);

fn is_at(found: Result<Pt, FormFault>, want: At) -> bool {
    match (found, want) {
        (Ok(p), Ok((x, y))) => p.x == x && p.y == y,
        (Err(fault), Err(other)) => fault == other,
        _ => false,
    }
}

/// The x axis.
const AXIS: Slid = (((0, 0), (1, 0)), 0);

/// Two lines, and where they meet.
const MEETINGS: [(Slid, Slid, At); 13] = [
    // To the left is up for a line to the right, and to the left for a line up.
    (
        (((1000, 2000), (5, 0)), 0),
        (((-400, 700), (0, 3)), 0),
        Ok((-400, 2000)),
    ),
    (
        (((1000, 2000), (5, 0)), 300),
        (((-400, 700), (0, 3)), 200),
        Ok((-600, 2300)),
    ),
    (
        (((-400, 700), (0, 3)), 200),
        (((1000, 2000), (5, 0)), 300),
        Ok((-600, 2300)),
    ),
    (
        (((1000, 2000), (-5, 0)), 300),
        (((-400, 700), (0, -3)), 200),
        Ok((-200, 1700)),
    ),
    // Moved (3, 4) and (-5, 12) by multiples of their lengths, 5 and 13: they meet at (7.25, 58).
    (
        (((10, 20), (3, 4)), 25),
        (((7, -9), (-5, 12)), -26),
        Ok((7, 58)),
    ),
    (
        (((1234567, -7654321), (30, 41)), 12345),
        (((-2222222, 3333333), (-17, 5)), -6789),
        Ok((7230001, 560344)),
    ),
    (
        (((0, 0), (1, 1)), 100),
        (((0, 0), (1, -2)), -70),
        Ok((-99, 42)),
    ),
    // They meet at x = -0.5 and at 0.5: halves are rounded away from zero.
    (AXIS, (((0, 1), (1, 2)), 0), Ok((-1, 0))),
    (AXIS, (((0, -1), (1, 2)), 0), Ok((1, 0))),
    // A line that falls by 0.5 over 250 inches, at the coordinate limit and past it from a base one unit on.
    (
        AXIS,
        (((0, 100000), (25000000, -50000)), 0),
        Ok((50000000, 0)),
    ),
    (AXIS, (((1, 100000), (25000000, -50000)), 0), FAR),
    // Parallel lines.
    ((((0, 0), (3, -4)), 5), (((10, 10), (-6, 8)), 5), NONE),
    ((((0, 0), (3, -4)), 0), (((0, 0), (3, -4)), 0), NONE),
];

fn meet_at(row: &(Slid, Slid, At)) -> bool {
    let (a, b, want) = *row;
    match (moved(a), moved(b)) {
        (Some(a), Some(b)) => is_at(line_line(&a, &b), want),
        _ => false,
    }
}

#[test]
fn meetings_of_lines(rt: HostRuntime) {
    assert_all(&rt, &MEETINGS, meet_at);
}

/// A line that falls by 3 over 10^8 needs 10^8 / 3 times its height, 50,000,000, to meet the x axis.
const FALLING: Slid = (((7, 50_000_000), (100_000_000, -3)), 0);

fn far_meeting(a: Slid, b: Slid) -> Option<Wide> {
    let a: Moved = moved(a)?;
    let b: Moved = moved(b)?;
    if cross_of(a.line.dir, b.line.dir) == 0 {
        return None;
    }
    Some(line_line_point(&a, &b))
}

#[test]
fn a_meeting_far_out_of_range(rt: HostRuntime) {
    let far = Wide {
        x: 1_666_666_666_666_674,
        y: 0,
    };
    assert!(rt; far_meeting(AXIS, FALLING) == Some(far));
    assert!(rt; meet_at(&(AXIS, FALLING, FAR)));
}
