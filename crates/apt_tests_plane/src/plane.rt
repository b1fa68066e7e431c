//! Answers worked out by hand.

ghost use Rattle.std.specs.Prelude.{IsTrue};
ghost use Rattle.apt_plane.specs.Ranges.{IsPoint, IsLine, IsVector, IsSense, IsBand};

use crate::rows::assert_all;
use apt_plane::vectors::{cross, displacement, dot, length_squared, perp};
use apt_plane::{Band, Dir, Line, Pt, Spot, before, segment_in_line_band, segment_in_ring};

/// Along the x axis, so that a point's distance is its y.
const FLAT: Line = Line {
    base: Pt { x: 0, y: 0 },
    dir: Dir { dx: 1, dy: 0 },
};

/// The length of its direction is 5.
const STEEP: Line = Line {
    base: Pt { x: 10, y: 20 },
    dir: Dir { dx: 3, dy: 4 },
};

/// A point's distance is `(y - x) / sqrt(2)`.
const DIAGONAL: Line = Line {
    base: Pt { x: 0, y: 0 },
    dir: Dir { dx: 1, dy: 1 },
};

const INSIDE: Result<(), Spot> = Ok(());

const AT_START: Result<(), Spot> = Err(Spot { j: 0, m: 1 });

const AT_END: Result<(), Spot> = Err(Spot { j: 1, m: 1 });

type Pair = (i64, i64);

fn pt((x, y): Pair) -> Pt {
    Pt { x, y }
}

fn band((lo, hi): Pair) -> Band {
    Band { lo, hi }
}

fn is_point(p: Pt) -> bool
    ensures { IsTrue result → IsPoint p }
{
    p.x.unsigned_abs() <= 50_000_000 && p.y.unsigned_abs() <= 50_000_000
}

fn is_line(line: &Line) -> bool
    ensures { IsTrue result → IsLine line.now }
{
    is_point(line.base)
        && line.dir.dx.unsigned_abs() <= 100_000_000
        && line.dir.dy.unsigned_abs() <= 100_000_000
        && length_squared(line.dir) >= 1
}

fn is_band(band: Band) -> bool
    ensures { IsTrue result → IsBand band }
{
    band.lo.unsigned_abs() <= 400_000_000 && band.hi.unsigned_abs() <= 400_000_000
}

/// Segments, each with its band along a line.
const SEGMENTS: [(Line, Pair, Pair, Pair, Result<(), Spot>); 25] = [
    (FLAT, (0, 0), (100, 0), (-8, 8), INSIDE),
    (FLAT, (0, 8), (100, 8), (-8, 8), INSIDE),
    (FLAT, (0, 9), (100, 9), (-8, 8), AT_START),
    (FLAT, (0, -8), (100, -8), (-8, 8), INSIDE),
    (FLAT, (0, -9), (100, -9), (-8, 8), AT_START),
    (FLAT, (0, 9), (100, 0), (-8, 8), AT_START),
    (FLAT, (0, 0), (100, 9), (-8, 8), AT_END),
    (FLAT, (0, 0), (100, -9), (-8, 8), AT_END),
    (FLAT, (0, 9), (100, -9), (-8, 8), AT_START),
    (FLAT, (0, 8), (100, 16), (8, 16), INSIDE),
    (FLAT, (0, 8), (100, 7), (8, 16), AT_END),
    (FLAT, (0, -16), (100, -8), (-16, -8), INSIDE),
    (FLAT, (0, 8), (100, 8), (-16, -8), AT_START),
    (FLAT, (0, 0), (0, 0), (1, -1), AT_START),
    (STEEP, (2, 26), (32, 66), (-10, 10), INSIDE),
    (STEEP, (2, 26), (32, 66), (-10, 9), AT_START),
    (STEEP, (18, 14), (18, 14), (-10, 10), INSIDE),
    (STEEP, (2, 26), (18, 14), (-9, 10), AT_END),
    (STEEP, (-6, 32), (2, 26), (10, 20), INSIDE),
    (DIAGONAL, (0, 41), (41, 0), (-29, 29), INSIDE),
    (DIAGONAL, (0, 99), (0, 0), (-70, 70), AT_START),
    (DIAGONAL, (0, 0), (99, 0), (-70, 70), AT_END),
    (DIAGONAL, (0, 41), (0, 99), (29, 71), AT_START),
    (DIAGONAL, (0, 99), (0, 42), (29, 71), INSIDE),
    (
        DIAGONAL,
        (-4_608_393, 50_000_000),
        (22_619_537, 0),
        (-15_994_428, 38_613_965),
        AT_END,
    ),
];

/// What is answered of figures in range.
fn in_band(p: Pt, q: Pt, line: &Line, band: Band) -> Option<Result<(), Spot>> {
    if is_point(p) && is_point(q) && is_line(line) && is_band(band) {
        Some(segment_in_line_band(p, q, line, band))
    } else {
        None
    }
}

fn lies_in_band(row: &(Line, Pair, Pair, Pair, Result<(), Spot>)) -> bool {
    let (line, p, q, within, want) = *row;
    in_band(pt(p), pt(q), &line, band(within)) == Some(want)
}

#[test]
fn segments_in_bands(rt: HostRuntime) {
    assert_all(&rt, &SEGMENTS, lies_in_band);
}

/// (30, 40) is 50 away from the origin, and the foot of the segment from (-30, 40) to it is 40 away.
const RING_SEGMENTS: [(Pair, Pair, Pair, Pair, Result<(), Spot>); 21] = [
    ((-30, 40), (30, 40), (0, 0), (40, 50), INSIDE),
    (
        (-30, 40),
        (30, 40),
        (0, 0),
        (41, 50),
        Err(Spot { j: 1800, m: 3600 }),
    ),
    ((-30, 40), (30, 40), (0, 0), (40, 49), AT_START),
    ((0, 40), (30, 40), (0, 0), (40, 49), AT_END),
    ((-30, 40), (-10, 40), (0, 0), (41, 50), INSIDE),
    ((10, 40), (30, 40), (0, 0), (41, 50), INSIDE),
    ((-30, 40), (0, 40), (0, 0), (40, 50), INSIDE),
    ((-30, 40), (0, 40), (0, 0), (41, 50), AT_END),
    ((0, 40), (30, 40), (0, 0), (41, 50), AT_START),
    ((-30, 0), (30, 0), (0, 0), (-5, 30), INSIDE),
    ((-30, 0), (30, 0), (0, 0), (0, 30), INSIDE),
    (
        (-30, 0),
        (30, 0),
        (0, 0),
        (1, 30),
        Err(Spot { j: 1800, m: 3600 }),
    ),
    ((0, 0), (0, 0), (0, 0), (0, 0), INSIDE),
    ((0, 0), (0, 0), (0, 0), (-5, -1), AT_START),
    ((30, 40), (30, 40), (0, 0), (50, 50), INSIDE),
    ((30, 40), (30, 40), (0, 0), (51, 60), AT_START),
    ((100, 250), (150, 200), (100, 200), (35, 50), INSIDE),
    (
        (100, 250),
        (150, 200),
        (100, 200),
        (36, 50),
        Err(Spot { j: 2500, m: 5000 }),
    ),
    (
        (100, 250),
        (160, 190),
        (100, 200),
        (36, 61),
        Err(Spot { j: 3000, m: 7200 }),
    ),
    (
        (-50_000_000, 50_000_000),
        (50_000_000, 50_000_000),
        (0, -50_000_000),
        (100_000_000, 111_803_399),
        INSIDE,
    ),
    (
        (-50_000_000, 50_000_000),
        (50_000_000, 50_000_000),
        (0, -50_000_000),
        (100_000_001, 111_803_399),
        Err(Spot {
            j: 5_000_000_000_000_000,
            m: 10_000_000_000_000_000,
        }),
    ),
];

fn in_ring(p: Pt, q: Pt, c: Pt, band: Band) -> Option<Result<(), Spot>> {
    if is_point(p) && is_point(q) && is_point(c) && is_band(band) {
        Some(segment_in_ring(p, q, c, band))
    } else {
        None
    }
}

fn lies_in_ring(row: &(Pair, Pair, Pair, Pair, Result<(), Spot>)) -> bool {
    let (p, q, c, within, want) = *row;
    in_ring(pt(p), pt(q), pt(c), band(within)) == Some(want)
}

#[test]
fn segments_in_rings(rt: HostRuntime) {
    assert_all(&rt, &RING_SEGMENTS, lies_in_ring);
}

fn is_short(u: Dir) -> bool
    ensures { IsTrue result → IsVector u }
{
    u.dx.unsigned_abs() <= 100 && u.dy.unsigned_abs() <= 100
}

fn is_sense(sense: i8) -> bool
    ensures { IsTrue result → IsSense sense }
{
    sense == 1 || sense == -1
}

fn order_answer(s: Dir, u: Dir, v: Dir, sense: i8) -> Option<bool> {
    if is_short(s) && is_short(u) && is_short(v) && is_sense(sense) {
        Some(before(s, u, v, sense))
    } else {
        None
    }
}

/// Eight directions from (3, 1) on, each with its place in a turn to the left and to the right.
const ROUND: [(Dir, usize, usize); 8] = [
    (Dir { dx: 6, dy: 2 }, 0, 0),
    (Dir { dx: 1, dy: 1 }, 1, 7),
    (Dir { dx: -1, dy: 3 }, 2, 6),
    (Dir { dx: -2, dy: 1 }, 3, 5),
    (Dir { dx: -3, dy: -1 }, 4, 4),
    (Dir { dx: -1, dy: -1 }, 5, 3),
    (Dir { dx: 1, dy: -3 }, 6, 2),
    (Dir { dx: 2, dy: -1 }, 7, 1),
];

/// Whether a direction is before each other one just where its place is, to the left and to the right.
fn is_in_order(row: &(Dir, usize, usize)) -> bool {
    let start = Dir { dx: 3, dy: 1 };
    let (u, left, right) = *row;
    for &(v, more_left, more_right) in &ROUND {
        if order_answer(start, u, v, 1) != Some(left < more_left)
            || order_answer(start, u, v, -1) != Some(right < more_right)
        {
            return false;
        }
    }
    true
}

#[test]
fn directions_in_order(rt: HostRuntime) {
    assert_all(&rt, &ROUND, is_in_order);
}

#[test]
fn products(rt: HostRuntime) {
    let u = displacement(Pt { x: 1, y: 2 }, Pt { x: 4, y: -2 });
    let v = Dir { dx: 5, dy: 12 };
    assert!(rt; u == Dir { dx: 3, dy: -4 });
    assert!(rt; perp(u) == Dir { dx: 4, dy: 3 });
    assert!(rt; cross(u, v) == 56);
    assert!(rt; cross(v, u) == -56);
    assert!(rt; dot(u, v) == -33);
    assert!(rt; length_squared(u) == 25);
    assert!(rt; length_squared(v) == 169);
}
