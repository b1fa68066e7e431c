//! Meeting points of circles that were worked out by hand, or from square roots of 80 digits.

use super::{At, FAR, NONE, is_at};
use crate::rows::{Round, Slid, assert_all, is_sense, moved, round};
use apt_canon::{FormFault, circle_circle, line_circle};
use apt_plane::Pt;

const ONE_CENTRE: At = Err(FormFault::Degenerate);

/// The x axis.
const AXIS: Slid = (((0, 0), (1, 0)), 0);

/// A line, a circle, and the answers for a sense of 1 and of -1.
const ON_LINES: [(Slid, Round, At, At); 17] = [
    (AXIS, ((0, 0), 200_000), Ok((200_000, 0)), Ok((-200_000, 0))),
    (
        (((0, 0), (-1, 0)), 0),
        ((0, 0), 200_000),
        Ok((-200_000, 0)),
        Ok((200_000, 0)),
    ),
    (
        (((0, 0), (1, 0)), 30),
        ((0, 0), 50),
        Ok((40, 30)),
        Ok((-40, 30)),
    ),
    (
        (((0, 0), (1, 0)), -30),
        ((0, 0), 50),
        Ok((40, -30)),
        Ok((-40, -30)),
    ),
    (
        (((10, 20), (3, 4)), 25),
        ((24, 72), 13),
        Ok((27, 85)),
        Ok((13, 65)),
    ),
    (
        (((1_234_567, -7_654_321), (30, 41)), 12_345),
        ((-2_222_222, 3_333_333), 9_876_543),
        Ok((7_274_715, 621_454)),
        Ok((3_236_256, -4_897_774)),
    ),
    // Where they touch there is one point, and one unit past that none.
    (
        (((0, 0), (1, 0)), 50),
        ((0, 0), 50),
        Ok((0, 50)),
        Ok((0, 50)),
    ),
    (
        (((0, 0), (1, 0)), -50),
        ((0, 0), 50),
        Ok((0, -50)),
        Ok((0, -50)),
    ),
    ((((0, 0), (1, 0)), 51), ((0, 0), 50), NONE, NONE),
    ((((0, 0), (1, 0)), -51), ((0, 0), 50), NONE, NONE),
    (
        (((5, -7), (0, 3)), 0),
        ((5, 900), 0),
        Ok((5, 900)),
        Ok((5, 900)),
    ),
    ((((5, -7), (0, 3)), 0), ((6, 900), 0), NONE, NONE),
    // They meet by less than the rounding, which leaves no chord.
    (
        (((27_304_196, -27_304_197), (1, 1)), 0),
        ((0, 0), 38_613_965),
        Ok((27_304_197, -27_304_197)),
        Ok((27_304_197, -27_304_197)),
    ),
    (
        AXIS,
        ((0, 0), 50_000_000),
        Ok((50_000_000, 0)),
        Ok((-50_000_000, 0)),
    ),
    (AXIS, ((0, 0), 50_000_001), FAR, FAR),
    (
        (((-50_000_000, -50_000_000), (100_000_000, 100_000_000)), 0),
        ((50_000_000, 50_000_000), 100_000_000),
        FAR,
        Ok((-20_710_678, -20_710_678)),
    ),
    (
        (
            ((50_000_000, -50_000_000), (100_000_000, 99_999_999)),
            100_000_000,
        ),
        ((-50_000_000, 50_000_000), 99_999_999),
        FAR,
        FAR,
    ),
];

fn on_line(line: Slid, circle: Round, sigma: i8) -> Option<Result<Pt, FormFault>> {
    let line = moved(line)?;
    let circle = round(circle)?;
    if is_sense(sigma) {
        Some(line_circle(&line, &circle, sigma))
    } else {
        None
    }
}

fn is_answer(found: Option<Result<Pt, FormFault>>, want: At) -> bool {
    match found {
        Some(found) => is_at(found, want),
        None => false,
    }
}

fn line_meets(row: &(Slid, Round, At, At)) -> bool {
    let (line, circle, onwards, back) = *row;
    is_answer(on_line(line, circle, 1), onwards) && is_answer(on_line(line, circle, -1), back)
}

#[test]
fn lines_meet_circles(rt: HostRuntime) {
    assert_all(&rt, &ON_LINES, line_meets);
}

/// Two circles, and the answers for a sense of 1 and of -1.
const ON_CIRCLES: [(Round, Round, At, At); 15] = [
    (
        ((0, 0), 300),
        ((500, 0), 400),
        Ok((180, 240)),
        Ok((180, -240)),
    ),
    (
        ((500, 0), 400),
        ((0, 0), 300),
        Ok((180, -240)),
        Ok((180, 240)),
    ),
    (
        ((1_234_567, -7_654_321), 9_876_543),
        ((-2_222_222, 3_333_333), 4_444_444),
        Ok((-5_086_231, -65_275)),
        Ok((2_071_757, 2_186_676)),
    ),
    // Touching from outside and from inside, and one unit from it.
    (((0, 0), 300), ((700, 0), 400), Ok((300, 0)), Ok((300, 0))),
    (((0, 0), 300), ((701, 0), 400), NONE, NONE),
    (((0, 0), 300), ((100, 0), 400), Ok((-300, 0)), Ok((-300, 0))),
    (((0, 0), 300), ((99, 0), 400), NONE, NONE),
    (((0, 0), 400), ((100, 0), 300), Ok((400, 0)), Ok((400, 0))),
    (((0, 0), 400), ((99, 0), 300), NONE, NONE),
    (((7, -9), 300), ((7, -9), 300), ONE_CENTRE, ONE_CENTRE),
    (((7, -9), 300), ((7, -9), 400), ONE_CENTRE, ONE_CENTRE),
    (
        ((-50_000_000, 0), 50_000_000),
        ((50_000_000, 0), 50_000_000),
        Ok((0, 0)),
        Ok((0, 0)),
    ),
    (
        ((-50_000_000, 0), 70_710_678),
        ((50_000_000, 0), 70_710_678),
        Ok((0, 50_000_000)),
        Ok((0, -50_000_000)),
    ),
    (
        ((-50_000_000, -50_000_000), 100_000_000),
        ((50_000_000, 50_000_000), 100_000_000),
        Ok((-50_000_000, 50_000_000)),
        Ok((50_000_000, -50_000_000)),
    ),
    (((0, 0), 100_000_000), ((1, 0), 100_000_000), FAR, FAR),
];

fn on_circle(a: Round, b: Round, sigma: i8) -> Option<Result<Pt, FormFault>> {
    let a = round(a)?;
    let b = round(b)?;
    if a.r >= 100 && b.r >= 100 && is_sense(sigma) {
        Some(circle_circle(&a, &b, sigma))
    } else {
        None
    }
}

fn circles_meet(row: &(Round, Round, At, At)) -> bool {
    let (a, b, left, right) = *row;
    is_answer(on_circle(a, b, 1), left) && is_answer(on_circle(a, b, -1), right)
}

#[test]
fn circles_meet_circles(rt: HostRuntime) {
    assert_all(&rt, &ON_CIRCLES, circles_meet);
}
