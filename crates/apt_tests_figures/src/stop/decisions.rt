//! Where courses stop, worked out by hand.

ghost use Rattle.std.specs.Prelude.{◌≡◌, IfSome};
ghost use Rattle.apt_plane.specs.Ranges.{IsPoint, IsSurface, IsSense};
ghost use Rattle.apt_offset.specs.Ranges.{IsRadius};
ghost use Rattle.apt_offset.specs.Sides.{side_at_tangency};
ghost use Rattle.apt_stop.specs.Ranges.{IsCourse};

use crate::rows::Drawn::{Line, Ring};
use crate::rows::{Drawn, Pair, assert_all, is_radius, is_sense, point, surface};
use apt_num::Sign;
use apt_num::Sign::{Minus, Plus, Zero};
use apt_offset::{lacks_room, offset_surface, side_at_check};
use apt_plane::{Pt, Surface};
use apt_stop::{Choice, Course, Ends, Legs, decide, decide_legs, is_near};
use apt_words::Stop::{On, Tanto};
use apt_words::{Case, Stop};

/// The places of the cutter at the drive and the check surface, and its radius. Where it touches, its place at the
/// check surface is not read.
type Cutter = (Sign, Sign, i64);

/// With the cutter on both surfaces.
const THIN: Cutter = (Zero, Zero, 0);

/// A start, the drive surface, the sense, how the cutter stops at the check surface, and the cutter.
type Way = (Pair, Drawn, i8, Stop, Drawn, Cutter);

/// A way with its figures.
#[derive(Clone, Copy)]
struct Leg {
    start: Pt,
    drive: Surface,
    at_drive: Sign,
    sense: i8,
    check: Surface,
    how: Stop,
    at_check: Sign,
    radius: i64,
}

fn place_at_check(leg: &Leg) -> Sign
    requires start { IsPoint leg.now.start }
    requires drive { IsSurface leg.now.drive }
    requires check { IsSurface leg.now.check }
    ensures { leg.now.how ≡ Stop.Tanto → result ≡ side_at_tangency leg.now.drive leg.now.check leg.now.at_drive }
{
    match leg.how {
        Stop::Tanto => side_at_check(&leg.check, leg.how, leg.start, &leg.drive, leg.at_drive),
        Stop::To | Stop::On | Stop::Past => leg.at_check,
    }
}

/// The course of a leg whose start is on its track.
#[tactic(auto, using(apt_stop::proofs::Moved::moved_course))]
fn placed(leg: &Leg) -> Option<Course>
    requires start { IsPoint leg.now.start }
    requires drive { IsSurface leg.now.drive }
    requires sense { IsSense leg.now.sense }
    requires check { IsSurface leg.now.check }
    requires radius { IsRadius leg.now.radius }
    ensures { IfSome result IsCourse }
{
    let track = offset_surface(&leg.drive, leg.at_drive, leg.radius);
    let stop = offset_surface(&leg.check, place_at_check(leg), leg.radius);
    if lacks_room(&track) || lacks_room(&stop) || !is_near(&track, 3, leg.start) {
        return None;
    }
    Some(Course {
        start: leg.start,
        drive: leg.drive,
        track,
        sense: leg.sense,
        check: leg.check,
        how: leg.how,
        stop,
    })
}

fn course(way: Way) -> Option<Course>
    ensures { IfSome result IsCourse }
{
    let (from, drive, sense, how, check, cutter) = way;
    let (at_drive, at_check, radius) = cutter;
    let start = point(from)?;
    let drive = surface(drive)?;
    let check = surface(check)?;
    if is_sense(sense) && is_radius(radius) {
        placed(&Leg {
            start,
            drive,
            at_drive,
            sense,
            check,
            how,
            at_check,
            radius,
        })
    } else {
        None
    }
}

fn is_pair(p: Pt, at: Pair) -> bool {
    let (x, y) = at;
    p.x == x && p.y == y
}

/// The side of the stop, the end, and where it touches the half of the axis; or why there is none.
type Found = Result<(Sign, Pair, Option<Sign>), Case>;

fn is_choice(choice: &Choice, side: Sign, end: Pair, half: Option<Sign>) -> bool {
    let on_half = match (choice.axis, half) {
        (Some(axis), Some(half)) => axis.half == half,
        (None, None) => true,
        _ => false,
    };
    choice.side == side && is_pair(choice.end, end) && on_half
}

fn is_found(found: Result<Choice, Case>, want: Found) -> bool {
    match (found, want) {
        (Ok(choice), Ok((side, end, half))) => is_choice(&choice, side, end, half),
        (Err(case), Err(other)) => case == other,
        _ => false,
    }
}

fn ends_so(row: &(Way, Found)) -> bool {
    let (way, want) = *row;
    match course(way) {
        Some(course) => is_found(decide(&course), want),
        None => false,
    }
}

/// The x axis, and the line up through (1000, 0).
const AXIS: Drawn = Line((0, 0), (1, 0));

const WALL: Drawn = Line((1_000, 0), (0, 1));

/// A cutter of 50 to either side of the check surface.
const BEFORE: Cutter = (Zero, Plus, 50);

const PAST: Cutter = (Zero, Minus, 50);

const BEHIND: Found = Err(Case::Behind);

/// Along the x axis to lines: to the line up through (1000, 0), and to it moved by a cutter of 50 to either side.
const LINE_TO_LINE: [(Way, Found); 10] = [
    (
        ((0, 0), AXIS, 1, On, WALL, THIN),
        Ok((Plus, (1_000, 0), None)),
    ),
    (
        ((2_000, 0), AXIS, -1, On, WALL, THIN),
        Ok((Minus, (1_000, 0), None)),
    ),
    (((0, 0), AXIS, -1, On, WALL, THIN), BEHIND),
    (
        ((0, 0), AXIS, 1, On, Line((5, 7), (-2, 0)), THIN),
        Err(Case::Parallel),
    ),
    (
        ((0, 0), AXIS, 1, On, Line((700, 400), (3, 4)), THIN),
        Ok((Plus, (400, 0), None)),
    ),
    (
        ((941, 0), AXIS, 1, On, WALL, BEFORE),
        Ok((Plus, (950, 0), None)),
    ),
    (((942, 0), AXIS, 1, On, WALL, BEFORE), BEHIND),
    (
        ((1_041, 0), AXIS, 1, On, WALL, PAST),
        Ok((Plus, (1_050, 0), None)),
    ),
    (((1_042, 0), AXIS, 1, On, WALL, PAST), BEHIND),
    (
        (
            (0, 0),
            AXIS,
            -1,
            On,
            Line((0, 50_000_000), (100_000_000, 1)),
            THIN,
        ),
        Err(Case::OutOfRange),
    ),
];

#[test]
fn along_a_line_to_a_line(rt: HostRuntime) {
    assert_all(&rt, &LINE_TO_LINE, ends_so);
}

const ROUND: Drawn = Ring((3_000, 0), 1_000);

/// Along the x axis to circles about (3000, y): from outside to the near side, from inside to the far one, at the touch
/// alone, and 8 units from the edge into the other side. A cutter of 250 stops before the circle or past its edge.
const LINE_TO_CIRCLE: [(Way, Found); 17] = [
    (
        ((0, 0), AXIS, 1, On, ROUND, THIN),
        Ok((Minus, (2_000, 0), None)),
    ),
    (
        ((1_991, 0), AXIS, 1, On, ROUND, THIN),
        Ok((Minus, (2_000, 0), None)),
    ),
    (
        ((1_992, 0), AXIS, 1, On, ROUND, THIN),
        Ok((Plus, (4_000, 0), None)),
    ),
    (
        ((2_500, 0), AXIS, 1, On, ROUND, THIN),
        Ok((Plus, (4_000, 0), None)),
    ),
    (
        ((3_500, 0), AXIS, 1, On, ROUND, THIN),
        Ok((Plus, (4_000, 0), None)),
    ),
    (
        ((3_991, 0), AXIS, 1, On, ROUND, THIN),
        Ok((Plus, (4_000, 0), None)),
    ),
    (((3_992, 0), AXIS, 1, On, ROUND, THIN), BEHIND),
    (((4_009, 0), AXIS, 1, On, ROUND, THIN), BEHIND),
    (((0, 0), AXIS, -1, On, ROUND, THIN), BEHIND),
    (
        ((3_500, 0), AXIS, -1, On, ROUND, THIN),
        Ok((Plus, (2_000, 0), None)),
    ),
    (
        ((5_000, 0), AXIS, -1, On, ROUND, THIN),
        Ok((Minus, (4_000, 0), None)),
    ),
    (
        ((0, 0), AXIS, 1, On, Ring((3_000, 600), 1_000), THIN),
        Ok((Minus, (2_200, 0), None)),
    ),
    (
        ((0, 0), AXIS, 1, On, Ring((3_000, 1_000), 1_000), THIN),
        Ok((Minus, (3_000, 0), None)),
    ),
    (
        ((0, 0), AXIS, 1, On, Ring((3_000, 1_001), 1_000), THIN),
        Err(Case::NoContact),
    ),
    (
        (
            (0, 0),
            Line((0, -250), (1, 0)),
            1,
            On,
            ROUND,
            (Plus, Minus, 250),
        ),
        Ok((Minus, (1_750, 0), None)),
    ),
    (
        (
            (0, 0),
            Line((0, -250), (1, 0)),
            1,
            On,
            ROUND,
            (Plus, Zero, 250),
        ),
        Ok((Minus, (2_000, 0), None)),
    ),
    (
        (
            (0, 0),
            Line((0, -250), (1, 0)),
            1,
            On,
            ROUND,
            (Plus, Plus, 250),
        ),
        Ok((Minus, (2_250, 0), None)),
    ),
];

#[test]
fn along_a_line_to_a_circle(rt: HostRuntime) {
    assert_all(&rt, &LINE_TO_CIRCLE, ends_so);
}

/// A circle about the origin, and the line up through its centre.
const WHEEL: Drawn = Ring((0, 0), 1_000);

const MIDDLE: Drawn = Line((0, 0), (0, 1));

/// Round the circle of 1000 about the origin to lines: through its centre, where it starts on one of the two crossings
/// or not, beside it, and along it.
const CIRCLE_TO_LINE: [(Way, Found); 12] = [
    (
        ((1_000, 0), WHEEL, 1, On, MIDDLE, THIN),
        Ok((Minus, (0, 1_000), None)),
    ),
    (
        ((1_000, 0), WHEEL, -1, On, MIDDLE, THIN),
        Ok((Minus, (0, -1_000), None)),
    ),
    (
        ((-1_000, 0), WHEEL, 1, On, MIDDLE, THIN),
        Ok((Plus, (0, -1_000), None)),
    ),
    (
        ((0, 1_000), WHEEL, 1, On, MIDDLE, THIN),
        Ok((Plus, (0, -1_000), None)),
    ),
    (
        ((0, 1_000), WHEEL, -1, On, MIDDLE, THIN),
        Ok((Minus, (0, -1_000), None)),
    ),
    (
        ((1_000, 0), WHEEL, 1, On, Line((600, 0), (0, 1)), THIN),
        Ok((Minus, (600, 800), None)),
    ),
    (
        ((1_000, 0), WHEEL, 1, On, Line((600, 0), (0, -1)), THIN),
        Ok((Plus, (600, 800), None)),
    ),
    (
        ((-1_000, 0), WHEEL, 1, On, Line((600, 0), (0, 1)), THIN),
        Ok((Plus, (600, -800), None)),
    ),
    (
        ((-1_000, 0), WHEEL, 1, On, WALL, THIN),
        Ok((Plus, (1_000, 0), None)),
    ),
    (
        ((-1_000, 0), WHEEL, 1, On, Line((1_001, 0), (0, 1)), THIN),
        Err(Case::NoContact),
    ),
    (
        ((0, 1_000), WHEEL, 1, On, Line((0, 1_000), (1, 0)), THIN),
        BEHIND,
    ),
    (
        ((8, 1_000), WHEEL, 1, On, Line((0, 1_000), (1, 0)), THIN),
        BEHIND,
    ),
];

#[test]
fn round_a_circle_to_a_line(rt: HostRuntime) {
    assert_all(&rt, &CIRCLE_TO_LINE, ends_so);
}

/// Circles of 500 about (0, 0) and (600, 0), which meet at (300, 400) and (300, -400).
const SMALL: Drawn = Ring((0, 0), 500);

const OTHER: Drawn = Ring((600, 0), 500);

/// Round the circle of 500 about the origin to others.
const CIRCLE_TO_CIRCLE: [(Way, Found); 10] = [
    (
        ((-500, 0), SMALL, 1, On, OTHER, THIN),
        Ok((Minus, (300, -400), None)),
    ),
    (
        ((-500, 0), SMALL, -1, On, OTHER, THIN),
        Ok((Minus, (300, 400), None)),
    ),
    (
        ((500, 0), SMALL, 1, On, OTHER, THIN),
        Ok((Plus, (300, 400), None)),
    ),
    (
        ((500, 0), SMALL, -1, On, OTHER, THIN),
        Ok((Plus, (300, -400), None)),
    ),
    (
        ((300, 400), SMALL, 1, On, OTHER, THIN),
        Ok((Minus, (300, -400), None)),
    ),
    (
        ((300, 400), SMALL, -1, On, OTHER, THIN),
        Ok((Plus, (300, -400), None)),
    ),
    (
        ((-500, 0), SMALL, 1, On, Ring((1_000, 0), 500), THIN),
        Ok((Minus, (500, 0), None)),
    ),
    (
        ((500, 0), SMALL, 1, On, Ring((1_000, 0), 500), THIN),
        BEHIND,
    ),
    (
        ((-500, 0), SMALL, 1, On, Ring((1_001, 0), 500), THIN),
        Err(Case::NoContact),
    ),
    (
        ((-500, 0), SMALL, 1, On, Ring((0, 0), 300), THIN),
        Err(Case::Parallel),
    ),
];

#[test]
fn round_a_circle_to_a_circle(rt: HostRuntime) {
    assert_all(&rt, &CIRCLE_TO_CIRCLE, ends_so);
}

/// The line that touches the circle of 1000 about the origin from above.
const LID: Drawn = Line((0, 1_000), (1, 0));

/// Touching: a gap of 2 is none, an axis is behind at 8 units before it, and on a circle its other half is not.
const TOUCHING: [(Way, Found); 14] = [
    (
        ((0, 0), AXIS, 1, Tanto, Ring((3_000, 1_002), 1_000), THIN),
        Ok((Zero, (3_000, 0), Some(Zero))),
    ),
    (
        ((0, 0), AXIS, 1, Tanto, Ring((3_000, 1_003), 1_000), THIN),
        Err(Case::NotTangent),
    ),
    (
        (
            (2_991, 0),
            AXIS,
            1,
            Tanto,
            Ring((3_000, 1_000), 1_000),
            THIN,
        ),
        Ok((Zero, (3_000, 0), Some(Zero))),
    ),
    (
        (
            (2_992, 0),
            AXIS,
            1,
            Tanto,
            Ring((3_000, 1_000), 1_000),
            THIN,
        ),
        BEHIND,
    ),
    (
        ((0, 0), AXIS, -1, Tanto, Ring((3_000, 1_000), 1_000), THIN),
        BEHIND,
    ),
    (((0, 0), AXIS, 1, Tanto, LID, THIN), Err(Case::Parallel)),
    (
        ((1_000, 0), WHEEL, 1, Tanto, LID, THIN),
        Ok((Zero, (0, 1_000), Some(Plus))),
    ),
    (((8, 1_000), WHEEL, 1, Tanto, LID, THIN), BEHIND),
    (
        ((9, 1_000), WHEEL, 1, Tanto, LID, THIN),
        Ok((Zero, (0, 1_000), Some(Plus))),
    ),
    (
        ((0, -1_000), WHEEL, 1, Tanto, LID, THIN),
        Ok((Zero, (0, 1_000), Some(Plus))),
    ),
    (
        ((1_000, 0), WHEEL, 1, Tanto, Line((0, -1_000), (1, 0)), THIN),
        Ok((Zero, (0, -1_000), Some(Minus))),
    ),
    (
        ((-1_000, 0), WHEEL, 1, Tanto, Ring((1_300, 0), 300), THIN),
        Ok((Zero, (1_000, 0), Some(Plus))),
    ),
    (
        ((0, 1_000), WHEEL, 1, Tanto, Ring((200, 0), 1_200), THIN),
        Ok((Zero, (-1_000, 0), Some(Minus))),
    ),
    (
        ((0, 1_000), WHEEL, 1, Tanto, Ring((0, 0), 300), THIN),
        Err(Case::Parallel),
    ),
];

#[test]
fn to_where_it_touches(rt: HostRuntime) {
    assert_all(&rt, &TOUCHING, ends_so);
}

/// The two ends, or why there are none.
type Both = Result<(Pair, Pair), Case>;

fn are_both(found: Result<Ends, Case>, want: Both) -> bool {
    match (found, want) {
        (Ok(ends), Ok((first, second))) => match ends.second {
            Some(end) => is_pair(ends.first, first) && is_pair(end, second),
            None => false,
        },
        (Err(case), Err(other)) => case == other,
        _ => false,
    }
}

fn end_so(row: &(Way, Both)) -> bool {
    let (way, want) = *row;
    match course(way) {
        Some(course) => are_both(decide_legs(&course, Legs::Two), want),
        None => false,
    }
}

/// To the second meeting. Along the x axis: through a circle from outside, and from 9 units before it; not from inside,
/// at a touch, to a line, or where a leg touches. Round a circle: past its first crossing with a line or a circle on to
/// the other; a full turn from 8 units before the stop, which comes behind what refuses the stop itself.
const TWICE: [(Way, Both); 19] = [
    (
        ((0, 0), AXIS, 1, On, ROUND, THIN),
        Ok(((2_000, 0), (4_000, 0))),
    ),
    (
        ((1_991, 0), AXIS, 1, On, ROUND, THIN),
        Ok(((2_000, 0), (4_000, 0))),
    ),
    (
        ((5_000, 0), AXIS, -1, On, ROUND, THIN),
        Ok(((4_000, 0), (2_000, 0))),
    ),
    (((1_992, 0), AXIS, 1, On, ROUND, THIN), Err(Case::Behind)),
    (((2_500, 0), AXIS, 1, On, ROUND, THIN), Err(Case::Behind)),
    (
        ((0, 0), AXIS, 1, On, Ring((3_000, 1_000), 1_000), THIN),
        Err(Case::Behind),
    ),
    (
        ((0, 0), AXIS, 1, On, Ring((3_000, 1_001), 1_000), THIN),
        Err(Case::NoContact),
    ),
    (((0, 0), AXIS, 1, On, WALL, THIN), Err(Case::Behind)),
    (
        ((0, 0), AXIS, 1, Tanto, Ring((3_000, 1_000), 1_000), THIN),
        Err(Case::Behind),
    ),
    (
        ((1_000, 0), WHEEL, 1, On, MIDDLE, THIN),
        Ok(((0, 1_000), (0, -1_000))),
    ),
    (
        ((1_000, 0), WHEEL, -1, On, MIDDLE, THIN),
        Ok(((0, -1_000), (0, 1_000))),
    ),
    (
        ((9, 1_000), WHEEL, 1, On, MIDDLE, THIN),
        Ok(((0, 1_000), (0, -1_000))),
    ),
    (
        ((8, 1_000), WHEEL, 1, On, MIDDLE, THIN),
        Err(Case::FullTurn),
    ),
    (
        ((0, 1_000), WHEEL, 1, On, MIDDLE, THIN),
        Err(Case::FullTurn),
    ),
    (
        ((1_000, 0), WHEEL, 1, On, Line((1_001, 0), (0, 1)), THIN),
        Err(Case::NoContact),
    ),
    (
        ((-500, 0), SMALL, 1, On, OTHER, THIN),
        Ok(((300, -400), (300, 400))),
    ),
    (((300, 400), SMALL, 1, On, OTHER, THIN), Err(Case::FullTurn)),
    (
        ((-500, 0), SMALL, 1, On, Ring((1_000, 0), 500), THIN),
        Err(Case::Behind),
    ),
    (
        ((-500, 0), SMALL, 1, On, Ring((0, 0), 300), THIN),
        Err(Case::Parallel),
    ),
];

#[test]
fn to_the_second_meeting(rt: HostRuntime) {
    assert_all(&rt, &TWICE, end_so);
}
