//! Targets, sides and bands, worked out by hand.

ghost use Rattle.std.specs.Prelude.{IsTrue, IfSome};
ghost use Rattle.apt_plane.specs.Ranges.{IsVector, IsBand};
ghost use Rattle.apt_offset.specs.Ranges.{IsTolerance};

use crate::rows::Drawn::{Line, Ring};
use crate::rows::{Drawn, Pair, Track, assert_all, is_radius, point, surface};
use apt_num::Sign;
use apt_num::Sign::{Minus, Plus, Zero};
use apt_offset::{
    Target, band_at, is_on_check, lacks_room, offset_surface, overruns, side_at_check,
    side_at_drive, tangent, turn,
};
use apt_plane::{Band, Dir, Spot};
use apt_words::{Go, Side, Stop};

/// The line through the origin to the right, and the line up through (1000, 0).
const LINE: Drawn = Line((0, 0), (1, 0));

const WALL: Drawn = Line((1_000, 0), (0, 1));

/// Circles about (1000, 0).
const ROUND: Drawn = Ring((1_000, 0), 1_000);

const HOLE: Drawn = Ring((1_000, 0), 300);

const NONE: [Sign; 4] = [Zero, Zero, Zero, Zero];

/// Forward, a point, the surface, and how it runs there to the left, to the right, ahead and back. Seen to the north, the
/// line to the right runs to the right; seen along it, ahead. A circle runs to the north at its rightmost point.
const TURNS: [(Pair, Pair, Drawn, [Sign; 4]); 5] = [
    ((0, 1), (1_000, 0), LINE, [Minus, Plus, Zero, Zero]),
    ((1, 0), (1_000, 0), LINE, [Zero, Zero, Plus, Minus]),
    ((0, 0), (1_000, 0), LINE, NONE),
    (
        (0, 1),
        (1_000, 0),
        Ring((0, 0), 1_000),
        [Zero, Zero, Plus, Minus],
    ),
    ((0, 1), (0, 0), Ring((0, 0), 1_000), NONE),
];

/// A way that is short, or none.
fn forward(along: Pair) -> Option<Dir>
    ensures { IfSome result IsVector }
{
    let (dx, dy) = along;
    if dx.unsigned_abs() <= 1_000 && dy.unsigned_abs() <= 1_000 {
        Some(Dir { dx, dy })
    } else {
        None
    }
}

fn turn_at(to: Pair, at: Pair, drive: Drawn, go: Go) -> Option<Sign> {
    let drive = surface(drive)?;
    Some(turn(forward(to)?, tangent(&drive, point(at)?), go))
}

fn turns(row: &(Pair, Pair, Drawn, [Sign; 4])) -> bool {
    let (to, at, drive, [left, right, ahead, back]) = *row;
    turn_at(to, at, drive, Go::Left) == Some(left)
        && turn_at(to, at, drive, Go::Right) == Some(right)
        && turn_at(to, at, drive, Go::Forward) == Some(ahead)
        && turn_at(to, at, drive, Go::Back) == Some(back)
}

#[test]
fn turns_of_surfaces(rt: HostRuntime) {
    assert_all(&rt, &TURNS, turns);
}

/// The track of a surface at such an offset to the left of a line, or with such a radius.
fn track_at(drawn: Drawn, by: i64) -> Track {
    match drawn {
        Line(base, along) => Track::Beside(base, along, by),
        Ring(centre, _) => Track::Ring(centre, by),
    }
}

fn is_track(found: Target, want: Track) -> bool {
    match (found, want) {
        (Target::Line { base, dir, off }, Track::Beside((x, y), (dx, dy), by)) => {
            base.x == x && base.y == y && dir.dx == dx && dir.dy == dy && off == by
        }
        (Target::Circ { c, r }, Track::Ring((x, y), reach)) => c.x == x && c.y == y && r == reach,
        _ => false,
    }
}

fn track(drive: Drawn, place: Sign, radius: i64) -> Option<Target> {
    let drive = surface(drive)?;
    if is_radius(radius) {
        Some(offset_surface(&drive, place, radius))
    } else {
        None
    }
}

fn runs_at(drive: Drawn, place: Sign, by: i64) -> bool {
    match track(drive, place, 50) {
        Some(track) => is_track(track, track_at(drive, by)),
        None => false,
    }
}

/// A side, a sense, and the tracks of a cutter of radius 50 at the line and at the circle of radius 1000: left of a motion
/// against the line is on its right, left of a clockwise motion is outside.
const TRACKS: [(Side, i8, i64, i64); 6] = [
    (Side::Left, 1, 50, 950),
    (Side::Left, -1, -50, 1050),
    (Side::Right, 1, -50, 1050),
    (Side::Right, -1, 50, 950),
    (Side::On, 1, 0, 1000),
    (Side::On, -1, 0, 1000),
];

fn runs_beside(row: &(Side, i8, i64, i64)) -> bool {
    let (side, sense, off, reach) = *row;
    let place = side_at_drive(side, sense);
    runs_at(LINE, place, off) && runs_at(ROUND, place, reach)
}

#[test]
fn tracks(rt: HostRuntime) {
    assert_all(&rt, &TRACKS, runs_beside);
}

/// Inside a circle of radius 1000 a cutter of radius 900 just has room.
const ROOM: [(Drawn, i64, bool); 3] = [(ROUND, 900, true), (ROUND, 901, false), (LINE, 901, true)];

fn has_room(row: &(Drawn, i64, bool)) -> bool {
    let (drive, radius, room) = *row;
    match track(drive, Plus, radius) {
        Some(track) => lacks_room(&track) != room,
        None => false,
    }
}

#[test]
fn room(rt: HostRuntime) {
    assert_all(&rt, &ROOM, has_room);
}

/// A check surface, how to stop at it, the start, the drive surface and its side, and the offset or the radius at which a
/// cutter of the radius 50 stops that runs in the sense 1; None where it starts on the check surface.
type Halt = (Drawn, Stop, Pair, Drawn, Side, Option<i64>);

/// What touches the line or the circle of radius 300 about the origin.
const OVER: Drawn = Ring((1_000, 300), 300);

const UNDER: Drawn = Ring((1_000, -300), 300);

const WHEEL: Drawn = Ring((0, 0), 300);

const BOARD: Drawn = Line((300, 0), (0, 1));

const BESIDE: Drawn = Ring((500, 0), 200);

const HELD: Drawn = Ring((100, 0), 200);

const HALTS: [Halt; 33] = [
    // The upright line has the origin on its left and (2000, 0) on its right.
    (WALL, Stop::To, (0, 0), LINE, Side::Left, Some(50)),
    (WALL, Stop::To, (2_000, 0), LINE, Side::Left, Some(-50)),
    (WALL, Stop::Past, (0, 0), LINE, Side::Left, Some(-50)),
    (WALL, Stop::Past, (2_000, 0), LINE, Side::Left, Some(50)),
    (WALL, Stop::On, (0, 0), LINE, Side::Left, Some(0)),
    (WALL, Stop::On, (2_000, 0), LINE, Side::Left, Some(0)),
    // The circle about (1000, 0) has the origin outside and (900, 0) inside.
    (HOLE, Stop::To, (0, 0), LINE, Side::Left, Some(350)),
    (HOLE, Stop::To, (900, 0), LINE, Side::Left, Some(250)),
    (HOLE, Stop::Past, (0, 0), LINE, Side::Left, Some(250)),
    (HOLE, Stop::Past, (900, 0), LINE, Side::Left, Some(350)),
    (HOLE, Stop::On, (0, 0), LINE, Side::Left, Some(300)),
    (HOLE, Stop::On, (900, 0), LINE, Side::Left, Some(300)),
    // A start on the check surface has a stop only on it, or where it touches the drive surface.
    (WALL, Stop::To, (1_000, 7), LINE, Side::Left, None),
    (WALL, Stop::Past, (1_000, 7), LINE, Side::Left, None),
    (WALL, Stop::On, (1_000, 7), LINE, Side::Left, Some(0)),
    (HOLE, Stop::To, (700, 0), LINE, Side::Left, None),
    (HOLE, Stop::Past, (700, 0), LINE, Side::Left, None),
    (HOLE, Stop::On, (700, 0), LINE, Side::Left, Some(300)),
    // Where surfaces touch, the cutter touches both: above the line it is inside the circle above, and outside the one
    // below.
    (OVER, Stop::Tanto, (0, 0), LINE, Side::Left, Some(250)),
    (OVER, Stop::Tanto, (0, 0), LINE, Side::Right, Some(350)),
    (OVER, Stop::Tanto, (0, 0), LINE, Side::On, Some(300)),
    (UNDER, Stop::Tanto, (0, 0), LINE, Side::Left, Some(350)),
    (UNDER, Stop::Tanto, (0, 0), LINE, Side::Right, Some(250)),
    (UNDER, Stop::Tanto, (0, 0), LINE, Side::On, Some(300)),
    (BOARD, Stop::Tanto, (0, 0), WHEEL, Side::Left, Some(50)),
    (BOARD, Stop::Tanto, (0, 0), WHEEL, Side::Right, Some(-50)),
    (BOARD, Stop::Tanto, (0, 0), WHEEL, Side::On, Some(0)),
    (BESIDE, Stop::Tanto, (0, 0), WHEEL, Side::Left, Some(250)),
    (BESIDE, Stop::Tanto, (0, 0), WHEEL, Side::Right, Some(150)),
    (BESIDE, Stop::Tanto, (0, 0), WHEEL, Side::On, Some(200)),
    (HELD, Stop::Tanto, (0, 0), WHEEL, Side::Left, Some(150)),
    (HELD, Stop::Tanto, (0, 0), WHEEL, Side::Right, Some(250)),
    (HELD, Stop::Tanto, (0, 0), WHEEL, Side::On, Some(200)),
];

fn place_at(check: Drawn, how: Stop, from: Pair, drive: Drawn, side: Side) -> Option<Sign> {
    let check = surface(check)?;
    let drive = surface(drive)?;
    let start = point(from)?;
    let at_drive = side_at_drive(side, 1);
    Some(side_at_check(&check, how, start, &drive, at_drive))
}

fn halts(row: &Halt) -> bool {
    let (check, how, from, drive, side, want) = *row;
    match (place_at(check, how, from, drive, side), want) {
        (Some(place), Some(by)) => !is_on_check(how, place) && runs_at(check, place, by),
        (Some(place), None) => is_on_check(how, place),
        (None, _) => false,
    }
}

#[test]
fn stops(rt: HostRuntime) {
    assert_all(&rt, &HALTS, halts);
}

/// A surface, the place of a cutter of 50 at it, how far it may leave its track inwards and outwards, and the band.
const BANDS: [(Drawn, Sign, i64, i64, Pair); 8] = [
    (LINE, Plus, 3, 7, (47, 57)),
    (LINE, Minus, 3, 7, (-57, -47)),
    (LINE, Zero, 3, 7, (-7, 7)),
    (LINE, Zero, 9, 7, (-9, 9)),
    (WALL, Plus, 3, 7, (47, 57)),
    (ROUND, Plus, 3, 7, (943, 953)),
    (ROUND, Minus, 3, 7, (1047, 1057)),
    (ROUND, Zero, 3, 7, (993, 1007)),
];

fn is_tolerance(t: i64) -> bool
    ensures { IsTrue result → IsTolerance t }
{
    t >= 0 && t <= 10_000
}

fn band_of(drive: Drawn, place: Sign, inwards: i64, outwards: i64) -> Option<Band> {
    let drive = surface(drive)?;
    if is_tolerance(inwards) && is_tolerance(outwards) {
        Some(band_at(&drive, place, 50, inwards, outwards))
    } else {
        None
    }
}

fn has_band(row: &(Drawn, Sign, i64, i64, Pair)) -> bool {
    let (drive, place, inwards, outwards, (lo, hi)) = *row;
    band_of(drive, place, inwards, outwards) == Some(Band { lo, hi })
}

#[test]
fn bands(rt: HostRuntime) {
    assert_all(&rt, &BANDS, has_band);
}

const START: Option<Spot> = Some(Spot { j: 0, m: 1 });

const END: Option<Spot> = Some(Spot { j: 1, m: 1 });

const FOOT: Option<Spot> = Some(Spot {
    j: 180_000,
    m: 360_000,
});

/// A segment, a surface, a band and the edge that is not to be passed, and where the segment passes it first: (700, 300)
/// is 424.3 away from the centre (1000, 0), and (1000, 300) is 300 away.
const EDGES: [(Pair, Pair, Drawn, Pair, Sign, Option<Spot>); 13] = [
    ((0, 50), (100, 60), LINE, (0, 60), Plus, None),
    ((0, 50), (100, 60), LINE, (0, 59), Plus, END),
    ((0, 50), (100, 60), LINE, (0, 49), Plus, START),
    ((0, 50), (100, 60), LINE, (50, 0), Minus, None),
    ((0, 50), (100, 60), LINE, (51, 0), Minus, START),
    ((0, 50), (100, 60), LINE, (51, 0), Zero, None),
    ((700, 300), (1300, 300), HOLE, (0, 425), Plus, None),
    ((700, 300), (1300, 300), HOLE, (0, 424), Plus, START),
    ((700, 300), (1300, 300), HOLE, (300, 0), Minus, None),
    ((700, 300), (1300, 300), HOLE, (301, 0), Minus, FOOT),
    ((700, 300), (1300, 300), HOLE, (424, 0), Minus, FOOT),
    ((700, 300), (1300, 300), HOLE, (425, 0), Minus, START),
    ((700, 300), (1300, 300), HOLE, (425, 0), Zero, None),
];

fn is_band(band: Band) -> bool
    ensures { IsTrue result → IsBand band }
{
    band.lo.unsigned_abs() <= 400_000_000 && band.hi.unsigned_abs() <= 400_000_000
}

fn overrun(from: Pair, to: Pair, check: Drawn, band: Band, beyond: Sign) -> Option<Option<Spot>> {
    let p = point(from)?;
    let q = point(to)?;
    let check = surface(check)?;
    if is_band(band) {
        Some(overruns(p, q, &check, band, beyond))
    } else {
        None
    }
}

fn passes(row: &(Pair, Pair, Drawn, Pair, Sign, Option<Spot>)) -> bool {
    let (from, to, check, (lo, hi), beyond, want) = *row;
    overrun(from, to, check, Band { lo, hi }, beyond) == Some(want)
}

#[test]
fn edges(rt: HostRuntime) {
    assert_all(&rt, &EDGES, passes);
}
