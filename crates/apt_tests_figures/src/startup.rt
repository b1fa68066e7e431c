//! Where start-ups end, worked out by hand.

ghost use Rattle.std.specs.Prelude.{IfSome};
ghost use Rattle.apt_startup.specs.Ranges.{IsGoal, IsStartUp};

use crate::rows::Drawn::{Line, Ring};
use crate::rows::{Drawn, Pair, assert_all, is_radius, point, surface};
use apt_plane::Pt;
use apt_startup::{Goal, StartUp, start};
use apt_words::Stop::{On, Past, To};
use apt_words::{Case, Stop};

/// A surface, and how the cutter stops there.
type Aim = (Stop, Drawn);

/// A start, the cutter's radius, one or two surfaces, and where it ends.
type Row = (Pair, i64, Aim, Option<Aim>, Result<Pair, Case>);

fn goal(aim: Aim) -> Option<Goal>
    ensures { IfSome result IsGoal }
{
    let (how, drawn) = aim;
    let surface = surface(drawn)?;
    Some(Goal { how, surface })
}

fn to_one(from: Pair, radius: i64, first: Aim) -> Option<StartUp>
    ensures { IfSome result IsStartUp }
{
    let start = point(from)?;
    let first = goal(first)?;
    if is_radius(radius) {
        Some(StartUp {
            start,
            first,
            second: None,
            radius,
        })
    } else {
        None
    }
}

fn to_two(from: Pair, radius: i64, first: Aim, second: Aim) -> Option<StartUp>
    ensures { IfSome result IsStartUp }
{
    let one = to_one(from, radius, first)?;
    let second = goal(second)?;
    Some(StartUp {
        second: Some(second),
        ..one
    })
}

fn start_up(from: Pair, radius: i64, first: Aim, second: Option<Aim>) -> Option<StartUp>
    ensures { IfSome result IsStartUp }
{
    match second {
        None => to_one(from, radius, first),
        Some(second) => to_two(from, radius, first, second),
    }
}

fn is_at(found: Result<Pt, Case>, want: Result<Pair, Case>) -> bool {
    match (found, want) {
        (Ok(p), Ok((x, y))) => p.x == x && p.y == y,
        (Err(case), Err(other)) => case == other,
        _ => false,
    }
}

fn ends_so(row: &Row) -> bool {
    let (from, radius, first, second, want) = *row;
    match start_up(from, radius, first, second) {
        Some(u) => is_at(start(&u), want),
        None => false,
    }
}

/// A ray along (3, 4) has a length of 5.
const ON_ONE: [Row; 19] = [
    (
        (700, 3_000),
        500,
        (To, Line((0, 0), (1, 0))),
        None,
        Ok((700, 500)),
    ),
    (
        (700, 3_000),
        500,
        (On, Line((0, 0), (1, 0))),
        None,
        Ok((700, 0)),
    ),
    (
        (700, 3_000),
        500,
        (Past, Line((0, 0), (1, 0))),
        None,
        Ok((700, -500)),
    ),
    (
        (700, -3_000),
        500,
        (To, Line((0, 0), (1, 0))),
        None,
        Ok((700, -500)),
    ),
    ((25, 0), 5, (Past, Line((0, 0), (3, 4))), None, Ok((5, 15))),
    (
        (3_000, 4_000),
        250,
        (To, Ring((0, 0), 1_000)),
        None,
        Ok((750, 1_000)),
    ),
    (
        (3_000, 4_000),
        250,
        (On, Ring((0, 0), 1_000)),
        None,
        Ok((600, 800)),
    ),
    (
        (3_000, 4_000),
        250,
        (Past, Ring((0, 0), 1_000)),
        None,
        Ok((450, 600)),
    ),
    (
        (300, 400),
        250,
        (To, Ring((0, 0), 1_000)),
        None,
        Ok((450, 600)),
    ),
    (
        (-300, 400),
        250,
        (On, Ring((0, 0), 1_000)),
        None,
        Ok((-600, 800)),
    ),
    (
        (300, 400),
        250,
        (Past, Ring((0, 0), 1_000)),
        None,
        Ok((750, 1_000)),
    ),
    (
        (70, 80),
        250,
        (To, Ring((70, 80), 1_000)),
        None,
        Ok((820, 80)),
    ),
    (
        (70, 80),
        250,
        (Past, Ring((70, 80), 1_000)),
        None,
        Ok((1_320, 80)),
    ),
    (
        (300, 400),
        900,
        (To, Ring((0, 0), 1_000)),
        None,
        Ok((60, 80)),
    ),
    (
        (300, 400),
        901,
        (To, Ring((0, 0), 1_000)),
        None,
        Err(Case::NoRoom),
    ),
    (
        (600, 800),
        250,
        (To, Ring((0, 0), 1_000)),
        None,
        Err(Case::OnCheck),
    ),
    (
        (600, 800),
        250,
        (On, Ring((0, 0), 1_000)),
        None,
        Ok((600, 800)),
    ),
    (
        (7, 0),
        500,
        (Past, Line((0, 0), (-1, 0))),
        None,
        Err(Case::OnCheck),
    ),
    (
        (0, 0),
        101,
        (Past, Line((49_999_900, 0), (0, 1))),
        None,
        Err(Case::OutOfRange),
    ),
];

#[test]
fn on_one_surface(rt: HostRuntime) {
    assert_all(&rt, &ON_ONE, ends_so);
}

/// Circles of 500 about (0, 0) and (600, 0), which meet at (300, 400) and (300, -400).
const ROUND: Aim = (On, Ring((0, 0), 500));

const OTHER: Aim = (On, Ring((600, 0), 500));

const TIGHT: Aim = (To, Ring((0, 0), 1_000));

const ACROSS: Aim = (On, Line((0, 0), (3, 4)));

const LEVEL: Aim = (To, Line((0, 0), (1, 0)));

const UPRIGHT: Aim = (To, Line((0, 0), (0, 1)));

const ON_TWO: [Row; 19] = [
    ((3_000, 2_000), 100, LEVEL, Some(UPRIGHT), Ok((100, 100))),
    (
        (-3_000, -2_000),
        100,
        LEVEL,
        Some(UPRIGHT),
        Ok((-100, -100)),
    ),
    ((1_000, 0), 0, ROUND, Some(OTHER), Ok((300, -400))),
    ((1_000, 0), 0, OTHER, Some(ROUND), Ok((300, 400))),
    ((-1_000, 0), 0, ROUND, Some(OTHER), Ok((300, -400))),
    ((1_000, 1), 0, ROUND, Some(OTHER), Ok((300, 400))),
    ((1_000, -1), 0, OTHER, Some(ROUND), Ok((300, -400))),
    ((0, 0), 0, ACROSS, Some(ROUND), Ok((-300, -400))),
    ((0, 0), 0, ROUND, Some(ACROSS), Ok((-300, -400))),
    ((-4, 3), 0, ACROSS, Some(ROUND), Ok((-300, -400))),
    ((1, 0), 0, ACROSS, Some(ROUND), Ok((300, 400))),
    ((300, 400), 901, TIGHT, Some(LEVEL), Err(Case::NoRoom)),
    ((300, 0), 901, LEVEL, Some(TIGHT), Err(Case::NoRoom)),
    ((300, 0), 10, LEVEL, Some(UPRIGHT), Err(Case::OnCheck)),
    ((0, 300), 10, LEVEL, Some(UPRIGHT), Err(Case::OnCheck)),
    (
        (300, 400),
        0,
        ACROSS,
        Some((To, Line((9, 9), (-3, -4)))),
        Err(Case::Parallel),
    ),
    (
        (300, 400),
        0,
        ROUND,
        Some((On, Ring((0, 0), 700))),
        Err(Case::Parallel),
    ),
    (
        (300, 400),
        0,
        ROUND,
        Some((On, Ring((2_000, 0), 700))),
        Err(Case::NoContact),
    ),
    (
        (0, 9),
        0,
        LEVEL,
        Some((On, Line((1, 100_000), (25_000_000, -50_000)))),
        Err(Case::OutOfRange),
    ),
];

#[test]
fn on_two_surfaces(rt: HostRuntime) {
    assert_all(&rt, &ON_TWO, ends_so);
}
