//! Divisions worked out by hand, and numbers of vertices computed in another language.

ghost use Rattle.std.specs.Prelude.{◌≤ℤ◌, pos};
ghost use Rattle.apt_arc.specs.Ranges.{IsArc};

use apt_arc::{Arc, ArcError, chords};
use apt_plane::{Circ, Dir, Pt};
use std::alloc::{AllocGlobal, Global};
use std::process::Abort;
use std::test::Fail;

const SMALL: Circ = Circ {
    c: Pt { x: 0, y: 0 },
    r: 100,
};

const MIDDLE: Circ = Circ {
    c: Pt { x: 0, y: 0 },
    r: 225_000,
};

const LARGE: Circ = Circ {
    c: Pt { x: 0, y: 0 },
    r: 49_000_000,
};

/// Half round the smallest track, anticlockwise.
fn smallest() -> Arc
    ensures { IsArc result }
{
    Arc {
        track: SMALL,
        sense: 1,
        axis: Dir { dx: 100_000, dy: 0 },
        sag: 8,
        start: Pt { x: 100, y: 0 },
        end: Pt { x: -100, y: 0 },
    }
}

/// Clockwise from above to below.
fn half(sag: i64) -> Arc
    requires least { pos 8 ≤ℤ sag }
    requires most { sag ≤ℤ pos 50 }
    ensures { IsArc result }
{
    Arc {
        track: MIDDLE,
        sense: -1,
        axis: Dir { dx: 0, dy: 100_000 },
        sag,
        start: Pt { x: 0, y: 225_000 },
        end: Pt { x: 0, y: -225_000 },
    }
}

/// Half round the largest track of a surface, anticlockwise.
fn largest() -> Arc
    ensures { IsArc result }
{
    Arc {
        track: LARGE,
        sense: 1,
        axis: Dir { dx: 100_000, dy: 0 },
        sag: 8,
        start: Pt {
            x: 49_000_000,
            y: 0,
        },
        end: Pt {
            x: -49_000_000,
            y: 0,
        },
    }
}

/// The start of an arc and the vertices behind it, and why there are none. There is room for 600 points at first, so that
/// those of most arcs are appended at once.
fn divided(alloc: Global, arc: &Arc, room: u64) -> Result<(Vec<Pt>, Option<ArcError>), Fail>
    requires { IsArc arc.now }
{
    let mut points = Vec::with_capacity(alloc, 600)?;
    points.push(arc.start)?;
    match chords(arc, room, &mut points) {
        Ok(()) => Ok((points, None)),
        Err(error) => Ok((points, Some(error))),
    }
}

fn has_points(points: &[Pt], places: &[(usize, Pt)]) -> bool {
    for (place, p) in places {
        if points.get(*place).copied() != Some(*p) {
            return false;
        }
    }
    true
}

/// So many points come of an arc, with these among them by their places, or it is refused.
fn assert_divided<R: Abort + AllocGlobal>(
    rt: &R,
    arc: &Arc,
    room: u64,
    want: (usize, Option<ArcError>),
    places: &[(usize, Pt)],
) -> Result<(), Fail>
    requires { IsArc arc.now }
{
    let (points, error) = divided(rt.alloc(), arc, room)?;
    assert!(rt; (points.len(), error) == want, "with room for {room}");
    assert!(rt; has_points(&points, places), "with room for {room}");
    Ok(())
}

const SMALLEST: [(usize, Pt); 5] = [
    (0, Pt { x: 100, y: 0 }),
    (1, Pt { x: 71, y: 71 }),
    (2, Pt { x: 0, y: 100 }),
    (3, Pt { x: -71, y: 71 }),
    (4, Pt { x: -100, y: 0 }),
];

#[test]
fn the_smallest_track(rt: HostRuntime) -> Result<(), Fail> {
    let too_many = Some(ArcError::TooManyPoints);
    assert_divided(&rt, &smallest(), 4, (5, None), &SMALLEST)?;
    assert_divided(&rt, &smallest(), 3, (1, too_many), &SMALLEST[..1])
}

const MIDDLE_HALF: [(usize, Pt); 3] = [
    (
        64,
        Pt {
            x: 159_099,
            y: 159_099,
        },
    ),
    (128, Pt { x: 225_000, y: 0 }),
    (256, Pt { x: 0, y: -225_000 }),
];

/// Also with a greater sag.
#[test]
fn half_round(rt: HostRuntime) -> Result<(), Fail> {
    assert_divided(&rt, &half(8), 256, (257, None), &MIDDLE_HALF)?;
    assert_divided(&rt, &half(50), 128, (129, None), &[])
}

#[test]
fn the_largest_track(rt: HostRuntime) -> Result<(), Fail> {
    let too_many = Some(ArcError::TooManyPoints);
    assert_divided(&rt, &largest(), 4096, (4097, None), &[])?;
    assert_divided(&rt, &largest(), 4095, (1, too_many), &[])
}
