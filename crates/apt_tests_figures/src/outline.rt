//! Cutters against the parts of outlines, with spots that an exact program in another language found.

ghost use Rattle.std.specs.Prelude.{◌≡◌, length, IfOk, IfSome};
ghost use Rattle.apt_plane.specs.Ranges.{IsPoint};
ghost use Rattle.apt_certify.specs.Jobs.{IsJob};
ghost use Rattle.apt_outline.specs.Clearances.{IsPart, IsReach};

use crate::rows::{Pair, circle, point};
use apt_certify::{Job, Leg, OpenGate, Points};
use apt_num::Sign;
use apt_offset::Target;
use apt_outline::{
    Gouge, OutlineCause, OutlineError, Part, Reach, guard, guard_split, outline, reaches,
};
use apt_plane::{Band, Circ, Dir, Line, Pt, Spot, Surface};
use apt_records::{Note, Position, Record, Vertices};
use apt_words::{Deed, Step, Symbol};
use std::alloc::{AllocError, Global};

/// A part by points and a radius.
#[derive(Clone, Copy)]
enum Wall {
    Edge(Pair, Pair),
    Boss(Pair, i64),
    Bore(Pair, i64),
}

use Wall::{Bore, Boss, Edge};

/// From -100 to 100.
const ALONG: (Pair, Pair) = ((-100, 0), (100, 0));

const WIDE: (Pair, Pair) = ((-1000, 0), (1000, 0));

const SHORT: (Pair, Pair) = ((0, 0), (3, 4));

const FLAT: Wall = Edge((2, 5), (8, 5));

const SLANTED: Wall = Edge((-50, -50), (50, 50));

const ROUND: Wall = Boss((0, 0), 100);

const HOLLOW: Wall = Bore((0, 0), 100);

const DIAGONAL: Wall = Edge((-50_000_000, 50_000_000), (50_000_000, -50_000_000));

/// A segment, its cutter's radius and how far that may come into the part, and the spot of the gouge.
type Row = ((Pair, Pair), Pair, Wall, Option<(i128, i128)>);

const ROWS: [Row; 20] = [
    (
        ((-25_000, -25_000), (525_000, -25_000)),
        (25_000, 8),
        Boss((250_000, -50_000), 20_000),
        Some((151_250_000_000, 302_500_000_000)),
    ),
    (ALONG, (13, 8), FLAT, None),
    (ALONG, (14, 8), FLAT, Some((20_400, 40_000))),
    (
        ALONG,
        (14, 8),
        Edge((-2, 9), (8, 5)),
        Some((21_600, 40_000)),
    ),
    (
        ALONG,
        (18, 8),
        Edge((0, -50), (0, 50)),
        Some((20_000, 40_000)),
    ),
    (ALONG, (18, 8), SLANTED, Some((10_000, 20_000))),
    (ALONG, (8, 8), SLANTED, None),
    (
        ALONG,
        (29, 8),
        Edge((0, 20), (0, 20)),
        Some((20_000, 40_000)),
    ),
    (
        ((-28, 5), (9, -11)),
        (19, 8),
        Edge((-24, -12), (4, 2)),
        Some((420, 1625)),
    ),
    (
        ((6, -10), (11, 4)),
        (12, 8),
        Edge((-1, 1), (6, -3)),
        Some((119, 221)),
    ),
    (
        ((-2, 6), (2, 0)),
        (9, 8),
        Edge((-2, 4), (3, 1)),
        Some((10, 18)),
    ),
    (((0, 0), (0, 0)), (9, 8), SLANTED, Some((0, 1))),
    (WIDE, (0, 100), ROUND, None),
    (WIDE, (0, 200), ROUND, None),
    (WIDE, (0, 99), ROUND, Some((2_000_000, 4_000_000))),
    (SHORT, (103, 8), HOLLOW, None),
    (SHORT, (104, 8), HOLLOW, Some((1, 1))),
    (SHORT, (108, 8), HOLLOW, Some((1, 1))),
    (SHORT, (109, 8), HOLLOW, Some((0, 1))),
    (
        ((-50_000_000, -50_000_000), (50_000_000, 50_000_000)),
        (500_000, 8),
        DIAGONAL,
        Some((10_000_000_000_000_000, 20_000_000_000_000_000)),
    ),
];

fn part(wall: Wall) -> Option<Part>
    ensures { IfSome result IsPart }
{
    match wall {
        Edge(p, q) => Some(Part::Edge(point(p)?, point(q)?)),
        Boss(c, r) => Some(Part::Boss(circle((c, r))?)),
        Bore(c, r) => Some(Part::Bore(circle((c, r))?)),
    }
}

fn reach(radius_and_inner: Pair) -> Option<Reach>
    ensures { IfSome result IsReach }
{
    let (r, i) = radius_and_inner;
    if r.unsigned_abs() <= 100_000_000 && i.unsigned_abs() <= 100_000_000 {
        Some(Reach { r, i })
    } else {
        None
    }
}

/// A motion from one point to another, along a leg of which nothing matters here.
fn job(alloc: Global, from: Pt, to: Pt) -> Result<Job, AllocError>
    requires from { IsPoint from }
    requires to { IsPoint to }
    ensures job { IfOk result IsJob }
    ensures few { IfOk result (λ job. length job.points ≡ 2) }
{
    let base = Pt { x: 0, y: 0 };
    let dir = Dir { dx: 1, dy: 0 };
    let band = Band { lo: 0, hi: 0 };
    let leg = Leg {
        drive: Surface::Line(Line { base, dir }),
        track: Target::Line { base, dir, off: 0 },
        band,
        check: Surface::Line(Line { base, dir }),
        stop_band: band,
        beyond: Sign::Zero,
        sense: 1,
        axis: None,
    };
    Ok(Job {
        leg,
        out_sign: 1,
        points: Points::ends(from, to),
    })
}

fn is_right(alloc: Global, row: &Row) -> bool {
    let ((from, to), radius_and_inner, wall, spot) = *row;
    let (Some(from), Some(to)) = (point(from), point(to)) else {
        return false;
    };
    let (Some(reach), Some(part)) = (reach(radius_and_inner), part(wall)) else {
        return false;
    };
    let Ok(job) = job(alloc, from, to) else {
        return false;
    };
    let want = match spot {
        Some((j, m)) => Some(Gouge {
            motion: 1,
            segment: 1,
            part: 1,
            spot: Spot { j, m },
        }),
        None => None,
    };
    guard(&[job], &[reach], &[part]) == want
}

#[test]
fn segments_and_parts(rt: HostRuntime) {
    for (number, row) in ROWS.iter().enumerate() {
        assert!(rt; is_right(rt.alloc(), row), "row {number}, counted from 0");
    }
}

/// The first motion is clear of an edge, and the second is not: in threads of their own they are told in their order.
#[test]
fn motions_in_threads(rt: HostRuntime) {
    let alloc = rt.alloc();
    let start = Pt { x: -100, y: 0 };
    let end = Pt { x: 100, y: 0 };
    let edge = Part::Edge(Pt { x: 2, y: 5 }, Pt { x: 8, y: 5 });
    let first = job(alloc, start, start).expect(&rt, "memory");
    let second = job(alloc, start, end).expect(&rt, "memory");
    let reach = Reach { r: 14, i: 8 };
    let spot = Spot {
        j: 20_400,
        m: 40_000,
    };
    let want = Gouge {
        motion: 2,
        segment: 1,
        part: 1,
        spot,
    };
    let jobs = [first, second];
    let found = guard_split(&rt, &jobs, &[reach, reach], &[edge], &OpenGate);
    assert!(rt; found == Some(want));
}

/// The last CUTTER and INTOL before a contour.
#[test]
fn reaches_of_contours(rt: HostRuntime) {
    let alloc = rt.alloc();
    let corner = Position {
        xy: Pt { x: 0, y: 0 },
        z: 0,
    };
    let records = [
        Record::Note(Note::Cutter(50_001)),
        Record::Contour(Vertices::one(corner)),
        Record::Note(Note::Cutter(50_000)),
        Record::Note(Note::Intol(50)),
        Record::Contour(Vertices::one(corner)),
    ];
    let found = reaches(alloc, &records).expect(&rt, "memory");
    assert!(rt;
        found.as_slice() == [Reach { r: 25_001, i: 8 }, Reach { r: 25_000, i: 50 }].as_slice()
    );
}

/// The point and the circle that two steps define, as the parts of an outline.
#[test]
fn parts_by_names(rt: HostRuntime) {
    let alloc = rt.alloc();
    let name = Symbol::name(b"C9").expect(&rt, "a name");
    let steps = [Step {
        line: 1,
        step: 1,
        deed: Deed::CircleXyr(name, 2_500_000, -500_000, 200_000),
    }];
    let boss = Part::Boss(Circ {
        c: Pt {
            x: 250_000,
            y: -50_000,
        },
        r: 20_000,
    });
    let found = outline(alloc, b"OUTLINE 1\nBOSS C9\n", &steps).expect(&rt, "an outline");
    assert!(rt; found.as_slice() == [boss].as_slice());
    let undefined = outline(alloc, b"OUTLINE 1\nBOSS C9\nEDGE C9 P1\n", &steps);
    let want = OutlineError::Bad {
        line: 3,
        cause: OutlineCause::Undefined,
    };
    assert!(rt; matches!(undefined, Err(error) if error == want));
}
