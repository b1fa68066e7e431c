//! Definitions by their statements, in inches.

ghost use Rattle.apt_scalar.specs.StepScalars.{HasScalars};

use apt_defs::{DefError, Figure, Table, define};
use apt_plane::{Circ, Dir, Line, Pt, Surface};
use apt_words::{Case, Deed, Pick, Step, Symbol, Units};
use std::process::Abort;

/// One inch in millionths.
const INCH: i64 = 1_000_000;

fn symbol(rt: &impl Abort, text: &str) -> Symbol {
    Symbol::new(text).expect(rt, "a name")
}

fn given(table: &mut Table, deed: Deed) -> Result<bool, DefError>
    requires { HasScalars deed }
{
    let step = Step {
        line: 1,
        step: 1,
        deed,
    };
    define(&step, Units::Inch, table)
}

/// A definition is taken into the table.
fn assert_given(rt: &impl Abort, table: &mut Table, deed: Deed)
    requires { HasScalars deed }
{
    assert!(rt; given(table, deed) == Ok(true));
}

/// A definition is refused.
fn assert_refused(rt: &impl Abort, table: &mut Table, deed: Deed, case: Case)
    requires { HasScalars deed }
{
    assert!(rt;
        given(table, deed) == Err(DefError::Case(case)),
        "{}",
        case.name()
    );
}

/// A name stands for a figure, or for none.
fn assert_drawn(rt: &impl Abort, table: &Table, name: &Symbol, want: Option<Figure>) {
    assert!(rt; table.get(name) == want, "{}", name.as_str());
}

fn at(x: i64, y: i64, z: i64) -> Option<Figure> {
    Some(Figure::Point { xy: Pt { x, y }, z })
}

fn line(x: i64, y: i64, dx: i64, dy: i64) -> Option<Figure> {
    Some(Figure::Shape(Surface::Line(Line {
        base: Pt { x, y },
        dir: Dir { dx, dy },
    })))
}

fn circle(x: i64, y: i64, r: i64) -> Option<Figure> {
    Some(Figure::Shape(Surface::Circ(Circ { c: Pt { x, y }, r })))
}

/// The circle of two inches at the origin with the x axis and with the y axis: each modifier names one of their two
/// points, or by the other coordinate where both are as far.
#[test]
fn picks_one_of_two_points(rt: HostRuntime) {
    let mut table = Table::new(rt.alloc());
    let lx = symbol(&rt, "LX");
    let c = symbol(&rt, "C");
    let p = symbol(&rt, "P");
    assert_given(&rt, &mut table, Deed::LineXy(lx.copied(), 0, 0, INCH, 0));
    assert_given(&rt, &mut table, Deed::CircleXyr(c.copied(), 0, 0, 2 * INCH));
    assert_drawn(&rt, &table, &c, circle(0, 0, 200_000));
    let ly = symbol(&rt, "LY");
    assert_given(&rt, &mut table, Deed::LineXy(ly.copied(), 0, 0, 0, INCH));
    let rows = [
        (Pick::XLarge, 200_000),
        (Pick::XSmall, -200_000),
        (Pick::YLarge, 200_000),
        (Pick::YSmall, -200_000),
    ];
    for (pick, further) in rows {
        let deed = Deed::PointPick(p.copied(), pick, lx.copied(), c.copied());
        assert_given(&rt, &mut table, deed);
        assert_drawn(&rt, &table, &p, at(further, 0, 0));
        let deed = Deed::PointPick(p.copied(), pick, ly.copied(), c.copied());
        assert_given(&rt, &mut table, deed);
        assert_drawn(&rt, &table, &p, at(0, further, 0));
    }
}

/// From the origin to the left of a circle of three inches, five inches away.
#[test]
fn draws_tangents(rt: HostRuntime) {
    let mut table = Table::new(rt.alloc());
    let p = symbol(&rt, "P");
    let c = symbol(&rt, "C");
    let l = symbol(&rt, "L");
    assert_given(&rt, &mut table, Deed::PointXy(p.copied(), 0, 0, Some(INCH)));
    assert_drawn(&rt, &table, &p, at(0, 0, 100_000));
    assert_given(
        &rt,
        &mut table,
        Deed::CircleXyr(c.copied(), 5 * INCH, 0, 3 * INCH),
    );
    let deed = Deed::LineTan(l.copied(), p.copied(), true, c.copied());
    assert_given(&rt, &mut table, deed);
    assert_drawn(&rt, &table, &l, line(0, 0, 79_999_200, 59_999_400));
    let deed = Deed::LinePerp(l.copied(), p.copied(), l.copied());
    assert_given(&rt, &mut table, deed);
    assert_drawn(&rt, &table, &l, line(0, 0, -59_999_400, 79_999_200));
}

/// Through the origin, four inches along the x axis and two along the y axis. The name then stands for its centre.
#[test]
fn draws_circles(rt: HostRuntime) {
    let mut table = Table::new(rt.alloc());
    let p = symbol(&rt, "P");
    let q = symbol(&rt, "Q");
    let r = symbol(&rt, "R");
    let c = symbol(&rt, "C");
    assert_given(&rt, &mut table, Deed::PointXy(p.copied(), 0, 0, None));
    assert_given(
        &rt,
        &mut table,
        Deed::PointXy(q.copied(), 4 * INCH, 0, None),
    );
    assert_given(
        &rt,
        &mut table,
        Deed::PointXy(r.copied(), 0, 2 * INCH, None),
    );
    let deed = Deed::CirclePoints(c.copied(), p.copied(), q.copied(), r.copied());
    assert_given(&rt, &mut table, deed);
    assert_drawn(&rt, &table, &c, circle(200_000, 100_000, 223_607));
    assert_given(&rt, &mut table, Deed::PointCenter(c.copied(), c.copied()));
    assert_drawn(&rt, &table, &c, at(200_000, 100_000, 0));
}

/// Names come before numbers, and numbers before the figure's own case; a refused definition leaves the table.
#[test]
fn refuses_by_the_first_case(rt: HostRuntime) {
    let mut table = Table::new(rt.alloc());
    let p = symbol(&rt, "P");
    let l = symbol(&rt, "L");
    assert_given(&rt, &mut table, Deed::PointXy(p.copied(), 0, 0, None));
    assert_given(&rt, &mut table, Deed::LineXy(l.copied(), 0, 0, INCH, 0));
    let n = symbol(&rt, "N");
    let far = 600 * INCH;
    let deed = Deed::LineAt(n.copied(), n.copied(), Pick::YLarge, 2_000 * INCH);
    assert_refused(&rt, &mut table, deed, Case::Undefined);
    let deed = Deed::CircleRadius(n.copied(), l.copied(), 2_000 * INCH);
    assert_refused(&rt, &mut table, deed, Case::WrongKind);
    let deed = Deed::PointXy(p.copied(), far, 0, None);
    assert_refused(&rt, &mut table, deed, Case::OutOfRange);
    let deed = Deed::LinePoints(n.copied(), p.copied(), p.copied());
    assert_refused(&rt, &mut table, deed, Case::Degenerate);
    let deed = Deed::PointLines(n.copied(), l.copied(), l.copied());
    assert_refused(&rt, &mut table, deed, Case::NoMeeting);
    let deed = Deed::CircleXyr(n.copied(), 480 * INCH, 0, 11 * INCH);
    assert_refused(&rt, &mut table, deed, Case::CircleTooLarge);
    assert_drawn(&rt, &table, &n, None);
    assert_drawn(&rt, &table, &p, at(0, 0, 0));
    assert!(rt; given(&mut table, Deed::Rapid) == Ok(false));
}
