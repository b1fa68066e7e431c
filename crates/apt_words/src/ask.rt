//! What steps ask for.
ghost use Rattle.std.specs.Prelude.{◌≡◌, Some};
ghost use Rattle.apt_words.specs.Asks.{IsPlain, ask_of, defined_by, said_by, seen};

use crate::{Command, Contouring, Deed, Pick, Side, Stop, Symbol, Text, Units};

/// How a point is defined. Numbers are in millionths.
#[derive(Drop)]
pub enum PointForm {
    /// By its coordinates, and its height where it has one.
    Xy(i64, i64, Option<i64>),
    /// Where two lines meet.
    Lines(Symbol, Symbol),
    /// One of the two in which a circle meets a line or another circle.
    Picked(Pick, Symbol, Symbol),
    /// The centre of a circle.
    Centre(Symbol),
}

/// How a line is defined. Numbers are in millionths.
#[derive(Drop)]
pub enum LineForm {
    /// Through two points by their coordinates.
    Xy(i64, i64, i64, i64),
    /// Through two points.
    Points(Symbol, Symbol),
    /// Through a point, parallel to a line.
    Parallel(Symbol, Symbol),
    /// Through a point, square to a line.
    Square(Symbol, Symbol),
    /// Parallel to a line, on a side at a distance.
    Beside(Symbol, Pick, i64),
    /// Through a point, past a circle, on its left where true.
    Past(Symbol, bool, Symbol),
    /// Past two circles, each on its left where true.
    PastTwo(bool, Symbol, bool, Symbol),
}

/// How a circle is defined. Numbers are in millionths.
#[derive(Drop)]
pub enum CircleForm {
    /// By the coordinates of its centre, and its radius.
    Xyr(i64, i64, i64),
    /// Through three points.
    Points(Symbol, Symbol, Symbol),
    /// About a point, of a radius.
    Radius(Symbol, i64),
    /// About a point, along a line.
    Along(Symbol, Symbol),
    /// About a point, through another.
    Through(Symbol, Symbol),
    /// Along two lines, on a side of each, of a radius.
    Corner(Pick, Symbol, Pick, Symbol, i64),
}

/// What a definition gives its name: a number in millionths, a point, a line or a circle.
#[derive(Drop)]
pub enum Form {
    Number(i64),
    Point(PointForm),
    Line(LineForm),
    Circle(CircleForm),
}

/// What a statement has the CL file say, with its numbers in millionths.
#[derive(Drop)]
pub enum Saying {
    /// The unit of lengths.
    Units(Units),
    /// The diameter of the cutter.
    Diameter(i64),
    /// The tolerance inwards.
    Inward(i64),
    /// The tolerance outwards.
    Outward(i64),
    /// The feed.
    Feed(i64),
    /// What the machine is to do.
    Do(Command),
    /// The next move is rapid.
    Rapid,
    /// The end of the tape.
    End,
    /// The end of the program.
    Fini,
}

/// A place: by its coordinates in millionths, and its height where it has one, or the point of a name.
#[derive(Drop)]
pub enum Place {
    Xyz(i64, i64, Option<i64>),
    Named(Symbol),
}

/// How the tool comes to a place.
#[derive(Drop)]
pub enum Route {
    /// It stands there to begin with.
    From(Place),
    /// It goes there.
    Goto(Place),
    /// It goes so far along x, y and z, in millionths.
    By(i64, i64, i64),
    /// It goes to a surface, or to two.
    Start(Stop, Symbol, Option<(Stop, Symbol)>),
}

/// What a step asks for.
#[derive(Drop)]
pub enum Ask<'a> {
    /// The part has a title.
    Titles(&'a Text),
    /// The CL file says something.
    Says(Saying),
    /// The cutter is on a side from now on.
    Sets(Side),
    /// A name is defined.
    Defines(Symbol, Form),
    /// The tool comes to a place.
    Goes(Route),
    /// A contour is cut until it meets its check surface for the n-th time, with n in millionths.
    Cuts(&'a Contouring, i64),
    /// Nothing.
    Nothing,
}

impl Deed {
    /// What the step has the CL file say, where it does.
    #[inline(always)]
    #[rattlefmt::skip]
    pub fn saying(&self) -> Option<Saying>
        ensures { result ≡ said_by (ask_of self.now) }
    {
        match self {
            Deed::Units(units) => Some(Saying::Units(*units)),
            Deed::Cutter(v) => Some(Saying::Diameter(*v)),
            Deed::Intol(v) => Some(Saying::Inward(*v)),
            Deed::Outtol(v) => Some(Saying::Outward(*v)),
            Deed::Rapid => Some(Saying::Rapid),
            Deed::EndWord => Some(Saying::End),
            Deed::Fini => Some(Saying::Fini),
            Deed::Fedrat(v) => Some(Saying::Feed(*v)),
            Deed::Do(command) => Some(Saying::Do(*command)),
            _ => None,
        }
    }

    /// The name that the step defines, and by what, where it does.
    #[inline(always)]
    #[rattlefmt::skip]
    pub fn definition(&self) -> Option<(Symbol, Form)>
        ensures { result ≡ defined_by (ask_of self.now) }
    {
        match self {
            Deed::Assign(n, v) => Some((n.copied(), Form::Number(*v))),
            Deed::PointXy(n, x, y, z) => point(n, PointForm::Xy(*x, *y, *z)),
            Deed::PointLines(n, a, b) => point(n, PointForm::Lines(a.copied(), b.copied())),
            Deed::PointPick(n, k, a, b) => point(n, PointForm::Picked(*k, a.copied(), b.copied())),
            Deed::PointCenter(n, c) => point(n, PointForm::Centre(c.copied())),
            Deed::LineXy(n, x, y, u, v) => line(n, LineForm::Xy(*x, *y, *u, *v)),
            Deed::LinePoints(n, p, q) => line(n, LineForm::Points(p.copied(), q.copied())),
            Deed::LinePar(n, p, l) => line(n, LineForm::Parallel(p.copied(), l.copied())),
            Deed::LinePerp(n, p, l) => line(n, LineForm::Square(p.copied(), l.copied())),
            Deed::LineAt(n, l, k, v) => line(n, LineForm::Beside(l.copied(), *k, *v)),
            Deed::LineTan(n, p, h, c) => line(n, LineForm::Past(p.copied(), *h, c.copied())),
            Deed::LineTwo(n, h, c, k, d) => line(n, LineForm::PastTwo(*h, c.copied(), *k, d.copied())),
            Deed::CircleXyr(n, x, y, r) => circle(n, CircleForm::Xyr(*x, *y, *r)),
            Deed::CirclePoints(n, a, b, c) => circle(n, CircleForm::Points(a.copied(), b.copied(), c.copied())),
            Deed::CircleRadius(n, p, r) => circle(n, CircleForm::Radius(p.copied(), *r)),
            Deed::CircleTan(n, p, l) => circle(n, CircleForm::Along(p.copied(), l.copied())),
            Deed::CircleThrough(n, p, q) => circle(n, CircleForm::Through(p.copied(), q.copied())),
            Deed::CircleCorner(n, j, a, k, b, r) => circle(n, CircleForm::Corner(*j, a.copied(), *k, b.copied(), *r)),
            _ => None,
        }
    }

    /// What the step asks for.
    #[inline(always)]
    #[rattlefmt::skip]
    pub fn ask(&self) -> Ask<'_>
        ensures { seen result ≡ ask_of self.now }
    {
        match self {
            Deed::Partno(text) => Ask::Titles(text),
            Deed::Tool(side) => Ask::Sets(*side),
            Deed::FromXy(x, y, z) => Ask::Goes(Route::From(Place::Xyz(*x, *y, *z))),
            Deed::FromPoint(p) => Ask::Goes(Route::From(Place::Named(p.copied()))),
            Deed::GotoXy(x, y, z) => Ask::Goes(Route::Goto(Place::Xyz(*x, *y, *z))),
            Deed::GotoPoint(p) => Ask::Goes(Route::Goto(Place::Named(p.copied()))),
            Deed::Godlta(x, y, z) => Ask::Goes(Route::By(*x, *y, *z)),
            Deed::GoStart(how, s, other) => Ask::Goes(start(*how, s, other)),
            Deed::Contour(contour, n) => Ask::Cuts(contour, *n),
            _ => self.plainly(),
        }
    }

    /// What a step asks for that gives no title, sets no side, and neither goes nor cuts.
    #[inline(always)]
    fn plainly(&self) -> Ask<'_>
        requires { IsPlain (ask_of self.now) }
        ensures { seen result ≡ ask_of self.now }
    {
        if let Some(saying) = self.saying() {
            return Ask::Says(saying);
        }
        match self.definition() {
            Some((name, form)) => Ask::Defines(name, form),
            None => Ask::Nothing,
        }
    }
}

fn point(name: &Symbol, form: PointForm) -> Option<(Symbol, Form)>
    ensures { result ≡ Some (name.now, Form.Point form) }
{
    Some((name.copied(), Form::Point(form)))
}

fn line(name: &Symbol, form: LineForm) -> Option<(Symbol, Form)>
    ensures { result ≡ Some (name.now, Form.Line form) }
{
    Some((name.copied(), Form::Line(form)))
}

fn circle(name: &Symbol, form: CircleForm) -> Option<(Symbol, Form)>
    ensures { result ≡ Some (name.now, Form.Circle form) }
{
    Some((name.copied(), Form::Circle(form)))
}

fn start(how: Stop, surface: &Symbol, other: &Option<(Stop, Symbol)>) -> Route
    ensures { result ≡ Route.Start how surface.now other.now }
{
    let other = match other {
        None => None,
        Some((how, surface)) => Some((*how, surface.copied())),
    };
    Route::Start(how, surface.copied(), other)
}
