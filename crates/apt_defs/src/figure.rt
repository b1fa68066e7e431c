//! Figures.

ghost use Rattle.std.specs.Prelude.{◌≡◌, IfOk};
ghost use Rattle.apt_plane.specs.Ranges.{IsPoint, IsLine, IsCircle};
ghost use Rattle.apt_defs.specs.Figures.{IsFigure};
ghost use Rattle.apt_defs.specs.Forms as forms;

use apt_canon::FormFault;
use apt_plane::{Circ, Line, Pt, Surface};
use apt_words::Case;

/// What a name stands for: a point with its height, a line or a circle, or a number.
#[derive(Clone, Copy, PartialEq, Eq)]
pub enum Figure {
    Point { xy: Pt, z: i64 },
    Shape(Surface),
    Scalar,
}

/// Why a formula gives no figure.
fn case_of(fault: FormFault) -> Case
    ensures { result ≡ forms.case_of fault }
{
    match fault {
        FormFault::OutOfRange => Case::OutOfRange,
        FormFault::Degenerate => Case::Degenerate,
        FormFault::NoMeeting => Case::NoMeeting,
        FormFault::TooLarge => Case::CircleTooLarge,
    }
}

/// A point that a formula gives.
pub(crate) fn in_case(point: Result<Pt, FormFault>) -> Result<Pt, Case>
    requires { IfOk point IsPoint }
    ensures value { result ≡ forms.in_case point }
    ensures range { IfOk result IsPoint }
{
    match point {
        Ok(point) => Ok(point),
        Err(fault) => Err(case_of(fault)),
    }
}

/// A point at height 0.
pub(crate) fn a_point(xy: Pt) -> Result<Figure, Case>
    requires { IsPoint xy }
    ensures value { result ≡ forms.a_point xy }
    ensures range { IfOk result IsFigure }
{
    Ok(Figure::Point { xy, z: 0 })
}

pub(crate) fn a_line(line: Line) -> Result<Figure, Case>
    requires { IsLine line }
    ensures value { result ≡ forms.a_line line }
    ensures range { IfOk result IsFigure }
{
    Ok(Figure::Shape(Surface::Line(line)))
}

/// A line that a formula gives.
pub(crate) fn line_formed(line: Result<Line, FormFault>) -> Result<Figure, Case>
    requires { IfOk line IsLine }
    ensures value { result ≡ forms.line_formed line }
    ensures range { IfOk result IsFigure }
{
    match line {
        Ok(line) => a_line(line),
        Err(fault) => Err(case_of(fault)),
    }
}

/// A circle that a formula gives.
pub(crate) fn circle_formed(circle: Result<Circ, FormFault>) -> Result<Figure, Case>
    requires { IfOk circle IsCircle }
    ensures value { result ≡ forms.circle_formed circle }
    ensures range { IfOk result IsFigure }
{
    match circle {
        Ok(circle) => Ok(Figure::Shape(Surface::Circ(circle))),
        Err(fault) => Err(case_of(fault)),
    }
}
