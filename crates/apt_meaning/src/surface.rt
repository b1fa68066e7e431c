//! The surfaces and points of names.

ghost use Rattle.std.specs.Prelude.{◌≡◌, IfSome};
ghost use Rattle.apt_plane.specs.Ranges.{IsSurface};
ghost use Rattle.apt_records.specs.Ranges.{IsPosition};
ghost use Rattle.apt_defs.specs.Figures.{IsFigure};
ghost use Rattle.apt_meaning.specs.Effects as asking;
ghost use Rattle.apt_meaning.specs.Motions as motions;

use apt_defs::{Figure, Table};
use apt_plane::Surface;
use apt_records::Position;
use apt_words::Symbol;

/// The surface that a figure is.
pub fn surface_of(figure: Figure) -> Option<Surface>
    requires { IsFigure figure }
    ensures value { result ≡ motions.as_surface figure }
    ensures range { IfSome result IsSurface }
{
    match figure {
        Figure::Shape(surface) => Some(surface),
        Figure::Point { .. } | Figure::Scalar => None,
    }
}

/// The surface that a name stands for.
pub fn surface_in(table: &Table, name: &Symbol) -> Option<Surface>
    ensures value { result ≡ motions.surface_in table.now name.now }
    ensures range { IfSome result IsSurface }
{
    match table.get(name) {
        None => None,
        Some(figure) => surface_of(figure),
    }
}

/// The position that a figure is: a point with its height.
pub fn position_of(figure: Figure) -> Option<Position>
    requires { IsFigure figure }
    ensures value { result ≡ asking.as_position figure }
    ensures range { IfSome result IsPosition }
{
    match figure {
        Figure::Point { xy, z } => Some(Position { xy, z }),
        Figure::Shape(_) | Figure::Scalar => None,
    }
}

/// The point that a name stands for, with its height.
pub fn place_in(table: &Table, name: &Symbol) -> Option<Position>
    ensures value { result ≡ asking.place_in table.now name.now }
    ensures range { IfSome result IsPosition }
{
    match table.get(name) {
        None => None,
        Some(figure) => position_of(figure),
    }
}
