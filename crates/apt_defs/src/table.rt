//! Names with their figures.

ghost use Rattle.std.specs.Prelude.{◌≡◌, ◌↔◌, ◌⊎◌, [], None, Some, false, OnOk, OnErr, IfOk, IfErr, IfSome, IsSomeAnd, IsErrOf};
ghost use Rattle.apt_plane.specs.Ranges.{IsPoint, IsLine, IsCircle, IsSurface};
ghost use Rattle.apt_defs.specs.Figures as figures;
ghost use Rattle.apt_defs.specs.Figures.{IsFigure, AreFigures, IsPointAtHeight, table_with};
ghost use Rattle.apt_defs.specs.Names as names;

use crate::Figure;
use apt_plane::{Circ, Line, Pt, Surface};
use apt_words::{Case, Symbol};
use indexmap::IndexMap;
use std::alloc::{AllocError, Global};
use std::marker::Model;

/// So many names are few.
const FEW: usize = 8;

/// Names with their latest figures, each in its range, in the order in which they were first defined.
#[derive(Drop)]
pub struct Table {
    map: IndexMap<Symbol, Figure>,
}

impl Model for Table {
    ghost use Rattle.std.specs.Prelude.{ℕ, List};
    ghost use Rattle.apt_defs.specs.declared.figure.Figure.{Figure};

    ghost Value = { List (List ℕ × Figure) };

    ghost use Rattle.apt_defs.specs.Figures.{AreFigures};

    ghost view = { λ t. t.map.entries };

    ghost invariant = { λ t. AreFigures t.map.entries };
}

impl Table {
    /// No names.
    pub fn new(alloc: Global) -> Table
        ensures { result ≡ [] }
    {
        Table {
            map: IndexMap::new(alloc),
        }
    }

    /// What a name stands for, None where it has no figure.
    #[tactic(auto, using(crate::proofs::Tables::looked_up))]
    pub fn get(&self, name: &Symbol) -> Option<Figure>
        ensures value { result ≡ figures.figure_named self.now name.now }
        ensures range { IfSome result IsFigure }
    {
        self.figures_in_range();
        self.find(name)
    }

    /// What a name stands for. Few names are looked at one by one.
    fn find(&self, name: &Symbol) -> Option<Figure>
        ensures { result ≡ figures.figure_named self.now name.now }
    {
        match self.among_few(name) {
            Some(figure) => Some(figure),
            None => self.among_all(name),
        }
    }

    /// What a name stands for where names are few, and None also where they are not.
    fn among_few(&self, name: &Symbol) -> Option<Figure>
        ensures { IfSome result (λ f. figures.figure_named self.now name.now ≡ Some f) }
    {
        if self.map.len() > FEW {
            return None;
        }
        'names: for i in 0..self.map.len() {
            match self.map.get_index(i) {
                Some((other, figure)) if other == name => return Some(*figure),
                _ => {}
            }
        }
        None
    }

    fn among_all(&self, name: &Symbol) -> Option<Figure>
        ensures { result ≡ figures.figure_named self.now name.now }
    {
        self.map.get(name).copied()
    }

    /// Each figure is in its range: it does nothing but say so.
    pub(crate) fn figures_in_range(&self)
        ensures { AreFigures self.now }
    {
        let _ = &self.map;
    }

    /// Gives a name a figure: a new name goes last, a known one keeps its place.
    #[tactic(auto, using(crate::proofs::Tables::still_figures))]
    pub fn set(&mut self, name: Symbol, figure: Figure) -> Result<(), AllocError>
        requires { IsFigure figure }
        ensures ok { OnOk result (self.new ≡ table_with self.old name figure) }
        ensures err { OnErr result (self.new ≡ self.old) }
    {
        self.map.insert(name, figure)?;
        Ok(())
    }
}

/// The point that a name stands for, with its height: `Undefined` where it has no figure, `WrongKind` where that is none.
pub fn point(table: &Table, name: &Symbol) -> Result<(Pt, i64), Case>
    ensures value { result ≡ figures.place_named table.now name.now }
    ensures range { IfOk result (λ p. IsPointAtHeight p.0 p.1) }
    ensures found { IfOk result (λ p. figures.figure_named table.now name.now ≡ Some (Figure.Point p.0 p.1)) }
    ensures undefined { IsErrOf result Case.Undefined ↔ (figures.figure_named table.now name.now ≡ None) }
    ensures wrong_kind { IsErrOf result Case.WrongKind ↔ IsSomeAnd (figures.figure_named table.now name.now) (λ f. names.is_kind names.APoint f ≡ false) }
    ensures no_other { IfErr result (λ case. (case ≡ Case.Undefined) ⊎ (case ≡ Case.WrongKind)) }
{
    match table.get(name) {
        None => Err(Case::Undefined),
        Some(Figure::Point { xy, z }) => Ok((xy, z)),
        Some(Figure::Shape(_) | Figure::Scalar) => Err(Case::WrongKind),
    }
}

pub(crate) fn point_named(table: &Table, name: &Symbol) -> Result<Pt, Case>
    ensures value { result ≡ figures.point_named table.now name.now }
    ensures range { IfOk result IsPoint }
{
    let (xy, _) = point(table, name)?;
    Ok(xy)
}

/// The surface that a name stands for: `Undefined` where it has no figure, `WrongKind` where that is none.
pub fn surface(table: &Table, name: &Symbol) -> Result<Surface, Case>
    ensures value { result ≡ figures.surface_named table.now name.now }
    ensures range { IfOk result IsSurface }
    ensures found { IfOk result (λ s. figures.figure_named table.now name.now ≡ Some (Figure.Shape s)) }
    ensures undefined { IsErrOf result Case.Undefined ↔ (figures.figure_named table.now name.now ≡ None) }
    ensures wrong_kind { IsErrOf result Case.WrongKind ↔ IsSomeAnd (figures.figure_named table.now name.now) (λ f. names.is_kind names.ASurface f ≡ false) }
    ensures no_other { IfErr result (λ case. (case ≡ Case.Undefined) ⊎ (case ≡ Case.WrongKind)) }
{
    match table.get(name) {
        None => Err(Case::Undefined),
        Some(Figure::Shape(surface)) => Ok(surface),
        Some(Figure::Point { .. } | Figure::Scalar) => Err(Case::WrongKind),
    }
}

pub(crate) fn line_named(table: &Table, name: &Symbol) -> Result<Line, Case>
    ensures value { result ≡ figures.line_named table.now name.now }
    ensures range { IfOk result IsLine }
{
    match surface(table, name)? {
        Surface::Line(line) => Ok(line),
        Surface::Circ(_) => Err(Case::WrongKind),
    }
}

pub(crate) fn circle_named(table: &Table, name: &Symbol) -> Result<Circ, Case>
    ensures value { result ≡ figures.circle_named table.now name.now }
    ensures range { IfOk result IsCircle }
{
    match surface(table, name)? {
        Surface::Line(_) => Err(Case::WrongKind),
        Surface::Circ(circle) => Ok(circle),
    }
}
