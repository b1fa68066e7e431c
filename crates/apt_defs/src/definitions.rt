//! What the forms of definitions give, and the steps that define names.

ghost use Rattle.std.specs.Prelude.{◌≡◌, ◌↔◌, ℕ, List, None, Some, Ok, Err, true, OnOk, OnErr, IfOk, IsErrOf};
ghost use Rattle.apt_words.specs.Asks.{form_numbers, point_numbers, line_numbers, circle_numbers};
ghost use Rattle.apt_words.specs.declared.deed.Deed.{Deed};
ghost use Rattle.apt_scalar.specs.StepScalars.{AllScalars, HasScalars};
ghost use Rattle.apt_defs.specs.Figures.{IsFigure, table_with};
ghost use Rattle.apt_defs.specs.Definitions as definitions;
ghost use Rattle.apt_defs.specs.Definitions.{HasOrNone, IsDefinition, IsRefusedBy};
ghost use Rattle.apt_defs.specs.Names.{names_of, first_case, has_far_number};
ghost use Rattle.apt_defs.specs.Alike.{AreAlike};
ghost use Rattle.apt_defs.specs.Drawn.{IsDrawn, HasDrawn};

use crate::circles::{
    circle_by_point, circle_corner, circle_points, circle_radius, circle_tangent, circle_xyr,
};
use crate::figure::Figure;
use crate::lines::{
    line_at, line_parallel, line_perpendicular, line_points, line_tangent, line_two, line_xy,
};
use crate::points::{centre_point, point_lines, point_pick, point_xy};
use crate::table::Table;
use apt_words::{Case, CircleForm, Form, LineForm, PointForm, Step, Symbol, Units};
use std::alloc::AllocError;

/// Why a definition is not made.
#[derive(Clone, Copy, Debug, PartialEq, Eq)]
pub enum DefError {
    Case(Case),
    NoMemory,
}

impl From<AllocError> for DefError {
    ghost use Rattle.std.specs.Prelude.{◌≡◌};
    ghost use Rattle.apt_defs.specs.declared.definitions.DefError.TheVariants as errors;

    ghost from_gives = { λ _ e. e ≡ errors.NoMemory };

    fn from(_: AllocError) -> Self {
        DefError::NoMemory
    }
}

/// What a form gives.
///
/// Its names are looked up first, in their order, and its numbers then: the first that has a case refuses it.
pub fn figure_of(form: &Form, units: Units, table: &Table) -> Result<Figure, Case>
    requires { AllScalars (form_numbers form.now) }
    ensures value { result ≡ definitions.figure_of units table.now form.now }
    ensures range { IfOk result IsFigure }
    ensures drawn { IfOk result (IsDrawn units table.now form.now) }
    ensures names { (case : Case) → first_case table.now (names_of form.now) ≡ Some case → result ≡ Err case }
    ensures numbers { first_case table.now (names_of form.now) ≡ None → has_far_number units form.now ≡ true → result ≡ Err Case.OutOfRange }
    ensures alike { (other : Units) (alike : Form) → AreAlike units form.now other alike → result ≡ definitions.figure_of other table.now alike }
{
    table.figures_in_range();
    figure_of_value(form, units, table)
}

fn figure_of_value(form: &Form, units: Units, table: &Table) -> Result<Figure, Case>
    requires { AllScalars (form_numbers form.now) }
    ensures value { result ≡ definitions.figure_of units table.now form.now }
    ensures range { IfOk result IsFigure }
{
    match form {
        Form::Number(_) => Ok(Figure::Scalar),
        Form::Point(form) => point_of(form, units, table),
        Form::Line(form) => line_of(form, units, table),
        Form::Circle(form) => circle_of(form, units, table),
    }
}

fn point_of(form: &PointForm, units: Units, table: &Table) -> Result<Figure, Case>
    requires { AllScalars (point_numbers form.now) }
    ensures value { result ≡ definitions.point_of units table.now form.now }
    ensures range { IfOk result IsFigure }
{
    match form {
        PointForm::Xy(x, y, z) => point_xy(units, *x, *y, *z),
        PointForm::Lines(a, b) => point_lines(table, a, b),
        PointForm::Picked(k, a, b) => point_pick(table, *k, a, b),
        PointForm::Centre(c) => centre_point(table, c),
    }
}

fn line_of(form: &LineForm, units: Units, table: &Table) -> Result<Figure, Case>
    requires { AllScalars (line_numbers form.now) }
    ensures value { result ≡ definitions.line_of units table.now form.now }
    ensures range { IfOk result IsFigure }
{
    match form {
        LineForm::Xy(x, y, u, v) => line_xy(units, *x, *y, *u, *v),
        LineForm::Points(p, q) => line_points(table, p, q),
        LineForm::Parallel(p, l) => line_parallel(table, p, l),
        LineForm::Square(p, l) => line_perpendicular(table, p, l),
        LineForm::Beside(l, k, v) => line_at(units, table, l, *k, *v),
        LineForm::Past(p, h, c) => line_tangent(table, p, *h, c),
        LineForm::PastTwo(h, c, k, d) => line_two(table, *h, c, *k, d),
    }
}

fn circle_of(form: &CircleForm, units: Units, table: &Table) -> Result<Figure, Case>
    requires { AllScalars (circle_numbers form.now) }
    ensures value { result ≡ definitions.circle_of units table.now form.now }
    ensures range { IfOk result IsFigure }
{
    match form {
        CircleForm::Xyr(x, y, r) => circle_xyr(units, *x, *y, *r),
        CircleForm::Points(a, b, c) => circle_points(table, a, b, c),
        CircleForm::Radius(p, r) => circle_radius(units, table, p, *r),
        CircleForm::Along(p, l) => circle_tangent(table, p, l),
        CircleForm::Through(p, q) => circle_by_point(table, p, q),
        CircleForm::Corner(j, a, k, b, r) => circle_corner(units, table, *j, a, *k, b, *r),
    }
}

/// Gives a name the figure of a form.
///
/// # Errors
///
/// The case that refuses the figure, before memory is asked for; the table stays as it was.
pub fn define_as(name: Symbol, form: &Form, units: Units, table: &mut Table) -> Result<(), DefError>
    requires { AllScalars (form_numbers form.now) }
    ensures ok { OnOk result ((f : Figure) × (definitions.figure_of units table.old form.now ≡ Ok f) × (table.new ≡ table_with table.old name f)) }
    ensures refused { (case : Case) → IsErrOf result (DefError.Case case) ↔ (definitions.figure_of units table.old form.now ≡ Err case) }
    ensures err { OnErr result (table.new ≡ table.old) }
{
    match figure_of_value(form, units, table) {
        Ok(figure) => Ok(table.set(name, figure)?),
        Err(case) => Err(DefError::Case(case)),
    }
}

/// Gives the name that a step defines its figure. False where the step defines no name: the table stays as it was.
///
/// # Errors
///
/// The case that refuses the figure, before memory is asked for; the table stays as it was.
#[tactic(auto, using(crate::proofs::Told::has_drawn))]
pub fn define(step: &Step, units: Units, table: &mut Table) -> Result<bool, DefError>
    requires { HasScalars step.now.deed }
    ensures ok { IfOk result (HasOrNone units table.old step.now.deed table.new) }
    ensures refused { (case : Case) → IsErrOf result (DefError.Case case) ↔ IsRefusedBy units table.old step.now.deed case }
    ensures err { OnErr result (table.new ≡ table.old) }
    ensures drawn { IfOk result (HasDrawn units table.old step.now.deed table.new) }
    ensures names { (name : List ℕ) (form : Form) (case : Case) → IsDefinition step.now.deed name form → first_case table.old (names_of form) ≡ Some case → IsErrOf result (DefError.Case case) }
    ensures numbers { (name : List ℕ) (form : Form) → IsDefinition step.now.deed name form → first_case table.old (names_of form) ≡ None → has_far_number units form ≡ true → IsErrOf result (DefError.Case Case.OutOfRange) }
    ensures alike { (other : Units) (same : Deed) (name : List ℕ) (form alike : Form) → IsDefinition step.now.deed name form → IsDefinition same name alike → AreAlike units form other alike → IfOk result (HasOrNone other table.old same table.new) }
{
    table.figures_in_range();
    define_value(step, units, table)
}

fn define_value(step: &Step, units: Units, table: &mut Table) -> Result<bool, DefError>
    requires { HasScalars step.now.deed }
    ensures ok { IfOk result (HasOrNone units table.old step.now.deed table.new) }
    ensures refused { (case : Case) → IsErrOf result (DefError.Case case) ↔ IsRefusedBy units table.old step.now.deed case }
    ensures err { OnErr result (table.new ≡ table.old) }
{
    match step.deed.definition() {
        Some((name, form)) => match define_as(name, &form, units, table) {
            Ok(()) => Ok(true),
            Err(error) => Err(error),
        },
        None => Ok(false),
    }
}
