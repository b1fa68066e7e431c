//! The figures that names stand for behind the steps of a program.

ghost use Rattle.std.specs.Prelude.{◌≡◌, IfOk, OnOk, OnErr};
ghost use Rattle.apt_words.specs.Asks.{ask_of, said_by, defined_by};
ghost use Rattle.apt_scalar.specs.StepScalars.{AreScalars, HasScalars};
ghost use Rattle.apt_outline.specs.Holding as holding;

use apt_defs::{DefError, Table, define_as};
use apt_words::{Deed, Saying, Step, Units};
use std::alloc::{AllocError, Global};

/// The units behind a step.
fn units_behind(units: Units, deed: &Deed) -> Units
    ensures { result ≡ holding.units_said units (said_by (ask_of deed.now)) }
{
    match deed.saying() {
        Some(Saying::Units(others)) => others,
        _ => units,
    }
}

/// Gives the name that a step defines its figure, where it defines one.
fn define(deed: &Deed, units: Units, table: &mut Table) -> Result<(), AllocError>
    requires scalars { HasScalars deed.now }
    requires defined { holding.IsDefined (record { units = units; table = table.old }) (defined_by (ask_of deed.now)) }
    ensures { OnOk result (table.new ≡ holding.table_defined (record { units = units; table = table.old }) (defined_by (ask_of deed.now))) }
{
    let Some((name, form)) = deed.definition() else {
        return Ok(());
    };
    match define_as(name, &form, units, table) {
        Ok(()) => Ok(()),
        Err(DefError::NoMemory) => Err(AllocError),
        // No definition of a part that passes is refused.
        Err(DefError::Case(_)) => unreachable!(),
    }
}

/// The figures behind all steps, of which no definition is refused.
pub(crate) fn figures_at_end(alloc: Global, steps: &[Step]) -> Result<Table, AllocError>
    requires scalars { AreScalars steps.now }
    requires defined { holding.AreDefined holding.nothing_held steps.now }
    ensures { IfOk result (λ table. table ≡ holding.figures_at_end steps.now) }
{
    let mut table = Table::new(alloc);
    let mut units = Units::Inch;
    'steps: for step in steps {
        define(&step.deed, units, &mut table)?;
        units = units_behind(units, &step.deed);
    }
    Ok(table)
}
