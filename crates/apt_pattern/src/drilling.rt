//! What holds before a step, and what is done of the step.

ghost use Rattle.std.specs.Prelude.{◌≡◌, ◌≤◌, ◌∷◌, [], IfOk};
ghost use Rattle.apt_words.specs.Asks.{ask_of, form_numbers, place_numbers};
ghost use Rattle.apt_words.specs.Drills.{drill_numbers};
ghost use Rattle.apt_words.specs.declared.deed.Deed.{Deed as AnyDeed};
ghost use Rattle.apt_scalar.specs.StepScalars.{AllScalars, HasScalars, HasDrillScalars};
ghost use Rattle.apt_records.specs.Ranges.{IsPosition};
ghost use Rattle.apt_pattern.specs.Expansions as spec;
ghost use Rattle.apt_pattern.specs.Ranges.{IsCycleOrNone};
ghost use Rattle.apt_pattern.specs.Taking.{IsDecided, IsSet};

use crate::cycle::Cycle;
use crate::pattern::Pattern;
use crate::patterns::Patterns;
use crate::places::{place_in, point_in};
use apt_defs::{DefError, Table, define_as};
use apt_records::Position;
use apt_scalar::{grid_units, whole};
use apt_words::{Ask, Case, Deed, Drill, Form, Place, Route, Saying, Symbol, Units};
use std::alloc::{AllocError, Global};
use std::marker::Model;

/// The most points of patterns and holes that a program visits.
const MOST_HOLES: u32 = 5000;

/// Points that are visited: none, one, or all of a pattern.
#[derive(Clone, Copy)]
pub(crate) enum Visited {
    Nothing,
    One(Position),
    All(Pattern),
}

/// What is done of a step: it stays, or points are visited in its place; or a case refuses it; or it is a definition
/// that its own case refuses.
#[derive(Clone, Copy)]
pub(crate) enum Decision {
    Stays,
    Visits(Visited),
    Refused(Case),
    Stopped,
}

/// What holds before a step. Clauses see a `Drilling`.
#[derive(Drop)]
pub(crate) struct Driller {
    units: Units,
    table: Table,
    patterns: Patterns,
    cycle: Option<Cycle>,
    holes: u32,
}

impl Model for Driller {
    ghost use Rattle.std.specs.Prelude.{◌≤◌};
    ghost use Rattle.apt_pattern.specs.Expansions.{Drilling};
    ghost use Rattle.apt_pattern.specs.Ranges.{IsCycleOrNone};

    ghost Value = { Drilling };

    ghost view = { λ d. record { units = d.units; table = d.table; patterns = d.patterns; cycle = d.cycle; holes = d.holes } };

    ghost invariant = { λ d. IsCycleOrNone d.cycle × (d.holes ≤ 5000) };
}

impl Driller {
    pub(crate) fn new(alloc: Global) -> Driller
        ensures { result ≡ spec.nothing_drilled }
    {
        Driller {
            units: Units::Inch,
            table: Table::new(alloc),
            patterns: Patterns::new(alloc),
            cycle: None,
            holes: 0,
        }
    }

    pub(crate) fn units(&self) -> Units
        ensures { result ≡ self.now.units }
    {
        self.units
    }

    pub(crate) fn cycle(&self) -> Option<Cycle>
        ensures value { result ≡ self.now.cycle }
        ensures range { IsCycleOrNone result }
    {
        self.cycle
    }

    /// What is done of a step, and what holds behind it.
    pub(crate) fn decide(&mut self, deed: &Deed) -> Result<Decision, AllocError>
        requires scalars { HasScalars deed.now }
        requires drills { HasDrillScalars deed.now }
        ensures { IfOk result (λ d. IsDecided deed.now (spec.outcome self.old deed.now) d self.new) }
    {
        match deed.drill() {
            None => self.decide_plain(deed),
            Some(drill) => self.decide_drill(&drill),
        }
    }

    /// A step that asks for what is no pattern and no cycle.
    fn decide_plain(&mut self, deed: &Deed) -> Result<Decision, AllocError>
        requires { HasScalars deed.now }
        ensures { IfOk result (λ d. IsDecided deed.now (spec.plain self.old deed.now (ask_of deed.now)) d self.new) }
    {
        match deed.ask() {
            Ask::Says(Saying::Units(units)) => {
                self.units = units;
                Ok(Decision::Stays)
            }
            Ask::Defines(name, form) => self.define(name, &form),
            Ask::Goes(Route::Goto(place)) => Ok(self.go_to(&place)),
            _ => Ok(Decision::Stays),
        }
    }

    /// A name gets a figure.
    #[tactic(auto, using(crate::proofs::Deciding::defined_set, crate::proofs::Deciding::defined_not, crate::proofs::Deciding::defined_taken))]
    fn define(&mut self, name: Symbol, form: &Form) -> Result<Decision, AllocError>
        requires { AllScalars (form_numbers form.now) }
        ensures { IfOk result (λ d. (deed : AnyDeed) → IsDecided deed (spec.defined self.old deed name form.now) d self.new) }
    {
        if self.patterns.get(&name).is_some() {
            return Ok(Decision::Refused(Case::WrongKind));
        }
        if set_figure(name, form, self.units, &mut self.table)? {
            return Ok(Decision::Stays);
        }
        Ok(Decision::Stopped)
    }

    /// GOTO a place: it stays where there is no cycle, and else drills.
    #[tactic(auto, using(crate::proofs::Deciding::goto_refused))]
    fn go_to(&mut self, place: &Place) -> Decision
        requires { AllScalars (place_numbers place.now) }
        ensures { (deed : AnyDeed) → IsDecided deed (spec.gone_to self.old deed place.now self.old.cycle) result self.new }
    {
        if self.cycle.is_none() {
            return Decision::Stays;
        }
        match place_in(self.units, &self.table, place) {
            Ok(p) => self.visit_one(p),
            Err(case) => Decision::Refused(case),
        }
    }

    /// A hole more.
    fn visit_one(&mut self, p: Position) -> Decision
        requires { IsPosition p }
        ensures { (deed : AnyDeed) → IsDecided deed (spec.unless_case (spec.visit_cases self.old 1) (spec.visited self.old (p ∷ []))) result self.new }
    {
        if self.holes >= MOST_HOLES {
            return Decision::Refused(Case::TooManyHoles);
        }
        self.holes += 1;
        Decision::Visits(Visited::One(p))
    }

    /// A step that names a pattern, sets the cycle, or visits a pattern.
    fn decide_drill(&mut self, drill: &Drill) -> Result<Decision, AllocError>
        requires { AllScalars (drill_numbers drill.now) }
        ensures { IfOk result (λ d. (deed : AnyDeed) → IsDecided deed (spec.drilled self.old drill.now) d self.new) }
    {
        match drill {
            Drill::Pattern(name, p, q, v) => self.set_pattern(name, p, q, whole(*v)),
            Drill::Cycle(depth, clearance) => Ok(self.set_cycle(
                grid_units(self.units, *depth),
                grid_units(self.units, *clearance),
            )),
            Drill::Off => {
                self.cycle = None;
                Ok(Decision::Visits(Visited::Nothing))
            }
            Drill::Visit(name) => Ok(self.visit_all(name)),
        }
    }

    /// A name gets a pattern of so many points from the point of a name to that of another.
    #[tactic(auto, using(crate::proofs::Deciding::pattern_from, crate::proofs::Deciding::pattern_to, crate::proofs::Deciding::pattern_taken, crate::proofs::Deciding::pattern_many, crate::proofs::Deciding::pattern_set))]
    fn set_pattern(
        &mut self,
        name: &Symbol,
        p: &Symbol,
        q: &Symbol,
        n: i64,
    ) -> Result<Decision, AllocError>
        ensures { IfOk result (λ d. (deed : AnyDeed) → IsDecided deed (spec.patterned self.old name.now p.now q.now n) d self.new) }
    {
        let from = match point_in(&self.table, p) {
            Ok(from) => from,
            Err(case) => return Ok(Decision::Refused(case)),
        };
        let to = match point_in(&self.table, q) {
            Ok(to) => to,
            Err(case) => return Ok(Decision::Refused(case)),
        };
        if self.table.get(name).is_some() {
            return Ok(Decision::Refused(Case::WrongKind));
        }
        if !is_count(n) {
            return Ok(Decision::Refused(Case::BadCount));
        }
        let count = n as u32;
        self.patterns
            .set(name.copied(), Pattern { from, to, count })?;
        Ok(Decision::Visits(Visited::Nothing))
    }

    /// GOTO drills from now on.
    fn set_cycle(&mut self, depth: i64, clearance: i64) -> Decision
        ensures { (deed : AnyDeed) → IsDecided deed (spec.cycled self.old (record { depth = depth; clearance = clearance })) result self.new }
    {
        if !is_deep(depth) || !is_deep(clearance) {
            return Decision::Refused(Case::OutOfRange);
        }
        self.cycle = Some(Cycle { depth, clearance });
        Decision::Visits(Visited::Nothing)
    }

    /// The points of a pattern are visited, if they are not too many.
    #[tactic(auto, using(crate::proofs::Deciding::visits_none, crate::proofs::Deciding::visits_many, crate::proofs::Deciding::visits_all))]
    fn visit_all(&mut self, name: &Symbol) -> Decision
        ensures { (deed : AnyDeed) → IsDecided deed (spec.visited_all self.old (spec.pattern_named self.old.patterns name.now)) result self.new }
    {
        let Some(pattern) = self.patterns.get(name) else {
            return Decision::Refused(Case::Undefined);
        };
        if self.holes + pattern.count > MOST_HOLES {
            return Decision::Refused(Case::TooManyHoles);
        }
        self.holes += pattern.count;
        Decision::Visits(Visited::All(pattern))
    }
}

/// Gives a name its figure, and answers whether it has one.
fn set_figure(
    name: Symbol,
    form: &Form,
    units: Units,
    table: &mut Table,
) -> Result<bool, AllocError>
    requires { AllScalars (form_numbers form.now) }
    ensures { IfOk result (λ set. IsSet units table.old name form.now set table.new) }
{
    match define_as(name, form, units, table) {
        Ok(()) => Ok(true),
        Err(DefError::Case(_)) => Ok(false),
        Err(DefError::NoMemory) => Err(AllocError),
    }
}

/// Whether a pattern may have so many points.
fn is_count(n: i64) -> bool
    ensures { result ≡ spec.is_count n }
{
    2 <= n && n <= 1000
}

/// Whether it is a depth or a clearance.
fn is_deep(g: i64) -> bool
    ensures { result ≡ spec.is_deep g }
{
    1 <= g && g <= 1_000_000
}
