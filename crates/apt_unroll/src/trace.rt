//! The trace of a program.

ghost use Rattle.std.specs.Prelude.{◌≡◌, ◌<◌, ◌^◌, ◌++◌, ◌∷◌, [], false, None, Some, slice_get, IfOk, OnOk, IsSome, option_map, vec_len, vec_capacity};
ghost use Rattle.apt_words.specs.Composition.{flow_of, is_fini};
ghost use Rattle.apt_words.specs.Nesting.{AreNested};
ghost use Rattle.apt_words.specs.ProgramEnds.{StepsEnd};
ghost use Rattle.apt_words.specs.Sources.{AreStmts, AreExecuted, AreNumbered};
ghost use Rattle.apt_scalar.specs.StepScalars.{AreScalars, AreDrillScalars};
ghost use Rattle.apt_unroll.specs.Actions.{IsActed, action, onward, step_of};
ghost use Rattle.apt_unroll.specs.Places.{begins_macro, executed_from, goes_on};
ghost use Rattle.apt_unroll.specs.Straight.{AreStraight, in_order};
ghost use Rattle.apt_unroll.specs.Trace as spec;
ghost use Rattle.apt_unroll.specs.Trace.{IsTrace, Trace, trace_of};

use crate::places::{Listing, begins_macro, goes_on};
use crate::run::Run;
use apt_words::{Case, Deed, Program, Refusal, Step, Stmt};
use std::alloc::{AllocError, Global};
use std::marker::Model;

/// The most steps that a program has.
const MOST_STEPS: u32 = 200_000;

/// The steps of a program before the first that is refused, and that refusal. Clauses see them as `Steps`.
#[derive(Drop)]
pub struct Unrolled {
    pub steps: Vec<Step>,
    pub fault: Option<Refusal>,
}

impl Model for Unrolled {
    ghost use Rattle.apt_unroll.specs.Trace.{Trace};
    ghost use Rattle.apt_unroll.specs.Codes.{trace_code};

    ghost Value = { Trace };

    ghost coded = { trace_code };

    ghost view = { λ u. record { steps = u.steps.items; fault = u.fault } };
}

/// A step that is done, the last one with FINI; or its refusal; or that no statement is left; or want of memory.
#[derive(Drop)]
pub(crate) enum Next {
    On(Step),
    Last(Step),
    Refused(Refusal),
    Out,
    NoMemory,
}

/// The one trace of a program: the steps that are executed, up to FINI or to the first that is refused.
#[tactic(auto, using(crate::proofs::Going::has_trace, crate::proofs::InOrder::straight_in_order))]
pub fn unroll(alloc: Global, p: &Program) -> Result<Unrolled, AllocError>
    requires sources { AreStmts p.now }
    requires nested { AreNested false p.now }
    ensures trace { IfOk result (λ u. IsTrace p.now u) }
    ensures only { IfOk result (λ u. (other : Trace) → IsTrace p.now other → other ≡ u) }
    ensures value { IfOk result (λ u. u ≡ trace_of p.now) }
    ensures straight { AreStraight p.now → IfOk result (λ u. u ≡ in_order p.now) }
    ensures scalars { IfOk result (λ u. AreScalars u.steps) }
    ensures drills { IfOk result (λ u. AreDrillScalars u.steps) }
    ensures sources { IfOk result (λ u. AreExecuted u.steps) }
    ensures numbers { IfOk result (λ u. AreNumbered 1 u.steps) }
    ensures ends { IfOk result (λ u. u.fault ≡ None → StepsEnd false u.steps) }
{
    unroll_value(alloc, p)
}

fn unroll_value(alloc: Global, p: &Program) -> Result<Unrolled, AllocError>
    ensures { IfOk result (λ u. u ≡ trace_of p.now) }
{
    let mut listing = Listing::new(p);
    let mut run = Run::new(alloc);
    let mut steps = Vec::with_capacity(alloc, p.stmts.len().min(MOST_STEPS as usize))?;
    let fault = unroll_run(alloc, &mut listing, &mut run, &mut steps)?;
    Ok(Unrolled { steps, fault })
}

/// Adds the steps of a run to some steps, up to FINI or to the first that is refused, and gives that refusal.
#[tactic(auto, using(crate::proofs::Prefixes::stepped, crate::proofs::Prefixes::finished, crate::proofs::Prefixes::refused_at, crate::proofs::Prefixes::run_out, crate::proofs::Prefixes::nothing_left))]
fn unroll_run(
    alloc: Global,
    listing: &mut Listing,
    run: &mut Run,
    steps: &mut Vec<Step>,
) -> Result<Option<Refusal>, AllocError>
    ensures { IfOk result (λ fault. spec.with_fault steps.new.items fault ≡ spec.behind steps.old.items (spec.all_from listing.old.stmts run.old)) }
{
    let mut step = 1;
    let mut left = MOST_STEPS + 1;
    'steps: while left > 0 {
        match next_step(alloc, listing, run, step) {
            Next::On(next) => push(steps, next)?,
            Next::Last(last) => {
                push(steps, last)?;
                return Ok(None);
            }
            Next::Refused(refusal) => return Ok(Some(refusal)),
            Next::Out => return Ok(None),
            Next::NoMemory => return Err(AllocError),
        }
        step += 1;
        left -= 1;
    }
    Ok(None)
}

fn push(steps: &mut Vec<Step>, step: Step) -> Result<(), AllocError>
    ensures { OnOk result (steps.new.items ≡ steps.old.items ++ step ∷ []) }
{
    make_room(steps)?;
    steps.push_reserved(step);
    Ok(())
}

/// Makes room for a step; mostly there is some.
fn make_room(steps: &mut Vec<Step>) -> Result<(), AllocError>
    ensures same { steps.new.items ≡ steps.old.items }
    ensures room { OnOk result (vec_len steps.new < vec_capacity steps.new) }
{
    if steps.len() < steps.capacity() {
        return Ok(());
    }
    steps.reserve(1)
}

/// The n-th step, done.
#[tactic(auto, using(crate::proofs::Moments::ends_here, crate::proofs::Moments::next_here))]
fn next_step(alloc: Global, listing: &mut Listing, run: &mut Run, step: u32) -> Next
    ensures same { listing.new.stmts ≡ listing.old.stmts }
    ensures next { spec.IsNext (spec.moment listing.old.stmts step run.old) step result run.new }
{
    let at = run.at();
    match listing.stmt(at) {
        None => Next::Out,
        Some(stmt) if begins_macro(&stmt.body) => step_behind_macros(alloc, listing, run, step),
        Some(stmt) => step_at(alloc, listing, run, step, at, stmt),
    }
}

/// The n-th step, where the run has come to the definition of a macro.
#[tactic(auto, using(crate::proofs::Moments::ends_behind, crate::proofs::Moments::next_behind))]
fn step_behind_macros(alloc: Global, listing: &mut Listing, run: &mut Run, step: u32) -> Next
    ensures same { listing.new.stmts ≡ listing.old.stmts }
    ensures next { spec.IsNext (spec.moment listing.old.stmts step run.old) step result run.new }
{
    if listing.make(alloc).is_err() {
        return Next::NoMemory;
    }
    match listing.statement_at(run.at()) {
        None => Next::Out,
        Some((i, stmt)) => step_at(alloc, listing, run, step, i, stmt),
    }
}

/// The n-th step, of a statement that is executed.
#[tactic(auto, using(crate::proofs::Moments::next_onward, crate::proofs::Moments::next_turned, crate::proofs::Moments::next_last))]
fn step_at(
    alloc: Global,
    listing: &mut Listing,
    run: &mut Run,
    step: u32,
    i: usize,
    stmt: &Stmt,
) -> Next
    requires small { i < 2 ^ 63 }
    requires passed { begins_macro (flow_of stmt.now.body) ≡ false }
    ensures same { listing.new.stmts ≡ listing.old.stmts }
    ensures next { spec.IsNext (Some (stmt.now.line, step_of listing.old.stmts step run.old i stmt.now)) step result run.new }
{
    let line = stmt.line;
    if step > MOST_STEPS {
        let case = Case::Budget;
        return Next::Refused(Refusal { line, step, case });
    }
    if run.has_ended() && !stmt.body.is_fini() {
        let case = Case::AfterEnd;
        return Next::Refused(Refusal { line, step, case });
    }
    if goes_on(&stmt.body) {
        onward_step(alloc, run, step, i, stmt)
    } else if stmt.body.is_fini() {
        let deed = Deed::Fini;
        Next::Last(Step { line, step, deed })
    } else {
        flow_step(alloc, listing, run, step, i, stmt)
    }
}

/// The n-th step, of a statement behind which the following one is executed.
fn onward_step(alloc: Global, run: &mut Run, step: u32, i: usize, stmt: &Stmt) -> Next
    requires { i < 2 ^ 63 }
    ensures { spec.IsNext (Some (stmt.now.line, onward run.old i stmt.now.body)) step result run.new }
{
    let line = stmt.line;
    match run.deed(&stmt.body) {
        Ok(Ok(deed)) => match run.go_on(alloc, i, &deed) {
            Ok(()) => Next::On(Step { line, step, deed }),
            Err(_) => Next::NoMemory,
        },
        Ok(Err(case)) => Next::Refused(Refusal { line, step, case }),
        Err(_) => Next::NoMemory,
    }
}

/// The n-th step, of a statement that turns the flow.
#[tactic(auto, using(crate::proofs::Moments::turned_on))]
fn flow_step(
    alloc: Global,
    listing: &mut Listing,
    run: &mut Run,
    step: u32,
    i: usize,
    stmt: &Stmt,
) -> Next
    requires small { i < 2 ^ 63 }
    requires passed { begins_macro (flow_of stmt.now.body) ≡ false }
    requires turned { goes_on (flow_of stmt.now.body) ≡ false }
    requires lasting { is_fini stmt.now.body ≡ false }
    ensures same { listing.new.stmts ≡ listing.old.stmts }
    ensures next { spec.IsNext (Some (stmt.now.line, action listing.old.stmts run.old i stmt.now.body (flow_of stmt.now.body))) step result run.new }
{
    if listing.make(alloc).is_err() {
        return Next::NoMemory;
    }
    let line = stmt.line;
    match run.act(alloc, listing, i, &stmt.body) {
        Ok(Ok(deed)) => Next::On(Step { line, step, deed }),
        Ok(Err(case)) => Next::Refused(Refusal { line, step, case }),
        Err(_) => Next::NoMemory,
    }
}
