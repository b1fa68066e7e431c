//! Where the statements of a program stand: tables that are made once, where a run first asks for them.
ghost use Rattle.std.specs.Prelude.{◌≡◌, ◌<◌, ◌≤◌, ◌^◌, true, false, length, slice_get, Some, OnOk, IfOk, IfSome, option_map};
ghost use Rattle.std.specs.Option.{option_copied};
ghost use Rattle.apt_words.specs.Composition.{flow_of};
ghost use Rattle.apt_scalar.specs.Meanings.{meaning};
ghost use Rattle.apt_unroll.specs.Actions as actions;
ghost use Rattle.apt_unroll.specs.Places as spec;
ghost use Rattle.apt_unroll.specs.Trace as trace;
ghost use Rattle.apt_unroll.specs.Tables as tables;
ghost use Rattle.apt_unroll.specs.Tables.{AreTables, IsMacroAt};
ghost use Rattle.apt_unroll.specs.declared.numbers.Naming.TheVariants as namings;

use crate::numbers::{Naming, Numbers};
use apt_words::{Body, Params, Program, Stmt, Symbol};
use std::alloc::{AllocError, Global};
use std::marker::Model;

/// The region of a statement: a loop or a macro, by the number of the statement that begins it.
#[derive(Clone, Copy, PartialEq, Eq)]
pub(crate) enum Region {
    Outside,
    Loop(usize),
    Macro(usize),
}

/// The loop and the macro that are open, by the numbers of the statements that begin them.
#[derive(Clone, Copy)]
pub(crate) struct Open {
    in_loop: Option<usize>,
    in_macro: Option<usize>,
}

/// The tables of a program: for each statement and for the end what is executed where a run comes to it, the
/// regions of the statements, and the statements with labels and of macros.
#[derive(Drop)]
struct Tables {
    executed: Vec<usize>,
    regions: Vec<Region>,
    labels: Numbers,
    macros: Numbers,
}

/// A program, whose tables are made where a step first asks for them. Clauses see its statements, and whether the
/// tables are made.
#[derive(Drop)]
pub(crate) struct Listing<'a> {
    program: &'a Program,
    tables: Option<Tables>,
}

impl<'a> Model for Listing<'a> {
    ghost use Rattle.std.specs.Prelude.{is_some};
    ghost use Rattle.apt_unroll.specs.Codes.{listed_code};
    ghost use Rattle.apt_unroll.specs.Tables.{AreMade, Listed};

    ghost Value = { Listed };

    ghost coded = { listed_code };

    ghost view = { λ l. record { stmts = l.program.now; made = is_some l.tables } };

    ghost invariant = { λ l. AreMade l.program.now l.tables };
}

impl Open {
    fn none() -> Open
        ensures { result ≡ spec.none_open }
    {
        Open {
            in_loop: None,
            in_macro: None,
        }
    }

    /// What is open behind a statement.
    fn behind(self, i: usize, body: &Body) -> Open
        ensures { result ≡ spec.open_behind i (flow_of body.now) self }
    {
        match body {
            Body::Macro(..) => Open {
                in_macro: Some(i),
                ..self
            },
            Body::Termac => Open {
                in_macro: None,
                ..self
            },
            Body::Loopst => Open {
                in_loop: Some(i),
                ..self
            },
            Body::Loopnd => Open {
                in_loop: None,
                ..self
            },
            _ => self,
        }
    }

    /// The region of a statement behind which this is open; a loop has its LOOPST.
    fn region(self, i: usize, body: &Body) -> Region
        ensures { result ≡ spec.region i (flow_of body.now) self }
    {
        match (self.in_macro, self.loop_with(i, body)) {
            (Some(begin), _) => Region::Macro(begin),
            (None, Some(begin)) => Region::Loop(begin),
            (None, None) => Region::Outside,
        }
    }

    fn loop_with(self, i: usize, body: &Body) -> Option<usize>
        ensures { result ≡ spec.loop_with i (flow_of body.now) self.in_loop }
    {
        match body {
            Body::Loopst => Some(i),
            _ => self.in_loop,
        }
    }
}

/// The regions of statements.
fn regions_of(alloc: Global, stmts: &[Stmt]) -> Result<Vec<Region>, AllocError>
    ensures { IfOk result (λ v. v.items ≡ spec.regions_of stmts.now) }
{
    let mut regions = Vec::with_capacity(alloc, stmts.len())?;
    let mut open = Open::none();
    let mut i = 0;
    'statements: for st in stmts {
        regions.push(open.region(i, &st.body))?;
        open = open.behind(i, &st.body);
        i += 1;
    }
    Ok(regions)
}

/// For each statement, and for the end, what is executed where a run comes to it.
fn executed_in(alloc: Global, stmts: &[Stmt]) -> Result<Vec<usize>, AllocError>
    ensures { IfOk result (λ v. v.items ≡ tables.executed_in 0 stmts.now) }
{
    let mut i = stmts.len();
    let mut table = Vec::with_capacity(alloc, i + 1)?;
    let mut outside = i;
    let mut within = i;
    table.push(outside)?;
    'statements: while i > 0 {
        i -= 1;
        let body = &stmts[i].body;
        (outside, within) = (
            if begins_macro(body) { within } else { i },
            if ends_macro(body) { outside } else { within },
        );
        table.push(outside)?;
    }
    table.reverse();
    Ok(table)
}

pub(crate) fn begins_macro(body: &Body) -> bool
    ensures { result ≡ spec.begins_macro (flow_of body.now) }
{
    matches!(body, Body::Macro(..))
}

/// Whether the following statement is executed behind a statement.
pub(crate) fn goes_on(body: &Body) -> bool
    ensures { result ≡ spec.goes_on (flow_of body.now) }
{
    !matches!(
        body,
        Body::Fini
            | Body::Macro(..)
            | Body::Termac
            | Body::Call(..)
            | Body::Loopst
            | Body::Loopnd
            | Body::Jumpto(_)
            | Body::If(..)
    )
}

fn ends_macro(body: &Body) -> bool
    ensures { result ≡ spec.ends_macro (flow_of body.now) }
{
    matches!(body, Body::Termac)
}

impl Tables {
    fn new(alloc: Global, program: &Program) -> Result<Tables, AllocError>
        ensures { IfOk result (λ t. AreTables program.now t) }
    {
        let stmts = &program.stmts;
        Ok(Tables {
            executed: executed_in(alloc, stmts)?,
            regions: regions_of(alloc, stmts)?,
            labels: Numbers::of_names(alloc, stmts, Naming::Labels)?,
            macros: Numbers::of_names(alloc, stmts, Naming::Macros)?,
        })
    }

    /// The number of the statement that is executed where a run comes to a number, none past the end.
    fn executed_from(&self, i: usize) -> Option<usize>
        ensures { result ≡ slice_get self.now.executed.items i }
    {
        self.executed.get(i).copied()
    }

    /// The statement with a label, where it stands in the region of a statement.
    fn target(&self, i: usize, label: &Symbol) -> Option<usize>
        ensures { result ≡ tables.target_in self.now i label.now }
    {
        let j = self.labels.get(label)?;
        if self.are_together(i, j) {
            Some(j)
        } else {
            None
        }
    }

    fn are_together(&self, i: usize, j: usize) -> bool
        ensures { result ≡ spec.are_one_region (slice_get self.now.regions.items i) (slice_get self.now.regions.items j) }
    {
        match (self.regions.get(i), self.regions.get(j)) {
            (Some(Region::Loop(a)), Some(Region::Loop(b)))
            | (Some(Region::Macro(a)), Some(Region::Macro(b))) => a == b,
            _ => false,
        }
    }
}

impl<'a> Listing<'a> {
    pub(crate) fn new(program: &'a Program) -> Listing<'a>
        ensures { result ≡ tables.listed program.now }
    {
        Listing {
            program,
            tables: None,
        }
    }

    /// Makes the tables where they are not made yet.
    pub(crate) fn make(&mut self, alloc: Global) -> Result<(), AllocError>
        ensures same { self.new.stmts ≡ self.old.stmts }
        ensures made { OnOk result (self.new.made ≡ true) }
    {
        if self.tables.is_none() {
            self.tables = Some(Tables::new(alloc, self.program)?);
        }
        Ok(())
    }

    fn tables(&self) -> &Tables
        requires { self.now.made ≡ true }
        ensures { AreTables self.now.stmts result.now }
    {
        match &self.tables {
            Some(tables) => tables,
            // The tables are made.
            None => unreachable!(),
        }
    }

    /// The statement of a number, none past the end.
    pub(crate) fn stmt(&self, i: usize) -> Option<&'a Stmt>
        ensures value { option_copied result ≡ slice_get self.now.stmts i }
        ensures small { IfSome result (λ _. i < 2 ^ 63) }
    {
        let program = self.program;
        program.stmts.get(i)
    }

    /// The statement that is executed where a run comes to a number, with its own number.
    #[tactic(auto, using(crate::proofs::Tables::runs, crate::proofs::Tables::runs_out, crate::proofs::Tables::runs_past, crate::proofs::Tables::no_macro))]
    pub(crate) fn statement_at(&self, at: usize) -> Option<(usize, &'a Stmt)>
        requires { self.now.made ≡ true }
        ensures value { option_map (λ r. (r.0, r.1.now)) result ≡ trace.with_number (spec.executed_from self.now.stmts at) (slice_get self.now.stmts (spec.executed_from self.now.stmts at)) }
        ensures small { IfSome result (λ r. r.0 < 2 ^ 63) }
        ensures passed { IfSome result (λ r. spec.begins_macro (flow_of r.1.now.body) ≡ false) }
    {
        match self.tables().executed_from(at) {
            None => None,
            Some(i) => match self.stmt(i) {
                None => None,
                Some(stmt) => Some((i, stmt)),
            },
        }
    }

    /// The statement with a label, where it stands in the region of a statement.
    #[tactic(auto, using(crate::proofs::Tables::target_is))]
    pub(crate) fn target(&self, i: usize, label: &Symbol) -> Option<usize>
        requires { self.now.made ≡ true }
        ensures { result ≡ spec.target self.now.stmts i label.now }
    {
        self.tables().target(i, label)
    }

    /// The MACRO of a name.
    #[tactic(auto, using(crate::proofs::Tables::is_macro))]
    pub(crate) fn macro_named(&self, name: &Symbol) -> Option<usize>
        requires { self.now.made ≡ true }
        ensures value { result ≡ spec.place_of namings.Macros self.now.stmts name.now }
        ensures begins { IfSome result (λ begin. IsMacroAt (slice_get self.now.stmts begin)) }
    {
        self.tables().macros.get(name)
    }

    /// The parameters of the macro that a statement begins.
    pub(crate) fn parameters_at(&self, begin: usize) -> &'a Params
        requires { IsMacroAt (slice_get self.now.stmts begin) }
        ensures value { result.now ≡ actions.formal_of (slice_get self.now.stmts begin) }
        ensures small { begin < 2 ^ 63 }
    {
        match self.stmt(begin) {
            Some(
                Stmt {
                    body: Body::Macro(_, params),
                    ..
                },
            ) => params,
            // The statement begins a macro.
            _ => unreachable!(),
        }
    }
}
