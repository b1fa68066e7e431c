//! The statements that were read, and what they have opened and named.
ghost use Rattle.std.specs.Prelude.{◌≡◌, [], ◌∷◌, ◌++◌, None, OnOk, false, is_some};
ghost use Rattle.std.specs.List.{list_any};
ghost use Rattle.apt_words.specs.Composition.{flow_of};
ghost use Rattle.apt_words.specs.Flow.{macro_name};
ghost use Rattle.apt_parse.specs.Statements as statements;
ghost use Rattle.apt_parse.specs.ReaderState.{IsRead};

use crate::names::Names;
use apt_lexis::PartCause;
use apt_shapes::Labelled;
use apt_words::{Body, Stmt, Symbol};
use std::alloc::{AllocError, Global};

/// The statements in order, their labels, the names of their macros, and the lines on which a macro and a loop are open.
#[derive(Drop)]
pub(crate) struct Read {
    pub(crate) stmts: Vec<Stmt>,
    pub(crate) labels: Names,
    pub(crate) macros: Names,
    pub(crate) open_macro: Option<u32>,
    pub(crate) open_loop: Option<u32>,
}

impl Read {
    pub(crate) fn new(alloc: Global) -> Read
        ensures read { IsRead result }
        ensures none { result.stmts.items ≡ [] }
    {
        Read {
            stmts: Vec::new(alloc),
            labels: Names::new(alloc),
            macros: Names::new(alloc),
            open_macro: None,
            open_loop: None,
        }
    }

    /// The first fault of a statement that has a shape.
    pub(crate) fn first_fault(&self, said: &Labelled) -> Option<PartCause>
        requires { IsRead self.now }
        ensures { result ≡ statements.first_fault self.now.stmts.items said.now.label said.now.body }
    {
        if self.is_misplaced(&said.body) {
            Some(PartCause::BadShape)
        } else if self.lacks_partno(&said.body) {
            Some(PartCause::NoPartno)
        } else if self.is_label_again(&said.label) {
            Some(PartCause::LabelTwice)
        } else if self.is_macro_again(&said.body) {
            Some(PartCause::MacroTwice)
        } else if self.is_in_macro(&said.body) {
            Some(PartCause::MacroOpen)
        } else if self.is_out_of_loop(&said.body) {
            Some(PartCause::LoopOpen)
        } else {
            None
        }
    }

    fn is_misplaced(&self, body: &Body) -> bool
        requires { IsRead self.now }
        ensures { result ≡ statements.is_misplaced self.now.stmts.items body.now }
    {
        match body {
            Body::Partno(_) => !self.stmts.is_empty(),
            Body::Units(_) => !is_only_partno(&self.stmts),
            Body::Termac => self.open_macro.is_none(),
            Body::Fini | Body::Loopst | Body::Loopnd => self.open_macro.is_some(),
            _ => false,
        }
    }

    fn lacks_partno(&self, body: &Body) -> bool
        ensures { result ≡ statements.lacks_partno self.now.stmts.items body.now }
    {
        self.stmts.is_empty() && !is_partno(body)
    }

    fn is_label_again(&self, label: &Option<Symbol>) -> bool
        requires { IsRead self.now }
        ensures { result ≡ statements.is_label_again self.now.stmts.items label.now }
    {
        match label {
            Some(label) => self.labels.has(label),
            None => false,
        }
    }

    fn is_macro_again(&self, body: &Body) -> bool
        requires { IsRead self.now }
        ensures { result ≡ statements.is_macro_again self.now.stmts.items (flow_of body.now) }
    {
        match body {
            Body::Macro(name, _) => self.macros.has(name),
            _ => false,
        }
    }

    fn is_in_macro(&self, body: &Body) -> bool
        requires { IsRead self.now }
        ensures { result ≡ statements.is_in_macro (is_some (statements.open_macro self.now.stmts.items)) (flow_of body.now) }
    {
        match body {
            Body::Macro(..) => self.open_macro.is_some(),
            _ => false,
        }
    }

    fn is_out_of_loop(&self, body: &Body) -> bool
        requires { IsRead self.now }
        ensures { result ≡ statements.is_out_of_loop (is_some (statements.open_loop self.now.stmts.items)) (flow_of body.now) }
    {
        match body {
            Body::Loopst => self.open_loop.is_some(),
            Body::Loopnd => self.open_loop.is_none(),
            _ => false,
        }
    }

    /// Adds a statement that no fault refuses.
    #[tactic(auto, using(crate::proofs::Reading::labels_behind, crate::proofs::Reading::macros_behind, crate::proofs::Reading::macro_from_behind, crate::proofs::Reading::loop_from_behind, crate::proofs::Reading::no_label_again, crate::proofs::Reading::no_macro_again))]
    pub(crate) fn add(&mut self, st: Stmt) -> Result<(), AllocError>
        requires read { IsRead self.old }
        requires good { statements.first_fault self.old.stmts.items st.label st.body ≡ None }
        ensures { OnOk result (IsRead self.new × (self.new.stmts.items ≡ self.old.stmts.items ++ st ∷ [])) }
    {
        add_label(&mut self.labels, &st.label)?;
        add_macro(&mut self.macros, &st.body)?;
        self.open_macro = macro_behind(self.open_macro, st.line, &st.body);
        self.open_loop = loop_behind(self.open_loop, st.line, &st.body);
        self.stmts.push(st)?;
        Ok(())
    }
}

fn add_label(labels: &mut Names, label: &Option<Symbol>) -> Result<(), AllocError>
    requires { list_any (statements.is_among labels.old) (statements.or_none label.now) ≡ false }
    ensures { OnOk result (labels.new ≡ labels.old ++ statements.or_none label.now) }
{
    if let Some(label) = label {
        labels.add(label.copied())?;
    }
    Ok(())
}

fn add_macro(macros: &mut Names, body: &Body) -> Result<(), AllocError>
    requires { list_any (statements.is_among macros.old) (statements.or_none (macro_name (flow_of body.now))) ≡ false }
    ensures { OnOk result (macros.new ≡ macros.old ++ statements.or_none (macro_name (flow_of body.now))) }
{
    if let Body::Macro(name, _) = body {
        macros.add(name.copied())?;
    }
    Ok(())
}

fn macro_behind(before: Option<u32>, line: u32, body: &Body) -> Option<u32>
    ensures { result ≡ statements.macro_behind before line (flow_of body.now) }
{
    match body {
        Body::Macro(..) => Some(line),
        Body::Termac => None,
        _ => before,
    }
}

fn loop_behind(before: Option<u32>, line: u32, body: &Body) -> Option<u32>
    ensures { result ≡ statements.loop_behind before line (flow_of body.now) }
{
    match body {
        Body::Loopst => Some(line),
        Body::Loopnd => None,
        _ => before,
    }
}

fn is_partno(body: &Body) -> bool
    ensures { result ≡ statements.is_partno body.now }
{
    matches!(body, Body::Partno(_))
}

fn is_only_partno(stmts: &[Stmt]) -> bool
    ensures { result ≡ statements.is_only_partno stmts.now }
{
    match stmts {
        [first] => is_partno(&first.body),
        _ => false,
    }
}
