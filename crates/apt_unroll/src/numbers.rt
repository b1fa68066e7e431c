//! Numbers of statements by their names.
ghost use Rattle.std.specs.Prelude.{◌≡◌, ℕ, List, [], Option, Some, None, OnOk, IfOk};
ghost use Rattle.std.specs.Option.{option_copied};
ghost use Rattle.apt_scalar.specs.Meanings.{meaning};
ghost use Rattle.apt_unroll.specs.Places as spec;
ghost use Rattle.apt_unroll.specs.Tables as tables;

use apt_words::{Body, Stmt, Symbol};
use indexmap::IndexMap;
use std::alloc::{AllocError, Global};
use std::marker::Model;

/// What a statement is looked up by: its label, or the name of the macro that it begins.
#[derive(Clone, Copy)]
pub(crate) enum Naming {
    Labels,
    Macros,
}

impl Naming {
    fn name_in(self, st: &Stmt) -> Option<&Symbol>
        ensures { option_copied result ≡ spec.name_in self st.now }
    {
        match self {
            Naming::Labels => st.label.as_ref(),
            Naming::Macros => match &st.body {
                Body::Macro(name, _) => Some(name),
                _ => None,
            },
        }
    }
}

/// The number of the first statement of each name. Clauses see the names with their numbers.
#[derive(Drop)]
pub(crate) struct Numbers {
    map: IndexMap<Symbol, usize>,
}

impl Model for Numbers {
    ghost use Rattle.std.specs.Prelude.{ℕ, List};

    ghost Value = { List (List ℕ × ℕ) };

    ghost view = { λ n. n.map.entries };
}

impl Numbers {
    fn new(alloc: Global) -> Numbers
        ensures { result ≡ [] }
    {
        Numbers {
            map: IndexMap::new(alloc),
        }
    }

    /// The numbers of the statements of a program by their labels, or of its macros by their names.
    pub(crate) fn of_names(
        alloc: Global,
        stmts: &[Stmt],
        naming: Naming,
    ) -> Result<Numbers, AllocError>
        ensures { IfOk result (λ n. (name : List ℕ) → meaning n name ≡ spec.place_of naming stmts.now name) }
    {
        let mut numbers = Numbers::new(alloc);
        let mut i = 0;
        'statements: for st in stmts {
            numbers.note(naming.name_in(st), i)?;
            i += 1;
        }
        Ok(numbers)
    }

    /// The number under a name.
    pub(crate) fn get(&self, name: &Symbol) -> Option<usize>
        ensures { result ≡ meaning self.now name.now }
    {
        self.map.get(name).copied()
    }

    /// Notes the number of a statement under its name, where it has one and none stands there.
    fn note(&mut self, name: Option<&Symbol>, i: usize) -> Result<(), AllocError>
        ensures { OnOk result ((other : List ℕ) → meaning self.new other ≡ tables.or_else (meaning self.old other) (tables.number_if (option_copied name.entry) i other)) }
    {
        if let Some(name) = name {
            if self.get(name).is_none() {
                self.map.insert(name.copied(), i)?;
            }
        }
        Ok(())
    }
}
