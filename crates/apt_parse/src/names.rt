//! Names of which none stands twice.
ghost use Rattle.std.specs.Prelude.{◌≡◌, false, [], ◌∷◌, ◌++◌, OnOk};
ghost use Rattle.apt_parse.specs.Statements.{is_among};

use apt_words::Symbol;
use indexmap::IndexSet;
use std::alloc::{AllocError, Global};
use std::marker::Model;

/// Names in the order in which they came. Clauses see them.
#[derive(Drop)]
pub(crate) struct Names {
    set: IndexSet<Symbol>,
}

impl Model for Names {
    ghost use Rattle.std.specs.Prelude.{ℕ, List};

    ghost Value = { List (List ℕ) };

    ghost view = { λ n. n.set.keys };
}

impl Names {
    pub(crate) fn new(alloc: Global) -> Names
        ensures { result ≡ [] }
    {
        Names {
            set: IndexSet::new(alloc),
        }
    }

    pub(crate) fn has(&self, name: &Symbol) -> bool
        ensures { result ≡ is_among self.now name.now }
    {
        self.set.contains(name)
    }

    /// Adds a name that is not there.
    pub(crate) fn add(&mut self, name: Symbol) -> Result<(), AllocError>
        requires { is_among self.old name ≡ false }
        ensures { OnOk result (self.new ≡ self.old ++ name ∷ []) }
    {
        self.set.insert(name)?;
        Ok(())
    }
}
