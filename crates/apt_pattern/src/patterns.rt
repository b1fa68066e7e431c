//! Names with their patterns.

ghost use Rattle.std.specs.Prelude.{◌≡◌, ◌++◌, [], nat_eq, OnOk, OnErr, IfSome};
ghost use Rattle.std.specs.Cmp.Lexicographic.{pointwise};
ghost use Rattle.indexmap.specs.IndexMap.{insert_entry};
ghost use Rattle.apt_pattern.specs.Expansions.{pattern_named};
ghost use Rattle.apt_pattern.specs.Ranges.{IsPattern, ArePatterns};

use crate::pattern::Pattern;
use apt_words::Symbol;
use indexmap::IndexMap;
use std::alloc::{AllocError, Global};
use std::marker::Model;

/// Names with their latest patterns, each in its range.
#[derive(Drop)]
pub(crate) struct Patterns {
    map: IndexMap<Symbol, Pattern>,
}

impl Model for Patterns {
    ghost use Rattle.std.specs.Prelude.{ℕ, List};
    ghost use Rattle.apt_pattern.specs.declared.pattern.Pattern.{Pattern};
    ghost use Rattle.apt_pattern.specs.Ranges.{ArePatterns};

    ghost Value = { List (List ℕ × Pattern) };

    ghost view = { λ p. p.map.entries };

    ghost invariant = { λ p. ArePatterns p.map.entries };
}

impl Patterns {
    pub(crate) fn new(alloc: Global) -> Patterns
        ensures { result ≡ [] }
    {
        Patterns {
            map: IndexMap::new(alloc),
        }
    }

    #[tactic(auto, using(crate::proofs::Named::looked_up))]
    pub(crate) fn get(&self, name: &Symbol) -> Option<Pattern>
        ensures value { result ≡ pattern_named self.now name.now }
        ensures range { IfSome result IsPattern }
    {
        self.map.get(name).copied()
    }

    #[tactic(auto, using(crate::proofs::Named::still_patterns))]
    pub(crate) fn set(&mut self, name: Symbol, pattern: Pattern) -> Result<(), AllocError>
        requires { IsPattern pattern }
        ensures ok { OnOk result (self.new ≡ insert_entry (pointwise nat_eq) self.old name pattern) }
        ensures err { OnErr result (self.new ≡ self.old) }
    {
        self.map.insert(name, pattern)?;
        Ok(())
    }
}
