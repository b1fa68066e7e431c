//! A stack of scalars.
ghost use Rattle.std.specs.Prelude.{◌≡◌, []};
ghost use Rattle.apt_scalar.specs.Scalars as scalars;
ghost use Rattle.apt_scalar.specs.Stacks as stacks;

use std::marker::Model;

/// One more than an expression has operators between two operands.
const ROOM: usize = 65;

/// Scalars, the latest first, from a place in an array on. Clauses see their list.
#[derive(Drop)]
pub(crate) struct Stack {
    values: [i64; ROOM],
    at: usize,
}

impl Model for Stack {
    ghost use Rattle.std.specs.Prelude.{◌≤◌, ℤ, List, drop};
    ghost use Rattle.std.specs.List.{All};
    ghost use Rattle.apt_scalar.specs.Scalars.{IsScalar};

    ghost Value = { List ℤ };

    ghost view = { λ s. drop s.at s.values };

    ghost invariant = { λ s. (s.at ≤ 65) × All IsScalar s.values };
}

impl Stack {
    pub(crate) fn new() -> Stack
        ensures { result ≡ [] }
    {
        Stack {
            values: [0; ROOM],
            at: ROOM,
        }
    }

    /// Puts a scalar on the stack, where there is room.
    pub(crate) fn push(&mut self, v: i64)
        requires { scalars.IsScalar v }
        ensures { self.new ≡ stacks.pushed v self.old }
    {
        if self.at > 0 {
            self.at -= 1;
            self.values[self.at] = v;
        }
    }

    /// Takes the latest scalar, 0 where there is none.
    pub(crate) fn pop(&mut self) -> i64
        ensures value { result ≡ stacks.top self.old }
        ensures rest { self.new ≡ stacks.below self.old }
        ensures scalar { scalars.IsScalar result }
    {
        if self.at == ROOM {
            return 0;
        }
        let v = self.values[self.at];
        self.at += 1;
        v
    }
}
