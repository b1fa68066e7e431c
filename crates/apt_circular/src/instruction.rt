//! What a block says to a control that cuts arcs, beside what holds before it and behind it.

ghost use Rattle.std.specs.Prelude.{◌<◌, ◌^◌, unsigned_abs, IfSome};
ghost use Rattle.std.proofs.Props.{props};
ghost use Rattle.apt_control.specs.Limits.{IsHeld};

use apt_control::{Held, Passing};

/// The signed way from the old position to the centre of an arc, I in x and J in y, none where its word is left out.
#[derive(Clone, Copy)]
pub struct CentreWay {
    pub i: Option<i64>,
    pub j: Option<i64>,
}

/// What a block says, and what holds before it and behind it.
#[derive(Clone, Copy)]
pub struct Instruction {
    pub before: Held,
    pub behind: Held,
    pub said: Passing,
    pub way: CentreWay,
    ghost held: { IsHeld before } by { Prim.hlevel props },
    ghost short_i: { IfSome way.i (λ v. unsigned_abs v < 10 ^ 8) } by { Prim.hlevel props },
    ghost short_j: { IfSome way.j (λ v. unsigned_abs v < 10 ^ 8) } by { Prim.hlevel props },
}
