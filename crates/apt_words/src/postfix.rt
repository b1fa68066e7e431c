//! Expressions as lists of their parts.
ghost use Rattle.std.specs.Prelude.{◌≡◌, ◌≤◌, [], None};
ghost use Rattle.apt_words.specs.Trees.{operators};
ghost use Rattle.apt_words.specs.TreeParts.{parts, built, lone_name, with_number};

use crate::{Op, Symbol};
use std::marker::Model;

/// A number in millionths, of which a list takes no more than its bytes. Clauses see the number.
#[derive(Drop)]
pub struct Millionths {
    bytes: [u8; 8],
}

impl Model for Millionths {
    ghost use Rattle.std.specs.Prelude.{ℤ};
    ghost use Rattle.std.specs.Int.{w64, from_le_bytes, cast_signed};

    ghost Value = { ℤ };

    ghost view = { λ m. cast_signed w64 (from_le_bytes w64 m.bytes) };
}

impl Millionths {
    #[tactic(auto, using(crate::proofs::Bytes::number_again))]
    pub fn new(v: i64) -> Millionths
        ensures { result ≡ v }
    {
        Millionths {
            bytes: v.cast_unsigned().to_le_bytes(),
        }
    }

    pub fn value(&self) -> i64
        ensures { result ≡ self.now }
    {
        u64::from_le_bytes(self.bytes).cast_signed()
    }
}

/// A part of an expression: an operand, or an operator, which stands behind its operands. Where the right operand is a
/// number, the two are one part.
#[derive(Drop)]
pub enum Item {
    Num(Millionths),
    Name(Symbol),
    Neg,
    Root,
    Abs,
    Bin(Op),
    AddNum(Millionths),
    SubNum(Millionths),
    MulNum(Millionths),
    DivNum(Millionths),
}

impl Item {
    /// An operator with a number to its right.
    pub fn with_number(op: Op, v: i64) -> Item
        ensures { result ≡ with_number op v }
    {
        let v = Millionths::new(v);
        match op {
            Op::Add => Item::AddNum(v),
            Op::Sub => Item::SubNum(v),
            Op::Mul => Item::MulNum(v),
            Op::Div => Item::DivNum(v),
        }
    }
}

/// The parts of an expression that is no lone name.
#[derive(Drop)]
pub struct Postfix {
    pub items: Vec<Item>,
    ghost whole: { parts (built items.items []) [] ≡ items.items },
    ghost composed: { lone_name (built items.items []) ≡ None },
    ghost small: { operators (built items.items []) ≤ 64 },
}
