//! Expressions over scalars.
ghost use Rattle.std.specs.Prelude.{◌≡◌, option_map};
ghost use Rattle.apt_words.specs.TreeParts.{lone_name};

use crate::{Postfix, Symbol};
use std::marker::Model;

/// The operators between two operands.
#[derive(Clone, Copy, Debug, PartialEq, Eq)]
pub enum Op {
    Add,
    Sub,
    Mul,
    Div,
}

/// An expression. Clauses see its `Tree`.
#[derive(Drop)]
pub struct Expr {
    pub node: Node,
}

/// A number in millionths, a minus before one, a name, or an expression of several parts.
#[derive(Drop)]
pub enum Node {
    Num(i64),
    Minus(i64),
    Name(Symbol),
    Postfix(Box<Postfix>),
}

impl Model for Expr {
    ghost use Rattle.apt_words.specs.Trees.{Tree};
    ghost use Rattle.apt_words.specs.TreeCodes.{tree_code};

    ghost Value = { Tree };

    ghost coded = { tree_code };

    ghost use Rattle.apt_words.specs.TreeViews.{tree_of};

    ghost view = { λ e. tree_of e.node };
}

impl Expr {
    /// The name that the expression is, None where it is more or a number.
    pub fn lone_name(&self) -> Option<&Symbol>
        ensures { option_map (λ s. s.now) result ≡ lone_name self.now }
    {
        match &self.node {
            Node::Name(name) => Some(name),
            _ => None,
        }
    }
}
