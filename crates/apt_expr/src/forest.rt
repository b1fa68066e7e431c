//! Trees one behind another, as lists of their parts.

ghost use Rattle.std.specs.Prelude.{◌≡◌, ◌≤◌, true, [], ◌∷◌, length, IfOk, OnOk};
ghost use Rattle.apt_words.specs.Trees.{operators, Num, Name, Neg, Root, Abs, Bin};
ghost use Rattle.apt_words.specs.TreeParts.{after, built, latest};
ghost use Rattle.apt_expr.specs.Forests.{arity, below, is_simple};

use apt_words::{Expr, Item, Millionths, Node, Op, Postfix, Symbol};
use std::alloc::{AllocError, Global};
use std::marker::Model;

/// Trees, each of which is an operand of what is still to be read. Clauses see them, the latest first.
///
/// The latest stands apart where it is a number, since it may become one part with an operator before it.
#[derive(Drop)]
pub(crate) struct Forest {
    parts: Vec<Item>,
    number: Option<i64>,
}

impl Model for Forest {
    ghost use Rattle.std.specs.Prelude.{◌≡◌, List, [], true};
    ghost use Rattle.std.specs.Coded.{coded_list};
    ghost use Rattle.apt_words.specs.Trees.{Tree};
    ghost use Rattle.apt_words.specs.TreeCodes.{tree_code};
    ghost use Rattle.apt_words.specs.TreeParts.{trees};
    ghost use Rattle.apt_expr.specs.Forests.{all_parts, is_settled, with_latest};

    ghost Value = { List Tree };

    ghost coded = { coded_list tree_code };

    ghost view = { λ f. with_latest f.number (trees f.parts.items []) };

    ghost invariant = { λ f. (all_parts (trees f.parts.items []) ≡ f.parts.items) × (is_settled f.number (trees f.parts.items []) ≡ true) };
}

impl Forest {
    /// No trees, with room for so many parts.
    pub(crate) fn new(alloc: Global, room: usize) -> Result<Forest, AllocError>
        ensures { IfOk result (λ f. f ≡ []) }
    {
        let parts = Vec::with_capacity(alloc, room)?;
        Ok(Forest {
            parts,
            number: None,
        })
    }

    #[tactic(auto, using(crate::proofs::Forests::parts_after, crate::proofs::Forests::trees_after, crate::proofs::Forests::settled_after))]
    fn push(&mut self, part: Item) -> Result<(), AllocError>
        requires operands { arity part ≤ length self.old }
        requires simple { is_simple part ≡ true }
        ensures { OnOk result (self.new ≡ after part self.old) }
    {
        match self.number {
            Some(v) => {
                self.parts.reserve(2)?;
                self.parts.push_reserved(Item::Num(Millionths::new(v)));
                self.parts.push_reserved(part);
                self.number = None;
            }
            None => self.parts.push(part)?,
        }
        Ok(())
    }

    #[tactic(auto, using(crate::proofs::Forests::trees_after))]
    pub(crate) fn number(&mut self, v: i64) -> Result<(), AllocError>
        ensures { OnOk result (self.new ≡ Num v ∷ self.old) }
    {
        if let Some(before) = self.number {
            self.parts.push(Item::Num(Millionths::new(before)))?;
        }
        self.number = Some(v);
        Ok(())
    }

    pub(crate) fn name(&mut self, name: Symbol) -> Result<(), AllocError>
        ensures { OnOk result (self.new ≡ Name name ∷ self.old) }
    {
        self.push(Item::Name(name))
    }

    #[tactic(auto, using(crate::proofs::Forests::one_operand))]
    pub(crate) fn negative(&mut self) -> Result<(), AllocError>
        requires { 1 ≤ length self.old }
        ensures { OnOk result (self.new ≡ Neg (latest self.old) ∷ below self.old) }
    {
        self.push(Item::Neg)
    }

    #[tactic(auto, using(crate::proofs::Forests::one_operand))]
    pub(crate) fn root(&mut self) -> Result<(), AllocError>
        requires { 1 ≤ length self.old }
        ensures { OnOk result (self.new ≡ Root (latest self.old) ∷ below self.old) }
    {
        self.push(Item::Root)
    }

    #[tactic(auto, using(crate::proofs::Forests::one_operand))]
    pub(crate) fn absolute(&mut self) -> Result<(), AllocError>
        requires { 1 ≤ length self.old }
        ensures { OnOk result (self.new ≡ Abs (latest self.old) ∷ below self.old) }
    {
        self.push(Item::Abs)
    }

    /// Joins the latest tree to the one before it.
    #[tactic(auto, using(crate::proofs::Forests::two_operands, crate::proofs::Forests::trees_after, crate::proofs::Forests::numbered, crate::proofs::Forests::parts_numbered, crate::proofs::Forests::parts_joined, crate::proofs::Forests::settled_joined))]
    pub(crate) fn both(&mut self, op: Op) -> Result<(), AllocError>
        requires { 2 ≤ length self.old }
        ensures { OnOk result (self.new ≡ Bin op (latest (below self.old)) (latest self.old) ∷ below (below self.old)) }
    {
        match self.number {
            Some(v) => {
                self.parts.push(Item::with_number(op, v))?;
                self.number = None;
            }
            None => self.parts.push(Item::Bin(op))?,
        }
        Ok(())
    }

    /// The expression of the one tree.
    pub(crate) fn expression(self, alloc: Global) -> Result<Expr, AllocError>
        requires one { length self ≡ 1 }
        requires few { operators (latest self) ≤ 64 }
        ensures { IfOk result (λ e. e ≡ latest self) }
    {
        let Forest { mut parts, number } = self;
        if let Some(v) = number {
            return Ok(Expr { node: Node::Num(v) });
        }
        if parts.len() <= 1 {
            return Ok(operand(&parts));
        }
        let mut items = Vec::with_capacity(alloc, parts.len())?;
        items.append(&mut parts)?;
        let parts = Box::new(alloc, Postfix { items })?;
        Ok(Expr {
            node: Node::Postfix(parts),
        })
    }
}

/// The expression of one part.
fn operand(parts: &[Item]) -> Expr
    requires { length parts.now ≤ 1 }
    ensures { result ≡ built parts.now [] }
{
    let node = match parts {
        [Item::Num(v)] => Node::Num(v.value()),
        [Item::Name(name)] => Node::Name(name.copied()),
        _ => Node::Num(0),
    };
    Expr { node }
}
