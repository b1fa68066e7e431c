//! The value of an expression.
ghost use Rattle.std.specs.Prelude.{◌≡◌, IfOk, OnOk, IfErr, Ok, Err};
ghost use Rattle.apt_scalar.specs.Scalars as scalars;
ghost use Rattle.apt_scalar.specs.Stacks as stacks;
ghost use Rattle.apt_scalar.specs.Evaluation as values;

use crate::names::{Env, Frame, scalar_named};
use crate::scalars::{apply, in_range, size, square_root};
use crate::stack::Stack;
use apt_words::{Case, Expr, Item, Millionths, Node, Op};

/// The value of an expression, or its first refusal: the left operand before the right, operands before
/// their operator.
#[tactic(auto, using(crate::proofs::Stacked::value_on_stack))]
pub fn eval(e: &Expr, env: &Env, frame: &Frame) -> Result<i64, Case>
    ensures value { result ≡ values.value_of env.now frame.now e.now }
    ensures scalar { IfOk result (λ v. scalars.IsScalar v) }
{
    match &e.node {
        Node::Num(v) => in_range(i128::from(*v)),
        Node::Minus(v) => {
            let v = in_range(i128::from(*v))?;
            Ok(-v)
        }
        Node::Name(name) => scalar_named(name, env, frame),
        Node::Postfix(parts) => value_behind(&parts.items, env, frame),
    }
}

fn value_behind(parts: &[Item], env: &Env, frame: &Frame) -> Result<i64, Case>
    ensures value { result ≡ stacks.value_behind env.now frame.now parts.now }
    ensures scalar { IfOk result (λ v. scalars.IsScalar v) }
{
    let mut stack = Stack::new();
    'parts: for part in parts {
        put(&mut stack, part, env, frame)?;
    }
    Ok(stack.pop())
}

/// Takes the operands of a part from the stack, and puts its value there.
fn put(stack: &mut Stack, part: &Item, env: &Env, frame: &Frame) -> Result<(), Case>
    ensures ok { OnOk result (stacks.behind env.now frame.now part.now stack.old ≡ Ok stack.new) }
    ensures err { IfErr result (λ case. stacks.behind env.now frame.now part.now stack.old ≡ Err case) }
{
    let v = match part {
        Item::Num(v) => in_range(i128::from(v.value()))?,
        Item::Name(name) => scalar_named(name, env, frame)?,
        Item::Neg => -stack.pop(),
        Item::Root => square_root(stack.pop())?,
        Item::Abs => size(stack.pop()),
        Item::Bin(op) => {
            let right = stack.pop();
            let left = stack.pop();
            apply(*op, left, right)?
        }
        Item::AddNum(v) => beside(Op::Add, stack, v)?,
        Item::SubNum(v) => beside(Op::Sub, stack, v)?,
        Item::MulNum(v) => beside(Op::Mul, stack, v)?,
        Item::DivNum(v) => beside(Op::Div, stack, v)?,
    };
    stack.push(v);
    Ok(())
}

/// The latest value and a number to its right, with the operator between them.
fn beside(op: Op, stack: &mut Stack, v: &Millionths) -> Result<i64, Case>
    ensures value { result ≡ stacks.beside op v.now stack.old }
    ensures rest { OnOk result (stack.new ≡ stacks.below stack.old) }
    ensures scalar { IfOk result (λ v. scalars.IsScalar v) }
{
    let right = in_range(i128::from(v.value()))?;
    let left = stack.pop();
    apply(op, left, right)
}
