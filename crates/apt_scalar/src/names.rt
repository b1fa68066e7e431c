//! The names of a program and the parameters of a macro.

ghost use Rattle.std.specs.Prelude.{◌≡◌, [], OnOk, OnErr, IfOk};
ghost use Rattle.std.specs.Option.{option_copied};
ghost use Rattle.apt_scalar.specs.Meanings as meanings;
ghost use Rattle.apt_scalar.specs.Scalars as scalars;

use crate::scalars::in_range;
use apt_words::{Case, Symbol};
use indexmap::IndexMap;
use std::alloc::{AllocError, Global};
use std::marker::Model;

/// The kinds of figures, and patterns of points, which count as figures in expressions and arguments.
#[derive(Clone, Copy, PartialEq, Eq)]
pub enum Kind {
    Point,
    Line,
    Circle,
    Pattern,
}

/// What a name means: a scalar in millionths, or a figure.
#[derive(Clone, Copy, PartialEq, Eq)]
pub enum Value {
    Scalar(i64),
    Shape(Kind),
}

/// What a parameter stands for: a scalar in millionths, or another name.
#[derive(Drop)]
pub enum Bound {
    Scalar(i64),
    Alias(Symbol),
}

/// The names of a program. Clauses see the names and their values in the order in which they were first bound.
#[derive(Drop)]
pub struct Env {
    map: IndexMap<Symbol, Value>,
    /// Where the name stands that was bound last, which is asked for most.
    latest: usize,
}

impl Model for Env {
    ghost use Rattle.std.specs.Prelude.{ℕ, List};
    ghost use Rattle.apt_scalar.specs.declared.names.Value.{Value as NameValue};

    ghost Value = { List (List ℕ × NameValue) };

    ghost view = { λ e. e.map.entries };
}

/// The parameters of the running macro, none outside of macros. Clauses see them in order.
#[derive(Drop)]
pub struct Frame {
    pub bound: Vec<(Symbol, Bound)>,
}

impl Model for Frame {
    ghost use Rattle.std.specs.Prelude.{ℕ, List};
    ghost use Rattle.apt_scalar.specs.declared.names.Bound.{Bound};

    ghost Value = { List (List ℕ × Bound) };

    ghost view = { λ f. f.bound.items };
}

impl Env {
    /// No names.
    pub fn new(alloc: Global) -> Env
        ensures { result ≡ [] }
    {
        Env {
            map: IndexMap::new(alloc),
            latest: 0,
        }
    }

    /// What a name means, None where it has been given no value.
    pub fn get(&self, name: &Symbol) -> Option<Value>
        ensures { result ≡ meanings.meaning self.now name.now }
    {
        match self.map.get_index(self.latest) {
            Some((latest, v)) if latest == name => Some(*v),
            _ => self.map.get(name).copied(),
        }
    }

    fn insert(&mut self, name: Symbol, v: Value) -> Result<(), AllocError>
        ensures ok { OnOk result (self.new ≡ meanings.with_entry self.old name v) }
        ensures err { OnErr result (self.new ≡ self.old) }
    {
        let (i, _) = self.map.insert_full(name, v)?;
        self.latest = i;
        Ok(())
    }
}

/// The scalar that a name stands for: by a parameter of the running macro first, then by the names of
/// the program.
pub(crate) fn scalar_named(name: &Symbol, env: &Env, frame: &Frame) -> Result<i64, Case>
    ensures value { result ≡ meanings.scalar_named env.now frame.now name.now }
    ensures scalar { IfOk result (λ v. scalars.IsScalar v) }
{
    match bound_in(frame, name) {
        None => scalar_in(env.get(name)),
        Some(Bound::Scalar(v)) => in_range(i128::from(*v)),
        Some(Bound::Alias(other)) => scalar_in(env.get(other)),
    }
}

/// What a parameter stands for, None where the running macro has none of this name.
pub fn bound_in<'a>(frame: &'a Frame, name: &Symbol) -> Option<&'a Bound>
    ensures { option_copied result ≡ meanings.meaning frame.now name.now }
{
    if frame.bound.is_empty() {
        return None;
    }
    bound_among(frame, name)
}

fn bound_among<'a>(frame: &'a Frame, name: &Symbol) -> Option<&'a Bound>
    ensures { option_copied result ≡ meanings.meaning frame.now name.now }
{
    'parameters: for (parameter, bound) in &frame.bound {
        if name == parameter {
            return Some(bound);
        }
    }
    None
}

/// A figure is no scalar.
fn scalar_in(meaning: Option<Value>) -> Result<i64, Case>
    ensures value { result ≡ meanings.scalar_in meaning }
    ensures scalar { IfOk result (λ v. scalars.IsScalar v) }
{
    match meaning {
        Some(Value::Scalar(v)) => in_range(i128::from(v)),
        Some(Value::Shape(_)) | None => Err(Case::Unknown),
    }
}

/// Gives a name a value: a new name goes last, a known one keeps its place. After want of memory
/// nothing has changed.
#[tactic(auto, using(crate::proofs::Bindings::is_bound))]
pub fn bind(_alloc: Global, env: &mut Env, name: Symbol, v: Value) -> Result<(), AllocError>
    ensures ok { OnOk result (meanings.IsBound env.old name v env.new) }
    ensures entries { OnOk result (env.new ≡ meanings.with_entry env.old name v) }
    ensures err { OnErr result (env.new ≡ env.old) }
{
    env.insert(name, v)
}
