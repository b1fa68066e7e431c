//! What a statement does, and the names behind it.
ghost use Rattle.std.specs.Prelude.{◌≡◌, IfOk, OnOk};
ghost use Rattle.apt_words.specs.Asks.{ask_of};
ghost use Rattle.apt_words.specs.Composition.{composition};
ghost use Rattle.apt_deeds.specs.Deeds as deeds;

use crate::figures::defined_name;
use crate::statements::execution;
use apt_scalar::{Env, Frame, Kind, Value, bind, bound_in};
use apt_words::{Body, Case, Deed, Drill, Form, Symbol};
use std::alloc::{AllocError, Global};

/// What a statement does, or its first refusal.
#[tactic(auto, unfolding(crate::specs::Deeds::deed_of, crate::specs::Deeds::executed, crate::specs::Deeds::by_values))]
pub fn deed_of(env: &Env, frame: &Frame, body: &Body) -> Result<Result<Deed, Case>, AllocError>
    ensures { IfOk result (λ deed. deed ≡ deeds.deed_of env.now frame.now body.now) }
{
    if defines_parameter(frame, body) {
        return Ok(Err(Case::BadArgs));
    }
    match body {
        Body::Partno(text) => {
            let text = text.copied()?;
            Ok(Ok(Deed::Partno(text)))
        }
        Body::Remark(text) => {
            let text = text.copied()?;
            Ok(Ok(Deed::Remark(text)))
        }
        _ => Ok(execution(env, frame, body)),
    }
}

/// Whether a statement defines a parameter of the running macro.
fn defines_parameter(frame: &Frame, body: &Body) -> bool
    ensures { result ≡ deeds.is_parameter frame.now (composition body.now).defines }
{
    match defined_name(body) {
        None => false,
        Some(name) => bound_in(frame, name).is_some(),
    }
}

/// Gives the name that a step defines its value.
pub fn bind_behind(alloc: Global, env: &mut Env, deed: &Deed) -> Result<(), AllocError>
    ensures { OnOk result (env.new ≡ deeds.names_behind env.old deed.now) }
{
    if let Some((name, v)) = definition_by(deed) {
        bind(alloc, env, name, v)?;
    }
    match deed.drill() {
        Some(Drill::Pattern(name, ..)) => bind(alloc, env, name, Value::Shape(Kind::Pattern)),
        _ => Ok(()),
    }
}

/// The name that a step defines, and its value.
fn definition_by(deed: &Deed) -> Option<(Symbol, Value)>
    ensures { result ≡ deeds.definition_by (ask_of deed.now) }
{
    match deed.definition() {
        Some((name, form)) => Some((name, value_by(&form))),
        None => None,
    }
}

fn value_by(form: &Form) -> Value
    ensures { result ≡ deeds.value_by form.now }
{
    match form {
        Form::Number(v) => Value::Scalar(*v),
        Form::Point(_) => Value::Shape(Kind::Point),
        Form::Line(_) => Value::Shape(Kind::Line),
        Form::Circle(_) => Value::Shape(Kind::Circle),
    }
}
