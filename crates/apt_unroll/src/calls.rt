//! What a call binds the parameters of a macro to.
ghost use Rattle.std.specs.Prelude.{◌≡◌, [], ◌++◌, IfOk};
ghost use Rattle.std.specs.Option.{option_copied};
ghost use Rattle.apt_scalar.specs.Meanings.{meaning};
ghost use Rattle.apt_unroll.specs.Calls as spec;

use apt_scalar::{Bound, Env, Frame, Value, bound_in, eval};
use apt_words::{Args, Case, Expr, Params, Symbol};
use std::alloc::{AllocError, Global};

/// A name whose latest value is a figure.
fn if_figure<'a>(env: &Env, name: &'a Symbol) -> Option<&'a Symbol>
    ensures { option_copied result ≡ spec.if_figure name.now (meaning env.now name.now) }
{
    match env.get(name) {
        Some(Value::Shape(_)) => Some(name),
        Some(Value::Scalar(_)) | None => None,
    }
}

/// The name that a lone name stands for, where it stands for one.
fn passed_on<'a>(env: &Env, frame: &'a Frame, name: &'a Symbol) -> Option<&'a Symbol>
    ensures { option_copied result ≡ spec.passed_on env.now name.now (meaning frame.now name.now) }
{
    match bound_in(frame, name) {
        None => if_figure(env, name),
        Some(Bound::Scalar(_)) => None,
        Some(Bound::Alias(other)) => Some(other),
    }
}

fn lone_name<'a>(env: &Env, frame: &'a Frame, e: &'a Expr) -> Option<&'a Symbol>
    ensures { option_copied result ≡ spec.lone_name env.now frame.now e.now }
{
    passed_on(env, frame, e.lone_name()?)
}

/// What an expression stands for in the caller's names.
fn bound_by(env: &Env, frame: &Frame, e: &Expr) -> Result<Bound, Case>
    ensures { result ≡ spec.bound_by env.now frame.now e.now }
{
    match lone_name(env, frame, e) {
        Some(name) => Ok(Bound::Alias(name.copied())),
        None => {
            let v = eval(e, env, frame)?;
            Ok(Bound::Scalar(v))
        }
    }
}

fn is_parameter(params: &Params, name: &Symbol) -> bool
    ensures { result ≡ spec.has_name params.now name.now }
{
    params.items.iter().any(|p| p.0 == *name)
}

fn is_argument(args: &[(Symbol, Expr)], name: &Symbol) -> bool
    ensures { result ≡ spec.has_name args.now name.now }
{
    args.iter().any(|a| a.0 == *name)
}

/// Whether an argument is given twice.
fn are_twice(args: &Args) -> bool
    ensures { result ≡ spec.are_twice args.now }
{
    let mut i = 0;
    'args: for a in &args.items {
        i += 1;
        if is_argument(&args.items[i..], &a.0) {
            return true;
        }
    }
    false
}

fn are_known(params: &Params, args: &Args) -> bool
    ensures { result ≡ spec.are_known params.now args.now }
{
    args.items.iter().all(|a| is_parameter(params, &a.0))
}

fn are_given(params: &Params, args: &Args) -> bool
    ensures { result ≡ spec.are_given params.now args.now }
{
    let mut given = params.items.iter();
    given.all(|p| is_argument(&args.items, &p.0) || p.1.is_some())
}

/// Whether each argument is for a parameter, none is given twice, and each parameter has an argument or a default.
fn fit(params: &Params, args: &Args) -> bool
    ensures { result ≡ spec.fit params.now args.now }
{
    are_known(params, args) && !are_twice(args) && are_given(params, args)
}

/// The expression of a parameter: its argument, else its default.
fn expression_for<'a>(args: &'a Args, p: &'a (Symbol, Option<Expr>)) -> Option<&'a Expr>
    ensures { option_copied result ≡ spec.expression_for args.now p.now }
{
    'args: for a in &args.items {
        if a.0 == p.0 {
            return Some(&a.1);
        }
    }
    p.1.as_ref()
}

fn bound_or_bad(env: &Env, frame: &Frame, e: Option<&Expr>) -> Result<Bound, Case>
    ensures { result ≡ spec.bound_or_bad env.now frame.now (option_copied e.entry) }
{
    match e {
        None => Err(Case::BadArgs),
        Some(e) => bound_by(env, frame, e),
    }
}

/// What the parameters of a macro stand for in a call.
///
/// # Errors
///
/// `BadArgs`, and then the first case of an expression in the order of the parameters.
pub(crate) fn bindings(
    alloc: Global,
    env: &Env,
    frame: &Frame,
    params: &Params,
    args: &Args,
) -> Result<Result<Frame, Case>, AllocError>
    ensures { IfOk result (λ r. r ≡ spec.bindings env.now frame.now params.now args.now) }
{
    if fit(params, args) {
        bind_each(alloc, env, frame, params, args)
    } else {
        Ok(Err(Case::BadArgs))
    }
}

/// The parameters with what they stand for, evaluated one after another in the caller's names.
#[tactic(auto, using(crate::proofs::Binding::one_more, crate::proofs::Binding::all_bound, crate::proofs::Binding::none_bound))]
fn bind_each(
    alloc: Global,
    env: &Env,
    frame: &Frame,
    params: &Params,
    args: &Args,
) -> Result<Result<Frame, Case>, AllocError>
    ensures { IfOk result (λ r. r ≡ spec.bind_each env.now frame.now args.now params.now) }
{
    let mut own = Frame {
        bound: Vec::new(alloc),
    };
    'parameters: for p in &params.items {
        match bound_or_bad(env, frame, expression_for(args, p)) {
            Ok(b) => own.bound.push((p.0.copied(), b))?,
            Err(case) => return Ok(Err(case)),
        }
    }
    Ok(Ok(own))
}
