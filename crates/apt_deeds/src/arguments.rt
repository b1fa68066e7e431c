//! The values and names of a statement that is executed, in the shapes in which they stand together.
ghost use Rattle.std.specs.Prelude.{◌≡◌, [], ◌∷◌, pos, IfOk, option_map};
ghost use Rattle.apt_words.specs.Asks.{listed};
ghost use Rattle.apt_words.specs.Composition.{if_there, names_with, surface_by};
ghost use Rattle.apt_scalar.specs.Evaluation as values;
ghost use Rattle.apt_scalar.specs.Meanings as meanings;
ghost use Rattle.apt_deeds.specs.Deeds as deeds;

use apt_scalar::{Bound, Env, Frame, Kind, Value, bound_in, eval};
use apt_words::{Case, Expr, Node, Stop, Symbol};

/// The figure's name that a name stands for.
pub(crate) fn name_for(frame: &Frame, name: &Symbol) -> Result<Symbol, Case>
    ensures { result ≡ deeds.name_for frame.now name.now }
{
    match bound_in(frame, name) {
        None => Ok(name.copied()),
        Some(Bound::Alias(other)) => Ok(other.copied()),
        Some(Bound::Scalar(_)) => Err(Case::WrongKind),
    }
}

/// The greatest size of a scalar, in millionths.
const GREATEST: u64 = 1_000_000_000_000;

/// The value of an expression. A number that is small enough is its own.
#[inline(always)]
fn value(env: &Env, frame: &Frame, e: &Expr) -> Result<i64, Case>
    ensures { result ≡ values.value_of env.now frame.now e.now }
{
    match e.node {
        Node::Num(v) if v.unsigned_abs() <= GREATEST => Ok(v),
        _ => eval(e, env, frame),
    }
}

pub(crate) fn pair(frame: &Frame, a: &Symbol, b: &Symbol) -> Result<(Symbol, Symbol), Case>
    ensures { deeds.listed_by deeds.two result ≡ deeds.names_for frame.now (a.now ∷ b.now ∷ []) }
{
    let a = name_for(frame, a)?;
    let b = name_for(frame, b)?;
    Ok((a, b))
}

pub(crate) fn both(env: &Env, frame: &Frame, x: &Expr, y: &Expr) -> Result<(i64, i64), Case>
    ensures { deeds.listed_by deeds.two result ≡ deeds.values_of env.now frame.now (x.now ∷ y.now ∷ []) }
{
    let x = value(env, frame, x)?;
    let y = value(env, frame, y)?;
    Ok((x, y))
}

pub(crate) fn three(
    env: &Env,
    frame: &Frame,
    x: &Expr,
    y: &Expr,
    z: &Expr,
) -> Result<(i64, i64, i64), Case>
    ensures { deeds.listed_by deeds.three result ≡ deeds.values_of env.now frame.now (x.now ∷ y.now ∷ z.now ∷ []) }
{
    let x = value(env, frame, x)?;
    let y = value(env, frame, y)?;
    let z = value(env, frame, z)?;
    Ok((x, y, z))
}

pub(crate) fn four(
    env: &Env,
    frame: &Frame,
    x: &Expr,
    y: &Expr,
    u: &Expr,
    v: &Expr,
) -> Result<(i64, i64, i64, i64), Case>
    ensures { deeds.listed_by deeds.four result ≡ deeds.values_of env.now frame.now (x.now ∷ y.now ∷ u.now ∷ v.now ∷ []) }
{
    let x = value(env, frame, x)?;
    let y = value(env, frame, y)?;
    let u = value(env, frame, u)?;
    let v = value(env, frame, v)?;
    Ok((x, y, u, v))
}

fn optional(env: &Env, frame: &Frame, e: &Option<Expr>) -> Result<Option<i64>, Case>
    ensures value { deeds.listed_by listed result ≡ deeds.values_of env.now frame.now (listed e.now) }
    ensures there { IfOk result (λ v. v ≡ if_there e.now (deeds.nth (pos 0) (listed v) 0)) }
{
    match e {
        None => Ok(None),
        Some(e) => {
            let v = value(env, frame, e)?;
            Ok(Some(v))
        }
    }
}

/// The values of a place, whose z may be left out.
pub(crate) fn coordinates(
    env: &Env,
    frame: &Frame,
    x: &Expr,
    y: &Expr,
    z: &Option<Expr>,
) -> Result<(i64, i64, Option<i64>), Case>
    ensures value { deeds.listed_by deeds.two_or_three result ≡ deeds.values_of env.now frame.now (x.now ∷ y.now ∷ listed z.now) }
    ensures there { IfOk result (λ r. r.2 ≡ if_there z.now (deeds.nth (pos 0) (listed r.2) 0)) }
{
    let x = value(env, frame, x)?;
    let y = value(env, frame, y)?;
    let z = optional(env, frame, z)?;
    Ok((x, y, z))
}

pub(crate) fn value_and_name(
    env: &Env,
    frame: &Frame,
    e: &Expr,
    a: &Symbol,
) -> Result<(i64, Symbol), Case>
    ensures { deeds.listed_by (λ r. (r.0 ∷ [], r.1 ∷ [])) result ≡ deeds.arguments env.now frame.now (e.now ∷ []) (a.now ∷ []) }
{
    let v = value(env, frame, e)?;
    let a = name_for(frame, a)?;
    Ok((v, a))
}

pub(crate) fn value_and_pair(
    env: &Env,
    frame: &Frame,
    e: &Expr,
    a: &Symbol,
    b: &Symbol,
) -> Result<(i64, Symbol, Symbol), Case>
    ensures { deeds.listed_by (λ r. (r.0 ∷ [], r.1 ∷ r.2 ∷ [])) result ≡ deeds.arguments env.now frame.now (e.now ∷ []) (a.now ∷ b.now ∷ []) }
{
    let v = value(env, frame, e)?;
    let a = name_for(frame, a)?;
    let b = name_for(frame, b)?;
    Ok((v, a, b))
}

/// The surfaces of a start-up, one or two.
pub(crate) fn surfaces(
    frame: &Frame,
    name: &Symbol,
    other: &Option<(Stop, Symbol)>,
) -> Result<(Symbol, Option<(Stop, Symbol)>), Case>
    ensures value { deeds.listed_by deeds.one_or_two result ≡ deeds.names_for frame.now (names_with name.now other.now) }
    ensures there { IfOk result (λ r. r.1 ≡ surface_by other.now (deeds.nth [] (deeds.one_or_two r) 1)) }
{
    let name = name_for(frame, name)?;
    let Some((stop, other)) = other else {
        return Ok((name, None));
    };
    let other = name_for(frame, other)?;
    Ok((name, Some((*stop, other))))
}

/// A lone name of a point.
fn lone_point(env: &Env, frame: &Frame, e: &Expr) -> Option<Symbol>
    ensures { result ≡ deeds.lone_point env.now frame.now e.now }
{
    let name = e.lone_name()?;
    match name_for(frame, name) {
        Ok(name) => point_named(env, name),
        Err(_) => None,
    }
}

fn point_named(env: &Env, name: Symbol) -> Option<Symbol>
    ensures { result ≡ deeds.point_named name (meanings.meaning env.now name) }
{
    match env.get(&name) {
        Some(Value::Shape(Kind::Point)) => Some(name),
        _ => None,
    }
}

/// Whether the latest value of a name is a pattern.
pub(crate) fn is_pattern(env: &Env, name: &Symbol) -> bool
    ensures { result ≡ deeds.is_pattern (meanings.meaning env.now name.now) }
{
    match env.get(name) {
        Some(Value::Shape(Kind::Pattern)) => true,
        _ => false,
    }
}

/// Three lone names of points.
pub(crate) fn three_points(
    env: &Env,
    frame: &Frame,
    x: &Expr,
    y: &Expr,
    z: &Expr,
) -> Option<(Symbol, Symbol, Symbol)>
    ensures { option_map deeds.three result ≡ deeds.lone_points env.now frame.now (x.now ∷ y.now ∷ z.now ∷ []) }
{
    let a = lone_point(env, frame, x)?;
    let b = lone_point(env, frame, y)?;
    let c = lone_point(env, frame, z)?;
    Some((a, b, c))
}
