//! The shapes of macros, loops and jumps.

ghost use Rattle.std.specs.Prelude.{◌≡◌, map, option_map, IfOk};
ghost use Rattle.apt_shapes.specs.Flow as flow;

use apt_expr::expression;
use apt_geometry::arguments::name;
use apt_lexis::Token;
use apt_words::{Args, Body, Expr, Params, Symbol};
use indexmap::IndexSet;
use std::alloc::{AllocError, Global};

/// A name, an equals sign and an expression.
fn argument(alloc: Global, tokens: &[Token]) -> Result<Option<(Symbol, Expr)>, AllocError>
    ensures { IfOk result (λ a. a ≡ flow.argument tokens.now) }
{
    let [Token::Name(name), Token::Equals, value @ ..] = tokens else {
        return Ok(None);
    };
    Ok(expression(alloc, value)?.map(|e| (name.copied(), e)))
}

/// A name, with its default where it has one.
fn parameter(alloc: Global, tokens: &[Token]) -> Result<Option<(Symbol, Option<Expr>)>, AllocError>
    ensures { IfOk result (λ p. p ≡ flow.parameter tokens.now) }
{
    if let [Token::Name(name)] = tokens {
        return Ok(Some((name.copied(), None)));
    }
    Ok(argument(alloc, tokens)?.map(|(name, e)| (name, Some(e))))
}

fn parameters(alloc: Global, args: &[&[Token]]) -> Result<Option<Params>, AllocError>
    ensures { IfOk result (λ p. p ≡ flow.parameters (map (λ a. a.now) args.now)) }
{
    let mut items = Vec::new(alloc);
    'arguments: for tokens in args {
        let Some(p) = parameter(alloc, tokens)? else {
            return Ok(None);
        };
        items.push(p)?;
    }
    Ok(Some(Params { items }))
}

/// Whether no name stands twice.
fn differ(alloc: Global, params: &[(Symbol, Option<Expr>)]) -> Result<bool, AllocError>
    ensures { IfOk result (λ d. d ≡ flow.differ (flow.names_of params.now)) }
{
    let mut names = IndexSet::new(alloc);
    'parameters: for param in params {
        if !names.insert(param.0.copied())? {
            return Ok(false);
        }
    }
    Ok(true)
}

pub(crate) fn macro_of(
    alloc: Global,
    n: &Symbol,
    args: &[&[Token]],
) -> Result<Option<Body>, AllocError>
    ensures { IfOk result (λ b. b ≡ flow.macro n.now (map (λ a. a.now) args.now)) }
{
    let Some(params) = parameters(alloc, args)? else {
        return Ok(None);
    };
    if !differ(alloc, &params.items)? {
        return Ok(None);
    }
    Ok(Some(Body::Macro(n.copied(), params)))
}

fn arguments_in(alloc: Global, args: &[&[Token]]) -> Result<Option<Args>, AllocError>
    ensures { IfOk result (λ a. a ≡ flow.arguments_in (map (λ a. a.now) args.now)) }
{
    let mut items = Vec::new(alloc);
    'arguments: for tokens in args {
        let Some(a) = argument(alloc, tokens)? else {
            return Ok(None);
        };
        items.push(a)?;
    }
    Ok(Some(Args { items }))
}

pub(crate) fn call(alloc: Global, args: &[&[Token]]) -> Result<Option<Body>, AllocError>
    ensures { IfOk result (λ b. b ≡ flow.call (map (λ a. a.now) args.now)) }
{
    let [called, rest @ ..] = args else {
        return Ok(None);
    };
    let Some(called) = name(called) else {
        return Ok(None);
    };
    Ok(arguments_in(alloc, rest)?.map(|list| Body::Call(called, list)))
}

pub(crate) fn jumpto(args: &[&[Token]]) -> Result<Option<Body>, AllocError>
    ensures { IfOk result (λ b. b ≡ flow.jumpto (map (λ a. a.now) args.now)) }
{
    match args {
        [l] => Ok(name(l).map(Body::Jumpto)),
        _ => Ok(None),
    }
}

/// The label behind a closing parenthesis.
fn label_of(close: &Token, label: &Token) -> Option<Symbol>
    ensures { result ≡ flow.label_of close.now label.now }
{
    match (close, label) {
        (Token::Close, Token::Name(label)) => Some(label.copied()),
        _ => None,
    }
}

/// The tokens before the parenthesis that closes them, and the label behind it.
#[tactic(auto, using(crate::proofs::Conditions::no_condition_in_none, crate::proofs::Conditions::no_condition_in_one))]
fn condition(tokens: &[Token]) -> Option<(&[Token], Symbol)>
    ensures { option_map (λ c. (c.0.now, c.1)) result ≡ flow.condition tokens.now }
{
    let (label, rest) = tokens.split_last()?;
    let (close, inside) = rest.split_last()?;
    Some((inside, label_of(close, label)?))
}

/// IF with three labels, from behind its first parenthesis.
pub(crate) fn if_in(alloc: Global, args: &[&[Token]]) -> Result<Option<Body>, AllocError>
    ensures { IfOk result (λ b. b ≡ flow.if_in (map (λ a. a.now) args.now)) }
{
    let [a, b, c] = args else {
        return Ok(None);
    };
    let Some((e, a)) = condition(a) else {
        return Ok(None);
    };
    let (Some(b), Some(c)) = (name(b), name(c)) else {
        return Ok(None);
    };
    Ok(expression(alloc, e)?.map(|e| Body::If(e, a, b, c)))
}
