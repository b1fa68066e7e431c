//! The expression of a list of tokens.

ghost use Rattle.std.specs.Prelude.{◌≡◌, ◌≤◌, [], ◌∷◌, length, if◌then◌else◌, option_map, IfOk, IfSome};
ghost use Rattle.apt_lexis.specs.declared.token.Token.TheVariants as tokens;
ghost use Rattle.apt_words.specs.Trees.{operators, Neg};
ghost use Rattle.apt_words.specs.TreeParts.{latest};
ghost use Rattle.apt_expr.specs.Expressions as expressions;
ghost use Rattle.apt_expr.specs.Forests.{Grown, below};
ghost use Rattle.apt_expr.specs.Operands as operands;

use crate::forest::Forest;
use crate::parts::{Rank, first_factor};
use apt_lexis::Token;
use apt_words::{Expr, Node, Op, Word};
use std::alloc::{AllocError, Global};

const MOST_OPERATORS: u32 = 64;

const MOST_PARENTHESES: u8 = 32;

/// The expression of some tokens, None where they are none. It has at most 64 operators and 32 nested parentheses.
#[tactic(auto, unfolding(crate::specs::Expressions::expression))]
pub fn expression(alloc: Global, tokens: &[Token]) -> Result<Option<Expr>, AllocError>
    ensures value { IfOk result (λ e. e ≡ expressions.expression tokens.now) }
    ensures small { IfOk result (λ e. IfSome e (λ t. operators t ≤ 64)) }
{
    let node = match tokens {
        [Token::Number(v)] => Node::Num(*v),
        [Token::Minus, Token::Number(v)] => Node::Minus(*v),
        [Token::Name(name)] => Node::Name(name.copied()),
        _ => return longer(alloc, tokens),
    };
    Ok(Some(Expr { node }))
}

// a frame of its own, so that the commonest expressions, of one or two tokens, need none
#[inline(never)]
#[tactic(auto, unfolding(crate::specs::Expressions::expression))]
fn longer(alloc: Global, tokens: &[Token]) -> Result<Option<Expr>, AllocError>
    ensures value { IfOk result (λ e. e ≡ expressions.expression tokens.now) }
    ensures small { IfOk result (λ e. IfSome e (λ t. operators t ≤ 64)) }
{
    let mut forest = Forest::new(alloc, tokens.len())?;
    match sum(MOST_PARENTHESES, tokens, &mut forest)? {
        Some(_) => Ok(Some(forest.expression(alloc)?)),
        None => Ok(None),
    }
}

/// Reads terms between plus and minus, with so many parentheses that may still be nested, and counts operators.
#[cycle(reading)]
fn sum(nesting: u8, tokens: &[Token], forest: &mut Forest) -> Result<Option<u32>, AllocError>
    ensures tree { IfOk result (λ e. option_map (λ n. latest forest.new) e ≡ expressions.sum_by (expressions.factor_of nesting) tokens.now) }
    ensures grown { IfOk result (λ e. IfSome e (λ n. Grown n forest.old forest.new)) }
{
    match tokens {
        [Token::Minus, behind @ ..] => terms(nesting, true, behind, forest),
        _ => terms(nesting, false, tokens, forest),
    }
}

/// Reads terms between plus and minus, where a minus may stand before the first.
#[cycle(reading)]
#[tactic(auto, using(crate::proofs::Joins::none_stays, crate::proofs::Terms::term_behind, crate::proofs::Terms::no_terms))]
fn terms(
    nesting: u8,
    minus: bool,
    tokens: &[Token],
    forest: &mut Forest,
) -> Result<Option<u32>, AllocError>
    ensures tree { IfOk result (λ e. let term = expressions.term_by (expressions.factor_of nesting) in let p = operands.parts Rank.Additive tokens.now in option_map (λ n. latest forest.new) e ≡ expressions.from_left term (if minus then option_map Neg (term p.first) else term p.first) p.others) }
    ensures grown { IfOk result (λ e. IfSome e (λ n. Grown n forest.old forest.new)) }
{
    let Some((mut count, mut rest)) = term(nesting, tokens, forest)? else {
        return Ok(None);
    };
    if minus {
        forest.negative()?;
    }
    'terms: while let Some((token, behind)) = rest.split_first()
        && let Some(op) = Rank::Additive.operator(token)
    {
        let Some((right, more)) = term(nesting, behind, forest)? else {
            return Ok(None);
        };
        let Some(sum) = binary(op, count, right, forest)? else {
            return Ok(None);
        };
        count = sum;
        rest = more;
    }
    Ok(Some(count))
}

/// Reads factors between times and divided by, and gives the tokens from the next plus or minus on.
#[cycle(reading)]
#[tactic(auto, using(crate::proofs::Joins::none_stays, crate::proofs::Terms::factor_behind, crate::proofs::Terms::terms_kept, crate::proofs::Terms::no_factors, crate::proofs::Terms::term_ends))]
fn term<'a>(
    nesting: u8,
    tokens: &'a [Token],
    forest: &mut Forest,
) -> Result<Option<(u32, &'a [Token])>, AllocError>
    ensures tree { IfOk result (λ e. option_map (λ r. latest forest.new) e ≡ expressions.term_by (expressions.factor_of nesting) (operands.parts Rank.Additive tokens.now).first) }
    ensures grown { IfOk result (λ e. IfSome e (λ r. Grown r.0 forest.old forest.new)) }
    ensures terms { IfOk result (λ e. IfSome e (λ r. (operands.parts Rank.Additive r.1.now).others ≡ (operands.parts Rank.Additive tokens.now).others)) }
    ensures whole { IfOk result (λ e. IfSome e (λ r. (operands.parts Rank.Additive r.1.now).first ≡ [])) }
{
    let (first, mut rest) = first_factor(tokens);
    let Some(mut count) = factor(nesting, first, forest)? else {
        return Ok(None);
    };
    'factors: while let Some((token, behind)) = rest.split_first()
        && let Some(op) = Rank::Multiplicative.operator(token)
    {
        let (part, more) = first_factor(behind);
        let Some(right) = factor(nesting, part, forest)? else {
            return Ok(None);
        };
        let Some(product) = binary(op, count, right, forest)? else {
            return Ok(None);
        };
        count = product;
        rest = more;
    }
    Ok(Some((count, rest)))
}

/// Reads a number, a name, an expression in parentheses, or a function of one.
#[cycle(reading)]
fn factor(nesting: u8, tokens: &[Token], forest: &mut Forest) -> Result<Option<u32>, AllocError>
    ensures tree { IfOk result (λ e. option_map (λ n. latest forest.new) e ≡ expressions.factor_of nesting tokens.now) }
    ensures grown { IfOk result (λ e. IfSome e (λ n. Grown n forest.old forest.new)) }
{
    match tokens {
        [Token::Number(v)] => {
            forest.number(*v)?;
            Ok(Some(0))
        }
        [Token::Name(name)] => {
            forest.name(name.copied())?;
            Ok(Some(0))
        }
        [Token::Open, behind @ ..] => nested(nesting, behind, forest),
        [Token::Word(word), Token::Open, behind @ ..] => {
            let Some(count) = nested(nesting, behind, forest)? else {
                return Ok(None);
            };
            function(*word, count, forest)
        }
        _ => Ok(None),
    }
}

/// Reads the expression between a parenthesis that stands before some tokens, and their last.
#[cycle(reading)]
#[tactic(auto, using(crate::proofs::Closing::factor_of_open))]
fn nested(nesting: u8, behind: &[Token], forest: &mut Forest) -> Result<Option<u32>, AllocError>
    ensures tree { IfOk result (λ e. option_map (λ n. latest forest.new) e ≡ expressions.factor_of nesting (tokens.Open ∷ behind.now)) }
    ensures grown { IfOk result (λ e. IfSome e (λ n. Grown n forest.old forest.new)) }
{
    if nesting == 0 {
        return Ok(None);
    }
    let Some(inner) = inside(behind) else {
        return Ok(None);
    };
    sum(nesting - 1, inner, forest)
}

/// The tokens before the parenthesis that closes them.
#[tactic(auto, using(crate::proofs::Closing::closed, crate::proofs::Closing::not_closed))]
fn inside(tokens: &[Token]) -> Option<&[Token]>
    ensures { option_map (λ s. s.now) result ≡ expressions.inside tokens.now }
{
    let (last, inner) = tokens.split_last()?;
    match last {
        Token::Close => Some(inner),
        _ => None,
    }
}

/// Joins the latest two trees, within the limit. So many operators stand in each.
fn binary(op: Op, a: u32, b: u32, forest: &mut Forest) -> Result<Option<u32>, AllocError>
    requires two { 2 ≤ length forest.old }
    requires left { a ≡ operators (latest (below forest.old)) }
    requires right { b ≡ operators (latest forest.old) }
    requires few_left { a ≤ 64 }
    requires few_right { b ≤ 64 }
    ensures tree { IfOk result (λ e. option_map (λ n. latest forest.new) e ≡ expressions.binary op (latest (below forest.old)) (latest forest.old)) }
    ensures grown { IfOk result (λ e. IfSome e (λ n. Grown n (below (below forest.old)) forest.new)) }
{
    let count = a + b + 1;
    if count > MOST_OPERATORS {
        return Ok(None);
    }
    forest.both(op)?;
    Ok(Some(count))
}

/// Makes the latest tree the operand of a function. So many operators stand in it.
fn function(word: Word, count: u32, forest: &mut Forest) -> Result<Option<u32>, AllocError>
    requires one { 1 ≤ length forest.old }
    requires counted { count ≡ operators (latest forest.old) }
    requires few { count ≤ 64 }
    ensures tree { IfOk result (λ e. option_map (λ n. latest forest.new) e ≡ expressions.function word (latest forest.old)) }
    ensures grown { IfOk result (λ e. IfSome e (λ n. Grown n (below forest.old) forest.new)) }
{
    match word {
        Word::Sqrtf => forest.root()?,
        Word::Absf => forest.absolute()?,
        _ => return Ok(None),
    }
    Ok(Some(count))
}
