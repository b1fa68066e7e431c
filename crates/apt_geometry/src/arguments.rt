//! The arguments of a statement.

ghost use Rattle.std.specs.Prelude.{◌≡◌, ◌<◌, [], ◌∷◌, length, map, IfOk, IfSome, MatchOption};
ghost use Rattle.std.proofs.Common.{bytes_eq};
ghost use Rattle.apt_words.specs.Vocabulary.{spelling};
ghost use Rattle.apt_geometry.specs.Arguments as arguments;

use apt_expr::expression;
use apt_lexis::Token;
use apt_words::{Expr, Pick, Stop, Symbol, Word};
use std::alloc::{AllocError, Global};

fn is_comma(token: &Token) -> bool
    ensures { result ≡ arguments.is_comma token.now }
{
    matches!(token, Token::Comma)
}

/// The tokens before the first comma and those behind it, None where there is no comma.
pub fn at_comma(tokens: &[Token]) -> Option<(&[Token], &[Token])>
    ensures parts { MatchOption result (arguments.arguments tokens.now ≡ tokens.now ∷ []) (λ r. arguments.arguments tokens.now ≡ r.0.now ∷ arguments.arguments r.1.now) }
    ensures shorter { IfSome result (λ r. length r.1.now < length tokens.now) }
{
    'tokens: for (n, token) in tokens.iter().enumerate() {
        if is_comma(token) {
            return Some((&tokens[..n], &tokens[n + 1..]));
        }
    }
    None
}

/// The parts of some tokens between their commas.
pub fn arguments<'a>(alloc: Global, tokens: &'a [Token]) -> Result<Vec<&'a [Token]>, AllocError>
    ensures { IfOk result (λ v. map (λ a. a.now) v.items ≡ arguments.arguments tokens.now) }
{
    let mut args = Vec::new(alloc);
    let mut rest = tokens;
    'arguments: while let Some((part, behind)) = at_comma(rest) {
        args.push(part)?;
        rest = behind;
    }
    args.push(rest)?;
    Ok(args)
}

/// The name that an argument is.
pub fn name(tokens: &[Token]) -> Option<Symbol>
    ensures { result ≡ arguments.name tokens.now }
{
    match tokens {
        [Token::Name(name)] => Some(name.copied()),
        _ => None,
    }
}

/// The word of the language that an argument is.
pub fn vocabulary(tokens: &[Token]) -> Option<Word>
    ensures { result ≡ arguments.word tokens.now }
{
    match tokens {
        [Token::Word(word)] => Some(*word),
        _ => None,
    }
}

/// Whether an argument is this word of the language.
pub fn is_word(word: Word, tokens: &[Token]) -> bool
    ensures { result ≡ arguments.is_word word tokens.now }
{
    match tokens {
        [Token::Word(said)] => is_same(word, *said),
        _ => false,
    }
}

fn is_same(word: Word, said: Word) -> bool
    ensures { result ≡ bytes_eq (spelling word) (spelling said) }
{
    word == said
}

pub(crate) fn pick(tokens: &[Token]) -> Option<Pick>
    ensures { result ≡ arguments.pick tokens.now }
{
    match vocabulary(tokens)? {
        Word::Xlarge => Some(Pick::XLarge),
        Word::Xsmall => Some(Pick::XSmall),
        Word::Ylarge => Some(Pick::YLarge),
        Word::Ysmall => Some(Pick::YSmall),
        _ => None,
    }
}

/// LEFT is true, RIGHT false.
pub(crate) fn is_left(tokens: &[Token]) -> Option<bool>
    ensures { result ≡ arguments.is_left tokens.now }
{
    match vocabulary(tokens)? {
        Word::Left => Some(true),
        Word::Right => Some(false),
        _ => None,
    }
}

/// TO, ON or PAST.
pub fn stop(tokens: &[Token]) -> Option<Stop>
    ensures { result ≡ arguments.stop tokens.now }
{
    match vocabulary(tokens)? {
        Word::To => Some(Stop::To),
        Word::On => Some(Stop::On),
        Word::Past => Some(Stop::Past),
        _ => None,
    }
}

/// Two numbers; None where one of them is no expression.
pub fn pair(alloc: Global, x: &[Token], y: &[Token]) -> Result<Option<(Expr, Expr)>, AllocError>
    ensures { IfOk result (λ r. r ≡ arguments.pair x.now y.now) }
{
    let (Some(x), Some(y)) = (expression(alloc, x)?, expression(alloc, y)?) else {
        return Ok(None);
    };
    Ok(Some((x, y)))
}

/// Three numbers; None where one of them is no expression.
pub fn triple(
    alloc: Global,
    x: &[Token],
    y: &[Token],
    z: &[Token],
) -> Result<Option<(Expr, Expr, Expr)>, AllocError>
    ensures { IfOk result (λ r. r ≡ arguments.triple x.now y.now z.now) }
{
    let Some((x, y)) = pair(alloc, x, y)? else {
        return Ok(None);
    };
    Ok(expression(alloc, z)?.map(|z| (x, y, z)))
}
