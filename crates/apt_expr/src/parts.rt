//! Lists of tokens by their parts between operators.

ghost use Rattle.std.specs.Prelude.{◌≡◌, ◌<◌, []};
ghost use Rattle.apt_expr.specs.Operands as operands;

use apt_lexis::Token;
use apt_words::Op;

/// Operators of one rank are done from left to right, the multiplicative ones before the additive ones.
#[derive(Clone, Copy)]
pub(crate) enum Rank {
    Additive,
    Multiplicative,
}

impl Rank {
    pub(crate) fn operator(self, token: &Token) -> Option<Op>
        ensures { result ≡ operands.operator self token.now }
    {
        match (self, token) {
            (Rank::Additive, Token::Plus) => Some(Op::Add),
            (Rank::Additive, Token::Minus) => Some(Op::Sub),
            (Rank::Multiplicative, Token::Star) => Some(Op::Mul),
            (Rank::Multiplicative, Token::Slash) => Some(Op::Div),
            _ => None,
        }
    }
}

/// The tokens before the first operator of either rank outside of parentheses, and those from it on.
pub(crate) fn first_factor(tokens: &[Token]) -> (&[Token], &[Token])
    ensures first { result.0.now ≡ (operands.parts Rank.Multiplicative (operands.parts Rank.Additive tokens.now).first).first }
    ensures factors { (operands.parts Rank.Multiplicative (operands.parts Rank.Additive result.1.now).first).others ≡ (operands.parts Rank.Multiplicative (operands.parts Rank.Additive tokens.now).first).others }
    ensures terms { (operands.parts Rank.Additive result.1.now).others ≡ (operands.parts Rank.Additive tokens.now).others }
    ensures behind { (operands.parts Rank.Multiplicative (operands.parts Rank.Additive result.1.now).first).first ≡ [] }
{
    let mut depth: usize = 0;
    'tokens: for (n, token) in tokens.iter().enumerate() {
        match token {
            Token::Open => depth += 1,
            Token::Close => depth = depth.saturating_sub(1),
            Token::Plus | Token::Minus | Token::Star | Token::Slash if depth == 0 => {
                return tokens.split_at(n);
            }
            _ => {}
        }
    }
    (tokens, &[])
}
