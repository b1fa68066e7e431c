//! Tokens.

ghost use Rattle.std.specs.Prelude.{◌≡◌, [], ◌∷◌, ◌++◌, true, false, OnOk, IfOk, Ok, Err, IfSome, IsNone, map};
ghost use Rattle.std.specs.List.{take_while};
ghost use Rattle.apt_words.specs.Options.{only_if};
ghost use Rattle.apt_words.specs.Symbols.{is_symbol};
ghost use Rattle.apt_lexis.specs.Phrase.{good};
ghost use Rattle.apt_lexis.specs.Sentences as sentences;
ghost use Rattle.apt_lexis.specs.Titles.{behind};
ghost use Rattle.apt_lexis.specs.Tokens as spec;
ghost use Rattle.apt_lexis.specs.declared.token.First.TheVariants as firsts;

use crate::PartCause;
use crate::character::{begins_with_letter, blanks, capital_at, in_capitals};
use crate::number::number_first;
use apt_words::{Symbol, Word, word_of};
use std::alloc::AllocError;

/// Room is made for so many tokens at once.
const MORE_TOKENS: usize = 16;

/// A word or a name has at most so many letters and digits.
const MOST_LETTERS: usize = 6;

/// A token: a word of the vocabulary, a name, a number in millionths, or a mark.
#[derive(Debug, Drop)]
pub enum Token {
    Word(Word),
    Name(Symbol),
    Number(i64),
    Equals,
    Slash,
    Comma,
    Open,
    Close,
    Plus,
    Minus,
    Star,
}

/// The symbol of the letters and digits at the front of a text that begins with a letter, which count as capitals, and
/// what stands behind them; none where they are more than six.
#[inline(always)]
#[tactic(auto, using(crate::proofs::Capitals::long_front, crate::proofs::Capitals::is_symbol_front))]
fn symbol_first(text: &[u8]) -> Option<(Symbol, &[u8])>
    requires { spec.begins_with_letter text.now ≡ true }
    ensures none { IsNone result → is_symbol (map spec.capital (take_while spec.is_letter_or_digit text.now)) ≡ false }
    ensures symbol { IfSome result (λ r. is_symbol (map spec.capital (take_while spec.is_letter_or_digit text.now)) ≡ true) }
    ensures capitals { IfSome result (λ r. r.0 ≡ map spec.capital (take_while spec.is_letter_or_digit text.now)) }
    ensures rest { IfSome result (λ r. r.1.now ≡ behind spec.is_letter_or_digit text.now) }
{
    let mut capitals = [0; MOST_LETTERS];
    let mut len = 0;
    'capitals: while let Some(b) = capital_at(text, len) {
        if len == MOST_LETTERS {
            return None;
        }
        capitals[len] = b;
        len += 1;
    }
    Some((Symbol::at_front(capitals, len as u8), &text[len..]))
}

/// The symbol of some letters and digits, which count as capitals; none where they are more than six or begin with a digit.
#[tactic(auto, using(crate::proofs::Capitals::other_first, crate::proofs::Capitals::no_symbol, crate::proofs::Capitals::other_behind, crate::proofs::Capitals::whole_word))]
pub(crate) fn symbol(text: &[u8]) -> Option<Symbol>
    ensures { result ≡ only_if (is_symbol (map spec.capital text.now)) (map spec.capital text.now) }
{
    if !begins_with_letter(text) {
        return None;
    }
    let (symbol, rest) = symbol_first(text)?;
    if rest.is_empty() { Some(symbol) } else { None }
}

/// What the first byte of a text tells of its front.
#[derive(Clone, Copy)]
enum First {
    Letter,
    Number,
    Blank,
    Mark,
}

/// Whether a symbol or a number begins with a byte, or whether it is a blank, or else a mark if anything.
#[inline(always)]
#[tactic(auto, using(crate::proofs::Entries::letter_of, crate::proofs::Entries::digit_of, crate::proofs::Entries::other_of))]
fn first_of(b: u8) -> First
    ensures letter { result ≡ firsts.Letter → spec.is_letter b ≡ true }
    ensures number { result ≡ firsts.Number → (spec.is_letter b ≡ false) × (spec.is_in_run b ≡ true) }
    ensures blank { result ≡ firsts.Blank → spec.is_blank b ≡ true }
    ensures mark { result ≡ firsts.Mark → (spec.is_in_run b ≡ false) × (spec.is_blank b ≡ false) }
{
    match in_capitals(b) {
        Some(c) if c <= b'9' => First::Number,
        Some(_) => First::Letter,
        None => match b {
            b'.' => First::Number,
            b' ' | b'\t' => First::Blank,
            _ => First::Mark,
        },
    }
}

fn mark(b: u8) -> Option<Token>
    ensures some { IfSome result (λ t. spec.mark b ≡ Ok t) }
    ensures none { IsNone result → spec.mark b ≡ Err PartCause.BadWord }
{
    match b {
        b'=' => Some(Token::Equals),
        b'/' => Some(Token::Slash),
        b',' => Some(Token::Comma),
        b'(' => Some(Token::Open),
        b')' => Some(Token::Close),
        b'+' => Some(Token::Plus),
        b'-' => Some(Token::Minus),
        b'*' => Some(Token::Star),
        _ => None,
    }
}

/// A text behind the blanks at its front.
#[tactic(auto, using(crate::proofs::Fronts::front_short))]
pub(crate) fn behind_blanks(text: &[u8]) -> &[u8]
    ensures { result.now ≡ behind spec.is_blank text.now }
{
    &text[blanks(text)..]
}

/// Adds a token, for which there is room as a rule.
fn push_token(tokens: &mut Vec<Token>, token: Token) -> Result<(), AllocError>
    ensures { OnOk result (tokens.new.items ≡ tokens.old.items ++ token ∷ []) }
{
    if tokens.len() == tokens.capacity() {
        tokens.reserve(MORE_TOKENS)?;
    }
    tokens.push_reserved(token);
    Ok(())
}

/// Adds a word of the vocabulary, or else a name.
#[inline(always)]
fn push_symbol(tokens: &mut Vec<Token>, symbol: Symbol) -> Result<(), AllocError>
    ensures { OnOk result (tokens.new.items ≡ tokens.old.items ++ spec.of_symbol symbol ∷ []) }
{
    match word_of(&symbol) {
        Some(word) => push_token(tokens, Token::Word(word)),
        None => push_token(tokens, Token::Name(symbol)),
    }
}

/// Adds the tokens of a text up to the first bad one, whose cause is given.
pub(crate) fn add_tokens(
    tokens: &mut Vec<Token>,
    text: &[u8],
) -> Result<Option<PartCause>, AllocError>
    ensures { IfOk result (λ fault. good fault tokens.new.items ≡ sentences.joined (Ok tokens.old.items) (spec.tokens_of text.now)) }
{
    let mut rest = text;
    'tokens: while let Some((b, after)) = rest.split_first() {
        match first_of(*b) {
            First::Letter => match symbol_first(rest) {
                Some((symbol, behind)) => {
                    push_symbol(tokens, symbol)?;
                    rest = behind;
                }
                None => return Ok(Some(PartCause::BadWord)),
            },
            First::Number => match number_first(rest) {
                Some((size, behind)) => {
                    push_token(tokens, Token::Number(size))?;
                    rest = behind;
                }
                None => return Ok(Some(PartCause::BadNumber)),
            },
            First::Blank => rest = after,
            First::Mark => match mark(*b) {
                Some(mark) => {
                    push_token(tokens, mark)?;
                    rest = after;
                }
                None => return Ok(Some(PartCause::BadWord)),
            },
        }
    }
    Ok(None)
}
