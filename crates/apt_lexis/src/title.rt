//! Titles: PARTNO and REMARK with the text behind them.

ghost use Rattle.std.specs.Prelude.{◌≡◌, [], ◌∷◌, ◌++◌, map, OnOk, IfOk, option_map, option_and_then};
ghost use Rattle.std.specs.List.{take_while};
ghost use Rattle.std.specs.Option.{option_to_list};
ghost use Rattle.std.proofs.Common.{bytes_eq};
ghost use Rattle.apt_words.specs.Options.{only_if};
ghost use Rattle.apt_words.specs.Symbols as symbols;
ghost use Rattle.apt_words.specs.Vocabulary.{spelling};
ghost use Rattle.apt_lexis.specs.Titles as spec;
ghost use Rattle.apt_lexis.specs.Tokens as characters;
ghost use Rattle.apt_lexis.specs.declared.token.Token.TheVariants as tokens;

use crate::Token;
use crate::character::letters_or_digits;
use crate::token::{behind_blanks, symbol};
use apt_words::{Symbol, Text, Word, is_vocabulary};
use std::alloc::{AllocError, Global};
use std::marker::Model;

/// PARTNO and REMARK have so many letters.
const TITLE_LETTERS: usize = 6;

/// A title's line: a label and its parenthesis where they stand on it, the word and the text. Clauses see its
/// tokens and the text.
#[derive(Drop)]
pub(crate) struct Heading<'a> {
    label: Option<Token>,
    close: Option<Token>,
    word: Token,
    text: &'a [u8],
}

impl<'a> Model for Heading<'a> {
    ghost use Rattle.std.specs.Prelude.{[], ◌∷◌, ◌++◌};
    ghost use Rattle.std.specs.Option.{option_to_list};
    ghost use Rattle.apt_lexis.specs.Titles.{Title};

    ghost Value = { Title };

    ghost view = { λ h. (option_to_list h.label ++ option_to_list h.close ++ h.word ∷ [], h.text.now) };
}

fn spells(symbol: &Symbol, word: Word) -> bool
    ensures { result ≡ bytes_eq symbol.now (spelling word) }
{
    symbol.as_bytes() == word.spelling()
}

/// The letters and digits at the front of a line, and what stands behind them.
#[tactic(auto, using(crate::proofs::Fronts::front_short))]
fn front_word(line: &[u8]) -> (&[u8], &[u8])
    ensures word { result.0.now ≡ take_while characters.is_letter_or_digit line.now }
    ensures rest { result.1.now ≡ spec.behind characters.is_letter_or_digit line.now }
{
    line.split_at(letters_or_digits(line))
}

fn without_blank(text: &[u8]) -> &[u8]
    ensures { result.now ≡ spec.without_blank text.now }
{
    match text {
        [b' ', rest @ ..] => rest,
        _ => text,
    }
}

#[tactic(auto, using(crate::proofs::TitleLaws::blank_stripped, crate::proofs::TitleLaws::last_stays))]
fn without_blanks(text: &[u8]) -> &[u8]
    ensures { result.now ≡ spec.without_blanks text.now }
{
    let mut rest = text;
    'blanks: while let Some(front) = rest.strip_suffix(b" ") {
        rest = front;
    }
    rest
}

/// A symbol as PARTNO or REMARK.
#[tactic(auto, using(crate::proofs::TitleLaws::is_partno, crate::proofs::TitleLaws::is_remark, crate::proofs::TitleLaws::no_title_spelled))]
fn as_title_word(symbol: &Symbol) -> Option<Word>
    ensures { result ≡ spec.title_word symbol.now }
{
    if spells(symbol, Word::Partno) {
        Some(Word::Partno)
    } else if spells(symbol, Word::Remark) {
        Some(Word::Remark)
    } else {
        None
    }
}

/// Letters and digits as PARTNO or REMARK.
#[tactic(auto, using(crate::proofs::TitleLaws::no_title_of, crate::proofs::TitleLaws::no_symbol, crate::proofs::TitleLaws::symbol_is))]
fn title_word(text: &[u8]) -> Option<Word>
    ensures { result ≡ spec.title_word (map characters.capital text.now) }
{
    if text.len() != TITLE_LETTERS {
        return None;
    }
    as_title_word(&symbol(text)?)
}

/// PARTNO or REMARK, and the text behind it.
fn title_of<'a>(word: &[u8], rest: &'a [u8]) -> Option<(Word, &'a [u8])>
    ensures { option_map (λ r. (tokens.Word r.0 ∷ [], r.1.now)) result ≡ spec.word_with_text (map characters.capital word.now) rest.now }
{
    let word = title_word(word)?;
    Some((word, without_blanks(without_blank(rest))))
}

/// PARTNO or REMARK at the front of a line, and the text behind it.
fn title(line: &[u8]) -> Option<(Word, &[u8])>
    ensures { option_map (λ r. (tokens.Word r.0 ∷ [], r.1.now)) result ≡ spec.title line.now }
{
    let (word, rest) = front_word(behind_blanks(line));
    title_of(word, rest)
}

fn behind_close(line: &[u8]) -> Option<&[u8]>
    ensures { option_map (λ r. r.now) result ≡ spec.behind_close line.now }
{
    match behind_blanks(line) {
        [b')', rest @ ..] => Some(rest),
        _ => None,
    }
}

fn plain_title(line: &[u8]) -> Option<Heading<'_>>
    ensures { result ≡ spec.title line.now }
{
    let (word, text) = title(line)?;
    Some(Heading {
        label: None,
        close: None,
        word: Token::Word(word),
        text,
    })
}

/// A title behind the parenthesis that closes a label.
fn closed_title(line: &[u8]) -> Option<Heading<'_>>
    ensures { result ≡ option_map (spec.with_tokens (tokens.Close ∷ [])) (option_and_then spec.title (spec.behind_close line.now)) }
{
    let (word, text) = title(behind_close(line)?)?;
    Some(Heading {
        label: None,
        close: Some(Token::Close),
        word: Token::Word(word),
        text,
    })
}

/// The name of some letters and digits.
#[tactic(auto, using(crate::proofs::TitleLaws::symbol_is, crate::proofs::TitleLaws::is_symbol_of, crate::proofs::TitleLaws::no_name))]
fn label(text: &[u8]) -> Option<Symbol>
    ensures { result ≡ only_if (symbols.is_name (map characters.capital text.now)) (map characters.capital text.now) }
{
    let name = symbol(text)?;
    if is_vocabulary(&name) {
        None
    } else {
        Some(name)
    }
}

/// A title behind a label and its parenthesis; the label itself is looked at last.
#[tactic(auto, using(crate::proofs::TitleLaws::not_closed, crate::proofs::TitleLaws::untitled, crate::proofs::TitleLaws::no_label))]
fn labelled_title<'a>(name: &[u8], rest: &'a [u8]) -> Option<Heading<'a>>
    ensures { result ≡ spec.with_label (map characters.capital name.now) rest.now }
{
    let (word, text) = title(behind_close(rest)?)?;
    let name = label(name)?;
    Some(Heading {
        label: Some(Token::Name(name)),
        close: Some(Token::Close),
        word: Token::Word(word),
        text,
    })
}

/// The title at the front of a line that begins a statement: a title word, or a label before one.
fn any_title(line: &[u8]) -> Option<Heading<'_>>
    ensures { result ≡ spec.title_or_labelled line.now }
{
    let (front, rest) = front_word(behind_blanks(line));
    match title_of(front, rest) {
        Some((word, text)) => Some(Heading {
            label: None,
            close: None,
            word: Token::Word(word),
            text,
        }),
        None => labelled_title(front, rest),
    }
}

/// The title on a line behind some tokens of its statement.
#[tactic(auto, using(crate::proofs::TitleLaws::behind_nothing, crate::proofs::TitleLaws::behind_name, crate::proofs::TitleLaws::behind_closed))]
pub(crate) fn heading_behind<'a>(tokens: &[Token], line: &'a [u8]) -> Option<Heading<'a>>
    ensures { option_map (spec.with_tokens tokens.now) result ≡ spec.title_behind tokens.now line.now }
{
    match tokens {
        [] => any_title(line),
        [Token::Name(_)] => closed_title(line),
        [Token::Name(_), Token::Close] => plain_title(line),
        _ => None,
    }
}

fn add_token(tokens: &mut Vec<Token>, token: Option<Token>) -> Result<(), AllocError>
    ensures { OnOk result (tokens.new.items ≡ tokens.old.items ++ option_to_list token) }
{
    if let Some(token) = token {
        tokens.push(token)?;
    }
    Ok(())
}

/// Adds the tokens of a title's line, and gives its text.
pub(crate) fn add_heading(
    alloc: Global,
    tokens: &mut Vec<Token>,
    heading: Heading<'_>,
) -> Result<Text, AllocError>
    ensures tokens { OnOk result (tokens.new.items ≡ tokens.old.items ++ heading.entry.0) }
    ensures text { IfOk result (λ t. t ≡ heading.entry.1) }
{
    let Heading {
        label,
        close,
        word,
        text,
    } = heading;
    add_token(tokens, label)?;
    add_token(tokens, close)?;
    tokens.push(word)?;
    let mut bytes = Vec::new(alloc);
    bytes.extend_from_slice(text)?;
    Ok(Text { bytes })
}
