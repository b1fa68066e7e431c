//! The shapes of statements.

ghost use Rattle.std.specs.Prelude.{◌≡◌, map, IfOk};
ghost use Rattle.apt_geometry.specs.Arguments as arguments;
ghost use Rattle.apt_geometry.specs.Arguments.{or_else};
ghost use Rattle.apt_geometry.specs.Figures.{assign};
ghost use Rattle.apt_shapes.specs.Shapes as shapes;

use crate::flow::{call, if_in, jumpto, macro_of};
use crate::motions::{contour_behind, from, godlta, goto, onward, side_named, start};
use crate::settings::{
    coolnt, cutter, cycle, fedrat, intol, loadtl, machin, outtol, spindl, title, units_in,
};
use apt_geometry::arguments::{arguments, at_comma};
use apt_geometry::figures::{assign, circle, line, patern, point};
use apt_lexis::Token;
use apt_words::{Body, Go, Params, Symbol, Text, Word};
use std::alloc::{AllocError, Global};

/// What a statement says, with its label where it has one.
#[derive(Drop)]
pub struct Labelled {
    pub label: Option<Symbol>,
    pub body: Body,
}

fn command(word: Word) -> Option<Body>
    ensures { result ≡ shapes.command word }
{
    match word {
        Word::Clprnt => Some(Body::Clprnt),
        Word::Nopost => Some(Body::Nopost),
        Word::Rapid => Some(Body::Rapid),
        Word::Stop => Some(Body::Halt),
        Word::Opstop => Some(Body::OptHalt),
        Word::End => Some(Body::EndWord),
        Word::Fini => Some(Body::Fini),
        Word::Termac => Some(Body::Termac),
        Word::Loopst => Some(Body::Loopst),
        Word::Loopnd => Some(Body::Loopnd),
        _ => None,
    }
}

/// A statement of one word.
fn alone(word: Word) -> Option<Body>
    ensures { result ≡ shapes.alone word }
{
    match side_named(word) {
        Some(side) => Some(Body::Tool(side)),
        None => command(word),
    }
}

/// A statement of a word, a slash and arguments.
fn with_arguments(alloc: Global, word: Word, args: &[&[Token]]) -> Result<Option<Body>, AllocError>
    ensures { IfOk result (λ b. b ≡ shapes.with_arguments word (map (λ a. a.now) args.now)) }
{
    match word {
        Word::Units => units_in(args),
        Word::Machin => machin(alloc, args),
        Word::Cutter => cutter(alloc, args),
        Word::Intol => intol(alloc, args),
        Word::Outtol => outtol(alloc, args),
        Word::Fedrat => fedrat(alloc, args),
        Word::Loadtl => loadtl(alloc, args),
        Word::From => from(alloc, args),
        Word::Goto => goto(alloc, args),
        Word::Godlta => godlta(alloc, args),
        Word::Go => start(args),
        Word::Golft => onward(alloc, Go::Left, args),
        Word::Gorgt => onward(alloc, Go::Right, args),
        Word::Gofwd => onward(alloc, Go::Forward, args),
        Word::Goback => onward(alloc, Go::Back, args),
        Word::Spindl => spindl(alloc, args),
        Word::Coolnt => coolnt(args),
        Word::Cycle => cycle(alloc, args),
        Word::Call => call(alloc, args),
        Word::Jumpto => jumpto(args),
        _ => Ok(None),
    }
}

fn figure(
    alloc: Global,
    n: &Symbol,
    word: Word,
    args: &[&[Token]],
) -> Result<Option<Body>, AllocError>
    ensures { IfOk result (λ b. b ≡ shapes.figure n.now word (map (λ a. a.now) args.now)) }
{
    match word {
        Word::Point => point(alloc, n, args),
        Word::Line => line(alloc, n, args),
        Word::Circle => circle(alloc, n, args),
        Word::Patern => patern(alloc, n, args),
        Word::Macro => macro_of(alloc, n, args),
        _ => Ok(None),
    }
}

fn macro_alone(alloc: Global, n: &Symbol, word: Word) -> Option<Body>
    ensures { result ≡ shapes.macro_alone n.now word }
{
    match word {
        Word::Macro => Some(Body::Macro(
            n.copied(),
            Params {
                items: Vec::new(alloc),
            },
        )),
        _ => None,
    }
}

/// A figure or a macro behind a name and an equals sign.
fn definition(alloc: Global, n: &Symbol, tokens: &[Token]) -> Result<Option<Body>, AllocError>
    ensures { IfOk result (λ b. b ≡ shapes.defined n.now tokens.now) }
{
    match tokens {
        [Token::Word(word), Token::Slash, rest @ ..] => {
            figure(alloc, n, *word, &arguments(alloc, rest)?)
        }
        [Token::Word(word)] => Ok(macro_alone(alloc, n, *word)),
        _ => Ok(None),
    }
}

/// A name's figure, macro or expression, from behind the equals sign.
fn defined_or_assigned(
    alloc: Global,
    n: &Symbol,
    tokens: &[Token],
) -> Result<Option<Body>, AllocError>
    ensures { IfOk result (λ b. b ≡ or_else (shapes.defined n.now tokens.now) (assign n.now tokens.now)) }
{
    match definition(alloc, n, tokens)? {
        Some(body) => Ok(Some(body)),
        None => assign(alloc, n, tokens),
    }
}

fn behind_equals(alloc: Global, n: &Symbol, tokens: &[Token]) -> Result<Option<Body>, AllocError>
    ensures { IfOk result (λ b. b ≡ shapes.behind_equals n.now tokens.now) }
{
    match tokens {
        [Token::Word(_), Token::Slash, ..] | [Token::Word(_)] => {
            defined_or_assigned(alloc, n, tokens)
        }
        _ => assign(alloc, n, tokens),
    }
}

/// A tool word, a comma and a contour.
fn with_side(alloc: Global, word: Word, tokens: &[Token]) -> Result<Option<Body>, AllocError>
    ensures { IfOk result (λ b. b ≡ shapes.with_side word tokens.now) }
{
    match side_named(word) {
        Some(side) => contour_behind(alloc, Some(side), tokens),
        None => Ok(None),
    }
}

fn if_word(alloc: Global, word: Word, tokens: &[Token]) -> Result<Option<Body>, AllocError>
    ensures { IfOk result (λ b. b ≡ shapes.if_word word tokens.now) }
{
    match word {
        Word::If => if_in(alloc, &arguments(alloc, tokens)?),
        _ => Ok(None),
    }
}

/// A statement of a word, a slash and any number of arguments.
fn with_many(alloc: Global, word: Word, tokens: &[Token]) -> Result<Option<Body>, AllocError>
    ensures { IfOk result (λ b. b ≡ shapes.with_arguments word (arguments.arguments tokens.now)) }
{
    with_arguments(alloc, word, &arguments(alloc, tokens)?)
}

/// A statement of a word, a slash and these tokens. Up to three arguments need no list.
fn behind_slash(alloc: Global, word: Word, tokens: &[Token]) -> Result<Option<Body>, AllocError>
    ensures { IfOk result (λ b. b ≡ shapes.with_arguments word (arguments.arguments tokens.now)) }
{
    let Some((first, rest)) = at_comma(tokens) else {
        return with_arguments(alloc, word, &[tokens]);
    };
    let Some((second, rest)) = at_comma(rest) else {
        return with_arguments(alloc, word, &[first, rest]);
    };
    if at_comma(rest).is_some() {
        return with_many(alloc, word, tokens);
    }
    with_arguments(alloc, word, &[first, second, rest])
}

/// A statement without a text.
fn untitled(alloc: Global, tokens: &[Token]) -> Result<Option<Body>, AllocError>
    ensures { IfOk result (λ b. b ≡ shapes.untitled tokens.now) }
{
    match tokens {
        [Token::Word(word)] => Ok(alone(*word)),
        [Token::Word(word), Token::Slash, rest @ ..] => { behind_slash(alloc, *word, rest) }
        [Token::Name(n), Token::Equals, rest @ ..] => behind_equals(alloc, n, rest),
        [Token::Word(word), Token::Comma, rest @ ..] => with_side(alloc, *word, rest),
        [Token::Word(word), Token::Open, rest @ ..] => if_word(alloc, *word, rest),
        _ => Ok(None),
    }
}

/// A word with its text.
fn with_text(tokens: &[Token], text: Text) -> Option<Body>
    ensures { result ≡ shapes.with_text tokens.now text }
{
    match tokens {
        [Token::Word(word)] => title(*word, text),
        _ => None,
    }
}

fn body(alloc: Global, tokens: &[Token], text: Option<Text>) -> Result<Option<Body>, AllocError>
    ensures { IfOk result (λ b. b ≡ shapes.body tokens.now text) }
{
    match text {
        None => untitled(alloc, tokens),
        Some(text) => Ok(with_text(tokens, text)),
    }
}

/// What a statement of these tokens and this text says, None where it has none of the language's shapes.
#[tactic(auto, unfolding(crate::specs::Shapes::shape))]
pub fn shape(
    alloc: Global,
    tokens: &[Token],
    text: Option<Text>,
) -> Result<Option<Labelled>, AllocError>
    ensures { IfOk result (λ s. s ≡ shapes.shape tokens.now text) }
{
    let mut label = None;
    let mut said = tokens;
    if let [Token::Name(name), Token::Close, rest @ ..] = tokens {
        label = Some(name.copied());
        said = rest;
    }
    match body(alloc, said, text)? {
        Some(body) => Ok(Some(Labelled { label, body })),
        None => Ok(None),
    }
}
