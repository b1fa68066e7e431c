//! The shapes of settings: texts, units, the cutter, tolerances, feed, spindle, coolant, tools and cycles.

ghost use Rattle.std.specs.Prelude.{◌≡◌, map, IfOk};
ghost use Rattle.apt_shapes.specs.Settings as settings;
ghost use Rattle.apt_shapes.specs.Shapes.{with_arguments};

use apt_expr::expression;
use apt_geometry::arguments::{is_word, pair, vocabulary};
use apt_lexis::Token;
use apt_words::{Body, Cool, Expr, Exprs, Text, Turn, Units, Word};
use std::alloc::{AllocError, Global};

/// PARTNO or REMARK with its text.
pub(crate) fn title(word: Word, text: Text) -> Option<Body>
    ensures { result ≡ settings.titled word text }
{
    match word {
        Word::Partno => Some(Body::Partno(text)),
        Word::Remark => Some(Body::Remark(text)),
        _ => None,
    }
}

/// The one argument of a statement.
fn one(alloc: Global, args: &[&[Token]]) -> Result<Option<Expr>, AllocError>
    ensures { IfOk result (λ e. e ≡ settings.one (map (λ a. a.now) args.now)) }
{
    match args {
        [e] => expression(alloc, e),
        _ => Ok(None),
    }
}

pub(crate) fn cutter(alloc: Global, args: &[&[Token]]) -> Result<Option<Body>, AllocError>
    ensures { IfOk result (λ b. b ≡ with_arguments Word.Cutter (map (λ a. a.now) args.now)) }
{
    Ok(one(alloc, args)?.map(Body::Cutter))
}

pub(crate) fn intol(alloc: Global, args: &[&[Token]]) -> Result<Option<Body>, AllocError>
    ensures { IfOk result (λ b. b ≡ with_arguments Word.Intol (map (λ a. a.now) args.now)) }
{
    Ok(one(alloc, args)?.map(Body::Intol))
}

pub(crate) fn outtol(alloc: Global, args: &[&[Token]]) -> Result<Option<Body>, AllocError>
    ensures { IfOk result (λ b. b ≡ with_arguments Word.Outtol (map (λ a. a.now) args.now)) }
{
    Ok(one(alloc, args)?.map(Body::Outtol))
}

pub(crate) fn fedrat(alloc: Global, args: &[&[Token]]) -> Result<Option<Body>, AllocError>
    ensures { IfOk result (λ b. b ≡ with_arguments Word.Fedrat (map (λ a. a.now) args.now)) }
{
    Ok(one(alloc, args)?.map(Body::Fedrat))
}

pub(crate) fn loadtl(alloc: Global, args: &[&[Token]]) -> Result<Option<Body>, AllocError>
    ensures { IfOk result (λ b. b ≡ with_arguments Word.Loadtl (map (λ a. a.now) args.now)) }
{
    Ok(one(alloc, args)?.map(Body::Loadtl))
}

fn expressions(alloc: Global, args: &[&[Token]]) -> Result<Option<Exprs>, AllocError>
    ensures { IfOk result (λ r. r ≡ settings.expressions (map (λ a. a.now) args.now)) }
{
    let mut items = Vec::new(alloc);
    'arguments: for tokens in args {
        let Some(e) = expression(alloc, tokens)? else {
            return Ok(None);
        };
        items.push(e)?;
    }
    Ok(Some(Exprs { items }))
}

pub(crate) fn machin(alloc: Global, args: &[&[Token]]) -> Result<Option<Body>, AllocError>
    ensures { IfOk result (λ b. b ≡ settings.machin (map (λ a. a.now) args.now)) }
{
    Ok(expressions(alloc, args)?.map(Body::Machin))
}

fn units_of(word: Word) -> Option<Units>
    ensures { result ≡ settings.units_of word }
{
    match word {
        Word::Inches => Some(Units::Inch),
        Word::Mm => Some(Units::Mm),
        _ => None,
    }
}

pub(crate) fn units_in(args: &[&[Token]]) -> Result<Option<Body>, AllocError>
    ensures { IfOk result (λ b. b ≡ settings.units_in (map (λ a. a.now) args.now)) }
{
    match args {
        [a] => Ok(vocabulary(a).and_then(units_of).map(Body::Units)),
        _ => Ok(None),
    }
}

fn spindle_turn(word: Word) -> Option<Turn>
    ensures { result ≡ settings.spindle_turn word }
{
    match word {
        Word::Clw => Some(Turn::Cw),
        Word::Cclw => Some(Turn::Ccw),
        _ => None,
    }
}

fn spindl_on(alloc: Global, e: &[Token], turn: Turn) -> Result<Option<Body>, AllocError>
    ensures { IfOk result (λ b. b ≡ settings.spindl_on e.now turn) }
{
    Ok(expression(alloc, e)?.map(|e| Body::Spindl(e, turn)))
}

pub(crate) fn spindl(alloc: Global, args: &[&[Token]]) -> Result<Option<Body>, AllocError>
    ensures { IfOk result (λ b. b ≡ settings.spindl (map (λ a. a.now) args.now)) }
{
    match args {
        [a] if is_word(Word::Off, a) => Ok(Some(Body::SpindlOff)),
        [a] => spindl_on(alloc, a, Turn::Cw),
        [a, b] => match vocabulary(b).and_then(spindle_turn) {
            Some(turn) => spindl_on(alloc, a, turn),
            None => Ok(None),
        },
        _ => Ok(None),
    }
}

fn cool_of(word: Word) -> Option<Cool>
    ensures { result ≡ settings.cool_of word }
{
    match word {
        Word::Mist => Some(Cool::Mist),
        Word::Flood => Some(Cool::Flood),
        Word::Off => Some(Cool::Off),
        _ => None,
    }
}

pub(crate) fn coolnt(args: &[&[Token]]) -> Result<Option<Body>, AllocError>
    ensures { IfOk result (λ b. b ≡ settings.coolnt (map (λ a. a.now) args.now)) }
{
    match args {
        [a] => Ok(vocabulary(a).and_then(cool_of).map(Body::Coolnt)),
        _ => Ok(None),
    }
}

pub(crate) fn cycle(alloc: Global, args: &[&[Token]]) -> Result<Option<Body>, AllocError>
    ensures { IfOk result (λ b. b ≡ settings.cycle (map (λ a. a.now) args.now)) }
{
    match args {
        [off] if is_word(Word::Off, off) => Ok(Some(Body::CycleOff)),
        [drill, d, c] if is_word(Word::Drill, drill) => {
            Ok(pair(alloc, d, c)?.map(|(d, c)| Body::CycleDrill(d, c)))
        }
        _ => Ok(None),
    }
}
