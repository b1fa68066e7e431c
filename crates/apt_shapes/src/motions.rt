//! The shapes of motions: FROM, GOTO, GODLTA, GO and contours.

ghost use Rattle.std.specs.Prelude.{◌≡◌, [], ◌∷◌, map, IfOk, Some};
ghost use Rattle.apt_shapes.specs.Motions as motions;

use apt_expr::expression;
use apt_geometry::arguments::{arguments, is_word, name, pair, stop, triple};
use apt_lexis::Token;
use apt_words::{Body, Contouring, Expr, Go, Node, Side, Stop, Symbol, Word};
use std::alloc::{AllocError, Global};

pub(crate) fn from(alloc: Global, args: &[&[Token]]) -> Result<Option<Body>, AllocError>
    ensures { IfOk result (λ b. b ≡ motions.from (map (λ a. a.now) args.now)) }
{
    match args {
        [p] => Ok(name(p).map(Body::FromPoint)),
        [x, y] => Ok(pair(alloc, x, y)?.map(|(x, y)| Body::FromXy(x, y, None))),
        [x, y, z] => Ok(triple(alloc, x, y, z)?.map(|(x, y, z)| Body::FromXy(x, y, Some(z)))),
        _ => Ok(None),
    }
}

// GOTO is the commonest statement: what is read goes straight into its body.
fn goto_xy(alloc: Global, x: &[Token], y: &[Token]) -> Result<Option<Body>, AllocError>
    ensures { IfOk result (λ b. b ≡ motions.goto (x.now ∷ y.now ∷ [])) }
{
    let Some(x) = expression(alloc, x)? else {
        return Ok(None);
    };
    let Some(y) = expression(alloc, y)? else {
        return Ok(None);
    };
    Ok(Some(Body::GotoXy(x, y, None)))
}

fn goto_xyz(
    alloc: Global,
    x: &[Token],
    y: &[Token],
    z: &[Token],
) -> Result<Option<Body>, AllocError>
    ensures { IfOk result (λ b. b ≡ motions.goto (x.now ∷ y.now ∷ z.now ∷ [])) }
{
    let Some(x) = expression(alloc, x)? else {
        return Ok(None);
    };
    let Some(y) = expression(alloc, y)? else {
        return Ok(None);
    };
    let Some(z) = expression(alloc, z)? else {
        return Ok(None);
    };
    Ok(Some(Body::GotoXy(x, y, Some(z))))
}

pub(crate) fn goto(alloc: Global, args: &[&[Token]]) -> Result<Option<Body>, AllocError>
    ensures { IfOk result (λ b. b ≡ motions.goto (map (λ a. a.now) args.now)) }
{
    match args {
        [p] => Ok(name(p).map(Body::GotoPoint)),
        [x, y] => goto_xy(alloc, x, y),
        [x, y, z] => goto_xyz(alloc, x, y, z),
        _ => Ok(None),
    }
}

pub(crate) fn godlta(alloc: Global, args: &[&[Token]]) -> Result<Option<Body>, AllocError>
    ensures { IfOk result (λ b. b ≡ motions.godlta (map (λ a. a.now) args.now)) }
{
    let [x, y, z] = args else {
        return Ok(None);
    };
    Ok(triple(alloc, x, y, z)?.map(|(x, y, z)| Body::Godlta(x, y, z)))
}

/// A surface with its modifier, TO where it is left out.
fn surface(args: &[&[Token]]) -> Option<(Stop, Symbol)>
    ensures { result ≡ motions.surface (map (λ a. a.now) args.now) }
{
    match args {
        [s] => Some((Stop::To, name(s)?)),
        [q, s] => Some((stop(q)?, name(s)?)),
        _ => None,
    }
}

fn start_one(args: &[&[Token]]) -> Option<Body>
    ensures { result ≡ motions.start_one (map (λ a. a.now) args.now) }
{
    let (stop, drive) = surface(args)?;
    Some(Body::GoStart(stop, drive, None))
}

fn start_two(first: &[&[Token]], second: &[&[Token]]) -> Option<Body>
    ensures { result ≡ motions.start_two (map (λ a. a.now) first.now) (map (λ a. a.now) second.now) }
{
    let (stop, drive) = surface(first)?;
    Some(Body::GoStart(stop, drive, Some(surface(second)?)))
}

pub(crate) fn start(args: &[&[Token]]) -> Result<Option<Body>, AllocError>
    ensures { IfOk result (λ b. b ≡ motions.start (map (λ a. a.now) args.now)) }
{
    match args {
        [a] => Ok(start_one(&[a])),
        [a, b] => Ok(start_one(&[a, b]).or_else(|| start_two(&[a], &[b]))),
        [a, b, c] => Ok(start_two(&[a, b], &[c]).or_else(|| start_two(&[a], &[b, c]))),
        [a, b, c, d] => Ok(start_two(&[a, b], &[c, d])),
        _ => Ok(None),
    }
}

pub(crate) fn side_named(word: Word) -> Option<Side>
    ensures { result ≡ motions.side_named word }
{
    match word {
        Word::Tllft => Some(Side::Left),
        Word::Tlrgt => Some(Side::Right),
        Word::Tlon => Some(Side::On),
        _ => None,
    }
}

fn turn_of(word: Word) -> Option<Go>
    ensures { result ≡ motions.turn_of word }
{
    match word {
        Word::Golft => Some(Go::Left),
        Word::Gorgt => Some(Go::Right),
        Word::Gofwd => Some(Go::Forward),
        Word::Goback => Some(Go::Back),
        _ => None,
    }
}

/// TO, ON, PAST or TANTO.
fn check_stop(tokens: &[Token]) -> Option<Stop>
    ensures { result ≡ motions.check_stop tokens.now }
{
    match stop(tokens) {
        Some(stop) => Some(stop),
        None if is_word(Word::Tanto, tokens) => Some(Stop::Tanto),
        None => None,
    }
}

/// The count where none is said: the first meeting.
fn once() -> Expr
    ensures { result ≡ motions.once }
{
    Expr {
        node: Node::Num(1_000_000),
    }
}

/// A count of meetings in front of INTOF.
fn count(alloc: Global, e: &[Token], intof: &[Token]) -> Result<Option<Expr>, AllocError>
    ensures { IfOk result (λ r. r ≡ motions.count e.now intof.now) }
{
    if !is_word(Word::Intof, intof) {
        return Ok(None);
    }
    expression(alloc, e)
}

/// A contour to so many meetings with its check surface.
#[inline(always)]
fn contour_by(
    side: Option<Side>,
    turn: Go,
    drive: &[Token],
    stop: Option<Stop>,
    count: Expr,
    check: &[Token],
) -> Option<Body>
    ensures { result ≡ motions.between side turn drive.now stop (Some count) check.now }
{
    let (Some(drive), Some(stop), Some(check)) = (name(drive), stop, name(check)) else {
        return None;
    };
    let contour = Contouring {
        side,
        go: turn,
        drive,
        stop,
        check,
    };
    Some(Body::Contour(contour, count))
}

fn between(
    side: Option<Side>,
    turn: Go,
    drive: &[Token],
    stop: Option<Stop>,
    count: Option<Expr>,
    check: &[Token],
) -> Option<Body>
    ensures { result ≡ motions.between side turn drive.now stop count check.now }
{
    contour_by(side, turn, drive, stop, count?, check)
}

/// A contour: the drive surface, and the check surface with its modifier, TO where it is left out, and with the count
/// of its meetings, 1 where it is left out.
fn contour(
    alloc: Global,
    side: Option<Side>,
    turn: Go,
    args: &[&[Token]],
) -> Result<Option<Body>, AllocError>
    ensures { IfOk result (λ b. b ≡ motions.contour side turn (map (λ a. a.now) args.now)) }
{
    let (drive, stop, check) = match args {
        [drive, check] => (drive, Some(Stop::To), check),
        [drive, q, check] => (drive, check_stop(q), check),
        [drive, e, intof, check] => {
            let count = count(alloc, e, intof)?;
            return Ok(between(side, turn, drive, Some(Stop::To), count, check));
        }
        [drive, q, e, intof, check] => {
            let count = count(alloc, e, intof)?;
            return Ok(between(side, turn, drive, stop(q), count, check));
        }
        _ => return Ok(None),
    };
    Ok(contour_by(side, turn, drive, stop, once(), check))
}

/// A contour with no tool word before it.
pub(crate) fn onward(alloc: Global, turn: Go, args: &[&[Token]]) -> Result<Option<Body>, AllocError>
    ensures { IfOk result (λ b. b ≡ motions.contour None turn (map (λ a. a.now) args.now)) }
{
    contour(alloc, None, turn, args)
}

/// A contour behind a tool word and a comma.
pub(crate) fn contour_behind(
    alloc: Global,
    side: Option<Side>,
    tokens: &[Token],
) -> Result<Option<Body>, AllocError>
    ensures { IfOk result (λ b. b ≡ motions.contour_behind side tokens.now) }
{
    let [Token::Word(word), Token::Slash, rest @ ..] = tokens else {
        return Ok(None);
    };
    let Some(turn) = turn_of(*word) else {
        return Ok(None);
    };
    contour(alloc, side, turn, &arguments(alloc, rest)?)
}
