//! The shapes that define a name: an expression, POINT, LINE, CIRCLE and PATERN.

ghost use Rattle.std.specs.Prelude.{◌≡◌, map, IfOk};
ghost use Rattle.apt_geometry.specs.Arguments.{or_else};
ghost use Rattle.apt_geometry.specs.Figures as figures;

use crate::arguments::{is_left, is_word, name, pair, pick, triple};
use apt_expr::expression;
use apt_lexis::Token;
use apt_words::{Body, Symbol, Word, Xy};
use std::alloc::{AllocError, Global};

/// An expression that gives a name its value.
pub fn assign(alloc: Global, n: &Symbol, tokens: &[Token]) -> Result<Option<Body>, AllocError>
    ensures { IfOk result (λ b. b ≡ figures.assign n.now tokens.now) }
{
    match expression(alloc, tokens)? {
        Some(e) => Ok(Some(Body::Assign(n.copied(), e))),
        None => Ok(None),
    }
}

fn point_xy(alloc: Global, n: &Symbol, x: &[Token], y: &[Token]) -> Result<Option<Body>, AllocError>
    ensures { IfOk result (λ b. b ≡ figures.point_xy n.now x.now y.now) }
{
    Ok(pair(alloc, x, y)?.map(|(x, y)| Body::PointXy(n.copied(), x, y, None)))
}

fn point_xyz(
    alloc: Global,
    n: &Symbol,
    x: &[Token],
    y: &[Token],
    z: &[Token],
) -> Result<Option<Body>, AllocError>
    ensures { IfOk result (λ b. b ≡ figures.point_xyz n.now x.now y.now z.now) }
{
    Ok(triple(alloc, x, y, z)?.map(|(x, y, z)| Body::PointXy(n.copied(), x, y, Some(z))))
}

fn point_center(n: &Symbol, center: &[Token], c: &[Token]) -> Option<Body>
    ensures { result ≡ figures.point_center n.now center.now c.now }
{
    if !is_word(Word::Center, center) {
        return None;
    }
    Some(Body::PointCenter(n.copied(), name(c)?))
}

fn point_lines(n: &Symbol, intof: &[Token], a: &[Token], b: &[Token]) -> Option<Body>
    ensures { result ≡ figures.point_lines n.now intof.now a.now b.now }
{
    if !is_word(Word::Intof, intof) {
        return None;
    }
    Some(Body::PointLines(n.copied(), name(a)?, name(b)?))
}

fn point_pick(n: &Symbol, k: &[Token], intof: &[Token], a: &[Token], b: &[Token]) -> Option<Body>
    ensures { result ≡ figures.point_pick n.now k.now intof.now a.now b.now }
{
    if !is_word(Word::Intof, intof) {
        return None;
    }
    Some(Body::PointPick(n.copied(), pick(k)?, name(a)?, name(b)?))
}

/// A point, from behind its word and slash.
pub fn point(alloc: Global, n: &Symbol, args: &[&[Token]]) -> Result<Option<Body>, AllocError>
    ensures { IfOk result (λ b. b ≡ figures.point n.now (map (λ a. a.now) args.now)) }
{
    match args {
        [a, b] => match point_center(n, a, b) {
            Some(body) => Ok(Some(body)),
            None => point_xy(alloc, n, a, b),
        },
        [a, b, c] => match point_lines(n, a, b, c) {
            Some(body) => Ok(Some(body)),
            None => point_xyz(alloc, n, a, b, c),
        },
        [a, b, c, d] => Ok(point_pick(n, a, b, c, d)),
        _ => Ok(None),
    }
}

fn line_points(n: &Symbol, p: &[Token], q: &[Token]) -> Option<Body>
    ensures { result ≡ figures.line_points n.now p.now q.now }
{
    Some(Body::LinePoints(n.copied(), name(p)?, name(q)?))
}

fn line_par(n: &Symbol, p: &[Token], parlel: &[Token], l: &[Token]) -> Option<Body>
    ensures { result ≡ figures.line_par n.now p.now parlel.now l.now }
{
    if !is_word(Word::Parlel, parlel) {
        return None;
    }
    Some(Body::LinePar(n.copied(), name(p)?, name(l)?))
}

fn line_perp(n: &Symbol, p: &[Token], perpto: &[Token], l: &[Token]) -> Option<Body>
    ensures { result ≡ figures.line_perp n.now p.now perpto.now l.now }
{
    if !is_word(Word::Perpto, perpto) {
        return None;
    }
    Some(Body::LinePerp(n.copied(), name(p)?, name(l)?))
}

fn line_xy(
    alloc: Global,
    n: &Symbol,
    x: &[Token],
    y: &[Token],
    u: &[Token],
    v: &[Token],
) -> Result<Option<Body>, AllocError>
    ensures { IfOk result (λ b. b ≡ figures.line_xy n.now x.now y.now u.now v.now) }
{
    let Some((x, y)) = pair(alloc, x, y)? else {
        return Ok(None);
    };
    let Some((u, v)) = pair(alloc, u, v)? else {
        return Ok(None);
    };
    let to = Xy::new(alloc, u, v)?;
    Ok(Some(Body::LineXy(n.copied(), x, y, to)))
}

fn line_at(
    alloc: Global,
    n: &Symbol,
    parlel: &[Token],
    l: &[Token],
    k: &[Token],
    e: &[Token],
) -> Result<Option<Body>, AllocError>
    ensures { IfOk result (λ b. b ≡ figures.line_at n.now parlel.now l.now k.now e.now) }
{
    if !is_word(Word::Parlel, parlel) {
        return Ok(None);
    }
    let (Some(l), Some(k)) = (name(l), pick(k)) else {
        return Ok(None);
    };
    Ok(expression(alloc, e)?.map(|e| Body::LineAt(n.copied(), l, k, e)))
}

fn line_tan(n: &Symbol, p: &[Token], h: &[Token], tanto: &[Token], c: &[Token]) -> Option<Body>
    ensures { result ≡ figures.line_tan n.now p.now h.now tanto.now c.now }
{
    if !is_word(Word::Tanto, tanto) {
        return None;
    }
    Some(Body::LineTan(n.copied(), name(p)?, is_left(h)?, name(c)?))
}

fn line_two(
    n: &Symbol,
    h: &[Token],
    tanto: &[Token],
    c: &[Token],
    k: &[Token],
    tanto_too: &[Token],
    d: &[Token],
) -> Option<Body>
    ensures { result ≡ figures.line_two n.now h.now tanto.now c.now k.now tanto_too.now d.now }
{
    if !is_word(Word::Tanto, tanto) || !is_word(Word::Tanto, tanto_too) {
        return None;
    }
    Some(Body::LineTwo(n.copied(), is_left(h)?, name(c)?, is_left(k)?, name(d)?))
}

fn line_of_four(
    alloc: Global,
    n: &Symbol,
    a: &[Token],
    b: &[Token],
    c: &[Token],
    d: &[Token],
) -> Result<Option<Body>, AllocError>
    ensures { IfOk result (λ l. l ≡ figures.line_of_four n.now a.now b.now c.now d.now) }
{
    if let Some(body) = line_at(alloc, n, a, b, c, d)? {
        return Ok(Some(body));
    }
    if let Some(body) = line_tan(n, a, b, c, d) {
        return Ok(Some(body));
    }
    line_xy(alloc, n, a, b, c, d)
}

fn line_of_three(n: &Symbol, a: &[Token], b: &[Token], c: &[Token]) -> Option<Body>
    ensures { result ≡ or_else (figures.line_par n.now a.now b.now c.now) (figures.line_perp n.now a.now b.now c.now) }
{
    match line_par(n, a, b, c) {
        Some(body) => Some(body),
        None => line_perp(n, a, b, c),
    }
}

/// A line, from behind its word and slash.
#[tactic(auto, using(crate::proofs::Numbers::no_line_of_one, crate::proofs::Numbers::no_line_of_five, crate::proofs::Numbers::no_line_of_seven, std::proofs::lemmas::Grind::common_steps))]
pub fn line(alloc: Global, n: &Symbol, args: &[&[Token]]) -> Result<Option<Body>, AllocError>
    ensures { IfOk result (λ b. b ≡ figures.line n.now (map (λ a. a.now) args.now)) }
{
    match args {
        [a, b] => Ok(line_points(n, a, b)),
        [a, b, c] => Ok(line_of_three(n, a, b, c)),
        [a, b, c, d] => line_of_four(alloc, n, a, b, c, d),
        [a, b, c, d, e, f] => Ok(line_two(n, a, b, c, d, e, f)),
        _ => Ok(None),
    }
}

fn circle_three(
    alloc: Global,
    n: &Symbol,
    x: &[Token],
    y: &[Token],
    r: &[Token],
) -> Result<Option<Body>, AllocError>
    ensures { IfOk result (λ b. b ≡ figures.circle_three n.now x.now y.now r.now) }
{
    Ok(triple(alloc, x, y, r)?.map(|(x, y, r)| Body::CircleThree(n.copied(), x, y, r)))
}

fn circle_through(n: &Symbol, center: &[Token], p: &[Token], q: &[Token]) -> Option<Body>
    ensures { result ≡ figures.circle_through n.now center.now p.now q.now }
{
    if !is_word(Word::Center, center) {
        return None;
    }
    Some(Body::CircleThrough(n.copied(), name(p)?, name(q)?))
}

fn circle_radius(
    alloc: Global,
    n: &Symbol,
    center: &[Token],
    p: &[Token],
    radius: &[Token],
    e: &[Token],
) -> Result<Option<Body>, AllocError>
    ensures { IfOk result (λ b. b ≡ figures.circle_radius n.now center.now p.now radius.now e.now) }
{
    if !is_word(Word::Center, center) || !is_word(Word::Radius, radius) {
        return Ok(None);
    }
    let Some(p) = name(p) else {
        return Ok(None);
    };
    Ok(expression(alloc, e)?.map(|e| Body::CircleRadius(n.copied(), p, e)))
}

fn circle_tan(
    n: &Symbol,
    center: &[Token],
    p: &[Token],
    tanto: &[Token],
    l: &[Token],
) -> Option<Body>
    ensures { result ≡ figures.circle_tan n.now center.now p.now tanto.now l.now }
{
    if !is_word(Word::Center, center) || !is_word(Word::Tanto, tanto) {
        return None;
    }
    Some(Body::CircleTan(n.copied(), name(p)?, name(l)?))
}

fn circle_corner(
    alloc: Global,
    n: &Symbol,
    j: &[Token],
    a: &[Token],
    k: &[Token],
    b: &[Token],
    radius: &[Token],
    e: &[Token],
) -> Result<Option<Body>, AllocError>
    ensures { IfOk result (λ c. c ≡ figures.circle_corner n.now j.now a.now k.now b.now radius.now e.now) }
{
    if !is_word(Word::Radius, radius) {
        return Ok(None);
    }
    let (Some(j), Some(a)) = (pick(j), name(a)) else {
        return Ok(None);
    };
    let (Some(k), Some(b)) = (pick(k), name(b)) else {
        return Ok(None);
    };
    Ok(expression(alloc, e)?.map(|e| Body::CircleCorner(n.copied(), j, a, k, b, e)))
}

fn circle_of_three(
    alloc: Global,
    n: &Symbol,
    a: &[Token],
    b: &[Token],
    c: &[Token],
) -> Result<Option<Body>, AllocError>
    ensures { IfOk result (λ r. r ≡ or_else (figures.circle_through n.now a.now b.now c.now) (figures.circle_three n.now a.now b.now c.now)) }
{
    match circle_through(n, a, b, c) {
        Some(body) => Ok(Some(body)),
        None => circle_three(alloc, n, a, b, c),
    }
}

fn circle_of_four(
    alloc: Global,
    n: &Symbol,
    a: &[Token],
    b: &[Token],
    c: &[Token],
    d: &[Token],
) -> Result<Option<Body>, AllocError>
    ensures { IfOk result (λ r. r ≡ or_else (figures.circle_radius n.now a.now b.now c.now d.now) (figures.circle_tan n.now a.now b.now c.now d.now)) }
{
    match circle_radius(alloc, n, a, b, c, d)? {
        Some(body) => Ok(Some(body)),
        None => Ok(circle_tan(n, a, b, c, d)),
    }
}

/// A circle, from behind its word and slash.
#[tactic(auto, using(crate::proofs::Numbers::no_circle_of_two, crate::proofs::Numbers::no_circle_of_five, crate::proofs::Numbers::no_circle_of_seven, std::proofs::lemmas::Grind::common_steps))]
pub fn circle(alloc: Global, n: &Symbol, args: &[&[Token]]) -> Result<Option<Body>, AllocError>
    ensures { IfOk result (λ b. b ≡ figures.circle n.now (map (λ a. a.now) args.now)) }
{
    match args {
        [a, b, c] => circle_of_three(alloc, n, a, b, c),
        [a, b, c, d] => circle_of_four(alloc, n, a, b, c, d),
        [a, b, c, d, e, f] => circle_corner(alloc, n, a, b, c, d, e, f),
        _ => Ok(None),
    }
}

/// A pattern, from behind its word and slash.
pub fn patern(alloc: Global, n: &Symbol, args: &[&[Token]]) -> Result<Option<Body>, AllocError>
    ensures { IfOk result (λ b. b ≡ figures.patern n.now (map (λ a. a.now) args.now)) }
{
    let [linear, p, q, e] = args else {
        return Ok(None);
    };
    if !is_word(Word::Linear, linear) {
        return Ok(None);
    }
    let (Some(p), Some(q)) = (name(p), name(q)) else {
        return Ok(None);
    };
    Ok(expression(alloc, e)?.map(|e| Body::Patern(n.copied(), p, q, e)))
}
