//! The names that statements define, and what a statement does that defines a figure.
ghost use Rattle.std.specs.Prelude.{◌≡◌, true};
ghost use Rattle.std.specs.Option.{option_copied};
ghost use Rattle.apt_words.specs.Composition.{composition};
ghost use Rattle.apt_deeds.specs.Deeds as deeds;
ghost use Rattle.apt_deeds.specs.Texts as texts;

use crate::arguments::{
    coordinates, four, name_for, pair, three, three_points, value_and_name, value_and_pair,
};
use apt_scalar::{Env, Frame};
use apt_words::{Body, Case, Deed, Symbol};

/// What the definition of a point, a line, a circle or a pattern does.
#[tactic(auto, unfolding(crate::specs::Deeds::executed, crate::specs::Deeds::by_values))]
pub(crate) fn figure(env: &Env, frame: &Frame, body: &Body) -> Result<Deed, Case>
    requires { texts.is_figure body.now ≡ true }
    ensures { result ≡ deeds.execution env.now frame.now body.now }
{
    match body {
        Body::PointXy(n, x, y, z) => {
            let (x, y, z) = coordinates(env, frame, x, y, z)?;
            Ok(Deed::PointXy(n.copied(), x, y, z))
        }
        Body::PointLines(n, a, b) => {
            let (a, b) = pair(frame, a, b)?;
            Ok(Deed::PointLines(n.copied(), a, b))
        }
        Body::PointPick(n, pick, a, b) => {
            let (a, b) = pair(frame, a, b)?;
            Ok(Deed::PointPick(n.copied(), *pick, a, b))
        }
        Body::PointCenter(n, c) => {
            let c = name_for(frame, c)?;
            Ok(Deed::PointCenter(n.copied(), c))
        }
        Body::LineXy(n, x, y, to) => {
            let (x, y, u, v) = four(env, frame, x, y, to.x(), to.y())?;
            Ok(Deed::LineXy(n.copied(), x, y, u, v))
        }
        Body::LinePoints(n, p, q) => {
            let (p, q) = pair(frame, p, q)?;
            Ok(Deed::LinePoints(n.copied(), p, q))
        }
        Body::LinePar(n, p, l) => {
            let (p, l) = pair(frame, p, l)?;
            Ok(Deed::LinePar(n.copied(), p, l))
        }
        Body::LinePerp(n, p, l) => {
            let (p, l) = pair(frame, p, l)?;
            Ok(Deed::LinePerp(n.copied(), p, l))
        }
        Body::LineAt(n, l, pick, e) => {
            let (v, l) = value_and_name(env, frame, e, l)?;
            Ok(Deed::LineAt(n.copied(), l, *pick, v))
        }
        Body::LineTan(n, p, left, c) => {
            let (p, c) = pair(frame, p, c)?;
            Ok(Deed::LineTan(n.copied(), p, *left, c))
        }
        Body::LineTwo(n, left, c, left_too, d) => {
            let (c, d) = pair(frame, c, d)?;
            Ok(Deed::LineTwo(n.copied(), *left, c, *left_too, d))
        }
        Body::CircleThree(n, x, y, z) => {
            if let Some((a, b, c)) = three_points(env, frame, x, y, z) {
                return Ok(Deed::CirclePoints(n.copied(), a, b, c));
            }
            let (x, y, r) = three(env, frame, x, y, z)?;
            Ok(Deed::CircleXyr(n.copied(), x, y, r))
        }
        Body::CircleRadius(n, p, e) => {
            let (v, p) = value_and_name(env, frame, e, p)?;
            Ok(Deed::CircleRadius(n.copied(), p, v))
        }
        Body::CircleTan(n, p, l) => {
            let (p, l) = pair(frame, p, l)?;
            Ok(Deed::CircleTan(n.copied(), p, l))
        }
        Body::CircleThrough(n, p, q) => {
            let (p, q) = pair(frame, p, q)?;
            Ok(Deed::CircleThrough(n.copied(), p, q))
        }
        Body::CircleCorner(n, pick, a, pick_too, b, e) => {
            let (v, a, b) = value_and_pair(env, frame, e, a, b)?;
            Ok(Deed::CircleCorner(n.copied(), *pick, a, *pick_too, b, v))
        }
        Body::Patern(n, p, q, e) => {
            let (v, p, q) = value_and_pair(env, frame, e, p, q)?;
            Ok(Deed::Patern(n.copied(), p, q, v))
        }
        // The statement defines a figure.
        _ => unreachable!(),
    }
}

/// The name that a statement defines.
pub(crate) fn defined_name(body: &Body) -> Option<&Symbol>
    ensures { option_copied result ≡ (composition body.now).defines }
{
    match body {
        Body::Assign(n, _)
        | Body::PointXy(n, _, _, _)
        | Body::PointLines(n, _, _)
        | Body::PointPick(n, _, _, _)
        | Body::PointCenter(n, _)
        | Body::LineXy(n, _, _, _)
        | Body::LinePoints(n, _, _)
        | Body::LinePar(n, _, _)
        | Body::LinePerp(n, _, _)
        | Body::LineAt(n, _, _, _)
        | Body::LineTan(n, _, _, _)
        | Body::LineTwo(n, _, _, _, _)
        | Body::CircleThree(n, _, _, _)
        | Body::CircleRadius(n, _, _)
        | Body::CircleTan(n, _, _)
        | Body::CircleThrough(n, _, _)
        | Body::CircleCorner(n, _, _, _, _, _)
        | Body::Patern(n, _, _, _) => Some(n),
        _ => None,
    }
}
