//! What each statement does.
ghost use Rattle.std.specs.Prelude.{◌≡◌, false};
ghost use Rattle.apt_deeds.specs.Deeds as deeds;
ghost use Rattle.apt_deeds.specs.Texts as texts;

use crate::arguments::{both, coordinates, is_pattern, name_for, surfaces, three, value_and_pair};
use crate::figures::figure;
use apt_scalar::{Env, Frame, eval};
use apt_words::{Body, Case, Command, Contouring, Deed, Turn};

/// What a statement does; one whose text has to be copied is handled before.
#[tactic(auto, unfolding(crate::specs::Deeds::executed, crate::specs::Deeds::by_values))]
pub(crate) fn execution(env: &Env, frame: &Frame, body: &Body) -> Result<Deed, Case>
    requires { texts.is_text body.now ≡ false }
    ensures { result ≡ deeds.execution env.now frame.now body.now }
{
    match body {
        // A text is copied by the caller.
        Body::Partno(_) | Body::Remark(_) => unreachable!(),
        Body::Units(units) => Ok(Deed::Units(*units)),
        Body::Clprnt => Ok(Deed::Clprnt),
        Body::Nopost => Ok(Deed::Nopost),
        Body::Machin(_) => Ok(Deed::Machin),
        Body::Assign(n, e) => {
            let v = eval(e, env, frame)?;
            Ok(Deed::Assign(n.copied(), v))
        }
        Body::Cutter(e) => Ok(Deed::Cutter(eval(e, env, frame)?)),
        Body::Intol(e) => Ok(Deed::Intol(eval(e, env, frame)?)),
        Body::Outtol(e) => Ok(Deed::Outtol(eval(e, env, frame)?)),
        Body::Tool(side) => Ok(Deed::Tool(*side)),
        Body::FromXy(x, y, z) => {
            let (x, y, z) = coordinates(env, frame, x, y, z)?;
            Ok(Deed::FromXy(x, y, z))
        }
        Body::FromPoint(p) => Ok(Deed::FromPoint(name_for(frame, p)?)),
        Body::GotoXy(x, y, z) => {
            let (x, y, z) = coordinates(env, frame, x, y, z)?;
            Ok(Deed::GotoXy(x, y, z))
        }
        Body::GotoPoint(p) => {
            let name = name_for(frame, p)?;
            if is_pattern(env, &name) {
                return Ok(Deed::GotoPatern(name));
            }
            Ok(Deed::GotoPoint(name))
        }
        Body::Godlta(x, y, z) => {
            let (x, y, z) = three(env, frame, x, y, z)?;
            Ok(Deed::Godlta(x, y, z))
        }
        Body::GoStart(stop, s, other) => {
            let (s, other) = surfaces(frame, s, other)?;
            Ok(Deed::GoStart(*stop, s, other))
        }
        Body::Contour(contour, e) => {
            let (n, drive, check) = value_and_pair(env, frame, e, &contour.drive, &contour.check)?;
            let (side, go, stop) = (contour.side, contour.go, contour.stop);
            let contour = Contouring {
                side,
                go,
                drive,
                stop,
                check,
            };
            Ok(Deed::Contour(contour, n))
        }
        Body::Rapid => Ok(Deed::Rapid),
        Body::Halt => Ok(Deed::Do(Command::Stop)),
        Body::OptHalt => Ok(Deed::Do(Command::OptStop)),
        Body::SpindlOff => Ok(Deed::Do(Command::Spindle(Turn::Off, 0))),
        Body::Coolnt(cool) => Ok(Deed::Do(Command::Coolant(*cool))),
        Body::EndWord => Ok(Deed::EndWord),
        Body::Fini => Ok(Deed::Fini),
        Body::Fedrat(e) => Ok(Deed::Fedrat(eval(e, env, frame)?)),
        Body::Spindl(e, turn) => Ok(Deed::Do(Command::Spindle(*turn, eval(e, env, frame)?))),
        Body::Loadtl(e) => Ok(Deed::Do(Command::Tool(eval(e, env, frame)?))),
        Body::CycleDrill(d, c) => {
            let (d, c) = both(env, frame, d, c)?;
            Ok(Deed::CycleDrill(d, c))
        }
        Body::CycleOff => Ok(Deed::CycleOff),
        Body::Macro(_, _) => Ok(Deed::Macro),
        Body::Termac => Ok(Deed::Termac),
        Body::Call(_, _) => Ok(Deed::Call),
        Body::Loopst => Ok(Deed::Loopst),
        Body::Loopnd => Ok(Deed::Loopnd),
        Body::Jumpto(_) => Ok(Deed::Jumpto),
        Body::If(_, _, _, _) => Ok(Deed::If),
        _ => figure(env, frame, body),
    }
}
