//! What steps ask for, refusals aside.

ghost use Rattle.std.specs.Prelude.{◌≡◌, Some, IfOk, IfSome};
ghost use Rattle.apt_words.specs.Asks.{ask_of, command_numbers, form_numbers, place_numbers, route_numbers, saying_numbers};
ghost use Rattle.apt_scalar.specs.Scalars.{IsScalar, whole};
ghost use Rattle.apt_scalar.specs.StepScalars.{AllScalars, HasScalars};
ghost use Rattle.apt_startup.specs.Ranges.{IsStartUp};
ghost use Rattle.apt_records.specs.Vertices.{at_height};
ghost use Rattle.apt_words.specs.declared.Units.{Units};
ghost use Rattle.apt_words.specs.declared.deed.Deed.{Deed};
ghost use Rattle.apt_meaning.specs.Alike.{AskAlike, with_units};
ghost use Rattle.apt_meaning.specs.Effects as asking;
ghost use Rattle.apt_meaning.specs.Motions as motions;
ghost use Rattle.apt_meaning.specs.Ranges.{IsSituation, IsMotion, HasMotion};
ghost use Rattle.apt_meaning.specs.StartUps as start_ups;

use crate::start_up::start_up_at;
use crate::{
    Change, Cut, Effect, Motion, Situation, moved_by, place_in, position_by, surface_in, turn_at,
};
use apt_defs::figure_of;
use apt_offset::signs::is_zero;
use apt_plane::Pt;
use apt_records::{Note, Position, Reach};
use apt_scalar::{grid_units, tenths, whole};
use apt_startup::{StartUp, start};
use apt_stop::Legs;
use apt_words::{
    Ask, Command, Contouring, Deed, Form, Place, Route, Saying, Stop, Symbol, Turn, Units,
};
use std::alloc::AllocError;

/// The note that a statement has the CL file say: lengths in grid units by the units that hold, feeds in tenths,
/// speeds and tools in whole numbers.
pub fn note_of(units: Units, saying: &Saying) -> Note
    requires { AllScalars (saying_numbers saying.now) }
    ensures { result ≡ asking.note_of units saying.now }
{
    match saying {
        Saying::Units(units) => Note::Units(*units),
        Saying::Diameter(v) => Note::Cutter(grid_units(units, *v)),
        Saying::Inward(v) => Note::Intol(grid_units(units, *v)),
        Saying::Outward(v) => Note::Outtol(grid_units(units, *v)),
        Saying::Feed(v) => Note::Feed(tenths(*v)),
        Saying::Do(command) => Note::Do(rounded(*command)),
        Saying::Rapid => Note::Rapid,
        Saying::End => Note::End,
        Saying::Fini => Note::Fini,
    }
}

/// A command in whole numbers.
fn rounded(command: Command) -> Command
    requires { AllScalars (command_numbers command) }
    ensures { result ≡ asking.rounded command }
{
    match command {
        Command::Spindle(Turn::Off, _) => Command::Spindle(Turn::Off, 0),
        Command::Spindle(turn, n) => Command::Spindle(turn, whole(n)),
        Command::Tool(n) => Command::Tool(whole(n)),
        _ => command,
    }
}

/// What a step asks for at a situation, whether or not a case refuses it: the figure of a name; what is set; the position
/// to which it leads, and how; or the motion of a contour, from the position on. Lengths and coordinates are in grid units
/// by the units that hold, feeds in tenths. None where a definition is refused, a FROM or a GOTO names no point, a GODLTA,
/// a GO or a contour has no position to start from, a name of GO or of a contour stands for no surface, a case refuses the
/// point of GO, or a contour has no turn or a count of meetings other than 1 and 2. Where a move leads may be out of range; a contour's motion is in range.
#[tactic(auto, using(crate::proofs::Contours::Ranges::motion_in))]
pub fn effect_of(here: &Situation, deed: &Deed) -> Result<Option<Effect>, AllocError>
    requires situation { IsSituation here.now }
    requires scalars { HasScalars deed.now }
    ensures value { IfOk result (λ e. e ≡ asking.effect_of here.now deed.now) }
    ensures alike { (units : Units) (same : Deed) → AskAlike here.now.settings.units (ask_of deed.now) units (ask_of same) → IfOk result (λ e. e ≡ asking.effect_of (with_units here.now units) same) }
    ensures motion { IfOk result (λ e. IfSome e HasMotion) }
{
    effect_value(here, deed)
}

fn effect_value(here: &Situation, deed: &Deed) -> Result<Option<Effect>, AllocError>
    requires situation { IsSituation here.now }
    requires scalars { HasScalars deed.now }
    ensures { IfOk result (λ e. e ≡ asking.effect_of here.now deed.now) }
{
    match deed.ask() {
        Ask::Titles(text) => Ok(Some(says(Note::Partno(text.copied()?)))),
        Ask::Says(saying) => Ok(Some(says(note_of(here.settings.units, &saying)))),
        Ask::Sets(side) => Ok(Some(Effect::Sets(Change::Side(side)))),
        Ask::Defines(name, form) => Ok(definition(here, name, &form)),
        Ask::Goes(route) => Ok(moves(here, &route)),
        Ask::Cuts(contour, n) => Ok(cuts(here, contour, n)),
        Ask::Nothing => Ok(Some(Effect::Sets(Change::Nothing))),
    }
}

/// One record says what changes.
fn says(note: Note) -> Effect
    ensures { Some result ≡ asking.says note }
{
    Effect::Sets(Change::Said(note))
}

/// The figure of a name, where no case refuses it.
#[tactic(auto, unfolding(crate::specs::Effects::defined))]
fn definition(here: &Situation, name: Symbol, form: &Form) -> Option<Effect>
    requires { AllScalars (form_numbers form.now) }
    ensures { result ≡ asking.defined here.now name form.now }
{
    match figure_of(form, here.settings.units, &here.table) {
        Ok(figure) => Some(Effect::Defines(name, figure)),
        Err(_) => None,
    }
}

fn moves(here: &Situation, route: &Route) -> Option<Effect>
    requires situation { IsSituation here.now }
    requires scalars { AllScalars (route_numbers route.now) }
    ensures { result ≡ asking.goes here.now route.now }
{
    let (reach, to) = goes(here, route)?;
    Some(Effect::Moves(reach, to))
}

/// Where a move leads, and how.
#[inline(always)]
pub(crate) fn goes(here: &Situation, route: &Route) -> Option<(Reach, Position)>
    requires situation { IsSituation here.now }
    requires scalars { AllScalars (route_numbers route.now) }
    ensures { asking.goes here.now route.now ≡ asking.moved result }
{
    match route {
        Route::From(place) => Some((Reach::From, place_at(here, place)?)),
        Route::Goto(place) => Some((Reach::Goto, place_at(here, place)?)),
        Route::By(x, y, z) => Some((Reach::Godlta, led_by(here, *x, *y, *z)?)),
        Route::Start(how, name, other) => Some((Reach::Start, start_at(here, *how, name, other)?)),
    }
}

#[inline(always)]
fn place_at(here: &Situation, place: &Place) -> Option<Position>
    requires { AllScalars (place_numbers place.now) }
    ensures { result ≡ asking.place_at here.now place.now }
{
    match place {
        Place::Xyz(x, y, z) => Some(position_by(here.settings.units, *x, *y, *z)),
        Place::Named(name) => place_in(&here.table, name),
    }
}

fn led_by(here: &Situation, x: i64, y: i64, z: i64) -> Option<Position>
    requires situation { IsSituation here.now }
    requires x { IsScalar x }
    requires y { IsScalar y }
    requires z { IsScalar z }
    ensures { result ≡ asking.moved_from here.now x y z }
{
    let from = here.position?;
    Some(moved_by(here.settings.units, x, y, z, from))
}

/// The start-up point, at the height of where the tool stands.
fn start_at(
    here: &Situation,
    how: Stop,
    name: &Symbol,
    other: &Option<(Stop, Symbol)>,
) -> Option<Position>
    requires { IsSituation here.now }
    ensures { result ≡ start_ups.start_position_at here.now how name.now other.now }
{
    let from = here.position?;
    let start_up = start_up_at(here, how, name, other)?;
    start_from(from, &start_up)
}

fn start_from(from: Position, u: &StartUp) -> Option<Position>
    requires { IsStartUp u.now }
    ensures { result ≡ start_ups.start_position from u.now }
{
    match start(u) {
        Ok(xy) => Some(level_with(from, xy)),
        Err(_) => None,
    }
}

fn level_with(from: Position, xy: Pt) -> Position
    ensures { result ≡ at_height from.z xy }
{
    Position { xy, z: from.z }
}

/// How many legs a count of meetings in millionths asks for: the first meeting one, the second two, and no other any.
#[inline(always)]
pub fn legs_by(n: i64) -> Option<Legs>
    requires { IsScalar n }
    ensures { result ≡ asking.legs_by (whole n) }
{
    match n {
        1_000_000 => Some(Legs::One),
        _ => legs_to(whole(n)),
    }
}

fn legs_to(n: i64) -> Option<Legs>
    ensures { result ≡ asking.legs_by n }
{
    match n {
        1 => Some(Legs::One),
        2 => Some(Legs::Two),
        _ => None,
    }
}

fn cuts(here: &Situation, contour: &Contouring, n: i64) -> Option<Effect>
    requires situation { IsSituation here.now }
    requires count { IsScalar n }
    ensures { result ≡ asking.cuts_by (whole n) (motions.motion_at here.now contour.now) }
{
    let cut = cut_at(here, contour, n)?;
    Some(Effect::Cuts(cut.motion, cut.legs))
}

/// What a contour cuts that goes to the n-th meeting with its check surface, with n in millionths.
#[inline(always)]
pub(crate) fn cut_at(here: &Situation, contour: &Contouring, n: i64) -> Option<Cut>
    requires situation { IsSituation here.now }
    requires count { IsScalar n }
    ensures value { asking.cuts_by (whole n) (motions.motion_at here.now contour.now) ≡ asking.cut result }
    ensures range { IfSome result (λ c. IsMotion c.motion) }
{
    let legs = legs_by(n)?;
    let motion = motion_at(here, contour)?;
    Some(Cut { motion, legs })
}

#[inline(always)]
#[tactic(auto, unfolding(crate::specs::Motions::motion_at))]
fn motion_at(here: &Situation, contour: &Contouring) -> Option<Motion>
    requires { IsSituation here.now }
    ensures value { result ≡ motions.motion_at here.now contour.now }
    ensures range { IfSome result IsMotion }
{
    let start = here.position?;
    let drive = surface_in(&here.table, &contour.drive)?;
    let check = surface_in(&here.table, &contour.check)?;
    let settings = here.settings.with_side(contour.side);
    let turned = turn_at(here.forward, start, &drive, contour.go);
    if is_zero(turned) {
        return None;
    }
    Some(Motion::along(&settings, start, &drive, turned, contour.stop, &check))
}
