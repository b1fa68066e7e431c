//! A note, a move or a contour, or the first case that refuses it (specs/Refusals). The ends of a contour have their
//! cases where it is run to its contact.

ghost use Rattle.std.specs.Prelude.{◌≡◌, [], ◌∷◌, List, Some, None, Ok, Err, IfOk, MatchResult, unwrap_or, if◌then◌else◌};
ghost use Rattle.apt_words.specs.Asks.{Says, Goes, Cuts, saying_numbers, route_numbers};
ghost use Rattle.apt_words.specs.Rows.{Row, first_of};
ghost use Rattle.apt_scalar.specs.Scalars.{IsScalar, whole};
ghost use Rattle.apt_scalar.specs.StepScalars.{AllScalars};
ghost use Rattle.apt_records.specs.Ranges.{IsPosition, IsNote};
ghost use Rattle.apt_meaning.specs.Compiled as compiled;
ghost use Rattle.apt_meaning.specs.Effects as asking;
ghost use Rattle.apt_meaning.specs.Motions.{motion_at};
ghost use Rattle.apt_meaning.specs.Ranges.{IsSituation, IsMotion};
ghost use Rattle.apt_meaning.specs.Refusals as refusals;
ghost use Rattle.apt_meaning.specs.declared.effect.Change.TheVariants as changes;
ghost use Rattle.apt_meaning.specs.declared.effect.Effect.TheVariants as effects;

use crate::effects::{cut_at, goes};
use crate::start_up::start_up_at;
use crate::{Cut, Settings, Situation, is_too_fine, legs_by, note_of, surface_in};
use apt_defs::{Table, is_in_reach};
use apt_records::{Note, Position, Reach};
use apt_startup::start;
use apt_words::{Case, Command, Contouring, Place, Route, Saying, Stop, Symbol, Turn};

/// The greatest diameter of a cutter, in grid units.
const MOST_DIAMETER: i64 = 1_000_000;

/// The greatest tolerance, in grid units.
const MOST_TOLERANCE: i64 = 10_000;

/// The note that a statement has the CL file say, or the case that refuses it.
#[inline(always)]
#[tactic(auto, using(crate::proofs::Refused::note_in))]
pub fn note_or_case(here: &Situation, saying: &Saying) -> Result<Note, Case>
    requires { AllScalars (saying_numbers saying.now) }
    ensures value { MatchResult result (λ note. compiled.asked_by here.now (Says saying.now) ≡ Ok (effects.Sets (changes.Said note))) (λ case. compiled.asked_by here.now (Says saying.now) ≡ Err case) }
    ensures range { IfOk result IsNote }
{
    let note = note_of(here.settings.units, saying);
    match note_case(&note) {
        None => Ok(note),
        Some(case) => Err(case),
    }
}

/// Where a move leads, and how, or the first case that refuses it.
#[inline(always)]
#[tactic(auto, using(crate::proofs::Refused::leads))]
pub fn move_or_case(here: &Situation, route: &Route) -> Result<(Reach, Position), Case>
    requires situation { IsSituation here.now }
    requires scalars { AllScalars (route_numbers route.now) }
    ensures value { MatchResult result (λ m. compiled.asked_by here.now (Goes route.now) ≡ Ok (effects.Moves m.0 m.1)) (λ case. compiled.asked_by here.now (Goes route.now) ≡ Err case) }
    ensures range { IfOk result (λ m. IsPosition m.1) }
{
    match goes(here, route) {
        Some((reach, to)) => match move_case(here, reach, to) {
            None => Ok((reach, to)),
            Some(case) => Err(case),
        },
        None => match route_lack(here, route) {
            Some(case) => Err(case),
            // A move that no case refuses leads somewhere.
            None => unreachable!(),
        },
    }
}

/// What a contour cuts that goes to the n-th meeting with its check surface, with n in millionths, or the first case that
/// refuses it. Its ends are not judged yet: they may still refuse it.
#[inline(always)]
pub fn cut_or_case(here: &Situation, contour: &Contouring, n: i64) -> Result<Cut, Case>
    requires situation { IsSituation here.now }
    requires count { IsScalar n }
    ensures value { let ask = Cuts contour.now n in refusals.IsCutOr (first_of (refusals.cases_by here.now ask)) (asking.effect_by here.now ask) result }
    ensures range { IfOk result (λ c. IsMotion c.motion) }
{
    match cut_at(here, contour, n) {
        Some(cut) => match feed_case(&here.settings) {
            None => Ok(cut),
            Some(case) => Err(case),
        },
        None => Err(contour_lack(here, contour, n)),
    }
}

// ---- where the effect is there

/// FROM comes once, and a move needs a feed. A start-up ends within the coordinate limit.
#[inline(always)]
fn move_case(here: &Situation, reach: Reach, to: Position) -> Option<Case>
    ensures { result ≡ first_of (refusals.moved_cases here.now reach to) }
{
    match reach {
        Reach::From if here.position.is_some() => Some(Case::FromAgain),
        Reach::From => position_case(to, false),
        Reach::Goto | Reach::Godlta => position_case(to, here.settings.lacks_feed()),
        Reach::Start if here.settings.lacks_feed() => Some(Case::NoFeed),
        Reach::Start => None,
    }
}

/// A position is within the coordinate limit.
#[inline(always)]
fn position_case(to: Position, lacks_feed: bool) -> Option<Case>
    ensures { result ≡ first_of (refusals.position_cases to ((lacks_feed, Case.NoFeed) ∷ [])) }
{
    if !(is_in_reach(to.xy.x) && is_in_reach(to.xy.y) && is_in_reach(to.z)) {
        Some(Case::OutOfRange)
    } else if lacks_feed {
        Some(Case::NoFeed)
    } else {
        None
    }
}

/// A note's number is in its range.
fn note_case(note: &Note) -> Option<Case>
    ensures { result ≡ first_of (refusals.note_cases note.now) }
{
    match note {
        Note::Cutter(d) => length_case(MOST_DIAMETER, *d),
        Note::Intol(t) | Note::Outtol(t) => length_case(MOST_TOLERANCE, *t),
        Note::Feed(n) => number_case(*n),
        Note::Do(command) => command_case(*command),
        Note::Partno(_) | Note::Units(_) | Note::Rapid | Note::End | Note::Fini => None,
    }
}

/// A command's number is in its range.
fn command_case(command: Command) -> Option<Case>
    ensures { result ≡ first_of (refusals.command_cases command) }
{
    match command {
        Command::Spindle(Turn::Cw | Turn::Ccw, n) | Command::Tool(n) => number_case(n),
        _ => None,
    }
}

/// A length is from 0 up to the greatest.
fn length_case(most: i64, g: i64) -> Option<Case>
    ensures { result ≡ first_of (refusals.length_cases most g) }
{
    if 0 <= g && g <= most {
        None
    } else {
        Some(Case::OutOfRange)
    }
}

/// A feed in tenths, a speed and a tool are at least one.
fn number_case(n: i64) -> Option<Case>
    ensures { result ≡ first_of (refusals.under_one n ∷ []) }
{
    if n < 1 { Some(Case::OutOfRange) } else { None }
}

/// A contour needs a feed, no pending RAPID, and a tolerance of a grid step.
fn feed_case(settings: &Settings) -> Option<Case>
    ensures { result ≡ first_of (refusals.feed_cases settings.now []) }
{
    if settings.rapid {
        Some(Case::RapidContour)
    } else if !settings.has_feed() {
        Some(Case::NoFeed)
    } else if is_too_fine(settings) {
        Some(Case::TooFine)
    } else {
        None
    }
}

// ---- where there is none

/// The first case that refuses a move that leads nowhere.
#[tactic(auto, using(crate::proofs::Refused::name_lacks, crate::proofs::Refused::no_coordinates, crate::proofs::Refused::by_lacks))]
fn route_lack(here: &Situation, route: &Route) -> Option<Case>
    requires situation { IsSituation here.now }
    requires lacks { asking.goes here.now route.now ≡ None }
    ensures { first_of (refusals.route_cases here.now route.now) ≡ result }
{
    match route {
        Route::From(_) if here.position.is_some() => Some(Case::FromAgain),
        Route::From(Place::Named(name)) | Route::Goto(Place::Named(name)) => {
            Some(name_lack(&here.table, name))
        }
        Route::From(Place::Xyz(..)) | Route::Goto(Place::Xyz(..)) => None,
        Route::By(..) => Some(Case::NoFrom),
        Route::Start(how, name, other) => start_lack(here, *how, name, other),
    }
}

/// A name that stands for nothing of the kind that is needed.
fn name_lack(table: &Table, name: &Symbol) -> Case
    ensures { result ≡ (if refusals.is_undefined table.now name.now then Case.Undefined else Case.WrongKind) }
{
    match table.get(name) {
        None => Case::Undefined,
        Some(_) => Case::WrongKind,
    }
}

/// That of GO.
#[tactic(auto, using(crate::proofs::Refused::go_by, crate::proofs::Refused::start_case))]
fn start_lack(
    here: &Situation,
    how: Stop,
    name: &Symbol,
    other: &Option<(Stop, Symbol)>,
) -> Option<Case>
    requires situation { IsSituation here.now }
    ensures { first_of (refusals.go_cases here.now how name.now other.now) ≡ result }
{
    if here.position.is_none() {
        return Some(Case::NoFrom);
    }
    let Some(start_up) = start_up_at(here, how, name, other) else {
        return Some(goal_lack(&here.table, name, other));
    };
    if here.settings.lacks_feed() {
        return Some(Case::NoFeed);
    }
    start(&start_up).err()
}

/// Each name of GO is there before the kind of one is tried.
fn goal_lack(table: &Table, name: &Symbol, other: &Option<(Stop, Symbol)>) -> Case
    ensures { result ≡ unwrap_or (first_of (refusals.each_name (refusals.is_undefined table.now) Case.Undefined (refusals.start_names name.now other.now))) Case.WrongKind }
{
    if table.get(name).is_none() {
        return Case::Undefined;
    }
    match other {
        None => Case::WrongKind,
        Some((_, second)) => name_lack(table, second),
    }
}

/// The first case that refuses a contour without a motion or a number of legs.
#[tactic(auto, using(crate::proofs::Refused::contour_lacks))]
fn contour_lack(here: &Situation, contour: &Contouring, n: i64) -> Case
    requires count { IsScalar n }
    requires lacks { asking.cuts_by (whole n) (motion_at here.now contour.now) ≡ None }
    ensures { first_of (refusals.contour_cases here.now contour.now n) ≡ Some result }
{
    if here.position.is_none() {
        return Case::NoFrom;
    }
    if surface_in(&here.table, &contour.drive).is_none() {
        return name_lack(&here.table, &contour.drive);
    }
    if surface_in(&here.table, &contour.check).is_none() {
        return name_lack(&here.table, &contour.check);
    }
    if legs_by(n).is_none() {
        return Case::BadCount;
    }
    feed_case(&here.settings).unwrap_or(Case::NoTurn)
}
