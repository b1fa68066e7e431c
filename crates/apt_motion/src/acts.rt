//! What a step does: what it writes, and what holds behind it.

ghost use Rattle.std.specs.Prelude.{◌≡◌, Ok, OnOk, IfOk};
ghost use Rattle.std.specs.Result.{result_map_both};
ghost use Rattle.apt_words.specs.Asks as asking;
ghost use Rattle.apt_words.specs.Asks.{ask_of, form_numbers, route_numbers};
ghost use Rattle.apt_words.specs.Rows.{unless};
ghost use Rattle.apt_words.specs.Sources.{DeedHasText};
ghost use Rattle.apt_scalar.specs.Scalars.{IsScalar};
ghost use Rattle.apt_scalar.specs.StepScalars.{AllScalars, HasScalars};
ghost use Rattle.apt_stop.specs.Legs as legging;
ghost use Rattle.apt_records.specs.Ranges.{IsNote};
ghost use Rattle.apt_meaning.specs.Compiled.{asked, refused_at};
ghost use Rattle.apt_meaning.specs.Effects.{effect_of};
ghost use Rattle.apt_meaning.specs.Motions as motions;
ghost use Rattle.apt_meaning.specs.Ranges.{IsSituation, IsMotion};
ghost use Rattle.apt_meaning.specs.Refusals as refusals;
ghost use Rattle.apt_meaning.specs.Refusals.{refusal_of};
ghost use Rattle.apt_meaning.specs.declared.effect.Change.TheVariants as changes;
ghost use Rattle.apt_meaning.specs.declared.effect.Effect.TheVariants as effects;
ghost use Rattle.apt_motion.specs.Acts as spec;
ghost use Rattle.apt_motion.specs.Acts.{Writing, Says, Goes, Cuts};
ghost use Rattle.apt_words.specs.declared.deed.Step.{Step};

use crate::runs::RunError;
use apt_defs::{DefError, define_as};
use apt_meaning::{Cut, Motion, Situation, cut_or_case, move_or_case, note_or_case};
use apt_offset::{is_on_check, lacks_room};
use apt_records::{Note, Position, Reach};
use apt_stop::{Ends, Legs, decide_legs, is_near};
use apt_words::{Ask, Case, Contouring, Deed, Form, Place, Refusal, Route, Step, Symbol};
use std::alloc::AllocError;

/// How far a start may be off its track, in grid units.
const OFF_TRACK: i64 = 3;

/// Takes down what steps write.
pub(crate) trait Pen: Drop {
    /// From what was there before, it has taken down what a step writes.
    ghost takes: { Self → Self → Step → Writing → Type 0 };

    fn note(&mut self, step: &Step, note: Note) -> Result<(), AllocError>
        ensures { OnOk result (takes self.old self.new step.now (Says note)) };

    /// A position, and how the tool comes there.
    fn point(&mut self, step: &Step, reach: Reach, to: Position) -> Result<(), AllocError>
        ensures { OnOk result (takes self.old self.new step.now (Goes reach to)) };

    /// A contour, whose legs end there.
    fn contour(&mut self, step: &Step, motion: &Motion, ends: Ends) -> Result<(), AllocError>
        requires { spec.AreLegs motion.now (spec.legs_to ends.second) ends }
        ensures { OnOk result (takes self.old self.new step.now (Cuts motion.now ends)) };
}

/// Nothing is taken down, where a step must only pass.
impl Pen for () {
    ghost takes = { λ _ _ _ _. Unit {0} };

    fn note(&mut self, _: &Step, _: Note) -> Result<(), AllocError> {
        Ok(())
    }

    fn point(&mut self, _: &Step, _: Reach, _: Position) -> Result<(), AllocError> {
        Ok(())
    }

    fn contour(&mut self, _: &Step, _: &Motion, _: Ends) -> Result<(), AllocError> {
        Ok(())
    }
}

/// Does a step: the pen takes down what it writes, and then holds what holds behind it. A contour is run to its contact.
///
/// # Errors
///
/// `Refused` has the first case that refuses the step, of which then nothing is taken down.
#[inline(always)]
pub(crate) fn act<P: Pen>(pen: &mut P, here: &mut Situation, step: &Step) -> Result<(), RunError>
    requires situation { IsSituation here.old }
    requires scalars { HasScalars step.now.deed }
    requires text { DeedHasText step.now.deed }
    ensures { spec.HasActed P.takes here.old step.now pen.old pen.new (result_map_both (λ _. here.new) (λ e. e) result) }
{
    match &step.deed {
        // Long parts are made of these two.
        Deed::GotoXy(x, y, z) => {
            let route = Route::Goto(Place::Xyz(*x, *y, *z));
            goes(pen, here, step, &route)
        }
        Deed::Contour(contour, n) => cuts(pen, here, step, contour, *n),
        _ => does(pen, here, step),
    }
}

/// Does what a step asks for.
#[inline(never)]
fn does<P: Pen>(pen: &mut P, here: &mut Situation, step: &Step) -> Result<(), RunError>
    requires situation { IsSituation here.old }
    requires scalars { HasScalars step.now.deed }
    requires text { DeedHasText step.now.deed }
    ensures { spec.HasActed P.takes here.old step.now pen.old pen.new (result_map_both (λ _. here.new) (λ e. e) result) }
{
    match step.deed.ask() {
        Ask::Titles(text) => say(pen, here, step, Note::Partno(text.copied()?)),
        Ask::Says(saying) => match note_or_case(here, &saying) {
            Ok(note) => say(pen, here, step, note),
            Err(case) => Err(refusal(step, case)),
        },
        Ask::Sets(side) => {
            here.settings.side = side;
            Ok(())
        }
        Ask::Defines(name, form) => defines(pen, here, step, name, &form),
        Ask::Goes(route) => goes(pen, here, step, &route),
        Ask::Cuts(contour, n) => cuts(pen, here, step, contour, n),
        Ask::Nothing => Ok(()),
    }
}

/// A name is defined.
#[tactic(auto, using(crate::proofs::Given::form_asked))]
fn defines<P: Pen>(
    pen: &mut P,
    here: &mut Situation,
    step: &Step,
    name: Symbol,
    form: &Form,
) -> Result<(), RunError>
    requires scalars { AllScalars (form_numbers form.now) }
    requires asks { asking.Defines name form.now ≡ ask_of step.now.deed }
    ensures { spec.HasActed P.takes here.old step.now pen.old pen.new (result_map_both (λ _. here.new) (λ e. e) result) }
{
    let _ = pen;
    match define_as(name, form, here.settings.units, &mut here.table) {
        Ok(()) => Ok(()),
        Err(DefError::Case(case)) => Err(refusal(step, case)),
        Err(DefError::NoMemory) => Err(RunError::NoMemory),
    }
}

/// The tool comes to a place.
#[inline(always)]
fn goes<P: Pen>(
    pen: &mut P,
    here: &mut Situation,
    step: &Step,
    route: &Route,
) -> Result<(), RunError>
    requires situation { IsSituation here.old }
    requires scalars { AllScalars (route_numbers route.now) }
    requires asks { asking.Goes route.now ≡ ask_of step.now.deed }
    ensures { spec.HasActed P.takes here.old step.now pen.old pen.new (result_map_both (λ _. here.new) (λ e. e) result) }
{
    match move_or_case(here, route) {
        Ok((reach, to)) => {
            pen.point(step, reach, to)?;
            here.go_to(reach, to);
            Ok(())
        }
        Err(case) => Err(refusal(step, case)),
    }
}

/// A contour is cut up to the n-th meeting with its check surface, with n in millionths.
#[inline(never)]
fn cuts<P: Pen>(
    pen: &mut P,
    here: &mut Situation,
    step: &Step,
    contour: &Contouring,
    n: i64,
) -> Result<(), RunError>
    requires situation { IsSituation here.old }
    requires count { IsScalar n }
    requires asks { asking.Cuts contour.now n ≡ ask_of step.now.deed }
    ensures { spec.HasActed P.takes here.old step.now pen.old pen.new (result_map_both (λ _. here.new) (λ e. e) result) }
{
    match cut_or_case(here, contour, n) {
        Ok(cut) => run_to_contact(pen, here, step, &cut),
        Err(case) => Err(refusal(step, case)),
    }
}

fn refusal(step: &Step, case: Case) -> RunError
    ensures { result ≡ RunError.Refused (refused_at step.now case) }
{
    RunError::Refused(Refusal {
        line: step.line,
        step: step.step,
        case,
    })
}

/// A note is taken down, and holds.
#[inline(always)]
fn say<P: Pen>(pen: &mut P, here: &mut Situation, step: &Step, note: Note) -> Result<(), RunError>
    requires note { IsNote note }
    requires asks { asked (refusal_of here.old step.now.deed) (effect_of here.old step.now.deed) ≡ Ok (effects.Sets (changes.Said note)) }
    ensures { spec.HasActed P.takes here.old step.now pen.old pen.new (result_map_both (λ _. here.new) (λ e. e) result) }
{
    here.settings.set_by(&note);
    pen.note(step, note)?;
    Ok(())
}

/// A contour is run to its contact, and its records are taken down.
#[tactic(auto, using(crate::proofs::Cuts::cut_free))]
fn run_to_contact<P: Pen>(
    pen: &mut P,
    here: &mut Situation,
    step: &Step,
    cut: &Cut,
) -> Result<(), RunError>
    requires motion { IsMotion cut.now.motion }
    requires asks { refusals.IsCutOr (refusal_of here.old step.now.deed) (effect_of here.old step.now.deed) (Ok cut.now) }
    ensures { spec.HasActed P.takes here.old step.now pen.old pen.new (result_map_both (λ _. here.new) (λ e. e) result) }
{
    let motion = &cut.motion;
    match ends_of(motion, cut.legs) {
        Ok(ends) => {
            pen.contour(step, motion, ends)?;
            here.cut_to(motion, ends.last());
            Ok(())
        }
        Err(case) => Err(refusal(step, case)),
    }
}

/// Where the legs of a contour end.
///
/// # Errors
///
/// The first case that refuses it: `NoRoom`, `OffDrive`, `OnCheck`, or one that refuses its legs.
fn ends_of(m: &Motion, legs: Legs) -> Result<Ends, Case>
    requires { IsMotion m.now }
    ensures value { result ≡ unless (refusals.cut_cases m.now legs) (legging.ends_of legs (motions.course_of m.now)) }
    ensures range { IfOk result legging.AreEnds }
{
    let track = m.track();
    if lacks_room(&track) {
        return Err(Case::NoRoom);
    }
    let on = is_on_check(m.how, m.check_side);
    let stop = m.stop();
    if !on && lacks_room(&stop) {
        return Err(Case::NoRoom);
    }
    if !is_near(&track, OFF_TRACK, m.start.xy) {
        return Err(Case::OffDrive);
    }
    if on {
        return Err(Case::OnCheck);
    }
    decide_legs(&m.course(track, stop), legs)
}
