//! Start-ups that GO asks for.

ghost use Rattle.std.specs.Prelude.{◌≡◌, List, ℕ, Option, IfSome};
ghost use Rattle.apt_startup.specs.Ranges.{IsGoal, IsStartUp};
ghost use Rattle.apt_meaning.specs.Ranges.{IsSituation};
ghost use Rattle.apt_meaning.specs.StartUps as start_ups;

use crate::Situation;
use crate::surface::surface_in;
use apt_defs::Table;
use apt_startup::{Goal, StartUp};
use apt_words::{Stop, Symbol};

/// The start-up that GO asks for, where the tool has a position and each name stands for a surface.
#[tactic(auto, unfolding(crate::specs::StartUps::start_up_at))]
pub(crate) fn start_up_at(
    here: &Situation,
    how: Stop,
    name: &Symbol,
    other: &Option<(Stop, Symbol)>,
) -> Option<StartUp>
    requires { IsSituation here.now }
    ensures value { result ≡ start_ups.start_up_at here.now how name.now other.now }
    ensures range { IfSome result IsStartUp }
{
    let from = here.position?;
    let first = goal_in(&here.table, how, name)?;
    let second = second_in(&here.table, other)?;
    Some(StartUp {
        start: from.xy,
        first,
        second,
        radius: here.settings.radius,
    })
}

/// The surface of a name, and how the cutter stops there.
fn goal_in(table: &Table, how: Stop, name: &Symbol) -> Option<Goal>
    ensures value { result ≡ start_ups.goal_in table.now how name.now }
    ensures range { IfSome result IsGoal }
{
    let surface = surface_in(table, name)?;
    Some(Goal { how, surface })
}

/// That of the second name, where there is one.
fn second_in(table: &Table, other: &Option<(Stop, Symbol)>) -> Option<Option<Goal>>
    ensures value { result ≡ start_ups.second_in table.now other.now }
    ensures range { IfSome result (λ second. IfSome second IsGoal) }
{
    match other {
        None => Some(None),
        Some((how, name)) => {
            let goal = goal_in(table, *how, name)?;
            Some(Some(goal))
        }
    }
}
