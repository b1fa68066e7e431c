//! What the steps of a part program mean: what a step asks for, which case refuses it, what holds behind it,
//! and which records answer steps.
#![tactic(auto)]

mod effect;
mod effects;
mod motion;
mod moves;
mod refusals;
mod settings;
mod situation;
mod start_up;
mod surface;

pub use effect::{Change, Cut, Effect};
pub use effects::{effect_of, legs_by, note_of};
pub use motion::{Motion, is_too_fine, turn_at};
pub use moves::{moved_by, position_by};
pub use refusals::{cut_or_case, move_or_case, note_or_case};
pub use situation::{Settings, Situation};
pub use surface::{place_in, position_of, surface_in, surface_of};
