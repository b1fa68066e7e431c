//! What holds before a step.

ghost use Rattle.std.specs.Prelude.{◌≡◌};
ghost use Rattle.apt_meaning.specs.Situations as situations;

use apt_defs::Table;
use apt_plane::Dir;
use apt_records::Position;
use apt_words::{Side, Units};
use std::alloc::Global;

/// What statements set: the units, the cutter's radius and the tolerances inwards and outwards in grid units,
/// the side of the cutter, the feed in tenths of a length unit per minute (0 for none), and whether RAPID is
/// pending.
#[derive(Clone, Copy)]
pub struct Settings {
    pub units: Units,
    pub radius: i64,
    pub intol: i64,
    pub outtol: i64,
    pub side: Side,
    pub feed: i64,
    pub rapid: bool,
}

impl Settings {
    /// Those with which a program begins.
    pub fn first() -> Settings
        ensures { result ≡ situations.first_settings }
    {
        Settings {
            units: Units::Inch,
            radius: 0,
            intol: 0,
            outtol: 50,
            side: Side::On,
            feed: 0,
            rapid: false,
        }
    }
}

/// What holds before a step: the settings, the position of the tool where it has one, its forward direction,
/// and the figures of names.
#[derive(Drop)]
pub struct Situation {
    pub settings: Settings,
    pub position: Option<Position>,
    pub forward: Dir,
    pub table: Table,
}

impl Situation {
    /// The one in which a program begins.
    pub fn first(alloc: Global) -> Situation
        ensures { result ≡ situations.first_situation }
    {
        Situation {
            settings: Settings::first(),
            position: None,
            forward: Dir { dx: 0, dy: 0 },
            table: Table::new(alloc),
        }
    }
}
