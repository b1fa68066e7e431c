//! Settings that change in one place.

ghost use Rattle.std.specs.Prelude.{◌≡◌};
ghost use Rattle.apt_records.specs.Ranges.{IsNote};
ghost use Rattle.apt_meaning.specs.Ranges.{IsChange};
ghost use Rattle.apt_meaning.specs.Situations as situations;

use crate::{Change, Settings};
use apt_records::{Note, Reach};
use apt_words::Side;

impl Settings {
    /// Those behind a note: the cutter's radius is half its diameter, rounded up.
    pub fn set_by(&mut self, note: &Note)
        requires { IsNote note.now }
        ensures { self.new ≡ situations.settings_with self.old note.now }
    {
        match note {
            Note::Units(units) => self.units = *units,
            Note::Cutter(diameter) => self.radius = diameter.unsigned_abs().div_ceil(2) as i64,
            Note::Intol(intol) => self.intol = *intol,
            Note::Outtol(outtol) => self.outtol = *outtol,
            Note::Feed(feed) => self.feed = *feed,
            Note::Rapid => self.rapid = true,
            Note::Partno(_) | Note::Do(_) | Note::End | Note::Fini => {}
        }
    }

    /// What a step sets holds from now on.
    pub fn change(&mut self, change: &Change)
        requires { IsChange change.now }
        ensures { self.new ≡ situations.changed self.old change.now }
    {
        match change {
            Change::Said(note) => self.set_by(note),
            Change::Side(side) => self.side = *side,
            Change::Nothing => {}
        }
    }

    /// With the side that a word sets, where it sets one.
    pub fn with_side(self, side: Option<Side>) -> Settings
        ensures { result ≡ situations.with_side self side }
    {
        match side {
            None => self,
            Some(side) => Settings { side, ..self },
        }
    }

    /// A position is reached: a move spends a pending RAPID.
    pub fn reach(&mut self, reach: Reach)
        ensures { self.new ≡ situations.settings_behind reach self.old }
    {
        if is_move(reach) {
            self.rapid = false;
        }
    }

    /// Whether a feed is set.
    pub fn has_feed(&self) -> bool
        ensures { result ≡ situations.has_feed self.now }
    {
        self.feed > 0
    }

    /// A move needs a feed, unless RAPID is pending.
    pub fn lacks_feed(&self) -> bool
        ensures { result ≡ situations.lacks_feed self.now }
    {
        !(self.has_feed() || self.rapid)
    }
}

/// Whether a position is moved to.
fn is_move(reach: Reach) -> bool
    ensures { result ≡ situations.is_move reach }
{
    match reach {
        Reach::From => false,
        Reach::Goto | Reach::Godlta | Reach::Start => true,
    }
}
