//! A hole: three acts in a row, and the words in which it is written.

ghost use Rattle.std.specs.Prelude.{◌≡◌, ◌<◌, ◌++◌, ◌∷◌, [], false, drop, get_or, length};
ghost use Rattle.std.specs.Ordering.{int_eq};
ghost use Rattle.apt_block.specs.Block.{tape_word, letter_x, letter_y, letter_z, letter_r, letter_f};
ghost use Rattle.apt_post.specs.Blocks as blocks;
ghost use Rattle.apt_cycle.specs.Holes as spec;

use apt_block::TapeWord;
use apt_circular::ArcAct;
use apt_control::{Act, Held};
use apt_post::{g, word};

/// A hole: straight down from above, at a feed, and back to there. Coordinates are in grid units, the feed in tenths of
/// an inch or of a millimetre per minute.
#[derive(Clone, Copy)]
pub(crate) struct Hole {
    pub(crate) x: i64,
    pub(crate) y: i64,
    pub(crate) bottom: i64,
    pub(crate) top: i64,
    pub(crate) feed: i64,
}

impl Hole {
    /// Its words, behind G90.
    pub(crate) fn words(&self) -> [TapeWord; 7]
        ensures { result ≡ blocks.g 90 ∷ blocks.g 81 ∷ tape_word letter_x self.now.x ∷ tape_word letter_y self.now.y ∷ tape_word letter_z self.now.bottom ∷ tape_word letter_r self.now.top ∷ tape_word letter_f self.now.feed ∷ [] }
    {
        [
            g(90),
            g(81),
            word(b'X', self.x),
            word(b'Y', self.y),
            word(b'Z', self.bottom),
            word(b'R', self.top),
            word(b'F', self.feed),
        ]
    }

    /// What holds behind it.
    pub(crate) fn behind(&self, held: &Held) -> Held
        ensures { result ≡ spec.behind_hole held.now self.now }
    {
        Held {
            motion: Some(81),
            units: held.units,
            incremental: false,
            feed: Some(self.feed),
            x: Some(self.x),
            y: Some(self.y),
            z: Some(self.top),
        }
    }
}

/// The words that are told, of which the first is G90: it is told where G91 holds.
pub(crate) fn under_g90(words: &[TapeWord], incremental: bool) -> &[TapeWord]
    requires some { 0 < length words.now }
    requires mode { get_or words.now 0 (blocks.g 90) ≡ blocks.g 90 }
    ensures { result.now ≡ blocks.mode_words incremental false ++ drop 1 words.now }
{
    if incremental { words } else { &words[1..] }
}

/// The end of a rapid move: its x, y and z.
fn rapid_of(act: &ArcAct) -> Option<(i64, i64, i64)>
    ensures { result ≡ spec.rapid_of act.now }
{
    match *act {
        ArcAct::Plain(Act::Rapid { x, y, z }) => Some((x, y, z)),
        _ => None,
    }
}

/// The end of a cut with its feed.
fn cut_of(act: &ArcAct) -> Option<(i64, i64, i64, i64)>
    ensures { result ≡ spec.cut_of act.now }
{
    match *act {
        ArcAct::Plain(Act::Cut { x, y, z, feed }) => Some((x, y, z, feed)),
        _ => None,
    }
}

fn is_same(a: i64, b: i64) -> bool
    ensures { result ≡ int_eq a b }
{
    a == b
}

/// Whether one position is over another.
fn is_over(u: i64, v: i64, x: i64, y: i64) -> bool
    ensures { result ≡ spec.is_over u v x y }
{
    is_same(u, x) && is_same(v, y)
}

/// Whether a cut ends straight below the end of a rapid move.
fn is_down(down: (i64, i64, i64, i64), from: (i64, i64, i64)) -> bool
    ensures { result ≡ spec.is_down down.0 down.1 down.2 from.0 from.1 from.2 }
{
    is_over(down.0, down.1, from.0, from.1) && down.2 < from.2
}

/// Whether a rapid move ends where another did.
fn is_back(back: (i64, i64, i64), from: (i64, i64, i64)) -> bool
    ensures { result ≡ spec.is_back back.0 back.1 back.2 from.0 from.1 from.2 }
{
    is_over(back.0, back.1, from.0, from.1) && is_same(back.2, from.2)
}

/// The hole that three acts are.
fn as_hole(a: &ArcAct, b: &ArcAct, c: &ArcAct) -> Option<Hole>
    ensures { result ≡ spec.as_hole a.now b.now c.now }
{
    let from = rapid_of(a)?;
    let down = cut_of(b)?;
    let back = rapid_of(c)?;
    if is_down(down, from) && is_back(back, from) {
        Some(Hole {
            x: from.0,
            y: from.1,
            bottom: down.2,
            top: from.2,
            feed: down.3,
        })
    } else {
        None
    }
}

/// The hole at the front of acts.
pub(crate) fn front_hole(acts: &[ArcAct]) -> Option<Hole>
    ensures { result ≡ spec.front_hole acts.now }
{
    if let [a, b, c, ..] = acts {
        as_hole(a, b, c)
    } else {
        None
    }
}
