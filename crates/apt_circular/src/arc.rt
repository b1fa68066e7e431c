//! An arc, and the words in which it is written.

ghost use Rattle.std.specs.Prelude.{◌≡◌, ◌∷◌, ◌-ℤ◌, true, if◌then◌else◌};
ghost use Rattle.apt_control.specs.Control.{or_zero};
ghost use Rattle.apt_post.specs.Blocks as blocks;
ghost use Rattle.apt_circular.specs.ArcBlocks as spec;

use apt_block::TapeWord;
use apt_control::Held;
use apt_plane::Pt;
use apt_post::{dimension, g, goes_by_ways, word};
use apt_records::Position;

/// An arc from where the tool stands: to a position, about a centre, anticlockwise (1) or clockwise (-1).
#[derive(Clone, Copy)]
pub(crate) struct Arc {
    pub(crate) turn: i8,
    pub(crate) x: i64,
    pub(crate) y: i64,
    pub(crate) z: i64,
    pub(crate) cx: i64,
    pub(crate) cy: i64,
    pub(crate) feed: i64,
}

impl Arc {
    /// G03 anticlockwise, G02 clockwise.
    fn code(self) -> u8
        ensures { result ≡ spec.arc_code self.turn }
    {
        if self.turn == 1 { 3 } else { 2 }
    }

    /// Whether it is written by ways, as a straight move to its end.
    #[tactic(auto, using(apt_post::proofs::Meaning::goes_near))]
    pub(crate) fn goes_by_ways(self, incremental: bool, held: &Held) -> bool
        ensures value { result ≡ spec.arc_ways incremental held.now self }
        ensures near_x { result ≡ true → blocks.is_near held.now.x self.x ≡ true }
        ensures near_y { result ≡ true → blocks.is_near held.now.y self.y ≡ true }
        ensures near_z { result ≡ true → blocks.is_near held.now.z self.z ≡ true }
    {
        goes_by_ways(incremental, held, self.x, self.y, self.z)
    }

    /// The numbers of its coordinates' words.
    fn numbers(self, held: &Held, ways: bool) -> Position
        requires near_x { ways ≡ true → blocks.is_near held.now.x self.x ≡ true }
        requires near_y { ways ≡ true → blocks.is_near held.now.y self.y ≡ true }
        requires near_z { ways ≡ true → blocks.is_near held.now.z self.z ≡ true }
        ensures x { result.xy.x ≡ blocks.dimension ways held.now.x self.x }
        ensures y { result.xy.y ≡ blocks.dimension ways held.now.y self.y }
        ensures z { result.z ≡ blocks.dimension ways held.now.z self.z }
    {
        let x = dimension(ways, held.x, self.x);
        let y = dimension(ways, held.y, self.y);
        let z = dimension(ways, held.z, self.z);
        Position { xy: Pt { x, y }, z }
    }

    /// The way to its centre from where the tool stands.
    fn centre_way(self, held: &Held) -> Pt
        requires way_x { blocks.IsCoordinate (self.cx -ℤ or_zero held.now.x) }
        requires way_y { blocks.IsCoordinate (self.cy -ℤ or_zero held.now.y) }
        ensures x { result.x ≡ self.cx -ℤ or_zero held.now.x }
        ensures y { result.y ≡ self.cy -ℤ or_zero held.now.y }
    {
        Pt {
            x: way(held.x, self.cx),
            y: way(held.y, self.cy),
        }
    }

    /// Its words, behind that of a mode, by ways or by new coordinates.
    pub(crate) fn words(self, held: &Held, ways: bool) -> [TapeWord; 8]
        requires near_x { ways ≡ true → blocks.is_near held.now.x self.x ≡ true }
        requires near_y { ways ≡ true → blocks.is_near held.now.y self.y ≡ true }
        requires near_z { ways ≡ true → blocks.is_near held.now.z self.z ≡ true }
        requires way_x { blocks.IsCoordinate (self.cx -ℤ or_zero held.now.x) }
        requires way_y { blocks.IsCoordinate (self.cy -ℤ or_zero held.now.y) }
        ensures { result ≡ blocks.g (if ways then 91 else 90) ∷ spec.words_behind ways held.now self }
    {
        let to = self.numbers(held, ways);
        let centre = self.centre_way(held);
        [
            mode_word(ways),
            g(i64::from(self.code())),
            word(b'X', to.xy.x),
            word(b'Y', to.xy.y),
            word(b'Z', to.z),
            word(b'I', centre.x),
            word(b'J', centre.y),
            word(b'F', self.feed),
        ]
    }

    /// What holds behind it.
    pub(crate) fn behind(self, held: &Held, ways: bool) -> Held
        ensures { result ≡ spec.held_behind ways held.now self }
    {
        Held {
            motion: Some(self.code()),
            units: held.units,
            incremental: ways,
            feed: Some(self.feed),
            x: Some(self.x),
            y: Some(self.y),
            z: Some(self.z),
        }
    }
}

/// The word that says whether ways are given, or new coordinates.
fn mode_word(ways: bool) -> TapeWord
    ensures { result ≡ blocks.g (if ways then 91 else 90) }
{
    g(if ways { 91 } else { 90 })
}

/// The way from a coordinate that holds.
fn way(held: Option<i64>, to: i64) -> i64
    requires { blocks.IsCoordinate (to -ℤ or_zero held) }
    ensures { result ≡ to -ℤ or_zero held }
{
    to - held.unwrap_or(0)
}
