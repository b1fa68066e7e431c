//! The writer of blocks with holes, one after the other.

ghost use Rattle.std.specs.Prelude.{◌≡◌, ◌+◌, ◌<◌, ◌≤◌, ◌++◌, ◌∷◌, [], Bool, IsSome, drop, take, length, map};
ghost use Rattle.arrayvec.specs.ArrayVec.{array_vec_len};
ghost use Rattle.apt_block.specs.Block.{IsBlock, spelling};
ghost use Rattle.apt_tapecode.specs.Tapecode.{byte_of};
ghost use Rattle.apt_post.specs.Blocks as blocks;
ghost use Rattle.apt_post.specs.Posting.{next_number, behind_told};
ghost use Rattle.apt_circular.specs.ArcTape.{CanActs};
ghost use Rattle.apt_cycle.specs.CycleTape as spec;
ghost use Rattle.apt_cycle.specs.CycleBlocks.{motion_behind};
ghost use Rattle.apt_cycle.specs.Holes as holes;
ghost use Rattle.apt_cycle.specs.Writable.{AreTaken, IsReadAs};

use crate::hole::{Hole, front_hole, under_g90};
use crate::reading::drills;
use apt_circular::{ArcAct, ArcPoster};
use apt_control::Held;
use apt_machine::Machine;
use apt_post::{Piece, g};
use arrayvec::ArrayVec;
use std::marker::Model;

/// Writes the blocks of acts on a machine with drill cycles: one for each hole, one behind the last hole of a run, and
/// one for each other act. Clauses see where it stands.
#[derive(Drop)]
pub struct CyclePoster {
    poster: ArcPoster,
}

impl Model for CyclePoster {
    ghost use Rattle.apt_post.specs.Posting.{Posting};

    ghost Value = { Posting };

    ghost view = { λ p. p.poster };
}

impl CyclePoster {
    /// The writer of a machine's tape before its first block.
    pub fn new(m: &Machine) -> CyclePoster
        ensures { result ≡ spec.at_start m.now }
    {
        CyclePoster {
            poster: ArcPoster::new(m),
        }
    }

    /// For how many of the acts at the front the next block stands, 3 for a hole, 0 behind the last hole of a run, else
    /// 1; and its characters, with its line feed. The acts are all that are left, of which the first three decide. A
    /// control that holds what the writer holds reads the block as just these acts.
    #[tactic(auto, using(crate::proofs::BlockByBlock::next_stands))]
    pub fn text(&mut self, acts: &[ArcAct]) -> (usize, ArrayVec<u8, 128>)
        requires some { 0 < length acts.now }
        requires can { CanActs self.old.machine.incremental self.old.held acts.now }
        ensures count { result.0 ≡ (spec.next self.old acts.now).count }
        ensures block { result.1.items ≡ spelling self.old.machine.short (spec.next_block self.old acts.now) }
        ensures is { IsBlock (spec.next_block self.old acts.now) }
        ensures next { self.new ≡ spec.behind_next self.old acts.now }
        ensures read { (circles : Bool) → IsSome self.old.held.units → motion_behind self.old.held.motion ≡ self.old.held.motion → AreTaken circles acts.now → IsReadAs circles self.old.held (spec.next_block self.old acts.now) self.new.held (take result.0 acts.now) }
        ensures left { spec.text_left self.old acts.now ≡ result.1.items ++ spec.text_left self.new (drop result.0 acts.now) }
    {
        self.next_text(acts)
    }

    fn next_text(&mut self, acts: &[ArcAct]) -> (usize, ArrayVec<u8, 128>)
        requires some { 0 < length acts.now }
        requires can { CanActs self.old.machine.incremental self.old.held acts.now }
        ensures count { result.0 ≡ (spec.next self.old acts.now).count }
        ensures block { result.1.items ≡ spelling self.old.machine.short (spec.next_block self.old acts.now) }
        ensures next { self.new ≡ spec.behind_next self.old acts.now }
        ensures few { self.old.steps < 9999 }
    {
        if let Some(hole) = front_hole(acts) {
            return (3, self.hole_text(&hole));
        }
        if drills(self.poster.held().motion) {
            return (0, self.close_text());
        }
        (1, self.poster.text(&acts[0]))
    }

    /// The characters of the block of a hole.
    fn hole_text(&mut self, hole: &Hole) -> ArrayVec<u8, 128>
        ensures block { result.items ≡ spelling self.old.machine.short (next_number self.old ++ holes.hole_words self.old.held hole.now) }
        ensures next { self.new ≡ behind_told self.old (holes.behind_hole self.old.held hole.now) }
        ensures few { self.old.steps < 9999 }
    {
        let held = *self.poster.held();
        let words = hole.words();
        self.poster
            .whole(under_g90(&words, held.incremental), &hole.behind(&held))
    }

    /// The characters of the block behind the last hole of a run.
    fn close_text(&mut self) -> ArrayVec<u8, 128>
        ensures block { result.items ≡ spelling self.old.machine.short (next_number self.old ++ blocks.g 80 ∷ []) }
        ensures next { self.new ≡ behind_told self.old (spec.closed self.old.held) }
        ensures few { self.old.steps < 9999 }
    {
        let now = without_motion(self.poster.held());
        self.poster.whole(&[g(80)], &now)
    }

    /// Appends the bytes that stand before the first block: rewind stop and end of block.
    pub(crate) fn push_start(&self, text: &mut Piece)
        requires room { array_vec_len text.old + 2 ≤ 1152 }
        ensures { text.new.items ≡ text.old.items ++ spec.cycle_tape self.now.machine [] }
    {
        self.poster.push_start(text);
    }

    /// Appends the bytes of the next block, and answers for how many of the acts at the front it stands, as `text` does.
    pub(crate) fn push_next(&mut self, text: &mut Piece, acts: &[ArcAct]) -> usize
        requires some { 0 < length acts.now }
        requires can { CanActs self.old.machine.incremental self.old.held acts.now }
        requires room { array_vec_len text.old + 128 ≤ 1152 }
        ensures count { result ≡ (spec.next self.old acts.now).count }
        ensures within { result ≤ length acts.now }
        ensures block { text.new.items ≡ text.old.items ++ spec.next_bytes self.old acts.now }
        ensures next { self.new ≡ spec.behind_next self.old acts.now }
    {
        if let Some(hole) = front_hole(acts) {
            self.push_hole(text, &hole);
            return 3;
        }
        if drills(self.poster.held().motion) {
            self.push_close(text);
            return 0;
        }
        self.poster.push_bytes(text, &acts[0]);
        1
    }

    /// Appends the bytes of the block of a hole.
    fn push_hole(&mut self, text: &mut Piece, hole: &Hole)
        requires room { array_vec_len text.old + 128 ≤ 1152 }
        ensures block { text.new.items ≡ text.old.items ++ map (byte_of self.old.machine.code) (spelling self.old.machine.short (next_number self.old ++ holes.hole_words self.old.held hole.now)) }
        ensures next { self.new ≡ behind_told self.old (holes.behind_hole self.old.held hole.now) }
    {
        let held = *self.poster.held();
        let words = hole.words();
        self.poster.push_whole_bytes(
            text,
            under_g90(&words, held.incremental),
            &hole.behind(&held),
        );
    }

    /// Appends the bytes of the block behind the last hole of a run.
    fn push_close(&mut self, text: &mut Piece)
        requires room { array_vec_len text.old + 128 ≤ 1152 }
        ensures block { text.new.items ≡ text.old.items ++ map (byte_of self.old.machine.code) (spelling self.old.machine.short (next_number self.old ++ blocks.g 80 ∷ [])) }
        ensures next { self.new ≡ behind_told self.old (spec.closed self.old.held) }
    {
        let now = without_motion(self.poster.held());
        self.poster.push_whole_bytes(text, &[g(80)], &now);
    }
}

/// What holds where no motion code does any longer.
fn without_motion(held: &Held) -> Held
    ensures { result ≡ spec.closed held.now }
{
    Held {
        motion: None,
        ..*held
    }
}
