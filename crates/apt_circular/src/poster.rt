//! The writer of blocks with arcs, one act after the other.

ghost use Rattle.std.specs.Prelude.{◌≡◌, ◌+◌, ◌<◌, ◌≤◌, ◌++◌, ◌∷◌, [], List, IsSome, drop, get_or, length, map, if◌then◌else◌};
ghost use Rattle.arrayvec.specs.ArrayVec.{array_vec_len};
ghost use Rattle.apt_block.specs.Block.{IsBlock, spelling};
ghost use Rattle.apt_tapecode.specs.Tapecode.{byte_of};
ghost use Rattle.apt_post.specs.Blocks as blocks;
ghost use Rattle.apt_post.specs.Posting.{next_number, behind_told};
ghost use Rattle.apt_circular.specs.ArcBlocks as spec;
ghost use Rattle.apt_circular.specs.ArcPosting as posting;
ghost use Rattle.apt_circular.specs.ArcPosting.{StandsFor};
ghost use Rattle.apt_circular.specs.ArcTape as tapes;
ghost use Rattle.apt_circular.specs.Writable.{CanArc};

use crate::ArcAct;
use crate::arc::Arc;
use apt_block::TapeWord;
use apt_control::Held;
use apt_machine::Machine;
use apt_post::{Piece, Poster};
use arrayvec::ArrayVec;
use std::marker::Model;

/// Writes the blocks of acts, each when its act is given, as `Poster` does those of plain acts. Clauses see where it
/// stands.
#[derive(Drop)]
pub struct ArcPoster {
    poster: Poster,
}

impl Model for ArcPoster {
    ghost use Rattle.apt_post.specs.Posting.{Posting};

    ghost Value = { Posting };

    ghost view = { λ p. p.poster };
}

impl ArcPoster {
    /// The writer of a machine's tape before its first block.
    pub fn new(m: &Machine) -> ArcPoster
        ensures { result ≡ posting.posting_behind m.now [] }
    {
        ArcPoster {
            poster: Poster::new(m),
        }
    }

    /// The characters of the next block, which is the act's, with its line feed. A control that holds what the writer
    /// holds reads it as this act.
    #[tactic(auto, using(crate::proofs::Posting::stands_next, crate::proofs::Posting::text_next))]
    pub fn text(&mut self, a: &ArcAct) -> ArrayVec<u8, 128>
        requires { tapes.CanAct self.old.held a.now }
        ensures block { result.items ≡ spelling self.old.machine.short (posting.next_block self.old a.now) }
        ensures is { IsBlock (posting.next_block self.old a.now) }
        ensures next { self.new ≡ posting.next self.old a.now }
        ensures read { IsSome self.old.held.units → tapes.IsReadAs self.old.held (posting.next_block self.old a.now) self.new.held a.now }
        ensures stands { (before : List ArcAct) → StandsFor self.old before → StandsFor self.new (before ++ a.now ∷ []) }
        ensures tape { (before : List ArcAct) → StandsFor self.old before → tapes.arc_text self.old.machine (before ++ a.now ∷ []) ≡ tapes.arc_text self.old.machine before ++ result.items }
        ensures few { self.old.steps < 9999 }
    {
        self.next_text(a)
    }

    fn next_text(&mut self, a: &ArcAct) -> ArrayVec<u8, 128>
        requires { tapes.CanAct self.old.held a.now }
        ensures block { result.items ≡ spelling self.old.machine.short (posting.next_block self.old a.now) }
        ensures next { self.new ≡ posting.next self.old a.now }
        ensures few { self.old.steps < 9999 }
    {
        match *a {
            ArcAct::Plain(act) => self.poster.text(&act),
            ArcAct::Arc {
                turn,
                x,
                y,
                z,
                cx,
                cy,
                feed,
            } => self.arc_text(Arc {
                turn,
                x,
                y,
                z,
                cx,
                cy,
                feed,
            }),
        }
    }

    /// The same of an arc.
    #[tactic(auto, using(crate::proofs::Posting::centre_near))]
    fn arc_text(&mut self, a: Arc) -> ArrayVec<u8, 128>
        requires { CanArc self.old.held a }
        ensures block { result.items ≡ spelling self.old.machine.short (posting.next_block self.old (spec.act_of a)) }
        ensures next { self.new ≡ posting.next self.old (spec.act_of a) }
        ensures few { self.old.steps < 9999 }
    {
        let held = *self.poster.held();
        let ways = a.goes_by_ways(self.poster.machine().incremental, &held);
        let words = a.words(&held, ways);
        let told = told_words(&words, held.incremental, ways);
        self.poster.told_block(told, &a.behind(&held, ways))
    }

    /// Appends the bytes that stand before the first block: rewind stop and end of block.
    pub fn push_start(&self, text: &mut Piece)
        requires room { array_vec_len text.old + 2 ≤ 1152 }
        ensures { text.new.items ≡ text.old.items ++ tapes.arc_tape self.now.machine [] }
    {
        self.poster.push_start(text);
    }

    /// Appends the bytes of the next block, which is the act's.
    pub fn push_bytes(&mut self, text: &mut Piece, act: &ArcAct)
        requires can { tapes.CanAct self.old.held act.now }
        requires room { array_vec_len text.old + 128 ≤ 1152 }
        ensures block { text.new.items ≡ text.old.items ++ posting.block_bytes self.old act.now }
        ensures next { self.new ≡ posting.next self.old act.now }
    {
        match *act {
            ArcAct::Plain(act) => self.poster.push_act_bytes(text, &act),
            ArcAct::Arc {
                turn,
                x,
                y,
                z,
                cx,
                cy,
                feed,
            } => self.push_arc(
                text,
                Arc {
                    turn,
                    x,
                    y,
                    z,
                    cx,
                    cy,
                    feed,
                },
            ),
        }
    }

    /// The characters of a block of some words, all of them, with its line feed; behind it this holds.
    pub fn whole(&mut self, words: &[TapeWord], now: &Held) -> ArrayVec<u8, 128>
        requires few { length words.now ≤ 8 }
        ensures block { result.items ≡ spelling self.old.machine.short (next_number self.old ++ words.now) }
        ensures next { self.new ≡ behind_told self.old now.now }
        ensures few { self.old.steps < 9999 }
    {
        self.poster.whole(words, now)
    }

    /// Appends the bytes of a block of some words, as `whole` makes it.
    pub fn push_whole_bytes(&mut self, text: &mut Piece, words: &[TapeWord], now: &Held)
        requires room { array_vec_len text.old + 128 ≤ 1152 }
        requires few { length words.now ≤ 8 }
        ensures block { text.new.items ≡ text.old.items ++ map (byte_of self.old.machine.code) (spelling self.old.machine.short (next_number self.old ++ words.now)) }
        ensures next { self.new ≡ behind_told self.old now.now }
    {
        self.poster.push_whole_bytes(text, words, now);
    }

    /// What holds behind the blocks before.
    pub fn held(&self) -> &Held
        ensures { result.now ≡ self.now.held }
    {
        self.poster.held()
    }

    /// The same of an arc.
    #[tactic(auto, using(crate::proofs::Posting::centre_near))]
    fn push_arc(&mut self, text: &mut Piece, a: Arc)
        requires can { CanArc self.old.held a }
        requires room { array_vec_len text.old + 128 ≤ 1152 }
        ensures block { text.new.items ≡ text.old.items ++ posting.block_bytes self.old (spec.act_of a) }
        ensures next { self.new ≡ posting.next self.old (spec.act_of a) }
    {
        let held = *self.poster.held();
        let ways = a.goes_by_ways(self.poster.machine().incremental, &held);
        let words = a.words(&held, ways);
        let told = told_words(&words, held.incremental, ways);
        self.poster
            .push_told_bytes(text, told, &a.behind(&held, ways));
    }
}

/// The words that are told, of which the first is that of a mode: it is told where the mode changes.
fn told_words(words: &[TapeWord], before: bool, ways: bool) -> &[TapeWord]
    requires some { 0 < length words.now }
    requires mode { get_or words.now 0 (blocks.g 90) ≡ blocks.g (if ways then 91 else 90) }
    ensures { result.now ≡ blocks.mode_words before ways ++ drop 1 words.now }
{
    if before == ways { &words[1..] } else { words }
}
