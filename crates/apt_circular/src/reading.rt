//! The meaning of blocks to a control that cuts arcs.

ghost use Rattle.std.specs.Prelude.{◌≡◌, ◌<◌, ◌≤◌, ◌^◌, ◌+ℤ◌, ◌++◌, ◌∷◌, [], ℕ, ◌&&◌, ◌||◌, None, is_none, unsigned_abs, map, IfSome, OnOk};
ghost use Rattle.apt_block.specs.Machine.{AreSmall};
ghost use Rattle.std.specs.Ordering.{int_eq};
ghost use Rattle.apt_control.specs.Answers.{acts_by};
ghost use Rattle.apt_control.specs.Control as control;
ghost use Rattle.apt_control.specs.Limits.{IsHeld as InRange};
ghost use Rattle.apt_control.specs.declared.held.Held.{Held};
ghost use Rattle.apt_control.specs.declared.held.Said.{Said};
ghost use Rattle.apt_circular.specs.ArcBlocks as spec;
ghost use Rattle.apt_circular.specs.Instructions.{IsInstruction, centre_by, motion_acts, block_fault};
ghost use Rattle.apt_circular.specs.declared.ArcAct.TheVariants as arcs;

use crate::ArcAct;
use crate::instruction::{CentreWay, Instruction};
use apt_block::{BlockFault, TapeCause, TapeWord};
use apt_control::{
    Act, Control, ControlError, Held, Passing, act_after, act_before, end_fault, has_code,
    is_mixed, is_move, leaves_limit, move_act, nothing_passing, take_block, unit_act,
};
use apt_plane::Pt;
use std::alloc::AllocError;
use std::marker::Model;

/// What holds from block to block, as in a control of straight moves; G02 and G03 hold like the other motion codes.
#[derive(Drop)]
pub struct ArcHeld {
    held: Held,
}

impl Model for ArcHeld {
    ghost use Rattle.apt_control.specs.declared.held.Held.{Held};

    ghost Value = { Held };

    ghost view = { λ h. h.held };
}

impl ArcHeld {
    /// What holds at the start of a tape: new coordinates are given.
    pub fn new() -> ArcHeld
        ensures value { result ≡ control.nothing_held }
        ensures held { InRange result }
    {
        ArcHeld { held: Held::new() }
    }
}

impl Control for ArcHeld {
    type Act = ArcAct;

    ghost use Rattle.apt_control.specs.Limits.{IsHeld as InRange};
    ghost use Rattle.apt_circular.specs.ArcBlocks.{arc_meaning};
    ghost use Rattle.apt_circular.specs.Settled.{settled_arcs};

    ghost means = { arc_meaning };

    ghost IsHeld = { InRange };

    fn meaning(
        &mut self,
        letters: &[u64],
        at: u64,
        words: &[TapeWord],
        acts: &mut Vec<ArcAct>,
    ) -> Result<bool, ControlError> {
        let block = taken_by(&mut self.held, words);
        if let Some(fault) = block_fault(&block, letters, at, words) {
            self.held = block.before;
            return Err(fault.into());
        }
        push_acts(acts, &block)?;
        Ok(has_code(&block.said, 2))
    }

    ghost settled = { settled_arcs };
}

/// Changes what holds to what holds behind a block, and answers what the block says. It and the calls over what it
/// answers are there for controls with meanings of blocks beside these.
#[tactic(auto, using(crate::proofs::Instructions::no_way_i, crate::proofs::Instructions::no_way_j))]
pub fn taken_by(held: &mut Held, words: &[TapeWord]) -> Instruction
    requires held { InRange held.old }
    requires small { AreSmall words.now }
    ensures said { IsInstruction held.old (control.said_of words.now) result }
    ensures held { held.new ≡ control.with_said held.old (control.said_of words.now) }
{
    let mut said = nothing_passing();
    let before = take_block(held, &mut said, words);
    let way = if said.foreign {
        way_in(words)
    } else {
        CentreWay { i: None, j: None }
    };
    Instruction {
        before,
        behind: *held,
        said,
        way,
    }
}

/// The same where a motion code held already, and the block gives none.
pub fn with_motion(b: Instruction, motion: Option<u8>) -> Instruction
    ensures { (held : Held) (more : Said) → IsInstruction held more b → IsInstruction (record held { motion = motion }) (record more { motion = None }) result }
{
    Instruction {
        before: Held { motion, ..b.before },
        behind: Held { motion, ..b.behind },
        said: b.said,
        way: b.way,
    }
}

/// The way to a centre among the words of a block, taken from the last one on.
fn way_in(words: &[TapeWord]) -> CentreWay
    requires small { AreSmall words.now }
    ensures i { result.i ≡ (control.said_of words.now).i }
    ensures j { result.j ≡ (control.said_of words.now).j }
    ensures short_i { IfSome result.i (λ v. unsigned_abs v < 10 ^ 8) }
    ensures short_j { IfSome result.j (λ v. unsigned_abs v < 10 ^ 8) }
{
    let mut way = CentreWay { i: None, j: None };
    let mut left = words.len();
    'words: while left > 0 {
        left -= 1;
        way = way_with(way, &words[left]);
    }
    way
}

/// The way with what a word in front of others says.
fn way_with(way: CentreWay, word: &TapeWord) -> CentreWay
    ensures i { (more : Said) → way.i ≡ more.i → result.i ≡ (control.with_word word.now more).i }
    ensures j { (more : Said) → way.j ≡ more.j → result.j ≡ (control.with_word word.now more).j }
    ensures short_i { unsigned_abs word.now.value < 10 ^ 8 → IfSome way.i (λ v. unsigned_abs v < 10 ^ 8) → IfSome result.i (λ v. unsigned_abs v < 10 ^ 8) }
    ensures short_j { unsigned_abs word.now.value < 10 ^ 8 → IfSome way.j (λ v. unsigned_abs v < 10 ^ 8) → IfSome result.j (λ v. unsigned_abs v < 10 ^ 8) }
{
    match word.letter {
        b'I' => CentreWay {
            i: Some(word.value),
            ..way
        },
        b'J' => CentreWay {
            j: Some(word.value),
            ..way
        },
        _ => way,
    }
}

fn turns_round(motion: Option<u8>) -> bool
    ensures { result ≡ spec.turns_round motion }
{
    match motion {
        Some(code) => code == 2 || code == 3,
        None => false,
    }
}

/// Whether a word has no meaning where a motion code holds behind its block.
fn is_foreign(motion: Option<u8>, word: &TapeWord) -> bool
    ensures { result ≡ spec.is_foreign_round motion word.now }
{
    match word.letter {
        b'G' => word.value.unsigned_abs() == 80 || word.value.unsigned_abs() == 81,
        b'R' => true,
        b'I' | b'J' => !turns_round(motion),
        _ => false,
    }
}

/// The place of the letter of the first word that is foreign.
#[tactic(auto, using(apt_control::proofs::Saying::place_next, apt_control::proofs::Saying::place_here, apt_control::proofs::Saying::place_none))]
fn first_foreign(motion: Option<u8>, letters: &[u64], words: &[TapeWord]) -> Option<u64>
    ensures { result ≡ control.place_of (spec.is_foreign_round motion) letters.now words.now }
{
    let mut at = 0;
    'words: while at < words.len() && at < letters.len() {
        if is_foreign(motion, &words[at]) {
            return Some(letters[at]);
        }
        at += 1;
    }
    None
}

/// Whether a block is an arc: it gives a coordinate or a way to a centre where G02 or G03 holds.
fn is_arc(b: &Instruction) -> bool
    ensures { (held : Held) (more : Said) → IsInstruction held more b.now → result ≡ spec.is_arc (control.with_said held more) more }
{
    turns_round(b.behind.motion) && (is_move(&b.said) || b.way.i.is_some() || b.way.j.is_some())
}

/// The centre of an arc.
fn centre(b: &Instruction) -> Pt
    ensures { result ≡ centre_by b.now.before b.now.way.i b.now.way.j }
{
    Pt {
        x: moved(b.before.x, b.way.i),
        y: moved(b.before.y, b.way.j),
    }
}

/// A coordinate and a way from it; what is left out is 0.
fn moved(held: Option<i64>, way: Option<i64>) -> i64
    requires held { IfSome held (λ v. unsigned_abs v < 10 ^ 8) }
    requires way { IfSome way (λ v. unsigned_abs v < 10 ^ 8) }
    ensures { result ≡ control.or_zero held +ℤ control.or_zero way }
{
    match (held, way) {
        (Some(held), Some(way)) => held + way,
        (Some(held), None) => held,
        (None, Some(way)) => way,
        (None, None) => 0,
    }
}

fn position(held: &Held) -> Pt
    ensures { result ≡ spec.xy_of held.now }
{
    Pt {
        x: held.x.unwrap_or(0),
        y: held.y.unwrap_or(0),
    }
}

fn is_same(p: Pt, q: Pt) -> bool
    ensures { result ≡ spec.is_same p q }
{
    p.x == q.x && p.y == q.y
}

/// Whether no centre is given, or the positions and it are not three points at one height.
#[tactic(auto, using(crate::proofs::Instructions::no_arc_is))]
fn is_no_arc(b: &Instruction) -> bool
    ensures { (held : Held) (more : Said) → IsInstruction held more b.now → result ≡ spec.is_no_arc held (control.with_said held more) more }
{
    has_no_centre(b)
        || are_less(position(&b.before), position(&b.behind), centre(b))
        || !is_level(b)
}

fn has_no_centre(b: &Instruction) -> bool
    ensures { result ≡ (is_none b.now.way.i && is_none b.now.way.j) }
{
    b.way.i.is_none() && b.way.j.is_none()
}

/// Whether two positions and a centre are less than three points.
fn are_less(old: Pt, new: Pt, about: Pt) -> bool
    ensures { result ≡ (spec.is_same old about || spec.is_same new about || spec.is_same old new) }
{
    is_same(old, about) || is_same(new, about) || is_same(old, new)
}

/// Whether a block stays at the height.
fn is_level(b: &Instruction) -> bool
    ensures { result ≡ int_eq (control.or_zero b.now.before.z) (control.or_zero b.now.behind.z) }
{
    b.before.z.unwrap_or(0) == b.behind.z.unwrap_or(0)
}

fn has_position(held: &Held) -> bool
    ensures { result ≡ control.has_position held.now }
{
    held.x.is_some() && held.y.is_some() && held.z.is_some()
}

/// The first fault at the end of a block that is an arc.
fn arc_fault(b: &Instruction) -> Option<TapeCause>
    ensures { (held : Held) (more : Said) → IsInstruction held more b.now → result ≡ spec.arc_fault held (control.with_said held more) more }
{
    if is_mixed(&b.said) {
        Some(TapeCause::BadMix)
    } else if b.behind.units.is_none() {
        Some(TapeCause::NoUnits)
    } else if !has_position(&b.before) {
        Some(TapeCause::NoPosition)
    } else if leaves_limit(&b.behind) {
        Some(TapeCause::Limit)
    } else if b.behind.feed.is_none() {
        Some(TapeCause::NoFeed)
    } else if is_no_arc(b) {
        Some(TapeCause::BadArc)
    } else {
        None
    }
}

/// The first fault at the end of a block.
pub fn round_fault(b: &Instruction) -> Option<TapeCause>
    ensures { (held : Held) (more : Said) → IsInstruction held more b.now → result ≡ spec.round_fault held (control.with_said held more) more }
{
    if is_arc(b) {
        arc_fault(b)
    } else {
        end_fault(&b.behind, &b.said)
    }
}

/// The first fault of a block: a foreign word at its letter, or else what is wrong at its end.
#[tactic(auto, using(crate::proofs::Instructions::none_foreign))]
fn block_fault(b: &Instruction, letters: &[u64], at: u64, words: &[TapeWord]) -> Option<BlockFault>
    ensures { (held : Held) → IsInstruction held (control.said_of words.now) b.now → result ≡ block_fault held letters.now at words.now }
{
    if b.said.foreign {
        if let Some(place) = first_foreign(b.behind.motion, letters, words) {
            return Some(BlockFault {
                at: place,
                cause: TapeCause::Foreign,
            });
        }
    }
    let cause = round_fault(b)?;
    Some(BlockFault { at, cause })
}

fn turn_by(motion: Option<u8>) -> i8
    ensures { result ≡ spec.turn_by motion }
{
    match motion {
        Some(3) => 1,
        _ => -1,
    }
}

/// The arc of a block.
#[tactic(auto, using(crate::proofs::Instructions::arc_is))]
fn arc_act(b: &Instruction) -> ArcAct
    ensures { (held : Held) (more : Said) → IsInstruction held more b.now → result ≡ spec.act_of (spec.arc_of held (control.with_said held more) more) }
{
    let to = position(&b.behind);
    let about = centre(b);
    ArcAct::Arc {
        turn: turn_by(b.behind.motion),
        x: to.x,
        y: to.y,
        z: b.behind.z.unwrap_or(0),
        cx: about.x,
        cy: about.y,
        feed: b.behind.feed.unwrap_or(0),
    }
}

/// Appends the acts of a block: those of a plain one, with the arc in place of a move.
pub fn push_acts(acts: &mut Vec<ArcAct>, b: &Instruction) -> Result<(), AllocError>
    ensures { (held : Held) (more : Said) → IsInstruction held more b.now → OnOk result (acts.new.items ≡ acts.old.items ++ spec.round_acts held (control.with_said held more) more) }
{
    push_plain(acts, unit_act(&b.said))?;
    push_plain(acts, act_before(&b.said))?;
    push_motion(acts, b)?;
    push_plain(acts, act_after(&b.said))?;
    Ok(())
}

fn push_motion(acts: &mut Vec<ArcAct>, b: &Instruction) -> Result<(), AllocError>
    ensures { (held : Held) (more : Said) → IsInstruction held more b.now → OnOk result (acts.new.items ≡ acts.old.items ++ motion_acts held (control.with_said held more) more) }
{
    if is_arc(b) {
        acts.push(arc_act(b))?;
        Ok(())
    } else {
        push_plain(acts, move_act(&b.behind, &b.said))
    }
}

/// Appends a plain act, or none.
pub fn push_plain(acts: &mut Vec<ArcAct>, act: Option<Act>) -> Result<(), AllocError>
    ensures { OnOk result (acts.new.items ≡ acts.old.items ++ map arcs.Plain (acts_by act)) }
{
    if let Some(act) = act {
        acts.push(ArcAct::Plain(act))?;
    }
    Ok(())
}
