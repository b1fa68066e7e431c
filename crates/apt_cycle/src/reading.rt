//! The meaning of blocks to a control with drill cycles.

ghost use Rattle.std.specs.Prelude.{◌≡◌, ◌<◌, ◌^◌, ◌++◌, ◌∷◌, [], ◌||◌, true, is_some, unsigned_abs, map, IfSome, OnOk};
ghost use Rattle.apt_block.specs.Machine.{AreSmall};
ghost use Rattle.apt_control.specs.Control as control;
ghost use Rattle.apt_control.specs.Passing.{passing};
ghost use Rattle.apt_control.specs.declared.Act.TheVariants as plain_acts;
ghost use Rattle.apt_control.specs.declared.held.Said.{Said};
ghost use Rattle.apt_circular.specs.declared.ArcAct.TheVariants as arcs;
ghost use Rattle.apt_cycle.specs.Blocks.{IsCycleHeld, IsGiven, IsCycleBlock, block_fault};
ghost use Rattle.apt_circular.specs.ArcBlocks as arc_blocks;
ghost use Rattle.apt_cycle.specs.CycleBlocks as spec;

use crate::block::CycleBlock;
use crate::given::Given;
use apt_block::{BlockFault, TapeCause, TapeWord};
use apt_circular::{
    ArcAct, Instruction, push_acts, push_plain, round_fault, taken_by, with_motion,
};
use apt_control::{
    Act, Control, ControlError, Held, Passing, act_after, act_before, has_code, is_mixed, unit_act,
};
use std::alloc::AllocError;

/// What holds from block to block on a machine with drill cycles: what holds on any machine, and while G81 holds the
/// depth (its last Z) and the clearance (its last R) of holes, in grid units; and whether the machine cuts circles.
#[derive(Clone, Copy, Drop)]
pub struct CycleHeld {
    pub held: Held,
    pub depth: Option<i64>,
    pub clearance: Option<i64>,
    pub circles: bool,
}

impl CycleHeld {
    /// What holds at the start of a tape: new coordinates are given.
    pub fn new(circles: bool) -> CycleHeld
        ensures value { result ≡ spec.nothing_drilled circles }
        ensures held { IsCycleHeld result }
    {
        CycleHeld {
            held: Held::new(),
            depth: None,
            clearance: None,
            circles,
        }
    }

    /// Changes what holds to what holds behind a block.
    fn take(&mut self, words: &[TapeWord]) -> CycleBlock
        requires held { IsCycleHeld self.old }
        requires small { AreSmall words.now }
        ensures said { IsCycleBlock self.old.held self.new.held.motion (control.said_of words.now) result }
        ensures held { self.new ≡ spec.behind_block self.old (control.said_of words.now) }
        ensures short { IfSome self.new.clearance (λ v. unsigned_abs v < 10 ^ 8) }
    {
        let instruction = taken_by(&mut self.held, words);
        if drills(self.held.motion) {
            let given = Given::among(words);
            self.take_hole(&instruction, given);
            return CycleBlock { instruction, given };
        }
        self.held.motion = motion_behind(self.held.motion);
        CycleBlock {
            instruction: with_motion(instruction, self.held.motion),
            given: Given::nothing(),
        }
    }

    /// Changes what holds behind the words of a block in which G81 holds to what holds behind a hole.
    fn take_hole(&mut self, b: &Instruction, given: Given)
        requires clearance { IfSome self.old.clearance (λ v. unsigned_abs v < 10 ^ 8) }
        requires short { IfSome given.clearance (λ v. unsigned_abs v < 10 ^ 8) }
        ensures held { (h : CycleHeld) (more : Said) → self.old ≡ record h { held = control.with_said h.held more } → b.now.before ≡ h.held → b.now.said ≡ passing more → IsGiven more given → self.new ≡ spec.hole_behind h more }
        ensures short { IfSome self.new.clearance (λ v. unsigned_abs v < 10 ^ 8) }
    {
        self.depth = given.depth_behind(self.depth);
        self.clearance = given.clearance_behind(self.clearance);
        self.held.z = if is_hole(&b.said) {
            self.clearance
        } else {
            b.before.z
        };
    }
}

impl Control for CycleHeld {
    type Act = ArcAct;

    ghost use Rattle.apt_cycle.specs.Blocks.{IsCycleHeld};
    ghost use Rattle.apt_cycle.specs.CycleBlocks.{cycle_meaning};
    ghost use Rattle.apt_cycle.specs.Settled.{settled_cycles};

    ghost means = { cycle_meaning };

    ghost IsHeld = { IsCycleHeld };

    fn meaning(
        &mut self,
        letters: &[u64],
        at: u64,
        words: &[TapeWord],
        acts: &mut Vec<ArcAct>,
    ) -> Result<bool, ControlError> {
        let before = *self;
        let block = self.take(words);
        if let Some(fault) = block_fault(self, &block, letters, at, words) {
            *self = before;
            return Err(fault.into());
        }
        push_block(acts, self, &block)?;
        Ok(has_code(&block.instruction.said, 2))
    }

    ghost settled = { settled_cycles };
}

/// Whether the motion code is G81.
pub(crate) fn drills(motion: Option<u8>) -> bool
    ensures { result ≡ spec.drills motion }
{
    match motion {
        Some(code) => code == 81,
        None => false,
    }
}

/// The motion code behind a block: G80 leaves none.
fn motion_behind(motion: Option<u8>) -> Option<u8>
    ensures { result ≡ spec.motion_behind motion }
{
    match motion {
        Some(80) => None,
        _ => motion,
    }
}

fn turns_round(motion: Option<u8>) -> bool
    ensures { result ≡ arc_blocks.turns_round motion }
{
    match motion {
        Some(code) => code == 2 || code == 3,
        None => false,
    }
}

/// Whether a word has no meaning where a motion code holds behind its block.
fn is_foreign(circles: bool, motion: Option<u8>, word: &TapeWord) -> bool
    ensures { result ≡ spec.is_foreign circles motion word.now }
{
    match word.letter {
        b'G' => (word.value.unsigned_abs() == 2 || word.value.unsigned_abs() == 3) && !circles,
        b'I' | b'J' => !(circles && turns_round(motion)),
        b'R' => !drills(motion),
        _ => false,
    }
}

/// The place of the letter of the first word that is foreign.
#[tactic(auto, using(apt_control::proofs::Saying::place_next, apt_control::proofs::Saying::place_here, apt_control::proofs::Saying::place_none))]
fn first_foreign(
    circles: bool,
    motion: Option<u8>,
    letters: &[u64],
    words: &[TapeWord],
) -> Option<u64>
    ensures { result ≡ control.place_of (spec.is_foreign circles motion) letters.now words.now }
{
    let mut at = 0;
    'words: while at < words.len() && at < letters.len() {
        if is_foreign(circles, motion, &words[at]) {
            return Some(letters[at]);
        }
        at += 1;
    }
    None
}

/// Whether a block in which G81 holds is a hole.
fn is_hole(said: &Passing) -> bool
    ensures { (more : Said) → said.now ≡ passing more → result ≡ spec.is_hole more }
{
    said.x || said.y
}

fn is_far(value: Option<i64>) -> bool
    ensures { result ≡ control.is_far value }
{
    match value {
        Some(v) => v.unsigned_abs() > 50_000_000,
        None => false,
    }
}

/// Whether the bottom of a hole is below where it begins.
fn is_below(z: Option<i64>, r: Option<i64>) -> bool
    ensures { result ≡ spec.is_below z r }
{
    match (z, r) {
        (Some(z), Some(r)) => z < r,
        _ => false,
    }
}

/// What is missing for a hole.
fn hole_missing(now: &CycleHeld) -> Option<TapeCause>
    ensures { result ≡ spec.hole_missing now.now }
{
    if now.held.units.is_none() {
        Some(TapeCause::NoUnits)
    } else if now.held.x.is_none() || now.held.y.is_none() {
        Some(TapeCause::NoPosition)
    } else if is_far(now.held.x) || is_far(now.held.y) {
        Some(TapeCause::Limit)
    } else if now.held.incremental || !is_below(now.depth, now.clearance) {
        Some(TapeCause::BadCycle)
    } else if now.held.feed.is_none() {
        Some(TapeCause::NoFeed)
    } else {
        None
    }
}

/// The first fault at the end of a block in which G81 holds.
fn hole_fault(now: &CycleHeld, b: &CycleBlock) -> Option<TapeCause>
    ensures { (more : Said) → b.now.instruction.said ≡ passing more → IsGiven more b.now.given → result ≡ spec.hole_fault now.now more }
{
    if is_mixed(&b.instruction.said) {
        Some(TapeCause::BadMix)
    } else if is_hole(&b.instruction.said) {
        hole_missing(now)
    } else if b.given.depth.is_some() || b.given.clearance.is_some() {
        Some(TapeCause::BadCycle)
    } else {
        None
    }
}

/// The first fault at the end of a block.
fn end_fault(now: &CycleHeld, b: &CycleBlock) -> Option<TapeCause>
    ensures { (h : CycleHeld) (more : Said) → now.now ≡ spec.behind_block h more → IsCycleBlock h.held now.now.held.motion more b.now → result ≡ spec.cycle_fault h now.now more }
{
    if drills(now.held.motion) {
        hole_fault(now, b)
    } else {
        round_fault(&b.instruction)
    }
}

/// The first fault of a block: a foreign word at its letter, or else what is wrong at its end.
#[tactic(auto, using(crate::proofs::Saying::none_foreign))]
fn block_fault(
    now: &CycleHeld,
    b: &CycleBlock,
    letters: &[u64],
    at: u64,
    words: &[TapeWord],
) -> Option<BlockFault>
    ensures { (h : CycleHeld) → now.now ≡ spec.behind_block h (control.said_of words.now) → IsCycleBlock h.held now.now.held.motion (control.said_of words.now) b.now → result ≡ block_fault h now.now letters.now at words.now }
{
    if b.instruction.said.foreign {
        if let Some(place) = first_foreign(now.circles, now.held.motion, letters, words) {
            return Some(BlockFault {
                at: place,
                cause: TapeCause::Foreign,
            });
        }
    }
    let cause = end_fault(now, b)?;
    Some(BlockFault { at, cause })
}

/// Appends the acts of a block.
fn push_block(acts: &mut Vec<ArcAct>, now: &CycleHeld, b: &CycleBlock) -> Result<(), AllocError>
    ensures { (h : CycleHeld) (more : Said) → now.now ≡ spec.behind_block h more → IsCycleBlock h.held now.now.held.motion more b.now → OnOk result (acts.new.items ≡ acts.old.items ++ spec.cycle_acts h now.now more) }
{
    if drills(now.held.motion) {
        push_hole(acts, now, &b.instruction.said)
    } else {
        push_acts(acts, &b.instruction)
    }
}

/// Appends the acts of a block in which G81 holds.
fn push_hole(acts: &mut Vec<ArcAct>, now: &CycleHeld, said: &Passing) -> Result<(), AllocError>
    ensures { (more : Said) → said.now ≡ passing more → OnOk result (acts.new.items ≡ acts.old.items ++ spec.hole_acts now.now more) }
{
    push_plain(acts, unit_act(said))?;
    push_plain(acts, act_before(said))?;
    push_moves(acts, now, said)?;
    push_plain(acts, act_after(said))?;
    Ok(())
}

/// Appends the moves of a block in which G81 holds.
fn push_moves(acts: &mut Vec<ArcAct>, now: &CycleHeld, said: &Passing) -> Result<(), AllocError>
    ensures { (more : Said) → said.now ≡ passing more → OnOk result (acts.new.items ≡ acts.old.items ++ map arcs.Plain (spec.moves_of now.now more)) }
{
    if is_hole(said) {
        push_three(acts, now)
    } else {
        Ok(())
    }
}

/// Appends the moves of a hole.
#[tactic(auto, using(crate::proofs::Saying::three_behind))]
fn push_three(acts: &mut Vec<ArcAct>, now: &CycleHeld) -> Result<(), AllocError>
    ensures { OnOk result (acts.new.items ≡ acts.old.items ++ map arcs.Plain (spec.hole_moves (control.or_zero now.now.held.x) (control.or_zero now.now.held.y) now.now)) }
{
    acts.push(above(now))?;
    acts.push(down(now))?;
    acts.push(above(now))?;
    Ok(())
}

/// The rapid move to where a hole begins.
fn above(now: &CycleHeld) -> ArcAct
    ensures { result ≡ arcs.Plain (plain_acts.Rapid (control.or_zero now.now.held.x) (control.or_zero now.now.held.y) (control.or_zero now.now.clearance)) }
{
    ArcAct::Plain(Act::Rapid {
        x: now.held.x.unwrap_or(0),
        y: now.held.y.unwrap_or(0),
        z: now.clearance.unwrap_or(0),
    })
}

/// The cut to its bottom.
fn down(now: &CycleHeld) -> ArcAct
    ensures { result ≡ arcs.Plain (plain_acts.Cut (control.or_zero now.now.held.x) (control.or_zero now.now.held.y) (control.or_zero now.now.depth) (control.or_zero now.now.held.feed)) }
{
    ArcAct::Plain(Act::Cut {
        x: now.held.x.unwrap_or(0),
        y: now.held.y.unwrap_or(0),
        z: now.depth.unwrap_or(0),
        feed: now.held.feed.unwrap_or(0),
    })
}
