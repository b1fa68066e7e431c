//! The records of steps, as a draft takes them down.

ghost use Rattle.std.specs.Prelude.{◌≡◌, ◌≤◌, ◌+◌, ◌++◌, [], ◌∷◌, map, vec_len, vec_capacity, OnOk};
ghost use Rattle.apt_words.specs.Rows.{NoneHolds};
ghost use Rattle.apt_plane.specs.Ranges.{IsPoint};
ghost use Rattle.apt_stop.specs.declared.legs.Legs.TheVariants as legs;
ghost use Rattle.apt_records.specs.declared.record.Record.TheVariants as lines;
ghost use Rattle.apt_meaning.specs.Motions.{onward};
ghost use Rattle.apt_meaning.specs.Cuts.{arc_of, end_point};
ghost use Rattle.apt_meaning.specs.Ranges.{IsMotion};
ghost use Rattle.apt_meaning.specs.Refusals.{cut_cases, motion_cases};
ghost use Rattle.apt_meaning.specs.Records as writing;
ghost use Rattle.apt_motion.specs.Acts.{AreLegs, contour_to, legs_to};
ghost use Rattle.apt_motion.specs.Drafts.{HasRoom, drawn, drawn_on, rounds_along, rounds_by, rounds_of};

use crate::acts::Pen;
use crate::drafts::{Draft, MOST_RECORDS, draw, room_behind};
use apt_meaning::Motion;
use apt_plane::Pt;
use apt_records::{Note, Position, Reach, Record};
use apt_stop::Ends;
use apt_words::Step;
use std::alloc::AllocError;

/// Makes room for the records of a step.
fn make_room(records: &mut Vec<Record>) -> Result<(), AllocError>
    ensures items { records.new.items ≡ records.old.items }
    ensures room { OnOk result (vec_len records.new + 5 ≤ vec_capacity records.new) }
{
    if records.capacity() - records.len() < MOST_RECORDS {
        records.reserve(MOST_RECORDS)?;
    }
    Ok(())
}

/// The records of a step begin with its line and number.
fn put(records: &mut Vec<Record>, step: &Step, line: Record)
    requires { vec_len records.old + 2 ≤ vec_capacity records.old }
    ensures items { records.new.items ≡ records.old.items ++ lines.Statement step.now.line step.now.step ∷ line ∷ [] }
    ensures len { vec_len records.new ≡ vec_len records.old + 2 }
    ensures capacity { vec_capacity records.new ≡ vec_capacity records.old }
{
    records.push_reserved(Record::Statement {
        line: step.line,
        step: step.step,
    });
    records.push_reserved(line);
}

/// The first records of a contour.
fn begin_cut(records: &mut Vec<Record>, step: &Step, motion: &Motion)
    requires room { vec_len records.old + 3 ≤ vec_capacity records.old }
    ensures items { records.new.items ≡ records.old.items ++ lines.Statement step.now.line step.now.step ∷ lines.Drive motion.now.drive motion.now.side motion.now.sense ∷ lines.Check motion.now.check motion.now.how ∷ [] }
    ensures len { vec_len records.new ≡ vec_len records.old + 3 }
    ensures capacity { vec_capacity records.new ≡ vec_capacity records.old }
{
    let drive = Record::Drive {
        surface: motion.drive,
        side: motion.side,
        sense: motion.sense,
    };
    put(records, step, drive);
    records.push_reserved(Record::Check {
        surface: motion.check,
        how: motion.how,
    });
}

/// The record of a leg that no case refuses; its arc goes behind the others.
#[inline(always)]
fn write_leg(draft: &mut Draft, motion: &Motion, end: Pt) -> Result<(), AllocError>
    requires room { vec_len draft.old.records + 1 ≤ vec_capacity draft.old.records }
    requires motion { IsMotion motion.now }
    requires none { NoneHolds (motion_cases motion.now) }
    requires end { end ≡ end_point motion.now }
    ensures records { OnOk result (draft.new.records.items ≡ draft.old.records.items ++ writing.cut_record motion.now.start.z (drawn_on motion.now) ∷ []) }
    ensures rounds { OnOk result (draft.new.rounds.items ≡ draft.old.rounds.items ++ rounds_by motion.now.start.z (arc_of motion.now)) }
    ensures len { OnOk result (vec_len draft.new.records ≡ vec_len draft.old.records + 1) }
    ensures room { OnOk result (HasRoom draft.old.records.items draft.old.room → HasRoom draft.new.records.items draft.new.room) }
    ensures capacity { OnOk result (vec_capacity draft.new.records ≡ vec_capacity draft.old.records) }
{
    let record = Record::Contour(draw(draft.alloc, &mut draft.rounds, motion, end)?);
    draft.room = room_behind(draft.room, &record);
    draft.records.push_reserved(record);
    Ok(())
}

/// The records of two legs that no case refuses.
#[inline(never)]
#[tactic(auto, using(apt_meaning::proofs::Contours::Legs::first_free))]
fn write_two(draft: &mut Draft, motion: &Motion, first: Pt, second: Pt) -> Result<(), AllocError>
    requires room { vec_len draft.old.records + 2 ≤ vec_capacity draft.old.records }
    requires motion { IsMotion motion.now }
    requires none { NoneHolds (cut_cases motion.now legs.Two) }
    requires point { IsPoint first }
    requires first { first ≡ end_point motion.now }
    requires second { second ≡ end_point (onward motion.now (end_point motion.now)) }
    ensures records { OnOk result (draft.new.records.items ≡ draft.old.records.items ++ writing.cut_record motion.now.start.z (drawn_on motion.now) ∷ writing.cut_record motion.now.start.z (drawn_on (onward motion.now (end_point motion.now))) ∷ []) }
    ensures rounds { OnOk result (draft.new.rounds.items ≡ draft.old.rounds.items ++ rounds_along motion.now.start.z (motion.now ∷ onward motion.now (end_point motion.now) ∷ [])) }
    ensures room { OnOk result (HasRoom draft.old.records.items draft.old.room → HasRoom draft.new.records.items draft.new.room) }
{
    write_leg(draft, motion, first)?;
    let next = next_leg(motion, first);
    write_leg(draft, &next, second)
}

/// The second leg of a contour.
#[tactic(auto, using(crate::proofs::Legs::next_is))]
fn next_leg(motion: &Motion, first: Pt) -> Motion
    requires motion { IsMotion motion.now }
    requires none { NoneHolds (cut_cases motion.now legs.Two) }
    requires point { IsPoint first }
    requires first { first ≡ end_point motion.now }
    ensures value { result ≡ onward motion.now (end_point motion.now) }
    ensures range { IsMotion result }
    ensures none { NoneHolds (motion_cases result) }
{
    motion.onward(first)
}

/// The records of the legs of a contour that no case refuses.
#[inline(always)]
fn write_legs(draft: &mut Draft, motion: &Motion, ends: Ends) -> Result<(), AllocError>
    requires room { vec_len draft.old.records + 2 ≤ vec_capacity draft.old.records }
    requires legs { AreLegs motion.now (legs_to ends.second) ends }
    ensures records { OnOk result (draft.new.records.items ≡ draft.old.records.items ++ map (writing.cut_record motion.now.start.z) (drawn (contour_to motion.now ends))) }
    ensures rounds { OnOk result (draft.new.rounds.items ≡ draft.old.rounds.items ++ rounds_of (contour_to motion.now ends)) }
    ensures room { OnOk result (HasRoom draft.old.records.items draft.old.room → HasRoom draft.new.records.items draft.new.room) }
{
    match ends.second {
        None => write_leg(draft, motion, ends.first),
        Some(second) => write_two(draft, motion, ends.first, second),
    }
}

impl Pen for Draft {
    ghost use Rattle.apt_motion.specs.Drafts.{IsTakenDown};

    ghost takes = { λ before now step written. IsTakenDown before.records.items now.records.items before.rounds.items now.rounds.items before.room now.room step written };

    #[inline(always)]
    fn note(&mut self, step: &Step, note: Note) -> Result<(), AllocError> {
        make_room(&mut self.records)?;
        put(&mut self.records, step, Record::Note(note));
        Ok(())
    }

    #[inline(always)]
    fn point(&mut self, step: &Step, reach: Reach, to: Position) -> Result<(), AllocError> {
        make_room(&mut self.records)?;
        put(&mut self.records, step, Record::Point(reach, to));
        Ok(())
    }

    fn contour(&mut self, step: &Step, motion: &Motion, ends: Ends) -> Result<(), AllocError> {
        make_room(&mut self.records)?;
        begin_cut(&mut self.records, step, motion);
        write_legs(self, motion, ends)?;
        Ok(())
    }
}
