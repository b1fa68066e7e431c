//! The vertices of all contours, counted before an arc is divided.

ghost use Rattle.std.specs.Prelude.{◌≡◌, ◌≤◌, ◌+◌, ◌++◌, [], map, sum_by, None, IsTrue, IfOk, IfSome};
ghost use Rattle.apt_meaning.specs.Compiled.{most_points};
ghost use Rattle.apt_motion.specs.Drafts as drafts;

use crate::arcs::Round;
use crate::drafts::{Draft, MOST_POINTS, known};
use crate::filling::is_open;
use apt_arc::{bound, count};
use apt_records::Record;
use apt_words::{Case, Refusal};
use rayon::prelude::*;
use std::alloc::{AllocError, Global};
use std::collections::VecDeque;
use std::marker::Model;
use std::thread::Threads;

/// How many arcs are counted at once.
const GROUP: usize = 4096;

/// The first step with which contours have more vertices than a program may have.
pub(crate) fn past_limit(
    rt: &(impl Threads + Sync),
    alloc: Global,
    draft: &Draft,
) -> Result<Option<Refusal>, AllocError>
    requires { drafts.HasRoom draft.now.records.items draft.now.room }
    ensures { IfOk result (λ past. past ≡ drafts.past_limit draft.now.records.items draft.now.rounds.items) }
{
    if are_few(draft) {
        return Ok(None);
    }
    let mut sizes = Sizes::of(alloc, &draft.rounds);
    let mut left = MOST_POINTS;
    let mut mark = (0, 0);
    'records: for record in &draft.records {
        mark = mark_at(record, mark);
        let weight = sizes.weight(rt, alloc, record)?;
        if left < weight {
            return Ok(Some(overfull(mark)));
        }
        left -= weight;
    }
    Ok(None)
}

/// Whether there is room for all vertices, also if each arc had as many as its bound: then no arc is to be counted.
fn are_few(draft: &Draft) -> bool
    requires { drafts.HasRoom draft.now.records.items draft.now.room }
    ensures { IsTrue result → drafts.past_limit draft.now.records.items draft.now.rounds.items ≡ None }
{
    match draft.room {
        Some(room) => have_room(&draft.rounds, room),
        None => false,
    }
}

/// Whether the bounds of arcs are together at most so many.
fn have_room(rounds: &[Round], room: u64) -> bool
    ensures { IsTrue result → sum_by drafts.chords_of rounds.now ≤ room }
{
    let mut left = room;
    'rounds: for round in rounds {
        let most = bound(&round.arc);
        if left < most {
            return false;
        }
        left -= most;
    }
    true
}

/// The line and the number of the step to which a record belongs.
fn mark_at(r: &Record, mark: (u32, u32)) -> (u32, u32)
    ensures { result ≡ drafts.mark_at r.now mark }
{
    match r {
        Record::Statement { line, step } => (*line, *step),
        _ => mark,
    }
}

fn overfull(mark: (u32, u32)) -> Refusal
    ensures { result ≡ drafts.overfull mark }
{
    let (line, step) = mark;
    Refusal {
        line,
        step,
        case: Case::TooManyPoints,
    }
}

/// The numbers of the vertices of arcs, in order, of which a group is counted at a time. Clauses see those that are left.
#[derive(Drop)]
struct Sizes<'a> {
    group: VecDeque<u64>,
    rounds: &'a [Round],
}

impl<'a> Model for Sizes<'a> {
    ghost use Rattle.std.specs.Prelude.{ℕ, List, ◌++◌, map};
    ghost use Rattle.apt_motion.specs.Drafts.{chords_of};

    ghost Value = { List ℕ };

    ghost view = { λ s. s.group.items ++ map chords_of s.rounds.now };
}

impl<'a> Sizes<'a> {
    fn of(alloc: Global, rounds: &'a [Round]) -> Sizes<'a>
        ensures { result ≡ map drafts.chords_of rounds.now }
    {
        Sizes {
            group: VecDeque::new(alloc),
            rounds,
        }
    }

    /// How many vertices a record has; the number of an arc is taken where it is to be divided.
    fn weight(
        &mut self,
        rt: &(impl Threads + Sync),
        alloc: Global,
        r: &Record,
    ) -> Result<u64, AllocError>
        ensures weight { IfOk result (λ n. n ≡ drafts.weight r.now self.old) }
        ensures left { IfOk result (λ _. self.new ≡ drafts.left_behind r.now self.old) }
    {
        if is_open(r) {
            self.take(rt, alloc)
        } else {
            Ok(known(r))
        }
    }

    /// Takes the next number; 0 where none is left.
    fn take(&mut self, rt: &(impl Threads + Sync), alloc: Global) -> Result<u64, AllocError>
        ensures first { IfOk result (λ n. n ≡ drafts.first_or_none self.old) }
        ensures left { IfOk result (λ _. self.new ≡ drafts.behind_first self.old) }
    {
        if self.group.is_empty() {
            let (group, behind) = next_group(rt, alloc, self.rounds)?;
            self.group = group;
            self.rounds = behind;
        }
        Ok(self.group.pop_front().unwrap_or(0))
    }
}

/// The numbers of the next group, and the arcs behind it.
#[tactic(auto, using(crate::proofs::Divided::counted_parts, crate::proofs::Divided::none_counted))]
fn next_group<'a>(
    rt: &(impl Threads + Sync),
    alloc: Global,
    rounds: &'a [Round],
) -> Result<(VecDeque<u64>, &'a [Round]), AllocError>
    ensures parts { IfOk result (λ r. map drafts.chords_of rounds.entry.now ≡ r.0.items ++ map drafts.chords_of r.1.now) }
    ensures none { IfOk result (λ r. r.0.items ≡ [] → rounds.entry.now ≡ []) }
{
    let (group, behind) = rounds.split_at(rounds.len().min(GROUP));
    let numbers = count_each(rt, alloc, group)?;
    Ok((VecDeque::from_vec(numbers), behind))
}

/// The numbers of the vertices of arcs, counted by as many threads as there are processors.
fn count_each(
    rt: &(impl Threads + Sync),
    alloc: Global,
    rounds: &[Round],
) -> Result<Vec<u64>, AllocError>
    ensures { IfOk result (λ counts. counts.items ≡ map drafts.chords_of rounds.now) }
{
    rounds
        .par_iter()
        .map(
            |round: &Round| -> u64
                ensures { result ≡ drafts.chords_of round.now }
            { count(&round.arc) },
        )
        .collect(rt, alloc)
}
