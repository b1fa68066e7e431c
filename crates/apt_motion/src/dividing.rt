//! The division of arcs, in several threads.

ghost use Rattle.std.specs.Prelude.{◌≡◌, ℕ, ◌<◌, length, map, slice_index_or, IfOk};
ghost use Rattle.std.specs.List.{list_all};
ghost use Rattle.apt_motion.specs.Drafts.{vertices_at};
ghost use Rattle.apt_motion.specs.Divided.{IsDivided, is_filled};

use crate::arcs::{Cut, Round};
use apt_certify::Gate;
use std::alloc::{AllocError, Global};
use std::thread;
use std::thread::Threads;

/// How many threads divide arcs at most.
const THREADS: usize = 8;

/// The vertices of arcs, in order. The gate is told of each arc, by its number from 1, before it is divided.
#[tactic(auto, using(crate::proofs::Divided::all_cut))]
pub(crate) fn cut_all<G: Gate>(
    rt: &(impl Threads + Sync),
    alloc: Global,
    rounds: &[Round],
    gate: &G,
) -> Result<Vec<Cut>, AllocError>
    ensures { IfOk result (λ cuts. cuts.items ≡ map vertices_at rounds.now) }
{
    let mut cuts = rooms_for(alloc, rounds)?;
    divide_all(rt, rounds, gate, &mut cuts);
    if are_cut(&cuts) {
        Ok(cuts)
    } else {
        Err(AllocError)
    }
}

/// Room for the vertices of each arc. It is made here, since what a thread of its own gives back may serve no other.
fn rooms_for(alloc: Global, rounds: &[Round]) -> Result<Vec<Cut>, AllocError>
    ensures { IfOk result (λ cuts. length cuts.items ≡ length rounds.now) }
{
    let mut cuts = Vec::with_capacity(alloc, rounds.len())?;
    'rounds: for round in rounds {
        cuts.push_reserved(Cut::with_room(alloc, round)?);
    }
    Ok(cuts)
}

/// Divides each arc into its own room.
fn divide_all<R: Threads + Sync, G: Gate>(rt: &R, rounds: &[Round], gate: &G, cuts: &mut [Cut])
    requires rooms { length cuts.old ≡ length rounds.now }
    ensures rooms { length cuts.new ≡ length cuts.old }
    ensures each { (i : ℕ) (d : _) (e : _) → i < length cuts.old → IsDivided (slice_index_or rounds.now i d) (slice_index_or cuts.new i e) }
{
    thread::for_each_mut(
        rt,
        cuts,
        THREADS,
        &|i, cut| {
            gate.enter(i as u64 + 1);
            cut.divide(&rounds[i])
        },
    );
}

/// Whether no room is left empty, as it is where memory was lacking.
fn are_cut(cuts: &[Cut]) -> bool
    ensures { result ≡ list_all is_filled cuts.now }
{
    for cut in cuts {
        if cut.is_empty() {
            return false;
        }
    }
    true
}
