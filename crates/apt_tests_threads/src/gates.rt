//! Gates that hold or count the pieces of work of which they are told.

use apt_core::Gate;
use std::sync::atomic::{AtomicU64, Ordering};

/// For how many turns a piece of work is held at most.
const TURNS: u64 = 100_000_000;

/// Holds the first and the third piece of work, each until it is told of the other, and counts those that were held in
/// vain.
#[derive(Drop)]
pub struct Meeting {
    first: AtomicU64,
    third: AtomicU64,
    in_vain: AtomicU64,
}

impl Meeting {
    pub fn new() -> Meeting {
        Meeting {
            first: AtomicU64::new(0),
            third: AtomicU64::new(0),
            in_vain: AtomicU64::new(0),
        }
    }

    fn hold(&self, own: &AtomicU64, other: &AtomicU64) {
        own.store(1, Ordering::SeqCst);
        for _ in 0..TURNS {
            if other.load(Ordering::SeqCst) == 1 {
                return;
            }
        }
        self.in_vain.fetch_add(1, Ordering::SeqCst);
    }

    /// Whether each was told of, and how many were held in vain.
    pub fn told(&self) -> [u64; 3] {
        [
            self.first.load(Ordering::SeqCst),
            self.third.load(Ordering::SeqCst),
            self.in_vain.load(Ordering::SeqCst),
        ]
    }
}

impl Gate for Meeting {
    fn enter(&self, number: u64) {
        match number {
            1 => self.hold(&self.first, &self.third),
            3 => self.hold(&self.third, &self.first),
            _ => {}
        }
    }
}

/// Counts how often it is told of each of four pieces of work: in ones, in hundreds and so on. Any other counts in
/// hundred millions.
#[derive(Drop)]
pub struct Counts {
    told: AtomicU64,
}

impl Counts {
    pub fn new() -> Counts {
        Counts {
            told: AtomicU64::new(0),
        }
    }

    pub fn told(&self) -> u64 {
        self.told.load(Ordering::SeqCst)
    }
}

impl Gate for Counts {
    fn enter(&self, number: u64) {
        let unit = match number {
            1 => 1,
            2 => 100,
            3 => 10_000,
            4 => 1_000_000,
            _ => 100_000_000,
        };
        self.told.fetch_add(unit, Ordering::SeqCst);
    }
}
