//! Calls that are made to fail, by their numbers.
ghost use Rattle.std.specs.Prelude.{◌≡◌, ◌≤◌, true, false};
ghost use Rattle.apt_shelf.specs.Counters.{next};
ghost use Rattle.apt_shelf.specs.Tally.{uncalled, fails_next, counted, faults_after};

use std::marker::Model;

/// The calls of one kind: how many were made, and the numbers of those that fail, from 1.
#[derive(Drop)]
pub struct Tally {
    failing: Vec<u64>,
    made: u64,
}

impl Model for Tally {
    ghost use Rattle.apt_shelf.specs.Tally.{Tally as Tallied};

    ghost Value = { Tallied };

    ghost view = { λ t. record { failing = t.failing.items; made = t.made } };
}

impl Tally {
    pub(crate) fn new(failing: Vec<u64>) -> Tally
        ensures { result ≡ uncalled failing.items }
    {
        Tally { failing, made: 0 }
    }

    /// How many calls were made.
    pub(crate) fn made(&self) -> u64
        ensures { result ≡ self.now.made }
    {
        self.made
    }

    /// Counts a call, and a fault where the call is one that fails, and says whether it is.
    pub(crate) fn next_fails(&mut self, faults: &mut u64) -> bool
        ensures result { result ≡ fails_next self.old }
        ensures counted { self.new ≡ counted self.old }
        ensures faults { faults.new ≡ faults_after self.old faults.old }
        ensures fails { result ≡ true → faults.new ≡ next faults.old }
        ensures passes { result ≡ false → faults.new ≡ faults.old }
        ensures later { faults.old ≤ faults.new }
    {
        self.made = self.made.saturating_add(1);
        let fails = self.failing.contains(&self.made);
        if fails {
            *faults = faults.saturating_add(1);
        }
        fails
    }
}
