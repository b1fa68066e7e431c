//! The acts that are left of a plan, of which the first three are seen.

ghost use Rattle.std.specs.Prelude.{◌≡◌, ◌≤◌, drop};
ghost use Rattle.arrayvec.specs.ArrayVec.{array_vec_len};
ghost use Rattle.apt_circular.specs.Plans.{left_of};
ghost use Rattle.apt_cycle.specs.Windows as windows;

use apt_circular::{ArcAct, TapePlan};
use arrayvec::ArrayVec;

/// The acts that are left: at the front those that were taken of the plan.
#[derive(Drop)]
pub(crate) struct Window<'a> {
    pub(crate) front: ArrayVec<ArcAct, 3>,
    pub(crate) plan: TapePlan<'a>,
}

impl<'a> Window<'a> {
    /// All acts of a plan, of which none is taken yet.
    pub(crate) fn of(plan: TapePlan<'a>) -> Window<'a>
        ensures { windows.acts_left result ≡ left_of plan.entry }
    {
        Window {
            front: ArrayVec::new(),
            plan,
        }
    }

    /// Takes acts of the plan until three are at the front, or no more are left.
    pub(crate) fn fill(&mut self)
        ensures same { windows.acts_left self.new ≡ windows.acts_left self.old }
        ensures full { windows.IsFilled self.new }
        ensures few { array_vec_len self.new.front ≤ 3 }
    {
        'acts: while self.front.len() < 3 {
            let Some(act) = self.plan.next() else {
                return;
            };
            self.front.push(act);
        }
    }

    /// Drops so many acts at the front.
    #[tactic(auto, using(crate::proofs::BlockByBlock::all_passed))]
    pub(crate) fn pass(&mut self, count: usize)
        requires within { count ≤ array_vec_len self.old.front }
        ensures { windows.acts_left self.new ≡ drop count (windows.acts_left self.old) }
    {
        if count == self.front.len() {
            self.front.clear();
            return;
        }
        let mut left = count;
        'passed: while left > 0 {
            self.front.remove(0);
            left -= 1;
        }
    }
}
