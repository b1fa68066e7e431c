//! What only spares work: a path that lies far from each part.

ghost use Rattle.std.specs.Prelude.{◌≤◌, ◌*◌, ◌^◌, ◌∷◌, IsTrue, unsigned_abs};
ghost use Rattle.std.specs.List.{AllByRecursion};
ghost use Rattle.apt_plane.specs.Ranges.{IsPoint};
ghost use Rattle.apt_plane.specs.declared.figures.Pt.{Pt};
ghost use Rattle.apt_certify.specs.Jobs.{ArePoints};
ghost use Rattle.apt_outline.specs.Boxes.{IsIn, IsBoxOf, IsJoined};
ghost use Rattle.apt_outline.specs.Clearances.{IsPart};
ghost use Rattle.apt_outline.specs.Guards.{segment, IsClearOf, IsClearOfAll, AreParts};

use crate::boxes::are_boxes_apart;
use crate::parts::Part;
use apt_plane::Pt;

/// A box: its corner of least coordinates, and that of greatest.
#[derive(Clone, Copy)]
pub(crate) struct Bounds {
    low: Pt,
    high: Pt,
}

impl Bounds {
    /// The box of a path that begins at a point.
    pub(crate) fn of(start: Pt, rest: &[Pt]) -> Bounds
        requires start { IsPoint start }
        requires points { ArePoints rest.now }
        ensures { IsBoxOf result.low result.high (start ∷ rest.now) }
    {
        let mut bounds = Bounds {
            low: start,
            high: start,
        };
        'points: for q in rest {
            bounds = bounds.with(*q);
        }
        bounds
    }

    /// The box of the same points and one more.
    fn with(self, q: Pt) -> Bounds
        requires low { IsPoint self.low }
        requires high { IsPoint self.high }
        requires point { IsPoint q }
        ensures { IsJoined self.low self.high q result.low result.high }
    {
        Bounds {
            low: Pt {
                x: self.low.x.min(q.x),
                y: self.low.y.min(q.y),
            },
            high: Pt {
                x: self.high.x.max(q.x),
                y: self.high.y.max(q.y),
            },
        }
    }

    /// Whether it is so far from each part that no path in it comes too near.
    pub(crate) fn is_far_from(self, parts: &[Part], rho: i64) -> bool
        requires low { IsPoint self.low }
        requires high { IsPoint self.high }
        requires length { unsigned_abs rho ≤ 2 * 10 ^ 8 }
        requires parts { AreParts parts.now }
        ensures { IsTrue result → (a b : Pt) → IsIn self.low self.high a → IsIn self.low self.high b → IsClearOfAll rho parts.now (segment a b) }
    {
        'parts: for part in parts {
            if !self.is_off(part, rho) {
                return false;
            }
        }
        true
    }

    /// Whether it is so far from a part. No box is far from the inside of a bore.
    fn is_off(self, part: &Part, rho: i64) -> bool
        requires low { IsPoint self.low }
        requires high { IsPoint self.high }
        requires length { unsigned_abs rho ≤ 2 * 10 ^ 8 }
        requires part { IsPart part.now }
        ensures { IsTrue result → (a b : Pt) → IsIn self.low self.high a → IsIn self.low self.high b → IsClearOf rho (segment a b) part.now }
    {
        match part {
            Part::Edge(p, q) => are_boxes_apart(self.low, self.high, *p, *q, rho),
            Part::Boss(circle) => {
                are_boxes_apart(self.low, self.high, circle.c, circle.c, circle.r + rho)
            }
            Part::Bore(_) => false,
        }
    }
}
