//! The acts of controls of both kinds.

ghost use Rattle.std.specs.Prelude.{◌≡◌, ◌↔◌, IfSome, IsTrue};
ghost use Rattle.apt_circular.specs.declared.ArcAct.{ArcAct};
ghost use Rattle.apt_circular.specs.declared.ArcAct.TheVariants as arcs;

use apt_circular::ArcAct;
use apt_control::Act;

/// An act of a control, whether it cuts arcs or not.
pub trait TapeAct: Copy + Drop {
    ghost arc: { Self → ArcAct };

    /// The same act of a control that cuts arcs.
    fn as_arc(self) -> ArcAct
        ensures { result ≡ arc self };

    /// The plain act, where it is known to be one.
    fn as_plain(&self) -> Option<&Act>
        ensures { IfSome result (λ act. arc self.now ≡ arcs.Plain act.now) };
}

impl TapeAct for Act {
    ghost use Rattle.apt_circular.specs.declared.ArcAct.TheVariants.{Plain};

    ghost arc = { λ act. Plain act };

    #[inline(always)]
    fn as_arc(self) -> ArcAct {
        ArcAct::Plain(self)
    }

    #[inline(always)]
    fn as_plain(&self) -> Option<&Act> {
        Some(self)
    }
}

impl TapeAct for ArcAct {
    ghost arc = { λ act. act };

    #[inline(always)]
    fn as_arc(self) -> ArcAct {
        self
    }

    #[inline(always)]
    fn as_plain(&self) -> Option<&Act> {
        match self {
            ArcAct::Plain(act) => Some(act),
            ArcAct::Arc { .. } => None,
        }
    }
}

/// Whether two acts are one.
#[inline(always)]
#[tactic(auto, using(crate::proofs::Acts::plain_same))]
pub(crate) fn is_same_act<A: TapeAct, B: TapeAct>(x: &A, y: &B) -> bool
    ensures { IsTrue result ↔ (A.arc x.now ≡ B.arc y.now) }
{
    match (x.as_plain(), y.as_plain()) {
        (Some(x), Some(y)) => is_same_plain(*x, *y),
        _ => is_same(x.as_arc(), y.as_arc()),
    }
}

#[inline(always)]
fn is_same(x: ArcAct, y: ArcAct) -> bool
    ensures { IsTrue result ↔ (x ≡ y) }
{
    match (x, y) {
        (ArcAct::Plain(a), ArcAct::Plain(b)) => is_same_plain(a, b),
        (
            ArcAct::Arc {
                turn,
                x,
                y,
                z,
                cx,
                cy,
                feed,
            },
            ArcAct::Arc {
                turn: t,
                x: u,
                y: v,
                z: w,
                cx: cu,
                cy: cv,
                feed: f,
            },
        ) => turn == t && x == u && y == v && z == w && cx == cu && cy == cv && feed == f,
        _ => false,
    }
}

#[inline(always)]
fn is_same_plain(x: Act, y: Act) -> bool
    ensures { IsTrue result ↔ (x ≡ y) }
{
    match (x, y) {
        (Act::Units(a), Act::Units(b)) => a == b,
        (Act::Rapid { x, y, z }, Act::Rapid { x: u, y: v, z: w }) => x == u && y == v && z == w,
        (
            Act::Cut { x, y, z, feed },
            Act::Cut {
                x: u,
                y: v,
                z: w,
                feed: f,
            },
        ) => x == u && y == v && z == w && feed == f,
        (Act::Do(a), Act::Do(b)) => a.is_same(b),
        (Act::End, Act::End) => true,
        _ => false,
    }
}
