//! The acts that records ask for on a machine that cuts arcs.

ghost use Rattle.std.specs.Prelude.{◌≡◌, ◌∷◌, [], None, false, map, IfOk, IfSome, MatchOption};
ghost use Rattle.apt_records.specs.Ranges.{EndsOnce};
ghost use Rattle.apt_post.specs.Plan.{nothing_pending, plan};
ghost use Rattle.apt_post.specs.Writing.{AreWritten};
ghost use Rattle.apt_circular.specs.declared.ArcAct.TheVariants.{Plain};
ghost use Rattle.apt_circular.specs.ArcPlan as plans;
ghost use Rattle.apt_circular.specs.ArcsSaid.{arcs_of};
ghost use Rattle.apt_circular.specs.Fits.{IsFitting};
ghost use Rattle.apt_circular.specs.Straight.{HaveNoRound};

use crate::ArcAct;
use apt_control::Act;
use apt_plane::{Pt, Surface};
use apt_post::{Pending, first_act, record_pending, units_of};
use apt_records::{Position, Reach, Record, VertexSlice};
use apt_words::Units;
use std::alloc::{AllocError, Global};
use std::marker::Model;

/// The circle of a drive surface: its centre, and the sense of the motion round it.
#[derive(Clone, Copy)]
pub struct Round {
    pub centre: Pt,
    pub sense: i8,
}

/// What holds for the records to come: what is pending, whether the tape has given a position, and the circle of the
/// last drive surface.
#[derive(Clone, Copy)]
pub struct Coming {
    pub pending: Pending,
    pub moved: bool,
    pub round: Option<Round>,
}

impl Coming {
    /// What holds before the first record.
    pub(crate) fn nothing() -> Coming
        ensures { result ≡ plans.nothing_coming }
    {
        Coming {
            pending: Pending::nothing(),
            moved: false,
            round: None,
        }
    }

    /// The circle round which a contour is cut as one arc.
    pub(crate) fn turning(self) -> Option<Round>
        ensures { result ≡ plans.turning self }
    {
        if self.moved { self.round } else { None }
    }

    /// What holds behind a record.
    pub(crate) fn behind(self, r: &Record) -> Coming
        ensures { result ≡ plans.coming_behind self r.now }
    {
        let pending = record_pending(self.pending, r);
        match r {
            Record::Drive { surface, sense, .. } => Coming {
                round: round_on(surface, *sense),
                ..self
            },
            Record::Note(_) | Record::Point(Reach::From, _) => Coming { pending, ..self },
            Record::Point(Reach::Goto | Reach::Godlta | Reach::Start, _) => Coming {
                pending,
                moved: true,
                ..self
            },
            Record::Contour(_) => Coming {
                moved: true,
                ..self
            },
            _ => self,
        }
    }
}

fn round_on(surface: &Surface, sense: i8) -> Option<Round>
    ensures { result ≡ plans.round_on surface.now sense }
{
    match surface {
        Surface::Line(_) => None,
        Surface::Circ(circle) => Some(Round {
            centre: circle.c,
            sense,
        }),
    }
}

fn arc_to(p: Pending, round: Round, to: Position) -> ArcAct
    ensures { result ≡ plans.arc_to p round to }
{
    ArcAct::Arc {
        turn: round.sense,
        x: to.xy.x,
        y: to.xy.y,
        z: to.z,
        cx: round.centre.x,
        cy: round.centre.y,
        feed: p.feed,
    }
}

fn plain_cut(p: Pending, to: Position) -> ArcAct
    ensures { result ≡ plans.plain_cut p to }
{
    ArcAct::Plain(Act::Cut {
        x: to.xy.x,
        y: to.xy.y,
        z: to.z,
        feed: p.feed,
    })
}

/// The last of a vertex and those behind it.
#[tactic(auto, using(crate::proofs::LastVertex::last_apart, crate::proofs::LastVertex::last_level))]
fn last_from(to: Position, behind: VertexSlice<'_>) -> Position
    ensures { result ≡ plans.last_from to behind.entry }
{
    let (z, level, apart) = behind.parts();
    match (apart.last(), level.last()) {
        (Some(vertex), _) => *vertex,
        (None, Some(point)) => Position { xy: *point, z },
        (None, None) => to,
    }
}

/// The first act of a record, and the vertices to which it cuts then; none where it has no act.
fn first_arc<'a>(c: Coming, r: &'a Record) -> Option<(ArcAct, VertexSlice<'a>)>
    ensures { MatchOption result (plans.record_arcs c r.now ≡ []) (λ b. plans.record_arcs c r.now ≡ b.0 ∷ map (plans.plain_cut (plans.coming_behind c r.now).pending) b.1) }
{
    if let Record::Contour(vertices) = r {
        let (to, behind) = vertices.all().split_first()?;
        return match c.turning() {
            Some(round) => Some((
                arc_to(c.pending, round, last_from(to, behind)),
                VertexSlice::none(),
            )),
            None => Some((plain_cut(c.pending, to), behind)),
        };
    }
    let (act, _) = first_act(c.pending, r)?;
    Some((ArcAct::Plain(act), VertexSlice::none()))
}

/// The acts that records ask for, one after the other. Clauses see those that are left.
#[derive(Drop)]
pub struct ArcPlan<'a> {
    vertices: VertexSlice<'a>,
    units: Option<Units>,
    coming: Coming,
    records: &'a [Record],
}

impl<'a> Model for ArcPlan<'a> {
    ghost use Rattle.std.specs.Prelude.{List, ◌++◌, map};
    ghost use Rattle.apt_circular.specs.declared.ArcAct.{ArcAct};
    ghost use Rattle.apt_circular.specs.ArcPlan as plans;

    ghost Value = { List ArcAct };

    ghost view = { λ p. map (plans.plain_cut p.coming.pending) p.vertices ++ plans.plain_units p.units ++ plans.arcs_from p.coming p.records.now };
}

impl<'a> ArcPlan<'a> {
    /// The units, and the acts that records ask for: the plain plan where no drive surface is a circle.
    #[tactic(auto, using(crate::proofs::Plans::straight_plan, crate::proofs::Fitting::plan_fits, crate::proofs::ArcsSaid::arcs_said))]
    pub fn of(records: &'a [Record]) -> ArcPlan<'a>
        ensures acts { result ≡ plans.plan_arcs records.now }
        ensures said { result ≡ arcs_of records.now }
        ensures straight { HaveNoRound records.now → result ≡ map Plain (plan records.now) }
        ensures fits { EndsOnce false records.now → AreWritten nothing_pending records.now → IsFitting result }
    {
        ArcPlan {
            vertices: VertexSlice::none(),
            units: Some(units_of(records)),
            coming: Coming::nothing(),
            records,
        }
    }

    /// The next act, none at the end.
    #[inline(always)]
    pub fn next(&mut self) -> Option<ArcAct>
        ensures taken { IfSome result (λ act. self.old ≡ act ∷ self.new) }
        ensures end { result ≡ None → self.old ≡ [] }
        ensures stays { result ≡ None → self.new ≡ [] }
    {
        if let Some((to, behind)) = self.vertices.split_first() {
            self.vertices = behind;
            return Some(plain_cut(self.coming.pending, to));
        }
        if let Some(units) = self.units {
            self.units = None;
            return Some(ArcAct::Plain(Act::Units(units)));
        }
        'records: while let Some((record, behind)) = self.records.split_first() {
            let first = first_arc(self.coming, record);
            self.coming = self.coming.behind(record);
            self.records = behind;
            if let Some((act, vertices)) = first {
                self.vertices = vertices;
                return Some(act);
            }
        }
        None
    }
}

/// The units, and the acts that records ask for. Each leg round a circle is one arc, where the tape has given a
/// position before it; where no drive surface is a circle, this is the plain plan.
///
/// # Errors
///
/// Memory lacks.
#[tactic(auto, using(crate::proofs::Plans::straight_plan, crate::proofs::Fitting::plan_fits, crate::proofs::ArcsSaid::arcs_said))]
pub fn plan_arcs(alloc: Global, records: &[Record]) -> Result<Vec<ArcAct>, AllocError>
    ensures value { IfOk result (λ v. v.items ≡ plans.plan_arcs records.now) }
    ensures said { IfOk result (λ v. v.items ≡ arcs_of records.now) }
    ensures straight { HaveNoRound records.now → IfOk result (λ v. v.items ≡ map Plain (plan records.now)) }
    ensures fits { EndsOnce false records.now → AreWritten nothing_pending records.now → IfOk result (λ v. IsFitting v.items) }
{
    let mut acts = Vec::new(alloc);
    let mut left = ArcPlan::of(records);
    'acts: while let Some(act) = left.next() {
        acts.push(act)?;
    }
    Ok(acts)
}
