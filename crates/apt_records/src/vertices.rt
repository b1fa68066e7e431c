//! The vertices of a contour.

ghost use Rattle.std.specs.Prelude.{◌≡◌, [], ◌∷◌, ◌++◌, true, length, map, OnOk, OnErr, IfOk, IfSome, MatchOption};
ghost use Rattle.std.specs.List.{list_all};
ghost use Rattle.std.specs.Ordering.{int_eq};
ghost use Rattle.apt_records.specs.Vertices.{at_height, point_of};

use crate::Position;
use apt_plane::Pt;
use std::alloc::{AllocError, Global};
use std::marker::Model;

/// How the vertices of a contour are held: a single one, those at one height, or each with a height of its own.
#[derive(Drop)]
pub(crate) enum Held {
    One([Position; 1]),
    Level(i64, Vec<Pt>),
    Apart(Vec<Position>),
}

/// The vertices of a contour behind its start. A single one takes no memory of its own, and those at one height keep it
/// once. Clauses see their list.
#[derive(Drop)]
pub struct Vertices {
    held: Held,
}

impl Model for Vertices {
    ghost use Rattle.std.specs.Prelude.{List};
    ghost use Rattle.apt_records.specs.declared.record.Position.{Position};
    ghost use Rattle.apt_records.specs.Vertices.{listed};

    ghost Value = { List Position };

    ghost view = { λ v. listed v.held };
}

impl Vertices {
    /// A single vertex.
    pub fn one(vertex: Position) -> Vertices
        ensures { result ≡ vertex ∷ [] }
    {
        Vertices {
            held: Held::One([vertex]),
        }
    }

    /// Points at one height.
    pub fn level(z: i64, points: Vec<Pt>) -> Vertices
        ensures { result ≡ map (at_height z) points.items }
    {
        Vertices {
            held: Held::Level(z, points),
        }
    }

    /// Those of a list, which is kept where they have several heights.
    #[tactic(auto, using(crate::proofs::Heights::at_one_height))]
    pub fn of(alloc: Global, list: Vec<Position>) -> Result<Vertices, AllocError>
        ensures { IfOk result (λ vertices. vertices ≡ list.items) }
    {
        let Some(z) = common_height(&list) else {
            return Ok(Vertices {
                held: Held::Apart(list),
            });
        };
        let mut points = Vec::with_capacity(alloc, list.len())?;
        append_points(&mut points, &list)?;
        Ok(Vertices::level(z, points))
    }

    /// All of them, in order.
    #[inline(always)]
    pub fn all(&self) -> VertexSlice<'_>
        ensures { result ≡ self.now }
    {
        match &self.held {
            Held::One(vertex) => VertexSlice {
                z: 0,
                level: &[],
                apart: vertex,
            },
            Held::Level(z, points) => VertexSlice {
                z: *z,
                level: points,
                apart: &[],
            },
            Held::Apart(list) => VertexSlice {
                z: 0,
                level: &[],
                apart: list,
            },
        }
    }
}

/// Some vertices of a contour, in order. Clauses see their list.
#[derive(Drop)]
pub struct VertexSlice<'a> {
    z: i64,
    level: &'a [Pt],
    apart: &'a [Position],
}

impl<'a> Model for VertexSlice<'a> {
    ghost use Rattle.std.specs.Prelude.{List, ◌++◌, map};
    ghost use Rattle.apt_records.specs.declared.record.Position.{Position};
    ghost use Rattle.apt_records.specs.Vertices.{at_height};

    ghost Value = { List Position };

    ghost view = { λ s. map (at_height s.z) s.level.now ++ s.apart.now };
}

impl<'a> VertexSlice<'a> {
    /// No vertex.
    #[inline(always)]
    pub fn none() -> VertexSlice<'a>
        ensures { result ≡ [] }
    {
        VertexSlice {
            z: 0,
            level: &[],
            apart: &[],
        }
    }

    /// How many they are.
    #[inline(always)]
    #[tactic(auto, using(crate::proofs::Heights::both_length))]
    pub fn len(&self) -> usize
        ensures { result ≡ length self.now }
    {
        self.level.len() + self.apart.len()
    }

    /// A height and the points at it, which are the first, and the others.
    #[inline(always)]
    pub fn parts(&self) -> (i64, &'a [Pt], &'a [Position])
        ensures { self.now ≡ map (at_height result.0) result.1.now ++ result.2.now }
    {
        (self.z, self.level, self.apart)
    }

    /// The first, and those behind it; none where there is none.
    #[inline(always)]
    pub fn split_first(&self) -> Option<(Position, VertexSlice<'a>)>
        ensures { MatchOption result (self.now ≡ []) (λ r. self.now ≡ r.0 ∷ r.1) }
    {
        if let Some((p, level)) = self.level.split_first() {
            let behind = VertexSlice {
                z: self.z,
                level,
                apart: self.apart,
            };
            return Some((Position { xy: *p, z: self.z }, behind));
        }
        let (p, apart) = self.apart.split_first()?;
        let behind = VertexSlice {
            z: self.z,
            level: &[],
            apart,
        };
        Some((*p, behind))
    }

    /// Whether all are at this height.
    pub fn are_at(&self, z: i64) -> bool
        ensures { result ≡ list_all (λ p. int_eq p.z z) self.now }
    {
        (self.level.is_empty() || is_same(self.z, z)) && are_at(z, self.apart)
    }

    /// Appends their points. Where memory is lacking, nothing is appended.
    pub fn append_points(&self, points: &mut Vec<Pt>) -> Result<(), AllocError>
        ensures ok { OnOk result (points.new.items ≡ points.old.items ++ map point_of self.now) }
        ensures err { OnErr result (points.new.items ≡ points.old.items) }
    {
        let before = points.len();
        points.extend_from_slice(self.level)?;
        match append_points(points, self.apart) {
            Ok(()) => Ok(()),
            Err(error) => {
                points.truncate(before);
                Err(error)
            }
        }
    }
}

fn is_same(h: i64, z: i64) -> bool
    ensures { result ≡ int_eq h z }
{
    h == z
}

/// Whether positions are all at a height.
fn are_at(z: i64, positions: &[Position]) -> bool
    ensures { result ≡ list_all (λ p. int_eq p.z z) positions.now }
{
    for p in positions {
        if p.z != z {
            return false;
        }
    }
    true
}

/// The height of all of some positions, where they have one.
fn common_height(positions: &[Position]) -> Option<i64>
    ensures { IfSome result (λ z. list_all (λ p. int_eq p.z z) positions.now ≡ true) }
{
    let z = positions.first()?.z;
    if are_at(z, positions) { Some(z) } else { None }
}

/// Appends the points of positions.
fn append_points(points: &mut Vec<Pt>, positions: &[Position]) -> Result<(), AllocError>
    ensures ok { OnOk result (points.new.items ≡ points.old.items ++ map point_of positions.now) }
    ensures err { OnErr result (points.new.items ≡ points.old.items) }
{
    points.reserve(positions.len())?;
    'positions: for p in positions {
        points.push_reserved(p.xy);
    }
    Ok(())
}
