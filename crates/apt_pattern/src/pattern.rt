//! Patterns and their points.

ghost use Rattle.std.specs.Prelude.{◌≡◌, ◌≤◌, ◌<◌, ◌*◌, ◌^◌, ◌*ℤ◌, ◌+ℤ◌, ◌-ℤ◌, pos, unsigned_abs};
ghost use Rattle.apt_num.specs.Near.{near};
ghost use Rattle.apt_meaning.specs.Situations.{position_at};
ghost use Rattle.apt_pattern.specs.Patterns as spec;
ghost use Rattle.apt_pattern.specs.Ranges.{IsPattern};

use apt_plane::Pt;
use apt_records::Position;

/// Points evenly from one to another, so many, in grid units.
#[derive(Clone, Copy)]
pub struct Pattern {
    pub from: Position,
    pub to: Position,
    pub count: u32,
}

/// A product that fits in 64 bits.
fn times(a: i64, b: i64) -> i64
    requires left { unsigned_abs a ≤ 10 ^ 8 }
    requires right { unsigned_abs b ≤ 10 ^ 10 }
    ensures { result ≡ a *ℤ b }
{
    wide(a, b) as i64
}

fn wide(a: i64, b: i64) -> i128
    requires left { unsigned_abs a ≤ 10 ^ 8 }
    requires right { unsigned_abs b ≤ 10 ^ 10 }
    ensures value { result ≡ a *ℤ b }
    ensures small { unsigned_abs result ≤ 10 ^ 18 }
{
    i128::from(a) * i128::from(b)
}

/// The whole number nearest to a quotient, a half going away from zero.
#[tactic(auto, using(crate::proofs::Bounds::part_bound))]
fn part(n: i64, last: u32) -> i64
    requires some { 0 < last }
    requires far { unsigned_abs n ≤ 100000000 * last }
    ensures value { result ≡ near n (pos last) }
    ensures small { unsigned_abs result ≤ 100000000 }
{
    quotient_near(n, last)
}

/// In 64 bits, which a way of a pattern never passes.
fn quotient_near(n: i64, last: u32) -> i64
    requires some { 0 < last }
    requires far { unsigned_abs n ≤ 100000000 * last }
    ensures { result ≡ near n (pos last) }
{
    let bottom = u64::from(last);
    let size = ((2 * n.unsigned_abs() + bottom) / (2 * bottom)) as i64;
    if n < 0 { -size } else { size }
}

/// So many of the equal parts of a way, of which it has `last`.
#[tactic(auto, using(crate::proofs::Bounds::way_far))]
fn share(way: i64, k: u32, last: u32) -> i64
    requires way { unsigned_abs way ≤ 100000000 }
    requires some { 0 < last }
    requires least { k ≤ last }
    ensures value { result ≡ near (way *ℤ pos k) (pos last) }
    ensures small { unsigned_abs result ≤ 100000000 }
{
    part(times(way, i64::from(k)), last)
}

fn way(p: i64, q: i64) -> i64
    requires p { unsigned_abs p ≤ 50000000 }
    requires q { unsigned_abs q ≤ 50000000 }
    ensures value { result ≡ q -ℤ p }
    ensures small { unsigned_abs result ≤ 100000000 }
{
    q - p
}

fn moved(p: i64, by: i64) -> i64
    requires p { unsigned_abs p ≤ 50000000 }
    requires by { unsigned_abs by ≤ 100000000 }
    ensures value { result ≡ p +ℤ by }
    ensures small { unsigned_abs result ≤ 150000000 }
{
    p + by
}

/// A coordinate of the k-th of the points from one to another.
fn along(p: i64, q: i64, last: u32, k: u32) -> i64
    requires p { unsigned_abs p ≤ 50000000 }
    requires q { unsigned_abs q ≤ 50000000 }
    requires some { 0 < last }
    requires least { k ≤ last }
    ensures value { result ≡ spec.along p q last k }
    ensures range { unsigned_abs result ≤ 150000000 }
{
    moved(p, share(way(p, q), k, last))
}

/// The k-th point of a pattern, from 0.
pub(crate) fn point_at(pattern: &Pattern, k: u32) -> Position
    requires pattern { IsPattern pattern.now }
    requires k { k < pattern.now.count }
    ensures value { result ≡ spec.point_at pattern.now k }
    ensures x { unsigned_abs result.xy.x ≤ 150000000 }
    ensures y { unsigned_abs result.xy.y ≤ 150000000 }
    ensures z { unsigned_abs result.z ≤ 150000000 }
{
    let last = pattern.count - 1;
    let Pattern { from, to, .. } = *pattern;
    position(
        along(from.xy.x, to.xy.x, last, k),
        along(from.xy.y, to.xy.y, last, k),
        along(from.z, to.z, last, k),
    )
}

fn position(x: i64, y: i64, z: i64) -> Position
    ensures { result ≡ position_at x y z }
{
    Position { xy: Pt { x, y }, z }
}
