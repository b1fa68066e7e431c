//! What the single words of a record say.
ghost use Rattle.std.specs.Prelude.{◌≡◌, ◌+◌, ◌≤◌, ◌<◌, ◌^◌, unsigned_abs, IfOk};
ghost use Rattle.apt_plane.specs.Ranges.{IsPoint};
ghost use Rattle.apt_cldata.specs.Fields as spec;

use apt_plane::{Circ, Dir, Pt};
use apt_words::{Cool, Side, Stop, Turn, Units};

/// The greatest number of a command.
pub(crate) const GREATEST: i64 = 2_147_483_647;

/// What keeps words from being a record.
#[derive(Clone, Copy, PartialEq, Eq)]
pub(crate) enum Misfit {
    /// There is no such class.
    Class,
    /// There is no such subtype in the class.
    Subtype,
    /// There are more or fewer words than the kind has.
    Count,
    /// The first bad word, by its index behind the subtype.
    Word(u32),
}

/// A word by its index behind the subtype, if a test of it is passed.
fn at_if<T: Copy>(test: bool, i: u32, value: T) -> Result<T, Misfit>
    ensures { result ≡ spec.at_if test i value }
{
    if test {
        Ok(value)
    } else {
        Err(Misfit::Word(i))
    }
}

fn is_from_to(least: i64, most: i64, n: i64) -> bool
    ensures { result ≡ spec.is_from_to least most n }
{
    least <= n && n <= most
}

pub(crate) fn from_to(least: i64, most: i64, i: u32, n: i64) -> Result<i64, Misfit>
    ensures { result ≡ spec.from_to least most i n }
{
    at_if(is_from_to(least, most, n), i, n)
}

/// The number of a line or a step.
pub(crate) fn count_at(i: u32, n: i64) -> Result<u32, Misfit>
    ensures { result ≡ spec.count_at i n }
{
    let n = from_to(1, GREATEST, i, n)?;
    Ok(n.unsigned_abs() as u32)
}

/// Whether a number has at most some size, by its two ends, which are constants where this is called.
#[tactic(auto, using(crate::proofs::FieldLaws::sized_by_ends))]
fn is_sized(most: u32, n: i64) -> bool
    ensures { result ≡ spec.is_sized most n }
{
    let most = i64::from(most);
    is_from_to(-most, most, n)
}

pub(crate) fn coordinate(i: u32, n: i64) -> Result<i64, Misfit>
    ensures value { result ≡ spec.coordinate i n }
    ensures near { IfOk result (λ n. unsigned_abs n ≤ 50000000) }
{
    at_if(is_sized(50_000_000, n), i, n)
}

/// The point whose first word has an index.
pub(crate) fn point_at(i: u32, x: i64, y: i64) -> Result<Pt, Misfit>
    requires { i + 1 < 2 ^ 32 }
    ensures value { result ≡ spec.point_at i x y }
    ensures near { IfOk result IsPoint }
{
    let x = coordinate(i, x)?;
    let y = coordinate(i + 1, y)?;
    Ok(Pt { x, y })
}

fn direction_part(i: u32, n: i64) -> Result<i64, Misfit>
    ensures { result ≡ spec.direction_part i n }
{
    at_if(is_sized(100_000_000, n), i, n)
}

fn is_nowhere(dx: i64, dy: i64) -> bool
    ensures { result ≡ spec.is_nowhere dx dy }
{
    dx == 0 && dy == 0
}

/// A direction; where its parts are both 0, its second word is the bad one.
pub(crate) fn dir_at(i: u32, dx: i64, dy: i64) -> Result<Dir, Misfit>
    requires { i + 1 < 2 ^ 32 }
    ensures { result ≡ spec.dir_at i dx dy }
{
    let dx = direction_part(i, dx)?;
    let dy = direction_part(i + 1, dy)?;
    at_if(!is_nowhere(dx, dy), i + 1, Dir { dx, dy })
}

/// Whether a radius keeps a circle within its limit, by one coordinate of the centre.
fn is_within_edge(c: i64, r: i64) -> bool
    requires { unsigned_abs c ≤ 50000000 }
    ensures { result ≡ spec.is_within_edge c r }
{
    c.unsigned_abs() + r.unsigned_abs() <= 49_000_000
}

/// A radius, about its centre.
fn is_radius(c: Pt, r: i64) -> bool
    requires { IsPoint c }
    ensures { result ≡ spec.is_radius c r }
{
    r >= 100 && is_within_edge(c.x, r) && is_within_edge(c.y, r)
}

pub(crate) fn circle_at(i: u32, c: Pt, r: i64) -> Result<Circ, Misfit>
    requires { IsPoint c }
    ensures { result ≡ spec.circle_at i c r }
{
    at_if(is_radius(c, r), i, Circ { c, r })
}

pub(crate) fn zero_at(i: u32, n: i64) -> Result<i64, Misfit>
    ensures { result ≡ spec.zero_at i n }
{
    at_if(n == 0, i, n)
}

fn is_text(n: i64) -> bool
    ensures { result ≡ spec.is_text n }
{
    is_from_to(32, 126, n) || n == 9
}

/// A byte of a text: a character from space to tilde, or a tab.
pub(crate) fn text_byte(i: u32, n: i64) -> Result<u8, Misfit>
    ensures { result ≡ spec.text_byte i n }
{
    if is_text(n) {
        Ok(n.unsigned_abs() as u8)
    } else {
        Err(Misfit::Word(i))
    }
}

pub(crate) fn side_at(i: u32, n: i64) -> Result<Side, Misfit>
    ensures { result ≡ spec.side_at i n }
{
    match n {
        1 => Ok(Side::Left),
        2 => Ok(Side::Right),
        3 => Ok(Side::On),
        _ => Err(Misfit::Word(i)),
    }
}

pub(crate) fn sense_at(i: u32, n: i64) -> Result<i8, Misfit>
    ensures { result ≡ spec.sense_at i n }
{
    match n {
        1 => Ok(1),
        -1 => Ok(-1),
        _ => Err(Misfit::Word(i)),
    }
}

pub(crate) fn stop_at(i: u32, n: i64) -> Result<Stop, Misfit>
    ensures { result ≡ spec.stop_at i n }
{
    match n {
        1 => Ok(Stop::To),
        2 => Ok(Stop::On),
        3 => Ok(Stop::Past),
        4 => Ok(Stop::Tanto),
        _ => Err(Misfit::Word(i)),
    }
}

pub(crate) fn cool_at(i: u32, n: i64) -> Result<Cool, Misfit>
    ensures { result ≡ spec.cool_at i n }
{
    match n {
        0 => Ok(Cool::Off),
        1 => Ok(Cool::Mist),
        2 => Ok(Cool::Flood),
        _ => Err(Misfit::Word(i)),
    }
}

pub(crate) fn units_at(i: u32, n: i64) -> Result<Units, Misfit>
    ensures { result ≡ spec.units_at i n }
{
    match n {
        1 => Ok(Units::Inch),
        2 => Ok(Units::Mm),
        _ => Err(Misfit::Word(i)),
    }
}

/// The turn that goes with a number: 0 with 0 alone, a greater one with 1 or 2.
pub(crate) fn turn_at(i: u32, speed: i64, n: i64) -> Result<Turn, Misfit>
    ensures { result ≡ spec.turn_at i speed n }
{
    if speed == 0 {
        return if n == 0 {
            Ok(Turn::Off)
        } else {
            Err(Misfit::Word(i))
        };
    }
    match n {
        1 => Ok(Turn::Cw),
        2 => Ok(Turn::Ccw),
        _ => Err(Misfit::Word(i)),
    }
}
