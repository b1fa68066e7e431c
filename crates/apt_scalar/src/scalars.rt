//! Rounding, and the operators on scalars.
ghost use Rattle.std.specs.Prelude.{◌≡◌, ◌≤◌, ◌<◌, ◌^◌, ◌*ℤ◌, ◌≢◌, pos, unsigned_abs, IfOk};
ghost use Rattle.apt_num.specs.Near.{near};
ghost use Rattle.apt_num.specs.Root as roots;
ghost use Rattle.apt_scalar.specs.Scalars as scalars;

use apt_num::{div_near, root_near};
use apt_words::{Case, Op, Units};

/// The scalar 1 in millionths.
const ONE: i64 = 1_000_000;

/// The greatest size of a scalar.
const GREATEST: u128 = 1_000_000_000_000;

/// A number as a scalar, where it is small enough.
pub(crate) fn in_range(v: i128) -> Result<i64, Case>
    ensures value { result ≡ scalars.in_range v }
    ensures scalar { IfOk result (λ s. scalars.IsScalar s) }
{
    if v.unsigned_abs() <= GREATEST {
        Ok(v as i64)
    } else {
        Err(Case::TooLarge)
    }
}

/// Two operands and the operator between them.
pub(crate) fn apply(op: Op, a: i64, b: i64) -> Result<i64, Case>
    requires left { scalars.IsScalar a }
    requires right { scalars.IsScalar b }
    ensures value { result ≡ scalars.apply op a b }
    ensures scalar { IfOk result (λ s. scalars.IsScalar s) }
{
    match op {
        Op::Add => in_range(i128::from(a + b)),
        Op::Sub => in_range(i128::from(a - b)),
        Op::Mul => product(a, b),
        Op::Div => quotient(a, b),
    }
}

fn product(a: i64, b: i64) -> Result<i64, Case>
    requires left { scalars.IsScalar a }
    requires right { scalars.IsScalar b }
    ensures value { result ≡ scalars.product a b }
    ensures scalar { IfOk result (λ s. scalars.IsScalar s) }
{
    in_range(ratio(a, b, ONE))
}

fn quotient(a: i64, b: i64) -> Result<i64, Case>
    requires left { scalars.IsScalar a }
    requires right { scalars.IsScalar b }
    ensures value { result ≡ scalars.quotient a b }
    ensures scalar { IfOk result (λ s. scalars.IsScalar s) }
{
    if b == 0 {
        return Err(Case::DivideByZero);
    }
    in_range(ratio(a, ONE, b))
}

/// The whole number nearest to `a * b / c`.
fn ratio(a: i64, b: i64, c: i64) -> i128
    requires left { scalars.IsScalar a }
    requires right { scalars.IsScalar b }
    requires below { scalars.IsScalar c }
    requires not_zero { c ≢ pos 0 }
    ensures { result ≡ near (a *ℤ b) c }
{
    div_near(times(a, b), i128::from(c))
}

fn times(a: i64, b: i64) -> i128
    requires left { scalars.IsScalar a }
    requires right { scalars.IsScalar b }
    ensures value { result ≡ (a *ℤ b) }
    ensures small { unsigned_abs result ≤ 10 ^ 24 }
{
    i128::from(a) * i128::from(b)
}

/// The square root.
pub(crate) fn square_root(v: i64) -> Result<i64, Case>
    requires { scalars.IsScalar v }
    ensures value { result ≡ scalars.square_root v }
    ensures scalar { IfOk result (λ s. scalars.IsScalar s) }
{
    if v < 0 {
        return Err(Case::NegativeRoot);
    }
    let root = short_root(u128::from(v.unsigned_abs()) * 1_000_000);
    Ok(root as i64)
}

#[tactic(auto, using(crate::proofs::Roots::root_is_scalar))]
fn short_root(n: u128) -> u64
    requires { n ≤ 10 ^ 18 }
    ensures value { result ≡ roots.root_near n }
    ensures small { result ≤ 10 ^ 12 }
{
    root_near(n) as u64
}

/// The size.
pub(crate) fn size(v: i64) -> i64
    requires { scalars.IsScalar v }
    ensures value { result ≡ scalars.size v }
    ensures scalar { scalars.IsScalar result }
{
    v.abs()
}

/// A scalar in grid units.
pub fn grid_units(units: Units, v: i64) -> i64
    requires { scalars.IsScalar v }
    ensures { result ≡ scalars.grid_units units v }
{
    match units {
        Units::Inch => short_near(v, 10),
        Units::Mm => short_near(v, 100),
    }
}

/// The whole number nearest to a part of a scalar.
#[inline(always)]
fn short_near(v: i64, part: u64) -> i64
    requires scalar { scalars.IsScalar v }
    requires some { 0 < part }
    requires few { part ≤ 100 }
    ensures { result ≡ near v (pos part) }
{
    let size = ((2 * v.unsigned_abs() + part) / (2 * part)) as i64;
    if v < 0 { -size } else { size }
}

/// A scalar in tenths.
pub fn tenths(v: i64) -> i64
    requires { scalars.IsScalar v }
    ensures { result ≡ scalars.tenths v }
{
    div_near(i128::from(v), 100_000) as i64
}

/// A scalar as a whole number.
pub fn whole(v: i64) -> i64
    requires { scalars.IsScalar v }
    ensures { result ≡ scalars.whole v }
{
    div_near(i128::from(v), i128::from(ONE)) as i64
}
