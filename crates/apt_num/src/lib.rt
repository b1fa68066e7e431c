//! Exact whole numbers: roots, nearest quotients, and the sign of a number against a root.
#![tactic(auto)]

ghost use Rattle.std.specs.Prelude.{◌≡◌, ◌≢◌, ◌↔◌, ◌+◌, ◌*◌, ◌^◌, ◌<◌, ◌≤◌, pos, neg_ℤ, unsigned_abs, ◌-ℤ◌};
ghost use Rattle.apt_num.specs.Near.{near, IsNear};
ghost use Rattle.apt_num.specs.Root.{IsRoot, IsNearestRoot};
ghost use Rattle.apt_num.specs.Root as roots;
ghost use Rattle.apt_num.specs.Sign.{root_sign_of, AtLeast};
ghost use Rattle.apt_num.specs.Sign as signs;

use std::num::f64_to_bits_with_nan;

/// The sign of a number.
#[derive(Clone, Copy, Debug, PartialEq, Eq)]
pub enum Sign {
    Minus,
    Zero,
    Plus,
}

/// The greatest `q` with `q * q <= n`, for every `n`.
#[tactic(auto, using(crate::proofs::RootLaws::root_laws))]
pub fn isqrt(n: u128) -> u128
    ensures root { IsRoot n result }
    ensures value { result ≡ roots.root n }
{
    u128::from(down_to_root(n, above_root(n)))
}

/// Newton's steps from a number that is not below the root, each of which is smaller and not below it either.
#[tactic(auto, using(crate::proofs::RootLaws::newton_high))]
fn down_to_root(n: u128, above: u64) -> u64
    requires { n < (above + 1) * (above + 1) }
    ensures { IsRoot n result }
{
    let mut root = above;
    'steps: while n < u128::from(root) * u128::from(root) {
        root = ((u128::from(root) + n / u128::from(root)) / 2) as u64;
    }
    root
}

/// A number that is not below the root, and near it: a step of Newton's from any number comes out there.
#[tactic(auto, using(crate::proofs::RootLaws::step_high))]
fn above_root(n: u128) -> u64
    ensures { n < (result + 1) * (result + 1) }
{
    let near = u128::from(near_root(n));
    ((near + n / near) / 2).min(u128::from(u64::MAX)) as u64
}

/// A number near the root, and at least 2: the root of the upper 52 bits as a float. It only says where Newton's
/// steps begin, and they find the root from anywhere. The `4` leaves the smallest numbers the two bits of a 2.
#[tactic(auto, using(crate::proofs::RootLaws::still_two, crate::proofs::RootLaws::zeros_most))]
fn near_root(n: u128) -> u64
    ensures { 2 ≤ result }
{
    let half = (n | 4).leading_zeros() / 2;
    let upper = ((n << (2 * half)) >> 76) as u64;
    digits_of((upper as f64).sqrt()) >> half
}

/// The binary digits of a float from its leading one on, wherever its point stands: its bits have them behind the
/// sign and the exponent, without the leading one.
fn digits_of(x: f64) -> u64
    ensures { 2 ^ 63 ≤ result }
{
    (1 << 63) | (f64_to_bits_with_nan(x) << 11)
}

/// The whole number nearest to the root of `n`, for `n` below `2^126`. There is no tie: no odd square
/// is `4 * n`.
#[tactic(auto, using(crate::proofs::RootLaws::nearest_below, crate::proofs::RootLaws::nearest_above))]
pub fn root_near(n: u128) -> u128
    requires fits { n < 2 ^ 126 }
    ensures nearest { IsNearestRoot n result }
    ensures value { result ≡ roots.root_near n }
{
    let low = isqrt(n);
    if n - low * low <= low { low } else { low + 1 }
}

/// The whole number nearest to `a / b`, a half going away from zero, for sizes of at most `10^38`.
#[tactic(auto, using(crate::proofs::Nearest::answer_near))]
pub fn div_near(a: i128, b: i128) -> i128
    requires not_zero { b ≢ pos 0 }
    requires a_fits { unsigned_abs a ≤ 10 ^ 38 }
    requires b_fits { unsigned_abs b ≤ 10 ^ 38 }
    ensures value { result ≡ near a b }
    ensures nearest { IsNear a b result }
{
    quotient_near(a, b)
}

fn quotient_near(a: i128, b: i128) -> i128
    requires not_zero { b ≢ pos 0 }
    requires a_fits { unsigned_abs a ≤ 10 ^ 38 }
    requires b_fits { unsigned_abs b ≤ 10 ^ 38 }
    ensures { result ≡ near a b }
{
    let top = a.unsigned_abs();
    let bottom = b.unsigned_abs();
    let size = ((2 * top + bottom) / (2 * bottom)) as i128;
    match (a < 0, b < 0) {
        (true, true) | (false, false) => size,
        (true, false) | (false, true) => -size,
    }
}

/// The sign of `k - h * sqrt(n)`, exactly, where the squares `k * k` and `h * h * n` are below `10^38`.
#[tactic(auto, using(crate::proofs::AtLeast::answer_at_least, crate::proofs::AtLeast::answer_at_most))]
pub fn root_sign(k: i128, h: i128, n: u128) -> Sign
    requires k_fits { unsigned_abs k * unsigned_abs k < 10 ^ 38 }
    requires h_fits { unsigned_abs h * unsigned_abs h * n < 10 ^ 38 }
    ensures value { result ≡ root_sign_of k h n }
    ensures at_least { (result ≢ Sign.Minus) ↔ AtLeast k h n }
    ensures at_most { (result ≢ Sign.Plus) ↔ AtLeast (neg_ℤ k) (neg_ℤ h) n }
{
    sign_by_squares(k, h, n)
}

#[tactic(auto, using(crate::proofs::Signs::both_negative))]
fn sign_by_squares(k: i128, h: i128, n: u128) -> Sign
    requires k_fits { unsigned_abs k * unsigned_abs k < 10 ^ 38 }
    requires h_fits { unsigned_abs h * unsigned_abs h * n < 10 ^ 38 }
    ensures { result ≡ root_sign_of k h n }
{
    if n == 0 {
        return sign_of(k);
    }
    let left = square_of(k.unsigned_abs());
    let right = square_times(h.unsigned_abs(), n);
    if k >= 0 {
        if h <= 0 {
            compare(left + right, 0)
        } else {
            compare(left, right)
        }
    } else if h >= 0 {
        compare(0, left + right)
    } else {
        compare(right, left)
    }
}

/// `k * k`; most numbers fit in 64 bits, whose product is cheap.
fn square_of(k: u128) -> u128
    requires { k * k < 10 ^ 38 }
    ensures { result ≡ k * k }
{
    if k < 1 << 64 {
        let small = k as u64;
        u128::from(small) * u128::from(small)
    } else {
        k * k
    }
}

/// `h * h * n`, likewise.
fn square_times(h: u128, n: u128) -> u128
    requires positive { 1 ≤ n }
    requires fits { h * h * n < 10 ^ 38 }
    ensures { result ≡ h * h * n }
{
    if h < 1 << 32 && n < 1 << 64 {
        let small = h as u32;
        u128::from(u64::from(small) * u64::from(small)) * u128::from(n as u64)
    } else {
        h * h * n
    }
}

/// The sign of `a - b`.
pub fn compare(a: u128, b: u128) -> Sign
    ensures { result ≡ signs.sign_of (pos a -ℤ pos b) }
{
    if a < b {
        Sign::Minus
    } else if a == b {
        Sign::Zero
    } else {
        Sign::Plus
    }
}

/// The sign of a whole number.
pub fn sign_of(k: i128) -> Sign
    ensures { result ≡ signs.sign_of k }
{
    if k < 0 {
        Sign::Minus
    } else if k == 0 {
        Sign::Zero
    } else {
        Sign::Plus
    }
}
