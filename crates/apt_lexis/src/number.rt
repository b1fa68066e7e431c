//! Numbers.

ghost use Rattle.std.specs.Prelude.{◌≡◌, ◌≢◌, ℕ, List, ◌∷◌, ◌+◌, ◌-◌, ◌*◌, ◌^◌, ◌<◌, ◌≤◌, Some, None, IfSome, IsNone};
ghost use Rattle.std.specs.List.{take_while, prefix_len};
ghost use Rattle.apt_words.specs.Symbols.{is_digit};
ghost use Rattle.apt_lexis.specs.Lines as lines;
ghost use Rattle.apt_lexis.specs.Titles.{behind};
ghost use Rattle.apt_lexis.specs.Tokens as spec;

use crate::character::is_in_run;

/// The greatest number of digits on a side of the point.
const MOST_DIGITS: usize = 12;

/// What a unit counts in the twelfth place.
const UNIT: u64 = 1_000_000_000_000;

/// No number is greater in front of its point.
const MOST_FRONT: u64 = 1_000_000;

/// The greatest number, 1000000, in the twelfth place.
const MOST: u64 = 1_000_000_000_000_000_000;

/// The digits at the front of a text: their number, how many they are, and what stands behind them; none where they are more than 12.
#[inline(always)]
fn split_digits(text: &[u8]) -> Option<(u64, usize, &[u8])>
    ensures none { IsNone result → 12 < prefix_len is_digit text.now }
    ensures count { IfSome result (λ r. r.1 ≡ prefix_len is_digit text.now) }
    ensures number { IfSome result (λ r. r.0 ≡ spec.number_of 0 (take_while is_digit text.now)) }
    ensures few { IfSome result (λ r. r.1 ≤ 12) }
    ensures small { IfSome result (λ r. r.0 < 10 ^ r.1) }
    ensures rest { IfSome result (λ r. r.2.now ≡ behind is_digit text.now) }
{
    let mut number = 0;
    let mut count = 0;
    let mut rest = text;
    'digits: while let Some((b, after)) = rest.split_first() {
        if !b.is_ascii_digit() {
            return Some((number, count, rest));
        }
        if count == MOST_DIGITS {
            return None;
        }
        number = 10 * number + u64::from(*b - b'0');
        count += 1;
        rest = after;
    }
    Some((number, count, rest))
}

/// A power of ten, at most the twelfth.
fn power(places: usize) -> u64
    requires { places ≤ 12 }
    ensures { result ≡ 10 ^ places }
{
    match places {
        0 => 1,
        1 => 10,
        2 => 100,
        3 => 1_000,
        4 => 10_000,
        5 => 100_000,
        6 => 1_000_000,
        7 => 10_000_000,
        8 => 100_000_000,
        9 => 1_000_000_000,
        10 => 10_000_000_000,
        11 => 100_000_000_000,
        _ => 1_000_000_000_000,
    }
}

fn begins_in_run(text: &[u8]) -> bool
    ensures { result ≡ spec.begins_in_run text.now }
{
    match text.split_first() {
        Some((b, _)) => is_in_run(*b),
        None => false,
    }
}

/// What stands behind a point at the front of a text.
fn after_point(text: &[u8]) -> Option<&[u8]>
    ensures some { IfSome result (λ back. text.now ≡ spec.point ∷ back.now) }
    ensures none { IsNone result → (back : List ℕ) → text.now ≢ spec.point ∷ back }
{
    match text.split_first() {
        Some((b'.', back)) => Some(back),
        _ => None,
    }
}

/// The digits behind a point in the twelfth place, how many they are, and what stands behind them.
#[tactic(auto, using(crate::proofs::Sizes::places_small))]
fn behind_point(back: &[u8]) -> Option<(u64, usize, &[u8])>
    ensures none { IsNone result → 12 < prefix_len is_digit back.now }
    ensures count { IfSome result (λ r. r.1 ≡ prefix_len is_digit back.now) }
    ensures units { IfSome result (λ r. r.0 ≡ spec.number_of 0 (take_while is_digit back.now) * 10 ^ (12 - prefix_len is_digit back.now)) }
    ensures few { IfSome result (λ r. r.1 ≤ 12) }
    ensures small { IfSome result (λ r. r.0 < 10 ^ 12) }
    ensures rest { IfSome result (λ r. r.2.now ≡ behind is_digit back.now) }
{
    let (number, places, rest) = split_digits(back)?;
    Some((number * power(MOST_DIGITS - places), places, rest))
}

/// Digits with at most one point at the front of a text: the number in front of the point, what stands behind the
/// point in the twelfth place, and the rest of the text; none where the run that they begin is no such number.
#[tactic(auto, using(crate::proofs::Fronts::front_short, crate::proofs::Runs::too_long, crate::proofs::Runs::other_in_run, crate::proofs::Runs::alone, crate::proofs::Runs::no_digits_alone, crate::proofs::Runs::alone_behind, crate::proofs::Runs::too_long_back, crate::proofs::Runs::more_in_run, crate::proofs::Runs::with_point, crate::proofs::Runs::no_digits, crate::proofs::Runs::with_point_behind))]
fn decimal(text: &[u8]) -> Option<(u64, u64, &[u8])>
    ensures none { IsNone result → spec.decimal (lines.split spec.point (take_while spec.is_in_run text.now)) ≡ None }
    ensures value { IfSome result (λ r. spec.decimal (lines.split spec.point (take_while spec.is_in_run text.now)) ≡ Some (r.0 * 10 ^ 12 + r.1)) }
    ensures small { IfSome result (λ r. r.1 < 10 ^ 12) }
    ensures rest { IfSome result (λ r. r.2.now ≡ behind spec.is_in_run text.now) }
{
    let (whole, digits, rest) = split_digits(text)?;
    let Some(back) = after_point(rest) else {
        if begins_in_run(rest) {
            return None;
        }
        return if digits == 0 {
            None
        } else {
            Some((whole, 0, rest))
        };
    };
    let (units, places, rest) = behind_point(back)?;
    if begins_in_run(rest) {
        return None;
    }
    if digits + places == 0 {
        None
    } else {
        Some((whole, units, rest))
    }
}

/// At most 1000000, rounded to millionths.
fn rounded(size: u64) -> Option<i64>
    requires { size < 2 ^ 62 }
    ensures { result ≡ spec.millionths size }
{
    if size > MOST {
        return None;
    }
    let rounded = (2 * size + 1_000_000) / 2_000_000;
    Some(rounded as i64)
}

fn millionths(whole: u64, units: u64) -> Option<i64>
    requires { units < 10 ^ 12 }
    ensures { result ≡ spec.millionths (whole * 10 ^ 12 + units) }
{
    if whole > MOST_FRONT {
        return None;
    }
    rounded(whole * UNIT + units)
}

/// The number at the front of a text, and what stands behind it; none where the run at the front is no number.
pub(crate) fn number_first(text: &[u8]) -> Option<(i64, &[u8])>
    ensures none { IsNone result → spec.number_in (take_while spec.is_in_run text.now) ≡ None }
    ensures value { IfSome result (λ r. spec.number_in (take_while spec.is_in_run text.now) ≡ Some r.0) }
    ensures rest { IfSome result (λ r. r.1.now ≡ behind spec.is_in_run text.now) }
{
    let (whole, units, rest) = decimal(text)?;
    let size = millionths(whole, units)?;
    Some((size, rest))
}
