//! What is done to the signs of numbers.

ghost use Rattle.std.specs.Prelude.{◌≡◌};
ghost use Rattle.apt_offset.specs.Turns as turning;
ghost use Rattle.apt_offset.specs.Sides as spec;

use apt_num::Sign;

/// The sign of the negated number.
pub fn opposite(sign: Sign) -> Sign
    ensures { result ≡ turning.opposite sign }
{
    match sign {
        Sign::Minus => Sign::Plus,
        Sign::Zero => Sign::Zero,
        Sign::Plus => Sign::Minus,
    }
}

/// The sign of a product.
pub fn times(first: Sign, second: Sign) -> Sign
    ensures { result ≡ spec.times first second }
{
    match first {
        Sign::Plus => second,
        Sign::Zero => Sign::Zero,
        Sign::Minus => opposite(second),
    }
}

/// Whether the number is zero.
pub fn is_zero(sign: Sign) -> bool
    ensures { result ≡ turning.is_zero sign }
{
    match sign {
        Sign::Zero => true,
        Sign::Minus | Sign::Plus => false,
    }
}
