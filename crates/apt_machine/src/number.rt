//! Plain numbers.

ghost use Rattle.std.specs.Prelude.{◌≡◌, ◌≤◌, true, IfSome};
ghost use Rattle.std.specs.List.{list_all};
ghost use Rattle.apt_machine.specs.Numbers as numbers;

/// The greatest number of digits.
const MOST_DIGITS: usize = 4;

/// The number of plain digits, from a least one to a greatest one.
pub fn number_within(least: u16, most: u16, text: &[u8]) -> Option<u16>
    ensures value { result ≡ numbers.number_within least most text.now }
    ensures least { IfSome result (λ n. least ≤ n) }
    ensures most { IfSome result (λ n. n ≤ most) }
{
    let n = plain_number(text)?;
    if least <= n && n <= most {
        Some(n)
    } else {
        None
    }
}

/// The number of one to four digits without a leading zero.
fn plain_number(text: &[u8]) -> Option<u16>
    ensures { result ≡ numbers.plain_number text.now }
{
    if is_plain(text) {
        Some(number_of(text))
    } else {
        None
    }
}

fn is_plain(text: &[u8]) -> bool
    ensures { result ≡ numbers.is_plain text.now }
{
    !text.is_empty() && text.len() <= MOST_DIGITS && are_digits(text) && !has_leading_zero(text)
}

fn are_digits(text: &[u8]) -> bool
    ensures { result ≡ list_all numbers.is_digit text.now }
{
    text.iter().all(|b| b.is_ascii_digit())
}

fn has_leading_zero(text: &[u8]) -> bool
    ensures { result ≡ numbers.has_leading_zero text.now }
{
    match text {
        [first, _, ..] => *first == b'0',
        _ => false,
    }
}

fn number_of(text: &[u8]) -> u16
    requires { numbers.is_plain text.now ≡ true }
    ensures { result ≡ numbers.digits_from 0 text.now }
{
    let mut number = 0;
    'digits: for b in text {
        number = 10 * number + u16::from(*b - b'0');
    }
    number
}
