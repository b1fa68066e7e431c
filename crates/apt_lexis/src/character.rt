//! Characters, and how many of a kind stand at the front of a text.

ghost use Rattle.std.specs.Prelude.{◌≡◌, ◌<◌, ◌≤◌, get_or, IfSome, IsNone};
ghost use Rattle.std.specs.List.{prefix_len};
ghost use Rattle.apt_words.specs.Options.{only_if};
ghost use Rattle.apt_lexis.specs.Tokens as spec;
ghost use Rattle.apt_lexis.specs.Sentences as sentences;

/// Each letter as a capital and each digit, one entry for each byte; 0 for the others.
static CAPITALS: [u8; 256] = [
    0, 0, 0, 0, 0, 0, 0, 0, 0, 0, 0, 0, 0, 0, 0, 0, 0, 0, 0, 0, 0, 0, 0, 0, 0, 0, 0, 0, 0, 0, 0, 0,
    0, 0, 0, 0, 0, 0, 0, 0, 0, 0, 0, 0, 0, 0, 0, 0, 48, 49, 50, 51, 52, 53, 54, 55, 56, 57, 0, 0,
    0, 0, 0, 0, 0, 65, 66, 67, 68, 69, 70, 71, 72, 73, 74, 75, 76, 77, 78, 79, 80, 81, 82, 83, 84,
    85, 86, 87, 88, 89, 90, 0, 0, 0, 0, 0, 0, 65, 66, 67, 68, 69, 70, 71, 72, 73, 74, 75, 76, 77,
    78, 79, 80, 81, 82, 83, 84, 85, 86, 87, 88, 89, 90, 0, 0, 0, 0, 0, 0, 0, 0, 0, 0, 0, 0, 0, 0,
    0, 0, 0, 0, 0, 0, 0, 0, 0, 0, 0, 0, 0, 0, 0, 0, 0, 0, 0, 0, 0, 0, 0, 0, 0, 0, 0, 0, 0, 0, 0, 0,
    0, 0, 0, 0, 0, 0, 0, 0, 0, 0, 0, 0, 0, 0, 0, 0, 0, 0, 0, 0, 0, 0, 0, 0, 0, 0, 0, 0, 0, 0, 0, 0,
    0, 0, 0, 0, 0, 0, 0, 0, 0, 0, 0, 0, 0, 0, 0, 0, 0, 0, 0, 0, 0, 0, 0, 0, 0, 0, 0, 0, 0, 0, 0, 0,
    0, 0, 0, 0, 0, 0, 0, 0, 0, 0, 0, 0, 0, 0, 0, 0, 0, 0, 0, 0, 0, 0, 0,
];

pub(crate) fn is_blank(b: u8) -> bool
    ensures { result ≡ spec.is_blank b }
{
    b == b' ' || b == b'\t'
}

pub(crate) fn is_letter(b: u8) -> bool
    ensures { result ≡ spec.is_letter b }
{
    b.is_ascii_uppercase() || b.is_ascii_lowercase()
}

pub(crate) fn is_letter_or_digit(b: u8) -> bool
    ensures { result ≡ spec.is_letter_or_digit b }
{
    CAPITALS[b as usize] != 0
}

pub(crate) fn is_in_run(b: u8) -> bool
    ensures { result ≡ spec.is_in_run b }
{
    is_letter_or_digit(b) || b == b'.'
}

pub(crate) fn begins_with_letter(text: &[u8]) -> bool
    ensures { result ≡ spec.begins_with_letter text.now }
{
    match text.split_first() {
        Some((b, _)) => is_letter(*b),
        None => false,
    }
}

/// A letter as a capital, or a digit; none for another byte.
#[tactic(auto, using(crate::proofs::Entries::no_capital, crate::proofs::Entries::capital_of))]
pub(crate) fn in_capitals(b: u8) -> Option<u8>
    ensures { result ≡ only_if (spec.is_letter_or_digit b) (spec.capital b) }
{
    match CAPITALS[b as usize] {
        0 => None,
        c => Some(c),
    }
}

/// The letter, as a capital, or the digit at a place behind letters and digits; none where they end.
#[tactic(auto, using(crate::proofs::Capitals::front_more, crate::proofs::Capitals::front_ends))]
pub(crate) fn capital_at(text: &[u8], at: usize) -> Option<u8>
    requires { at ≤ prefix_len spec.is_letter_or_digit text.now }
    ensures some { IfSome result (λ c. at < prefix_len spec.is_letter_or_digit text.now) }
    ensures value { IfSome result (λ c. c ≡ spec.capital (get_or text.now at 0)) }
    ensures none { IsNone result → prefix_len spec.is_letter_or_digit text.now ≡ at }
{
    if at < text.len() {
        in_capitals(text[at])
    } else {
        None
    }
}

#[tactic(auto, using(crate::proofs::Fronts::front_length))]
pub(crate) fn blanks(text: &[u8]) -> usize
    ensures { result ≡ prefix_len spec.is_blank text.now }
{
    text.iter().take_while(|b| is_blank(**b)).count()
}

#[tactic(auto, using(crate::proofs::Fronts::front_length))]
pub(crate) fn letters_or_digits(text: &[u8]) -> usize
    ensures { result ≡ prefix_len spec.is_letter_or_digit text.now }
{
    text.iter().take_while(|b| is_letter_or_digit(**b)).count()
}

#[tactic(auto, using(crate::proofs::Fronts::front_length))]
pub(crate) fn no_dollars(text: &[u8]) -> usize
    ensures { result ≡ prefix_len sentences.is_no_dollar text.now }
{
    text.iter().take_while(|b| **b != b'$').count()
}
