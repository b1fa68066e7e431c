//! The words of a line that have one blank between them.

ghost use Rattle.std.specs.Prelude.{◌≡◌, ◌<◌, ◌==◌, length, position, option_map, IfSome};
ghost use Rattle.apt_lexis.specs.Words as words;

use crate::line::MOST_BYTES;
use crate::lines::are_characters;

/// Whether a line has characters alone, and at most 256.
pub fn is_readable(line: &[u8]) -> bool
    ensures { result ≡ words.is_readable line.now }
{
    line.len() <= MOST_BYTES && are_characters(line)
}

fn first_blank(line: &[u8]) -> Option<usize>
    ensures value { result ≡ position (λ b. b == words.blank) line.now }
    ensures small { IfSome result (λ i. i < length line.now) }
{
    line.iter().position(|b| *b == b' ')
}

/// What stands in front of the first blank, and what behind it.
#[tactic(auto, using(crate::proofs::Blanks::front_found, crate::proofs::Blanks::behind_found, crate::proofs::Blanks::front_absent, crate::proofs::Blanks::behind_absent))]
pub fn first_word(line: &[u8]) -> (&[u8], Option<&[u8]>)
    ensures front { result.0.now ≡ words.in_front line.now }
    ensures behind { option_map (λ rest. rest.now) result.1 ≡ words.behind line.now }
{
    match first_blank(line) {
        Some(i) => (&line[..i], Some(&line[i + 1..])),
        None => (line, None),
    }
}
