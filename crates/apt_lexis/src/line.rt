//! A line as its statement is read from it.

ghost use Rattle.std.specs.Prelude.{◌≡◌, [], ◌∷◌, ◌<◌, ◌≤◌, length, IfSome, IsNone};
ghost use Rattle.std.specs.List.{list_all};
ghost use Rattle.apt_lexis.specs.Lines as lines;
ghost use Rattle.apt_lexis.specs.Sentences as spec;

use crate::PartCause;
use crate::character::no_dollars;
use crate::lines::{are_characters, next_line};

/// The greatest number of lines.
const MOST_LINES: u32 = 50_000;

/// The greatest number of bytes of a line.
pub(crate) const MOST_BYTES: usize = 256;

/// A line, what of it stands in front of its first `$`, whether its statement goes on with the next line, and
/// whether it has nothing but characters.
#[derive(Drop)]
pub(crate) struct SourceLine<'a> {
    pub(crate) text: &'a [u8],
    pub(crate) front: &'a [u8],
    pub(crate) goes_on: bool,
    pub(crate) are_characters: bool,
    ghost said: { front.now ≡ spec.said_on text.now },
    ghost on: { goes_on ≡ spec.goes_on text.now },
    ghost characters: { are_characters ≡ list_all lines.is_character text.now },
}

/// Whether a `$` begins a text with no other behind it.
fn is_single(text: &[u8]) -> bool
    ensures { result ≡ spec.is_single text.now }
{
    match text {
        [] => false,
        [_] => true,
        [_, next, ..] => *next != b'$',
    }
}

/// A line up to its first `$`, and whether its statement goes on with the next line.
#[tactic(auto, using(crate::proofs::Fronts::front_short))]
fn said_on(line: &[u8]) -> (&[u8], bool)
    ensures front { result.0.now ≡ spec.said_on line.now }
    ensures on { result.1 ≡ spec.goes_on line.now }
{
    let (front, rest) = line.split_at(no_dollars(line));
    (front, is_single(rest))
}

/// The first line of a text, and what stands behind it; none where the text is empty.
pub(crate) fn any_line(rest: &[u8]) -> Option<(SourceLine<'_>, &[u8])>
    ensures none { IsNone result → lines.lines_of rest.now ≡ [] }
    ensures some { IfSome result (λ r. lines.lines_of rest.now ≡ r.0.text.now ∷ lines.lines_of r.1.now) }
    ensures shorter { IfSome result (λ r. length r.1.now < length rest.now) }
{
    let (text, after) = next_line(rest)?;
    let (front, goes_on) = said_on(text);
    let line = SourceLine {
        text,
        front,
        goes_on,
        are_characters: are_characters(text),
    };
    Some((line, after))
}

/// The first fault of a line.
pub(crate) fn line_fault(number: u32, line: &SourceLine<'_>) -> Option<PartCause>
    ensures value { result ≡ lines.line_fault number line.now.text.now }
    ensures few { IsNone result → number ≤ 50000 }
{
    if number > MOST_LINES {
        Some(PartCause::TooManyLines)
    } else if line.text.len() > MOST_BYTES {
        Some(PartCause::LineTooLong)
    } else if !line.are_characters {
        Some(PartCause::BadByte)
    } else {
        None
    }
}
