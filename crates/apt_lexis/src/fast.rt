//! Shortcuts: each gives what an exact call beside it gives, and spares that call where a look is enough.

ghost use Rattle.std.specs.Prelude.{◌≡◌, ◌+◌, ◌<◌, ◌≤◌, ◌==◌, if◌then◌else◌, true, take, drop, [], ◌∷◌, length, None, IfOk, IfSome, IsNone, IsSome};
ghost use Rattle.std.specs.Int.{trailing_zeros, w64};
ghost use Rattle.std.specs.List.{prefix_len};
ghost use Rattle.apt_lexis.specs.Lines as lines;
ghost use Rattle.apt_lexis.specs.Sentences as sentences;
ghost use Rattle.apt_lexis.specs.Titles as titles;

use crate::Token;
use crate::line::{SourceLine, any_line};
use crate::phrase::{Phrase, no_tokens, take_any_line};
use crate::token::add_tokens;
use apt_words::Word;
use std::alloc::{AllocError, Global};
use std::simd::prelude::*;

/// So many bytes are looked at together.
const LANES: usize = 16;

/// The place of the lowest bit of 16 that is set, and 16 where none is.
fn first_set(mask: u64) -> usize
    ensures { result ≡ (if mask == 0 then 16 else trailing_zeros w64 mask) }
{
    if mask == 0 {
        LANES
    } else {
        mask.trailing_zeros() as usize
    }
}

/// How many of the next 16 bytes, from the first, are characters and no `$`.
fn plain_lanes(text: &[u8], at: usize) -> usize
    requires { at + 16 ≤ length text.now }
    ensures { result ≡ prefix_len sentences.is_plain (take 16 (drop at text.now)) }
{
    let v = u8x16::from_slice(&text[at..]);
    let is_control = v.simd_lt(u8x16::splat(b' ')) & v.simd_ne(u8x16::splat(b'\t'));
    let stops = is_control | v.simd_gt(u8x16::splat(b'~')) | v.simd_eq(u8x16::splat(b'$'));
    first_set(stops.to_bitmask())
}

fn is_plain(b: u8) -> bool
    ensures { result ≡ sentences.is_plain b }
{
    (b == b'\t' || (32 <= b && b <= 126)) && b != b'$'
}

/// The bytes at the front of a text that are characters and no `$`, one by one.
#[tactic(auto, using(crate::proofs::Fronts::front_length))]
fn plain_bytes(text: &[u8]) -> usize
    ensures { result ≡ prefix_len sentences.is_plain text.now }
{
    text.iter().take_while(|b| is_plain(**b)).count()
}

/// The bytes at the front of a text that are characters and no `$`, 16 at a time while there are so many.
#[tactic(auto, using(crate::proofs::Fronts::part_short, crate::proofs::Fronts::rest_short))]
fn plain_front(text: &[u8]) -> usize
    ensures { result ≡ prefix_len sentences.is_plain text.now }
{
    let mut at = 0;
    'lanes: while text.len() - at >= LANES {
        let run = plain_lanes(text, at);
        at += run;
        if run < LANES {
            return at;
        }
    }
    at + plain_bytes(&text[at..])
}

/// The first line of a text, and what stands behind it; none where the text is empty.
///
/// Most lines have no `$` and end with a line feed alone: these are looked at once.
#[tactic(auto, using(crate::proofs::Fronts::front_short, crate::proofs::PlainLines::front_plain, crate::proofs::PlainLines::first_plain, crate::proofs::PlainLines::plain_said, crate::proofs::PlainLines::plain_ends, crate::proofs::PlainLines::plain_characters))]
pub(crate) fn first_line(rest: &[u8]) -> Option<(SourceLine<'_>, &[u8])>
    ensures none { IsNone result → lines.lines_of rest.now ≡ [] }
    ensures some { IfSome result (λ r. lines.lines_of rest.now ≡ r.0.text.now ∷ lines.lines_of r.1.now) }
    ensures shorter { IfSome result (λ r. length r.1.now < length rest.now) }
{
    let (text, behind) = rest.split_at(plain_front(rest));
    match behind.split_first() {
        Some((b'\n', after)) => {
            let line = SourceLine {
                text,
                front: text,
                goes_on: false,
                are_characters: true,
            };
            Some((line, after))
        }
        _ => any_line(rest),
    }
}

fn is_title(token: &Token) -> bool
    ensures { result ≡ titles.is_title token.now }
{
    matches!(token, Token::Word(Word::Partno | Word::Remark))
}

fn closes_first(tokens: &[Token]) -> bool
    ensures { result ≡ titles.closes_first tokens.now }
{
    matches!(tokens, [Token::Close, ..])
}

/// Whether a title may stand at the front of a line with these tokens: at most lines none does.
fn may_be_titled(tokens: &[Token]) -> bool
    ensures { result ≡ titles.may_be_titled tokens.now }
{
    match tokens {
        [] => true,
        [first, rest @ ..] => is_title(first) || closes_first(rest),
    }
}

/// Takes a line into the statement that is begun; whether the line completes it.
///
/// The tokens of most lines that begin a statement tell that no title stands there: these lines are taken at once.
pub(crate) fn take_line(
    alloc: Global,
    spare: &mut Option<Vec<Token>>,
    begun: &mut Option<Phrase>,
    number: u32,
    line: &SourceLine<'_>,
) -> Result<bool, AllocError>
    ensures behind { IfOk result (λ done. sentences.behind_line begun.old number line.now.text.now ≡ (if done then record { begun = None; said = begun.new } else record { begun = begun.new; said = None })) }
    ensures ended { IfOk result (λ done. done ≡ true → IsSome begun.new) }
{
    if begun.is_none() {
        let mut tokens = no_tokens(alloc, spare);
        let fault = add_tokens(&mut tokens, line.front)?;
        if fault.is_none() && !may_be_titled(&tokens) {
            *begun = Some(Phrase {
                line: number,
                tokens,
                fault: None,
                text: None,
            });
            return Ok(!line.goes_on);
        }
        *spare = Some(tokens);
    }
    take_any_line(alloc, spare, begun, number, line)
}
