//! The lines of a text.

ghost use Rattle.std.specs.Prelude.{◌≡◌, ◌<◌, ◌≤◌, ◌==◌, [], ◌∷◌, position, length, IfSome, IsNone};
ghost use Rattle.std.specs.List.{list_all};
ghost use Rattle.apt_lexis.specs.Lines as lines;

/// A text up to the first byte of a kind, and what stands behind that byte.
#[tactic(auto, using(crate::proofs::Splitting::split_found, crate::proofs::Splitting::split_absent))]
pub(crate) fn cut(text: &[u8], c: u8) -> (&[u8], Option<&[u8]>)
    ensures found { IfSome result.1 (λ rest. lines.split c text.now ≡ result.0.now ∷ lines.split c rest.now) }
    ensures absent { IsNone result.1 → lines.split c text.now ≡ result.0.now ∷ [] }
    ensures shorter { IfSome result.1 (λ rest. length rest.now < length text.now) }
    ensures whole { IsNone result.1 → result.0.now ≡ text.now }
{
    match index_of(text, c) {
        Some(i) => (&text[..i], Some(&text[i + 1..])),
        None => (text, None),
    }
}

fn index_of(text: &[u8], c: u8) -> Option<usize>
    ensures value { result ≡ position (λ b. b == c) text.now }
    ensures small { IfSome result (λ i. i < length text.now) }
{
    text.iter().position(|b| *b == c)
}

/// The first line of a text, and what stands behind it; none where the text is empty.
#[tactic(auto, using(crate::proofs::LineLaws::no_lines, crate::proofs::LineLaws::line_first, crate::proofs::LineLaws::line_last))]
pub fn next_line(rest: &[u8]) -> Option<(&[u8], &[u8])>
    ensures none { IsNone result → lines.lines_of rest.now ≡ [] }
    ensures some { IfSome result (λ r. lines.lines_of rest.now ≡ r.0.now ∷ lines.lines_of r.1.now) }
    ensures shorter { IfSome result (λ r. length r.1.now < length rest.now) }
{
    if rest.is_empty() {
        return None;
    }
    match cut(rest, b'\n') {
        (part, Some(after)) => Some((without_return(part), after)),
        (last, None) => Some((last, &[])),
    }
}

#[tactic(auto, using(crate::proofs::LineLaws::return_stripped))]
fn without_return(part: &[u8]) -> &[u8]
    ensures { result.now ≡ lines.without_return part.now }
{
    match part.strip_suffix(b"\r") {
        Some(front) => front,
        None => part,
    }
}

/// Whether a line has no bytes but tabs and those from a blank to a tilde.
pub fn are_characters(line: &[u8]) -> bool
    ensures { result ≡ list_all lines.is_character line.now }
{
    line.iter().all(|b| *b == b'\t' || (32 <= *b && *b <= 126))
}
