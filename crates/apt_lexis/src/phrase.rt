//! Statements as they are read.

ghost use Rattle.std.specs.Prelude.{◌≡◌, if◌then◌else◌, true, OnOk, ◌+◌, ◌<◌, ◌≤◌, [], length, None, Some, Ok, IfOk, IfSome, IsSome, IsNone};
ghost use Rattle.std.specs.Result.{IsOkAnd};
ghost use Rattle.apt_lexis.specs.Lines as lines;
ghost use Rattle.apt_lexis.specs.Sentences as spec;
ghost use Rattle.apt_lexis.specs.Titles as titles;
ghost use Rattle.apt_lexis.specs.Tokens as tokens;

use crate::fast::{first_line, take_line};
use crate::line::{SourceLine, line_fault};
use crate::title::{Heading, add_heading, heading_behind};
use crate::token::{add_tokens, behind_blanks};
use crate::{ParseError, PartCause, Token};
use apt_words::Text;
use std::alloc::{AllocError, Global};
use std::marker::Model;

/// A statement as it is read: the line on which it begins, from 1, its tokens up to the first bad one with
/// the cause of that, and its text where it takes one.
#[derive(Drop)]
pub struct Phrase {
    pub line: u32,
    pub tokens: Vec<Token>,
    pub fault: Option<PartCause>,
    pub text: Option<Text>,
}

impl Model for Phrase {
    ghost use Rattle.apt_lexis.specs.Phrase.{Phrase as PhraseRead, good};

    ghost Value = { PhraseRead };

    ghost view = { λ p. record { line = p.line; tokens = good p.fault p.tokens.items; text = p.text } };
}

/// A list without tokens, in the room of one that is done with where there is one.
pub(crate) fn no_tokens(alloc: Global, spare: &mut Option<Vec<Token>>) -> Vec<Token>
    ensures { result.items ≡ [] }
{
    match spare.take() {
        Some(mut tokens) => {
            tokens.clear();
            tokens
        }
        None => Vec::new(alloc),
    }
}

/// Begins a statement where none is begun, and makes one that is ready for another line.
fn begin(alloc: Global, spare: &mut Option<Vec<Token>>, begun: &mut Option<Phrase>, number: u32)
    ensures { begun.new ≡ Some (record { line = spec.first_line begun.old number; tokens = spec.tokens_before begun.old; text = None }) }
{
    match begun {
        Some(phrase) => phrase.text = None,
        None => {
            *begun = Some(Phrase {
                line: number,
                tokens: no_tokens(alloc, spare),
                fault: None,
                text: None,
            });
        }
    }
}

/// Adds the tokens of a line to the statement that it belongs to.
fn add_line(
    alloc: Global,
    spare: &mut Option<Vec<Token>>,
    begun: &mut Option<Phrase>,
    number: u32,
    text: &[u8],
) -> Result<(), AllocError>
    ensures { OnOk result (begun.new ≡ Some (record { line = spec.first_line begun.old number; tokens = spec.joined (spec.tokens_before begun.old) (tokens.tokens_of text.now); text = None })) }
{
    match begun {
        None => {
            let mut tokens = no_tokens(alloc, spare);
            let fault = add_tokens(&mut tokens, text)?;
            *begun = Some(Phrase {
                line: number,
                tokens,
                fault,
                text: None,
            });
        }
        Some(phrase) => {
            phrase.text = None;
            if phrase.fault.is_none() {
                phrase.fault = add_tokens(&mut phrase.tokens, text)?;
            }
        }
    }
    Ok(())
}

/// Adds a title to the statement that its line belongs to.
fn add_title(
    alloc: Global,
    spare: &mut Option<Vec<Token>>,
    begun: &mut Option<Phrase>,
    number: u32,
    title: Heading<'_>,
) -> Result<(), AllocError>
    ensures { OnOk result (begun.new ≡ Some (record { line = spec.first_line begun.old number; tokens = spec.joined (spec.tokens_before begun.old) (Ok title.entry.0); text = Some title.entry.1 })) }
{
    begin(alloc, spare, begun, number);
    if let Some(phrase) = begun {
        phrase.text = Some(add_heading(alloc, &mut phrase.tokens, title)?);
    }
    Ok(())
}

/// The title of a line behind the statement that is begun, which has no bad token then.
fn title_in<'a>(begun: &Option<Phrase>, line: &'a [u8]) -> Option<Heading<'a>>
    ensures none { IsNone result → spec.title_in (spec.tokens_before begun.now) line.now ≡ None }
    ensures some { IfSome result (λ t. IsOkAnd (spec.tokens_before begun.now) (λ ts. spec.title_in (Ok ts) line.now ≡ Some (titles.with_tokens ts t))) }
{
    match begun {
        None => heading_behind(&[], line),
        Some(phrase) if phrase.fault.is_none() => heading_behind(&phrase.tokens, line),
        Some(_) => None,
    }
}

/// Takes a line that has no title into the statement that is begun; whether the line completes it.
#[tactic(auto, using(crate::proofs::SentenceLaws::silent, crate::proofs::SentenceLaws::goes_on_with, crate::proofs::SentenceLaws::ends_with))]
fn take_tokens(
    alloc: Global,
    spare: &mut Option<Vec<Token>>,
    begun: &mut Option<Phrase>,
    number: u32,
    line: &SourceLine<'_>,
) -> Result<bool, AllocError>
    ensures behind { IfOk result (λ done. spec.by_title begun.old number line.now.text.now None ≡ (if done then record { begun = None; said = begun.new } else record { begun = begun.new; said = None })) }
    ensures ended { IfOk result (λ done. done ≡ true → IsSome begun.new) }
{
    if behind_blanks(line.front).is_empty() {
        return Ok(false);
    }
    add_line(alloc, spare, begun, number, line.front)?;
    Ok(!line.goes_on)
}

/// Takes a line into the statement that is begun; whether the line completes it.
#[tactic(auto, using(crate::proofs::SentenceLaws::by_tokens, crate::proofs::SentenceLaws::ends_with_title))]
pub(crate) fn take_any_line(
    alloc: Global,
    spare: &mut Option<Vec<Token>>,
    begun: &mut Option<Phrase>,
    number: u32,
    line: &SourceLine<'_>,
) -> Result<bool, AllocError>
    ensures behind { IfOk result (λ done. spec.behind_line begun.old number line.now.text.now ≡ (if done then record { begun = None; said = begun.new } else record { begun = begun.new; said = None })) }
    ensures ended { IfOk result (λ done. done ≡ true → IsSome begun.new) }
{
    match title_in(begun, line.text) {
        None => take_tokens(alloc, spare, begun, number, line),
        Some(title) => {
            add_title(alloc, spare, begun, number, title)?;
            Ok(true)
        }
    }
}

/// A reader of a text's statements. Clauses see the lines that are left and the number of the first of them.
#[derive(Drop)]
pub struct Phrases<'a> {
    rest: &'a [u8],
    line: u32,
    spare: Option<Vec<Token>>,
}

impl<'a> Model for Phrases<'a> {
    ghost use Rattle.std.specs.Prelude.{◌≤◌};
    ghost use Rattle.apt_lexis.specs.Lines.{lines_of};
    ghost use Rattle.apt_lexis.specs.Sentences.{Unread};

    ghost Value = { Unread };

    ghost view = { λ p. record { line = p.line; lines = lines_of p.rest.now } };

    ghost invariant = { λ p. (1 ≤ p.line) × (p.line ≤ 50001) };
}

impl<'a> Phrases<'a> {
    /// The statements of a text from its first line on.
    pub fn new(text: &'a [u8]) -> Phrases<'a>
        ensures line { result.line ≡ 1 }
        ensures lines { result.lines ≡ lines.lines_of text.now }
    {
        Phrases {
            rest: text,
            line: 1,
            spare: None,
        }
    }

    /// The next statement, none at the end of the text.
    ///
    /// # Errors
    ///
    /// `Bad` is the first fault of a line: `TooManyLines` at line 50,001, `LineTooLong` past 256 bytes,
    /// `BadByte`. The reader then stands at that line, and gives its fault again.
    pub fn next(&mut self, alloc: Global) -> Result<Option<Phrase>, ParseError>
        ensures given { spec.Gives self.old self.new result }
        ensures counted { IfOk result (λ _. self.new.line + length self.new.lines ≡ self.old.line + length self.old.lines) }
        ensures shorter { IfOk result (λ p. IfSome p (λ _. length self.new.lines < length self.old.lines)) }
    {
        let mut begun = None;
        'lines: while let Some((line, after)) = first_line(self.rest) {
            if let Some(cause) = line_fault(self.line, &line) {
                return Err(ParseError::Bad {
                    line: self.line,
                    cause,
                });
            }
            let number = self.line;
            self.rest = after;
            self.line += 1;
            if take_line(alloc, &mut self.spare, &mut begun, number, &line)? {
                return Ok(begun);
            }
        }
        Ok(begun)
    }

    /// Takes the list of a statement that is done with, for the tokens of another.
    pub fn reuse(&mut self, tokens: Vec<Token>)
        ensures { self.new ≡ self.old }
    {
        self.spare = Some(tokens);
    }

    /// The number of the first line that is left.
    pub fn line(&self) -> u32
        ensures value { result ≡ self.now.line }
        ensures small { result ≤ 50001 }
    {
        self.line
    }
}
