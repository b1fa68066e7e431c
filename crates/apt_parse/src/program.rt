//! The program of a text.

ghost use Rattle.std.specs.Prelude.{◌≡◌, ℕ, List, ◌≤◌, ◌-◌, false, None, max, IfOk};
ghost use Rattle.std.specs.List.{list_all};
ghost use Rattle.apt_words.specs.Answers.{IsDue};
ghost use Rattle.apt_words.specs.Composition.{flow_of};
ghost use Rattle.apt_words.specs.Nesting.{AreNested};
ghost use Rattle.apt_words.specs.Sources.{AreStmts};
ghost use Rattle.apt_lexis.specs.Sentences.{fault_in};
ghost use Rattle.apt_lexis.specs.Spellings.{SayTheSame};
ghost use Rattle.apt_parse.specs.ReaderState as reading;
ghost use Rattle.apt_parse.specs.ReaderState.{IsRead};
ghost use Rattle.apt_parse.specs.Statements as statements;
ghost use Rattle.apt_parse.specs.Programs as programs;

use crate::names::Names;
use crate::read::Read;
use apt_lexis::{ParseError, PartCause, Phrase, Phrases};
use apt_shapes::shape;
use apt_words::{Body, Program, Stmt};
use std::alloc::Global;

/// The program of a text.
///
/// # Errors
///
/// `Bad` is the first fault in the order of reading, with its line.
#[tactic(auto, using(crate::proofs::Nesting::parsed_nested, crate::proofs::AllSources::parsed_stmts, crate::proofs::Respelled::parsed_same))]
pub fn parse(alloc: Global, text: &[u8]) -> Result<Program, ParseError>
    ensures program { IsDue fault_in (programs.program_of text.now) result }
    ensures nested { IfOk result (λ p. AreNested false p) }
    ensures sources { IfOk result (λ p. AreStmts p) }
    ensures same { (other : List ℕ) → SayTheSame text.now other → IsDue fault_in (programs.program_of other) result }
{
    parse_value(alloc, text)
}

fn parse_value(alloc: Global, text: &[u8]) -> Result<Program, ParseError>
    ensures { IsDue fault_in (programs.program_of text.now) result }
{
    let mut phrases = Phrases::new(text);
    let mut read = Read::new(alloc);
    'phrases: while let Some(phrase) = phrases.next(alloc)? {
        let st = statement(alloc, &read, &mut phrases, phrase)?;
        let is_last = st.body.is_fini();
        read.add(st)?;
        if is_last {
            return whole(read);
        }
    }
    Err(ParseError::Bad {
        line: last_line(phrases.line()),
        cause: PartCause::NoFini,
    })
}

/// The statement of a phrase behind those that were read. The reader takes back the list of its tokens.
fn statement(
    alloc: Global,
    read: &Read,
    phrases: &mut Phrases<'_>,
    phrase: Phrase,
) -> Result<Stmt, ParseError>
    requires { IsRead read.now }
    ensures as_before { phrases.new ≡ phrases.old }
    ensures stated { reading.IsStated phrase.line (statements.statement read.now.stmts.items phrase) result }
    ensures good { IfOk result (λ st. statements.first_fault read.now.stmts.items st.label st.body ≡ None) }
{
    let Phrase {
        line,
        tokens,
        fault,
        text,
    } = phrase;
    if let Some(cause) = fault {
        return Err(ParseError::Bad { line, cause });
    }
    let Some(said) = shape(alloc, &tokens, text)? else {
        return Err(ParseError::Bad {
            line,
            cause: PartCause::BadShape,
        });
    };
    phrases.reuse(tokens);
    match read.first_fault(&said) {
        Some(cause) => Err(ParseError::Bad { line, cause }),
        None => Ok(Stmt {
            line,
            label: said.label,
            body: said.body,
        }),
    }
}

/// The program of the statements up to FINI.
fn whole(read: Read) -> Result<Program, ParseError>
    requires { IsRead read }
    ensures { IsDue fault_in (programs.whole read.stmts.items) result }
{
    if let Some(line) = read.open_loop {
        return Err(ParseError::Bad {
            line,
            cause: PartCause::LoopOpen,
        });
    }
    if let Some(line) = first_missing(&read) {
        return Err(ParseError::Bad {
            line,
            cause: PartCause::LabelMissing,
        });
    }
    Ok(Program { stmts: read.stmts })
}

/// The line of the first statement that jumps to a label which no statement has.
fn first_missing(read: &Read) -> Option<u32>
    requires { IsRead read.now }
    ensures { result ≡ programs.missing read.now.stmts.items }
{
    let found = read
        .stmts
        .iter()
        .find(|st| !has_all(&read.labels, &st.body));
    found.map(|st| st.line)
}

/// Whether the labels to which a statement jumps are among these.
fn has_all(labels: &Names, body: &Body) -> bool
    ensures { result ≡ list_all (statements.is_among labels.now) (programs.jumps (flow_of body.now)) }
{
    match body {
        Body::Jumpto(label) => labels.has(label),
        Body::If(_, a, b, c) => labels.has(a) && labels.has(b) && labels.has(c),
        _ => true,
    }
}

/// The number of the last line before one, 1 where there is none.
fn last_line(next: u32) -> u32
    requires { 1 ≤ next }
    ensures { result ≡ max 1 (next - 1) }
{
    if next < 3 { 1 } else { next - 1 }
}
