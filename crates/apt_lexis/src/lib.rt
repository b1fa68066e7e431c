//! The lines, tokens and statements of a part program's text.
#![tactic(auto)]

mod cause;
mod character;
mod error;
mod fast;
mod line;
mod lines;
mod number;
mod phrase;
mod title;
mod token;
mod words;

pub use cause::PartCause;
pub use error::ParseError;
pub use lines::{are_characters, next_line};
pub use phrase::{Phrase, Phrases};
pub use token::Token;
pub use words::{first_word, is_readable};
