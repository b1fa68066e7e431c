//! Names of part programs.
ghost use Rattle.std.specs.Prelude.{◌≡◌, ◌≤◌, ◌↔◌, take, true, Some, IsSome, IfSome, nat_eq};
ghost use Rattle.std.specs.Ordering.{nat_cmp};
ghost use Rattle.std.specs.Cmp.{partial_equiv_from_equiv};
ghost use Rattle.std.specs.Cmp.Lexicographic.{pointwise, slice_cmp, nat_list_eq_equiv, nat_list_cmp_total, texts_po, texts_ties};
ghost use Rattle.std.specs.Cmp.Rules.{hashing};
ghost use Rattle.std.specs.Hash as fed;
ghost use Rattle.std.specs.List.{list_all};
ghost use Rattle.std.specs.Prelude.{refl};
ghost use Rattle.std.proofs.Common.{rules};
ghost use Rattle.apt_words.specs.Symbols as symbols;

use crate::word::word_of;
use std::cmp::Ordering;
use std::hash::{Hash, Hasher};
use std::marker::Model;

/// The greatest number of characters of a symbol.
const MOST: usize = 6;

/// A word of a capital letter and at most five capitals or digits. Clauses see its bytes.
#[derive(Debug, Drop)]
pub struct Symbol {
    bytes: [u8; MOST],
    len: u8,
}

impl Model for Symbol {
    ghost use Rattle.std.specs.Prelude.{◌≡◌, ◌≤◌, ℕ, List, true, take};
    ghost use Rattle.apt_words.specs.Symbols.{is_symbol};

    ghost Value = { List ℕ };

    ghost view = { λ s. take s.len s.bytes };

    ghost invariant = { λ s. (s.len ≤ 6) × (is_symbol (take s.len s.bytes) ≡ true) };
}

impl Symbol {
    /// The symbol of a text, None where it is none.
    pub fn new(text: &str) -> Option<Symbol>
        ensures some { IfSome result (λ s. s ≡ text.now) }
        ensures when { IsSome result ↔ (symbols.is_symbol text.now ≡ true) }
    {
        Symbol::from_bytes(text.as_bytes())
    }

    /// The symbol of some bytes, None where they are none.
    pub fn from_bytes(text: &[u8]) -> Option<Symbol>
        ensures some { IfSome result (λ s. s ≡ text.now) }
        ensures when { IsSome result ↔ (symbols.is_symbol text.now ≡ true) }
    {
        if !is_symbol(text) {
            return None;
        }
        let mut bytes = [0; MOST];
        bytes[..text.len()].copy_from_slice(text);
        Some(Symbol {
            bytes,
            len: text.len() as u8,
        })
    }

    /// The symbol that stands at the front of six bytes.
    pub fn at_front(bytes: [u8; 6], len: u8) -> Symbol
        requires few { len ≤ 6 }
        requires symbol { symbols.is_symbol (take len bytes) ≡ true }
        ensures { result ≡ take len bytes }
    {
        Symbol { bytes, len }
    }

    /// The name of some bytes, None where they are no symbol or a word of the vocabulary.
    #[tactic(auto, using(crate::proofs::Texts::name_is_symbol))]
    pub fn name(text: &[u8]) -> Option<Symbol>
        ensures some { IfSome result (λ s. s ≡ text.now) }
        ensures when { IsSome result ↔ (symbols.is_name text.now ≡ true) }
    {
        let symbol = Symbol::from_bytes(text)?;
        if is_vocabulary(&symbol) {
            None
        } else {
            Some(symbol)
        }
    }

    pub fn copied(&self) -> Symbol
        ensures { result ≡ self.now }
    {
        Symbol {
            bytes: self.bytes,
            len: self.len,
        }
    }

    pub fn as_bytes(&self) -> &[u8]
        ensures value { result.now ≡ self.now }
        ensures symbol { symbols.is_symbol result.now ≡ true }
    {
        &self.bytes[..self.len as usize]
    }

    pub fn as_str(&self) -> &str
        ensures { result.now ≡ self.now }
    {
        match std::str::from_utf8(self.as_bytes()) {
            Ok(text) => text,
            Err(_) => "",
        }
    }
}

/// Whether a symbol is a word of the language.
pub fn is_vocabulary(word: &Symbol) -> bool
    ensures { result ≡ symbols.is_vocabulary word.now }
{
    word_of(word).is_some()
}

fn is_symbol(text: &[u8]) -> bool
    ensures { result ≡ symbols.is_symbol text.now }
{
    match text.split_first() {
        None => false,
        Some((first, rest)) => {
            rest.len() <= 5 && first.is_ascii_uppercase() && all_capitals_or_digits(rest)
        }
    }
}

fn all_capitals_or_digits(text: &[u8]) -> bool
    ensures { result ≡ list_all symbols.is_capital_or_digit text.now }
{
    text.iter()
        .all(|b| b.is_ascii_uppercase() || b.is_ascii_digit())
}

impl PartialEq for Symbol {
    ghost eq = { pointwise nat_eq };

    ghost laws = { partial_equiv_from_equiv nat_list_eq_equiv };

    fn eq(&self, other: &Self) -> bool {
        self.as_bytes() == other.as_bytes()
    }
}

impl Eq for Symbol {
    ghost laws = { nat_list_eq_equiv };
}

impl PartialOrd for Symbol {
    ghost partial_cmp = { λ s t. Some (slice_cmp nat_cmp s t) };

    ghost laws = { texts_po };

    fn partial_cmp(&self, other: &Self) -> Option<Ordering> {
        Some(self.cmp(other))
    }
}

impl Ord for Symbol {
    ghost cmp = { slice_cmp nat_cmp };

    ghost total = { nat_list_cmp_total };

    ghost matches_partial_cmp = { λ s t. refl };

    ghost matches_eq = { texts_ties };

    fn cmp(&self, other: &Self) -> Ordering {
        self.as_bytes().cmp(other.as_bytes())
    }
}

impl Hash for Symbol {
    ghost hash_input = { fed.str };

    ghost respects_eq = { Prim.search (hashing, rules) };

    fn hash<H: Hasher>(&self, state: &mut H) {
        state.write(self.as_bytes());
        state.write_u8(0xff);
    }
}
