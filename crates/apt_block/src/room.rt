//! Room for the words of a block and for the places of their letters. The next block is read into it as it is.
ghost use Rattle.std.specs.Prelude.{◌≡◌, ◌<◌, length, [], ◌∷◌, ◌++◌};

use crate::{Block, TapeWord};
use arrayvec::ArrayVec;
use std::marker::Model;

/// Room for at most N items in order, which keeps the cells behind them. Clauses see their list.
#[derive(Drop)]
pub(crate) struct Room<T, const N: usize> {
    cells: [T; N],
    len: usize,
}

impl<T, const N: usize> Model for Room<T, N> {
    ghost use Rattle.std.specs.Prelude.{◌≤◌, List, take};

    ghost Value = { List T };

    ghost view = { λ r. take r.len r.cells };

    ghost invariant = { λ r. r.len ≤ N };
}

impl<T: Copy, const N: usize> Room<T, N> {
    /// Room whose cells hold this item.
    pub(crate) fn new(blank: T) -> Room<T, N>
        ensures { result ≡ [] }
    {
        Room {
            cells: [blank; N],
            len: 0,
        }
    }

    pub(crate) fn as_slice(&self) -> &[T]
        ensures { result.now ≡ self.now }
    {
        &self.cells[..self.len]
    }

    pub(crate) fn clear(&mut self)
        ensures { self.new ≡ [] }
    {
        self.len = 0;
    }

    pub(crate) fn push(&mut self, item: T)
        requires { length self.old < N }
        ensures { self.new ≡ self.old ++ item ∷ [] }
    {
        self.cells[self.len] = item;
        self.len += 1;
    }
}

impl Room<TapeWord, 16> {
    pub(crate) fn into_block(self) -> Block
        ensures { result ≡ self }
    {
        let mut words = ArrayVec::from_array_in((), self.cells);
        words.truncate(self.len);
        Block { words }
    }
}
