//! What is told of pieces of work before they begin.

/// Is told of each piece of work, by its number from 1, before it begins. It is told by several threads.
pub trait Gate: Sync {
    fn enter(&self, number: u64);
}

/// Lets each piece of work begin at once.
pub struct OpenGate;

impl Gate for OpenGate {
    fn enter(&self, _number: u64) {}
}
