//! A block of a tape on a machine with drill cycles.

use crate::given::Given;
use apt_circular::Instruction;

/// What a block says, and what it says of holes where G81 holds behind it.
#[derive(Clone, Copy)]
pub(crate) struct CycleBlock {
    pub(crate) instruction: Instruction,
    pub(crate) given: Given,
}
