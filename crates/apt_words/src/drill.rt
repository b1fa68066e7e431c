//! What steps ask for of patterns and drill cycles.
ghost use Rattle.std.specs.Prelude.{◌≡◌};
ghost use Rattle.apt_words.specs.Drills.{drill_of};

use crate::{Deed, Symbol};

/// What a step asks for of patterns and drill cycles. Numbers are in millionths.
#[derive(Drop)]
pub enum Drill {
    /// A name stands for points evenly from the point of a name to that of another, so many.
    Pattern(Symbol, Symbol, Symbol, i64),
    /// Each GOTO drills from now on: so deep below its point, from so far above it.
    Cycle(i64, i64),
    /// GOTO drills no more.
    Off,
    /// The tool goes to each point of a pattern.
    Visit(Symbol),
}

impl Deed {
    /// What the step asks for of patterns and drill cycles, where it does.
    #[inline(always)]
    pub fn drill(&self) -> Option<Drill>
        ensures { result ≡ drill_of self.now }
    {
        match self {
            Deed::Patern(n, p, q, v) => {
                Some(Drill::Pattern(n.copied(), p.copied(), q.copied(), *v))
            }
            Deed::CycleDrill(depth, clearance) => Some(Drill::Cycle(*depth, *clearance)),
            Deed::CycleOff => Some(Drill::Off),
            Deed::GotoPatern(n) => Some(Drill::Visit(n.copied())),
            _ => None,
        }
    }
}
