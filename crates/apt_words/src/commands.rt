//! Commands to the machine, compared.

ghost use Rattle.std.specs.Prelude.{◌≡◌, ◌↔◌, IsTrue};

use crate::Command;

impl Command {
    /// Whether two are the same.
    #[inline(always)]
    pub fn is_same(self, other: Command) -> bool
        ensures { IsTrue result ↔ (self ≡ other) }
    {
        match (self, other) {
            (Command::Spindle(turn, n), Command::Spindle(other, m)) => turn == other && n == m,
            (Command::Coolant(cool), Command::Coolant(other)) => cool == other,
            (Command::Tool(n), Command::Tool(m)) => n == m,
            (Command::Stop, Command::Stop) | (Command::OptStop, Command::OptStop) => true,
            _ => false,
        }
    }
}
