//! Whether a program has patterns and drill cycles at all.

ghost use Rattle.std.specs.Prelude.{◌↔◌, IsTrue};
ghost use Rattle.apt_words.specs.Drills.{AreUndrilled};

use apt_words::Step;

/// Whether no step asks for anything of patterns and drill cycles.
pub fn are_undrilled(steps: &[Step]) -> bool
    ensures { IsTrue result ↔ AreUndrilled steps.now }
{
    'steps: for step in steps {
        if step.deed.drill().is_some() {
            return false;
        }
    }
    true
}
