//! What the words of a block say of holes.

ghost use Rattle.std.specs.Prelude.{◌≡◌, ◌<◌, ◌^◌, ◌||◌, unsigned_abs, is_some, IfSome};
ghost use Rattle.apt_block.specs.Block.{is_in, motions};
ghost use Rattle.apt_block.specs.Machine.{AreSmall};
ghost use Rattle.apt_control.specs.Control as control;
ghost use Rattle.apt_control.specs.declared.held.Said.{Said};
ghost use Rattle.apt_cycle.specs.CycleBlocks.{kept};
ghost use Rattle.std.specs.Option.{option_or};

use apt_block::TapeWord;

/// The depth and the clearance that a block gives, its Z and its R, and whether it gives a motion code.
#[derive(Clone, Copy)]
pub(crate) struct Given {
    pub(crate) depth: Option<i64>,
    pub(crate) clearance: Option<i64>,
    pub(crate) anew: bool,
}

impl Given {
    /// Nothing.
    pub(crate) fn nothing() -> Given
        ensures depth { result.depth ≡ control.nothing_said.z }
        ensures clearance { result.clearance ≡ control.nothing_said.r }
        ensures anew { result.anew ≡ is_some control.nothing_said.motion }
    {
        Given {
            depth: None,
            clearance: None,
            anew: false,
        }
    }

    /// What the words of a block give, taken from the last one on.
    pub(crate) fn among(words: &[TapeWord]) -> Given
        requires small { AreSmall words.now }
        ensures depth { result.depth ≡ (control.said_of words.now).z }
        ensures clearance { result.clearance ≡ (control.said_of words.now).r }
        ensures anew { result.anew ≡ is_some (control.said_of words.now).motion }
        ensures short { IfSome result.clearance (λ v. unsigned_abs v < 10 ^ 8) }
    {
        let mut given = Given::nothing();
        let mut left = words.len();
        'words: while left > 0 {
            left -= 1;
            given = given.with_word(&words[left]);
        }
        given
    }

    /// The same with what a word in front of others says.
    fn with_word(self, word: &TapeWord) -> Given
        ensures depth { (more : Said) → self.depth ≡ more.z → result.depth ≡ (control.with_word word.now more).z }
        ensures clearance { (more : Said) → self.clearance ≡ more.r → result.clearance ≡ (control.with_word word.now more).r }
        ensures anew { (more : Said) → self.anew ≡ is_some more.motion → result.anew ≡ is_some (control.with_word word.now more).motion }
        ensures short { unsigned_abs word.now.value < 10 ^ 8 → IfSome self.clearance (λ v. unsigned_abs v < 10 ^ 8) → IfSome result.clearance (λ v. unsigned_abs v < 10 ^ 8) }
    {
        match word.letter {
            b'G' => Given {
                anew: self.anew || is_motion(word.value.unsigned_abs()),
                ..self
            },
            b'Z' => Given {
                depth: Some(word.value),
                ..self
            },
            b'R' => Given {
                clearance: Some(word.value),
                ..self
            },
            _ => self,
        }
    }

    /// The depth that holds behind the block, where one held before it.
    pub(crate) fn depth_behind(self, held: Option<i64>) -> Option<i64>
        ensures { (said : Said) → self.depth ≡ said.z → self.anew ≡ is_some said.motion → result ≡ option_or said.z (kept said held) }
    {
        given_or(self.depth, self.anew, held)
    }

    /// The clearance that holds behind the block, where one held before it.
    pub(crate) fn clearance_behind(self, held: Option<i64>) -> Option<i64>
        ensures value { (said : Said) → self.clearance ≡ said.r → self.anew ≡ is_some said.motion → result ≡ option_or said.r (kept said held) }
        ensures short { IfSome self.clearance (λ v. unsigned_abs v < 10 ^ 8) → IfSome held (λ v. unsigned_abs v < 10 ^ 8) → IfSome result (λ v. unsigned_abs v < 10 ^ 8) }
    {
        given_or(self.clearance, self.anew, held)
    }
}

/// A number that is given, or the one that is held, unless it is forgotten.
fn given_or(given: Option<i64>, anew: bool, held: Option<i64>) -> Option<i64>
    ensures value { (said : Said) → anew ≡ is_some said.motion → result ≡ option_or given (kept said held) }
    ensures short { IfSome given (λ v. unsigned_abs v < 10 ^ 8) → IfSome held (λ v. unsigned_abs v < 10 ^ 8) → IfSome result (λ v. unsigned_abs v < 10 ^ 8) }
{
    match given {
        Some(v) => Some(v),
        None if anew => None,
        None => held,
    }
}

/// Whether a G code is one of motion.
fn is_motion(code: u64) -> bool
    ensures { result ≡ is_in motions code }
{
    code == 0 || code == 1 || code == 2 || code == 3 || code == 80 || code == 81
}
