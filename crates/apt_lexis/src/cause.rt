//! Why a text is no part program.
ghost use Rattle.std.specs.Prelude.{◌≡◌};
ghost use Rattle.apt_lexis.specs.Causes as causes;

/// Why a part program is refused by its reader.
#[derive(Clone, Copy, Debug, PartialEq, Eq)]
pub enum PartCause {
    /// A byte that is no character.
    BadByte,
    /// A line of more than 256 bytes.
    LineTooLong,
    /// Line 50,001.
    TooManyLines,
    /// A word of more than six characters, or a character of no word, number or mark.
    BadWord,
    /// Digits, letters and points that are no number, or one that is too long or too large.
    BadNumber,
    /// A statement of no shape, or one that stands where it can not.
    BadShape,
    /// The first statement is not PARTNO.
    NoPartno,
    /// The text ends before FINI.
    NoFini,
    /// A label that stands already.
    LabelTwice,
    /// A jump to a label that no statement has.
    LabelMissing,
    /// A macro with the name of one before.
    MacroTwice,
    /// A macro within a macro.
    MacroOpen,
    /// A loop within a loop, an end of none, or one that is open at FINI.
    LoopOpen,
}

impl PartCause {
    /// Its name, as it is printed.
    pub fn name(&self) -> &'static str
        ensures { result.now ≡ causes.name_of self.now }
    {
        match self {
            PartCause::BadByte => "BadByte",
            PartCause::LineTooLong => "LineTooLong",
            PartCause::TooManyLines => "TooManyLines",
            PartCause::BadWord => "BadWord",
            PartCause::BadNumber => "BadNumber",
            PartCause::BadShape => "BadShape",
            PartCause::NoPartno => "NoPartno",
            PartCause::NoFini => "NoFini",
            PartCause::LabelTwice => "LabelTwice",
            PartCause::LabelMissing => "LabelMissing",
            PartCause::MacroTwice => "MacroTwice",
            PartCause::MacroOpen => "MacroOpen",
            PartCause::LoopOpen => "LoopOpen",
        }
    }
}
