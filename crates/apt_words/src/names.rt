//! The spelling of cases.
ghost use Rattle.std.specs.Prelude.{◌≡◌};
ghost use Rattle.apt_words.specs.Names as names;

use crate::Case;

impl Case {
    /// Its name, as it is printed.
    pub fn name(&self) -> &'static str
        ensures { result.now ≡ names.name_of self.now }
    {
        match self {
            Case::Budget => "Budget",
            Case::AfterEnd => "AfterEnd",
            Case::Unknown => "Unknown",
            Case::DivideByZero => "DivideByZero",
            Case::NegativeRoot => "NegativeRoot",
            Case::TooLarge => "TooLarge",
            Case::JumpOutside => "JumpOutside",
            Case::NoSuchMacro => "NoSuchMacro",
            Case::Depth => "Depth",
            Case::BadArgs => "BadArgs",
            Case::Undefined => "Undefined",
            Case::WrongKind => "WrongKind",
            Case::BadCount => "BadCount",
            Case::OutOfRange => "OutOfRange",
            Case::Degenerate => "Degenerate",
            Case::NoMeeting => "NoMeeting",
            Case::CircleTooLarge => "CircleTooLarge",
            Case::FeedTooLarge => "FeedTooLarge",
            Case::SpindleTooLarge => "SpindleTooLarge",
            Case::ToolTooLarge => "ToolTooLarge",
            Case::FromAgain => "FromAgain",
            Case::NoFrom => "NoFrom",
            Case::NoFeed => "NoFeed",
            Case::RapidContour => "RapidContour",
            Case::TooFine => "TooFine",
            Case::NoTurn => "NoTurn",
            Case::NoRoom => "NoRoom",
            Case::OffDrive => "OffDrive",
            Case::OnCheck => "OnCheck",
            Case::Parallel => "Parallel",
            Case::NotTangent => "NotTangent",
            Case::NoContact => "NoContact",
            Case::FullTurn => "FullTurn",
            Case::Behind => "Behind",
            Case::TooManyPoints => "TooManyPoints",
            Case::TooManyHoles => "TooManyHoles",
        }
    }
}
