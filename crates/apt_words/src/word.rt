//! The vocabulary.
ghost use Rattle.std.specs.Prelude.{◌≡◌, ◌↔◌, ◌<◌, ◌⊎◌, Some, IfSome, IsNone};
ghost use Rattle.std.specs.List.{find};
ghost use Rattle.std.proofs.Common.{bytes_eq};
ghost use Rattle.apt_words.specs.declared.word.Word.{Word};
ghost use Rattle.apt_words.specs.Lookup as lookup;
ghost use Rattle.apt_words.specs.Vocabulary as vocabulary;

use crate::Symbol;

/// A word of the vocabulary.
#[derive(Clone, Copy, Debug, PartialEq, Eq)]
pub enum Word {
    Partno,
    Remark,
    Units,
    Inches,
    Mm,
    Clprnt,
    Nopost,
    Machin,
    Point,
    Intof,
    Xlarge,
    Xsmall,
    Ylarge,
    Ysmall,
    Center,
    Line,
    Parlel,
    Perpto,
    Left,
    Right,
    Tanto,
    Circle,
    Radius,
    Cutter,
    Intol,
    Outtol,
    Tllft,
    Tlrgt,
    Tlon,
    From,
    Goto,
    Godlta,
    Go,
    To,
    On,
    Past,
    Golft,
    Gorgt,
    Gofwd,
    Goback,
    Rapid,
    Stop,
    Opstop,
    End,
    Fini,
    Fedrat,
    Spindl,
    Clw,
    Cclw,
    Off,
    Coolnt,
    Flood,
    Mist,
    Loadtl,
    Patern,
    Linear,
    Cycle,
    Drill,
    Macro,
    Termac,
    Call,
    Loopst,
    Loopnd,
    Jumpto,
    If,
    Sqrtf,
    Absf,
}

/// The one table of the vocabulary: each word with its spelling, in the order of lengths and of first letters.
/// Whatever the lookup needs is made of it by the macros below.
macro_rules! vocabulary {
    ($make:ident $($with:expr),*) => {
        $make! { $($with;)*
            Go b"GO", If b"IF", Mm b"MM", On b"ON", To b"TO", Clw b"CLW", End b"END", Off b"OFF", Absf b"ABSF",
            Cclw b"CCLW", Call b"CALL", From b"FROM", Fini b"FINI", Goto b"GOTO", Line b"LINE", Left b"LEFT",
            Mist b"MIST", Past b"PAST", Stop b"STOP", Tlon b"TLON", Cycle b"CYCLE", Drill b"DRILL", Flood b"FLOOD", Golft b"GOLFT",
            Gorgt b"GORGT", Gofwd b"GOFWD", Intof b"INTOF", Intol b"INTOL", Macro b"MACRO", Point b"POINT",
            Right b"RIGHT", Rapid b"RAPID", Sqrtf b"SQRTF", Tanto b"TANTO", Tllft b"TLLFT", Tlrgt b"TLRGT",
            Units b"UNITS", Clprnt b"CLPRNT", Center b"CENTER", Circle b"CIRCLE", Cutter b"CUTTER",
            Coolnt b"COOLNT", Fedrat b"FEDRAT", Godlta b"GODLTA", Goback b"GOBACK", Inches b"INCHES",
            Jumpto b"JUMPTO", Linear b"LINEAR", Loadtl b"LOADTL", Loopst b"LOOPST", Loopnd b"LOOPND", Machin b"MACHIN",
            Nopost b"NOPOST", Outtol b"OUTTOL", Opstop b"OPSTOP", Partno b"PARTNO", Patern b"PATERN", Parlel b"PARLEL",
            Perpto b"PERPTO", Remark b"REMARK", Radius b"RADIUS", Spindl b"SPINDL", Termac b"TERMAC",
            Xlarge b"XLARGE", Xsmall b"XSMALL", Ylarge b"YLARGE", Ysmall b"YSMALL"
        }
    };
}

macro_rules! words {
    ($($word:ident $spelling:literal),*) => { [$(Word::$word),*] };
}

macro_rules! spelling_of {
    ($of:expr; $($word:ident $spelling:literal),*) => { match $of { $(Word::$word => $spelling),* } };
}

/// How many words are shorter, or as long and begin with a letter before this one.
macro_rules! words_before {
    ($length:expr; $letter:expr; $($word:ident $spelling:literal),*) => {
        $(($spelling.len() < $length || $spelling.len() == $length && $spelling[0] < $letter) as u8 +)* 0
    };
}

macro_rules! words_before_each {
    ($length:expr; $($letter:literal)*) => { [$(vocabulary!(words_before $length, $letter)),*] };
}

/// Where the words of a length begin in the table that have one first letter, and where those of `Z` end.
macro_rules! starts {
    ($length:expr) => {
        words_before_each!($length; b'A' b'B' b'C' b'D' b'E' b'F' b'G' b'H' b'I' b'J' b'K' b'L' b'M' b'N' b'O' b'P' b'Q'
            b'R' b'S' b'T' b'U' b'V' b'W' b'X' b'Y' b'Z' b'[')
    };
}

static WORDS: &[Word] = &vocabulary!(words);

static OF_TWO: [u8; 27] = starts!(2);

static OF_THREE: [u8; 27] = starts!(3);

static OF_FOUR: [u8; 27] = starts!(4);

static OF_FIVE: [u8; 27] = starts!(5);

static OF_SIX: [u8; 27] = starts!(6);

impl Word {
    /// Its spelling, in capitals.
    #[inline(always)]
    pub fn spelling(&self) -> &'static [u8]
        ensures { result.now ≡ vocabulary.spelling self.now }
    {
        vocabulary!(spelling_of self)
    }
}

/// The word of the vocabulary that a symbol spells, None where it spells none.
#[tactic(auto, using(crate::proofs::Words::spelled))]
pub fn word_of(symbol: &Symbol) -> Option<Word>
    ensures value { result ≡ vocabulary.word_of symbol.now }
    ensures spelled { (w : Word) → (result ≡ Some w) ↔ (symbol.now ≡ vocabulary.spelling w) }
{
    word_spelled(symbol.as_bytes())
}

#[tactic(auto, using(crate::proofs::Alike::empty_spells_none))]
fn word_spelled(text: &[u8]) -> Option<Word>
    ensures { result ≡ vocabulary.word_of text.now }
{
    let (initial, _) = text.split_first()?;
    word_in(alike(text.len(), *initial), text)
}

/// Where the words of a length begin in the table that have one first letter, and where those of `Z` end; none where
/// no word is as long.
fn starts_of(length: usize) -> Option<&'static [u8]>
    ensures some { IfSome result (λ starts. lookup.AreStarts length starts.now) }
    ensures none { IsNone result → (length < 2) ⊎ (6 < length) }
{
    match length {
        2 => Some(&OF_TWO),
        3 => Some(&OF_THREE),
        4 => Some(&OF_FOUR),
        5 => Some(&OF_FIVE),
        6 => Some(&OF_SIX),
        _ => None,
    }
}

/// The words of a length that begin with a letter.
#[tactic(auto, using(crate::proofs::Alike::no_other, crate::proofs::Alike::none_so_long))]
fn alike(length: usize, letter: u8) -> &'static [Word]
    ensures { result.now ≡ lookup.alike length letter }
{
    if !letter.is_ascii_uppercase() {
        return &[];
    }
    let Some(starts) = starts_of(length) else {
        return &[];
    };
    let at = (letter - b'A') as usize;
    &WORDS[starts[at] as usize..starts[at + 1] as usize]
}

fn word_in(words: &[Word], text: &[u8]) -> Option<Word>
    ensures { result ≡ find (λ w. bytes_eq (vocabulary.spelling w) text.now) words.now }
{
    words
        .iter()
        .copied()
        .find(|word| is_same(word.spelling(), text))
}

/// Whether two short texts have the same bytes.
#[tactic(auto, using(crate::proofs::Same::goes_on, crate::proofs::Same::differs, crate::proofs::Same::ends, crate::proofs::Same::other_length))]
fn is_same(a: &[u8], b: &[u8]) -> bool
    ensures { result ≡ bytes_eq a.now b.now }
{
    if a.len() != b.len() {
        return false;
    }
    'bytes: for i in 0..a.len() {
        if a[i] != b[i] {
            return false;
        }
    }
    true
}
