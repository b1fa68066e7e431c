//! Blocks as shops spell them.

ghost use Rattle.std.specs.Prelude.{◌≡◌};
ghost use Rattle.apt_block.specs.Block.{IsBlock, tape_word};

use crate::rows::assert_all;
use apt_block::{Block, BlockError, TapeCause, TapeWord, read_block, write_block};
use std::alloc::{AllocError, AllocGlobal, Global};
use std::process::Abort;
use std::test::Fail;

fn word(letter: u8, value: i64) -> TapeWord
    ensures { result ≡ tape_word letter value }
{
    TapeWord { letter, value }
}

fn start() -> Block
    ensures { IsBlock result }
{
    let mut block = Block::new();
    block.push(word(b'N', 1));
    block.push(word(b'G', 70));
    block.push(word(b'G', 90));
    block.push(word(b'G', 94));
    block
}

fn to_x() -> Block
    ensures { IsBlock result }
{
    let mut block = Block::new();
    block.push(word(b'N', 2));
    block.push(word(b'X', -50_000_000));
    block
}

/// A word of circles, which is spelled though no straight control runs it.
fn centre() -> Block
    ensures { IsBlock result }
{
    let mut block = Block::new();
    block.push(word(b'G', 2));
    block.push(word(b'I', -10));
    block
}

fn spelled(alloc: Global, block: &Block, short: bool) -> Result<Vec<u8>, AllocError>
    requires { IsBlock block.now }
{
    let mut text = Vec::new(alloc);
    write_block(alloc, block, short, &mut text)?;
    Ok(text)
}

/// A block is spelled so with all digits, and so without leading zeros.
fn assert_spelled<R: Abort + AllocGlobal>(
    rt: &R,
    block: &Block,
    whole: &str,
    short: &str,
) -> Result<(), Fail>
    requires { IsBlock block.now }
{
    let text = spelled(rt.alloc(), block, false)?;
    assert!(rt; text.as_slice() == whole.as_bytes(), "{whole}");
    let text = spelled(rt.alloc(), block, true)?;
    assert!(rt; text.as_slice() == short.as_bytes(), "{short}");
    Ok(())
}

#[test]
fn spells_blocks(rt: HostRuntime) -> Result<(), Fail> {
    assert_spelled(&rt, &start(), "N0001G70G90G94\n", "N1G70G90G94\n")?;
    assert_spelled(&rt, &to_x(), "N0002X-50000000\n", "N2X-50000000\n")?;
    assert_spelled(&rt, &centre(), "G02I-00000010\n", "G02I-10\n")?;
    assert_spelled(&rt, &Block::new(), "\n", "\n")
}

/// Texts of blocks, and their words.
const WORDS: [(&str, &[(u8, i64)]); 9] = [
    (
        "N0001G70G90G94\n",
        &[(b'N', 1), (b'G', 70), (b'G', 90), (b'G', 94)],
    ),
    (
        "N1G70G90G94\n",
        &[(b'N', 1), (b'G', 70), (b'G', 90), (b'G', 94)],
    ),
    (
        "N0002G01X+00100000Y+00200000Z+00300000F0100\n",
        &[
            (b'N', 2),
            (b'G', 1),
            (b'X', 100_000),
            (b'Y', 200_000),
            (b'Z', 300_000),
            (b'F', 100),
        ],
    ),
    (
        "N02G01X100000Y+0200000Z300000F100\n",
        &[
            (b'N', 2),
            (b'G', 1),
            (b'X', 100_000),
            (b'Y', 200_000),
            (b'Z', 300_000),
            (b'F', 100),
        ],
    ),
    (
        "X-50000000Y-00000000Z-00000001S1250T07\n",
        &[
            (b'X', -50_000_000),
            (b'Y', 0),
            (b'Z', -1),
            (b'S', 1_250),
            (b'T', 7),
        ],
    ),
    (
        "X-50000000Y-0Z-001S1250T7\n",
        &[
            (b'X', -50_000_000),
            (b'Y', 0),
            (b'Z', -1),
            (b'S', 1_250),
            (b'T', 7),
        ],
    ),
    ("M02\n", &[(b'M', 2)]),
    ("\n", &[]),
    // Circles are read as blocks, though no straight control runs them.
    (
        "G02X5I-10J0R50000000F007\n",
        &[
            (b'G', 2),
            (b'X', 5),
            (b'I', -10),
            (b'J', 0),
            (b'R', 50_000_000),
            (b'F', 7),
        ],
    ),
];

/// The place of a word in a text, and what stands there.
fn word_at(text: &str, place: usize) -> Option<(u8, i64)> {
    let block = read_block(text.as_bytes()).ok()?;
    let word = block.words.get(place)?;
    Some((word.letter, word.value))
}

fn has_words(row: &(&str, &[(u8, i64)])) -> bool {
    let (text, words) = *row;
    for (place, word) in words.iter().enumerate() {
        if word_at(text, place) != Some(*word) {
            return false;
        }
    }
    word_at(text, words.len()).is_none()
}

#[test]
fn reads_blocks(rt: HostRuntime) {
    assert_all(&rt, &WORDS, has_words);
}

const REFUSED: [(&str, usize, TapeCause); 25] = [
    ("", 0, TapeCause::Truncated),
    ("N0001G7", 7, TapeCause::Truncated),
    ("M02", 3, TapeCause::Truncated),
    ("N0001Q\n", 5, TapeCause::BadBlock),
    ("N00001G70\n", 5, TapeCause::BadBlock),
    ("X+50000001\n", 9, TapeCause::BadBlock),
    ("X-50000001", 9, TapeCause::BadBlock),
    ("R000000001\n", 9, TapeCause::BadBlock),
    ("F0000\n", 4, TapeCause::BadBlock),
    ("F00\n", 2, TapeCause::BadBlock),
    ("F0", 2, TapeCause::Truncated),
    ("T0M06\n", 1, TapeCause::BadBlock),
    ("XY1\n", 1, TapeCause::BadBlock),
    ("Z+\n", 2, TapeCause::BadBlock),
    ("M2\n", 2, TapeCause::BadBlock),
    ("I1Z1\n", 2, TapeCause::BadBlock),
    ("J1I1\n", 2, TapeCause::BadBlock),
    ("G90N0001\n", 3, TapeCause::BadBlock),
    ("M00\nM01\n", 4, TapeCause::BadBlock),
    ("G00G90G01\n", 6, TapeCause::BadG),
    ("G02G80\n", 3, TapeCause::BadG),
    ("G90G91\n", 3, TapeCause::BadG),
    ("G04X+00000000\n", 0, TapeCause::BadG),
    ("G00G70G90G94G00\n", 12, TapeCause::BadG),
    ("M10\n", 0, TapeCause::BadM),
];

fn is_refused(row: &(&str, usize, TapeCause)) -> bool {
    let (text, at, cause) = *row;
    match read_block(text.as_bytes()) {
        Ok(_) => false,
        Err(error) => error == BlockError { at, cause },
    }
}

#[test]
fn refuses_blocks(rt: HostRuntime) {
    assert_all(&rt, &REFUSED, is_refused);
}

/// No tape is refused so today.
#[test]
fn names_the_causes_of_no_tape(rt: HostRuntime) {
    assert_eq!(rt; TapeCause::BadArc.name(), "BadArc");
    assert_eq!(rt; TapeCause::BadCycle.name(), "BadCycle");
}
