//! Lengths and words by their bytes, the highest first.
ghost use Rattle.std.specs.Prelude.{◌≡◌, ◌^◌, ◌<◌, ◌≤◌, ◌+◌, ◌++◌, length, vec_len, vec_capacity};
ghost use Rattle.apt_cldata.specs.Files as files;
ghost use Rattle.apt_cldata.specs.Reading as spec;

/// A word as it stands in a file.
pub(crate) type Word = [u8; 8];

/// The word in the first eight bytes.
#[tactic(auto, unfolding(crate::specs::Reading::word_in))]
pub(crate) fn word_in(bytes: &[u8]) -> i64
    requires { 8 ≤ length bytes.now }
    ensures { result ≡ spec.word_in bytes.now }
{
    i64::from_be_bytes(*bytes.first_chunk().unwrap())
}

/// The number that a word says.
#[tactic(auto, unfolding(crate::specs::Reading::number_of))]
pub(crate) fn number(word: &Word) -> i64
    ensures { result ≡ spec.number_of word.now }
{
    i64::from_be_bytes(*word)
}

/// The length in the first four bytes.
#[tactic(auto, unfolding(crate::specs::Reading::length_in))]
pub(crate) fn length_in(bytes: &[u8]) -> usize
    requires { 4 ≤ length bytes.now }
    ensures value { result ≡ spec.length_in bytes.now }
    ensures fits { result < 2 ^ 32 }
{
    u32::from_be_bytes(*bytes.first_chunk().unwrap()) as usize
}

/// Appends a length, for which there is room.
#[tactic(auto, unfolding(crate::specs::Files::length_bytes), using(crate::proofs::Pieces::four_more))]
pub(crate) fn push_length(bytes: &mut Vec<u8>, length: u32)
    requires { vec_len bytes.old + 4 ≤ vec_capacity bytes.old }
    ensures value { bytes.new.items ≡ bytes.old.items ++ files.length_bytes length }
    ensures len { vec_len bytes.new ≡ vec_len bytes.old + 4 }
    ensures capacity { vec_capacity bytes.new ≡ vec_capacity bytes.old }
{
    let [a, b, c, d] = length.to_be_bytes();
    bytes.push_reserved(a);
    bytes.push_reserved(b);
    bytes.push_reserved(c);
    bytes.push_reserved(d);
}

/// Appends a word, for which there is room.
#[tactic(auto, unfolding(crate::specs::Files::word_bytes), using(crate::proofs::Pieces::eight_more))]
pub(crate) fn push_word(bytes: &mut Vec<u8>, word: i64)
    requires { vec_len bytes.old + 8 ≤ vec_capacity bytes.old }
    ensures value { bytes.new.items ≡ bytes.old.items ++ files.word_bytes word }
    ensures len { vec_len bytes.new ≡ vec_len bytes.old + 8 }
    ensures capacity { vec_capacity bytes.new ≡ vec_capacity bytes.old }
{
    let [a, b, c, d, e, f, g, h] = word.to_be_bytes();
    bytes.push_reserved(a);
    bytes.push_reserved(b);
    bytes.push_reserved(c);
    bytes.push_reserved(d);
    bytes.push_reserved(e);
    bytes.push_reserved(f);
    bytes.push_reserved(g);
    bytes.push_reserved(h);
}
