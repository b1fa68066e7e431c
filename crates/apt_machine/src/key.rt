//! The keys of a machine table.

ghost use Rattle.std.specs.Prelude.{◌≡◌};
ghost use Rattle.apt_machine.specs.Keys as keys;

use crate::version::Version;

/// A key of a machine table.
#[derive(Clone, Copy)]
pub(crate) enum Key {
    Code,
    Seq,
    Feedmax,
    Spinmax,
    Toolmax,
    Words,
    Mode,
    Zeros,
    Arcs,
    Drill,
}

/// The key of a name.
pub(crate) fn key_named(version: Version, name: &[u8]) -> Option<Key>
    ensures { result ≡ keys.key_named version name.now }
{
    match version {
        Version::First => first_key(name),
        Version::Second => first_key(name).or(second_key(name)),
    }
}

fn first_key(name: &[u8]) -> Option<Key>
    ensures { result ≡ keys.first_key name.now }
{
    if name == b"CODE".as_slice() {
        Some(Key::Code)
    } else if name == b"SEQ".as_slice() {
        Some(Key::Seq)
    } else if name == b"FEEDMAX".as_slice() {
        Some(Key::Feedmax)
    } else if name == b"SPINMAX".as_slice() {
        Some(Key::Spinmax)
    } else if name == b"TOOLMAX".as_slice() {
        Some(Key::Toolmax)
    } else if name == b"WORDS".as_slice() {
        Some(Key::Words)
    } else {
        None
    }
}

fn second_key(name: &[u8]) -> Option<Key>
    ensures { result ≡ keys.second_key name.now }
{
    if name == b"MODE".as_slice() {
        Some(Key::Mode)
    } else if name == b"ZEROS".as_slice() {
        Some(Key::Zeros)
    } else if name == b"ARCS".as_slice() {
        Some(Key::Arcs)
    } else if name == b"DRILL".as_slice() {
        Some(Key::Drill)
    } else {
        None
    }
}
