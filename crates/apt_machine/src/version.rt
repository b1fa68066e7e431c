//! The versions of machine tables.

ghost use Rattle.std.specs.Prelude.{◌≡◌};
ghost use Rattle.apt_machine.specs.Keys as keys;

/// A version of machine tables: the second has four more keys.
#[derive(Clone, Copy)]
pub(crate) enum Version {
    First,
    Second,
}

/// The version that a first line names.
pub(crate) fn version_of(line: &[u8]) -> Option<Version>
    ensures { result ≡ keys.version_of line.now }
{
    if line == b"MACHINE 1".as_slice() {
        Some(Version::First)
    } else if line == b"MACHINE 2".as_slice() {
        Some(Version::Second)
    } else {
        None
    }
}
