//! The lines of a machine table.

ghost use Rattle.std.specs.Prelude.{◌≡◌, ◌==◌, option_map, IfOk};
ghost use Rattle.std.specs.List.{list_any};
ghost use Rattle.std.specs.Result.{IfErr};
ghost use Rattle.apt_lexis.specs.Lines.{tab};
ghost use Rattle.apt_lexis.specs.Words.{in_front};
ghost use Rattle.apt_machine.specs.Machines.{IsDraft};
ghost use Rattle.apt_machine.specs.Tables as tables;

use crate::MachineCause;
use crate::draft::Draft;
use crate::key::{Key, key_named};
use crate::version::Version;
use apt_lexis::{first_word, is_readable};

fn has_tab(line: &[u8]) -> bool
    ensures { result ≡ list_any (λ b. b == tab) line.now }
{
    line.iter().any(|b| *b == b'\t')
}

/// The key of a line, of which this stands in front of the first blank.
fn key_of(version: Version, line: &[u8], name: &[u8]) -> Option<Key>
    requires { name.now ≡ in_front line.now }
    ensures { result ≡ tables.key_of version line.now }
{
    if has_tab(line) {
        None
    } else {
        key_named(version, name)
    }
}

/// What is said with one key more, which must not stand already, and its value.
fn with_key(draft: Draft, key: Option<Key>, value: Option<&[u8]>) -> Result<Draft, MachineCause>
    ensures value { result ≡ tables.keyed draft key (option_map (λ v. v.now) value.entry) }
    ensures within { IsDraft draft → IfOk result IsDraft }
    ensures cause { IfErr result tables.IsOfLine }
{
    let Some(key) = key else {
        return Err(MachineCause::Key);
    };
    if draft.has(key) {
        return Err(MachineCause::Twice);
    }
    let Some(value) = value else {
        return Err(MachineCause::Value);
    };
    draft.with(key, value).ok_or(MachineCause::Value)
}

/// What is said behind a line.
pub(crate) fn behind_line(
    version: Version,
    draft: Draft,
    line: &[u8],
) -> Result<Draft, MachineCause>
    ensures value { result ≡ tables.behind_line version draft line.now }
    ensures within { IsDraft draft → IfOk result IsDraft }
    ensures cause { IfErr result tables.IsOfLine }
{
    if line.is_empty() {
        return Ok(draft);
    }
    if !is_readable(line) {
        return Err(MachineCause::Byte);
    }
    let (name, value) = first_word(line);
    with_key(draft, key_of(version, line, name), value)
}
