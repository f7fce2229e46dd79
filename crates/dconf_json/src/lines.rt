//! Lines: a value, names, and values by their paths.
ghost use Rattle.std.specs.Prelude.{◌≡◌, [], ◌++◌, IfOk, OnOk, false, map, option_map, string_bytes};
ghost use Rattle.dconf_layers.specs.Children.{seen_row};
ghost use Rattle.dconf_json.specs.Lines.{line, member_tokens, members_tokens, names_tokens};
ghost use Rattle.dconf_json.specs.ReadBack.{ExplanationsAreReadBack, KeysAreReadBack, LocksAreReadBack, MembersAreReadBack, NamesAreReadBack, ValuesAreReadBack};
ghost use Rattle.dconf_json.specs.Values.{value_tokens};

use crate::values::push_value;
use dconf_layers::SeenKey;
use json::Writer;
use std::alloc::{AllocError, Global};

/// What was written, and a line feed.
pub(crate) fn line_of(writer: Writer) -> Result<String, AllocError>
    requires { writer.before ≡ [] }
    ensures { IfOk result (λ text. string_bytes text ≡ line writer.tokens) }
{
    let bytes = writer.into_inner();
    let mut line = String::from_utf8(bytes).unwrap();
    line.push('\n')?;
    Ok(line)
}

/// The value that the bytes of a variant hold, or `null`.
pub(crate) fn value_line(alloc: Global, bytes: Option<&[u8]>) -> Result<String, AllocError>
    ensures { IfOk result (λ text. string_bytes text ≡ line (value_tokens false (option_map (λ bytes. bytes.now) bytes.entry))) }
{
    let mut writer = Writer::new(Vec::new(alloc));
    push_value(alloc, &mut writer, false, bytes)?;
    line_of(writer)
}

/// Names in their order, as an array.
pub(crate) fn names_line(alloc: Global, names: &[String]) -> Result<String, AllocError>
    ensures { IfOk result (λ text. string_bytes text ≡ line (names_tokens (map string_bytes names.now))) }
{
    let mut writer = Writer::new(Vec::new(alloc));
    writer.begin_array()?;
    for name in names {
        writer.string(name.as_str())?;
    }
    writer.end_array()?;
    line_of(writer)
}

/// The values that are seen, by their paths, as an object in that order. `skips` says that one that holds a double is `null`.
pub(crate) fn members_line(
    alloc: Global,
    skips: bool,
    keys: &[SeenKey<'_>],
) -> Result<String, AllocError>
    ensures { IfOk result (λ text. string_bytes text ≡ line (members_tokens skips (map seen_row keys.now))) }
{
    let mut writer = Writer::new(Vec::new(alloc));
    writer.begin_object()?;
    for key in keys {
        push_member(alloc, &mut writer, skips, key)?;
    }
    writer.end_object()?;
    line_of(writer)
}

/// A key that has a value.
fn push_member(
    alloc: Global,
    writer: &mut Writer,
    skips: bool,
    key: &SeenKey<'_>,
) -> Result<(), AllocError>
    ensures tokens { OnOk result (writer.new.tokens ≡ writer.old.tokens ++ member_tokens skips (seen_row key.now)) }
    ensures before { OnOk result (writer.new.before ≡ writer.old.before) }
{
    let Some(bytes) = key.bytes else {
        return Ok(());
    };
    writer.key(key.path.as_str())?;
    push_value(alloc, writer, skips, Some(bytes))
}

/// Laws of each line that is printed: a reader of JSON finds in it what it was written of.
pub fn lines_are_read_back()
    ensures values { ValuesAreReadBack }
    ensures names { NamesAreReadBack }
    ensures members { MembersAreReadBack }
    ensures explanations { ExplanationsAreReadBack }
    ensures keys { KeysAreReadBack }
    ensures locks { LocksAreReadBack }
{}
