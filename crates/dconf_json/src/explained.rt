//! What explains keys: an object a line.
ghost use Rattle.std.specs.Prelude.{◌≡◌, ◌++◌, [], IfOk, IsTrue, OnOk, map, option_map, string_bytes};
ghost use Rattle.std.specs.List.{All};
ghost use Rattle.dconf_model.specs.Explains.{bytes_in, lock_in, place_name};
ghost use Rattle.dconf_model.specs.Paths.{is_key_path};
ghost use Rattle.dconf_path.specs.Paths.{key_text};
ghost use Rattle.dconf_path.specs.Profiles.{databases_of};
ghost use Rattle.dconf_layers.specs.Children.{seen_path};
ghost use Rattle.dconf_layers.specs.LayerSettings.{seen_in};
ghost use Rattle.dconf_json.specs.Explained.{database_tokens, explanation_tokens, explanations, head_tokens, held_tokens, refusal, refusal_tokens, seen_tokens, why_tokens};
ghost use Rattle.dconf_json.specs.Lines.{line};
ghost use Rattle.dconf_json.specs.Values.{text_member};

use crate::lines::line_of;
use crate::values::{push_text, push_text_if_any, push_value};
use dconf_commands::place_name;
use dconf_layers::{LentLayers, SeenKey};
use dconf_path::{KeyPath, Profile};
use json::Writer;
use std::alloc::{AllocError, Global};

/// A line for each of these keys.
pub(crate) fn explanations(
    alloc: Global,
    profile: &Profile<'_>,
    layers: LentLayers<'_, '_>,
    keys: &[SeenKey<'_>],
) -> Result<String, AllocError>
    requires { All (λ key. IsTrue (is_key_path (string_bytes key.path))) keys.now }
    ensures { IfOk result (λ text. string_bytes text ≡ explanations (databases_of profile.now) (seen_in layers.entry) (map seen_path keys.now)) }
{
    let mut text = String::new(alloc);
    for key in keys {
        let line = explanation_at(alloc, profile, layers, key.path.as_str())?;
        text.push_str(line.as_str())?;
    }
    Ok(text)
}

/// The line for the key of this path.
fn explanation_at(
    alloc: Global,
    profile: &Profile<'_>,
    layers: LentLayers<'_, '_>,
    path: &str,
) -> Result<String, AllocError>
    requires { IsTrue (is_key_path path.now) }
    ensures { IfOk result (λ text. string_bytes text ≡ line (explanation_tokens (databases_of profile.entry.now) (seen_in layers.entry) path.entry.now)) }
{
    explanation(alloc, profile, layers, KeyPath::parse(path).unwrap())
}

/// The line for a key.
pub(crate) fn explanation(
    alloc: Global,
    profile: &Profile<'_>,
    layers: LentLayers<'_, '_>,
    key: KeyPath<'_>,
) -> Result<String, AllocError>
    ensures { IfOk result (λ text. string_bytes text ≡ line (explanation_tokens (databases_of profile.entry.now) (seen_in layers.entry) (key_text key.entry))) }
{
    let mut writer = head(alloc, profile, layers, key)?;
    for i in 0..profile.databases().len() {
        push_database(alloc, &mut writer, profile, layers, key, i)?;
    }
    writer.end_array()?;
    writer.end_object()?;
    line_of(writer)
}

/// All but what the databases have.
fn head(
    alloc: Global,
    profile: &Profile<'_>,
    layers: LentLayers<'_, '_>,
    key: KeyPath<'_>,
) -> Result<Writer, AllocError>
    ensures tokens { IfOk result (λ writer. writer.tokens ≡ head_tokens (databases_of profile.entry.now) (seen_in layers.entry) (key_text key.entry)) }
    ensures before { IfOk result (λ writer. writer.before ≡ []) }
{
    let mut writer = Writer::new(Vec::new(alloc));
    writer.begin_object()?;
    push_text(&mut writer, "path", key.as_str())?;
    push_seen(alloc, &mut writer, profile, layers, key)?;
    push_refusal(&mut writer, layers, key)?;
    Ok(writer)
}

/// Why the key can't be set, if it can't; and that what the databases have comes next.
fn push_refusal(
    writer: &mut Writer,
    layers: LentLayers<'_, '_>,
    key: KeyPath<'_>,
) -> Result<(), AllocError>
    ensures tokens { OnOk result (writer.new.tokens ≡ writer.old.tokens ++ refusal_tokens (seen_in layers.entry) (key_text key.entry)) }
    ensures before { OnOk result (writer.new.before ≡ writer.old.before) }
{
    push_why(writer, layers, key)?;
    writer.key("databases")?;
    writer.begin_array()
}

/// Why `write` refuses the key, if it does.
fn push_why(
    writer: &mut Writer,
    layers: LentLayers<'_, '_>,
    key: KeyPath<'_>,
) -> Result<(), AllocError>
    ensures tokens { OnOk result (writer.new.tokens ≡ writer.old.tokens ++ why_tokens (seen_in layers.entry) (key_text key.entry)) }
    ensures before { OnOk result (writer.new.before ≡ writer.old.before) }
{
    let why = refusal(layers.writable, layers.is_locked(key));
    push_text_if_any(writer, "refusal", why)
}

/// What is seen at a key, and the database that has it.
fn push_seen(
    alloc: Global,
    writer: &mut Writer,
    profile: &Profile<'_>,
    layers: LentLayers<'_, '_>,
    key: KeyPath<'_>,
) -> Result<(), AllocError>
    ensures tokens { OnOk result (writer.new.tokens ≡ writer.old.tokens ++ seen_tokens (databases_of profile.entry.now) (seen_in layers.entry) (key_text key.entry)) }
    ensures before { OnOk result (writer.new.before ≡ writer.old.before) }
{
    writer.key("value")?;
    match layers.place_from(layers.level(key), key) {
        Some((i, bytes)) => {
            push_value(alloc, writer, false, Some(bytes))?;
            push_place(alloc, writer, "from", profile, i)
        }
        None => {
            writer.null()?;
            push_text_if_any(writer, "from", None)
        }
    }
}

/// The name of a database.
fn push_place(
    alloc: Global,
    writer: &mut Writer,
    name: &str,
    profile: &Profile<'_>,
    i: usize,
) -> Result<(), AllocError>
    ensures tokens { OnOk result (writer.new.tokens ≡ writer.old.tokens ++ text_member name.now (place_name (databases_of profile.entry.now) i)) }
    ensures before { OnOk result (writer.new.before ≡ writer.old.before) }
{
    let place = place_name(alloc, profile, i)?;
    push_text(writer, name, place.as_str())
}

/// What the database with this index has for a key.
fn push_database(
    alloc: Global,
    writer: &mut Writer,
    profile: &Profile<'_>,
    layers: LentLayers<'_, '_>,
    key: KeyPath<'_>,
    i: usize,
) -> Result<(), AllocError>
    ensures tokens { OnOk result (writer.new.tokens ≡ writer.old.tokens ++ database_tokens (databases_of profile.entry.now) (seen_in layers.entry) (key_text key.entry) i) }
    ensures before { OnOk result (writer.new.before ≡ writer.old.before) }
{
    writer.begin_object()?;
    push_place(alloc, writer, "database", profile, i)?;
    push_held(alloc, writer, layers, key, i)?;
    writer.end_object()
}

/// The value and the lock of the layer with this index.
fn push_held(
    alloc: Global,
    writer: &mut Writer,
    layers: LentLayers<'_, '_>,
    key: KeyPath<'_>,
    i: usize,
) -> Result<(), AllocError>
    ensures tokens { OnOk result (writer.new.tokens ≡ writer.old.tokens ++ held_tokens (seen_in layers.entry) (key_text key.entry) i) }
    ensures before { OnOk result (writer.new.before ≡ writer.old.before) }
{
    writer.key("value")?;
    push_value(alloc, writer, false, bytes_in(layers, i, key))?;
    push_text_if_any(writer, "lock", lock_in(layers, i, key))
}

/// The bytes that the layer with this index has for a key, seen or not.
fn bytes_in<'a>(layers: LentLayers<'a, '_>, i: usize, key: KeyPath<'_>) -> Option<&'a [u8]>
    ensures { option_map (λ bytes. bytes.now) result ≡ bytes_in (seen_in layers.entry) (key_text key.entry) i }
{
    match layers.layers.get(i) {
        Some(layer) => layer.get(key.as_str()),
        None => None,
    }
}

/// The lock by which that layer locks it. The first layer's locks don't count.
fn lock_in<'p>(layers: LentLayers<'_, '_>, i: usize, key: KeyPath<'p>) -> Option<&'p str>
    ensures { option_map (λ lock. lock.now) result ≡ lock_in (seen_in layers.entry) (key_text key.entry) i }
{
    if i == 0 {
        return None;
    }
    match layers.layers.get(i) {
        Some(layer) => layer.lock_of(key),
        None => None,
    }
}

/// Why `write` refuses a key, if it does.
fn refusal(writable: bool, locked: bool) -> Option<&'static str>
    ensures { option_map (λ why. why.now) result ≡ refusal writable locked }
{
    if !writable {
        Some("NotWritable")
    } else if locked {
        Some("Locked")
    } else {
        None
    }
}
