//! What `lint` prints of a finding: a line, or an object of JSON in one.
ghost use Rattle.std.specs.Prelude.{◌≡◌, ◌++◌, [], IfOk, OnOk, true, vec_items};
ghost use Rattle.dconf_texts.specs.Findings.{IsReadBack, bytes_member, head_tokens, json_line, kind_word, near_tokens, object_tokens, plain_line, printed, shown, shown_byte, text_member, text_or_null, whole_text};
ghost use Rattle.dconf_texts.specs.Strings.{as_utf8};

use crate::strings::read_all;
use json::Writer;
use std::alloc::{AllocError, Global};

/// What is printed of a finding, with its line feed: of that kind, in a file, which is no text perhaps, at a line; and what is nearest, if anything is.
///
/// The error is a failed allocation.
pub fn finding_line(
    alloc: Global,
    is_json: bool,
    kind: u32,
    file: &[u8],
    line: u64,
    text: &[u8],
    has_nearest: bool,
    nearest: &[u8],
) -> Result<Vec<u8>, AllocError>
    ensures printed { IfOk result (λ bytes. vec_items bytes ≡ printed is_json kind file.now line text.now has_nearest nearest.now) }
    ensures reads_back { is_json ≡ true → IfOk result (λ _. IsReadBack (object_tokens kind file.now line (whole_text text.now has_nearest nearest.now) has_nearest nearest.now)) }
{
    let whole = whole_text(alloc, text, has_nearest, nearest)?;
    if is_json {
        return object_line(alloc, kind, file, line, &whole, has_nearest, nearest);
    }
    plain_line(alloc, file, line, &whole)
}

/// What is said of it.
fn whole_text(
    alloc: Global,
    text: &[u8],
    has_nearest: bool,
    nearest: &[u8],
) -> Result<Vec<u8>, AllocError>
    ensures { IfOk result (λ bytes. vec_items bytes ≡ whole_text text.now has_nearest nearest.now) }
{
    let mut whole = Vec::new(alloc);
    whole.extend_from_slice(text)?;
    if has_nearest {
        whole.extend_from_slice(b"; the nearest is ")?;
        whole.extend_from_slice(nearest)?;
    }
    Ok(whole)
}

/// A line for a reader.
fn plain_line(alloc: Global, file: &[u8], line: u64, text: &[u8]) -> Result<Vec<u8>, AllocError>
    ensures { IfOk result (λ bytes. vec_items bytes ≡ plain_line file.now line text.now) }
{
    let mut bytes = Vec::new(alloc);
    push_shown(&mut bytes, file)?;
    bytes.push(b':')?;
    bytes.extend_from_slice(itoa::Buffer::new().format(line).as_bytes())?;
    bytes.extend_from_slice(b": ")?;
    push_shown(&mut bytes, text)?;
    bytes.push(b'\n')?;
    Ok(bytes)
}

/// Adds bytes as they are shown.
fn push_shown(line: &mut Vec<u8>, bytes: &[u8]) -> Result<(), AllocError>
    ensures { OnOk result (vec_items line.new ≡ vec_items line.old ++ shown bytes.now) }
{
    for byte in bytes {
        push_shown_byte(line, *byte)?;
    }
    Ok(())
}

/// A control character moves no terminal: it is `\` and its three octal digits.
fn push_shown_byte(line: &mut Vec<u8>, byte: u8) -> Result<(), AllocError>
    ensures { OnOk result (vec_items line.new ≡ vec_items line.old ++ shown_byte byte) }
{
    if byte >= 32 && byte != 127 {
        line.push(byte)?;
        return Ok(());
    }
    line.push(b'\\')?;
    line.push(b'0' + byte / 64)?;
    line.push(b'0' + byte / 8 % 8)?;
    line.push(b'0' + byte % 8)?;
    Ok(())
}

/// A line for a program.
fn object_line(
    alloc: Global,
    kind: u32,
    file: &[u8],
    line: u64,
    text: &[u8],
    has_nearest: bool,
    nearest: &[u8],
) -> Result<Vec<u8>, AllocError>
    ensures printed { IfOk result (λ bytes. vec_items bytes ≡ json_line (object_tokens kind file.now line text.now has_nearest nearest.now)) }
    ensures reads_back { IfOk result (λ _. IsReadBack (object_tokens kind file.now line text.now has_nearest nearest.now)) }
{
    let mut writer = near(alloc, kind, file, line, text, has_nearest, nearest)?;
    push_bytes(alloc, &mut writer, file)?;
    writer.end_object()?;
    let mut bytes = writer.into_inner();
    bytes.push(b'\n')?;
    Ok(bytes)
}

/// All of it but the file's bytes.
fn near(
    alloc: Global,
    kind: u32,
    file: &[u8],
    line: u64,
    text: &[u8],
    has_nearest: bool,
    nearest: &[u8],
) -> Result<Writer, AllocError>
    ensures tokens { IfOk result (λ writer. writer.tokens ≡ near_tokens kind file.now line text.now has_nearest nearest.now) }
    ensures before { IfOk result (λ writer. writer.before ≡ []) }
{
    let mut writer = head(alloc, kind, file, line)?;
    push_text(alloc, &mut writer, "text", text)?;
    writer.key("nearest")?;
    push_if_any(alloc, &mut writer, has_nearest, nearest)?;
    Ok(writer)
}

/// All that stands before what is said.
fn head(alloc: Global, kind: u32, file: &[u8], line: u64) -> Result<Writer, AllocError>
    ensures tokens { IfOk result (λ writer. writer.tokens ≡ head_tokens kind file.now line) }
    ensures before { IfOk result (λ writer. writer.before ≡ []) }
{
    let mut writer = Writer::new(Vec::new(alloc));
    writer.begin_object()?;
    push_text(alloc, &mut writer, "file", file)?;
    writer.key("line")?;
    writer.u64(line)?;
    writer.key("kind")?;
    writer.string(kind_word(kind))?;
    Ok(writer)
}

/// A member that is a string.
fn push_text(alloc: Global, writer: &mut Writer, name: &str, bytes: &[u8]) -> Result<(), AllocError>
    ensures tokens { OnOk result (writer.new.tokens ≡ writer.old.tokens ++ text_member name.now (as_utf8 bytes.now)) }
    ensures before { OnOk result (writer.new.before ≡ writer.old.before) }
{
    let text = read_all(alloc, bytes)?;
    writer.key(name)?;
    writer.string(text.as_str())
}

/// A string, or `null`.
fn push_if_any(
    alloc: Global,
    writer: &mut Writer,
    has_any: bool,
    bytes: &[u8],
) -> Result<(), AllocError>
    ensures tokens { OnOk result (writer.new.tokens ≡ writer.old.tokens ++ text_or_null has_any bytes.now) }
    ensures before { OnOk result (writer.new.before ≡ writer.old.before) }
{
    if !has_any {
        return writer.null();
    }
    let text = read_all(alloc, bytes)?;
    writer.string(text.as_str())
}

/// The file's name as hexadecimal digits, where its string says something else.
fn push_bytes(alloc: Global, writer: &mut Writer, file: &[u8]) -> Result<(), AllocError>
    ensures tokens { OnOk result (writer.new.tokens ≡ writer.old.tokens ++ bytes_member file.now) }
    ensures before { OnOk result (writer.new.before ≡ writer.old.before) }
{
    let read = read_all(alloc, file)?;
    if read.as_str().as_bytes() == file {
        return Ok(());
    }
    let digits = hex::encode(alloc, file)?;
    writer.key("bytes")?;
    writer.string(digits.as_str())
}

/// The word of a kind, by its number.
fn kind_word(kind: u32) -> &'static str
    ensures { result.now ≡ kind_word kind }
{
    match kind {
        0 => "no-key",
        1 => "no-locked-key",
        2 => "no-locked-directory",
        3 => "type",
        4 => "range",
        5 => "no-value",
        6 => "double",
        7 => "set-twice",
        8 => "not-set",
        9 => "line",
        10 => "unread",
        11 => "no-source",
        12 => "file",
        13 => "name",
        14 => "in-the-way",
        15 => "profile",
        16 => "no-database",
        _ => "unsound",
    }
}
