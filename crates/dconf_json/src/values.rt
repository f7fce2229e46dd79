//! Values, and members of an object.
ghost use Rattle.std.specs.Prelude.{◌≡◌, ◌∷◌, [], ◌++◌, OnOk, codes, option_map};
ghost use Rattle.json.specs.Token.{boolean, key};
ghost use Rattle.gv_view.specs.Views.{value, view_bytes, view_ty};
ghost use Rattle.dconf_json.specs.Values.{WhatIsToldIsTheValue, double_tokens, text_member, text_or_null, tree_tokens, typed_tokens, value_tokens};

use gv_text::{PrintFault, PrintFlaw, print};
use gv_view::View;
use json::Writer;
use std::alloc::{AllocError, Global};

/// The value that the bytes of a variant hold, or `null` if there are none. `skips` says that one that holds a double is `null`, too.
pub(crate) fn push_value(
    alloc: Global,
    writer: &mut Writer,
    skips: bool,
    bytes: Option<&[u8]>,
) -> Result<(), AllocError>
    ensures tokens { OnOk result (writer.new.tokens ≡ writer.old.tokens ++ value_tokens skips (option_map (λ bytes. bytes.now) bytes.entry)) }
    ensures before { OnOk result (writer.new.before ≡ writer.old.before) }
{
    match bytes {
        Some(bytes) => push_held(alloc, writer, skips, View::of_variant(bytes)),
        None => writer.null(),
    }
}

/// The value that a view shows.
fn push_held(
    alloc: Global,
    writer: &mut Writer,
    skips: bool,
    view: View<'_>,
) -> Result<(), AllocError>
    ensures tokens { OnOk result (writer.new.tokens ≡ writer.old.tokens ++ tree_tokens skips (value view.entry) (view_ty view.entry) (view_bytes view.entry)) }
    ensures before { OnOk result (writer.new.before ≡ writer.old.before) }
{
    match print(alloc, view) {
        Ok(text) => writer.string(text.as_str()),
        Err(PrintFault::Fault(flaw)) => match flaw {
            PrintFlaw::TooLarge => push_typed(alloc, writer, view),
            PrintFlaw::DoubleText => push_double(alloc, writer, skips, view),
        },
        Err(PrintFault::Memory) => Err(AllocError),
    }
}

fn push_double(
    alloc: Global,
    writer: &mut Writer,
    skips: bool,
    view: View<'_>,
) -> Result<(), AllocError>
    ensures tokens { OnOk result (writer.new.tokens ≡ writer.old.tokens ++ double_tokens skips (view_ty view.entry) (view_bytes view.entry)) }
    ensures before { OnOk result (writer.new.before ≡ writer.old.before) }
{
    if skips {
        writer.null()
    } else {
        push_typed(alloc, writer, view)
    }
}

/// The type and the bytes of a value.
fn push_typed(alloc: Global, writer: &mut Writer, view: View<'_>) -> Result<(), AllocError>
    ensures tokens { OnOk result (writer.new.tokens ≡ writer.old.tokens ++ typed_tokens (view_ty view.entry) (view_bytes view.entry)) }
    ensures before { OnOk result (writer.new.before ≡ writer.old.before) }
{
    let bytes = hex::encode(alloc, view.bytes())?;
    writer.begin_object()?;
    push_text(writer, "type", view.type_str().as_str())?;
    push_text(writer, "bytes", bytes.as_str())?;
    writer.end_object()
}

/// A member that is a string.
pub(crate) fn push_text(writer: &mut Writer, name: &str, text: &str) -> Result<(), AllocError>
    ensures tokens { OnOk result (writer.new.tokens ≡ writer.old.tokens ++ text_member name.now text.now) }
    ensures before { OnOk result (writer.new.before ≡ writer.old.before) }
{
    writer.key(name)?;
    writer.string(text)
}

/// One that may be none.
pub(crate) fn push_text_if_any(
    writer: &mut Writer,
    name: &str,
    text: Option<&str>,
) -> Result<(), AllocError>
    ensures tokens { OnOk result (writer.new.tokens ≡ writer.old.tokens ++ key name.now ∷ text_or_null (option_map (λ text. text.now) text.entry)) }
    ensures before { OnOk result (writer.new.before ≡ writer.old.before) }
{
    writer.key(name)?;
    match text {
        Some(text) => writer.string(text),
        None => writer.null(),
    }
}

/// A member that is true or false.
pub(crate) fn push_bool(writer: &mut Writer, name: &str, is: bool) -> Result<(), AllocError>
    ensures tokens { OnOk result (writer.new.tokens ≡ writer.old.tokens ++ key name.now ∷ boolean is ∷ []) }
    ensures before { OnOk result (writer.new.before ≡ writer.old.before) }
{
    writer.key(name)?;
    writer.boolean(is)
}

/// A law of what is told of a value: it is the value's text, or a type and bytes that have the value.
pub fn what_is_told_is_the_value()
    ensures { WhatIsToldIsTheValue }
{}
