//! Whether a key is seen alike at two times.
ghost use Rattle.std.specs.Prelude.{◌≡◌, ◌↔◌, IfOk, IsTrue, option_map};
ghost use Rattle.gv_view.specs.Views.{value};
ghost use Rattle.dconf_model.specs.Salvaging.{IsKeyText};
ghost use Rattle.dconf_told.specs.Seeing.{shown_to};

use crate::seen::DconfdbView;
use dconf_differences::show_same;
use dconf_path::KeyPath;
use gv_view::View;
use std::alloc::{AllocError, Global};

/// Whether the same value is seen at a key's path before and after, or none both times, by who asks for that type; an empty text asks
/// for any. A value in other bytes is the same one. What is no key's path shows nothing.
///
/// An error comes if an allocation fails. The same bytes at one type are told without memory, and so are other bytes that are normal.
pub fn are_seen_alike(
    alloc: Global,
    before: DconfdbView<'_, '_>,
    after: DconfdbView<'_, '_>,
    path: &[u8],
    type_text: &[u8],
) -> Result<bool, AllocError>
    ensures { IfOk result (λ alike. IsTrue alike ↔ (IsKeyText path.now → shown_to type_text.now before.entry path.now ≡ shown_to type_text.now after.entry path.now)) }
{
    let Some(path) = KeyPath::of_bytes(path) else {
        return Ok(true);
    };
    is_same(
        alloc,
        before.seen(path, type_text),
        after.seen(path, type_text),
    )
}

/// Whether the same value is seen, or none both times.
fn is_same(
    alloc: Global,
    first: Option<View<'_>>,
    second: Option<View<'_>>,
) -> Result<bool, AllocError>
    ensures { IfOk result (λ same. IsTrue same ↔ (option_map value first.entry ≡ option_map value second.entry)) }
{
    match (first, second) {
        (Some(first), Some(second)) => show_same(alloc, first, second),
        (None, None) => Ok(true),
        _ => Ok(false),
    }
}
