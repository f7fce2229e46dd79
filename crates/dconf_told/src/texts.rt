//! Texts: how they are handed out, and searched for.
ghost use Rattle.std.specs.Prelude.{◌≡◌, ◌∷◌, ◌++◌, [], IfOk, OnOk, map, string_bytes};
ghost use Rattle.std.specs.Cmp.Lexicographic.{slice_cmp};
ghost use Rattle.std.specs.List.{list_any};
ghost use Rattle.std.specs.Ordering.{nat_cmp};
ghost use Rattle.std.specs.Str.{bytes_eq};
ghost use Rattle.dconf_model.specs.Order.{IsRising};
ghost use Rattle.dconf_told.specs.Telling.{ended};

use std::alloc::{AllocError, Global};
use std::cmp::Ordering;

/// The texts, a zero byte after each.
pub(crate) fn texts_of(alloc: Global, texts: &[String]) -> Result<Vec<u8>, AllocError>
    ensures { IfOk result (λ all. all.items ≡ ended (map string_bytes texts.now)) }
{
    let mut all = Vec::new(alloc);
    for text in texts {
        add_text(text.as_str(), &mut all)?;
    }
    Ok(all)
}

/// Adds a text and a zero byte.
fn add_text(text: &str, all: &mut Vec<u8>) -> Result<(), AllocError>
    ensures { OnOk result (all.new.items ≡ all.old.items ++ (text.now ++ 0 ∷ [])) }
{
    all.extend_from_slice(text.as_bytes())?;
    all.push(0)?;
    Ok(())
}

/// Whether a text is one of these, which are in the order of their bytes, once each. It is searched for by halving.
pub(crate) fn has_text(texts: &[String], text: &str) -> bool
    requires { IsRising (map string_bytes texts.now) }
    ensures { result ≡ list_any (bytes_eq text.now) (map string_bytes texts.now) }
{
    texts
        .binary_search_by(|one| order_of(one, text.as_bytes()))
        .is_ok()
}

/// How a text and a path are ordered, by their bytes.
pub(crate) fn order_of(text: &String, path: &[u8]) -> Ordering
    ensures { result ≡ slice_cmp nat_cmp (string_bytes text.now) path.now }
{
    text.as_bytes().cmp(path)
}
