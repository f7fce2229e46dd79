//! S2: the key lies in the file, and is UTF-8 without a zero byte; the parent is none or the number of an item.
ghost use Rattle.std.specs.Prelude.{◌≡◌, ◌<◌, ◌↔◌, Contains, IsTrue, IsUtf8};
ghost use Rattle.std.specs.List.{list_all};
ghost use Rattle.gv_view.specs.Texts.{is_ascii_char};
ghost use Rattle.dconf_model.specs.Table.{item_count};
ghost use Rattle.dconf_model.specs.Searchable.{HasGoodKey};
ghost use Rattle.gvdb_format.specs.Tables.{region};

use gv_view::utf8_of;
use gvdb_format::RawTable;

/// Whether item `i` keeps the rule. It looks at each byte of the key.
#[inline(always)]
pub(crate) fn has_good_key(table: RawTable<'_>, i: u32) -> bool
    requires { i < item_count (region table) }
    ensures { IsTrue result ↔ HasGoodKey (region table.entry) i }
{
    let stored = table.stored(i);
    let Some(key) = table.key_of(stored) else {
        return false;
    };
    if !is_text(key) {
        return false;
    }
    match stored.parent {
        Some(parent) => parent < table.n_items(),
        None => true,
    }
}

/// Whether the bytes are UTF-8 without a zero byte.
#[tactic(auto, using(gv_view::proofs::ShortTexts::ascii_chars_are_utf8, crate::proofs::KeyTexts::no_zero, crate::proofs::KeyTexts::found_where_utf8))]
#[inline(always)]
fn is_text(key: &[u8]) -> bool
    ensures { IsTrue result ↔ IsUtf8 key.now × (¬ Contains key.now 0) }
{
    is_ascii_text(key) || utf8_of(key).is_some() && !key.contains(&0)
}

/// Whether the bytes are ASCII, and none is zero.
#[inline(always)]
fn is_ascii_text(key: &[u8]) -> bool
    ensures { result ≡ list_all is_ascii_char key.now }
{
    key.iter().all(|byte| *byte > 0 && *byte < 128)
}
