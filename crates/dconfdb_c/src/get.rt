//! What is in a value: its number, its text, its children.
ghost use Rattle.std.specs.Prelude.{◌≡◌, ◌↔◌, ◌≤◌, IsTrue, IsUtf8, None, Some, false};
ghost use Rattle.gv_model.specs.Decode.{decode};
ghost use Rattle.gv_model.specs.Tree.{children, tree_at, trees_len};
ghost use Rattle.gv_model.specs.TypeText.{type_at};
ghost use Rattle.dconfdb_c.specs.Variants.{is_variant};
ghost use Rattle.dconfdb_values.specs.Numbers.{IsNumber, IsNumberType};
ghost use Rattle.dconfdb_values.specs.Order.{ArePassed};
ghost use Rattle.dconfdb_values.specs.Parts.{IsFound, IsLentChild, part_value};
ghost use Rattle.dconfdb_values.specs.Texts.{IsText, IsTextType};

use crate::open::DconfdbText;
use dconfdb_values::{DconfdbChild, DconfdbPart, child, lookup, n_children, number, text};

/// The number that bytes are at the type that a text spells, if it is the one of this letter: of `b`
/// 0 or 1, of the others the bits that they are written in; `i` asks for an index `h` too. False at
/// any other type; then `bits` stays as it was.
#[unsafe(no_mangle)]
pub extern "C" fn dconfdb_number_in(
    type_text: &[u8],
    value: &[u8],
    letter: u8,
    bits: &mut u64,
) -> bool
    ensures some { IsTrue result ↔ IsNumberType type_text.now letter }
    ensures value { IsTrue result → IsNumber type_text.now value.now letter bits.new }
    ensures kept { result ≡ false → bits.new ≡ bits.old }
{
    match number(type_text, value, letter) {
        Some(n) => {
            *bits = n;
            true
        }
        None => false,
    }
}

/// The text that bytes are at `s`, `o` or `g`, lent from them or the library's own. False at any
/// other type; then `found` stays as it was.
#[unsafe(no_mangle)]
pub extern "C" fn dconfdb_text_in<'a>(
    type_text: &'a [u8],
    value: &'a [u8],
    found: &mut DconfdbText<'a>,
) -> bool
    ensures some { IsTrue result ↔ IsTextType type_text.entry.now }
    ensures value { IsTrue result → IsText type_text.entry.now value.entry.now found.new.text.now }
    ensures kept { result ≡ false → found.new ≡ found.old }
{
    match text(type_text, value) {
        Some(s) => {
            *found = DconfdbText { text: s.as_bytes() };
            true
        }
        None => false,
    }
}

/// How many children a value has; 0 where the text spells no type.
#[unsafe(no_mangle)]
pub extern "C" fn dconfdb_count_children(type_text: &[u8], value: &[u8]) -> usize
    ensures { result ≡ trees_len (children (decode (type_at type_text.now) value.now)) }
{
    n_children(type_text, value)
}

/// The child of a whole at the index, lent from the value's bytes. False where there are no more, or, if `of_variant`, where the text isn't `v`; then
/// `found` stays as it was.
///
/// The whole's `passed` is 0, which is right of all bytes, or what an earlier call left there of the same bytes: how many of
/// the first children are known to be in order, so that they are not looked at again. All else of it stays.
#[unsafe(no_mangle)]
pub extern "C" fn dconfdb_child_at<'a>(
    whole: &mut DconfdbChild<'a>,
    of_variant: bool,
    index: usize,
    found: &mut DconfdbPart<'a>,
) -> bool
    requires order { ArePassed (type_at whole.now.type_text.now) whole.now.value.now whole.now.passed }
    ensures variant { IsTrue result → IsTrue of_variant → IsTrue (is_variant whole.old.type_text.now) }
    ensures value { IsTrue result → tree_at (children (decode (type_at whole.old.type_text.now) whole.old.value.now)) index ≡ Some (part_value found.new) }
    ensures lent { IsTrue result → IsLentChild whole.old.type_text.now whole.old.value.now index found.new }
    ensures none { result ≡ false → (IsTrue of_variant → IsTrue (is_variant whole.old.type_text.now)) → tree_at (children (decode (type_at whole.old.type_text.now) whole.old.value.now)) index ≡ None }
    ensures kept { result ≡ false → found.new ≡ found.old }
    ensures same { (whole.new.type_text ≡ whole.old.type_text) × (whole.new.value ≡ whole.old.value) × (whole.new.origin ≡ whole.old.origin) }
    ensures order { ArePassed (type_at whole.old.type_text.now) whole.old.value.now whole.new.passed }
    ensures onward { whole.old.passed ≤ whole.new.passed }
{
    if of_variant && !is_variant(whole.type_text) {
        return false;
    }
    match child(whole.type_text, whole.value, index, &mut whole.passed) {
        Some(part) => {
            *found = part;
            true
        }
        None => false,
    }
}

/// The value of the first entry with this key in a dictionary of strings or of object paths. False
/// where no entry has it, at any other type, and where the key is no UTF-8; then `found` stays as it
/// was.
#[unsafe(no_mangle)]
pub extern "C" fn dconfdb_look_up<'a>(
    type_text: &'a [u8],
    value: &'a [u8],
    key: &[u8],
    found: &mut DconfdbPart<'a>,
) -> bool
    ensures value { IsTrue result → IsFound (decode (type_at type_text.entry.now) value.entry.now) key.now (Some (part_value found.new)) }
    ensures none { result ≡ false → IsUtf8 key.now → IsFound (decode (type_at type_text.entry.now) value.entry.now) key.now None }
    ensures text { IsTrue result → IsUtf8 key.now }
    ensures kept { result ≡ false → found.new ≡ found.old }
{
    let Ok(key) = str::from_utf8(key) else {
        return false;
    };
    match lookup(type_text, value, key) {
        Some(part) => {
            *found = part;
            true
        }
        None => false,
    }
}

/// Whether a type is that of a variant.
fn is_variant(type_text: &[u8]) -> bool
    ensures { result ≡ is_variant type_text.now }
{
    type_text == "v".as_bytes()
}
