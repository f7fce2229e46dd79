//! Entries whose keys are object paths.
ghost use Rattle.std.specs.Prelude.{◌↔◌, IsTrue, MatchOption, option_map};
ghost use Rattle.gv_types.specs.TypeStr.{ty};
ghost use Rattle.gv_view.specs.Views.{value, view_ty};
ghost use Rattle.dconfdb_values.specs.Parts.{HasPath, IsFound, IsPathDictionary, IsPathEntry, IsUnderPath};

use gv_types::{BasicType, Class, TypeStr};
use gv_view::View;

/// Whether it is a type `a{oT}`.
pub(crate) fn has_paths(of: TypeStr<'_>) -> bool
    ensures { IsTrue result ↔ IsPathDictionary (ty of.entry) }
{
    if of.class() != Class::Array {
        return false;
    }
    let key = of.element().and_then(TypeStr::key);
    matches!(
        key.map(TypeStr::class),
        Some(Class::Basic(BasicType::ObjectPath))
    )
}

/// The value of the first entry with this key in an `a{oT}`. It goes over the entries once.
pub(crate) fn entry_at_path<'a>(view: View<'a>, key: &str) -> Option<View<'a>>
    requires { IsPathDictionary (view_ty view) }
    ensures { IsFound (value view.entry) key.now (option_map value result) }
{
    for entry in view.children() {
        if let Some(value) = value_under(entry, key) {
            return Some(value);
        }
    }
    None
}

/// The value of an entry `{oT}`. None where its key is another.
fn value_under<'a>(entry: View<'a>, key: &str) -> Option<View<'a>>
    requires { IsPathEntry (view_ty entry) }
    ensures { MatchOption result (¬ HasPath (value entry.entry) key.now) (IsUnderPath entry.entry key.now) }
{
    let mut members = entry.children();
    let name = members.next()?.as_str()?;
    if name == key { members.next() } else { None }
}
