//! Looking up a key in a dictionary of strings, an array of entries: of equal keys the first one counts.
ghost use Rattle.std.specs.Prelude.{◌≡◌, ◌↔◌, Some, IfSome, IsTrue, MatchOption, option_map};
ghost use Rattle.gv_model.specs.Ty.{Ty.array, Ty.entry, Basic.string};
ghost use Rattle.gv_model.specs.Entries.{HasKey, IsLookedUp};
ghost use Rattle.gv_types.specs.TypeStr.{ty};
ghost use Rattle.gv_model.specs.Parts.{parts};
ghost use Rattle.gv_view.specs.Dictionaries.{IsDictionary, IsFirstPart, IsTextEntry, IsValueUnder};

use crate::view::View;
use gv_types::{BasicType, Class, TypeStr};

impl<'a> View<'a> {
    ghost use Rattle.gv_view.specs.Views.{value, view_ty, view_bytes, shown};

    /// The value of the first entry with this key in an `a{sT}`, lent as its own bytes. None where no entry has it, and at
    /// another type.
    ///
    /// It goes over the entries once.
    pub fn entry(self, key: &str) -> Option<View<'a>>
        ensures found { IsLookedUp (value self.entry) key.now (option_map value result) }
        ensures lends { IfSome result (λ v.
            IsFirstPart (parts (view_ty self.entry) (view_bytes self.entry)) key.now (Some (shown v))) }
        ensures at_type { IfSome result (λ v. view_ty self.entry ≡ array (entry string (view_ty v))) }
    {
        if !is_dictionary(self.type_str) {
            return None;
        }
        for entry in self.children() {
            if let Some(value) = entry.value_under(key) {
                return Some(value);
            }
        }
        None
    }

    /// The value of an entry `{sT}`. None where its key is another.
    fn value_under(self, key: &str) -> Option<View<'a>>
        requires { IsTextEntry (view_ty self) }
        ensures { MatchOption result (¬ HasKey (value self.entry) key.now) (IsValueUnder self.entry key.now) }
    {
        let mut members = self.children();
        let name = members.next()?.as_str()?;
        if name == key { members.next() } else { None }
    }
}

/// Whether it is a type `a{sT}`.
fn is_dictionary(of: TypeStr<'_>) -> bool
    ensures { IsTrue result ↔ IsDictionary (ty of.entry) }
{
    if of.class() != Class::Array {
        return false;
    }
    let key = of.element().and_then(TypeStr::key);
    matches!(key.map(TypeStr::class), Some(Class::Basic(BasicType::Text)))
}
