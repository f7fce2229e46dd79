//! The text of one type compares, prints and is lent as a text.
ghost use Rattle.std.specs.Prelude.{Some, bytes_eq};
ghost use Rattle.std.specs.Cmp.{on_equiv, on_per, partial_equiv_from_equiv};
ghost use Rattle.std.specs.Cmp.Lexicographic.{nat_list_eq_equiv};
ghost use Rattle.gv_types.specs.TypeStr.{text_of};

use crate::type_str::TypeStr;
use std::convert::AsStr;
use std::fmt;

/// Two are equal where their texts are, whatever is known of each besides.
impl PartialEq for TypeStr<'_> {
    ghost eq = { λ a b. bytes_eq (text_of a) (text_of b) };

    ghost laws = { on_per text_of (partial_equiv_from_equiv nat_list_eq_equiv) };

    fn eq(&self, other: &Self) -> bool {
        TypeStr::as_str(*self) == TypeStr::as_str(*other)
    }
}

impl Eq for TypeStr<'_> {
    ghost laws = { on_equiv text_of nat_list_eq_equiv };
}

impl AsStr for TypeStr<'_> {
    ghost text = { text_of };

    fn as_str(&self) -> &str {
        TypeStr::as_str(*self)
    }
}

impl fmt::Display for TypeStr<'_> {
    ghost output = { λ of. Some (text_of of) };

    fn fmt<W: fmt::Write>(&self, f: &mut fmt::Formatter<W>) -> fmt::Result {
        f.write_str(TypeStr::as_str(*self))
    }
}
