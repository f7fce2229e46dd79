//! Types without the maybes around them: a literal may occur at any number of maybes of its type.
ghost use Rattle.std.specs.Prelude.{◌≡◌};
ghost use Rattle.gv_types.specs.TypeStr.{ty};
ghost use Rattle.gv_infer.specs.BareTypes.{bare_type, AreEntryTypes};

use gv_types::{Class, TypeStr};

/// The type without the maybes around it. It looks at their letters and no more.
pub(crate) fn bare(of: TypeStr<'_>) -> TypeStr<'_>
    ensures { ty result ≡ bare_type (ty of.entry) }
{
    match of.class() {
        Class::Maybe => bare(of.element().unwrap()),
        _ => of,
    }
}

/// The types of an entry's key and value, or None for any other type. It looks at the type's text once.
pub(crate) fn entry_types(of: TypeStr<'_>) -> Option<(TypeStr<'_>, TypeStr<'_>)>
    ensures { AreEntryTypes (ty of.entry) result }
{
    let key = of.key()?;
    let mut members = of.members();
    members.next()?;
    Some((key, members.next()?))
}
