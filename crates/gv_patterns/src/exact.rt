//! The set that holds one type alone.
#![tactic(auto, unfolding(gv_model::specs::Patterns::exactly))]

ghost use Rattle.std.specs.Prelude.{◌≡◌, IfOk};
ghost use Rattle.gv_model.specs.Ty.{members};
ghost use Rattle.gv_model.specs.Patterns.{exactly, exactly_each, basics_of};
ghost use Rattle.gv_types.specs.TypeStr.{ty};
ghost use Rattle.gv_types.specs.Classes.{class_of};
ghost use Rattle.gv_types.specs.declared.class.Class.TheVariants.{Entry};
ghost use Rattle.gv_patterns.specs.BasicSets.{basic_set_of as set_of};
ghost use Rattle.gv_patterns.specs.Forms.{patterns_of};

use crate::admitted::{maybe_of, strict};
use crate::basic_set::BasicSet;
use crate::pattern::{Bare, Pattern};
use gv_types::{Class, TypeStr};
use std::alloc::{AllocError, Global};

impl Pattern {
    /// The set that holds the type alone. It takes time linear in the type's text times its levels.
    #[cycle(exactly)]
    pub(crate) fn exactly(alloc: Global, of: TypeStr<'_>) -> Result<Pattern, AllocError>
        ensures { IfOk result (λ p. p ≡ exactly (ty of.entry)) }
    {
        match of.class() {
            Class::Basic(basic) => Ok(strict(Bare::Basic(BasicSet::Only(basic)))),
            Class::Variant => Ok(strict(Bare::Variant)),
            Class::Array => {
                let element = Pattern::exactly(alloc, of.element().unwrap())?;
                Ok(strict(Bare::Array(Box::new(alloc, element)?)))
            }
            Class::Maybe => {
                let element = Pattern::exactly(alloc, of.element().unwrap())?;
                maybe_of(alloc, element)
            }
            Class::Tuple => Ok(strict(Bare::Tuple(Pattern::exactly_each(alloc, of)?))),
            Class::Entry => Pattern::exactly_entry(alloc, of),
        }
    }

    /// The sets that hold the type of each member of a tuple alone.
    #[cycle(exactly)]
    fn exactly_each(alloc: Global, of: TypeStr<'_>) -> Result<Vec<Pattern>, AllocError>
        ensures { IfOk result (λ ps. patterns_of ps.items ≡ exactly_each (members (ty of.entry))) }
    {
        let mut sets = Vec::new(alloc);
        for member in of.members() {
            sets.push(Pattern::exactly(alloc, member)?)?;
        }
        Ok(sets)
    }

    /// The set that holds the type of an entry alone.
    #[cycle(exactly)]
    fn exactly_entry(alloc: Global, of: TypeStr<'_>) -> Result<Pattern, AllocError>
        requires { class_of (ty of) ≡ Entry }
        ensures { IfOk result (λ p. p ≡ exactly (ty of.entry)) }
    {
        let mut members = of.members();
        let key = key_basics(members.next().unwrap());
        let value = Pattern::exactly(alloc, members.next().unwrap())?;
        Ok(strict(Bare::Entry(key, Box::new(alloc, value)?)))
    }
}

/// The set that holds a basic type alone; empty for any other type.
fn key_basics(of: TypeStr<'_>) -> BasicSet
    ensures { set_of result ≡ basics_of (exactly (ty of.entry)) }
{
    match of.class() {
        Class::Basic(basic) => BasicSet::Only(basic),
        Class::Variant | Class::Array | Class::Maybe | Class::Tuple | Class::Entry =>
            BasicSet::Empty,
    }
}
