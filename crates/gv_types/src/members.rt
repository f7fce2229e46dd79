//! The members of a tuple or an entry, one after the other.
ghost use Rattle.std.specs.Prelude.{◌≡◌, ◌<◌, ◌↔◌, ◌∷◌, IfNone, IfSome, IsTrue, None, [], false};
ghost use Rattle.gv_model.specs.Ty.{Ty.basic};
ghost use Rattle.gv_model.specs.Layout.{fixed_size};
ghost use Rattle.gv_model.specs.Texts.{are_types};
ghost use Rattle.gv_model.specs.TypeText.{seen, type_at};
ghost use Rattle.gv_types.specs.Classes.{basic_of};
ghost use Rattle.gv_types.specs.SingleTuples.{IsSingleMember};

use crate::class::{BasicType, basic_type_of};
use crate::grammar::read_member;
use crate::type_str::TypeStr;

/// The types of the members of a tuple or an entry that are left, in order.
///
/// Where the tuple is known to be so many of one member, one in another, the rest is that of its member, and nothing has to
/// be read to find its end.
#[derive(Clone, Copy, Debug)]
pub struct Members<'a> {
    pub(crate) rest: &'a str,
    pub(crate) singles: u8,
    pub(crate) known_open: bool,
    ghost are_types: { IsTrue (are_types (seen rest.now)) },
    ghost alone: { 0 < singles → IsSingleMember singles rest.now },
    ghost open: { 0 < singles → IsTrue known_open → fixed_size (type_at rest.now) ≡ None },
}

impl<'a> Members<'a> {
    ghost use Rattle.gv_types.specs.Members.{begins_with_basic, members_left};

    /// No members.
    pub(crate) fn none() -> Members<'a>
        ensures { members_left result ≡ [] }
    {
        Members {
            rest: "",
            singles: 0,
            known_open: false,
        }
    }

    /// Takes the next member, if it is of a basic type. Else none is taken. It looks at one letter.
    #[inline(always)]
    pub fn next_basic(&mut self) -> Option<BasicType>
        ensures taken { IfSome result (λ of. members_left self.old ≡ basic (basic_of of) ∷ members_left self.new) }
        ensures left { IfNone result (members_left self.new ≡ members_left self.old) }
        ensures other { IfNone result (begins_with_basic (members_left self.old) ≡ false) }
    {
        let (letter, _) = self.rest.as_bytes().split_first()?;
        let of = basic_type_of(*letter)?;
        *self = Members {
            rest: &self.rest[1..],
            singles: 0,
            known_open: false,
        };
        Some(of)
    }

    /// Whether no member is left.
    pub fn is_empty(&self) -> bool
        ensures { IsTrue result ↔ (members_left self.now ≡ []) }
    {
        self.rest.is_empty()
    }
}

impl<'a> Iterator for Members<'a> {
    type Item = TypeStr<'a>;

    ghost use Rattle.std.specs.Iterator.{YieldsFirstBy, item_count};
    ghost use Rattle.gv_types.specs.TypeStr.{ty};
    ghost use Rattle.gv_types.specs.Members.{members_left};

    ghost next_gives = { YieldsFirstBy ty members_left };

    ghost remaining = { item_count members_left };

    #[inline(always)]
    fn next(&mut self) -> Option<TypeStr<'a>> {
        if self.singles > 0 {
            let member = TypeStr {
                text: self.rest,
                singles: self.singles - 1,
                known_open: self.known_open,
            };
            *self = Members::none();
            return Some(member);
        }
        let read = match read_member(self.rest.as_bytes()) {
            Ok(read) => read,
            // Types alone occur in the text, so reading stops only at its end.
            Err(_) => return None,
        };
        let (text, rest) = self.rest.split_at(self.rest.len() - read.rest.len());
        self.rest = rest;
        Some(TypeStr {
            text,
            singles: read.singles,
            known_open: false,
        })
    }
}
