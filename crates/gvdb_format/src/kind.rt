//! The kinds of items, each a letter.
ghost use Rattle.std.specs.Prelude.{◌≡◌, IfNone, IfSome};
ghost use Rattle.dconf_model.specs.Searchable.{IsKind};
ghost use Rattle.gvdb_format.specs.Kinds.{letter_of};

/// What an item points to.
#[derive(Clone, Copy, Debug, PartialEq, Eq)]
pub enum Kind {
    /// The bytes of a value.
    Value,
    /// The numbers of the items in a directory.
    List,
    /// A table.
    Table,
}

impl Kind {
    /// The letter that stands for the kind: `v`, `L` or `H`.
    #[inline(always)]
    pub fn letter(self) -> u8
        ensures { result ≡ letter_of self }
    {
        match self {
            Kind::Value => b'v',
            Kind::List => b'L',
            Kind::Table => b'H',
        }
    }

    /// The kind for which a letter stands. None where it stands for none.
    #[inline(always)]
    pub fn of(letter: u8) -> Option<Kind>
        ensures some { IfSome result (λ kind. letter_of kind ≡ letter) }
        ensures none { IfNone result (¬ IsKind letter) }
    {
        match letter {
            b'v' => Some(Kind::Value),
            b'L' => Some(Kind::List),
            b'H' => Some(Kind::Table),
            _ => None,
        }
    }
}
