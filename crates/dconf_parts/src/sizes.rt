//! How large a file may be that is read, and whether it is mapped.
ghost use Rattle.std.specs.Prelude.{◌≡◌};
ghost use Rattle.dconf_parts.specs.Sizes.{is_mapped, kind_of, largest};

/// Which file it is.
#[derive(Clone, Copy)]
pub enum Kind {
    /// That which says in one word which kind of store the machine has.
    Machine,
    Profile,
    /// A site's database.
    Database,
    /// The user's database, which this program replaces.
    Users,
}

/// A file of more bytes isn't read.
pub fn largest(kind: Kind) -> u64
    ensures { result ≡ largest kind }
{
    match kind {
        Kind::Machine => 4096,
        Kind::Profile => 16_777_216,
        Kind::Database => 4_294_967_295,
        Kind::Users => 4_294_967_295,
    }
}

/// Whether it is mapped, if it is large: a site's database, which all programs share. What else is read is as it was then, whoever writes over it.
pub fn is_mapped(kind: Kind) -> bool
    ensures { result ≡ is_mapped kind }
{
    match kind {
        Kind::Machine => false,
        Kind::Profile => false,
        Kind::Database => true,
        Kind::Users => false,
    }
}

/// Both of a number: 0 the machine's file, 1 a profile, 2 a site's database, else the user's.
pub fn largest_number(kind: u32) -> (u64, bool)
    ensures largest { result.0 ≡ largest (kind_of kind) }
    ensures mapped { result.1 ≡ is_mapped (kind_of kind) }
{
    let is = kind_of(kind);
    (largest(is), is_mapped(is))
}

fn kind_of(number: u32) -> Kind
    ensures { result ≡ kind_of number }
{
    match number {
        0 => Kind::Machine,
        1 => Kind::Profile,
        2 => Kind::Database,
        _ => Kind::Users,
    }
}
