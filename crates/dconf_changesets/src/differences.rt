//! Which changes make a difference to a database.
ghost use Rattle.std.specs.Prelude.{◌≡◌};
ghost use Rattle.dconf_changesets.specs.Differences.{differs};

/// What is known of a change's path.
#[repr(C)]
#[derive(Clone, Copy)]
pub struct Base {
    /// The database has a value there.
    pub has: bool,
    /// It is the change's.
    pub is_same: bool,
    /// A change that is kept resets a directory above it.
    pub is_reset: bool,
    /// The database has a value below the path.
    pub has_below: bool,
}

/// Whether a change makes a difference to a database, beside the changes that are kept before it.
pub fn differs(path: &[u8], sets: bool, base: &Base) -> bool
    ensures { result ≡ differs path.now sets base.now }
{
    if path.ends_with(b"/") {
        return base.has_below;
    }
    let has = base.has && !base.is_reset;
    if sets {
        return !(has && base.is_same);
    }
    has
}
