//! Which edits may be made.
ghost use Rattle.std.specs.Prelude.{◌≡◌};
ghost use Rattle.dconf_seen.specs.Allowed.{may_be_made};

/// Whether an edit may be made: somebody may write in the user's database, and the path may be written; but no lock keeps a directory from
/// being reset, where what is locked stays.
pub fn may_be_made(path: &[u8], sets: bool, is_open: bool, may_write: bool) -> bool
    ensures { result ≡ may_be_made path.now sets is_open may_write }
{
    is_open && (may_write || (!sets && path.ends_with(b"/")))
}
