//! Whether a change says anything new beside the sets of changes that wait.
ghost use Rattle.std.specs.Prelude.{◌≡◌};
ghost use Rattle.dconf_changesets.specs.Saying.{is_said, is_same_word};

/// What a set says of a change's path.
#[repr(C)]
#[derive(Clone, Copy)]
pub struct Said {
    /// It says something.
    pub says: bool,
    /// That is what the change says.
    pub is_same: bool,
    /// It sets a key below the path.
    pub has_below: bool,
}

/// Whether the user has what a change says, or will have once these sets are written, the newest first. `is_stored`: the store has it.
pub fn is_said(said: &[Said], is_stored: bool) -> bool
    ensures { result ≡ is_said said.now is_stored }
{
    for set in said {
        if set.has_below || set.says {
            return !set.has_below && set.is_same;
        }
    }
    is_stored
}

/// Whether two edits of a path say the same: both reset it, or both set the same bytes at the same type. Bytes in normal form are the same
/// exactly if the value is.
pub fn is_same_word(
    sets: bool,
    type_text: &[u8],
    value: &[u8],
    other_sets: bool,
    other_type_text: &[u8],
    other_value: &[u8],
) -> bool
    ensures { result ≡ is_same_word sets type_text.now value.now other_sets other_type_text.now other_value.now }
{
    if sets && other_sets {
        return type_text == other_type_text && value == other_value;
    }
    !sets && !other_sets
}
