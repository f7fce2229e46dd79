//! Which edit of a key is the newest that waits. Keys and edits have numbers; an edit's is 1 or more.
ghost use Rattle.dconf_waiting.specs.Newest.{IsPut, found};
ghost use Rattle.std.specs.Prelude.{◌≡◌};

/// The number of the newest edit of a key; 0 if none waits.
pub fn found(newest: &[usize], key: usize) -> usize
    ensures { result ≡ found newest.now key }
{
    match newest.get(key) {
        Some(number) => *number,
        None => 0,
    }
}

/// Puts an edit as the newest of its key, and gives the number of the one that was it before; 0 if there was none.
pub fn put(newest: &mut [usize], key: usize, number: usize) -> usize
    ensures { IsPut newest.old key number newest.new result }
{
    if key >= newest.len() {
        return 0;
    }
    let before = newest[key];
    newest[key] = number;
    before
}
