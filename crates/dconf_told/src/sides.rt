//! What may be written: by the locks of all layers but the first.
ghost use Rattle.std.specs.Prelude.{◌≡◌, IfOk, IsTrue, drop, false, map, string_bytes, true};
ghost use Rattle.std.specs.List.{list_any};
ghost use Rattle.dconf_model.specs.Locks.{covers};
ghost use Rattle.dconf_model.specs.Paths.{starts_with_slash};
ghost use Rattle.dconf_layers.specs.LayerSettings.{seen_in, settings_of};
ghost use Rattle.dconf_seen.specs.Waiting.{may_write};
ghost use Rattle.dconf_told.specs.Relocking.{locks_beside, locks_in, may_beside, other_beside};

use crate::texts::order_of;
use dconf_layers::{Layer, LentLayers, Texts};
use dconf_path::DirPath;
use dconf_seen::covers;
use std::alloc::{AllocError, Global};

/// The directory of all paths.
const ROOT: &str = "/";

/// What may be written on one side: nothing, or all that these locks leave.
#[derive(Clone, Copy)]
pub(crate) struct Side<'l> {
    writable: bool,
    pub(crate) locks: &'l [String],
}

/// Whether a path may be written, a key, or all that is below a directory: there is a user's database, and no lock covers it. What
/// doesn't start with `/` is locked by nobody.
///
/// An error comes where a growth is refused. It looks at each lock.
pub fn may_write(alloc: Global, layers: LentLayers<'_, '_>, path: &[u8]) -> Result<bool, AllocError>
    ensures path { IfOk result (λ may. starts_with_slash path.now ≡ true → may ≡ may_write (seen_in layers.entry) path.now) }
    ensures none { IfOk result (λ may. starts_with_slash path.now ≡ false → may ≡ (seen_in layers.entry).writable) }
{
    let locks = locks_of(alloc, layers.layers)?;
    let side = Side::new(layers.writable, locks.as_slice());
    Ok(side.may_write(path))
}

/// The locks that count of these layers, those of all but the first, in byte order.
pub(crate) fn locks_of(alloc: Global, layers: &[Layer<'_>]) -> Result<Vec<String>, AllocError>
    ensures { IfOk result (λ locks. map string_bytes locks.items ≡ locks_in (drop 1 (map settings_of layers.now))) }
{
    let root = DirPath::parse(ROOT).unwrap();
    let mut locks = Texts::new(alloc);
    let Some((_, later)) = layers.split_first() else {
        return locks.list();
    };
    for layer in later {
        layer.add_locks(alloc, root, &mut locks)?;
    }
    locks.list()
}

impl<'l> Side<'l> {
    /// What may be written where these are the locks.
    pub(crate) fn new(writable: bool, locks: &'l [String]) -> Side<'l>
        ensures writable { result.writable ≡ writable }
        ensures locks { result.locks.now ≡ locks.now }
    {
        Side { writable, locks }
    }

    /// Whether it is otherwise on the other side whether a path may be written.
    pub(crate) fn is_other(self, after: Side<'_>, path: &[u8]) -> bool
        ensures { result ≡ other_beside self.entry after.entry path.now }
    {
        if self.has_lock(path) && after.has_lock(path) {
            return false;
        }
        self.may_write(path) != after.may_write(path)
    }

    /// Whether a path may be written.
    fn may_write(self, path: &[u8]) -> bool
        ensures { result ≡ may_beside self.entry path.now }
    {
        self.writable && !self.is_locked(path)
    }

    /// Whether a lock covers a path.
    fn is_locked(self, path: &[u8]) -> bool
        ensures { result ≡ list_any (λ lock. covers lock path.now) (locks_beside self.entry) }
    {
        self.locks.iter().any(|lock| covers(lock.as_bytes(), path))
    }

    /// Whether a path is one of the locks, so that it is locked: it is searched for by halving.
    fn has_lock(self, path: &[u8]) -> bool
        ensures { IsTrue result → list_any (λ lock. covers lock path.now) (locks_beside self.entry) ≡ true }
    {
        self.locks
            .binary_search_by(|lock| order_of(lock, path))
            .is_ok()
    }
}
