//! A layer of settings: a sound database, lent from its file.
ghost use Rattle.std.specs.Prelude.{◌≡◌, None, Some, IfErr, IfOk, IsTrue, false, option_map, true};
ghost use Rattle.std.specs.FinMap.{get};
ghost use Rattle.dconf_model.specs.Databases.{IsBad, IsLayer, IsVerdict, settings_in};
ghost use Rattle.dconf_model.specs.Layers.{locks_path};
ghost use Rattle.dconf_model.specs.Paths.{is_key_path};
ghost use Rattle.dconf_model.specs.Opening.{IsDatabase, root_of};
ghost use Rattle.dconf_model.specs.Settings.{no_settings};
ghost use Rattle.dconf_model.specs.Sound.{IsFirstFault, IsSound};
ghost use Rattle.gvdb_read.specs.Lookups.{HasDirectoryValue, name_text};
ghost use Rattle.gvdb_read.specs.Tables.{region};
ghost use Rattle.gvdb_check.specs.Unsounds.{rule_of};
ghost use Rattle.dconf_layers.specs.Verdicts.{verdict_of};
ghost use Rattle.dconf_layers.specs.SoundTables.{AreOfSoundDatabase, IsSoundRoot, IsTableOfLocks, locks_if};

use crate::fault::DatabaseFault;
use gvdb_alike::is_shaped_as;
use gvdb_format::LOCKS;
use gvdb_read::{HashedName, Table, Unsound};

/// A database without items.
const EMPTY: &[u8] = b"GVariant\0\0\0\0\0\0\0\0\x18\0\0\0\x20\0\0\0\0\0\0\0\0\0\0\0";

/// A sound database: its root table, and its table of locks where it has one, and whether that may
/// have one of a directory. It may be handed to C and back.
#[repr(C)]
#[derive(Clone, Copy, Debug)]
pub struct Layer<'a> {
    pub(crate) values: Table<'a>,
    locks: Table<'a>,
    has_locks: bool,
    locks_directories: bool,
    ghost sound: { ∥ AreOfSoundDatabase values (locks_if has_locks locks) ∥₁ },
    ghost keys_alone: { has_locks ≡ true → locks_directories ≡ false → ¬ HasDirectoryValue (region locks) },
}

impl<'a> Layer<'a> {
    ghost use Rattle.dconf_layers.specs.LayerSettings.{has_locks, locks_of, settings_of};
    ghost use Rattle.dconf_layers.specs.Verdicts.{bytes_of_file};

    /// Opens the bytes of a file, or None where there is no file: that is an empty database. Bytes
    /// that open as no database, or as one that isn't sound, are refused.
    ///
    /// It takes no memory. It asks each rule of each item, as [`Table::check`] says.
    pub fn open(file: Option<&'a [u8]>) -> Result<Layer<'a>, DatabaseFault>
        ensures opens { IfOk result (λ layer. IsLayer (bytes_of_file file.entry) (settings_of layer)) }
        ensures fault { IfErr result (λ e. IsBad (bytes_of_file file.entry) (verdict_of e)) }
    {
        match file {
            Some(file) => Layer::of_bytes(file, None),
            None => Ok(Layer::empty()),
        }
    }

    /// As [`Layer::open`], of a file that replaced the one of this layer: what is as in that, which is sound, isn't asked
    /// anew. Where both have the same items, but for the bytes of values, and no locks, it costs a quarter.
    pub fn open_after<'b>(self, file: Option<&'b [u8]>) -> Result<Layer<'b>, DatabaseFault>
        ensures opens { IfOk result (λ layer. IsLayer (bytes_of_file file.entry) (settings_of layer)) }
        ensures fault { IfErr result (λ e. IsBad (bytes_of_file file.entry) (verdict_of e)) }
    {
        match file {
            Some(file) => Layer::of_bytes(file, Some(self)),
            None => Ok(Layer::empty()),
        }
    }

    /// Opens the bytes of a file, which may be like those of a layer.
    fn of_bytes(file: &'a [u8], like: Option<Layer<'_>>) -> Result<Layer<'a>, DatabaseFault>
        ensures opens { IfOk result (λ layer. IsLayer (Some file.entry.now) (settings_of layer)) }
        ensures fault { IfErr result (λ e. IsVerdict file.entry.now (verdict_of e)) }
    {
        let values = match Table::open(file) {
            Ok(values) => values,
            Err(fault) => return Err(DatabaseFault::NoDatabase(fault)),
        };
        if let Err(unsound) = check(values, like) {
            return Err(DatabaseFault::Unsound(unsound));
        }
        Ok(Layer::of_root(values))
    }

    /// The layer of a database that is known to be sound, as one that was just made is: nothing is asked of it.
    pub fn of_sound(file: &'a [u8]) -> Layer<'a>
        requires opens { IsDatabase file.now }
        requires sound { IsSound (root_of file.now) }
        ensures { settings_of result ≡ settings_in file.entry.now }
    {
        Layer::of_root(Table::open(file).unwrap())
    }

    /// The layer of a sound database's root table.
    fn of_root(values: Table<'a>) -> Layer<'a>
        requires { IsSoundRoot (region values) }
        ensures { settings_of result ≡ settings_in (region values.entry).file }
    {
        let Some(locks) = values.table(LOCKS) else {
            return Layer::without_locks(values);
        };
        Layer::with_locks(values, locks)
    }

    /// The layer of a sound database's root table, and its table of locks.
    fn with_locks(values: Table<'a>, locks: Table<'a>) -> Layer<'a>
        requires root { IsSoundRoot (region values) }
        requires locks { IsTableOfLocks (region values) (Some locks) }
        ensures { result.values ≡ values.entry }
    {
        Layer {
            values,
            locks,
            has_locks: true,
            locks_directories: locks.has_directory_value(),
        }
    }

    /// The layer of a sound database's root table, without a table of locks.
    fn without_locks(values: Table<'a>) -> Layer<'a>
        requires root { IsSoundRoot (region values) }
        requires none { IsTableOfLocks (region values) None }
        ensures { result.values ≡ values.entry }
    {
        Layer {
            values,
            locks: values,
            has_locks: false,
            locks_directories: false,
        }
    }

    /// The layer of an empty database.
    fn empty() -> Layer<'a>
        ensures { settings_of result ≡ no_settings }
    {
        Layer::without_locks(Table::open(EMPTY).unwrap())
    }

    /// Its root table.
    pub fn table(self) -> Table<'a>
        ensures { result ≡ self.entry.values }
    {
        self.values
    }

    /// The bytes of the value at a path, or None where it has none. It is one search.
    pub fn get(self, path: &str) -> Option<&'a [u8]>
        ensures { option_map (λ bytes. bytes.now) result ≡ get (settings_of self.entry).values path.now }
    {
        if self.values.n_items() == 0 {
            return None;
        }
        self.values.find_bytes(path)
    }

    /// Whether a lock covers a key: its own path is locked, or a directory above it.
    ///
    /// It searches for the path, and where some lock may be a directory's, for each of its directories.
    #[inline(always)]
    pub(crate) fn locks_path(self, path: HashedName<'_>) -> bool
        requires { IsTrue (is_key_path (name_text path)) }
        ensures { result ≡ locks_path (name_text path.entry) (settings_of self.entry) }
    {
        match self.locks() {
            Some(locks) => {
                if self.locks_directories {
                    locks.covers(path)
                } else {
                    locks.has_hashed(path)
                }
            }
            None => false,
        }
    }

    /// Whether it has a table of locks. Without one it locks no key.
    #[inline(always)]
    pub(crate) fn has_locks(self) -> bool
        ensures { result ≡ has_locks self.entry }
    {
        self.has_locks
    }

    /// Its table of locks, where it has one.
    #[inline(always)]
    pub(crate) fn locks(self) -> Option<Table<'a>>
        ensures { result ≡ locks_of self.entry }
    {
        if self.has_locks {
            Some(self.locks)
        } else {
            None
        }
    }
}

/// Whether a table is sound, as [`Table::check`] says: seen at once where it is shaped as that of a layer.
fn check(values: Table<'_>, like: Option<Layer<'_>>) -> Result<(), Unsound>
    ensures sound { IfOk result (λ _. IsSound (region values.entry)) }
    ensures fault { IfErr result (λ e. IsFirstFault (region values.entry) (rule_of e.rule) e.item) }
{
    if let Some(like) = like {
        if is_shaped_as(values, like.values) {
            return Ok(());
        }
    }
    values.check()
}
