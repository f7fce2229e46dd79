//! Layers that are lent, and what is seen through them.
ghost use Rattle.std.specs.Prelude.{◌≡◌, ◌<◌, ◌≤◌, IfSome, IsSome, IsTrue, List, Some, drop, false, length, map, option_map, slice_index_or, ℕ, take};
ghost use Rattle.std.specs.FinMap.{get};
ghost use Rattle.std.specs.List.{list_any};
ghost use Rattle.gv_view.specs.Views.{value};
ghost use Rattle.gvdb_read.specs.Lookups.{ShowsHeld, name_text};
ghost use Rattle.dconf_model.specs.Layers.{first_from, is_locked, level, locks_path, place_of, visible, visible_bytes, without_user};
ghost use Rattle.dconf_model.specs.Paths.{is_key_path};
ghost use Rattle.dconf_model.specs.Salvaging.{IsKeyText};
ghost use Rattle.dconf_model.specs.Settings.{no_settings};
ghost use Rattle.dconf_path.specs.Paths.{key_text};
ghost use Rattle.dconf_layers.specs.LayerSettings.{has_locks, settings_of};

use crate::layer::Layer;
use dconf_path::KeyPath;
use gv_view::View;
use gvdb_read::HashedName;

/// The layers of databases, lent, the first database's first. It takes no memory.
#[derive(Clone, Copy, Debug)]
pub struct LentLayers<'a, 'l> {
    /// The layers.
    pub layers: &'l [Layer<'a>],
    /// Whether the first is the user's.
    pub writable: bool,
}

impl<'a, 'l> LentLayers<'a, 'l> {
    ghost use Rattle.dconf_layers.specs.LayerSettings.{seen_in};

    /// These layers. Where `writable`, the first is the user's.
    pub fn new(writable: bool, layers: &'l [Layer<'a>]) -> LentLayers<'a, 'l>
        ensures { seen_in result ≡ record { layers = map settings_of layers.entry.now; writable = writable } }
    {
        LentLayers { layers, writable }
    }

    /// The first `count` layers.
    pub fn prefix(self, count: usize) -> LentLayers<'a, 'l>
        ensures { (seen_in result).layers ≡ take count (seen_in self.entry).layers }
    {
        if count >= self.layers.len() {
            return self;
        }
        LentLayers {
            layers: &self.layers[..count],
            writable: self.writable,
        }
    }

    /// The value that is seen at a path, or None where none is.
    ///
    /// It asks each layer, from the last on, whether it locks the path, and then each layer from
    /// there on for its value.
    pub fn read(self, path: KeyPath<'_>) -> Option<View<'a>>
        ensures value { visible (seen_in self.entry) (key_text path.entry) ≡ option_map value result }
        ensures lent { IfSome result (λ view. (bytes : List ℕ) × (visible_bytes (seen_in self.entry) (key_text path.entry) ≡ Some bytes) × ShowsHeld bytes view) }
    {
        let (_, bytes) = self.place(path)?;
        Some(View::of_variant(bytes))
    }

    /// Whether a path is locked: a layer from the second on has a lock that covers it.
    #[inline(always)]
    pub fn is_locked(self, path: KeyPath<'_>) -> bool
        ensures { result ≡ is_locked (seen_in self.entry) (key_text path.entry) }
    {
        self.level(path) > 0
    }

    /// Where the value that is seen at a path is: its layer, and its bytes, which are a variant's.
    #[inline(always)]
    pub(crate) fn place(self, path: KeyPath<'_>) -> Option<(usize, &'a [u8])>
        ensures { option_map {U = ℕ × List ℕ} (λ p. (p.0, p.1.now)) result ≡ place_of (seen_in self.entry) (key_text path.entry) }
    {
        let name = hashed(path);
        self.place_named(self.level_named(name), name)
    }

    /// As `place`, of bytes; None also where they are no path of a key.
    ///
    /// The bytes are looked up as they are, and looked at once more only where something is found: most keys that programs ask
    /// for have no value. Locks are asked of the layers after the first that has the path, if any has some.
    #[inline(always)]
    pub fn place_of_bytes(self, path: &[u8]) -> Option<(usize, &'a [u8])>
        ensures key { IsSome result → IsKeyText path.entry.now }
        ensures place { IsKeyText path.entry.now → option_map {U = ℕ × List ℕ} (λ p. (p.0, p.1.now)) result ≡ place_of (seen_in self.entry) path.entry.now }
    {
        let name = HashedName::new(path);
        let (first, bytes) = self.place_named(0, name)?;
        KeyPath::of_bytes(path)?;
        if !self.have_locks() {
            return Some((first, bytes));
        }
        // No layer comes after the last one.
        if first.saturating_add(1) >= self.layers.len() {
            return Some((first, bytes));
        }
        self.place_above(first, bytes, name)
    }

    /// Where the value that is seen at a path is, of which this is the first place. Locks are asked of the layers after that alone.
    /// In line it would cost registers where none has locks.
    #[inline(never)]
    pub(crate) fn place_above(
        self,
        first: usize,
        bytes: &'a [u8],
        path: HashedName<'_>,
    ) -> Option<(usize, &'a [u8])>
        requires key { IsTrue (is_key_path (name_text path)) }
        requires first { first_from 0 (seen_in self).layers (name_text path) ≡ Some (first, bytes.now) }
        ensures { option_map {U = ℕ × List ℕ} (λ p. (p.0, p.1.now)) result ≡ place_of (seen_in self.entry) (name_text path.entry) }
    {
        let level = self.level_above(first, path);
        if level <= first {
            return Some((first, bytes));
        }
        self.place_named(level, path)
    }

    /// The same without the values of the user's database.
    pub fn default_place(self, path: KeyPath<'_>) -> Option<(usize, &'a [u8])>
        ensures { option_map {U = ℕ × List ℕ} (λ p. (p.0, p.1.now)) result ≡ place_of (without_user (seen_in self.entry)) (key_text path.entry) }
    {
        let name = hashed(path);
        let level = self.level_named(name);
        if self.writable && level == 0 {
            return self.place_named(1, name);
        }
        self.place_named(level, name)
    }

    /// Whether a layer from the second on has locks. Where none has, no key is locked.
    #[inline(always)]
    pub(crate) fn have_locks(self) -> bool
        ensures exact { result ≡ list_any has_locks (drop 1 self.entry.layers.now) }
        ensures unlocked { result ≡ false → (path : List ℕ) → IsTrue (is_key_path path) → level (seen_in self.entry) path ≡ 0 }
    {
        match self.layers.split_first() {
            Some((_, others)) => any_has_locks(others),
            None => false,
        }
    }

    /// The greatest index of at least 1 whose layer locks the path; else 0. Where no layer has locks it looks at no byte of it.
    #[inline(always)]
    pub fn level(self, path: KeyPath<'_>) -> usize
        ensures { result ≡ level (seen_in self.entry) (key_text path.entry) }
    {
        if !self.have_locks() {
            return 0;
        }
        self.level_named(hashed(path))
    }

    /// The same, of a path that is hashed already.
    #[inline(always)]
    fn level_named(self, path: HashedName<'_>) -> usize
        requires { IsTrue (is_key_path (name_text path)) }
        ensures { result ≡ level (seen_in self.entry) (name_text path.entry) }
    {
        self.level_above(0, path)
    }

    /// The same, if it is above this one; else one that is not. No other layer is asked.
    #[inline(always)]
    fn level_above(self, floor: usize, path: HashedName<'_>) -> usize
        requires { IsTrue (is_key_path (name_text path)) }
        ensures above { floor < result → result ≡ level (seen_in self.entry) (name_text path.entry) }
        ensures none { result ≤ floor → level (seen_in self.entry) (name_text path.entry) ≤ floor }
    {
        let mut i = self.layers.len();
        while i > 1 {
            i -= 1;
            if i <= floor {
                return 0;
            }
            if self.locks_at(i, path) {
                return i;
            }
        }
        0
    }

    /// The first layer from that one on that has the path, and the bytes of its value. It hashes the
    /// path once.
    #[inline(always)]
    pub fn place_from(self, from: usize, path: KeyPath<'_>) -> Option<(usize, &'a [u8])>
        ensures { option_map {U = ℕ × List ℕ} (λ p. (p.0, p.1.now)) result ≡ first_from from (drop from (seen_in self.entry).layers) (key_text path.entry) }
    {
        self.place_named(from, hashed(path))
    }

    /// The same, of a name that is hashed already.
    #[inline(always)]
    fn place_named(self, from: usize, name: HashedName<'_>) -> Option<(usize, &'a [u8])>
        ensures { option_map {U = ℕ × List ℕ} (λ p. (p.0, p.1.now)) result ≡ first_from from (drop from (seen_in self.entry).layers) (name_text name.entry) }
    {
        for i in from..self.layers.len() {
            if let Some(bytes) = self.bytes_at(i, name) {
                return Some((i, bytes));
            }
        }
        None
    }

    /// Whether a layer locks a path.
    #[inline(always)]
    fn locks_at(self, i: usize, path: HashedName<'_>) -> bool
        requires within { i < length (seen_in self).layers }
        requires key { IsTrue (is_key_path (name_text path)) }
        ensures { result ≡ locks_path (name_text path.entry) (slice_index_or (seen_in self.entry).layers i no_settings) }
    {
        self.layers[i].locks_path(path)
    }

    /// The bytes of a layer's value at a path.
    #[inline(always)]
    fn bytes_at(self, i: usize, path: HashedName<'_>) -> Option<&'a [u8]>
        requires { i < length (seen_in self).layers }
        ensures { option_map (λ bytes. bytes.now) result ≡ get (slice_index_or (seen_in self.entry).layers i no_settings).values (name_text path.entry) }
    {
        self.layers[i].values.find_hashed_bytes(path)
    }
}

/// A path with its hash.
#[inline(always)]
pub(crate) fn hashed<'p>(path: KeyPath<'p>) -> HashedName<'p>
    ensures name { name_text result ≡ key_text path.entry }
    ensures key { IsTrue (is_key_path (name_text result)) }
{
    HashedName::new(path.as_str().as_bytes())
}

/// Whether one of these layers has locks.
#[inline(always)]
fn any_has_locks(layers: &[Layer<'_>]) -> bool
    ensures { result ≡ list_any has_locks layers.now }
{
    for layer in layers {
        if layer.has_locks() {
            return true;
        }
    }
    false
}
