//! The layers of a profile's databases, and what is seen through them.
ghost use Rattle.std.specs.Prelude.{◌≡◌, IfErr, IfOk, IfSome, List, None, Some, length, map, option_map, drop, true, ℕ};
ghost use Rattle.refused.specs.Faults.{OfFault};
ghost use Rattle.gv_view.specs.Views.{value};
ghost use Rattle.gvdb_read.specs.Lookups.{ShowsHeld};
ghost use Rattle.dconf_model.specs.Databases.{AreLayers, IsFirstBad};
ghost use Rattle.dconf_model.specs.Layers.{first_from, is_locked, origin, place_of, visible, visible_bytes, without_user};
ghost use Rattle.dconf_model.specs.Profiles.{has_writable};
ghost use Rattle.dconf_path.specs.Paths.{key_text};
ghost use Rattle.dconf_path.specs.Profiles.{databases_of};
ghost use Rattle.dconf_layers.specs.Verdicts.{bytes_of_files, verdict_of};
ghost use Rattle.dconf_layers.specs.LayerSettings.{settings_of};

use crate::changes::Changes;
use crate::fault::{BadDatabase, EngineFault};
use dconf_layers::{Layer, LentLayers};
use dconf_path::{DatabaseKind, KeyPath, Profile};
use gv_view::View;
use std::alloc::{AllocError, Global};
use std::fmt;
use std::marker::Model;

/// The layers of a profile's databases, lent from their files, the first database's first.
///
/// A lock of a layer from the second on hides what the layers before it have at the paths that it covers.
#[derive(Drop)]
pub struct Engine<'a> {
    pub(crate) alloc: Global,
    writable: bool,
    pub(crate) layers: Vec<Layer<'a>>,
    pub(crate) changes: Changes,
}

impl<'a> Model for Engine<'a> {
    ghost use Rattle.dconf_model.specs.Layers.{Layers};
    ghost use Rattle.dconf_engine.specs.EngineLayers.{layers_code, layers_of};

    ghost Value = { Layers };

    ghost coded = { layers_code };

    ghost view = { λ e. layers_of e.changes e.layers.items e.writable };
}

/// How many layers there are, and whether the first may be written.
impl<'a> fmt::Debug for Engine<'a> {
    ghost debug_output = { λ _. None };

    fn fmt<W: fmt::Write>(&self, f: &mut fmt::Formatter<W>) -> fmt::Result {
        let writable = self.is_writable();
        let layers = self.layers.len();
        write!(f, "Engine {{ writable: {writable}, layers: {layers} }}")
    }
}

impl<'a> Engine<'a> {
    ghost use Rattle.dconf_layers.specs.LayerSettings.{seen_in};

    /// Opens the databases of a profile. For each there is the bytes of its file, or None where there is no file: that is
    /// an empty database.
    ///
    /// `BadDatabase` has the least index whose bytes open as no sound database; `Memory` comes where a growth is refused.
    /// It takes memory once, by the number of databases, and asks of each database what [`gvdb_read::Table::check`] asks.
    pub fn open(
        alloc: Global,
        profile: &Profile<'_>,
        files: &[Option<&'a [u8]>],
    ) -> Result<Engine<'a>, EngineFault>
        requires { length files.now ≡ length (databases_of profile.now) }
        ensures layers { IfOk result (λ engine. AreLayers (bytes_of_files files.now) engine.layers) }
        ensures writable { IfOk result (λ engine. engine.writable ≡ has_writable (databases_of profile.now)) }
        ensures fault { IfErr result (OfFault (λ bad. IsFirstBad (bytes_of_files files.now) bad.0 (verdict_of bad.1))) }
    {
        let layers = open_layers(alloc, files)?;
        Ok(Engine::of_opened(alloc, is_of_user(profile), layers))
    }

    /// The engine of layers that are open: it checks none of them anew. If `writable`, the first is the user's.
    ///
    /// An error comes where a growth is refused. It copies the layers, and not their files.
    pub fn of_layers(
        alloc: Global,
        writable: bool,
        layers: &[Layer<'a>],
    ) -> Result<Engine<'a>, AllocError>
        ensures { IfOk result (λ engine. engine ≡ record { layers = map settings_of layers.now; writable = writable }) }
    {
        let mut copy = Vec::with_capacity(alloc, layers.len())?;
        copy.extend_from_slice(layers)?;
        Ok(Engine::of_opened(alloc, writable, copy))
    }

    /// The engine of these layers, of which none is changed.
    fn of_opened(alloc: Global, writable: bool, layers: Vec<Layer<'a>>) -> Engine<'a>
        ensures { result ≡ record { layers = map settings_of layers.entry.items; writable = writable } }
    {
        let changes = Changes::new(alloc);
        Engine {
            alloc,
            writable,
            layers,
            changes,
        }
    }

    /// The value that is seen at a path, or None where none is.
    ///
    /// It asks each layer, from the last on, whether it locks the path, and then each layer from there on for its value.
    pub fn read(&self, path: KeyPath<'_>) -> Option<View<'_>>
        ensures value { visible self.now (key_text path.entry) ≡ option_map value result }
        ensures lent { IfSome result (λ view. (bytes : List ℕ) × (visible_bytes self.now (key_text path.entry) ≡ Some bytes) × ShowsHeld bytes view) }
    {
        let (_, bytes) = self.place(path)?;
        Some(View::of_variant(bytes))
    }

    /// As `read`, without the values of the user's database.
    pub fn read_default(&self, path: KeyPath<'_>) -> Option<View<'_>>
        ensures value { visible (without_user self.now) (key_text path.entry) ≡ option_map value result }
        ensures lent { IfSome result (λ view. (bytes : List ℕ) × (visible_bytes (without_user self.now) (key_text path.entry) ≡ Some bytes) × ShowsHeld bytes view) }
    {
        let (_, bytes) = self.default_place(path)?;
        Some(View::of_variant(bytes))
    }

    /// Whether a path is locked: a layer from the second on has a lock that covers it.
    pub fn is_locked(&self, path: KeyPath<'_>) -> bool
        ensures { result ≡ is_locked self.now (key_text path.entry) }
    {
        self.lent().is_locked(path)
    }

    /// The index of the database whose value is seen at a path, or None where none is.
    pub fn origin(&self, path: KeyPath<'_>) -> Option<usize>
        ensures { result ≡ origin self.now (key_text path.entry) }
    {
        let (i, _) = self.place(path)?;
        Some(i)
    }

    /// Whether the first database is the user's, which may be written.
    pub fn is_writable(&self) -> bool
        ensures { result ≡ self.now.writable }
    {
        self.writable
    }

    /// Where the value that is seen at a path is: its layer, and its bytes. For the values of all layers the path is
    /// hashed once.
    fn place(&self, path: KeyPath<'_>) -> Option<(usize, &[u8])>
        ensures { option_map {U = ℕ × List ℕ} (λ p. (p.0, p.1.now)) result ≡ place_of self.now (key_text path.entry) }
    {
        let lent = self.lent();
        let level = lent.level(path);
        if level == 0 {
            return self.first_place(path);
        }
        lent.place_from(level, path)
    }

    /// The same without the values of the user's database.
    fn default_place(&self, path: KeyPath<'_>) -> Option<(usize, &[u8])>
        ensures { option_map {U = ℕ × List ℕ} (λ p. (p.0, p.1.now)) result ≡ place_of (without_user self.now) (key_text path.entry) }
    {
        if self.writable {
            return self.lent().default_place(path);
        }
        self.place(path)
    }

    /// The first layer of all that has the path, and the bytes of its value.
    fn first_place(&self, path: KeyPath<'_>) -> Option<(usize, &[u8])>
        ensures { option_map {U = ℕ × List ℕ} (λ p. (p.0, p.1.now)) result ≡ first_from 0 self.now.layers (key_text path.entry) }
    {
        let lent = LentLayers::new(self.writable, &self.layers);
        let Some(edit) = self.changes.get(path.as_str()) else {
            return lent.place_from(0, path);
        };
        let Some(bytes) = edit.bytes() else {
            return lent.place_from(1, path);
        };
        if self.layers.is_empty() {
            return None;
        }
        Some((0, bytes))
    }

    /// The layers as their files have them.
    fn lent(&self) -> LentLayers<'a, '_>
        ensures later { drop 1 (seen_in result).layers ≡ drop 1 self.now.layers }
        ensures default { self.now.writable ≡ true → without_user (seen_in result) ≡ without_user self.now }
    {
        LentLayers::new(self.writable, &self.layers)
    }
}

/// The layers of the databases whose files these are, as [`Engine::open`] opens them.
pub fn open_layers<'a>(
    alloc: Global,
    files: &[Option<&'a [u8]>],
) -> Result<Vec<Layer<'a>>, EngineFault>
    ensures layers { IfOk result (λ layers. AreLayers (bytes_of_files files.now) (map settings_of layers.items)) }
    ensures fault { IfErr result (OfFault (λ bad. IsFirstBad (bytes_of_files files.now) bad.0 (verdict_of bad.1))) }
{
    let mut layers = Vec::with_capacity(alloc, files.len())?;
    for (i, file) in files.iter().enumerate() {
        match Layer::open(*file) {
            Ok(layer) => layers.push(layer)?,
            Err(fault) => return Err(EngineFault::Fault(BadDatabase(i, fault))),
        }
    }
    Ok(layers)
}

/// Whether the first database of a profile is the user's, which may be written.
pub fn is_of_user(profile: &Profile<'_>) -> bool
    ensures { result ≡ has_writable (databases_of profile.now) }
{
    match profile.databases().first() {
        Some(database) => database.kind == DatabaseKind::User,
        None => false,
    }
}
