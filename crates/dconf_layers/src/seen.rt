//! What is seen at the keys below a directory, by a walk over what directories have. The walk has a list of its own. A search for a
//! directory costs what its path is long, so where they lie tens of thousands deep, it gives way to the names of all values.
ghost use Rattle.std.specs.Prelude.{◌≡◌, ◌++◌, ◌+◌, ◌<◌, IfNone, IfOk, IfSome, IsTrue, OnOk, false, flat_map, map, option_map, reverse, string_bytes};
ghost use Rattle.std.specs.List.{All, sum_by};
ghost use Rattle.dconf_model.specs.Layers.{all_paths, first_from, visible_bytes};
ghost use Rattle.dconf_model.specs.Paths.{is_directory_path, is_key_path};
ghost use Rattle.dconf_model.specs.Walks.{keys_at, keys_below, places_in, work_at};
ghost use Rattle.dconf_path.specs.Paths.{directory_text};
ghost use Rattle.dconf_layers.specs.Children.{child_name, place_shown};

use crate::children::Child;
use crate::lent::{LentLayers, hashed};
use dconf_path::{DirPath, KeyPath};
use std::alloc::{AllocError, Global};

/// For how many bytes more a key's path has room, since most callers append the value's text.
pub(crate) const ROOM: usize = 24;

/// How many bytes a directory's path may have for which a walk searches.
const LONGEST: usize = 1024;

/// A key, and the bytes of the value that is seen there, if any, which are a variant's.
#[derive(Drop)]
pub struct SeenKey<'a> {
    /// The path. It has room for a short text more.
    pub path: String,
    /// The bytes of the value.
    pub bytes: Option<&'a [u8]>,
}

impl<'a> LentLayers<'a, '_> {
    ghost use Rattle.dconf_layers.specs.LayerSettings.{seen_in};
    ghost use Rattle.dconf_layers.specs.Children.{IsShown, seen_path, seen_row, shown_at};

    /// The keys below a directory, in byte order, and what is seen at them. Of a key without a value a lock hides it.
    ///
    /// An error comes if an allocation fails. It searches for each directory once, and for no key but a locked one. If directories
    /// lie deep, it searches for no directory, but names each value of the layers: so it takes no longer than the paths are.
    pub fn keys_below(
        self,
        alloc: Global,
        directory: DirPath<'_>,
    ) -> Result<Vec<SeenKey<'a>>, AllocError>
        ensures seen { IfOk result (λ keys. map seen_row keys.items ≡ map (shown_at (seen_in self.entry)) (keys_below (all_paths (seen_in self.entry).layers) (directory_text directory.entry))) }
        ensures paths { IfOk result (λ keys. All (λ key. IsTrue (is_key_path (string_bytes key.path))) keys.items) }
    {
        match self.walked(alloc, directory)? {
            Some(keys) => Ok(keys),
            None => self.named(alloc, directory),
        }
    }

    /// The same by a walk, which gives up at a directory that lies deep.
    fn walked(
        self,
        alloc: Global,
        directory: DirPath<'_>,
    ) -> Result<Option<Vec<SeenKey<'a>>>, AllocError>
        ensures found { IfOk result (λ walked. IfSome walked (λ keys. map seen_path keys.items ≡ keys_below (all_paths (seen_in self.entry).layers) (directory_text directory.entry))) }
        ensures shown { IfOk result (λ walked. IfSome walked (λ keys. All (IsShown (seen_in self.entry)) keys.items)) }
    {
        let mut keys = Vec::new(alloc);
        let mut waiting = Vec::new(alloc);
        self.push_places(alloc, directory, &mut waiting)?;
        while let Some(place) = waiting.pop() {
            if lies_deep(place.path.as_str()) {
                return Ok(None);
            }
            self.visit(alloc, place, &mut keys, &mut waiting)?;
        }
        Ok(Some(keys))
    }

    /// Goes on at a place: a key is found, and of a directory the places that it leads to are waiting.
    fn visit(
        self,
        alloc: Global,
        place: SeenKey<'a>,
        keys: &mut Vec<SeenKey<'a>>,
        waiting: &mut Vec<SeenKey<'a>>,
    ) -> Result<(), AllocError>
        ensures found { OnOk result (map seen_path keys.new.items ++ flat_map (keys_at (all_paths (seen_in self.entry).layers)) (reverse (map seen_path waiting.new.items))
            ≡ map seen_path keys.old.items ++ (keys_at (all_paths (seen_in self.entry).layers) (seen_path place.entry)
            ++ flat_map (keys_at (all_paths (seen_in self.entry).layers)) (reverse (map seen_path waiting.old.items)))) }
        ensures less { OnOk result (sum_by (work_at (all_paths (seen_in self.entry).layers)) (map seen_path waiting.new.items)
            < sum_by (work_at (all_paths (seen_in self.entry).layers)) (map seen_path waiting.old.items) + work_at (all_paths (seen_in self.entry).layers) (seen_path place.entry)) }
        ensures keys_shown { OnOk result (IsShown (seen_in self.entry) place.entry → All (IsShown (seen_in self.entry)) keys.old.items → All (IsShown (seen_in self.entry)) keys.new.items) }
        ensures waiting_shown { OnOk result (All (IsShown (seen_in self.entry)) waiting.old.items → All (IsShown (seen_in self.entry)) waiting.new.items) }
    {
        match directory_at(place.path.as_str()) {
            Some(directory) => self.push_places(alloc, directory, waiting),
            None => {
                keys.push(place)?;
                Ok(())
            }
        }
    }

    /// Puts the places that a directory leads to behind others, the first of them at the end.
    fn push_places(
        self,
        alloc: Global,
        directory: DirPath<'_>,
        waiting: &mut Vec<SeenKey<'a>>,
    ) -> Result<(), AllocError>
        ensures places { OnOk result (map seen_path waiting.new.items
            ≡ map seen_path waiting.old.items ++ reverse (places_in (all_paths (seen_in self.entry).layers) (directory_text directory.entry))) }
        ensures shown { OnOk result (All (IsShown (seen_in self.entry)) waiting.old.items → All (IsShown (seen_in self.entry)) waiting.new.items) }
    {
        let mut children = self.children(alloc, directory)?;
        while let Some(child) = children.pop() {
            waiting.push(self.place_of_child(alloc, directory, child)?)?;
        }
        Ok(())
    }

    /// The path of what a directory has, and what is seen there if it is a key.
    fn place_of_child(
        self,
        alloc: Global,
        directory: DirPath<'_>,
        child: Child<'a>,
    ) -> Result<SeenKey<'a>, AllocError>
        requires { IsTrue (is_key_path (directory_text directory ++ child_name child)) → place_shown child.place ≡ first_from 0 (seen_in self).layers (directory_text directory ++ child_name child) }
        ensures path { IfOk result (λ place. seen_path place ≡ directory_text directory.entry ++ child_name child.entry) }
        ensures shown { IfOk result (λ place. IsShown (seen_in self.entry) place) }
    {
        let path = path_at(alloc, directory, child.name)?;
        let bytes = self.bytes_above(path.as_str(), child.place);
        Ok(SeenKey { path, bytes })
    }

    /// The bytes of the value that is seen at a path, if it is a key's whose first place this is.
    #[inline(always)]
    fn bytes_above(self, path: &str, first: Option<(usize, &'a [u8])>) -> Option<&'a [u8]>
        requires { IsTrue (is_key_path path.now) → place_shown first ≡ first_from 0 (seen_in self).layers path.now }
        ensures { IsTrue (is_key_path path.entry.now) → option_map (λ bytes. bytes.now) result ≡ visible_bytes (seen_in self.entry) path.entry.now }
    {
        let (layer, bytes) = first?;
        if !self.have_locks() {
            return Some(bytes);
        }
        match KeyPath::parse(path) {
            Ok(path) => {
                let (_, bytes) = self.place_above(layer, bytes, hashed(path))?;
                Some(bytes)
            }
            Err(_) => None,
        }
    }
}

/// Whether a place is a directory with so long a path that searches of all those above it would be dear. It decides alone how keys
/// are found: both ways give the same.
fn lies_deep(place: &str) -> bool {
    place.len() > LONGEST && place.ends_with("/")
}

/// The directory that a place is, if it is one. Of a key's path it looks at the last byte alone.
fn directory_at(place: &str) -> Option<DirPath<'_>>
    ensures some { IfSome result (λ directory. (directory_text directory ≡ place.entry.now) × IsTrue (is_directory_path place.entry.now)) }
    ensures none { IfNone result (is_directory_path place.entry.now ≡ false) }
{
    if !place.ends_with("/") {
        return None;
    }
    match DirPath::parse(place) {
        Ok(directory) => Some(directory),
        Err(_) => None,
    }
}

/// The path of a name in a directory, with room for more.
fn path_at(alloc: Global, directory: DirPath<'_>, name: &str) -> Result<String, AllocError>
    ensures { IfOk result (λ path. string_bytes path ≡ directory_text directory.entry ++ name.now) }
{
    let directory = directory.as_str();
    let room = directory
        .len()
        .saturating_add(name.len())
        .saturating_add(ROOM);
    let mut path = String::with_capacity(alloc, room)?;
    path.push_str(directory)?;
    path.push_str(name)?;
    Ok(path)
}
