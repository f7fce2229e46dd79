//! What a directory has in layers, by the directory's lists: no item that a list names is searched for.
ghost use Rattle.std.specs.Prelude.{◌≡◌, ◌++◌, ◌+◌, ◌<◌, [], ◌∷◌, IfOk, IsTrue, List, OnOk, map};
ghost use Rattle.std.specs.List.{All};
ghost use Rattle.dconf_model.specs.Layers.{all_paths, first_from};
ghost use Rattle.dconf_model.specs.Paths.{is_key_path};
ghost use Rattle.dconf_model.specs.Table.{key};
ghost use Rattle.dconf_model.specs.Walks.{names_in};
ghost use Rattle.dconf_path.specs.Paths.{directory_text};
ghost use Rattle.gvdb_read.specs.Tables.{region};
ghost use Rattle.dconf_layers.specs.Children.{AreChildren, ChildRow, child_name, child_row, item_row, place_shown};
ghost use Rattle.dconf_layers.specs.LayerRows.{items_of};
ghost use Rattle.dconf_layers.specs.LayerSettings.{settings_of};

use crate::layer::Layer;
use crate::lent::LentLayers;
use dconf_path::DirPath;
use std::alloc::{AllocError, Global};

/// A name that a directory has, and of a key the first layer that has it, and the bytes of its value there.
#[derive(Clone, Copy)]
pub(crate) struct Child<'a> {
    pub name: &'a str,
    pub place: Option<(usize, &'a [u8])>,
}

impl<'a> LentLayers<'a, '_> {
    ghost use Rattle.dconf_layers.specs.LayerSettings.{seen_in};

    /// What a directory has in any layer, in the byte order of the names.
    ///
    /// An error comes if an allocation fails. It is one search in each layer. Names that come in order are compared once, each with
    /// the next.
    pub(crate) fn children(
        self,
        alloc: Global,
        directory: DirPath<'_>,
    ) -> Result<Vec<Child<'a>>, AllocError>
        ensures names { IfOk result (λ children. map child_name children.items ≡ names_in (all_paths (seen_in self.entry).layers) (directory_text directory.entry)) }
        ensures places { IfOk result (λ children. All (λ child. IsTrue (is_key_path (directory_text directory.entry ++ child_name child))
            → place_shown child.place ≡ first_from 0 (seen_in self.entry).layers (directory_text directory.entry ++ child_name child)) children.items) }
    {
        let mut children = self.listed(alloc, directory)?;
        children.sort_by_key(|child| child.name)?;
        children.dedup_by_key(|child| child.name);
        Ok(children)
    }

    /// What the lists of a directory name, layer by layer.
    fn listed(self, alloc: Global, directory: DirPath<'_>) -> Result<Vec<Child<'a>>, AllocError>
        ensures { IfOk result (λ children. AreChildren 0 (seen_in self.entry).layers (directory_text directory.entry) (map child_row children.items)) }
    {
        let mut children = Vec::new(alloc);
        for i in 0..self.layers.len() {
            self.layers[i].add_children(i, directory, &mut children)?;
        }
        Ok(children)
    }
}

impl<'a> Layer<'a> {
    /// Adds what a directory has in this layer, whose index is given.
    fn add_children(
        self,
        index: usize,
        directory: DirPath<'_>,
        children: &mut Vec<Child<'a>>,
    ) -> Result<(), AllocError>
        ensures { OnOk result ((rows : List ChildRow) × AreChildren index (settings_of self.entry ∷ []) (directory_text directory.entry) rows
            × (map child_row children.new.items ≡ map child_row children.old.items ++ rows)) }
    {
        let Some(list) = self.values.find_list(directory.as_str()) else {
            return Ok(());
        };
        for k in 0..list.len() {
            children.push(self.child(index, list.number(k)))?;
        }
        Ok(())
    }

    /// An item by its own key, and its place if it is a value.
    #[inline(always)]
    fn child(self, index: usize, i: u32) -> Child<'a>
        requires { i < items_of self }
        ensures { child_row result ≡ item_row index (region self.entry.values) i }
    {
        let place = match self.value_of(i) {
            Some(bytes) => Some((index, bytes)),
            None => None,
        };
        Child {
            name: self.key(i),
            place,
        }
    }

    /// An item's own key, which is a text.
    #[inline(always)]
    pub(crate) fn key(self, i: u32) -> &'a str
        requires { i < items_of self }
        ensures { result.now ≡ key (region self.entry.values) i }
    {
        let key = self.values.item(i).unwrap().key.unwrap();
        unsafe { str::from_utf8_unchecked(key) }
    }
}
